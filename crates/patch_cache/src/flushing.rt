//! How all that is ready is written: each write is begun, written out and completed.
ghost use Rattle.std.specs.Prelude.{Bool, ◌≡◌, ◌+◌, ◌*◌, ◌≤◌, ◌↔◌, ◌++◌, ℕ, List, [], false, None, length, count_by, IfOk, OnOk, OnErr, MatchResult};
ghost use Rattle.patch_model.specs.Execution.{Execution, followed_by};
ghost use Rattle.patch_model.specs.Refusing.{why_not_sent};
ghost use Rattle.patch_device.specs.SameDevice.{IsSameDevice, IsLasting};
ghost use Rattle.patch_cache.specs.declared.landing.TheConstants.{TRIES};
ghost use Rattle.patch_cache.specs.Running.{Runs, RunsBeside, RunsOn, RunsOnBeside, held_by};
ghost use Rattle.patch_cache.specs.Refused.{IfGivenUp};
ghost use Rattle.patch_cache.specs.Waves.{is_send, steps_since, Continues, HasGoneOn, HasGoneOnBeside, KeepsDisk, KeepsDiskBeside, StaysBeside, RisesIfGivenUp, IsHeldIfGivenUp, begun, IsSentOr, HoldsBegun, IsPass, NoneCanBegin, IsFlushed, HasWrittenOne};
ghost use Rattle.patch_cache.specs.Tries.{EachTried, HoldsMore, NoneLost};

use crate::caches::Cache;
use crate::flights::Flights;
use crate::refusals::FlushRefusal;
use patch_device::Device;
use patch_model::{BlockNo, OutOfMemory, laws as model_laws};
use std::alloc::Allocator;

impl<A: Allocator + Copy> Cache<A> {
    /// Begins a write of the block, if one can begin, and holds its flight. Whether one did.
    fn send_if_ready(
        &mut self,
        flights: &mut Flights<A>,
        block: BlockNo,
    ) -> Result<bool, OutOfMemory>
        ensures sent { (others : Bool) (run : Execution) → RunsBeside others self.old flights.old run
            → IfOk result (λ sent. IsSentOr others run block sent self.new flights.new) }
        ensures cause { (run : Execution) → Runs self.old flights.old run → OnErr result (why_not_sent run block ≡ None) }
        ensures trace { IfOk result (λ sent. self.new.trace ≡ self.old.trace ++ begun block sent) }
        ensures refused { OnErr result (self.new ≡ self.old) }
        ensures more { (others : Bool) (run : Execution) → RunsBeside others self.old flights.old run
            → IfOk result (λ sent. HoldsBegun block sent flights.old flights.new) }
        ensures count { IfOk result (λ sent. length (held_by flights.new) ≡ length (held_by flights.old) + count_by is_send (begun block sent)) }
        ensures kept { IfOk result (λ sent. sent ≡ false → held_by flights.new ≡ held_by flights.old) }
        ensures held { OnErr result (held_by flights.new ≡ held_by flights.old) }
    {
        model_laws::steps_extend();
        model_laws::pairs_merge();
        model_laws::flights_are_ready();
        model_laws::images_stay();
        if self.why_not_sent(block).is_some() {
            return Ok(false);
        }
        flights.held.reserve(1)?;
        let flight = self.send_ready(block)?;
        flights.held.push_reserved(flight);
        Ok(true)
    }

    /// Begins a write of each block of which one can begin, and holds the flights. Whether there was such a block.
    fn send_all(&mut self, flights: &mut Flights<A>) -> Result<bool, OutOfMemory>
        ensures ran { (others : Bool) (run : Execution) → RunsBeside others self.old flights.old run
            → HasGoneOnBeside others run (steps_since self.old self.new) self.new flights.new }
        ensures trace { Continues self.old self.new }
        ensures stays { (others : Bool) → StaysBeside others self.old self.new flights.old }
        ensures pass { (others : Bool) (run : Execution) → RunsBeside others self.old flights.old run
            → IfOk result (λ sent. IsPass run sent (steps_since self.old self.new)) }
        ensures more { (others : Bool) (run : Execution) (block : ℕ) → RunsBeside others self.old flights.old run
            → HoldsMore (steps_since self.old self.new) flights.old flights.new block }
        ensures count { OnOk result (length (held_by flights.new) ≡ length (held_by flights.old) + count_by is_send (steps_since self.old self.new)) }
        ensures kept { IfOk result (λ sent. sent ≡ false → held_by flights.new ≡ held_by flights.old) }
    {
        model_laws::steps_extend();
        model_laws::pairs_merge();
        model_laws::executions_are_orderly();
        model_laws::ready_is_largest();
        model_laws::images_stay();
        model_laws::disks_stay();
        model_laws::patches_are_placed();
        model_laws::paths_form_no_ring();
        let mut sent = false;
        let mut from = 0;
        while let Some(block) = self.graph.next_open(from) {
            let more = self.send_if_ready(flights, block)?;
            sent = sent || more;
            from = block.0 as usize + 1;
        }
        Ok(sent)
    }

    /// Begins the write of the least block of which one can begin, writes out all that is held, syncs the device, and completes it. Whether
    /// there was such a block. Called until it answers false, with nothing held at first, it brings the patches to the disk
    /// one flight at a time.
    pub fn write_next<D: Device>(
        &mut self,
        flights: &mut Flights<A>,
        device: &mut D,
    ) -> Result<bool, FlushRefusal>
        ensures ran { (run : Execution) → Runs self.old flights.old run
            → HasGoneOn run (steps_since self.old self.new) self.new flights.new }
        ensures trace { Continues self.old self.new }
        ensures disk { D.is_honest device.old
            → KeepsDisk D.Device self.old self.new flights.old device.old device.new }
        ensures wrote { (run : Execution) → Runs self.old flights.old run → held_by flights.old ≡ []
            → IfOk result (λ wrote. HasWrittenOne run wrote (steps_since self.old self.new)) }
        ensures pass { (others : Bool) (run : Execution) → RunsBeside others self.old flights.old run
            → IfOk result (λ wrote. IsPass run wrote (steps_since self.old self.new)) }
        ensures none_lost { (others : Bool) (run : Execution) → RunsBeside others self.old flights.old run
            → NoneLost (steps_since self.old self.new) flights.old flights.new }
        ensures each { (others : Bool) (run : Execution) → RunsBeside others self.old flights.old run
            → EachTried D.Device (steps_since self.old self.new) (held_by flights.old) device.old device.new }
        ensures one { count_by is_send (steps_since self.old self.new) ≤ 1 }
        ensures tries { D.moment device.new
            ≤ D.moment device.old + (TRIES + 1) * (length (held_by flights.old) + count_by is_send (steps_since self.old self.new)) }
        ensures gave_up { (run : Execution) → RunsOn D.Device self.old flights.old device.old run
            → RisesIfGivenUp result (D.fault_count device.old) (D.fault_count device.new) }
        ensures refused { (run : Execution) → RunsOn D.Device self.old flights.old device.old run
            → IfGivenUp D.Device result flights.new device.old device.new }
        ensures held { IsHeldIfGivenUp result flights.new }
        ensures landed { OnOk result (held_by flights.old ≡ [] → held_by flights.new ≡ []) }
        ensures lasts { D.is_honest device.old → OnOk result (IsLasting D.Device device.old → IsLasting D.Device device.new) }
        ensures device { IsSameDevice D.Device device.old device.new }
    {
        model_laws::steps_extend();
        model_laws::pairs_merge();
        model_laws::executions_are_orderly();
        model_laws::ready_is_largest();
        model_laws::images_stay();
        model_laws::disks_stay();
        model_laws::some_is_ready();
        model_laws::patches_are_placed();
        let Some(block) = self.next_ready() else {
            return Ok(false);
        };
        if !self.send_if_ready(flights, block)? {
            return Ok(false);
        }
        self.land(flights, device)?;
        Ok(true)
    }

    /// Brings all patches to the disk, in waves: writes out all held flights, syncs the device and completes them, and then begins
    /// all writes that can begin and does the same with them, until none can begin. So what is written rests on nothing that a cut
    /// of the power can still take away. Where it is refused, what was completed stays so, and the other flights are held: the next
    /// call goes on from there, but not on a device that refused a sync.
    pub fn flush<D: Device>(
        &mut self,
        flights: &mut Flights<A>,
        device: &mut D,
    ) -> Result<(), FlushRefusal>
        ensures ran { (others : Bool) (run : Execution) → RunsBeside others self.old flights.old run
            → HasGoneOnBeside others run (steps_since self.old self.new) self.new flights.new }
        ensures trace { Continues self.old self.new }
        ensures disk { D.is_honest device.old
            → (others : Bool) → KeepsDiskBeside D.Device others self.old self.new flights.old device.old device.new }
        ensures done { (others : Bool) (run : Execution) → RunsBeside others self.old flights.old run
            → OnOk result (NoneCanBegin (followed_by run (steps_since self.old self.new))) }
        ensures none_lost { (others : Bool) (run : Execution) → RunsBeside others self.old flights.old run
            → NoneLost (steps_since self.old self.new) flights.old flights.new }
        ensures each { (others : Bool) (run : Execution) → RunsBeside others self.old flights.old run
            → EachTried D.Device (steps_since self.old self.new) (held_by flights.old) device.old device.new }
        ensures flushed { (run : Execution) → Runs self.old flights.old run
            → OnOk result (IsFlushed (followed_by run (steps_since self.old self.new))) }
        ensures tries { D.moment device.new
            ≤ D.moment device.old + (TRIES + 1) * (length (held_by flights.old) + count_by is_send (steps_since self.old self.new)) }
        ensures gave_up { (others : Bool) (run : Execution) → RunsOnBeside D.Device others self.old flights.old device.old run
            → RisesIfGivenUp result (D.fault_count device.old) (D.fault_count device.new) }
        ensures refused { (others : Bool) (run : Execution) → RunsOnBeside D.Device others self.old flights.old device.old run
            → IfGivenUp D.Device result flights.new device.old device.new }
        ensures held { IsHeldIfGivenUp result flights.new }
        ensures landed { OnOk result (held_by flights.new ≡ []) }
        ensures lasts { D.is_honest device.old → OnOk result (IsLasting D.Device device.old → IsLasting D.Device device.new) }
        ensures device { IsSameDevice D.Device device.old device.new }
    {
        model_laws::some_is_ready();
        model_laws::pairs_merge();
        model_laws::patches_are_placed();
        let turns = u64::from(self.live()) + 1;
        self.land(flights, device)?;
        for _ in 0..turns {
            if !self.send_all(flights)? {
                return Ok(());
            }
            self.land(flights, device)?;
        }
        Ok(())
    }
}

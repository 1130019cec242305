//! How a write of a block begins, what goes to the disk, and how it ends.
ghost use Rattle.std.specs.Prelude.{◌≡◌, None, length, Contains, MatchOption, IfErr, IfOk, IfSome, OnOk, OnErr};
ghost use Rattle.std.specs.List.{position};
ghost use Rattle.patch_model.specs.declared.blocks.TheConstants.{BLOCK};
ghost use Rattle.patch_model.specs.Execution.{Execution, extended};
ghost use Rattle.patch_model.specs.History.{history_of, image};
ghost use Rattle.patch_model.specs.Refusing.{why_not_sent};
ghost use Rattle.patch_model.specs.State.{entries_of, state_of, flying_of, numbers_of};
ghost use Rattle.patch_model.specs.Step.{Complete};
ghost use Rattle.patch_cache.specs.Flights.{IsLeastReady};
ghost use Rattle.patch_cache.specs.Paging.{if_resident};
ghost use Rattle.patch_cache.specs.Refusals.{send_cause, IsCause};
ghost use Rattle.patch_engine.specs.Meaning.{IsEngineOf, IsAsBefore, IsBegun, IsOut, IsNotOut, is_numbered};

use crate::engines::Engine;
use crate::refusals::Stranger;
use patch_cache::{Flight, SendRefusal, laws as cache_laws};
use patch_model::{BlockNo, PatchNo, laws as model_laws};
use patch_plans::laws as plan_laws;
use std::alloc::Allocator;

impl<A: Allocator + Copy> Engine<A> {
    /// The least block of which a write can begin now. It takes no memory.
    pub fn next_ready(&mut self) -> Option<BlockNo>
        ensures answer { (run : Execution) → IsEngineOf self.old run → IsLeastReady run result }
        ensures same { self.new ≡ self.old }
    {
        self.cache.next_ready()
    }

    /// Begins a write of the block: takes all of its classes that may go to the disk together, which is the largest such set. Its
    /// image is copied, and its number is unlike that of any other that began since the engine was opened or began anew. The write is
    /// held until it is completed. All memory is taken before it begins.
    pub fn send(&mut self, block: BlockNo, into: &mut [u8]) -> Result<u32, SendRefusal>
        requires { length into.old ≡ BLOCK }
        ensures sent { (run : Execution) → IsEngineOf self.old run → IfOk result (λ number. IsBegun run block number into.new self.new) }
        ensures cause { (run : Execution) → IsEngineOf self.old run → IfErr result (λ refusal.
            IsCause (if_resident self.old.cache block (why_not_sent run block)) (send_cause refusal)) }
        ensures refused { OnErr result (IsAsBefore self.old self.new) }
        ensures not_copied { OnErr result (into.new ≡ into.old) }
    {
        model_laws::pairs_merge();
        cache_laws::flights_begin_and_end::<A>();
        plan_laws::order_is_kept();
        if let Some(refusal) = self.cache.why_not_sent(block) {
            return Err(refusal);
        }
        if self.held.reserve(1).is_err() {
            return Err(SendRefusal::OutOfMemory);
        }
        let flight = self.cache.send(block)?;
        let number = flight.number();
        into.copy_from_slice(flight.image());
        self.held.push_reserved(flight);
        self.cache.clear_trace();
        Ok(number)
    }

    /// The image of a write that is out, to be written again.
    pub fn image(&self, block: BlockNo, number: u32) -> Option<&[u8]>
        ensures answer { (run : Execution) → IsEngineOf self.now run → MatchOption result (IsNotOut run block number)
            (λ bytes. IsOut run block number × (bytes.now ≡ image (history_of run block))) }
        ensures length { IfSome result (λ bytes. length bytes.now ≡ BLOCK) }
    {
        model_laws::flights_are_single();
        match self.place_of(block, number) {
            Some(at) => Some(self.held[at].image()),
            None => None,
        }
    }

    /// The patches of a write that is out, rising.
    pub fn flight(&self, block: BlockNo, number: u32) -> Option<&[PatchNo]>
        ensures { (run : Execution) → IsEngineOf self.now run → MatchOption result (IsNotOut run block number)
            (λ numbers. IsOut run block number × (numbers.now ≡ numbers_of (flying_of (entries_of run) block))) }
    {
        model_laws::flights_are_single();
        match self.place_of(block, number) {
            Some(at) => Some(self.held[at].numbers()),
            None => None,
        }
    }

    /// Ends a write that the disk has: what was in it is durable. It takes no memory.
    pub fn complete(&mut self, block: BlockNo, number: u32) -> Result<(), Stranger>
        ensures done { (run : Execution) → IsEngineOf self.old run → OnOk result
            (IsOut run block number × IsEngineOf self.new (extended run (Complete block))) }
        ensures stranger { (run : Execution) → IsEngineOf self.old run → OnErr result (IsNotOut run block number) }
        ensures refused { (run : Execution) → IsEngineOf self.old run → OnErr result (self.new ≡ self.old) }
    {
        model_laws::flights_are_single();
        cache_laws::flights_begin_and_end::<A>();
        plan_laws::order_is_kept();
        let Some(at) = self.place_of(block, number) else {
            return Err(Stranger);
        };
        let landed = self.held.swap_remove(at).landed();
        match self.cache.complete(landed) {
            Ok(_done) => {
                self.cache.clear_trace();
                Ok(())
            }
            // Never so in an engine that represents an execution: the write is one of its cache. Of no other is anything promised.
            Err(stranger) => {
                stranger.abandon();
                Err(Stranger)
            }
        }
    }

    /// The place of the write of this block and number among those that are held.
    fn place_of(&self, block: BlockNo, number: u32) -> Option<usize>
        ensures { result ≡ position (is_numbered block number) self.now.held.items }
    {
        self.held
            .iter()
            .position(|flight| is_numbered(flight, block, number))
    }
}

/// Whether the write is of this block and number.
fn is_numbered<A: Allocator>(flight: &Flight<A>, block: BlockNo, number: u32) -> bool
    ensures { result ≡ is_numbered block number flight.now }
{
    flight.block() == block && flight.number() == number
}

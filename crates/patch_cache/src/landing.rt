//! How the flights that are held are written out, made to last, and completed.
ghost use Rattle.std.specs.Prelude.{Bool, ◌≡◌, ◌≢◌, ◌+◌, ◌*◌, ◌<◌, ◌≤◌, ◌↔◌, List, ℕ, [], Err, length, count_by, slice_set, IfOk, IfErr, OnOk, OnErr};
ghost use Rattle.patch_model.specs.Execution.{Execution};
ghost use Rattle.patch_device.specs.SameDevice.{IsSameDevice, IsLasting};
ghost use Rattle.patch_device.specs.Device.{IsOldOrNew};
ghost use Rattle.patch_cache.specs.Running.{Runs, RunsBeside, RunsOnBeside, held_by};
ghost use Rattle.patch_cache.specs.Waves.{is_send, steps_since, Continues, HasRisenBy, HasGivenUp, HasGoneOnBeside, KeepsDiskBeside, StaysOnImages, with_flights, EndsFirst, EndsOne, AreOnDevice, IsOneOf, StillHolds, IsTriedSafely, AreTriedSafely, IsHeldIfGivenUp, RisesIfGivenUp};
ghost use Rattle.patch_cache.specs.Refused.{AreRefused, HasRefusedHeld, IfGivenUp};
ghost use Rattle.patch_cache.specs.Tries.{AreTried, IsWave, NoneLost};
ghost use Rattle.patch_cache.specs.declared.refusals.FlushRefusal.TheVariants as flush;

use crate::caches::Cache;
use crate::flights::{Flight, Flights, Landed};
use crate::refusals::{DeviceGaveUp, Fault, FlushRefusal};
use crate::writes::write_image;
use patch_device::Device;
use patch_model::laws as model_laws;
use std::alloc::Allocator;

/// How often the write of one flight is tried before the device is given up.
pub const TRIES: u32 = 8;

/// Writes the image of a flight that stays as it is, and again each time that the device refuses it, at most [`TRIES`]
/// times in all.
fn write_tried<A: Allocator, D: Device>(device: &mut D, flight: &Flight<A>) -> Result<(), Fault>
    ensures device { IsSameDevice D.Device device.old device.new }
    ensures cause { flight.now.block < D.block_count device.old
        → OnErr result (HasRisenBy TRIES (D.fault_count device.old) (D.fault_count device.new)) }
    ensures refused { flight.now.block < D.block_count device.old
        → OnErr result (AreRefused D.Device flight.now.block flight.now.image TRIES device.old device.new) }
    ensures tries { D.moment device.new ≤ D.moment device.old + TRIES }
    ensures written { D.is_honest device.old
        → OnOk result (D.contents device.new ≡ slice_set (D.contents device.old) flight.now.block flight.now.image) }
    ensures either { D.is_honest device.old
        → IsOldOrNew (D.contents device.old) flight.now.block flight.now.image (D.contents device.new) }
    ensures crash { D.is_honest device.old → IsTriedSafely D.Device flight.now device.old device.new }
{
    model_laws::images_land();
    for _ in 0..TRIES {
        if write_image(device, flight).is_ok() {
            return Ok(());
        }
    }
    Err(Fault)
}

/// Writes a flight out as [`write_out`](crate::write_out) does, and again each time that the device refuses it, at most [`TRIES`] times in
/// all. Where the device is given up the flight comes back.
pub fn write_out_tried<A: Allocator, D: Device>(
    device: &mut D,
    flight: Flight<A>,
) -> Result<Landed, Flight<A>>
    requires { flight.block < D.block_count device.old }
    ensures landed { IfOk result (λ landed. (landed.block ≡ flight.block) × (landed.sequence ≡ flight.sequence)) }
    ensures back { IfErr result (λ back. back ≡ flight) }
    ensures device { IsSameDevice D.Device device.old device.new }
    ensures gave_up { OnErr result (HasGivenUp (D.fault_count device.old) (D.fault_count device.new)) }
    ensures refused { OnErr result (AreRefused D.Device flight.block flight.image TRIES device.old device.new) }
{
    match write_tried(device, &flight) {
        Ok(()) => Ok(flight.landed()),
        Err(_) => Err(flight),
    }
}

/// Writes the images of all these flights, in their order, each tried at most [`TRIES`] times.
fn write_each<A: Allocator, D: Device>(
    device: &mut D,
    held: &[Flight<A>],
) -> Result<(), DeviceGaveUp>
    ensures device { IsSameDevice D.Device device.old device.new }
    ensures tries { D.moment device.new ≤ D.moment device.old + TRIES * length held.now }
    ensures each { AreTried D.Device held.now device.old device.new }
    ensures written { D.is_honest device.old
        → OnOk result (D.contents device.new ≡ with_flights (D.contents device.old) held.now) }
    ensures cause { AreOnDevice D.Device held.now device.old
        → OnErr result (HasGivenUp (D.fault_count device.old) (D.fault_count device.new)) }
    ensures refused { AreOnDevice D.Device held.now device.old
        → IfErr result (λ refusal. HasRefusedHeld D.Device refusal.0 held.now device.old device.new) }
    ensures block { IfErr result (λ refusal. IsOneOf refusal.0 held.now) }
    ensures crash { D.is_honest device.old → AreTriedSafely D.Device held.now device.old device.new }
{
    for flight in held {
        if write_tried(device, flight).is_err() {
            return Err(DeviceGaveUp(flight.block));
        }
    }
    Ok(())
}

impl<A: Allocator + Copy> Cache<A> {
    /// Completes the flight that is held first: what it wrote lasts.
    fn complete_first(&mut self, flights: &mut Flights<A>)
        requires some { 0 < length (held_by flights.old) }
        ensures ran { (others : Bool) (run : Execution) → RunsBeside others self.old flights.old run
            → HasGoneOnBeside others run (steps_since self.old self.new) self.new flights.new }
        ensures trace { Continues self.old self.new }
        ensures ends { count_by is_send (steps_since self.old self.new) ≡ 0 }
        ensures none_lost { (others : Bool) (run : Execution) → RunsBeside others self.old flights.old run
            → NoneLost (steps_since self.old self.new) flights.old flights.new }
        ensures stays { (others : Bool) → StaysOnImages others self.old self.new flights.old }
        ensures first { (run : Execution) → Runs self.old flights.old run → EndsFirst flights.old self.old self.new }
        ensures landed { length (held_by flights.new) + 1 ≡ length (held_by flights.old) }
        ensures held { StillHolds flights.old flights.new }
    {
        model_laws::steps_extend();
        model_laws::flights_are_ready();
        model_laws::flights_are_single();
        model_laws::patches_are_placed();
        model_laws::images_stay();
        model_laws::writes_end();
        let landed = flights.held.swap_remove(0).landed();
        match self.complete(landed) {
            Ok(_) => {}
            Err(stranger) => stranger.abandon(),
        }
    }

    /// Completes all flights that are held: what they wrote lasts.
    fn complete_held(&mut self, flights: &mut Flights<A>)
        ensures ran { (others : Bool) (run : Execution) → RunsBeside others self.old flights.old run
            → HasGoneOnBeside others run (steps_since self.old self.new) self.new flights.new }
        ensures trace { Continues self.old self.new }
        ensures ends { count_by is_send (steps_since self.old self.new) ≡ 0 }
        ensures none_lost { (others : Bool) (run : Execution) → RunsBeside others self.old flights.old run
            → NoneLost (steps_since self.old self.new) flights.old flights.new }
        ensures stays { (others : Bool) → StaysOnImages others self.old self.new flights.old }
        ensures one { (run : Execution) → Runs self.old flights.old run → EndsOne flights.old self.old self.new }
        ensures landed { held_by flights.new ≡ [] }
    {
        while !flights.held.is_empty() {
            self.complete_first(flights);
        }
    }

    /// Writes all flights out that are held, syncs the device once, and then completes them; it begins no write. Where the device
    /// refuses one of them [`TRIES`] times, or the sync, nothing is completed, and the flights are held as before.
    pub fn land<D: Device>(
        &mut self,
        flights: &mut Flights<A>,
        device: &mut D,
    ) -> Result<(), FlushRefusal>
        ensures ran { (others : Bool) (run : Execution) → RunsBeside others self.old flights.old run
            → HasGoneOnBeside others run (steps_since self.old self.new) self.new flights.new }
        ensures trace { Continues self.old self.new }
        ensures ends { count_by is_send (steps_since self.old self.new) ≡ 0 }
        ensures disk { D.is_honest device.old
            → (others : Bool) → KeepsDiskBeside D.Device others self.old self.new flights.old device.old device.new }
        ensures device { IsSameDevice D.Device device.old device.new }
        ensures gave_up { (others : Bool) (run : Execution) → RunsOnBeside D.Device others self.old flights.old device.old run
            → RisesIfGivenUp result (D.fault_count device.old) (D.fault_count device.new) }
        ensures refused { (others : Bool) (run : Execution) → RunsOnBeside D.Device others self.old flights.old device.old run
            → IfGivenUp D.Device result flights.new device.old device.new }
        ensures memory { result ≢ Err flush.OutOfMemory }
        ensures tries { D.moment device.new ≤ D.moment device.old + (TRIES + 1) * length (held_by flights.old) }
        ensures wave { IsWave D.Device (held_by flights.old) device.old device.new }
        ensures none_lost { (others : Bool) (run : Execution) → RunsBeside others self.old flights.old run
            → NoneLost (steps_since self.old self.new) flights.old flights.new }
        ensures one { (run : Execution) → Runs self.old flights.old run → OnOk result (EndsOne flights.old self.old self.new) }
        ensures landed { OnOk result (held_by flights.new ≡ []) }
        ensures lasts { D.is_honest device.old → OnOk result (IsLasting D.Device device.old → IsLasting D.Device device.new) }
        ensures kept { OnErr result ((self.new ≡ self.old) × (held_by flights.new ≡ held_by flights.old)) }
        ensures held { IsHeldIfGivenUp result flights.new }
    {
        model_laws::flights_are_single();
        model_laws::patches_are_placed();
        if flights.held.is_empty() {
            return Ok(());
        }
        write_each(device, flights.held.as_slice())?;
        if device.sync().is_err() {
            return Err(FlushRefusal::SyncFailed);
        }
        self.complete_held(flights);
        Ok(())
    }
}

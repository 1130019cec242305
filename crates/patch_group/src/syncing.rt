//! How the patches of a group are brought to the disk.
ghost use Rattle.std.specs.Prelude.{◌≡◌, ◌+◌, ◌*◌, ◌<◌, ◌≤◌, ◌↔◌, [], Some, Err, OnOk, IfOk, length, take, count_by};
ghost use Rattle.patch_model.specs.declared.refusals.RefusalKind.TheVariants as kind;
ghost use Rattle.patch_model.specs.Execution.{Execution, followed_by};
ghost use Rattle.patch_model.specs.State.{entries_of};
ghost use Rattle.patch_model.specs.Refusing.{bare};
ghost use Rattle.patch_device.specs.SameDevice.{IsSameDevice, IsLasting};
ghost use Rattle.patch_cache.specs.Meaning.{IsCacheOf};
ghost use Rattle.patch_cache.specs.Running.{Runs, RunsOn, held_by};
ghost use Rattle.patch_cache.specs.Refused.{IfGivenUp};
ghost use Rattle.patch_cache.specs.declared.landing.TheConstants.{TRIES};
ghost use Rattle.patch_cache.specs.Waves.{is_send, steps_since, Continues, HasGoneOn, KeepsDisk, RisesIfGivenUp, IsHeldIfGivenUp};
ghost use Rattle.patch_cache.specs.Tries.{EachTried};
ghost use Rattle.patch_plans.specs.Groups.{patches_of, pending, why_not_counted};
ghost use Rattle.patch_group.specs.Syncing.{NonePending, SomePending, IsSynced, StandsAfter, RisesIfSyncStops, IfSyncStops, IsHeldIfSyncStops};
ghost use Rattle.patch_group.specs.declared.refusals.SyncRefusal.TheVariants as refusal;

use crate::calls::Groups;
use crate::counting::is_pending;
use crate::refusals::SyncRefusal;
use patch_cache::{Cache, Flights, FlushRefusal, laws as cache_laws};
use patch_device::Device;
use patch_model::{GroupNo, PatchNo, laws as model_laws};
use patch_plans::laws as plan_laws;
use std::alloc::Allocator;

/// Brings all patches of the group to the disk: writes out all held flights, syncs the device and completes them, and then begins a
/// write of the least block of which one can begin, writes it out, syncs and completes it, until nothing of the group is pending.
/// Where the device gives a flight up, or a sync fails, the flights are held as before; what was completed stays so.
pub fn sync<A: Allocator + Copy, D: Device>(
    groups: &Groups<A>,
    cache: &mut Cache<A>,
    flights: &mut Flights<A>,
    device: &mut D,
    group: GroupNo,
) -> Result<(), SyncRefusal>
    ensures ran { (run : Execution) → Runs cache.old flights.old run
        → HasGoneOn run (steps_since cache.old cache.new) cache.new flights.new }
    ensures stands { StandsAfter D.Device groups.now cache.old flights.old device.old cache.new flights.new device.new }
    ensures trace { Continues cache.old cache.new }
    ensures disk { D.is_honest device.old → KeepsDisk D.Device cache.old cache.new flights.old device.old device.new }
    ensures steps { (run : Execution) → Runs cache.old flights.old run
        → OnOk result (IsSynced (patches_of groups.now group) run (steps_since cache.old cache.new)) }
    ensures synced { (run : Execution) → Runs cache.old flights.old run
        → OnOk result (pending (entries_of (followed_by run (steps_since cache.old cache.new))) groups.now group ≡ 0) }
    ensures known { OnOk result (why_not_counted groups.now group ≡ None) }
    ensures no_group { (result ≡ Err refusal.NoSuchGroup) ↔ (why_not_counted groups.now group ≡ Some (bare kind.NoSuchGroup)) }
    ensures unchanged { result ≡ Err refusal.NoSuchGroup
        → (cache.new ≡ cache.old) × (flights.new ≡ flights.old) × (device.new ≡ device.old) }
    ensures gave_up { (run : Execution) → RunsOn D.Device cache.old flights.old device.old run
        → RisesIfSyncStops result (D.fault_count device.old) (D.fault_count device.new) }
    ensures refused { (run : Execution) → RunsOn D.Device cache.old flights.old device.old run
        → IfSyncStops D.Device result flights.new device.old device.new }
    ensures each { (run : Execution) → Runs cache.old flights.old run
        → EachTried D.Device (steps_since cache.old cache.new) (held_by flights.old) device.old device.new }
    ensures tries { D.moment device.new
        ≤ D.moment device.old + (TRIES + 1) * (length (held_by flights.old) + count_by is_send (steps_since cache.old cache.new)) }
    ensures held { IsHeldIfSyncStops result flights.new }
    ensures landed { OnOk result (held_by flights.new ≡ []) }
    ensures lasts { D.is_honest device.old → OnOk result (IsLasting D.Device device.old → IsLasting D.Device device.new) }
    ensures device { IsSameDevice D.Device device.old device.new }
{
    model_laws::steps_extend();
    model_laws::ready_is_largest();
    cache_laws::traces_join();
    cache_laws::stretches_join::<A, D>();
    cache_laws::tries_join::<A, D>();
    plan_laws::order_is_kept();
    if !groups.is_open(group) {
        return Err(SyncRefusal::NoSuchGroup);
    }
    cache.land(flights, device)?;
    let waiting = groups.list_pending(group, cache)?;
    write_all_of(cache, flights, device, waiting.as_slice())?;
    Ok(())
}

/// Writes what can be written, one flight at a time, until all these patches are on the disk. Those that are there are
/// passed over, and not looked at again.
fn write_all_of<A: Allocator + Copy, D: Device>(
    cache: &mut Cache<A>,
    flights: &mut Flights<A>,
    device: &mut D,
    waiting: &[PatchNo],
) -> Result<(), FlushRefusal>
    ensures ran { (run : Execution) → Runs cache.old flights.old run
        → HasGoneOn run (steps_since cache.old cache.new) cache.new flights.new }
    ensures trace { Continues cache.old cache.new }
    ensures disk { D.is_honest device.old → KeepsDisk D.Device cache.old cache.new flights.old device.old device.new }
    ensures steps { (run : Execution) → Runs cache.old flights.old run → held_by flights.old ≡ []
        → OnOk result (IsSynced waiting.now run (steps_since cache.old cache.new)) }
    ensures done { (run : Execution) → Runs cache.old flights.old run → held_by flights.old ≡ []
        → OnOk result (NonePending (followed_by run (steps_since cache.old cache.new)) waiting.now) }
    ensures gave_up { (run : Execution) → RunsOn D.Device cache.old flights.old device.old run
        → RisesIfGivenUp result (D.fault_count device.old) (D.fault_count device.new) }
    ensures refused { (run : Execution) → RunsOn D.Device cache.old flights.old device.old run
        → IfGivenUp D.Device result flights.new device.old device.new }
    ensures each { (run : Execution) → Runs cache.old flights.old run → held_by flights.old ≡ []
        → EachTried D.Device (steps_since cache.old cache.new) (held_by flights.old) device.old device.new }
    ensures tries { held_by flights.old ≡ [] → D.moment device.new
        ≤ D.moment device.old + (TRIES + 1) * count_by is_send (steps_since cache.old cache.new) }
    ensures held { IsHeldIfGivenUp result flights.new }
    ensures landed { OnOk result (held_by flights.old ≡ [] → held_by flights.new ≡ []) }
    ensures lasts { D.is_honest device.old → OnOk result (IsLasting D.Device device.old → IsLasting D.Device device.new) }
    ensures device { IsSameDevice D.Device device.old device.new }
{
    model_laws::steps_extend();
    model_laws::ready_is_largest();
    cache_laws::traces_join();
    cache_laws::stretches_join::<A, D>();
    cache_laws::tries_join::<A, D>();
    cache_laws::classes_are_few();
    let turns = u64::from(cache.live()) + 1;
    let mut at = 0;
    for _ in 0..turns {
        at = first_pending(cache, waiting, at);
        if at == waiting.len() {
            return Ok(());
        }
        if !cache.write_next(flights, device)? {
            return Ok(());
        }
    }
    Ok(())
}

/// The place of the first of these patches, from this place on, that isn't on the disk yet; or behind them.
fn first_pending<A: Allocator + Copy>(cache: &Cache<A>, numbers: &[PatchNo], from: usize) -> usize
    requires within { from ≤ length numbers.now }
    ensures within { result ≤ length numbers.now }
    ensures past { (run : Execution) → IsCacheOf cache.now run
        → NonePending run (take from numbers.now) → NonePending run (take result numbers.now) }
    ensures found { (run : Execution) → IsCacheOf cache.now run
        → result < length numbers.now → SomePending run numbers.now }
{
    for at in from..numbers.len() {
        if is_pending(cache, numbers[at]) {
            return at;
        }
    }
    numbers.len()
}

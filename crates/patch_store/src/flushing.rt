//! How all patches of a store are brought to the disk.
ghost use Rattle.std.specs.Prelude.{◌≡◌, ◌+◌, ◌*◌, ◌≤◌, length, count_by, OnOk};
ghost use Rattle.patch_device.specs.SameDevice.{IsSameDevice, IsLasting};
ghost use Rattle.patch_cache.specs.declared.landing.TheConstants.{TRIES};
ghost use Rattle.patch_cache.specs.Waves.{is_send, steps_since, Continues, HoldImages, NoneCanBegin, IsFlushed, RisesIfGivenUp};
ghost use Rattle.patch_store.specs.Meaning.{IsStoreOf};
ghost use Rattle.patch_history.specs.History.{History, execution_of};
ghost use Rattle.patch_store.specs.Flushing.{StandsStill, HasWritten, KeepsDisk, HoldNow, EachBegunTried, IfRefused, run_after};

use crate::stores::Store;
use patch_cache::{Flights, FlushRefusal, laws as cache_laws};
use patch_device::Device;
use std::alloc::Allocator;

/// Brings all patches of a store to the disk, in waves: begins all writes that can begin, writes them out, syncs the device and
/// completes them, until none can begin. So nothing is written that rests on what a cut of the power can still take away. It is
/// called on a device with the store's blocks. What was completed stays so whatever it answers; the writes that it has begun and not
/// ended are given up, and their blocks stay in flight for the store's life. Writes that are under way as it is called are left to
/// whoever holds them: then it is done while patches that wait for these are in memory still.
pub fn flush<A: Allocator + Copy, D: Device>(
    store: &mut Store<A>,
    device: &mut D,
) -> Result<(), FlushRefusal>
    ensures ran { (h : History) → IsStoreOf store.old h → HasWritten h (steps_since store.old.cache store.new.cache) store.new }
    ensures trace { Continues store.old.cache store.new.cache }
    ensures disk { D.is_honest device.old → (h : History) → IsStoreOf store.old h → KeepsDisk D.Device h store.old store.new device.old device.new }
    ensures done { (h : History) → IsStoreOf store.old h → OnOk result (NoneCanBegin (run_after h store.old store.new)) }
    ensures each { (h : History) → IsStoreOf store.old h
        → EachBegunTried A D.Device (steps_since store.old.cache store.new.cache) device.old device.new }
    ensures flushed { (h : History) → StandsStill store.old h → OnOk result (IsFlushed (run_after h store.old store.new)) }
    ensures cached { D.is_honest device.old → (h : History) → StandsStill store.old h → HoldImages (execution_of h) (D.contents device.old)
        → OnOk result (HoldNow h store.old store.new (D.contents device.new)) }
    ensures lasts { D.is_honest device.old → OnOk result (IsLasting D.Device device.old → IsLasting D.Device device.new) }
    ensures tries { D.moment device.new
        ≤ D.moment device.old + (TRIES + 1) * count_by is_send (steps_since store.old.cache store.new.cache) }
    ensures gave_up { (h : History) → IsStoreOf store.old h → D.block_count device.old ≡ length h.opening
        → RisesIfGivenUp result (D.fault_count device.old) (D.fault_count device.new) }
    ensures refused { (h : History) → IsStoreOf store.old h → D.block_count device.old ≡ length h.opening
        → IfRefused D.Device result (run_after h store.old store.new) device.old device.new }
    ensures device { IsSameDevice D.Device device.old device.new }
{
    cache_laws::flushed_images_are_cached();
    let mut flights = Flights::new(store.alloc);
    let flushed = store.cache.flush(&mut flights, device);
    flights.abandon();
    flushed
}

//! How a store is brought to its device.
ghost use Rattle.std.specs.Prelude.{◌≡◌, length};
ghost use Rattle.patch_device.specs.SameDevice.{IsSameDevice, IsLasting};
ghost use Rattle.patch_history.specs.History.{History};
ghost use Rattle.patch_store.specs.Flushing.{StandsStill};
ghost use Rattle.patch_store.specs.Meaning.{IsStoreOf};
ghost use Rattle.patch_disks.specs.Running.{StandsOn};
ghost use Rattle.patch_c.specs.Saving.{IsSynced, HasSaved, HasWrittenOn, HasKeptSafe, HasCause};

use patch_device::Device;
use patch_handles::Answer;
use patch_model::Refuses;
use patch_store::{Store, flush};

/// Brings all patches of the store to the device, in waves, each synced before anything that rests on it is written.
pub fn save<D: Device>(store: &mut Store, device: &mut D) -> Answer
    ensures device { IsSameDevice D.Device device.old device.new }
    ensures saved { D.is_honest device.old → (h : History) → StandsOn store.old h (D.contents device.old)
        → result ≡ Answer.Done → HasSaved h store.new (D.contents device.new) }
    ensures safe { D.is_honest device.old → (h : History) → StandsOn store.old h (D.contents device.old)
        → IsLasting D.Device device.old → HasKeptSafe D.Device h store.new device.old device.new }
    ensures lasts { D.is_honest device.old → result ≡ Answer.Done
        → IsLasting D.Device device.old → IsLasting D.Device device.new }
    ensures synced { (h : History) → StandsStill store.old h → result ≡ Answer.Done → IsSynced h store.new }
    ensures written { (h : History) → IsStoreOf store.old h → HasWrittenOn h store.new }
    ensures cause { (h : History) → IsStoreOf store.old h → D.block_count device.old ≡ length h.opening
        → HasCause result (D.fault_count device.old) (D.fault_count device.new) }
{
    if let Err(refusal) = flush(store, device) {
        return Answer::Refused(refusal.kind());
    }
    // The steps are let go. Where there is no memory for that they stay until the next time.
    let _steps = store.drain_trace();
    Answer::Done
}

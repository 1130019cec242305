//! Blocks of a device that may fail are read back, and compared with the cached ones.
ghost use Rattle.std.specs.Prelude.{ℕ, List, ◌≡◌, ◌↔◌, ◌<◌, true, length, slice_get, Some, IfErr, OnOk};
ghost use Rattle.patch_model.specs.Execution.{Execution};
ghost use Rattle.patch_model.specs.History.{cached, history_of};
ghost use Rattle.patch_device.specs.SameDevice.{IsSameDevice};
ghost use Rattle.patch_cache.specs.Meaning.{IsCacheOf};
ghost use Rattle.patch_store.specs.Flushing.{HoldCached};
ghost use Rattle.patch_shared.specs.declared.faults.Cause.TheVariants as why;
ghost use Rattle.patch_shared.specs.Serving.{RestsOn, StillLasts, IsAt, IfReadBack};

use crate::blocks::cached_block;
use crate::faults::Cause;
use patch_cache::{Cache, TRIES};
use patch_device::Device;
use patch_model::{BLOCK, BlockNo};

/// Reads a block, and again each time that the device refuses it, at most [`TRIES`] times in all.
fn read_tried<D: Device>(device: &mut D, n: u32, into: &mut [u8]) -> Result<(), Cause>
    requires known { n < D.block_count device.old }
    requires whole { length into.old ≡ BLOCK }
    ensures device { IsSameDevice D.Device device.old device.new }
    ensures same { D.is_honest device.old → D.contents device.new ≡ D.contents device.old }
    ensures moment { D.moment device.new ≡ D.moment device.old }
    ensures given { D.is_honest device.old → OnOk result (slice_get (D.contents device.old) n ≡ Some into.new) }
    ensures gave_up { IfErr result (λ cause. RestsOn D.Device cause device.old device.new) }
    ensures told { IfErr result (λ cause. cause ≡ why.DeviceGaveUp n) }
{
    for _tried in 0..TRIES {
        if device.read(n, into).is_ok() {
            return Ok(());
        }
    }
    Err(Cause::DeviceGaveUp(BlockNo(n)))
}

/// Whether these are a block's bytes with all its patches.
fn is_cached(cache: &Cache, n: u32, bytes: &[u8]) -> bool
    ensures { (run : Execution) → IsCacheOf cache.now run → n < length run.first
        → (result ≡ true) ↔ (bytes.now ≡ cached (history_of run n)) }
{
    match cached_block(cache, n) {
        Some(cached) => cached == bytes,
        None => false,
    }
}

/// Reads a block back, and compares it with the cached one.
fn compare_block<D: Device>(device: &mut D, cache: &Cache, n: u32) -> Result<(), Cause>
    requires known { n < D.block_count device.old }
    ensures device { IsSameDevice D.Device device.old device.new }
    ensures same { D.is_honest device.old → D.contents device.new ≡ D.contents device.old }
    ensures moment { D.moment device.new ≡ D.moment device.old }
    ensures holds { D.is_honest device.old → (run : Execution) → IsCacheOf cache.now run → n < length run.first
        → OnOk result (slice_get (D.contents device.old) n ≡ Some (cached (history_of run n))) }
    ensures differs { D.is_honest device.old → (run : Execution) → IsCacheOf cache.now run → n < length run.first
        → IfErr result (IfReadBack run (D.contents device.old)) }
    ensures gave_up { IfErr result (λ cause. RestsOn D.Device cause device.old device.new) }
    ensures told { IfErr result (IsAt n) }
{
    let mut bytes = [0u8; BLOCK];
    read_tried(device, n, &mut bytes)?;
    if is_cached(cache, n, &bytes) {
        Ok(())
    } else {
        Err(Cause::ReadBack(BlockNo(n)))
    }
}

/// Reads all blocks back, from the first on, and compares each with the cached one.
pub(crate) fn read_back<D: Device>(device: &mut D, cache: &Cache) -> Result<(), Cause>
    ensures device { IsSameDevice D.Device device.old device.new }
    ensures lasts { StillLasts D.Device device.old device.new }
    ensures holds { D.is_honest device.old → (run : Execution) → IsCacheOf cache.now run → D.block_count device.old ≡ length run.first
        → OnOk result (HoldCached run (D.contents device.new)) }
    ensures differs { D.is_honest device.old → (run : Execution) → IsCacheOf cache.now run → D.block_count device.old ≡ length run.first
        → IfErr result (IfReadBack run (D.contents device.new)) }
    ensures gave_up { IfErr result (λ cause. RestsOn D.Device cause device.old device.new) }
{
    for n in 0..device.count() {
        compare_block(device, cache, n)?;
    }
    Ok(())
}

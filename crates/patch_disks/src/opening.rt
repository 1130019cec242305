//! How the store of a device is opened, and how it is brought to the device.
ghost use Rattle.std.specs.Prelude.{◌≡◌, IfOk, IfErr, OnOk, IsTrue};
ghost use Rattle.patch_device.specs.Device.{HasRisen};
ghost use Rattle.patch_device.specs.FileDevice.{contents_of, has_barriers, Remembers};
ghost use Rattle.patch_device.specs.SameDevice.{IsSameDevice, IsLasting};
ghost use Rattle.patch_cache.specs.Meaning.{IsCacheOf};
ghost use Rattle.patch_history.specs.History.{History};
ghost use Rattle.patch_store.specs.Opening.{unchanged, IsOpened};
ghost use Rattle.patch_disks.specs.Going.{EndsSafely, StillLasts};
ghost use Rattle.patch_disks.specs.Opening.{IsUntouched, IsUnused, IsUnder};
ghost use Rattle.patch_disks.specs.Running.{StandsOn, HasSaved};
ghost use Rattle.patch_store.specs.Flushing.{run_after};
ghost use Rattle.patch_disks.specs.Stopping.{HoldNoStore, IsNotOpened, IsStop, IsOfDisk, IsOfCount, TellsTest, TellsWhyNotOpened, TellsWhyNotSaved};

use crate::endings::Stop;
use patch_cache::{Cache, laws as cache_laws};
use patch_device::{Device, FileDevice, LoadFault, load};
use patch_model::{BlockBytes, MAX_BLOCKS, RefusalKind, Refuses};
use patch_store::{Store, flush};
use std::alloc::Global;
use std::fs::OpenFile;
use std::os::unix::fs::FileExt;
use std::rt::Files;

/// The cache of these blocks.
fn cache_of(alloc: Global, blocks: Vec<BlockBytes>) -> Result<Cache, Stop>
    ensures untouched { IfOk result IsUntouched }
    ensures gives { IfOk result (λ cache. IsCacheOf cache (unchanged blocks.items)) }
    ensures kind { IfErr result (IsOfCount blocks.items) }
    ensures stops { IfErr result (λ why. IsStop why (HoldNoStore blocks.items)) }
{
    if blocks.is_empty() || blocks.len() > MAX_BLOCKS {
        return Err(Stop::Refused(RefusalKind::FileSize.bare()));
    }
    Ok(Cache::open(alloc, blocks)?)
}

/// The store that these blocks hold.
pub(crate) fn store_of(alloc: Global, blocks: Vec<BlockBytes>) -> Result<Store, Stop>
    ensures new { IfOk result IsUnused }
    ensures opened { IfOk result (IsOpened blocks.items) }
    ensures kind { IfErr result (TellsTest blocks.items) }
    ensures stops { IfErr result (λ why. IsStop why (HoldNoStore blocks.items)) }
{
    let cache = cache_of(alloc, blocks)?;
    match Store::open(alloc, cache) {
        Ok(store) => Ok(store),
        Err((cache, fault)) => {
            drop(cache);
            Err(Stop::Refused(fault.refusal()))
        }
    }
}

/// Whether what rests on writes waits until the file is synced behind them.
#[derive(Clone, Copy, Debug, PartialEq, Eq)]
pub enum Barriers {
    On,
    /// The file is synced once, behind all writes of a run's sync: faster, and safe against a crash of the program alone.
    Off,
}

/// A device with barriers, or the same without.
fn set_barriers<F: FileExt + OpenFile + Drop>(
    device: FileDevice<F>,
    barriers: Barriers,
) -> FileDevice<F>
    requires barriers { IsTrue (has_barriers device) }
    requires lasting { IsLasting ⟦<FileDevice<F> as Device>⟧ device }
    ensures contents { contents_of result ≡ contents_of device }
    ensures barriers { IsUnder barriers result }
    ensures lasts { IsLasting ⟦<FileDevice<F> as Device>⟧ result }
{
    match barriers {
        Barriers::On => device,
        Barriers::Off => device.without_barriers(),
    }
}

/// The file of this name, as a device, and its blocks.
pub(crate) fn open_blocks<F: FileExt + OpenFile + Drop, R: Files<File = F>>(
    rt: &R,
    alloc: Global,
    path: &str,
    barriers: Barriers,
) -> Result<(FileDevice<F>, Vec<BlockBytes>), Stop>
    ensures contents { IfOk result (λ opened. contents_of opened.0 ≡ opened.1.items) }
    ensures barriers { IfOk result (λ opened. IsUnder barriers opened.0) }
    ensures lasts { IfOk result (λ opened. IsLasting ⟦<FileDevice<F> as Device>⟧ opened.0) }
{
    match FileDevice::open(rt, alloc, path) {
        Ok((device, blocks)) => Ok((set_barriers(device, barriers), blocks)),
        Err(refusal) => Err(Stop::Refused(refusal.refusal())),
    }
}

/// The file of this name, as a device, and the store that it holds. A file is read once, as it is opened.
pub fn open_file<F: FileExt + OpenFile + Drop, R: Files<File = F>>(
    rt: &R,
    alloc: Global,
    path: &str,
    barriers: Barriers,
) -> Result<(FileDevice<F>, Store), Stop>
    ensures new { IfOk result (λ opened. IsUnused opened.1) }
    ensures opened { IfOk result (λ opened. IsOpened (contents_of opened.0) opened.1) }
    ensures barriers { IfOk result (λ opened. IsUnder barriers opened.0) }
    ensures lasts { IfOk result (λ opened. IsLasting ⟦<FileDevice<F> as Device>⟧ opened.0) }
{
    let (device, blocks) = open_blocks(rt, alloc, path, barriers)?;
    let store = store_of(alloc, blocks)?;
    Ok((device, store))
}

/// As [`open_file`] does, with a device that can be read: it remembers all blocks, and compares what it reads with them.
pub fn open_file_to_read<F: FileExt + OpenFile + Drop, R: Files<File = F>>(
    rt: &R,
    alloc: Global,
    path: &str,
    barriers: Barriers,
) -> Result<(FileDevice<F>, Store), Stop>
    ensures new { IfOk result (λ opened. IsUnused opened.1) }
    ensures opened { IfOk result (λ opened. IsOpened (contents_of opened.0) opened.1) }
    ensures barriers { IfOk result (λ opened. IsUnder barriers opened.0) }
    ensures remembers { IfOk result (λ opened. Remembers opened.0) }
    ensures lasts { IfOk result (λ opened. IsLasting ⟦<FileDevice<F> as Device>⟧ opened.0) }
{
    let (device, blocks) = open_blocks(rt, alloc, path, barriers)?;
    let device = device.remembering(alloc, blocks.as_slice())?;
    let store = store_of(alloc, blocks)?;
    Ok((device, store))
}

/// The blocks of the device, of which there are as many as a disk may have.
fn read_blocks<D: Device>(alloc: Global, device: &mut D) -> Result<Vec<BlockBytes>, Stop>
    ensures device { IsSameDevice D.Device device.old device.new }
    ensures same { D.is_honest device.old → D.contents device.new ≡ D.contents device.old }
    ensures no_moment { D.moment device.new ≡ D.moment device.old }
    ensures gives { D.is_honest device.old → IfOk result (λ blocks. blocks.items ≡ D.contents device.old) }
    ensures kind { IfErr result (IsOfDisk (D.fault_count device.old) (D.fault_count device.new)) }
    ensures stops { IfErr result (λ why. IsStop why (HasRisen (D.fault_count device.old) (D.fault_count device.new))) }
{
    match load(alloc, device) {
        Ok(blocks) => Ok(blocks),
        Err(LoadFault::Fault) => Err(Stop::Refused(RefusalKind::Disk.bare())),
        Err(LoadFault::OutOfMemory) => Err(Stop::Refused(RefusalKind::OutOfMemory.bare())),
    }
}

/// The store that the device holds.
pub fn open_store<D: Device>(alloc: Global, device: &mut D) -> Result<Store, Stop>
    ensures device { IsSameDevice D.Device device.old device.new }
    ensures same { D.is_honest device.old → D.contents device.new ≡ D.contents device.old }
    ensures no_moment { D.moment device.new ≡ D.moment device.old }
    ensures new { IfOk result IsUnused }
    ensures opened { D.is_honest device.old → IfOk result (λ store. IsOpened (D.contents device.old) store) }
    ensures kind { D.is_honest device.old
        → IfErr result (TellsWhyNotOpened (D.fault_count device.old) (D.fault_count device.new) (D.contents device.old)) }
    ensures stops { D.is_honest device.old → IfErr result (λ why.
        IsStop why (IsNotOpened (D.fault_count device.old) (D.fault_count device.new) (D.contents device.old))) }
{
    let blocks = read_blocks(alloc, device)?;
    store_of(alloc, blocks)
}

/// Has a device do what it left to be done behind its last sync. That it refuses this is a fault of the disk.
pub fn finish_device<D: Device>(device: &mut D) -> Result<(), Stop>
    ensures device { IsSameDevice D.Device device.old device.new }
    ensures no_moment { D.moment device.new ≡ D.moment device.old }
    ensures same { D.is_honest device.old → D.contents device.new ≡ D.contents device.old }
    ensures lasts { D.is_honest device.old → StillLasts D.Device device.old device.new }
    ensures no_fault { OnOk result (D.fault_count device.new ≡ D.fault_count device.old) }
    ensures kind { IfErr result (IsOfDisk (D.fault_count device.old) (D.fault_count device.new)) }
    ensures stops { IfErr result (λ why. IsStop why (HasRisen (D.fault_count device.old) (D.fault_count device.new))) }
{
    match device.finish() {
        Ok(()) => Ok(()),
        Err(_) => Err(Stop::Refused(RefusalKind::Disk.bare())),
    }
}

/// Brings all patches of the store to the device, where they last. What was written is not kept.
///
/// Where the device refuses a sync, or to finish what it left to be done behind the last one, that is a fault of the disk, and nothing
/// is written behind it.
pub(crate) fn save<D: Device>(store: &mut Store, device: &mut D) -> Result<(), Stop>
    ensures device { IsSameDevice D.Device device.old device.new }
    ensures saved { D.is_honest device.old → (h : History) → StandsOn store.old h (D.contents device.old)
        → OnOk result (HasSaved D.Device h store.new device.old device.new) }
    ensures lasts { D.is_honest device.old → OnOk result (StillLasts D.Device device.old device.new) }
    ensures safe { D.is_honest device.old → (h : History) → StandsOn store.old h (D.contents device.old)
        → EndsSafely D.Device h device.old device.new }
    ensures kind { D.is_honest device.old → (h : History) → StandsOn store.old h (D.contents device.old)
        → IfErr result (TellsWhyNotSaved D.Device (run_after h store.old store.new) device.old device.new) }
    ensures stops { D.is_honest device.old → (h : History) → StandsOn store.old h (D.contents device.old)
        → IfErr result (λ why. IsStop why (HasRisen (D.fault_count device.old) (D.fault_count device.new))) }
{
    cache_laws::crashes_join::<D>();
    flush(store, device)?;
    finish_device(device)?;
    store.drain_trace()?;
    Ok(())
}

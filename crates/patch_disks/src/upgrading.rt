//! Makes the store of a disk one of version 2.
ghost use Rattle.std.specs.Prelude.{ℕ, ◌≡◌, List, OnOk};
ghost use Rattle.patch_device.specs.SameDevice.{IsSameDevice, IsLasting};
ghost use Rattle.patch_history.specs.Command.{Upgrade, Done as IsDone};
ghost use Rattle.patch_history.specs.History.{History};
ghost use Rattle.patch_disks.specs.Going.{EndsSafely, WentSafely, StillLasts};
ghost use Rattle.patch_disks.specs.Running.{StandsOn, IsCalled};
ghost use Rattle.patch_disks.specs.Upgrading.{HasUpgraded, HasUpgradedBehind};
ghost use Rattle.patch_disks.specs.declared.endings.Status.TheVariants.{Done};

use crate::endings::{Status, Stop, conclude};
use crate::opening::{Barriers, open_file, open_store, save};
use patch_cache::laws as cache_laws;
use patch_device::Device;
use patch_model::{Refuses, laws as model_laws};
use patch_replay::{Output, Sink};
use patch_store::Store;
use std::alloc::Global;
use std::fs::OpenFile;
use std::os::unix::fs::FileExt;
use std::rt::Files;

fn upgrade_store(store: &mut Store) -> Result<(), Stop>
    ensures { (h : History) (contents : List (List ℕ)) → StandsOn store.old h contents
        → OnOk result (IsCalled h (0, Upgrade) IsDone store.new contents) }
{
    model_laws::steps_extend();
    model_laws::images_stay();
    model_laws::disks_stay();
    match store.upgrade() {
        Ok(()) => Ok(()),
        Err(refusal) => Err(Stop::Refused(refusal.refusal())),
    }
}

/// Upgrades the store, brings that to the device, and tells it.
fn upgrade_and_tell<W: Output, D: Device>(
    writer: &mut Sink<W>,
    store: &mut Store,
    device: &mut D,
) -> Result<(), Stop>
    ensures device { IsSameDevice D.Device device.old device.new }
    ensures upgraded { D.is_honest device.old → (h : History) → StandsOn store.old h (D.contents device.old)
        → OnOk result (HasUpgradedBehind D.Device h device.old device.new) }
    ensures lasts { D.is_honest device.old → OnOk result (StillLasts D.Device device.old device.new) }
    ensures safe { D.is_honest device.old → (h : History) → StandsOn store.old h (D.contents device.old)
        → EndsSafely D.Device h device.old device.new }
{
    cache_laws::crashes_join::<D>();
    upgrade_store(store)?;
    save(store, device)?;
    Ok(writer.write_all(b"upgraded\n")?)
}

fn upgrade<W: Output, D: Device>(
    alloc: Global,
    writer: &mut Sink<W>,
    device: &mut D,
) -> Result<(), Stop>
    ensures device { IsSameDevice D.Device device.old device.new }
    ensures upgraded { D.is_honest device.old
        → OnOk result (HasUpgraded D.Device (D.contents device.old) device.old device.new) }
    ensures crash { D.is_honest device.old → IsLasting D.Device device.old
        → WentSafely D.Device (D.contents device.old) device.old device.new }
{
    cache_laws::crashes_join::<D>();
    model_laws::first_bytes_are_left();
    let mut store = open_store(alloc, device)?;
    let upgraded = upgrade_and_tell(writer, &mut store, device);
    drop(store);
    upgraded
}

/// Makes the store of a device one of version 2, whose extents have as many blocks as before, and writes `upgraded`.
pub fn upgrade_disk<W: Output, D: Device>(
    alloc: Global,
    writer: &mut Sink<W>,
    device: &mut D,
) -> Status
    ensures device { IsSameDevice D.Device device.old device.new }
    ensures done { D.is_honest device.old → result ≡ Done
        → HasUpgraded D.Device (D.contents device.old) device.old device.new }
    ensures crash { D.is_honest device.old → IsLasting D.Device device.old
        → WentSafely D.Device (D.contents device.old) device.old device.new }
{
    let upgraded = upgrade(alloc, writer, device);
    conclude(alloc, writer, upgraded)
}

fn upgrade_path<F: FileExt + OpenFile + Drop, R: Files<File = F>, W: Output>(
    rt: &R,
    alloc: Global,
    writer: &mut Sink<W>,
    path: &str,
) -> Result<(), Stop> {
    let (mut device, mut store) = open_file(rt, alloc, path, Barriers::On)?;
    let upgraded = upgrade_and_tell(writer, &mut store, &mut device);
    drop(store);
    upgraded
}

/// Upgrades the store of a file, as [`upgrade_disk`] does that of a device.
pub fn upgrade_file<F: FileExt + OpenFile + Drop, R: Files<File = F>, W: Output>(
    rt: &R,
    alloc: Global,
    writer: &mut Sink<W>,
    path: &str,
) -> Status {
    let upgraded = upgrade_path(rt, alloc, writer, path);
    conclude(alloc, writer, upgraded)
}

//! Checks the store of a disk, and reports what it holds.
ghost use Rattle.std.specs.Prelude.{◌≡◌};
ghost use Rattle.patch_device.specs.SameDevice.{IsSameDevice};

use crate::endings::{Status, Stop, conclude};
use crate::opening::{Barriers, open_file, open_store};
use crate::reporting::{write_entries, write_extents};
use patch_device::Device;
use patch_replay::{Output, Sink};
use patch_store::{Report, Store};
use std::alloc::Global;
use std::fs::OpenFile;
use std::os::unix::fs::FileExt;
use std::rt::Files;

/// What the store of the device holds.
fn report_of<D: Device>(alloc: Global, device: &mut D) -> Result<Report, Stop>
    ensures device { IsSameDevice D.Device device.old device.new }
    ensures same { D.is_honest device.old → D.contents device.new ≡ D.contents device.old }
    ensures no_moment { D.moment device.new ≡ D.moment device.old }
{
    let store = open_store(alloc, device)?;
    let report = report_on(&store);
    drop(store);
    report
}

fn report_on(store: &Store) -> Result<Report, Stop> {
    Ok(store.check()?)
}

fn write_report<W: Output>(
    alloc: Global,
    writer: &mut Sink<W>,
    report: Report,
) -> Result<(), Stop> {
    let Report { entries, extents } = report;
    write_entries(alloc, writer, entries)?;
    write_extents(alloc, writer, extents.as_slice())?;
    Ok(writer.write_all(b"clean\n")?)
}

fn check<W: Output, D: Device>(
    alloc: Global,
    writer: &mut Sink<W>,
    device: &mut D,
) -> Result<(), Stop>
    ensures device { IsSameDevice D.Device device.old device.new }
    ensures same { D.is_honest device.old → D.contents device.new ≡ D.contents device.old }
    ensures no_moment { D.moment device.new ≡ D.moment device.old }
{
    let report = report_of(alloc, device)?;
    write_report(alloc, writer, report)
}

/// Opens the store of a device, and writes its entries in the byte order of their keys, then its extents, then `clean`. The device is
/// only read.
pub fn check_disk<W: Output, D: Device>(
    alloc: Global,
    writer: &mut Sink<W>,
    device: &mut D,
) -> Status
    ensures device { IsSameDevice D.Device device.old device.new }
    ensures same { D.is_honest device.old → D.contents device.new ≡ D.contents device.old }
    ensures no_moment { D.moment device.new ≡ D.moment device.old }
{
    let checked = check(alloc, writer, device);
    conclude(alloc, writer, checked)
}

fn check_path<F: FileExt + OpenFile + Drop, R: Files<File = F>, W: Output>(
    rt: &R,
    alloc: Global,
    writer: &mut Sink<W>,
    path: &str,
) -> Result<(), Stop> {
    let (device, store) = open_file(rt, alloc, path, Barriers::On)?;
    let report = report_on(&store);
    drop(store);
    drop(device);
    write_report(alloc, writer, report?)
}

/// Checks the store of a file, as [`check_disk`] does that of a device.
pub fn check_file<F: FileExt + OpenFile + Drop, R: Files<File = F>, W: Output>(
    rt: &R,
    alloc: Global,
    writer: &mut Sink<W>,
    path: &str,
) -> Status {
    let checked = check_path(rt, alloc, writer, path);
    conclude(alloc, writer, checked)
}

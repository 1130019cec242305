//! How full a store is, in numbers and as a picture.
ghost use Rattle.std.specs.Prelude.{ℕ, ◌≡◌, ◌++◌, ◌<◌, ◌^◌, List, OnOk, IfOk, string_bytes};
ghost use Rattle.std.specs.Io.KnownBytes.{Appends};
ghost use Rattle.patch_device.specs.SameDevice.{IsSameDevice};
ghost use Rattle.patch_disks.specs.declared.endings.Status.TheVariants.{Done};
ghost use Rattle.patch_history.specs.History.{History};
ghost use Rattle.patch_store.specs.Meaning.{IsStoreOf};
ghost use Rattle.patch_listing.specs.Statting.{number_line, numbers_text, columns_for, bar_line, picture_text, detail_text, HasTold};

use crate::pictures::extent_line;
use patch_device::Device;
use patch_disks::{Barriers, Status, Stop, conclude, open_file, open_store};
use patch_model::BLOCK;
use patch_replay::{Output, Sink};
use patch_store::{Store, Totals};
use std::alloc::{AllocError, Global};
use std::fs::OpenFile;
use std::os::unix::fs::FileExt;
use std::rt::Files;

/// What is told of a store.
#[derive(Clone, Copy, Debug, PartialEq, Eq)]
pub enum Detail {
    /// The numbers alone.
    Numbers,
    /// And behind them how full each extent is, as a bar.
    Picture,
}

/// Writes a number behind its name.
fn push_number(out: &mut String, name: &str, number: u64) -> Result<(), AllocError>
    ensures { OnOk result (string_bytes out.new ≡ string_bytes out.old ++ number_line name.now number) }
{
    write!(out, "{name} {number}\n")
}

/// The numbers of a store that was just opened: it has nothing to sync, and has done no sync.
fn numbers(alloc: Global, totals: Totals) -> Result<String, AllocError>
    ensures { IfOk result (λ text. string_bytes text ≡ numbers_text totals) }
{
    let file = u64::from(totals.blocks) * BLOCK as u64;
    let mut text = String::new(alloc);
    push_number(&mut text, "keys", u64::from(totals.keys))?;
    push_number(&mut text, "unsynced", 0)?;
    push_number(&mut text, "live_bytes", totals.live)?;
    push_number(&mut text, "file_bytes", file)?;
    push_number(&mut text, "extents", u64::from(totals.extents))?;
    push_number(&mut text, "empty_extents", u64::from(totals.empty))?;
    push_number(&mut text, "syncs", 0)?;
    push_number(&mut text, "waves", 0)?;
    Ok(text)
}

/// How many columns the numbers of so many extents have.
fn columns_for(extents: u32) -> usize
    ensures { result ≡ columns_for extents }
{
    if extents <= 10 {
        1
    } else if extents <= 100 {
        2
    } else {
        3
    }
}

/// The line of an extent of the store, of which there are so many.
fn line_of(alloc: Global, store: &Store, extents: u32, extent: u32) -> Result<String, AllocError>
    requires { extent < store.now.shelf.extents.geometry.extents }
    ensures { IfOk result (λ line. string_bytes line ≡ bar_line store.now.shelf extents extent) }
{
    let room = store.geometry().format.largest_pointer();
    let report = store.extent_report(extent);
    extent_line(alloc, columns_for(extents), room, extent, &report)
}

/// Writes a bar for each extent, behind an empty line.
fn write_picture<W: Output>(alloc: Global, writer: &mut Sink<W>, store: &Store) -> Result<(), Stop>
    ensures { OnOk result (Appends (W.contents writer.old.inner) (W.contents writer.new.inner) (picture_text store.now.shelf)) }
{
    let extents = store.geometry().extents;
    writer.write_all(b"\n")?;
    for extent in 0..extents {
        let line = line_of(alloc, store, extents, extent)?;
        writer.write_all(line.as_bytes())?;
    }
    Ok(())
}

/// Writes what is told of the store.
fn write_detail<W: Output>(
    alloc: Global,
    writer: &mut Sink<W>,
    store: &Store,
    detail: Detail,
) -> Result<(), Stop>
    ensures { (h : History) → IsStoreOf store.now h
        → OnOk result (Appends (W.contents writer.old.inner) (W.contents writer.new.inner) (detail_text detail h)) }
{
    let numbers = numbers(alloc, store.totals())?;
    writer.write_all(numbers.as_bytes())?;
    match detail {
        Detail::Numbers => Ok(()),
        Detail::Picture => write_picture(alloc, writer, store),
    }
}

fn stat<W: Output, D: Device>(
    alloc: Global,
    writer: &mut Sink<W>,
    device: &mut D,
    detail: Detail,
) -> Result<(), Stop>
    ensures device { IsSameDevice D.Device device.old device.new }
    ensures same { D.is_honest device.old → D.contents device.new ≡ D.contents device.old }
    ensures no_moment { D.moment device.new ≡ D.moment device.old }
    ensures told { D.is_honest device.old
        → OnOk result (HasTold detail (D.contents device.old) (W.contents writer.old.inner) (W.contents writer.new.inner)) }
{
    let store = open_store(alloc, device)?;
    let told = write_detail(alloc, writer, &store, detail);
    drop(store);
    told
}

/// Opens the store of a device, and writes how full it is: a line for each number, and where it is asked for, a picture of the extents
/// behind them. The device is only read.
pub fn stat_disk<W: Output, D: Device>(
    alloc: Global,
    writer: &mut Sink<W>,
    device: &mut D,
    detail: Detail,
) -> Status
    ensures device { IsSameDevice D.Device device.old device.new }
    ensures same { D.is_honest device.old → D.contents device.new ≡ D.contents device.old }
    ensures no_moment { D.moment device.new ≡ D.moment device.old }
    ensures told { D.is_honest device.old → result ≡ Done
        → HasTold detail (D.contents device.old) (W.contents writer.old.inner) (W.contents writer.new.inner) }
{
    let told = stat(alloc, writer, device, detail);
    conclude(alloc, writer, told)
}

fn stat_path<F: FileExt + OpenFile + Drop, R: Files<File = F>, W: Output>(
    rt: &R,
    alloc: Global,
    writer: &mut Sink<W>,
    path: &str,
    detail: Detail,
) -> Result<(), Stop>
    ensures { OnOk result ((contents : List (List ℕ))
        × HasTold detail contents (W.contents writer.old.inner) (W.contents writer.new.inner)) }
{
    let (device, store) = open_file(rt, alloc, path, Barriers::On)?;
    let told = write_detail(alloc, writer, &store, detail);
    drop(store);
    drop(device);
    told
}

/// Tells how full the store of a file is, as [`stat_disk`] does of that of a device.
pub fn stat_file<F: FileExt + OpenFile + Drop, R: Files<File = F>, W: Output>(
    rt: &R,
    alloc: Global,
    writer: &mut Sink<W>,
    path: &str,
    detail: Detail,
) -> Status
    ensures { result ≡ Done → (contents : List (List ℕ))
        × HasTold detail contents (W.contents writer.old.inner) (W.contents writer.new.inner) }
{
    let told = stat_path(rt, alloc, writer, path, detail);
    conclude(alloc, writer, told)
}

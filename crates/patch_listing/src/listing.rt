//! The keys of a store, in order.
ghost use Rattle.std.specs.Prelude.{ℕ, ◌≡◌, ◌++◌, ◌∷◌, [], List, OnOk, IfOk};
ghost use Rattle.std.specs.Io.KnownBytes.{Appends};
ghost use Rattle.patch_device.specs.SameDevice.{IsSameDevice};
ghost use Rattle.patch_disks.specs.declared.endings.Status.TheVariants.{Done};
ghost use Rattle.patch_history.specs.History.{History, ledger_of};
ghost use Rattle.patch_index.specs.Reporting.{reported};
ghost use Rattle.patch_recovery.specs.Ledger.{map_of};
ghost use Rattle.patch_store.specs.Meaning.{IsStoreOf};
ghost use Rattle.patch_listing.specs.Listing.{OfContent, text_for, WritesLines, HasListed};

use crate::key_lines::key_line;
use patch_device::Device;
use patch_disks::{Barriers, Status, Stop, conclude, open_file, open_store};
use patch_replay::{Output, Sink};
use patch_store::{EntryReport, Store, laws as store_laws};
use std::alloc::{AllocError, Global};
use std::fs::OpenFile;
use std::os::unix::fs::FileExt;
use std::rt::Files;

/// Which keys are listed, and whether with their values.
#[derive(Clone, Copy, Debug, PartialEq, Eq)]
pub struct Wanted<'a> {
    /// The least of them. It need not stand; one of no bytes comes before all keys.
    pub from: &'a [u8],
    /// What each of them begins with.
    pub prefix: &'a [u8],
    pub values: bool,
}

/// What comes right behind a key.
fn behind(alloc: Global, key: &[u8]) -> Result<Vec<u8>, AllocError>
    ensures { IfOk result (λ next. next.items ≡ key.now ++ 0 ∷ []) }
{
    let mut next = Vec::from_slice(alloc, key)?;
    next.push(0)?;
    Ok(next)
}

/// Writes the line of a key, if it begins as is wanted.
fn write_key<W: Output>(
    alloc: Global,
    writer: &mut Sink<W>,
    store: &Store,
    entry: &EntryReport,
    wanted: Wanted<'_>,
) -> Result<(), Stop>
    ensures { OfContent store.now (reported entry.now) (λ c.
        OnOk result (Appends (W.contents writer.old.inner) (W.contents writer.new.inner) (text_for wanted.entry c))) }
{
    if !entry.key.as_slice().starts_with(wanted.prefix) {
        return Ok(());
    }
    let line = key_line(alloc, store, entry, wanted.values)?;
    Ok(writer.write_all(line.as_bytes())?)
}

/// Writes the lines of the keys that are wanted, each the least behind the one before.
fn write_keys<W: Output>(
    alloc: Global,
    writer: &mut Sink<W>,
    store: &Store,
    wanted: Wanted<'_>,
) -> Result<(), Stop>
    ensures { (h : History) → IsStoreOf store.now h
        → OnOk result (WritesLines wanted.entry (map_of (ledger_of h)) (W.contents writer.old.inner) (W.contents writer.new.inner)) }
{
    store_laws::closed_disks_open();
    let mut from = Vec::from_slice(alloc, wanted.from)?;
    for _seen in 0..store.totals().keys {
        let Some(entry) = store.next_key(from.as_slice()) else {
            return Ok(());
        };
        write_key(alloc, writer, store, &entry, wanted)?;
        from = behind(alloc, entry.key.as_slice())?;
    }
    Ok(())
}

fn list<W: Output, D: Device>(
    alloc: Global,
    writer: &mut Sink<W>,
    device: &mut D,
    wanted: Wanted<'_>,
) -> Result<(), Stop>
    ensures device { IsSameDevice D.Device device.old device.new }
    ensures same { D.is_honest device.old → D.contents device.new ≡ D.contents device.old }
    ensures no_moment { D.moment device.new ≡ D.moment device.old }
    ensures listed { D.is_honest device.old
        → OnOk result (HasListed wanted.entry (D.contents device.old) (W.contents writer.old.inner) (W.contents writer.new.inner)) }
{
    let store = open_store(alloc, device)?;
    let listed = write_keys(alloc, writer, &store, wanted);
    drop(store);
    listed
}

/// Opens the store of a device, and writes a line for each key that is wanted, in the byte order of the keys: the key in hexadecimal, the
/// length of its value in bytes, and the value in hexadecimal, if it is wanted and has bytes. The device is only read.
pub fn list_disk<W: Output, D: Device>(
    alloc: Global,
    writer: &mut Sink<W>,
    device: &mut D,
    wanted: Wanted<'_>,
) -> Status
    ensures device { IsSameDevice D.Device device.old device.new }
    ensures same { D.is_honest device.old → D.contents device.new ≡ D.contents device.old }
    ensures no_moment { D.moment device.new ≡ D.moment device.old }
    ensures listed { D.is_honest device.old → result ≡ Done
        → HasListed wanted.entry (D.contents device.old) (W.contents writer.old.inner) (W.contents writer.new.inner) }
{
    let listed = list(alloc, writer, device, wanted);
    conclude(alloc, writer, listed)
}

fn list_path<F: FileExt + OpenFile + Drop, R: Files<File = F>, W: Output>(
    rt: &R,
    alloc: Global,
    writer: &mut Sink<W>,
    path: &str,
    wanted: Wanted<'_>,
) -> Result<(), Stop>
    ensures { OnOk result ((contents : List (List ℕ))
        × HasListed wanted.entry contents (W.contents writer.old.inner) (W.contents writer.new.inner)) }
{
    let (device, store) = open_file(rt, alloc, path, Barriers::On)?;
    let listed = write_keys(alloc, writer, &store, wanted);
    drop(store);
    drop(device);
    listed
}

/// Lists the keys of a file's store, as [`list_disk`] does those of a device's.
pub fn list_file<F: FileExt + OpenFile + Drop, R: Files<File = F>, W: Output>(
    rt: &R,
    alloc: Global,
    writer: &mut Sink<W>,
    path: &str,
    wanted: Wanted<'_>,
) -> Status
    ensures { result ≡ Done → (contents : List (List ℕ))
        × HasListed wanted.entry contents (W.contents writer.old.inner) (W.contents writer.new.inner) }
{
    let listed = list_path(rt, alloc, writer, path, wanted);
    conclude(alloc, writer, listed)
}

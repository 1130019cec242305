//! Makes files that hold an empty store.
use crate::endings::{Status, Stop, conclude};
use patch_device::{Device, FileDevice};
use patch_frame::{Geometry, write_superblock};
use patch_model::{BlockBytes, RefusalKind, Refuses};
use patch_replay::{Output, Sink};
use std::alloc::Global;
use std::fs::{File, OpenFile};
use std::os::unix::fs::FileExt;
use std::path::Path;
use std::rt::Files;
use std::{fs, io};

/// The first block of a new disk, the one that isn't zeros, and how many blocks the disk has.
fn first_block(alloc: Global, geometry: Geometry) -> Result<(BlockBytes, u32), Stop> {
    if !geometry.is_valid() {
        return Err(Stop::Refused(RefusalKind::Geometry.bare()));
    }
    let first = write_superblock(alloc, geometry)?;
    Ok((first, geometry.block_count()))
}

/// How many names are tried for a file that isn't whole yet.
const NAMES: u32 = 64;

/// Why no file is made.
fn no_disk() -> Stop {
    Stop::Refused(RefusalKind::Disk.bare())
}

/// Whether there is something of this name.
fn is_there<R: Files>(rt: &R, path: &str) -> bool {
    fs::symlink_metadata(rt, path).is_ok()
}

/// The directory that a file stands in.
fn directory_of(path: &str) -> &str {
    let parent = Path::new(path)
        .parent()
        .map_or("", |parent| parent.as_str());
    if parent.is_empty() { "." } else { parent }
}

/// A new file of so many blocks of zeros, where there is nothing of this name.
fn new_file<F: FileExt + OpenFile + Drop, R: Files<File = F>>(
    rt: &R,
    path: &str,
    blocks: u32,
) -> Result<FileDevice<F>, Stop> {
    match FileDevice::create(rt, path, blocks) {
        Ok(device) => Ok(device),
        Err(refusal) => Err(Stop::Refused(refusal.refusal())),
    }
}

/// A new file in the same directory as another, by a name that nothing has: it is given its own one when it is whole.
fn new_file_beside<F: FileExt + OpenFile + Drop, R: Files<File = F>>(
    rt: &R,
    alloc: Global,
    path: &str,
    blocks: u32,
) -> Result<(FileDevice<F>, String), Stop> {
    let directory = directory_of(path);
    for number in 0..NAMES {
        let name = format!(in alloc; "{directory}/.fstch-{number}")?;
        match new_file(rt, name.as_str(), blocks) {
            Ok(device) => return Ok((device, name)),
            Err(stop) => {
                if !is_there(rt, name.as_str()) {
                    return Err(stop);
                }
            }
        }
    }
    Err(no_disk())
}

/// Writes the first block and syncs it, and answers whether that went well.
fn write_first<D: Device>(device: &mut D, first: &BlockBytes) -> bool {
    device.write(0, first.as_slice()).is_ok() && device.sync().is_ok()
}

/// Lets the name of a file last in the directory that it stands in, and answers whether that went well. A system that can't sync a
/// directory says that the call is invalid: there the name may get lost with the power.
fn sync_directory<F: OpenFile + Drop, R: Files<File = F>>(rt: &R, path: &str) -> bool {
    let synced = match File::open(rt, directory_of(path)) {
        Ok(directory) => directory.sync_all(),
        Err(_) => return false,
    };
    match synced {
        Ok(()) => true,
        Err(e) => e.kind() == io::ErrorKind::InvalidInput,
    }
}

/// Makes the file where it is to be. One that can't be finished is removed.
fn make_in_place<F: FileExt + OpenFile + Drop, R: Files<File = F>>(
    rt: &R,
    path: &str,
    first: &BlockBytes,
    count: u32,
) -> Result<(), Stop> {
    let mut device = new_file(rt, path, count)?;
    if write_first(&mut device, first) {
        return Ok(());
    }
    let _removed = fs::remove_file(rt, path);
    Err(no_disk())
}

/// Makes the file under another name, and links it to its own when it is whole, so that a make which is killed leaves nothing of this name
/// but a store. Where the file system has no links, it is made where it is to be.
fn make_whole<F: FileExt + OpenFile + Drop, R: Files<File = F>>(
    rt: &R,
    alloc: Global,
    path: &str,
    first: &BlockBytes,
    count: u32,
) -> Result<(), Stop> {
    if is_there(rt, path) {
        return Err(no_disk());
    }
    let (mut device, other) = new_file_beside(rt, alloc, path, count)?;
    let is_whole = write_first(&mut device, first);
    let is_linked = is_whole && fs::hard_link(rt, other.as_str(), path).is_ok();
    let _removed = fs::remove_file(rt, other.as_str());
    if is_linked {
        Ok(())
    } else if is_whole {
        make_in_place(rt, path, first, count)
    } else {
        Err(no_disk())
    }
}

fn make_path<F: FileExt + OpenFile + Drop, R: Files<File = F>, W: Output>(
    rt: &R,
    alloc: Global,
    writer: &mut Sink<W>,
    path: &str,
    geometry: Geometry,
) -> Result<(), Stop> {
    let (first, count) = first_block(alloc, geometry)?;
    let made = format!(in alloc; "made {count}\n")?;
    make_whole(rt, alloc, path, &first, count)?;
    if !sync_directory(rt, path) {
        let _removed = fs::remove_file(rt, path);
        return Err(no_disk());
    }
    Ok(writer.write_all(made.as_bytes())?)
}

/// Makes a file that holds an empty store on a disk that is divided so, and writes `made`, with the number of its blocks. What there
/// is of this name is left as it was; a file that can't be finished is removed. It has another name, `.fstch-N` in the same directory,
/// until it is whole and synced, but where the file system has no links; a make that is killed may leave that. Before `made` is written,
/// the directory is synced too where the system can sync directories.
pub fn make_file<F: FileExt + OpenFile + Drop, R: Files<File = F>, W: Output>(
    rt: &R,
    alloc: Global,
    writer: &mut Sink<W>,
    path: &str,
    geometry: Geometry,
) -> Status {
    let made = make_path(rt, alloc, writer, path, geometry);
    conclude(alloc, writer, made)
}

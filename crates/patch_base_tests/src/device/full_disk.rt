//! A disk that is full or broken: what fits is written, and no more, and reads and syncs fail.
use super::*;
use std::fs::{File, Metadata, OpenFile, OpenOptions};
use std::io;
use std::io::{Read, Seek, SeekFrom, Write};
use std::os::unix::fs::FileExt;
use std::rt::Files;

// Which syncs of a file go well: of its data alone, and of all that it has.
#[derive(Clone, Copy)]
struct Syncs {
    data: bool,
    all: bool,
}

// From which place on no file is written and none is read, and how it is synced.
#[derive(Clone, Copy)]
struct Limits {
    write_end: u64,
    read_end: u64,
    syncs: Syncs,
}

// No limit.
const SOUND: Limits = Limits {
    write_end: u64::MAX,
    read_end: u64::MAX,
    syncs: Syncs {
        data: true,
        all: true,
    },
};

// The system's files within these limits.
#[derive(Drop)]
struct FullDisk<'a> {
    rt: &'a HostRuntime,
    limits: Limits,
}

#[derive(Drop)]
struct FileOfFullDisk {
    file: File,
    limits: Limits,
}

impl FileExt for FileOfFullDisk {
    fn read_at(&self, buf: &mut [u8], offset: u64) -> io::Result<usize> {
        if offset >= self.limits.read_end {
            return Err(io::ErrorKind::StorageFull.into());
        }
        self.file.read_at(buf, offset)
    }

    fn write_at(&self, buf: &[u8], offset: u64) -> io::Result<usize> {
        if offset >= self.limits.write_end {
            return Err(io::ErrorKind::StorageFull.into());
        }
        self.file.write_at(buf, offset)
    }
}

impl Read for FileOfFullDisk {
    fn read(&mut self, buf: &mut [u8]) -> io::Result<usize> {
        self.file.read(buf)
    }
}

impl Write for FileOfFullDisk {
    fn write(&mut self, buf: &[u8]) -> io::Result<usize> {
        self.file.write(buf)
    }

    fn flush(&mut self) -> io::Result<()> {
        self.file.flush()
    }
}

impl Seek for FileOfFullDisk {
    fn seek(&mut self, to: SeekFrom) -> io::Result<u64> {
        self.file.seek(to)
    }
}

impl OpenFile for FileOfFullDisk {
    fn metadata(&self) -> io::Result<Metadata> {
        self.file.metadata()
    }

    fn set_len(&self, size: u64) -> io::Result<()> {
        self.file.set_len(size)
    }

    fn sync_all(&self) -> io::Result<()> {
        if !self.limits.syncs.all {
            return Err(io::ErrorKind::StorageFull.into());
        }
        self.file.sync_all()
    }

    fn sync_data(&self) -> io::Result<()> {
        if !self.limits.syncs.data {
            return Err(io::ErrorKind::StorageFull.into());
        }
        self.file.sync_data()
    }
}

impl Files for FullDisk<'_> {
    type File = FileOfFullDisk;

    type Dir = <HostRuntime as Files>::Dir;

    fn open_file(&self, how: &OpenOptions, path: &str) -> io::Result<FileOfFullDisk> {
        Ok(FileOfFullDisk {
            file: self.rt.open_file(how, path)?,
            limits: self.limits,
        })
    }

    fn open_dir(&self, path: &str) -> io::Result<Self::Dir> {
        self.rt.open_dir(path)
    }

    fn metadata(&self, path: &str) -> io::Result<Metadata> {
        self.rt.metadata(path)
    }

    fn symlink_metadata(&self, path: &str) -> io::Result<Metadata> {
        self.rt.symlink_metadata(path)
    }

    fn copy(&self, from: &str, to: &str) -> io::Result<u64> {
        self.rt.copy(from, to)
    }

    fn rename(&self, from: &str, to: &str) -> io::Result<()> {
        self.rt.rename(from, to)
    }

    fn remove_file(&self, path: &str) -> io::Result<()> {
        self.rt.remove_file(path)
    }

    fn create_dir(&self, path: &str) -> io::Result<()> {
        self.rt.create_dir(path)
    }

    fn remove_dir(&self, path: &str) -> io::Result<()> {
        self.rt.remove_dir(path)
    }

    fn remove_dir_all<B: Allocator>(&self, alloc: B, path: &str) -> io::Result<()> {
        self.rt.remove_dir_all(alloc, path)
    }
}

// Makes a file of three blocks on such a disk. How many blocks it has then.
fn make_three(files: &HostRuntime, path: &str, limits: Limits) -> Result<u32, FileRefusal> {
    let made = FileDevice::create(&FullDisk { rt: files, limits }, path, 3)?;
    Ok(made.count())
}

fn expect_none_left(rt: &impl Abort, files: &HostRuntime, path: &str, limits: Limits) {
    expect_eq(
        rt,
        &make_three(files, path, limits),
        &Err(FileRefusal::Disk),
    );
    assert!(rt; fs::metadata(files, path).is_err());
}

fn make_on_full(rt: &impl Abort, files: &HostRuntime, path: &str, blocks: u64) -> Result<(), Fail> {
    let limits = Limits {
        write_end: blocks.saturating_mul(4096),
        ..SOUND
    };
    if blocks < 3 {
        expect_none_left(rt, files, path, limits);
        return Ok(());
    }
    expect_eq(rt, &make_three(files, path, limits), &Ok(3));
    expect_length(rt, files, path, 12_288)?;
    fs::remove_file(files, path)?;
    Ok(())
}

// A file of three blocks on such a disk.
fn on_disk(
    files: &HostRuntime,
    path: &str,
    limits: Limits,
) -> Result<FileDevice<FileOfFullDisk>, FileRefusal> {
    let (device, _blocks) = FileDevice::open(&FullDisk { rt: files, limits }, files.alloc(), path)?;
    Ok(device)
}

// What the file holds, on a sound disk.
fn expect_held(rt: &impl Abort, files: &HostRuntime, path: &str, bytes: &[u8]) -> Result<(), Fail> {
    let (_device, blocks) = FileDevice::open(files, files.alloc(), path)?;
    expect_blocks(rt, &blocks, bytes);
    Ok(())
}

// Writes a file of three blocks where only one fits.
fn write_on_full(rt: &impl Abort, files: &HostRuntime, path: &str) -> Result<(), Fail> {
    let limits = Limits {
        write_end: 4096,
        ..SOUND
    };
    let mut device = on_disk(files, path, limits)?;
    expect_write(rt, &mut device, 0, 1, Ok(()));
    expect_write(rt, &mut device, 1, 2, Err(DeviceRefusal::Fault));
    expect_eq(rt, &device.sync(), &Ok(()));
    expect_held(rt, files, path, &[1, 0, 0])
}

#[test]
fn each_write_of_a_new_file_fails_in_turn(rt: HostRuntime) -> Result<(), Fail> {
    make_folder(&rt, "patch_device_full")?;
    let path = "patch_device_full/disk";
    for blocks in 0..5u64 {
        make_on_full(&rt, &rt, path, blocks)?;
    }
    make_file(&rt, path, 12_288)?;
    write_on_full(&rt, &rt, path)?;
    fs::remove_dir_all(&rt, "patch_device_full")?;
    Ok(())
}

// A file of three blocks whose last can't be read, though its length says that it is there.
#[test]
fn a_file_that_cannot_be_read_is_not_taken(rt: HostRuntime) -> Result<(), Fail> {
    make_folder(&rt, "patch_device_unread")?;
    make_file(&rt, "patch_device_unread/disk", 12_288)?;
    let limits = Limits {
        read_end: 8192,
        ..SOUND
    };
    let taken = on_disk(&rt, "patch_device_unread/disk", limits).err();
    expect_eq(&rt, &taken, &Some(FileRefusal::Disk));
    fs::remove_dir_all(&rt, "patch_device_unread")?;
    Ok(())
}

// A disk that fails as a file is opened or made, where it is synced whole,
const UNSYNCED: Limits = Limits {
    syncs: Syncs {
        data: true,
        all: false,
    },
    ..SOUND
};

// and one that fails later.
const UNSYNCED_LATER: Limits = Limits {
    syncs: Syncs {
        data: false,
        all: true,
    },
    ..SOUND
};

fn expect_spent<D: Device>(rt: &impl Abort, device: &mut D) {
    expect_write(rt, device, 0, 5, Err(DeviceRefusal::Fault));
    expect_eq(rt, &device.sync(), &Err(DeviceRefusal::Fault));
    expect_no_block(rt, device, 3);
}

fn sync_on_unsynced(rt: &impl Abort, files: &HostRuntime, path: &str) -> Result<(), Fail> {
    let mut device = on_disk(files, path, UNSYNCED_LATER)?;
    expect_write(rt, &mut device, 0, 4, Ok(()));
    expect_eq(rt, &device.finish(), &Ok(()));
    expect_eq(rt, &device.sync(), &Err(DeviceRefusal::Fault));
    expect_spent(rt, &mut device);
    expect_held(rt, files, path, &[4, 0, 0])
}

// Without barriers it is the end that fails, and that of something written alone.
fn finish_on_unsynced(rt: &impl Abort, files: &HostRuntime, path: &str) -> Result<(), Fail> {
    let mut device = on_disk(files, path, UNSYNCED_LATER)?.without_barriers();
    expect_eq(rt, &device.sync(), &Ok(()));
    expect_eq(rt, &device.finish(), &Ok(()));
    expect_write(rt, &mut device, 1, 6, Ok(()));
    expect_eq(rt, &device.finish(), &Err(DeviceRefusal::Fault));
    expect_spent(rt, &mut device);
    expect_held(rt, files, path, &[4, 6, 0])
}

#[test]
fn a_failed_sync_is_the_end(rt: HostRuntime) -> Result<(), Fail> {
    make_folder(&rt, "patch_device_unsynced")?;
    let path = "patch_device_unsynced/disk";
    expect_none_left(&rt, &rt, path, UNSYNCED);
    make_file(&rt, path, 12_288)?;
    let taken = on_disk(&rt, path, UNSYNCED).err();
    expect_eq(&rt, &taken, &Some(FileRefusal::Disk));
    sync_on_unsynced(&rt, &rt, path)?;
    finish_on_unsynced(&rt, &rt, path)?;
    fs::remove_dir_all(&rt, "patch_device_unsynced")?;
    Ok(())
}

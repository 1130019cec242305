//! Files that can't be finished, and makes that are killed: what is left of each.
use super::files::{MADE, follow};
use super::weak::{ALL, WeakWriter, Well};
use super::*;
use patch_files::make_file;
use std::alloc::Allocator;
use std::fs::{File, Metadata, OpenFile, OpenOptions};
use std::io::{ErrorKind, Read, Seek, SeekFrom, Write};
use std::os::unix::fs::FileExt;
use std::rt::Files;
use std::sync::atomic::{AtomicU64, Ordering};
use std::{fs, io};

/// Counts calls, of which one fails, by an error of this kind, or all from then on, as where the program is killed.
#[derive(Drop)]
struct Calls {
    left: AtomicU64,
    kind: ErrorKind,
    kills: bool,
}

impl Calls {
    fn call(&self) -> io::Result<()> {
        let left = self.left.load(Ordering::SeqCst);
        if left > 0 || !self.kills {
            self.left.store(left.wrapping_sub(1), Ordering::SeqCst);
        }
        if left == 0 {
            return Err(io::Error::from(self.kind));
        }
        Ok(())
    }
}

/// The system's files, of which a call that changes something fails.
#[derive(Drop)]
struct WeakFiles<'a, R> {
    files: &'a R,
    calls: &'a Calls,
}

/// A file of [`WeakFiles`].
#[derive(Drop)]
struct WeakFile<'a> {
    file: File,
    calls: &'a Calls,
}

impl FileExt for WeakFile<'_> {
    fn read_at(&self, buf: &mut [u8], offset: u64) -> io::Result<usize> {
        self.file.read_at(buf, offset)
    }

    fn write_at(&self, buf: &[u8], offset: u64) -> io::Result<usize> {
        self.calls.call()?;
        self.file.write_at(buf, offset)
    }
}

impl Read for WeakFile<'_> {
    fn read(&mut self, buf: &mut [u8]) -> io::Result<usize> {
        self.file.read(buf)
    }
}

impl Write for WeakFile<'_> {
    fn write(&mut self, buf: &[u8]) -> io::Result<usize> {
        self.calls.call()?;
        self.file.write(buf)
    }

    fn flush(&mut self) -> io::Result<()> {
        self.file.flush()
    }
}

impl Seek for WeakFile<'_> {
    fn seek(&mut self, to: SeekFrom) -> io::Result<u64> {
        self.file.seek(to)
    }
}

impl OpenFile for WeakFile<'_> {
    fn metadata(&self) -> io::Result<Metadata> {
        self.file.metadata()
    }

    fn set_len(&self, size: u64) -> io::Result<()> {
        self.calls.call()?;
        self.file.set_len(size)
    }

    fn sync_all(&self) -> io::Result<()> {
        self.calls.call()?;
        self.file.sync_all()
    }

    fn sync_data(&self) -> io::Result<()> {
        self.calls.call()?;
        self.file.sync_data()
    }
}

impl<'a, R: Files<File = File>> Files for WeakFiles<'a, R> {
    type File = WeakFile<'a>;

    type Dir = R::Dir;

    fn open_file(&self, how: &OpenOptions, path: &str) -> io::Result<WeakFile<'a>> {
        self.calls.call()?;
        Ok(WeakFile {
            file: self.files.open_file(how, path)?,
            calls: self.calls,
        })
    }

    fn open_dir(&self, path: &str) -> io::Result<R::Dir> {
        self.files.open_dir(path)
    }

    fn metadata(&self, path: &str) -> io::Result<Metadata> {
        self.files.metadata(path)
    }

    fn symlink_metadata(&self, path: &str) -> io::Result<Metadata> {
        self.files.symlink_metadata(path)
    }

    fn copy(&self, from: &str, to: &str) -> io::Result<u64> {
        self.files.copy(from, to)
    }

    fn rename(&self, from: &str, to: &str) -> io::Result<()> {
        self.files.rename(from, to)
    }

    fn remove_file(&self, path: &str) -> io::Result<()> {
        if self.calls.kills {
            self.calls.call()?;
        }
        self.files.remove_file(path)
    }

    fn hard_link(&self, original: &str, link: &str) -> io::Result<()> {
        self.calls.call()?;
        self.files.hard_link(original, link)
    }

    fn create_dir(&self, path: &str) -> io::Result<()> {
        self.files.create_dir(path)
    }

    fn remove_dir(&self, path: &str) -> io::Result<()> {
        self.files.remove_dir(path)
    }

    fn remove_dir_all<B: Allocator>(&self, alloc: B, path: &str) -> io::Result<()> {
        self.files.remove_dir_all(alloc, path)
    }
}

const FOLDER: &str = "patch_files_makes";

const PATH: &str = "patch_files_makes/unfinished";

// The name of a file that isn't whole yet.
const OTHER: &str = "patch_files_makes/.fstch-0";

const FOLDER_OF_KILLED: &str = "patch_files_kills";

const PATH_OF_KILLED: &str = "patch_files_kills/killed";

const PATH_OF_FINISHED: &str = "patch_files_finished";

const PATH_OF_ANOTHER: &str = "patch_files_another";

// A file is opened, 35 blocks of zeros are written and synced, then the superblock, the file is linked to its name, and then the directory
// is opened and synced.
const CALLS: u64 = 42;

// How many calls go before the link.
const LINK: u64 = 39;

fn new_folder(rt: &impl Abort, files: &HostRuntime, folder: &str) {
    let _old = fs::remove_dir_all(files, folder);
    fs::create_dir(files, folder).expect(rt, "a folder that is made");
}

fn make_by(files: &HostRuntime, path: &str, calls: &Calls) -> (Status, Vec<u8>) {
    let weak = WeakFiles { files, calls };
    let mut out = Sink::new(Vec::new(files.alloc()));
    let status = make_file(&weak, files.alloc(), &mut out, path, SMALL);
    (status, out.into_inner())
}

// The make whose call behind so many fails by an error of this kind ends so, and nothing of another name is left.
fn expect_make(rt: &impl Abort, files: &HostRuntime, well: u64, kind: ErrorKind, end: End) {
    let calls = Calls {
        left: AtomicU64::new(well),
        kind,
        kills: false,
    };
    let (status, written) = make_by(files, PATH, &calls);
    expect_end(rt, status, written.as_slice(), end);
    let is_there = fs::metadata(files, PATH).is_ok();
    let other_is_there = fs::metadata(files, OTHER).is_ok();
    let wanted = (well, end.1 == 0, false);
    expect_eq(rt, &(well, is_there, other_is_there), &wanted);
}

// A system that can't sync a directory says of that call alone that it is invalid: then the file is made. One that has no links says so, in
// whatever way, and the file is made where it is to be.
#[test]
fn a_file_that_can_not_be_finished_is_removed(rt: HostRuntime) {
    new_folder(&rt, &rt, FOLDER);
    for well in 0..CALLS {
        if well != LINK {
            let full = ErrorKind::StorageFull;
            expect_make(&rt, &rt, well, full, failed("fault Disk\n"));
        }
    }
    let invalid = ErrorKind::InvalidInput;
    expect_make(&rt, &rt, CALLS - 2, invalid, failed("fault Disk\n"));
    for well in [LINK, CALLS - 1, CALLS] {
        expect_make(&rt, &rt, well, invalid, MADE);
        follow(&rt, rt.alloc(), PATH, &[(Deed::Check, EMPTY_STORE)]);
        fs::remove_file(&rt, PATH).expect(&rt, "a file that is there");
    }
    fs::remove_dir(&rt, FOLDER).expect(&rt, "a folder that is empty");
}

// Before the link the name is free, and behind it it has the store.
#[test]
fn a_make_that_is_killed_leaves_nothing_but_a_store(rt: HostRuntime) {
    for well in 0..CALLS + 2 {
        new_folder(&rt, &rt, FOLDER_OF_KILLED);
        let calls = Calls {
            left: AtomicU64::new(well),
            kind: ErrorKind::StorageFull,
            kills: true,
        };
        let _end = make_by(&rt, PATH_OF_KILLED, &calls);
        let is_made = fs::metadata(&rt, PATH_OF_KILLED).is_ok();
        expect_eq(&rt, &(well, is_made), &(well, well > LINK));
        if !is_made {
            let turns = [(Deed::Make(SMALL), MADE)];
            follow(&rt, rt.alloc(), PATH_OF_KILLED, &turns);
        }
        let turns = [(Deed::Check, EMPTY_STORE)];
        follow(&rt, rt.alloc(), PATH_OF_KILLED, &turns);
    }
    let _left = fs::remove_dir_all(&rt, FOLDER_OF_KILLED);
}

// The line that tells of it isn't taken.
#[test]
fn a_file_that_is_finished_stays(rt: HostRuntime) {
    let _old = fs::remove_file(&rt, PATH_OF_FINISHED);
    let mut out = Sink::new(WeakWriter::new(rt.alloc(), Well { texts: 0, ..ALL }));
    let status = make_file(&rt, rt.alloc(), &mut out, PATH_OF_FINISHED, SMALL);
    expect_end(&rt, status, out.into_inner().taken.as_slice(), failed(""));
    let turns = [(Deed::Check, EMPTY_STORE)];
    follow(&rt, rt.alloc(), PATH_OF_FINISHED, &turns);
    fs::remove_file(&rt, PATH_OF_FINISHED).expect(&rt, "a file that is there");
}

#[test]
fn what_is_there_is_left_as_it_was(rt: HostRuntime) {
    fs::write(&rt, PATH_OF_ANOTHER, b"another's").expect(&rt, "a file that is written");
    let turns = [(Deed::Make(SMALL), failed("fault Disk\n"))];
    follow(&rt, rt.alloc(), PATH_OF_ANOTHER, &turns);
    let left = fs::read(&rt, PATH_OF_ANOTHER).expect(&rt, "a file that is read");
    expect_eq(&rt, &left.as_slice(), &b"another's".as_slice());
    drop(left);
    fs::remove_file(&rt, PATH_OF_ANOTHER).expect(&rt, "a file that is there");
}

//! Files that are locked while they are open, so that no two programs write one store, and what is met on the way.
ghost use Rattle.std.specs.Prelude.{◌≡◌};

use std::alloc::Allocator;
use std::fs::{File, Metadata, OpenFile, OpenOptions, TryLockError};
use std::io;
use std::io::{Read, Seek, SeekFrom, Write};
use std::os::unix::fs::FileExt;
use std::rt::Files;
use std::sync::atomic::{AtomicBool, Ordering};
use std::sync::{Mutex, Wait};
use std::thread::Threads;

/// Why a call of the system failed: what kind of failure that is, and the system's number.
#[derive(Clone, Copy, Debug, PartialEq, Eq)]
pub struct Trouble {
    pub kind: io::ErrorKind,
    pub number: Option<i32>,
}

/// What was met by files that are open, and by those that were not opened.
#[derive(Drop)]
pub struct Notes {
    met_lock: AtomicBool,
    failed_sync: AtomicBool,
    /// Why the last call failed, if it did.
    trouble: Mutex<Option<Trouble>>,
}

impl Notes {
    pub fn new() -> Notes {
        Notes {
            met_lock: AtomicBool::new(false),
            failed_sync: AtomicBool::new(false),
            trouble: Mutex::new(None),
        }
    }

    /// Whether an open was refused because the file is in use.
    pub fn has_met_lock(&self) -> bool {
        self.met_lock.load(Ordering::SeqCst)
    }

    /// Whether a sync of a file failed.
    pub fn has_failed_sync(&self) -> bool {
        self.failed_sync.load(Ordering::SeqCst)
    }

    /// Why the last call failed, if it did. Of calls of several threads at one moment one may be left out.
    pub fn last_trouble(&self) -> Option<Trouble> {
        match self.trouble.try_lock() {
            Some(trouble) => *trouble,
            None => None,
        }
    }

    fn note(&self, trouble: Option<Trouble>) {
        if let Some(mut last) = self.trouble.try_lock() {
            *last = trouble;
        }
    }

    /// How a call ended, and notes it.
    pub(crate) fn ended<T: Drop>(&self, ended: io::Result<T>) -> io::Result<T>
        ensures { result ≡ ended }
    {
        match ended {
            Ok(done) => {
                self.note(None);
                Ok(done)
            }
            Err(e) => {
                self.note(Some(Trouble {
                    kind: e.kind(),
                    number: e.raw_os_error(),
                }));
                Err(e)
            }
        }
    }

    /// How a sync ended, and notes it.
    fn synced(&self, ended: io::Result<()>) -> io::Result<()> {
        if ended.is_err() {
            self.failed_sync.store(true, Ordering::SeqCst);
        }
        self.ended(ended)
    }
}

/// The system's files, each locked as long as it is open, but for directories: those are opened to let a name in them last. Several may have
/// a file that is opened to be read alone, and one alone has any other. An open of one that another program has locked, by this type or by
/// the library for C, is refused and noted, and so is a call that fails. The lock is the system's advisory one, of the open file: it goes
/// with the program, however that ends.
#[derive(Drop)]
pub struct LockedFiles<'a, R> {
    files: &'a R,
    notes: &'a Notes,
}

/// A file of [`LockedFiles`].
#[derive(Drop)]
pub struct LockedFile<'a> {
    file: File,
    notes: &'a Notes,
}

impl<'a, R> LockedFiles<'a, R> {
    pub fn new(files: &'a R, notes: &'a Notes) -> LockedFiles<'a, R> {
        LockedFiles { files, notes }
    }

    fn lock(&self, how: &OpenOptions, file: File) -> io::Result<File> {
        let locked = if how.asks_write() {
            file.try_lock()
        } else {
            file.try_lock_shared()
        };
        match locked {
            Ok(()) => Ok(file),
            Err(TryLockError::WouldBlock) => {
                self.notes.met_lock.store(true, Ordering::SeqCst);
                Err(io::ErrorKind::WouldBlock.into())
            }
            Err(TryLockError::Error(e)) => Err(e),
        }
    }
}

impl FileExt for LockedFile<'_> {
    fn read_at(&self, buf: &mut [u8], offset: u64) -> io::Result<usize> {
        self.notes.ended(self.file.read_at(buf, offset))
    }

    fn write_at(&self, buf: &[u8], offset: u64) -> io::Result<usize> {
        self.notes.ended(self.file.write_at(buf, offset))
    }
}

impl Read for LockedFile<'_> {
    fn read(&mut self, buf: &mut [u8]) -> io::Result<usize> {
        self.file.read(buf)
    }
}

impl Write for LockedFile<'_> {
    fn write(&mut self, buf: &[u8]) -> io::Result<usize> {
        self.file.write(buf)
    }

    fn flush(&mut self) -> io::Result<()> {
        self.file.flush()
    }
}

impl Seek for LockedFile<'_> {
    fn seek(&mut self, to: SeekFrom) -> io::Result<u64> {
        self.file.seek(to)
    }
}

impl OpenFile for LockedFile<'_> {
    fn metadata(&self) -> io::Result<Metadata> {
        self.file.metadata()
    }

    fn set_len(&self, size: u64) -> io::Result<()> {
        self.file.set_len(size)
    }

    fn sync_all(&self) -> io::Result<()> {
        self.notes.synced(self.file.sync_all())
    }

    fn sync_data(&self) -> io::Result<()> {
        self.notes.synced(self.file.sync_data())
    }
}

impl<R: Wait> Wait for LockedFiles<'_, R> {}

impl<R: Threads> Threads for LockedFiles<'_, R> {}

impl<'a, R: Files<File = File>> Files for LockedFiles<'a, R> {
    type File = LockedFile<'a>;

    type Dir = R::Dir;

    fn open_file(&self, how: &OpenOptions, path: &str) -> io::Result<LockedFile<'a>> {
        let file = self.notes.ended(self.files.open_file(how, path))?;
        let is_directory = file.metadata()?.is_dir();
        let file = if is_directory {
            file
        } else {
            self.lock(how, file)?
        };
        Ok(LockedFile {
            file,
            notes: self.notes,
        })
    }

    fn open_dir(&self, path: &str) -> io::Result<R::Dir> {
        self.files.open_dir(path)
    }

    fn metadata(&self, path: &str) -> io::Result<Metadata> {
        self.files.metadata(path)
    }

    fn symlink_metadata(&self, path: &str) -> io::Result<Metadata> {
        self.files.symlink_metadata(path)
    }

    fn copy(&self, from: &str, to: &str) -> io::Result<u64> {
        self.files.copy(from, to)
    }

    fn rename(&self, from: &str, to: &str) -> io::Result<()> {
        self.files.rename(from, to)
    }

    fn remove_file(&self, path: &str) -> io::Result<()> {
        self.files.remove_file(path)
    }

    fn hard_link(&self, original: &str, link: &str) -> io::Result<()> {
        self.files.hard_link(original, link)
    }

    fn create_dir(&self, path: &str) -> io::Result<()> {
        self.files.create_dir(path)
    }

    fn remove_dir(&self, path: &str) -> io::Result<()> {
        self.files.remove_dir(path)
    }

    fn remove_dir_all<B: Allocator>(&self, alloc: B, path: &str) -> io::Result<()> {
        self.files.remove_dir_all(alloc, path)
    }
}

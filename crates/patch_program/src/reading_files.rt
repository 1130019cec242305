//! Files that are opened to be read alone.
use crate::locking::Notes;
use std::alloc::Allocator;
use std::fs::{Metadata, OpenOptions};
use std::io;
use std::rt::Files;

/// Other files, each of which is opened to be read, whatever is asked for, so that nothing can be written to it. Directories, pipes and
/// other things that aren't files of bytes aren't opened, and names stay as they are.
#[derive(Drop)]
pub struct ReadFiles<'a, H> {
    files: &'a H,
    notes: &'a Notes,
}

impl<'a, H> ReadFiles<'a, H> {
    pub fn new(files: &'a H, notes: &'a Notes) -> ReadFiles<'a, H> {
        ReadFiles { files, notes }
    }
}

/// Why no name is changed.
fn refused<T: Drop>() -> io::Result<T> {
    Err(io::ErrorKind::PermissionDenied.into())
}

impl<H: Files> Files for ReadFiles<'_, H> {
    type File = H::File;

    type Dir = H::Dir;

    fn open_file(&self, _how: &OpenOptions, path: &str) -> io::Result<H::File> {
        let found = self.notes.ended(self.files.metadata(path))?;
        if found.is_dir() {
            return self.notes.ended(Err(io::ErrorKind::IsADirectory.into()));
        }
        if !found.is_file() {
            return self.notes.ended(Err(io::ErrorKind::Unsupported.into()));
        }
        OpenOptions::new().read(true).open(self.files, path)
    }

    fn open_dir(&self, path: &str) -> io::Result<H::Dir> {
        self.files.open_dir(path)
    }

    fn metadata(&self, path: &str) -> io::Result<Metadata> {
        self.files.metadata(path)
    }

    fn symlink_metadata(&self, path: &str) -> io::Result<Metadata> {
        self.files.symlink_metadata(path)
    }

    fn copy(&self, _from: &str, _to: &str) -> io::Result<u64> {
        refused()
    }

    fn rename(&self, _from: &str, _to: &str) -> io::Result<()> {
        refused()
    }

    fn remove_file(&self, _path: &str) -> io::Result<()> {
        refused()
    }

    fn hard_link(&self, _original: &str, _link: &str) -> io::Result<()> {
        refused()
    }

    fn create_dir(&self, _path: &str) -> io::Result<()> {
        refused()
    }

    fn remove_dir(&self, _path: &str) -> io::Result<()> {
        refused()
    }

    fn remove_dir_all<B: Allocator>(&self, _alloc: B, _path: &str) -> io::Result<()> {
        refused()
    }
}

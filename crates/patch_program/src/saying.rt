//! What is said on standard error, each thing in a line.
use crate::locking::{Notes, Trouble};
use patch_files::{BadSlot, Survey};
use patch_frame::Geometry;
use patch_model::MAX_BLOCKS;
use patch_replay::BadScript;
use std::alloc::{AllocError, Global};
use std::fmt::{Display, Formatter};
use std::io::Write;
use std::{fmt, io};

const AFTER_FAILED_SYNC: &[u8] = b"\
fstch: a sync of the file failed, so the system may show what the disk doesn't have: have it read anew from the disk, as after a
fstch: restart, before you open it again
";

/// Standard error, whether somebody reads it at a terminal, and what was met by files.
#[derive(Drop)]
pub struct Errors<'a, E> {
    pub stream: &'a mut E,
    pub is_terminal: bool,
    pub notes: &'a Notes,
}

impl Display for Trouble {
    fn fmt<W: fmt::Write>(&self, f: &mut Formatter<W>) -> fmt::Result {
        match (self.kind, self.number) {
            (io::ErrorKind::AlreadyExists, _) => f.write_str("it is there already"),
            (io::ErrorKind::IsADirectory, _) => f.write_str("it is a directory"),
            (io::ErrorKind::StorageFull, _) => f.write_str("the disk is full"),
            (io::ErrorKind::Unsupported, _) => f.write_str("it is no regular file"),
            (io::ErrorKind::Uncategorized, Some(number)) => {
                write!(f, "{}", io::Error::from_raw_os_error(number))
            }
            (kind, _) => write!(f, "{kind}"),
        }
    }
}

/// What the file of a run has where standard output can't be written.
#[derive(Clone, Copy, Debug, PartialEq, Eq)]
pub(crate) enum Left {
    /// All that the script changed.
    All,
    /// What it changed before its last sync that was done, and maybe more.
    Synced,
    /// That is told by a check.
    Unknown,
}

impl<E: Write> Errors<'_, E> {
    /// Says in words why no line of a script was answered.
    pub(crate) fn say_script(&mut self, why: BadScript) {
        let _ = writeln!(self.stream, "fstch: {why}");
    }

    /// Says something of the file of this name.
    pub(crate) fn say_of(&mut self, path: &str, what: &str) {
        let _ = writeln!(self.stream, "fstch: {path}: {what}");
    }

    /// Says why the system refused the file of this name, if it did; where something isn't there, that it is this.
    pub(crate) fn say_why(&mut self, path: &str, missing: &str) {
        if self.notes.has_met_lock() {
            return;
        }
        let Some(trouble) = self.notes.last_trouble() else {
            return;
        };
        let _ = if trouble.kind == io::ErrorKind::NotFound {
            writeln!(self.stream, "fstch: {path}: there is no such {missing}")
        } else {
            writeln!(self.stream, "fstch: {path}: {trouble}")
        };
    }

    /// Says how many blocks a disk would have that is divided so.
    pub(crate) fn say_blocks(&mut self, geometry: Geometry) {
        let blocks = geometry
            .extents
            .saturating_mul(geometry.format.extent_blocks())
            .saturating_add(geometry.index)
            .saturating_add(2);
        let _ = writeln!(
            self.stream,
            "fstch: this makes {blocks} blocks, {MAX_BLOCKS} at most"
        );
    }

    /// Says that standard output can't be written.
    pub(crate) fn say_output(&mut self) {
        let _ = self
            .stream
            .write_all(b"fstch: standard output can't be written\n");
    }

    /// Says that standard output can't be written, and what the file of this name has.
    pub(crate) fn say_left(&mut self, path: &str, left: Left) {
        self.say_output();
        let _ = match left {
            Left::All => writeln!(self.stream, "fstch: {path} has all that the script changed"),
            Left::Synced => writeln!(
                self.stream,
                "fstch: {path} has what the script changed before the last sync that was done, and maybe more"
            ),
            Left::Unknown => writeln!(
                self.stream,
                "fstch: what {path} has is told by fstch check {path}"
            ),
        };
    }

    /// Says that a file was locked, and that a sync failed, if that was met.
    pub(crate) fn say_met(&mut self) {
        if self.notes.has_met_lock() {
            let _ = self.stream.write_all(b"fstch: the file is in use\n");
        }
        if self.notes.has_failed_sync() {
            let _ = self.stream.write_all(AFTER_FAILED_SYNC);
        }
    }

    /// Says which keys can be read where slots of the index are wrong, and which can't.
    pub(crate) fn say_survey(&mut self, alloc: Global, survey: &Survey) {
        if survey.bad.is_empty() {
            return;
        }
        for bad in survey.bad.iter() {
            let _ = self.say_bad(alloc, bad);
        }
        for entry in survey.entries.iter() {
            let _ = self.say_readable(alloc, entry.key.as_slice(), entry.length);
        }
    }

    fn say_bad(&mut self, alloc: Global, bad: &BadSlot) -> Result<(), AllocError> {
        let slot = bad.why.number.unwrap_or(0);
        let name = bad.why.kind.name();
        let _ = match &bad.key {
            Some(key) => {
                let key = hex::encode(alloc, key.as_slice())?;
                writeln!(
                    self.stream,
                    "fstch: slot {slot}: {name}: key {key} can't be read"
                )
            }
            None => writeln!(
                self.stream,
                "fstch: slot {slot}: {name}: its key can't be told"
            ),
        };
        Ok(())
    }

    fn say_readable(&mut self, alloc: Global, key: &[u8], length: u32) -> Result<(), AllocError> {
        let key = hex::encode(alloc, key)?;
        let _ = writeln!(self.stream, "fstch: key {key} can be read, length {length}");
        Ok(())
    }
}

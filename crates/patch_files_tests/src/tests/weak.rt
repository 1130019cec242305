//! Devices and streams that fail, each from some call on.
ghost use Rattle.std.specs.Prelude.{◌≡◌, ◌≤◌, ⊤, true};
ghost use Rattle.patch_device.specs.Device.{most_faults};

use super::*;
use patch_device::DeviceRefusal;
use patch_replay::Output;
use std::io;
use std::io::{ErrorKind, Read, Write};

/// How many calls of each kind go well. Each later one fails.
#[derive(Clone, Copy)]
pub(super) struct Well {
    pub(super) reads: u64,
    pub(super) writes: u64,
    pub(super) syncs: u64,
    pub(super) finishes: u64,
    /// Whether a write is told as done, and isn't.
    pub(super) forgets: bool,
    /// Pieces of the script, of 40 bytes.
    pub(super) pieces: u64,
    /// Writes of texts.
    pub(super) texts: u64,
    pub(super) flushes: u64,
}

/// Nothing fails.
pub(super) const ALL: Well = Well {
    reads: u64::MAX,
    writes: u64::MAX,
    syncs: u64::MAX,
    finishes: u64::MAX,
    forgets: false,
    pieces: u64::MAX,
    texts: u64::MAX,
    flushes: u64::MAX,
};

// Whether one call more goes well.
fn goes_well(left: &mut u64) -> bool {
    let well = *left > 0;
    *left = (*left).saturating_sub(1);
    well
}

/// A device in memory, of this name. It isn't honest, so nothing is said of what it holds: it holds what was written.
#[derive(Drop)]
pub(super) struct WeakDevice {
    pub(super) inner: MemDevice,
    pub(super) name: usize,
    well: Well,
    spent: bool,
    faults: u64,
    ghost faults_fit: { faults ≤ most_faults },
}

impl WeakDevice {
    pub(super) fn new(inner: MemDevice, name: usize, well: Well) -> WeakDevice {
        WeakDevice {
            inner,
            name,
            well,
            spent: false,
            faults: 0,
        }
    }
}

impl Device for WeakDevice {
    ghost use Rattle.std.specs.Prelude.{[]};
    ghost use Rattle.patch_device.specs.MemDevice.{block_count_of};

    ghost contents = { λ _. [] };

    ghost moment = { λ _. 0 };

    ghost left_at = { λ _ _ _. ⊥ };

    ghost is_honest = { λ _. ⊥ };

    ghost is_spent = { λ d. d.spent ≡ true };

    ghost block_count = { λ d. block_count_of d.inner };

    ghost fault_count = { λ d. d.faults };

    fn count(&self) -> u32 {
        self.inner.count()
    }

    fn read(&mut self, n: u32, into: &mut [u8]) -> Result<(), DeviceRefusal> {
        if n >= self.inner.count() {
            return Err(DeviceRefusal::NoSuchBlock);
        }
        let well = goes_well(&mut self.well.reads);
        if self.spent || !well || self.inner.read(n, into).is_err() {
            self.faults = self.faults.saturating_add(1);
            return Err(DeviceRefusal::Fault);
        }
        Ok(())
    }

    fn write(&mut self, n: u32, from: &[u8]) -> Result<(), DeviceRefusal> {
        if n >= self.inner.count() {
            return Err(DeviceRefusal::NoSuchBlock);
        }
        let well = goes_well(&mut self.well.writes);
        let forgets = self.well.forgets;
        if self.spent || !well || !forgets && self.inner.write(n, from).is_err() {
            self.faults = self.faults.saturating_add(1);
            return Err(DeviceRefusal::Fault);
        }
        Ok(())
    }

    fn sync(&mut self) -> Result<(), DeviceRefusal> {
        let well = goes_well(&mut self.well.syncs);
        if self.spent || !well {
            self.spent = true;
            self.faults = self.faults.saturating_add(1);
            return Err(DeviceRefusal::Fault);
        }
        Ok(())
    }

    fn finish(&mut self) -> Result<(), DeviceRefusal> {
        let well = goes_well(&mut self.well.finishes);
        if !well {
            self.spent = true;
            self.faults = self.faults.saturating_add(1);
            return Err(DeviceRefusal::Fault);
        }
        Ok(())
    }

    ghost blocks_counted = { λ d h. absurd h };

    ghost blocks_whole = { λ d h. absurd h };

    ghost all_may_land = { λ d h. absurd h };

    ghost faults_fit = { λ d. d.faults_fit };
}

/// A reader that gives so many pieces of its text. Where it fails, it does so once: whoever reads on gets the rest.
#[derive(Drop)]
pub(super) struct WeakReader<'a> {
    left: &'a [u8],
    pieces: u64,
    failed: bool,
}

impl<'a> WeakReader<'a> {
    pub(super) fn new(text: &'a str, well: Well) -> WeakReader<'a> {
        WeakReader {
            left: text.as_bytes(),
            pieces: well.pieces,
            failed: false,
        }
    }
}

impl Read for WeakReader<'_> {
    fn read(&mut self, buf: &mut [u8]) -> io::Result<usize> {
        let well = goes_well(&mut self.pieces);
        if !well && !self.failed {
            self.failed = true;
            return Err(io::Error::from(ErrorKind::ConnectionReset));
        }
        let count = 40.min(buf.len());
        self.left.read(&mut buf[..count])
    }
}

/// A writer that takes so many texts, and is flushed so often.
#[derive(Drop)]
pub(super) struct WeakWriter {
    pub(super) taken: Vec<u8>,
    texts: u64,
    flushes: u64,
}

impl WeakWriter {
    pub(super) fn new(alloc: Global, well: Well) -> WeakWriter {
        WeakWriter {
            taken: Vec::new(alloc),
            texts: well.texts,
            flushes: well.flushes,
        }
    }
}

impl Write for WeakWriter {
    fn write(&mut self, buf: &[u8]) -> io::Result<usize> {
        let well = goes_well(&mut self.texts);
        if !well || self.taken.extend_from_slice(buf).is_err() {
            return Err(io::Error::from(ErrorKind::StorageFull));
        }
        Ok(buf.len())
    }

    fn flush(&mut self) -> io::Result<()> {
        let well = goes_well(&mut self.flushes);
        if !well {
            return Err(io::Error::from(ErrorKind::BrokenPipe));
        }
        Ok(())
    }
}

impl Output for WeakWriter {
    ghost KeepsNothing = { λ output. ⊤ };

    fn pass_on(&mut self) -> io::Result<()> {
        self.flush()
    }
}

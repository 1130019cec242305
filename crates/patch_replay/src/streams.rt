//! The streams of a replay: its reader and its writer, each with notes of what has become of its calls.
ghost use Rattle.std.specs.Prelude.{◌≡◌, [], ⊤, ◌+◌, ◌-◌, ◌^◌, ◌≤◌, min, length, true, false, IfOk, IfErr, IfSome, OnOk, None};
ghost use Rattle.std.specs.Option.{option_copied};
ghost use Rattle.std.specs.Io.KnownBytes.{Keeps, Appends};
ghost use Rattle.std.specs.Io.Buffered.{writer_buffer};
ghost use Rattle.patch_replay.specs.Streams.{GivesBytes, IsFlushed, IsReadNoted, noted};
ghost use Rattle.patch_replay.specs.declared.endings.Fault.TheVariants.{Read as ReadFault, Write as WriteFault};

use crate::endings::Fault;
use std::io;
use std::io::{BufWriter, Error, ErrorKind, Read, Write};

/// The most reads of one input.
pub const MAX_READS: u32 = 33_554_432;

/// A reader, with a note of how often it was read and of the last read that failed.
///
/// The standard's `Read` says nothing of a read that fails; by the note, a fault is told only where there was one.
#[derive(Drop)]
pub struct Source<R> {
    inner: R,
    reads: u32,
    failure: Option<Error>,
}

impl<R: Read> Source<R> {
    /// A reader that was not read yet.
    pub fn new(reader: R) -> Source<R>
        ensures reader { result.inner ≡ reader }
        ensures reads { result.reads ≡ 0 }
        ensures failure { result.failure ≡ None }
    {
        Source {
            inner: reader,
            reads: 0,
            failure: None,
        }
    }

    /// What the last read that failed has answered. One that was interrupted has not failed.
    pub fn failure(&self) -> Option<&Error>
        ensures { option_copied result ≡ self.now.failure }
    {
        self.failure.as_ref()
    }

    /// How often it was read.
    pub fn reads(&self) -> u32
        ensures { result ≡ self.now.reads }
    {
        let Source { reads, .. } = self;
        *reads
    }

    /// Reads some bytes and answers how many, none at the end, or `None` where the read was interrupted.
    pub(crate) fn read(&mut self, buf: &mut [u8]) -> Result<Option<usize>, Fault>
        ensures bound { IfOk result (λ read. IfSome read (λ count. count ≤ length buf.new)) }
        ensures bytes { GivesBytes (R.remaining self.old.inner) (R.remaining self.new.inner) result buf.new }
        ensures counted { self.new.reads ≡ min (self.old.reads + 1) (2 ^ 32 - 1) }
        ensures noted { IsReadNoted self.old.failure self.new.failure result }
        ensures failed { IfErr result (λ fault. fault ≡ ReadFault) }
    {
        self.reads = self.reads.saturating_add(1);
        match self.inner.read(buf) {
            Ok(count) => Ok(Some(count)),
            Err(e) if e.kind() == ErrorKind::Interrupted => Ok(None),
            Err(e) => {
                self.failure = Some(e);
                Err(Fault::Read)
            }
        }
    }
}

/// A writer whose contract says when it keeps nothing back: of a flush the standard's `Write` promises nothing.
pub trait Output: Write {
    /// The writer has passed on all that was written to it.
    ghost KeepsNothing: { Self → Type 0 };

    /// Passes on what the writer keeps.
    fn pass_on(&mut self) -> io::Result<()>
        ensures bytes { Keeps (Self.contents self.old) (Self.contents self.new) }
        ensures all { OnOk result (KeepsNothing self.new) };
}

/// Nothing stays in the buffer.
impl<W: Write + Drop> Output for BufWriter<W> {
    ghost KeepsNothing = { λ output. writer_buffer output ≡ [] };

    fn pass_on(&mut self) -> io::Result<()> {
        self.flush()
    }
}

/// What was written is the vector itself.
impl Output for Vec<u8> {
    ghost KeepsNothing = { λ output. ⊤ };

    fn pass_on(&mut self) -> io::Result<()> {
        Ok(())
    }
}

/// A writer, with a note of whether a write failed, and of whether it still keeps text back.
#[derive(Drop)]
pub struct Sink<W> {
    inner: W,
    failed: bool,
    flushed: bool,
}

impl<W: Output> Sink<W> {
    /// A writer to which nothing was written yet.
    pub fn new(writer: W) -> Sink<W>
        ensures writer { result.inner ≡ writer }
        ensures failed { result.failed ≡ false }
        ensures flushed { result.flushed ≡ true }
    {
        Sink {
            inner: writer,
            failed: false,
            flushed: true,
        }
    }

    /// Whether a write has failed.
    pub fn has_failed(&self) -> bool
        ensures { result ≡ self.now.failed }
    {
        let Sink { failed, .. } = self;
        *failed
    }

    /// Whether all that was written is behind a flush.
    pub fn is_flushed(&self) -> bool
        ensures { result ≡ self.now.flushed }
    {
        let Sink { flushed, .. } = self;
        *flushed
    }

    /// The writer itself.
    pub fn into_inner(self) -> W
        ensures { result ≡ self.inner }
    {
        self.inner
    }

    /// Writes all of the text.
    pub fn write_all(&mut self, text: &[u8]) -> Result<(), Fault>
        ensures bytes { OnOk result (Appends (W.contents self.old.inner) (W.contents self.new.inner) text.now) }
        ensures noted { self.new.failed ≡ noted self.old.failed result }
        ensures failed { IfErr result (λ fault. fault ≡ WriteFault) }
        ensures flushed { self.new.flushed ≡ false }
    {
        self.flushed = false;
        if self.inner.write_all(text).is_err() {
            self.failed = true;
            return Err(Fault::Write);
        }
        Ok(())
    }

    /// Writes what the writer still keeps back.
    pub fn flush(&mut self) -> Result<(), Fault>
        ensures bytes { Keeps (W.contents self.old.inner) (W.contents self.new.inner) }
        ensures noted { self.new.failed ≡ noted self.old.failed result }
        ensures failed { IfErr result (λ fault. fault ≡ WriteFault) }
        ensures flushed { OnOk result (IsFlushed W.KeepsNothing self.new) }
    {
        if self.inner.pass_on().is_err() {
            self.failed = true;
            return Err(Fault::Write);
        }
        self.flushed = true;
        Ok(())
    }
}

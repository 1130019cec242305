//! Replays: worked scripts, and those whose reader, writer or memory fails.
ghost use Rattle.std.specs.Prelude.{◌<◌, ◌≤◌, ⊤};

use crate::tests::expect_eq;
use patch_model::{BLOCK, MAX_BLOCKS, MAX_LIVE, OutOfMemory};
use patch_replay::{
    BadScript, CachedDisk, Core, MAX_READS, Output, Sink, Source, Status, replay, replay_over,
};
use patch_script::{Answer, Defect, Line, Name};
use std::alloc::{AllocError, Global};
use std::io;
use std::io::{BufWriter, ErrorKind, Read, Write};
use std::process::Abort;
use std::test::Fail;

mod laws;
mod readers;
mod rows;
mod rows_of_groups;
mod rows_of_merges;
mod rows_of_refusals;
mod rows_of_writes;

use rows::{DEFAULT_BLOCKS, ROWS, Row};
use rows_of_groups::ROWS_OF_GROUPS;
use rows_of_merges::ROWS_OF_MERGES;
use rows_of_refusals::ROWS_OF_REFUSALS;
use rows_of_writes::ROWS_OF_WRITES;

pub(crate) const SCRIPT: &str = r#"{"op":"patch","block":0,"start":0,"hex":"a1a2a3a4"}

{"op":"patch","block":0,"start":2,"hex":"b1b2b3b4"}
{"op":"view","block":0,"take":[1],"start":0,"len":6}"#;

pub(crate) const ANSWERS: &str = "patch 0\npatch 1\nwithout a1a2a3a40000 cached a1a2b1b2b3b4\n";

/// How the replay of a script ends, and what it writes.
fn replayed(alloc: Global, script: &[u8], blocks: u32) -> (Status, Vec<u8>)
    requires some { 0 < blocks }
    requires few { blocks ≤ MAX_BLOCKS }
{
    let mut out = Sink::new(Vec::new(alloc));
    let status = replay(alloc, &mut Source::new(script), &mut out, blocks);
    (status, out.into_inner())
}

fn check(rt: &impl Abort, alloc: Global, row: &Row) {
    assert!(rt; 0 < row.blocks && row.blocks <= DEFAULT_BLOCKS);
    let (status, answers) = replayed(alloc, row.script.as_bytes(), row.blocks);
    expect_eq(rt, &(&row.name, &status), &(&row.name, &row.status));
    expect_eq(
        rt,
        &(&row.name, &answers.as_slice()),
        &(&row.name, &row.answers.as_bytes()),
    );
}

fn check_each(rt: &impl Abort, alloc: Global, rows: &[Row]) {
    for row in rows {
        check(rt, alloc, row);
    }
}

#[test]
fn worked_scripts(rt: HostRuntime) {
    check_each(&rt, rt.alloc(), &ROWS);
    check_each(&rt, rt.alloc(), &ROWS_OF_WRITES);
    check_each(&rt, rt.alloc(), &ROWS_OF_MERGES);
    check_each(&rt, rt.alloc(), &ROWS_OF_GROUPS);
    check_each(&rt, rt.alloc(), &ROWS_OF_REFUSALS);
}

// A script of one byte so many times, how its replay ends, and what it writes.
#[derive(Clone, Copy)]
struct Long {
    byte: u8,
    count: usize,
    status: Status,
    answers: &'static str,
}

const TOO_LONG: Status = Status::Unreadable(BadScript::TooLong);

// As many bytes and lines as there may be, and one more.
const LONG: [Long; 4] = [
    Long {
        byte: b' ',
        count: 16_777_216,
        status: Status::Done,
        answers: "",
    },
    Long {
        byte: b' ',
        count: 16_777_217,
        status: TOO_LONG,
        answers: "fault ScriptTooLong\n",
    },
    Long {
        byte: b'\n',
        count: 100_000,
        status: Status::Done,
        answers: "",
    },
    Long {
        byte: b'\n',
        count: 100_001,
        status: TOO_LONG,
        answers: "fault ScriptTooLong\n",
    },
];

fn replayed_long(alloc: Global, long: &Long) -> Result<(Status, Vec<u8>), AllocError> {
    let script = vec![in alloc; long.byte; long.count]?;
    Ok(replayed(alloc, &script, DEFAULT_BLOCKS))
}

fn check_long(rt: &impl Abort, alloc: Global, long: &Long) -> Result<(), AllocError> {
    let (status, answers) = replayed_long(alloc, long)?;
    expect_eq(rt, &(&long.count, &status), &(&long.count, &long.status));
    expect_eq(
        rt,
        &(&long.count, &answers.as_slice()),
        &(&long.count, &long.answers.as_bytes()),
    );
    Ok(())
}

#[test]
fn long_scripts(rt: HostRuntime) -> Result<(), Fail> {
    for long in LONG.iter() {
        check_long(&rt, rt.alloc(), long)?;
    }
    Ok(())
}

const WORDS: [(BadScript, &str); 2] = [
    (
        BadScript::TooLong,
        "the script has more than 16777216 bytes or 100000 lines",
    ),
    (
        BadScript::BadLine {
            line: 3,
            defect: Defect::Missing(Name::Hex),
        },
        "line 3: \"hex\" is missing",
    ),
];

fn expect_words(
    rt: &impl Abort,
    alloc: Global,
    why: BadScript,
    want: &str,
) -> Result<(), AllocError> {
    let words = format!(in alloc; "{why}")?;
    expect_eq(rt, &words.as_str(), &want);
    Ok(())
}

#[test]
fn says_why_a_script_is_not_replayed(rt: HostRuntime) -> Result<(), Fail> {
    for (why, want) in WORDS.iter() {
        expect_words(&rt, rt.alloc(), *why, *want)?;
    }
    Ok(())
}

// A patch of one byte on each byte of sixteen blocks, and one more.
fn push_patches(script: &mut String) -> Result<(), AllocError> {
    for at in 0..MAX_LIVE as usize {
        let (block, start) = (at / BLOCK, at % BLOCK);
        script.push_str("{\"op\":\"patch\",\"block\":")?;
        writeln!(script, "{block},\"start\":{start},\"hex\":\"01\"}}")?;
    }
    script.push_str(r#"{"op":"patch","block":0,"start":0,"hex":"01"}"#)
}

fn push_numbers(answers: &mut String) -> Result<(), AllocError> {
    for number in 0..MAX_LIVE {
        writeln!(answers, "patch {number}")?;
    }
    answers.push_str("refused TooManyLive\n")
}

fn replayed_live(alloc: Global) -> Result<(Status, Vec<u8>), AllocError> {
    let mut script = String::new(alloc);
    push_patches(&mut script)?;
    Ok(replayed(alloc, script.as_bytes(), 16))
}

#[test]
fn as_many_patches_as_may_be_live(rt: HostRuntime) -> Result<(), Fail> {
    let mut answers = String::new(rt.alloc());
    push_numbers(&mut answers)?;
    let (status, text) = replayed_live(rt.alloc())?;
    expect_eq(&rt, &status, &Status::Done);
    assert!(rt; text.as_slice() == answers.as_bytes());
    Ok(())
}

/// How a replay ended, and what its streams have noted.
#[derive(Clone, Copy, Debug, PartialEq, Eq)]
pub(crate) struct End {
    status: Status,
    code: u8,
    read_failed: bool,
    reads: u32,
    write_failed: bool,
    flushed: bool,
}

/// The end of a replay that could read its script in so many reads, and write all answers.
pub(crate) fn done(reads: u32) -> End {
    End {
        status: Status::Done,
        code: 0,
        read_failed: false,
        reads,
        write_failed: false,
        flushed: true,
    }
}

/// Replays on the streams.
pub(crate) fn end_of<R: Read, W: Output>(
    alloc: Global,
    reader: &mut Source<R>,
    writer: &mut Sink<W>,
) -> End {
    let status = replay(alloc, reader, writer, DEFAULT_BLOCKS);
    End {
        status,
        code: status.code(),
        read_failed: reader.failure().is_some(),
        reads: reader.reads(),
        write_failed: writer.has_failed(),
        flushed: writer.is_flushed(),
    }
}

/// A replay from this reader ends so, and this is written.
fn expect_from<R: Read + Drop>(rt: &impl Abort, alloc: Global, reader: R, end: End, text: &str) {
    let mut reader = Source::new(reader);
    let mut writer = Sink::new(Vec::new(alloc));
    expect_eq(rt, &end_of(alloc, &mut reader, &mut writer), &end);
    expect_eq(rt, &writer.into_inner().as_slice(), &text.as_bytes());
}

/// The end of a replay that gave up its reader behind so many reads, of which one has failed or none.
pub(crate) fn unread(reads: u32, read_failed: bool) -> End {
    End {
        status: Status::Failed,
        code: 4,
        read_failed,
        reads,
        write_failed: false,
        flushed: true,
    }
}

/// Gives its bytes in pieces, is interrupted at each second call, and fails for good after some calls.
#[derive(Drop)]
struct Reader<'a> {
    left: &'a [u8],
    calls: u32,
}

impl Read for Reader<'_> {
    fn read(&mut self, buf: &mut [u8]) -> io::Result<usize> {
        if self.calls == 0 {
            return Err(io::Error::from(ErrorKind::BrokenPipe));
        }
        self.calls -= 1;
        if self.calls % 2 == 1 {
            return Err(io::Error::from(ErrorKind::Interrupted));
        }
        let count = 40.min(buf.len());
        self.left.read(&mut buf[..count])
    }
}

fn reader_of(calls: u32) -> Reader<'static> {
    Reader {
        left: SCRIPT.as_bytes(),
        calls,
    }
}

// The script has four pieces, and then its end is read. Between these five calls are four interruptions.
#[test]
fn failing_readers(rt: HostRuntime) {
    for calls in 0..9 {
        let end = unread(calls + 1, true);
        expect_from(&rt, rt.alloc(), reader_of(calls), end, "fault Read\n");
    }
    expect_from(&rt, rt.alloc(), reader_of(9), done(9), ANSWERS);
}

/// Is interrupted at each call.
#[derive(Drop)]
struct Interrupted;

impl Read for Interrupted {
    fn read(&mut self, _: &mut [u8]) -> io::Result<usize> {
        Err(io::Error::from(ErrorKind::Interrupted))
    }
}

#[test]
fn a_reader_without_end_is_given_up(rt: HostRuntime) {
    let end = unread(MAX_READS, false);
    expect_from(&rt, rt.alloc(), Interrupted, end, "fault Read\n");
}

/// Takes text until so many calls were made, and fails from then on.
#[derive(Drop)]
struct Writer {
    taken: Vec<u8>,
    calls: usize,
}

impl Writer {
    fn count(&mut self) -> io::Result<()> {
        if self.calls == 0 {
            return Err(io::Error::from(ErrorKind::StorageFull));
        }
        self.calls -= 1;
        Ok(())
    }
}

impl Write for Writer {
    fn write(&mut self, buf: &[u8]) -> io::Result<usize> {
        self.count()?;
        let count = 10.min(buf.len());
        if self.taken.extend_from_slice(&buf[..count]).is_err() {
            return Err(io::Error::from(ErrorKind::OutOfMemory));
        }
        Ok(count)
    }

    fn flush(&mut self) -> io::Result<()> {
        self.count()
    }
}

impl Output for Writer {
    ghost KeepsNothing = { λ output. ⊤ };

    fn pass_on(&mut self) -> io::Result<()> {
        self.flush()
    }
}

/// A replay to a writer of so many calls ends so, and this much of the answers is taken.
fn expect_into(rt: &impl Abort, alloc: Global, calls: usize, end: End, count: usize) {
    let taken = Vec::new(alloc);
    let mut reader = Source::new(SCRIPT.as_bytes());
    let mut writer = Sink::new(Writer { taken, calls });
    expect_eq(
        rt,
        &(&calls, &end_of(alloc, &mut reader, &mut writer)),
        &(&calls, &end),
    );
    let want = ANSWERS.as_bytes().get(..count);
    expect_eq(rt, &Some(writer.into_inner().taken.as_slice()), &want);
}

/// The end of a replay that gave up its writer.
const UNWRITTEN: End = End {
    status: Status::Failed,
    code: 4,
    read_failed: false,
    reads: 2,
    write_failed: true,
    flushed: false,
};

// The answers are taken in seven calls, the last line of them in five, and the eighth call is the flush. Each of them
// fails in turn, and then none.
#[test]
fn failing_writers(rt: HostRuntime) {
    for (calls, count) in [0, 8, 16, 26, 36, 46, 56, 57].into_iter().enumerate() {
        expect_into(&rt, rt.alloc(), calls, UNWRITTEN, count);
    }
    expect_into(&rt, rt.alloc(), 8, done(2), ANSWERS.len());
}

fn expect_passed_on(rt: &impl Abort, alloc: Global, buffered: BufWriter<Vec<u8>>) {
    let mut reader = Source::new(SCRIPT.as_bytes());
    let mut writer = Sink::new(buffered);
    expect_eq(rt, &end_of(alloc, &mut reader, &mut writer), &done(2));
    let buffered = writer.into_inner();
    expect_eq(rt, &buffered.get_ref().as_slice(), &ANSWERS.as_bytes());
}

#[test]
fn answers_are_not_kept_back(rt: HostRuntime) -> Result<(), Fail> {
    let buffered = BufWriter::new(rt.alloc(), Vec::new(rt.alloc()))?;
    expect_passed_on(&rt, rt.alloc(), buffered);
    Ok(())
}

/// A disk that answers some lines, and then meets want of memory.
struct Starved {
    disk: CachedDisk,
    lines: u32,
}

impl Core for Starved {
    ghost IsAt = { λ core w. ⊥ };

    fn answer(&mut self, alloc: Global, line: Line) -> Result<Answer, OutOfMemory> {
        if self.lines == 0 {
            return Err(OutOfMemory);
        }
        self.lines -= 1;
        self.disk.answer(alloc, line)
    }
}

/// A replay over a core, and what it writes.
fn replayed_over<C: Core>(alloc: Global, core: &mut C) -> (Status, Vec<u8>) {
    let mut out = Sink::new(Vec::new(alloc));
    let status = replay_over(alloc, &mut Source::new(SCRIPT.as_bytes()), &mut out, core);
    (status, out.into_inner())
}

/// A replay over a core that answers so many lines.
fn replayed_over_starved(alloc: Global, lines: u32) -> Result<(Status, Vec<u8>), OutOfMemory> {
    let disk = CachedDisk::new(alloc, DEFAULT_BLOCKS)?;
    let mut core = Starved { disk, lines };
    let replayed = replayed_over(alloc, &mut core);
    let Starved { disk, lines: _ } = core;
    disk.close();
    Ok(replayed)
}

fn check_starved(
    rt: &impl Abort,
    alloc: Global,
    lines: u32,
    want: &str,
) -> Result<(), OutOfMemory> {
    let (status, text) = replayed_over_starved(alloc, lines)?;
    expect_eq(rt, &(status, status.code()), &(Status::OutOfMemory, 5));
    expect_eq(rt, &text.as_slice(), &want.as_bytes());
    Ok(())
}

#[test]
fn starved_cores(rt: HostRuntime) -> Result<(), Fail> {
    check_starved(&rt, rt.alloc(), 0, "fault OutOfMemory\n")?;
    check_starved(&rt, rt.alloc(), 1, "patch 0\nfault OutOfMemory\n")?;
    check_starved(&rt, rt.alloc(), 2, "patch 0\npatch 1\nfault OutOfMemory\n")?;
    Ok(())
}

//! Runs of the program: what it answers to words and a script.
use crate::tests::expect_eq;
use patch_program::{Detail, Errors, LockedFiles, Notes, run, words};
use std::alloc::{AllocError, Global};
use std::env::{Env, FillError};
use std::fs::{OpenFile, OpenOptions};
use std::io::Write;
use std::os::unix::fs::FileExt;
use std::process::Abort;
use std::rt::Files;
use std::sync::Wait;
use std::thread::Threads;
use std::{fs, io};

mod lists;

/// A run on these words and this script, how it ends, what it writes, and a part of what it says on standard error.
#[derive(Clone, Copy)]
struct Row(&'static str, &'static str, u8, &'static str, &'static str);

const LAST_OF_EIGHT: &str = r#"{"op":"show","block":7,"start":0,"len":1}
{"op":"show","block":8,"start":0,"len":1}"#;

const LAST_OF_ALL: &str = r#"{"op":"show","block":4095,"start":0,"len":1}
{"op":"show","block":4096,"start":0,"len":1}"#;

const ONE_SHOWN: &str = "shown 00\nrefused NoSuchBlock\n";

const BLOCKS: &str = "'--blocks <N>'";

const PAGE: &str = "docs/SCRIPTS.md";

static ROWS: [Row; 17] = [
    Row("fstch replay", "", 0, "", ""),
    Row("fstch replay", LAST_OF_EIGHT, 0, ONE_SHOWN, ""),
    Row("fstch replay --blocks 8", LAST_OF_EIGHT, 0, ONE_SHOWN, ""),
    Row("fstch replay --blocks=4096", LAST_OF_ALL, 0, ONE_SHOWN, ""),
    Row("fstch replay --blocks 0", LAST_OF_ALL, 2, "", BLOCKS),
    Row("fstch replay --blocks 4097", LAST_OF_ALL, 2, "", BLOCKS),
    Row("fstch replay --blocks -1", LAST_OF_ALL, 2, "", "'-1'"),
    Row("fstch replay --blocks x", LAST_OF_ALL, 2, "", BLOCKS),
    Row("fstch replay --blocks", LAST_OF_ALL, 2, "", BLOCKS),
    Row("fstch replay now", LAST_OF_ALL, 2, "", "'now'"),
    Row("fstch fly", LAST_OF_ALL, 2, "", "'fly'"),
    Row("fstch", LAST_OF_ALL, 2, "", "Usage: fstch <COMMAND>"),
    Row("fstch --help", LAST_OF_ALL, 2, "", PAGE),
    Row("fstch replay --help", LAST_OF_ALL, 2, "", PAGE),
    Row("fstch --version", LAST_OF_ALL, 2, "", "fstch 0.1.0\n"),
    Row(
        "fstch replay",
        "\n{\"op\":\"send\"}",
        3,
        "bad line 2\n",
        "fstch: line 2: \"block\" is missing\n",
    ),
    Row(
        "fstch replay",
        "[]",
        3,
        "bad line 1\n",
        "fstch: line 1: not a JSON object\n",
    ),
];

const PUT: &str = r#"{"op":"put","key":"k","hex":"0102"}"#;

const GET: &str = r#"{"op":"get","key":"k"}"#;

const OF_A_THIRD: &str = r#"{"op":"get","key":"a"}
{"op":"put","key":"k","hex":"0102","writer":2}"#;

const OF_A_SYNC: &str = r#"{"op":"sync","group":0}"#;

const HELD: &str = "entry 6b 2\nextent 0 0 38 19\nextent 1 0 0 0\nclean\n";

/// Commands on one file, in their order.
static ROWS_OF_FILES: [Row; 24] = [
    Row(
        "fstch check patch_tool_disk",
        "",
        4,
        "fault Disk\n",
        "fstch: patch_tool_disk: there is no such file\n",
    ),
    Row(
        "fstch run patch_tool_disk",
        PUT,
        4,
        "fault Disk\n",
        "fstch: patch_tool_disk: there is no such file\n",
    ),
    Row(
        "fstch make patch_tool_disk --index 1",
        "",
        2,
        "",
        "--extents <M>",
    ),
    Row("fstch make --index 1 --extents 2", "", 2, "", "<FILE>"),
    Row(
        "fstch make patch_tool_disk --index 17 --extents 2",
        "",
        2,
        "",
        "1..=16",
    ),
    Row(
        "fstch make patch_tool_disk --index 1 --extents 1",
        "",
        2,
        "",
        "2..=254",
    ),
    Row(
        "fstch make patch_tool_disk --index 1 --extents 2 --length 15",
        "",
        2,
        "",
        "16..=64",
    ),
    Row(
        "fstch make patch_tool_disk --index 1 --extents 64 --length 64",
        "",
        2,
        "fault Geometry\n",
        "fstch: this makes 4099 blocks, 4096 at most\n",
    ),
    Row(
        "fstch make patch_tool_disk --index 1 --extents 2",
        "",
        0,
        "made 35\n",
        "",
    ),
    Row(
        "fstch make patch_tool_disk --index 1 --extents 2",
        "",
        4,
        "fault Disk\n",
        "fstch: patch_tool_disk: it is there already\n",
    ),
    Row(
        "fstch run patch_tool_disk --writers 0",
        PUT,
        2,
        "",
        "'--writers <N>'",
    ),
    Row(
        "fstch run patch_tool_disk --writers 9",
        PUT,
        2,
        "",
        "'--writers <N>'",
    ),
    Row(
        "fstch run patch_tool_disk --writers 2",
        OF_A_THIRD,
        3,
        "bad line 2\n",
        "fstch: line 2: \"writer\" is not below the number of writers\n",
    ),
    Row(
        "fstch run patch_tool_disk --writers 8",
        OF_A_SYNC,
        3,
        "bad line 1\n",
        "fstch: line 1: \"op\" is sync, which writers on threads don't have\n",
    ),
    Row(
        "fstch run patch_tool_disk --writers 3",
        OF_A_THIRD,
        0,
        "none\nok\n",
        "",
    ),
    Row(
        "fstch run patch_tool_disk",
        "{}",
        3,
        "bad line 1\n",
        "fstch: line 1: \"op\" is missing\n",
    ),
    Row("fstch run patch_tool_disk", PUT, 0, "ok\n", ""),
    Row("fstch check patch_tool_disk", "", 0, HELD, ""),
    Row(
        "fstch run patch_tool_disk --no-barriers",
        GET,
        0,
        "value 0102\n",
        "",
    ),
    Row(
        "fstch run patch_tool_disk --no-barriers --writers 2",
        GET,
        0,
        "value 0102\n",
        "",
    ),
    Row(
        "fstch run patch_tool_disk --no-barriers=no",
        GET,
        2,
        "",
        "--no-barriers",
    ),
    Row("fstch upgrade patch_tool_disk", "", 0, "upgraded\n", ""),
    Row(
        "fstch upgrade patch_tool_disk",
        "",
        4,
        "fault AlreadyVersion2\n",
        "",
    ),
    Row(
        "fstch run --help",
        "",
        2,
        "",
        "Example: fstch run data.disk",
    ),
];

fn words_of(rt: &impl Abort, alloc: Global, text: &str) -> Vec<String> {
    let mut words = Vec::new(alloc);
    for word in text.split(' ') {
        let word = String::from_str(alloc, word).expect(rt, "memory for a word");
        words.push(word).expect(rt, "memory for words");
    }
    words
}

/// A run on these words, with this on standard input, ends so.
fn expect_run<F: FileExt + OpenFile + Drop + Send, H: Files<File = F> + Threads + Wait + Sync>(
    rt: &impl Abort,
    files: &H,
    notes: &Notes,
    alloc: Global,
    words: io::Result<Vec<String>>,
    row: &Row,
) {
    let Row(name, script, status, output, said) = *row;
    let (mut out, mut errors) = (Vec::new(alloc), Vec::new(alloc));
    let mut stream = Errors {
        stream: &mut errors,
        is_terminal: false,
        notes,
    };
    let ended = run(
        files,
        alloc,
        words,
        script.as_bytes(),
        &mut out,
        Detail::Numbers,
        &mut stream,
    );
    expect_eq(
        rt,
        &(name, ended, out.as_slice()),
        &(name, status, output.as_bytes()),
    );
    let told = std::str::from_utf8(&errors).unwrap_or("no text");
    let wanted = (told.contains(said), told.is_empty());
    expect_eq(
        rt,
        &(name, told, wanted),
        &(name, told, (true, said.is_empty())),
    );
    drop(out);
    drop(errors);
}

fn expect_each<F: FileExt + OpenFile + Drop + Send, H: Files<File = F> + Threads + Wait + Sync>(
    rt: &impl Abort,
    files: &H,
    notes: &Notes,
    alloc: Global,
    rows: &[Row],
) {
    for row in rows {
        expect_run(rt, files, notes, alloc, Ok(words_of(rt, alloc, row.0)), row);
    }
}

#[test]
fn runs_end_as_they_should(rt: HostRuntime) {
    expect_each(&rt, &rt, &Notes::new(), rt.alloc(), &ROWS);
}

#[test]
fn a_store_is_made_run_checked_and_upgraded(rt: HostRuntime) {
    let _old = fs::remove_file(&rt, "patch_tool_disk");
    expect_each(&rt, &rt, &Notes::new(), rt.alloc(), &ROWS_OF_FILES);
    fs::remove_file(&rt, "patch_tool_disk").expect(&rt, "a file that is there");
}

static TO_BE_LOCKED: [Row; 1] = [Row(
    "fstch make patch_locked_disk --index 1 --extents 2",
    "",
    0,
    "made 35\n",
    "",
)];

static TO_BE_READ: [Row; 1] = [Row(
    "fstch make patch_read_disk --index 1 --extents 2",
    "",
    0,
    "made 35\n",
    "",
)];

const USED: &str = "fstch: the file is in use\n";

static IN_USE: [Row; 4] = [
    Row("fstch check patch_locked_disk", "", 4, "fault Disk\n", USED),
    Row("fstch run patch_locked_disk", PUT, 4, "fault Disk\n", USED),
    Row(
        "fstch run patch_locked_disk --writers 2",
        PUT,
        4,
        "fault Disk\n",
        USED,
    ),
    Row(
        "fstch upgrade patch_locked_disk",
        "",
        4,
        "fault Disk\n",
        USED,
    ),
];

/// What may be done while another reads the file.
static BESIDE_A_READER: [Row; 1] = [Row(
    "fstch check patch_read_disk",
    "",
    0,
    "extent 0 0 0 0\nextent 1 0 0 0\nclean\n",
    "",
)];

static NOT_BESIDE_A_READER: [Row; 2] = [
    Row("fstch run patch_read_disk", PUT, 4, "fault Disk\n", USED),
    Row("fstch upgrade patch_read_disk", "", 4, "fault Disk\n", USED),
];

static LET_GO: [Row; 2] = [
    Row("fstch run patch_locked_disk", PUT, 0, "ok\n", ""),
    Row("fstch upgrade patch_locked_disk", "", 0, "upgraded\n", ""),
];

#[test]
fn a_file_in_use_is_refused(rt: HostRuntime) {
    let path = "patch_locked_disk";
    let _old = fs::remove_file(&rt, path);
    let notes = Notes::new();
    let files = LockedFiles::new(&rt, &notes);
    expect_each(&rt, &files, &notes, rt.alloc(), &TO_BE_LOCKED);
    assert!(rt; !notes.has_met_lock());
    let held = OpenOptions::new()
        .read(true)
        .write(true)
        .open(&files, path)
        .expect(&rt, "a file that is opened");
    expect_each(&rt, &files, &notes, rt.alloc(), &IN_USE);
    assert!(rt; notes.has_met_lock());
    assert!(rt; !notes.has_failed_sync());
    drop(held);
    expect_each(&rt, &rt, &Notes::new(), rt.alloc(), &LET_GO);
    fs::remove_file(&rt, path).expect(&rt, "a file that is there");
}

#[test]
fn a_file_that_is_read_is_checked_and_not_run_on(rt: HostRuntime) {
    let path = "patch_read_disk";
    let _old = fs::remove_file(&rt, path);
    let notes = Notes::new();
    let files = LockedFiles::new(&rt, &notes);
    expect_each(&rt, &files, &notes, rt.alloc(), &TO_BE_READ);
    let held = OpenOptions::new()
        .read(true)
        .open(&files, path)
        .expect(&rt, "a file that is opened");
    expect_each(&rt, &files, &notes, rt.alloc(), &BESIDE_A_READER);
    assert!(rt; !notes.has_met_lock());
    expect_each(&rt, &files, &notes, rt.alloc(), &NOT_BESIDE_A_READER);
    assert!(rt; notes.has_met_lock());
    drop(held);
    fs::remove_file(&rt, path).expect(&rt, "a file that is there");
}

const MISSING: &str = "fstch: patch_no_disk: there is no such file\n";

const A_DIRECTORY: &str = "fstch: .: it is a directory\n";

/// Commands on files that the system refuses, and why.
static REFUSED: [Row; 9] = [
    Row("fstch check patch_no_disk", "", 4, "fault Disk\n", MISSING),
    Row("fstch run patch_no_disk", PUT, 4, "fault Disk\n", MISSING),
    Row(
        "fstch run patch_no_disk --writers 2",
        PUT,
        4,
        "fault Disk\n",
        MISSING,
    ),
    Row(
        "fstch upgrade patch_no_disk",
        "",
        4,
        "fault Disk\n",
        MISSING,
    ),
    Row("fstch check .", "", 4, "fault Disk\n", A_DIRECTORY),
    Row("fstch run .", PUT, 4, "fault Disk\n", A_DIRECTORY),
    Row(
        "fstch make . --index 1 --extents 2",
        "",
        4,
        "fault Disk\n",
        "fstch: .: it is there already\n",
    ),
    Row(
        "fstch make patch_no_folder/disk --index 1 --extents 2",
        "",
        4,
        "fault Disk\n",
        "fstch: patch_no_folder/disk: there is no such directory\n",
    ),
    Row(
        "fstch check patch_no_folder/disk",
        "",
        4,
        "fault Disk\n",
        "fstch: patch_no_folder/disk: there is no such file\n",
    ),
];

#[test]
fn a_fault_of_a_file_says_why(rt: HostRuntime) {
    let notes = Notes::new();
    let files = LockedFiles::new(&rt, &notes);
    expect_each(&rt, &files, &notes, rt.alloc(), &REFUSED);
}

const TO_SPOIL: &str = r#"{"op":"put","key":"k","hex":"0102"}
{"op":"put","key":"l","hex":"03"}"#;

static SPOILT: [Row; 3] = [
    Row(
        "fstch make patch_spoilt_disk --index 1 --extents 2",
        "",
        0,
        "made 35\n",
        "",
    ),
    Row("fstch run patch_spoilt_disk", TO_SPOIL, 0, "ok\nok\n", ""),
    Row(
        "fstch check patch_spoilt_disk",
        "",
        0,
        "entry 6b 2\nentry 6c 1\nextent 0 0 37 37\nextent 1 0 0 0\nclean\n",
        "",
    ),
];

static FOUND: [Row; 2] = [
    Row(
        "fstch check patch_spoilt_disk",
        "",
        4,
        "fault BadFrame 0\n",
        "fstch: slot 0: BadFrame: key 6b can't be read\nfstch: key 6c can be read, length 1\n",
    ),
    // Nothing is said of a run.
    Row(
        "fstch run patch_spoilt_disk",
        "",
        4,
        "fault BadFrame 0\n",
        "",
    ),
];

/// Where the key of the first frame is on a disk of one index block.
const FIRST_KEY: u64 = 3 * 4096 + 12;

#[test]
fn a_check_goes_on_behind_a_slot_that_is_wrong(rt: HostRuntime) {
    let path = "patch_spoilt_disk";
    let _old = fs::remove_file(&rt, path);
    expect_each(&rt, &rt, &Notes::new(), rt.alloc(), &SPOILT);
    let file = OpenOptions::new()
        .write(true)
        .open(&rt, path)
        .expect(&rt, "a file that is opened");
    file.write_all_at(b"x", FIRST_KEY)
        .expect(&rt, "a byte that is written");
    drop(file);
    expect_each(&rt, &rt, &Notes::new(), rt.alloc(), &FOUND);
    fs::remove_file(&rt, path).expect(&rt, "a file that is there");
}

const TICKED: &str = "patch_ticked_disk";

/// A writer that takes so many bytes.
#[derive(Drop)]
struct Narrow {
    left: usize,
}

impl Write for Narrow {
    fn write(&mut self, buf: &[u8]) -> io::Result<usize> {
        if self.left < buf.len() {
            return Err(io::Error::from(io::ErrorKind::StorageFull));
        }
        self.left = self.left.saturating_sub(buf.len());
        Ok(buf.len())
    }

    fn flush(&mut self) -> io::Result<()> {
        Ok(())
    }
}

/// Words that run a script of so many readings of no key, whether standard error is a terminal, how many bytes of answers are
/// taken, how the run ends, and all that is said on standard error.
struct Ticking(&'static str, usize, bool, usize, u8, &'static str);

const RUN: &str = "fstch run patch_ticked_disk";

const ON_THREADS: &str = "fstch run patch_ticked_disk --writers 2";

const TWICE_SHOWN: &str = "\rfstch: line 1000 of 2500\rfstch: line 2000 of 2500\r\x1b[K";

static TICKINGS: [Ticking; 12] = [
    Ticking(RUN, 999, true, usize::MAX, 0, ""),
    Ticking(
        RUN,
        1_000,
        true,
        usize::MAX,
        0,
        "\rfstch: line 1000 of 1000\r\x1b[K",
    ),
    Ticking(RUN, 2_500, true, usize::MAX, 0, TWICE_SHOWN),
    // At no terminal nothing is shown.
    Ticking(RUN, 1_000, false, usize::MAX, 0, ""),
    Ticking(RUN, 2_500, false, usize::MAX, 0, ""),
    // Of writers on threads nothing is shown.
    Ticking(ON_THREADS, 2_500, true, usize::MAX, 0, ""),
    // A run that stops clears the line.
    Ticking(RUN, 2_500, true, 0, 4, STOPPED_SHOWN),
    // What the file has is told where answers can't be written: behind the end of the run, and before.
    Ticking(RUN, 999, false, 0, 4, ENDED),
    Ticking(RUN, 2_500, false, 0, 4, STOPPED),
    Ticking(ON_THREADS, 999, false, 0, 4, ENDED_ON_THREADS),
    Ticking("fstch check patch_ticked_disk", 0, false, 0, 4, UNWRITTEN),
    Ticking("fstch replay", 0, false, 0, 0, ""),
];

const UNWRITTEN: &str = "fstch: standard output can't be written\n";

const ENDED: &str =
    "fstch: standard output can't be written\nfstch: patch_ticked_disk has all that the script changed\n";

const ENDED_ON_THREADS: &str =
    "fstch: standard output can't be written\nfstch: what patch_ticked_disk has is told by fstch check patch_ticked_disk\n";

const STOPPED: &str =
    "fstch: standard output can't be written\nfstch: patch_ticked_disk has what the script changed before the last sync that was done, and maybe more\n";

const STOPPED_SHOWN: &str =
    "\rfstch: line 1000 of 2500\r\x1b[Kfstch: standard output can't be written\nfstch: patch_ticked_disk has what the script changed before the last sync that was done, and maybe more\n";

fn script_of(rt: &impl Abort, alloc: Global, lines: usize) -> String {
    let mut script = String::new(alloc);
    for _ in 0..lines {
        script
            .push_str("{\"op\":\"get\",\"key\":\"k\"}\n")
            .expect(rt, "memory for a line");
    }
    script
}

fn expect_ticking<F: FileExt + OpenFile + Drop + Send, H: Files<File = F> + Threads + Wait + Sync>(
    rt: &impl Abort,
    files: &H,
    alloc: Global,
    row: &Ticking,
) {
    let Ticking(name, lines, is_terminal, bytes, status, said) = *row;
    let script = script_of(rt, alloc, lines);
    let (mut errors, notes) = (Vec::new(alloc), Notes::new());
    let mut stream = Errors {
        stream: &mut errors,
        is_terminal,
        notes: &notes,
    };
    let mut out = Narrow { left: bytes };
    let words = Ok(words_of(rt, alloc, name));
    let ended = run(
        files,
        alloc,
        words,
        script.as_bytes(),
        &mut out,
        Detail::Numbers,
        &mut stream,
    );
    let told = std::str::from_utf8(&errors).unwrap_or("no text");
    expect_eq(
        rt,
        &(name, lines, is_terminal, ended, told),
        &(name, lines, is_terminal, status, said),
    );
    drop(errors);
}

// A buffer of answers is full behind line 1,638, where a run ends whose answers aren't taken.
#[test]
fn how_far_a_run_is_stands_at_a_terminal_alone(rt: HostRuntime) {
    let _old = fs::remove_file(&rt, TICKED);
    let made = Row(
        "fstch make patch_ticked_disk --index 1 --extents 2",
        "",
        0,
        "made 35\n",
        "",
    );
    expect_each(&rt, &rt, &Notes::new(), rt.alloc(), &[made]);
    for row in &TICKINGS {
        expect_ticking(&rt, &rt, rt.alloc(), row);
    }
    fs::remove_file(&rt, TICKED).expect(&rt, "a file that is there");
}

/// A command line whose second word is one byte that is no text.
#[derive(Drop)]
struct NoText;

impl Env for NoText {
    fn arg(&self, i: usize, buf: &mut [u8]) -> Result<usize, FillError> {
        if i > 1 {
            return Err(FillError::NotPresent);
        }
        match buf.first_mut() {
            Some(first) => {
                *first = 0xff;
                Ok(i)
            }
            None => Err(FillError::TooLong),
        }
    }

    fn var(&self, _: &str, _: &mut [u8]) -> Result<usize, FillError> {
        Err(FillError::NotPresent)
    }

    fn var_at(&self, _: usize, _: &mut [u8]) -> Result<usize, FillError> {
        Err(FillError::NotPresent)
    }
}

#[test]
fn an_argument_that_is_no_text_is_misuse(rt: HostRuntime) {
    let misused = Row(
        "no text",
        "",
        2,
        "",
        "fstch: an argument is not UTF-8 text\n",
    );
    let notes = Notes::new();
    let no_text = words(&(NoText, rt.alloc()));
    expect_run(&rt, &rt, &notes, rt.alloc(), no_text, &misused);
    let starved = Row("no memory", "", 5, "fault OutOfMemory\n", "");
    expect_run(
        &rt,
        &rt,
        &notes,
        rt.alloc(),
        Err(io::Error::from(AllocError)),
        &starved,
    );
}

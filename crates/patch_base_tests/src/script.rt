//! Scripts of every kind, and the texts of answers.
use crate::expecting::{expect_eq, in_a_tree};
use patch_model::{BlockNo, Bytes, GroupNo, Items, Numbers, PatchNo, Refusal, RefusalKind};
use patch_script::*;
use std::alloc::{AllocError, Global};
use std::process::Abort;
use std::test::Fail;

mod rows;

// How a script is read.
#[derive(Clone, Copy, Debug, PartialEq, Eq)]
enum Reading {
    // So many lines ask for something.
    Lines(usize),
    BadLine(usize),
    TooLong,
    OutOfMemory,
}

fn read(alloc: Global, text: &[u8]) -> Reading {
    if passes_limit(text) {
        return Reading::TooLong;
    }
    match read_script(alloc, text) {
        Ok(lines) => Reading::Lines(lines.len()),
        Err(ScriptError::BadLine { line, .. }) => Reading::BadLine(line),
        Err(ScriptError::OutOfMemory) => Reading::OutOfMemory,
    }
}

// Each line, as a script of its own, is read like that.
fn expect_each(rt: &impl Abort, alloc: Global, lines: &str, want: Reading) {
    for line in lines.lines() {
        expect_eq(rt, &(&line, &read(alloc, line.as_bytes())), &(&line, &want));
    }
}

const READABLE: &str = r#"{"op":"show","block":0,"start":0,"len":1}
{"op":"patch","block":0,"start":0,"hex":"aAbB","after":[0,1],"drop":true,"writer":7}
{"op":"view","block":0,"take":[0],"back":[0],"start":0,"len":1,"colour":"red","more":{}}
{"op":"show","block":9,"block":0,"start":0,"len":1}
{"op":"merge","a":0,"b":1}
{"op":"send","block":0}
{"op":"send","block":4294967295}
{"op":"complete","block":4294967295}
{"op":"disk","block":0,"start":0,"len":1}
{"op":"disk","block":4294967295,"start":4294967295,"len":4294967295}
{"op":"merge","a":9,"b":1,"a":0,"block":"x"}
{"op":"send","block":9,"block":0,"colour":"red"}
{"op":"complete","block":"x","more":{},"block":0}
{"op":"disk","block":0,"start":0,"len":0,"len":1,"take":7}
{"op":"group"}
{"op":"group","group":"x","writer":8}
{"op":"engage","group":4294967295}
{"op":"engage","group":"x","writer":7,"group":0,"on":-1}
{"op":"disengage","group":0,"writer":0}
{"op":"disengage","writer":8,"group":4294967295,"writer":7}
{"op":"depend","group":0,"on":4294967295}
{"op":"depend","on":0,"group":4294967295,"writer":8}
{"op":"close","group":0}
{"op":"close","group":1,"group":4294967295,"on":"x"}
{"op":"pending","group":0}
{"op":"pending","group":4294967295,"block":-1}
{"op":"sync","group":0,"writer":8}
{"op":"sync","more":{},"group":4294967295}"#;

#[test]
fn reads_lines(rt: HostRuntime) {
    expect_each(&rt, rt.alloc(), READABLE, Reading::Lines(1));
}

const UNREADABLE: &str = r#"{"op":"fly"}
{"op":7}
{}
[]
7
show
{"op":"show"
{"op":"show","block":0,"start":0,"len":1} x
{"op":"show","block":0,"start":0}
{"op":"show","block":0,"start":0,"len":0}
{"op":"show","block":"0","start":0,"len":1}
{"op":"show","block":-1,"start":0,"len":1}
{"op":"show","block":+1,"start":0,"len":1}
{"op":"show","block":-0,"start":0,"len":1}
{"op":"show","block":1.0,"start":0,"len":1}
{"op":"show","block":1e0,"start":0,"len":1}
{"op":"show","block":01,"start":0,"len":1}
{"op":"show","block":4294967296,"start":0,"len":1}
{"op":"show","block":null,"start":0,"len":1}
{"op":"patch","block":0,"start":0}
{"op":"patch","block":0,"start":0,"hex":"a"}
{"op":"patch","block":0,"start":0,"hex":"ag"}
{"op":"patch","block":0,"start":0,"hex":7}
{"op":"patch","block":0,"start":0,"hex":"aa","after":7}
{"op":"patch","block":0,"start":0,"hex":"aa","after":[-1]}
{"op":"patch","block":0,"start":0,"hex":"aa","drop":1}
{"op":"patch","block":0,"start":0,"hex":"aa","writer":8}
{"op":"view","block":0,"start":0,"len":1}
{"op":"view","block":0,"take":[[]],"start":0,"len":1}"#;

const UNREADABLE_MERGES: &str = r#"{"op":"merge"}
{"op":"merge","a":0}
{"op":"merge","b":1}
{"op":"merge","a":"0","b":1}
{"op":"merge","a":-1,"b":1}
{"op":"merge","a":-0,"b":1}
{"op":"merge","a":+1,"b":1}
{"op":"merge","a":1.0,"b":1}
{"op":"merge","a":1e0,"b":1}
{"op":"merge","a":01,"b":1}
{"op":"merge","a":4294967296,"b":1}
{"op":"merge","a":null,"b":1}
{"op":"merge","a":[0],"b":1}
{"op":"merge","a":0,"b":"0"}
{"op":"merge","a":0,"b":-1}
{"op":"merge","a":0,"b":-0}
{"op":"merge","a":0,"b":+1}
{"op":"merge","a":0,"b":1.0}
{"op":"merge","a":0,"b":1e0}
{"op":"merge","a":0,"b":01}
{"op":"merge","a":0,"b":4294967296}
{"op":"merge","a":0,"b":null}
{"op":"merge","a":0,"b":[0]}"#;

const UNREADABLE_SENDS: &str = r#"{"op":"send"}
{"op":"send","block":"0"}
{"op":"send","block":-1}
{"op":"send","block":-0}
{"op":"send","block":+1}
{"op":"send","block":1.0}
{"op":"send","block":1e0}
{"op":"send","block":01}
{"op":"send","block":4294967296}
{"op":"send","block":null}
{"op":"send","block":[0]}"#;

const UNREADABLE_COMPLETIONS: &str = r#"{"op":"complete"}
{"op":"complete","block":"0"}
{"op":"complete","block":-1}
{"op":"complete","block":-0}
{"op":"complete","block":+1}
{"op":"complete","block":1.0}
{"op":"complete","block":1e0}
{"op":"complete","block":01}
{"op":"complete","block":4294967296}
{"op":"complete","block":null}
{"op":"complete","block":[0]}"#;

const UNREADABLE_DISKS: &str = r#"{"op":"disk","start":0,"len":1}
{"op":"disk","block":"0","start":0,"len":1}
{"op":"disk","block":-1,"start":0,"len":1}
{"op":"disk","block":-0,"start":0,"len":1}
{"op":"disk","block":+1,"start":0,"len":1}
{"op":"disk","block":1.0,"start":0,"len":1}
{"op":"disk","block":1e0,"start":0,"len":1}
{"op":"disk","block":01,"start":0,"len":1}
{"op":"disk","block":4294967296,"start":0,"len":1}
{"op":"disk","block":null,"start":0,"len":1}
{"op":"disk","block":[0],"start":0,"len":1}
{"op":"disk","block":0,"len":1}
{"op":"disk","block":0,"start":0}
{"op":"disk","block":0,"start":0,"len":0}
{"op":"disk","block":0,"start":"0","len":1}
{"op":"disk","block":0,"start":-1,"len":1}
{"op":"disk","block":0,"start":1.0,"len":1}
{"op":"disk","block":0,"start":4294967296,"len":1}
{"op":"disk","block":0,"start":0,"len":"1"}
{"op":"disk","block":0,"start":0,"len":-1}
{"op":"disk","block":0,"start":0,"len":1.0}
{"op":"disk","block":0,"start":0,"len":4294967296}"#;

const UNREADABLE_ENGAGEMENTS: &str = r#"{"op":"engage"}
{"op":"engage","writer":0}
{"op":"engage","group":"0"}
{"op":"engage","group":-1}
{"op":"engage","group":-0}
{"op":"engage","group":+1}
{"op":"engage","group":1.0}
{"op":"engage","group":1e0}
{"op":"engage","group":01}
{"op":"engage","group":4294967296}
{"op":"engage","group":null}
{"op":"engage","group":[0]}
{"op":"engage","group":0,"writer":8}
{"op":"engage","group":0,"writer":"0"}
{"op":"engage","group":0,"writer":-1}
{"op":"engage","group":0,"writer":-0}
{"op":"engage","group":0,"writer":+1}
{"op":"engage","group":0,"writer":1.0}
{"op":"engage","group":0,"writer":1e0}
{"op":"engage","group":0,"writer":01}
{"op":"engage","group":0,"writer":4294967296}
{"op":"engage","group":0,"writer":null}
{"op":"engage","group":0,"writer":[0]}"#;

const UNREADABLE_DISENGAGEMENTS: &str = r#"{"op":"disengage"}
{"op":"disengage","writer":0}
{"op":"disengage","group":"0"}
{"op":"disengage","group":-1}
{"op":"disengage","group":-0}
{"op":"disengage","group":+1}
{"op":"disengage","group":1.0}
{"op":"disengage","group":1e0}
{"op":"disengage","group":01}
{"op":"disengage","group":4294967296}
{"op":"disengage","group":null}
{"op":"disengage","group":[0]}
{"op":"disengage","group":0,"writer":8}
{"op":"disengage","group":0,"writer":"0"}
{"op":"disengage","group":0,"writer":-1}
{"op":"disengage","group":0,"writer":-0}
{"op":"disengage","group":0,"writer":+1}
{"op":"disengage","group":0,"writer":1.0}
{"op":"disengage","group":0,"writer":1e0}
{"op":"disengage","group":0,"writer":01}
{"op":"disengage","group":0,"writer":4294967296}
{"op":"disengage","group":0,"writer":null}
{"op":"disengage","group":0,"writer":[0]}"#;

const UNREADABLE_ORDERS: &str = r#"{"op":"depend"}
{"op":"depend","group":0}
{"op":"depend","on":0}
{"op":"depend","group":"0","on":0}
{"op":"depend","group":-1,"on":0}
{"op":"depend","group":-0,"on":0}
{"op":"depend","group":+1,"on":0}
{"op":"depend","group":1.0,"on":0}
{"op":"depend","group":1e0,"on":0}
{"op":"depend","group":01,"on":0}
{"op":"depend","group":4294967296,"on":0}
{"op":"depend","group":null,"on":0}
{"op":"depend","group":[0],"on":0}
{"op":"depend","group":0,"on":"0"}
{"op":"depend","group":0,"on":-1}
{"op":"depend","group":0,"on":-0}
{"op":"depend","group":0,"on":+1}
{"op":"depend","group":0,"on":1.0}
{"op":"depend","group":0,"on":1e0}
{"op":"depend","group":0,"on":01}
{"op":"depend","group":0,"on":4294967296}
{"op":"depend","group":0,"on":null}
{"op":"depend","group":0,"on":[0]}"#;

const UNREADABLE_CLOSINGS: &str = r#"{"op":"close"}
{"op":"close","block":0}
{"op":"close","group":"0"}
{"op":"close","group":-1}
{"op":"close","group":-0}
{"op":"close","group":+1}
{"op":"close","group":1.0}
{"op":"close","group":1e0}
{"op":"close","group":01}
{"op":"close","group":4294967296}
{"op":"close","group":null}
{"op":"close","group":[0]}"#;

const UNREADABLE_COUNTS: &str = r#"{"op":"pending"}
{"op":"pending","block":0}
{"op":"pending","group":"0"}
{"op":"pending","group":-1}
{"op":"pending","group":-0}
{"op":"pending","group":+1}
{"op":"pending","group":1.0}
{"op":"pending","group":1e0}
{"op":"pending","group":01}
{"op":"pending","group":4294967296}
{"op":"pending","group":null}
{"op":"pending","group":[0]}"#;

const UNREADABLE_SYNCS: &str = r#"{"op":"sync"}
{"op":"sync","block":0}
{"op":"sync","group":"0"}
{"op":"sync","group":-1}
{"op":"sync","group":-0}
{"op":"sync","group":+1}
{"op":"sync","group":1.0}
{"op":"sync","group":1e0}
{"op":"sync","group":01}
{"op":"sync","group":4294967296}
{"op":"sync","group":null}
{"op":"sync","group":[0]}"#;

const UNREADABLE_OF_EACH_OP: [&str; 11] = [
    UNREADABLE,
    UNREADABLE_MERGES,
    UNREADABLE_SENDS,
    UNREADABLE_COMPLETIONS,
    UNREADABLE_DISKS,
    UNREADABLE_ENGAGEMENTS,
    UNREADABLE_DISENGAGEMENTS,
    UNREADABLE_ORDERS,
    UNREADABLE_CLOSINGS,
    UNREADABLE_COUNTS,
    UNREADABLE_SYNCS,
];

#[test]
fn refuses_unreadable_lines(rt: HostRuntime) {
    for lines in UNREADABLE_OF_EACH_OP.iter() {
        expect_each(&rt, rt.alloc(), *lines, Reading::BadLine(1));
    }
}

const OPS: &str =
    "\"op\" is not one of patch, merge, send, complete, view, show, disk, group, engage, disengage, depend, close, pending and sync";

const WRITER: &str = "\"writer\" is not a whole number from 0 to 7";

// What is said of an unreadable line.
const WORDS: [(&str, &str); 28] = [
    (
        r#"{"op":"#,
        "not JSON at column 6, or nested deeper than 127 levels",
    ),
    (
        r#"{"op":"send","block":0x1}"#,
        "not JSON at column 22, or nested deeper than 127 levels",
    ),
    (
        "\u{feff}{\"op\":\"send\",\"block\":0}",
        "it begins with a byte order mark, which is no JSON",
    ),
    (
        "{\0\"\0o\0p\0\"\0:\07\0}\0",
        "it looks like UTF-16, and a script is UTF-8",
    ),
    (r#"["op"]"#, "not a JSON object"),
    (r#"{"block":0}"#, "\"op\" is missing"),
    (r#"{"op":"send"}"#, "\"block\" is missing"),
    (
        r#"{"op":"patch","block":0,"start":0}"#,
        "\"hex\" is missing",
    ),
    (r#"{"op":"view"}"#, "\"take\" is missing"),
    (r#"{"op":"show","block":0,"start":0}"#, "\"len\" is missing"),
    (r#"{"op":7}"#, OPS),
    (r#"{"op":"fly"}"#, OPS),
    (
        r#"{"op":"send","block":-1}"#,
        "\"block\" is not a whole number from 0 to 4294967295",
    ),
    (
        r#"{"op":"show","block":0,"start":1.0}"#,
        "\"start\" is not a whole number from 0 to 4294967295",
    ),
    (
        r#"{"op":"merge","a":"0"}"#,
        "\"a\" is not a whole number from 0 to 4294967295",
    ),
    (
        r#"{"op":"merge","a":0,"b":4294967296}"#,
        "\"b\" is not a whole number from 0 to 4294967295",
    ),
    (
        r#"{"op":"disk","block":0,"start":0,"len":0}"#,
        "\"len\" is not a whole number from 1 to 4294967295",
    ),
    (
        r#"{"op":"patch","block":0,"start":0,"hex":"abc"}"#,
        "\"hex\" is not a text of hexadecimal digits, two for each byte",
    ),
    (
        r#"{"op":"patch","block":0,"start":0,"hex":"","after":[-1]}"#,
        "\"after\" is not a list of whole numbers from 0 to 4294967295",
    ),
    (
        r#"{"op":"patch","block":0,"start":0,"hex":"","drop":1}"#,
        "\"drop\" is not true or false",
    ),
    (
        r#"{"op":"patch","block":0,"start":0,"hex":"","writer":8}"#,
        WRITER,
    ),
    (
        r#"{"op":"view","take":0}"#,
        "\"take\" is not a list of whole numbers from 0 to 4294967295",
    ),
    (
        r#"{"op":"view","take":[],"back":[[]]}"#,
        "\"back\" is not a list of whole numbers from 0 to 4294967295",
    ),
    (r#"{"op":"sync"}"#, "\"group\" is missing"),
    (r#"{"op":"depend","group":0}"#, "\"on\" is missing"),
    (
        r#"{"op":"close","group":-1}"#,
        "\"group\" is not a whole number from 0 to 4294967295",
    ),
    (
        r#"{"op":"depend","group":0,"on":"0"}"#,
        "\"on\" is not a whole number from 0 to 4294967295",
    ),
    (r#"{"op":"engage","writer":8}"#, WRITER),
];

// What is wrong with a script's first line, where that is unreadable.
fn defect_of(alloc: Global, text: &[u8]) -> Option<Defect> {
    if passes_limit(text) {
        return None;
    }
    match read_script(alloc, text) {
        Err(ScriptError::BadLine { line: 1, defect }) => Some(defect),
        _ => None,
    }
}

fn expect_words(rt: &impl Abort, alloc: Global, line: &str, want: &str) -> Result<(), Fail> {
    let defect = defect_of(alloc, line.as_bytes()).ok_or("readable")?;
    let words = format!(in alloc; "{defect}")?;
    expect_eq(rt, &(&line, &words.as_str()), &(&line, &want));
    Ok(())
}

#[test]
fn says_what_is_wrong(rt: HostRuntime) -> Result<(), Fail> {
    for (line, want) in WORDS.iter() {
        expect_words(&rt, rt.alloc(), *line, *want)?;
        if let Some(other) = in_a_tree(rt.alloc(), *line)? {
            expect_words(&rt, rt.alloc(), other.as_str(), *want)?;
        }
    }
    Ok(())
}

// Blank lines ask for nothing and count, and lines behind the first unreadable one don't matter.
const SCRIPTS: [(&[u8], Reading); 12] = [
    (b"", Reading::Lines(0)),
    (b"\n", Reading::Lines(0)),
    (b" \t\r\n\n", Reading::Lines(0)),
    (
        b"\n{\"op\":\"show\",\"block\":0,\"start\":0,\"len\":1}\r\n\n",
        Reading::Lines(1),
    ),
    (
        b"{\"op\":\"show\",\"block\":4294967295,\"start\":4294967295,\"len\":4294967295}\n",
        Reading::Lines(1),
    ),
    (
        b"{\"op\":\"patch\",\"block\":0,\"start\":0,\"hex\":\"\"}\n\
        {\"op\":\"view\",\"block\":0,\"take\":[],\"start\":0,\"len\":1}",
        Reading::Lines(2),
    ),
    (
        b"{\"op\":\"merge\",\"a\":4294967295,\"b\":4294967295}\n",
        Reading::Lines(1),
    ),
    (b"{\"op\":\"complete\",\"block\":0}\r\n", Reading::Lines(1)),
    (b"\n \n{\"op\":\"fly\"}", Reading::BadLine(3)),
    (
        b"{\"op\":\"show\",\"block\":0,\"start\":0,\"len\":1}\r\n\n\
        {\"op\":\"fly\"}\n{\"op\":\"swim\"}\n",
        Reading::BadLine(3),
    ),
    (b"\xff\n", Reading::BadLine(1)),
    (b"{\"op\":\"\xc3\x28\"}", Reading::BadLine(1)),
];

#[test]
fn reads_whole_scripts(rt: HostRuntime) {
    for (index, (text, want)) in SCRIPTS.iter().enumerate() {
        expect_eq(&rt, &(&index, &read(rt.alloc(), *text)), &(&index, want));
    }
}

const LINES: &str =
    r#"{"op":"patch","block":3,"start":4094,"hex":"0aFF","after":[2,5],"drop":true,"writer":6}
{"op":"view","block":1,"take":[4,2],"back":[2],"start":8,"len":16}
{"op":"show","block":2,"start":1,"len":3}
{"op":"merge","a":5,"b":3}
{"op":"send","block":9,"block":2}
{"op":"complete","block":7}
{"op":"disk","block":1,"start":4094,"len":2}
{"op":"group"}
{"op":"engage","group":4,"writer":7}
{"op":"engage","group":3}
{"op":"disengage","group":5,"writer":1}
{"op":"depend","group":6,"on":2}
{"op":"close","group":8}
{"op":"pending","group":9}
{"op":"sync","group":10}"#;

const FORMS: &str = "\
Patch { block: BlockNo(3), start: 4094, bytes: Items { items: [10, 255] }, \
after: Items { items: [PatchNo(2), PatchNo(5)] }, undo: MayDrop, writer: WriterNo(6) }
View { take: Items { items: [PatchNo(4), PatchNo(2)] }, back: Items { items: [PatchNo(2)] }, \
span: Span { block: BlockNo(1), start: 8, len: 16 } }
Show(Span { block: BlockNo(2), start: 1, len: 3 })
Merge { a: PatchNo(5), b: PatchNo(3) }
Send(BlockNo(2))
Complete(BlockNo(7))
Disk(Span { block: BlockNo(1), start: 4094, len: 2 })
Group
Engage { writer: WriterNo(7), group: GroupNo(4) }
Engage { writer: WriterNo(0), group: GroupNo(3) }
Disengage { writer: WriterNo(1), group: GroupNo(5) }
Depend { group: GroupNo(6), on: GroupNo(2) }
Close(GroupNo(8))
Pending(GroupNo(9))
Sync(GroupNo(10))
";

fn push_forms(forms: &mut String, lines: &[Line]) -> Result<(), AllocError> {
    for line in lines {
        writeln!(forms, "{line:?}")?;
    }
    Ok(())
}

// The forms of the lines, one a line.
fn forms_of(alloc: Global, text: &[u8]) -> Result<String, Fail> {
    if passes_limit(text) {
        return Err(Fail::from("too long"));
    }
    let lines = read_script(alloc, text).ok().ok_or("unreadable")?;
    let mut forms = String::new(alloc);
    push_forms(&mut forms, &lines)?;
    Ok(forms)
}

#[test]
fn reads_fields(rt: HostRuntime) -> Result<(), Fail> {
    let forms = forms_of(rt.alloc(), LINES.as_bytes())?;
    expect_eq(&rt, &forms.as_str(), &FORMS);
    Ok(())
}

// A script of a piece so many times, with what stands before and behind, and how it is read.
#[derive(Clone, Copy)]
struct Long {
    before: &'static [u8],
    piece: &'static [u8],
    count: usize,
    behind: &'static [u8],
    want: Reading,
}

// As many lines and bytes as there may be, and one more; a line of ten million bytes; objects in objects deeper than
// the reader of JSON goes.
const LONG: [Long; 6] = [
    Long {
        before: b"",
        piece: b"\n",
        count: MAX_LINES,
        behind: b"",
        want: Reading::Lines(0),
    },
    Long {
        before: b"",
        piece: b"\n",
        count: MAX_LINES,
        behind: b" ",
        want: Reading::TooLong,
    },
    Long {
        before: b"",
        piece: b" ",
        count: MAX_BYTES,
        behind: b"",
        want: Reading::Lines(0),
    },
    Long {
        before: b"",
        piece: b" ",
        count: MAX_BYTES,
        behind: b"\n",
        want: Reading::TooLong,
    },
    Long {
        before: b"{\"op\":\"patch\",\"block\":0,\"start\":0,\"hex\":\"",
        piece: b"a",
        count: 10_000_000,
        behind: b"\"}",
        want: Reading::Lines(1),
    },
    Long {
        before: b"",
        piece: b"{\"op\":",
        count: 100_000,
        behind: b"",
        want: Reading::BadLine(1),
    },
];

fn push_times(text: &mut Vec<u8>, piece: &[u8], count: usize) -> Result<(), AllocError> {
    for _ in 0..count {
        text.extend_from_slice(piece)?;
    }
    Ok(())
}

fn push_long(text: &mut Vec<u8>, long: &Long) -> Result<(), AllocError> {
    text.extend_from_slice(long.before)?;
    push_times(text, long.piece, long.count)?;
    text.extend_from_slice(long.behind)
}

fn read_long(alloc: Global, long: &Long) -> Result<Reading, AllocError> {
    let mut text = Vec::new(alloc);
    push_long(&mut text, long)?;
    Ok(read(alloc, &text))
}

#[test]
fn reads_long_scripts(rt: HostRuntime) -> Result<(), Fail> {
    for (index, long) in LONG.iter().enumerate() {
        let got = read_long(rt.alloc(), long)?;
        expect_eq(&rt, &(&index, &got), &(&index, &long.want));
    }
    Ok(())
}

// What is answered.
#[derive(Clone, Copy)]
enum Told {
    Made(u32),
    Merged(u32),
    Sent(u32, &'static [u32]),
    Landed(u32, &'static [u32]),
    Seen(&'static [u8], &'static [u8]),
    Shown(&'static [u8]),
    OnDisk(&'static [u8]),
    GroupMade(u32),
    Done,
    Count(u32),
    Synced,
    Refused(RefusalKind, Option<u32>),
}

const TOLD: [(Told, &str); 16] = [
    (Told::Made(12), "patch 12\n"),
    (
        Told::Seen(&[0, 0xab], &[0x0f, 0x10]),
        "without 00ab cached 0f10\n",
    ),
    (Told::Shown(&[0xff]), "shown ff\n"),
    (
        Told::Refused(RefusalKind::DependentApplied, Some(1)),
        "refused DependentApplied 1\n",
    ),
    (Told::Refused(RefusalKind::Hard, None), "refused Hard\n"),
    (Told::Merged(4_294_967_295), "merged 4294967295\n"),
    (Told::Sent(3, &[4]), "sent 3 4\n"),
    (
        Told::Sent(4_294_967_295, &[4_294_967_294, 4_294_967_295]),
        "sent 4294967295 4294967294,4294967295\n",
    ),
    (Told::Landed(0, &[0, 2, 10]), "durable 0 0,2,10\n"),
    (Told::OnDisk(&[0, 0xab, 0xff]), "disk 00abff\n"),
    (Told::GroupMade(0), "group 0\n"),
    (Told::GroupMade(1023), "group 1023\n"),
    (Told::Done, "ok\n"),
    (Told::Count(0), "pending 0\n"),
    (Told::Count(4_294_967_295), "pending 4294967295\n"),
    (Told::Synced, "synced\n"),
];

fn bytes_of(alloc: Global, bytes: &[u8]) -> Result<Bytes, AllocError> {
    Ok(Items::from_vec(Vec::from_slice(alloc, bytes)?))
}

fn numbers_of(alloc: Global, numbers: &[u32]) -> Result<Numbers, AllocError> {
    let numbers: Vec<PatchNo> = numbers.iter().map(|no| PatchNo(*no)).collect(alloc)?;
    Ok(Items::from_vec(numbers))
}

fn seen(alloc: Global, without: &[u8], cached: &[u8]) -> Result<Answer, AllocError> {
    let without = bytes_of(alloc, without)?;
    let cached = bytes_of(alloc, cached)?;
    Ok(Answer::Seen { without, cached })
}

fn answer_of(alloc: Global, told: Told) -> Result<Answer, AllocError> {
    match told {
        Told::Made(no) => Ok(Answer::Made(PatchNo(no))),
        Told::Merged(no) => Ok(Answer::Merged(PatchNo(no))),
        Told::Sent(block, numbers) => Ok(Answer::Sent {
            block: BlockNo(block),
            numbers: numbers_of(alloc, numbers)?,
        }),
        Told::Landed(block, numbers) => Ok(Answer::Landed {
            block: BlockNo(block),
            numbers: numbers_of(alloc, numbers)?,
        }),
        Told::Seen(without, cached) => seen(alloc, without, cached),
        Told::Shown(bytes) => Ok(Answer::Shown(bytes_of(alloc, bytes)?)),
        Told::OnDisk(bytes) => Ok(Answer::OnDisk(bytes_of(alloc, bytes)?)),
        Told::GroupMade(group) => Ok(Answer::GroupMade(GroupNo(group))),
        Told::Done => Ok(Answer::Done),
        Told::Count(count) => Ok(Answer::Count(count)),
        Told::Synced => Ok(Answer::Synced),
        Told::Refused(kind, number) => Ok(Answer::Refused(Refusal { kind, number })),
    }
}

fn text_of(alloc: Global, told: Told) -> Result<String, AllocError> {
    let answer = answer_of(alloc, told)?;
    answer_line(alloc, &answer)
}

fn expect_text(rt: &impl Abort, alloc: Global, told: Told, want: &str) -> Result<(), Fail> {
    let text = text_of(alloc, told)?;
    expect_eq(rt, &text.as_str(), &want);
    Ok(())
}

#[test]
fn writes_answers(rt: HostRuntime) -> Result<(), Fail> {
    for (told, want) in TOLD.iter() {
        expect_text(&rt, rt.alloc(), *told, *want)?;
    }
    Ok(())
}

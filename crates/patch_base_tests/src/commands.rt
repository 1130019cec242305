//! Lines of each form, what is wrong with those that aren't readable, limits, and the texts of replies.
use crate::expecting::{expect_eq, in_a_tree};
use patch_commands::*;
use patch_history::Reply;
use patch_model::{Bytes, GroupNo, Items, OutOfMemory, Refusal, RefusalKind};
use patch_script::{Defect, Name, passes_limit};
use std::alloc::{AllocError, Global};
use std::process::Abort;
use std::test::Fail;

mod rows;

const LINES: &str = r#"{"op":"put","key":"k","hex":"0aFF"}
{"op":"put","writer":7,"key":"","hex":"","times":4294967295}
{"op":"put","key":"k","hex":"01","times":0,"writer":0}
{"op":"put","key":"a","key":"b","hex":"ff","hex":"00","times":"x","times":2}
{"op":"put","key":"\u00e9\n","hex":"0102","times":524288,"colour":"red","extent":-1}
{"op":"get","key":"k"}
{"op":"get","key":"k","writer":3,"hex":7,"times":-1}
{"op":"delete","key":"ab"}
{"op":"delete","writer":8,"key":7,"writer":1,"key":"é"}
{"op":"reclaim","extent":4294967295}
{"op":"reclaim","extent":0,"writer":2,"group":"x"}
{"op":"group"}
{"op":"group","writer":5,"group":"x"}
{"op":"engage","group":4,"writer":7}
{"op":"engage","group":3}
{"op":"disengage","group":5,"writer":1}
{"op":"depend","group":6,"on":2}
{"op":"depend","writer":4,"on":9,"group":8,"on":7}
{"op":"close","group":8,"writer":6}
{"op":"pending","group":4294967295}
{"op":"sync","group":10,"writer":2}
{"op":"sync","writer":1}
"#;

const FORMS: &str = "\
Put { writer: WriterNo(0), key: Items { items: [107] }, piece: Items { items: [10, 255] }, times: 1 }
Put { writer: WriterNo(7), key: Items { items: [] }, piece: Items { items: [] }, times: 4294967295 }
Put { writer: WriterNo(0), key: Items { items: [107] }, piece: Items { items: [1] }, times: 0 }
Put { writer: WriterNo(0), key: Items { items: [98] }, piece: Items { items: [0] }, times: 2 }
Put { writer: WriterNo(0), key: Items { items: [195, 169, 10] }, piece: Items { items: [1, 2] }, times: 524288 }
Get { writer: WriterNo(0), key: Items { items: [107] } }
Get { writer: WriterNo(3), key: Items { items: [107] } }
Delete { writer: WriterNo(0), key: Items { items: [97, 98] } }
Delete { writer: WriterNo(1), key: Items { items: [195, 169] } }
Reclaim { writer: WriterNo(0), extent: 4294967295 }
Reclaim { writer: WriterNo(2), extent: 0 }
Group { writer: WriterNo(0) }
Group { writer: WriterNo(5) }
Engage { writer: WriterNo(7), group: GroupNo(4) }
Engage { writer: WriterNo(0), group: GroupNo(3) }
Disengage { writer: WriterNo(1), group: GroupNo(5) }
Depend { writer: WriterNo(0), group: GroupNo(6), on: GroupNo(2) }
Depend { writer: WriterNo(4), group: GroupNo(8), on: GroupNo(7) }
Close { writer: WriterNo(6), group: GroupNo(8) }
Pending { writer: WriterNo(0), group: GroupNo(4294967295) }
Sync { writer: WriterNo(2), group: Some(GroupNo(10)) }
Sync { writer: WriterNo(1), group: None }
";

fn push_forms(forms: &mut String, lines: &[CommandLine]) -> Result<(), AllocError> {
    for line in lines {
        writeln!(forms, "{line:?}")?;
    }
    Ok(())
}

// The forms of the lines, one a line.
fn forms_of(alloc: Global, text: &[u8]) -> Result<String, Fail> {
    if passes_limit(text) {
        return Err(Fail::from("too long"));
    }
    let lines = read_commands(alloc, text).ok().ok_or("unreadable")?;
    let mut forms = String::new(alloc);
    push_forms(&mut forms, &lines)?;
    Ok(forms)
}

#[test]
fn reads_fields(rt: HostRuntime) -> Result<(), Fail> {
    let forms = forms_of(rt.alloc(), LINES.as_bytes())?;
    expect_eq(&rt, &forms.as_str(), &FORMS);
    Ok(())
}

// How a script is read.
#[derive(Clone, Copy, Debug, PartialEq, Eq)]
enum Reading {
    // So many lines ask for something.
    Lines(usize),
    BadLine(usize, Defect),
    TooLong,
    OutOfMemory,
}

fn read(alloc: Global, text: &[u8]) -> Reading {
    if passes_limit(text) {
        return Reading::TooLong;
    }
    match read_commands(alloc, text) {
        Ok(lines) => Reading::Lines(lines.len()),
        Err(ScriptError::BadLine { line, defect }) => Reading::BadLine(line, defect),
        Err(ScriptError::OutOfMemory) => Reading::OutOfMemory,
    }
}

const CUT_SHORT: &str = "not JSON at column 6, or nested deeper than 127 levels";

const MORE_BEHIND: &str = "not JSON at column 24, or nested deeper than 127 levels";

const NO_NUMBER: &str = "not JSON at column 26, or nested deeper than 127 levels";

const OPS: &str =
    "\"op\" is not one of put, get, delete, reclaim, group, engage, disengage, depend, close, pending and sync";

const KEY: &str = "\"key\" is not a text";

const HEX: &str = "\"hex\" is not a text of hexadecimal digits, two for each byte";

const TIMES: &str = "\"times\" is not a whole number from 0 to 4294967295";

const WRITER: &str = "\"writer\" is not a whole number from 0 to 7";

const EXTENT: &str = "\"extent\" is not a whole number from 0 to 4294967295";

const GROUP: &str = "\"group\" is not a whole number from 0 to 4294967295";

const ON: &str = "\"on\" is not a whole number from 0 to 4294967295";

const MANY_TIMES: &str = "\"times\" makes a value of more than 1048576 bytes";

// What is said of lines that aren't readable: of any op, and of puts.
const UNREADABLE: [(&str, &str); 34] = [
    (r#"{"op":"#, CUT_SHORT),
    (r#"{"op":"get","key":"k"} x"#, MORE_BEHIND),
    (r#"{"op":"reclaim","extent":01}"#, NO_NUMBER),
    (r#"["get","k"]"#, "not a JSON object"),
    (r#"7"#, "not a JSON object"),
    (r#"{}"#, "\"op\" is missing"),
    (r#"{"key":"k"}"#, "\"op\" is missing"),
    (r#"{"op":7}"#, OPS),
    (r#"{"op":"fly"}"#, OPS),
    (r#"{"op":"PUT","key":"k","hex":"01"}"#, OPS),
    (r#"{"op":"put ","key":"k","hex":"01"}"#, OPS),
    (r#"{"op":"upgrade"}"#, OPS),
    (r#"{"op":"patch","block":0,"start":0,"hex":"aa"}"#, OPS),
    (r#"{"op":"merge","a":0,"b":1}"#, OPS),
    (r#"{"op":"send","block":0}"#, OPS),
    (r#"{"op":"complete","block":0}"#, OPS),
    (
        r#"{"op":"view","block":0,"take":[],"start":0,"len":1}"#,
        OPS,
    ),
    (r#"{"op":"show","block":0,"start":0,"len":1}"#, OPS),
    (r#"{"op":"disk","block":0,"start":0,"len":1}"#, OPS),
    (r#"{"op":"put","hex":"01"}"#, "\"key\" is missing"),
    (r#"{"op":"put","key":"k"}"#, "\"hex\" is missing"),
    (r#"{"op":"put","key":7,"hex":"01"}"#, KEY),
    (r#"{"op":"put","key":null,"hex":"01"}"#, KEY),
    (r#"{"op":"put","key":"k","hex":"abc"}"#, HEX),
    (r#"{"op":"put","key":"k","hex":"0g"}"#, HEX),
    (r#"{"op":"put","key":"k","hex":7}"#, HEX),
    (r#"{"op":"put","key":"k","hex":"01","times":-1}"#, TIMES),
    (r#"{"op":"put","key":"k","hex":"01","times":"2"}"#, TIMES),
    (r#"{"op":"put","key":"k","hex":"01","times":1.0}"#, TIMES),
    (
        r#"{"op":"put","key":"k","hex":"","times":4294967296}"#,
        TIMES,
    ),
    (
        r#"{"op":"put","key":"k","hex":"01","times":1048577}"#,
        MANY_TIMES,
    ),
    (
        r#"{"op":"put","key":"k","hex":"0102","times":524289}"#,
        MANY_TIMES,
    ),
    (
        r#"{"op":"put","key":"k","hex":"0102","times":4294967295}"#,
        MANY_TIMES,
    ),
    (r#"{"op":"put","key":"k","hex":"01","writer":8}"#, WRITER),
];

// Of the other ops.
const UNREADABLE_OTHERS: [(&str, &str); 32] = [
    (r#"{"op":"get"}"#, "\"key\" is missing"),
    (r#"{"op":"get","key":["k"]}"#, KEY),
    (r#"{"op":"get","key":"k","writer":8}"#, WRITER),
    (r#"{"op":"get","key":"k","writer":"0"}"#, WRITER),
    (r#"{"op":"get","key":"k","writer":-0}"#, WRITER),
    (r#"{"op":"delete"}"#, "\"key\" is missing"),
    (r#"{"op":"delete","key":false}"#, KEY),
    (r#"{"op":"delete","key":"k","writer":8}"#, WRITER),
    (r#"{"op":"reclaim"}"#, "\"extent\" is missing"),
    (r#"{"op":"reclaim","extent":-1}"#, EXTENT),
    (r#"{"op":"reclaim","extent":"0"}"#, EXTENT),
    (r#"{"op":"reclaim","extent":4294967296}"#, EXTENT),
    (r#"{"op":"reclaim","extent":0,"writer":8}"#, WRITER),
    (r#"{"op":"group","writer":8}"#, WRITER),
    (r#"{"op":"engage","writer":0}"#, "\"group\" is missing"),
    (r#"{"op":"engage","group":1.0}"#, GROUP),
    (r#"{"op":"engage","group":0,"writer":8}"#, WRITER),
    (r#"{"op":"disengage"}"#, "\"group\" is missing"),
    (r#"{"op":"disengage","group":1e0}"#, GROUP),
    (r#"{"op":"disengage","group":0,"writer":8}"#, WRITER),
    (r#"{"op":"depend","on":0}"#, "\"group\" is missing"),
    (r#"{"op":"depend","group":0}"#, "\"on\" is missing"),
    (r#"{"op":"depend","group":0,"on":-1}"#, ON),
    (r#"{"op":"depend","group":null,"on":0}"#, GROUP),
    (r#"{"op":"depend","group":0,"on":1,"writer":8}"#, WRITER),
    (r#"{"op":"close"}"#, "\"group\" is missing"),
    (r#"{"op":"close","group":"8"}"#, GROUP),
    (r#"{"op":"pending"}"#, "\"group\" is missing"),
    (r#"{"op":"pending","group":4294967296}"#, GROUP),
    (r#"{"op":"sync","group":null}"#, GROUP),
    (r#"{"op":"sync","group":[0]}"#, GROUP),
    (r#"{"op":"sync","group":0,"writer":8}"#, WRITER),
];

// What is wrong with a script's first line, where that is unreadable.
fn defect_of(alloc: Global, text: &[u8]) -> Option<Defect> {
    match read(alloc, text) {
        Reading::BadLine(1, defect) => Some(defect),
        _ => None,
    }
}

fn expect_words(rt: &impl Abort, alloc: Global, line: &str, want: &str) -> Result<(), Fail> {
    let defect = defect_of(alloc, line.as_bytes()).ok_or("readable")?;
    let words = format!(in alloc; "{defect}")?;
    expect_eq(rt, &(&line, &words.as_str()), &(&line, &want));
    Ok(())
}

fn expect_words_of_each(rt: &impl Abort, alloc: Global, rows: &[(&str, &str)]) -> Result<(), Fail> {
    for (line, want) in rows {
        expect_words(rt, alloc, *line, *want)?;
        if let Some(other) = in_a_tree(alloc, *line)? {
            expect_words(rt, alloc, other.as_str(), *want)?;
        }
    }
    Ok(())
}

#[test]
fn says_what_is_wrong(rt: HostRuntime) -> Result<(), Fail> {
    expect_words_of_each(&rt, rt.alloc(), &UNREADABLE)?;
    expect_words_of_each(&rt, rt.alloc(), &UNREADABLE_OTHERS)
}

// Blank lines ask for nothing and count, and lines behind the first unreadable one don't matter.
const SCRIPTS: [(&[u8], Reading); 6] = [
    (b"", Reading::Lines(0)),
    (b" \t\r\n\n", Reading::Lines(0)),
    (b"\n{\"op\":\"group\"}\r\n\n", Reading::Lines(1)),
    (
        b"{\"op\":\"group\"}\n{\"op\":\"get\",\"key\":\"k\"}",
        Reading::Lines(2),
    ),
    (
        b"{\"op\":\"group\"}\r\n\n{\"op\":\"fly\"}\n{}\n",
        Reading::BadLine(3, Defect::NoCommand),
    ),
    (
        b"\n\xff\n",
        Reading::BadLine(2, Defect::NotJson { column: 1 }),
    ),
];

#[test]
fn reads_whole_scripts(rt: HostRuntime) {
    for (index, (text, want)) in SCRIPTS.iter().enumerate() {
        expect_eq(&rt, &(&index, &read(rt.alloc(), *text)), &(&index, want));
    }
}

// A put of so many bytes, so many times over.
#[derive(Clone, Copy)]
struct Long {
    bytes: usize,
    times: u32,
    want: Reading,
}

const TOO_LONG_A_PIECE: Reading = Reading::BadLine(1, Defect::TooLong(Name::Hex));

const TOO_MANY_TIMES: Reading = Reading::BadLine(1, Defect::TooLong(Name::Times));

// As many bytes as a value may have, and one more. A value of no bytes may have a longer piece.
const LONG: [Long; 7] = [
    Long {
        bytes: MAX_VALUE_TEXT,
        times: 1,
        want: Reading::Lines(1),
    },
    Long {
        bytes: MAX_VALUE_TEXT + 1,
        times: 1,
        want: TOO_LONG_A_PIECE,
    },
    Long {
        bytes: MAX_VALUE_TEXT + 1,
        times: 4_294_967_295,
        want: TOO_LONG_A_PIECE,
    },
    Long {
        bytes: MAX_VALUE_TEXT + 1,
        times: 0,
        want: Reading::Lines(1),
    },
    Long {
        bytes: 1024,
        times: 1024,
        want: Reading::Lines(1),
    },
    Long {
        bytes: 1024,
        times: 1025,
        want: TOO_MANY_TIMES,
    },
    Long {
        bytes: 1025,
        times: 1024,
        want: TOO_MANY_TIMES,
    },
];

fn push_times(text: &mut String, piece: &str, count: usize) -> Result<(), AllocError> {
    for _ in 0..count {
        text.push_str(piece)?;
    }
    Ok(())
}

fn push_long(text: &mut String, long: &Long) -> Result<(), AllocError> {
    text.push_str("{\"op\":\"put\",\"key\":\"k\",\"hex\":\"")?;
    push_times(text, "a5", long.bytes)?;
    let times = long.times;
    write!(text, "\",\"times\":{times}}}")
}

fn read_long(alloc: Global, long: &Long) -> Result<Reading, AllocError> {
    let mut text = String::new(alloc);
    push_long(&mut text, long)?;
    Ok(read(alloc, text.as_bytes()))
}

#[test]
fn reads_long_values(rt: HostRuntime) -> Result<(), Fail> {
    for (index, long) in LONG.iter().enumerate() {
        let got = read_long(rt.alloc(), long)?;
        expect_eq(&rt, &(&index, &got), &(&index, &long.want));
    }
    Ok(())
}

// A piece, how often it is repeated, and what it makes.
const VALUES: [(&[u8], u32, &[u8]); 4] = [
    (&[1, 2], 3, &[1, 2, 1, 2, 1, 2]),
    (&[7], 1, &[7]),
    (&[7], 0, &[]),
    (&[], 4_294_967_295, &[]),
];

fn expect_value(
    rt: &impl Abort,
    alloc: Global,
    piece: &[u8],
    times: u32,
    want: &[u8],
) -> Result<(), OutOfMemory> {
    let value = laid_out(alloc, piece, times)?;
    expect_eq(rt, &value.as_slice(), &want);
    Ok(())
}

#[test]
fn lays_values_out(rt: HostRuntime) -> Result<(), Fail> {
    for (piece, times, want) in VALUES.iter() {
        expect_value(&rt, rt.alloc(), *piece, *times, *want)?;
    }
    Ok(())
}

fn length_of(alloc: Global, piece: &[u8], times: u32) -> Option<usize> {
    let value = laid_out(alloc, piece, times).ok()?;
    Some(value.as_slice().len())
}

#[test]
fn lays_a_long_value_out(rt: HostRuntime) {
    expect_eq(
        &rt,
        &length_of(rt.alloc(), &[1, 2, 3, 4], 262_144),
        &Some(MAX_VALUE_TEXT),
    );
}

// What is replied.
#[derive(Clone, Copy)]
enum Told {
    Done,
    Value(&'static [u8]),
    Absent,
    GroupMade(u32),
    Count(u32),
    Refused(RefusalKind, Option<u32>),
}

const TOLD: [(Told, &str); 13] = [
    (Told::Done, "ok\n"),
    (Told::Value(&[]), "value\n"),
    (Told::Value(&[0]), "value 00\n"),
    (Told::Value(&[1, 0xab, 0xff]), "value 01abff\n"),
    (Told::Absent, "none\n"),
    (Told::GroupMade(0), "group 0\n"),
    (Told::GroupMade(1023), "group 1023\n"),
    (Told::Count(0), "pending 0\n"),
    (Told::Count(4_294_967_295), "pending 4294967295\n"),
    (Told::Refused(RefusalKind::NoKey, None), "refused NoKey\n"),
    (
        Told::Refused(RefusalKind::NoSuchGroup, None),
        "refused NoSuchGroup\n",
    ),
    (
        Told::Refused(RefusalKind::BadSlot, Some(0)),
        "refused BadSlot 0\n",
    ),
    (
        Told::Refused(RefusalKind::DependentApplied, Some(4_294_967_295)),
        "refused DependentApplied 4294967295\n",
    ),
];

fn bytes_of(alloc: Global, bytes: &[u8]) -> Result<Bytes, AllocError> {
    Ok(Items::from_vec(Vec::from_slice(alloc, bytes)?))
}

fn reply_of(alloc: Global, told: Told) -> Result<Reply, AllocError> {
    match told {
        Told::Done => Ok(Reply::Done),
        Told::Value(bytes) => Ok(Reply::Value(bytes_of(alloc, bytes)?)),
        Told::Absent => Ok(Reply::Absent),
        Told::GroupMade(group) => Ok(Reply::GroupMade(GroupNo(group))),
        Told::Count(count) => Ok(Reply::Count(count)),
        Told::Refused(kind, number) => Ok(Reply::Refused(Refusal { kind, number })),
    }
}

fn text_of(alloc: Global, told: Told) -> Result<String, AllocError> {
    let reply = reply_of(alloc, told)?;
    reply_line(alloc, &reply)
}

fn expect_text(rt: &impl Abort, alloc: Global, told: Told, want: &str) -> Result<(), Fail> {
    let text = text_of(alloc, told)?;
    expect_eq(rt, &text.as_str(), &want);
    Ok(())
}

#[test]
fn writes_replies(rt: HostRuntime) -> Result<(), Fail> {
    for (told, want) in TOLD.iter() {
        expect_text(&rt, rt.alloc(), *told, *want)?;
    }
    Ok(())
}

#[test]
fn tells_a_sync(rt: HostRuntime) -> Result<(), Fail> {
    let text = synced_line(rt.alloc())?;
    expect_eq(&rt, &text.as_str(), &"synced\n");
    Ok(())
}

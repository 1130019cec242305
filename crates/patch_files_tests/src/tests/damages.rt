//! Files with damaged bytes, and what a check of each writes.
use super::files::{HELD, LENGTH, MADE, OK, PUT, follow, lay};
use super::*;
use patch_files::{BadSlot, Survey, survey_file};
use patch_model::BLOCK;
use std::alloc::AllocError;
use std::fs;
use std::fs::OpenFile;
use std::os::unix::fs::FileExt;
use std::rt::Files;
use std::sync::Wait;
use std::thread::Threads;

/// What becomes of a file's bytes.
#[derive(Clone, Copy)]
enum Damage {
    /// The byte at this place is another one.
    Changed(usize, u8),
    /// A block is of zeros.
    Zeroed(usize),
    /// Two blocks have changed places.
    Swapped(usize, usize),
    /// The first slot of the index stands in this one too.
    Repeated(usize),
    /// The first bytes are left, so many.
    Cut(usize),
}

// How many bytes a slot has.
const SLOT: usize = 64;

// Copies so many bytes of the good file to another place.
fn copy(bytes: &mut [u8], good: &[u8], from: usize, to: usize, count: usize) {
    let piece = good.get(from..from.saturating_add(count)).unwrap_or(&[]);
    lay(bytes, to, piece);
}

// Does this damage to a copy of the good file's bytes.
fn spoil(bytes: &mut Vec<u8>, good: &[u8], damage: Damage) {
    match damage {
        Damage::Changed(at, byte) => lay(bytes, at, &[byte]),
        Damage::Zeroed(block) => lay(bytes, block.saturating_mul(BLOCK), &[0; BLOCK]),
        Damage::Swapped(one, other) => {
            let (one, other) = (one.saturating_mul(BLOCK), other.saturating_mul(BLOCK));
            copy(bytes, good, one, other, BLOCK);
            copy(bytes, good, other, one, BLOCK);
        }
        Damage::Repeated(slot) => {
            let to = BLOCK.saturating_add(slot.saturating_mul(SLOT));
            copy(bytes, good, BLOCK, to, SLOT);
        }
        Damage::Cut(length) => bytes.truncate(length),
    }
}

// A check of the file that these bytes become ends so.
fn expect_damage<
    F: FileExt + OpenFile + Drop + Send,
    H: Files<File = F> + Threads + Wait + Abort + Sync,
>(rt: &H, files: &HostRuntime, path: &str, good: &[u8], row: (Damage, End)) {
    let mut bytes = Vec::from_slice(files.alloc(), good).expect(rt, "memory for bytes");
    spoil(&mut bytes, good, row.0);
    fs::write(files, path, bytes.as_slice()).expect(rt, "a file that is written");
    follow(rt, files.alloc(), path, &[(Deed::Check, row.1)]);
    drop(bytes);
}

const SIZE: End = End(Status::Failed, 4, "fault FileSize\n");

const SUPERBLOCK: End = End(Status::Failed, 4, "fault BadSuper\n");

const POINTER: End = End(Status::Failed, 4, "fault BadPointer\n");

const SLOT_0: End = End(Status::Failed, 4, "fault BadSlot 0\n");

const FRAME: End = End(Status::Failed, 4, "fault BadFrame 0\n");

const OF_NO_ENTRIES: &[(Damage, End)] = &[
    (Damage::Cut(LENGTH - 1), SIZE),
    (Damage::Changed(0, 0), SUPERBLOCK),
    (Damage::Changed(4144, 1), SLOT_0),
];

// Damages of the file behind one put that are told by their own words.
const OF_ONE_PUT: &[(Damage, End)] = &[
    (Damage::Zeroed(0), SUPERBLOCK),
    (Damage::Swapped(0, 1), SUPERBLOCK),
    // The one slot is lost.
    (
        Damage::Zeroed(1),
        End(Status::Done, 0, "extent 0 0 19 0\nextent 1 0 0 0\nclean\n"),
    ),
    (Damage::Zeroed(2), FRAME),
    (Damage::Zeroed(3), FRAME),
    (Damage::Swapped(3, 4), FRAME),
    (Damage::Swapped(1, 2), POINTER),
    (Damage::Swapped(2, 3), POINTER),
    (Damage::Swapped(1, 3), SLOT_0),
    (Damage::Cut(34 * BLOCK), SIZE),
    (Damage::Cut(0), SIZE),
    (Damage::Cut(LENGTH - 1), SIZE),
    (
        Damage::Changed(BLOCK + 63 * SLOT, 2),
        End(Status::Failed, 4, "fault BadSlot 63\n"),
    ),
    (
        Damage::Repeated(5),
        End(Status::Failed, 4, "fault DuplicateKey 5\n"),
    ),
];

// A file's path, what is done with it, how a check of each damage ends, and from which block on no slot names one: those aren't
// looked at.
struct Row {
    path: &'static str,
    turns: &'static [Turn<'static>],
    damages: &'static [(Damage, End)],
    unseen: usize,
}

static NO_ENTRIES: Row = Row {
    path: "patch_files_new",
    turns: &[(Deed::Make(SMALL), MADE), (Deed::Check, EMPTY_STORE)],
    damages: OF_NO_ENTRIES,
    unseen: COUNT as usize,
};

static ONE_PUT: Row = Row {
    path: "patch_files_damaged",
    turns: &[(Deed::Make(SMALL), MADE), (Deed::Run(PUT), OK)],
    damages: OF_ONE_PUT,
    unseen: 4,
};

fn expect_row<
    F: FileExt + OpenFile + Drop + Send,
    H: Files<File = F> + Threads + Wait + Abort + Sync,
>(rt: &H, files: &HostRuntime, row: &Row) {
    let _old = fs::remove_file(files, row.path);
    follow(rt, files.alloc(), row.path, row.turns);
    let good = fs::read(files, row.path).expect(rt, "a file that is read");
    expect_eq(rt, &good.len(), &LENGTH);
    for block in row.unseen..COUNT as usize {
        expect_damage(rt, files, row.path, &good, (Damage::Zeroed(block), HELD));
    }
    for damage in row.damages {
        expect_damage(rt, files, row.path, &good, *damage);
    }
    drop(good);
    fs::remove_file(files, row.path).expect(rt, "a file that is there");
}

#[test]
fn a_damaged_file_of_no_entries_is_refused(rt: HostRuntime) {
    expect_row(&rt, &rt, &NO_ENTRIES);
}

#[test]
fn each_damage_of_a_file_is_told(rt: HostRuntime) {
    expect_row(&rt, &rt, &ONE_PUT);
}

const THREE: &str = r#"{"op":"put","key":"k","hex":"0102"}
{"op":"put","key":"l","hex":"03"}
{"op":"put","key":"m","hex":""}"#;

const THREE_OK: End = End(Status::Done, 0, "ok\nok\nok\n");

// Damages of a file of three keys, and what is found: each slot that is wrong with the key that it names, and each key that can be read
// with the length of its value. The frames of the keys begin at 0, 19 and 37 of the first extent, and in each the key is the 13th byte.
static SURVEYS: [(&[Damage], &str); 6] = [
    (&[], "6b 2\n6c 1\n6d 0\n"),
    (
        &[Damage::Changed(BLOCK + SLOT, 2)],
        "BadSlot 1 ?\n6b 2\n6d 0\n",
    ),
    (
        &[Damage::Changed(3 * BLOCK + 31, 0x78)],
        "BadFrame 1 6c\n6b 2\n6d 0\n",
    ),
    (
        &[Damage::Repeated(5)],
        "DuplicateKey 5 6b\n6b 2\n6c 1\n6d 0\n",
    ),
    // The extent of the first slot isn't there.
    (
        &[Damage::Changed(BLOCK + 3, 9), Damage::Repeated(1)],
        "BadSlot 0 6b\n6b 2\n6d 0\n",
    ),
    (
        &[
            Damage::Changed(BLOCK, 7),
            Damage::Changed(3 * BLOCK + 31, 0x78),
            Damage::Changed(3 * BLOCK + 49, 0x79),
            Damage::Repeated(63),
        ],
        "BadSlot 0 ?\nBadFrame 1 6c\nBadFrame 2 6d\n6b 2\n",
    ),
];

fn push_key(text: &mut String, key: &[u8]) -> Result<(), AllocError> {
    for byte in key {
        write!(text, "{byte:02x}")?;
    }
    Ok(())
}

fn push_bad(text: &mut String, bad: &BadSlot) -> Result<(), AllocError> {
    write!(
        text,
        "{} {} ",
        bad.why.kind.name(),
        bad.why.number.unwrap_or(0)
    )?;
    match &bad.key {
        Some(key) => push_key(text, key.as_slice())?,
        None => text.push_str("?")?,
    }
    text.push_str("\n")
}

fn push_survey(text: &mut String, survey: &Survey) -> Result<(), AllocError> {
    for bad in survey.bad.iter() {
        push_bad(text, bad)?;
    }
    for entry in survey.entries.iter() {
        push_key(text, entry.key.as_slice())?;
        writeln!(text, " {}", entry.length)?;
    }
    Ok(())
}

fn expect_survey(
    rt: &impl Abort,
    files: &HostRuntime,
    path: &str,
    good: &[u8],
    row: &(&[Damage], &str),
) -> Result<(), AllocError> {
    let mut bytes = Vec::from_slice(files.alloc(), good)?;
    for damage in row.0 {
        spoil(&mut bytes, good, *damage);
    }
    fs::write(files, path, bytes.as_slice()).expect(rt, "a file that is written");
    let Ok(survey) = survey_file(files, files.alloc(), path) else {
        panic!(rt; "slots alone are wrong");
    };
    let mut text = String::new(files.alloc());
    push_survey(&mut text, &survey)?;
    expect_eq(rt, &text.as_str(), &row.1);
    Ok(())
}

#[test]
fn keys_are_found_behind_slots_that_are_wrong(rt: HostRuntime) -> Result<(), Fail> {
    let path = "patch_files_surveyed";
    let turns = [(Deed::Make(SMALL), MADE), (Deed::Run(THREE), THREE_OK)];
    let _old = fs::remove_file(&rt, path);
    follow(&rt, rt.alloc(), path, &turns);
    let good = fs::read(&rt, path).expect(&rt, "a file that is read");
    for row in &SURVEYS {
        expect_survey(&rt, &rt, path, good.as_slice(), row)?;
    }
    fs::remove_file(&rt, path).expect(&rt, "a file that is there");
    Ok(())
}

// Where more than slots is wrong, nothing is found.
#[test]
fn no_keys_are_found_without_pointers(rt: HostRuntime) {
    let path = "patch_files_unsurveyed";
    let _old = fs::remove_file(&rt, path);
    follow(&rt, rt.alloc(), path, ONE_PUT.turns);
    let good = fs::read(&rt, path).expect(&rt, "a file that is read");
    for damage in [
        Damage::Zeroed(0),
        Damage::Swapped(2, 3),
        Damage::Cut(LENGTH - 1),
        Damage::Cut(34 * BLOCK),
    ] {
        let mut bytes = Vec::from_slice(rt.alloc(), good.as_slice()).expect(
            &rt,
            "memory for bytes",
        );
        spoil(&mut bytes, good.as_slice(), damage);
        fs::write(&rt, path, bytes.as_slice()).expect(&rt, "a file that is written");
        assert!(rt; survey_file(&rt, rt.alloc(), path).is_err());
    }
    fs::remove_file(&rt, path).expect(&rt, "a file that is there");
}

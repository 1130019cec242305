//! An index of four slots: what it answers after each move.
use crate::expecting::expect_eq;
use patch_index::{Entry, EntryReport, Index, Key, LiveSlots};
use patch_model::OutOfMemory;
use std::alloc::{Allocator, Global};
use std::process::Abort;
use std::test::Fail;

const COUNT: u32 = 4;

// A slot that is filled with the frame of a key, or cleared.
#[derive(Clone, Copy)]
enum Move<'a> {
    Fill {
        slot: u32,
        key: &'a [u8],
        extent: u32,
        offset: u32,
    },
    Clear {
        slot: u32,
    },
}

use Move::{Clear, Fill};

// What is answered then: the lowest empty slot, the slot of the key `k`, and the live slots of extent 1.
#[derive(Clone, Copy)]
struct Answers<'a> {
    empty: Option<u32>,
    slot_of_k: Option<u32>,
    live: &'a [u32],
}

// The frame of a value of one byte.
fn entry(rt: &impl Abort, key: &[u8], extent: u32, offset: u32) -> Entry {
    assert!(rt; key.len() <= 4 && offset <= 1000);
    Entry {
        key: Key::of(key),
        extent,
        generation: 0,
        offset,
        length: 17 + key.len() as u32,
    }
}

fn empty_index<A: Allocator + Copy>(alloc: A) -> Result<Index<A>, OutOfMemory> {
    let mut index = Index::with_room(alloc, COUNT)?;
    for _ in 0..COUNT {
        if index.count() < 1024 {
            index.push(None)?;
        }
    }
    Ok(index)
}

fn make_move<A: Allocator>(rt: &impl Abort, index: &mut Index<A>, step: Move) {
    match step {
        Fill {
            slot,
            key,
            extent,
            offset,
        } => {
            assert!(rt; slot < index.count());
            index.fill(slot, entry(rt, key, extent, offset));
        }
        Clear { slot } => {
            assert!(rt; slot < index.count());
            index.clear(slot);
        }
    }
}

fn expect_slots(rt: &impl Abort, got: &LiveSlots, want: &[u32]) {
    assert!(rt; got.len() == want.len());
    for at in 0..want.len() {
        expect_eq(rt, &got.nth(at), &want[at]);
    }
}

fn expect_answers<A: Allocator>(rt: &impl Abort, index: &Index<A>, want: Answers) {
    expect_eq(rt, &index.empty_slot(), &want.empty);
    expect_eq(rt, &index.slot_of(b"k"), &want.slot_of_k);
    expect_slots(rt, &index.live_slots(1), want.live);
    assert!(rt; want.live.len() <= 4);
    expect_eq(rt, &index.live_bytes(1), &(18 * want.live.len() as u32));
}

// Each report by its number is that of the list, which ends where there are no more.
fn expect_reports<A: Allocator>(
    rt: &impl Abort,
    alloc: Global,
    index: &Index<A>,
) -> Result<(), Fail> {
    let all = index.reports(alloc)?;
    for number in 0..=COUNT {
        let one = index.report(number);
        let told = one.as_ref().map(|it| (it.key.as_slice(), it.length));
        let want = all
            .get(number as usize)
            .map(|it| (it.key.as_slice(), it.length));
        expect_eq(rt, &told, &want);
    }
    Ok(())
}

fn walk(rt: &impl Abort, alloc: Global, steps: &[(Move, Answers)]) -> Result<(), Fail> {
    let mut index = empty_index(alloc)?;
    for (step, want) in steps {
        make_move(rt, &mut index, *step);
        expect_answers(rt, &index, *want);
        expect_reports(rt, alloc, &index)?;
    }
    Ok(())
}

fn filled(slot: u32, key: &[u8], extent: u32, offset: u32) -> Move {
    Fill {
        slot,
        key,
        extent,
        offset,
    }
}

fn told(empty: Option<u32>, slot_of_k: Option<u32>, live: &[u32]) -> Answers {
    Answers {
        empty,
        slot_of_k,
        live,
    }
}

#[test]
fn slots_are_filled_and_cleared(rt: HostRuntime) -> Result<(), Fail> {
    let steps = [
        (filled(0, b"k", 1, 40), told(Some(1), Some(0), &[0])),
        (filled(2, b"a", 1, 0), told(Some(1), Some(0), &[2, 0])),
        (filled(1, b"z", 2, 20), told(Some(3), Some(0), &[2, 0])),
        (filled(3, b"b", 1, 20), told(None, Some(0), &[2, 3, 0])),
        (Clear { slot: 2 }, told(Some(2), Some(0), &[3, 0])),
        (filled(0, b"m", 1, 0), told(Some(2), None, &[0, 3])),
        (filled(3, b"k", 0, 20), told(Some(2), Some(3), &[0])),
        (filled(1, b"k", 1, 60), told(Some(2), Some(1), &[0, 1])),
        (Clear { slot: 1 }, told(Some(1), Some(3), &[0])),
        (Clear { slot: 1 }, told(Some(1), Some(3), &[0])),
    ];
    walk(&rt, rt.alloc(), &steps)
}

// Slots get other frames of their keys: behind, in front, and in another extent and back. Then one is cleared and filled anew.
#[test]
fn a_slot_gets_other_frames_of_its_key(rt: HostRuntime) -> Result<(), Fail> {
    let steps = [
        (filled(0, b"k", 1, 40), told(Some(1), Some(0), &[0])),
        (filled(1, b"a", 1, 60), told(Some(2), Some(0), &[0, 1])),
        (filled(2, b"z", 1, 100), told(Some(3), Some(0), &[0, 1, 2])),
        (filled(0, b"k", 1, 80), told(Some(3), Some(0), &[1, 0, 2])),
        (filled(0, b"k", 1, 140), told(Some(3), Some(0), &[1, 2, 0])),
        (filled(2, b"z", 1, 20), told(Some(3), Some(0), &[2, 1, 0])),
        (filled(1, b"a", 0, 20), told(Some(3), Some(0), &[2, 0])),
        (filled(1, b"a", 1, 0), told(Some(3), Some(0), &[1, 2, 0])),
        (Clear { slot: 0 }, told(Some(0), None, &[1, 2])),
        (filled(0, b"k", 1, 200), told(Some(3), Some(0), &[1, 2, 0])),
    ];
    walk(&rt, rt.alloc(), &steps)
}

// The keys of four slots, from the lowest slot on, and in order.
const KEYS: &[&[u8]] = &[b"b", b"a", b"\xff", b"ab"];

const RISING: &[&[u8]] = &[b"a", b"ab", b"b", b"\xff"];

// From which key, the next one, and the one before.
type Beside = (&'static [u8], Option<&'static [u8]>, Option<&'static [u8]>);

const BESIDE: &[Beside] = &[
    (b"", Some(b"a"), None),
    (b"a", Some(b"a"), None),
    (b"a\0", Some(b"ab"), Some(b"a")),
    (
        b"aaaaaaaaaaaaaaaaaaaaaaaaaaaaaaaaaaaaaaaa",
        Some(b"ab"),
        Some(b"a"),
    ),
    (b"ab", Some(b"ab"), Some(b"a")),
    (b"abc", Some(b"b"), Some(b"ab")),
    (b"b", Some(b"b"), Some(b"ab")),
    (b"c", Some(b"\xff"), Some(b"b")),
    (b"\xff", Some(b"\xff"), Some(b"b")),
    (b"\xff\0", None, Some(b"\xff")),
];

fn index_of_keys(rt: &impl Abort, alloc: Global) -> Result<Index, OutOfMemory> {
    let mut index = empty_index(alloc)?;
    for (slot, key) in KEYS.iter().enumerate() {
        make_move(rt, &mut index, filled(slot as u32, key, 1, 0));
    }
    Ok(index)
}

// A key whose value has one byte is told, or none is.
fn expect_key(rt: &impl Abort, got: &Option<EntryReport>, want: Option<&[u8]>) {
    let got = got.as_ref().map(|it| (it.key.as_slice(), it.length));
    expect_eq(rt, &got, &want.map(|key| (key, 1)));
}

fn expect_beside<A: Allocator>(rt: &impl Abort, index: &Index<A>) {
    for (key, next, previous) in BESIDE {
        expect_key(rt, &index.next_key(key), *next);
        expect_key(rt, &index.previous_key(Some(key)), *previous);
    }
}

// From the first to the last: no key lies between one and the one that has a zero behind it.
fn expect_rising<A: Allocator>(
    rt: &impl Abort,
    alloc: Global,
    index: &Index<A>,
    keys: &[&[u8]],
) -> Result<(), Fail> {
    let mut from = Vec::new(alloc);
    for key in keys {
        expect_key(rt, &index.next_key(from.as_slice()), Some(*key));
        from = Vec::from_slice(alloc, key)?;
        from.push(0)?;
    }
    expect_key(rt, &index.next_key(from.as_slice()), None);
    Ok(())
}

// And from the last to the first.
fn expect_falling<A: Allocator>(rt: &impl Abort, index: &Index<A>, keys: &[&[u8]]) {
    let mut before = None;
    for key in keys.iter().rev() {
        expect_key(rt, &index.previous_key(before), Some(*key));
        before = Some(*key);
    }
    expect_key(rt, &index.previous_key(before), None);
}

#[test]
fn keys_come_in_order(rt: HostRuntime) -> Result<(), Fail> {
    let index = index_of_keys(&rt, rt.alloc())?;
    expect_beside(&rt, &index);
    expect_rising(&rt, rt.alloc(), &index, RISING)?;
    expect_falling(&rt, &index, RISING);
    Ok(())
}

#[test]
fn an_index_of_no_key_has_neither(rt: HostRuntime) -> Result<(), Fail> {
    let index = empty_index(rt.alloc())?;
    expect_key(&rt, &index.next_key(b""), None);
    expect_key(&rt, &index.previous_key(None), None);
    Ok(())
}

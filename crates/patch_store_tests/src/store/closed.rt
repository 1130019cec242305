//! What the patches of a store name, which sets of them are closed, and the disks that hold these.
use super::*;
use patch_model::{BlockNo, Named, Names, PatchNo};

// A patch that was made.
#[derive(Clone, Copy)]
struct Made<'a> {
    block: BlockNo,
    start: usize,
    bytes: &'a [u8],
    after: &'a [PatchNo],
}

// What a patch names that comes after no group: each number by itself.
fn listed(names: &Names) -> Option<&[PatchNo]> {
    match names.lend() {
        Named::Listed(numbers) => Some(numbers),
        Named::InRuns(_) => None,
    }
}

fn made_by(step: &Step) -> Option<Made<'_>> {
    match step {
        Step::Create {
            block,
            start,
            bytes,
            after,
            ..
        } => Some(Made {
            block: *block,
            start: *start,
            bytes: bytes.as_slice(),
            after: listed(after)?,
        }),
        _ => None,
    }
}

// The patch of this number.
fn nth_made(steps: &[Step], no: u32) -> Option<Made<'_>> {
    let mut next = 0u32;
    for step in steps {
        if let Some(made) = made_by(step) {
            if next == no {
                return Some(made);
            }
            next = next.saturating_add(1);
        }
    }
    None
}

// The steps of these commands, on a new disk of three extents.
fn steps_of(rt: &impl Abort, alloc: Global, turns: &[Turn<'_>]) -> Result<Vec<Step>, Fail> {
    let mut store = behind(rt, alloc, OF_THREE, &[], turns)?;
    let steps = store.drain_trace();
    drop(store);
    Ok(steps?)
}

// An upgrade, and a longer value than there may be before it.
pub(super) const LONGER: &[Turn<'static>] = &[(Upgrade, Ok(())), (Put(b"a", &[1; 40_000]), Ok(()))];

// Two puts, the deletes of both, and a put that claims the lowest slot.
const CLAIMED: &[Turn<'static>] = &[
    (Put(b"b", &[1]), Ok(())),
    (Put(b"a", &[1]), Ok(())),
    (Delete(b"b"), Ok(())),
    (Delete(b"a"), Ok(())),
    (Put(b"a", &[2]), Ok(())),
];

// Two values that take nine blocks each, and a move of the first: patches 0 to 10, 11 to 21, and 22 to 32. The reset is 33.
const WON_BACK: &[Turn<'static>] = &[
    (Put(b"a", &[0x61; 32_768]), Ok(())),
    (Put(b"b", &[0x62; 32_768]), Ok(())),
    (Reclaim(0), Ok(())),
];

// The patches that the one of this number names.
fn named_by(steps: &[Step], no: u32) -> &[PatchNo] {
    match nth_made(steps, no) {
        Some(made) => made.after,
        None => &[],
    }
}

fn expect_named(
    rt: &impl Abort,
    alloc: Global,
    turns: &[Turn<'_>],
    no: u32,
    names: &[PatchNo],
) -> Result<(), Fail> {
    let steps = steps_of(rt, alloc, turns)?;
    expect_eq(rt, &named_by(&steps, no), &names);
    drop(steps);
    Ok(())
}

// A reset goes behind the slots that left its extent; the slot of a longer frame behind the upgrade, which is patch 0 (the frame of
// 40,017 bytes takes ten blocks, its pointer patch is 11); and a claimed slot behind the last delete.
fn expect_each_named(rt: &impl Abort, alloc: Global) -> Result<(), Fail> {
    expect_named(rt, alloc, WON_BACK, 33, &[PatchNo(32)])?;
    expect_named(rt, alloc, LONGER, 12, &[PatchNo(11), PatchNo(0)])?;
    expect_named(rt, alloc, CLAIMED, 10, &[PatchNo(9), PatchNo(7)])
}

#[test]
fn patches_name_those_that_they_go_behind(rt: HostRuntime) -> Result<(), Fail> {
    expect_each_named(&rt, rt.alloc())
}

// Of the patches of slots the delete of `a` is the one in slot 1, and the last put's is in slot 0, which the delete of `b` cleared.
const PLACES: &[(u32, usize)] = &[(6, 0), (7, 64), (10, 0)];

fn place_of(steps: &[Step], no: u32) -> Option<(BlockNo, usize)> {
    match nth_made(steps, no) {
        Some(made) => Some((made.block, made.start)),
        None => None,
    }
}

fn expect_places(rt: &impl Abort, alloc: Global) -> Result<(), Fail> {
    let steps = steps_of(rt, alloc, CLAIMED)?;
    for (no, start) in PLACES {
        expect_eq(rt, &place_of(&steps, *no), &Some((BlockNo(1), *start)));
    }
    drop(steps);
    Ok(())
}

#[test]
fn the_lowest_empty_slot_is_claimed(rt: HostRuntime) -> Result<(), Fail> {
    expect_places(&rt, rt.alloc())
}

// A put of `a`, its delete, and a put of `b`: the patches 0 to 2, 3, and 4 to 6. The pointer patches 1 and 5 are one class.
const PUT_TWICE: &[Turn<'static>] = &[
    (Put(b"a", &[1]), Ok(())),
    (Delete(b"a"), Ok(())),
    (Put(b"b", &[2]), Ok(())),
];

// How many patches these are.
const PATCHES: u32 = 7;

const NONE: &[Turn<'static>] = &[(Get(b"a", None), Ok(())), (Get(b"b", None), Ok(()))];

const FIRST: &[Turn<'static>] = &[(Get(b"a", Some(&[1])), Ok(())), (Get(b"b", None), Ok(()))];

const SECOND: &[Turn<'static>] = &[(Get(b"a", None), Ok(())), (Get(b"b", Some(&[2])), Ok(()))];

// The closed sets of these patches: each patch has its own bit, from the right.
const CLOSED: &[u32] = &[
    0b000_0000, 0b000_0001, 0b001_0000, 0b001_0001, 0b011_0011, 0b011_0111, 0b011_1111, 0b111_1111,
];

// The values of `a` and `b` on the disk that holds the set.
fn values_of(set: u32) -> &'static [Turn<'static>] {
    match set {
        0b011_0111 => FIRST,
        0b111_1111 => SECOND,
        _ => NONE,
    }
}

fn bit(no: u32) -> u32 {
    1u32.checked_shl(no).unwrap_or(0)
}

// Lays these patches on the disk.
fn lay_all(blocks: &mut [BlockBytes], steps: &[Step], held: u32) {
    for no in 0..PATCHES {
        if held & bit(no) != 0 {
            if let Some(made) = nth_made(steps, no) {
                lay(blocks, made.block.0 as usize, made.start, made.bytes);
            }
        }
    }
}

fn disk_of(alloc: Global, steps: &[Step], held: u32) -> Result<Vec<BlockBytes>, OutOfMemory> {
    let mut blocks = made(alloc, OF_THREE)?;
    lay_all(&mut blocks, steps, held);
    Ok(blocks)
}

fn expect_opened_of(rt: &impl Abort, alloc: Global, steps: &[Step]) -> Result<(), Fail> {
    for set in CLOSED {
        let blocks = disk_of(alloc, steps, *set)?;
        expect_opened(rt, alloc, blocks, values_of(*set))?;
    }
    Ok(())
}

fn expect_each_opened(rt: &impl Abort, alloc: Global) -> Result<(), Fail> {
    let steps = steps_of(rt, alloc, PUT_TWICE)?;
    let opened = expect_opened_of(rt, alloc, &steps);
    drop(steps);
    opened
}

#[test]
fn the_disk_of_each_closed_set_opens(rt: HostRuntime) -> Result<(), Fail> {
    expect_each_opened(&rt, rt.alloc())
}

fn share_a_byte(one: &Made<'_>, other: &Made<'_>) -> bool {
    one.block == other.block
        && one.start < other.start.saturating_add(other.bytes.len())
        && other.start < one.start.saturating_add(one.bytes.len())
}

// What a patch depends on directly: those that it names, and the earlier ones that share a byte with it.
fn needs_of(steps: &[Step], no: u32) -> u32 {
    let mut needs = 0;
    if let Some(made) = nth_made(steps, no) {
        for name in made.after {
            needs |= bit(name.0);
        }
        for before in 0..no {
            if let Some(other) = nth_made(steps, before) {
                if share_a_byte(&made, &other) {
                    needs |= bit(before);
                }
            }
        }
    }
    needs
}

// Makes one class of those that have one of these patches.
fn join(classes: &mut [u32], patches: u32) {
    let mut joined = patches;
    for class in classes.iter() {
        if *class & patches != 0 {
            joined |= *class;
        }
    }
    for class in classes.iter_mut() {
        if *class & joined != 0 {
            *class = joined;
        }
    }
}

// The class of each patch.
fn classes_of(steps: &[Step]) -> [u32; 7] {
    let mut classes = [1, 2, 4, 8, 16, 32, 64];
    for step in steps {
        if let Step::Merge { a, b } = step {
            join(&mut classes, bit(a.0) | bit(b.0));
        }
    }
    classes
}

// Whether the set has, with each of its patches, what that one can't be without.
fn is_closed(needs: &[u32], set: u32) -> bool {
    for (no, needed) in (0..PATCHES).zip(needs.iter()) {
        if set & bit(no) != 0 && *needed & !set != 0 {
            return false;
        }
    }
    true
}

// What each patch can't be without: its class, and what it depends on directly.
fn all_needs(steps: &[Step], classes: [u32; 7]) -> [u32; 7] {
    let mut needs = classes;
    for (no, needed) in (0..PATCHES).zip(needs.iter_mut()) {
        *needed |= needs_of(steps, no);
    }
    needs
}

// There are seven patches, of which two are one class, and these are their closed sets.
fn expect_listed(rt: &impl Abort, steps: &[Step]) {
    let last = nth_made(steps, PATCHES - 1).is_some();
    let more = nth_made(steps, PATCHES).is_some();
    let classes = classes_of(steps);
    expect_eq(rt, &(last, more, classes[1]), &(true, false, 0b010_0010));
    let needs = all_needs(steps, classes);
    for set in 0..bit(PATCHES) {
        let told = (set, is_closed(&needs, set));
        expect_eq(rt, &told, &(set, CLOSED.contains(&set)));
    }
}

fn expect_no_others(rt: &impl Abort, alloc: Global) -> Result<(), Fail> {
    let steps = steps_of(rt, alloc, PUT_TWICE)?;
    expect_listed(rt, &steps);
    drop(steps);
    Ok(())
}

#[test]
fn there_are_no_other_closed_sets(rt: HostRuntime) -> Result<(), Fail> {
    expect_no_others(&rt, rt.alloc())
}

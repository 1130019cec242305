//! Answers of takes beside a plain walk over all patches.
use super::{bare, expect_taken, is_unentered, join_by};
use patch_model::{OutOfMemory, PatchNo};
use patch_view::{BlockState, TakeRefusal};
use std::alloc::Global;
use std::process::Abort;
use std::test::Fail;

const BYTES: [u8; 4] = [1, 2, 3, 4];

// Lays a patch of one byte.
fn lay_byte(
    rt: &impl Abort,
    block: &mut BlockState,
    no: u32,
    start: usize,
) -> Result<(), OutOfMemory> {
    assert!(rt; start < 4096);
    block.lay(PatchNo(no), start, &[7], &[], false)
}

fn lay_apart(rt: &impl Abort, block: &mut BlockState) -> Result<(), OutOfMemory> {
    for no in 0..1000u32 {
        lay_byte(rt, block, no, no as usize * 4)?;
    }
    Ok(())
}

fn expect_rested_on(rt: &impl Abort, block: &mut BlockState, no: u32, by: u32) {
    let named = TakeRefusal::DependentApplied(PatchNo(by));
    expect_taken(rt, block.take(PatchNo(no)), Err(named));
}

fn expect_free(rt: &impl Abort, block: &mut BlockState, no: u32) {
    expect_taken(rt, block.take(PatchNo(no)), Ok(()));
    block.put_all_back();
}

// One that is written over and one that is named wait for those above, and no other does.
fn take_beside_many(rt: &impl Abort, block: &mut BlockState) -> Result<(), Fail> {
    lay_apart(rt, block)?;
    lay_byte(rt, block, 1000, 2000)?;
    block.lay(PatchNo(1001), 1, &[7], &[PatchNo(600)], false)?;
    expect_rested_on(rt, block, 500, 1000);
    expect_rested_on(rt, block, 600, 1001);
    for no in [0, 499, 501, 599, 601, 999, 1000, 1001] {
        expect_free(rt, block, no);
    }
    Ok(())
}

#[test]
fn one_is_taken_beside_many(rt: HostRuntime) -> Result<(), Fail> {
    let mut block = bare(rt.alloc())?;
    take_beside_many(&rt, &mut block)
}

// Others are merged, not entered and landed, and what rests on a class goes on resting on it.
fn change_others(rt: &impl Abort, block: &mut BlockState) -> Result<(), Fail> {
    for no in 0..4u32 {
        lay_byte(rt, block, no, no as usize)?;
    }
    lay_byte(rt, block, 4, 1)?;
    join_by(block, 0, 1)?;
    expect_rested_on(rt, block, 0, 4);
    assert!(rt; is_unentered(rt, block, 5, 2, &[7]));
    expect_free(rt, block, 2);
    lay_byte(rt, block, 5, 2)?;
    expect_rested_on(rt, block, 2, 5);
    block.depart(PatchNo(3));
    block.land(PatchNo(3));
    expect_rested_on(rt, block, 1, 4);
    expect_free(rt, block, 4);
    Ok(())
}

#[test]
fn what_rests_goes_on_resting(rt: HostRuntime) -> Result<(), Fail> {
    let mut block = bare(rt.alloc())?;
    change_others(&rt, &mut block)
}

// Merges the two patches of a pair that is taken back and put back as one. The pair has the bytes from this one on.
fn merge_pair(
    rt: &impl Abort,
    block: &mut BlockState,
    lower: u32,
    upper: u32,
    start: usize,
) -> Result<(), OutOfMemory> {
    assert!(rt; start <= 100);
    join_by(block, lower, upper)?;
    expect_taken(rt, block.take(PatchNo(upper)), Ok(()));
    assert!(rt; block.bytes().get(start..start + 2) == Some(&[0, 0]));
    block.put_all_back();
    assert!(rt; block.bytes().get(start..start + 2) == Some(&[7, 7]));
    Ok(())
}

// Pairs of patches side by side: first all lower ones, then all upper ones, which name a patch of another block. Each pair is merged.
fn merge_pairs(rt: &impl Abort, block: &mut BlockState) -> Result<(), OutOfMemory> {
    for at in 0..40u32 {
        lay_byte(rt, block, at + 1, at as usize * 2)?;
    }
    for at in 0..40u32 {
        let start = at as usize * 2 + 1;
        block.lay(PatchNo(at + 41), start, &[7], &[PatchNo(0)], false)?;
    }
    for at in 0..40u32 {
        merge_pair(rt, block, at + 1, at + 41, at as usize * 2)?;
    }
    Ok(())
}

#[test]
fn pairs_far_apart_are_merged(rt: HostRuntime) -> Result<(), Fail> {
    let mut block = bare(rt.alloc())?;
    merge_pairs(&rt, &mut block)?;
    Ok(())
}

// Pairs of which the upper patch lies over the lower one's byte and names it.
fn merge_covering_pairs(rt: &impl Abort, block: &mut BlockState) -> Result<(), OutOfMemory> {
    for at in 0..40u32 {
        lay_byte(rt, block, at + 1, at as usize * 2)?;
    }
    for at in 0..40u32 {
        block.lay(
            PatchNo(at + 41),
            at as usize * 2,
            &[7, 7],
            &[PatchNo(at + 1)],
            false,
        )?;
    }
    for at in 0..40u32 {
        expect_rested_on(rt, block, at + 1, at + 41);
        merge_pair(rt, block, at + 1, at + 41, at as usize * 2)?;
    }
    Ok(())
}

#[test]
fn pairs_that_share_a_byte_are_merged(rt: HostRuntime) -> Result<(), Fail> {
    let mut block = bare(rt.alloc())?;
    merge_covering_pairs(&rt, &mut block)?;
    Ok(())
}

// How the later patch of each pair rests on the earlier one of the next.
#[derive(Clone, Copy)]
enum Link {
    Byte,
    Name,
}

fn lay_linked(
    rt: &impl Abort,
    block: &mut BlockState,
    at: u32,
    link: Link,
) -> Result<(), OutOfMemory> {
    assert!(rt; at < 40);
    let start = at as usize * 2 + 1;
    match link {
        Link::Byte => block.lay(PatchNo(at + 41), start, &[7, 7], &[], false),
        Link::Name => block.lay(PatchNo(at + 41), start, &[7], &[PatchNo(at + 2)], false),
    }
}

fn lay_linked_pairs(
    rt: &impl Abort,
    block: &mut BlockState,
    link: Link,
) -> Result<(), OutOfMemory> {
    for at in 0..40u32 {
        lay_byte(rt, block, at + 1, at as usize * 2)?;
    }
    for at in 0..39u32 {
        lay_linked(rt, block, at, link)?;
    }
    Ok(())
}

// The class of each pair rests on the next one's, and the first is free.
fn merge_linked_pair(rt: &impl Abort, block: &mut BlockState, at: u32) -> Result<(), OutOfMemory> {
    assert!(rt; at < 40);
    join_by(block, at + 1, at + 41)?;
    expect_rested_on(rt, block, at + 2, at + 1);
    Ok(())
}

fn merge_linked_pairs(
    rt: &impl Abort,
    block: &mut BlockState,
    link: Link,
) -> Result<(), OutOfMemory> {
    lay_linked_pairs(rt, block, link)?;
    for at in 0..39u32 {
        merge_linked_pair(rt, block, at)?;
    }
    expect_free(rt, block, 1);
    Ok(())
}

// The way down is long then: what lies between goes down together.
fn merge_linked_pairs_from_the_last(
    rt: &impl Abort,
    block: &mut BlockState,
    link: Link,
) -> Result<(), OutOfMemory> {
    lay_linked_pairs(rt, block, link)?;
    for passed in 0..39u32 {
        merge_linked_pair(rt, block, 38 - passed)?;
    }
    expect_free(rt, block, 1);
    Ok(())
}

#[test]
fn pairs_that_lie_over_the_next_rest_on_it(rt: HostRuntime) -> Result<(), Fail> {
    let mut block = bare(rt.alloc())?;
    merge_linked_pairs(&rt, &mut block, Link::Byte)?;
    Ok(())
}

#[test]
fn pairs_that_name_the_next_rest_on_it(rt: HostRuntime) -> Result<(), Fail> {
    let mut block = bare(rt.alloc())?;
    merge_linked_pairs(&rt, &mut block, Link::Name)?;
    Ok(())
}

#[test]
fn a_chain_may_be_merged_from_its_end(rt: HostRuntime) -> Result<(), Fail> {
    let mut block = bare(rt.alloc())?;
    merge_linked_pairs_from_the_last(&rt, &mut block, Link::Byte)?;
    Ok(())
}

// A patch that lies over one between the two that are merged, and another one that names such a one, go on resting on it.
fn merge_past_others(rt: &impl Abort, block: &mut BlockState) -> Result<(), OutOfMemory> {
    lay_byte(rt, block, 0, 0)?;
    lay_byte(rt, block, 1, 1)?;
    lay_byte(rt, block, 2, 1)?;
    join_by(block, 0, 2)?;
    expect_rested_on(rt, block, 1, 0);
    lay_byte(rt, block, 3, 9)?;
    block.lay(PatchNo(4), 2, &[7], &[PatchNo(3)], false)?;
    join_by(block, 0, 4)?;
    expect_rested_on(rt, block, 1, 0);
    expect_rested_on(rt, block, 3, 0);
    expect_free(rt, block, 4);
    Ok(())
}

#[test]
fn what_lies_between_two_that_merge_stays_below(rt: HostRuntime) -> Result<(), Fail> {
    let mut block = bare(rt.alloc())?;
    merge_past_others(&rt, &mut block)?;
    Ok(())
}

// The later one of two that are merged rests on one between, and that on another one there: these go on resting, one on the other.
fn merge_over_a_chain(rt: &impl Abort, block: &mut BlockState) -> Result<(), OutOfMemory> {
    lay_byte(rt, block, 0, 0)?;
    lay_byte(rt, block, 1, 9)?;
    block.lay(PatchNo(2), 1, &[7], &[PatchNo(1)], false)?;
    lay_byte(rt, block, 3, 5)?;
    lay_byte(rt, block, 4, 1)?;
    join_by(block, 0, 4)?;
    expect_rested_on(rt, block, 1, 2);
    expect_rested_on(rt, block, 2, 0);
    expect_free(rt, block, 3);
    expect_free(rt, block, 4);
    Ok(())
}

#[test]
fn what_lies_between_may_rest_on_another(rt: HostRuntime) -> Result<(), Fail> {
    let mut block = bare(rt.alloc())?;
    merge_over_a_chain(&rt, &mut block)?;
    Ok(())
}

// The later one of two that are merged rests on many between, more than go down one by one.
fn merge_over_many(rt: &impl Abort, block: &mut BlockState) -> Result<(), OutOfMemory> {
    lay_byte(rt, block, 0, 0)?;
    for no in 1..13u32 {
        lay_byte(rt, block, no, no as usize)?;
    }
    block.lay(PatchNo(13), 1, &[7; 12], &[], false)?;
    join_by(block, 0, 13)?;
    for no in 1..13u32 {
        expect_rested_on(rt, block, no, 0);
    }
    expect_free(rt, block, 13);
    Ok(())
}

#[test]
fn many_may_lie_between(rt: HostRuntime) -> Result<(), Fail> {
    let mut block = bare(rt.alloc())?;
    merge_over_many(&rt, &mut block)?;
    Ok(())
}

// A patch as the plain walk knows it.
#[derive(Clone, Copy)]
struct Plain {
    no: u32,
    start: usize,
    stop: usize,
    named: Option<u32>,
    class: u32,
    live: bool,
}

fn touch(a: &Plain, b: &Plain) -> bool {
    a.start <= b.stop && b.start <= a.stop
}

// Whether a patch depends directly on one of another class.
fn rests_on(later: &Plain, earlier: &Plain) -> bool {
    let meet = later.start < earlier.stop && earlier.start < later.stop;
    earlier.live
        && later.live
        && earlier.no < later.no
        && earlier.class != later.class
        && (meet || later.named == Some(earlier.no))
}

fn least_above(patches: &[Plain], earlier: &Plain) -> Option<u32> {
    let mut least: Option<u32> = None;
    for later in patches {
        if rests_on(later, earlier) {
            least = Some(least.map_or(later.class, |name| name.min(later.class)));
        }
    }
    least
}

// The least name of a class that depends directly on this one.
fn least_dependent(patches: &[Plain], class: u32) -> Option<u32> {
    let mut least: Option<u32> = None;
    for earlier in patches {
        if earlier.class == class {
            if let Some(name) = least_above(patches, earlier) {
                least = Some(least.map_or(name, |before| before.min(name)));
            }
        }
    }
    least
}

// Whether a patch rests on a class other than this.
fn rests_on_another(patches: &[Plain], later: &Plain, class: u32) -> bool {
    patches.iter().any(|earlier| earlier.class != class && rests_on(later, earlier))
}

fn class_rests(patches: &[Plain], class: u32) -> bool {
    patches.iter().any(|later| later.class == class && rests_on_another(patches, later, class))
}

fn right_answer(patches: &[Plain], patch: &Plain) -> Result<(), TakeRefusal> {
    if !patch.live {
        return Err(TakeRefusal::Unknown);
    }
    match least_dependent(patches, patch.class) {
        Some(name) => Err(TakeRefusal::DependentApplied(PatchNo(name))),
        None => Ok(()),
    }
}

fn expect_right(rt: &impl Abort, block: &mut BlockState, patches: &[Plain], patch: &Plain) {
    let want = right_answer(patches, patch);
    expect_taken(rt, block.take(PatchNo(patch.no)), want);
    block.put_all_back();
}

fn drawn(seed: u32) -> u32 {
    seed.wrapping_mul(1_664_525).wrapping_add(1_013_904_223)
}

// A patch of one to four of the first 64 bytes; every third names an earlier one.
fn draw_patch(no: u32, seed: u32) -> Plain {
    let start = (seed >> 8) as usize % 60;
    let long = (seed >> 20) as usize % 4 + 1;
    let named = if seed >> 16 & 3 == 0 && no > 0 {
        Some((seed >> 4) % no)
    } else {
        None
    };
    Plain {
        no,
        start,
        stop: start + long,
        named,
        class: no,
        live: true,
    }
}

fn lay_plain(rt: &impl Abort, block: &mut BlockState, patch: &Plain) -> Result<(), OutOfMemory> {
    let long = patch.stop.saturating_sub(patch.start);
    assert!(rt; long <= 4 && patch.start <= 100);
    match patch.named {
        Some(named) => block.lay(
            PatchNo(patch.no),
            patch.start,
            &BYTES[..long],
            &[PatchNo(named)],
            false,
        ),
        None => block.lay(PatchNo(patch.no), patch.start, &BYTES[..long], &[], false),
    }
}

// Joins the newest patch with one that it touches, if it rests on no other class.
fn join_newest(
    block: &mut BlockState,
    patches: &mut [Plain],
    newest: &Plain,
    other: &Plain,
) -> Result<(), OutOfMemory> {
    if !other.live || !newest.live || newest.class != newest.no || other.class == newest.no {
        return Ok(());
    }
    if !touch(newest, other) || rests_on_another(patches, newest, other.class) {
        return Ok(());
    }
    join_by(block, newest.no, other.no)?;
    for patch in patches.iter_mut() {
        if patch.no == newest.no {
            patch.class = other.class;
        }
    }
    Ok(())
}

fn land(block: &mut BlockState, patches: &mut [Plain], class: u32) {
    if class_rests(patches, class) {
        return;
    }
    block.depart(PatchNo(class));
    block.land(PatchNo(class));
    for patch in patches.iter_mut() {
        if patch.class == class {
            patch.live = false;
        }
    }
}

// Lays a patch, may merge it and land a class, and takes each patch in turn.
fn round(
    rt: &impl Abort,
    block: &mut BlockState,
    patches: &mut Vec<Plain>,
    no: u32,
    seed: u32,
) -> Result<(), Fail> {
    let newest = draw_patch(no, seed);
    lay_plain(rt, block, &newest)?;
    patches.push(newest)?;
    let at = (seed >> 12) as usize % patches.len();
    let other = patches[at];
    if seed >> 28 & 1 == 0 {
        join_newest(block, patches, &newest, &other)?;
    }
    if seed >> 29 == 0 {
        land(block, patches, other.class);
    }
    for patch in patches.iter() {
        expect_right(rt, block, patches, patch);
    }
    Ok(())
}

fn go_rounds(
    rt: &impl Abort,
    block: &mut BlockState,
    patches: &mut Vec<Plain>,
    first: u32,
) -> Result<(), Fail> {
    let mut seed = first;
    for no in 0..60u32 {
        seed = drawn(seed);
        round(rt, block, patches, no, seed)?;
    }
    Ok(())
}

fn go_from(rt: &impl Abort, alloc: Global, first: u32) -> Result<(), Fail> {
    let mut block = bare(alloc)?;
    let mut patches = Vec::new(alloc);
    go_rounds(rt, &mut block, &mut patches, first)
}

#[test]
fn takes_answer_as_a_plain_walk(rt: HostRuntime) -> Result<(), Fail> {
    for first in [1, 7, 12_345] {
        go_from(&rt, rt.alloc(), first)?;
    }
    Ok(())
}

//! Memory that is given back, and each allocation refused in turn.
use super::{bare, expect_bytes, expect_eq, expect_taken, has_joint, is_unentered, join_by};
use linked_list_allocator::LocalHeap;
use patch_model::{OutOfMemory, PatchNo};
use patch_view::{BlockState, TakeRefusal};
use std::alloc::Global;
use std::process::Abort;
use std::test::Fail;

// What is done to a block in a heap.
#[derive(Clone, Copy)]
enum Course {
    SaveWhatMayGoBack,
    KeepFewNumbers,
    KeepNoMissedNumber,
    TakeMemoryOnce,
    TakeOneIn,
}

fn follow(
    rt: &impl Abort,
    heap: &LocalHeap,
    block: &mut BlockState<&LocalHeap>,
    course: Course,
) -> Result<(), Fail> {
    match course {
        Course::SaveWhatMayGoBack => save_what_may_go_back(rt, heap, block),
        Course::KeepFewNumbers => keep_few_numbers(rt, heap, block),
        Course::KeepNoMissedNumber => keep_no_missed_number(rt, heap, block),
        Course::TakeMemoryOnce => take_memory_once(rt, heap, block),
        Course::TakeOneIn => take_one_in(rt, heap, block),
    }
}

fn follow_in_heap(rt: &impl Abort, alloc: Global, course: Course) -> Result<(), Fail> {
    let heap = LocalHeap::new(alloc, 16384)?;
    let mut block = bare(&heap)?;
    follow(rt, &heap, &mut block, course)
}

fn lay_one_over_another(block: &mut BlockState<&LocalHeap>) -> Result<(), OutOfMemory> {
    block.lay(PatchNo(0), 0, &[1; 500], &[], false)?;
    block.lay(PatchNo(1), 0, &[2; 500], &[PatchNo(0)], false)
}

// Lays a patch of 500 bytes. How much more memory is used then.
fn lay_more(
    heap: &LocalHeap,
    block: &mut BlockState<&LocalHeap>,
    no: u32,
    hard: bool,
) -> Result<usize, OutOfMemory> {
    let before = heap.used();
    block.lay(PatchNo(no), 0, &[3; 500], &[], hard)?;
    Ok(heap.used().saturating_sub(before))
}

// Of a hard patch no bytes are saved, and one that isn't entered gives back what was taken for it.
fn save_what_may_go_back(
    rt: &impl Abort,
    heap: &LocalHeap,
    block: &mut BlockState<&LocalHeap>,
) -> Result<(), Fail> {
    lay_one_over_another(block)?;
    assert!(rt; lay_more(heap, block, 2, false)? >= 500);
    expect_eq(rt, &lay_more(heap, block, 3, true)?, &0);
    let before = heap.used();
    assert!(rt; is_unentered(rt, block, 4, 0, &[3; 500]));
    expect_eq(rt, &heap.used(), &before);
    Ok(())
}

#[test]
fn a_hard_patch_takes_no_memory_for_its_bytes(rt: HostRuntime) -> Result<(), Fail> {
    follow_in_heap(&rt, rt.alloc(), Course::SaveWhatMayGoBack)
}

fn lay_hard(
    block: &mut BlockState<&LocalHeap>,
    no: u32,
    after: &[PatchNo],
) -> Result<(), OutOfMemory> {
    block.lay(PatchNo(no), 0, &[1; 500], after, true)
}

// The lists of a patch with no more than three names take no memory, and those of one with four do.
fn keep_few_numbers(
    rt: &impl Abort,
    heap: &LocalHeap,
    block: &mut BlockState<&LocalHeap>,
) -> Result<(), Fail> {
    lay_hard(block, 0, &[])?;
    lay_hard(block, 1, &[PatchNo(0)])?;
    let one = heap.used();
    lay_hard(block, 2, &[PatchNo(1), PatchNo(0)])?;
    lay_hard(block, 3, &[PatchNo(2), PatchNo(1), PatchNo(0)])?;
    expect_eq(rt, &heap.used(), &one);
    lay_hard(block, 4, &[PatchNo(3), PatchNo(2), PatchNo(1), PatchNo(0)])?;
    assert!(rt; one < heap.used());
    Ok(())
}

#[test]
fn few_numbers_take_no_memory(rt: HostRuntime) -> Result<(), Fail> {
    follow_in_heap(&rt, rt.alloc(), Course::KeepFewNumbers)
}

// Of numbers below that of the block's first patch, or between those of two of its patches, none is kept, so they take no memory,
// however many patches the block has.
fn keep_no_missed_number(
    rt: &impl Abort,
    heap: &LocalHeap,
    block: &mut BlockState<&LocalHeap>,
) -> Result<(), Fail> {
    for half in 10..30u32 {
        lay_hard(block, half * 2, &[])?;
    }
    let before = heap.used();
    lay_hard(
        block,
        60,
        &[PatchNo(5), PatchNo(21), PatchNo(33), PatchNo(57)],
    )?;
    expect_eq(rt, &heap.used(), &before);
    Ok(())
}

#[test]
fn missed_numbers_take_no_memory(rt: HostRuntime) -> Result<(), Fail> {
    follow_in_heap(&rt, rt.alloc(), Course::KeepNoMissedNumber)
}

fn lay_two_that_touch(block: &mut BlockState<&LocalHeap>) -> Result<(), OutOfMemory> {
    block.lay(PatchNo(0), 0, &[1; 500], &[], false)?;
    block.lay(PatchNo(1), 400, &[2; 500], &[], false)
}

// A joint that is let go keeps no memory.
fn draw_and_let_go(
    rt: &impl Abort,
    heap: &LocalHeap,
    block: &BlockState<&LocalHeap>,
) -> Result<(), Fail> {
    let apart = heap.used();
    assert!(rt; has_joint(block, 1, 0)?);
    expect_eq(rt, &heap.used(), &apart);
    Ok(())
}

// How much memory is used while the joint of the first patch and another isn't in place yet.
fn join_drawn(
    heap: &LocalHeap,
    block: &mut BlockState<&LocalHeap>,
    other: u32,
) -> Result<usize, OutOfMemory> {
    let joint = block.joint(PatchNo(0), PatchNo(other))?;
    let drawn = heap.used();
    block.join_by(joint);
    Ok(drawn)
}

fn join_in_place(
    rt: &impl Abort,
    heap: &LocalHeap,
    block: &mut BlockState<&LocalHeap>,
) -> Result<(), Fail> {
    let apart = heap.used();
    let drawn = join_drawn(heap, block, 1)?;
    assert!(rt; apart < drawn && heap.used() < drawn);
    Ok(())
}

// The two of these bytes from this place on.
fn expect_two(rt: &impl Abort, bytes: &[u8], from: usize, want: [u8; 2]) {
    let two = bytes.get(from..from.saturating_add(2));
    expect_eq(rt, &two, &Some(want.as_slice()));
}

fn expect_joined(rt: &impl Abort, block: &mut BlockState<&LocalHeap>) {
    expect_taken(rt, block.take(PatchNo(0)), Ok(()));
    expect_two(rt, block.bytes(), 399, [0, 0]);
}

fn take_memory_once(
    rt: &impl Abort,
    heap: &LocalHeap,
    block: &mut BlockState<&LocalHeap>,
) -> Result<(), Fail> {
    lay_two_that_touch(block)?;
    draw_and_let_go(rt, heap, block)?;
    join_in_place(rt, heap, block)?;
    expect_joined(rt, block);
    Ok(())
}

#[test]
fn a_joint_takes_memory_once(rt: HostRuntime) -> Result<(), Fail> {
    follow_in_heap(&rt, rt.alloc(), Course::TakeMemoryOnce)
}

// Two patches that are one, and a third on some of their bytes.
fn lay_one_within(block: &mut BlockState<&LocalHeap>) -> Result<(), OutOfMemory> {
    lay_one_over_another(block)?;
    block.join(PatchNo(0), PatchNo(1))?;
    block.lay(PatchNo(2), 100, &[3; 200], &[PatchNo(1)], false)
}

// The first class saved the bytes of both, and has room for the other's number: its record stays, and the other's goes.
fn take_one_in(
    rt: &impl Abort,
    heap: &LocalHeap,
    block: &mut BlockState<&LocalHeap>,
) -> Result<(), Fail> {
    lay_one_within(block)?;
    let apart = heap.used();
    expect_eq(rt, &join_drawn(heap, block, 2)?, &apart);
    assert!(rt; heap.used() < apart);
    expect_two(rt, block.cached(), 99, [2, 3]);
    expect_taken(rt, block.take(PatchNo(2)), Ok(()));
    expect_two(rt, block.bytes(), 99, [0, 0]);
    Ok(())
}

#[test]
fn a_class_takes_one_in_without_memory(rt: HostRuntime) -> Result<(), Fail> {
    follow_in_heap(&rt, rt.alloc(), Course::TakeOneIn)
}

// Makes the first two patches one, at once or in two steps.
fn merge(block: &mut BlockState<&LocalHeap>, at_once: bool) -> Result<(), OutOfMemory> {
    if at_once {
        return block.join(PatchNo(0), PatchNo(1));
    }
    join_by(block, 0, 1)
}

fn expect_nothing_laid(rt: &impl Abort, block: &mut BlockState<&LocalHeap>) {
    expect_bytes(rt, block.cached(), [0, 0, 0, 0]);
    expect_taken(rt, block.take(PatchNo(0)), Err(TakeRefusal::Unknown));
}

fn expect_one_laid(rt: &impl Abort, block: &mut BlockState<&LocalHeap>) {
    expect_bytes(rt, block.cached(), [1, 2, 3, 0]);
    expect_taken(rt, block.take(PatchNo(1)), Err(TakeRefusal::Unknown));
    expect_taken(rt, block.take(PatchNo(0)), Ok(()));
}

fn expect_two_laid(rt: &impl Abort, block: &mut BlockState<&LocalHeap>) {
    expect_bytes(rt, block.cached(), [1, 2, 4, 5]);
    let named = TakeRefusal::DependentApplied(PatchNo(1));
    expect_taken(rt, block.take(PatchNo(0)), Err(named));
}

fn expect_merged(rt: &impl Abort, block: &mut BlockState<&LocalHeap>) {
    expect_taken(rt, block.take(PatchNo(1)), Ok(()));
    expect_bytes(rt, block.bytes(), [0, 0, 0, 0]);
}

// Lays two patches and makes them one, and tells whether all was done: after a refusal the block shows what it showed
// before.
fn grow(rt: &impl Abort, block: &mut BlockState<&LocalHeap>, at_once: bool) -> bool {
    let first = block.lay(PatchNo(0), 0, &[1, 2, 3], &[], false);
    if first.is_err() {
        expect_nothing_laid(rt, block);
        return false;
    }
    let second = block.lay(PatchNo(1), 2, &[4, 5], &[PatchNo(0)], false);
    if second.is_err() {
        expect_one_laid(rt, block);
        return false;
    }
    if merge(block, at_once).is_err() {
        expect_two_laid(rt, block);
        return false;
    }
    expect_merged(rt, block);
    true
}

// Whether a block grows in a heap of this size.
fn grow_in(rt: &impl Abort, alloc: Global, size: usize, at_once: bool) -> Result<bool, Fail> {
    let heap = LocalHeap::new(alloc, size)?;
    match bare(&heap) {
        Ok(mut block) => Ok(grow(rt, &mut block, at_once)),
        Err(_) => Ok(false),
    }
}

// Heaps of rising sizes, of which some are too small and one is large enough.
fn grow_from_nothing(rt: &impl Abort, alloc: Global, at_once: bool) -> Result<(), Fail> {
    for size in 0..600usize {
        if grow_in(rt, alloc, 4096 + size * 16, at_once)? {
            assert!(rt; size > 8);
            return Ok(());
        }
    }
    Err(Fail::from("refused in the largest heap"))
}

#[test]
fn each_allocation_is_refused_in_turn(rt: HostRuntime) -> Result<(), Fail> {
    grow_from_nothing(&rt, rt.alloc(), true)?;
    grow_from_nothing(&rt, rt.alloc(), false)
}

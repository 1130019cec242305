//! What no contract says: worked values, texts, and refused memory.
ghost use Rattle.std.specs.Prelude.{◌≡◌, ◌+◌, ◌≤◌, All, IfOk, length};
ghost use Rattle.patch_model.specs.Pile.{end};

use crate::expecting::expect_eq;
use linked_list_allocator::LocalHeap;
use patch_model::{
    BLOCK, BlockBytes, BlockNo, Items, Names, Numbers, OutOfMemory, Patch, PatchNo, RefusalKind,
    Refuses, Run, Step, Steps, Undo, pile,
};
use std::alloc::{AllocError, Allocator, Global};
use std::process::Abort;
use std::test::Fail;

// A patch of block 0 in memory of the caller's.
fn patch<A: Allocator + Copy>(
    alloc: A,
    no: u32,
    start: usize,
    bytes: &[u8],
) -> Result<Patch<A>, AllocError>
    ensures { IfOk result (λ p. end p ≡ start + length bytes.now) }
{
    Ok(Patch {
        no: PatchNo(no),
        block: BlockNo(0),
        start,
        bytes: Items::from_vec(Vec::from_slice(alloc, bytes)?),
        after: Items::from_vec(Vec::new(alloc)),
        undo: Undo::Keep,
    })
}

// Two patches of which the second covers the end of the first.
fn two_patches<A: Allocator + Copy>(alloc: A) -> Result<Vec<Patch<A>, A>, OutOfMemory>
    ensures { IfOk result (λ patches. All (λ p. end p ≤ BLOCK) patches.items) }
{
    let mut patches = Vec::new(alloc);
    patches.push(patch(alloc, 0, 0, &[0xa1, 0xa2, 0xa3, 0xa4])?)?;
    patches.push(patch(alloc, 1, 2, &[0xb1, 0xb2, 0xb3, 0xb4])?)?;
    Ok(patches)
}

// The patches laid on zeros.
fn lay_two<A: Allocator + Copy>(alloc: A) -> Result<BlockBytes<A>, OutOfMemory> {
    let patches = two_patches(alloc)?;
    let zeros = BlockBytes::zeros(alloc)?;
    pile(alloc, &zeros, &patches)
}

fn expect_laid(rt: &impl Abort, bytes: &[u8]) {
    assert!(rt; bytes.len() == BLOCK);
    let (front, rest) = bytes.split_at(6);
    let want = [0xa1, 0xa2, 0xb1, 0xb2, 0xb3, 0xb4];
    expect_eq(rt, &front, &want.as_slice());
    expect_eq(rt, &rest, &[0; BLOCK - 6].as_slice());
}

// A block of these bytes has them still, when it was made of its own vector.
fn expect_copied(rt: &impl Abort, alloc: Global, bytes: &[u8]) -> Result<(), OutOfMemory> {
    assert!(rt; bytes.len() == BLOCK);
    let copy = BlockBytes::from_slice(alloc, bytes)?;
    let again = BlockBytes::from_vec(copy.into_vec());
    expect_eq(rt, &again.as_slice(), &bytes);
    Ok(())
}

#[test]
fn lays_patches_in_order(rt: HostRuntime) -> Result<(), Fail> {
    let block = lay_two(rt.alloc())?;
    expect_laid(&rt, block.as_slice());
    expect_copied(&rt, rt.alloc(), block.as_slice())?;
    Ok(())
}

// Lays the patches in a heap of this size. Whether it was too small.
fn is_refused(rt: &impl Abort, alloc: Global, size: usize) -> Result<bool, OutOfMemory> {
    let heap = LocalHeap::new(alloc, size)?;
    match lay_two(&heap) {
        Ok(block) => {
            expect_eq(rt, &block.as_slice()[2], &0xb1);
            Ok(false)
        }
        Err(OutOfMemory) => Ok(true),
    }
}

// Each heap is larger than the one before it, so that one allocation more succeeds now and then.
#[test]
fn refuses_each_allocation_in_turn(rt: HostRuntime) -> Result<(), Fail> {
    for turn in 0..1200usize {
        if !is_refused(&rt, rt.alloc(), 64 + turn * 16)? {
            expect_eq(&rt, &(&turn, &(turn > 200)), &(&turn, &true));
            return Ok(());
        }
    }
    Err(Fail::from("refused in the largest heap"))
}

const TWO_NUMBERS: [PatchNo; 2] = [PatchNo(3), PatchNo(5)];

fn expect_numbers_back(rt: &impl Abort, alloc: Global) -> Result<(), Fail> {
    let numbers: Numbers = Items::from_vec(TWO_NUMBERS.to_vec(alloc)?);
    expect_eq(rt, &numbers.as_slice(), &TWO_NUMBERS.as_slice());
    let numbers = numbers.into_vec();
    expect_eq(rt, &numbers.as_slice(), &TWO_NUMBERS.as_slice());
    Ok(())
}

fn two_steps(alloc: Global) -> Result<Vec<Step>, AllocError> {
    let mut steps = Vec::new(alloc);
    steps.push(Step::Send { block: BlockNo(7) })?;
    steps.push(Step::Merge {
        a: PatchNo(1),
        b: PatchNo(2),
    })?;
    Ok(steps)
}

fn begins_with_send(steps: &[Step]) -> bool {
    matches!(steps.first(), Some(Step::Send { block }) if *block == BlockNo(7))
}

#[test]
fn lists_give_their_vectors_back(rt: HostRuntime) -> Result<(), Fail> {
    expect_numbers_back(&rt, rt.alloc())?;
    let steps = Steps::from_vec(two_steps(rt.alloc())?);
    assert!(rt; begins_with_send(steps.as_slice()));
    expect_eq(&rt, &steps.into_vec().len(), &2);
    Ok(())
}

const KINDS: [(RefusalKind, u8, &str); 12] = [
    (RefusalKind::OutOfMemory, 1, "OutOfMemory"),
    (RefusalKind::NoSuchBlock, 2, "NoSuchBlock"),
    (RefusalKind::DependentApplied, 11, "DependentApplied"),
    (RefusalKind::TooManyLive, 18, "TooManyLive"),
    (RefusalKind::Stranger, 26, "Stranger"),
    (RefusalKind::GenerationSpent, 38, "GenerationSpent"),
    (RefusalKind::DuplicateKey, 51, "DuplicateKey"),
    (RefusalKind::NoThread, 60, "NoThread"),
    (RefusalKind::AlreadyVersion2, 61, "AlreadyVersion2"),
    (RefusalKind::Live, 62, "Live"),
    (RefusalKind::NotResident, 63, "NotResident"),
    (RefusalKind::SyncFailed, 64, "SyncFailed"),
];

// The number of a kind, and its name, which is its text.
fn expect_kind(
    rt: &impl Abort,
    alloc: Global,
    kind: RefusalKind,
    code: u8,
    name: &str,
) -> Result<(), Fail> {
    expect_eq(rt, &kind.code(), &code);
    expect_eq(rt, &kind.name(), &name);
    expect_eq(rt, &format!(in alloc; "{kind}")?.as_str(), &name);
    Ok(())
}

#[test]
fn refusals_have_numbers_and_names(rt: HostRuntime) -> Result<(), Fail> {
    for (kind, code, name) in &KINDS {
        expect_kind(&rt, rt.alloc(), *kind, *code, name)?;
    }
    expect_eq(&rt, &OutOfMemory.kind(), &RefusalKind::OutOfMemory);
    expect_eq(&rt, &OutOfMemory.code(), &1);
    expect_eq(&rt, &OutOfMemory.name(), &"OutOfMemory");
    expect_eq(
        &rt,
        &format!(in rt.alloc(); "{} {} {OutOfMemory}", PatchNo(12), BlockNo(4095))?.as_str(),
        &"12 4095 OutOfMemory",
    );
    Ok(())
}

const NUMBERS: [PatchNo; 4] = [PatchNo(9), PatchNo(3), PatchNo(7), PatchNo(1)];

// The numbers of some names, in memory of the heap's owner.
fn numbers_of(alloc: Global, names: &Names<&LocalHeap>) -> Result<Vec<PatchNo>, OutOfMemory> {
    names.lend().to_vec(alloc)
}

// Three names at most take no memory, and neither does a copy of them; four do.
fn name_some(rt: &impl Abort, alloc: Global, heap: &LocalHeap) -> Result<(), OutOfMemory> {
    let none = heap.used();
    let some = Names::of_some(Some(PatchNo(9)), None, Some(PatchNo(7)));
    expect_eq(
        rt,
        &numbers_of(alloc, &some)?.as_slice(),
        &[PatchNo(9), PatchNo(7)].as_slice(),
    );
    let first_three = [PatchNo(9), PatchNo(3), PatchNo(7)];
    let few = Names::from_slice(heap, &first_three)?.copied(heap)?;
    expect_eq(
        rt,
        &numbers_of(alloc, &few)?.as_slice(),
        &first_three.as_slice(),
    );
    expect_eq(rt, &heap.used(), &none);
    let many = Names::from_slice(heap, &NUMBERS)?;
    assert!(rt; none < heap.used());
    expect_eq(
        rt,
        &numbers_of(alloc, &many.copied(heap)?)?.as_slice(),
        &NUMBERS.as_slice(),
    );
    Ok(())
}

#[test]
fn few_names_take_no_memory(rt: HostRuntime) -> Result<(), Fail> {
    let heap = LocalHeap::new(rt.alloc(), 4_096)?;
    name_some(&rt, rt.alloc(), &heap)?;
    Ok(())
}

#[test]
fn names_in_runs_are_copied(rt: HostRuntime) -> Result<(), Fail> {
    let runs = Vec::from_slice(rt.alloc(), &[Run { first: 3, last: 5 }])?;
    let names = Names::in_runs(runs).copied(rt.alloc())?;
    let wanted = [PatchNo(3), PatchNo(4), PatchNo(5)];
    let numbers = names.lend().to_vec(rt.alloc())?;
    expect_eq(&rt, &numbers.as_slice(), &wanted.as_slice());
    Ok(())
}

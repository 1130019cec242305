//! Names in runs, beside a list of the same numbers.
use super::{bare, expect_eq, expect_taken};
use linked_list_allocator::LocalHeap;
use patch_model::{Named, OutOfMemory, PatchNo, Run};
use patch_view::{BlockState, TakeRefusal};
use std::alloc::{Allocator, Global};
use std::process::Abort;
use std::test::Fail;

// The patch that names others.
const TOP: u32 = 100_000;

// Lays a patch of one byte that names these.
fn lay_naming<A: Allocator + Clone>(
    rt: &impl Abort,
    block: &mut BlockState<A>,
    no: u32,
    start: usize,
    after: Named<'_>,
) -> Result<(), OutOfMemory> {
    assert!(rt; start < 4096);
    block.lay_if(PatchNo(no), start, &[7], after, false, &mut (), |_| Ok(()))
}

// Patches of one byte, side by side, and how many each time are one class.
#[derive(Clone, Copy)]
struct Shape {
    patches: u32,
    together: u32,
}

static FEW: Shape = Shape {
    patches: 3,
    together: 1,
};

static MANY: Shape = Shape {
    patches: 40,
    together: 1,
};

static MERGED: Shape = Shape {
    patches: 40,
    together: 10,
};

fn lay_shape(rt: &impl Abort, block: &mut BlockState, shape: Shape) -> Result<(), OutOfMemory> {
    assert!(rt; shape.together > 0);
    for no in 0..shape.patches {
        lay_naming(rt, block, no, no as usize, Named::Listed(&[]))?;
        let first = no - no % shape.together;
        block.join(PatchNo(first), PatchNo(no))?;
    }
    Ok(())
}

fn list_run(run: &Run, numbers: &mut Vec<PatchNo>) -> Result<(), OutOfMemory> {
    for no in run.first..run.last {
        numbers.push(PatchNo(no))?;
    }
    Ok(numbers.push(PatchNo(run.last))?)
}

fn list_runs(runs: &[Run], numbers: &mut Vec<PatchNo>) -> Result<(), OutOfMemory> {
    for run in runs {
        list_run(run, numbers)?;
    }
    Ok(())
}

// Two blocks of which one patch names the same numbers.
#[derive(Drop)]
struct Pair {
    in_runs: BlockState,
    listed: BlockState,
}

impl Pair {
    fn lay(&mut self, rt: &impl Abort, shape: Shape) -> Result<(), OutOfMemory> {
        lay_shape(rt, &mut self.in_runs, shape)?;
        lay_shape(rt, &mut self.listed, shape)
    }

    fn lay_top(
        &mut self,
        rt: &impl Abort,
        runs: &[Run],
        numbers: &[PatchNo],
    ) -> Result<(), OutOfMemory> {
        lay_naming(rt, &mut self.in_runs, TOP, 4000, Named::InRuns(runs))?;
        lay_naming(rt, &mut self.listed, TOP, 4000, Named::Listed(numbers))
    }

    // Both answer the same. Whether they refuse it.
    fn refuse_take(&mut self, rt: &impl Abort, no: u32) -> bool {
        let answer = self.in_runs.take(PatchNo(no));
        let is_refused = answer.is_err();
        expect_taken(rt, self.listed.take(PatchNo(no)), answer);
        is_refused
    }

    fn put_all_back(&mut self) {
        self.in_runs.put_all_back();
        self.listed.put_all_back();
    }

    // How many patches can't be taken back before the one that names them.
    fn count_refused(&mut self, rt: &impl Abort, patches: u32) -> u32 {
        let mut refused = 0u32;
        for no in 0..patches {
            if self.refuse_take(rt, no) {
                refused = refused.saturating_add(1);
            }
            self.put_all_back();
        }
        refused
    }

    // Behind the one that names them all can be, and it can't go back before those that it names.
    fn take_top_first(&mut self, rt: &impl Abort, patches: u32, is_held: bool) {
        assert!(rt; !self.refuse_take(rt, TOP));
        for no in 0..patches {
            let _ = self.refuse_take(rt, no);
        }
        let back = self.in_runs.put_back(PatchNo(TOP));
        assert!(rt; back.is_err() == is_held);
        expect_eq(rt, &self.listed.put_back(PatchNo(TOP)), &back);
        self.put_all_back();
    }

    fn compare(
        &mut self,
        rt: &impl Abort,
        shape: Shape,
        runs: &[Run],
        numbers: &[PatchNo],
        refused: u32,
    ) -> Result<(), OutOfMemory> {
        self.lay(rt, shape)?;
        self.lay_top(rt, runs, numbers)?;
        expect_eq(rt, &self.count_refused(rt, shape.patches), &refused);
        self.take_top_first(rt, shape.patches, refused > 0);
        Ok(())
    }
}

fn compare(
    rt: &impl Abort,
    alloc: Global,
    shape: Shape,
    runs: &[Run],
    refused: u32,
) -> Result<(), Fail> {
    let mut numbers = Vec::new(alloc);
    list_runs(runs, &mut numbers)?;
    let in_runs = bare(alloc)?;
    let listed = bare(alloc)?;
    let mut pair = Pair { in_runs, listed };
    let compared = pair.compare(rt, shape, runs, numbers.as_slice(), refused);
    drop(pair);
    Ok(compared?)
}

// Runs from one number to another, and how many patches a patch that names them keeps from being taken: of the few, of the many,
// and of those that are merged, with whose class each goes.
#[derive(Clone, Copy)]
struct Row(&'static [(u32, u32)], u32, u32, u32);

static ROWS: [Row; 13] = [
    Row(&[], 0, 0, 0),
    Row(&[(0, 0)], 1, 1, 10),
    Row(&[(39, 39)], 0, 1, 10),
    Row(&[(40, 60_000)], 0, 0, 0),
    Row(&[(0, 60_000)], 3, 40, 40),
    Row(&[(2, 41)], 1, 38, 40),
    Row(&[(8, 3)], 0, 1, 10),
    Row(&[(60_000, 2)], 1, 1, 10),
    Row(&[(10, 19)], 0, 10, 10),
    Row(&[(9, 10)], 0, 2, 20),
    Row(&[(0, 0), (39, 39)], 1, 2, 20),
    Row(&[(30, 60_000), (5, 5), (29, 31)], 0, 12, 30),
    Row(&[(1, 1), (1, 1), (0, 2)], 3, 3, 10),
];

fn runs_of(alloc: Global, ends: &[(u32, u32)]) -> Result<Vec<Run>, OutOfMemory> {
    let mut runs = Vec::new(alloc);
    for (first, last) in ends {
        runs.push(Run {
            first: *first,
            last: *last,
        })?;
    }
    Ok(runs)
}

fn compare_row(rt: &impl Abort, alloc: Global, row: &Row) -> Result<(), Fail> {
    let Row(ends, few, many, merged) = *row;
    let runs = runs_of(alloc, ends)?;
    compare(rt, alloc, FEW, runs.as_slice(), few)?;
    compare(rt, alloc, MANY, runs.as_slice(), many)?;
    compare(rt, alloc, MERGED, runs.as_slice(), merged)
}

#[test]
fn runs_are_kept_as_their_numbers(rt: HostRuntime) -> Result<(), Fail> {
    for row in &ROWS {
        compare_row(&rt, rt.alloc(), row)?;
    }
    Ok(())
}

static FROM_FIRST: [Run; 1] = [Run {
    first: 0,
    last: 60_000,
}];

static FIRST: [Run; 1] = [Run { first: 0, last: 0 }];

fn lay_hard(block: &mut BlockState<&LocalHeap>, no: u32, runs: &[Run]) -> Result<(), OutOfMemory> {
    let after = Named::InRuns(runs);
    block.lay_if(PatchNo(no), 0, &[1; 500], after, true, &mut (), |_| Ok(()))
}

// However many numbers the runs have, no more than three that are kept take no memory, and four do.
fn keep_few(
    rt: &impl Abort,
    heap: &LocalHeap,
    block: &mut BlockState<&LocalHeap>,
) -> Result<(), Fail> {
    lay_hard(block, 0, &[])?;
    lay_hard(block, 1, &FIRST)?;
    let one = heap.used();
    lay_hard(block, 2, &FROM_FIRST)?;
    lay_hard(block, 3, &FROM_FIRST)?;
    expect_eq(rt, &heap.used(), &one);
    lay_hard(block, 4, &FROM_FIRST)?;
    assert!(rt; one < heap.used());
    Ok(())
}

#[test]
fn few_that_are_kept_take_no_memory(rt: HostRuntime) -> Result<(), Fail> {
    let heap = LocalHeap::new(rt.alloc(), 16384)?;
    let mut block = bare(&heap)?;
    keep_few(&rt, &heap, &mut block)
}

fn lay_three(rt: &impl Abort, block: &mut BlockState<&LocalHeap>) -> Result<(), OutOfMemory> {
    for no in 0..3u32 {
        lay_naming(rt, block, no, no as usize, Named::InRuns(&[]))?;
    }
    Ok(())
}

// How the patch that names three is laid.
#[derive(Clone, Copy, PartialEq, Eq, Debug)]
enum Laid {
    NotBelow,
    Refused,
    Done,
}

// One that is refused changes nothing.
fn lay_fourth(rt: &impl Abort, block: &mut BlockState<&LocalHeap>) -> Laid {
    if lay_naming(rt, block, 3, 4000, Named::InRuns(&FROM_FIRST)).is_err() {
        expect_taken(rt, block.take(PatchNo(3)), Err(TakeRefusal::Unknown));
        expect_taken(rt, block.take(PatchNo(1)), Ok(()));
        return Laid::Refused;
    }
    let named = TakeRefusal::DependentApplied(PatchNo(3));
    expect_taken(rt, block.take(PatchNo(1)), Err(named));
    Laid::Done
}

fn lay_four(rt: &impl Abort, block: &mut BlockState<&LocalHeap>) -> Laid {
    if lay_three(rt, block).is_err() {
        return Laid::NotBelow;
    }
    lay_fourth(rt, block)
}

fn lay_four_in(rt: &impl Abort, alloc: Global, size: usize) -> Result<Laid, Fail> {
    let heap = LocalHeap::new(alloc, size)?;
    match bare(&heap) {
        Ok(mut block) => Ok(lay_four(rt, &mut block)),
        Err(_) => Ok(Laid::NotBelow),
    }
}

// In heaps of rising sizes.
#[test]
fn names_in_runs_are_refused_without_memory(rt: HostRuntime) -> Result<(), Fail> {
    let mut refused = 0u32;
    for size in 0..600usize {
        match lay_four_in(&rt, rt.alloc(), 4096 + size * 16)? {
            Laid::NotBelow => {}
            Laid::Refused => refused = refused.saturating_add(1),
            Laid::Done => {
                assert!(&rt; refused > 0);
                return Ok(());
            }
        }
    }
    Err(Fail::from("refused in the largest heap"))
}

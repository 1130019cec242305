//! Worked rows of views on one block, each state beside the plain piling.
ghost use Rattle.std.specs.Prelude.{◌+◌, ◌≤◌, All, IfOk};
ghost use Rattle.patch_model.specs.Pile.{end};

use super::{
    bare, expect_bytes, expect_eq, expect_taken, expect_without_all, has_joint, is_unentered,
    join_by,
};
use patch_model::{
    BLOCK, BlockBytes, BlockNo, Bytes, Numbers, OutOfMemory, Patch, PatchNo, Undo, pile,
};
use patch_view::{BlockState, BlockView, PutBackRefusal, TakeRefusal};
use std::alloc::Global;
use std::process::Abort;
use std::test::Fail;

// How a patch is taken, or not: the number is that of one above it.
#[derive(Clone, Copy)]
enum Taking {
    Done,
    Unknown,
    InFlight,
    Hard,
    Twice,
    Below(u32),
}

// How a patch is put back, or not: the number is that of one below it.
#[derive(Clone, Copy)]
enum Putting {
    Done,
    NotTaken,
    Above(u32),
}

#[derive(Clone, Copy)]
enum Deed<'a> {
    // Lays a patch of this number at this place: at most four bytes, and the patch that it names.
    Lay(u32, usize, &'a [u8], Option<u32>),
    // Lays a hard patch that names none.
    LayHard(u32, usize, &'a [u8]),
    // A patch that can't be entered elsewhere.
    LayNothing(u32, usize, &'a [u8]),
    Join(u32, u32),
    // Draws a joint up and lets it go. Whether there is one.
    Draw(u32, u32, bool),
    // Draws a joint up and puts it in place.
    JoinBy(u32, u32),
    // Puts in place that there is no joint.
    JoinNothing,
    // Draws a joint up, and makes the second patch durable before it is put in place.
    JoinGone(u32, u32),
    Depart(u32),
    DepartEach(u32, u32),
    Land(u32),
    LandEach,
    Take(u32, Taking),
    Back(u32, Putting),
    TakeAll,
    Restore,
}

// A deed, and which patches are taken after it.
#[derive(Clone, Copy)]
struct Line<'a>(Deed<'a>, &'a [u32]);

fn patch_of(
    rt: &impl Abort,
    alloc: Global,
    no: u32,
    start: usize,
    bytes: &[u8],
) -> Result<Patch, OutOfMemory>
    ensures { IfOk result (λ p. end p ≤ BLOCK) }
{
    assert!(rt; start <= 100 && bytes.len() <= 4);
    let bytes = Vec::from_slice(alloc, bytes)?;
    Ok(Patch {
        no: PatchNo(no),
        block: BlockNo(0),
        start,
        bytes: Bytes::from_vec(bytes),
        after: Numbers::from_vec(Vec::new(alloc)),
        undo: Undo::Keep,
    })
}

// The number, place and bytes of a patch that is laid.
fn laid_by<'a>(deed: &Deed<'a>) -> Option<(u32, usize, &'a [u8])> {
    match deed {
        Deed::Lay(no, start, bytes, _) => Some((*no, *start, *bytes)),
        Deed::LayHard(no, start, bytes) => Some((*no, *start, *bytes)),
        _ => None,
    }
}

// The patches of these lines that aren't out.
fn patches_of(
    rt: &impl Abort,
    alloc: Global,
    lines: &[Line],
    out: &[u32],
) -> Result<Vec<Patch>, OutOfMemory>
    ensures { IfOk result (λ patches. All (λ p. end p ≤ BLOCK) patches.items) }
{
    let mut patches = Vec::new(alloc);
    for line in lines {
        if let Some((no, start, bytes)) = laid_by(&line.0) {
            if !out.contains(&no) {
                patches.push(patch_of(rt, alloc, no, start, bytes)?)?;
            }
        }
    }
    Ok(patches)
}

// What the plain piling leaves of the patches of these lines that aren't out.
fn piled(
    rt: &impl Abort,
    alloc: Global,
    lines: &[Line],
    out: &[u32],
) -> Result<BlockBytes, OutOfMemory> {
    let first = BlockBytes::zeros(alloc)?;
    let patches = patches_of(rt, alloc, lines, out)?;
    pile(alloc, &first, &patches)
}

fn lay(
    rt: &impl Abort,
    block: &mut BlockState,
    no: u32,
    start: usize,
    bytes: &[u8],
    after: Option<u32>,
) -> Result<(), OutOfMemory> {
    assert!(rt; start <= 100 && bytes.len() <= 4);
    match after {
        Some(named) => block.lay(PatchNo(no), start, bytes, &[PatchNo(named)], false),
        None => block.lay(PatchNo(no), start, bytes, &[], false),
    }
}

fn lay_hard(
    rt: &impl Abort,
    block: &mut BlockState,
    no: u32,
    start: usize,
    bytes: &[u8],
) -> Result<(), OutOfMemory> {
    assert!(rt; start <= 100 && bytes.len() <= 4);
    block.lay(PatchNo(no), start, bytes, &[], true)
}

fn join_what_is_gone(block: &mut BlockState, a: u32, b: u32) -> Result<(), OutOfMemory> {
    let joint = block.joint(PatchNo(a), PatchNo(b))?;
    block.depart(PatchNo(b));
    block.land(PatchNo(b));
    block.join_by(joint);
    Ok(())
}

impl Taking {
    fn answer(self) -> Result<(), TakeRefusal> {
        match self {
            Taking::Done => Ok(()),
            Taking::Unknown => Err(TakeRefusal::Unknown),
            Taking::InFlight => Err(TakeRefusal::InFlight),
            Taking::Hard => Err(TakeRefusal::Hard),
            Taking::Twice => Err(TakeRefusal::AlreadyTaken),
            Taking::Below(above) => Err(TakeRefusal::DependentApplied(PatchNo(above))),
        }
    }
}

impl Putting {
    fn answer(self) -> Result<(), PutBackRefusal> {
        match self {
            Putting::Done => Ok(()),
            Putting::NotTaken => Err(PutBackRefusal::NotTaken),
            Putting::Above(below) => Err(PutBackRefusal::DependencyTaken(PatchNo(below))),
        }
    }
}

fn expect_back(
    rt: &impl Abort,
    answer: Result<(), PutBackRefusal>,
    want: Result<(), PutBackRefusal>,
) {
    expect_eq(rt, &answer, &want);
}

// A deed by which patches are laid or merged.
fn make(rt: &impl Abort, block: &mut BlockState, deed: &Deed) -> Result<(), OutOfMemory> {
    match deed {
        Deed::Lay(no, start, bytes, after) => return lay(rt, block, *no, *start, bytes, *after),
        Deed::LayHard(no, start, bytes) => return lay_hard(rt, block, *no, *start, bytes),
        Deed::Join(a, b) => return block.join(PatchNo(*a), PatchNo(*b)),
        Deed::JoinBy(a, b) => return join_by(block, *a, *b),
        Deed::JoinGone(a, b) => return join_what_is_gone(block, *a, *b),
        Deed::Draw(a, b, drawn) => expect_eq(rt, &has_joint(block, *a, *b)?, drawn),
        _ => {}
    }
    Ok(())
}

// A deed that makes nothing.
fn act(rt: &impl Abort, block: &mut BlockState, deed: &Deed) {
    match deed {
        Deed::LayNothing(no, start, bytes) => assert!(rt;
            is_unentered(rt, block, *no, *start, bytes)
        ),
        Deed::JoinNothing => block.join_by(None),
        Deed::Depart(no) => block.depart(PatchNo(*no)),
        Deed::DepartEach(a, b) => block.depart_each(&[PatchNo(*a), PatchNo(*b)]),
        Deed::Land(no) => block.land(PatchNo(*no)),
        Deed::LandEach => block.land_each(),
        Deed::Take(no, taking) => expect_taken(rt, block.take(PatchNo(*no)), taking.answer()),
        Deed::Back(no, putting) => expect_back(rt, block.put_back(PatchNo(*no)), putting.answer()),
        Deed::Restore => block.put_all_back(),
        _ => {} // `make` does it; of `TakeAll` `expect_shown` has a view do it.
    }
}

// After a deed the block shows these bytes.
fn expect_shown(rt: &impl Abort, block: &mut BlockState, deed: &Deed, want: &[u8]) {
    match deed {
        Deed::TakeAll => expect_without_all(rt, block, want),
        _ => assert!(rt; block.bytes() == want),
    }
}

// The last of these lines, after which the block shows the piling of the patches that they lay.
fn step(
    rt: &impl Abort,
    alloc: Global,
    block: &mut BlockState,
    lines: &[Line],
    line: &Line,
) -> Result<(), Fail> {
    make(rt, block, &line.0)?;
    act(rt, block, &line.0);
    let want = piled(rt, alloc, lines, line.1)?;
    expect_shown(rt, block, &line.0, want.as_slice());
    Ok(())
}

fn take_steps(
    rt: &impl Abort,
    alloc: Global,
    block: &mut BlockState,
    lines: &[Line],
) -> Result<(), Fail> {
    for at in 0..lines.len() {
        step(rt, alloc, block, &lines[..at + 1], &lines[at])?;
    }
    Ok(())
}

fn walk(rt: &impl Abort, alloc: Global, lines: &[Line]) -> Result<(), Fail> {
    let mut block = bare(alloc)?;
    take_steps(rt, alloc, &mut block, lines)
}

static ONE_OVER_ANOTHER: [Line<'static>; 12] = [
    Line(Deed::Lay(0, 0, &[0xa1, 0xa2, 0xa3, 0xa4], None), &[]),
    Line(Deed::Lay(1, 2, &[0xb1, 0xb2, 0xb3, 0xb4], None), &[]),
    Line(Deed::Take(0, Taking::Below(1)), &[]),
    Line(Deed::Take(1, Taking::Done), &[1]),
    Line(Deed::Take(0, Taking::Done), &[0, 1]),
    Line(Deed::Back(1, Putting::Above(0)), &[0, 1]),
    Line(Deed::Back(0, Putting::Done), &[1]),
    Line(Deed::Restore, &[]),
    Line(Deed::Join(0, 1), &[]),
    Line(Deed::Take(1, Taking::Done), &[0, 1]),
    Line(Deed::Take(0, Taking::Twice), &[0, 1]),
    Line(Deed::Back(0, Putting::Done), &[]),
];

#[test]
fn the_upper_of_two_is_taken_first(rt: HostRuntime) -> Result<(), Fail> {
    walk(&rt, rt.alloc(), &ONE_OVER_ANOTHER)
}

static THREE_APART: [Line<'static>; 12] = [
    Line(Deed::Lay(0, 0, &[0xaa], None), &[]),
    Line(Deed::Lay(1, 4, &[0xbb], None), &[]),
    Line(Deed::Lay(2, 8, &[0xcc], None), &[]),
    Line(Deed::Take(0, Taking::Done), &[0]),
    Line(Deed::Back(2, Putting::NotTaken), &[0]),
    Line(Deed::Take(2, Taking::Done), &[0, 2]),
    Line(Deed::Restore, &[]),
    Line(Deed::Take(2, Taking::Done), &[2]),
    Line(Deed::Take(0, Taking::Done), &[0, 2]),
    Line(Deed::TakeAll, &[0, 1, 2]),
    Line(Deed::Take(7, Taking::Unknown), &[]),
    Line(Deed::Back(7, Putting::NotTaken), &[]),
];

#[test]
fn patches_apart_are_taken_in_any_order(rt: HostRuntime) -> Result<(), Fail> {
    walk(&rt, rt.alloc(), &THREE_APART)
}

static NAMED_AND_HARD: [Line<'static>; 11] = [
    Line(Deed::Lay(0, 0, &[0xaa], None), &[]),
    Line(Deed::Lay(1, 4, &[0xbb], Some(0)), &[]),
    Line(Deed::Take(0, Taking::Below(1)), &[]),
    Line(Deed::Take(1, Taking::Done), &[1]),
    Line(Deed::Take(1, Taking::Twice), &[1]),
    Line(Deed::Restore, &[]),
    Line(Deed::LayHard(2, 8, &[0x11, 0x12]), &[]),
    Line(Deed::Take(2, Taking::Hard), &[]),
    Line(Deed::Lay(3, 9, &[0x22, 0x23], None), &[]),
    Line(Deed::Take(3, Taking::Done), &[3]),
    Line(Deed::Restore, &[]),
];

#[test]
fn named_ones_wait_and_hard_ones_stay(rt: HostRuntime) -> Result<(), Fail> {
    walk(&rt, rt.alloc(), &NAMED_AND_HARD)
}

// The place of the merge in the walk after it.
const MERGE: usize = 6;

static MERGED_OVER_A_GAP: [Line<'static>; 21] = [
    Line(Deed::Lay(0, 0, &[0xaa, 0xaa], None), &[]),
    Line(Deed::Lay(1, 4, &[0xbb, 0xbb], None), &[]),
    Line(Deed::Lay(2, 2, &[0xcc, 0xcc, 0xcc], None), &[]),
    Line(Deed::Draw(0, 2, true), &[]),
    Line(Deed::Take(0, Taking::Done), &[0]),
    Line(Deed::Restore, &[]),
    Line(Deed::Join(0, 2), &[]),
    Line(Deed::Take(1, Taking::Below(0)), &[]),
    Line(Deed::Take(0, Taking::Done), &[0, 2]),
    Line(Deed::Take(1, Taking::Done), &[0, 1, 2]),
    Line(Deed::Back(2, Putting::Above(1)), &[0, 1, 2]),
    Line(Deed::Restore, &[]),
    Line(Deed::TakeAll, &[0, 1, 2]),
    Line(Deed::Depart(1), &[]),
    Line(Deed::Take(1, Taking::InFlight), &[]),
    Line(Deed::Take(2, Taking::Done), &[0, 2]),
    Line(Deed::Restore, &[]),
    Line(Deed::Land(1), &[]),
    Line(Deed::Take(1, Taking::Unknown), &[]),
    Line(Deed::Take(0, Taking::Done), &[0, 2]),
    Line(Deed::Restore, &[]),
];

// The same walk, with the joint of these two drawn up before it is put in place.
fn join_over_a_gap(rt: &impl Abort, alloc: Global, a: u32, b: u32) -> Result<(), Fail> {
    let mut lines = MERGED_OVER_A_GAP;
    lines[MERGE] = Line(Deed::JoinBy(a, b), &[]);
    walk(rt, alloc, &lines)
}

#[test]
fn a_merge_over_a_gap_is_taken_as_one(rt: HostRuntime) -> Result<(), Fail> {
    walk(&rt, rt.alloc(), &MERGED_OVER_A_GAP)?;
    join_over_a_gap(&rt, rt.alloc(), 0, 2)?;
    join_over_a_gap(&rt, rt.alloc(), 2, 0)
}

// Patches that become one class in turn: its lists are made anew where they are full, where they come second, and where
// the numbers interleave; else they take in the newest.
static GROWN: [Line<'static>; 32] = [
    Line(Deed::Lay(0, 0, &[0xa0], None), &[]),
    Line(Deed::Lay(1, 1, &[0xa1], Some(0)), &[]),
    Line(Deed::Join(0, 1), &[]),
    Line(Deed::Lay(2, 4, &[0xb2], None), &[]),
    Line(Deed::Lay(3, 2, &[0xa3, 0xa4], Some(2)), &[]),
    Line(Deed::Draw(3, 1, true), &[]),
    Line(Deed::Join(3, 1), &[]),
    Line(Deed::Take(2, Taking::Below(0)), &[]),
    Line(Deed::Take(3, Taking::Done), &[0, 1, 3]),
    Line(Deed::Restore, &[]),
    Line(Deed::Lay(4, 3, &[0xa5], Some(3)), &[]),
    Line(Deed::JoinBy(0, 4), &[]),
    Line(Deed::Lay(5, 0, &[0xc1, 0xc2], Some(4)), &[]),
    Line(Deed::Take(4, Taking::Below(5)), &[]),
    Line(Deed::Join(5, 4), &[]),
    Line(Deed::Take(5, Taking::Done), &[0, 1, 3, 4, 5]),
    Line(Deed::Take(2, Taking::Done), &[0, 1, 2, 3, 4, 5]),
    Line(Deed::Back(1, Putting::Above(2)), &[0, 1, 2, 3, 4, 5]),
    Line(Deed::Restore, &[]),
    Line(Deed::Lay(6, 5, &[0xb6], None), &[]),
    Line(Deed::Join(2, 6), &[]),
    Line(Deed::Lay(7, 6, &[0xb7], None), &[]),
    Line(Deed::Join(2, 7), &[]),
    Line(Deed::Take(6, Taking::Below(0)), &[]),
    Line(Deed::Take(0, Taking::Done), &[0, 1, 3, 4, 5]),
    Line(Deed::Take(7, Taking::Done), &[0, 1, 2, 3, 4, 5, 6, 7]),
    Line(Deed::Restore, &[]),
    Line(Deed::Join(7, 0), &[]),
    Line(Deed::Take(6, Taking::Done), &[0, 1, 2, 3, 4, 5, 6, 7]),
    Line(Deed::Restore, &[]),
    Line(Deed::Depart(6), &[]),
    Line(Deed::Take(2, Taking::InFlight), &[]),
];

#[test]
fn a_class_takes_in_the_newest_patch(rt: HostRuntime) -> Result<(), Fail> {
    walk(&rt, rt.alloc(), &GROWN)
}

static TWO_OF_THREE_TOGETHER: [Line<'static>; 11] = [
    Line(Deed::Lay(0, 0, &[0xaa], None), &[]),
    Line(Deed::Lay(1, 4, &[0xbb], None), &[]),
    Line(Deed::Lay(2, 8, &[0xcc], None), &[]),
    Line(Deed::DepartEach(0, 2), &[]),
    Line(Deed::Take(0, Taking::InFlight), &[]),
    Line(Deed::Take(2, Taking::InFlight), &[]),
    Line(Deed::LandEach, &[]),
    Line(Deed::Take(0, Taking::Unknown), &[]),
    Line(Deed::Take(2, Taking::Unknown), &[]),
    Line(Deed::Take(1, Taking::Done), &[1]),
    Line(Deed::Restore, &[]),
];

#[test]
fn two_of_three_depart_and_land_together(rt: HostRuntime) -> Result<(), Fail> {
    walk(&rt, rt.alloc(), &TWO_OF_THREE_TOGETHER)
}

static OVER_ONE_IN_FLIGHT: [Line<'static>; 10] = [
    Line(Deed::Lay(0, 0, &[0x11], None), &[]),
    Line(Deed::Depart(0), &[]),
    Line(Deed::Lay(1, 0, &[0x22], None), &[]),
    Line(Deed::Take(1, Taking::Done), &[1]),
    Line(Deed::Take(0, Taking::InFlight), &[1]),
    Line(Deed::Restore, &[]),
    Line(Deed::TakeAll, &[1]),
    Line(Deed::Land(0), &[]),
    Line(Deed::Take(0, Taking::Unknown), &[]),
    Line(Deed::Take(1, Taking::Done), &[1]),
];

#[test]
fn one_over_a_flight_is_taken_alone(rt: HostRuntime) -> Result<(), Fail> {
    walk(&rt, rt.alloc(), &OVER_ONE_IN_FLIGHT)
}

static UNDER_A_LATER_DURABLE_ONE: [Line<'static>; 6] = [
    Line(Deed::Lay(1, 0, &[0xaa], Some(0)), &[]),
    Line(Deed::Lay(2, 4, &[0xbb], None), &[]),
    Line(Deed::Depart(2), &[]),
    Line(Deed::Land(2), &[]),
    Line(Deed::Take(1, Taking::Done), &[1]),
    Line(Deed::Restore, &[]),
];

#[test]
fn one_under_a_later_durable_one_is_taken(rt: HostRuntime) -> Result<(), Fail> {
    walk(&rt, rt.alloc(), &UNDER_A_LATER_DURABLE_ONE)
}

static HARD_OVER_HARD: [Line<'static>; 6] = [
    Line(Deed::LayHard(0, 0, &[0x11]), &[]),
    Line(Deed::LayHard(1, 0, &[0x22]), &[]),
    Line(Deed::Take(1, Taking::Hard), &[]),
    Line(Deed::Back(1, Putting::NotTaken), &[]),
    Line(Deed::Lay(2, 0, &[0x33], None), &[]),
    Line(Deed::TakeAll, &[2]),
];

#[test]
fn hard_ones_are_never_taken(rt: HostRuntime) -> Result<(), Fail> {
    walk(&rt, rt.alloc(), &HARD_OVER_HARD)
}

static NOT_ENTERED_AT_FIRST: [Line<'static>; 9] = [
    Line(Deed::Lay(0, 0, &[0xa1, 0xa2, 0xa3, 0xa4], None), &[]),
    Line(Deed::LayNothing(1, 2, &[0xb1, 0xb2, 0xb3, 0xb4]), &[]),
    Line(Deed::Take(1, Taking::Unknown), &[]),
    Line(Deed::Take(0, Taking::Done), &[0]),
    Line(Deed::Restore, &[]),
    Line(Deed::Lay(1, 2, &[0xb1, 0xb2, 0xb3, 0xb4], None), &[]),
    Line(Deed::Take(0, Taking::Below(1)), &[]),
    Line(Deed::Take(1, Taking::Done), &[1]),
    Line(Deed::Restore, &[]),
];

#[test]
fn one_that_is_not_entered_is_not_laid(rt: HostRuntime) -> Result<(), Fail> {
    walk(&rt, rt.alloc(), &NOT_ENTERED_AT_FIRST)
}

static HARD_OVER_ANOTHER: [Line<'static>; 7] = [
    Line(Deed::Lay(0, 0, &[0xa1, 0xa2, 0xa3, 0xa4], None), &[]),
    Line(Deed::LayHard(1, 2, &[0xb1, 0xb2, 0xb3, 0xb4]), &[]),
    Line(Deed::Take(1, Taking::Hard), &[]),
    Line(Deed::Take(0, Taking::Below(1)), &[]),
    Line(Deed::Lay(2, 3, &[0xcc], None), &[]),
    Line(Deed::Take(2, Taking::Done), &[2]),
    Line(Deed::Restore, &[]),
];

#[test]
fn a_hard_one_over_another_stays(rt: HostRuntime) -> Result<(), Fail> {
    walk(&rt, rt.alloc(), &HARD_OVER_ANOTHER)
}

static NO_JOINT: [Line<'static>; 9] = [
    Line(Deed::Lay(0, 0, &[1, 2], None), &[]),
    Line(Deed::Lay(1, 2, &[3], None), &[]),
    Line(Deed::Draw(0, 0, false), &[]),
    Line(Deed::Draw(0, 7, false), &[]),
    Line(Deed::Draw(7, 0, false), &[]),
    Line(Deed::JoinNothing, &[]),
    Line(Deed::Take(0, Taking::Done), &[0]),
    Line(Deed::Restore, &[]),
    Line(Deed::JoinGone(0, 1), &[]),
];

#[test]
fn what_is_not_two_classes_has_no_joint(rt: HostRuntime) -> Result<(), Fail> {
    walk(&rt, rt.alloc(), &NO_JOINT)
}

fn change_view(rt: &impl Abort, view: &mut BlockView) {
    let named = TakeRefusal::DependentApplied(PatchNo(1));
    expect_taken(rt, view.take(PatchNo(0)), Err(named));
    expect_taken(rt, view.take(PatchNo(1)), Ok(()));
    expect_bytes(rt, view.bytes(), [1, 2, 3, 0]);
    expect_back(rt, view.put_back(PatchNo(1)), Ok(()));
    view.take_all();
    expect_bytes(rt, view.bytes(), [0, 0, 0, 0]);
}

fn put_view_right(rt: &impl Abort, block: &mut BlockState) -> Result<(), Fail> {
    lay(rt, block, 0, 0, &[1, 2, 3], None)?;
    lay(rt, block, 1, 1, &[7], None)?;
    let mut view = block.view();
    change_view(rt, &mut view);
    view.restore();
    expect_bytes(rt, block.cached(), [1, 7, 3, 0]);
    Ok(())
}

#[test]
fn a_view_is_put_right(rt: HostRuntime) -> Result<(), Fail> {
    let mut block = bare(rt.alloc())?;
    put_view_right(&rt, &mut block)
}

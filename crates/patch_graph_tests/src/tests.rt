//! Walks through the calls, what lies between classes beside a search through all, and each allocation refused in turn.
use linked_list_allocator::LocalHeap;
use patch_graph::{Added, Graph, LiveClass};
use patch_model::{BLOCK, BlockNo, MAX_LIVE, MAX_PATCHES, Mark, OutOfMemory, PatchNo, Undo};
use std::alloc::{Allocator, Global};
use std::fmt::Debug;
use std::process::Abort;
use std::test::Fail;

mod between;
mod chance;
mod plain;
mod runs;

// Ends the test, telling both, unless what came is what is wanted. A call takes the prover less than `assert_eq!` where it stands.
fn expect_eq<T: PartialEq + Debug>(rt: &impl Abort, got: &T, want: &T) {
    assert_eq!(rt; *got, *want);
}

// A patch to be made: its block, its span, what it names, and what becomes of its undo bytes.
#[derive(Clone, Copy)]
struct Ask {
    block: u32,
    start: usize,
    stop: usize,
    after: Option<u32>,
    undo: Undo,
}

fn ask_for(block: u32, start: usize, stop: usize, after: Option<u32>) -> Ask {
    Ask {
        block,
        start,
        stop,
        after,
        undo: Undo::Keep,
    }
}

fn add<A: Allocator + Copy>(
    rt: &impl Abort,
    graph: &mut Graph<A>,
    ask: &Ask,
) -> Result<Added, OutOfMemory> {
    assert!(rt; graph.made() < MAX_PATCHES && ask.start < ask.stop);
    let undo = ask.undo;
    match ask.after {
        Some(no) => graph.add(
            BlockNo(ask.block),
            ask.start,
            ask.stop,
            &[PatchNo(no)],
            undo,
        ),
        None => graph.add(BlockNo(ask.block), ask.start, ask.stop, &[], undo),
    }
}

// What is expected of a patch that may drop its undo bytes.
#[derive(Clone, Copy)]
enum Hardness {
    Hard,
    Soft,
}

// Whether a path is expected from one class to another.
#[derive(Clone, Copy)]
enum Path {
    There,
    Missing,
}

// A move of a walk, and what is expected of it.
#[derive(Clone, Copy)]
enum Move<'a> {
    // A patch on a span of a block, which names another one or none.
    Make(u32, usize, usize, Option<u32>),
    // A patch that may drop its undo bytes, on a block's first byte, and whether it is hard.
    MakeLoose(u32, Option<u32>, Hardness),
    // The classes of two patches become one of this name.
    Merge(u32, u32, u32),
    Send(u32),
    Complete(u32),
    // What is kept of a block goes, of which no patch is live.
    Forget(u32),
    // What may be written of a block.
    Ready(u32, &'a [u32]),
    // Whether the first patch's class reaches the second's, and what lies between them.
    Paths(u32, u32, Path, Option<u32>),
    MarkOf(u32, Option<Mark>),
    ClassOf(u32, Option<u32>),
    // How far the class of the first two patches has come, where the patch is of it and it lives.
    Live(u32, Option<Mark>),
}

fn make<A: Allocator + Copy>(
    rt: &impl Abort,
    graph: &mut Graph<A>,
    ask: &Ask,
) -> Result<Added, Fail> {
    let made = graph.made();
    let added = add(rt, graph, ask)?;
    expect_eq(rt, &added.no, &PatchNo(made));
    Ok(added)
}

fn make_loose(
    rt: &impl Abort,
    graph: &mut Graph,
    block: u32,
    after: Option<u32>,
    hardness: Hardness,
) -> Result<(), Fail> {
    let mut ask = ask_for(block, 0, 1, after);
    ask.undo = Undo::MayDrop;
    let added = make(rt, graph, &ask)?;
    let hard = matches!(hardness, Hardness::Hard);
    expect_eq(rt, &added.hard, &hard);
    Ok(())
}

fn merge(rt: &impl Abort, graph: &mut Graph, a: u32, b: u32, name: u32) -> Result<(), Fail> {
    let merged = graph.merge(PatchNo(a), PatchNo(b))?;
    expect_eq(rt, &merged, &PatchNo(name));
    Ok(())
}

fn expect_numbers(rt: &impl Abort, ready: &[PatchNo], numbers: &[u32]) {
    expect_eq(rt, &ready.len(), &numbers.len());
    for at in 0..numbers.len() {
        expect_eq(rt, &ready.get(at), &Some(&PatchNo(numbers[at])));
    }
}

fn expect_ready<A: Allocator + Copy>(
    rt: &impl Abort,
    alloc: Global,
    graph: &mut Graph<A>,
    block: u32,
    numbers: &[u32],
) -> Result<(), Fail> {
    expect_eq(rt, &graph.any_ready(BlockNo(block)), &!numbers.is_empty());
    let ready = graph.ready(alloc, BlockNo(block))?;
    expect_numbers(rt, ready.as_slice(), numbers);
    Ok(())
}

fn expect_paths(
    rt: &impl Abort,
    graph: &mut Graph,
    a: u32,
    b: u32,
    path: Path,
    between: Option<u32>,
) {
    let there = matches!(path, Path::There);
    expect_eq(rt, &graph.reaches(PatchNo(a), PatchNo(b)), &there);
    expect_eq(
        rt,
        &graph.between(PatchNo(a), PatchNo(b)),
        &between.map(|no| PatchNo(no)),
    );
}

fn expect_mark(rt: &impl Abort, graph: &Graph, no: u32, mark: Option<Mark>) {
    expect_eq(rt, &graph.mark_of(PatchNo(no)), &mark);
}

fn expect_class(rt: &impl Abort, graph: &Graph, no: u32, name: Option<u32>) {
    expect_eq(
        rt,
        &graph.class_of(PatchNo(no)),
        &name.map(|no| PatchNo(no)),
    );
}

// A class of two patches that touch.
fn touching(mark: Mark) -> LiveClass {
    LiveClass {
        name: PatchNo(0),
        block: BlockNo(3),
        mark,
        hard: false,
        start: 10,
        stop: 20,
    }
}

fn expect_live(rt: &impl Abort, graph: &Graph, no: u32, mark: Option<Mark>) {
    expect_eq(rt, &graph.live_class(PatchNo(no)), &mark.map(touching));
}

// A move that changes the graph.
fn change(rt: &impl Abort, graph: &mut Graph, next: &Move) -> Result<(), Fail> {
    match next {
        Move::Make(block, start, stop, after) => {
            make(rt, graph, &ask_for(*block, *start, *stop, *after))?;
        }
        Move::MakeLoose(block, after, hardness) => make_loose(
            rt, graph, *block, *after, *hardness,
        )?,
        Move::Merge(a, b, name) => merge(rt, graph, *a, *b, *name)?,
        Move::Send(block) => graph.mark_flight(BlockNo(*block)),
        Move::Complete(block) => graph.mark_durable(BlockNo(*block)),
        Move::Forget(block) => graph.forget(BlockNo(*block)),
        _ => {}
    }
    Ok(())
}

// A move that looks at the graph.
fn look(rt: &impl Abort, alloc: Global, graph: &mut Graph, next: &Move) -> Result<(), Fail> {
    match next {
        Move::Ready(block, numbers) => return expect_ready(rt, alloc, graph, *block, numbers),
        Move::Paths(a, b, path, between) => expect_paths(rt, graph, *a, *b, *path, *between),
        Move::MarkOf(no, mark) => expect_mark(rt, graph, *no, *mark),
        Move::ClassOf(no, name) => expect_class(rt, graph, *no, *name),
        Move::Live(no, mark) => expect_live(rt, graph, *no, *mark),
        _ => {}
    }
    Ok(())
}

fn take_steps(
    rt: &impl Abort,
    alloc: Global,
    graph: &mut Graph,
    moves: &[Move],
) -> Result<(), Fail> {
    for next in moves {
        change(rt, graph, next)?;
        look(rt, alloc, graph, next)?;
    }
    Ok(())
}

fn walk(rt: &impl Abort, alloc: Global, moves: &[Move]) -> Result<(), Fail> {
    let mut graph = Graph::new(alloc);
    let walked = take_steps(rt, alloc, &mut graph, moves);
    drop(graph);
    walked
}

static A_LIVE_CLASS: [Move<'static>; 9] = [
    Move::Make(3, 10, 14, None),
    Move::Make(3, 14, 20, None),
    Move::Merge(1, 0, 0),
    Move::Live(1, Some(Mark::Memory)),
    Move::Live(2, None),
    Move::Send(3),
    Move::Live(0, Some(Mark::Flight)),
    Move::Complete(3),
    Move::Live(0, None),
];

// What is shown of a live class, also of a merged one and of one in flight.
#[test]
fn a_live_class_is_shown(rt: HostRuntime) -> Result<(), Fail> {
    walk(&rt, rt.alloc(), &A_LIVE_CLASS)
}

static ACROSS_TWO_BLOCKS: [Move<'static>; 13] = [
    Move::Make(0, 0, 1, None),
    Move::Make(1, 0, 1, Some(0)),
    Move::Make(0, 1, 2, Some(1)),
    Move::Ready(0, &[0]),
    Move::Send(0),
    Move::Ready(0, &[]),
    Move::Ready(1, &[]),
    Move::Complete(0),
    Move::Ready(1, &[1]),
    Move::Send(1),
    Move::Ready(0, &[]),
    Move::Complete(1),
    Move::Ready(0, &[2]),
];

// To and fro across two blocks: what is in flight, on either block, is not met.
#[test]
fn what_is_in_flight_on_either_block_is_not_met(rt: HostRuntime) -> Result<(), Fail> {
    walk(&rt, rt.alloc(), &ACROSS_TWO_BLOCKS)
}

static FORGOTTEN_BLOCKS: [Move<'static>; 27] = [
    Move::Make(0, 0, 4, None),
    Move::Make(5_000_000, 0, 4, Some(0)),
    Move::Make(16_777_215, 0, 4, None),
    Move::Forget(0),
    Move::Make(0, 2, 6, None),
    Move::Paths(3, 0, Path::There, None),
    Move::Ready(0, &[0, 3]),
    Move::Send(0),
    Move::Forget(0),
    Move::Make(0, 5, 8, None),
    Move::Paths(4, 3, Path::There, None),
    Move::Complete(0),
    Move::Send(0),
    Move::Complete(0),
    Move::Forget(0),
    Move::Ready(0, &[]),
    Move::MarkOf(3, Some(Mark::Durable)),
    Move::Make(0, 0, 4, Some(2)),
    Move::Paths(5, 2, Path::There, None),
    Move::Paths(5, 3, Path::Missing, None),
    Move::Ready(0, &[]),
    Move::Send(5_000_000),
    Move::Complete(5_000_000),
    Move::Forget(5_000_000),
    Move::MarkOf(1, Some(Mark::Durable)),
    Move::Ready(5_000_000, &[]),
    Move::Ready(16_777_215, &[2]),
];

// Blocks far apart, of which some are forgotten, and written again: as long as a patch of one is live, it stays.
#[test]
fn forgotten_blocks_are_written_again(rt: HostRuntime) -> Result<(), Fail> {
    walk(&rt, rt.alloc(), &FORGOTTEN_BLOCKS)
}

static OVER_A_FLIGHT: [Move<'static>; 12] = [
    Move::Make(0, 0, 1, None),
    Move::Send(0),
    Move::MarkOf(0, Some(Mark::Flight)),
    Move::Make(0, 0, 1, None),
    Move::Ready(0, &[]),
    Move::Paths(1, 0, Path::There, None),
    Move::Complete(0),
    Move::MarkOf(0, Some(Mark::Durable)),
    Move::MarkOf(1, Some(Mark::Memory)),
    Move::MarkOf(2, None),
    Move::ClassOf(0, None),
    Move::Ready(0, &[1]),
];

// A patch over one in flight waits for it, and isn't marked by its completion.
#[test]
fn a_patch_over_a_flight_waits_for_it(rt: HostRuntime) -> Result<(), Fail> {
    walk(&rt, rt.alloc(), &OVER_A_FLIGHT)
}

static MERGED_CLASSES: [Move<'static>; 16] = [
    Move::Make(0, 0, 2, None),
    Move::Make(0, 4, 6, None),
    Move::Make(0, 2, 5, None),
    Move::Make(1, 0, 1, Some(2)),
    Move::Merge(0, 2, 0),
    Move::ClassOf(2, Some(0)),
    Move::ClassOf(1, Some(1)),
    Move::Paths(0, 1, Path::There, None),
    Move::Paths(1, 2, Path::Missing, None),
    Move::Paths(3, 1, Path::There, Some(0)),
    Move::Merge(1, 2, 0),
    Move::ClassOf(1, Some(0)),
    Move::Ready(0, &[0, 1, 2]),
    Move::Send(0),
    Move::Complete(0),
    Move::Ready(1, &[3]),
];

// A class of two patches depends on one with a greater name, and then takes it in.
#[test]
fn a_class_takes_in_one_that_it_depends_on(rt: HostRuntime) -> Result<(), Fail> {
    walk(&rt, rt.alloc(), &MERGED_CLASSES)
}

static RING_ON_A_BLOCK: [Move<'static>; 6] = [
    Move::Make(0, 0, 4, None),
    Move::Make(0, 2, 6, None),
    Move::Make(0, 4, 8, None),
    Move::Paths(2, 0, Path::There, Some(1)),
    Move::Paths(0, 2, Path::Missing, None),
    Move::Paths(2, 1, Path::There, None),
];

// A third class on the way, on the same block.
#[test]
fn a_third_class_lies_between_on_a_block(rt: HostRuntime) -> Result<(), Fail> {
    walk(&rt, rt.alloc(), &RING_ON_A_BLOCK)
}

static REWRITTEN_IN_PARTS: [Move<'static>; 20] = [
    Move::Make(0, 0, 100, None),
    Move::Make(0, 20, 40, None),
    Move::Make(0, 60, 80, None),
    Move::Make(0, 30, 70, None),
    Move::Make(0, 20, 30, None),
    Move::Make(0, 70, 90, None),
    Move::Make(0, 30, 70, None),
    Move::Make(1, 30, 70, None),
    Move::Paths(3, 0, Path::There, Some(1)),
    Move::Paths(4, 1, Path::There, None),
    Move::Paths(4, 0, Path::There, Some(1)),
    Move::Paths(4, 3, Path::Missing, None),
    Move::Paths(5, 2, Path::There, None),
    Move::Paths(5, 3, Path::Missing, None),
    Move::Paths(6, 3, Path::There, None),
    Move::Paths(6, 1, Path::There, Some(3)),
    Move::Paths(6, 4, Path::Missing, None),
    Move::Paths(7, 6, Path::Missing, None),
    Move::Send(0),
    Move::Complete(0),
];

// A patch depends on those that wrote its bytes before, through the last one of each byte, and on no other.
#[test]
fn a_block_is_rewritten_in_parts(rt: HostRuntime) -> Result<(), Fail> {
    walk(&rt, rt.alloc(), &REWRITTEN_IN_PARTS)
}

static RING_THROUGH_BLOCKS: [Move<'static>; 7] = [
    Move::Make(0, 0, 1, None),
    Move::Make(1, 0, 1, Some(0)),
    Move::Make(2, 0, 1, Some(1)),
    Move::Make(0, 1, 2, Some(2)),
    Move::Make(3, 0, 1, None),
    Move::Paths(3, 0, Path::There, Some(1)),
    Move::Paths(0, 3, Path::Missing, None),
];

// And through other blocks.
#[test]
fn a_third_class_lies_between_through_other_blocks(rt: HostRuntime) -> Result<(), Fail> {
    walk(&rt, rt.alloc(), &RING_THROUGH_BLOCKS)
}

static ENDS_THAT_ARE_NOT_LIVE: [Move<'static>; 19] = [
    Move::Make(0, 0, 1, None),
    Move::Make(1, 0, 1, Some(0)),
    Move::Make(2, 0, 1, Some(1)),
    Move::Make(1, 1, 2, None),
    Move::Paths(2, 0, Path::There, Some(1)),
    Move::Paths(1, 1, Path::Missing, None),
    Move::Paths(2, 4, Path::Missing, None),
    Move::Paths(4, 0, Path::Missing, None),
    Move::Paths(4, 4, Path::Missing, None),
    Move::Paths(2, u32::MAX, Path::Missing, None),
    Move::Merge(1, 3, 1),
    Move::Paths(1, 3, Path::Missing, None),
    Move::Paths(3, 0, Path::There, None),
    Move::Send(0),
    Move::Paths(2, 0, Path::There, Some(1)),
    Move::Complete(0),
    Move::Paths(2, 0, Path::Missing, None),
    Move::Paths(0, 2, Path::Missing, None),
    Move::Paths(0, 0, Path::Missing, None),
];

// No class reaches itself, and a number that is durable or wasn't made reaches nothing and isn't reached.
#[test]
fn numbers_that_are_not_live_reach_nothing(rt: HostRuntime) -> Result<(), Fail> {
    walk(&rt, rt.alloc(), &ENDS_THAT_ARE_NOT_LIVE)
}

static HARD_PATCHES: [Move<'static>; 8] = [
    Move::MakeLoose(0, None, Hardness::Hard),
    Move::MakeLoose(0, None, Hardness::Hard),
    Move::MakeLoose(1, Some(1), Hardness::Soft),
    Move::MakeLoose(1, None, Hardness::Soft),
    Move::Send(0),
    Move::MakeLoose(2, Some(1), Hardness::Soft),
    Move::Complete(0),
    Move::MakeLoose(3, Some(1), Hardness::Hard),
];

// A patch that may drop its undo bytes is hard above durable and hard ones of its block.
#[test]
fn patches_are_hard_above_durable_and_hard_ones(rt: HostRuntime) -> Result<(), Fail> {
    walk(&rt, rt.alloc(), &HARD_PATCHES)
}

// A patch on each byte of a block.
fn fill(rt: &impl Abort, graph: &mut Graph, block: u32) -> Result<(), Fail> {
    for byte in 0..BLOCK {
        add(rt, graph, &ask_for(block, byte, byte + 1, None))?;
    }
    Ok(())
}

// How many blocks are filled where each byte of them is a live patch's.
const FILLED: u32 = MAX_LIVE / BLOCK as u32;

// The first patch of the last block that is filled.
const LAST_FILLED: u32 = MAX_LIVE - BLOCK as u32;

fn expect_one_more(rt: &impl Abort, graph: &mut Graph) -> Result<(), Fail> {
    let last = add(rt, graph, &ask_for(FILLED - 1, 0, BLOCK, None))?;
    expect_eq(rt, &last.no, &PatchNo(MAX_LIVE));
    expect_paths(rt, graph, MAX_LIVE, LAST_FILLED, Path::There, None);
    expect_paths(rt, graph, MAX_LIVE, LAST_FILLED - 1, Path::Missing, None);
    Ok(())
}

fn fill_and_add(rt: &impl Abort, graph: &mut Graph) -> Result<(), Fail> {
    for block in 0..FILLED {
        fill(rt, graph, block)?;
    }
    expect_one_more(rt, graph)
}

// As many as may be live, one on each byte of some blocks, and one more.
#[test]
fn as_many_as_may_be_live_and_one_more(rt: HostRuntime) -> Result<(), Fail> {
    let mut graph = Graph::new(rt.alloc());
    let filled = fill_and_add(&rt, &mut graph);
    drop(graph);
    filled
}

// How many may be written of the block.
fn count_ready(
    alloc: Global,
    graph: &mut Graph<&LocalHeap>,
    block: u32,
) -> Result<usize, OutOfMemory> {
    let ready = graph.ready(alloc, BlockNo(block))?;
    Ok(ready.len())
}

// A patch that was refused leaves no trace.
fn expect_unmade(
    rt: &impl Abort,
    alloc: Global,
    graph: &mut Graph<&LocalHeap>,
    block: u32,
    made: u32,
) {
    expect_eq(rt, &graph.made(), &made);
    expect_eq(rt, &graph.mark_of(PatchNo(made)), &None);
    let ready = count_ready(alloc, graph, block);
    expect_eq(rt, &ready, &Ok(made as usize));
}

fn give_back(ballast: &mut Vec<u8, &LocalHeap>) {
    ballast.clear();
    ballast.shrink_to_fit();
}

// Tries a call twice, the second time with the memory that the ballast held. Whether it was refused.
fn add_twice(
    rt: &impl Abort,
    alloc: Global,
    graph: &mut Graph<&LocalHeap>,
    ballast: &mut Vec<u8, &LocalHeap>,
    ask: &Ask,
) -> Result<bool, Fail> {
    let made = graph.made();
    let first = add(rt, graph, ask);
    if first.is_ok() {
        return Ok(false);
    }
    expect_unmade(rt, alloc, graph, ask.block, made);
    give_back(ballast);
    make(rt, graph, ask)?;
    Ok(true)
}

// What the classes of the first two patches are called.
fn expect_names(rt: &impl Abort, graph: &Graph<&LocalHeap>, first: u32, second: u32) {
    let names = (graph.class_of(PatchNo(0)), graph.class_of(PatchNo(1)));
    expect_eq(rt, &names, &(Some(PatchNo(first)), Some(PatchNo(second))));
}

// Whether a merge of the first two was refused.
fn merge_twice(
    rt: &impl Abort,
    graph: &mut Graph<&LocalHeap>,
    ballast: &mut Vec<u8, &LocalHeap>,
) -> Result<bool, Fail> {
    if graph.merge(PatchNo(0), PatchNo(1)).is_ok() {
        return Ok(false);
    }
    expect_names(rt, graph, 0, 1);
    give_back(ballast);
    let merged = graph.merge(PatchNo(0), PatchNo(1))?;
    expect_eq(rt, &merged, &PatchNo(0));
    Ok(true)
}

// Two patches and their merge beside a ballast. Whether one of the calls was refused.
fn make_and_merge(
    rt: &impl Abort,
    alloc: Global,
    graph: &mut Graph<&LocalHeap>,
    ballast: &mut Vec<u8, &LocalHeap>,
) -> Result<bool, Fail> {
    let first = add_twice(rt, alloc, graph, ballast, &ask_for(0, 0, 1, None))?;
    let second = add_twice(rt, alloc, graph, ballast, &ask_for(0, 1, 2, None))?;
    let third = merge_twice(rt, graph, ballast)?;
    expect_ready(rt, alloc, graph, 0, &[0, 1])?;
    Ok(first || second || third)
}

fn walk_beside(
    rt: &impl Abort,
    alloc: Global,
    heap: &LocalHeap,
    ballast: &mut Vec<u8, &LocalHeap>,
) -> Result<bool, Fail> {
    let mut graph = Graph::new(heap);
    let made = make_and_merge(rt, alloc, &mut graph, ballast);
    drop(graph);
    made
}

// What fills a heap but for a little, until it is given back.
const BALLAST: usize = 16384;

// What each heap has more than the one before it.
const HEAP_STEP: usize = 16;

// In a heap of this size.
fn walk_in(rt: &impl Abort, alloc: Global, size: usize) -> Result<bool, Fail> {
    let heap = LocalHeap::new(alloc, size)?;
    let mut ballast = Vec::with_capacity(&heap, BALLAST)?;
    let walked = walk_beside(rt, alloc, &heap, &mut ballast);
    drop(ballast);
    walked
}

// How many heaps are too small, each larger than the one before it.
fn count_small(rt: &impl Abort, alloc: Global) -> Result<u32, Fail> {
    let mut refused = 0u32;
    for size in 0..400usize {
        if !walk_in(rt, alloc, BALLAST + 256 + size * HEAP_STEP)? {
            return Ok(refused);
        }
        refused = refused.saturating_add(1);
    }
    Err(Fail::from("refused in the largest heap"))
}

#[test]
fn each_refused_call_changes_nothing(rt: HostRuntime) -> Result<(), Fail> {
    let refused = count_small(&rt, rt.alloc())?;
    expect_eq(&rt, &(&refused, &(refused > 5)), &(&refused, &true));
    Ok(())
}

// How many patches an answer has.
const ANSWERED: usize = 64;

// How many heaps are tried for an answer.
const HEAPS: u32 = 40;

// Whether an answer in this heap was refused.
fn ready_in(rt: &impl Abort, graph: &mut Graph, heap: &LocalHeap) -> bool {
    match graph.ready(heap, BlockNo(0)) {
        Ok(numbers) => {
            expect_eq(rt, &numbers.len(), &ANSWERED);
            false
        }
        Err(_) => true,
    }
}

// The same, in a heap of this size.
fn ready_in_size(
    rt: &impl Abort,
    alloc: Global,
    graph: &mut Graph,
    size: usize,
) -> Result<bool, Fail> {
    let heap = LocalHeap::new(alloc, size)?;
    Ok(ready_in(rt, graph, &heap))
}

// How many heaps, each larger than the one before it, are too small for the answer.
fn count_refused(rt: &impl Abort, alloc: Global, graph: &mut Graph) -> Result<u32, Fail> {
    let mut refused = 0u32;
    for size in 0..HEAPS as usize {
        if ready_in_size(rt, alloc, graph, 32 + size * 32)? {
            refused = refused.saturating_add(1);
        }
    }
    Ok(refused)
}

fn answer_much(rt: &impl Abort, graph: &mut Graph) -> Result<(), Fail> {
    for byte in 0..ANSWERED {
        add(rt, graph, &ask_for(0, byte, byte + 1, None))?;
    }
    Ok(())
}

fn expect_refused(rt: &impl Abort, alloc: Global, graph: &mut Graph) -> Result<(), Fail> {
    answer_much(rt, graph)?;
    let refused = count_refused(rt, alloc, graph)?;
    let some = refused > 0 && refused < HEAPS;
    expect_eq(rt, &(refused, some), &(refused, true));
    Ok(())
}

// An answer that finds no memory changes nothing.
#[test]
fn a_refused_answer_changes_nothing(rt: HostRuntime) -> Result<(), Fail> {
    let mut graph = Graph::new(rt.alloc());
    let refused = expect_refused(&rt, rt.alloc(), &mut graph);
    drop(graph);
    refused
}

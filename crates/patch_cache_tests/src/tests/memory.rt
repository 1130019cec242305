//! Each allocation refused in turn.
use super::asked::{Asked, ask_of};
use super::waves::{expect_flushed, flush, make_chain};
use super::*;
use linked_list_allocator::LocalHeap;
use patch_cache::Move::{Back, Take};
use patch_model::{BlockBytes, RefusalKind};
use patch_testing::{HEAP, fill, hole_of};

// Asks of each kind.
static LINES: [Asked<'static>; 9] = [
    Asked::Patch(0, 0, b"abcd", &[]),
    Asked::Patch(0, 2, b"EFGH", &[0]),
    Asked::Bare(1, 7, b"i", &[]),
    Asked::Merge(0, 1),
    Asked::View(0, 0, 6, &[1], &[]),
    Asked::Send(0),
    Asked::Patch(0, 8, b"j", &[0, 2]),
    Asked::Send(1),
    Asked::Complete(0),
];

// What an ask is refused for want of memory.
const NO_MEMORY: Refusal = Refusal {
    kind: RefusalKind::OutOfMemory,
    number: None,
};

// What is shown when all was asked, by calls and by lists.
const CALLED: Shown = (4, 4, [Some(Mark::Flight), Some(Mark::Flight)], None, 7);

const LISTED: Shown = (4, 2, [Some(Mark::Durable), Some(Mark::Durable)], None, 8);

// A heap, and the memory of what is made aside.
#[derive(Clone, Copy)]
struct Room<'a> {
    alloc: Global,
    heap: &'a LocalHeap,
}

// A cache of two blocks in a heap, whose device has memory of its own.
type InHeap<'a> = Bench<&'a LocalHeap, MemDevice>;

fn open_in_heap<'a>(rt: &impl Abort, room: Room<'a>) -> InHeap<'a> {
    open_bench(rt, room.heap, 2, open_device(rt, room.alloc, 2))
}

// What is walked through in one hole after another.
#[derive(Clone, Copy)]
enum Walk {
    // Each ask by the call of its kind, or in a list of its own.
    Calls,
    Lists,
    // All asks in one list.
    OneList,
    Opening,
    Flushes,
}

fn asks_of<'a>(rt: &impl Abort, room: Room<'a>) -> Vec<Ask<&'a LocalHeap>> {
    let mut asks = Vec::new(room.alloc);
    for asked in LINES.iter() {
        let pushed = asks.push(ask_of(rt, room.heap, asked)).is_ok();
        assert!(rt; pushed);
    }
    asks
}

// Makes a patch, which names two others at most.
fn create<A: Allocator + Copy>(
    cache: &mut Cache<A>,
    (block, start): (u32, usize),
    bytes: &[u8],
    after: &[u32],
    undo: Undo,
) -> Result<(), Refusal> {
    let block = BlockNo(block);
    outcome(match *after {
        [] => cache.create(block, start, bytes, &[], undo),
        [first] => cache.create(block, start, bytes, &[PatchNo(first)], undo),
        [first, second, ..] => {
            let named = [PatchNo(first), PatchNo(second)];
            cache.create(block, start, bytes, &named, undo)
        }
    })
}

// Asks by the call of the ask's kind. Views and completions are no calls of one name.
fn call<A: Allocator + Copy>(cache: &mut Cache<A>, asked: &Asked) -> Result<(), Refusal> {
    match *asked {
        Asked::Patch(block, start, bytes, after) => {
            create(cache, (block, start), bytes, after, Undo::Keep)
        }
        Asked::Bare(block, start, bytes, after) => {
            create(cache, (block, start), bytes, after, Undo::MayDrop)
        }
        Asked::Merge(a, b) => outcome(cache.merge(PatchNo(a), PatchNo(b))),
        Asked::Send(block) => outcome(send_in_vain(cache, block)),
        Asked::Complete(_) | Asked::View(..) => Ok(()),
    }
}

// How many answers there are; or the first refusal among them.
fn count_answers<A: Allocator>(answers: &[Answer<A>]) -> Result<usize, Refusal> {
    for answer in answers {
        if let Answer::Refused(refusal) = answer {
            return Err(*refusal);
        }
    }
    Ok(answers.len())
}

// Asks them in a list.
fn ask_list<'a>(bench: &mut InHeap<'a>, asks: &[Ask<&'a LocalHeap>]) -> Result<usize, Refusal> {
    let answers = answers_of(bench, asks);
    let counted = count_answers(&answers);
    drop(answers);
    counted
}

// Asks by a call, or else by a list. How many asks were answered, or the first refusal.
fn ask<'a>(
    bench: &mut InHeap<'a>,
    called: Option<&Asked>,
    asks: &[Ask<&'a LocalHeap>],
) -> Result<usize, Refusal> {
    let Some(asked) = called else {
        return ask_list(bench, asks);
    };
    match call(&mut bench.cache, asked) {
        Ok(()) => Ok(1),
        Err(refusal) => Err(refusal),
    }
}

// Asks where only a hole of this size is left.
fn ask_in_hole<'a>(
    rt: &impl Abort,
    room: Room<'a>,
    bench: &mut InHeap<'a>,
    called: Option<&Asked>,
    asks: &[Ask<&'a LocalHeap>],
    hole: usize,
) -> Result<usize, Refusal> {
    let ballast = fill(room.alloc, room.heap, hole).expect(rt, "ballast");
    let answer = ask(bench, called, asks);
    drop(ballast);
    answer
}

// Asks where only a hole of this size is left, and again with memory where that is refused, or there is no room for an answer.
// Whether it was.
fn is_asked_again<'a>(
    rt: &impl Abort,
    room: Room<'a>,
    bench: &mut InHeap<'a>,
    called: Option<&Asked>,
    asks: &[Ask<&'a LocalHeap>],
    hole: usize,
) -> bool {
    let before = shown(&mut bench.cache);
    let first = ask_in_hole(rt, room, bench, called, asks, hole);
    if first == Ok(1) {
        return false;
    }
    if first != Ok(0) {
        expect_equal(rt, "answer", first, Err(NO_MEMORY));
    }
    expect_shown(rt, &mut bench.cache, before);
    expect_equal(rt, "answer", ask(bench, called, asks), Ok(1));
    true
}

// Asks each in turn, by calls or in lists, and counts those that were asked again.
fn ask_each<'a>(
    rt: &impl Abort,
    room: Room<'a>,
    bench: &mut InHeap<'a>,
    asks: &[Ask<&'a LocalHeap>],
    by_call: bool,
    hole: usize,
    counts: &mut [u32],
) {
    for ((asked, one), count) in LINES.iter().zip(asks.chunks(1)).zip(counts.iter_mut()) {
        let called = by_call.then_some(asked);
        let again = is_asked_again(rt, room, bench, called, one, hole);
        *count = count.saturating_add(u32::from(again));
    }
}

// What is shown when all was asked.
fn expect_asked(rt: &impl Abort, cache: &mut Cache<&LocalHeap>, want: Shown) {
    expect_shown(rt, cache, want);
    expect_read(rt, cache, 0, 0, 9, b"abEFGH\0\0j");
}

// Asks all in one list where only a hole of this size is left. Where no room was left for an answer, the asks from there on
// are asked with memory.
fn ask_at_once<'a>(
    rt: &impl Abort,
    room: Room<'a>,
    bench: &mut InHeap<'a>,
    asks: &[Ask<&'a LocalHeap>],
    hole: usize,
) -> Result<usize, Refusal> {
    let first = ask_in_hole(rt, room, bench, None, asks, hole);
    if let Ok(answered) = first {
        let rest = asks.get(answered..).expect(rt, "no more answers than asks");
        expect_equal(rt, "answers", ask_list(bench, rest), Ok(rest.len()));
        expect_shown(rt, &mut bench.cache, LISTED);
    }
    first
}

// Counts a list that came to an end for want of room for an answer, or else one that had a refusal.
fn count_list(rt: &impl Abort, asked: Result<usize, Refusal>, counts: &mut [u32; 9]) {
    match asked {
        Ok(9) => {}
        Ok(_) => counts[0] = counts[0].saturating_add(1),
        Err(refusal) => {
            expect_equal(rt, "refusal", refusal, NO_MEMORY);
            counts[1] = counts[1].saturating_add(1);
        }
    }
}

fn ask_all<'a>(
    rt: &impl Abort,
    room: Room<'a>,
    bench: &mut InHeap<'a>,
    walk: Walk,
    hole: usize,
    counts: &mut [u32; 9],
) {
    let asks = asks_of(rt, room);
    match walk {
        Walk::Calls => {
            ask_each(rt, room, bench, &asks, true, hole, counts);
            expect_asked(rt, &mut bench.cache, CALLED);
        }
        Walk::Lists => {
            ask_each(rt, room, bench, &asks, false, hole, counts);
            expect_asked(rt, &mut bench.cache, LISTED);
        }
        _ => count_list(rt, ask_at_once(rt, room, bench, &asks, hole), counts),
    }
    drop(asks);
}

// Asks all of a new cache. Whether anything was counted.
fn is_counted(rt: &impl Abort, room: Room, walk: Walk, hole: usize, counts: &mut [u32; 9]) -> bool {
    let before = *counts;
    let mut bench = open_in_heap(rt, room);
    ask_all(rt, room, &mut bench, walk, hole, counts);
    close(bench);
    before != *counts
}

// Whether no cache was opened. One that was has no patch.
fn is_none(rt: &impl Abort, opened: &mut Result<Cache<&LocalHeap>, OutOfMemory>) -> bool {
    match opened {
        Ok(cache) => {
            expect_shown(rt, cache, (0, 0, [None; 2], None, 0));
            false
        }
        Err(OutOfMemory) => true,
    }
}

// Opens a cache of these blocks where only a hole of this size is left.
fn open_in_hole<'a>(
    rt: &impl Abort,
    room: Room<'a>,
    blocks: Vec<BlockBytes<&'a LocalHeap>, &'a LocalHeap>,
    hole: usize,
) -> Result<Cache<&'a LocalHeap>, OutOfMemory> {
    let ballast = fill(room.alloc, room.heap, hole).expect(rt, "ballast");
    assert!(rt; !blocks.is_empty() && blocks.len() <= MAX_BLOCKS);
    let opened = Cache::open(room.heap, blocks);
    drop(ballast);
    opened
}

// Opens a cache so. Whether that was refused.
fn is_not_opened(rt: &impl Abort, room: Room, hole: usize) -> bool {
    let blocks = zeros(room.heap, 2).expect(rt, "blocks");
    let mut opened = open_in_hole(rt, room, blocks, hole);
    let none = is_none(rt, &mut opened);
    drop(opened);
    none
}

fn flush_in_hole<'a>(
    rt: &impl Abort,
    room: Room<'a>,
    bench: &mut InHeap<'a>,
    hole: usize,
) -> Result<(), FlushRefusal> {
    let ballast = fill(room.alloc, room.heap, hole).expect(rt, "ballast");
    let flushed = flush(bench);
    drop(ballast);
    flushed
}

// Flushes a chain where only a hole of this size is left, and again with memory where that is refused. Whether it was.
fn is_flushed_again<'a>(
    rt: &impl Abort,
    room: Room<'a>,
    bench: &mut InHeap<'a>,
    hole: usize,
) -> bool {
    make_chain(rt, &mut bench.cache);
    let first = flush_in_hole(rt, room, bench, hole);
    if first.is_err() {
        expect_equal(rt, "first", first, Err(FlushRefusal::OutOfMemory));
        expect_equal(rt, "second", flush(bench), Ok(()));
    }
    expect_flushed(rt, bench);
    first.is_err()
}

fn is_refused_a_flush(rt: &impl Abort, room: Room, hole: usize) -> bool {
    let mut bench = open_in_heap(rt, room);
    let again = is_flushed_again(rt, room, &mut bench, hole);
    close(bench);
    again
}

fn is_refused(rt: &impl Abort, room: Room, walk: Walk, hole: usize, counts: &mut [u32; 9]) -> bool {
    match walk {
        Walk::Calls | Walk::Lists | Walk::OneList => is_counted(rt, room, walk, hole, counts),
        Walk::Opening => is_not_opened(rt, room, hole),
        Walk::Flushes => is_refused_a_flush(rt, room, hole),
    }
}

// Each hole is larger than the one before it, so that one allocation more succeeds now and then, until all do. In how many of
// them something was refused, and how often each ask was.
fn walk_in(rt: &impl Abort, room: Room, walk: Walk) -> (usize, [u32; 9]) {
    let mut counts = [0; 9];
    for size in 1..800usize {
        let refused = is_refused(rt, room, walk, hole_of(size), &mut counts);
        expect_equal(rt, "used", room.heap.used(), 0);
        if !refused {
            return (size - 1, counts);
        }
    }
    panic!(rt; "refused in the largest hole")
}

fn walk_through(rt: &impl Abort, alloc: Global, walk: Walk) -> (usize, [u32; 9]) {
    let heap = LocalHeap::new(alloc, HEAP).expect(rt, "a heap");
    walk_in(rt, Room { alloc, heap: &heap }, walk)
}

// So many of the asks are refused in some hole.
fn expect_refused(rt: &impl Abort, alloc: Global, walk: Walk, kinds: usize) {
    let (_, counts) = walk_through(rt, alloc, walk);
    let mut refused = 0usize;
    for count in counts {
        if count > 0 {
            refused = refused.saturating_add(1);
        }
    }
    expect_equal(rt, "refused", refused, kinds);
}

// All but the view and the completion.
#[test]
fn of_calls(rt: HostRuntime) {
    expect_refused(&rt, rt.alloc(), Walk::Calls, 7);
}

#[test]
fn of_lists_of_one_ask(rt: HostRuntime) {
    expect_refused(&rt, rt.alloc(), Walk::Lists, 9);
}

#[test]
fn of_a_list_of_each_kind_of_ask(rt: HostRuntime) {
    let (_, [short, refused, ..]) = walk_through(&rt, rt.alloc(), Walk::OneList);
    assert!(&rt; short > 1 && refused > 1, "{short} {refused}");
}

#[test]
fn of_opening(rt: HostRuntime) {
    let (refused, _) = walk_through(&rt, rt.alloc(), Walk::Opening);
    assert!(&rt; refused > 1, "{refused}");
}

#[test]
fn flushes_go_on_after_want_of_memory(rt: HostRuntime) {
    let (refused, _) = walk_through(&rt, rt.alloc(), Walk::Flushes);
    assert!(&rt; refused > 0);
}

// Drains the trace. How many steps it had.
fn drain(cache: &mut Cache<&LocalHeap>) -> Result<usize, OutOfMemory> {
    let steps = cache.drain_trace()?;
    let count = steps.len();
    drop(steps);
    Ok(count)
}

// Drains the trace where no memory is left.
fn drain_in_full<'a>(
    rt: &impl Abort,
    room: Room<'a>,
    cache: &mut Cache<&'a LocalHeap>,
) -> Result<usize, OutOfMemory> {
    let ballast = fill(room.alloc, room.heap, 0).expect(rt, "ballast");
    let drained = drain(cache);
    drop(ballast);
    drained
}

// Drains the trace of a write that is given up, where no memory is left and then with memory.
fn drain_twice<'a>(rt: &impl Abort, room: Room<'a>, cache: &mut Cache<&'a LocalHeap>) {
    make(rt, cache, 1, 0, &[0xaa], &[]);
    expect_equal(rt, "send", send_in_vain(cache, 1), Ok(()));
    let before = shown(cache);
    let drained = drain_in_full(rt, room, cache);
    expect_equal(rt, "drained", drained, Err(OutOfMemory));
    expect_shown(rt, cache, before);
    let got = (drain(cache), cache.trace().len());
    expect_equal(rt, "drained and left", got, (Ok(2), 0));
}

// Writes and completes a flight where no memory is left. Whether it was completed.
fn is_completed_in_full<'a>(
    rt: &impl Abort,
    room: Room<'a>,
    bench: &mut InHeap<'a>,
    flight: Flight<&'a LocalHeap>,
) -> bool {
    let ballast = fill(room.alloc, room.heap, 0).expect(rt, "ballast");
    let (landed, _) = written(rt, &mut bench.device, flight);
    let done = completed(&mut bench.cache, landed).is_ok();
    drop(ballast);
    done
}

// Completes a write where no memory is left, after a drain that left the trace no more room than for that.
fn complete_in_full<'a>(rt: &impl Abort, room: Room<'a>, bench: &mut InHeap<'a>) {
    make(rt, &mut bench.cache, 0, 0, &[0xaa], &[]);
    let flight = send(rt, &mut bench.cache, 0);
    let drained = drain(&mut bench.cache);
    let done = is_completed_in_full(rt, room, bench, flight);
    expect_equal(rt, "completed", (drained, done), (Ok(2), true));
    let want = (1, 0, [Some(Mark::Durable), None], None, 1);
    expect_shown(rt, &mut bench.cache, want);
}

// The patch is taken back and put back.
const MOVES: [Moved; 2] = [
    (Take(PatchNo(0)), Ok(()), &[0, 0]),
    (Back(PatchNo(0)), Ok(()), &[0xbb, 0]),
];

// Looks where no memory is left.
fn look_in_full(rt: &impl Abort, room: Room, cache: &mut Cache<&LocalHeap>) {
    make(rt, cache, 1, 2, &[0xbb], &[]);
    let ballast = fill(room.alloc, room.heap, 0).expect(rt, "ballast");
    expect_equal(rt, "ready", cache.next_ready(), Some(BlockNo(1)));
    expect_equal(rt, "view", view_through(rt, cache, 1, &MOVES), Ok(()));
    expect_read(rt, cache, 1, 2, 1, &[0xbb]);
    drop(ballast);
}

// What is tried of a cache of two blocks where no memory is left.
#[derive(Clone, Copy)]
enum Trial {
    Drain,
    Complete,
    Look,
}

fn attempt(rt: &impl Abort, room: Room, trial: Trial) {
    let mut bench = open_in_heap(rt, room);
    match trial {
        Trial::Drain => drain_twice(rt, room, &mut bench.cache),
        Trial::Complete => complete_in_full(rt, room, &mut bench),
        Trial::Look => look_in_full(rt, room, &mut bench.cache),
    }
    close(bench);
}

fn try_out(rt: &impl Abort, alloc: Global, trial: Trial) {
    let heap = LocalHeap::new(alloc, HEAP).expect(rt, "a heap");
    attempt(rt, Room { alloc, heap: &heap }, trial);
}

// A trace can't be drained where no room is left for the completion of a write that is under way.
#[test]
fn of_draining(rt: HostRuntime) {
    try_out(&rt, rt.alloc(), Trial::Drain);
}

#[test]
fn completions_take_none(rt: HostRuntime) {
    try_out(&rt, rt.alloc(), Trial::Complete);
}

#[test]
fn looks_and_views_take_none(rt: HostRuntime) {
    try_out(&rt, rt.alloc(), Trial::Look);
}

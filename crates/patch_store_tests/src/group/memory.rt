//! Each allocation refused in turn.
use super::lines::{asks_in, group_in};
use super::*;
use linked_list_allocator::LocalHeap;
use patch_device::MemDevice;
use patch_model::{RefusalKind, Refuses};
use patch_testing::{HEAP, fill, hole_of};
use std::alloc::Global;

// Calls of each kind, in the words of the scripts.
const LINES: [&str; 11] = [
    "group",
    "group",
    "engage 0 0",
    "by 0 0 ab",
    "disengage 0 0",
    "depend 1 0",
    "engage 0 1",
    "after 0",
    "by 0 1 c",
    "by 0 1 d",
    "sync 1",
];

// How the calls are made: each by its name, or in a list of one ask.
#[derive(Clone, Copy)]
enum How {
    Named,
    Listed,
}

// A cache of two blocks in a heap, with its groups, its flights and its device, which has memory of its own.
struct Bench<'a> {
    alloc: Global,
    heap: &'a LocalHeap,
    groups: Groups<&'a LocalHeap>,
    cache: Cache<&'a LocalHeap>,
    flights: Flights<&'a LocalHeap>,
    device: MemDevice,
}

// How many patches of each group are pending, and how many patches were made and are live.
type Shown = (Option<u32>, Option<u32>, u32, u32);

fn shown(bench: &Bench) -> Shown {
    let first = bench.groups.pending(GroupNo(0), &bench.cache).ok();
    let second = bench.groups.pending(GroupNo(1), &bench.cache).ok();
    (first, second, bench.cache.made(), bench.cache.live())
}

fn kind_of<T: Copy>(answer: Result<T, GroupRefusal>) -> Result<(), RefusalKind> {
    match answer {
        Ok(_) => Ok(()),
        Err(refusal) => Err(refusal.kind()),
    }
}

fn make_patch<'a>(bench: &mut Bench<'a>, ask: &GroupAsk<&'a LocalHeap>) -> Result<(), RefusalKind> {
    let GroupAsk::Patch {
        writer,
        block,
        start,
        bytes,
        after,
        undo,
    } = ask
    else {
        return Ok(());
    };
    let Bench { groups, cache, .. } = bench;
    let (bytes, after) = (bytes.as_slice(), after.as_slice());
    match groups.create_patch(cache, Some(*writer), *block, *start, bytes, after, *undo) {
        Ok(_) => Ok(()),
        Err(refusal) => Err(refusal.kind()),
    }
}

fn call_named<'a>(bench: &mut Bench<'a>, ask: &GroupAsk<&'a LocalHeap>) -> Result<(), RefusalKind> {
    let groups = &mut bench.groups;
    match ask {
        GroupAsk::Group => kind_of(groups.create()),
        GroupAsk::Engage { writer, group } => kind_of(groups.engage(*writer, *group)),
        GroupAsk::Depend { group, on } => kind_of(groups.depend(*group, *on)),
        GroupAsk::Disengage { writer, group } => kind_of(groups.disengage(*writer, *group)),
        GroupAsk::Patch { .. } => make_patch(bench, ask),
        GroupAsk::Plain(_) | GroupAsk::Close { .. } | GroupAsk::Pending { .. } => Ok(()),
    }
}

fn list_after(bench: &Bench, word: &str) -> Result<(), RefusalKind> {
    let writer = WriterNo(if word == "0" { 0 } else { 1 });
    match bench.groups.after_of(writer) {
        Ok(_) => Ok(()),
        Err(OutOfMemory) => Err(RefusalKind::OutOfMemory),
    }
}

fn sync_group(bench: &mut Bench, word: &str) -> Result<(), RefusalKind> {
    let Bench {
        groups,
        cache,
        flights,
        device,
        ..
    } = bench;
    match sync(groups, cache, flights, device, group_in(word)) {
        Ok(()) => Ok(()),
        Err(refusal) => Err(refusal.kind()),
    }
}

fn plain_refusal(answer: &Answer<&LocalHeap>) -> Result<(), RefusalKind> {
    match answer {
        Answer::Refused(refusal) => Err(refusal.kind),
        _ => Ok(()),
    }
}

fn refusal_of(answer: &GroupAnswer<&LocalHeap>) -> Result<(), RefusalKind> {
    match answer {
        GroupAnswer::Plain(answer) => plain_refusal(answer),
        GroupAnswer::Refused(refusal) => Err(refusal.kind()),
        _ => Ok(()),
    }
}

// The refusal that the one ask was answered, or that there was no room for an answer.
fn refusal_in(answers: &[GroupAnswer<&LocalHeap>]) -> Result<(), RefusalKind> {
    match answers.first() {
        Some(answer) => refusal_of(answer),
        None => Err(RefusalKind::OutOfMemory),
    }
}

fn call_listed<'a>(
    bench: &mut Bench<'a>,
    asks: &[GroupAsk<&'a LocalHeap>],
) -> Result<(), RefusalKind> {
    let Bench {
        groups,
        cache,
        flights,
        device,
        ..
    } = bench;
    match groups.run(cache, flights, device, asks) {
        Ok(answers) => refusal_in(&answers),
        Err((answers, OutOfMemory)) => refusal_in(&answers),
    }
}

// Calls what the line says; its ask was made beforehand, where it is one.
fn call<'a>(
    bench: &mut Bench<'a>,
    line: &str,
    asks: &[GroupAsk<&'a LocalHeap>],
    how: How,
) -> Result<(), RefusalKind> {
    if let Some(word) = line.strip_prefix("after ") {
        return list_after(bench, word);
    }
    if let Some(word) = line.strip_prefix("sync ") {
        return sync_group(bench, word);
    }
    match (how, asks) {
        (How::Named, [ask]) => call_named(bench, ask),
        _ => call_listed(bench, asks),
    }
}

// The ask of a line, if it is one.
fn prepare<'a>(
    heap: &'a LocalHeap,
    line: &str,
) -> Result<Vec<GroupAsk<&'a LocalHeap>, &'a LocalHeap>, Fail> {
    if line.starts_with("after") || line.starts_with("sync") {
        return Ok(Vec::new(heap));
    }
    asks_in(heap, &[line])
}

// Calls where only a hole of this size is left.
fn call_in_hole<'a>(
    bench: &mut Bench<'a>,
    line: &str,
    asks: &[GroupAsk<&'a LocalHeap>],
    how: How,
    hole: usize,
) -> Result<Result<(), RefusalKind>, OutOfMemory> {
    let ballast = fill(bench.alloc, bench.heap, hole)?;
    let answer = call(bench, line, asks, how);
    drop(ballast);
    Ok(answer)
}

// Calls where only a hole of this size is left, and again with memory where that is refused. Whether it was. What was refused
// changed nothing; but of a sync, what it had written stays.
fn call_twice<'a>(
    rt: &impl Abort,
    bench: &mut Bench<'a>,
    line: &str,
    asks: &[GroupAsk<&'a LocalHeap>],
    how: How,
    hole: usize,
) -> Result<bool, Fail> {
    let before = shown(bench);
    let first = call_in_hole(bench, line, asks, how, hole)?;
    if first.is_ok() {
        return Ok(false);
    }
    expect_equal(rt, "answer", first, Err(RefusalKind::OutOfMemory));
    if !line.starts_with("sync") {
        expect_equal(rt, "shown", shown(bench), before);
    }
    expect_equal(rt, "answer", call(bench, line, asks, how), Ok(()));
    Ok(true)
}

fn call_line(
    rt: &impl Abort,
    bench: &mut Bench,
    line: &str,
    how: How,
    hole: usize,
) -> Result<bool, Fail> {
    let asks = prepare(bench.heap, line)?;
    call_twice(rt, bench, line, &asks, how, hole)
}

// Calls each in turn, twice, and counts those that were refused at first.
fn call_each(
    rt: &impl Abort,
    bench: &mut Bench,
    how: How,
    hole: usize,
    refused: &mut [u32],
) -> Result<(), Fail> {
    for (line, count) in LINES.iter().zip(refused.iter_mut()) {
        if call_line(rt, bench, line, how, hole)? {
            *count = count.saturating_add(1);
        }
    }
    expect_equal(rt, "shown", shown(bench), (Some(0), Some(0), 3, 0));
    Ok(())
}

fn close(bench: Bench) {
    let Bench {
        alloc: _,
        heap: _,
        groups,
        cache,
        flights,
        device,
    } = bench;
    flights.abandon();
    drop(device);
    drop(cache);
    drop(groups);
}

fn open_bench<'a>(
    rt: &impl Abort,
    alloc: Global,
    heap: &'a LocalHeap,
) -> Result<Bench<'a>, OutOfMemory> {
    let device = MemDevice::new(alloc, 2)?;
    let cache = open_zeros(rt, heap, 2)?;
    Ok(Bench {
        alloc,
        heap,
        groups: Groups::new(heap),
        cache,
        flights: Flights::new(heap),
        device,
    })
}

fn call_anew(
    rt: &impl Abort,
    alloc: Global,
    heap: &LocalHeap,
    how: How,
    hole: usize,
    refused: &mut [u32],
) -> Result<(), Fail> {
    let mut bench = open_bench(rt, alloc, heap)?;
    let called = call_each(rt, &mut bench, how, hole, refused);
    close(bench);
    called
}

// Each hole is larger than the one before it, so that one allocation more succeeds now and then, until all do. How many of
// the lines were refused.
fn refuse_each(rt: &impl Abort, alloc: Global, heap: &LocalHeap, how: How) -> Result<usize, Fail> {
    let mut refused = [0u32; 11];
    for size in 0..400usize {
        let before = refused;
        call_anew(rt, alloc, heap, how, hole_of(size), &mut refused)?;
        expect_equal(rt, "used", heap.used(), 0);
        if refused == before {
            return Ok(refused.iter().filter(|count| **count > 0).count());
        }
    }
    Err(Fail::from("refused in the largest hole"))
}

// So many of the lines are refused in a heap of their own.
fn expect_refused(rt: &impl Abort, alloc: Global, how: How, lines: usize) -> Result<(), Fail> {
    let heap = LocalHeap::new(alloc, HEAP)?;
    let refused = refuse_each(rt, alloc, &heap, how)?;
    expect_equal(rt, "refused", refused, lines);
    Ok(())
}

// All but the second group, which has room beside the first, the end of an engagement, and the second engagement.
#[test]
fn of_calls(rt: HostRuntime) -> Result<(), Fail> {
    expect_refused(&rt, rt.alloc(), How::Named, 8)
}

// All of them, since an answer takes room.
#[test]
fn of_lists_of_one_ask(rt: HostRuntime) -> Result<(), Fail> {
    expect_refused(&rt, rt.alloc(), How::Listed, 11)
}

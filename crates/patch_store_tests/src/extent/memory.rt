//! Each allocation refused in turn, and what that leaves.
use super::*;
use linked_list_allocator::LocalHeap;
use patch_testing::{fill, hole_of};

// How many bytes the heap has: a cache of 35 blocks, and more.
const HEAP: usize = 262_144;

// What is called, one after the other, where only one hole is left in the heap.
#[derive(Clone, Copy)]
enum Call {
    Append,
    Read,
    Reset,
}

const CALLS: [Call; 3] = [Call::Append, Call::Read, Call::Reset];

// So many bytes at the start of the first extent, before it is reset.
fn front(len: u32) -> Place {
    Place {
        extent: 0,
        generation: 0,
        offset: 0,
        len,
    }
}

// Whether the bytes are 100 sevens, and more eights.
fn are_as_appended(bytes: &[u8]) -> bool {
    for (at, byte) in bytes.iter().enumerate() {
        let value = if at < 100 { 7 } else { 8 };
        if *byte != value {
            return false;
        }
    }
    true
}

fn read_front<A: Allocator + Copy>(bench: &Bench<A>, len: u32) -> Said {
    match bench.extents.read(&bench.cache, front(len)) {
        Ok(bytes) if bytes.len() == len as usize && are_as_appended(bytes.as_slice()) => Ok(()),
        Ok(_) => Err(RefusalKind::ReadBack),
        Err(refusal) => Err(refusal.kind()),
    }
}

// What is read of 100 bytes, of one more, and of all that are appended in the end.
fn shown<A: Allocator + Copy>(bench: &Bench<A>) -> [Said; 3] {
    [
        read_front(bench, 100),
        read_front(bench, 101),
        read_front(bench, 5100),
    ]
}

fn append_engaged<A: Allocator + Copy>(bench: &mut Bench<A>, bytes: &[u8]) -> Said {
    kind_of(append(bench, Some(WriterNo(0)), 0, bytes, &[]))
}

fn make_call<A: Allocator + Copy>(bench: &mut Bench<A>, call: Call) -> Said {
    match call {
        Call::Append => append_engaged(bench, &[8; 5000]),
        Call::Read => read_front(bench, 5100),
        Call::Reset => kind_of(reset(bench, 0)),
    }
}

// Calls where only a hole of this size is left.
fn call_in_hole<A: Allocator + Copy>(
    alloc: Global,
    heap: &LocalHeap,
    hole: usize,
    bench: &mut Bench<A>,
    which: Call,
) -> Result<Said, OutOfMemory> {
    let ballast = fill(alloc, heap, hole)?;
    let answer = make_call(bench, which);
    drop(ballast);
    Ok(answer)
}

// Calls where only a hole of this size is left, and again with memory where that is refused. Whether it was: then all that could
// be read before is read as before, and nothing more.
fn call_twice<A: Allocator + Copy>(
    rt: &impl Abort,
    alloc: Global,
    heap: &LocalHeap,
    hole: usize,
    bench: &mut Bench<A>,
    which: Call,
) -> Result<bool, OutOfMemory> {
    let before = shown(bench);
    let first = call_in_hole(alloc, heap, hole, bench, which)?;
    if first.is_ok() {
        return Ok(false);
    }
    let then = shown(bench);
    let again = make_call(bench, which);
    expect_equal(
        rt,
        "refused, and again",
        (first, then, again),
        (Err(RefusalKind::OutOfMemory), before, Ok(())),
    );
    Ok(true)
}

// Calls each in turn, and counts those that were refused at first.
fn call_each<A: Allocator + Copy>(
    rt: &impl Abort,
    alloc: Global,
    heap: &LocalHeap,
    hole: usize,
    bench: &mut Bench<A>,
    refused: &mut [u32],
) -> Result<(), OutOfMemory> {
    for (which, count) in CALLS.iter().zip(refused.iter_mut()) {
        if call_twice(rt, alloc, heap, hole, bench, *which)? {
            *count = count.saturating_add(1);
        }
    }
    let old = [Err(RefusalKind::OldGeneration); 3];
    expect_equal(rt, "reset", shown(bench), old);
    Ok(())
}

// The first extent begins with 100 bytes, appended by a writer that has a group engaged.
fn furnish<A: Allocator + Copy>(bench: &mut Bench<A>) -> Said {
    let Ok(group) = bench.groups.create() else {
        return Err(RefusalKind::OutOfMemory);
    };
    kind_of(bench.groups.engage(WriterNo(0), group))?;
    append_engaged(bench, &[7; 100])
}

fn call_anew(
    rt: &impl Abort,
    alloc: Global,
    heap: &LocalHeap,
    hole: usize,
    refused: &mut [u32],
) -> Result<(), Fail> {
    let mut bench = open_bench(rt, heap, Format::One, &[])?;
    expect_equal(rt, "first", furnish(&mut bench), Ok(()));
    let called = call_each(rt, alloc, heap, hole, &mut bench, refused);
    drop(bench);
    Ok(called?)
}

// Each hole is larger than the one before it, so that one allocation more succeeds now and then, until all do. How many of
// the calls were refused.
fn refuse_each(rt: &impl Abort, alloc: Global, heap: &LocalHeap) -> Result<(), Fail> {
    let mut refused = [0u32; 3];
    for size in 0..400usize {
        let before = refused;
        call_anew(rt, alloc, heap, hole_of(size), &mut refused)?;
        expect_equal(rt, "used", heap.used(), 0);
        if refused == before {
            expect_equal(rt, "never refused", refused.contains(&0), false);
            return Ok(());
        }
    }
    Err(Fail::from("refused in the largest hole"))
}

#[test]
fn each_call_is_refused_and_repeated(rt: HostRuntime) -> Result<(), Fail> {
    let heap = LocalHeap::new(rt.alloc(), HEAP)?;
    refuse_each(&rt, rt.alloc(), &heap)
}

// What comes of the merge of one byte more, or nothing where the append is refused.
fn merge_one<A: Allocator + Copy>(bench: &mut Bench<A>) -> Option<MergeOutcome> {
    match append(bench, None, 0, &[7], &[]) {
        Ok(appended) => Some(appended.merge),
        Err(_) => None,
    }
}

// What comes of the merges of a first byte and of another, where only a hole of this size is left.
type Merges = (Option<MergeOutcome>, Option<MergeOutcome>);

fn merge_twice<A: Allocator + Copy>(
    alloc: Global,
    heap: &LocalHeap,
    hole: usize,
    bench: &mut Bench<A>,
) -> Result<Merges, OutOfMemory> {
    let first = merge_one(bench);
    let ballast = fill(alloc, heap, hole)?;
    let outcome = merge_one(bench);
    drop(ballast);
    Ok((first, outcome))
}

fn merge_in_hole(
    rt: &impl Abort,
    alloc: Global,
    heap: &LocalHeap,
    hole: usize,
) -> Result<Merges, Fail> {
    let mut bench = open_bench(rt, heap, Format::One, &[])?;
    let merges = merge_twice(alloc, heap, hole, &mut bench);
    drop(bench);
    Ok(merges?)
}

// The same in one hole after another, until the second is made.
fn merge_in_each(rt: &impl Abort, alloc: Global, heap: &LocalHeap) -> Result<(), Fail> {
    let mut before = None;
    for size in 0..400usize {
        let (first, outcome) = merge_in_hole(rt, alloc, heap, hole_of(size))?;
        expect_equal(rt, "first", first, Some(MergeOutcome::NotLegal));
        if outcome == Some(MergeOutcome::Made) {
            expect_equal(rt, "smaller", before, Some(MergeOutcome::NoMemory));
            return Ok(());
        }
        before = outcome;
    }
    Err(Fail::from("not merged in the largest hole"))
}

#[test]
fn a_merge_without_memory_is_told(rt: HostRuntime) -> Result<(), Fail> {
    let heap = LocalHeap::new(rt.alloc(), HEAP)?;
    merge_in_each(&rt, rt.alloc(), &heap)
}

// Why extents aren't opened, if they aren't.
type Why = Option<ExtentsFault>;

// The same where only a small hole is left, and again with memory.
fn faults_of<'a>(
    rt: &impl Abort,
    alloc: Global,
    heap: &'a LocalHeap,
    cache: &Cache<&'a LocalHeap>,
) -> Result<(Why, Why), OutOfMemory> {
    let ballast = fill(alloc, heap, 16)?;
    let first = open_extents(rt, heap, cache, Format::One).err();
    drop(ballast);
    let again = open_extents(rt, heap, cache, Format::One).err();
    Ok((first, again))
}

fn faults_in_hole(
    rt: &impl Abort,
    alloc: Global,
    heap: &LocalHeap,
    records: &[u8],
) -> Result<(Why, Why), OutOfMemory> {
    let cache = open_cache(rt, heap, Format::One, records)?;
    let faults = faults_of(rt, alloc, heap, &cache);
    drop(cache);
    faults
}

fn expect_faults(rt: &impl Abort, alloc: Global, heap: &LocalHeap) -> Result<(), Fail> {
    let good = faults_in_hole(rt, alloc, heap, &[])?;
    expect_equal(rt, "good", good, (Some(ExtentsFault::OutOfMemory), None));
    let bad = faults_in_hole(rt, alloc, heap, b"\0\0\0\0\0\x01\0\x01")?;
    let fault = Some(ExtentsFault::BadPointer);
    expect_equal(rt, "bad", bad, (fault, fault));
    Ok(())
}

#[test]
fn pointers_are_read_before_memory_is_asked_for(rt: HostRuntime) -> Result<(), Fail> {
    let heap = LocalHeap::new(rt.alloc(), HEAP)?;
    expect_faults(&rt, rt.alloc(), &heap)
}

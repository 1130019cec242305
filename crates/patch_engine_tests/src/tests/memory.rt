//! Memory that is short, and memory that stays flat.
use super::*;
use linked_list_allocator::LocalHeap;

// Takes all memory that is left in pieces of so many bytes. Who holds it keeps them.
fn fill<'a>(heap: &'a LocalHeap, alloc: Global) -> Vec<Vec<u8, &'a LocalHeap>> {
    let mut all = Vec::new(alloc);
    for size in [4096, 512, 64, 16, 8] {
        fill_with(heap, size, &mut all);
    }
    all
}

fn fill_with<'a>(heap: &'a LocalHeap, size: usize, all: &mut Vec<Vec<u8, &'a LocalHeap>>) {
    for _ in 0..10_000 {
        let Ok(piece) = Vec::with_capacity(heap, size) else {
            return;
        };
        if all.push(piece).is_err() {
            return;
        }
    }
}

type InHeap<'a> = Engine<&'a LocalHeap>;

// An engine with one block, and a patch of it.
fn open_in<'a>(rt: &impl Abort, heap: &'a LocalHeap) -> InHeap<'a> {
    let mut engine = open(rt, heap);
    let admitted = admit(rt, heap, &mut engine, 0, 0);
    expect_equal(rt, "admit", admitted, Ok(()));
    make(rt, &mut engine, 0, 0, b"a", &[]);
    engine
}

// Neither a send nor a patch has memory, and nothing changes.
fn expect_starved<'a>(rt: &impl Abort, engine: &mut InHeap<'a>) {
    expect_unsent(rt, engine, 0, SendRefusal::OutOfMemory);
    expect_unsent(rt, engine, 1, SendRefusal::NotResident(BlockNo(1)));
    let made = engine.patch(None, BlockNo(0), 0, b"b", &[], Undo::Keep);
    expect_equal(rt, "patch", made, Err(CreateRefusal::OutOfMemory));
    let mark = engine.mark_of(PatchNo(0));
    expect_equal(rt, "mark", mark, Some(Mark::Memory));
}

#[test]
fn a_send_without_memory_begins_nothing(rt: HostRuntime) {
    let alloc = rt.alloc();
    let heap = LocalHeap::new(alloc, 64 * 1024).expect(&rt, "a heap");
    let mut engine = open_in(&rt, &heap);
    let full = fill(&heap, alloc);
    expect_starved(&rt, &mut engine);
    drop(full);
    drop(engine);
}

#[test]
fn a_completion_takes_no_memory(rt: HostRuntime) {
    let alloc = rt.alloc();
    let heap = LocalHeap::new(alloc, 64 * 1024).expect(&rt, "a heap");
    let mut engine = open_in(&rt, &heap);
    let number = send(&rt, &mut engine, 0, b"a");
    let full = fill(&heap, alloc);
    let ended = engine.complete(BlockNo(0), number);
    expect_equal(&rt, "complete", ended, Ok(()));
    drop(full);
    drop(engine);
}

// One patch after another is written, thousands of them, in a heap that would not hold a trace of them.
fn write_one<'a>(rt: &impl Abort, engine: &mut InHeap<'a>) {
    make(rt, engine, 0, 0, b"abcdefgh", &[]);
    let number = send(rt, engine, 0, b"abcdefgh");
    let ended = engine.complete(BlockNo(0), number);
    expect_equal(rt, "complete", ended, Ok(()));
}

#[test]
fn a_long_run_takes_no_more_memory(rt: HostRuntime) {
    let heap = LocalHeap::new(rt.alloc(), 64 * 1024).expect(&rt, "a heap");
    let mut engine = open_in(&rt, &heap);
    for _ in 0..5000 {
        write_one(&rt, &mut engine);
    }
    let counts = (engine.made(), engine.durable_below());
    expect_equal(&rt, "counts", counts, (5001, 5001));
    drop(engine);
}

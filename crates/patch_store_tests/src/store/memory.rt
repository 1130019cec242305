//! Each allocation of a call refused in turn: what that leaves, and that the same call is done by the same store with memory.
use super::*;
use linked_list_allocator::LocalHeap;
use patch_device::MemDevice;
use patch_store::flush;
use patch_testing::{fill, hole_of};

// How many bytes the heap has: a cache of 67 blocks, and more.
const HEAP: usize = 1_048_576;

// How many blocks a disk of four extents has.
const COUNT: u32 = 67;

// The first extent is full, and has the frames of `o` and `p` at its front: it isn't the one that puts append to.
const FULL: &[Piece<'static>] = &[
    (3, 0, b"FCH1\x01\0\0\0\0\0\0\x03oold1HCF"),
    (3, 20, b"FCH1\x01\0\0\0\0\0\0\x04pmore1HCF"),
    (2, 0, b"\0\0\0\0\0\x01\0\0"),
    (1, 0, b"\x01\x01\0\0\0\0\0\0\0\0\0\0\0\0\0\x14o"),
    (1, 64, b"\x01\x01\0\0\0\0\0\0\0\0\0\x14\0\0\0\x15p"),
];

// The longest value of these tests.
const LONG: [u8; 100] = [7; 100];

// A value of `a`, and two of `b`.
const FURNISHED: &[Turn<'static>] = &[
    (Put(b"a", b"first"), Ok(())),
    (Put(b"b", &LONG), Ok(())),
    (Put(b"b", &LONG), Ok(())),
];

// The keys that no call changes have these values.
const OTHERS: &[Turn<'static>] = &[
    (Get(b"b", Some(&LONG)), Ok(())),
    (Get(b"o", Some(b"old")), Ok(())),
    (Get(b"p", Some(b"more")), Ok(())),
];

// The values of `a` and `c` before each call.
const BEFORE: &[Turn<'static>] = &[
    (Get(b"a", Some(b"first")), Ok(())),
    (Get(b"c", None), Ok(())),
];

// What is called where only one hole is left in the heap.
#[derive(Clone, Copy)]
enum Call {
    Asked(Ask<'static>),
    Flush,
}

// A call, the values of `a` and `c` behind it, whether no patch lives then, and how fast its holes grow.
struct Case {
    call: Call,
    then: &'static [Turn<'static>],
    is_clean: bool,
    stride: usize,
}

const PUT: &Case = &Case {
    call: Call::Asked(Put(b"c", b"new")),
    then: &[
        (Get(b"a", Some(b"first")), Ok(())),
        (Get(b"c", Some(b"new")), Ok(())),
    ],
    is_clean: false,
    stride: 1,
};

const REPLACE: &Case = &Case {
    call: Call::Asked(Put(b"a", b"second")),
    then: &[
        (Get(b"a", Some(b"second")), Ok(())),
        (Get(b"c", None), Ok(())),
    ],
    is_clean: false,
    stride: 1,
};

const DELETE: &Case = &Case {
    call: Call::Asked(Delete(b"a")),
    then: &[(Get(b"a", None), Ok(())), (Get(b"c", None), Ok(()))],
    is_clean: false,
    stride: 1,
};

const RECLAIM: &Case = &Case {
    call: Call::Asked(Reclaim(0)),
    then: BEFORE,
    is_clean: false,
    stride: 1,
};

// It takes images of whole blocks.
const FLUSH: &Case = &Case {
    call: Call::Flush,
    then: BEFORE,
    is_clean: true,
    stride: 8,
};

fn make_call<A: Allocator + Copy>(
    store: &mut Store<A>,
    device: &mut MemDevice,
    call: Call,
) -> Said {
    match call {
        Call::Asked(what) => said_to(store, what),
        Call::Flush => kind_of(flush(store, device)),
    }
}

// Calls where only a hole of this size is left.
fn call_in_hole<A: Allocator + Copy>(
    alloc: Global,
    heap: &LocalHeap,
    hole: usize,
    store: &mut Store<A>,
    device: &mut MemDevice,
    call: Call,
) -> Result<Said, OutOfMemory> {
    let ballast = fill(alloc, heap, hole)?;
    let answer = make_call(store, device, call);
    drop(ballast);
    Ok(answer)
}

// Every key has its value, `a` and `c` these.
fn expect_values<A: Allocator + Copy>(rt: &impl Abort, store: &mut Store<A>, values: &[Turn<'_>]) {
    let other = (walk(store, values), walk(store, OTHERS));
    expect_eq(rt, &other, &(None, None));
}

// Calls again what was refused, and was to change nothing.
fn call_again<A: Allocator + Copy>(
    rt: &impl Abort,
    store: &mut Store<A>,
    device: &mut MemDevice,
    call: Call,
    first: Said,
) {
    expect_values(rt, store, BEFORE);
    let again = make_call(store, device, call);
    expect_eq(
        rt,
        &(first, again),
        &(Err(RefusalKind::OutOfMemory), Ok(())),
    );
}

// Calls where only a hole of this size is left, and again with memory where that is refused. Whether it was.
fn call_twice<A: Allocator + Copy>(
    rt: &impl Abort,
    alloc: Global,
    heap: &LocalHeap,
    hole: usize,
    store: &mut Store<A>,
    device: &mut MemDevice,
    case: &Case,
) -> Result<bool, OutOfMemory> {
    let first = call_in_hole(alloc, heap, hole, store, device, case.call)?;
    if first.is_err() {
        call_again(rt, store, device, case.call, first);
    }
    expect_values(rt, store, case.then);
    expect_eq(rt, &(store.cache().live() == 0), &case.is_clean);
    Ok(first.is_err())
}

fn new_store<A: Allocator + Copy>(rt: &impl Abort, heap: A) -> Result<Store<A>, Fail> {
    behind(rt, heap, OF_FOUR, FULL, FURNISHED)
}

// The same of a new store.
fn call_anew(
    rt: &impl Abort,
    alloc: Global,
    heap: &LocalHeap,
    hole: usize,
    device: &mut MemDevice,
    case: &Case,
) -> Result<bool, Fail> {
    let mut store = new_store(rt, heap)?;
    let refused = call_twice(rt, alloc, heap, hole, &mut store, device, case);
    drop(store);
    Ok(refused?)
}

// Each hole is larger than the one before it, so that one allocation more succeeds now and then, until all do.
fn refuse_each_in(
    rt: &impl Abort,
    alloc: Global,
    heap: &LocalHeap,
    device: &mut MemDevice,
    case: &Case,
) -> Result<(), Fail> {
    for turn in 0..1000usize {
        let hole = hole_of(turn.saturating_mul(case.stride));
        let refused = call_anew(rt, alloc, heap, hole, device, case)?;
        expect_eq(rt, &heap.used(), &0);
        if !refused {
            assert!(rt; turn > 0);
            return Ok(());
        }
    }
    Err(Fail::from("refused in the largest hole"))
}

fn refuse_each(rt: &impl Abort, alloc: Global, case: &Case) -> Result<(), Fail> {
    let mut device = MemDevice::new(alloc, COUNT)?;
    let heap = LocalHeap::new(alloc, HEAP)?;
    let refused = refuse_each_in(rt, alloc, &heap, &mut device, case);
    drop(device);
    refused
}

#[test]
fn a_put_is_refused_whole(rt: HostRuntime) -> Result<(), Fail> {
    refuse_each(&rt, rt.alloc(), PUT)
}

#[test]
fn a_put_in_place_of_a_value_is_refused_whole(rt: HostRuntime) -> Result<(), Fail> {
    refuse_each(&rt, rt.alloc(), REPLACE)
}

#[test]
fn a_delete_is_refused_whole(rt: HostRuntime) -> Result<(), Fail> {
    refuse_each(&rt, rt.alloc(), DELETE)
}

#[test]
fn a_reclaim_that_is_refused_loses_no_value(rt: HostRuntime) -> Result<(), Fail> {
    refuse_each(&rt, rt.alloc(), RECLAIM)
}

#[test]
fn a_flush_that_is_refused_loses_no_value(rt: HostRuntime) -> Result<(), Fail> {
    refuse_each(&rt, rt.alloc(), FLUSH)
}

fn count_merges(steps: &[Step]) -> u32 {
    let mut merges = 0u32;
    for step in steps {
        if let Step::Merge { .. } = step {
            merges = merges.saturating_add(1);
        }
    }
    merges
}

const FIVE: &[Turn<'static>] = &[
    (Put(b"a", &[0]), Ok(())),
    (Put(b"a", &[1]), Ok(())),
    (Put(b"a", &[2]), Ok(())),
    (Put(b"a", &[3]), Ok(())),
    (Put(b"a", &[4]), Ok(())),
];

fn expect_merges(rt: &impl Abort, alloc: Global) -> Result<(), Fail> {
    let store = behind(rt, alloc, OF_FOUR, &[], FIVE)?;
    let merges = (count_merges(store.cache().trace()), store.merges_left_out());
    drop(store);
    expect_eq(rt, &merges, &(4, 0));
    Ok(())
}

#[test]
fn each_later_put_merges_its_pointer_patch(rt: HostRuntime) -> Result<(), Fail> {
    expect_merges(&rt, rt.alloc())
}

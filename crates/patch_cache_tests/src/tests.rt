//! Worked scripts, the calls one by one, writes in waves, want of memory, and the texts of refusals.
use patch_cache::*;
use patch_device::{Device, FaultyDevice, MemDevice};
use patch_model::{BLOCK, BlockNo, MAX_BLOCKS, Mark, OutOfMemory, PatchNo, Refusal, Refuses, Undo};
use patch_testing::zeros;
use std::alloc::{Allocator, Global};
use std::fmt::Debug;
use std::process::Abort;
use std::test::Fail;

mod agreeing;
mod asked;
mod calls;
mod example;
mod memory;
mod names;
mod paging;
mod scripts;
mod waves;

// Asserts of what is named.
fn expect_equal<T: Copy + Debug + PartialEq>(rt: &impl Abort, what: &str, got: T, want: T) {
    assert_eq!(rt; got, want, "{what}");
}

// A cache of so many blocks of zeros.
fn open_zeros<A: Allocator + Copy>(rt: &impl Abort, alloc: A, count: usize) -> Cache<A> {
    let blocks = zeros(alloc, count).expect(rt, "blocks");
    assert!(rt; !blocks.is_empty() && blocks.len() <= MAX_BLOCKS);
    Cache::open(alloc, blocks).expect(rt, "a cache")
}

fn open_device(rt: &impl Abort, alloc: Global, count: u32) -> MemDevice {
    MemDevice::new(alloc, count).expect(rt, "a device")
}

// A cache with the flights that it waits for, and its device.
struct Bench<A: Allocator + Copy, D> {
    cache: Cache<A>,
    flights: Flights<A>,
    device: D,
}

// A cache of so many blocks of zeros over this device.
fn open_bench<A: Allocator + Copy, D>(
    rt: &impl Abort,
    alloc: A,
    count: usize,
    device: D,
) -> Bench<A, D> {
    Bench {
        cache: open_zeros(rt, alloc, count),
        flights: Flights::new(alloc),
        device,
    }
}

fn close<A: Allocator + Copy, D: Drop>(bench: Bench<A, D>) {
    let Bench {
        cache,
        flights,
        device,
    } = bench;
    flights.abandon();
    drop(device);
    drop(cache);
}

// The answers to a list of asks, or those before there was no room for one more.
fn answers_of<A: Allocator + Copy, D: Device>(
    bench: &mut Bench<A, D>,
    asks: &[Ask<A>],
) -> Vec<Answer<A>, A> {
    match bench.cache.run(&mut bench.flights, &mut bench.device, asks) {
        Ok(answers) => answers,
        Err((answers, OutOfMemory)) => answers,
    }
}

// A cache of two blocks over a device that refuses this write, which lands or not.
fn open_over(
    rt: &impl Abort,
    alloc: Global,
    count: u32,
    refused: u64,
    lands: bool,
) -> Bench<Global, FaultyDevice<MemDevice>> {
    let inner = open_device(rt, alloc, count);
    let device = FaultyDevice::new(inner, refused, lands);
    open_bench(rt, alloc, count as usize, device)
}

// Makes a patch, which goes after those that are named.
fn make<A: Allocator + Copy>(
    rt: &impl Abort,
    cache: &mut Cache<A>,
    block: u32,
    start: usize,
    bytes: &[u8],
    after: &[PatchNo],
) -> PatchNo {
    let made = cache.create(BlockNo(block), start, bytes, after, Undo::Keep);
    made.expect(rt, "a patch")
}

fn send<A: Allocator + Copy>(rt: &impl Abort, cache: &mut Cache<A>, block: u32) -> Flight<A> {
    cache.send(BlockNo(block)).expect(rt, "a flight")
}

// Sends a block, and gives the write up.
fn send_in_vain<A: Allocator + Copy>(cache: &mut Cache<A>, block: u32) -> Result<(), SendRefusal> {
    cache.send(BlockNo(block))?.abandon();
    Ok(())
}

// Writes a flight out that the device refused.
fn written_again<A: Allocator, D: Device>(
    rt: &impl Abort,
    device: &mut D,
    flight: Flight<A>,
) -> Landed {
    match write_out(device, flight) {
        Ok(landed) => landed,
        Err((flight, Fault)) => {
            flight.abandon();
            panic!(rt; "refused again")
        }
    }
}

// Writes the flight out, and again where the device refuses that. Whether it did.
fn written<A: Allocator, D: Device>(
    rt: &impl Abort,
    device: &mut D,
    flight: Flight<A>,
) -> (Landed, bool) {
    match write_out(device, flight) {
        Ok(landed) => (landed, false),
        Err((flight, Fault)) => (written_again(rt, device, flight), true),
    }
}

// Gives a completion up. Its block, and the number of its write.
fn abandoned(landed: Landed) -> (BlockNo, u32) {
    let shown = (landed.block(), landed.number());
    landed.abandon();
    shown
}

// Completes a write, which the cache waits for or not.
fn completed<A: Allocator + Copy>(
    cache: &mut Cache<A>,
    landed: Landed,
) -> Result<Done<A>, (BlockNo, u32)> {
    match cache.complete(landed) {
        Ok(done) => Ok(done),
        Err(stranger) => Err(abandoned(stranger)),
    }
}

// How many patches were made and are live, how far the first two have come, which block is ready, and how long the trace is.
type Shown = (u32, u32, [Option<Mark>; 2], Option<BlockNo>, usize);

fn shown<A: Allocator + Copy>(cache: &mut Cache<A>) -> Shown {
    let ready = cache.next_ready();
    let marks = [cache.mark_of(PatchNo(0)), cache.mark_of(PatchNo(1))];
    (
        cache.made(),
        cache.live(),
        marks,
        ready,
        cache.trace().len(),
    )
}

fn expect_shown<A: Allocator + Copy>(rt: &impl Abort, cache: &mut Cache<A>, want: Shown) {
    expect_equal(rt, "shown", shown(cache), want);
}

// What is read of a block.
fn expect_read<A: Allocator + Copy>(
    rt: &impl Abort,
    cache: &Cache<A>,
    block: u32,
    start: usize,
    len: usize,
    want: &[u8],
) {
    let read = cache.read(BlockNo(block), start, len);
    expect_equal(rt, "bytes", read.ok(), Some(want));
}

// Why a span isn't read.
fn expect_no_read(
    rt: &impl Abort,
    cache: &Cache,
    block: u32,
    span: (usize, usize),
    want: ReadRefusal,
) {
    let read = cache.read(BlockNo(block), span.0, span.1);
    expect_equal(rt, "refusal", read.err(), Some(want));
}

// A move of a view, what it is answered, and what the view then has from its third byte on.
type Moved = (Move, Result<(), Refusal>, &'static [u8]);

// Why that is refused, if it is.
fn outcome<T: Copy, R: Refuses + Copy>(answer: Result<T, R>) -> Result<(), Refusal> {
    match answer {
        Ok(_) => Ok(()),
        Err(refusal) => Err(refusal.refusal()),
    }
}

fn move_in<A: Allocator + Copy>(view: &mut CacheView<A>, next: Move) -> Result<(), Refusal> {
    match next {
        Move::Take(no) => outcome(view.take(no)),
        Move::Back(no) => outcome(view.put_back(no)),
    }
}

fn expect_move<A: Allocator + Copy>(rt: &impl Abort, view: &mut CacheView<A>, moved: &Moved) {
    let (next, want, bytes) = moved;
    expect_equal(rt, "move", move_in(view, *next), *want);
    let seen = view.bytes().get(2..4);
    expect_equal(rt, "bytes in view", seen, Some(*bytes));
}

fn expect_moves<A: Allocator + Copy>(rt: &impl Abort, view: &mut CacheView<A>, moves: &[Moved]) {
    for moved in moves {
        expect_move(rt, view, moved);
    }
}

// Moves in a view of the block.
fn view_through<A: Allocator + Copy>(
    rt: &impl Abort,
    cache: &mut Cache<A>,
    block: u32,
    moves: &[Moved],
) -> Result<(), ViewRefusal> {
    match cache.view(BlockNo(block)) {
        Ok(mut view) => {
            expect_moves(rt, &mut view, moves);
            view.restore();
            Ok(())
        }
        Err(refusal) => Err(refusal),
    }
}

static ZEROS: [u8; BLOCK] = [0; BLOCK];

// Whether the bytes are these, and zeros behind them.
fn is_start(bytes: &[u8], start: &[u8]) -> bool {
    let count = start.len();
    let zeros = ZEROS.get(..bytes.len().saturating_sub(count));
    bytes.get(..count) == Some(start) && bytes.get(count..) == zeros
}

// What a block of the disk begins with; the rest are zeros.
fn expect_disk<D: Device>(rt: &impl Abort, device: &mut D, block: u32, start: &[u8]) {
    let mut bytes = [0xee; BLOCK];
    let read = device.read(block, &mut bytes).is_ok();
    let got = (block, read, is_start(&bytes, start));
    expect_equal(rt, "disk", got, (block, true, true));
}

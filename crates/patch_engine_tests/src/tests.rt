//! The calls one by one, groups in order, want of memory, and the names of refusals.
use patch_engine::*;
use patch_model::{BLOCK, MAX_CACHED};
use std::alloc::{Allocator, Global};
use std::fmt::Debug;
use std::process::Abort;

mod groups;
mod memory;
mod names;
mod paging;
mod patches;
mod writes;

// Asserts of what is named.
fn expect_equal<T: Copy + Debug + PartialEq>(rt: &impl Abort, what: &str, got: T, want: T) {
    assert_eq!(rt; got, want, "{what}");
}

static ZEROS: [u8; BLOCK] = [0; BLOCK];

fn open<A: Allocator + Copy>(rt: &impl Abort, alloc: A) -> Engine<A> {
    Engine::open(alloc, 100).expect(rt, "an engine")
}

// Hands the engine a block that begins with this byte, and has zeros behind it.
fn admit<A: Allocator + Copy>(
    rt: &impl Abort,
    alloc: A,
    engine: &mut Engine<A>,
    block: u32,
    first: u8,
) -> Result<(), AdmitRefusal> {
    let mut bytes = Vec::from_slice(alloc, &ZEROS).expect(rt, "a block");
    bytes[0] = first;
    engine.admit(BlockNo(block), BlockBytes::from_vec(bytes))
}

// An engine that has these two blocks of zeros.
fn open_with(rt: &impl Abort, alloc: Global, blocks: [u32; 2]) -> Engine {
    let mut engine = open(rt, alloc);
    for block in blocks {
        let admitted = admit(rt, alloc, &mut engine, block, 0);
        expect_equal(rt, "admit", admitted, Ok(()));
    }
    engine
}

// Makes a patch of no writer, which goes after those that are named.
fn make<A: Allocator + Copy>(
    rt: &impl Abort,
    engine: &mut Engine<A>,
    block: u32,
    start: usize,
    bytes: &[u8],
    after: &[PatchNo],
) -> PatchNo {
    let made = engine.patch(None, BlockNo(block), start, bytes, after, Undo::Keep);
    made.expect(rt, "a patch")
}

// What is read of a block.
fn expect_read<A: Allocator + Copy>(
    rt: &impl Abort,
    engine: &Engine<A>,
    block: u32,
    start: usize,
    want: &[u8],
) {
    let read = engine.read(BlockNo(block), start, want.len());
    expect_equal(rt, "bytes", read.ok(), Some(want));
}

// Sends a block, whose image begins so and has zeros behind that. The number of the write.
fn send<A: Allocator + Copy>(
    rt: &impl Abort,
    engine: &mut Engine<A>,
    block: u32,
    start: &[u8],
) -> u32 {
    let mut image = [0xee; BLOCK];
    let number = engine
        .send(BlockNo(block), &mut image)
        .expect(rt, "a write");
    assert!(rt; is_start(&image, start));
    number
}

// Whether the bytes are these, and zeros behind them.
fn is_start(bytes: &[u8], start: &[u8]) -> bool {
    let rest = ZEROS.get(..bytes.len().saturating_sub(start.len()));
    bytes.get(..start.len()) == Some(start) && bytes.get(start.len()..) == rest
}

// Sends a block that can't be sent, and leaves the buffer as it is.
fn expect_unsent<A: Allocator + Copy>(
    rt: &impl Abort,
    engine: &mut Engine<A>,
    block: u32,
    want: SendRefusal,
) {
    let mut image = [0xee; BLOCK];
    let sent = engine.send(BlockNo(block), &mut image);
    expect_equal(rt, "send", sent, Err(want));
    expect_equal(rt, "buffer", image.get(..2), Some(&[0xee, 0xee]));
}

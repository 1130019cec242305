//! The exports, called as C calls them.
ghost use Rattle.std.specs.Prelude.{IsFalse};

use crate::counting::{fstch_cache_counts, fstch_cache_mark};
use crate::grouping::{
    fstch_cache_group, fstch_cache_group_close, fstch_cache_group_depend,
    fstch_cache_group_disengage, fstch_cache_group_engage, fstch_cache_group_pending,
};
use crate::handle::Handle;
use crate::opening::{fstch_cache_close, fstch_cache_open, fstch_cache_renew};
use crate::paging::{fstch_cache_evict, fstch_core_cache_admit};
use crate::patching::{fstch_cache_merge, fstch_cache_patch};
use crate::reading::{fstch_core_cache_read, fstch_core_cache_without};
use crate::writing::{
    fstch_cache_complete, fstch_cache_flight, fstch_cache_image, fstch_cache_next, fstch_cache_send,
};
use patch_handles::{DONE, IS_OPEN, NOT_OPEN};
use patch_model::BLOCK;
use std::alloc::Global;
use std::fmt::Debug;
use std::process::Abort;

const NO_WRITER: u32 = u32::MAX;

// What stands where a call may tell a number.
const KEPT: u32 = 77;

// What stands where a call may copy bytes.
const FILL: u8 = b'.';

// A call of an export. With a `room` it copies into so many bytes, or so many numbers.
#[derive(Clone, Copy)]
enum Call {
    Open(u32),
    Renew,
    Close,
    // Makes the block resident, of so many bytes that are all this one.
    Admit(u32, u8, usize),
    Evict(u32),
    // Makes a patch of a writer: the bytes in a block from a place on, behind these patches, with these flags.
    Patch(u32, u32, usize, &'static [u8], &'static [u32], u32),
    Merge(u32, u32),
    Read(u32, usize, usize),
    Without(u32, &'static [u32], usize, usize),
    Mark(u32),
    Counts,
    Next,
    Send(u32, usize),
    Image(u32, u32, usize),
    Flight(u32, u32, usize),
    Complete(u32, u32),
    Group,
    Engage(u32, u32),
    Disengage(u32, u32),
    Depend(u32, u32),
    CloseGroup(u32),
    Pending(u32),
    // No call: whether these bytes were copied to the place in the buffer, where all was filled before.
    Shows(usize, &'static [u8]),
    // No call: the first two of the numbers that were copied.
    Numbers,
}

// The answer of a call, and the numbers that it tells.
type Told = (i32, u32, u32);

type Move = (Call, Told);

// Where calls copy to.
#[derive(Drop)]
struct Buffers {
    bytes: [u8; BLOCK],
    numbers: [u32; 4],
}

// Ends the test, telling both, unless what came is what is wanted.
fn expect_eq<T: PartialEq + Debug>(rt: &impl Abort, got: &T, want: &T) {
    assert_eq!(rt; *got, *want);
}

fn told(answer: i32) -> Told {
    (answer, KEPT, KEPT)
}

// So many first bytes.
fn part(into: &mut [u8], room: usize) -> &mut [u8] {
    let room = room.min(into.len());
    into.fill(FILL);
    &mut into[..room]
}

fn admit(alloc: Global, handle: &mut Handle, block: u32, byte: u8, len: usize) -> Told {
    let bytes = [byte; BLOCK];
    told(fstch_core_cache_admit(handle, alloc, block, &bytes[..len.min(BLOCK)]))
}

fn merge(alloc: Global, handle: &mut Handle, a: u32, b: u32) -> Told {
    let mut name = KEPT;
    let mut which = KEPT;
    let answer = fstch_cache_merge(handle, alloc, a, b, &mut name, &mut which);
    (answer, name, which)
}

fn mark(alloc: Global, handle: &mut Handle, patch: u32) -> Told {
    let mut mark = KEPT;
    let answer = fstch_cache_mark(handle, alloc, patch, &mut mark);
    (answer, mark, KEPT)
}

// The answer, how many patches were made, and how many are live.
fn counts(alloc: Global, handle: &mut Handle) -> Told {
    let mut blocks = KEPT;
    let mut made = KEPT;
    let mut live = KEPT;
    let mut durable_below = KEPT;
    let answer = fstch_cache_counts(
        handle,
        alloc,
        &mut blocks,
        &mut made,
        &mut live,
        &mut durable_below,
    );
    (answer, made, live)
}

fn next(alloc: Global, handle: &mut Handle) -> Told {
    let mut block = KEPT;
    let answer = fstch_cache_next(handle, alloc, &mut block);
    (answer, block, KEPT)
}

fn send(alloc: Global, handle: &mut Handle, block: u32, into: &mut [u8]) -> Told {
    let mut number = KEPT;
    let answer = fstch_cache_send(handle, alloc, block, &mut number, into);
    (answer, number, KEPT)
}

// How many patches it has.
fn flight(
    alloc: Global,
    handle: &mut Handle,
    block: u32,
    number: u32,
    room: usize,
    numbers: &mut [u32],
) -> Told {
    let mut count = KEPT as usize;
    let room = room.min(numbers.len());
    let answer = fstch_cache_flight(
        handle,
        alloc,
        block,
        number,
        &mut numbers[..room],
        &mut count,
    );
    (answer, count.min(KEPT as usize) as u32, KEPT)
}

fn group(alloc: Global, handle: &mut Handle) -> Told {
    let mut made = KEPT;
    let answer = fstch_cache_group(handle, alloc, &mut made);
    (answer, made, KEPT)
}

fn pending(alloc: Global, handle: &mut Handle, group: u32) -> Told {
    let mut changes = KEPT;
    let answer = fstch_cache_group_pending(handle, alloc, group, &mut changes);
    (answer, changes, KEPT)
}

fn shows(bytes: &[u8], start: usize, wanted: &[u8]) -> Told {
    let Some(rest) = bytes.get(start..) else {
        return told(0);
    };
    told(i32::from(rest.starts_with(wanted)))
}

fn patching(alloc: Global, handle: &mut Handle, call: &Call) -> Told {
    let mut patch = KEPT;
    match call {
        Call::Patch(writer, block, start, bytes, after, flags) => {
            let answer = fstch_cache_patch(
                handle, alloc, *writer, *block, *start, bytes, after, *flags, &mut patch,
            );
            (answer, patch, KEPT)
        }
        Call::Merge(a, b) => merge(alloc, handle, *a, *b),
        Call::Mark(patch) => mark(alloc, handle, *patch),
        _ => counts(alloc, handle),
    }
}

fn copying(alloc: Global, handle: &mut Handle, into: &mut [u8], call: &Call) -> Told {
    let mut which = KEPT;
    match call {
        Call::Read(block, start, room) => told(fstch_core_cache_read(
            handle,
            alloc,
            *block,
            *start,
            part(into, *room),
        )),
        Call::Without(block, patches, start, room) => {
            let answer = fstch_core_cache_without(
                handle,
                alloc,
                *block,
                patches,
                *start,
                part(into, *room),
                &mut which,
            );
            (answer, which, KEPT)
        }
        Call::Send(block, room) => send(alloc, handle, *block, part(into, *room)),
        Call::Image(block, number, room) => told(fstch_cache_image(
            handle,
            alloc,
            *block,
            *number,
            part(into, *room),
        )),
        _ => told(0),
    }
}

fn grouping(alloc: Global, handle: &mut Handle, call: &Call) -> Told {
    match call {
        Call::Group => group(alloc, handle),
        Call::Engage(group, writer) => {
            told(fstch_cache_group_engage(handle, alloc, *group, *writer))
        }
        Call::Disengage(group, writer) => {
            told(fstch_cache_group_disengage(handle, alloc, *group, *writer))
        }
        Call::Depend(later, earlier) => {
            told(fstch_cache_group_depend(handle, alloc, *later, *earlier))
        }
        Call::CloseGroup(group) => told(fstch_cache_group_close(handle, alloc, *group)),
        Call::Pending(group) => pending(alloc, handle, *group),
        _ => told(0),
    }
}

fn paging(alloc: Global, handle: &mut Handle, call: &Call) -> Told {
    match call {
        Call::Open(blocks) => told(fstch_cache_open(handle, alloc, *blocks)),
        Call::Renew => told(fstch_cache_renew(handle, alloc)),
        Call::Close => told(fstch_cache_close(handle, alloc)),
        Call::Admit(block, byte, len) => admit(alloc, handle, *block, *byte, *len),
        Call::Evict(block) => told(fstch_cache_evict(handle, alloc, *block)),
        Call::Next => next(alloc, handle),
        Call::Complete(block, number) => {
            told(fstch_cache_complete(handle, alloc, *block, *number))
        }
        _ => told(0),
    }
}

fn step(alloc: Global, handle: &mut Handle, into: &mut Buffers, call: &Call) -> Told {
    match call {
        Call::Patch(_, _, _, _, _, _) | Call::Merge(_, _) | Call::Mark(_) | Call::Counts => {
            patching(alloc, handle, call)
        }
        Call::Read(_, _, _) | Call::Without(_, _, _, _) | Call::Send(_, _) | Call::Image(_, _, _) =>
            copying(alloc, handle, &mut into.bytes, call),
        Call::Flight(block, number, room) => {
            flight(alloc, handle, *block, *number, *room, &mut into.numbers)
        }
        Call::Group
        | Call::Engage(_, _)
        | Call::Disengage(_, _)
        | Call::Depend(_, _)
        | Call::CloseGroup(_)
        | Call::Pending(_) => grouping(alloc, handle, call),
        Call::Shows(start, bytes) => shows(&into.bytes, *start, bytes),
        Call::Numbers => (DONE, into.numbers[0], into.numbers[1]),
        _ => paging(alloc, handle, call),
    }
}

fn take_steps(rt: &impl Abort, alloc: Global, handle: &mut Handle, moves: &[Move]) {
    let mut into = Buffers {
        bytes: [FILL; BLOCK],
        numbers: [KEPT; 4],
    };
    for (at, (call, wanted)) in moves.iter().enumerate() {
        let seen = step(alloc, handle, &mut into, call);
        expect_eq(rt, &(at, seen), &(at, *wanted));
    }
}

// Lets go of a handle that was closed.
fn forget(handle: Handle)
    requires { IsFalse handle.is_open }
{
    let Handle { is_open: _, sealed } = handle;
    sealed.forget();
}

// Makes the calls, beginning with a closed handle, which they leave closed.
fn walk(rt: &impl Abort, alloc: Global, moves: &[Move]) {
    let mut handle = Handle::closed(alloc);
    take_steps(rt, alloc, &mut handle, moves);
    let closed = fstch_cache_close(&mut handle, alloc);
    forget(handle);
    expect_eq(rt, &closed, &NOT_OPEN);
}

// Two patches of block 0 and one of block 1 that goes before the second.
const WRITES: [Move; 33] = [
    (Call::Open(3), (DONE, KEPT, KEPT)),
    (Call::Admit(0, b'a', BLOCK), (DONE, KEPT, KEPT)),
    (Call::Admit(1, b'b', BLOCK), (DONE, KEPT, KEPT)),
    (
        Call::Patch(NO_WRITER, 0, 1, b"one", &[], 0),
        (DONE, 0, KEPT),
    ),
    (
        Call::Patch(NO_WRITER, 1, 0, b"two", &[], 0),
        (DONE, 1, KEPT),
    ),
    (Call::Patch(0, 0, 2, b"three", &[1], 0), (DONE, 2, KEPT)),
    (Call::Read(0, 0, 9), (DONE, KEPT, KEPT)),
    (Call::Shows(0, b"aonthreea"), (0, KEPT, KEPT)),
    (Call::Shows(0, b"aothreeaa"), (1, KEPT, KEPT)),
    (Call::Without(0, &[2], 0, 5), (DONE, KEPT, KEPT)),
    (Call::Shows(0, b"aonea...."), (1, KEPT, KEPT)),
    (Call::Without(0, &[0], 0, 5), (11, 2, KEPT)),
    (Call::Shows(0, b"....."), (1, KEPT, KEPT)),
    (Call::Counts, (DONE, 3, 3)),
    (Call::Next, (DONE, 0, KEPT)),
    (Call::Send(0, BLOCK), (DONE, 0, KEPT)),
    (Call::Shows(0, b"aoneaaa"), (1, KEPT, KEPT)),
    (Call::Next, (DONE, 1, KEPT)),
    (Call::Send(1, BLOCK), (DONE, 1, KEPT)),
    (Call::Mark(1), (DONE, 1, KEPT)),
    (Call::Next, (25, KEPT, KEPT)),
    (Call::Complete(1, 1), (DONE, KEPT, KEPT)),
    (Call::Mark(1), (DONE, 2, KEPT)),
    (Call::Mark(2), (DONE, 0, KEPT)),
    (Call::Complete(0, 0), (DONE, KEPT, KEPT)),
    (Call::Send(0, BLOCK), (DONE, 2, KEPT)),
    (Call::Shows(0, b"aothreea"), (1, KEPT, KEPT)),
    (Call::Image(0, 2, BLOCK), (DONE, KEPT, KEPT)),
    (Call::Shows(0, b"aothreea"), (1, KEPT, KEPT)),
    (Call::Flight(0, 2, 4), (DONE, 1, KEPT)),
    (Call::Numbers, (DONE, 2, KEPT)),
    (Call::Complete(0, 2), (DONE, KEPT, KEPT)),
    (Call::Close, (DONE, KEPT, KEPT)),
];

#[test]
fn writes_are_in_order(rt: HostRuntime) {
    walk(&rt, rt.alloc(), &WRITES);
}

const MERGES: [Move; 22] = [
    (Call::Open(2), (DONE, KEPT, KEPT)),
    (Call::Admit(0, b'a', BLOCK), (DONE, KEPT, KEPT)),
    (Call::Admit(1, b'b', BLOCK), (DONE, KEPT, KEPT)),
    (Call::Patch(6, 0, 0, b"1", &[], 0), (DONE, 0, KEPT)),
    (Call::Patch(6, 0, 1, b"2", &[], 0), (DONE, 1, KEPT)),
    (Call::Patch(6, 0, 9, b"3", &[], 0), (DONE, 2, KEPT)),
    (Call::Patch(6, 1, 0, b"4", &[1], 0), (DONE, 3, KEPT)),
    (Call::Merge(0, 4), (6, KEPT, KEPT)),
    (Call::Merge(0, 2), (22, KEPT, KEPT)),
    (Call::Merge(0, 3), (21, KEPT, KEPT)),
    (Call::Merge(1, 0), (DONE, 0, KEPT)),
    (Call::Merge(0, 1), (20, KEPT, KEPT)),
    (Call::Without(0, &[1], 0, 2), (DONE, KEPT, KEPT)),
    (Call::Send(0, BLOCK), (DONE, 0, KEPT)),
    (Call::Merge(2, 1), (19, KEPT, 2)),
    (Call::Flight(0, 0, 2), (-4, 3, KEPT)),
    (Call::Numbers, (DONE, KEPT, KEPT)),
    (Call::Flight(0, 0, 3), (DONE, 3, KEPT)),
    (Call::Numbers, (DONE, 0, 1)),
    (Call::Complete(0, 0), (DONE, KEPT, KEPT)),
    (Call::Evict(0), (DONE, KEPT, KEPT)),
    (Call::Close, (DONE, KEPT, KEPT)),
];

#[test]
fn patches_become_one(rt: HostRuntime) {
    walk(&rt, rt.alloc(), &MERGES);
}

const GROUPS: [Move; 30] = [
    (Call::Open(2), (DONE, KEPT, KEPT)),
    (Call::Admit(0, b'a', BLOCK), (DONE, KEPT, KEPT)),
    (Call::Admit(1, b'b', BLOCK), (DONE, KEPT, KEPT)),
    (Call::Group, (DONE, 0, KEPT)),
    (Call::Group, (DONE, 1, KEPT)),
    (Call::Engage(0, 7), (-8, KEPT, KEPT)),
    (Call::Engage(0, NO_WRITER), (-8, KEPT, KEPT)),
    (Call::Engage(2, 0), (27, KEPT, KEPT)),
    (Call::Engage(0, 3), (DONE, KEPT, KEPT)),
    (Call::Engage(0, 3), (31, KEPT, KEPT)),
    (Call::Patch(3, 1, 0, b"first", &[], 0), (DONE, 0, KEPT)),
    (Call::Depend(1, 0), (31, KEPT, KEPT)),
    (Call::CloseGroup(0), (31, KEPT, KEPT)),
    (Call::Disengage(0, 2), (32, KEPT, KEPT)),
    (Call::Disengage(0, 3), (DONE, KEPT, KEPT)),
    (Call::Depend(0, 0), (28, KEPT, KEPT)),
    (Call::Depend(1, 0), (DONE, KEPT, KEPT)),
    (Call::Engage(0, 3), (30, KEPT, KEPT)),
    (Call::Engage(1, 3), (DONE, KEPT, KEPT)),
    (Call::Patch(3, 0, 0, b"second", &[], 0), (DONE, 1, KEPT)),
    (Call::Disengage(1, 3), (DONE, KEPT, KEPT)),
    (Call::Next, (DONE, 1, KEPT)),
    (Call::Send(0, BLOCK), (25, KEPT, KEPT)),
    (Call::Send(1, BLOCK), (DONE, 0, KEPT)),
    (Call::Pending(0), (DONE, 1, KEPT)),
    (Call::Complete(1, 0), (DONE, KEPT, KEPT)),
    (Call::Pending(0), (DONE, 0, KEPT)),
    (Call::Next, (DONE, 0, KEPT)),
    (Call::Pending(2), (27, KEPT, KEPT)),
    (Call::Close, (DONE, KEPT, KEPT)),
];

#[test]
fn groups_are_ordered(rt: HostRuntime) {
    walk(&rt, rt.alloc(), &GROUPS);
}

const RENEWALS: [Move; 20] = [
    (Call::Open(1), (DONE, KEPT, KEPT)),
    (Call::Admit(0, b'a', BLOCK), (DONE, KEPT, KEPT)),
    (Call::Group, (DONE, 0, KEPT)),
    (Call::Engage(0, 0), (DONE, KEPT, KEPT)),
    (Call::Patch(0, 0, 0, b"x", &[], 1), (DONE, 0, KEPT)),
    (Call::Disengage(0, 0), (DONE, KEPT, KEPT)),
    (Call::Renew, (62, KEPT, KEPT)),
    (Call::Evict(0), (62, KEPT, KEPT)),
    (Call::Without(0, &[0], 0, 1), (9, KEPT, KEPT)),
    (Call::Send(0, BLOCK), (DONE, 0, KEPT)),
    (Call::Complete(0, 0), (DONE, KEPT, KEPT)),
    (Call::Renew, (62, KEPT, KEPT)),
    (Call::CloseGroup(0), (DONE, KEPT, KEPT)),
    (Call::Renew, (DONE, KEPT, KEPT)),
    (Call::Counts, (DONE, 0, 0)),
    (Call::Group, (DONE, 0, KEPT)),
    (Call::Patch(0, 0, 1, b"y", &[], 0), (DONE, 0, KEPT)),
    (Call::Read(0, 0, 3), (DONE, KEPT, KEPT)),
    (Call::Shows(0, b"xya."), (1, KEPT, KEPT)),
    (Call::Close, (DONE, KEPT, KEPT)),
];

#[test]
fn caches_begin_anew(rt: HostRuntime) {
    walk(&rt, rt.alloc(), &RENEWALS);
}

const MISUSE: [Move; 58] = [
    (Call::Renew, (NOT_OPEN, KEPT, KEPT)),
    (Call::Close, (NOT_OPEN, KEPT, KEPT)),
    (Call::Admit(0, b'a', 9), (NOT_OPEN, KEPT, KEPT)),
    (Call::Evict(0), (NOT_OPEN, KEPT, KEPT)),
    (Call::Patch(9, 0, 0, b"", &[], 0), (NOT_OPEN, KEPT, KEPT)),
    (Call::Merge(0, 0), (NOT_OPEN, KEPT, KEPT)),
    (Call::Read(0, 0, 4), (NOT_OPEN, KEPT, KEPT)),
    (Call::Shows(0, b"....."), (1, KEPT, KEPT)),
    (Call::Without(0, &[], 0, 4), (NOT_OPEN, KEPT, KEPT)),
    (Call::Mark(0), (NOT_OPEN, KEPT, KEPT)),
    (Call::Counts, (NOT_OPEN, KEPT, KEPT)),
    (Call::Next, (NOT_OPEN, KEPT, KEPT)),
    (Call::Send(0, 4), (NOT_OPEN, KEPT, KEPT)),
    (Call::Image(0, 0, 4), (NOT_OPEN, KEPT, KEPT)),
    (Call::Flight(0, 0, 0), (NOT_OPEN, KEPT, KEPT)),
    (Call::Complete(0, 0), (NOT_OPEN, KEPT, KEPT)),
    (Call::Group, (NOT_OPEN, KEPT, KEPT)),
    (Call::Engage(0, 9), (NOT_OPEN, KEPT, KEPT)),
    (Call::Disengage(0, 9), (NOT_OPEN, KEPT, KEPT)),
    (Call::Depend(0, 0), (NOT_OPEN, KEPT, KEPT)),
    (Call::CloseGroup(0), (NOT_OPEN, KEPT, KEPT)),
    (Call::Pending(0), (NOT_OPEN, KEPT, KEPT)),
    (Call::Open(0), (5, KEPT, KEPT)),
    (Call::Open(16_777_217), (5, KEPT, KEPT)),
    (Call::Open(2), (DONE, KEPT, KEPT)),
    (Call::Open(0), (IS_OPEN, KEPT, KEPT)),
    (Call::Admit(0, b'a', 4095), (-4, KEPT, KEPT)),
    (Call::Admit(2, b'a', BLOCK), (2, KEPT, KEPT)),
    (Call::Admit(0, b'a', BLOCK), (DONE, KEPT, KEPT)),
    (Call::Admit(0, b'a', BLOCK), (-20, KEPT, KEPT)),
    (Call::Evict(2), (2, KEPT, KEPT)),
    (Call::Evict(1), (63, KEPT, KEPT)),
    (Call::Patch(7, 0, 0, b"x", &[], 0), (-8, KEPT, KEPT)),
    (Call::Patch(0, 2, 0, b"x", &[], 0), (2, KEPT, KEPT)),
    (Call::Patch(0, 1, 0, b"x", &[], 0), (63, KEPT, KEPT)),
    (Call::Patch(0, 0, 0, b"", &[], 0), (14, KEPT, KEPT)),
    (Call::Patch(0, 0, 4096, b"x", &[], 0), (15, KEPT, KEPT)),
    (Call::Patch(0, 0, 0, b"x", &[0], 0), (16, KEPT, KEPT)),
    (Call::Merge(0, 0), (6, KEPT, KEPT)),
    (Call::Mark(0), (6, KEPT, KEPT)),
    (Call::Read(2, 0, 4), (2, KEPT, KEPT)),
    (Call::Read(1, 0, 4), (63, KEPT, KEPT)),
    (Call::Read(0, 4093, 4), (15, KEPT, KEPT)),
    (Call::Shows(0, b"....."), (1, KEPT, KEPT)),
    (Call::Without(2, &[], 0, 4), (2, KEPT, KEPT)),
    (Call::Without(1, &[], 0, 4), (63, KEPT, KEPT)),
    (Call::Without(0, &[], 4093, 4), (15, KEPT, KEPT)),
    (Call::Without(0, &[0], 0, 4), (6, KEPT, KEPT)),
    (Call::Next, (25, KEPT, KEPT)),
    (Call::Send(2, BLOCK), (2, KEPT, KEPT)),
    (Call::Send(1, BLOCK), (63, KEPT, KEPT)),
    (Call::Send(0, 4095), (-4, KEPT, KEPT)),
    (Call::Send(0, BLOCK), (25, KEPT, KEPT)),
    (Call::Image(0, 0, BLOCK), (26, KEPT, KEPT)),
    (Call::Flight(0, 0, 4), (26, KEPT, KEPT)),
    (Call::Complete(0, 0), (26, KEPT, KEPT)),
    (Call::Close, (DONE, KEPT, KEPT)),
    (Call::Close, (NOT_OPEN, KEPT, KEPT)),
];

#[test]
fn misuse_is_answered(rt: HostRuntime) {
    walk(&rt, rt.alloc(), &MISUSE);
}

const OUT: [Move; 16] = [
    (Call::Open(1), (DONE, KEPT, KEPT)),
    (Call::Admit(0, b'a', BLOCK), (DONE, KEPT, KEPT)),
    (Call::Patch(NO_WRITER, 0, 4, b"x", &[], 0), (DONE, 0, KEPT)),
    (Call::Send(0, BLOCK), (DONE, 0, KEPT)),
    (Call::Patch(NO_WRITER, 0, 4, b"y", &[], 0), (DONE, 1, KEPT)),
    (Call::Send(0, BLOCK), (24, KEPT, KEPT)),
    (Call::Without(0, &[0], 0, 4), (8, KEPT, KEPT)),
    (Call::Image(0, 0, 4), (-4, KEPT, KEPT)),
    (Call::Shows(0, b"....."), (1, KEPT, KEPT)),
    (Call::Image(0, 0, BLOCK), (DONE, KEPT, KEPT)),
    (Call::Shows(3, b"axa"), (1, KEPT, KEPT)),
    (Call::Image(0, 1, BLOCK), (26, KEPT, KEPT)),
    (Call::Complete(0, 1), (26, KEPT, KEPT)),
    (Call::Complete(0, 0), (DONE, KEPT, KEPT)),
    (Call::Complete(0, 0), (26, KEPT, KEPT)),
    (Call::Close, (DONE, KEPT, KEPT)),
];

#[test]
fn a_write_is_out_until_it_is_completed(rt: HostRuntime) {
    walk(&rt, rt.alloc(), &OUT);
}

//! The exports, called as C calls them: each test is a list of calls, with what each answers and tells.
ghost use Rattle.std.specs.Prelude.{IsFalse};

use crate::counting::{Statistics, fstch_stats};
use crate::deleting::{fstch_delete, fstch_reclaim};
use crate::files::{
    fstch_core_barriers, fstch_core_close, fstch_core_file, fstch_core_make, fstch_core_open,
    fstch_is_open, fstch_version,
};
use crate::groups::{
    fstch_group, fstch_group_close, fstch_group_depend, fstch_group_disengage, fstch_group_engage,
    fstch_group_pending,
};
use crate::handle::Handle;
use crate::listing::{fstch_check, fstch_entry, fstch_extent, fstch_unsynced};
use crate::renewing::fstch_core_renew;
use crate::syncing::{fstch_core_sync, fstch_core_synced, fstch_core_write};
use crate::texts::fstch_error_text;
use crate::values::{fstch_get, fstch_put};
use crate::walking::{fstch_last, fstch_next, fstch_previous};
use patch_handles::{DONE, IS_OPEN, NOT_OPEN};
use patch_model::BLOCK;
use std::alloc::Global;
use std::fmt::Debug;
use std::process::Abort;

const NO_WRITER: u32 = u32::MAX;

// The number of the file.
const FILE: i32 = 3;

// What stands where a call may tell a number.
const KEPT: usize = 7;

// What stands where a call may copy bytes.
const FILL: u8 = b'.';

const ZEROS: [u8; BLOCK] = [0; BLOCK];

// A key of 32 bytes, as many as there may be.
const LONGEST: &[u8] = b"kkkkkkkkkkkkkkkkkkkkkkkkkkkkkkkk";

// A key of 33 bytes, one too many.
const LONG: &[u8] = b"kkkkkkkkkkkkkkkkkkkkkkkkkkkkkkkkk";

// A call of an export. With a `room` it copies into so many bytes.
#[derive(Clone, Copy)]
enum Call {
    // Makes the first block of a file that is divided so.
    Make(u32, u32, u32, usize),
    // Opens the file's bytes, a few others, or zeros.
    Open,
    OpenManual,
    OpenShort,
    OpenZeros,
    IsOpen,
    File,
    Barriers,
    Put(u32, &'static [u8], &'static [u8]),
    Get(&'static [u8], usize),
    Delete(u32, &'static [u8]),
    Reclaim(u32),
    Check,
    Entry(u32, usize),
    Next(&'static [u8], usize),
    Previous(&'static [u8], usize),
    Last(usize),
    Extent(u32),
    Unsynced,
    // Keys and empty extents; syncs and waves; live bytes and those of the file.
    Fullness,
    Tally,
    Sizes,
    Renew,
    // So many groups, each of which is closed.
    Groups(u32),
    // So many values under one key.
    Puts(u32, &'static [u8], &'static [u8]),
    Group,
    Engage(u32, u32),
    Disengage(u32, u32),
    Depend(u32, u32),
    CloseGroup(u32),
    Pending(u32),
    Sync,
    Event(u32, usize),
    Synced(bool),
    // A sync with all its writes.
    Save,
    Close,
    // No call: whether these bytes were copied, and what stood behind them.
    Shows(&'static [u8]),
}

// The answer of a call, and the numbers that it tells.
type Told = (i32, usize, usize);

type Move = (Call, Told);

// Ends the test, telling both, unless what came is what is wanted. A call takes the prover less than `assert_eq!` where it stands.
fn expect_eq<T: PartialEq + Debug>(rt: &impl Abort, got: &T, want: &T) {
    assert_eq!(rt; *got, *want);
}

fn told(answer: i32) -> Told {
    (answer, KEPT, KEPT)
}

// So many first bytes.
fn part(into: &mut [u8], room: usize) -> &mut [u8] {
    let room = room.min(into.len());
    &mut into[..room]
}

fn make(alloc: Global, divided: (u32, u32, u32), into: &mut [u8]) -> Told {
    let (index_blocks, extents, extent_blocks) = divided;
    let mut count = KEPT as u32;
    let answer = fstch_core_make(
        alloc,
        index_blocks,
        extents,
        extent_blocks,
        into,
        &mut count,
    );
    (answer, count as usize, KEPT)
}

fn open(alloc: Global, handle: &mut Handle, manual: bool, bytes: &[u8]) -> Told {
    let mut slot = KEPT as u32;
    let answer = fstch_core_open(handle, alloc, FILE, true, manual, bytes, &mut slot);
    (answer, slot as usize, KEPT)
}

fn get(alloc: Global, handle: &mut Handle, key: &[u8], into: &mut [u8]) -> Told {
    let mut len = KEPT;
    let answer = fstch_get(handle, alloc, key, into, &mut len);
    (answer, len, KEPT)
}

fn check(alloc: Global, handle: &mut Handle) -> Told {
    let mut entries = KEPT as u32;
    let mut extents = KEPT as u32;
    let answer = fstch_check(handle, alloc, &mut entries, &mut extents);
    (answer, entries as usize, extents as usize)
}

fn entry(alloc: Global, handle: &mut Handle, number: u32, into: &mut [u8]) -> Told {
    let mut key_len = KEPT;
    let mut value_len = KEPT;
    let answer = fstch_entry(handle, alloc, number, into, &mut key_len, &mut value_len);
    (answer, key_len, value_len)
}

fn next(alloc: Global, handle: &mut Handle, from: &[u8], into: &mut [u8]) -> Told {
    let mut key_len = KEPT;
    let mut value_len = KEPT;
    let answer = fstch_next(handle, alloc, from, into, &mut key_len, &mut value_len);
    (answer, key_len, value_len)
}

fn previous(alloc: Global, handle: &mut Handle, before: &[u8], into: &mut [u8]) -> Told {
    let mut key_len = KEPT;
    let mut value_len = KEPT;
    let answer = fstch_previous(handle, alloc, before, into, &mut key_len, &mut value_len);
    (answer, key_len, value_len)
}

fn last(alloc: Global, handle: &mut Handle, into: &mut [u8]) -> Told {
    let mut key_len = KEPT;
    let mut value_len = KEPT;
    let answer = fstch_last(handle, alloc, into, &mut key_len, &mut value_len);
    (answer, key_len, value_len)
}

fn statistics(alloc: Global, handle: &mut Handle) -> (i32, Statistics) {
    let mut statistics = Statistics {
        keys: KEPT as u32,
        unsynced: KEPT as u32,
        live_bytes: KEPT as u64,
        file_bytes: KEPT as u64,
        extents: KEPT as u32,
        empty_extents: KEPT as u32,
        syncs: KEPT as u64,
        waves: KEPT as u64,
    };
    let answer = fstch_stats(handle, alloc, &mut statistics);
    (answer, statistics)
}

fn fullness(alloc: Global, handle: &mut Handle) -> Told {
    let (answer, statistics) = statistics(alloc, handle);
    (
        answer,
        statistics.keys as usize,
        statistics.empty_extents as usize,
    )
}

fn tally(alloc: Global, handle: &mut Handle) -> Told {
    let (answer, statistics) = statistics(alloc, handle);
    (answer, statistics.syncs as usize, statistics.waves as usize)
}

fn sizes(alloc: Global, handle: &mut Handle) -> Told {
    let (answer, statistics) = statistics(alloc, handle);
    (
        answer,
        statistics.live_bytes as usize,
        statistics.file_bytes as usize,
    )
}

// The last answer that isn't that of a call which was done, and the number of the last group.
fn groups(alloc: Global, handle: &mut Handle, count: u32) -> Told {
    let mut told = (DONE, KEPT, KEPT);
    for _ in 0..count {
        let mut made = KEPT as u32;
        let answer = fstch_group(handle, alloc, &mut made);
        let closed = fstch_group_close(handle, alloc, made);
        told = (
            if answer == DONE { closed } else { answer },
            made as usize,
            KEPT,
        );
    }
    told
}

// The first answer that isn't that of a put which was done, and how many were.
fn puts(alloc: Global, handle: &mut Handle, count: u32, key: &[u8], value: &[u8]) -> Told {
    for done in 0..count {
        let answer = fstch_put(handle, alloc, NO_WRITER, key, value);
        if answer != DONE {
            return (answer, done as usize, KEPT);
        }
    }
    (DONE, count as usize, KEPT)
}

fn extent(alloc: Global, handle: &mut Handle, number: u32) -> Told {
    let mut live = KEPT as u32;
    let mut filled = KEPT as u32;
    let answer = fstch_extent(handle, alloc, number, &mut live, &mut filled);
    (answer, live as usize, filled as usize)
}

fn unsynced(alloc: Global, handle: &mut Handle) -> Told {
    let mut changes = KEPT as u32;
    let answer = fstch_unsynced(handle, alloc, &mut changes);
    (answer, changes as usize, KEPT)
}

fn group(alloc: Global, handle: &mut Handle) -> Told {
    let mut made = KEPT as u32;
    let answer = fstch_group(handle, alloc, &mut made);
    (answer, made as usize, KEPT)
}

fn pending(alloc: Global, handle: &mut Handle, group: u32) -> Told {
    let mut changes = KEPT as u32;
    let answer = fstch_group_pending(handle, alloc, group, &mut changes);
    (answer, changes as usize, KEPT)
}

// The block of a write, and whether the event is a barrier.
fn event(alloc: Global, handle: &mut Handle, number: u32, into: &mut [u8]) -> Told {
    let mut is_barrier = false;
    let mut block = KEPT as u32;
    let answer = fstch_core_write(handle, alloc, number, &mut is_barrier, &mut block, into);
    (answer, block as usize, usize::from(is_barrier))
}

fn write_block(file: &mut [u8], block: usize, from: &[u8]) {
    if from.len() == BLOCK && block < file.len() / BLOCK {
        let start = block * BLOCK;
        file[start..start + BLOCK].copy_from_slice(from);
    }
}

// Does all writes of the tape.
fn write_all(alloc: Global, handle: &mut Handle, file: &mut [u8], into: &mut [u8]) {
    for number in 0..10_000 {
        let (answer, block, is_barrier) = event(alloc, handle, number, into);
        if answer != DONE {
            break;
        }
        if is_barrier == 0 {
            write_block(file, block, into);
        }
    }
}

// Brings all changes to the file, as the program in C does.
fn save(alloc: Global, handle: &mut Handle, file: &mut [u8], into: &mut [u8]) -> Told {
    let answer = fstch_core_sync(handle, alloc);
    if answer != DONE {
        return told(answer);
    }
    write_all(alloc, handle, file, into);
    told(fstch_core_synced(handle, alloc, true))
}

fn is_open(handle: &Handle) -> Told {
    told(i32::from(fstch_is_open(handle)))
}

fn shows(into: &[u8], bytes: &[u8]) -> Told {
    told(i32::from(into.starts_with(bytes)))
}

fn copying(alloc: Global, handle: &mut Handle, into: &mut [u8], call: &Call) -> Told {
    into.fill(FILL);
    match call {
        Call::Make(index_blocks, extents, extent_blocks, room) => make(
            alloc,
            (*index_blocks, *extents, *extent_blocks),
            part(into, *room),
        ),
        Call::Get(key, room) => get(alloc, handle, key, part(into, *room)),
        Call::Entry(number, room) => entry(alloc, handle, *number, part(into, *room)),
        Call::Next(from, room) => next(alloc, handle, from, part(into, *room)),
        Call::Previous(before, room) => previous(alloc, handle, before, part(into, *room)),
        Call::Last(room) => last(alloc, handle, part(into, *room)),
        Call::Event(number, room) => event(alloc, handle, *number, part(into, *room)),
        _ => told(0),
    }
}

fn grouping(alloc: Global, handle: &mut Handle, call: &Call) -> Told {
    match call {
        Call::Group => group(alloc, handle),
        Call::Groups(count) => groups(alloc, handle, *count),
        Call::Engage(group, writer) => told(fstch_group_engage(handle, alloc, *group, *writer)),
        Call::Disengage(group, writer) => {
            told(fstch_group_disengage(handle, alloc, *group, *writer))
        }
        Call::Depend(later, earlier) => told(fstch_group_depend(handle, alloc, *later, *earlier)),
        Call::CloseGroup(group) => told(fstch_group_close(handle, alloc, *group)),
        Call::Pending(group) => pending(alloc, handle, *group),
        _ => told(0),
    }
}

fn changing(alloc: Global, handle: &mut Handle, call: &Call) -> Told {
    match call {
        Call::Put(writer, key, value) => told(fstch_put(handle, alloc, *writer, key, value)),
        Call::Delete(writer, key) => told(fstch_delete(handle, alloc, *writer, key)),
        Call::Reclaim(extent) => told(fstch_reclaim(handle, alloc, *extent)),
        Call::Puts(count, key, value) => puts(alloc, handle, *count, key, value),
        Call::Renew => told(fstch_core_renew(handle, alloc)),
        Call::Sync => told(fstch_core_sync(handle, alloc)),
        Call::Synced(is_done) => told(fstch_core_synced(handle, alloc, *is_done)),
        Call::Close => told(fstch_core_close(handle, alloc)),
        _ => told(0),
    }
}

fn step(alloc: Global, handle: &mut Handle, file: &mut [u8], into: &mut [u8], call: &Call) -> Told {
    match call {
        Call::Open => open(alloc, handle, false, file),
        Call::OpenManual => open(alloc, handle, true, file),
        Call::OpenShort => open(alloc, handle, false, b"short"),
        Call::OpenZeros => open(alloc, handle, false, &ZEROS),
        Call::IsOpen => is_open(handle),
        Call::File => told(fstch_core_file(handle, alloc)),
        Call::Barriers => told(i32::from(fstch_core_barriers(handle, alloc))),
        Call::Check => check(alloc, handle),
        Call::Extent(number) => extent(alloc, handle, *number),
        Call::Unsynced => unsynced(alloc, handle),
        Call::Fullness => fullness(alloc, handle),
        Call::Tally => tally(alloc, handle),
        Call::Sizes => sizes(alloc, handle),
        Call::Save => save(alloc, handle, file, into),
        Call::Shows(bytes) => shows(into, bytes),
        Call::Make(_, _, _, _)
        | Call::Get(_, _)
        | Call::Entry(_, _)
        | Call::Next(_, _)
        | Call::Previous(_, _)
        | Call::Last(_)
        | Call::Event(_, _) => copying(alloc, handle, into, call),
        Call::Group
        | Call::Groups(_)
        | Call::Engage(_, _)
        | Call::Disengage(_, _)
        | Call::Depend(_, _)
        | Call::CloseGroup(_)
        | Call::Pending(_) => grouping(alloc, handle, call),
        _ => changing(alloc, handle, call),
    }
}

fn take_steps(
    rt: &impl Abort,
    alloc: Global,
    handle: &mut Handle,
    file: &mut [u8],
    moves: &[Move],
) {
    let mut into = [FILL; BLOCK];
    for (at, (call, wanted)) in moves.iter().enumerate() {
        let seen = step(alloc, handle, file, &mut into, call);
        expect_eq(rt, &(at, seen), &(at, *wanted));
    }
}

// Lets go of a handle that was closed.
fn forget(handle: Handle)
    requires { IsFalse handle.is_open }
{
    let Handle { is_open: _, sealed } = handle;
    sealed.forget();
}

// Makes the calls, beginning with a closed handle, which they leave closed.
fn walk(rt: &impl Abort, alloc: Global, file: &mut [u8], moves: &[Move]) {
    let mut handle = Handle::closed(alloc);
    take_steps(rt, alloc, &mut handle, file, moves);
    let closed = fstch_core_close(&mut handle, alloc);
    forget(handle);
    expect_eq(rt, &closed, &NOT_OPEN);
}

// A file that holds an empty store, as its bytes; or none.
fn new_file(alloc: Global, divided: (u32, u32, u32)) -> Vec<u8> {
    let mut first = ZEROS;
    let (answer, count, _) = make(alloc, divided, &mut first);
    if answer != DONE || count > 4096 {
        return Vec::new(alloc);
    }
    let Ok(mut bytes) = vec![in alloc; 0u8; count * BLOCK] else {
        return Vec::new(alloc);
    };
    write_block(&mut bytes, 0, &first);
    bytes
}

fn walk_on(rt: &impl Abort, alloc: Global, divided: (u32, u32, u32), moves: &[Move]) {
    let mut file = new_file(alloc, divided);
    walk(rt, alloc, &mut file, moves);
}

const VALUES: [Move; 21] = [
    (Call::Open, (DONE, KEPT, KEPT)),
    (Call::IsOpen, (1, KEPT, KEPT)),
    (Call::Put(NO_WRITER, b"one", b"first"), (DONE, KEPT, KEPT)),
    (Call::Put(6, b"two", b""), (DONE, KEPT, KEPT)),
    (Call::Save, (DONE, KEPT, KEPT)),
    (Call::Put(0, b"lost", b"lost"), (DONE, KEPT, KEPT)),
    (Call::Close, (DONE, KEPT, KEPT)),
    (Call::IsOpen, (0, KEPT, KEPT)),
    (Call::Open, (DONE, KEPT, KEPT)),
    (Call::Get(b"one", 8), (DONE, 5, KEPT)),
    (Call::Shows(b"first..."), (1, KEPT, KEPT)),
    (Call::Get(b"two", 8), (DONE, 0, KEPT)),
    (Call::Get(b"lost", 8), (-5, KEPT, KEPT)),
    (Call::Delete(NO_WRITER, b"two"), (DONE, KEPT, KEPT)),
    (Call::Delete(NO_WRITER, b"two"), (41, KEPT, KEPT)),
    (Call::Save, (DONE, KEPT, KEPT)),
    (Call::Save, (DONE, KEPT, KEPT)),
    (Call::Close, (DONE, KEPT, KEPT)),
    (Call::Open, (DONE, KEPT, KEPT)),
    (Call::Get(b"two", 8), (-5, KEPT, KEPT)),
    (Call::Close, (DONE, KEPT, KEPT)),
];

#[test]
fn values_last(rt: HostRuntime) {
    walk_on(&rt, rt.alloc(), (1, 4, 0), &VALUES);
}

const ENTRIES: [Move; 18] = [
    (Call::Open, (DONE, KEPT, KEPT)),
    (Call::Check, (DONE, 0, 3)),
    (Call::Entry(0, 32), (-5, KEPT, KEPT)),
    (Call::Unsynced, (DONE, 0, KEPT)),
    (Call::Put(1, b"key", b"value"), (DONE, KEPT, KEPT)),
    (Call::Unsynced, (DONE, 3, KEPT)),
    (Call::Extent(0), (DONE, 24, 24)),
    (Call::Extent(1), (DONE, 0, 0)),
    (Call::Extent(3), (34, KEPT, KEPT)),
    (Call::Save, (DONE, KEPT, KEPT)),
    (Call::Unsynced, (DONE, 0, KEPT)),
    (Call::Check, (DONE, 1, 3)),
    (Call::Entry(0, 2), (-4, 3, 5)),
    (Call::Shows(b"..."), (1, KEPT, KEPT)),
    (Call::Entry(0, 32), (DONE, 3, 5)),
    (Call::Shows(b"key."), (1, KEPT, KEPT)),
    (Call::Reclaim(3), (34, KEPT, KEPT)),
    (Call::Close, (DONE, KEPT, KEPT)),
];

#[test]
fn entries_are_listed(rt: HostRuntime) {
    walk_on(&rt, rt.alloc(), (2, 3, 64), &ENTRIES);
}

const GROUPS: [Move; 18] = [
    (Call::Open, (DONE, KEPT, KEPT)),
    (Call::Group, (DONE, 0, KEPT)),
    (Call::Group, (DONE, 1, KEPT)),
    (Call::Engage(0, 0), (DONE, KEPT, KEPT)),
    (Call::Put(0, b"data", b"1"), (DONE, KEPT, KEPT)),
    (Call::Pending(0), (DONE, 3, KEPT)),
    (Call::Depend(1, 0), (31, KEPT, KEPT)),
    (Call::Disengage(0, 0), (DONE, KEPT, KEPT)),
    (Call::Depend(1, 0), (DONE, KEPT, KEPT)),
    (Call::Engage(1, 1), (DONE, KEPT, KEPT)),
    (Call::Put(1, b"name", b"2"), (DONE, KEPT, KEPT)),
    (Call::Disengage(1, 1), (DONE, KEPT, KEPT)),
    (Call::Save, (DONE, KEPT, KEPT)),
    (Call::Pending(1), (DONE, 0, KEPT)),
    (Call::CloseGroup(0), (DONE, KEPT, KEPT)),
    (Call::CloseGroup(0), (27, KEPT, KEPT)),
    (Call::Engage(1, NO_WRITER), (-8, KEPT, KEPT)),
    (Call::Close, (DONE, KEPT, KEPT)),
];

#[test]
fn groups_are_ordered(rt: HostRuntime) {
    walk_on(&rt, rt.alloc(), (1, 4, 0), &GROUPS);
}

const KEYS: [Move; 20] = [
    (Call::Open, (DONE, KEPT, KEPT)),
    (Call::Next(b"", 8), (-5, KEPT, KEPT)),
    (Call::Last(8), (-5, KEPT, KEPT)),
    (Call::Put(0, b"b", b"1"), (DONE, KEPT, KEPT)),
    (Call::Put(0, b"a", b"22"), (DONE, KEPT, KEPT)),
    (Call::Put(0, b"ab", b""), (DONE, KEPT, KEPT)),
    (Call::Next(b"", 8), (DONE, 1, 2)),
    (Call::Shows(b"a."), (1, KEPT, KEPT)),
    (Call::Next(b"a\0", 8), (DONE, 2, 0)),
    (Call::Shows(b"ab."), (1, KEPT, KEPT)),
    (Call::Next(b"ab", 1), (-4, 2, 0)),
    (Call::Shows(b".."), (1, KEPT, KEPT)),
    (Call::Next(LONG, 8), (-5, KEPT, KEPT)),
    (Call::Previous(b"b", 8), (DONE, 2, 0)),
    (Call::Previous(b"a", 8), (-5, KEPT, KEPT)),
    (Call::Last(8), (DONE, 1, 1)),
    (Call::Shows(b"b."), (1, KEPT, KEPT)),
    (Call::Delete(0, b"b"), (DONE, KEPT, KEPT)),
    (Call::Last(8), (DONE, 2, 0)),
    (Call::Close, (DONE, KEPT, KEPT)),
];

#[test]
fn keys_come_in_order(rt: HostRuntime) {
    walk_on(&rt, rt.alloc(), (1, 4, 0), &KEYS);
}

// A frame has 16 bytes more than its key and its value.
const STATISTICS: [Move; 15] = [
    (Call::Fullness, (NOT_OPEN, KEPT, KEPT)),
    (Call::Open, (DONE, KEPT, KEPT)),
    (Call::Fullness, (DONE, 0, 4)),
    (Call::Tally, (DONE, 0, 0)),
    (Call::Sizes, (DONE, 0, 67 * BLOCK)),
    (Call::Put(0, b"key", b"value"), (DONE, KEPT, KEPT)),
    (Call::Fullness, (DONE, 1, 3)),
    (Call::Sizes, (DONE, 24, 67 * BLOCK)),
    (Call::Sync, (DONE, KEPT, KEPT)),
    (Call::Tally, (DONE, 0, 0)),
    (Call::Synced(true), (DONE, KEPT, KEPT)),
    (Call::Tally, (DONE, 1, 3)),
    (Call::Save, (DONE, KEPT, KEPT)),
    (Call::Tally, (DONE, 2, 3)),
    (Call::Close, (DONE, KEPT, KEPT)),
];

#[test]
fn a_store_is_counted(rt: HostRuntime) {
    walk_on(&rt, rt.alloc(), (1, 4, 0), &STATISTICS);
}

const RENEWALS: [Move; 17] = [
    (Call::Renew, (NOT_OPEN, KEPT, KEPT)),
    (Call::Open, (DONE, KEPT, KEPT)),
    (Call::Put(0, b"key", b"value"), (DONE, KEPT, KEPT)),
    (Call::Groups(512), (DONE, 511, KEPT)),
    (Call::Save, (DONE, KEPT, KEPT)),
    (Call::Renew, (DONE, KEPT, KEPT)),
    (Call::Group, (DONE, 512, KEPT)),
    (Call::Engage(512, 0), (DONE, KEPT, KEPT)),
    (Call::Renew, (DONE, KEPT, KEPT)),
    (Call::Group, (DONE, 513, KEPT)),
    (Call::Disengage(512, 0), (DONE, KEPT, KEPT)),
    (Call::CloseGroup(512), (DONE, KEPT, KEPT)),
    (Call::Renew, (DONE, KEPT, KEPT)),
    (Call::Group, (DONE, 0, KEPT)),
    (Call::Get(b"key", 8), (DONE, 5, KEPT)),
    (Call::Shows(b"value."), (1, KEPT, KEPT)),
    (Call::Close, (DONE, KEPT, KEPT)),
];

#[test]
fn a_worn_store_begins_anew(rt: HostRuntime) {
    walk_on(&rt, rt.alloc(), (1, 4, 0), &RENEWALS);
}

// Frames of 4,018 bytes: 16 fit an extent, and one of three extents stays empty. Where extents are won back by hand two are filled.
const ROOM: [Move; 11] = [
    (Call::OpenManual, (DONE, KEPT, KEPT)),
    (Call::Puts(100, b"ab", &VALUE), (43, 32, KEPT)),
    (Call::Fullness, (DONE, 1, 1)),
    (Call::Reclaim(0), (DONE, KEPT, KEPT)),
    (Call::Puts(100, b"ab", &VALUE), (43, 16, KEPT)),
    (Call::Save, (DONE, KEPT, KEPT)),
    (Call::Close, (DONE, KEPT, KEPT)),
    (Call::Open, (DONE, KEPT, KEPT)),
    (Call::Puts(500, b"ab", &VALUE), (DONE, 500, KEPT)),
    (Call::Fullness, (DONE, 1, 1)),
    (Call::Close, (DONE, KEPT, KEPT)),
];

const VALUE: [u8; 4000] = [b'v'; 4000];

#[test]
fn puts_win_room_back(rt: HostRuntime) {
    walk_on(&rt, rt.alloc(), (1, 3, 0), &ROOM);
}

const MISUSE: [Move; 37] = [
    (Call::Put(0, b"a", b"b"), (NOT_OPEN, KEPT, KEPT)),
    (Call::Get(b"a", 4), (NOT_OPEN, KEPT, KEPT)),
    (Call::Shows(b"....."), (1, KEPT, KEPT)),
    (Call::Entry(0, 4), (NOT_OPEN, KEPT, KEPT)),
    (Call::Shows(b"....."), (1, KEPT, KEPT)),
    (Call::Check, (NOT_OPEN, KEPT, KEPT)),
    (Call::Extent(0), (NOT_OPEN, KEPT, KEPT)),
    (Call::Unsynced, (NOT_OPEN, KEPT, KEPT)),
    (Call::Group, (NOT_OPEN, KEPT, KEPT)),
    (Call::Pending(0), (NOT_OPEN, KEPT, KEPT)),
    (Call::Sync, (NOT_OPEN, KEPT, KEPT)),
    (Call::Event(0, 4), (NOT_OPEN, KEPT, 0)),
    (Call::Synced(true), (NOT_OPEN, KEPT, KEPT)),
    (Call::File, (-1, KEPT, KEPT)),
    (Call::Barriers, (0, KEPT, KEPT)),
    (Call::Close, (NOT_OPEN, KEPT, KEPT)),
    (Call::OpenShort, (5, KEPT, KEPT)),
    (Call::OpenZeros, (47, KEPT, KEPT)),
    (Call::Make(0, 4, 0, 4), (46, KEPT, KEPT)),
    (Call::Shows(b"....."), (1, KEPT, KEPT)),
    (Call::Make(1, 4, 0, 4), (-4, KEPT, KEPT)),
    (Call::Shows(b"....."), (1, KEPT, KEPT)),
    (Call::Open, (DONE, KEPT, KEPT)),
    (Call::Open, (IS_OPEN, KEPT, KEPT)),
    (Call::File, (FILE, KEPT, KEPT)),
    (Call::Barriers, (1, KEPT, KEPT)),
    (Call::Put(7, b"a", b"b"), (-8, KEPT, KEPT)),
    (Call::Put(0, b"", b"b"), (39, KEPT, KEPT)),
    (Call::Put(0, LONG, b"b"), (39, KEPT, KEPT)),
    (Call::Put(0, LONGEST, b"value"), (DONE, KEPT, KEPT)),
    (Call::Get(b"", 4), (39, KEPT, KEPT)),
    (Call::Get(LONGEST, 4), (-4, 5, KEPT)),
    (Call::Shows(b"....."), (1, KEPT, KEPT)),
    (Call::Get(LONGEST, 5), (DONE, 5, KEPT)),
    (Call::Shows(b"value."), (1, KEPT, KEPT)),
    (Call::Close, (DONE, KEPT, KEPT)),
    (Call::Close, (NOT_OPEN, KEPT, KEPT)),
];

#[test]
fn misuse_is_answered(rt: HostRuntime) {
    walk_on(&rt, rt.alloc(), (1, 4, 0), &MISUSE);
}

const SPENT: [Move; 17] = [
    (Call::Open, (DONE, KEPT, KEPT)),
    (Call::Event(0, BLOCK), (-5, KEPT, 0)),
    (Call::Put(0, b"a", b"b"), (DONE, KEPT, KEPT)),
    (Call::Sync, (DONE, KEPT, KEPT)),
    // The value goes to the first block of the first extent, then its pointer is written, and then the block of the index that names it;
    // each lasts before the next is written.
    (Call::Event(0, 9), (-4, 3, 0)),
    (Call::Event(0, BLOCK), (DONE, 3, 0)),
    (Call::Event(1, 0), (DONE, KEPT, 1)),
    (Call::Event(2, BLOCK), (DONE, 2, 0)),
    (Call::Event(3, 0), (DONE, KEPT, 1)),
    (Call::Event(4, BLOCK), (DONE, 1, 0)),
    (Call::Event(5, 0), (DONE, KEPT, 1)),
    (Call::Synced(false), (DONE, KEPT, KEPT)),
    (Call::Event(0, BLOCK), (-5, KEPT, 0)),
    (Call::Sync, (-7, KEPT, KEPT)),
    (Call::Get(b"a", 8), (DONE, 1, KEPT)),
    (Call::Shows(b"b."), (1, KEPT, KEPT)),
    (Call::Close, (DONE, KEPT, KEPT)),
];

#[test]
fn a_store_is_spent_where_its_writes_are_lost(rt: HostRuntime) {
    walk_on(&rt, rt.alloc(), (1, 4, 0), &SPENT);
}

// How long a text is, and what a buffer of so much room has then.
const TEXTS: [(i32, usize, usize, &[u8]); 6] = [
    (0, 8, 4, b"done\0..."),
    (1, 8, 13, b"out of \0"),
    (-6, 8, 18, b"the fil\0"),
    (-5, 8, 22, b"there i\0"),
    (-9, 8, 31, b"the sto\0"),
    (99, 0, 14, b"...."),
];

#[test]
fn texts_end(rt: HostRuntime) {
    for (answer, room, len, shown) in &TEXTS {
        let mut into = [FILL; 8];
        expect_eq(&rt, &fstch_error_text(*answer, part(&mut into, *room)), len);
        expect_eq(&rt, &shows(&into, shown), &told(1));
    }
    expect_eq(&rt, &fstch_version(), &400);
}

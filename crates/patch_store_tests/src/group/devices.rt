//! Syncs over devices that fail.
use super::lines::asks_in;
use super::*;
use crate::expecting::fails_still;
use patch_device::{Device, FaultyDevice, MemDevice, load};
use patch_model::Mark;
use patch_testing::StubbornDevice;
use std::alloc::Global;

// A cache with a patch of each block, all of one group, and the flights that it waits for.
struct Bench {
    groups: Groups,
    cache: Cache,
    flights: Flights,
}

// What the first of two syncs answers, how far the patch has come then, and whether it is pending.
#[derive(Clone, Copy)]
struct Synced {
    answer: Result<(), SyncRefusal>,
    mark: Mark,
    pending: u32,
}

const DONE: Synced = Synced {
    answer: Ok(()),
    mark: Mark::Durable,
    pending: 0,
};

// The flight of the first block is given up.
const GIVEN_UP: Synced = Synced {
    answer: Err(SyncRefusal::DeviceGaveUp(BlockNo(0))),
    mark: Mark::Flight,
    pending: 1,
};

// Makes a patch of each of the cache's blocks, all of one group.
fn make_patches(bench: &mut Bench) -> Result<(), Fail> {
    let writer = WriterNo(0);
    let group = bench.groups.create()?;
    bench.groups.engage(writer, group)?;
    let Bench { groups, cache, .. } = bench;
    for block in 0..cache.blocks() {
        let block = BlockNo(block);
        groups.create_patch(cache, Some(writer), block, 0, b"a", &[], Undo::Keep)?;
    }
    Ok(())
}

fn expect_synced<D: Device>(rt: &impl Abort, bench: &mut Bench, device: &mut D, want: Synced) {
    let Bench {
        groups,
        cache,
        flights,
    } = bench;
    let answer = sync(groups, cache, flights, device, GroupNo(0));
    expect_equal(rt, "sync", answer, want.answer);
    expect_equal(rt, "mark", cache.mark_of(PatchNo(0)), Some(want.mark));
    let pending_now = groups.pending(GroupNo(0), cache);
    expect_equal(rt, "pending", pending_now, Ok(want.pending));
}

// Syncs the group twice: the first time so, and then all is on the disk.
fn sync_twice<D: Device>(
    rt: &impl Abort,
    bench: &mut Bench,
    device: &mut D,
    first: Synced,
) -> Result<(), Fail> {
    make_patches(bench)?;
    expect_synced(rt, bench, device, first);
    expect_synced(rt, bench, device, DONE);
    Ok(())
}

fn open_bench(rt: &impl Abort, alloc: Global, count: usize) -> Result<Bench, OutOfMemory> {
    let cache = open_zeros(rt, alloc, count)?;
    Ok(Bench {
        groups: Groups::new(alloc),
        cache,
        flights: Flights::new(alloc),
    })
}

fn close(bench: Bench) {
    let Bench {
        groups,
        cache,
        flights,
    } = bench;
    flights.abandon();
    drop(cache);
    drop(groups);
}

fn walk<D: Device>(
    rt: &impl Abort,
    alloc: Global,
    device: &mut D,
    first: Synced,
) -> Result<(), Fail> {
    let mut bench = open_bench(rt, alloc, device.count() as usize)?;
    let walked = sync_twice(rt, &mut bench, device, first);
    close(bench);
    walked
}

// Two devices, one in the other, each of which refuses the first write that it is given. It doesn't land.
fn failing_twice<D: Device>(inner: D) -> FaultyDevice<FaultyDevice<D>> {
    FaultyDevice::new(FaultyDevice::new(inner, 0, false), 0, false)
}

// Walks with the device in two more, in four and in six. Each is a function of its own, so that none sees a type of all.
fn walk_in_two<D: Device + Drop>(
    rt: &impl Abort,
    alloc: Global,
    device: D,
    first: Synced,
) -> Result<(), Fail> {
    let mut outer = failing_twice(device);
    walk(rt, alloc, &mut outer, first)
}

fn walk_in_four<D: Device + Drop>(
    rt: &impl Abort,
    alloc: Global,
    device: D,
    first: Synced,
) -> Result<(), Fail> {
    walk_in_two(rt, alloc, failing_twice(device), first)
}

fn walk_in_six<D: Device + Drop>(
    rt: &impl Abort,
    alloc: Global,
    device: D,
    first: Synced,
) -> Result<(), Fail> {
    walk_in_four(rt, alloc, failing_twice(device), first)
}

// The flight is held as before, so the next sync completes it.
#[test]
fn eight_faults_give_a_flight_up(rt: HostRuntime) -> Result<(), Fail> {
    let two = failing_twice(MemDevice::new(rt.alloc(), 1)?);
    walk_in_six(&rt, rt.alloc(), two, GIVEN_UP)
}

#[test]
fn seven_faults_do_not(rt: HostRuntime) -> Result<(), Fail> {
    let one = FaultyDevice::new(MemDevice::new(rt.alloc(), 1)?, 0, false);
    walk_in_six(&rt, rt.alloc(), one, DONE)
}

// Each flight has eight tries of its own.
#[test]
fn seven_faults_of_each_of_two_flights_do_not(rt: HostRuntime) -> Result<(), Fail> {
    let mut device = StubbornDevice::new(MemDevice::new(rt.alloc(), 2)?, 0, 2, 7);
    walk(&rt, rt.alloc(), &mut device, DONE)
}

// Two groups in order, with what is held, and what belongs to none before and behind them.
const ORDER: [&str; 13] = [
    "group",
    "group",
    "engage 0 0",
    "by 0 3 a",
    "disengage 0 0",
    "depend 1 0",
    "engage 0 1",
    "by 0 1 b",
    "disengage 0 1",
    "patch 0 z",
    "patch 5 y",
    "patch 4 p",
    "send 4",
];

// The blocks that a sync of the second group writes: what is held, and then the least one of which a write can begin, until
// nothing of the group is pending.
const WRITTEN: [u32; 4] = [4, 0, 3, 1];

fn ask_all<D: Device>(
    alloc: Global,
    bench: &mut Bench,
    device: &mut D,
    lines: &[&str],
) -> Result<(), Fail> {
    let Bench {
        groups,
        cache,
        flights,
    } = bench;
    let asks = asks_in(alloc, lines)?;
    match groups.run(cache, flights, device, &asks) {
        Ok(_) => Ok(()),
        Err(_) => Err(Fail::from("no memory")),
    }
}

// What a sync of the second group answers, and how many patches are live then.
fn expect_second_synced<D: Device>(
    rt: &impl Abort,
    bench: &mut Bench,
    device: &mut D,
    want: Result<(), SyncRefusal>,
    live: u32,
) {
    let Bench {
        groups,
        cache,
        flights,
    } = bench;
    let answer = sync(groups, cache, flights, device, GroupNo(1));
    expect_equal(rt, "sync", answer, want);
    expect_equal(rt, "live", cache.live(), live);
}

fn ask_and_sync<D: Device>(
    rt: &impl Abort,
    alloc: Global,
    bench: &mut Bench,
    device: &mut D,
    want: Result<(), SyncRefusal>,
    live: u32,
) -> Result<(), Fail> {
    ask_all(alloc, bench, device, &ORDER)?;
    expect_second_synced(rt, bench, device, want, live);
    Ok(())
}

// Asks for all of it, and what a sync of the second group answers then over this device.
fn sync_second<D: Device>(
    rt: &impl Abort,
    alloc: Global,
    device: &mut D,
    want: Result<(), SyncRefusal>,
    live: u32,
) -> Result<(), Fail> {
    let mut bench = open_bench(rt, alloc, 6)?;
    let synced = ask_and_sync(rt, alloc, &mut bench, device, want, live);
    close(bench);
    synced
}

// The same over a device that refuses this write eight times.
fn sync_in_vain(
    rt: &impl Abort,
    alloc: Global,
    at: u64,
    want: Result<(), SyncRefusal>,
    live: u32,
) -> Result<(), Fail> {
    let mut device = StubbornDevice::new(MemDevice::new(alloc, 6)?, at, at.saturating_add(1), 8);
    sync_second(rt, alloc, &mut device, want, live)
}

// The device that refuses one write eight times names the block of it: so each write of the sync is known, and that there is none
// behind the last one.
#[test]
fn writes_go_in_order(rt: HostRuntime) -> Result<(), Fail> {
    for at in 0..4u32 {
        let block = BlockNo(WRITTEN[at as usize]);
        let gave_up = Err(SyncRefusal::DeviceGaveUp(block));
        sync_in_vain(&rt, rt.alloc(), u64::from(at), gave_up, 5 - at)?;
    }
    sync_in_vain(&rt, rt.alloc(), 4, Ok(()), 1)
}

// The device's blocks begin with these letters.
fn expect_letters<D: Device>(
    rt: &impl Abort,
    alloc: Global,
    device: &mut D,
    letters: &[u8],
) -> Result<(), Fail> {
    let Ok(blocks) = load(alloc, device) else {
        return Err(Fail::from("a device was not loaded"));
    };
    expect_equal(rt, "blocks", blocks.len(), letters.len());
    for (block, letter) in blocks.iter().zip(letters) {
        expect_equal(rt, "letter", block.as_slice().first(), Some(letter));
    }
    Ok(())
}

// This call of a sync of the second group fails, landing or not: it is tried again. Whether it was met.
fn sync_over_a_fault(rt: &impl Abort, alloc: Global, at: u64, lands: bool) -> Result<bool, Fail> {
    let mut device = FaultyDevice::new(MemDevice::new(alloc, 6)?, at, lands);
    sync_second(rt, alloc, &mut device, Ok(()), 1)?;
    let met = !fails_still(&mut device, at);
    expect_letters(rt, alloc, &mut device, b"zb\0ap\0")?;
    Ok(met)
}

// How many calls of the sync can fail, each in its turn, until none is left.
fn count_faults(rt: &impl Abort, alloc: Global, lands: bool) -> Result<u64, Fail> {
    for at in 0..1000 {
        if !sync_over_a_fault(rt, alloc, at, lands)? {
            return Ok(at);
        }
    }
    Err(Fail::from("there was no end of calls"))
}

#[test]
fn a_write_that_fails_once_is_tried_again(rt: HostRuntime) -> Result<(), Fail> {
    for lands in [false, true] {
        let faults = count_faults(&rt, rt.alloc(), lands)?;
        assert_eq!(&rt; faults, WRITTEN.len() as u64);
    }
    Ok(())
}

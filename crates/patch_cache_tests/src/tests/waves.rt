//! Writes in waves: flushes, flights that are landed, and writes one at a time.
use super::*;
use patch_device::UnsyncedDevice;
use patch_testing::StubbornDevice;

// How far the four patches of a chain have come.
type Marks = [Option<Mark>; 4];

const MADE_DURABLE: Marks = [Some(Mark::Durable); 4];

// The first write is under way.
const SENT: Marks = [
    Some(Mark::Flight),
    Some(Mark::Flight),
    Some(Mark::Memory),
    Some(Mark::Memory),
];

const LANDED: Marks = [
    Some(Mark::Durable),
    Some(Mark::Durable),
    Some(Mark::Memory),
    Some(Mark::Memory),
];

// The first wave is done, and the second is under way.
const SENT_AGAIN: Marks = [
    Some(Mark::Durable),
    Some(Mark::Durable),
    Some(Mark::Flight),
    Some(Mark::Memory),
];

// Makes two patches of the first block, one of the second after the first of them, and one of the first block after that.
pub(super) fn make_chain<A: Allocator + Copy>(rt: &impl Abort, cache: &mut Cache<A>) {
    let data = make(rt, cache, 0, 0, b"da", &[]);
    make(rt, cache, 0, 2, b"ta", &[]);
    let name = make(rt, cache, 1, 0, b"name", &[data]);
    make(rt, cache, 0, 4, b"end", &[name]);
}

fn open_chain<D>(rt: &impl Abort, alloc: Global, device: D) -> Bench<Global, D> {
    let mut bench = open_bench(rt, alloc, 2, device);
    make_chain(rt, &mut bench.cache);
    bench
}

pub(super) fn flush<A: Allocator + Copy, D: Device>(
    bench: &mut Bench<A, D>,
) -> Result<(), FlushRefusal> {
    bench.cache.flush(&mut bench.flights, &mut bench.device)
}

fn land<D: Device>(bench: &mut Bench<Global, D>) -> Result<(), FlushRefusal> {
    bench.cache.land(&mut bench.flights, &mut bench.device)
}

fn write_next<D: Device>(bench: &mut Bench<Global, D>) -> Result<bool, FlushRefusal> {
    bench
        .cache
        .write_next(&mut bench.flights, &mut bench.device)
}

fn expect_marks<A: Allocator + Copy>(rt: &impl Abort, cache: &Cache<A>, marks: Marks) {
    let got = [
        cache.mark_of(PatchNo(0)),
        cache.mark_of(PatchNo(1)),
        cache.mark_of(PatchNo(2)),
        cache.mark_of(PatchNo(3)),
    ];
    expect_equal(rt, "marks", got, marks);
}

// All of the chain is on the disk.
pub(super) fn expect_flushed<A: Allocator + Copy, D: Device>(
    rt: &impl Abort,
    bench: &mut Bench<A, D>,
) {
    expect_marks(rt, &bench.cache, MADE_DURABLE);
    let left = (bench.cache.live(), bench.cache.next_ready());
    expect_equal(rt, "left", left, (0, None));
    expect_disk(rt, &mut bench.device, 0, b"dataend");
    expect_disk(rt, &mut bench.device, 1, b"name");
}

// The block of a write.
fn block_of(device: &MemDevice, at: usize) -> Option<u32> {
    match device.writes().get(at) {
        Some(write) => Some(write.0),
        None => None,
    }
}

// Which blocks were written, in order: three at most.
fn expect_written(rt: &impl Abort, device: &MemDevice, blocks: [Option<u32>; 4]) {
    let got = [
        block_of(device, 0),
        block_of(device, 1),
        block_of(device, 2),
        block_of(device, 3),
    ];
    expect_equal(rt, "writes", got, blocks);
}

fn flush_and_look(rt: &impl Abort, bench: &mut Bench<Global, MemDevice>) {
    expect_equal(rt, "flush", flush(bench), Ok(()));
    expect_flushed(rt, bench);
    expect_written(rt, &bench.device, [Some(0), Some(1), Some(0), None]);
}

fn write_each(rt: &impl Abort, bench: &mut Bench<Global, MemDevice>) {
    expect_equal(rt, "first", write_next(bench), Ok(true));
    expect_marks(rt, &bench.cache, LANDED);
    expect_equal(rt, "second", write_next(bench), Ok(true));
    expect_written(rt, &bench.device, [Some(0), Some(1), None, None]);
    expect_equal(rt, "third", write_next(bench), Ok(true));
    expect_flushed(rt, bench);
    expect_equal(rt, "fourth", write_next(bench), Ok(false));
    expect_flushed(rt, bench);
}

// Begins a write of the block, if one can begin, and holds its flight. Whether one did.
fn sends<D: Device>(bench: &mut Bench<Global, D>, block: u32) -> bool {
    let ask = Ask::Send {
        block: BlockNo(block),
    };
    let answer = bench
        .cache
        .answer(&mut bench.flights, &mut bench.device, &ask);
    let sent = matches!(answer, Answer::Sent { .. });
    drop(answer);
    sent
}

// Begins a write of the first block, whose flight is held.
fn hold_first<D: Device>(rt: &impl Abort, bench: &mut Bench<Global, D>) {
    expect_equal(rt, "sent", sends(bench, 0), true);
    expect_marks(rt, &bench.cache, SENT);
}

fn expect_landed<D: Device>(rt: &impl Abort, bench: &mut Bench<Global, D>) {
    expect_equal(rt, "landing", land(bench), Ok(()));
    expect_marks(rt, &bench.cache, LANDED);
    expect_disk(rt, &mut bench.device, 0, b"data");
}

fn send_and_land(rt: &impl Abort, bench: &mut Bench<Global, MemDevice>) {
    hold_first(rt, bench);
    expect_landed(rt, bench);
    expect_landed(rt, bench);
    expect_written(rt, &bench.device, [Some(0), None, None, None]);
}

// What is done with a chain over a device in memory.
#[derive(Clone, Copy)]
enum Writes {
    Flush,
    OneByOne,
    Landing,
}

fn write_chain(rt: &impl Abort, alloc: Global, writes: Writes) {
    let mut bench = open_chain(rt, alloc, open_device(rt, alloc, 2));
    match writes {
        Writes::Flush => flush_and_look(rt, &mut bench),
        Writes::OneByOne => write_each(rt, &mut bench),
        Writes::Landing => send_and_land(rt, &mut bench),
    }
    close(bench);
}

// Three waves: what is after the second block waits for it, and what isn't goes with the first write of its block.
#[test]
fn a_flush_writes_a_block_once_a_wave(rt: HostRuntime) {
    write_chain(&rt, rt.alloc(), Writes::Flush);
}

#[test]
fn writes_go_one_at_a_time(rt: HostRuntime) {
    write_chain(&rt, rt.alloc(), Writes::OneByOne);
}

#[test]
fn held_flights_are_landed(rt: HostRuntime) {
    write_chain(&rt, rt.alloc(), Writes::Landing);
}

// Begins a write of each block of which one can begin: each block is asked in turn. Whether there was such a block.
fn send_over_all(bench: &mut Bench<Global, MemDevice>) -> bool {
    let mut sent = false;
    for at in 0..bench.cache.blocks() {
        let more = sends(bench, at);
        sent = sent || more;
    }
    sent
}

// A flush of which each wave goes over all blocks. Whether all flights landed.
fn flush_over_all(bench: &mut Bench<Global, MemDevice>) -> bool {
    let turns = u64::from(bench.cache.live()) + 1;
    let mut landed = land(bench).is_ok();
    for _ in 0..turns {
        if !send_over_all(bench) {
            return landed;
        }
        let more = land(bench).is_ok();
        landed = landed && more;
    }
    landed
}

// Whose waves: those of the cache's own flush, or those that go over all blocks.
#[derive(Clone, Copy)]
enum Waves {
    OfFlush,
    OverAll,
}

fn flushes_in(bench: &mut Bench<Global, MemDevice>, waves: Waves) -> bool {
    match waves {
        Waves::OfFlush => flush(bench).is_ok(),
        Waves::OverAll => flush_over_all(bench),
    }
}

pub(super) fn drawn(seed: u32) -> u32 {
    seed.wrapping_mul(1_664_525).wrapping_add(1_013_904_223)
}

// Makes a patch on a drawn block. About every second one names one of the sixteen before it. Its block.
fn make_drawn(rt: &impl Abort, cache: &mut Cache, seed: u32) -> u32 {
    let block = (seed >> 8) % cache.blocks().max(1);
    let start = (seed >> 16) as usize % 64;
    let back = (seed >> 24) % 32 + 1;
    match cache.made().checked_sub(back) {
        Some(no) if back <= 16 => make(rt, cache, block, start, b"up", &[PatchNo(no)]),
        _ => make(rt, cache, block, start, b"on", &[]),
    };
    block
}

// Makes 24 patches. After every sixth one a write of its block begins, if one can begin. The last seed.
fn make_many(rt: &impl Abort, bench: &mut Bench<Global, MemDevice>, first: u32) -> u32 {
    let mut seed = first;
    for at in 0..24u32 {
        seed = drawn(seed);
        let block = make_drawn(rt, &mut bench.cache, seed);
        if at % 6 == 5 {
            sends(bench, block);
        }
    }
    seed
}

// Eight rounds that are flushed in these waves. Writes are under way as each flush begins.
fn go_rounds(rt: &impl Abort, bench: &mut Bench<Global, MemDevice>, waves: Waves) {
    let mut seed = bench.cache.blocks();
    for _ in 0..8u32 {
        seed = make_many(rt, bench, seed);
        let flushed = flushes_in(bench, waves);
        let got = (flushed, bench.cache.live());
        expect_equal(rt, "flushed and live", got, (true, 0));
    }
}

fn is_same_write(device: &MemDevice, want: &MemDevice, at: usize) -> bool {
    match (device.writes().get(at), want.writes().get(at)) {
        (Some(write), Some(wanted)) => {
            write.0 == wanted.0 && write.1.as_slice() == wanted.1.as_slice()
        }
        _ => false,
    }
}

// The same blocks were written, in the same order, with the same bytes.
fn expect_same_writes(rt: &impl Abort, device: &MemDevice, want: &MemDevice) {
    let count = device.writes().len();
    expect_equal(rt, "writes", count, want.writes().len());
    for at in 0..count {
        let same = is_same_write(device, want, at);
        expect_equal(rt, "same", (at, same), (at, true));
    }
}

fn expect_same_waves(rt: &impl Abort, alloc: Global, blocks: u32) {
    let mut bench = open_bench(rt, alloc, blocks as usize, open_device(rt, alloc, blocks));
    go_rounds(rt, &mut bench, Waves::OfFlush);
    let mut other = open_bench(rt, alloc, blocks as usize, open_device(rt, alloc, blocks));
    go_rounds(rt, &mut other, Waves::OverAll);
    expect_same_writes(rt, &bench.device, &other.device);
    close(bench);
    close(other);
}

#[test]
fn a_flush_writes_as_waves_over_all_blocks(rt: HostRuntime) {
    for blocks in [1, 2, 63, 64, 65, 129, 200] {
        expect_same_waves(&rt, rt.alloc(), blocks);
    }
}

// A cache over a device that refuses some writes, each so many times.
type Refused = Bench<Global, StubbornDevice>;

// A device that refuses so many writes, the first of them once so many were done, each so many times.
fn refusing(rt: &impl Abort, alloc: Global, done: u64, writes: u64, times: u64) -> StubbornDevice {
    StubbornDevice::new(
        open_device(rt, alloc, 2),
        done,
        done.saturating_add(writes),
        times,
    )
}

fn flush_after_faults(rt: &impl Abort, bench: &mut Refused) {
    expect_equal(rt, "flush", flush(bench), Ok(()));
    expect_flushed(rt, bench);
}

fn overcome(rt: &impl Abort, alloc: Global, device: StubbornDevice) {
    let mut bench = open_chain(rt, alloc, device);
    flush_after_faults(rt, &mut bench);
    close(bench);
}

#[test]
fn seven_faults_are_overcome(rt: HostRuntime) {
    let device = refusing(&rt, rt.alloc(), 0, 1, 7);
    overcome(&rt, rt.alloc(), device);
}

// A patch of each of two blocks, whose flights land one behind the other.
fn flush_pair(rt: &impl Abort, bench: &mut Refused) {
    make(rt, &mut bench.cache, 0, 0, b"one", &[]);
    make(rt, &mut bench.cache, 1, 0, b"two", &[]);
    expect_equal(rt, "flush", flush(bench), Ok(()));
    expect_equal(rt, "live", bench.cache.live(), 0);
    expect_disk(rt, &mut bench.device, 0, b"one");
    expect_disk(rt, &mut bench.device, 1, b"two");
}

fn overcome_both(rt: &impl Abort, alloc: Global, device: StubbornDevice) {
    let mut bench = open_bench(rt, alloc, 2, device);
    flush_pair(rt, &mut bench);
    close(bench);
}

// Each flight has eight tries of its own.
#[test]
fn seven_faults_of_each_of_two_flights_are_overcome(rt: HostRuntime) {
    let device = refusing(&rt, rt.alloc(), 0, 2, 7);
    overcome_both(&rt, rt.alloc(), device);
}

// The first wave is done, and stays so; the flight of the second is given up, and held.
fn flush_in_vain(rt: &impl Abort, bench: &mut Refused) {
    let gave_up = Err(FlushRefusal::DeviceGaveUp(BlockNo(1)));
    expect_equal(rt, "flush", flush(bench), gave_up);
    expect_marks(rt, &bench.cache, SENT_AGAIN);
    expect_disk(rt, &mut bench.device, 0, b"data");
    flush_after_faults(rt, bench);
}

fn land_in_vain(rt: &impl Abort, bench: &mut Refused) {
    hold_first(rt, bench);
    let gave_up = Err(FlushRefusal::DeviceGaveUp(BlockNo(0)));
    expect_equal(rt, "landing", land(bench), gave_up);
    expect_marks(rt, &bench.cache, SENT);
    expect_landed(rt, bench);
}

// While its flight is held, nothing can begin.
fn write_in_vain(rt: &impl Abort, bench: &mut Refused) {
    let gave_up = Err(FlushRefusal::DeviceGaveUp(BlockNo(0)));
    expect_equal(rt, "first", write_next(bench), gave_up);
    expect_marks(rt, &bench.cache, SENT);
    expect_equal(rt, "second", write_next(bench), Ok(false));
    expect_equal(rt, "landing", land(bench), Ok(()));
    flush_after_faults(rt, bench);
}

// Writes a chain over a device that refuses a write eight times.
fn write_over(rt: &impl Abort, alloc: Global, device: StubbornDevice, writes: Writes) {
    let mut bench = open_chain(rt, alloc, device);
    match writes {
        Writes::Flush => flush_in_vain(rt, &mut bench),
        Writes::OneByOne => write_in_vain(rt, &mut bench),
        Writes::Landing => land_in_vain(rt, &mut bench),
    }
    close(bench);
}

// The device refuses the write that comes once so many were done.
fn write_in_vain_as(rt: &impl Abort, alloc: Global, done: u64, writes: Writes) {
    write_over(rt, alloc, refusing(rt, alloc, done, 1, 8), writes);
}

#[test]
fn eight_faults_end_a_flush(rt: HostRuntime) {
    write_in_vain_as(&rt, rt.alloc(), 1, Writes::Flush);
}

#[test]
fn eight_faults_end_a_landing(rt: HostRuntime) {
    write_in_vain_as(&rt, rt.alloc(), 0, Writes::Landing);
}

#[test]
fn eight_faults_end_a_write(rt: HostRuntime) {
    write_in_vain_as(&rt, rt.alloc(), 0, Writes::OneByOne);
}

// A cache over a device whose first sync fails.
type Unsynced = Bench<Global, UnsyncedDevice<MemDevice>>;

// The wave was written and is held; nothing of it is completed, and nothing more is written, though the memory behind would sync.
fn sync_in_vain(rt: &impl Abort, bench: &mut Unsynced) {
    let failed = Err(FlushRefusal::SyncFailed);
    expect_equal(rt, "flush", flush(bench), failed);
    expect_marks(rt, &bench.cache, SENT);
    expect_equal(
        rt,
        "again",
        flush(bench),
        Err(FlushRefusal::DeviceGaveUp(BlockNo(0))),
    );
    expect_marks(rt, &bench.cache, SENT);
}

fn count_writes(rt: &impl Abort, bench: Unsynced) {
    let Bench {
        cache,
        flights,
        device,
    } = bench;
    flights.abandon();
    drop(cache);
    expect_equal(rt, "writes", device.into_inner().writes().len(), 1);
}

#[test]
fn a_failed_sync_ends_all_writes(rt: HostRuntime) {
    let device = UnsyncedDevice::new(open_device(&rt, rt.alloc(), 2), 0);
    let mut bench = open_chain(&rt, rt.alloc(), device);
    sync_in_vain(&rt, &mut bench);
    count_writes(&rt, bench);
}

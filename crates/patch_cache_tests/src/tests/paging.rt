//! Blocks that come and go, and caches that begin anew.
use super::asked::Asked::{Bare, Complete, Merge, Patch, Send, View};
use super::asked::Told::{Landed, Made, Refused, RefusedFor, Seen, Sent};
use super::asked::{Asked, Told, ask_of, is_told};
use super::*;
use linked_list_allocator::LocalHeap;
use patch_device::load;
use patch_model::{BlockBytes, MAX_CACHED, RefusalKind};

// A cache of the most blocks, none of which is resident.
fn of_most(alloc: Global) -> Cache {
    Cache::of(alloc, MAX_CACHED)
}

// A block that begins with this byte, and has zeros behind it.
fn block_of<A: Allocator>(rt: &impl Abort, alloc: A, first: u8) -> BlockBytes<A> {
    let mut bytes = Vec::from_slice(alloc, &ZEROS).expect(rt, "a block");
    bytes[0] = first;
    BlockBytes::from_vec(bytes)
}

fn admit<A: Allocator + Copy>(
    rt: &impl Abort,
    alloc: A,
    cache: &mut Cache<A>,
    block: u32,
    first: u8,
) -> Result<(), AdmitRefusal> {
    let bytes = block_of(rt, alloc, first);
    cache.admit(BlockNo(block), bytes)
}

const FAR: u32 = 16_777_215;

#[test]
fn a_block_is_admitted_and_let_go(rt: HostRuntime) {
    let mut cache = of_most(rt.alloc());
    expect_equal(&rt, "resident", cache.resident(), 0);
    for block in [0, 5000, FAR] {
        expect_equal(
            &rt,
            "admit",
            admit(&rt, rt.alloc(), &mut cache, block, 7),
            Ok(()),
        );
        expect_read(&rt, &cache, block, 0, 2, &[7, 0]);
        let again = admit(&rt, rt.alloc(), &mut cache, block, 8);
        expect_equal(&rt, "again", again, Err(AdmitRefusal::IsResident));
    }
    let beyond = admit(&rt, rt.alloc(), &mut cache, FAR + 1, 7);
    expect_equal(&rt, "beyond", beyond, Err(AdmitRefusal::NoSuchBlock));
    expect_equal(&rt, "resident", cache.resident(), 3);
    expect_equal(&rt, "evict", cache.evict(BlockNo(5000)), Ok(()));
    let gone = cache.is_resident(BlockNo(5000));
    expect_equal(&rt, "gone", (gone, cache.resident()), (false, 2));
    expect_equal(
        &rt,
        "admit",
        admit(&rt, rt.alloc(), &mut cache, 5000, 9),
        Ok(()),
    );
    expect_read(&rt, &cache, 5000, 0, 2, &[9, 0]);
    expect_read(&rt, &cache, FAR, 0, 1, &[7]);
}

// A block that isn't resident, told before what else stands against a call.
fn expect_absent(rt: &impl Abort, cache: &mut Cache, block: BlockNo) {
    let made = cache.create(block, 0, &[], &[PatchNo(9)], Undo::Keep);
    expect_equal(rt, "create", made, Err(CreateRefusal::NotResident(block)));
    expect_no_read(
        rt,
        cache,
        block.0,
        (0, BLOCK + 1),
        ReadRefusal::NotResident(block),
    );
    let sent = send_in_vain(cache, block.0);
    expect_equal(rt, "send", sent, Err(SendRefusal::NotResident(block)));
    let seen = view_through(rt, cache, block.0, &[]);
    expect_equal(rt, "view", seen, Err(ViewRefusal::NotResident(block)));
    let evicted = cache.evict(block);
    expect_equal(rt, "evict", evicted, Err(EvictRefusal::NotResident(block)));
}

#[test]
fn a_block_that_is_not_resident_is_refused_first(rt: HostRuntime) {
    let mut cache = of_most(rt.alloc());
    expect_absent(&rt, &mut cache, BlockNo(3));
    expect_equal(
        &rt,
        "admit",
        admit(&rt, rt.alloc(), &mut cache, 3, 7),
        Ok(()),
    );
    expect_equal(&rt, "evict", cache.evict(BlockNo(3)), Ok(()));
    expect_absent(&rt, &mut cache, BlockNo(3));
    let beyond = cache.evict(BlockNo(FAR + 1));
    expect_equal(&rt, "beyond", beyond, Err(EvictRefusal::NoSuchBlock));
    expect_equal(&rt, "trace", cache.trace().len(), 0);
}

// Ends a write that was written elsewhere.
fn end(rt: &impl Abort, cache: &mut Cache, flight: Flight) {
    match cache.complete(flight.landed()) {
        Ok(done) => drop(done),
        Err(stranger) => {
            stranger.abandon();
            panic!(rt; "a stranger")
        }
    }
}

// Two far blocks, of which the second goes to the disk after the first.
#[test]
fn a_live_block_stays(rt: HostRuntime) {
    let mut cache = of_most(rt.alloc());
    for block in [9, FAR] {
        expect_equal(
            &rt,
            "admit",
            admit(&rt, rt.alloc(), &mut cache, block, 1),
            Ok(()),
        );
    }
    let first = make(&rt, &mut cache, FAR, 0, b"ab", &[]);
    make(&rt, &mut cache, 9, 1, b"c", &[first]);
    expect_equal(&rt, "ready", cache.next_ready(), Some(BlockNo(FAR)));
    for block in [9, FAR] {
        expect_equal(
            &rt,
            "live",
            cache.evict(BlockNo(block)),
            Err(EvictRefusal::Live),
        );
    }
    let flight = send(&rt, &mut cache, FAR);
    expect_equal(
        &rt,
        "flies",
        cache.evict(BlockNo(FAR)),
        Err(EvictRefusal::Live),
    );
    end(&rt, &mut cache, flight);
    expect_equal(&rt, "evict", cache.evict(BlockNo(FAR)), Ok(()));
    expect_equal(&rt, "ready", cache.next_ready(), Some(BlockNo(9)));
    let flight = send(&rt, &mut cache, 9);
    end(&rt, &mut cache, flight);
    expect_equal(&rt, "evict", cache.evict(BlockNo(9)), Ok(()));
    expect_equal(&rt, "resident", cache.resident(), 0);
    expect_equal(&rt, "mark", cache.mark_of(first), Some(Mark::Durable));
}

#[test]
fn a_renewal_waits_for_the_last_write(rt: HostRuntime) {
    let mut cache = of_most(rt.alloc());
    expect_equal(
        &rt,
        "admit",
        admit(&rt, rt.alloc(), &mut cache, 4, 1),
        Ok(()),
    );
    for round in 0..3 {
        let made = make(&rt, &mut cache, 4, 1, &[round], &[]);
        expect_equal(&rt, "first", made, PatchNo(0));
        expect_equal(&rt, "memory", cache.renew(), Err(Live));
        let flight = send(&rt, &mut cache, 4);
        expect_equal(&rt, "number", flight.number(), 0);
        expect_equal(&rt, "flight", cache.renew(), Err(Live));
        end(&rt, &mut cache, flight);
        expect_equal(&rt, "made", cache.made(), 1);
        expect_equal(&rt, "renew", cache.renew(), Ok(()));
        let left = (cache.made(), cache.live(), cache.trace().len());
        expect_equal(&rt, "anew", left, (0, 0, 0));
        expect_read(&rt, &cache, 4, 0, 3, &[1, round, 0]);
    }
    expect_equal(&rt, "unmade", cache.mark_of(PatchNo(0)), None);
}

// Admits a block of zeros, if there is room for it.
fn has_room<A: Allocator + Copy>(alloc: A, cache: &mut Cache<A>, block: u32) -> bool {
    match Vec::from_slice(alloc, &ZEROS) {
        Ok(bytes) => cache
            .admit(BlockNo(block), BlockBytes::from_vec(bytes))
            .is_ok(),
        Err(_) => false,
    }
}

// How many of the first hundred blocks have room.
fn count_with_room<A: Allocator + Copy>(alloc: A, cache: &mut Cache<A>) -> usize {
    let mut count = 0usize;
    for block in 0..100 {
        if has_room(alloc, cache, block) {
            count = count.saturating_add(1);
        }
    }
    count
}

#[test]
fn memory_goes_with_the_blocks_that_are_resident(rt: HostRuntime) {
    let alloc = rt.alloc();
    let heap = LocalHeap::new(alloc, 64 * 1024).expect(&rt, "a heap");
    let mut cache = Cache::of(&heap, MAX_CACHED);
    expect_equal(&rt, "none", heap.used(), 0);
    let some = count_with_room(&heap, &mut cache);
    expect_equal(&rt, "some", 8 < some && some < 16, true);
    expect_equal(&rt, "resident", cache.resident() as usize, some);
    expect_equal(&rt, "evict", cache.evict(BlockNo(2)), Ok(()));
    expect_equal(&rt, "again", has_room(&heap, &mut cache, FAR), true);
    drop(cache);
    expect_equal(&rt, "left", heap.used(), 0);
}

// Asks of six blocks that begin with these bytes, of which they name the blocks 1, 2 and 4.
const FIRST: [&[u8]; 6] = [b"a", b"bb", b"ccc", b"d", b"eeeee", b"f"];

static NAMING: [(Asked, Told); 14] = [
    (View(4, 0, 6, &[], &[]), Seen(b"eeeee", b"eeeee")),
    (Patch(1, 1, b"xy", &[]), Made(0)),
    (Patch(2, 0, b"z", &[0]), Made(1)),
    (Bare(1, 3, b"w", &[]), Made(2)),
    (Merge(0, 2), RefusedFor(RefusalKind::Hard, 2)),
    (View(1, 0, 6, &[], &[]), Seen(b"bxyw", b"bxyw")),
    (View(2, 0, 4, &[1], &[]), Seen(b"ccc", b"zcc")),
    (Patch(6, 0, b"z", &[]), Refused(RefusalKind::NoSuchBlock)),
    (Send(2), Refused(RefusalKind::NothingReady)),
    (Send(1), Sent(1, &[0, 2], b"bxyw")),
    (Complete(1), Landed(1, &[0, 2])),
    (Send(2), Sent(2, &[1], b"zcc")),
    (Complete(2), Landed(2, &[1])),
    (Send(4), Refused(RefusalKind::NothingReady)),
];

// What is asked of three blocks once two of them were let go.
static AGAIN: [(Asked, Told); 4] = [
    (View(1, 0, 6, &[], &[]), Seen(b"bxyw", b"bxyw")),
    (Patch(2, 1, b"q", &[]), Made(3)),
    (View(2, 0, 4, &[], &[]), Seen(b"zqc", b"zqc")),
    (Complete(2), Refused(RefusalKind::Stranger)),
];

// A device of the six blocks.
fn device_of(rt: &impl Abort, alloc: Global) -> MemDevice {
    let mut device = open_device(rt, alloc, 6);
    for (n, bytes) in FIRST.iter().enumerate() {
        let mut block = Vec::from_slice(alloc, &ZEROS).expect(rt, "a block");
        block[..bytes.len()].copy_from_slice(bytes);
        device.write(n as u32, &block).expect(rt, "a write");
    }
    device.sync().expect(rt, "a sync");
    device
}

fn asks_of(rt: &impl Abort, alloc: Global, list: &[(Asked, Told)]) -> Vec<Ask> {
    let mut asks = Vec::new(alloc);
    for (asked, _) in list {
        asks.push(ask_of(rt, alloc, asked)).expect(rt, "room");
    }
    asks
}

// Answers a list of asks, and compares.
fn expect_list<D: Device>(
    rt: &impl Abort,
    alloc: Global,
    bench: &mut Bench<Global, D>,
    list: &[(Asked, Told)],
) {
    let asks = asks_of(rt, alloc, list);
    let answers = answers_of(bench, &asks);
    expect_equal(rt, "answers", answers.len(), list.len());
    for (at, (answer, (_, told))) in answers.iter().zip(list).enumerate() {
        expect_equal(rt, "answer", (at, is_told(answer, told)), (at, true));
    }
    drop(answers);
    drop(asks);
}

// A bench whose cache has no block yet.
fn empty_bench<D>(alloc: Global, device: D) -> Bench<Global, D> {
    Bench {
        cache: Cache::of(alloc, 6),
        flights: Flights::new(alloc),
        device,
    }
}

// The cache that was opened and the one that reads what is named answer alike.
#[test]
fn a_list_brings_the_blocks_that_it_names(rt: HostRuntime) {
    let alloc = rt.alloc();
    let mut device = device_of(&rt, alloc);
    let blocks = load(alloc, &mut device).expect(&rt, "blocks");
    assert!(rt; !blocks.is_empty() && blocks.len() <= MAX_BLOCKS);
    let mut opened = Bench {
        cache: Cache::open(alloc, blocks).expect(&rt, "a cache"),
        flights: Flights::new(alloc),
        device,
    };
    expect_list(&rt, alloc, &mut opened, &NAMING);
    expect_list(&rt, alloc, &mut opened, &AGAIN);
    expect_equal(&rt, "all", opened.cache.resident(), 6);
    close(opened);
    let mut bench = empty_bench(alloc, device_of(&rt, alloc));
    expect_list(&rt, alloc, &mut bench, &NAMING);
    for (block, there) in [
        (0, false),
        (1, true),
        (2, true),
        (3, false),
        (4, true),
        (5, false),
    ] {
        let is = bench.cache.is_resident(BlockNo(block));
        expect_equal(&rt, "resident", (block, is), (block, there));
    }
    for block in [1, 2] {
        expect_equal(&rt, "evict", bench.cache.evict(BlockNo(block)), Ok(()));
    }
    expect_list(&rt, alloc, &mut bench, &AGAIN);
    expect_equal(&rt, "named", bench.cache.resident(), 3);
    close(bench);
}

// The first read is refused: the ask is given up, whatever stands against it, and the next one brings the block.
#[test]
fn a_block_that_cannot_be_read_is_not_brought(rt: HostRuntime) {
    let alloc = rt.alloc();
    let device = FaultyDevice::new(device_of(&rt, alloc), 0, false);
    let mut bench = empty_bench(alloc, device);
    expect_list(
        &rt,
        alloc,
        &mut bench,
        &[
            (Patch(1, 0, b"", &[]), Refused(RefusalKind::Fault)),
            (Patch(1, 0, b"", &[]), Refused(RefusalKind::EmptyPatch)),
            (View(1, 0, 3, &[], &[]), Seen(b"bb", b"bb")),
        ],
    );
    expect_equal(&rt, "resident", bench.cache.resident(), 1);
    expect_equal(&rt, "trace", bench.cache.trace().len(), 0);
    let brought = bench.cache.bring(&mut bench.device, BlockNo(6));
    expect_equal(&rt, "beyond", brought, Ok(()));
    expect_equal(&rt, "resident", bench.cache.resident(), 1);
    close(bench);
}

// A heap with room for a few blocks.
#[test]
fn a_block_without_memory_is_not_brought(rt: HostRuntime) {
    let alloc = rt.alloc();
    let heap = LocalHeap::new(alloc, 16 * 1024).expect(&rt, "a heap");
    let mut device = device_of(&rt, alloc);
    let mut cache = Cache::of(&heap, 6);
    let mut some = 0u32;
    let mut last = Ok(());
    for block in 0..6 {
        last = cache.bring(&mut device, BlockNo(block));
        if last.is_ok() {
            some = some.saturating_add(1);
        }
    }
    expect_equal(&rt, "last", last, Err(BringRefusal::OutOfMemory));
    expect_equal(&rt, "some", 0 < some && some < 5, true);
    expect_equal(&rt, "resident", cache.resident(), some);
    expect_read(&rt, &cache, 0, 0, 3, b"a\0\0");
    drop(cache);
    drop(device);
    expect_equal(&rt, "left", heap.used(), 0);
}

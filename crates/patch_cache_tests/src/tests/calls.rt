//! The calls, one by one.
use super::*;
use patch_cache::Move::{Back, Take};
use patch_model::{MAX_LIVE, RefusalKind};

type Over = Bench<Global, FaultyDevice<MemDevice>>;

// The second block with its first patch.
const IMAGE: &[u8] = &[0, 0, 0, 0xaa];

fn expect_unpatched(rt: &impl Abort, cache: &mut Cache) {
    expect_equal(rt, "blocks", cache.blocks(), 2);
    expect_shown(rt, cache, (0, 0, [None; 2], None, 0));
    expect_read(rt, cache, 1, 0, BLOCK, &ZEROS);
}

// Makes the first patch of an unpatched cache, of one byte on the second block.
fn make_first(rt: &impl Abort, cache: &mut Cache) {
    expect_unpatched(rt, cache);
    let no = make(rt, cache, 1, 3, &[0xaa], &[]);
    expect_equal(rt, "number", no, PatchNo(0));
    expect_read(rt, cache, 1, 2, 3, &[0, 0xaa, 0]);
}

// What a cache of one patch shows of it.
fn expect_one(
    rt: &impl Abort,
    cache: &mut Cache,
    live: u32,
    mark: Mark,
    ready: Option<BlockNo>,
    steps: usize,
) {
    expect_shown(rt, cache, (1, live, [Some(mark), None], ready, steps));
}

// The flight of the second block has its one patch.
fn expect_flight(rt: &impl Abort, flight: &Flight) {
    let got = (flight.block(), flight.number());
    expect_equal(rt, "flight", got, (BlockNo(1), 0));
    expect_equal(rt, "numbers", flight.numbers(), &[PatchNo(0)]);
    assert!(rt; is_start(flight.image(), IMAGE));
}

fn expect_completed(rt: &impl Abort, cache: &mut Cache, landed: Landed) {
    match completed(cache, landed) {
        Ok(done) => {
            expect_equal(rt, "block", done.block, BlockNo(1));
            expect_equal(rt, "numbers", done.numbers.as_slice(), &[PatchNo(0)]);
            drop(done);
        }
        Err(stranger) => expect_equal(rt, "stranger", Some(stranger), None),
    }
}

// Makes the patch and sends it, which the device refuses first or not, and completes it.
fn send_and_complete(rt: &impl Abort, bench: &mut Over, refuses: bool) {
    make_first(rt, &mut bench.cache);
    expect_one(rt, &mut bench.cache, 1, Mark::Memory, Some(BlockNo(1)), 1);
    let flight = send(rt, &mut bench.cache, 1);
    expect_flight(rt, &flight);
    expect_one(rt, &mut bench.cache, 1, Mark::Flight, None, 2);
    let (landed, refused) = written(rt, &mut bench.device, flight);
    let got = (refused, landed.block(), landed.number());
    expect_equal(rt, "landed", got, (refuses, BlockNo(1), 0));
    expect_completed(rt, &mut bench.cache, landed);
    expect_one(rt, &mut bench.cache, 0, Mark::Durable, None, 3);
    expect_disk(rt, &mut bench.device, 1, IMAGE);
}

// What the second patch's bytes show, whose first byte is the block's third.
const UNDER_BOTH: &[u8] = &[0, 0];

const UNDER_SECOND: &[u8] = &[0, 0xaa];

const WITH_BOTH: &[u8] = &[0xb1, 0xb2];

const HELD: Result<(), Refusal> = Err(Refusal {
    kind: RefusalKind::DependentApplied,
    number: Some(1),
});

const TOO_EARLY: Result<(), Refusal> = Err(Refusal {
    kind: RefusalKind::DependencyTaken,
    number: Some(0),
});

const NOT_TAKEN: Result<(), Refusal> = Err(Refusal {
    kind: RefusalKind::NotTaken,
    number: None,
});

// Both patches are taken, put back, and taken again.
const MOVES: [Moved; 10] = [
    (Take(PatchNo(0)), HELD, WITH_BOTH),
    (Take(PatchNo(1)), Ok(()), UNDER_SECOND),
    (Take(PatchNo(0)), Ok(()), UNDER_BOTH),
    (Back(PatchNo(1)), TOO_EARLY, UNDER_BOTH),
    (Back(PatchNo(0)), Ok(()), UNDER_SECOND),
    (Back(PatchNo(0)), NOT_TAKEN, UNDER_SECOND),
    (Back(PatchNo(1)), Ok(()), WITH_BOTH),
    (Take(PatchNo(0)), HELD, WITH_BOTH),
    (Take(PatchNo(1)), Ok(()), UNDER_SECOND),
    (Take(PatchNo(0)), Ok(()), UNDER_BOTH),
];

fn expect_put_right(rt: &impl Abort, cache: &mut Cache) {
    make_first(rt, cache);
    make(rt, cache, 1, 2, WITH_BOTH, &[]);
    let unseen = view_through(rt, cache, 2, &MOVES);
    expect_equal(rt, "view", unseen, Err(ViewRefusal::NoSuchBlock));
    expect_equal(rt, "view", view_through(rt, cache, 1, &MOVES), Ok(()));
    expect_read(rt, cache, 1, 2, 2, WITH_BOTH);
}

// Sends the second block, and gives the write up before or after it landed.
fn stay_in_flight(rt: &impl Abort, bench: &mut Over, lands: bool) {
    make_first(rt, &mut bench.cache);
    let flight = send(rt, &mut bench.cache, 1);
    if lands {
        let (landed, _) = written(rt, &mut bench.device, flight);
        landed.abandon();
    } else {
        flight.abandon();
    }
    expect_one(rt, &mut bench.cache, 1, Mark::Flight, None, 2);
    make(rt, &mut bench.cache, 1, 0, &[0xbb], &[]);
    let refused = send_in_vain(&mut bench.cache, 1);
    expect_equal(rt, "send", refused, Err(SendRefusal::AlreadyInFlight));
    expect_equal(rt, "ready", bench.cache.next_ready(), None);
}

// What waits for the second block is not ready; what waits for nothing is, and its block is the lesser.
fn expect_least(rt: &impl Abort, cache: &mut Cache) {
    make_first(rt, cache);
    make(rt, cache, 0, 0, &[0xbb], &[PatchNo(0)]);
    let first = cache.next_ready();
    make(rt, cache, 0, 9, &[0xcc], &[]);
    let second = cache.next_ready();
    let sent = send_in_vain(cache, 0);
    let got = (first, second, sent, cache.next_ready());
    let (one, zero) = (Some(BlockNo(1)), Some(BlockNo(0)));
    let want = (one, zero, Ok(()), Some(BlockNo(1)));
    expect_equal(rt, "ready", got, want);
}

fn expect_unread(rt: &impl Abort, cache: &mut Cache) {
    make_first(rt, cache);
    expect_no_read(rt, cache, 2, (0, BLOCK + 1), ReadRefusal::NoSuchBlock);
    expect_no_read(rt, cache, 1, (0, BLOCK + 1), ReadRefusal::OutOfBlock);
    expect_no_read(rt, cache, 1, (BLOCK, 1), ReadRefusal::OutOfBlock);
    expect_no_read(rt, cache, 1, (usize::MAX, 2), ReadRefusal::OutOfBlock);
}

// What is tried of a cache of two blocks of zeros.
#[derive(Clone, Copy)]
enum Trial {
    ToDisk { refuses: bool },
    View,
    InFlight { lands: bool },
    Least,
    Unread,
}

fn attempt(rt: &impl Abort, bench: &mut Over, trial: Trial) {
    match trial {
        Trial::ToDisk { refuses } => send_and_complete(rt, bench, refuses),
        Trial::View => expect_put_right(rt, &mut bench.cache),
        Trial::InFlight { lands } => stay_in_flight(rt, bench, lands),
        Trial::Least => expect_least(rt, &mut bench.cache),
        Trial::Unread => expect_unread(rt, &mut bench.cache),
    }
}

// Tries it over a device that refuses this write, which lands or not.
fn try_out(rt: &impl Abort, alloc: Global, refused: u64, lands: bool, trial: Trial) {
    let mut bench = open_over(rt, alloc, 2, refused, lands);
    attempt(rt, &mut bench, trial);
    close(bench);
}

// Also where the device refuses the write, whether or not that landed: the same image is written again.
#[test]
fn from_patch_to_disk(rt: HostRuntime) {
    for (refused, lands) in [(u64::MAX, false), (0, false), (0, true)] {
        let refuses = refused == 0;
        try_out(&rt, rt.alloc(), refused, lands, Trial::ToDisk { refuses });
    }
}

#[test]
fn a_view_is_put_right(rt: HostRuntime) {
    try_out(&rt, rt.alloc(), u64::MAX, false, Trial::View);
}

// The block of a flight that is given up, or of a landed write, stays in flight.
#[test]
fn an_abandoned_write_stays_in_flight(rt: HostRuntime) {
    for lands in [false, true] {
        try_out(&rt, rt.alloc(), u64::MAX, false, Trial::InFlight { lands });
    }
}

#[test]
fn the_least_block_is_ready(rt: HostRuntime) {
    try_out(&rt, rt.alloc(), u64::MAX, false, Trial::Least);
}

#[test]
fn what_is_not_read(rt: HostRuntime) {
    try_out(&rt, rt.alloc(), u64::MAX, false, Trial::Unread);
}

// The write of the second block is a stranger to the cache, of this number.
fn expect_stranger(rt: &impl Abort, cache: &mut Cache, landed: Landed, number: u32) {
    let stranger = completed(cache, landed).err();
    expect_equal(rt, "stranger", stranger, Some((BlockNo(1), number)));
}

// Completions of another cache, whose flight of the block has another number: it sends the first block before, in vain.
fn expect_strangers(rt: &impl Abort, bench: &mut Over, other: &mut Over) {
    make_first(rt, &mut bench.cache);
    make_first(rt, &mut other.cache);
    make(rt, &mut other.cache, 0, 0, &[0xbb], &[]);
    expect_equal(rt, "send", send_in_vain(&mut other.cache, 0), Ok(()));
    let flight = send(rt, &mut other.cache, 1);
    let (theirs, _) = written(rt, &mut bench.device, flight);
    expect_stranger(rt, &mut bench.cache, theirs, 1);
    let flight = send(rt, &mut bench.cache, 1);
    let (own, _) = written(rt, &mut bench.device, flight);
    expect_stranger(rt, &mut other.cache, own, 0);
    expect_one(rt, &mut bench.cache, 1, Mark::Flight, None, 2);
}

#[test]
fn a_stranger_comes_back(rt: HostRuntime) {
    let mut bench = open_over(&rt, rt.alloc(), 2, u64::MAX, false);
    let mut other = open_over(&rt, rt.alloc(), 2, u64::MAX, false);
    expect_strangers(&rt, &mut bench, &mut other);
    close(bench);
    close(other);
}

fn is_refused(device: &mut MemDevice, flight: Flight) -> bool {
    match write_out(device, flight) {
        Ok(landed) => {
            landed.abandon();
            false
        }
        Err((flight, Fault)) => {
            flight.abandon();
            true
        }
    }
}

// A device with too few blocks refuses the write of one that it hasn't.
#[test]
fn a_device_with_too_few_blocks(rt: HostRuntime) {
    let mut bench = open_bench(&rt, rt.alloc(), 2, open_device(&rt, rt.alloc(), 1));
    make_first(&rt, &mut bench.cache);
    let flight = send(&rt, &mut bench.cache, 1);
    let refused = is_refused(&mut bench.device, flight);
    close(bench);
    assert!(&rt; refused);
}

// How many patches were made and are live.
fn counts(cache: &Cache) -> (u32, u32) {
    (cache.made(), cache.live())
}

// No patch more is made, and one that names an unmade patch is refused for that.
fn expect_full(rt: &impl Abort, cache: &mut Cache) {
    for at in 0..MAX_LIVE {
        make(rt, cache, at / 256, (at % 256) as usize, &[0xaa], &[]);
    }
    let full = counts(cache);
    let more = cache.create(BlockNo(0), 0, &[0xaa], &[], Undo::Keep);
    let named = cache.create(BlockNo(0), 0, &[0xbb], &[PatchNo(MAX_LIVE)], Undo::Keep);
    let refused = (
        Err(CreateRefusal::TooManyLive),
        Err(CreateRefusal::UnknownDependency),
    );
    expect_equal(rt, "refused", (more, named), refused);
    let all = (MAX_LIVE, MAX_LIVE);
    expect_equal(rt, "counts", (full, counts(cache)), (all, all));
}

// One on each byte of the first 256 of as many blocks, and one more.
#[test]
fn as_many_as_may_be_live(rt: HostRuntime) {
    let mut bench = open_over(&rt, rt.alloc(), 256, u64::MAX, false);
    expect_full(&rt, &mut bench.cache);
    close(bench);
}

//! New disks and their stores, what writers ask and what they are told, and what is left when several of them were served.
ghost use Rattle.std.specs.Prelude.{◌≡◌, ◌<◌, ◌≤◌, length, vec_len};
ghost use Rattle.patch_shared.specs.Books.{IsNew};
ghost use Rattle.patch_shared_tests.specs.Fresh.{IsUnchanged};

use patch_cache::Cache;
use patch_device::{Device, MemDevice, load};
use patch_frame::{Format, Geometry};
use patch_history::{Command, Reply};
use patch_model::{
    BLOCK, BlockBytes, BlockNo, Bytes, MAX_BLOCKS, OutOfMemory, RefusalKind, Step, WriterNo,
};
use patch_shared::{Actor, Book, Cause, Finished, Gate, OpenGate, ServeFault, serve};
use patch_store::{Store, make};
use std::alloc::{Allocator, Global};
use std::fmt::Debug;
use std::process::Abort;
use std::sync::Wait;
use std::thread::Threads;

mod books;
mod crashes;
mod cuts;
mod devices;
mod gates;
mod memory;
mod serving;
mod syncs;

// Ends the test, telling both, unless what came is what is wanted. A call takes the prover less than `assert_eq!` where it stands.
fn expect_eq<T: PartialEq + Debug>(rt: &impl Abort, got: &T, want: &T) {
    assert_eq!(rt; *got, *want);
}

// One index block and two extents: 35 blocks.
const SMALL: Geometry = Geometry {
    index: 1,
    extents: 2,
    format: Format::One,
};

const COUNT: u32 = 35;

// The cache of these blocks.
fn cache_of<A: Allocator + Copy>(
    rt: &impl Abort,
    alloc: A,
    blocks: Vec<BlockBytes<A>, A>,
) -> Cache<A>
    ensures { IsUnchanged result }
{
    assert!(rt; !blocks.is_empty() && blocks.len() <= MAX_BLOCKS);
    match Cache::open(alloc, blocks) {
        Ok(cache) => cache,
        Err(_) => panic!(rt; "no memory for a cache"),
    }
}

// The store of these blocks.
fn store_of<A: Allocator + Copy>(
    rt: &impl Abort,
    alloc: A,
    blocks: Vec<BlockBytes<A>, A>,
) -> Store<A>
    ensures { IsNew result }
{
    let cache = cache_of(rt, alloc, blocks);
    match Store::open(alloc, cache) {
        Ok(store) => store,
        Err(_) => panic!(rt; "a disk was not opened"),
    }
}

// The store of a new disk.
fn new_store<A: Allocator + Copy>(rt: &impl Abort, alloc: A) -> Store<A>
    ensures { IsNew result }
{
    store_of(rt, alloc, make(alloc, SMALL).expect(rt, "a new disk"))
}

// The store that the device holds.
fn opened<D: Device>(rt: &impl Abort, alloc: Global, device: &mut D) -> Store {
    store_of(
        rt,
        alloc,
        load(alloc, device).expect(rt, "a device that is read"),
    )
}

// A device that holds a new disk. It was written once: but for the first, the blocks of both are of zeros.
fn new_device(rt: &impl Abort, alloc: Global) -> MemDevice {
    let blocks = make(alloc, SMALL).expect(rt, "a new disk");
    let first = blocks.first().expect(rt, "a first block");
    let mut device = MemDevice::new(alloc, COUNT).expect(rt, "memory for a device");
    device
        .write(0, first.as_slice())
        .expect(rt, "a good device");
    drop(blocks);
    device
}

// What is asked.
#[derive(Clone, Copy)]
enum Ask<'a> {
    Put(&'a [u8], &'a [u8]),
    Get(&'a [u8]),
    Delete(&'a [u8]),
}

// What is answered.
#[derive(Clone, Copy)]
enum Told<'a> {
    Done,
    Value(&'a [u8]),
    Absent,
    Refused(RefusalKind),
}

// What a writer asks, and what it is told.
type Talk<'a> = &'a [(Ask<'a>, Told<'a>)];

fn bytes<A: Allocator>(rt: &impl Abort, alloc: A, of: &[u8]) -> Bytes<A> {
    Bytes::from_vec(Vec::from_slice(alloc, of).expect(rt, "memory for bytes"))
}

fn command_of<A: Allocator + Copy>(rt: &impl Abort, alloc: A, ask: &Ask<'_>) -> Command<A> {
    match ask {
        Ask::Put(key, value) => Command::Put {
            key: bytes(rt, alloc, key),
            value: bytes(rt, alloc, value),
        },
        Ask::Get(key) => Command::Get {
            key: bytes(rt, alloc, key),
        },
        Ask::Delete(key) => Command::Delete {
            key: bytes(rt, alloc, key),
        },
    }
}

// The commands of one writer.
fn job_of(rt: &impl Abort, alloc: Global, talk: Talk<'_>) -> Vec<Command> {
    let mut job = Vec::new(alloc);
    for (ask, _) in talk {
        job.push(command_of(rt, alloc, ask))
            .expect(rt, "memory for a command");
    }
    job
}

fn jobs_of(rt: &impl Abort, alloc: Global, talks: &[Talk<'_>]) -> Vec<Vec<Command>> {
    let mut jobs = Vec::new(alloc);
    for talk in talks {
        jobs.push(job_of(rt, alloc, talk))
            .expect(rt, "memory for a job");
    }
    jobs
}

fn is_told(reply: &Reply, told: &Told<'_>) -> bool {
    match reply {
        Reply::Done => matches!(told, Told::Done),
        Reply::Absent => matches!(told, Told::Absent),
        Reply::Refused(refusal) => matches!(told, Told::Refused(kind) if refusal.kind == *kind),
        Reply::Value(bytes) => matches!(told, Told::Value(value) if bytes.as_slice() == *value),
        _ => false,
    }
}

// Whether a key has this value, or none.
fn has<A: Allocator + Copy>(store: &Store<A>, key: &[u8], value: Option<&[u8]>) -> bool {
    let Ok(found) = store.get(key) else {
        return false;
    };
    let same = match (&found, value) {
        (Some(found), Some(value)) => found.as_slice() == value,
        (None, None) => true,
        _ => false,
    };
    drop(found);
    same
}

// What became of a call of a book.
#[derive(Clone, Copy)]
enum Came {
    // The book had no room.
    Refused,
    // The store had none: the reply says so.
    Starved,
    Done,
    Otherwise,
}

const WRITER: Actor = Actor::Writer(WriterNo(0));

// Gives a command.
fn give<A: Allocator + Copy>(book: &mut Book<A>, command: &Command<A>) -> Came {
    let answer = book.command(WRITER, command);
    let came = match &answer {
        Err(OutOfMemory) => Came::Refused,
        Ok(Reply::Done) => Came::Done,
        Ok(Reply::Refused(refusal)) if refusal.kind == RefusalKind::OutOfMemory => Came::Starved,
        Ok(_) => Came::Otherwise,
    };
    drop(answer);
    came
}

// Does this so many times.
fn give_often<A: Allocator + Copy>(
    rt: &impl Abort,
    alloc: A,
    book: &mut Book<A>,
    ask: &Ask<'_>,
    times: usize,
) {
    let command = command_of(rt, alloc, ask);
    for _ in 0..times {
        assert!(rt; matches!(give(book, &command), Came::Done));
    }
    drop(command);
}

// The book of a new disk, in which this is done so many times.
fn new_book<A: Allocator + Copy>(
    rt: &impl Abort,
    alloc: A,
    ask: &Ask<'_>,
    times: usize,
) -> Book<A> {
    match Book::open(alloc, new_store(rt, alloc)) {
        Ok(mut book) => {
            give_often(rt, alloc, &mut book, ask, times);
            book
        }
        Err(_) => panic!(rt; "no memory for a book"),
    }
}

// Serves one to eight writers on the store of a new disk, which the device holds.
fn serve_all<D: Device + Drop + Send, G: Gate + Sync, R: Threads + Wait + Abort + Sync>(
    rt: &R,
    alloc: Global,
    device: D,
    jobs: Vec<Vec<Command>>,
    gate: &G,
) -> Result<Finished<D>, ServeFault<D>> {
    assert!(rt; !jobs.is_empty());
    assert!(rt; jobs.len() <= 8);
    let store = new_store(rt, alloc);
    serve(rt, alloc, store, device, jobs, gate)
}

// The same, where no fault is met.
fn serve_well<D: Device + Drop + Send, G: Gate + Sync, R: Threads + Wait + Abort + Sync>(
    rt: &R,
    alloc: Global,
    device: D,
    jobs: Vec<Vec<Command>>,
    gate: &G,
) -> Finished<D> {
    match serve_all(rt, alloc, device, jobs, gate) {
        Ok(finished) => finished,
        Err(fault) => panic!(rt; "serving ended with {}", fault.cause),
    }
}

fn expect_talk(rt: &impl Abort, replies: &[Reply], talk: Talk<'_>) {
    assert!(rt; replies.len() == talk.len());
    for at in 0..talk.len() {
        expect_eq(rt, &(at, is_told(&replies[at], &talk[at].1)), &(at, true));
    }
}

// The writers were told this and nothing more, and just these calls are in the book.
fn expect_talks<D: Device>(rt: &impl Abort, finished: &Finished<D>, talks: &[Talk<'_>]) {
    assert!(rt; talks.len() <= 8 && finished.replies.len() == talks.len());
    let mut calls = 0usize;
    let mut of_each = [0; 8];
    for writer in 0..talks.len() {
        expect_talk(rt, finished.replies[writer].as_slice(), talks[writer]);
        calls = calls.saturating_add(talks[writer].len());
        of_each[writer] = talks[writer].len() as u64;
    }
    let book = &finished.book;
    expect_eq(
        rt,
        &(book.calls.len(), book.counts.writers),
        &(calls, of_each),
    );
}

fn sends_in(trace: &[Step]) -> u64 {
    let mut sends = 0u64;
    for step in trace {
        if matches!(step, Step::Send { .. }) {
            sends = sends.saturating_add(1);
        }
    }
    sends
}

// Whether these are the blocks with all patches.
fn are_cached(cache: &Cache, blocks: &[BlockBytes]) -> bool {
    for n in 0..cache.blocks() {
        match (cache.read(BlockNo(n), 0, BLOCK), blocks.get(n as usize)) {
            (Ok(bytes), Some(block)) if bytes == block.as_slice() => {}
            _ => return false,
        }
    }
    blocks.len() == cache.blocks() as usize
}

// Every patch is on the disk, every write that was begun has ended, and the device holds what the cache does. How many writes were begun.
fn expect_settled<D: Device>(rt: &impl Abort, alloc: Global, finished: &mut Finished<D>) -> u64 {
    let cache = finished.store.cache();
    let sends = sends_in(cache.trace());
    let counts = finished.book.counts;
    let settled = (cache.live(), counts.flusher, counts.completer);
    expect_eq(rt, &settled, &(0, sends, sends));
    let blocks = load(alloc, &mut finished.device).expect(rt, "a device that is read");
    assert!(rt; are_cached(cache, &blocks));
    drop(blocks);
    sends
}

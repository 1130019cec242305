//! How several writers are served by one store.
ghost use Rattle.std.specs.Prelude.{ℕ, List, ◌≡◌, ◌<◌, ◌≤◌, length, vec_len, map, sum_by, [], IfOk, IfErr, IsNone, OnOk, MatchOption, true};
ghost use Rattle.patch_device.specs.SameDevice.{IsSameDevice};
ghost use Rattle.patch_cache.specs.Meaning.{IsCacheOf};
ghost use Rattle.patch_store.specs.Flushing.{HoldCached};
ghost use Rattle.patch_shared.specs.Books.{IsKept, IsFresh, IsNew, run_of, no_counts};
ghost use Rattle.patch_shared.specs.Conversations.{AreTold, IsSettled, commands_in, replies_in};
ghost use Rattle.patch_shared.specs.Serving.{RestsOn, CameTo, StillLasts, IsFaultWith, IsGivenBack, IsServed, book_of};

use crate::blocks::copy_cached;
use crate::books::Book;
use crate::comparing::{are_same_blocks, are_told};
use crate::completing::Completed;
use crate::crew::{Joined, gathered, run_threads, seats};
use crate::desks::{Desk, Tally};
use crate::entries::Rest;
use crate::faults::{Cause, ServeFault};
use crate::gates::Gate;
use crate::reading_back::read_back;
use crate::working::Flushed;
use patch_device::Device;
use patch_history::{Command, Reply};
use patch_model::BlockBytes;
use patch_store::Store;
use std::alloc::Global;
use std::marker::Brand;
use std::sync::ledger::{Blank, Ledger, Share};
use std::sync::{Mutex, Wait};
use std::thread::Threads;

/// What is left when all are served: the store, the device that holds all its patches, each writer's replies, and the rest of the book.
#[derive(Drop)]
pub struct Finished<D: Device> {
    pub store: Store,
    pub device: D,
    pub replies: Vec<Vec<Reply>>,
    pub book: Rest,
}

impl<D: Device> Finished<D> {
    /// Lets the store and the book go, and gives back the device and the replies.
    pub fn let_go(self) -> (D, Vec<Vec<Reply>>)
        ensures device { result.0 ≡ self.device }
        ensures replies { result.1 ≡ self.replies }
    {
        let Finished {
            store,
            device,
            replies,
            book,
        } = self;
        drop(store);
        drop(book);
        (device, replies)
    }
}

// The book and the device when the threads have ended, and how many writes they say that they have begun and ended.
#[derive(Drop)]
struct Ran<D: Device> {
    book: Book,
    device: D,
    replies: Vec<Vec<Reply>>,
    sent: u64,
    completed: u64,
}

// The device and the replies when all threads have ended as they should, and the tallies of the two that wrote.
#[derive(Drop)]
struct Counted<D: Device, S: Ledger, T: Ledger> {
    device: D,
    replies: Vec<Vec<Reply>>,
    sends: Tally<S>,
    completions: Tally<T>,
}

/// Runs the threads over one book. Each command, send and completion that a thread counts is in the book, and no other.
fn run_book<
    D: Device + Drop + Send,
    G: Gate + Sync,
    C: Ledger + Send + Sync,
    S: Ledger + Send + Sync,
    T: Ledger + Send + Sync,
    R: Threads + Wait + Sync,
>(
    rt: &R,
    alloc: Global,
    book: Book,
    device: D,
    jobs: &[Vec<Command>],
    gate: &G,
    blanks: (Blank, Blank, Blank),
    blocks: usize,
) -> Result<Ran<D>, ServeFault<D>>
    requires jobs { length jobs.now ≤ 8 }
    requires commands { (blanks.0.name ≡ C.name) × (blanks.0.parts ≡ C.parts) × (blanks.0.parts ≡ length jobs.now) }
    requires sends { (blanks.1.name ≡ S.name) × (blanks.1.parts ≡ S.parts) × (blanks.1.parts ≡ 1) }
    requires completions { (blanks.2.name ≡ T.name) × (blanks.2.parts ≡ T.parts) × (blanks.2.parts ≡ 1) }
    requires empty { (book.calls ≡ []) × (book.counts ≡ no_counts) }
    ensures kept { IfOk result (λ ran. IsKept ran.book) }
    ensures many { IfOk result (λ ran. vec_len ran.replies ≡ length jobs.now) }
    ensures commands { IfOk result (λ ran. length ran.book.calls ≡ sum_by (λ list. vec_len list) ran.replies.items) }
    ensures writes { IfOk result (λ ran. (ran.book.counts.flusher ≡ ran.sent) × (ran.book.counts.completer ≡ ran.completed)) }
    ensures device { IfOk result (λ ran. IsSameDevice D.Device device ran.device) }
    ensures lasts { IfOk result (λ ran. StillLasts D.Device device ran.device) }
    ensures fault { IfErr result (IsFaultWith D.Device device) }
{
    let (commands, mut all) = blanks.0.open::<C>();
    let (sends, all_sends) = blanks.1.open::<S>();
    let (completions, all_completions) = blanks.2.open::<T>();
    let desk = Mutex::new(Desk::new(book, commands, sends, completions));
    let tallies = (Tally::new(all_sends), Tally::new(all_completions));
    match run_desk(
        rt, alloc, &desk, device, jobs, gate, &mut all, tallies, blocks,
    ) {
        Ok(counted) => Ok(closed(desk.into_inner(), all, counted)),
        Err(fault) => Err(fault),
    }
}

/// Runs the threads over a desk. The writers' parts of the ledger of commands are put together again.
fn run_desk<
    D: Device + Drop + Send,
    G: Gate + Sync,
    C: Ledger + Send + Sync,
    S: Ledger + Send + Sync,
    T: Ledger + Send + Sync,
    R: Threads + Wait + Sync,
>(
    rt: &R,
    alloc: Global,
    desk: &Mutex<Desk<C, S, T>>,
    device: D,
    jobs: &[Vec<Command>],
    gate: &G,
    all: &mut Share<C>,
    tallies: (Tally<S>, Tally<T>),
    blocks: usize,
) -> Result<Counted<D, S, T>, ServeFault<D>>
    requires jobs { length jobs.now ≤ 8 }
    requires parts { (all.old.parts ≡ length jobs.now) × (all.old.amount ≡ 0) }
    ensures many { IfOk result (λ counted. vec_len counted.replies ≡ length jobs.now) }
    ensures parts { IfOk result (λ counted. all.new.parts ≡ length jobs.now) }
    ensures amount { IfOk result (λ counted. all.new.amount ≡ sum_by (λ list. vec_len list) counted.replies.items) }
    ensures device { IfOk result (λ counted. IsSameDevice D.Device device counted.device) }
    ensures lasts { IfOk result (λ counted. StillLasts D.Device device counted.device) }
    ensures fault { IfErr result (IsFaultWith D.Device device) }
{
    let Some(seats) = seats(alloc, all, jobs.len()) else {
        return Err(ServeFault::bare(Cause::OutOfMemory));
    };
    let (sends, completions) = tallies;
    match run_threads(
        rt,
        alloc,
        desk,
        device,
        jobs,
        gate,
        seats,
        sends,
        completions,
        blocks,
    ) {
        Ok(joined) => sum_up(alloc, joined, all, jobs.len()),
        Err(cause) => Err(ServeFault::bare(cause)),
    }
}

/// What the threads counted, where each of them came to its end.
fn sum_up<D: Device + Drop, C: Ledger, S: Ledger, T: Ledger>(
    alloc: Global,
    joined: Joined<D, C, S, T>,
    all: &mut Share<C>,
    writers: usize,
) -> Result<Counted<D, S, T>, ServeFault<D>>
    requires none { (all.old.parts ≡ 0) × (all.old.amount ≡ 0) }
    ensures many { IfOk result (λ counted. vec_len counted.replies ≡ writers) }
    ensures parts { IfOk result (λ counted. all.new.parts ≡ writers) }
    ensures amount { IfOk result (λ counted. all.new.amount ≡ sum_by (λ list. vec_len list) counted.replies.items) }
    ensures device { IfOk result (λ counted. counted.device ≡ joined.completed.device) }
    ensures lasts { (first : D) → CameTo D.Device joined.completed.end first joined.completed.device
        → OnOk result (StillLasts D.Device first joined.completed.device) }
    ensures fault { (first : D) → IsSameDevice D.Device first joined.completed.device
        → CameTo D.Device joined.completed.end first joined.completed.device
        → IfErr result (λ fault. IsGivenBack D.Device first fault.cause fault.device) }
{
    let cause = cause_of(&joined);
    let Joined {
        written,
        flushed,
        completed,
    } = joined;
    let Completed {
        device,
        tally: completions,
        end: _,
    } = completed;
    let Flushed {
        tally: sends,
        whole: _,
    } = flushed;
    if let Some(cause) = cause {
        return Err(with_device(cause, device));
    }
    let Some(replies) = gathered(alloc, written, all) else {
        return Err(ServeFault::bare(Cause::OutOfMemory));
    };
    if replies.len() != writers {
        return Err(ServeFault::bare(Cause::Disagreed));
    }
    Ok(Counted {
        device,
        replies,
        sends,
        completions,
    })
}

/// Why the threads that write ended before all was done, if they did.
fn cause_of<D: Device, C: Ledger, S: Ledger, T: Ledger>(
    joined: &Joined<D, C, S, T>,
) -> Option<Cause>
    ensures cause { (before now : D) → CameTo D.Device joined.now.completed.end before now
        → MatchOption result (StillLasts D.Device before now) (λ cause. RestsOn D.Device cause before now) }
    ensures whole { IsNone result → joined.now.flushed.whole ≡ true }
{
    match joined.completed.end {
        Err(cause) => Some(cause),
        Ok(()) if joined.flushed.whole => None,
        Ok(()) => Some(Cause::OutOfMemory),
    }
}

/// The book, with what was counted beside it.
fn closed<D: Device, C: Ledger, S: Ledger, T: Ledger>(
    desk: Desk<C, S, T>,
    all: Share<C>,
    counted: Counted<D, S, T>,
) -> Ran<D>
    requires commands { all.parts ≡ C.parts }
    requires sends { S.parts ≡ 1 }
    requires completions { T.parts ≡ 1 }
    ensures kept { IsKept result.book }
    ensures commands { length result.book.calls ≡ all.amount }
    ensures writes { (result.book.counts.flusher ≡ result.sent) × (result.book.counts.completer ≡ result.completed) }
    ensures replies { result.replies ≡ counted.replies }
    ensures device { result.device ≡ counted.device }
{
    let Counted {
        device,
        replies,
        sends,
        completions,
    } = counted;
    let sent = sends.count();
    let completed = completions.count();
    let book = desk.close(all, sends.into_share(), completions.into_share());
    Ran {
        book,
        device,
        replies,
        sent,
        completed,
    }
}

/// Whether no patch of the book's store is in memory or in flight.
fn is_settled(book: &Book) -> bool
    ensures { result ≡ true → IsSettled (run_of book.now) }
{
    let _calls = book.calls();
    book.store().cache().live() == 0
}

/// Whether the book holds what the threads did, over these opening blocks, and all of it is on the disk.
fn agrees<D: Device>(ran: &Ran<D>, opening: &[BlockBytes], jobs: &[Vec<Command>]) -> bool
    requires { length jobs.now ≤ 8 }
    ensures opening { result ≡ true → ran.now.book.opening ≡ opening.now }
    ensures told { result ≡ true → AreTold ran.now.book.calls (commands_in jobs.now) (replies_in ran.now.replies.items) }
    ensures settled { result ≡ true → IsSettled (run_of ran.now.book) }
    ensures blocks { result ≡ true → D.block_count ran.now.device ≡ length ran.now.book.opening }
{
    let counts = ran.book.counts();
    are_same_blocks(ran.book.opening(), opening)
        && are_told(ran.book.calls(), jobs, ran.replies.as_slice())
        && counts.flusher == ran.sent
        && counts.completer == ran.completed
        && is_settled(&ran.book)
        && ran.device.count() as usize == opening.len()
}

/// All that is left, where the device holds it.
fn finish<D: Device + Drop>(ran: Ran<D>) -> Result<Finished<D>, ServeFault<D>>
    requires blocks { D.block_count ran.device ≡ length ran.book.opening }
    ensures book { IfOk result (λ finished. book_of finished ≡ ran.book) }
    ensures replies { IfOk result (λ finished. finished.replies ≡ ran.replies) }
    ensures holds { D.is_honest ran.device → IfOk result (λ finished. HoldCached (run_of ran.book) (D.contents finished.device)) }
    ensures device { IfOk result (λ finished. IsSameDevice D.Device ran.device finished.device) }
    ensures lasts { IfOk result (λ finished. StillLasts D.Device ran.device finished.device) }
    ensures fault { IfErr result (IsFaultWith D.Device ran.device) }
{
    let Ran {
        book,
        mut device,
        replies,
        ..
    } = ran;
    if let Err(cause) = read_back(&mut device, book.store().cache()) {
        drop(book);
        return Err(with_device(cause, device));
    }
    let (store, book) = book.into_parts();
    Ok(Finished {
        store,
        device,
        replies,
        book,
    })
}

/// The fault of this cause: the device goes with it where it gave up or refused a sync.
fn with_device<D: Device + Drop>(cause: Cause, device: D) -> ServeFault<D>
    ensures cause { result.cause ≡ cause }
    ensures back { (first : D) → IsSameDevice D.Device first device → RestsOn D.Device cause first device
        → IsGivenBack D.Device first cause result.device }
{
    match cause {
        Cause::DeviceGaveUp(_) | Cause::SyncFailed => ServeFault {
            cause,
            device: Some(device),
        },
        _ => ServeFault::bare(cause),
    }
}

/// Serves one to eight writers at a time: each gives its commands to the store on a thread of its own, while two more bring what
/// they change to the device. So however they run, the replies are those of one writer who gave all commands in some order.
///
/// The store has been opened and has made no patch and no group since; the device holds the blocks that it was opened on. At
/// the end all patches are on the device behind a sync, and each of its blocks was read back. After a fault the store is lost. A
/// store's refusal is a reply, and its own want of memory too.
///
/// It may wait: that it returns isn't promised.
pub fn serve<D: Device + Drop + Send, G: Gate + Sync, R: Threads + Wait + Sync>(
    rt: &R,
    alloc: Global,
    store: Store,
    device: D,
    jobs: Vec<Vec<Command>>,
    gate: &G,
) -> Result<Finished<D>, ServeFault<D>>
    requires new { IsNew store }
    requires jobs { (0 < vec_len jobs) × (vec_len jobs ≤ 8) }
    ensures opening { (blocks : List (List ℕ)) → IsFresh store blocks → IfOk result (λ finished. (book_of finished).opening ≡ blocks) }
    ensures kept { IfOk result (λ finished. IsKept (book_of finished)) }
    ensures told { IfOk result (λ finished. AreTold (book_of finished).calls (commands_in jobs.items) (replies_in finished.replies.items)) }
    ensures all { IfOk result (λ finished. length (book_of finished).calls ≡ sum_by (λ list. vec_len list) finished.replies.items) }
    ensures settled { IfOk result (λ finished. IsSettled (run_of (book_of finished))) }
    ensures holds { IfOk result (λ finished. D.is_honest finished.device → HoldCached (run_of (book_of finished)) (D.contents finished.device)) }
    ensures device { IfOk result (λ finished. IsSameDevice D.Device device finished.device) }
    ensures lasts { IfOk result (λ finished. StillLasts D.Device device finished.device) }
    ensures fault { IfErr result (IsFaultWith D.Device device) }
{
    serve_lists(rt, alloc, store, device, jobs.as_slice(), gate)
}

/// Serves a writer for each list.
fn serve_lists<D: Device + Drop + Send, G: Gate + Sync, R: Threads + Wait + Sync>(
    rt: &R,
    alloc: Global,
    store: Store,
    device: D,
    jobs: &[Vec<Command>],
    gate: &G,
) -> Result<Finished<D>, ServeFault<D>>
    requires new { IsNew store }
    requires jobs { length jobs.now ≤ 8 }
    ensures served { (blocks : List (List ℕ)) → IsFresh store blocks → IfOk result (IsServed D.Device device blocks (commands_in jobs.now)) }
    ensures fault { IfErr result (IsFaultWith D.Device device) }
{
    let Ok(opening) = copy_cached(alloc, store.cache()) else {
        drop(store);
        return Err(ServeFault::bare(Cause::OutOfMemory));
    };
    serve_over(rt, alloc, store, device, jobs, gate, opening)
}

/// Serves the writers on a store that holds these blocks.
fn serve_over<D: Device + Drop + Send, G: Gate + Sync, R: Threads + Wait + Sync>(
    rt: &R,
    alloc: Global,
    store: Store,
    device: D,
    jobs: &[Vec<Command>],
    gate: &G,
    opening: Vec<BlockBytes>,
) -> Result<Finished<D>, ServeFault<D>>
    requires new { IsNew store }
    requires jobs { length jobs.now ≤ 8 }
    ensures served { IfOk result (IsServed D.Device device opening.items (commands_in jobs.now)) }
    ensures fault { IfErr result (IsFaultWith D.Device device) }
{
    let Some(book) = Book::open(alloc, store).ok() else {
        return Err(ServeFault::bare(Cause::OutOfMemory));
    };
    let blanks = (Blank::new(jobs.len() as u64), Blank::new(1), Blank::new(1));
    let blocks = opening.len();
    match run_book::<D, G, Brand, Brand, Brand, R>(
        rt, alloc, book, device, jobs, gate, blanks, blocks,
    ) {
        Ok(ran) => compared(ran, opening, jobs),
        Err(fault) => Err(fault),
    }
}

/// All that is left, where the book holds what the threads did over these opening blocks.
fn compared<D: Device + Drop>(
    ran: Ran<D>,
    opening: Vec<BlockBytes>,
    jobs: &[Vec<Command>],
) -> Result<Finished<D>, ServeFault<D>>
    requires jobs { length jobs.now ≤ 8 }
    requires kept { IsKept ran.book }
    requires all { length ran.book.calls ≡ sum_by (λ list. vec_len list) ran.replies.items }
    ensures served { IfOk result (IsServed D.Device ran.device opening.items (commands_in jobs.now)) }
    ensures fault { IfErr result (IsFaultWith D.Device ran.device) }
{
    if !agrees(&ran, opening.as_slice(), jobs) {
        drop(ran);
        return Err(ServeFault::bare(Cause::Disagreed));
    }
    finish(ran)
}

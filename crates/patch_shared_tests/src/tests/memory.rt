//! Each allocation of a book's calls refused in turn: what that leaves, and that the same call is done by the same book with memory.
use super::*;
use linked_list_allocator::LocalHeap;
use patch_shared::Counts;
use patch_testing::{fill, hole_of};

// How many bytes the heap has: a book of 35 blocks, and more.
const HEAP: usize = 1_048_576;

// Which call is tried: a put of `c`, or a send of what was put before.
#[derive(Clone, Copy)]
enum Call {
    Put,
    Send,
}

// How many entries a book has, which calls it has counted, and how many steps its store has taken.
type Standing = (usize, Counts, usize);

fn standing_of<A: Allocator + Copy>(book: &Book<A>) -> Standing {
    let steps = book.store().cache().trace().len();
    (book.calls().len(), book.counts(), steps)
}

// Begins a write of block 3, which never ends.
fn send<A: Allocator + Copy>(book: &mut Book<A>) -> Came {
    match book.send(Actor::Flusher) {
        Err(_) => Came::Refused,
        Ok(None) => Came::Otherwise,
        Ok(Some(flight)) => {
            let block = flight.block();
            flight.abandon();
            if block.0 == 3 {
                Came::Done
            } else {
                Came::Otherwise
            }
        }
    }
}

fn make_call<A: Allocator + Copy>(book: &mut Book<A>, call: Call, command: &Command<A>) -> Came {
    match call {
        Call::Put => give(book, command),
        Call::Send => send(book),
    }
}

// Makes the call where only a hole of this size is left.
fn call_in_hole<'a>(
    rt: &impl Abort,
    alloc: Global,
    heap: &'a LocalHeap,
    hole: usize,
    book: &mut Book<&'a LocalHeap>,
    call: Call,
    command: &Command<&'a LocalHeap>,
) -> Came {
    let ballast = fill(alloc, heap, hole).expect(rt, "memory for the ballast");
    let came = make_call(book, call, command);
    drop(ballast);
    came
}

// What is left: a refused call changes nothing, a starved command has its entry, and what is done is there.
fn expect_left<A: Allocator + Copy>(
    rt: &impl Abort,
    book: &Book<A>,
    before: Standing,
    call: Call,
    came: Came,
) {
    let (entries, mut counts, steps) = before;
    let now = standing_of(book);
    let mut value: Option<&[u8]> = None;
    match (came, call) {
        (Came::Refused, _) => expect_eq(rt, &now, &before),
        (Came::Starved, Call::Put) => {
            let more = counts.writers[0].saturating_add(1);
            expect_eq(rt, &(now.0 as u64, now.1.writers[0]), &(more, more));
        }
        (Came::Done, Call::Put) => value = Some(b"new"),
        (Came::Done, Call::Send) => {
            counts.flusher = 1;
            expect_eq(rt, &now, &(entries, counts, steps.saturating_add(1)));
        }
        _ => panic!(rt; "a call was answered otherwise"),
    }
    assert!(rt; has(book.store(), b"a", Some(b"first")) && has(book.store(), b"c", value));
}

// Makes the call where only a hole of this size is left, and again with memory where that is not done. What became of the first.
fn call_twice<'a>(
    rt: &impl Abort,
    alloc: Global,
    heap: &'a LocalHeap,
    hole: usize,
    book: &mut Book<&'a LocalHeap>,
    call: Call,
) -> Came {
    let command = command_of(rt, heap, &Ask::Put(b"c", b"new"));
    let before = standing_of(book);
    let came = call_in_hole(rt, alloc, heap, hole, book, call, &command);
    expect_left(rt, book, before, call, came);
    if !matches!(came, Came::Done) {
        let again = make_call(book, call, &command);
        assert!(rt; matches!(again, Came::Done));
        expect_left(rt, book, before, call, again);
    }
    drop(command);
    came
}

// The same in a new book, in which `a` was put so many times.
fn call_anew(
    rt: &impl Abort,
    alloc: Global,
    heap: &LocalHeap,
    hole: usize,
    calls: usize,
    call: Call,
) -> Came {
    let mut book = new_book(rt, heap, &Ask::Put(b"a", b"first"), calls);
    let came = call_twice(rt, alloc, heap, hole, &mut book, call);
    drop(book);
    expect_eq(rt, &heap.used(), &0);
    came
}

// Each hole is larger than the one before it, so that one allocation more succeeds now and then, until all do.
fn call_in_each(
    rt: &impl Abort,
    alloc: Global,
    heap: &LocalHeap,
    calls: usize,
    call: Call,
    pace: usize,
) {
    let (mut refused, mut starved) = (false, matches!(call, Call::Send));
    for turn in 0..1000usize {
        let hole = hole_of(turn.saturating_mul(pace));
        match call_anew(rt, alloc, heap, hole, calls, call) {
            Came::Refused => refused = true,
            Came::Starved => starved = true,
            _ => {
                assert!(rt; refused && starved);
                return;
            }
        }
    }
    panic!(rt; "refused in the largest hole");
}

// The list of calls has room for another one behind the first, and none behind the fourth.
#[test]
fn a_command_is_refused_whole_or_answered(rt: HostRuntime) {
    let heap = LocalHeap::new(rt.alloc(), HEAP).expect(&rt, "a heap");
    call_in_each(&rt, rt.alloc(), &heap, 1, Call::Put, 1);
    call_in_each(&rt, rt.alloc(), &heap, 4, Call::Put, 1);
}

// An image takes the room of a whole block: the holes grow faster.
#[test]
fn a_send_is_refused_whole(rt: HostRuntime) {
    let heap = LocalHeap::new(rt.alloc(), HEAP).expect(&rt, "a heap");
    call_in_each(&rt, rt.alloc(), &heap, 1, Call::Send, 4);
}

//! Calls of a book, one after another.
use super::*;
use patch_cache::{Landed, write_out};

const PUT_K: Ask<'static> = Ask::Put(b"k", &[1, 2]);

// Begins a write, and does it.
fn begin(rt: &impl Abort, book: &mut Book, device: &mut MemDevice) -> Option<Landed> {
    match book.send(Actor::Flusher) {
        Ok(Some(flight)) => match write_out(device, flight) {
            Ok(landed) => Some(landed),
            Err(_) => panic!(rt; "a device in memory refused a write"),
        },
        Ok(None) => None,
        Err(_) => panic!(rt; "no memory for a send"),
    }
}

// Begins a write, does it and ends it, and tells of which block.
fn write_one(rt: &impl Abort, book: &mut Book, device: &mut MemDevice) -> Option<u32> {
    let landed = begin(rt, book, device)?;
    match book.complete(Actor::Completer, landed) {
        Ok(done) => {
            let block = done.block.0;
            drop(done);
            Some(block)
        }
        Err(_) => panic!(rt; "a write of the book's own was a stranger"),
    }
}

// The first entry is that of the put, with three patches of its own.
fn expect_put(rt: &impl Abort, book: &Book) {
    let calls = book.calls();
    assert!(rt; calls.len() == 1);
    let first = &calls[0];
    expect_eq(
        rt,
        &(first.actor, first.before, first.after),
        &(WRITER, 0, 3),
    );
    assert!(rt; matches!(first.reply, Reply::Done));
    let steps = book.store().cache().trace();
    expect_eq(rt, &steps.len(), &3);
    for step in steps {
        assert!(rt; matches!(step, Step::Create { .. }));
    }
}

fn expect_counts(rt: &impl Abort, book: &Book) {
    let counts = book.counts();
    expect_eq(rt, &counts.writers, &[1, 0, 0, 0, 0, 0, 0, 0]);
    expect_eq(rt, &(counts.flusher, counts.completer), &(3, 3));
    expect_eq(rt, &book.opening().len(), &(COUNT as usize));
}

#[test]
fn a_put_reaches_the_disk_in_three_writes(rt: HostRuntime) {
    let mut book = new_book(&rt, rt.alloc(), &PUT_K, 1);
    expect_put(&rt, &book);
    let mut device = new_device(&rt, rt.alloc());
    // The blocks of the put in their order, and then none.
    for block in [Some(3), Some(2), Some(1), None] {
        expect_eq(&rt, &write_one(&rt, &mut book, &mut device), &block);
    }
    expect_counts(&rt, &book);
    drop(device);
    drop(book);
}

// The write comes back from a book that didn't begin it, as it was, and isn't counted.
fn expect_stranger(rt: &impl Abort, book: &mut Book, landed: Landed) {
    let begun = (landed.block(), landed.number());
    match book.complete(Actor::Completer, landed) {
        Ok(_) => panic!(rt; "a write of another book was ended"),
        Err(back) => {
            expect_eq(rt, &(back.block(), back.number()), &begun);
            back.abandon();
        }
    }
    expect_eq(rt, &book.counts().completer, &0);
}

#[test]
fn a_write_of_another_book_is_a_stranger(rt: HostRuntime) {
    let mut one = new_book(&rt, rt.alloc(), &PUT_K, 1);
    let mut other = new_book(&rt, rt.alloc(), &PUT_K, 1);
    let mut device = new_device(&rt, rt.alloc());
    let landed = begin(&rt, &mut one, &mut device).expect(&rt, "a write");
    expect_stranger(&rt, &mut other, landed);
    drop(device);
    drop(other);
    drop(one);
}

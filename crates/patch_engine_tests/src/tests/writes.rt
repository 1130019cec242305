//! How writes begin and end.
use super::*;

// The patches of a write, and whether its image begins so.
fn expect_out(
    rt: &impl Abort,
    engine: &Engine,
    block: u32,
    number: u32,
    want: &[PatchNo],
    start: &[u8],
) {
    let numbers = engine.flight(BlockNo(block), number);
    expect_equal(rt, "patches", numbers, Some(want));
    match engine.image(BlockNo(block), number) {
        Some(image) => assert!(rt; is_start(image, start)),
        None => panic!(rt; "no image"),
    }
}

fn expect_stranger(rt: &impl Abort, engine: &mut Engine, block: u32, number: u32) {
    let numbers = engine.flight(BlockNo(block), number);
    expect_equal(rt, "patches", numbers, None);
    let image = engine.image(BlockNo(block), number);
    expect_equal(rt, "image", image.is_none(), true);
    let ended = engine.complete(BlockNo(block), number);
    expect_equal(rt, "complete", ended, Err(Stranger));
}

// Block 7 goes to the disk before block 3, and the third patch, of block 7, behind that.
fn make_three(rt: &impl Abort, engine: &mut Engine) -> (PatchNo, PatchNo, PatchNo) {
    let first = make(rt, engine, 7, 0, b"a", &[]);
    let second = make(rt, engine, 3, 0, b"b", &[first]);
    let third = make(rt, engine, 7, 1, b"c", &[second]);
    (first, second, third)
}

// Sends block 7, of which one more patch is made then.
fn send_first(rt: &impl Abort, engine: &mut Engine, first: PatchNo) {
    expect_equal(rt, "next", engine.next_ready(), Some(BlockNo(7)));
    let number = send(rt, engine, 7, b"a");
    expect_equal(rt, "number", number, 0);
    make(rt, engine, 7, 0, b"d", &[]);
    expect_out(rt, engine, 7, 0, &[first], b"a");
    expect_equal(rt, "flies", engine.mark_of(first), Some(Mark::Flight));
}

// Ends that, so that block 3 is ready.
fn end_first(rt: &impl Abort, engine: &mut Engine, first: PatchNo, third: PatchNo) {
    expect_equal(rt, "none", engine.next_ready(), None);
    expect_equal(rt, "complete", engine.complete(BlockNo(7), 0), Ok(()));
    let marks = (engine.mark_of(first), engine.mark_of(third));
    let want = (Some(Mark::Durable), Some(Mark::Memory));
    expect_equal(rt, "marks", marks, want);
    expect_equal(rt, "durable", engine.durable_below(), 1);
    expect_equal(rt, "next", engine.next_ready(), Some(BlockNo(3)));
}

#[test]
fn an_image_leaves_out_what_is_not_ready(rt: HostRuntime) {
    let mut engine = open_with(&rt, rt.alloc(), [7, 3]);
    let (first, second, third) = make_three(&rt, &mut engine);
    expect_unsent(&rt, &mut engine, 3, SendRefusal::NothingReady);
    send_first(&rt, &mut engine, first);
    expect_unsent(&rt, &mut engine, 7, SendRefusal::AlreadyInFlight);
    end_first(&rt, &mut engine, first, third);
    let number = send(&rt, &mut engine, 3, b"b");
    expect_equal(&rt, "number", number, 1);
    expect_out(&rt, &engine, 3, 1, &[second], b"b");
    drop(engine);
}

// Sends both blocks, each with one patch. The first one's.
fn send_two(rt: &impl Abort, engine: &mut Engine) -> PatchNo {
    let patch = make(rt, engine, 0, 0, b"a", &[]);
    make(rt, engine, 1, 0, b"b", &[]);
    let numbers = (send(rt, engine, 0, b"a"), send(rt, engine, 1, b"b"));
    expect_equal(rt, "numbers", numbers, (0, 1));
    patch
}

#[test]
fn a_stranger_completes_nothing(rt: HostRuntime) {
    let mut engine = open_with(&rt, rt.alloc(), [0, 1]);
    expect_stranger(&rt, &mut engine, 0, 0);
    let patch = send_two(&rt, &mut engine);
    for (block, number) in [(0, 1), (1, 0), (2, 0), (100, 0)] {
        expect_stranger(&rt, &mut engine, block, number);
    }
    expect_out(&rt, &engine, 0, 0, &[patch], b"a");
    expect_equal(&rt, "first", engine.complete(BlockNo(0), 0), Ok(()));
    expect_stranger(&rt, &mut engine, 0, 0);
    expect_equal(&rt, "other", engine.complete(BlockNo(1), 1), Ok(()));
    drop(engine);
}

#[test]
fn a_send_is_refused_for_its_first_cause(rt: HostRuntime) {
    let mut engine = open_with(&rt, rt.alloc(), [0, 1]);
    expect_unsent(&rt, &mut engine, 100, SendRefusal::NoSuchBlock);
    let absent = SendRefusal::NotResident(BlockNo(2));
    expect_unsent(&rt, &mut engine, 2, absent);
    expect_unsent(&rt, &mut engine, 1, SendRefusal::NothingReady);
}

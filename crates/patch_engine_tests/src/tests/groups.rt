//! Groups, and in which order their patches are written.
use super::*;

const EARLY: GroupNo = GroupNo(0);

const LATE: GroupNo = GroupNo(1);

fn make_by(rt: &impl Abort, engine: &mut Engine, writer: WriterNo, block: u32) {
    let made = engine.patch(Some(writer), BlockNo(block), 0, b"x", &[], Undo::Keep);
    assert!(rt; made.is_ok());
}

// Makes two groups, of which the writer 1 has the first engaged for a patch.
fn begin_two(rt: &impl Abort, engine: &mut Engine) {
    let groups = (engine.group(), engine.group());
    expect_equal(rt, "groups", groups, (Ok(EARLY), Ok(LATE)));
    let engaged = engine.engage(WriterNo(1), EARLY);
    expect_equal(rt, "engage", engaged, Ok(()));
    make_by(rt, engine, WriterNo(1), 9);
    let held = engine.depend(LATE, EARLY);
    expect_equal(rt, "engaged", held, Err(GroupRefusal::Engaged));
    let ended = engine.disengage(WriterNo(1), EARLY);
    expect_equal(rt, "disengage", ended, Ok(()));
}

// The first goes to the disk before the second.
fn order_two(rt: &impl Abort, engine: &mut Engine) {
    begin_two(rt, engine);
    expect_equal(rt, "depend", engine.depend(LATE, EARLY), Ok(()));
    let sealed = engine.engage(WriterNo(1), EARLY);
    expect_equal(rt, "sealed", sealed, Err(GroupRefusal::Sealed));
    let engaged = engine.engage(WriterNo(2), LATE);
    expect_equal(rt, "engage", engaged, Ok(()));
    make_by(rt, engine, WriterNo(2), 2);
}

fn expect_pending(rt: &impl Abort, engine: &Engine, early: u32, late: u32) {
    let counts = (engine.pending(EARLY), engine.pending(LATE));
    expect_equal(rt, "pending", counts, (Ok(early), Ok(late)));
}

// Writes the least block that is ready.
fn write_next(rt: &impl Abort, engine: &mut Engine, want: u32) {
    expect_equal(rt, "next", engine.next_ready(), Some(BlockNo(want)));
    let number = send(rt, engine, want, b"x");
    let ended = engine.complete(BlockNo(want), number);
    expect_equal(rt, "complete", ended, Ok(()));
}

#[test]
fn groups_are_written_in_order(rt: HostRuntime) {
    let mut engine = open_with(&rt, rt.alloc(), [9, 2]);
    order_two(&rt, &mut engine);
    expect_pending(&rt, &engine, 1, 1);
    expect_unsent(&rt, &mut engine, 2, SendRefusal::NothingReady);
    write_next(&rt, &mut engine, 9);
    expect_pending(&rt, &engine, 0, 1);
    write_next(&rt, &mut engine, 2);
    expect_pending(&rt, &engine, 0, 0);
    drop(engine);
}

#[test]
fn a_closed_group_is_none(rt: HostRuntime) {
    let mut engine = open(&rt, rt.alloc());
    let made = engine.group();
    expect_equal(&rt, "group", made, Ok(EARLY));
    expect_equal(&rt, "close", engine.close_group(EARLY), Ok(()));
    let closed = engine.pending(EARLY);
    expect_equal(&rt, "closed", closed, Err(GroupRefusal::NoSuchGroup));
    let again = engine.close_group(EARLY);
    expect_equal(&rt, "again", again, Err(GroupRefusal::NoSuchGroup));
    drop(engine);
}

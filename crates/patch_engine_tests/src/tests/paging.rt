//! How an engine is opened, and how its blocks come and go.
use super::*;

const FAR: u32 = 16_777_215;

#[test]
fn an_engine_of_the_most_blocks_has_none(rt: HostRuntime) {
    let engine = Engine::open(rt.alloc(), MAX_CACHED as u32).expect(&rt, "an engine");
    expect_equal(&rt, "blocks", engine.blocks(), FAR + 1);
    expect_equal(&rt, "resident", engine.resident(), 0);
    let counts = (engine.made(), engine.live(), engine.durable_below());
    expect_equal(&rt, "counts", counts, (0, 0, 0));
}

#[test]
fn an_engine_of_no_blocks_or_too_many_is_refused(rt: HostRuntime) {
    for count in [0, FAR + 2, u32::MAX] {
        let opened = Engine::open(rt.alloc(), count);
        expect_equal(&rt, "open", opened.err(), Some(OpenRefusal::FileSize));
    }
}

// Admits the last block, once.
fn admit_last(rt: &impl Abort, alloc: Global, engine: &mut Engine) {
    let admitted = admit(rt, alloc, engine, 99, 7);
    expect_equal(rt, "admit", admitted, Ok(()));
    expect_read(rt, engine, 99, 0, &[7, 0]);
    let again = admit(rt, alloc, engine, 99, 8);
    expect_equal(rt, "again", again, Err(AdmitRefusal::IsResident));
    let beyond = admit(rt, alloc, engine, 100, 8);
    expect_equal(rt, "beyond", beyond, Err(AdmitRefusal::NoSuchBlock));
    let there = (engine.is_resident(BlockNo(99)), engine.resident());
    expect_equal(rt, "there", there, (true, 1));
}

// Writes a patch of it, without which it can't be let go.
fn write_last(rt: &impl Abort, engine: &mut Engine) {
    make(rt, engine, 99, 0, b"a", &[]);
    let live = engine.evict(BlockNo(99));
    expect_equal(rt, "live", live, Err(EvictRefusal::Live));
    let number = send(rt, engine, 99, b"a");
    let ended = engine.complete(BlockNo(99), number);
    expect_equal(rt, "complete", ended, Ok(()));
}

#[test]
fn a_block_is_admitted_and_let_go(rt: HostRuntime) {
    let mut engine = open(&rt, rt.alloc());
    admit_last(&rt, rt.alloc(), &mut engine);
    write_last(&rt, &mut engine);
    expect_equal(&rt, "evict", engine.evict(BlockNo(99)), Ok(()));
    let gone = engine.evict(BlockNo(99));
    let absent = EvictRefusal::NotResident(BlockNo(99));
    expect_equal(&rt, "gone", gone, Err(absent));
    expect_equal(&rt, "resident", engine.resident(), 0);
    drop(engine);
}

// Writes one patch, which keeps the engine from beginning anew until it is done.
fn write_and_renew(rt: &impl Abort, engine: &mut Engine, round: u8) {
    let made = make(rt, engine, 4, 1, &[round], &[]);
    expect_equal(rt, "first", made, PatchNo(0));
    expect_equal(rt, "memory", engine.renew(), Err(Live));
    let number = send(rt, engine, 4, &[0, round]);
    expect_equal(rt, "number", number, 0);
    expect_equal(rt, "flight", engine.renew(), Err(Live));
    let ended = engine.complete(BlockNo(4), number);
    expect_equal(rt, "complete", ended, Ok(()));
    expect_equal(rt, "renew", engine.renew(), Ok(()));
}

#[test]
fn an_engine_begins_anew(rt: HostRuntime) {
    let mut engine = open_with(&rt, rt.alloc(), [4, 5]);
    for round in 0..3 {
        write_and_renew(&rt, &mut engine, round);
        expect_equal(&rt, "anew", (engine.made(), engine.live()), (0, 0));
        expect_read(&rt, &engine, 4, 0, &[0, round, 0]);
    }
    expect_equal(&rt, "unmade", engine.mark_of(PatchNo(0)), None);
    drop(engine);
}

#[test]
fn an_open_group_keeps_an_engine_from_beginning_anew(rt: HostRuntime) {
    let mut engine = open_with(&rt, rt.alloc(), [4, 5]);
    let group = engine.group();
    expect_equal(&rt, "group", group, Ok(GroupNo(0)));
    expect_equal(&rt, "idle", engine.renew(), Ok(()));
    let group = engine.group();
    expect_equal(&rt, "first", group, Ok(GroupNo(0)));
    let engaged = engine.engage(WriterNo(3), GroupNo(0));
    expect_equal(&rt, "engage", engaged, Ok(()));
    expect_equal(&rt, "engaged", engine.renew(), Err(Live));
    let ended = engine.disengage(WriterNo(3), GroupNo(0));
    expect_equal(&rt, "disengage", ended, Ok(()));
    expect_equal(&rt, "open", engine.renew(), Err(Live));
    let closed = engine.close_group(GroupNo(0));
    expect_equal(&rt, "close", closed, Ok(()));
    expect_equal(&rt, "closed", engine.renew(), Ok(()));
}

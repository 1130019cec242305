//! Writers that nobody holds: each is told what it would be told alone.
use super::*;

// What several writers ask and are told, and how many writes that takes. Each of these keys has this value at last.
struct Row {
    talks: &'static [Talk<'static>],
    sends: Option<u64>,
    last: &'static [(&'static [u8], Option<&'static [u8]>)],
}

static A_REFUSAL: Row = Row {
    talks: &[
        &[
            (Ask::Put(b"", &[1]), Told::Refused(RefusalKind::KeyLength)),
            (Ask::Delete(b"a"), Told::Refused(RefusalKind::NoKey)),
            (Ask::Put(b"a", &[1]), Told::Done),
            (Ask::Get(b""), Told::Refused(RefusalKind::KeyLength)),
            (Ask::Get(b"a"), Told::Value(&[1])),
        ],
        &[(Ask::Get(b"b"), Told::Absent)],
    ],
    sends: Some(3),
    last: &[(b"a", Some(&[1])), (b"b", None)],
};

static ONE_ASKS_NOTHING: Row = Row {
    talks: &[
        &[(Ask::Put(b"a", &[1]), Told::Done)],
        &[],
        &[(Ask::Get(b"b"), Told::Absent)],
    ],
    sends: Some(3),
    last: &[(b"a", Some(&[1])), (b"b", None)],
};

static NOBODY_ASKS: Row = Row {
    talks: &[&[]],
    sends: Some(0),
    last: &[],
};

// On a good device each write that is begun is one write, and the first one made the disk.
fn expect_writes(rt: &impl Abort, device: &MemDevice, sends: u64, wanted: Option<u64>) {
    expect_eq(
        rt,
        &(device.writes().len() as u64),
        &sends.saturating_add(1),
    );
    expect_eq(rt, &sends, &wanted.unwrap_or(sends));
}

fn expect_last(rt: &impl Abort, store: &Store, row: &Row) {
    for (key, value) in row.last {
        expect_eq(rt, &(*key, has(store, key, *value)), &(*key, true));
    }
}

fn expect_row<R: Threads + Wait + Abort + Sync>(rt: &R, alloc: Global, row: &Row) {
    let jobs = jobs_of(rt, alloc, row.talks);
    let mut finished = serve_well(rt, alloc, new_device(rt, alloc), jobs, &OpenGate);
    expect_talks(rt, &finished, row.talks);
    let sends = expect_settled(rt, alloc, &mut finished);
    expect_writes(rt, &finished.device, sends, row.sends);
    let store = opened(rt, alloc, &mut finished.device);
    expect_last(rt, &store, row);
    drop(store);
    drop(finished);
}

// How many commands each of eight writers gives. It puts values under a key of its own and reads each, takes the key away
// with this command, and puts one more.
const COMMANDS: u8 = 43;

const DELETION: u8 = 40;

// The value of the command at this place.
fn value_at(writer: u8, at: u8) -> [u8; 2] {
    [writer, if at > DELETION { 20 } else { at / 2 }]
}

fn turn_at<'a>(key: &'a [u8], value: &'a [u8], at: u8) -> (Ask<'a>, Told<'a>) {
    if at == DELETION {
        (Ask::Delete(key), Told::Done)
    } else if (at < DELETION) == (at % 2 == 0) {
        (Ask::Put(key, value), Told::Done)
    } else {
        (Ask::Get(key), Told::Value(value))
    }
}

fn long_job(rt: &impl Abort, alloc: Global, writer: u8) -> Vec<Command> {
    let mut job = Vec::new(alloc);
    for at in 0..COMMANDS {
        let (key, value) = ([writer], value_at(writer, at));
        let (ask, _) = turn_at(&key, &value, at);
        job.push(command_of(rt, alloc, &ask))
            .expect(rt, "memory for a command");
    }
    job
}

fn expect_long(rt: &impl Abort, replies: &[Reply], writer: u8) {
    assert!(rt; replies.len() == COMMANDS as usize);
    for at in 0..COMMANDS {
        let (key, value) = ([writer], value_at(writer, at));
        let (_, told) = turn_at(&key, &value, at);
        expect_eq(
            rt,
            &(writer, at, is_told(&replies[at as usize], &told)),
            &(writer, at, true),
        );
    }
}

// Each writer was told what it would be told alone, and its key has the value that was put last.
fn expect_each(rt: &impl Abort, replies: &[Vec<Reply>], store: &Store) {
    assert!(rt; replies.len() == 8);
    for writer in 0..8u8 {
        expect_long(rt, replies[writer as usize].as_slice(), writer);
        assert!(rt; has(store, &[writer], Some(&[writer, 20])), "key {writer}");
    }
}

#[test]
fn eight_writers_are_answered_in_order(rt: HostRuntime) {
    let alloc = rt.alloc();
    let mut jobs = Vec::new(alloc);
    for writer in 0..8 {
        jobs.push(long_job(&rt, alloc, writer))
            .expect(&rt, "memory for a job");
    }
    let mut finished = serve_well(&rt, alloc, new_device(&rt, alloc), jobs, &OpenGate);
    let counted = (finished.book.calls.len(), finished.book.counts.writers);
    expect_eq(
        &rt,
        &counted,
        &(8 * COMMANDS as usize, [COMMANDS as u64; 8]),
    );
    let sends = expect_settled(&rt, alloc, &mut finished);
    expect_writes(&rt, &finished.device, sends, None);
    let store = opened(&rt, alloc, &mut finished.device);
    expect_each(&rt, &finished.replies, &store);
    drop(store);
    drop(finished);
}

#[test]
fn a_refusal_is_a_reply(rt: HostRuntime) {
    expect_row(&rt, rt.alloc(), &A_REFUSAL);
}

#[test]
fn a_writer_may_ask_nothing(rt: HostRuntime) {
    expect_row(&rt, rt.alloc(), &ONE_ASKS_NOTHING);
}

#[test]
fn where_nobody_asks_nothing_is_written(rt: HostRuntime) {
    expect_row(&rt, rt.alloc(), &NOBODY_ASKS);
}

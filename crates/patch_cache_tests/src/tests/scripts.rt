//! Worked scripts: what is asked of a cache over a device of eight blocks, and what is answered, shown and traced.
use super::asked::Asked::{Bare, Complete, Merge, Patch, Send, View};
use super::asked::Told::{Landed, Made, Merged, Refused, RefusedFor, Seen, Sent};
use super::asked::{Asked, Told, ask_of, is_told};
use super::*;
use patch_model::{RefusalKind, Step};

// What is done in a script.
#[derive(Clone, Copy)]
enum Part {
    // Asks in one list, each with its answer.
    List(&'static [(Asked<'static>, Told<'static>)]),
    // What the device has of a block, up to the last byte that isn't zero.
    Disk(u32, &'static [u8]),
    // The steps of the trace, which is emptied.
    Drain(&'static [Traced]),
}

// What was done, with the numbers of its patches or of its block, and where a patch begins.
type Traced = (&'static str, u32, usize);

static SCRIPTS: [&[Part]; 13] = [
    // Merged patches are taken together.
    &[
        Part::List(&[
            (Patch(0, 0, b"abcd", &[]), Made(0)),
            (Patch(0, 2, b"EFGH", &[]), Made(1)),
            (Merge(0, 1), Merged(0)),
            (View(0, 0, 6, &[0], &[]), Seen(b"", b"abEFGH")),
            (View(0, 0, 6, &[1], &[]), Seen(b"", b"abEFGH")),
            (Merge(1, 0), Refused(RefusalKind::Same)),
        ]),
        Part::Drain(&[("create", 0, 0), ("create", 0, 2), ("merge", 0, 1)]),
    ],
    // A third class between the two is of another block.
    &[
        Part::List(&[
            (Patch(0, 0, b"a", &[]), Made(0)),
            (Patch(1, 0, b"b", &[0]), Made(1)),
            (Patch(2, 0, b"c", &[1]), Made(2)),
            (Patch(0, 1, b"d", &[2]), Made(3)),
            (Merge(0, 3), RefusedFor(RefusalKind::WouldCycle, 1)),
        ]),
        Part::Drain(&[
            ("create", 0, 0),
            ("create", 1, 0),
            ("create", 2, 0),
            ("create", 0, 1),
        ]),
    ],
    // Classes that touch become one.
    &[
        Part::List(&[
            (Patch(0, 0, b"a", &[]), Made(0)),
            (Patch(0, 1, b"b", &[]), Made(1)),
            (Patch(1, 0, b"c", &[]), Made(2)),
            (Merge(0, 9), Refused(RefusalKind::Unknown)),
            (Merge(0, 0), Refused(RefusalKind::Same)),
            (Merge(0, 2), Refused(RefusalKind::OtherBlock)),
            (Merge(0, 1), Merged(0)),
            (Send(0), Sent(0, &[0, 1], b"ab")),
            (Complete(0), Landed(0, &[0, 1])),
            (Merge(0, 1), RefusedFor(RefusalKind::NotInMemory, 0)),
            (Merge(2, 1), RefusedFor(RefusalKind::NotInMemory, 1)),
        ]),
        Part::Disk(0, b"ab"),
        Part::Disk(1, b""),
    ],
    // Which patches are made.
    &[
        Part::List(&[
            (Patch(0, 4095, b"a", &[]), Made(0)),
            (Patch(0, 4095, b"aa", &[]), Refused(RefusalKind::OutOfBlock)),
            (Patch(0, 0, b"", &[]), Refused(RefusalKind::EmptyPatch)),
            (Patch(0, 4096, b"a", &[]), Refused(RefusalKind::OutOfBlock)),
            (
                Patch(0, 4294967295, b"a", &[]),
                Refused(RefusalKind::OutOfBlock),
            ),
            (Patch(8, 0, b"a", &[]), Refused(RefusalKind::NoSuchBlock)),
            (Patch(8, 4096, b"", &[5]), Refused(RefusalKind::NoSuchBlock)),
            (Patch(0, 4097, b"", &[5]), Refused(RefusalKind::EmptyPatch)),
            (Patch(0, 4096, b"a", &[5]), Refused(RefusalKind::OutOfBlock)),
            (
                Patch(0, 0, b"a", &[5]),
                Refused(RefusalKind::UnknownDependency),
            ),
            (
                Patch(0, 0, b"a", &[0, 1]),
                Refused(RefusalKind::UnknownDependency),
            ),
        ]),
        Part::Drain(&[("create", 0, 4095)]),
        Part::List(&[(Patch(7, 0, b"a", &[0]), Made(1))]),
    ],
    // To and fro across two blocks.
    &[
        Part::List(&[
            (Patch(0, 0, b"a", &[]), Made(0)),
            (Patch(1, 0, b"b", &[0]), Made(1)),
            (Patch(0, 1, b"c", &[1]), Made(2)),
            (Send(0), Sent(0, &[0], b"a")),
            (Complete(0), Landed(0, &[0])),
        ]),
        Part::Disk(0, b"a"),
        Part::List(&[
            (Send(1), Sent(1, &[1], b"b")),
            (Send(0), Refused(RefusalKind::NothingReady)),
        ]),
        Part::Disk(1, b""),
        Part::List(&[
            (Complete(1), Landed(1, &[1])),
            (Send(0), Sent(0, &[2], b"ac")),
        ]),
        Part::Disk(0, b"a"),
        Part::Disk(1, b"b"),
        Part::Drain(&[
            ("create", 0, 0),
            ("create", 1, 0),
            ("create", 0, 1),
            ("send", 0, 0),
            ("complete", 0, 0),
            ("send", 1, 0),
            ("complete", 1, 0),
            ("send", 0, 0),
        ]),
        Part::Drain(&[]),
        Part::List(&[(Complete(0), Landed(0, &[2]))]),
        Part::Disk(0, b"ac"),
        Part::Drain(&[("complete", 0, 0)]),
    ],
    // A later patch is durable first.
    &[
        Part::List(&[
            (Patch(1, 0, b"d", &[]), Made(0)),
            (Patch(0, 0, b"a", &[0]), Made(1)),
            (Patch(0, 4, b"b", &[]), Made(2)),
            (Send(0), Sent(0, &[2], b"\0\0\0\0b")),
            (Complete(0), Landed(0, &[2])),
            (View(0, 0, 5, &[1], &[]), Seen(b"\0\0\0\0b", b"a\0\0\0b")),
        ]),
        Part::Disk(0, b"\0\0\0\0b"),
    ],
    // A patch over one in flight.
    &[
        Part::List(&[
            (Patch(0, 0, b"a", &[]), Made(0)),
            (Send(0), Sent(0, &[0], b"a")),
            (Patch(0, 0, b"b", &[]), Made(1)),
            (Send(0), Refused(RefusalKind::AlreadyInFlight)),
            (Merge(0, 1), RefusedFor(RefusalKind::NotInMemory, 0)),
            (Merge(1, 0), RefusedFor(RefusalKind::NotInMemory, 0)),
            (View(0, 0, 1, &[1], &[]), Seen(b"a", b"b")),
            (View(0, 0, 1, &[0], &[]), Refused(RefusalKind::InFlight)),
            (Complete(0), Landed(0, &[0])),
        ]),
        Part::Disk(0, b"a"),
        Part::List(&[
            (View(0, 0, 1, &[0], &[]), Refused(RefusalKind::Durable)),
            (Send(0), Sent(0, &[1], b"b")),
        ]),
        Part::Disk(0, b"a"),
        Part::List(&[(Complete(0), Landed(0, &[1]))]),
        Part::Disk(0, b"b"),
    ],
    // Completions that nobody waits for.
    &[
        Part::List(&[
            (Complete(0), Refused(RefusalKind::Stranger)),
            (Complete(8), Refused(RefusalKind::Stranger)),
            (Patch(0, 0, b"a", &[]), Made(0)),
            (Send(8), Refused(RefusalKind::NoSuchBlock)),
            (Send(1), Refused(RefusalKind::NothingReady)),
            (Send(0), Sent(0, &[0], b"a")),
            (Complete(1), Refused(RefusalKind::Stranger)),
            (Complete(0), Landed(0, &[0])),
            (Complete(0), Refused(RefusalKind::Stranger)),
            (Send(0), Refused(RefusalKind::NothingReady)),
        ]),
        Part::Drain(&[("create", 0, 0), ("send", 0, 0), ("complete", 0, 0)]),
    ],
    // Two patches in one write.
    &[Part::List(&[
        (Patch(0, 0, b"a", &[]), Made(0)),
        (Patch(0, 1, b"b", &[]), Made(1)),
        (Send(0), Sent(0, &[0, 1], b"ab")),
    ])],
    // A class of two patches above a later one.
    &[Part::List(&[
        (Patch(0, 0, b"aa", &[]), Made(0)),
        (Patch(0, 4, b"bb", &[]), Made(1)),
        (Patch(0, 2, b"ccc", &[]), Made(2)),
        (Merge(0, 2), Merged(0)),
        (
            View(0, 0, 6, &[1], &[]),
            RefusedFor(RefusalKind::DependentApplied, 0),
        ),
        (View(0, 0, 6, &[0], &[]), Seen(b"\0\0\0\0bb", b"aacccb")),
        (View(0, 0, 6, &[0, 1], &[]), Seen(b"", b"aacccb")),
        (Send(0), Sent(0, &[0, 1, 2], b"aacccb")),
    ])],
    // A patch without undo bytes on another.
    &[Part::List(&[
        (Bare(0, 0, b"a", &[]), Made(0)),
        (Bare(0, 0, b"b", &[]), Made(1)),
        (Merge(0, 1), RefusedFor(RefusalKind::Hard, 0)),
        (Merge(1, 0), RefusedFor(RefusalKind::Hard, 1)),
        (View(0, 0, 1, &[1], &[]), Refused(RefusalKind::Hard)),
        (Send(0), Sent(0, &[0, 1], b"b")),
    ])],
    // Views take and put back.
    &[
        Part::List(&[
            (Patch(0, 0, b"abcd", &[]), Made(0)),
            (Patch(0, 2, b"EFGH", &[]), Made(1)),
            (View(0, 0, 6, &[], &[]), Seen(b"abEFGH", b"abEFGH")),
            (
                View(0, 0, 6, &[1, 0], &[1]),
                RefusedFor(RefusalKind::DependencyTaken, 0),
            ),
            (View(0, 0, 6, &[1, 0], &[0]), Seen(b"abcd", b"abEFGH")),
            (View(0, 0, 6, &[1, 0], &[0, 1]), Seen(b"abEFGH", b"abEFGH")),
            (
                View(0, 0, 6, &[0], &[]),
                RefusedFor(RefusalKind::DependentApplied, 1),
            ),
            (
                View(0, 0, 6, &[1, 1], &[]),
                Refused(RefusalKind::AlreadyTaken),
            ),
            (View(0, 0, 6, &[], &[1]), Refused(RefusalKind::NotTaken)),
        ]),
        Part::Drain(&[("create", 0, 0), ("create", 0, 2)]),
    ],
    // Spans that a block has not.
    &[Part::List(&[
        (Patch(0, 0, b"a", &[]), Made(0)),
        (View(0, 4095, 2, &[], &[]), Refused(RefusalKind::OutOfBlock)),
        (View(0, 4095, 1, &[], &[]), Seen(b"", b"")),
        (View(0, 4096, 0, &[], &[]), Seen(b"", b"")),
        (
            View(0, 4294967295, 1, &[], &[]),
            Refused(RefusalKind::OutOfBlock),
        ),
        (View(0, 0, 4097, &[], &[]), Refused(RefusalKind::OutOfBlock)),
    ])],
];

// Over a device whose first write is refused.
static REFUSED_WRITE: &[Part] = &[
    Part::List(&[
        (Patch(0, 0, b"a", &[]), Made(0)),
        (Send(0), Sent(0, &[0], b"a")),
        (Complete(0), Refused(RefusalKind::Fault)),
        (View(0, 0, 1, &[0], &[]), Refused(RefusalKind::InFlight)),
        (Send(0), Refused(RefusalKind::AlreadyInFlight)),
        (Patch(0, 1, b"b", &[]), Made(1)),
        (Complete(0), Landed(0, &[0])),
    ]),
    Part::Disk(0, b"a"),
    Part::List(&[(Complete(0), Refused(RefusalKind::Stranger))]),
    Part::Drain(&[
        ("create", 0, 0),
        ("send", 0, 0),
        ("create", 0, 1),
        ("complete", 0, 0),
    ]),
];

// Over the same: a fault is told of one completion alone.
static ONE_FAULT: &[Part] = &[
    Part::List(&[
        (Patch(0, 0, b"a", &[]), Made(0)),
        (Patch(1, 0, b"b", &[]), Made(1)),
        (Send(0), Sent(0, &[0], b"a")),
        (Send(1), Sent(1, &[1], b"b")),
        (Complete(0), Refused(RefusalKind::Fault)),
        (Complete(1), Landed(1, &[1])),
        (Complete(0), Landed(0, &[0])),
    ]),
    Part::Disk(0, b"a"),
    Part::Disk(1, b"b"),
];

type Disk = FaultyDevice<MemDevice>;

fn asks_of(rt: &impl Abort, alloc: Global, list: &[(Asked, Told)]) -> Vec<Ask> {
    let mut asks = Vec::new(alloc);
    for (asked, _) in list {
        let pushed = asks.push(ask_of(rt, alloc, asked)).is_ok();
        assert!(rt; pushed);
    }
    asks
}

fn expect_told(rt: &impl Abort, answers: &[Answer], list: &[(Asked, Told)]) {
    expect_equal(rt, "answers", answers.len(), list.len());
    for (at, (answer, (_, told))) in answers.iter().zip(list).enumerate() {
        expect_equal(rt, "answer", (at, is_told(answer, told)), (at, true));
    }
}

fn run_list(
    rt: &impl Abort,
    alloc: Global,
    bench: &mut Bench<Global, Disk>,
    list: &[(Asked, Told)],
) {
    let asks = asks_of(rt, alloc, list);
    let answers = answers_of(bench, &asks);
    drop(asks);
    expect_told(rt, &answers, list);
    drop(answers);
}

fn traced(step: &Step) -> Traced {
    match step {
        Step::Create { block, start, .. } => ("create", block.0, *start),
        Step::Merge { a, b } => ("merge", a.0, b.0 as usize),
        Step::Send { block } => ("send", block.0, 0),
        Step::Complete { block } => ("complete", block.0, 0),
    }
}

fn expect_step(rt: &impl Abort, step: Option<&Step>, want: Traced) {
    let told = match step {
        Some(step) => Some(traced(step)),
        None => None,
    };
    expect_equal(rt, "step", told, Some(want));
}

fn expect_traced(rt: &impl Abort, steps: &[Step], want: &[Traced]) {
    expect_equal(rt, "steps", steps.len(), want.len());
    for at in 0..want.len() {
        expect_step(rt, steps.get(at), want[at]);
    }
}

fn expect_drained(rt: &impl Abort, cache: &mut Cache, want: &[Traced]) {
    let steps = cache.drain_trace().expect(rt, "steps");
    expect_traced(rt, &steps, want);
    drop(steps);
}

fn follow(rt: &impl Abort, alloc: Global, bench: &mut Bench<Global, Disk>, part: &Part) {
    match part {
        Part::List(list) => run_list(rt, alloc, bench, list),
        Part::Disk(block, start) => expect_disk(rt, &mut bench.device, *block, start),
        Part::Drain(steps) => expect_drained(rt, &mut bench.cache, steps),
    }
}

// Walks through a script, over a device that refuses this write, which lands or not.
fn walk(rt: &impl Abort, alloc: Global, refused: u64, lands: bool, script: &[Part]) {
    let mut bench = open_over(rt, alloc, 8, refused, lands);
    for part in script {
        follow(rt, alloc, &mut bench, part);
    }
    close(bench);
}

#[test]
fn answers_are_as_worked(rt: HostRuntime) {
    for script in SCRIPTS.iter() {
        walk(&rt, rt.alloc(), u64::MAX, false, script);
    }
}

// Whether or not the refused write landed, the same image is written again.
#[test]
fn a_refused_completion_is_asked_again(rt: HostRuntime) {
    for lands in [false, true] {
        walk(&rt, rt.alloc(), 0, lands, REFUSED_WRITE);
        walk(&rt, rt.alloc(), 0, lands, ONE_FAULT);
    }
}

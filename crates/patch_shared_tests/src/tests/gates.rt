//! Writers that are held at their calls, and a device that is held at a write: they get on only where the others go on meanwhile.
use super::devices::{GOOD, Odd};
use super::*;
use patch_model::MAX_WRITER;
use std::sync::atomic::{AtomicBool, AtomicU64, Ordering};
use std::thread;
use std::time::{Clock, Duration};

// How often a thread looks for what it waits for, before it is late.
pub(super) const TURNS: u32 = 1_000_000;

// How often one looks who is to be late.
const FEW: u32 = 100;

// How often something has come about, for threads that wait for it. One of them that waits too long is late.
#[derive(Drop)]
pub(super) struct Turn {
    came: AtomicU64,
    late: AtomicBool,
}

impl Turn {
    pub(super) fn new() -> Turn {
        Turn {
            came: AtomicU64::new(0),
            late: AtomicBool::new(false),
        }
    }

    // It has come about once more.
    pub(super) fn come(&self) {
        self.came.fetch_add(1, Ordering::SeqCst);
    }

    // Waits until it has come about so often, unless some thread was late for it before.
    pub(super) fn wait(&self, rt: &impl Clock, turns: u32, times: u64) {
        for _ in 0..turns {
            if self.came.load(Ordering::SeqCst) >= times || self.late.load(Ordering::SeqCst) {
                return;
            }
            thread::sleep(rt, Duration::from_micros(10));
        }
        self.late.store(true, Ordering::SeqCst);
    }

    // Whether some thread was late.
    pub(super) fn late(&self) -> bool {
        self.late.load(Ordering::SeqCst)
    }
}

// Whom a gate holds.
#[derive(Clone, Copy)]
pub(super) enum Hold {
    // The first call of each other writer until the second one of this writer is answered, and that one until so much has begun: a
    // first call at the gate, or a write of a held device, which is held until that answer too.
    Last(u8, u64),
    // Each call of a writer until as many writes have ended as it has made calls: so there are as many at least.
    Pace,
}

// What has begun, and what has ended: the second call of the last writer, or a write.
#[derive(Drop)]
pub(super) struct Holding<R: Clock + Drop> {
    rt: R,
    hold: Hold,
    turns: u32,
    begun: Turn,
    ended: Turn,
}

impl<R: Clock + Drop> Holding<R> {
    pub(super) fn new(rt: R, hold: Hold, turns: u32) -> Holding<R> {
        Holding {
            rt,
            hold,
            turns,
            begun: Turn::new(),
            ended: Turn::new(),
        }
    }

    // Something has begun, and is held until the end of the other.
    pub(super) fn begin(&self) {
        self.begun.come();
        self.ended.wait(&self.rt, self.turns, 1);
    }

    // Whether some thread was late for what begins, and for what ends.
    pub(super) fn late(&self) -> (bool, bool) {
        (self.begun.late(), self.ended.late())
    }
}

impl<R: Clock + Drop> Gate for Holding<R> {
    fn before(&self, actor: Actor, call: u64) {
        let Actor::Writer(writer) = actor else {
            return;
        };
        match self.hold {
            Hold::Pace => self
                .ended
                .wait(&self.rt, self.turns, call.saturating_sub(1)),
            Hold::Last(last, times) if writer.0 == last => {
                if call == 2 {
                    self.begun.wait(&self.rt, self.turns, times);
                }
            }
            Hold::Last(..) => {
                if call == 1 {
                    self.begin();
                }
            }
        }
    }

    fn after(&self, actor: Actor, call: u64) {
        let ends = match (self.hold, actor) {
            (Hold::Pace, Actor::Completer) => true,
            (Hold::Last(last, _), Actor::Writer(writer)) => writer.0 == last && call == 2,
            _ => false,
        };
        if ends {
            self.ended.come();
        }
    }
}

/// One writer puts a value and reads it, and another puts one and reads a key that has none.
pub(super) static TWO: [Talk<'static>; 2] = [
    &[
        (Ask::Put(b"a", &[1]), Told::Done),
        (Ask::Get(b"a"), Told::Value(&[1])),
    ],
    &[
        (Ask::Put(b"b", &[2]), Told::Done),
        (Ask::Get(b"c"), Told::Absent),
    ],
];

static ONE: [Talk<'static>; 1] = [&[
    (Ask::Put(b"a", &[1]), Told::Done),
    (Ask::Get(b"a"), Told::Value(&[1])),
]];

// Each of eight writers puts its number under a key of its own, and reads it.
macro_rules! own {
    ($n:literal) => {
        &[
            (Ask::Put(&[$n], &[$n]), Told::Done),
            (Ask::Get(&[$n]), Told::Value(&[$n])),
        ]
    };
}

static EIGHT: [Talk<'static>; 8] = [
    own!(0),
    own!(1),
    own!(2),
    own!(3),
    own!(4),
    own!(5),
    own!(6),
    own!(7),
];

// Nobody is late where a new gate holds these writers, and a device at its writes where that is said.
fn expect_held<R: Threads + Wait + Abort + Sync>(
    rt: &R,
    alloc: Global,
    gate: &Holding<HostRuntime>,
    holds_writes: bool,
    talks: &[Talk<'_>],
) {
    let mut device = Odd::new(new_device(rt, alloc), GOOD);
    if holds_writes {
        device.gate = Some(gate);
    }
    let mut finished = serve_well(rt, alloc, device, jobs_of(rt, alloc, talks), gate);
    expect_eq(rt, &gate.late(), &(false, false));
    expect_talks(rt, &finished, talks);
    expect_settled(rt, alloc, &mut finished);
    drop(finished);
}

#[test]
fn gate_two_writers(rt: HostRuntime) {
    let gate = Holding::new(rt, Hold::Last(1, 1), TURNS);
    expect_held(&rt, rt.alloc(), &gate, false, &TWO);
}

#[test]
fn gate_write(rt: HostRuntime) {
    let gate = Holding::new(rt, Hold::Last(0, 1), TURNS);
    expect_held(&rt, rt.alloc(), &gate, true, &ONE);
}

#[test]
fn gate_eight_writers(rt: HostRuntime) {
    let gate = Holding::new(rt, Hold::Last(7, 7), TURNS);
    expect_held(&rt, rt.alloc(), &gate, false, &EIGHT);
}

// Calls that pass a gate one after another, and whether the last writer is late for what begins, and some other for its end.
struct Passing {
    hold: Hold,
    calls: &'static [(u8, u64)],
    late: (bool, bool),
}

static PASSING: [Passing; 5] = [
    // Of two writers the first makes both its calls before the last, and behind it.
    Passing {
        hold: Hold::Last(1, 1),
        calls: &[(0, 1), (0, 2), (1, 1), (1, 2)],
        late: (false, true),
    },
    Passing {
        hold: Hold::Last(1, 1),
        calls: &[(1, 1), (1, 2), (0, 1), (0, 2)],
        late: (true, false),
    },
    // A writer makes its calls, and no write has begun.
    Passing {
        hold: Hold::Last(0, 1),
        calls: &[(0, 1), (0, 2)],
        late: (true, false),
    },
    // Six writers of eight are at their first calls before the last one comes, and seven.
    Passing {
        hold: Hold::Last(7, 7),
        calls: &[
            (0, 1),
            (1, 1),
            (2, 1),
            (3, 1),
            (4, 1),
            (5, 1),
            (7, 1),
            (7, 2),
        ],
        late: (true, true),
    },
    Passing {
        hold: Hold::Last(7, 7),
        calls: &[
            (0, 1),
            (1, 1),
            (2, 1),
            (3, 1),
            (4, 1),
            (5, 1),
            (6, 1),
            (7, 1),
            (7, 2),
        ],
        late: (false, true),
    },
];

fn pass(rt: &impl Abort, gate: &impl Gate, calls: &[(u8, u64)]) {
    for (writer, call) in calls {
        assert!(rt; *writer <= MAX_WRITER);
        gate.before(Actor::Writer(WriterNo(*writer)), *call);
        gate.after(Actor::Writer(WriterNo(*writer)), *call);
    }
}

#[test]
fn writers_one_after_the_other_are_late(rt: HostRuntime) {
    for passing in &PASSING {
        let gate = Holding::new(rt, passing.hold, FEW);
        pass(&rt, &gate, passing.calls);
        expect_eq(
            &rt,
            &(passing.calls, gate.late()),
            &(passing.calls, passing.late),
        );
    }
}

#[test]
fn a_write_before_the_calls_is_late(rt: HostRuntime) {
    let gate = Holding::new(rt, Hold::Last(0, 1), FEW);
    let mut device = Odd::new(new_device(&rt, rt.alloc()), GOOD);
    device.gate = Some(&gate);
    assert!(&rt; device.write(3, &[0; BLOCK]).is_ok());
    expect_eq(&rt, &gate.late(), &(false, true));
    drop(device);
}

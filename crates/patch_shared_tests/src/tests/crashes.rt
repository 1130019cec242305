//! What a crash leaves: after each write the disk opens, and holds values that were put, under no key an older one than before.
use super::gates::{Hold, Holding, TURNS, TWO};
use super::*;

// How often each writer goes through its keys. Each fifth time it takes them away.
const ROUNDS: u8 = 19;

// How many keys each of the two writers has.
const KEYS: u8 = 2;

// How many bytes a value has.
const SIZE: usize = 500;

fn is_deletion(round: u8) -> bool {
    round % 5 == 0
}

// The writer whose keys begin with this one goes through them in each round.
fn rounds_of(rt: &impl Abort, alloc: Global, first: u8) -> Vec<Command> {
    let mut job = Vec::new(alloc);
    for at in 0..ROUNDS * KEYS {
        let (round, key) = (at / KEYS + 1, [first.saturating_add(at % KEYS)]);
        let value = [round; SIZE];
        let ask = if is_deletion(round) {
            Ask::Delete(&key)
        } else {
            Ask::Put(&key, &value)
        };
        job.push(command_of(rt, alloc, &ask))
            .expect(rt, "memory for a command");
    }
    job
}

// Whether the key has what it had after this round. After none of them there was nothing.
fn is_after(store: &Store, key: u8, round: u8) -> bool {
    let value = [round; SIZE];
    let held = if is_deletion(round) {
        None
    } else {
        Some(value.as_slice())
    };
    has(store, &[key], held)
}

// The first round from this one on after which the key had what it has.
fn round_of(rt: &impl Abort, store: &Store, key: u8, from: u8) -> u8 {
    for round in from..ROUNDS + 1 {
        if is_after(store, key, round) {
            return round;
        }
    }
    panic!(rt; "key {key} behind round {from}")
}

// Each key has what it had after its round, or after a later one, which is its round from now on.
fn advance(rt: &impl Abort, store: &Store, rounds: &mut [u8]) {
    let mut key = 0u8;
    for round in rounds {
        *round = round_of(rt, store, key, *round);
        key = key.saturating_add(1);
    }
}

// The disk opens, and has this.
fn advance_on(rt: &impl Abort, alloc: Global, disk: &mut MemDevice, rounds: &mut [u8]) {
    let store = opened(rt, alloc, disk);
    advance(rt, &store, rounds);
    drop(store);
}

// A new disk is opened, and again after each of these writes but the first, which made it: the keys are behind no round before
// them, and at last at these.
fn follow(rt: &impl Abort, alloc: Global, writes: &[(u32, BlockBytes)], rounds: &mut [u8]) {
    let mut disk = new_device(rt, alloc);
    advance_on(rt, alloc, &mut disk, rounds);
    assert!(rt; rounds.iter().all(|round| *round == 0));
    for (block, bytes) in writes.iter().skip(1) {
        assert!(rt; disk.write(*block, bytes.as_slice()).is_ok());
        advance_on(rt, alloc, &mut disk, rounds);
    }
    drop(disk);
}

#[test]
fn each_crash_leaves_what_was_put_last_or_before(rt: HostRuntime) {
    let alloc = rt.alloc();
    let mut jobs = Vec::new(alloc);
    for first in [0, KEYS] {
        jobs.push(rounds_of(&rt, alloc, first))
            .expect(&rt, "memory for a job");
    }
    let gate = Holding::new(rt, Hold::Pace, TURNS);
    let mut finished = serve_well(&rt, alloc, new_device(&rt, alloc), jobs, &gate);
    expect_eq(&rt, &gate.late(), &(false, false));
    expect_settled(&rt, alloc, &mut finished);
    let mut rounds = [0; 4];
    follow(&rt, alloc, finished.device.writes(), &mut rounds);
    expect_eq(&rt, &rounds, &[ROUNDS; 4]);
    drop(finished);
}

#[test]
fn the_disk_of_two_writers_opens_behind_each_write(rt: HostRuntime) {
    let alloc = rt.alloc();
    let jobs = jobs_of(&rt, alloc, &TWO);
    let finished = serve_well(&rt, alloc, new_device(&rt, alloc), jobs, &OpenGate);
    let writes = finished.device.writes();
    assert!(&rt; writes.len() >= 4);
    follow(&rt, alloc, writes, &mut []);
    drop(finished);
}

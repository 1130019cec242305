//! Syncs of a device: writes that wait together share one, and behind one that is refused nothing more is done.
ghost use Rattle.std.specs.Prelude.{◌≡◌, ◌≤◌, true};
ghost use Rattle.patch_device.specs.Device.{most_faults};

use super::gates::{TURNS, Turn};
use super::*;
use patch_device::DeviceRefusal;

// Holds the first send until the writer has made so many calls, the first write until so many flights were sent, and the next send
// until the device is synced: so these flights wait together.
#[derive(Drop)]
struct Together {
    rt: HostRuntime,
    calls: u64,
    flights: u64,
    asked: Turn,
    sent: Turn,
    synced: Turn,
}

impl Together {
    fn new(rt: HostRuntime, calls: u64, flights: u64) -> Together {
        Together {
            rt,
            calls,
            flights,
            asked: Turn::new(),
            sent: Turn::new(),
            synced: Turn::new(),
        }
    }

    // Whether some thread was late.
    fn late(&self) -> bool {
        self.asked.late() || self.sent.late() || self.synced.late()
    }
}

impl Gate for Together {
    fn before(&self, actor: Actor, call: u64) {
        if actor != Actor::Flusher {
            return;
        }
        if call == 1 {
            self.asked.wait(&self.rt, TURNS, self.calls);
        }
        if call == self.flights.saturating_add(1) {
            self.sent.come();
            self.synced.wait(&self.rt, TURNS, 1);
        }
    }

    fn after(&self, actor: Actor, _call: u64) {
        if matches!(actor, Actor::Writer(_)) {
            self.asked.come();
        }
    }
}

// A device that refuses the sync behind so many that go well, and is spent then. It counts its writes and syncs, those writes that
// were done before the first sync, and what is asked of it behind the sync that it refused. A gate may hold its writes.
#[derive(Drop)]
struct Synced<'a> {
    inner: MemDevice,
    gate: Option<&'a Together>,
    well: u64,
    writes: u64,
    syncs: u64,
    first: u64,
    behind: u64,
    spent: bool,
    faults: u64,
    ghost faults_fit: { faults ≤ most_faults },
}

impl<'a> Synced<'a> {
    fn new(inner: MemDevice, gate: Option<&'a Together>, well: u64) -> Synced<'a> {
        Synced {
            inner,
            gate,
            well,
            writes: 0,
            syncs: 0,
            first: 0,
            behind: 0,
            spent: false,
            faults: 0,
        }
    }
}

impl<'a> Device for Synced<'a> {
    ghost use Rattle.std.specs.Prelude.{[], true};
    ghost use Rattle.patch_device.specs.MemDevice.{block_count_of};

    ghost contents = { λ _. [] };

    ghost moment = { λ _. 0 };

    ghost left_at = { λ _ _ _. ⊥ };

    ghost is_honest = { λ _. ⊥ };

    ghost is_spent = { λ d. d.spent ≡ true };

    ghost block_count = { λ d. block_count_of d.inner };

    ghost fault_count = { λ d. d.faults };

    fn count(&self) -> u32 {
        self.inner.count()
    }

    fn read(&mut self, n: u32, into: &mut [u8]) -> Result<(), DeviceRefusal> {
        if n >= self.inner.count() {
            return Err(DeviceRefusal::NoSuchBlock);
        }
        if self.spent || self.inner.read(n, into).is_err() {
            self.behind = self.behind.saturating_add(self.spent as u64);
            self.faults = self.faults.saturating_add(1);
            return Err(DeviceRefusal::Fault);
        }
        Ok(())
    }

    fn write(&mut self, n: u32, from: &[u8]) -> Result<(), DeviceRefusal> {
        if n >= self.inner.count() {
            return Err(DeviceRefusal::NoSuchBlock);
        }
        if let Some(gate) = self.gate {
            gate.sent.wait(&gate.rt, TURNS, 1);
        }
        if self.spent || self.inner.write(n, from).is_err() {
            self.behind = self.behind.saturating_add(self.spent as u64);
            self.faults = self.faults.saturating_add(1);
            return Err(DeviceRefusal::Fault);
        }
        self.writes = self.writes.saturating_add(1);
        Ok(())
    }

    fn sync(&mut self) -> Result<(), DeviceRefusal> {
        if self.syncs == 0 {
            self.first = self.writes;
        }
        if self.spent || self.syncs >= self.well {
            self.behind = self.behind.saturating_add(self.spent as u64);
            self.faults = self.faults.saturating_add(1);
            self.spent = true;
            return Err(DeviceRefusal::Fault);
        }
        self.syncs = self.syncs.saturating_add(1);
        if let Some(gate) = self.gate {
            gate.synced.come();
        }
        Ok(())
    }

    fn finish(&mut self) -> Result<(), DeviceRefusal> {
        Ok(())
    }

    ghost blocks_counted = { λ d h. absurd h };

    ghost blocks_whole = { λ d h. absurd h };

    ghost all_may_land = { λ d h. absurd h };

    ghost faults_fit = { λ d. d.faults_fit };
}

// One writer puts values that take two blocks together, and the writes of these rest on nothing.
static THREE_PUTS: [Talk<'static>; 1] = [&[
    (Ask::Put(b"a", &[1; 2000]), Told::Done),
    (Ask::Put(b"b", &[2; 2000]), Told::Done),
    (Ask::Put(b"c", &[3; 2000]), Told::Done),
]];

#[test]
fn writes_that_wait_together_share_a_sync(rt: HostRuntime) {
    let alloc = rt.alloc();
    let gate = Together::new(rt, 3, 2);
    let device = Synced::new(new_device(&rt, alloc), Some(&gate), u64::MAX);
    let mut finished = serve_well(&rt, alloc, device, jobs_of(&rt, alloc, &THREE_PUTS), &gate);
    assert!(&rt; !gate.late());
    expect_talks(&rt, &finished, &THREE_PUTS);
    let sends = expect_settled(&rt, alloc, &mut finished);
    let device = &finished.device;
    expect_eq(&rt, &(device.first, device.writes), &(2, sends));
    assert!(&rt; device.syncs < device.writes);
    drop(finished);
}

// The syncs of a run go well up to this one, which is refused: nothing more is asked of the device, and what it refused is told.
fn expect_unsynced<R: Threads + Wait + Abort + Sync>(rt: &R, alloc: Global, well: u64) {
    let device = Synced::new(new_device(rt, alloc), None, well);
    let jobs = jobs_of(rt, alloc, &THREE_PUTS);
    match serve_all(rt, alloc, device, jobs, &OpenGate) {
        Ok(_) => panic!(rt; "a sync that failed was borne with"),
        Err(fault) => {
            let back = match &fault.device {
                Some(device) => Some((device.syncs, device.behind, device.faults)),
                None => None,
            };
            let wanted = (Cause::SyncFailed, Some((well, 0, 1)));
            expect_eq(rt, &(fault.cause, back), &wanted);
            drop(fault);
        }
    }
}

#[test]
fn a_sync_that_is_refused_ends_the_run(rt: HostRuntime) {
    for well in 0..3 {
        expect_unsynced(&rt, rt.alloc(), well);
    }
}

#[test]
fn there_are_no_more_syncs_than_writes(rt: HostRuntime) {
    let alloc = rt.alloc();
    let device = Synced::new(new_device(&rt, alloc), None, u64::MAX);
    let jobs = jobs_of(&rt, alloc, &THREE_PUTS);
    let mut finished = serve_well(&rt, alloc, device, jobs, &OpenGate);
    let sends = expect_settled(&rt, alloc, &mut finished);
    let device = &finished.device;
    expect_eq(&rt, &(device.writes, device.behind), &(sends, 0));
    assert!(&rt; device.syncs > 0 && device.syncs <= device.writes);
    drop(finished);
}

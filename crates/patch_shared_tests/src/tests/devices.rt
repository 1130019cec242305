//! Devices that refuse calls, or forget what was written: what a run bears with, and where it ends.
ghost use Rattle.std.specs.Prelude.{◌≡◌, ◌≤◌};
ghost use Rattle.patch_device.specs.Device.{most_faults};

use super::gates::Holding;
use super::*;
use patch_device::{DeviceRefusal, FaultyDevice};
use patch_testing::StubbornDevice;

// How many calls a run of the one put makes: it writes three blocks, and reads all of them back.
const WRITES: u64 = 3;

const CALLS: u64 = 38;

// How often a call is tried.
const TRIES: u64 = 8;

// Which calls go wrong.
#[derive(Clone, Copy)]
enum Kind {
    Reads,
    Writes,
    All,
}

// How a write goes wrong.
#[derive(Clone, Copy)]
enum Way {
    // It is refused, and isn't done.
    Refused,
    // It is done, and refused all the same.
    Lands,
    // It isn't done, and nobody is told.
    Forgotten,
}

// So many calls of this kind go well, and then so many in a row go wrong. Where it is so again, one goes well between, and then as many go
// wrong once more.
#[derive(Clone, Copy)]
pub(super) struct Plan {
    kind: Kind,
    well: u64,
    wrong: u64,
    again: Option<u64>,
    way: Way,
}

// No call goes wrong.
pub(super) const GOOD: Plan = Plan {
    kind: Kind::All,
    well: 0,
    wrong: 0,
    again: None,
    way: Way::Refused,
};

// A device whose reads and writes go wrong so. It counts all of them, and those that it refuses. A gate may hold its writes.
#[derive(Drop)]
pub(super) struct Odd<'a> {
    inner: MemDevice,
    plan: Plan,
    pub(super) gate: Option<&'a Holding<HostRuntime>>,
    calls: u64,
    faults: u64,
    ghost faults_fit: { faults ≤ most_faults },
}

impl<'a> Odd<'a> {
    pub(super) fn new(inner: MemDevice, plan: Plan) -> Odd<'a> {
        Odd {
            inner,
            plan,
            gate: None,
            calls: 0,
            faults: 0,
        }
    }

    // Counts a call, and answers whether it goes wrong.
    fn goes_wrong(&mut self, is_write: bool) -> bool
        ensures inner { self.new.inner ≡ self.old.inner }
        ensures faults { self.new.faults ≡ self.old.faults }
    {
        self.calls = self.calls.saturating_add(1);
        let is_meant = match self.plan.kind {
            Kind::Reads => !is_write,
            Kind::Writes => is_write,
            Kind::All => true,
        };
        if is_meant && self.plan.well > 0 {
            self.plan.well -= 1;
            return false;
        }
        let wrong = is_meant && self.plan.wrong > 0;
        self.plan.wrong -= wrong as u64;
        if is_meant && !wrong {
            self.plan.wrong = self.plan.again.take().unwrap_or(0);
        }
        wrong
    }
}

impl<'a> Device for Odd<'a> {
    ghost use Rattle.std.specs.Prelude.{[]};
    ghost use Rattle.patch_device.specs.MemDevice.{block_count_of};

    ghost contents = { λ _. [] };

    ghost moment = { λ _. 0 };

    ghost left_at = { λ _ _ _. ⊥ };

    ghost is_honest = { λ _. ⊥ };

    ghost is_spent = { λ _. ⊥ };

    ghost block_count = { λ d. block_count_of d.inner };

    ghost fault_count = { λ d. d.faults };

    fn count(&self) -> u32 {
        self.inner.count()
    }

    fn read(&mut self, n: u32, into: &mut [u8]) -> Result<(), DeviceRefusal> {
        if n >= self.inner.count() {
            return Err(DeviceRefusal::NoSuchBlock);
        }
        if self.goes_wrong(false) || self.inner.read(n, into).is_err() {
            self.faults = self.faults.saturating_add(1);
            return Err(DeviceRefusal::Fault);
        }
        Ok(())
    }

    fn write(&mut self, n: u32, from: &[u8]) -> Result<(), DeviceRefusal> {
        if n >= self.inner.count() {
            return Err(DeviceRefusal::NoSuchBlock);
        }
        if let Some(gate) = self.gate {
            gate.begin();
        }
        let (lands, is_told) = match (self.goes_wrong(true), self.plan.way) {
            (false, _) => (true, false),
            (true, Way::Refused) => (false, true),
            (true, Way::Lands) => (true, true),
            (true, Way::Forgotten) => (false, false),
        };
        let failed = lands && self.inner.write(n, from).is_err();
        if is_told || failed {
            self.faults = self.faults.saturating_add(1);
            return Err(DeviceRefusal::Fault);
        }
        Ok(())
    }

    // Each write lasts at once.
    fn sync(&mut self) -> Result<(), DeviceRefusal> {
        Ok(())
    }

    fn finish(&mut self) -> Result<(), DeviceRefusal> {
        Ok(())
    }

    ghost blocks_counted = { λ d h. absurd h };

    ghost blocks_whole = { λ d h. absurd h };

    ghost all_may_land = { λ d h. absurd h };

    ghost faults_fit = { λ d. d.faults_fit };
}

// One writer, who puts one value.
static ONE_PUT: [Talk<'static>; 1] = [&[(Ask::Put(b"k", &[1, 2]), Told::Done)]];

// The run ends so. The calls and faults of the device that comes back, if one does.
fn expect_fault<R: Threads + Wait + Abort + Sync>(
    rt: &R,
    alloc: Global,
    plan: Plan,
    cause: Cause,
    left: Option<(u64, u64)>,
) {
    let device = Odd::new(new_device(rt, alloc), plan);
    match serve_all(rt, alloc, device, jobs_of(rt, alloc, &ONE_PUT), &OpenGate) {
        Ok(_) => panic!(rt; "a device that fails was borne with"),
        Err(fault) => {
            let back = match &fault.device {
                Some(device) => Some((device.calls, device.faults)),
                None => None,
            };
            expect_eq(rt, &(fault.cause, back), &(cause, left));
            drop(fault);
        }
    }
}

// The run goes to its end, and makes just one call more for each that is refused. So many are.
fn expect_borne<R: Threads + Wait + Abort + Sync>(rt: &R, alloc: Global, plan: Plan, faults: u64) {
    let device = Odd::new(new_device(rt, alloc), plan);
    let jobs = jobs_of(rt, alloc, &ONE_PUT);
    let mut finished = serve_well(rt, alloc, device, jobs, &OpenGate);
    let device = &mut finished.device;
    let counted = (device.calls, device.faults);
    expect_eq(rt, &counted, &(CALLS.saturating_add(faults), faults));
    device.plan.wrong = 0;
    expect_talks(rt, &finished, &ONE_PUT);
    expect_eq(rt, &expect_settled(rt, alloc, &mut finished), &WRITES);
    drop(finished);
}

fn first(kind: Kind, wrong: u64, way: Way) -> Plan {
    Plan {
        kind,
        well: 0,
        wrong,
        again: None,
        way,
    }
}

// The first two calls of this kind are refused so many times each, and done then.
fn first_two(kind: Kind, times: u64) -> Plan {
    Plan {
        again: Some(times),
        ..first(kind, times, Way::Refused)
    }
}

#[test]
fn a_device_that_forgets_is_found_out(rt: HostRuntime) {
    let forgetful = first(Kind::Writes, u64::MAX, Way::Forgotten);
    let cause = Cause::ReadBack(BlockNo(1));
    expect_fault(&rt, rt.alloc(), forgetful, cause, None);
}

#[test]
fn a_call_refused_eight_times_ends_the_run(rt: HostRuntime) {
    for (kind, way, block, calls) in [
        (Kind::Writes, Way::Refused, 3, TRIES),
        (Kind::Writes, Way::Lands, 3, TRIES),
        (Kind::Reads, Way::Refused, 0, WRITES + TRIES),
    ] {
        let seven = first(kind, TRIES - 1, way);
        expect_borne(&rt, rt.alloc(), seven, TRIES - 1);
        let eight = first(kind, TRIES, way);
        let cause = Cause::DeviceGaveUp(BlockNo(block));
        expect_fault(&rt, rt.alloc(), eight, cause, Some((calls, TRIES)));
    }
}

// Each call in its turn, and then none.
#[test]
fn each_call_may_fail_once(rt: HostRuntime) {
    for way in [Way::Refused, Way::Lands] {
        for well in 0..CALLS + 1 {
            let plan = Plan {
                kind: Kind::All,
                well,
                wrong: 1,
                again: None,
                way,
            };
            expect_borne(&rt, rt.alloc(), plan, (well < CALLS) as u64);
        }
    }
}

// Two devices, one in the other, each of which refuses the first write that it is given. It doesn't land.
fn refusing_twice<D: Device>(inner: D) -> FaultyDevice<FaultyDevice<D>> {
    FaultyDevice::new(FaultyDevice::new(inner, 0, false), 0, false)
}

// What a run of the one put does with a device: it ends, and gives the device back, or it goes to its end.
fn expect_end<D: Device + Drop + Send, R: Threads + Wait + Abort + Sync>(
    rt: &R,
    alloc: Global,
    device: D,
    gives_up: bool,
) {
    match serve_all(rt, alloc, device, jobs_of(rt, alloc, &ONE_PUT), &OpenGate) {
        Ok(mut finished) => {
            assert!(rt; !gives_up);
            expect_talks(rt, &finished, &ONE_PUT);
            expect_settled(rt, alloc, &mut finished);
            drop(finished);
        }
        Err(fault) => {
            let ended = (fault.cause, fault.device.is_some());
            expect_eq(rt, &(gives_up, ended), &(true, (GAVE_UP, true)));
            drop(fault);
        }
    }
}

const GAVE_UP: Cause = Cause::DeviceGaveUp(BlockNo(3));

// The same with the device in two more, in four and in six. Each is a function of its own, so that none sees a type of all.
fn expect_end_in_two<D: Device + Drop + Send, R: Threads + Wait + Abort + Sync>(
    rt: &R,
    alloc: Global,
    device: D,
    gives_up: bool,
) {
    expect_end(rt, alloc, refusing_twice(device), gives_up);
}

fn expect_end_in_four<D: Device + Drop + Send, R: Threads + Wait + Abort + Sync>(
    rt: &R,
    alloc: Global,
    device: D,
    gives_up: bool,
) {
    expect_end_in_two(rt, alloc, refusing_twice(device), gives_up);
}

fn expect_end_in_six<D: Device + Drop + Send, R: Threads + Wait + Abort + Sync>(
    rt: &R,
    alloc: Global,
    device: D,
    gives_up: bool,
) {
    expect_end_in_four(rt, alloc, refusing_twice(device), gives_up);
}

#[test]
fn eight_devices_in_one_another_end_the_run(rt: HostRuntime) {
    let two = refusing_twice(new_device(&rt, rt.alloc()));
    expect_end_in_six(&rt, rt.alloc(), two, true);
}

#[test]
fn seven_devices_in_one_another_do_not(rt: HostRuntime) {
    let one = FaultyDevice::new(new_device(&rt, rt.alloc()), 0, false);
    expect_end_in_six(&rt, rt.alloc(), one, false);
}

// A device that refuses the first two writes so many times each, and does them then.
fn stubborn(rt: &impl Abort, alloc: Global, times: u64) -> StubbornDevice {
    StubbornDevice::new(new_device(rt, alloc), 0, 2, times)
}

#[test]
fn seven_faults_of_each_of_two_writes_are_borne(rt: HostRuntime) {
    expect_end(&rt, rt.alloc(), stubborn(&rt, rt.alloc(), TRIES - 1), false);
    expect_end(&rt, rt.alloc(), stubborn(&rt, rt.alloc(), TRIES), true);
}

// The first two reads are of the first two blocks. A read that is refused once too often ends the run, be it the first or the second.
#[test]
fn seven_faults_of_each_of_two_calls_are_borne(rt: HostRuntime) {
    for kind in [Kind::Reads, Kind::Writes] {
        expect_borne(&rt, rt.alloc(), first_two(kind, TRIES - 1), 2 * (TRIES - 1));
    }
    for (kind, block, calls) in [
        (Kind::Writes, 2, 1 + TRIES + TRIES - 1),
        (Kind::Reads, 1, WRITES + 1 + TRIES + TRIES - 1),
    ] {
        let worse = Plan {
            again: Some(TRIES),
            ..first_two(kind, TRIES - 1)
        };
        let cause = Cause::DeviceGaveUp(BlockNo(block));
        let left = Some((calls, TRIES + TRIES - 1));
        expect_fault(&rt, rt.alloc(), worse, cause, left);
    }
}

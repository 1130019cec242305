//! Disks that hold no store, and devices, readers and writers that fail.
ghost use Rattle.std.specs.Prelude.{⊤};

use super::*;
use patch_device::FaultyDevice;
use patch_replay::Output;
use std::io;
use std::io::{ErrorKind, Read, Write};

const PUT_AND_GET: &str = r#"{"op":"put","key":"k","hex":"01"}
{"op":"get","key":"k"}"#;

#[test]
fn a_disk_without_a_store_is_left_as_it_is(rt: HostRuntime) {
    let mut device = MemDevice::new(rt.alloc(), COUNT).expect(&rt, "memory for a device");
    let deeds = [Deed::Run(PUT_AND_GET), Deed::Check, Deed::Upgrade];
    let turns = deeds.map(|deed| (deed, failed("fault BadSuper\n")));
    expect_on(&rt, rt.alloc(), &mut device, &turns);
    assert!(&rt; device.writes().is_empty());
    drop(device);
}

// Two devices, one in the other, each of which fails this call of those that it is given, once.
fn failing_twice<D: Device>(device: D, call: u64) -> FaultyDevice<FaultyDevice<D>> {
    FaultyDevice::new(FaultyDevice::new(device, call, false), call, false)
}

#[test]
fn a_read_that_fails_is_a_fault_of_the_disk(rt: HostRuntime) {
    let mut device = FaultyDevice::new(new_device(&rt, rt.alloc()), 3, false);
    let turns = [
        (Deed::Check, failed("fault Disk\n")),
        (Deed::Check, EMPTY_STORE),
    ];
    expect_on(&rt, rt.alloc(), &mut device, &turns);
    drop(device);
}

// The call behind the reads of all blocks.
const BEHIND: u64 = COUNT as u64;

// The commands end so on the device in two more that fail the call behind the reads of its blocks, and so on in four and in six. Each is a
// function of its own, so that none sees a type of all.
fn expect_in_two<D: Device + Drop>(rt: &impl Abort, alloc: Global, device: D, turns: &[Turn<'_>]) {
    let mut device = failing_twice(device, BEHIND);
    expect_on(rt, alloc, &mut device, turns);
    drop(device);
}

fn expect_in_four<D: Device + Drop>(rt: &impl Abort, alloc: Global, device: D, turns: &[Turn<'_>]) {
    expect_in_two(rt, alloc, failing_twice(device, BEHIND), turns);
}

fn expect_in_six<D: Device + Drop>(rt: &impl Abort, alloc: Global, device: D, turns: &[Turn<'_>]) {
    expect_in_four(rt, alloc, failing_twice(device, BEHIND), turns);
}

static GIVEN_UP: [&[Turn<'static>]; 2] = [
    // A device that gives up ends a run behind its answers.
    &[
        (
            Deed::Run(PUT_AND_GET),
            End(Status::Failed, 4, "ok\nvalue 01\nfault DeviceGaveUp 3\n"),
        ),
        (Deed::Check, EMPTY_STORE),
    ],
    &[(
        Deed::Run(files::PUT),
        End(Status::Failed, 4, "ok\nfault DeviceGaveUp 3\n"),
    )],
];

static BORNE: [Turn<'static>; 2] = [
    (Deed::Run(files::PUT), files::OK),
    (Deed::Check, files::HELD),
];

#[test]
fn eight_refusals_of_a_write_end_a_run_and_seven_do_not(rt: HostRuntime) {
    for turns in GIVEN_UP {
        let two = failing_twice(new_device(&rt, rt.alloc()), BEHIND);
        expect_in_six(&rt, rt.alloc(), two, turns);
    }
    let one = FaultyDevice::new(new_device(&rt, rt.alloc()), BEHIND, false);
    expect_in_six(&rt, rt.alloc(), one, &BORNE);
}

/// A reader that fails at once.
#[derive(Drop)]
struct Torn;

impl Read for Torn {
    fn read(&mut self, _: &mut [u8]) -> io::Result<usize> {
        Err(io::Error::from(ErrorKind::BrokenPipe))
    }
}

#[test]
fn a_reader_that_fails_is_told(rt: HostRuntime) {
    let mut device = new_device(&rt, rt.alloc());
    let mut out = Sink::new(Vec::new(rt.alloc()));
    let mut torn = Source::new(Torn);
    let status = run_script(rt.alloc(), &mut torn, &mut out, &mut device, &mut Quiet);
    let end = failed("fault Read\n");
    expect_end(&rt, status, out.into_inner().as_slice(), end);
    drop(device);
}

/// A writer that fails at once.
#[derive(Drop)]
struct Closed;

impl Write for Closed {
    fn write(&mut self, _: &[u8]) -> io::Result<usize> {
        Err(io::Error::from(ErrorKind::BrokenPipe))
    }

    fn flush(&mut self) -> io::Result<()> {
        Err(io::Error::from(ErrorKind::BrokenPipe))
    }
}

impl Output for Closed {
    ghost KeepsNothing = { λ output. ⊤ };

    fn pass_on(&mut self) -> io::Result<()> {
        self.flush()
    }
}

#[test]
fn a_writer_that_fails_ends_the_run(rt: HostRuntime) {
    let mut device = new_device(&rt, rt.alloc());
    let mut closed = Sink::new(Closed);
    let mut script = Source::new(PUT_AND_GET.as_bytes());
    let run = run_script(
        rt.alloc(),
        &mut script,
        &mut closed,
        &mut device,
        &mut Quiet,
    );
    let checked = check_disk(rt.alloc(), &mut closed, &mut device);
    expect_eq(&rt, &(run, checked), &(Status::Failed, Status::Failed));
    drop(device);
}

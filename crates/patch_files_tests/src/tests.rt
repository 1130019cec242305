//! What the tests of commands on disks share: new disks, and runs, checks and upgrades of them.
use patch_device::{Device, MemDevice};
use patch_files::{Quiet, Status, check_disk, run_script, upgrade_disk};
use patch_frame::{Format, Geometry};
use patch_replay::{Sink, Source};
use patch_store::make;
use std::alloc::Global;
use std::fmt::Debug;
use std::process::Abort;
use std::test::Fail;

mod crashes;
mod damages;
mod faults;
mod files;
mod making;
mod pictures;
mod rows;
mod scripts;
mod served;
mod stopped;
mod syncs;
mod tickers;
mod weak;
mod writers;

use files::{Deed, Turn};

// Ends the test, telling both, unless what came is what is wanted. A call takes the prover less than `assert_eq!` where it stands.
pub(crate) fn expect_eq<T: PartialEq + Debug>(rt: &impl Abort, got: &T, want: &T) {
    assert_eq!(rt; *got, *want);
}

// One index block and two extents: 35 blocks.
const SMALL: Geometry = Geometry {
    index: 1,
    extents: 2,
    format: Format::One,
};

const COUNT: u32 = 35;

/// How a command has ended, with its exit status and what it wrote.
#[derive(Clone, Copy)]
struct End(Status, u8, &'static str);

const EMPTY_STORE: End = End(Status::Done, 0, "extent 0 0 0 0\nextent 1 0 0 0\nclean\n");

// One that a fault of the disk has stopped.
fn failed(text: &'static str) -> End {
    End(Status::Failed, 4, text)
}

// A device of so many blocks that holds a new disk, which was written once: but for the first block, both are of zeros.
fn device_of(rt: &impl Abort, alloc: Global, geometry: Geometry, count: u32) -> MemDevice {
    let blocks = make(alloc, geometry).expect(rt, "a new disk");
    let first = blocks.first().expect(rt, "a first block");
    let mut device = MemDevice::new(alloc, count).expect(rt, "memory for a device");
    device
        .write(0, first.as_slice())
        .expect(rt, "a good device");
    drop(blocks);
    device
}

fn new_device(rt: &impl Abort, alloc: Global) -> MemDevice {
    device_of(rt, alloc, SMALL, COUNT)
}

fn expect_end(rt: &impl Abort, ended: Status, text: &[u8], end: End) {
    let End(status, code, want) = end;
    expect_eq(
        rt,
        &(ended, ended.code(), text),
        &(status, code, want.as_bytes()),
    );
}

// The commands on a device end so, one behind another.
fn expect_on<D: Device>(rt: &impl Abort, alloc: Global, device: &mut D, turns: &[Turn<'_>]) {
    for (deed, end) in turns {
        let mut out = Sink::new(Vec::new(alloc));
        let status = match deed {
            Deed::Run(script) => {
                let mut source = Source::new(script.as_bytes());
                run_script(alloc, &mut source, &mut out, device, &mut Quiet)
            }
            Deed::Check => check_disk(alloc, &mut out, device),
            Deed::Upgrade => upgrade_disk(alloc, &mut out, device),
            Deed::Make(_) | Deed::Serve(..) | Deed::RunLoose(_) | Deed::ServeLoose(..) => panic!(rt;
                "a device is neither made nor given away"
            ),
        };
        expect_end(rt, status, out.into_inner().as_slice(), *end);
    }
}

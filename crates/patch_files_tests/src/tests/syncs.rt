//! Devices that refuse a sync: what is answered, and what is written to them by then.
use super::*;
use patch_device::UnsyncedDevice;
use patch_files::{Served, serve_script};
use std::sync::Wait;
use std::thread::Threads;

// A put writes three blocks, each of which rests on the one before, so that a sync comes behind each.
const PUT_AND_SYNC: &str = r#"{"op":"group"}
{"op":"put","key":"k","hex":"0102"}
{"op":"sync","group":0}
{"op":"get","key":"k"}"#;

const STOPPED: &str = "group 0\nok\nfault Disk\n";

const SYNCED: &str = "group 0\nok\nsynced\nvalue 0102\n";

// How many syncs go well before one is refused, how the run of the script ends, and how many blocks were written by then, but for the
// first one of a new disk.
static ROWS: [(u64, End, usize); 4] = [
    (0, End(Status::Failed, 4, STOPPED), 1),
    (1, End(Status::Failed, 4, STOPPED), 2),
    (2, End(Status::Failed, 4, STOPPED), 3),
    (3, End(Status::Done, 0, SYNCED), 3),
];

// Nothing is written behind the sync that was refused, and nothing is answered `synced`.
#[test]
fn a_sync_that_is_refused_ends_a_run(rt: HostRuntime) {
    for (well, end, writes) in &ROWS {
        let mut device = UnsyncedDevice::new(new_device(&rt, rt.alloc()), *well);
        let turns = [(Deed::Run(PUT_AND_SYNC), *end)];
        expect_on(&rt, rt.alloc(), &mut device, &turns);
        let disk = device.into_inner();
        expect_eq(&rt, &disk.writes().len(), &(*writes).saturating_add(1));
        drop(disk);
    }
}

// Two writers are told nothing, and the disk that comes back holds what was written by then.
fn expect_unserved<T: Threads + Wait + Abort + Sync>(rt: &T, alloc: Global, well: u64) {
    let mut out = Sink::new(Vec::new(alloc));
    let mut source = Source::new(files::PUT.as_bytes());
    let device = UnsyncedDevice::new(new_device(rt, alloc), well);
    let served = serve_script(rt, alloc, &mut source, &mut out, device, 2);
    let Served { status, device } = served;
    let end = failed("fault Disk\n");
    expect_end(rt, status, out.into_inner().as_slice(), end);
    let disk = device.expect(rt, "the device").into_inner();
    expect_eq(rt, &(disk.writes().len() as u64), &well.saturating_add(2));
    drop(disk);
}

#[test]
fn a_sync_that_is_refused_ends_a_run_of_writers(rt: HostRuntime) {
    for well in 0..3 {
        expect_unserved(&rt, rt.alloc(), well);
    }
}

//! Cuts of the power while writers are served on a disk with a write cache: whichever of the loose writes have landed, what is left
//! opens, and has of each key what was put, or nothing.
use super::gates::TWO;
use super::*;
use patch_device::VolatileDevice;
use patch_testing::{Event, cuts_of, device_behind};
use std::test::Fail;

// What the two put.
const PUT: [(&[u8], &[u8]); 2] = [(b"a", &[1]), (b"b", &[2])];

// A disk with a write cache that holds a new disk, all of which lasts.
fn volatile_device(rt: &impl Abort, alloc: Global) -> VolatileDevice {
    let blocks = make(alloc, SMALL).expect(rt, "a new disk");
    let first = blocks.first().expect(rt, "a first block");
    let mut device = VolatileDevice::new(alloc, COUNT).expect(rt, "memory for a device");
    device
        .write(0, first.as_slice())
        .expect(rt, "a good device");
    device.sync().expect(rt, "a good device");
    drop(blocks);
    device
}

// How many of the keys have what was put. The others have nothing.
fn count_put(rt: &impl Abort, store: &Store) -> usize {
    let mut count = 0usize;
    for (key, value) in &PUT {
        if has(store, key, Some(value)) {
            count = count.saturating_add(1);
        } else {
            assert!(rt; has(store, key, None));
        }
    }
    count
}

// Each of these disks opens. How many keys the last one has.
fn open_each(rt: &impl Abort, alloc: Global, disks: Vec<Vec<BlockBytes>>) -> usize {
    let mut count = 0;
    for blocks in disks {
        let store = store_of(rt, alloc, blocks);
        count = count_put(rt, &store);
        drop(store);
    }
    count
}

// Behind each of these, each disk that a cut may leave opens; where nothing is loose it has no fewer keys than before, and all at last.
fn open_cuts(rt: &impl Abort, alloc: Global, events: &[Event]) -> Result<(), Fail> {
    let mut kept = 0;
    for end in 2..=events.len() {
        let device = device_behind(alloc, COUNT, events.get(..end).unwrap_or(&[]))?;
        let (loose, cuts) = (device.loose(), cuts_of(alloc, &device));
        drop(device);
        let count = open_each(rt, alloc, cuts?);
        if loose == 0 {
            assert!(rt; kept <= count, "{kept} keys were there, and {count} are");
            kept = count;
        }
    }
    expect_eq(rt, &kept, &PUT.len());
    Ok(())
}

#[test]
fn whatever_a_cut_leaves_of_two_writers_opens(rt: HostRuntime) -> Result<(), Fail> {
    let alloc = rt.alloc();
    let jobs = jobs_of(&rt, alloc, &TWO);
    let finished = serve_well(&rt, alloc, volatile_device(&rt, alloc), jobs, &OpenGate);
    assert!(&rt; finished.device.events().len() >= 8);
    let opened = open_cuts(&rt, alloc, finished.device.events());
    drop(finished);
    opened
}

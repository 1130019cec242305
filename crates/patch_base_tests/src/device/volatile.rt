//! A write cache: what is read, what a cut of the power leaves, and want of memory.
use super::*;

fn write_three<A: Allocator + Copy>(rt: &impl Abort, device: &mut VolatileDevice<A>) {
    expect_eq(rt, &device.count(), &2);
    for (n, byte) in &[(0, 1), (1, 2), (0, 3)] {
        expect_write(rt, device, *n, *byte, Ok(()));
        expect_filled(rt, device, *n, *byte);
    }
    expect_no_block(rt, device, 2);
}

// What a cut leaves where these of the loose writes land.
fn expect_cut(
    rt: &impl Abort,
    alloc: Global,
    device: &VolatileDevice,
    lands: &[bool],
    bytes: &[u8],
) -> Result<(), Fail> {
    expect_blocks(rt, &device.cut(alloc, lands)?, bytes);
    Ok(())
}

fn cut_unsynced(rt: &impl Abort, alloc: Global, device: &VolatileDevice) -> Result<(), Fail> {
    expect_eq(rt, &device.loose(), &3);
    expect_cut(rt, alloc, device, &[], &[0, 0])?;
    expect_cut(rt, alloc, device, &[false, true], &[0, 2])?;
    expect_cut(rt, alloc, device, &[true, false, false, true], &[1, 0])?;
    expect_cut(rt, alloc, device, &[false, false, true], &[3, 0])?;
    expect_cut(rt, alloc, device, &[true, true, true], &[3, 2])
}

fn cut_synced(rt: &impl Abort, alloc: Global, device: &VolatileDevice) -> Result<(), Fail> {
    expect_eq(rt, &device.loose(), &0);
    expect_cut(rt, alloc, device, &[], &[3, 2])?;
    expect_cut(rt, alloc, device, &[false, false, false], &[3, 2])
}

fn cut_behind_a_sync(rt: &impl Abort, alloc: Global, device: &VolatileDevice) -> Result<(), Fail> {
    expect_eq(rt, &device.loose(), &1);
    expect_cut(rt, alloc, device, &[false, true], &[3, 2])?;
    expect_cut(rt, alloc, device, &[true], &[3, 4])
}

#[test]
fn a_cut_leaves_what_was_synced_and_what_landed(rt: HostRuntime) -> Result<(), Fail> {
    let mut device = VolatileDevice::new(rt.alloc(), 2)?;
    write_three(&rt, &mut device);
    cut_unsynced(&rt, rt.alloc(), &device)?;
    expect_eq(&rt, &device.sync(), &Ok(()));
    cut_synced(&rt, rt.alloc(), &device)?;
    expect_write(&rt, &mut device, 1, 4, Ok(()));
    expect_eq(&rt, &device.finish(), &Ok(()));
    cut_behind_a_sync(&rt, rt.alloc(), &device)?;
    expect_loaded(&rt, rt.alloc(), &mut device, &[3, 4])
}

fn expect_spent<D: Device>(rt: &impl Abort, device: &mut D) {
    expect_unread(rt, device, 0, DeviceRefusal::Fault);
    expect_write(rt, device, 0, 9, Err(DeviceRefusal::Fault));
    expect_eq(rt, &device.sync(), &Err(DeviceRefusal::Fault));
    expect_no_block(rt, device, 2);
}

// A call that is refused changes nothing, and behind a sync that is refused the device is spent. Which of the three it was.
fn write_and_sync(
    rt: &impl Abort,
    device: &mut VolatileDevice<&LocalHeap>,
    writes: usize,
) -> &'static str {
    for turn in 0..writes {
        if device.write(0, &[5; BLOCK]).is_err() {
            expect_eq(rt, &device.events().len(), &turn);
            return "write";
        }
    }
    if device.sync().is_err() {
        expect_eq(rt, &device.loose(), &writes);
        expect_spent(rt, device);
        return "sync";
    }
    expect_eq(rt, &device.loose(), &0);
    "none"
}

// What a heap of this size is too small for.
fn refused_at(
    rt: &impl Abort,
    alloc: Global,
    size: usize,
    writes: usize,
) -> Result<&'static str, Fail> {
    let heap = LocalHeap::new(alloc, size)?;
    match VolatileDevice::new(&heap, 2) {
        Ok(mut device) => Ok(write_and_sync(rt, &mut device, writes)),
        Err(_) => Ok("new"),
    }
}

// Which calls are refused for want of memory, as the heap grows.
fn expect_refused(
    rt: &impl Abort,
    alloc: Global,
    writes: usize,
    want: &[&str],
) -> Result<(), Fail> {
    let mut last = "";
    let mut place = 0;
    for size in (32..40_000).step_by(16) {
        let next = refused_at(rt, alloc, size, writes)?;
        if next != last {
            expect_eq(rt, &Some(&next), &want.get(place));
            place = place.saturating_add(1);
            last = next;
        }
    }
    expect_eq(rt, &place, &want.len());
    Ok(())
}

#[test]
fn each_allocation_refused_in_turn(rt: HostRuntime) -> Result<(), Fail> {
    expect_refused(&rt, rt.alloc(), 3, &["new", "write", "none"])?;
    expect_refused(&rt, rt.alloc(), 4, &["new", "write", "sync", "none"])
}

//! A failing sync.
use super::*;

fn expect_all_refused<D: Device>(rt: &impl Abort, device: &mut D) {
    expect_unread(rt, device, 0, DeviceRefusal::Fault);
    expect_write(rt, device, 0, 7, Err(DeviceRefusal::Fault));
    expect_eq(rt, &device.sync(), &Err(DeviceRefusal::Fault));
    expect_eq(rt, &device.finish(), &Err(DeviceRefusal::Fault));
    expect_no_block(rt, device, 2);
}

// Syncs behind each write, until one fails.
fn sync_until_refused<D: Device>(rt: &impl Abort, device: &mut D, k: u8) {
    for turn in 0..k {
        expect_write(rt, device, 0, turn, Ok(()));
        expect_eq(rt, &(&turn, &device.sync()), &(&turn, &Ok(())));
        expect_filled(rt, device, 0, turn);
    }
    expect_write(rt, device, 1, k, Ok(()));
    expect_eq(rt, &device.finish(), &Ok(()));
    expect_eq(rt, &device.sync(), &Err(DeviceRefusal::Fault));
}

// The other device knows nothing of it, and what was written since the last sync is loose there.
#[test]
fn a_failing_sync_is_the_end(rt: HostRuntime) -> Result<(), Fail> {
    for k in 0..4u8 {
        let inner = VolatileDevice::new(rt.alloc(), 2)?;
        let mut device = UnsyncedDevice::new(inner, u64::from(k));
        sync_until_refused(&rt, &mut device, k);
        expect_all_refused(&rt, &mut device);
        let mut inner = device.into_inner();
        expect_eq(&rt, &inner.loose(), &1);
        expect_filled(&rt, &mut inner, 1, k);
    }
    Ok(())
}

//! A failing call, alone, nested, and under a load.
use super::*;
use patch_testing::StubbornDevice;

// Writes a block that is not there, and then one after another until one was refused.
fn write_until_refused<D: Device>(rt: &impl Abort, device: &mut D, k: u64) {
    let refused = Err(DeviceRefusal::Fault);
    expect_write(rt, device, 2, 9, Err(DeviceRefusal::NoSuchBlock));
    expect_write(rt, device, 0, 1, if k == 0 { refused } else { Ok(()) });
    if k == 1 {
        expect_write(rt, device, 1, 2, refused);
    }
}

// What the writes left, and a write after them.
fn expect_left<D: Device>(rt: &impl Abort, device: &mut D, first: u8, second: u8) {
    expect_filled(rt, device, 0, first);
    expect_filled(rt, device, 1, second);
    expect_write(rt, device, 0, 3, Ok(()));
    expect_filled(rt, device, 0, 3);
}

#[test]
fn fails_one_write(rt: HostRuntime) -> Result<(), Fail> {
    for (k, lands, first, second) in [
        (0, false, 0, 0),
        (0, true, 1, 0),
        (1, false, 1, 0),
        (1, true, 1, 2),
    ] {
        let mut device = FaultyDevice::new(MemDevice::new(rt.alloc(), 2)?, k, lands);
        write_until_refused(&rt, &mut device, k);
        expect_left(&rt, &mut device, first, second);
    }
    Ok(())
}

// A device in four others, each of which fails its first call.
type InFour<D> = FaultyDevice<FaultyDevice<FaultyDevice<FaultyDevice<D>>>>;

fn failing<D: Device>(inner: D, lands: bool) -> FaultyDevice<D> {
    FaultyDevice::new(inner, 0, lands)
}

fn four_failing<D: Device>(inner: D, lands: bool) -> InFour<D> {
    failing(failing(failing(failing(inner, lands), lands), lands), lands)
}

// How many writes in a row are refused, of twenty.
fn refused_writes<D: Device>(device: &mut D) -> u32 {
    for refused in 0..20 {
        if device.write(0, &[4; BLOCK]).is_ok() {
            return refused;
        }
    }
    20
}

fn expect_refused<D: Device>(rt: &impl Abort, device: &mut D, refused: u32) {
    expect_eq(rt, &refused_writes(device), &refused);
    expect_filled(rt, device, 0, 4);
}

fn expect_three_more<D: Device + Drop>(rt: &impl Abort, inner: D, lands: bool, refused: u32) {
    let mut outer = failing(failing(failing(inner, lands), lands), lands);
    expect_refused(rt, &mut outer, refused);
}

fn expect_four_more<D: Device + Drop>(rt: &impl Abort, inner: D, lands: bool, refused: u32) {
    let mut outer = four_failing(inner, lands);
    expect_refused(rt, &mut outer, refused);
}

// Seven devices around one in memory, and eight.
#[test]
fn nested_devices_fail_in_turn(rt: HostRuntime) -> Result<(), Fail> {
    for (lands, after_seven, after_eight) in [(false, 7, 8), (true, 1, 1)] {
        let four = four_failing(MemDevice::new(rt.alloc(), 1)?, lands);
        expect_three_more(&rt, four, lands, after_seven);
        let four = four_failing(MemDevice::new(rt.alloc(), 1)?, lands);
        expect_four_more(&rt, four, lands, after_eight);
    }
    Ok(())
}

// Loads a device of four blocks of which this call fails, and again where that was refused. Whether it was.
fn load_over_a_fault(rt: &impl Abort, alloc: Global, k: u64, lands: bool) -> Result<bool, Fail> {
    let mut device = FaultyDevice::new(MemDevice::new(alloc, 4)?, k, lands);
    let first = loaded(alloc, &mut device);
    if first == Ok(4) {
        return Ok(false);
    }
    expect_eq(rt, &(&k, &first), &(&k, &Err(LoadFault::Fault)));
    expect_eq(rt, &(&k, &loaded(alloc, &mut device)), &(&k, &Ok(4)));
    Ok(true)
}

// How many calls of a load can fail, each in its turn, until none is left.
fn count_faults(rt: &impl Abort, alloc: Global, lands: bool) -> Result<u64, Fail> {
    for k in 0..1000 {
        if !load_over_a_fault(rt, alloc, k, lands)? {
            return Ok(k);
        }
    }
    Err(Fail::from("there was no end of calls"))
}

#[test]
fn each_read_of_a_load_fails_in_turn(rt: HostRuntime) -> Result<(), Fail> {
    for lands in [false, true] {
        expect_eq(&rt, &count_faults(&rt, rt.alloc(), lands)?, &4);
    }
    Ok(())
}

fn is_read_refused<D: Device>(device: &mut D) -> bool {
    device.read(0, &mut [7; BLOCK]).is_err()
}

// Whether each of three reads in a row is refused.
fn refused_reads<D: Device>(device: &mut D) -> [bool; 3] {
    [
        is_read_refused(device),
        is_read_refused(device),
        is_read_refused(device),
    ]
}

#[test]
fn a_nested_device_counts_each_read_once(rt: HostRuntime) -> Result<(), Fail> {
    let inner = FaultyDevice::new(MemDevice::new(rt.alloc(), 1)?, 1, false);
    let mut outer = FaultyDevice::new(inner, 3, false);
    expect_eq(&rt, &refused_reads(&mut outer), &[false, true, false]);
    expect_eq(&rt, &refused_reads(&mut outer), &[true, false, false]);
    Ok(())
}

// The second write and the third are refused twice each.
#[test]
fn a_stubborn_device_refuses_each_of_some_writes(rt: HostRuntime) -> Result<(), Fail> {
    let mut device = StubbornDevice::new(MemDevice::new(rt.alloc(), 1)?, 1, 3, 2);
    let refused = Err(DeviceRefusal::Fault);
    for (byte, want, left) in [
        (1, Ok(()), 1),
        (2, refused, 1),
        (2, refused, 1),
        (2, Ok(()), 2),
        (3, refused, 2),
        (3, refused, 2),
        (3, Ok(()), 3),
        (4, Ok(()), 4),
    ] {
        expect_write(&rt, &mut device, 0, byte, want);
        expect_filled(&rt, &mut device, 0, left);
    }
    expect_write(&rt, &mut device, 1, 5, Err(DeviceRefusal::NoSuchBlock));
    Ok(())
}

//! Memory: what it holds, its list of writes, and want of memory.
use super::*;

// The blocks that are written, one after another, and the byte of each.
const WRITES: [(u32, u8); 3] = [(2, 7), (0, 8), (2, 9)];

fn write_each(rt: &impl Abort, device: &mut MemDevice) {
    expect_eq(rt, &device.count(), &3);
    for (n, byte) in &WRITES {
        expect_write(rt, device, *n, *byte, Ok(()));
    }
    expect_all_filled(rt, device, &[(0, 8), (1, 0), (2, 9)]);
    expect_no_block(rt, device, 3);
}

fn expect_writes(rt: &impl Abort, device: &MemDevice) {
    expect_eq(rt, &device.writes().len(), &3);
    for ((n, bytes), (block, byte)) in device.writes().iter().zip(&WRITES) {
        expect_eq(rt, n, block);
        expect_eq(rt, &bytes.as_slice(), &[*byte; BLOCK].as_slice());
    }
}

#[test]
fn holds_what_was_written(rt: HostRuntime) -> Result<(), Fail> {
    let mut device = MemDevice::new(rt.alloc(), 3)?;
    write_each(&rt, &mut device);
    expect_writes(&rt, &device);
    Ok(())
}

fn expect_in_order(rt: &impl Abort, alloc: Global) {
    let mut counter = InOrder {
        count: 5,
        next: 0,
        in_order: true,
    };
    expect_eq(rt, &loaded(alloc, &mut counter), &Ok(5));
    expect_eq(rt, &counter.next, &5);
    assert!(rt; counter.in_order);
}

fn load_three(rt: &impl Abort, alloc: Global) -> Result<(), Fail> {
    let mut device = MemDevice::new(alloc, 3)?;
    expect_write(rt, &mut device, 1, 5, Ok(()));
    expect_loaded(rt, alloc, &mut device, &[0, 5, 0])
}

fn load_none(rt: &impl Abort, alloc: Global) -> Result<(), Fail> {
    let mut device = MemDevice::new(alloc, 0)?;
    expect_loaded(rt, alloc, &mut device, &[])
}

#[test]
fn loads_each_block_once_in_order(rt: HostRuntime) -> Result<(), Fail> {
    load_three(&rt, rt.alloc())?;
    load_none(&rt, rt.alloc())?;
    expect_in_order(&rt, rt.alloc());
    Ok(())
}

// A device that looks whether its blocks are read one after another.
#[derive(Drop)]
struct InOrder {
    count: u32,
    next: u32,
    in_order: bool,
}

impl Device for InOrder {
    ghost use Rattle.std.specs.Prelude.{[]};

    ghost contents = { λ _. [] };

    ghost moment = { λ _. 0 };

    ghost left_at = { λ _ _ _. ⊥ };

    ghost is_honest = { λ _. ⊥ };

    ghost is_spent = { λ _. ⊥ };

    ghost block_count = { λ d. d.count };

    ghost fault_count = { λ _. 0 };

    fn count(&self) -> u32 {
        self.count
    }

    fn read(&mut self, n: u32, _into: &mut [u8]) -> Result<(), DeviceRefusal> {
        if n >= self.count {
            return Err(DeviceRefusal::NoSuchBlock);
        }
        self.in_order &= n == self.next;
        self.next = self.next.saturating_add(1);
        Ok(())
    }

    fn write(&mut self, n: u32, _from: &[u8]) -> Result<(), DeviceRefusal> {
        if n >= self.count {
            return Err(DeviceRefusal::NoSuchBlock);
        }
        Ok(())
    }

    fn sync(&mut self) -> Result<(), DeviceRefusal> {
        Ok(())
    }

    fn finish(&mut self) -> Result<(), DeviceRefusal> {
        Ok(())
    }

    ghost blocks_counted = { λ d h. absurd h };

    ghost blocks_whole = { λ d h. absurd h };

    ghost all_may_land = { λ d h. absurd h };

    ghost use Rattle.patch_device.specs.Device.{none_fits};

    ghost faults_fit = { λ _. none_fits };
}

// What a heap was too small for.
#[derive(Clone, Copy, PartialEq)]
enum Refused {
    New,
    FirstWrite,
    SecondWrite,
    Load,
}

// A refused write is a fault, and leaves the device as it was: so many writes, and this byte.
fn is_written(
    rt: &impl Abort,
    device: &mut MemDevice<&LocalHeap>,
    byte: u8,
    writes: usize,
    left: u8,
) -> bool {
    let written = device.write(1, &[byte; BLOCK]);
    if written.is_ok() {
        return true;
    }
    expect_eq(rt, &written, &Err(DeviceRefusal::Fault));
    expect_eq(rt, &device.writes().len(), &writes);
    expect_filled(rt, device, 1, left);
    false
}

// Loads the device into the other heap. What is refused there is loaded here.
fn is_loaded(
    rt: &impl Abort,
    device: &mut MemDevice<&LocalHeap>,
    here: &LocalHeap,
    there: &LocalHeap,
) -> bool {
    let first = loaded(there, device);
    expect_filled(rt, device, 1, 7);
    if first == Ok(2) {
        return true;
    }
    expect_eq(rt, &first, &Err(LoadFault::OutOfMemory));
    expect_eq(rt, &loaded(here, device), &Ok(2));
    false
}

// Writes twice, and loads the device into the other heap.
fn write_load(
    rt: &impl Abort,
    device: &mut MemDevice<&LocalHeap>,
    here: &LocalHeap,
    there: &LocalHeap,
) -> Option<Refused> {
    if !is_written(rt, device, 6, 0, 0) {
        return Some(Refused::FirstWrite);
    }
    if !is_written(rt, device, 7, 1, 6) {
        return Some(Refused::SecondWrite);
    }
    if !is_loaded(rt, device, here, there) {
        return Some(Refused::Load);
    }
    None
}

// Makes a device in the one heap, writes twice, and loads it into the other. What is refused leaves all as it was.
fn make_write_load(rt: &impl Abort, here: &LocalHeap, there: &LocalHeap) -> Option<Refused> {
    match MemDevice::new(here, 2) {
        Ok(mut device) => write_load(rt, &mut device, here, there),
        Err(_) => Some(Refused::New),
    }
}

// What a heap of this size is too small for, where the other of the two is ample.
fn refused_at(
    rt: &impl Abort,
    alloc: Global,
    ample: &LocalHeap,
    is_made: bool,
    size: usize,
) -> Result<Option<Refused>, Fail> {
    let heap = LocalHeap::new(alloc, size)?;
    Ok(if is_made {
        make_write_load(rt, &heap, ample)
    } else {
        make_write_load(rt, ample, &heap)
    })
}

// What is refused changes so often as one heap grows beside an ample one, up to where nothing is.
fn expect_changes(
    rt: &impl Abort,
    alloc: Global,
    ample: &LocalHeap,
    is_made: bool,
    want: u32,
) -> Result<(), Fail> {
    let mut changes = 0u32;
    let mut last = Some(if is_made { Refused::New } else { Refused::Load });
    for size in (32..24_000).step_by(32) {
        let next = refused_at(rt, alloc, ample, is_made, size)?;
        changes = changes.saturating_add(u32::from(next != last));
        last = next;
    }
    assert!(rt; last.is_none());
    expect_eq(rt, &changes, &want);
    Ok(())
}

// From the first refused call over each later one to none.
#[test]
fn each_allocation_refused_in_turn(rt: HostRuntime) -> Result<(), Fail> {
    let ample = LocalHeap::new(rt.alloc(), 100_000)?;
    expect_changes(&rt, rt.alloc(), &ample, true, 3)?;
    expect_changes(&rt, rt.alloc(), &ample, false, 1)
}

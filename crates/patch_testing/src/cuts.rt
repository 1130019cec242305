//! All that a cut of the power may leave of a disk with a write cache.
use patch_device::{Device, VolatileDevice};
use patch_model::{BlockBytes, OutOfMemory};
use std::alloc::Global;

/// A write of a block, or a sync.
pub type Event = Option<(u32, BlockBytes)>;

// Does to the device what was done to another. It fails only for want of memory.
fn repeat(device: &mut VolatileDevice, event: &Event) -> Result<(), OutOfMemory> {
    let done = match event {
        Some((block, bytes)) => device.write(*block, bytes.as_slice()).is_ok(),
        None => device.sync().is_ok(),
    };
    if !done {
        return Err(OutOfMemory);
    }
    Ok(())
}

/// A disk of so many blocks, to which this has happened.
pub fn device_behind(
    alloc: Global,
    count: u32,
    events: &[Event],
) -> Result<VolatileDevice, OutOfMemory> {
    let mut device = VolatileDevice::new(alloc, count)?;
    for event in events {
        repeat(&mut device, event)?;
    }
    Ok(device)
}

// How many parts so many writes have.
fn parts_of(writes: usize) -> u32 {
    let mut parts = 1u32;
    for _ in 0..writes {
        parts = parts.saturating_mul(2);
    }
    parts
}

// Which of so many writes belong to the part of this number.
fn lands_of(alloc: Global, part: u32, writes: usize) -> Result<Vec<bool>, OutOfMemory> {
    let mut lands = Vec::with_capacity(alloc, writes)?;
    let mut left = part;
    for _ in 0..writes {
        lands.push(left % 2 == 1)?;
        left /= 2;
    }
    Ok(lands)
}

/// The blocks that a cut of the power leaves, for each part of the writes since the last sync that may have landed.
pub fn cuts_of(
    alloc: Global,
    device: &VolatileDevice,
) -> Result<Vec<Vec<BlockBytes>>, OutOfMemory> {
    let writes = device.loose();
    let mut cuts = Vec::new(alloc);
    for part in 0..parts_of(writes) {
        let lands = lands_of(alloc, part, writes)?;
        cuts.push(device.cut(alloc, lands.as_slice())?)?;
    }
    Ok(cuts)
}

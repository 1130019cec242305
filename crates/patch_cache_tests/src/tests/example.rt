//! The README's example.
use super::*;
use patch_device::{MemDevice, load};
use std::alloc::Global;

fn write_in_order(alloc: Global) -> Result<MemDevice, Fail> {
    let mut device = MemDevice::new(alloc, 2)?;
    let mut cache = Cache::open(alloc, load(alloc, &mut device)?)?;
    write_both(&mut cache, &mut device)?;
    Ok(device)
}

fn write_both(cache: &mut Cache, device: &mut MemDevice) -> Result<(), Fail> {
    let data = cache.create(BlockNo(0), 0, b"data", &[], Undo::Keep)?;
    cache.create(BlockNo(1), 0, b"name", &[data], Undo::Keep)?; // reaches the disk after the data
    write_block(cache, device, BlockNo(0))?;
    write_block(cache, device, BlockNo(1))?;
    Ok(())
}

// Writes all of a block that may go to the disk now, as one image.
fn write_block(
    cache: &mut Cache,
    device: &mut MemDevice,
    block: BlockNo,
) -> Result<Option<Done>, SendRefusal> {
    let flight = cache.send(block)?;
    match write_out(device, flight) {
        Ok(landed) => Ok(end_write(cache, landed)),
        Err((flight, Fault)) => {
            flight.abandon(); // or tried again
            Ok(None)
        }
    }
}

// Its patches are durable.
fn end_write(cache: &mut Cache, landed: Landed) -> Option<Done> {
    match cache.complete(landed) {
        Ok(done) => Some(done),
        Err(stranger) => {
            stranger.abandon();
            None
        }
    }
}

#[test]
fn the_example_writes_both_blocks(rt: HostRuntime) -> Result<(), Fail> {
    let mut device = write_in_order(rt.alloc())?;
    let blocks = load(rt.alloc(), &mut device)?;
    let starts: [&[u8]; 2] = [b"data", b"name"];
    for (block, start) in blocks.iter().zip(starts) {
        assert_eq!(rt; &block.as_slice()[..4], start);
    }
    Ok(())
}

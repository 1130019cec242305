//! Writes that are under way together: which blocks they are of, and what the disk holds as each part of them has landed.
use super::closed::LONGER;
use super::*;
use patch_cache::{Flight, write_out};
use patch_device::MemDevice;
use patch_store::flush;

// A block, and what a write of it brings there.
type Image = (u32, BlockBytes);

// Why a write could not begin, or not end.
type Why = &'static str;

// Writes the flight out and ends it.
fn end(store: &mut Store, device: &mut MemDevice, flight: Flight) -> Result<(), Why> {
    match write_out(device, flight) {
        Ok(landed) => match store.complete(landed) {
            Ok(_) => Ok(()),
            Err(stranger) => {
                stranger.abandon();
                Err("a write of the store's own was a stranger")
            }
        },
        Err((flight, _)) => {
            flight.abandon();
            Err("a device in memory refused a write")
        }
    }
}

// Begins the next write and ends it. Whether one could begin.
fn write_next(store: &mut Store, device: &mut MemDevice) -> Result<bool, Why> {
    match store.send() {
        Ok(Some(flight)) => {
            end(store, device, flight)?;
            Ok(true)
        }
        Ok(None) => Ok(false),
        Err(OutOfMemory) => Err("no memory"),
    }
}

// Ends all writes that can begin, one after another, at most so many.
fn write_most(store: &mut Store, device: &mut MemDevice, most: u32) -> Result<(), Why> {
    for _ in 0..most {
        if !write_next(store, device)? {
            break;
        }
    }
    Ok(())
}

// What the flight is to bring to its block. It never ends.
fn image_of(alloc: Global, flight: Flight) -> Result<Image, OutOfMemory> {
    let block = flight.block().0;
    let image = BlockBytes::from_slice(alloc, flight.image());
    flight.abandon();
    Ok((block, image?))
}

// Begins writes until none can begin while these are under way.
fn push_images(
    alloc: Global,
    store: &mut Store,
    images: &mut Vec<Image>,
) -> Result<(), OutOfMemory> {
    for _ in 0..store.cache().blocks() {
        match store.send()? {
            Some(flight) => images.push(image_of(alloc, flight)?)?,
            None => break,
        }
    }
    Ok(())
}

// The blocks of the images are these, in their order.
fn expect_blocks(rt: &impl Abort, images: &[Image], blocks: &[u32]) {
    expect_eq(rt, &images.len(), &blocks.len());
    for (image, block) in images.iter().zip(blocks.iter()) {
        expect_eq(rt, &image.0, block);
    }
}

// A put of a value of three blocks.
pub(super) const PUT: &[Turn<'static>] = &[(Put(b"a", &VALUE), Ok(()))];

pub(super) const VALUE: [u8; 12_288] = [0x61; 12_288];

fn store_of_put(rt: &impl Abort, alloc: Global) -> Result<Store, Fail> {
    behind(rt, alloc, SMALL, &[], PUT)
}

// The writes that are under way together when so many have ended, of the put on a new disk.
fn push_images_after(
    rt: &impl Abort,
    alloc: Global,
    device: &mut MemDevice,
    ended: u32,
    images: &mut Vec<Image>,
) -> Result<(), Fail> {
    let mut store = store_of_put(rt, alloc)?;
    let written = write_most(&mut store, device, ended);
    let begun = push_images(alloc, &mut store, images);
    drop(store);
    expect_eq(rt, &written, &Ok(()));
    Ok(begun?)
}

// The frame's four blocks are under way together, then the pointer's, and then the slot's: how many have ended, and what is then
// the blocks of all images.
const UNDER_WAY: &[(u32, &'static [u32])] = &[
    (0, &[3, 4, 5, 6]),
    (4, &[3, 4, 5, 6, 2]),
    (5, &[3, 4, 5, 6, 2, 1]),
];

// Lays those of these images on the disk that are told: each by its own bit.
fn lay_all(blocks: &mut [BlockBytes], images: &[Image], landed: u32) {
    let mut left = landed;
    for (block, image) in images {
        if left % 2 == 1 {
            lay(blocks, *block as usize, 0, image.as_slice());
        }
        left /= 2;
    }
}

fn disk_of(alloc: Global, images: &[Image], landed: u32) -> Result<Vec<BlockBytes>, OutOfMemory> {
    let mut blocks = made(alloc, SMALL)?;
    lay_all(&mut blocks, images, landed);
    Ok(blocks)
}

// Each part of the first four landed, and then each of the others not landed and landed.
const LANDED: &[u32] = &[
    0, 1, 2, 3, 4, 5, 6, 7, 8, 9, 10, 11, 12, 13, 14, 15, 15, 31, 31, 63,
];

const ABSENT: &[Turn<'static>] = &[(Get(b"a", None), Ok(()))];

const PRESENT: &[Turn<'static>] = &[(Get(b"a", Some(&VALUE)), Ok(()))];

fn turns_of(landed: u32) -> &'static [Turn<'static>] {
    if landed == 63 { PRESENT } else { ABSENT }
}

// The disk opens, and has the value where all have landed.
fn expect_each_opened(rt: &impl Abort, alloc: Global, images: &[Image]) -> Result<(), Fail> {
    for landed in LANDED {
        let blocks = disk_of(alloc, images, *landed)?;
        expect_opened(rt, alloc, blocks, turns_of(*landed))?;
    }
    Ok(())
}

fn expect_landed(
    rt: &impl Abort,
    alloc: Global,
    device: &mut MemDevice,
    images: &mut Vec<Image>,
) -> Result<(), Fail> {
    for (ended, blocks) in UNDER_WAY {
        push_images_after(rt, alloc, device, *ended, images)?;
        expect_blocks(rt, images, blocks);
    }
    expect_each_opened(rt, alloc, images)
}

#[test]
fn a_put_of_four_blocks_is_there_when_all_have_landed(rt: HostRuntime) -> Result<(), Fail> {
    let mut device = MemDevice::new(rt.alloc(), 35)?;
    let mut images = Vec::new(rt.alloc());
    let ended = expect_landed(&rt, rt.alloc(), &mut device, &mut images);
    drop(device);
    drop(images);
    ended
}

// The write is held while all others end that can.
fn hold(store: &mut Store, device: &mut MemDevice, flight: Flight) -> Result<(), Why> {
    let others = write_most(store, device, 35);
    let ended = end(store, device, flight);
    others?;
    ended
}

fn hold_first(store: &mut Store, device: &mut MemDevice) -> Result<(), Why> {
    match store.send() {
        Ok(Some(flight)) => hold(store, device, flight),
        _ => Err("nothing was sent"),
    }
}

fn store_of_longer(rt: &impl Abort, alloc: Global) -> Result<Store, Fail> {
    behind(rt, alloc, SMALL, &[], LONGER)
}

fn expect_held(rt: &impl Abort, alloc: Global, device: &mut MemDevice) -> Result<(), Fail> {
    let mut store = store_of_longer(rt, alloc)?;
    let held = hold_first(&mut store, device);
    let rest = write_most(&mut store, device, 35);
    drop(store);
    expect_eq(rt, &(held, rest), &(Ok(()), Ok(())));
    let blocks = [3, 4, 5, 6, 7, 8, 9, 10, 11, 12, 2, 0, 1];
    expect_blocks(rt, device.writes(), &blocks);
    Ok(())
}

// The slot of a longer frame waits for the upgrade: with ten blocks of the frame and the pointer on the disk, nothing can be
// written until block 0 is.
#[test]
fn the_slot_of_a_longer_frame_waits_for_the_upgrade(rt: HostRuntime) -> Result<(), Fail> {
    let mut device = MemDevice::new(rt.alloc(), 35)?;
    let ended = expect_held(&rt, rt.alloc(), &mut device);
    drop(device);
    ended
}

// Flushes while the write is under way, and ends it.
fn flush_beside(store: &mut Store, device: &mut MemDevice, flight: Flight) -> Result<(), Why> {
    let is_flushed = flush(store, device).is_ok();
    end(store, device, flight)?;
    if is_flushed {
        Ok(())
    } else {
        Err("a flush was refused")
    }
}

fn flush_beside_first(store: &mut Store, device: &mut MemDevice) -> Result<(), Why> {
    match store.send() {
        Ok(Some(flight)) => flush_beside(store, device, flight),
        _ => Err("nothing was sent"),
    }
}

fn expect_flushed(rt: &impl Abort, alloc: Global, device: &mut MemDevice) -> Result<(), Fail> {
    let mut store = store_of_put(rt, alloc)?;
    let ended = flush_beside_first(&mut store, device);
    let is_flushed = flush(&mut store, device).is_ok();
    let live = store.cache().live();
    drop(store);
    expect_eq(rt, &(ended, is_flushed, live), &(Ok(()), true, 0));
    expect_blocks(rt, device.writes(), &[4, 5, 6, 3, 2, 1]);
    Ok(())
}

// What doesn't wait for the first of the frame's blocks is written at once, as a wave lands its flights, and the rest behind it.
#[test]
fn a_flush_leaves_a_flight_to_its_holder(rt: HostRuntime) -> Result<(), Fail> {
    let mut device = MemDevice::new(rt.alloc(), 35)?;
    let ended = expect_flushed(&rt, rt.alloc(), &mut device);
    drop(device);
    ended
}

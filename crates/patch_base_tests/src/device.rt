//! Devices in memory, with a write cache, with a failing call and over a file, and each refusal in its turn.
use crate::expecting::expect_eq;
use linked_list_allocator::LocalHeap;
use patch_device::*;
use patch_model::{BLOCK, BlockBytes, Refuses};
use std::alloc::{Allocator, Global};
use std::fmt::Display;
use std::fs;
use std::fs::File;
use std::process::Abort;
use std::test::Fail;

mod failing;
mod faulty;
mod files;
mod full_disk;
mod memory;
mod volatile;

// Whether the device's block holds this byte throughout.
fn is_filled<D: Device>(device: &mut D, n: u32, byte: u8) -> bool {
    let mut bytes = [0xee; BLOCK];
    device.read(n, &mut bytes).is_ok() && bytes == [byte; BLOCK]
}

fn expect_filled<D: Device>(rt: &impl Abort, device: &mut D, n: u32, byte: u8) {
    assert!(rt; is_filled(device, n, byte), "block {n}, byte {byte}");
}

fn expect_all_filled<D: Device>(rt: &impl Abort, device: &mut D, rows: &[(u32, u8)]) {
    for (n, byte) in rows {
        expect_filled(rt, device, *n, *byte);
    }
}

// Writes a block of this byte.
fn expect_write<D: Device>(
    rt: &impl Abort,
    device: &mut D,
    n: u32,
    byte: u8,
    want: Result<(), DeviceRefusal>,
) {
    expect_eq(
        rt,
        &(&byte, &device.write(n, &[byte; BLOCK])),
        &(&byte, &want),
    );
}

fn expect_unread<D: Device>(rt: &impl Abort, device: &mut D, n: u32, want: DeviceRefusal) {
    expect_eq(rt, &device.read(n, &mut [1; BLOCK]), &Err(want));
}

// A block that isn't there is neither written nor read.
fn expect_no_block<D: Device>(rt: &impl Abort, device: &mut D, n: u32) {
    expect_write(rt, device, n, 1, Err(DeviceRefusal::NoSuchBlock));
    expect_unread(rt, device, n, DeviceRefusal::NoSuchBlock);
}

// How many blocks a load of the device gives.
fn loaded<A: Allocator + Copy, D: Device>(alloc: A, device: &mut D) -> Result<usize, LoadFault> {
    Ok(load(alloc, device)?.len())
}

// A load gives blocks that are filled with these bytes.
fn expect_loaded<D: Device>(
    rt: &impl Abort,
    alloc: Global,
    device: &mut D,
    bytes: &[u8],
) -> Result<(), Fail> {
    let blocks = load(alloc, device)?;
    expect_blocks(rt, &blocks, bytes);
    Ok(())
}

fn expect_blocks(rt: &impl Abort, blocks: &[BlockBytes], bytes: &[u8]) {
    expect_eq(rt, &blocks.len(), &bytes.len());
    for (block, byte) in blocks.iter().zip(bytes) {
        expect_eq(rt, &block.as_slice(), &[*byte; BLOCK].as_slice());
    }
}

// An empty folder of the test's own.
fn make_folder(rt: &HostRuntime, folder: &str) -> Result<(), Fail> {
    let _old = fs::remove_dir_all(rt, folder);
    fs::create_dir(rt, folder)?;
    Ok(())
}

// Makes a file of this length.
fn make_file(rt: &HostRuntime, path: &str, length: u64) -> Result<(), Fail> {
    File::create(rt, path)?.set_len(length)?;
    Ok(())
}

// The length of a file.
fn expect_length(
    rt: &impl Abort,
    files: &HostRuntime,
    path: &str,
    length: u64,
) -> Result<(), Fail> {
    expect_eq(rt, &fs::metadata(files, path)?.len(), &length);
    Ok(())
}

// The number of a refusal and of its kind, and its name, which is its text.
fn expect_named<R: Refuses + Display + Copy>(
    rt: &impl Abort,
    alloc: Global,
    refusal: R,
    code: u8,
    name: &str,
) -> Result<(), Fail> {
    expect_eq(rt, &refusal.kind().code(), &code);
    expect_eq(rt, &refusal.code(), &code);
    expect_eq(rt, &refusal.name(), &name);
    expect_eq(rt, &format!(in alloc; "{refusal}")?.as_str(), &name);
    Ok(())
}

fn expect_each_named<R: Refuses + Display + Copy>(
    rt: &impl Abort,
    alloc: Global,
    rows: &[(R, u8, &str)],
) -> Result<(), Fail> {
    for (refusal, code, name) in rows {
        expect_named(rt, alloc, *refusal, *code, name)?;
    }
    Ok(())
}

#[test]
fn refusals_have_their_numbers_names_and_texts(rt: HostRuntime) -> Result<(), Fail> {
    let of_devices = [
        (DeviceRefusal::NoSuchBlock, 2, "NoSuchBlock"),
        (DeviceRefusal::Fault, 3, "Fault"),
    ];
    expect_each_named(&rt, rt.alloc(), &of_devices)?;
    let of_files = [
        (FileRefusal::Disk, 4, "Disk"),
        (FileRefusal::FileSize, 5, "FileSize"),
        (FileRefusal::OutOfMemory, 1, "OutOfMemory"),
    ];
    expect_each_named(&rt, rt.alloc(), &of_files)?;
    let of_loads = [
        (LoadFault::Fault, 3, "Fault"),
        (LoadFault::OutOfMemory, 1, "OutOfMemory"),
    ];
    expect_each_named(&rt, rt.alloc(), &of_loads)
}

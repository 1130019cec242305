//! Disks in memory, and scripts that run on them.
use crate::digests::Digest;
use anyhow::{Result, anyhow, bail};
use patch_device::{Device, MemDevice};
use patch_files::{Quiet, Status, check_disk, run_script};
use patch_frame::{Format, Geometry};
use patch_replay::{Sink, Source};
use patch_store::make;
use std::alloc::Global;

/// A disk of so many index blocks and extents of 16 blocks.
pub fn small_extents(index: u32, extents: u32) -> Geometry {
    Geometry {
        index,
        extents,
        format: Format::One,
    }
}

/// A device in memory that holds a new store.
pub fn new_disk(alloc: Global, geometry: Geometry) -> Result<MemDevice> {
    let Ok(blocks) = make(alloc, geometry) else {
        bail!("no disk was made");
    };
    let count = u32::try_from(blocks.len())?;
    let mut device = MemDevice::new(alloc, count)?;
    let Some(first) = blocks.first() else {
        bail!("a disk has no block");
    };
    match device.write(0, first.as_slice()) {
        Ok(()) => Ok(device),
        Err(_) => Err(anyhow!("a device in memory refused a write")),
    }
}

/// Runs a script on a new store, and puts its answers and what the store holds then into the digest.
pub fn run_on_new(
    alloc: Global,
    geometry: Geometry,
    script: &String,
    digest: &mut Digest,
) -> Result<()> {
    let mut device = new_disk(alloc, geometry)?;
    let mut answers = Sink::new(Vec::new(alloc));
    let status = run_script(
        alloc,
        &mut Source::new(script.as_bytes()),
        &mut answers,
        &mut device,
        &mut Quiet,
    );
    if status != Status::Done {
        bail!("a script wasn't done: {status:?}");
    }
    digest.put(answers.into_inner().as_slice());
    put_report(alloc, &mut device, digest)
}

/// The report of what a store holds.
fn report_of(alloc: Global, device: &mut MemDevice) -> Result<Vec<u8>> {
    let mut report = Sink::new(Vec::new(alloc));
    let status = check_disk(alloc, &mut report, device);
    if status != Status::Done {
        bail!("a disk wasn't read: {status:?}");
    }
    Ok(report.into_inner())
}

/// Puts what a store holds into the digest.
fn put_report(alloc: Global, device: &mut MemDevice, digest: &mut Digest) -> Result<()> {
    let report = report_of(alloc, device)?;
    digest.put(report.as_slice());
    Ok(())
}

/// Puts the keys of a store into the digest, with the lengths of their values. In which extents these lie may depend on the order in
/// which threads ran, so that isn't put in.
pub fn put_entries(alloc: Global, device: &mut MemDevice, digest: &mut Digest) -> Result<()> {
    let report = report_of(alloc, device)?;
    for line in report.as_slice().split(|byte| *byte == b'\n') {
        if line.starts_with(b"entry ") {
            digest.put(line);
        }
    }
    Ok(())
}

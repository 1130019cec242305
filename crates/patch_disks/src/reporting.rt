//! The report of a store, as text.
use crate::endings::Stop;
use patch_replay::{Output, Sink};
use patch_store::{EntryReport, ExtentReport};
use std::alloc::{AllocError, Global};

/// A key, and the length of its value.
fn entry_line(alloc: Global, entry: &EntryReport) -> Result<String, AllocError> {
    let key = hex::encode(alloc, entry.key.as_slice())?;
    let length = entry.length;
    format!(in alloc; "entry {key} {length}\n")
}

/// An extent: its number, its pointer record, and how many bytes of it are live.
fn extent_line(alloc: Global, extent: usize, report: &ExtentReport) -> Result<String, AllocError> {
    let ExtentReport {
        generation,
        pointer,
        live,
    } = *report;
    format!(in alloc; "extent {extent} {generation} {pointer} {live}\n")
}

/// The entries, in the byte order of their keys.
pub(crate) fn write_entries<W: Output>(
    alloc: Global,
    writer: &mut Sink<W>,
    mut entries: Vec<EntryReport>,
) -> Result<(), Stop> {
    entries.sort_unstable_by(|one, other| one.key.as_slice().cmp(other.key.as_slice()));
    for entry in entries.iter() {
        let line = entry_line(alloc, entry)?;
        writer.write_all(line.as_bytes())?;
    }
    Ok(())
}

/// The extents, rising.
pub(crate) fn write_extents<W: Output>(
    alloc: Global,
    writer: &mut Sink<W>,
    extents: &[ExtentReport],
) -> Result<(), Stop> {
    for (extent, report) in extents.iter().enumerate() {
        let line = extent_line(alloc, extent, report)?;
        writer.write_all(line.as_bytes())?;
    }
    Ok(())
}

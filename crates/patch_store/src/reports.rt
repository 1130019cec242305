//! What a store is reported to hold.
use patch_index::EntryReport;
use std::alloc::{Allocator, Global};

/// An extent: its pointer record, and how many bytes the frames have that slots name in it.
#[derive(Clone, Copy, Debug, PartialEq, Eq)]
pub struct ExtentReport {
    pub generation: u32,
    /// Where the next frame would be appended.
    pub pointer: u32,
    /// A reclaim copies so many bytes.
    pub live: u32,
}

/// What a store holds.
#[derive(Drop)]
pub struct Report<A: Allocator = Global> {
    /// Each key that has a value, in the order of the slots.
    pub entries: Vec<EntryReport, A>,
    /// Each extent, rising.
    pub extents: Vec<ExtentReport, A>,
}

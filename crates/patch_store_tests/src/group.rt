//! Groups: worked scripts, syncs over devices that fail, want of memory, and the texts of refusals.
use crate::expecting::expect_equal;
use patch_cache::*;
use patch_group::*;
use patch_model::{BlockNo, MAX_BLOCKS, OutOfMemory, PatchNo, Undo, WriterNo};
use patch_testing::zeros;
use std::alloc::Allocator;
use std::process::Abort;
use std::test::Fail;

mod devices;
mod lines;
mod memory;
mod names;
mod scripts;

// A cache of so many blocks of zeros.
fn open_zeros<A: Allocator + Copy>(
    rt: &impl Abort,
    alloc: A,
    count: usize,
) -> Result<Cache<A>, OutOfMemory> {
    let blocks = zeros(alloc, count)?;
    assert!(rt; !blocks.is_empty() && blocks.len() <= MAX_BLOCKS);
    Cache::open(alloc, blocks)
}

//! How a disk is divided into its superblock, its index, its pointer block and its extents.
ghost use Rattle.std.specs.Prelude.{◌≡◌, ◌↔◌, ◌+◌, ◌<◌, ◌≤◌, ◌^◌, IsTrue};
ghost use Rattle.patch_frame.specs.Geometry.{version_of, extent_blocks, largest_pointer, value_limit, longest_frame, slot_count, slot_block, slot_start};
ghost use Rattle.patch_frame.specs.Geometry.{pointer_block, pointer_start, first_block, block_count, is_format, is_geometry, IsFormat, IsGeometry};

use crate::framing::{MAX_KEY, MAX_VALUE, OVERHEAD};
use crate::pointers::POINTER_BYTES;
use crate::slots::{MAX_FRAME, SLOT_BYTES};
use patch_model::{BLOCK, MAX_BLOCKS};

// The fewest and the most blocks of an extent. Version 1 has the fewest.
const MIN_EXTENT_BLOCKS: u32 = 16;

const MAX_EXTENT_BLOCKS: u32 = 64;

const MAX_INDEX_BLOCKS: u32 = 16;

const MAX_EXTENTS: u32 = 254;

const SLOTS_PER_BLOCK: u32 = 64;

// How many bytes a frame has beside its value, where its key is a longest one.
const MAX_OVERHEAD: u32 = OVERHEAD + MAX_KEY as u32;

/// The version of a disk, with what only that version says.
#[derive(Clone, Copy, Debug, PartialEq, Eq)]
pub enum Format {
    /// Version 1, whose extents have 16 blocks.
    One,
    /// Version 2, whose extents have `length` blocks, from 16 to 64.
    Two { length: u32 },
}

impl Format {
    /// The number of the version, as the superblock has it.
    pub fn version(self) -> u32
        ensures { result ≡ version_of self }
    {
        match self {
            Format::One => 1,
            Format::Two { .. } => 2,
        }
    }

    /// How many blocks an extent has.
    pub fn extent_blocks(self) -> u32
        ensures { result ≡ extent_blocks self }
    {
        match self {
            Format::One => MIN_EXTENT_BLOCKS,
            Format::Two { length } => length,
        }
    }

    /// The greatest value of a write pointer: how many bytes an extent has.
    pub fn largest_pointer(self) -> u32
        requires { IsFormat self }
        ensures { result ≡ largest_pointer self }
    {
        self.extent_blocks() * BLOCK as u32
    }

    /// How many bytes a value may have. In version 2 the frame of a longest key and value fits an extent.
    pub fn value_limit(self) -> u32
        requires { IsFormat self }
        ensures { result ≡ value_limit self }
    {
        match self {
            Format::One => 32_768,
            Format::Two { .. } => MAX_VALUE.min(self.largest_pointer() - MAX_OVERHEAD),
        }
    }

    /// The greatest length of a frame that an index slot may name.
    pub fn longest_frame(self) -> u32
        ensures { result ≡ longest_frame self }
    {
        match self {
            Format::One => 32_816,
            Format::Two { .. } => MAX_FRAME,
        }
    }

    /// Whether the length of the extents is one that the version has.
    pub fn is_valid(self) -> bool
        ensures value { result ≡ is_format self }
        ensures fact { IsTrue result ↔ IsFormat self }
    {
        match self {
            Format::One => true,
            Format::Two { length } => MIN_EXTENT_BLOCKS <= length && length <= MAX_EXTENT_BLOCKS,
        }
    }
}

/// How a disk is divided: 1 to 16 index blocks, 2 to 254 extents, and 4,096 blocks at most.
#[derive(Clone, Copy, Debug, PartialEq, Eq)]
pub struct Geometry {
    /// How many index blocks there are.
    pub index: u32,
    /// How many extents there are.
    pub extents: u32,
    pub format: Format,
}

impl Geometry {
    /// Whether a disk may be divided like this.
    pub fn is_valid(self) -> bool
        ensures value { result ≡ is_geometry self }
        ensures fact { IsTrue result ↔ IsGeometry self }
    {
        1 <= self.index
            && self.index <= MAX_INDEX_BLOCKS
            && 2 <= self.extents
            && self.extents <= MAX_EXTENTS
            && self.format.is_valid()
            && self.block_count() <= MAX_BLOCKS as u32
    }

    /// How many blocks the disk has.
    pub fn block_count(self) -> u32
        requires { block_count self < 2 ^ 32 }
        ensures { result ≡ block_count self }
    {
        2 + self.index + self.format.extent_blocks() * self.extents
    }

    /// How many slots the index has.
    pub fn slot_count(self) -> u32
        requires { IsGeometry self }
        ensures { result ≡ slot_count self }
    {
        SLOTS_PER_BLOCK * self.index
    }

    /// The number of the block that holds the pointer records. The index blocks are those from 1 up to it.
    pub fn pointer_block(self) -> u32
        requires { IsGeometry self }
        ensures { result ≡ pointer_block self }
    {
        self.index + 1
    }

    /// The number of the first block of an extent.
    pub fn first_block(self, extent: u32) -> u32
        requires geometry { IsGeometry self }
        requires extent { extent < self.extents }
        ensures value { result ≡ first_block self extent }
        ensures within { result + extent_blocks self.format ≤ block_count self }
    {
        2 + self.index + self.format.extent_blocks() * extent
    }
}

/// The number of the block in which an index slot stands.
pub fn slot_block(slot: u32) -> u32
    ensures { result ≡ slot_block slot }
{
    1 + slot / SLOTS_PER_BLOCK
}

/// Where in its block an index slot begins.
pub fn slot_start(slot: u32) -> usize
    ensures value { result ≡ slot_start slot }
    ensures within { result + SLOT_BYTES ≤ BLOCK }
{
    SLOT_BYTES * (slot % SLOTS_PER_BLOCK) as usize
}

/// Where in the pointer block the record of an extent begins.
pub fn pointer_start(extent: u32) -> usize
    requires { extent < 254 }
    ensures value { result ≡ pointer_start extent }
    ensures within { result + POINTER_BYTES ≤ BLOCK }
{
    POINTER_BYTES * extent as usize
}

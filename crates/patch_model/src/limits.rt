//! How much there may be of what.

/// The most blocks of one disk.
pub const MAX_BLOCKS: usize = 4096;

/// The most blocks of one cache.
pub const MAX_CACHED: usize = 16_777_216;

/// The greatest number of a writer: there are at most eight.
pub const MAX_WRITER: u8 = 7;

/// The most patches ever made in one cache: each number is below it.
pub const MAX_PATCHES: u32 = 16_777_216;

/// The most patches of one cache that are in memory or in flight at a time.
pub const MAX_LIVE: u32 = 65_536;

//! What groups and extents are as plain values, and which patches an append or a reset makes: its *plan*, a list of changes with the
//! patches that each names.
//!
//! Definitions in `specs/`, and their laws: contracts of functions that do nothing. `patch_group` and `patch_extent` keep these values
//! over a cache, and `patch_history` says by them what a store's commands make.
#![tactic(auto)]

pub mod laws;
mod limits;
mod records;

pub use limits::MAX_GROUPS;
pub use records::Extent;

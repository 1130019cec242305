//! What a store's commands mean: a map on slots and extents, which patches each command makes, and how it is answered.
//!
//! Definitions in `specs/`, and their laws: whatever legal calls and writes make is a store, which opens after every
//! crash with the map that they say. No code here does anything: the store that keeps to these definitions stands on
//! this crate, and has its commands, replies and refusals from it.
#![tactic(auto)]

mod commands;
pub mod laws;
mod refusals;
mod rows;

pub use commands::{Command, Reply};
pub use refusals::{
    DeleteRefusal, GetRefusal, MakeRefusal, OpenFault, PutRefusal, ReclaimRefusal, UpgradeRefusal,
};

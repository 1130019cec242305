//! What the patches of a store mean, and that every closed set of them leaves a disk that opens.
//!
//! Definitions in `specs/`, and their laws: contracts of functions that do nothing. `docs/RECOVERY.md` tells them in
//! words.
#![tactic(auto)]

pub mod laws;
mod rows;

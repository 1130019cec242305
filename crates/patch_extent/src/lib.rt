//! Append-only extents: runs of blocks that are filled at a write pointer and emptied by a reset, as those of ShardStore.
//!
//! [`Extents`] is defined and opened in `extents`; which of them are empty is kept in `empties`. Its other calls stand by themselves:
//! `append` in `appending`, `reset` in `resetting`, `upgrade` in `upgrading`, `read` in `reading`, `renew` in `renewing`. An append or a
//! reset is a *plan*: a list of changes, each with the patches that it names. The contracts say of which changes, and that they were made.
#![tactic(auto)]

mod appending;
mod counting;
mod empties;
mod extents;
pub mod laws;
mod parting;
mod places;
mod reading;
mod refusals;
mod renewing;
mod resetting;
mod rows;
mod upgrading;

pub use extents::Extents;
pub use parting::touched;
pub use places::{Appended, MergeOutcome, Place};
pub use refusals::{AppendRefusal, ExtentsFault, ReadRefusal, ResetRefusal};

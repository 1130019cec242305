//! Patchgroups: patches that go to the disk after all patches of other groups.
#![tactic(auto)]

mod asks;
mod calls;
mod counting;
mod joining;
pub mod laws;
mod ordering;
mod records;
mod refusals;
mod running;
mod runs;
mod syncing;
mod waiting;

pub use asks::{GroupAnswer, GroupAsk};
pub use calls::Groups;
pub use patch_model::GroupNo;
pub use patch_plans::MAX_GROUPS;
pub use refusals::{GroupRefusal, SyncRefusal};
pub use syncing::sync;

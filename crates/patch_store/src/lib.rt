//! A chunk store over a patch cache: a map on slots and frames, reclaimed, upgraded and opened.
//!
//! A [`Store`] is defined in `stores`. [`make`], in `making`, gives the blocks of a new disk; `open` is in `opening`, with
//! the slots in `scanning`. Its calls stand by themselves: `get` in `getting`, `put` in `putting`, `delete` in `deleting`,
//! `reclaim` in `reclaiming`, `upgrade` in `upgrading`, those of groups in `grouping`, `send` and `complete` in `sending`.
//! `reclaim_some`, in `stepping`, reclaims in steps: some first frames move, and [`Reclaimed`] tells whether others are left.
//! `run`, in `running`, goes through a list of commands, and `check`, in `checking`, reports what the store holds; [`Totals`] are in
//! `totals`, how the disk is divided in `looking`, and `next_key` and `previous_key`, in `listing`, go over the keys in order. [`flush`], in
//! `flushing`, brings all patches to the disk, and `renew`, in `renewing`, begins anew behind that.
//!
//! Which slot and which extent a frame takes is said in `choosing`, and how it is put and named in `framing`. Whether an
//! extent may be reclaimed is said in `reclaim_causes`: its live slots are tried on a `Trial` of the extents, as `trial_frames` does it,
//! before any frame moves. `moving` moves them.
//!
//! The types of these calls' arguments, answers and refusals can be named from here, whichever crate below they are of.
#![tactic(auto)]

mod checking;
mod choosing;
mod deleting;
mod flushing;
mod framing;
mod getting;
mod grouping;
pub mod laws;
mod listing;
mod looking;
mod making;
mod moving;
mod opening;
mod putting;
mod reclaim_causes;
mod reclaiming;
mod renewing;
mod reports;
mod running;
mod scanning;
mod sending;
mod stepping;
mod stores;
mod totals;
mod trial_frames;
mod trials;
mod upgrading;

pub use flushing::flush;
pub use making::make;
pub use patch_cache::{Done, Flight, FlushRefusal, Landed, Live};
pub use patch_frame::{Format, Geometry};
pub use patch_group::GroupRefusal;
pub use patch_history::{
    Command, DeleteRefusal, GetRefusal, MakeRefusal, OpenFault, PutRefusal, ReclaimRefusal, Reply,
    UpgradeRefusal,
};
pub use patch_index::{EntryReport, Key};
pub use patch_model::{BlockBytes, BlockNo, GroupNo, OutOfMemory, PatchNo, Step, WriterNo};
pub use reports::{ExtentReport, Report};
pub use stepping::Reclaimed;
pub use stores::Store;
pub use totals::Totals;

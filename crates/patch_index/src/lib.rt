//! The index of a store: what each slot says, in memory.
//!
//! An [`Index`], in `indexes`, has an [`Entry`] for each used slot, with its [`Key`]. The slots of an extent are a
//! [`LiveSlots`], a part of one of the orders that `searching` looks into; how many bytes their frames have is kept in
//! `live_sums`. What is reported of a slot is in `reports`. Which key comes next, and which one before, is found in `neighbours`.
#![tactic(auto)]

mod entries;
mod indexes;
mod keys;
mod live_slots;
mod live_sums;
mod neighbours;
mod reports;
mod searching;

pub use entries::{Entry, Key};
pub use indexes::{Index, MAX_SLOTS};
pub use live_slots::LiveSlots;
pub use reports::EntryReport;

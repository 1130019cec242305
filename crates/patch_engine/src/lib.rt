//! A patch cache, its groups and the writes that are out, in one handle: for storage engines that do their own input and output.
//!
//! An [`Engine`] is defined and opened in `engines`. `admit` and `evict` are in `paging`, `renew` in `renewing`, `patch` and `merge`
//! in `patching`, `read` and `without` in `reading`, `send` and `complete` in `writing`, and the calls of groups in `grouping`.
#![tactic(auto)]

mod engines;
mod grouping;
pub mod laws;
mod paging;
mod patching;
mod reading;
mod refusals;
mod renewing;
mod writing;

pub use engines::Engine;
pub use patch_cache::{
    AdmitRefusal, CreateRefusal, EvictRefusal, Live, MergeRefusal, ReadRefusal, SendRefusal,
    TakeRefusal,
};
pub use patch_group::GroupRefusal;
pub use patch_model::{BlockBytes, BlockNo, GroupNo, Mark, PatchNo, Undo, WriterNo};
pub use refusals::{OpenRefusal, Stranger, WithoutRefusal};

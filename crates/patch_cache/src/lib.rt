//! The patch cache: patches are made, merged, sent and completed over the blocks of a disk, in an order that a crash keeps.
//!
//! A [`Cache`] is defined and opened in `caches`. Its other calls stand by themselves: `of`, `admit` and `evict` in `paging`,
//! `bring` in `bringing`, `renew` in `renewing`, `create` in `creating`, `merge` in
//! `merging`, `send` in `sending`, `complete` in `completing`, `read` in `reading`, `view` in `views`, and `run`, with the answer
//! of each ask, in `running`.
#![tactic(auto)]

mod asks;
mod bringing;
mod caches;
mod completing;
mod creating;
mod flights;
mod flushing;
mod landing;
pub mod laws;
mod looking;
mod merging;
mod paging;
mod reading;
mod refusals;
mod renewing;
mod residents;
mod running;
mod sending;
mod views;
mod writes;

pub use asks::{Answer, Ask, Move};
pub use caches::Cache;
pub use flights::{Flight, Flights, Landed};
pub use landing::{TRIES, write_out_tried};
pub use patch_view::PutBackRefusal;
pub use refusals::{
    AdmitRefusal, BringRefusal, CreateRefusal, DeviceGaveUp, EvictRefusal, Fault, FlushRefusal,
    Live, MergeRefusal, ReadRefusal, SendRefusal, TakeRefusal, ViewRefusal,
};
pub use views::CacheView;
pub use writes::{Done, write_out};

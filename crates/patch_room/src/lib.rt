//! Puts that win room back by themselves, and when a disk has no room to win.
//!
//! [`put`], in `putting`, is the put of a store that wins an extent back where it finds none; which one is said in `choosing`. That
//! one seldom has to: behind a put that was done a few frames move out of the extent that is won back next, as `ahead` says, so
//! that it is empty before the current one is full. The laws, in `laws`, say why one reclaim is enough, and what is live on a disk
//! where none helps.
#![tactic(auto)]

mod ahead;
mod choosing;
pub mod laws;
mod putting;

pub use putting::put;

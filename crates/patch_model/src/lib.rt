//! The words of the patch cache: blocks, patches, steps and refusals, and the definitions that every contract cites.
#![tactic(auto)]

mod blocks;
mod ending;
pub mod laws;
mod limits;
mod lists;
mod names;
mod numbers;
mod patches;
mod piling;
mod refusals;
mod refuses;
mod runs;
mod steps;

pub use blocks::{BLOCK, BlockBytes};
pub use ending::Ending;
pub use limits::{MAX_BLOCKS, MAX_CACHED, MAX_LIVE, MAX_PATCHES, MAX_WRITER};
pub use lists::{Bytes, Items, Numbers};
pub use names::{Named, Names};
pub use numbers::{BlockNo, GroupNo, PatchNo, WriterNo};
pub use patches::{Mark, Patch, Undo};
pub use piling::pile;
pub use refusals::{OutOfMemory, Refusal, RefusalKind};
pub use refuses::Refuses;
pub use runs::Run;
pub use steps::{Step, Steps};

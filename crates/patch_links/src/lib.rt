//! The live classes of all blocks, with counts: how many of the numbers that a class depends on keep it out of its block's
//! ready set. Each step changes the counts that it touches, and no others.
#![tactic(auto)]

mod adding;
mod admitting;
mod asking;
mod blocks;
mod flying;
mod joining;
mod keys;
mod landing;
mod leaving;
mod links;
mod lists;
mod nodes;

pub use links::Links;
pub use nodes::{Class, Reach};

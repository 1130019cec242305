//! What a block keeps of a live class: the record of its members, its span, what they name, and the bytes that a take or a put back
//! exchanges.
//!
//! A record names no history and no place: it says whether its class rests on another one, what the two are as one, and what becomes of
//! its bytes and the block's.
#![tactic(auto)]

mod classes;
mod lists;
mod spans;

pub use classes::{Class, Drawn, Turn};
pub use lists::Lists;
pub use spans::swap_span;

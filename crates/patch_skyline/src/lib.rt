//! Which patch wrote each byte of a block last: a [`Skyline`] of spans.
#![tactic(auto)]

mod skylines;

pub use skylines::{Skyline, Span};

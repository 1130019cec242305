//! The classes of patches that are live, what each depends on, and which may be sent.
#![tactic(auto)]

mod adding;
mod between;
mod classes;
mod forgetting;
mod graphs;
pub mod laws;
mod mark_durable;
mod mark_flight;
mod marks;
mod merging;
mod newcomers;
mod queries;
mod ready;
mod register;
mod runs;
mod scratch;
mod searching;
mod skylines;

pub use classes::LiveClass;
pub use graphs::{Added, Graph};
pub use newcomers::Newcomer;

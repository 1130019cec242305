//! Numbers in an order that its user keeps: an [`Order`].
#![tactic(auto)]

mod orders;

pub use orders::{MOST, Order};

//! What the tests of several crates share: blocks of zeros, heaps that are full but for one hole, a device that refuses writes, and all
//! that a cut of the power may leave.
#![tactic(auto)]

mod blocks;
mod cuts;
mod devices;
mod heaps;

pub use blocks::zeros;
pub use cuts::{Event, cuts_of, device_behind};
pub use devices::StubbornDevice;
pub use heaps::{Ballast, HEAP, fill, hole_of};

//! What a store holds, as text: its keys in order, with the lengths of their values and the values themselves, and how full it is.
//!
//! [`list_disk`] and [`stat_disk`] open the store of any device, [`list_file`] and [`stat_file`] that of a file by its path, and answer how
//! that ended as the commands of `patch_disks` do. Nothing is written to a device.
#![tactic(auto)]

mod key_lines;
mod listing;
mod pictures;
mod statting;

pub use listing::{Wanted, list_disk, list_file};
pub use statting::{Detail, stat_disk, stat_file};

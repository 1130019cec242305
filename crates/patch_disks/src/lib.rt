//! A chunk store on a disk, in memory or in a file: how one is made, run on the script of one writer, checked and upgraded.
//!
//! Each command is a function over any reader, writer and device, and answers how it ended: [`run_script`], and [`run_script_in_room`], whose
//! puts win room back by themselves, [`check_disk`] and [`upgrade_disk`]. [`make_file`], [`run_file`], [`check_file`] and [`upgrade_file`] do
//! the same by the path of a file. Nothing is written to a device but by a store's flush. What the commands are made of is for others too:
//! [`read_script`], [`open_file`], [`open_file_to_read`], [`open_store`] and [`finish_device`], which answer why they [`Stop`], and the end of
//! the text by [`conclude`] or [`refuse`].
#![tactic(auto)]

mod answering;
mod checking;
mod endings;
mod making;
mod opening;
mod progress;
mod reading;
mod reporting;
mod running;
mod surveying;
mod upgrading;

pub use answering::Reclaims;
pub use checking::{check_disk, check_file};
pub use endings::{Status, Stop, Unread, conclude, refuse};
pub use making::make_file;
pub use opening::{Barriers, finish_device, open_file, open_file_to_read, open_store};
pub use progress::{Progress, Quiet, Ticker};
pub use reading::read_script;
pub use running::{run_file, run_script, run_script_in_room};
pub use surveying::{BadSlot, Survey, survey_blocks, survey_file};
pub use upgrading::{upgrade_disk, upgrade_file};

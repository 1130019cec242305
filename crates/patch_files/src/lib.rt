//! A chunk store in a file: how one is made, run on a script, checked and upgraded, and how several writers are served over one.
//!
//! What one thread does is that of `patch_disks`, and passed on here: [`run_script`], [`run_script_in_room`], [`check_disk`] and
//! [`upgrade_disk`] over any reader, writer and device, and [`make_file`], [`run_file`], [`check_file`], [`survey_file`] and [`upgrade_file`] by the path of a file.
//! [`serve_script`] runs a script of several writers, each on a thread of its own; it takes the device, and gives it back.
//! [`serve_file`] does so by the path of a file. [`run_or_serve`] is one call for one writer and for several. Nothing is written to
//! a device but by a store's flush, or by the threads that serve writers.
#![tactic(auto)]

mod jobs;
mod running;
mod serving;

pub use patch_disks::{
    BadSlot, Barriers, Progress, Quiet, Reclaims, Status, Survey, Ticker, check_disk, check_file,
    make_file, run_file, run_script, run_script_in_room, survey_file, upgrade_disk, upgrade_file,
};
pub use running::run_or_serve;
pub use serving::{Served, serve_file, serve_script};

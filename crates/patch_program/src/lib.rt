//! What `fstch` does, over any streams and files: what the words of a command line ask for, and how the program ends.
#![tactic(auto)]

mod arguments;
mod locking;
mod reading_files;
mod running;
mod saying;

pub use arguments::words;
pub use locking::{LockedFile, LockedFiles, Notes, Trouble};
pub use patch_listing::Detail;
pub use reading_files::ReadFiles;
pub use running::run;
pub use saying::Errors;

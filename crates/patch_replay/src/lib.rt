//! Replays of scripts: all of a script is read, then its lines are answered by a cache over a disk in memory.
#![tactic(auto)]

mod cached_disk;
mod cores;
mod endings;
pub mod laws;
mod line_answers;
mod replaying;
mod streams;

pub use cached_disk::CachedDisk;
pub use cores::Core;
pub use endings::{BadScript, Fault, Status};
pub use replaying::{read_input, replay, replay_over};
pub use streams::{MAX_READS, Output, Sink, Source};

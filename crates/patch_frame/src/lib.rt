//! The bytes of the disk: superblock, index slots, pointer records and frames, in both versions of the disk.
//!
//! Each format has one spelling, a definition of `specs/`, and a list of tests in their order. A reader is proved to accept
//! what is spelled, to give the fields that stand there, and to refuse everything else with the first test that fails; a
//! writer gives the spelling. `docs/DISK.md` has the tables.
#![tactic(auto)]

mod bytes;
mod faults;
mod framing;
mod geometries;
pub mod laws;
mod pointers;
mod runs;
mod slots;
mod superblock;

pub use bytes::is_zeros;
pub use faults::FrameFault;
pub use framing::{
    Frame, KEY_START, MAX_KEY, MAX_VALUE, MIN_FRAME, OVERHEAD, decode, decode_within, encode,
};
pub use geometries::{Format, Geometry, pointer_start, slot_block, slot_start};
pub use pointers::{
    MAX_POINTER, POINTER_BYTES, Pointer, read_pointer, read_pointer_within, write_pointer,
};
pub use runs::{FramesRefusal, frames, frames_within};
pub use slots::{MAX_FRAME, SLOT_BYTES, Slot, SlotState, read_slot, read_slot_within, write_slot};
pub use superblock::{read_superblock, write_superblock};

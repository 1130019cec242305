//! What the exports of a store and of a cache have in common: a box as its pointer, the numbers of answers, those of writers, and how
//! bytes are copied into a caller's buffer.
#![tactic(auto)]

mod answers;
mod copying;
mod raw_box;
mod writers;

pub use answers::{Answer, DONE, IS_OPEN, NOT_OPEN, refused, told};
pub use copying::copy_out;
pub use raw_box::RawBox;
pub use writers::{engaging_writer, patching_writer, writer_of};

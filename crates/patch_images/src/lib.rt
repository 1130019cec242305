//! A block's bytes without the classes that may be taken, kept beside the block, and what lies between the bytes that these saved.
#![tactic(auto)]

mod gaps;
mod images;

pub use gaps::Gap;
pub use images::{
    Image, copy_image, draw_unless_known, forget, forget_unless, gap_of_departing, keep_span,
    make_room, trim_gap, uncover_all,
};

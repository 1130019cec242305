//! What the index keeps of a used slot.
ghost use Rattle.std.specs.Prelude.{◌+◌, ◌≤◌};
ghost use Rattle.patch_frame.specs.declared.framing.TheConstants.{MAX_KEY, OVERHEAD};
ghost use Rattle.patch_frame.specs.declared.pointers.TheConstants.{MAX_POINTER};

use patch_frame::MAX_KEY;

/// A key of at most 32 bytes, in no memory of its own.
#[derive(Clone, Copy)]
pub struct Key {
    pub(crate) bytes: [u8; MAX_KEY],
    pub(crate) length: u32,
    ghost fits: { length ≤ MAX_KEY },
}

/// The frame of a key: where it stands, and how many bytes it has.
#[derive(Clone, Copy)]
pub struct Entry {
    pub key: Key,
    pub extent: u32,
    /// The generation of the extent when the frame was appended.
    pub generation: u32,
    pub offset: u32,
    pub length: u32,
    ghost within: { offset + length ≤ MAX_POINTER },
    ghost whole: { OVERHEAD + key.length ≤ length },
}

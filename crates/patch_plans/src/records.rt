//! What is kept of one extent.
use patch_frame::Pointer;
use patch_model::PatchNo;

/// An extent: its pointer record, the patch of its last reset, and the last patch of its pointer record, a reset's too.
#[derive(Clone, Copy)]
pub struct Extent {
    pub pointer: Pointer,
    pub reset: Option<PatchNo>,
    pub point: Option<PatchNo>,
}

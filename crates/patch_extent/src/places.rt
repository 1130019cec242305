//! Where bytes stand in the extents.
use patch_model::PatchNo;

/// Bytes of one extent. They can be read as long as the extent has its generation, which each reset raises.
#[derive(Clone, Copy, Debug, PartialEq, Eq)]
pub struct Place {
    pub extent: u32,
    pub generation: u32,
    /// Where in the extent they begin, in bytes.
    pub offset: u32,
    /// How many they are.
    pub len: u32,
}

/// What an append has made.
#[derive(Clone, Copy, Debug, PartialEq, Eq)]
pub struct Appended {
    /// Where the bytes stand.
    pub place: Place,
    /// The patch that moved the pointer past them. Who reaches it reaches them.
    pub pointer_patch: PatchNo,
    /// What came of its merge with the last patch of the record before it.
    pub merge: MergeOutcome,
}

/// What came of the merge of a pointer patch with the last patch of its record.
#[derive(Clone, Copy, Debug, PartialEq, Eq)]
pub enum MergeOutcome {
    /// They are of one class.
    Made,
    /// There is no patch before it, or they may not be merged.
    NotLegal,
    /// They may be merged, and there was no memory for it.
    NoMemory,
}

//! The forms of lines.
use patch_model::{BlockNo, Bytes, GroupNo, Numbers, PatchNo, Undo, WriterNo};

/// Some bytes of a block: `len` of them from `start` on, at least one.
#[derive(Clone, Copy, Debug, PartialEq, Eq)]
pub struct Span {
    pub block: BlockNo,
    pub start: u32,
    pub len: u32,
}

/// What a line asks for.
#[derive(Debug, Drop)]
pub enum Line {
    /// Make a patch.
    Patch {
        block: BlockNo,
        start: u32,
        bytes: Bytes,
        after: Numbers,
        undo: Undo,
        writer: WriterNo,
    },
    /// Make one class of those of two patches.
    Merge {
        a: PatchNo,
        b: PatchNo,
    },
    /// Begin a write of a block.
    Send(BlockNo),
    /// Write the image of the block's write under way to the device, and complete it.
    Complete(BlockNo),
    /// Take patches back in their order, put some of them back in theirs, and show the span.
    View {
        take: Numbers,
        back: Numbers,
        span: Span,
    },
    /// Show the cached bytes of the span.
    Show(Span),
    /// Show the bytes of the span that are on the device.
    Disk(Span),
    /// Make a group.
    Group,
    /// Let the writer's patches belong to the group from now on.
    Engage {
        writer: WriterNo,
        group: GroupNo,
    },
    /// End that.
    Disengage {
        writer: WriterNo,
        group: GroupNo,
    },
    /// Let the group depend on the other.
    Depend {
        group: GroupNo,
        on: GroupNo,
    },
    /// Let the group be none from now on.
    Close(GroupNo),
    /// Count the patches of the group that aren't on the disk yet.
    Pending(GroupNo),
    /// Bring all patches of the group to the disk.
    Sync(GroupNo),
}

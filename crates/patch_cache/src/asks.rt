//! What is asked of a cache, and what it answers.
ghost use Rattle.std.specs.Prelude.{◌≡◌};
ghost use Rattle.patch_cache.specs.Asks.{ask_of, block_named};

use patch_model::{BlockBytes, BlockNo, Bytes, Items, Numbers, PatchNo, Refusal, Undo};
use std::alloc::{Allocator, Global};

/// A move of a view: the class of a patch is taken back, or put back.
#[derive(Clone, Copy, Debug, PartialEq, Eq)]
pub enum Move {
    Take(PatchNo),
    Back(PatchNo),
}

/// An ask of a list that [`run`](crate::Cache::run) goes through.
#[derive(Debug, Drop)]
pub enum Ask<A: Allocator = Global> {
    /// To make a patch.
    Create {
        block: BlockNo,
        start: usize,
        bytes: Bytes<A>,
        after: Numbers<A>,
        undo: Undo,
    },
    /// To make one class of those of two patches.
    Merge {
        a: PatchNo,
        b: PatchNo,
    },
    /// To begin a write of a block, and hold its flight.
    Send {
        block: BlockNo,
    },
    /// To write the held flight of a block out, and complete it.
    Complete {
        block: BlockNo,
    },
    /// To look at `len` bytes of a block from `start` on, without the classes that the moves leave taken.
    View {
        block: BlockNo,
        moves: Items<Move, A>,
        start: usize,
        len: usize,
    },
}

impl<A: Allocator> Ask<A> {
    /// The block that it names.
    pub(crate) fn block(&self) -> Option<BlockNo>
        ensures { result ≡ block_named (ask_of self.now) }
    {
        match self {
            Ask::Create { block, .. } => Some(*block),
            Ask::Send { block } => Some(*block),
            Ask::View { block, .. } => Some(*block),
            Ask::Merge { .. } => None,
            Ask::Complete { .. } => None,
        }
    }
}

/// What an ask is answered.
#[derive(Debug, Drop)]
pub enum Answer<A: Allocator = Global> {
    /// The number of the patch that was made.
    Made(PatchNo),
    /// The name of the merged class.
    Merged(PatchNo),
    /// The patches in the write, rising, and the bytes that go to the disk.
    Sent {
        block: BlockNo,
        numbers: Numbers<A>,
        image: BlockBytes<A>,
    },
    /// The patches that the write made durable, rising.
    Landed {
        block: BlockNo,
        numbers: Numbers<A>,
    },
    /// The bytes of the span without the classes that were taken, and with them.
    Seen {
        without: Bytes<A>,
        cached: Bytes<A>,
    },
    Refused(Refusal),
}

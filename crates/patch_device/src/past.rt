//! What became of a file, as proofs alone see it.
ghost use Rattle.std.specs.Prelude.{◌≡◌, ℕ, List, [], ◌∷◌, ◌++◌, Some, None};
ghost use base.Fml.{ftrue};
ghost use Rattle.patch_device.specs.Blocks.{zeros};
ghost use Rattle.patch_device.specs.Cuts.{Event};
ghost use Rattle.patch_device.specs.FilePast.{blocks_coded, events_coded};

use patch_model::{BLOCK, BlockBytes};
use std::marker::Model;

/// What a file held when it was opened, and what was done to it since. It takes no memory: no code reads it, and ghost fields have it.
#[derive(Drop)]
pub(crate) struct FilePast {
    pub(crate) ghost first: { List (List ℕ) } by { blocks_coded },
    pub(crate) ghost events: { List Event } by { events_coded },
}

impl Model for FilePast {
    ghost also_owns = { λ _. ftrue };
}

/// The blocks that were read from a file.
#[derive(Drop)]
pub(crate) struct Found {
    pub(crate) blocks: Vec<BlockBytes>,
}

/// How many blocks of zeros were written to a new file.
#[derive(Drop)]
pub(crate) struct Filled {
    pub(crate) count: u32,
}

/// A write, and what became of its file before.
#[derive(Drop)]
pub(crate) struct Writing {
    pub(crate) past: FilePast,
    pub(crate) n: u32,
    pub(crate) bytes: [u8; BLOCK],
}

impl FilePast {
    /// The premise of a file that was read: it holds what was found in it.
    pub(crate) fn of(_found: &Found) -> FilePast
        ensures { (result.first ≡ _found.now.blocks.items) × (result.events ≡ []) }
    {
        FilePast {}
    }

    /// The premise of a new file: it holds the zeros that were written to it and synced.
    pub(crate) fn of_zeros(_filled: &Filled) -> FilePast
        ensures { (result.first ≡ zeros _filled.now.count) × (result.events ≡ []) }
    {
        FilePast {}
    }

    /// The same.
    pub(crate) fn same(&self) -> FilePast
        ensures { (result.first ≡ self.now.first) × (result.events ≡ self.now.events) }
    {
        FilePast {}
    }

    /// And the write.
    pub(crate) fn behind_write(_writing: &Writing) -> FilePast
        ensures { (result.first ≡ _writing.now.past.first) × (result.events ≡ _writing.now.past.events ++ Some (_writing.now.n, _writing.now.bytes) ∷ []) }
    {
        FilePast {}
    }

    /// And a sync.
    pub(crate) fn behind_sync(&self) -> FilePast
        ensures { (result.first ≡ self.now.first) × (result.events ≡ self.now.events ++ None ∷ []) }
    {
        FilePast {}
    }
}

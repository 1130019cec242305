//! What a file holds, as proofs alone see it.
ghost use Rattle.std.specs.Prelude.{◌≡◌, ℕ, List};
ghost use base.Fml.{ftrue};
ghost use Rattle.patch_c.specs.CodedBlocks.{blocks_coded};

use crate::file_blocks::Given;
use std::marker::Model;

/// The blocks that a file holds. They take no memory: no code reads them, and a ghost field has them.
#[derive(Drop)]
pub struct HeldBlocks {
    pub ghost blocks: { List (List ℕ) } by { blocks_coded },
}

impl Model for HeldBlocks {
    ghost also_owns = { λ _. ftrue };
}

impl HeldBlocks {
    /// The blocks that were given.
    pub fn of(_given: &Given) -> HeldBlocks
        ensures { result.blocks ≡ _given.now.blocks.items }
    {
        HeldBlocks {}
    }
}

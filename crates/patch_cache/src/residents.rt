//! What a cache keeps of a block that is resident.
use crate::writes::Write;
use patch_model::BlockBytes;
use patch_view::BlockState;
use std::alloc::{Allocator, Global};
use std::marker::Model;

/// A resident block: its bytes and records, and its write under way.
#[derive(Drop)]
pub(crate) struct Resident<A: Allocator = Global> {
    pub(crate) state: BlockState<A>,
    pub(crate) write: Option<Write<A>>,
}

impl<A: Allocator> Model for Resident<A> {
    ghost use Rattle.patch_cache.specs.Contents.{Resident as Seen};

    ghost Value = { Seen };

    ghost view = { λ r. record { state = r.state; write = r.write } };
}

impl<A: Allocator> Resident<A> {
    ghost use Rattle.std.specs.Prelude.{◌≡◌, [], None};
    ghost use Rattle.patch_view.specs.History.{unpatched};
    ghost use Rattle.patch_view.specs.Meaning.{IsBlockOf};

    /// A block of these bytes, with no patch and no write under way.
    pub(crate) fn of(alloc: A, bytes: BlockBytes<A>) -> Resident<A>
        ensures state { IsBlockOf result.state [] (unpatched bytes) }
        ensures write { result.write ≡ None }
    {
        Resident {
            state: BlockState::of(alloc, bytes),
            write: None,
        }
    }
}

//! What a cache accepted.
ghost use Rattle.std.specs.Prelude.{◌≡◌, map};

use crate::lists::Bytes;
use crate::names::Names;
use crate::numbers::{BlockNo, PatchNo};
use crate::patches::Undo;
use std::alloc::{Allocator, Global};
use std::marker::Model;

/// A step that a cache accepted. A `Create` makes the patch of the next number; a `Send` begins a write of what is ready
/// of the block, and a `Complete` ends it.
#[derive(Debug, Drop)]
pub enum Step<A: Allocator = Global> {
    Create {
        block: BlockNo,
        start: usize,
        bytes: Bytes<A>,
        after: Names<A>,
        undo: Undo,
    },
    Merge {
        a: PatchNo,
        b: PatchNo,
    },
    Send {
        block: BlockNo,
    },
    Complete {
        block: BlockNo,
    },
}

/// Some steps, the oldest first. To contracts it is the list of them.
#[derive(Debug, Drop)]
pub struct Steps<A: Allocator = Global> {
    steps: Vec<Step<A>, A>,
}

impl<A: Allocator> Model for Steps<A> {
    ghost use Rattle.std.specs.Prelude.{List, map};
    ghost use Rattle.patch_model.specs.Step.{Step as TheStep};

    ghost Value = { List TheStep };

    ghost use Rattle.patch_model.specs.StepOf.{step_of};

    ghost view = { λ s. map step_of s.steps.items };
}

impl<A: Allocator> Steps<A> {
    ghost use Rattle.patch_model.specs.StepOf.{step_of};

    /// The steps of a vector. It takes no memory.
    pub fn from_vec(steps: Vec<Step<A>, A>) -> Steps<A>
        ensures { result ≡ map step_of steps.items }
    {
        Steps { steps }
    }

    /// The vector that holds the steps. It takes no memory.
    pub fn into_vec(self) -> Vec<Step<A>, A>
        ensures { map step_of result.items ≡ self }
    {
        let Steps { steps } = self;
        steps
    }

    /// The steps, lent in order.
    pub fn as_slice(&self) -> &[Step<A>]
        ensures { map step_of result.now ≡ self.now }
    {
        &self.steps
    }
}

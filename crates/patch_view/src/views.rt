//! A block lent with classes to be taken back, which has to be put right again.
ghost use Rattle.std.specs.Prelude.{◌≡◌, length, OnErr};
ghost use Rattle.patch_stacks.specs.State.{outline};
ghost use Rattle.patch_view.specs.View.{seen_by, borrow_of};
ghost use Rattle.patch_view.specs.Answers.{AnswersTake, AcceptsTake, AnswersPutBack, AcceptsPutBack, TakesAll, PutsAllBack, IsAsBefore, Shows};

use crate::states::BlockState;
use patch_model::{BLOCK, Ending, PatchNo};
use patch_stacks::{PutBackRefusal, TakeRefusal};
use std::alloc::{Allocator, Global};

/// A view of a block, of which classes are taken back for a while. [`restore`](BlockView::restore) alone spends it: a view
/// cannot be let go, so no block stays as a view left it.
pub struct BlockView<'a, A: Allocator = Global> {
    state: &'a mut BlockState<A>,
}

impl<'a, A: Allocator> Ending for BlockView<'a, A> {}

impl<A: Allocator> BlockState<A> {
    /// Lends the block as a view. It takes no memory, nor do the view's calls.
    pub fn view(&mut self) -> BlockView<'_, A>
        ensures same_reference { borrow_of result ≡ self.entry.ghost_name }
        ensures same { seen_by result ≡ self.old }
    {
        BlockView { state: self }
    }
}

impl<'a, A: Allocator> BlockView<'a, A> {
    /// Takes the class of this patch back.
    pub fn take(&mut self, no: PatchNo) -> Result<(), TakeRefusal>
        ensures same_reference { borrow_of self.new ≡ borrow_of self.old }
        ensures answer { AnswersTake (seen_by self.old) no (seen_by self.new) result }
        ensures accepted { AcceptsTake (seen_by self.old) no result }
        ensures outline { outline (seen_by self.new) ≡ outline (seen_by self.old) }
        ensures refused { OnErr result (seen_by self.new ≡ seen_by self.old) }
    {
        self.state.take(no)
    }

    /// Puts the class of this patch back.
    pub fn put_back(&mut self, no: PatchNo) -> Result<(), PutBackRefusal>
        ensures same_reference { borrow_of self.new ≡ borrow_of self.old }
        ensures answer { AnswersPutBack (seen_by self.old) no (seen_by self.new) result }
        ensures accepted { AcceptsPutBack (seen_by self.old) no result }
        ensures outline { outline (seen_by self.new) ≡ outline (seen_by self.old) }
        ensures refused { OnErr result (seen_by self.new ≡ seen_by self.old) }
    {
        self.state.put_back(no)
    }

    /// Takes every class back that is in memory and not hard, in one pass over the records. The condition is that together
    /// they hold their dependents.
    pub fn take_all(&mut self)
        ensures same_reference { borrow_of self.new ≡ borrow_of self.old }
        ensures answer { TakesAll (seen_by self.old) (seen_by self.new) }
        ensures outline { outline (seen_by self.new) ≡ outline (seen_by self.old) }
    {
        self.state.take_all();
    }

    /// The block's bytes without the classes that are taken.
    pub fn bytes(&self) -> &[u8]
        ensures length { length result.now ≡ BLOCK }
        ensures answer { Shows (seen_by self.now) result.now }
    {
        self.state.bytes()
    }

    /// Puts every class back, and spends the view.
    pub fn restore(self)
        ensures answer { PutsAllBack (seen_by self.entry) self.exit.0.now }
        ensures outline { outline self.exit.0.now ≡ outline (seen_by self.entry) }
        ensures as_before { IsAsBefore (seen_by self.entry) self.exit.0.now }
    {
        let BlockView { state } = self;
        state.put_all_back();
    }
}

//! One block with its patches, of which classes are taken back and put back. What the calls do to the records is said by their
//! [`Stack`]; here is what that means for the block's history.
ghost use Rattle.std.specs.Prelude.{◌≡◌, length, [], OnErr};
ghost use Rattle.patch_model.specs.History.{History, cached as the_cached};
ghost use Rattle.patch_stacks.specs.State.{outline};
ghost use Rattle.patch_view.specs.Meaning.{IsBlockOf};
ghost use Rattle.patch_view.specs.Answers.{AnswersTake, AcceptsTake, AnswersPutBack, AcceptsPutBack, TakesAll, ShowsTaken, PutsAllBack, IsAsBefore, Shows, TellsClear};

use patch_model::{BLOCK, PatchNo};
use patch_stacks::{PutBackRefusal, Stack, TakeRefusal};
use std::alloc::{Allocator, Global};
use std::marker::Model;

/// One block's bytes, and a record of each live class: its members, its span, what its members name, whether it is in
/// flight, and the bytes that a take or a put back exchanges (a hard class and one in flight keep none).
///
/// `take`, `put_back` and `put_all_back` are what a [`BlockView`](crate::BlockView) does, public for the views of a cache,
/// which cannot hold one: whoever calls them puts all back. Between them the block is one of which
/// `IsBlockOf state taken history` speaks. The calls that change the records (`lay`, `lay_if`, `join`, `join_by`,
/// `depart`, `depart_each`, `land`, `land_each`) are for a block of which nothing is taken.
#[derive(Drop)]
pub struct BlockState<A: Allocator = Global> {
    pub(crate) stack: Stack<A>,
}

impl<A: Allocator> Model for BlockState<A> {
    ghost use Rattle.patch_stacks.specs.State.{Block};

    ghost Value = { Block };

    ghost view = { λ s. s.stack };
}

impl<A: Allocator> BlockState<A> {
    /// Takes the class of this patch back, whose number is any member's. The bytes are then the block's without it and
    /// without what was taken before. It looks at the records above it one after another, exchanges the span's bytes, and takes no memory.
    /// It is public for the views of a cache, which put all back at their end; elsewhere a [`view`](BlockState::view) does it.
    pub fn take(&mut self, no: PatchNo) -> Result<(), TakeRefusal>
        ensures answer { AnswersTake self.old no self.new result }
        ensures accepted { AcceptsTake self.old no result }
        ensures outline { outline self.new ≡ outline self.old }
        ensures refused { OnErr result (self.new ≡ self.old) }
    {
        self.stack.take(no)
    }

    /// Puts the class of this patch back, whose number is any member's. It takes no memory. It is public for the views of a
    /// cache, as [`take`](BlockState::take) is.
    pub fn put_back(&mut self, no: PatchNo) -> Result<(), PutBackRefusal>
        ensures answer { AnswersPutBack self.old no self.new result }
        ensures accepted { AcceptsPutBack self.old no result }
        ensures outline { outline self.new ≡ outline self.old }
        ensures refused { OnErr result (self.new ≡ self.old) }
    {
        self.stack.put_back(no)
    }

    /// Takes every class back that is in memory and not hard, in one pass downwards over the records: what a send does that
    /// leaves them behind. It comes to the same as the takes one by one. The condition is that together they hold their
    /// dependents.
    pub(crate) fn take_all(&mut self)
        ensures answer { TakesAll self.old self.new }
        ensures outline { outline self.new ≡ outline self.old }
    {
        self.stack.take_all();
    }

    /// Takes every class that is in memory and not hard from a copy of the block's bytes: what a send writes that leaves them
    /// behind. Where the image is known it is copied, else it takes one pass downwards over the records. The block stays as it is, and
    /// no memory is taken. The condition is that together they hold their dependents.
    pub fn take_all_from(&self, copy: &mut [u8])
        requires { copy.old ≡ self.now.bytes }
        ensures answer { ShowsTaken self.now copy.new }
        ensures length { length copy.new ≡ BLOCK }
    {
        self.stack.take_all_from(copy);
    }

    /// Puts every class back, in one pass upwards over the records from the lowest that is taken to the highest: bytes and
    /// records are as before the first take. It is how a cache's view ends; none of the calls that change the records comes
    /// between the first take and it.
    pub fn put_all_back(&mut self)
        ensures answer { PutsAllBack self.old self.new }
        ensures outline { outline self.new ≡ outline self.old }
        ensures as_before { IsAsBefore self.old self.new }
    {
        self.stack.put_all_back();
    }

    /// The block's bytes with all its patches, where nothing is taken.
    pub fn cached(&self) -> &[u8]
        ensures value { result.now ≡ self.now.bytes }
        ensures length { length result.now ≡ BLOCK }
        ensures answer { (h : History) → IsBlockOf self.now [] h → result.now ≡ the_cached h }
    {
        self.bytes()
    }

    /// The block's bytes without the classes that are taken.
    pub fn bytes(&self) -> &[u8]
        ensures value { result.now ≡ self.now.bytes }
        ensures length { length result.now ≡ BLOCK }
        ensures answer { Shows self.now result.now }
    {
        self.stack.bytes()
    }

    /// Whether all of the block's patches are durable. It looks at no record.
    pub fn is_clear(&self) -> bool
        ensures answer { TellsClear self.now result }
    {
        self.stack.is_empty()
    }
}

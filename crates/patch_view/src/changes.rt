//! What becomes of a block's history as patches are made, merged, sent and completed.
ghost use Rattle.std.specs.Prelude.{◌≡◌, ◌+◌, ◌≤◌, length, map, [], IfOk, OnOk, OnErr, ℕ, None, true, false};
ghost use Rattle.std.specs.Fn.{FnOnceTakesAtMut};
ghost use Rattle.std.specs.List.Sorted.{IsNonDecreasing};
ghost use Rattle.patch_model.specs.declared.patches.Mark.TheVariants.{Flight, Durable};
ghost use Rattle.patch_model.specs.Entry.{Entry, is_memory};
ghost use Rattle.patch_model.specs.History.{History};
ghost use Rattle.patch_model.specs.Names.{numbers_named};
ghost use Rattle.patch_model.specs.Orderly.{IsOrderlyBlock};
ghost use Rattle.patch_model.specs.State.{landed};
ghost use Rattle.patch_stacks.specs.State.{IsLaid, with_departed, HasDeparted, with_one_departed, with_one_landed, with_landed, IsJoint, has_places};
ghost use Rattle.patch_stacks.specs.Changes.{Enters};
ghost use Rattle.patch_view.specs.History.{unpatched, MayLand, with_mark};
ghost use Rattle.patch_view.specs.Meaning.{IsBlockOf};
ghost use Rattle.patch_view.specs.Answers.{IsPatch};
ghost use Rattle.patch_view.specs.Changes.{Lays, JoinsBy, Joins, DepartsEach};

use crate::states::BlockState;
use patch_model::{BLOCK, BlockBytes, Named, OutOfMemory, PatchNo};
use patch_stacks::{Joint, Stack};
use std::alloc::Allocator;

impl<A: Allocator> BlockState<A> {
    /// A block of these bytes with no patch yet; its records take their memory from `alloc`.
    pub fn of(alloc: A, first: BlockBytes<A>) -> BlockState<A>
        ensures { IsBlockOf result [] (unpatched first) }
    {
        BlockState {
            stack: Stack::of(alloc, first),
        }
    }

    /// Lays a patch on the block, in memory and a class of its own, with the bytes that are kept of it: of a hard one none. Its
    /// number is above those of the block's other patches, its bytes are at least one, and what it names was made before it: that it names a
    /// patch which is laid only later may be forgotten. Without memory nothing is changed.
    pub fn lay(
        &mut self,
        no: PatchNo,
        start: usize,
        bytes: &[u8],
        after: &[PatchNo],
        hard: bool,
    ) -> Result<(), OutOfMemory>
    where
        A: Clone,
        requires { start + length bytes.now ≤ BLOCK }
        ensures answer { Lays self.old no start bytes.now after.now hard result self.new }
        ensures laid { OnOk result (IsLaid self.old no start bytes.now after.now hard self.new) }
        ensures refused { OnErr result (self.new ≡ self.old) }
    {
        let after = Named::Listed(after);
        self.lay_if(no, start, bytes, after, hard, &mut (), |_| Ok(()))
    }

    /// Lays a patch as [`lay`](BlockState::lay) does, once it is entered elsewhere: `enter` is called when the block has all the
    /// memory that it needs, and where it lacks memory itself, nothing is changed here.
    pub fn lay_if<V, F>(
        &mut self,
        no: PatchNo,
        start: usize,
        bytes: &[u8],
        after: Named<'_>,
        hard: bool,
        other: &mut V,
        enter: F,
    ) -> Result<(), OutOfMemory>
    where
        A: Clone,
        F: FnOnce(&mut V) -> Result<(), OutOfMemory> + Drop,
        requires fits { start + length bytes.now ≤ BLOCK }
        requires callable { FnOnceTakesAtMut F.FnOnce enter other.old }
        ensures answer { Lays self.old no start bytes.now (numbers_named after.entry) hard result self.new }
        ensures laid { OnOk result (IsLaid self.old no start bytes.now (numbers_named after.entry) hard self.new) }
        ensures refused { OnErr result (self.new ≡ self.old) }
        ensures entered { Enters F.FnOnce enter other.old result other.new }
    {
        self.stack
            .lay_if(no, start, bytes, after, hard, other, enter)
    }

    /// Puts the class of this patch, which is in memory, in flight. Its saved bytes go. A number of no live class changes
    /// nothing.
    pub fn depart(&mut self, no: PatchNo)
        ensures exact { self.new ≡ with_one_departed self.old no }
        ensures answer { (h : History) (e : Entry) → IsBlockOf self.old [] h → IsPatch h no e → is_memory e ≡ true
            → IsBlockOf self.new [] (with_mark h Flight e.class) }
    {
        self.stack.depart(no);
    }

    /// Draws up the classes of two patches as one. Both may be taken back, their spans meet or touch, and no third class lies
    /// on a path from one to the other. None where they aren't two classes of the block. The lists of the higher class go
    /// behind the lower one's where these have room for them, and rise then: that copies the higher class's numbers alone, when
    /// the joint is put in place; and where the lower class saved the bytes of both, it takes no memory. Else a merge copies the numbers
    /// of both, and makes room for as many again.
    pub fn joint(&self, a: PatchNo, b: PatchNo) -> Result<Option<Joint<A>>, OutOfMemory>
    where
        A: Clone,
        ensures { IfOk result (λ joint. IsJoint self.now a b joint) }
    {
        self.stack.joint(a, b)
    }

    /// Puts a joint that was drawn up of this block in place. It takes no memory, and changes no byte. No joint changes nothing,
    /// nor does one of places that the block hasn't.
    pub fn join_by(&mut self, joint: Option<Joint<A>>)
        ensures elsewhere { has_places self.old joint ≡ false → self.new ≡ self.old }
        ensures bytes { self.new.bytes ≡ self.old.bytes }
        ensures answer { JoinsBy self.old joint self.new }
    {
        self.stack.join_by(joint);
    }

    /// Makes the classes of two patches one, under the lesser name. Both may be taken back, their spans meet or touch, and no
    /// third class lies on a path from one to the other. Without memory nothing is changed, nor where they aren't two classes of the
    /// block; and no byte of the block in any case.
    pub fn join(&mut self, a: PatchNo, b: PatchNo) -> Result<(), OutOfMemory>
    where
        A: Clone,
        ensures answer { Joins self.old a b result self.new }
        ensures one_class { IsJoint self.old a b None → self.new ≡ self.old }
        ensures bytes { self.new.bytes ≡ self.old.bytes }
        ensures refused { OnErr result (self.new ≡ self.old) }
    {
        let joint = self.joint(a, b)?;
        self.join_by(joint);
        Ok(())
    }

    /// Puts in flight each class that has one of these numbers, which rise, as its name. The classes are in memory. Of few
    /// numbers each is searched for; of many, or where one isn't found at once, each record is looked at. Of numbers that don't rise
    /// some may be overlooked; no class departs whose name isn't among them.
    pub fn depart_each(&mut self, numbers: &[PatchNo])
        ensures exact { IsNonDecreasing numbers.now → self.new ≡ with_departed self.old numbers.now }
        ensures named { HasDeparted numbers.now self.old self.new }
        ensures answer { DepartsEach self.old numbers.now self.new }
    {
        self.stack.depart_each(numbers);
    }

    /// Makes the class of this patch durable: its record goes. The class is in flight, and no class of the block on which it
    /// depends directly is in memory. A number of no live class changes nothing.
    pub fn land(&mut self, no: PatchNo)
        ensures exact { self.new ≡ with_one_landed self.old no }
        ensures answer { (h : History) (e : Entry) → IsBlockOf self.old [] h → IsPatch h no e → MayLand h e.class
            → IsBlockOf self.new [] (with_mark h Durable e.class) }
    {
        self.stack.land(no);
    }

    /// Makes each class in flight durable: their records go. Where those in flight stand one upon another, or close together, it looks
    /// at no other record; else at each of them once.
    pub fn land_each(&mut self)
        ensures exact { self.new ≡ with_landed self.old }
        ensures answer { (h : History) (block : ℕ) → IsBlockOf self.old [] h → IsOrderlyBlock h block
            → IsBlockOf self.new [] (record h { entries = map (landed block) h.entries }) }
    {
        self.stack.land_each();
    }
}

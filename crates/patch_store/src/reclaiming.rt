//! How an extent is won back.
ghost use Rattle.std.specs.Prelude.{ℕ, ◌≡◌, ◌≢◌, IfErr};
ghost use Rattle.patch_history.specs.declared.refusals.ReclaimRefusal.TheVariants as reclaim;
ghost use Rattle.patch_history.specs.Command.{Reclaim, Done};
ghost use Rattle.patch_history.specs.Refusals.{reclaim_cause};
ghost use Rattle.patch_history.specs.Refusing.{is_current};
ghost use Rattle.patch_store.specs.Meaning.{Answers};
ghost use Rattle.patch_store.specs.Moving.{EmptiesExtent};
ghost use Rattle.patch_store.specs.Replies.{reply_to};

use crate::laws::laws_below;
use crate::stores::Store;
use patch_history::ReclaimRefusal;
use patch_model::OutOfMemory;
use std::alloc::Allocator;

impl<A: Allocator + Copy> Store<A> {
    /// Wins an extent back: its live frames move elsewhere, in order of offset, and it is emptied. Each key keeps its value,
    /// whatever of it reaches the disk: a slot names the new place behind the frame's bytes there, and the extent is emptied
    /// behind all slots that left it. All patches are counted before the first is made; they are of no writer and no group.
    ///
    /// Where memory runs out some first frames may have moved. The extent is as it was then, but for what left it.
    pub fn reclaim(&mut self, extent: u32) -> Result<(), ReclaimRefusal>
        ensures answer { (writer : ℕ) → Answers writer (Reclaim extent) (reply_to reclaim_cause (λ _. Done) result) self.old self.new }
        ensures refused { IfErr result (λ refusal. refusal ≢ reclaim.OutOfMemory → self.new ≡ self.old) }
    {
        laws_below();
        let slots = self.slots_to_move(extent)?;
        let Ok(()) = self.move_frames(&slots, slots.len()) else {
            return Err(ReclaimRefusal::OutOfMemory);
        };
        let Ok(()) = self.empty_extent(extent) else {
            return Err(ReclaimRefusal::OutOfMemory);
        };
        Ok(())
    }

    /// Empties an extent that no slot names any more, behind the slot patches that left it. Puts don't append to it then.
    pub(crate) fn empty_extent(&mut self, extent: u32) -> Result<(), OutOfMemory>
        ensures { EmptiesExtent extent result self.old self.new }
    {
        // Never so in a store that represents a history: the extent is one of the disk. Of no other is anything promised.
        let Some(left) = self.left.get_mut(extent as usize) else {
            return Err(OutOfMemory);
        };
        let Ok(_) = self.extents.reset(&mut self.cache, extent, left.as_slice()) else {
            return Err(OutOfMemory);
        };
        left.clear();
        if self.puts_append_to(extent) {
            self.current = None;
        }
        Ok(())
    }

    /// Whether the extent is the current one.
    fn puts_append_to(&self, extent: u32) -> bool
        ensures { result ≡ is_current self.now.shelf extent }
    {
        match self.current {
            Some(current) => current == extent,
            None => false,
        }
    }
}

//! How an extent is won back in steps.
ghost use Rattle.std.specs.Prelude.{ℕ, ◌≡◌, ◌≢◌, drop, Ok, IfOk, IfErr, OnOk};
ghost use Rattle.patch_history.specs.declared.refusals.ReclaimRefusal.TheVariants as reclaim;
ghost use Rattle.patch_history.specs.Choosing.{live_frames};
ghost use Rattle.patch_history.specs.Command.{Reclaim};
ghost use Rattle.patch_history.specs.History.{History};
ghost use Rattle.patch_store.specs.declared.stepping.Reclaimed.TheVariants as reclaimed;
ghost use Rattle.patch_store.specs.Meaning.{Answers, IsStoreOf};
ghost use Rattle.patch_store.specs.Moving.{HasMovedWithin};
ghost use Rattle.patch_store.specs.Stepping.{reply_of_some, told_of};

use crate::laws::laws_below;
use crate::stores::Store;
use patch_history::ReclaimRefusal;
use std::alloc::Allocator;

/// What has become of an extent of which some frames moved.
#[derive(Clone, Copy, Debug, PartialEq, Eq)]
pub enum Reclaimed {
    /// None of its live frames is left there, and it is empty.
    Emptied,
    /// So many first ones have moved as were asked for, which may be none, and others are left.
    Begun,
}

impl<A: Allocator + Copy> Store<A> {
    /// Moves the first live frames of an extent elsewhere, at most so many, and empties it where no other is left. Called again it
    /// goes on with the others, so that no call has to move a whole extent. Each key keeps its value, as in a whole reclaim, and
    /// wherever it stops the store opens from its disk. Where `most` is 0 no frame moves, and the extent is emptied only if it has no
    /// live frame.
    ///
    /// It is refused where the whole reclaim would be, before anything moves. A step that leaves some frames is told as a reclaim
    /// that was given up there; where memory runs out fewer may have moved. Unless it empties the extent it makes nothing but some
    /// first patches of the moves of at most so many frames.
    pub fn reclaim_some(&mut self, extent: u32, most: usize) -> Result<Reclaimed, ReclaimRefusal>
        ensures answer { (writer : ℕ) → Answers writer (Reclaim extent) (reply_of_some result) self.old self.new }
        ensures refused { IfErr result (λ refusal. refusal ≢ reclaim.OutOfMemory → self.new ≡ self.old) }
        ensures told { IfOk result (λ reclaimed. reclaimed ≡ told_of most (live_frames self.old.shelf extent)) }
        ensures moved { (h : History) → IsStoreOf self.old h
            → OnOk result (live_frames self.new.shelf extent ≡ drop most (live_frames self.old.shelf extent)) }
        ensures within { (h : History) → IsStoreOf self.old h → result ≢ Ok reclaimed.Emptied → HasMovedWithin h extent most self.new }
    {
        laws_below();
        let slots = self.slots_to_move(extent)?;
        let count = slots.len().min(most);
        let Ok(()) = self.move_frames(&slots, count) else {
            return Err(ReclaimRefusal::OutOfMemory);
        };
        if count < slots.len() {
            return Ok(Reclaimed::Begun);
        }
        let Ok(()) = self.empty_extent(extent) else {
            return Err(ReclaimRefusal::OutOfMemory);
        };
        Ok(Reclaimed::Emptied)
    }
}

//! How writes of the store's blocks begin and end.
ghost use Rattle.std.specs.Prelude.{◌≡◌, None, IfOk, IfErr, OnErr, Contains};
ghost use Rattle.patch_model.specs.State.{state_of};
ghost use Rattle.patch_history.specs.History.{History, execution_of};
ghost use Rattle.patch_store.specs.Laws.{ClosedDisksOpen, CrashDisksOpen};
ghost use Rattle.patch_store.specs.Meaning.{IsStoreOf};
ghost use Rattle.patch_store.specs.Sending.{HasSent, HasEnded};

use crate::laws;
use crate::stores::Store;
use patch_cache::{Done, Flight, Landed};
use patch_history::laws as history_laws;
use patch_model::OutOfMemory;
use std::alloc::Allocator;

impl<A: Allocator + Copy> Store<A> {
    /// Begins a write of the least block of which one can begin, if there is one. The flight holds the block's image; the
    /// device is written from it with nothing of the store held. What a crash leaves then opens, whether the write lands or not.
    pub fn send(&mut self) -> Result<Option<Flight<A>>, OutOfMemory>
        ensures sent { (h : History) → IsStoreOf self.old h → IfOk result (λ sent. HasSent h sent self.old self.new) }
        ensures none { IfOk result (λ sent. sent ≡ None → self.new ≡ self.old) }
        ensures refused { OnErr result (self.new ≡ self.old) }
        ensures closed { ClosedDisksOpen }
        ensures crash { CrashDisksOpen }
    {
        laws::closed_disks_open();
        history_laws::histories_extend();
        let Some(block) = self.cache.next_ready() else {
            return Ok(None);
        };
        let Ok(flight) = self.cache.send(block) else {
            return Err(OutOfMemory);
        };
        Ok(Some(flight))
    }

    /// Ends a write that the device has done. A write that isn't this store's, or was completed before, is a stranger and
    /// comes back. It takes no memory. What a crash leaves then opens.
    pub fn complete(&mut self, landed: Landed) -> Result<Done<A>, Landed>
        ensures done { (h : History) → IsStoreOf self.old h → IfOk result (λ done. HasEnded h landed done self.old self.new) }
        ensures stranger { (h : History) → IsStoreOf self.old h
            → OnErr result (Contains (state_of (execution_of h)).flights (landed.block, landed.sequence) → ⊥) }
        ensures back { IfErr result (λ back. back ≡ landed) }
        ensures refused { OnErr result (self.new ≡ self.old) }
        ensures closed { ClosedDisksOpen }
        ensures crash { CrashDisksOpen }
    {
        laws::closed_disks_open();
        history_laws::histories_extend();
        self.cache.complete(landed)
    }
}

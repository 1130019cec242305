//! Whether an extent may be reclaimed, and which frames move then.
ghost use Rattle.std.specs.Prelude.{ℕ, ◌≡◌, ◌≤◌, None, Some, IfOk, IfErr, IfSome, OnOk};
ghost use Rattle.patch_history.specs.History.{History, standing_of};
ghost use Rattle.patch_history.specs.Refusals.{reclaim_cause};
ghost use Rattle.patch_history.specs.Refusing.{why_not_reclaimed, is_in_use as the_use};
ghost use Rattle.patch_store.specs.Meaning.{IsStoreOf};
ghost use Rattle.patch_store.specs.Moving.{live_slots};
ghost use Rattle.patch_store.specs.Trials.{moving_patches};

use crate::stores::Store;
use crate::trials::Trial;
use patch_frame::laws as frame_laws;
use patch_history::{ReclaimRefusal, laws as history_laws};
use patch_index::LiveSlots;
use std::alloc::Allocator;

// The patch of the reset behind the moves.
const RESET_PATCHES: u32 = 1;

impl<A: Allocator + Copy> Store<A> {
    /// The slots whose frames a reclaim of the extent moves, in order of offset, or the first cause against it. It takes no
    /// memory.
    pub(crate) fn slots_to_move(&self, extent: u32) -> Result<LiveSlots, ReclaimRefusal>
        ensures none { (h : History) → IsStoreOf self.now h → OnOk result (why_not_reclaimed (standing_of h) extent ≡ None) }
        ensures cause { (h : History) → IsStoreOf self.now h → IfErr result (λ refusal.
            why_not_reclaimed (standing_of h) extent ≡ Some (reclaim_cause refusal)) }
        ensures slots { IfOk result (λ slots. slots ≡ live_slots self.now.shelf extent) }
    {
        history_laws::histories_are_of_stores();
        if extent >= self.geometry.extents {
            return Err(ReclaimRefusal::NoSuchExtent);
        }
        let (generation, offset) = self.extents.pointer(extent);
        if offset == 0 {
            return Err(ReclaimRefusal::EmptyExtent);
        }
        let live = self.index.live_slots(extent);
        if self.is_in_use(extent, &live) {
            return Err(ReclaimRefusal::OpenExtent);
        }
        if generation == u32::MAX {
            return Err(ReclaimRefusal::GenerationSpent);
        }
        let Some(moving) = self.patches_of_moves(&live) else {
            return Err(ReclaimRefusal::NoSpace);
        };
        let count = moving + RESET_PATCHES;
        if self.lacks_numbers(count) {
            return Err(ReclaimRefusal::NumbersSpent);
        }
        if self.lacks_room(count) {
            return Err(ReclaimRefusal::TooManyLive);
        }
        Ok(live)
    }

    /// Whether the extent is the current one, and these slots name it.
    fn is_in_use(&self, extent: u32, live: &LiveSlots) -> bool
        ensures { live.now ≡ live_slots self.now.shelf extent → result ≡ the_use self.now.shelf extent }
    {
        self.current == Some(extent) && live.len() > 0
    }

    /// How many patches the moves of these slots' frames are, unless one of them finds no room.
    fn patches_of_moves(&self, live: &LiveSlots) -> Option<u32>
        ensures count { (h : History) (extent : ℕ) → IsStoreOf self.now h → live.now ≡ live_slots self.now.shelf extent
            → result ≡ moving_patches (standing_of h) extent }
        ensures few { IfSome result (λ count. count ≤ 67584) }
    {
        history_laws::commands_fit();
        frame_laws::frames_are_read_again();
        live.are_few();
        let mut trial = Trial::of(self);
        let mut count = 0;
        for at in 0..live.len() {
            let slot = live.nth(at);
            // It is used.
            let Some(entry) = self.index.entry(slot) else {
                return None;
            };
            let Some(patches) = trial.try_frame(entry.length) else {
                return None;
            };
            count += patches;
        }
        Some(count)
    }
}

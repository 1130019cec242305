//! How a value is put under a key.
ghost use Rattle.std.specs.Prelude.{ℕ, ◌≡◌, ◌≢◌, ◌+◌, None, Some, nat_lt, length, count_by, IfOk, IfErr, OnOk};
ghost use Rattle.patch_model.specs.Entry.{is_live};
ghost use Rattle.patch_model.specs.Execution.{Execution};
ghost use Rattle.patch_model.specs.State.{entries_of};
ghost use Rattle.patch_cache.specs.Meaning.{IsCacheOf};
ghost use Rattle.patch_frame.specs.declared.framing.TheConstants.{MAX_VALUE};
ghost use Rattle.patch_frame.specs.Frame.{Fits};
ghost use Rattle.patch_history.specs.declared.refusals.PutRefusal.TheVariants as put;
ghost use Rattle.patch_history.specs.Command.{Put, Done};
ghost use Rattle.patch_history.specs.History.{History, standing_of};
ghost use Rattle.patch_history.specs.Refusals.{put_cause};
ghost use Rattle.patch_history.specs.Refusing.{why_not_put};
ghost use Rattle.patch_store.specs.Meaning.{Answers, IsStoreOf};
ghost use Rattle.patch_store.specs.Putting.{IsTarget};
ghost use Rattle.patch_store.specs.Replies.{reply_to};

use crate::stores::Store;
use patch_extent::touched;
use patch_frame::{MAX_KEY, OVERHEAD, encode, laws as frame_laws};
use patch_history::{PutRefusal, laws as history_laws};
use patch_model::{Bytes, MAX_LIVE, MAX_PATCHES, WriterNo};
use std::alloc::Allocator;

// The patches of a put beside those of the frame's bytes: the pointer's and the slot's.
pub(crate) const MORE_PATCHES: u32 = 2;

// Where a put goes: the slot that is to name the frame, and the extent that is to have it.
#[derive(Clone, Copy)]
pub(crate) struct Target {
    pub(crate) slot: u32,
    pub(crate) extent: u32,
}

impl<A: Allocator + Copy> Store<A> {
    /// Puts a value under a key, in place of the one that it had. The value's frame is appended, and then a slot names it: the
    /// key has the one value or the other, whatever of it reaches the disk. All patches are counted before the first is made.
    ///
    /// Where memory runs out the key has the value that it had. An extent may have bytes then that no slot names; a reclaim
    /// wins them back.
    ///
    /// The frame's pointer patch becomes one with the last of its extent just where they may be merged, or the merge is counted
    /// among those that had no memory, whether the put is done or not.
    pub fn put(&mut self, writer: WriterNo, key: &[u8], value: &[u8]) -> Result<(), PutRefusal>
        ensures answer { Answers writer (Put key.now value.now) (reply_to put_cause (λ _. Done) result) self.old self.new }
        ensures refused { IfErr result (λ refusal. refusal ≢ put.OutOfMemory → self.new ≡ self.old) }
    {
        history_laws::histories_extend();
        history_laws::standings_run();
        history_laws::histories_are_of_stores();
        history_laws::extents_are_kept();
        history_laws::frames_compose();
        let target = self.target_of(key, value)?;
        let Ok(frame) = encode(self.alloc, key, value) else {
            return Err(PutRefusal::OutOfMemory);
        };
        let Target { slot, extent } = target;
        let frame = Bytes::from_vec(frame);
        let Ok(()) = self.put_frame(&Some(writer), slot, extent, key, frame) else {
            return Err(PutRefusal::OutOfMemory);
        };
        Ok(())
    }

    /// Where a put goes, or the first cause against it.
    fn target_of(&self, key: &[u8], value: &[u8]) -> Result<Target, PutRefusal>
        ensures none { (h : History) → IsStoreOf self.now h → OnOk result (why_not_put (standing_of h) key.now value.now ≡ None) }
        ensures cause { (h : History) → IsStoreOf self.now h → IfErr result (λ refusal.
            why_not_put (standing_of h) key.now value.now ≡ Some (put_cause refusal)) }
        ensures target { IfOk result (λ target. IsTarget self.now.shelf key.now value.now target.slot target.extent) }
        ensures fits { OnOk result (Fits MAX_VALUE (record { key = key.now; value = value.now })) }
    {
        history_laws::shelves_are_kept();
        history_laws::histories_are_of_stores();
        frame_laws::frames_fit_extents();
        frame_laws::frames_are_read_again();
        if key.is_empty() {
            return Err(PutRefusal::KeyLength);
        }
        if key.len() > MAX_KEY {
            return Err(PutRefusal::KeyLength);
        }
        if value.len() > self.geometry.format.value_limit() as usize {
            return Err(PutRefusal::ValueLength);
        }
        let Some(slot) = self.slot_for(key) else {
            return Err(PutRefusal::IndexFull);
        };
        let len = OVERHEAD + key.len() as u32 + value.len() as u32;
        let Some(extent) = self.extent_for_put(len) else {
            return Err(PutRefusal::NoSpace);
        };
        let (_, offset) = self.extents.pointer(extent);
        let count = touched(offset, len) + MORE_PATCHES;
        if self.lacks_numbers(count) {
            return Err(PutRefusal::NumbersSpent);
        }
        if self.lacks_room(count) {
            return Err(PutRefusal::TooManyLive);
        }
        Ok(Target { slot, extent })
    }

    /// Whether there are too few numbers left for so many patches more.
    pub(crate) fn lacks_numbers(&self, count: u32) -> bool
        ensures { (run : Execution) → IsCacheOf self.now.cache run
            → result ≡ nat_lt MAX_PATCHES (length (entries_of run) + count) }
    {
        self.cache.made().saturating_add(count) > MAX_PATCHES
    }

    /// Whether with so many patches more there would be too many in memory or in flight.
    pub(crate) fn lacks_room(&self, count: u32) -> bool
        ensures { (run : Execution) → IsCacheOf self.now.cache run
            → result ≡ nat_lt MAX_LIVE (count_by is_live (entries_of run) + count) }
    {
        self.cache.live().saturating_add(count) > MAX_LIVE
    }
}

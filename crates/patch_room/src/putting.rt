//! Puts that win room back.
ghost use Rattle.std.specs.Prelude.{true, false, None, ◌≡◌, ◌≢◌, ◌<◌, ◌≤◌, ◌^◌, IfErr, Err};
ghost use Rattle.patch_frame.specs.Frame.{length_of};
ghost use Rattle.patch_history.specs.declared.refusals.PutRefusal.TheVariants as put;
ghost use Rattle.patch_history.specs.Choosing.{extent_for_put};
ghost use Rattle.patch_history.specs.Command.{Done};
ghost use Rattle.patch_history.specs.History.{History, standing_of};
ghost use Rattle.patch_history.specs.Refusals.{put_cause};
ghost use Rattle.patch_room.specs.Putting.{PutsInRoom, PutsAtNeed, MayBePut, WinsBack, as_put, wants_room};
ghost use Rattle.patch_room.specs.Room.{HasEmpty, IsFull};
ghost use Rattle.patch_store.specs.Meaning.{IsStoreOf};
ghost use Rattle.patch_store.specs.Replies.{reply_to};

use crate::ahead::move_ahead;
use crate::choosing::victim_for;
use crate::laws;
use patch_frame::OVERHEAD;
use patch_model::WriterNo;
use patch_store::{PutRefusal, ReclaimRefusal, Store};
use std::alloc::Allocator;

/// Puts a value under a key as [`Store::put`] does. Where no extent has room for it one is won back first: of those that may be,
/// the one with the fewest live bytes. Where none was empty before, a second one is won back.
///
/// Behind a put that was done frames move out of the extent that is won back next, where of 16 extents or more one at most is empty, or
/// of 48 or more two: so many that it is empty before the current one is full, if frames are of about equal lengths, and 8 at most; of 48
/// extents or more all of them at times, as `ahead` says. Whether they could move isn't told; the put was done.
///
/// Where a reclaim at need is refused for want of numbers, of live patches or of memory, so is the put.
pub fn put<A: Allocator + Copy>(
    store: &mut Store<A>,
    writer: WriterNo,
    key: &[u8],
    value: &[u8],
) -> Result<(), PutRefusal>
    ensures answer { PutsInRoom 2 writer (record { key = key.now; value = value.now })
        (reply_to put_cause (λ _. Done) result) store.old store.new }
    ensures capacity { (h : History) → IsStoreOf store.old h → result ≡ Err put.NoSpace
        → IsFull store.new.shelf (length_of (record { key = key.now; value = value.now })) }
    ensures same { (h : History) → IsStoreOf store.old h → HasEmpty store.old.shelf → result ≡ Err put.NoSpace
        → store.new ≡ store.old }
    ensures reserve { (h : History) → IsStoreOf store.old h → HasEmpty store.old.shelf → result ≢ Err put.OutOfMemory
        → HasEmpty store.new.shelf }
    ensures refused { (h : History) → IsStoreOf store.old h
        → IfErr result (λ refusal. wants_room refusal ≡ false → store.new ≡ store.old) }
{
    laws::laws_below();
    put_at_need(store, writer, key, value)?;
    // What comes of it is no matter of the put: it loses nothing, and an extent that was empty still is.
    let _ = move_ahead(store);
    Ok(())
}

/// The same, where no frame moves ahead of need.
fn put_at_need<A: Allocator + Copy>(
    store: &mut Store<A>,
    writer: WriterNo,
    key: &[u8],
    value: &[u8],
) -> Result<(), PutRefusal>
    ensures answer { PutsAtNeed 2 writer (record { key = key.now; value = value.now })
        (reply_to put_cause (λ _. Done) result) store.old store.new }
    ensures capacity { (h : History) → IsStoreOf store.old h → result ≡ Err put.NoSpace
        → IsFull store.new.shelf (length_of (record { key = key.now; value = value.now })) }
    ensures same { (h : History) → IsStoreOf store.old h → HasEmpty store.old.shelf → result ≡ Err put.NoSpace
        → store.new ≡ store.old }
    ensures reserve { (h : History) → IsStoreOf store.old h → HasEmpty store.old.shelf → result ≢ Err put.OutOfMemory
        → HasEmpty store.new.shelf }
    ensures refused { (h : History) → IsStoreOf store.old h
        → IfErr result (λ refusal. wants_room refusal ≡ false → store.new ≡ store.old) }
{
    laws::laws_below();
    let first = store.put(writer, key, value);
    if !lacks_space(&first) {
        return first;
    }
    win_back(store, frame_bytes(key, value))?;
    put_in_reserve(store, writer, key, value)
}

/// The same, where one extent at most has to be won back.
fn put_in_reserve<A: Allocator + Copy>(
    store: &mut Store<A>,
    writer: WriterNo,
    key: &[u8],
    value: &[u8],
) -> Result<(), PutRefusal>
    ensures answer { PutsAtNeed 1 writer (record { key = key.now; value = value.now })
        (reply_to put_cause (λ _. Done) result) store.old store.new }
    ensures capacity { (h : History) → IsStoreOf store.old h → HasEmpty store.old.shelf → result ≡ Err put.NoSpace
        → IsFull store.new.shelf (length_of (record { key = key.now; value = value.now })) }
    ensures reserve { (h : History) → IsStoreOf store.old h → HasEmpty store.old.shelf → result ≢ Err put.OutOfMemory
        → HasEmpty store.new.shelf }
    ensures found { (h : History) → IsStoreOf store.old h
        → extent_for_put store.old.shelf (length_of (record { key = key.now; value = value.now })) ≢ None → result ≢ Err put.NoSpace }
    ensures wanting { (h : History) → IsStoreOf store.old h → MayBePut (standing_of h) (record { key = key.now; value = value.now })
        → IfErr result (λ refusal. wants_room refusal ≡ true) }
{
    laws::laws_below();
    let first = store.put(writer, key, value);
    if !lacks_space(&first) {
        return first;
    }
    win_back(store, frame_bytes(key, value))?;
    store.put(writer, key, value)
}

/// Whether a put was refused as no extent has room for its frame.
fn lacks_space(outcome: &Result<(), PutRefusal>) -> bool
    ensures yes { result ≡ true → outcome.now ≡ Err put.NoSpace }
    ensures no { result ≡ false → outcome.now ≢ Err put.NoSpace }
{
    matches!(outcome, Err(PutRefusal::NoSpace))
}

/// How many bytes the frame of a key and a value has.
fn frame_bytes(key: &[u8], value: &[u8]) -> usize
    ensures exact { length_of (record { key = key.now; value = value.now }) < 2 ^ 64
        → result ≡ length_of (record { key = key.now; value = value.now }) }
    ensures some { 1 ≤ result }
{
    key.len()
        .saturating_add(value.len())
        .saturating_add(OVERHEAD as usize)
}

/// Wins an extent back for a frame of so many bytes, if one is worth it.
fn win_back<A: Allocator + Copy>(store: &mut Store<A>, len: usize) -> Result<(), PutRefusal>
    requires { 1 ≤ len }
    ensures won { WinsBack len (reply_to put_cause (λ _. Done) result) store.old store.new }
    ensures refused { IfErr result (λ refusal. refusal ≢ put.OutOfMemory → store.new ≡ store.old) }
{
    laws::laws_below();
    let Some(extent) = victim_for(store, len) else {
        return Err(PutRefusal::NoSpace);
    };
    match store.reclaim(extent) {
        Ok(()) => Ok(()),
        Err(refusal) => Err(put_refusal(refusal)),
    }
}

/// The refusal of a put whose reclaim is refused.
fn put_refusal(refusal: ReclaimRefusal) -> PutRefusal
    ensures { result ≡ as_put refusal }
{
    match refusal {
        ReclaimRefusal::NumbersSpent => PutRefusal::NumbersSpent,
        ReclaimRefusal::TooManyLive => PutRefusal::TooManyLive,
        ReclaimRefusal::OutOfMemory => PutRefusal::OutOfMemory,
        // The others are of extents that may not be won back.
        _ => PutRefusal::NoSpace,
    }
}

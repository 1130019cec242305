//! How frames move ahead of need.
ghost use Rattle.std.specs.Prelude.{ℕ, ◌≡◌, ◌≢◌, ◌-◌, ◌≤◌, None, IfSome, IfErr};
ghost use Rattle.patch_history.specs.declared.refusals.ReclaimRefusal.TheVariants as reclaim;
ghost use Rattle.patch_history.specs.History.{History};
ghost use Rattle.patch_store.specs.Meaning.{IsStoreOf};
ghost use Rattle.patch_room.specs.Ahead.{IsPace, IsShare, IsTimely, NoneTimely, MovesAhead, kept_empty as the_kept_empty, least_spare as the_least_spare, room_left as the_room_left};
ghost use Rattle.patch_room.specs.Room.{HasEmpty};

use crate::choosing::cheapest;
use crate::laws::laws_below;
use patch_store::{ReclaimRefusal, Reclaimed, Store};
use std::alloc::Allocator;

/// No more frames than this move ahead with one put, while the current extent isn't soon full.
pub(crate) const MOST_AHEAD: u32 = 8;

/// None move ahead on a disk of fewer extents: on a small one it costs more to have an extent emptied ahead than is gained.
pub(crate) const FEWEST_EXTENTS: u32 = 16;

/// On a disk of so many extents two are kept empty.
pub(crate) const MANY_EXTENTS: u32 = 48;

/// There an extent is won back ahead of need where such a part of it is dead, an eighth, and the current one is soon full where it has less
/// to spare.
pub(crate) const SPARE_PART: u32 = 8;

/// More frames than an extent has.
pub(crate) const EVERY_FRAME: u32 = 65_536;

// So many first frames of an extent.
#[derive(Clone, Copy)]
struct Share {
    extent: u32,
    count: u32,
}

/// Moves frames ahead of need, where it is time: where of 16 extents or more no more are empty than are kept, which are two of 48 or
/// more, or one. While the current one has room for all that is live in the one that is won back next, so many of its frames move that,
/// put by put, it is empty before the current one is full, if frames are of about equal lengths. Of 48 extents or more one is won back
/// where an eighth is dead; all its frames move, where the current one is soon full, or has no room for them and two are empty. Where it
/// isn't time nothing happens.
///
/// A step may be refused as a reclaim is, or memory runs out. The last empty extent isn't taken.
pub(crate) fn move_ahead<A: Allocator + Copy>(
    store: &mut Store<A>,
) -> Result<Option<Reclaimed>, ReclaimRefusal>
    ensures moves { MovesAhead result store.old store.new }
    ensures refused { IfErr result (λ refusal. refusal ≢ reclaim.OutOfMemory → store.new ≡ store.old) }
    ensures reserve { (h : History) → IsStoreOf store.old h → HasEmpty store.old.shelf → HasEmpty store.new.shelf }
{
    laws_below();
    let Some(share) = timely_share(store) else {
        return Ok(None);
    };
    match store.reclaim_some(share.extent, share.count as usize) {
        Ok(reclaimed) => Ok(Some(reclaimed)),
        Err(refusal) => Err(refusal),
    }
}

/// What moves ahead as the store stands, if it is time.
fn timely_share<A: Allocator + Copy>(store: &Store<A>) -> Option<Share>
    ensures some { IfSome result (λ share. IsTimely store.now.shelf share.extent share.count) }
    ensures none { result ≡ None → NoneTimely store.now.shelf }
{
    if store.geometry().extents < FEWEST_EXTENTS || store.empty_extents() > kept_empty(store) {
        return None;
    }
    let Some(next) = cheapest(store) else {
        return None;
    };
    let least = least_spare(store);
    if store.geometry().format.largest_pointer() < next.live.saturating_add(least) {
        return None;
    }
    match frames_ahead(least, room_left(store), store.empty_extents(), next.live) {
        Some(count) => Some(Share {
            extent: next.extent,
            count,
        }),
        None => None,
    }
}

/// How many extents stay empty: two on a disk of many, or one.
fn kept_empty<A: Allocator + Copy>(store: &Store<A>) -> usize
    ensures { result ≡ the_kept_empty store.now.shelf }
{
    if store.geometry().extents >= MANY_EXTENTS {
        2
    } else {
        1
    }
}

/// How many bytes of an extent are to be won at least, and how few are left of one that is soon full.
fn least_spare<A: Allocator + Copy>(store: &Store<A>) -> u32
    ensures { result ≡ the_least_spare store.now.shelf }
{
    if store.geometry().extents >= MANY_EXTENTS {
        store.geometry().format.largest_pointer() / SPARE_PART
    } else {
        0
    }
}

/// How many frames move of an extent with so many live bytes, where the current one has so many left, and so many are empty.
fn frames_ahead(least: u32, left: u32, empty: usize, live: u32) -> Option<u32>
    ensures some { IfSome result (λ count. IsShare least left empty live count) }
    ensures none { result ≡ None → (count : ℕ) → IsShare least left empty live count → ⊥ }
{
    if left < live && empty < 2 {
        return None;
    }
    let spare = left.saturating_sub(live);
    if left < live || spare < least {
        return Some(EVERY_FRAME);
    }
    Some(pace(live, spare))
}

/// How many bytes the current extent has left: none, where none is current.
fn room_left<A: Allocator + Copy>(store: &Store<A>) -> u32
    ensures { result ≡ the_room_left store.now.shelf }
{
    let Some(current) = store.current_extent() else {
        return 0;
    };
    let pointer = store.extent_report(current).pointer;
    store
        .geometry()
        .format
        .largest_pointer()
        .saturating_sub(pointer)
}

/// How many frames move with a put while so many bytes are live, and so many are to spare beside them: the fewest with which the live
/// ones have moved before the others are written to, or the most that may move.
fn pace(live: u32, spare: u32) -> u32
    ensures { IsPace live spare result }
{
    for count in 0..MOST_AHEAD {
        if u64::from(count) * u64::from(spare) >= u64::from(live) {
            return count;
        }
    }
    MOST_AHEAD
}

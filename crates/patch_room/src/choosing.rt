//! Which extent is won back.
ghost use Rattle.std.specs.Prelude.{ℕ, ◌≡◌, ◌+◌, ◌<◌, ◌≤◌, None, IfSome};
ghost use Rattle.patch_room.specs.Candidates.{cheaper as the_cheaper};
ghost use Rattle.patch_room.specs.Putting.{IsVictim};
ghost use Rattle.patch_room.specs.Room.{extent_count, live_in, IsCheapest, MayBeWon, NoneWorthWinning};

use patch_store::Store;
use std::alloc::Allocator;

// An extent that may be won back, with its live bytes.
#[derive(Clone, Copy)]
pub(crate) struct Candidate {
    pub(crate) extent: u32,
    pub(crate) live: u32,
}

/// The extent to win back for a frame of so many bytes: the one with the fewest live bytes, if it has room for the frame too.
pub(crate) fn victim_for<A: Allocator + Copy>(store: &Store<A>, len: usize) -> Option<u32>
    requires { 1 ≤ len }
    ensures some { IfSome result (λ extent. IsVictim store.now.shelf len extent) }
    ensures none { result ≡ None → NoneWorthWinning store.now.shelf len }
{
    let Some(cheapest) = cheapest(store) else {
        return None;
    };
    let bytes = store.geometry().format.largest_pointer();
    if bytes.saturating_sub(cheapest.live) as usize >= len {
        Some(cheapest.extent)
    } else {
        None
    }
}

/// The extent with the fewest live bytes of those that may be won back.
pub(crate) fn cheapest<A: Allocator + Copy>(store: &Store<A>) -> Option<Candidate>
    ensures some { IfSome result (λ c. IsCheapest store.now.shelf c.extent × (c.live ≡ live_in store.now.shelf c.extent)) }
    ensures none { result ≡ None → (extent : ℕ) → MayBeWon store.now.shelf extent → ⊥ }
{
    let mut best = None;
    for extent in 0..store.geometry().extents {
        if let Some(live) = live_if_won(store, extent) {
            best = Some(cheaper(best, Candidate { extent, live }));
        }
    }
    best
}

/// The first one, if there is one and it has no more live bytes.
fn cheaper(first: Option<Candidate>, second: Candidate) -> Candidate
    ensures { result ≡ the_cheaper first second }
{
    match first {
        Some(first) if first.live <= second.live => first,
        _ => second,
    }
}

/// How many bytes are live in an extent, if it may be won back.
fn live_if_won<A: Allocator + Copy>(store: &Store<A>, extent: u32) -> Option<u32>
    requires { extent < extent_count store.now.shelf }
    ensures some { IfSome result (λ live. MayBeWon store.now.shelf extent × (live ≡ live_in store.now.shelf extent)) }
    ensures none { result ≡ None → MayBeWon store.now.shelf extent → ⊥ }
{
    let report = store.extent_report(extent);
    if report.pointer == 0 {
        return None;
    }
    if report.generation == u32::MAX {
        return None;
    }
    if report.live > 0 && store.current_extent() == Some(extent) {
        return None;
    }
    Some(report.live)
}

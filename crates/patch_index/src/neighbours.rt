//! What comes next and previous among the keys in order: found by halves.
ghost use Rattle.std.specs.Prelude.{◌≡◌, None, Some, map, option_map, slice_index_or, MatchOption};
ghost use Rattle.patch_index.specs.Index.{told};
ghost use Rattle.patch_index.specs.Keys.{IsNext, NoneFrom, IsPrevious, NoneBelow, IsPlaceBelow};
ghost use Rattle.patch_index.specs.Orders.{key_in, Rises};
ghost use Rattle.patch_index.specs.Reporting.{reported, of_slot, of_slots};

use crate::entries::Entry;
use crate::indexes::Index;
use crate::reports::EntryReport;
use crate::searching::place_by_key;
use std::alloc::Allocator;

impl<A: Allocator> Index<A> {
    /// The least key from this one on, with the length of its value. This one may have any length, and need not stand.
    pub fn next_key(&self, from: &[u8]) -> Option<EntryReport>
        ensures { MatchOption result (NoneFrom (of_slots self.now) from.now) (λ it. IsNext (of_slots self.now) from.now (reported it)) }
    {
        let slots = self.slots.as_slice();
        let by_key = self.by_key.as_slice();
        let place = place_below(slots, by_key, Some(from));
        if place == by_key.len() {
            return None;
        }
        report_of(slots, by_key[place])
    }

    /// The greatest key below this one, or the greatest of all where none is named, with the length of its value. This one may have
    /// any length, and need not stand.
    pub fn previous_key(&self, before: Option<&[u8]>) -> Option<EntryReport>
        ensures { let below = option_map (λ b. b.now) before.entry in
            MatchOption result (NoneBelow (of_slots self.now) below) (λ it. IsPrevious (of_slots self.now) below (reported it)) }
    {
        let slots = self.slots.as_slice();
        let by_key = self.by_key.as_slice();
        let place = place_below(slots, by_key, before);
        if place == 0 {
            return None;
        }
        report_of(slots, by_key[place - 1])
    }
}

/// The place that just the slots with keys below this one stand before, or all where none is named.
fn place_below(slots: &[Option<Entry>], order: &[u16], before: Option<&[u8]>) -> usize
    requires { Rises (key_in (map told slots.now)) order.now }
    ensures { IsPlaceBelow (map told slots.now) (option_map (λ b. b.now) before.entry) order.now result }
{
    match before {
        Some(key) => place_by_key(slots, order, key, 0),
        None => order.len(),
    }
}

/// What is reported of a slot, if it is used.
fn report_of(slots: &[Option<Entry>], slot: u16) -> Option<EntryReport>
    ensures { option_map reported result ≡ option_map of_slot (slice_index_or (map told slots.now) slot None) }
{
    match slots.get(slot as usize) {
        Some(Some(entry)) => Some(entry.report()),
        _ => None,
    }
}

//! A store's keys in order.
ghost use Rattle.std.specs.Prelude.{option_map, MatchOption};
ghost use Rattle.patch_history.specs.History.{History};
ghost use Rattle.patch_index.specs.Keys.{IsNext, NoneFrom, IsPrevious, NoneBelow};
ghost use Rattle.patch_index.specs.Reporting.{reported};
ghost use Rattle.patch_store.specs.Checking.{entries_of};
ghost use Rattle.patch_store.specs.Meaning.{IsStoreOf};

use crate::stores::Store;
use patch_history::laws as history_laws;
use patch_index::EntryReport;
use std::alloc::Allocator;

impl<A: Allocator + Copy> Store<A> {
    /// The least key from this one on, with the length of its value. This one may have any length, and need not stand.
    pub fn next_key(&self, from: &[u8]) -> Option<EntryReport>
        ensures { (h : History) → IsStoreOf self.now h
            → MatchOption result (NoneFrom (entries_of h) from.now) (λ it. IsNext (entries_of h) from.now (reported it)) }
    {
        history_laws::shelves_are_kept();
        history_laws::histories_are_of_stores();
        self.index.next_key(from)
    }

    /// The greatest key below this one, or the greatest of all where none is named, with the length of its value. This one may have
    /// any length, and need not stand.
    pub fn previous_key(&self, before: Option<&[u8]>) -> Option<EntryReport>
        ensures { let below = option_map (λ b. b.now) before.entry in (h : History) → IsStoreOf self.now h
            → MatchOption result (NoneBelow (entries_of h) below) (λ it. IsPrevious (entries_of h) below (reported it)) }
    {
        history_laws::shelves_are_kept();
        history_laws::histories_are_of_stores();
        self.index.previous_key(before)
    }
}

//! How full a store is.
ghost use Rattle.std.specs.Prelude.{◌≡◌, length, sum_by};
ghost use Rattle.std.specs.List.{range_with_len};
ghost use Rattle.patch_history.specs.Choosing.{empty_extents as the_empty_extents};
ghost use Rattle.patch_history.specs.History.{History};
ghost use Rattle.patch_index.specs.Reporting.{live_bytes as the_live_bytes};
ghost use Rattle.patch_store.specs.Meaning.{IsStoreOf};
ghost use Rattle.patch_store.specs.Totals.{totals_of};

use crate::stores::Store;
use patch_history::laws as history_laws;
use std::alloc::Allocator;

/// How full a store is, in numbers.
#[derive(Clone, Copy, Debug, PartialEq, Eq)]
pub struct Totals {
    /// How many keys have a value.
    pub keys: u32,
    /// How many bytes the frames of these values have.
    pub live: u64,
    /// How many blocks the disk has.
    pub blocks: u32,
    pub extents: u32,
    /// How many extents have nothing in them.
    pub empty: u32,
}

impl<A: Allocator + Copy> Store<A> {
    /// How full the store is. It takes no memory.
    pub fn totals(&self) -> Totals
        ensures { (h : History) → IsStoreOf self.now h → result ≡ totals_of h }
    {
        history_laws::shelves_are_kept();
        history_laws::histories_are_of_stores();
        Totals {
            keys: self.index.used(),
            live: self.live_bytes(),
            blocks: self.geometry.block_count(),
            extents: self.geometry.extents,
            empty: self.count_empty(),
        }
    }

    /// How many bytes the frames have that slots name, in all extents.
    fn live_bytes(&self) -> u64
        ensures { result ≡ sum_by (the_live_bytes self.now.shelf.slots) (range_with_len 0 self.now.shelf.extents.geometry.extents) }
    {
        let mut live = 0;
        for extent in 0..self.geometry.extents {
            live += u64::from(self.index.live_bytes(extent));
        }
        live
    }

    /// How many extents have nothing in them.
    fn count_empty(&self) -> u32
        ensures { result ≡ length (the_empty_extents self.now.shelf) }
    {
        let mut count = 0;
        for extent in 0..self.geometry.extents {
            let (_, offset) = self.extents.pointer(extent);
            if offset == 0 {
                count += 1;
            }
        }
        count
    }
}

//! Whether frames would find room, one after another.
ghost use Rattle.std.specs.Prelude.{◌≡◌, ◌+◌, ◌<◌, ◌≤◌, Some, IfSome, option_map};
ghost use Rattle.patch_history.specs.Choosing.{current_for as the_current_for};
ghost use Rattle.patch_history.specs.History.{History};
ghost use Rattle.patch_history.specs.Shelf.{Shelf};
ghost use Rattle.patch_store.specs.Meaning.{IsStoreOf};
ghost use Rattle.patch_store.specs.Trials.{Alike, Places, Tries, extent_of};

use crate::putting::MORE_PATCHES;
use crate::stores::Store;
use crate::trials::{Filled, Trial};
use patch_extent::touched;
use patch_history::laws as history_laws;
use std::alloc::Allocator;

impl<'s> Trial<'s> {
    /// The extents of a store as they are.
    pub(crate) fn of<A: Allocator + Copy>(store: &'s Store<A>) -> Trial<'s>
        ensures { (h : History) → IsStoreOf store.now h → Alike store.now.shelf result }
    {
        history_laws::shelves_are_kept();
        history_laws::histories_are_of_stores();
        let current = match store.current {
            Some(extent) => {
                let (_, offset) = store.extents.pointer(extent);
                Some(Filled { extent, offset })
            }
            None => None,
        };
        Trial {
            current,
            empty: store.extents.empty_extents(),
            largest: store.geometry.format.largest_pointer(),
        }
    }

    /// Tries the frame that moves next, of so many bytes: how many patches its move is, if it finds room.
    pub(crate) fn try_frame(&mut self, len: u32) -> Option<u32>
        requires some { 0 < len }
        requires short { len ≤ 262144 }
        ensures tried { Tries len result self.old self.new }
        ensures few { IfSome result (λ patches. patches ≤ 66) }
    {
        let Filled { extent, offset } = self.place_for(len)?;
        self.current = Some(Filled {
            extent,
            offset: offset + len,
        });
        Some(touched(offset, len) + MORE_PATCHES)
    }

    /// Where so many bytes go: to the current extent, or where they don't fit there to the lowest empty one, which is taken.
    fn place_for(&mut self, len: u32) -> Option<Filled>
        requires { len ≤ 262144 }
        ensures placed { (s : Shelf) → Alike s self.old → Places s len result self.new }
        ensures room { IfSome result (λ place. place.offset + len ≤ 262144) }
    {
        if let Some(place) = self.current_for(len) {
            return Some(place);
        }
        let (first, rest) = self.empty.split_first()?;
        self.empty = rest;
        Some(Filled {
            extent: u32::from(*first),
            offset: 0,
        })
    }

    /// The current extent, where so many bytes fit.
    fn current_for(&self, len: u32) -> Option<Filled>
        ensures chosen { (s : Shelf) → Alike s self.now → option_map extent_of result ≡ the_current_for s len }
        ensures same { IfSome result (λ place. self.now.current ≡ Some place) }
        ensures room { IfSome result (λ place. place.offset + len ≤ 262144) }
    {
        let place = self.current?;
        if place.offset.saturating_add(len) <= self.largest {
            Some(place)
        } else {
            None
        }
    }
}

//! Which slot and which extent are taken.
ghost use Rattle.std.specs.Prelude.{◌≡◌, ◌<◌};
ghost use Rattle.patch_history.specs.Choosing.{slot_for as the_slot_for, has_room as fits_behind, current_for as the_current_for};
ghost use Rattle.patch_history.specs.Choosing.{extent_for_put as the_extent_for_put, extent_for_move as the_extent_for_move};
ghost use Rattle.patch_history.specs.Choosing.{empty_extents, first_of_any, first_of_two};

use crate::stores::Store;
use std::alloc::Allocator;

impl<A: Allocator + Copy> Store<A> {
    /// The key's own slot, or for a new key the lowest empty one.
    pub(crate) fn slot_for(&self, key: &[u8]) -> Option<u32>
        ensures { result ≡ the_slot_for self.now.shelf key.now }
    {
        match self.index.slot_of(key) {
            Some(slot) => Some(slot),
            None => self.index.empty_slot(),
        }
    }

    /// Where the frame of a put goes: to the current extent, or where it doesn't fit there to the lowest empty one, of which the
    /// last is kept.
    pub(crate) fn extent_for_put(&self, len: u32) -> Option<u32>
        ensures { result ≡ the_extent_for_put self.now.shelf len }
    {
        match self.current_for(len) {
            Some(extent) => Some(extent),
            None => self.first_of_two(),
        }
    }

    /// Where a frame goes that is moved: it may take the last empty extent.
    pub(crate) fn extent_for_move(&self, len: u32) -> Option<u32>
        ensures { result ≡ the_extent_for_move self.now.shelf len }
    {
        match self.current_for(len) {
            Some(extent) => Some(extent),
            None => self.first_empty(),
        }
    }

    /// The current extent, where so many bytes fit.
    fn current_for(&self, len: u32) -> Option<u32>
        ensures { result ≡ the_current_for self.now.shelf len }
    {
        let extent = self.current?;
        if self.has_room(len, extent) {
            Some(extent)
        } else {
            None
        }
    }

    /// Whether so many bytes fit behind the extent's pointer.
    fn has_room(&self, len: u32, extent: u32) -> bool
        requires { extent < self.now.shelf.extents.geometry.extents }
        ensures { result ≡ fits_behind self.now.shelf len extent }
    {
        let (_, offset) = self.extents.pointer(extent);
        offset.saturating_add(len) <= self.geometry.format.largest_pointer()
    }

    /// The lowest empty extent.
    fn first_empty(&self) -> Option<u32>
        ensures { result ≡ first_of_any (empty_extents self.now.shelf) }
    {
        let first = self.extents.empty_extents().first()?;
        Some(u32::from(*first))
    }

    /// The lowest of two or more empty extents.
    fn first_of_two(&self) -> Option<u32>
        ensures { result ≡ first_of_two (empty_extents self.now.shelf) }
    {
        if self.extents.empty_extents().len() < 2 {
            return None;
        }
        self.first_empty()
    }
}

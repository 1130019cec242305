//! What those above a store choose by: how its disk is divided, where its puts go, and how many extents are empty.
ghost use Rattle.std.specs.Prelude.{◌≡◌, ◌<◌, length, IfSome};
ghost use Rattle.patch_frame.specs.Geometry.{IsGeometry};
ghost use Rattle.patch_history.specs.Choosing.{empty_extents as the_empty_extents};

use crate::stores::Store;
use patch_frame::Geometry;
use std::alloc::Allocator;

impl<A: Allocator + Copy> Store<A> {
    /// How the disk is divided.
    pub fn geometry(&self) -> Geometry
        ensures is { result ≡ self.now.shelf.extents.geometry }
        ensures valid { IsGeometry result }
    {
        self.geometry
    }

    /// The extent that puts append to, if one is: one of the disk's.
    pub fn current_extent(&self) -> Option<u32>
        ensures is { result ≡ self.now.shelf.current }
        ensures known { IfSome result (λ extent. extent < self.now.shelf.extents.geometry.extents) }
    {
        self.current
    }

    /// How many extents have nothing in them. They are counted as they are kept, and none is looked at.
    pub fn empty_extents(&self) -> usize
        ensures { result ≡ length (the_empty_extents self.now.shelf) }
    {
        self.extents.empty_extents().len()
    }
}

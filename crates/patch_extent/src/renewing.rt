//! How extents begin anew, as the cache of their blocks does.
ghost use Rattle.std.specs.Prelude.{◌≡◌, map};
ghost use Rattle.patch_extent.specs.Renewing.{unpatched, unpatched_extent};

use crate::extents::Extents;
use patch_plans::Extent;
use std::alloc::Allocator;

impl<A: Allocator + Copy> Extents<A> {
    /// Lets go of what is kept of patches; each pointer record stays. It is called as the cache begins anew, which has no patch of
    /// these numbers then. It takes no memory.
    pub fn renew(&mut self)
        ensures { self.new ≡ unpatched self.old }
    {
        forget_patches(self.each.as_mut_slice());
    }
}

/// Lets go of the patches of these extents.
fn forget_patches(each: &mut [Extent])
    ensures { each.new ≡ map unpatched_extent each.old }
{
    for extent in each.iter_mut() {
        extent.reset = None;
        extent.point = None;
    }
}

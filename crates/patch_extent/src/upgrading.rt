//! How the disk of some extents is made one of version 2.
ghost use Rattle.std.specs.Prelude.{ℕ, ◌≡◌, None, count_by, length};
ghost use Rattle.patch_model.specs.Entry.{is_live};
ghost use Rattle.patch_model.specs.Execution.{Execution};
ghost use Rattle.patch_model.specs.State.{entries_of};
ghost use Rattle.patch_frame.specs.declared.geometries.Format.TheVariants.{One};
ghost use Rattle.patch_frame.specs.Geometry.{IsGeometry};
ghost use Rattle.patch_cache.specs.Meaning.{IsCacheOf};
ghost use Rattle.patch_plans.specs.Room.{why_no_room};
ghost use Rattle.patch_extent.specs.Upgrading.{AnswersUpgrade, LaysVersion};

use crate::extents::Extents;
use patch_cache::Cache;
use patch_frame::{Geometry, write_superblock};
use patch_model::{BlockNo, OutOfMemory, PatchNo, Undo, laws as model_laws};
use std::alloc::Allocator;

// Where in the superblock its version begins, and where the length of an extent ends, which is the last of its fields.
const VERSION_START: usize = 8;

const FIELDS_END: usize = 24;

impl<A: Allocator + Copy> Extents<A> {
    /// Makes a disk of version 1 one of version 2, with each extent where it is: one patch, of no writer, says so in the
    /// superblock. Its number is the answer. What has to come after the upgrade names it.
    pub fn upgrade(&mut self, cache: &mut Cache<A>) -> Result<PatchNo, OutOfMemory>
        requires version { self.old.geometry.format ≡ One }
        requires room { (run : Execution) → IsCacheOf cache.old run
            → why_no_room (length (entries_of run)) (count_by is_live (entries_of run)) 1 ≡ None }
        ensures { AnswersUpgrade result self.old cache.old self.new cache.new }
    {
        model_laws::steps_extend();
        let wide = self.widened();
        let no = lay_version(self.alloc, cache, wide)?;
        self.geometry = wide;
        Ok(no)
    }
}

/// Makes the patch of the superblock's fields from its version on.
fn lay_version<A: Allocator + Copy>(
    alloc: A,
    cache: &mut Cache<A>,
    geometry: Geometry,
) -> Result<PatchNo, OutOfMemory>
    requires { IsGeometry geometry }
    ensures { LaysVersion geometry result cache.old cache.new }
{
    let superblock = write_superblock(alloc, geometry)?;
    let fields = &superblock.as_slice()[VERSION_START..FIELDS_END];
    match cache.create(BlockNo(0), VERSION_START, fields, &[], Undo::MayDrop) {
        Ok(no) => Ok(no),
        Err(_) => Err(OutOfMemory),
    }
}

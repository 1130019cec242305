//! How an extent is emptied.
ghost use Rattle.std.specs.Prelude.{◌≡◌, ◌<◌, ◌++◌, ◌∷◌, [], Some, None, IfOk, IfErr, OnOk, OnErr};
ghost use Rattle.patch_model.specs.declared.patches.Undo.TheVariants.{MayDrop};
ghost use Rattle.patch_model.specs.Step.{Create};
ghost use Rattle.patch_model.specs.Execution.{Execution};
ghost use Rattle.patch_model.specs.State.{entries_of};
ghost use Rattle.patch_frame.specs.Geometry.{largest_pointer, pointer_block, pointer_start};
ghost use Rattle.patch_frame.specs.Pointer.{Fits, spelling};
ghost use Rattle.patch_cache.specs.Creating.{IsMade};
ghost use Rattle.patch_cache.specs.Meaning.{IsCacheOf};
ghost use Rattle.patch_plans.specs.Groups.{Groups as TheGroups};
ghost use Rattle.patch_plans.specs.Extents.{generation_at};
ghost use Rattle.patch_extent.specs.Refusals.{reset_cause};
ghost use Rattle.patch_extent.specs.Refusing.{why_not_reset};
ghost use Rattle.patch_extent.specs.Answers.{setting, AnswersReset};

use crate::counting::count_patches;
use crate::extents::Extents;
use crate::refusals::ResetRefusal;
use patch_cache::Cache;
use patch_frame::{Pointer, laws as frame_laws, pointer_start, write_pointer};
use patch_model::{BlockNo, OutOfMemory, PatchNo, Undo, laws as model_laws};
use patch_plans::Extent;
use std::alloc::Allocator;

impl<A: Allocator + Copy> Extents<A> {
    /// Empties an extent: one patch, of no writer, raises its generation by one and sets its pointer to 0. What was appended
    /// before can't be read any more; what is appended from now on comes after the patch, whose number this gives.
    pub fn reset(
        &mut self,
        cache: &mut Cache<A>,
        extent: u32,
        after: &[PatchNo],
    ) -> Result<PatchNo, ResetRefusal>
        ensures answer { (groups : TheGroups) → AnswersReset extent after.now result
            (setting self.old groups cache.old) (setting self.new groups cache.new) }
        ensures geometry { self.new.geometry ≡ self.old.geometry }
        ensures refused { OnErr result (self.new ≡ self.old) }
        ensures refused_cache { OnErr result (cache.new ≡ cache.old) }
    {
        model_laws::steps_extend();
        model_laws::executions_are_orderly();
        frame_laws::pointers_are_read_again();
        self.why_not_reset(cache, extent, after)?;
        let pointer = Pointer {
            generation: self.each[extent as usize].pointer.generation + 1,
            offset: 0,
        };
        let no = self.lay_record(cache, extent, pointer, after)?;
        self.each[extent as usize] = Extent {
            pointer,
            reset: Some(no),
            point: Some(no),
        };
        self.empty.put(extent);
        Ok(no)
    }

    /// Makes the patch of an extent's pointer record, of no writer. It was counted, so nothing but want of memory stands against
    /// it.
    fn lay_record(
        &self,
        cache: &mut Cache<A>,
        extent: u32,
        pointer: Pointer,
        after: &[PatchNo],
    ) -> Result<PatchNo, OutOfMemory>
        requires known { extent < self.now.geometry.extents }
        requires fits { Fits (largest_pointer self.now.geometry.format) pointer }
        ensures made { (run : Execution) → IsCacheOf cache.old run → IfOk result (λ no.
            IsMade run (pointer_block self.now.geometry) (pointer_start extent) (spelling pointer) after.now MayDrop no cache.new) }
        ensures trace { OnOk result (cache.new.trace ≡ cache.old.trace
            ++ Create (pointer_block self.now.geometry) (pointer_start extent) (spelling pointer) after.now MayDrop ∷ []) }
        ensures refused { OnErr result (cache.new ≡ cache.old) }
    {
        let block = BlockNo(self.geometry.pointer_block());
        let record = write_pointer(pointer);
        let start = pointer_start(extent);
        match cache.create(block, start, &record, after, Undo::MayDrop) {
            Ok(no) => Ok(no),
            Err(_) => Err(OutOfMemory),
        }
    }

    /// Whether an extent can be reset: the first cause against it.
    fn why_not_reset(
        &self,
        cache: &Cache<A>,
        extent: u32,
        after: &[PatchNo],
    ) -> Result<(), ResetRefusal>
        ensures none { (run : Execution) → IsCacheOf cache.now run
            → OnOk result (why_not_reset self.now (entries_of run) extent after.now ≡ None) }
        ensures cause { (run : Execution) → IsCacheOf cache.now run → IfErr result (λ refusal.
            why_not_reset self.now (entries_of run) extent after.now ≡ Some (reset_cause refusal)) }
        ensures known { OnOk result (extent < self.now.geometry.extents) }
        ensures left { OnOk result (generation_at self.now extent < 4294967295) }
    {
        if extent >= self.geometry.extents {
            return Err(ResetRefusal::NoSuchExtent);
        }
        if self.each[extent as usize].pointer.generation == u32::MAX {
            return Err(ResetRefusal::GenerationSpent);
        }
        Ok(count_patches(cache, after, 1)?)
    }
}

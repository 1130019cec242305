//! How patches are made, and become one.
ghost use Rattle.std.specs.Prelude.{◌≡◌, IfOk, IfErr, OnErr};
ghost use Rattle.patch_model.specs.Execution.{Execution};
ghost use Rattle.patch_model.specs.State.{entries_of};
ghost use Rattle.patch_plans.specs.Groups.{why_not_patched};
ghost use Rattle.patch_cache.specs.Paging.{if_resident};
ghost use Rattle.patch_cache.specs.Refusals.{create_cause, merge_cause, IsMergeCause};
ghost use Rattle.patch_group.specs.Refusals.{IsCauseOf};
ghost use Rattle.patch_engine.specs.Meaning.{IsEngineOf, IsPatched, IsMerged};

use crate::engines::Engine;
use patch_cache::{CreateRefusal, MergeRefusal, laws as cache_laws};
use patch_model::{BlockNo, PatchNo, Undo, WriterNo};
use patch_plans::laws as plan_laws;
use std::alloc::Allocator;

impl<A: Allocator + Copy> Engine<A> {
    /// Makes a patch of a writer, or of none: the bytes that it puts in the block from `start` on, and the patches that it names as
    /// going to the disk before it, or with it. It depends on these, on each earlier patch of the block that shares a byte with it,
    /// and on all patches of all groups before those that the writer has engaged; it joins each of these. Its number is the next one.
    pub fn patch(
        &mut self,
        writer: Option<WriterNo>,
        block: BlockNo,
        start: usize,
        bytes: &[u8],
        after: &[PatchNo],
        undo: Undo,
    ) -> Result<PatchNo, CreateRefusal>
        ensures made { (run : Execution) → IsEngineOf self.old run → IfOk result (λ no.
            IsPatched run self.old writer block start bytes.now after.now undo no self.new) }
        ensures cause { (run : Execution) → IsEngineOf self.old run → IfErr result (λ refusal.
            IsCauseOf (if_resident self.old.cache block (why_not_patched run self.old.groups writer block start bytes.now after.now)) (create_cause refusal)) }
        ensures refused { OnErr result (self.new ≡ self.old) }
    {
        cache_laws::flights_stay::<A>();
        plan_laws::order_is_kept();
        let no = self
            .groups
            .create_patch(&mut self.cache, writer, block, start, bytes, after, undo)?;
        self.cache.clear_trace();
        Ok(no)
    }

    /// Makes one class of the classes of two patches of a block, which go to the disk together from then on. Its name is the lesser
    /// of theirs.
    pub fn merge(&mut self, a: PatchNo, b: PatchNo) -> Result<PatchNo, MergeRefusal>
        ensures merged { (run : Execution) → IsEngineOf self.old run → IfOk result (λ name. IsMerged run a b name self.new) }
        ensures cause { (run : Execution) → IsEngineOf self.old run → IfErr result (λ refusal. IsMergeCause (entries_of run) a b (merge_cause refusal)) }
        ensures refused { OnErr result (self.new ≡ self.old) }
    {
        cache_laws::flights_begin_and_end::<A>();
        plan_laws::order_is_kept();
        let name = self.cache.merge(a, b)?;
        self.cache.clear_trace();
        Ok(name)
    }
}

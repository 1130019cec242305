//! How two classes become one.
ghost use Rattle.std.specs.Prelude.{Bool, ◌≡◌, ◌++◌, ◌∷◌, false, IsTrue, List, [], None, Some, length, option_map, MatchResult, MatchOption, IfOk, IfErr, OnOk, OnErr};
ghost use Rattle.patch_model.specs.Entry.{Entry};
ghost use Rattle.patch_model.specs.Execution.{Execution};
ghost use Rattle.patch_model.specs.Refusing.{why_no_pair, is_memory_at};
ghost use Rattle.patch_model.specs.Step.{Merge};
ghost use Rattle.patch_model.specs.State.{entries_of};
ghost use Rattle.patch_graph.specs.Meaning.{IsGraphOf};
ghost use Rattle.patch_cache.specs.Contents.{is_resident};
ghost use Rattle.patch_cache.specs.Meaning.{IsCacheOf, IsCacheBy, IsPagedCacheOf};
ghost use Rattle.patch_cache.specs.Merging.{IsInMemory, ArePaired, IsThird, MayMerge, IsMerged, IsMergedBy, MayMergeOn, IsMergedOn, why_apart};
ghost use Rattle.patch_cache.specs.Refusals.{merge_cause, IsMergeCause};

use crate::caches::Cache;
use crate::refusals::MergeRefusal;
use patch_graph::{Graph, LiveClass};
use patch_model::{BlockNo, Mark, OutOfMemory, PatchNo, Step, laws as model_laws};
use patch_view::BlockState;
use std::alloc::Allocator;

impl<A: Allocator + Copy> Cache<A> {
    /// Makes one class of the classes of two patches, whose numbers are any members'. Its name is the lesser of theirs.
    pub fn merge(&mut self, a: PatchNo, b: PatchNo) -> Result<PatchNo, MergeRefusal>
        ensures merged { (run : Execution) → IsCacheOf self.old run → IfOk result (λ name. IsMerged run a b name self.new) }
        ensures merged_paged { (run : Execution) → IsPagedCacheOf self.old run → IfOk result (λ name. IsMergedBy false run a b name self.new) }
        ensures cause { (run : Execution) → IsCacheOf self.old run → IfErr result (λ refusal.
            IsMergeCause (entries_of run) a b (merge_cause refusal)) }
        ensures cause_paged { (run : Execution) → IsPagedCacheOf self.old run → IfErr result (λ refusal.
            IsMergeCause (entries_of run) a b (merge_cause refusal)) }
        ensures trace { OnOk result (self.new.trace ≡ self.old.trace ++ Merge a b ∷ []) }
        ensures refused { OnErr result (self.new ≡ self.old) }
    {
        model_laws::pairs_merge();
        let block = self.block_of_both(a, b)?;
        if let Some(third) = self.third(a, b) {
            return Err(MergeRefusal::WouldCycle(third));
        }
        Ok(self.make_one(a, b, block)?)
    }

    /// The block of both classes, or the first cause against the merge, but for a third class between them.
    fn block_of_both(&self, a: PatchNo, b: PatchNo) -> Result<BlockNo, MergeRefusal>
        ensures answer { (whole : Bool) (run : Execution) → IsCacheBy whole self.now run → MatchResult result
            (ArePaired run a b)
            (λ refusal. why_no_pair (entries_of run) a b ≡ Some (merge_cause refusal)) }
        ensures resident { IfOk result (λ block. IsTrue (is_resident self.now block)) }
    {
        model_laws::spans_are_whole();
        model_laws::patches_are_placed();
        let made = self.graph.made();
        if a.0 >= made || b.0 >= made {
            return Err(MergeRefusal::Unknown);
        }
        let Some(first) = self.in_memory(a) else {
            return Err(MergeRefusal::NotInMemory(a));
        };
        let Some(second) = self.in_memory(b) else {
            return Err(MergeRefusal::NotInMemory(b));
        };
        if let Some(refusal) = pair_refusal(a, &first, b, &second) {
            return Err(refusal);
        }
        // Never so in a cache that represents an execution: a block with a patch in memory is resident. Of no other is anything promised.
        if !self.rows.contains(first.block.0) {
            return Err(MergeRefusal::OtherBlock);
        }
        Ok(first.block)
    }

    /// The class of a patch that is in memory.
    fn in_memory(&self, no: PatchNo) -> Option<LiveClass>
        ensures { (all : List Entry) → IsGraphOf self.now.graph all → MatchOption result (is_memory_at all no ≡ false) (IsInMemory all no) }
    {
        match self.graph.live_class(no) {
            Some(class) => match class.mark {
                Mark::Memory => Some(class),
                Mark::Flight | Mark::Durable => None,
            },
            None => None,
        }
    }

    /// The least name of a third class between those of two live patches, one way or the other.
    fn third(&mut self, a: PatchNo, b: PatchNo) -> Option<PatchNo>
        ensures answer { (whole : Bool) (run : Execution) → IsCacheBy whole self.old run → why_no_pair (entries_of run) a b ≡ None
            → IsThird run a b result }
        ensures same { self.new ≡ self.old }
    {
        model_laws::paths_form_no_ring();
        match self.graph.between(a, b) {
            Some(name) => Some(name),
            None => self.graph.between(b, a),
        }
    }

    /// Makes one class of two that may be merged.
    fn make_one(&mut self, a: PatchNo, b: PatchNo, block: BlockNo) -> Result<PatchNo, OutOfMemory>
        requires resident { IsTrue (is_resident self.old block) }
        ensures merged { (whole : Bool) (run : Execution) → IsCacheBy whole self.old run → MayMerge run a b block
            → IfOk result (λ name. IsMergedBy whole run a b name self.new) }
        ensures trace { OnOk result (self.new.trace ≡ self.old.trace ++ Merge a b ∷ []) }
        ensures refused { OnErr result (self.new ≡ self.old) }
    {
        model_laws::steps_extend();
        model_laws::steps_change_blocks();
        model_laws::live_are_counted();
        model_laws::flights_are_ready();
        self.trace.reserve(self.under_way + 1)?;
        let row = self.rows.row_mut(block.0);
        let name = join_on(&mut row.state, &mut self.graph, a, b)?;
        self.trace.push_reserved(Step::Merge { a, b });
        Ok(name)
    }
}

/// Makes one class of two of a block, whose state this is, also in the graph. The block draws it up first, which takes
/// memory, and puts it in place when the graph has done the same.
fn join_on<A: Allocator + Copy>(
    state: &mut BlockState<A>,
    graph: &mut Graph<A>,
    a: PatchNo,
    b: PatchNo,
) -> Result<PatchNo, OutOfMemory>
    ensures merged { (run : Execution) → MayMergeOn run a b state.old graph.old
        → IfOk result (λ name. IsMergedOn run a b name state.new graph.new) }
    ensures refused { OnErr result ((state.new ≡ state.old) × (graph.new ≡ graph.old)) }
{
    model_laws::steps_extend();
    model_laws::executions_are_orderly();
    model_laws::merges_may_join();
    model_laws::steps_change_blocks();
    let joint = state.joint(a, b)?;
    let name = graph.merge(a, b)?;
    state.join_by(joint);
    Ok(name)
}

/// The first cause against a merge of two classes in memory that the classes themselves show.
fn pair_refusal(
    a: PatchNo,
    first: &LiveClass,
    b: PatchNo,
    second: &LiveClass,
) -> Option<MergeRefusal>
    ensures { option_map merge_cause result ≡ why_apart a first.now b second.now }
{
    if first.name == second.name {
        Some(MergeRefusal::Same)
    } else if first.block != second.block {
        Some(MergeRefusal::OtherBlock)
    } else if first.hard {
        Some(MergeRefusal::Hard(a))
    } else if second.hard {
        Some(MergeRefusal::Hard(b))
    } else if first.start > second.stop || second.start > first.stop {
        Some(MergeRefusal::Apart)
    } else {
        None
    }
}

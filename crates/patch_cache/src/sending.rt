//! How a write of a block begins.
ghost use Rattle.std.specs.Prelude.{Bool, false, ◌≡◌, ◌≤◌, ◌++◌, ◌∷◌, IsTrue, [], Some, None, length, option_map, vec_len, vec_capacity, IfOk, IfErr, IsNone, OnOk, OnErr};
ghost use Rattle.patch_model.specs.declared.blocks.TheConstants.{BLOCK};
ghost use Rattle.patch_model.specs.Execution.{Execution};
ghost use Rattle.patch_model.specs.Refusing.{why_not_sent};
ghost use Rattle.patch_model.specs.Step.{Send};
ghost use Rattle.patch_model.specs.History.{History, HoldsDependents, without};
ghost use Rattle.patch_view.specs.History.{undoable_classes};
ghost use Rattle.patch_view.specs.Meaning.{IsBlockOf};
ghost use Rattle.patch_cache.specs.Contents.{is_resident, write_at};
ghost use Rattle.patch_cache.specs.Meaning.{IsCacheOf, IsCacheBy, IsPagedCacheOf};
ghost use Rattle.patch_cache.specs.Paging.{if_resident};
ghost use Rattle.patch_cache.specs.Flights.{MaySend, IsBegun, IsBegunBy};
ghost use Rattle.patch_cache.specs.Refusals.{send_cause, IsCause};

use crate::caches::Cache;
use crate::flights::Flight;
use crate::refusals::SendRefusal;
use crate::writes::Write;
use patch_model::{
    BLOCK, BlockBytes, BlockNo, Numbers, OutOfMemory, PatchNo, Step, laws as model_laws,
};
use patch_view::{BlockState, laws as view_laws};
use std::alloc::Allocator;

impl<A: Allocator + Copy> Cache<A> {
    /// Begins a write of the block: takes all of its classes that may go to the disk together, which is the largest such
    /// set, and gives their image. What stays behind in memory is reverted in the image and in nothing else.
    pub fn send(&mut self, block: BlockNo) -> Result<Flight<A>, SendRefusal>
        ensures sent { (run : Execution) → IsCacheOf self.old run → IfOk result (λ flight.
            (why_not_sent run block ≡ None) × IsBegun run block flight self.new) }
        ensures sent_paged { (run : Execution) → IsPagedCacheOf self.old run → IfOk result (λ flight.
            (why_not_sent run block ≡ None) × IsBegunBy false run block flight self.new) }
        ensures cause { (run : Execution) → IsCacheOf self.old run → IfErr result (λ refusal. IsCause (why_not_sent run block) (send_cause refusal)) }
        ensures cause_paged { (run : Execution) → IsPagedCacheOf self.old run → IfErr result (λ refusal.
            IsCause (if_resident self.old block (why_not_sent run block)) (send_cause refusal)) }
        ensures trace { OnOk result (self.new.trace ≡ self.old.trace ++ Send block ∷ []) }
        ensures refused { OnErr result (self.new ≡ self.old) }
    {
        match self.why_not_sent(block) {
            Some(refusal) => Err(refusal),
            None => Ok(self.send_ready(block)?),
        }
    }

    /// The first cause against a write of the block: where there is none, [`send`](Cache::send) is refused for want of memory alone.
    pub fn why_not_sent(&mut self, block: BlockNo) -> Option<SendRefusal>
        ensures cause { (whole : Bool) (run : Execution) → IsCacheBy whole self.old run
            → option_map send_cause result ≡ if_resident self.old block (why_not_sent run block) }
        ensures resident { IsNone result → IsTrue (is_resident self.old block) }
        ensures not_under_way { IsNone result → write_at self.old block ≡ None }
        ensures same { self.new ≡ self.old }
    {
        model_laws::ready_is_largest();
        model_laws::paths_form_no_ring();
        if block.0 as usize >= self.rows.len() {
            return Some(SendRefusal::NoSuchBlock);
        }
        let Some(row) = self.rows.get(block.0) else {
            return Some(SendRefusal::NotResident(block));
        };
        if row.write.is_some() {
            return Some(SendRefusal::AlreadyInFlight);
        }
        // The graph would find nothing either.
        if row.state.is_clear() {
            return Some(SendRefusal::NothingReady);
        }
        if !self.graph.any_ready(block) {
            return Some(SendRefusal::NothingReady);
        }
        None
    }

    /// Begins a write that there is no cause to refuse.
    pub(crate) fn send_ready(&mut self, block: BlockNo) -> Result<Flight<A>, OutOfMemory>
        requires resident { IsTrue (is_resident self.old block) }
        requires not_under_way { write_at self.old block ≡ None }
        ensures begun { (whole : Bool) (run : Execution) → IsCacheBy whole self.old run → why_not_sent run block ≡ None
            → IfOk result (λ flight. IsBegunBy whole run block flight self.new) }
        ensures trace { OnOk result (self.new.trace ≡ self.old.trace ++ Send block ∷ []) }
        ensures refused { OnErr result (self.new ≡ self.old) }
    {
        model_laws::paths_form_no_ring();
        let numbers = self.graph.ready(self.alloc, block)?;
        self.begin(block, numbers)
    }

    /// Begins a write of the block that takes these patches. All memory is taken before anything changes, also the room for
    /// the completion in the trace.
    pub(crate) fn begin(
        &mut self,
        block: BlockNo,
        numbers: Vec<PatchNo, A>,
    ) -> Result<Flight<A>, OutOfMemory>
        requires resident { IsTrue (is_resident self.old block) }
        requires not_under_way { write_at self.old block ≡ None }
        ensures begun { (whole : Bool) (run : Execution) → IsCacheBy whole self.old run → MaySend run block numbers.items
            → IfOk result (λ flight. IsBegunBy whole run block flight self.new) }
        ensures trace { OnOk result (self.new.trace ≡ self.old.trace ++ Send block ∷ []) }
        ensures refused { OnErr result (self.new ≡ self.old) }
    {
        model_laws::steps_extend();
        model_laws::steps_change_blocks();
        model_laws::executions_are_orderly();
        model_laws::executions_are_limited();
        model_laws::live_are_counted();
        model_laws::flights_are_ready();
        model_laws::classes_have_names();
        model_laws::pairs_merge();
        model_laws::ready_is_largest();
        model_laws::sends_leave();
        model_laws::paths_form_no_ring();
        view_laws::blocks_are_coherent();
        view_laws::image_is_without();
        let noted = Numbers::from_slice(self.alloc, numbers.as_slice())?;
        let mut image = Vec::with_capacity(self.alloc, BLOCK)?;
        self.trace.reserve(self.under_way + 2)?;
        let row = self.rows.row_mut(block.0);
        row.state.depart_each(numbers.as_slice());
        self.graph.mark_flight(block);
        copy_image(&row.state, &mut image);
        let sequence = self.sends;
        row.write = Some(Write {
            sequence,
            numbers: noted,
        });
        self.under_way += 1;
        self.sends = sequence.saturating_add(1);
        self.trace.push_reserved(Step::Send { block });
        Ok(Flight {
            block,
            sequence,
            numbers: Numbers::from_vec(numbers),
            image: BlockBytes::from_vec(image),
        })
    }
}

/// Copies the block's bytes without the patches that are in memory.
fn copy_image<A: Allocator>(state: &BlockState<A>, image: &mut Vec<u8, A>)
    requires empty { vec_len image.old ≡ 0 }
    requires room { BLOCK ≤ vec_capacity image.old }
    ensures long { length image.new.items ≡ BLOCK }
    ensures copied { (h : History) → IsBlockOf state.now [] h → HoldsDependents h (undoable_classes h) → image.new.items ≡ without h (undoable_classes h) }
{
    image.extend_from_slice(state.bytes()).unwrap();
    state.take_all_from(image.as_mut_slice());
}

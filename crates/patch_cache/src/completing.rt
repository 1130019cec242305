//! How a write of a block ends.
ghost use Rattle.std.specs.Prelude.{false, ◌≡◌, ◌++◌, ◌∷◌, [], Some, None, IfOk, IfErr, OnOk, OnErr, Contains};
ghost use Rattle.patch_model.specs.Execution.{Execution};
ghost use Rattle.patch_model.specs.Step.{Complete};
ghost use Rattle.patch_model.specs.State.{state_of};
ghost use Rattle.patch_cache.specs.Meaning.{IsCacheOf, IsPagedCacheOf};
ghost use Rattle.patch_cache.specs.Flights.{IsEnded, IsEndedBy, IsWithdrawn};

use crate::caches::Cache;
use crate::flights::Landed;
use crate::writes::{Done, Write};
use patch_model::{BlockNo, Step, laws as model_laws};
use std::alloc::Allocator;

impl<A: Allocator + Copy> Cache<A> {
    /// Ends a write that the device has done: what was in it is durable. A write that isn't this cache's, or was completed
    /// before, is a stranger and comes back. It takes no memory.
    pub fn complete(&mut self, landed: Landed) -> Result<Done<A>, Landed>
        ensures done { (run : Execution) → IsCacheOf self.old run → IfOk result (λ done. IsEnded run landed done self.new) }
        ensures done_paged { (run : Execution) → IsPagedCacheOf self.old run → IfOk result (λ done. IsEndedBy false run landed done self.new) }
        ensures stranger { (run : Execution) → IsCacheOf self.old run
            → OnErr result (Contains (state_of run).flights (landed.block, landed.sequence) → ⊥) }
        ensures stranger_paged { (run : Execution) → IsPagedCacheOf self.old run
            → OnErr result (Contains (state_of run).flights (landed.block, landed.sequence) → ⊥) }
        ensures back { IfErr result (λ back. back ≡ landed) }
        ensures trace { OnOk result (self.new.trace ≡ self.old.trace ++ Complete landed.block ∷ []) }
        ensures refused { OnErr result (self.new ≡ self.old) }
    {
        model_laws::steps_extend();
        model_laws::steps_change_blocks();
        model_laws::executions_are_orderly();
        model_laws::live_are_counted();
        model_laws::flights_are_ready();
        model_laws::flights_are_single();
        model_laws::patches_are_placed();
        let Some(row) = self.rows.get_mut(landed.block.0) else {
            return Err(landed);
        };
        let Some(write) = withdraw(&mut row.write, landed.sequence) else {
            return Err(landed);
        };
        let Landed { block, sequence: _ } = landed;
        let numbers = write.numbers;
        row.state.land_each();
        self.graph.mark_durable(block);
        let live = self.live as usize;
        self.live = live.saturating_sub(numbers.as_slice().len()) as u32;
        self.under_way -= 1;
        self.trace.push_reserved(Step::Complete { block });
        Ok(Done { block, numbers })
    }
}

/// Takes out a block's write, if so many began before it.
fn withdraw<A: Allocator>(write: &mut Option<Write<A>>, sequence: u32) -> Option<Write<A>>
    ensures { IsWithdrawn write.old sequence result write.new }
{
    match write {
        Some(begun) => {
            if begun.sequence == sequence {
                write.take()
            } else {
                None
            }
        }
        None => None,
    }
}

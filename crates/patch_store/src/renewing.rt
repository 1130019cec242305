//! How a store begins anew, so that it is never spent.
ghost use Rattle.std.specs.Prelude.{◌≡◌, [], map, replicate, length, count_by, OnOk, OnErr, MatchResult};
ghost use Rattle.patch_model.specs.Execution.{Execution};
ghost use Rattle.patch_model.specs.Entry.{is_live};
ghost use Rattle.patch_model.specs.Renewed.{renewed};
ghost use Rattle.patch_model.specs.State.{entries_of};
ghost use Rattle.patch_cache.specs.Meaning.{IsCacheOf};
ghost use Rattle.patch_history.specs.History.{History};
ghost use Rattle.patch_store.specs.Meaning.{IsStoreOf};
ghost use Rattle.patch_store.specs.Renewing.{HasBegunAnew, IsUnderWay, renewed_shelf};

use crate::opening::{blocks_are_bytes, first_open};
use crate::stores::Store;
use patch_cache::{Cache, Live, laws as cache_laws};
use patch_history::laws as history_laws;
use patch_model::PatchNo;
use std::alloc::Allocator;

impl<A: Allocator + Copy> Store<A> {
    /// Begins anew where no patch is in memory or in flight, and each group is closed or was never engaged: the numbers of patches
    /// and of groups begin at 0 again, and the trace is empty. Keys, values and extents stay; which extent puts append to is chosen
    /// as at an opening. It takes no memory.
    pub fn renew(&mut self) -> Result<(), Live>
        ensures answer { (h : History) → IsStoreOf self.old h → MatchResult result (λ _. HasBegunAnew h self.new) (λ _. IsUnderWay h) }
        ensures trace { OnOk result (self.new.cache.trace ≡ []) }
        ensures refused { OnErr result (self.new ≡ self.old) }
    {
        history_laws::histories_are_of_stores();
        history_laws::shelves_are_kept();
        if self.cache.live() > 0 {
            return Err(Live);
        }
        self.groups.renew()?;
        self.forget_patches();
        blocks_are_bytes(&self.cache);
        Ok(())
    }

    /// Lets go of what is kept of patches, where none is live.
    fn forget_patches(&mut self)
        ensures cache { (run : Execution) → IsCacheOf self.old.cache run → count_by is_live (entries_of run) ≡ 0
            → IsCacheOf self.new.cache (renewed run) }
        ensures trace { self.new.cache.trace ≡ [] }
        ensures groups { self.new.groups ≡ self.old.groups }
        ensures shelf { self.new.shelf ≡ renewed_shelf self.old.shelf }
        ensures counted { self.new.left_out ≡ 0 }
    {
        renew_cache(&mut self.cache);
        self.extents.renew();
        self.current = first_open(&self.extents, self.geometry);
        self.last_delete = None;
        self.upgrade = None;
        clear_each(self.left.as_mut_slice());
        self.left_out = 0;
    }
}

/// Begins anew with a cache of which no patch is live.
fn renew_cache<A: Allocator + Copy>(cache: &mut Cache<A>)
    ensures anew { (run : Execution) → IsCacheOf cache.old run → count_by is_live (entries_of run) ≡ 0
        → IsCacheOf cache.new (renewed run) }
    ensures trace { cache.new.trace ≡ [] }
{
    cache_laws::whole_caches_are_paged();
    match cache.renew() {
        Ok(()) => {}
        // Never so in a cache that represents an execution. Of no other is anything promised.
        Err(Live) => cache.clear_trace(),
    }
}

/// Leaves none in each of these lists.
fn clear_each<A: Allocator>(left: &mut [Vec<PatchNo, A>])
    ensures { map (λ v. v.items) left.new ≡ replicate (length left.old) [] }
{
    for patches in left.iter_mut() {
        patches.clear();
    }
}

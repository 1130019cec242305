//! How a cache begins anew, so that it is never spent.
ghost use Rattle.std.specs.Prelude.{◌≡◌, ◌≢◌, [], OnOk, OnErr, count_by};
ghost use Rattle.patch_model.specs.Execution.{Execution};
ghost use Rattle.patch_model.specs.Entry.{is_live};
ghost use Rattle.patch_model.specs.Renewed.{renewed};
ghost use Rattle.patch_model.specs.State.{entries_of};
ghost use Rattle.patch_cache.specs.Meaning.{IsCacheOf, IsPagedCacheOf};

use crate::caches::Cache;
use crate::refusals::Live;
use patch_graph::Graph;
use patch_model::laws as model_laws;
use patch_view::laws as view_laws;
use std::alloc::Allocator;

impl<A: Allocator + Copy> Cache<A> {
    /// Begins anew where no patch is in memory or in flight: the numbers of patches and of writes begin at 0 again, and the
    /// trace is empty. The resident blocks stay, with their bytes. It takes no memory.
    pub fn renew(&mut self) -> Result<(), Live>
        ensures answer { (run : Execution) → IsCacheOf self.old run → OnOk result (IsCacheOf self.new (renewed run)) }
        ensures paged { (run : Execution) → IsPagedCacheOf self.old run → OnOk result (IsPagedCacheOf self.new (renewed run)) }
        ensures none { (run : Execution) → IsPagedCacheOf self.old run → OnOk result (count_by is_live (entries_of run) ≡ 0) }
        ensures some { (run : Execution) → IsPagedCacheOf self.old run → OnErr result (count_by is_live (entries_of run) ≢ 0) }
        ensures blocks { self.new.blocks ≡ self.old.blocks }
        ensures trace { OnOk result (self.new.trace ≡ []) }
        ensures refused { OnErr result (self.new ≡ self.old) }
    {
        model_laws::executions_begin_anew();
        model_laws::executions_are_orderly();
        model_laws::flights_are_single();
        view_laws::blocks_are_coherent();
        if self.live > 0 {
            return Err(Live);
        }
        self.graph = Graph::new(self.alloc);
        self.sends = 0;
        self.trace.clear();
        Ok(())
    }
}

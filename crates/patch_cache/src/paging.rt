//! How blocks become resident and are let go: the cache takes memory for those that it was handed, and for no others.
ghost use Rattle.std.specs.Prelude.{◌≡◌, ◌<◌, ◌≤◌, ℕ, List, [], None, true, false, MatchResult, IfErr, OnOk, OnErr, slice_set};
ghost use Rattle.patch_model.specs.declared.limits.TheConstants.{MAX_CACHED};
ghost use Rattle.patch_model.specs.Execution.{Execution};
ghost use Rattle.patch_cache.specs.Contents.{is_resident};
ghost use Rattle.patch_cache.specs.Meaning.{IsCacheOf, IsPagedCacheOf};
ghost use Rattle.patch_cache.specs.Paging.{AreBlocks, with_admitted, AdmitsRight, IsWhyNotAdmitted, why_not_evicted, resident_count};
ghost use Rattle.patch_cache.specs.Refusals.{evict_cause};

use crate::caches::Cache;
use crate::refusals::{AdmitRefusal, EvictRefusal};
use crate::residents::Resident;
use patch_graph::Graph;
use patch_model::{BlockBytes, BlockNo, MAX_CACHED, laws as model_laws};
use patch_rows::Rows;
use patch_view::laws as view_laws;
use std::alloc::Allocator;

impl<A: Allocator + Copy> Cache<A> {
    /// A cache of so many blocks, 1 to 16,777,216, of which none is resident. It takes no memory.
    pub fn of(alloc: A, count: usize) -> Cache<A>
        requires some { 0 < count }
        requires few { count ≤ MAX_CACHED }
        ensures answer { (first : List (List ℕ)) → AreBlocks count first → IsPagedCacheOf result (record { first = first; steps = [] }) }
        ensures none { (n : ℕ) → is_resident result n ≡ false }
        ensures trace { result.trace ≡ [] }
    {
        Cache {
            alloc,
            rows: Rows::of(alloc, count),
            graph: Graph::new(alloc),
            sends: 0,
            live: 0,
            trace: Vec::new(alloc),
            under_way: 0,
        }
    }

    /// Makes a block resident, of which these are the bytes: those that the disk has, with every patch that is durable. It takes
    /// some 4,300 bytes of memory. Where it is refused the bytes are given up.
    pub fn admit(&mut self, block: BlockNo, bytes: BlockBytes<A>) -> Result<(), AdmitRefusal>
        ensures admitted { OnOk result (self.new ≡ with_admitted self.old block bytes) }
        ensures answer { OnOk result (AdmitsRight self.old block bytes self.new) }
        ensures cause { IfErr result (λ refusal. IsWhyNotAdmitted self.old block refusal) }
        ensures refused { OnErr result (self.new ≡ self.old) }
    {
        model_laws::executions_are_orderly();
        view_laws::blocks_are_coherent();
        if block.0 as usize >= self.rows.len() {
            return Err(AdmitRefusal::NoSuchBlock);
        }
        if self.rows.contains(block.0) {
            return Err(AdmitRefusal::IsResident);
        }
        if self.rows.reserve().is_err() {
            return Err(AdmitRefusal::OutOfMemory);
        }
        self.rows.put(block.0, Resident::of(self.alloc, bytes));
        Ok(())
    }

    /// Lets a block go of which no patch is in memory or in flight, and all memory that it took.
    pub fn evict(&mut self, block: BlockNo) -> Result<(), EvictRefusal>
        ensures answer { (run : Execution) → IsPagedCacheOf self.old run → MatchResult result
            (λ done. (why_not_evicted self.old run block ≡ None) × IsPagedCacheOf self.new run)
            (λ refusal. why_not_evicted self.old run block ≡ Some (evict_cause refusal)) }
        ensures gone { OnOk result (self.new.blocks ≡ slice_set self.old.blocks block None) }
        ensures trace { self.new.trace ≡ self.old.trace }
        ensures refused { OnErr result (self.new ≡ self.old) }
    {
        model_laws::flights_are_single();
        if block.0 as usize >= self.rows.len() {
            return Err(EvictRefusal::NoSuchBlock);
        }
        let Some(row) = self.rows.get(block.0) else {
            return Err(EvictRefusal::NotResident(block));
        };
        if !row.state.is_clear() {
            return Err(EvictRefusal::Live);
        }
        // Never so in a cache that represents an execution: some patch of the block is in flight then. Of no other is anything promised.
        if row.write.is_some() {
            return Err(EvictRefusal::Live);
        }
        self.rows.take(block.0);
        self.graph.forget(block);
        Ok(())
    }

    /// Whether the cache has the block.
    pub fn is_resident(&self, block: BlockNo) -> bool
        ensures { result ≡ is_resident self.now block }
    {
        self.rows.contains(block.0)
    }

    /// How many blocks the cache has.
    pub fn resident(&self) -> u32
        ensures { result ≡ resident_count self.now }
    {
        self.rows.standing() as u32
    }
}

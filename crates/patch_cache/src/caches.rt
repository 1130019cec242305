//! The cache, and what is read of it.
ghost use Rattle.std.specs.Prelude.{◌≡◌, ◌<◌, ◌≤◌, ℕ, [], length, map, count_by, IsTrue, IsSome, MatchOption, IfOk, OnOk, OnErr, Contains};
ghost use Rattle.patch_model.specs.declared.limits.TheConstants.{MAX_CACHED};
ghost use Rattle.patch_model.specs.Execution.{Execution};
ghost use Rattle.patch_model.specs.State.{entries_of, state_of};
ghost use Rattle.patch_model.specs.Entry.{Entry, is_live, is_memory};
ghost use Rattle.patch_model.specs.StepOf.{step_of};
ghost use Rattle.patch_model.specs.declared.patches.Mark.TheVariants.{Durable};
ghost use Rattle.patch_graph.specs.Meaning.{HasMark};
ghost use Rattle.patch_cache.specs.Contents.{drained};
ghost use Rattle.patch_cache.specs.Meaning.{IsCacheOf, IsPagedCacheOf};
ghost use Rattle.patch_cache.specs.Flights.{IsLeastReady};
ghost use Rattle.patch_cache.specs.Opening.{AreUnpatched};

use crate::residents::Resident;
use patch_graph::Graph;
use patch_model::{
    BlockBytes, BlockNo, MAX_CACHED, Mark, OutOfMemory, PatchNo, Step, laws as model_laws,
};
use patch_rows::Rows;
use std::alloc::{Allocator, Global};
use std::marker::Model;

/// The blocks of a disk, with the patches that were made of them and are not all on the disk yet.
///
/// Patches are made by `create` and become one by `merge`. `send` begins a write of all that may go to the disk of a block,
/// and `complete` ends it. Each of them is a step, and is noted in the trace.
#[derive(Drop)]
pub struct Cache<A: Allocator + Copy = Global> {
    pub(crate) alloc: A,
    /// The resident blocks.
    pub(crate) rows: Rows<Resident<A>, A>,
    pub(crate) graph: Graph<A>,
    pub(crate) sends: u32,
    pub(crate) live: u32,
    pub(crate) trace: Vec<Step<A>, A>,
    /// How many blocks have a write under way: the trace keeps room for the completion of each.
    pub(crate) under_way: usize,
}

impl<A: Allocator + Copy> Model for Cache<A> {
    ghost use Rattle.std.specs.Prelude.{◌≡◌, ◌≤◌, ◌+◌, map, length, count_by, is_some, vec_capacity};
    ghost use Rattle.patch_model.specs.StepOf.{step_of};
    ghost use Rattle.patch_model.specs.declared.limits.TheConstants.{MAX_CACHED};
    ghost use Rattle.patch_cache.specs.Contents.{Contents, state_in, write_in};

    ghost Value = { Contents };

    ghost view = { λ c. record {
      blocks = map state_in c.rows.items;
      writes = map write_in c.rows.items;
      graph = c.graph;
      sends = c.sends;
      live = c.live;
      trace = map step_of c.trace.items;
    } };

    ghost invariant = { λ c. (length c.rows.items ≤ MAX_CACHED)
        × (c.under_way ≡ count_by is_some (map write_in c.rows.items))
        × (length c.trace.items + c.under_way ≤ vec_capacity c.trace) };
}

impl<A: Allocator + Copy> Cache<A> {
    /// A cache of these blocks, of which there are 1 to 16,777,216, each resident and with no patch yet. Where there is no memory the
    /// blocks are given up.
    pub fn open(alloc: A, blocks: Vec<BlockBytes<A>, A>) -> Result<Cache<A>, OutOfMemory>
        requires some { 0 < length blocks.items }
        requires few { length blocks.items ≤ MAX_CACHED }
        ensures answer { IfOk result (λ cache. IsCacheOf cache (record { first = blocks.items; steps = [] })) }
        ensures trace { IfOk result (λ cache. cache.trace ≡ []) }
    {
        Ok(Cache {
            alloc,
            rows: all_resident(alloc, blocks)?,
            graph: Graph::new(alloc),
            sends: 0,
            live: 0,
            trace: Vec::new(alloc),
            under_way: 0,
        })
    }

    /// How many blocks there are.
    pub fn blocks(&self) -> u32
        ensures value { result ≡ length self.now.blocks }
        ensures answer { (run : Execution) → IsCacheOf self.now run → result ≡ length run.first }
        ensures paged { (run : Execution) → IsPagedCacheOf self.now run → result ≡ length run.first }
    {
        self.rows.len() as u32
    }

    /// How many patches were made.
    pub fn made(&self) -> u32
        ensures value { result ≡ self.now.graph.made }
        ensures answer { (run : Execution) → IsCacheOf self.now run → result ≡ length (entries_of run) }
        ensures paged { (run : Execution) → IsPagedCacheOf self.now run → result ≡ length (entries_of run) }
    {
        self.graph.made()
    }

    /// How many patches are in memory or in flight.
    pub fn live(&self) -> u32
        ensures value { result ≡ self.now.live }
        ensures answer { (run : Execution) → IsCacheOf self.now run → result ≡ count_by is_live (entries_of run) }
        ensures paged { (run : Execution) → IsPagedCacheOf self.now run → result ≡ count_by is_live (entries_of run) }
    {
        self.live
    }

    /// How far a patch has come. None for one that wasn't made.
    pub fn mark_of(&self, no: PatchNo) -> Option<Mark>
        ensures answer { (run : Execution) → IsCacheOf self.now run → MatchOption result (length (entries_of run) ≤ no) (HasMark (entries_of run) no) }
        ensures paged { (run : Execution) → IsPagedCacheOf self.now run → MatchOption result (length (entries_of run) ≤ no) (HasMark (entries_of run) no) }
    {
        self.graph.mark_of(no)
    }

    /// A number below which every patch is durable: who asks for the marks of many patches may pass over those below it.
    pub fn durable_below(&self) -> u32
        ensures answer { (run : Execution) → IsCacheOf self.now run → (n : ℕ) → n < result → HasMark (entries_of run) n Durable }
        ensures paged { (run : Execution) → IsPagedCacheOf self.now run → (n : ℕ) → n < result → HasMark (entries_of run) n Durable }
    {
        self.graph.durable_below()
    }

    /// The least block of which a write can begin. It takes no memory.
    pub fn next_ready(&mut self) -> Option<BlockNo>
        ensures answer { (run : Execution) → IsCacheOf self.old run → IsLeastReady run result }
        ensures paged { (run : Execution) → IsPagedCacheOf self.old run → IsLeastReady run result }
        ensures some { (run : Execution) (e : Entry) → IsCacheOf self.old run → (state_of run).flights ≡ []
            → Contains (entries_of run) e → IsTrue (is_memory e) → IsSome result }
        ensures some_paged { (run : Execution) (e : Entry) → IsPagedCacheOf self.old run → (state_of run).flights ≡ []
            → Contains (entries_of run) e → IsTrue (is_memory e) → IsSome result }
        ensures same { self.new ≡ self.old }
    {
        model_laws::some_is_ready();
        model_laws::pairs_merge();
        model_laws::patches_are_placed();
        model_laws::flights_are_single();
        model_laws::paths_form_no_ring();
        model_laws::ready_is_largest();
        self.graph.next_open(0)
    }

    /// The steps that were accepted since the trace was drained last, the oldest first.
    pub fn trace(&self) -> &[Step<A>]
        ensures { map step_of result.now ≡ self.now.trace }
    {
        self.trace.as_slice()
    }

    /// The steps of the trace, which is empty then.
    pub fn drain_trace(&mut self) -> Result<Vec<Step<A>, A>, OutOfMemory>
        ensures steps { IfOk result (λ steps. map step_of steps.items ≡ self.old.trace) }
        ensures drained { OnOk result (self.new ≡ drained self.old) }
        ensures same { (run : Execution) → IsCacheOf self.old run → IsCacheOf self.new run }
        ensures same_paged { (run : Execution) → IsPagedCacheOf self.old run → IsPagedCacheOf self.new run }
        ensures refused { OnErr result (self.new ≡ self.old) }
    {
        let kept = Vec::with_capacity(self.alloc, self.under_way)?;
        Ok(std::mem::replace(&mut self.trace, kept))
    }

    /// Lets the steps of the trace go, whose room stays. It takes no memory.
    pub fn clear_trace(&mut self)
        ensures { self.new ≡ drained self.old }
    {
        self.trace.clear();
    }
}

/// Each of these blocks, resident and with no patch.
fn all_resident<A: Allocator + Copy>(
    alloc: A,
    blocks: Vec<BlockBytes<A>, A>,
) -> Result<Rows<Resident<A>, A>, OutOfMemory>
    requires { length blocks.items ≤ MAX_CACHED }
    ensures { IfOk result (λ rows. AreUnpatched rows.items blocks.items) }
{
    let mut rows = Rows::of(alloc, blocks.len());
    let mut number = 0;
    for block in blocks {
        rows.reserve()?;
        rows.put(number, Resident::of(alloc, block));
        number += 1;
    }
    Ok(rows)
}

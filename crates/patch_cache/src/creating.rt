//! How a patch is made.
ghost use Rattle.std.specs.Prelude.{Bool, ℕ, false, ◌≡◌, ◌+◌, ◌<◌, ◌≤◌, ◌++◌, ◌∷◌, IsTrue, [], Some, None, length, option_map, IfOk, IfErr, IsNone, OnOk, OnErr};
ghost use Rattle.patch_model.specs.Execution.{Execution};
ghost use Rattle.patch_model.specs.Names.{numbers_named};
ghost use Rattle.patch_model.specs.Step.{Create};
ghost use Rattle.patch_graph.specs.Adding.{MayBePutIn, PutsIn};
ghost use Rattle.patch_cache.specs.Creating.{why_not_created, MayBeMade, IsMade, IsMadeBy, MayLay, IsLaid};
ghost use Rattle.patch_cache.specs.Contents.{is_resident};
ghost use Rattle.patch_cache.specs.Meaning.{IsCacheOf, IsCacheBy, IsPagedCacheOf};
ghost use Rattle.patch_cache.specs.Paging.{if_resident};
ghost use Rattle.patch_cache.specs.Refusals.{create_cause, IsCause};

use crate::caches::Cache;
use crate::refusals::CreateRefusal;
use patch_graph::Graph;
use patch_model::{
    BLOCK, BlockNo, Bytes, MAX_LIVE, MAX_PATCHES, Named, Names, OutOfMemory, PatchNo, Step, Undo,
    laws as model_laws,
};
use patch_view::{BlockState, laws as view_laws};
use std::alloc::Allocator;

impl<A: Allocator + Copy> Cache<A> {
    /// Makes a patch: the bytes that it puts in the block from `start` on, and the patches that it names as going to the
    /// disk before it, or with it. It depends on these, and on each earlier patch of the block that shares a byte with it
    /// (Featherstitch's overlap rule). Its number is the next one. `MayDrop` lets it go without undo bytes where it never
    /// has to be taken back.
    pub fn create(
        &mut self,
        block: BlockNo,
        start: usize,
        bytes: &[u8],
        after: &[PatchNo],
        undo: Undo,
    ) -> Result<PatchNo, CreateRefusal>
        ensures made { (run : Execution) → IsCacheOf self.old run → IfOk result (λ no.
            IsMade run block start bytes.now after.now undo no self.new) }
        ensures made_paged { (run : Execution) → IsPagedCacheOf self.old run → IfOk result (λ no.
            IsMadeBy false run block start bytes.now after.now undo no self.new) }
        ensures cause { (run : Execution) → IsCacheOf self.old run → IfErr result (λ refusal.
            IsCause (why_not_created run block start bytes.now after.now) (create_cause refusal)) }
        ensures cause_paged { (run : Execution) → IsPagedCacheOf self.old run → IfErr result (λ refusal.
            IsCause (if_resident self.old block (why_not_created run block start bytes.now after.now)) (create_cause refusal)) }
        ensures trace { OnOk result (self.new.trace ≡ self.old.trace ++ Create block start bytes.now after.now undo ∷ []) }
        ensures refused { OnErr result (self.new ≡ self.old) }
    {
        match self.why_not_made(block, start, bytes, Named::Listed(after)) {
            Some(refusal) => Err(refusal),
            None => {
                let bytes = Bytes::from_slice(self.alloc, bytes)?;
                let after = Names::from_slice(self.alloc, after)?;
                self.create_owned(block, start, bytes, after, undo)
            }
        }
    }

    /// Makes a patch as [`create`](Cache::create) does, of bytes and names that the caller gives up: the trace keeps them, and
    /// nothing is copied for it.
    pub fn create_owned(
        &mut self,
        block: BlockNo,
        start: usize,
        bytes: Bytes<A>,
        after: Names<A>,
        undo: Undo,
    ) -> Result<PatchNo, CreateRefusal>
        ensures made { (run : Execution) → IsCacheOf self.old run → IfOk result (λ no.
            IsMade run block start bytes after undo no self.new) }
        ensures made_paged { (run : Execution) → IsPagedCacheOf self.old run → IfOk result (λ no.
            IsMadeBy false run block start bytes after undo no self.new) }
        ensures cause { (run : Execution) → IsCacheOf self.old run → IfErr result (λ refusal.
            IsCause (why_not_created run block start bytes after) (create_cause refusal)) }
        ensures cause_paged { (run : Execution) → IsPagedCacheOf self.old run → IfErr result (λ refusal.
            IsCause (if_resident self.old block (why_not_created run block start bytes after)) (create_cause refusal)) }
        ensures trace { OnOk result (self.new.trace ≡ self.old.trace ++ Create block start bytes after undo ∷ []) }
        ensures refused { OnErr result (self.new ≡ self.old) }
    {
        match self.why_not_made(block, start, bytes.as_slice(), after.lend()) {
            Some(refusal) => Err(refusal),
            None => Ok(self.make(block, start, bytes, after, undo)?),
        }
    }

    /// The first cause against the patch.
    fn why_not_made(
        &self,
        block: BlockNo,
        start: usize,
        bytes: &[u8],
        after: Named<'_>,
    ) -> Option<CreateRefusal>
        ensures cause { (whole : Bool) (run : Execution) → IsCacheBy whole self.now run → option_map create_cause result
            ≡ if_resident self.now block (why_not_created run block start bytes.now (numbers_named after.entry)) }
        ensures resident { IsNone result → IsTrue (is_resident self.now block) }
        ensures some { IsNone result → 0 < length bytes.now }
        ensures fits { IsNone result → start + length bytes.now ≤ BLOCK }
        ensures numbers_left { IsNone result → self.now.graph.made < MAX_PATCHES }
        ensures live_left { IsNone result → self.now.live < MAX_LIVE }
    {
        if block.0 as usize >= self.rows.len() {
            return Some(CreateRefusal::NoSuchBlock);
        }
        if !self.rows.contains(block.0) {
            return Some(CreateRefusal::NotResident(block));
        }
        self.why_not_laid(start, bytes, after)
    }

    /// The first cause against the patch that its block has no part in.
    fn why_not_laid(&self, start: usize, bytes: &[u8], after: Named<'_>) -> Option<CreateRefusal>
        ensures cause { (whole : Bool) (run : Execution) (block : ℕ) → IsCacheBy whole self.now run → block < length run.first
            → option_map create_cause result ≡ why_not_created run block start bytes.now (numbers_named after.entry) }
        ensures some { IsNone result → 0 < length bytes.now }
        ensures fits { IsNone result → start + length bytes.now ≤ BLOCK }
        ensures numbers_left { IsNone result → self.now.graph.made < MAX_PATCHES }
        ensures live_left { IsNone result → self.now.live < MAX_LIVE }
    {
        if bytes.is_empty() {
            return Some(CreateRefusal::EmptyPatch);
        }
        if bytes.len() > BLOCK || start > BLOCK - bytes.len() {
            return Some(CreateRefusal::OutOfBlock);
        }
        if after.has_unmade(self.graph.made()) {
            return Some(CreateRefusal::UnknownDependency);
        }
        if self.graph.made() >= MAX_PATCHES {
            return Some(CreateRefusal::NumbersSpent);
        }
        if self.live >= MAX_LIVE {
            return Some(CreateRefusal::TooManyLive);
        }
        None
    }

    /// Makes a patch that there is no cause to refuse.
    fn make(
        &mut self,
        block: BlockNo,
        start: usize,
        bytes: Bytes<A>,
        after: Names<A>,
        undo: Undo,
    ) -> Result<PatchNo, OutOfMemory>
        requires resident { IsTrue (is_resident self.old block) }
        requires some { 0 < length bytes }
        requires fits { start + length bytes ≤ BLOCK }
        requires numbers_left { self.old.graph.made < MAX_PATCHES }
        requires live_left { self.old.live < MAX_LIVE }
        ensures made { (whole : Bool) (run : Execution) → IsCacheBy whole self.old run
            → MayBeMade run block start bytes after
            → IfOk result (λ no. IsMadeBy whole run block start bytes after undo no self.new) }
        ensures trace { OnOk result (self.new.trace ≡ self.old.trace ++ Create block start bytes after undo ∷ []) }
        ensures refused { OnErr result (self.new ≡ self.old) }
    {
        model_laws::legal_patches_are_made();
        model_laws::steps_extend();
        model_laws::steps_change_blocks();
        model_laws::live_are_counted();
        model_laws::flights_are_ready();
        self.trace.reserve(self.under_way + 1)?;
        let row = self.rows.row_mut(block.0);
        let no = lay_on(
            &mut row.state,
            &mut self.graph,
            block,
            start,
            bytes.as_slice(),
            after.lend(),
            undo,
        )?;
        self.live += 1;
        self.trace.push_reserved(Step::Create {
            block,
            start,
            bytes,
            after,
            undo,
        });
        Ok(no)
    }
}

/// Lays a patch on its block, and adds it to the graph. The graph says first whether it is hard. Where the block has all the
/// memory that it needs, the graph takes the patch in, and then it is laid.
fn lay_on<A: Allocator + Copy>(
    state: &mut BlockState<A>,
    graph: &mut Graph<A>,
    block: BlockNo,
    start: usize,
    bytes: &[u8],
    after: Named<'_>,
    undo: Undo,
) -> Result<PatchNo, OutOfMemory>
    requires some { 0 < length bytes.now }
    requires fits { start + length bytes.now ≤ BLOCK }
    requires numbers_left { graph.old.made < MAX_PATCHES }
    ensures laid { (run : Execution) → MayLay run block start bytes.now (numbers_named after.entry) state.old graph.old
        → IfOk result (λ no. IsLaid run block start bytes.now (numbers_named after.entry) undo no state.new graph.new) }
    ensures refused { OnErr result ((state.new ≡ state.old) × (graph.new ≡ graph.old)) }
{
    model_laws::steps_extend();
    model_laws::steps_change_blocks();
    model_laws::executions_are_orderly();
    view_laws::blocks_are_coherent();
    let stop = start + bytes.len();
    let newcomer = graph.draw_up(block, start, stop, after, undo)?;
    let no = newcomer.no();
    let hard = newcomer.is_hard();
    let enter = move |graph: &mut Graph<A>| -> Result<(), OutOfMemory>
        requires numbers { graph.old.made < MAX_PATCHES }
        requires next { MayBePutIn graph.old newcomer }
        ensures answer { OnOk result (PutsIn graph.old graph.new newcomer) }
        ensures refused { OnErr result (graph.new ≡ graph.old) }
    { graph.put_in(newcomer) };
    state.lay_if(no, start, bytes, after, hard, graph, enter)?;
    Ok(no)
}

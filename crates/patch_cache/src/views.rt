//! A block of the cache lent with classes to be taken back, which has to be put right again.
ghost use Rattle.std.specs.Prelude.{Bool, false, ◌≡◌, ◌↔◌, ℕ, List, IsTrue, length, IsOk, IfOk, IfErr, OnErr};
ghost use Rattle.std.specs.Borrow.{sem};
ghost use Rattle.patch_model.specs.declared.blocks.TheConstants.{BLOCK};
ghost use Rattle.patch_model.specs.Execution.{Execution};
ghost use Rattle.patch_model.specs.History.{history_of, without};
ghost use Rattle.patch_view.specs.Answers.{MayTake, MayPutBack};
ghost use Rattle.patch_stacks.specs.Refusal.{put_back_cause};
ghost use Rattle.patch_cache.specs.Contents.{Contents, block_at, is_resident, with_block};
ghost use Rattle.patch_cache.specs.Meaning.{IsCacheOf, IsCacheBy, IsPagedCacheOf, ShowsBy};
ghost use Rattle.patch_cache.specs.Paging.{IsWhyNotLent};
ghost use Rattle.patch_cache.specs.Refusals.{take_cause};
ghost use Rattle.patch_cache.specs.declared.asks.Move.TheVariants.{Take, Back};

use crate::caches::Cache;
use crate::refusals::{TakeRefusal, ViewRefusal};
use patch_model::{BlockNo, Ending, Mark, PatchNo};
use patch_view::PutBackRefusal;
use std::alloc::{Allocator, Global};

/// A view of one block of a cache, of which classes are taken back for a while. [`restore`](CacheView::restore) alone
/// spends it: a view can't be let go, so no block stays as a view left it. None of its calls takes memory.
pub struct CacheView<'a, A: Allocator + Copy = Global> {
    pub(crate) cache: &'a mut Cache<A>,
    pub(crate) block: BlockNo,
    ghost in_range: { IsTrue (is_resident cache.now block) },
}

impl<A: Allocator + Copy> Cache<A> {
    ghost use Rattle.patch_cache.specs.Lending.{RestsView};
    ghost use Rattle.patch_cache.specs.Viewing.{seen_by, block_of, borrow_of, IsViewOf, IsMoved, IsMovedBy, HasTaken, HasTakenBy, IsLentOf};

    /// Lends a block as a view.
    pub fn view(&mut self, block: BlockNo) -> Result<CacheView<'_, A>, ViewRefusal>
        ensures* refused { sem 𝓛 (RestsView A.row A.Allocator self.entry result) }
        ensures same_reference { IfOk result (λ v. borrow_of v ≡ self.entry.ghost_name) }
        ensures exists { IsOk result ↔ IsTrue (is_resident self.old block) }
        ensures cause { IfErr result (λ refusal. IsWhyNotLent self.old block refusal) }
        ensures same { IfOk result (λ v. seen_by v ≡ self.old) }
        ensures view { IfOk result (λ v. IsViewOf self.old block (seen_by v)) }
        ensures block { IfOk result (λ v. block_of v ≡ block) }
    {
        if block.0 as usize >= self.rows.len() {
            return Err(ViewRefusal::NoSuchBlock);
        }
        if !self.rows.contains(block.0) {
            return Err(ViewRefusal::NotResident(block));
        }
        Ok(CacheView { cache: self, block })
    }

    /// Takes the class of a patch back of the block.
    pub(crate) fn take_of(&mut self, block: BlockNo, no: PatchNo) -> Result<(), TakeRefusal>
        requires { IsTrue (is_resident self.old block) }
        ensures answer { (whole : Bool) (run : Execution) (names : List ℕ) → ShowsBy whole self.old block names run
            → IsMovedBy whole take_cause run block names (Take no) result self.new }
        ensures accepted { (whole : Bool) (run : Execution) (names : List ℕ) → ShowsBy whole self.old block names run → IsOk result ↔ MayTake (history_of run block) names no }
        ensures others { self.new ≡ with_block self.old block (block_at self.new block) }
        ensures view { (before : Contents) → IsViewOf before block self.old → IsViewOf before block self.new }
        ensures refused { OnErr result (self.new ≡ self.old) }
    {
        let Some(mark) = self.graph.mark_of(no) else {
            return Err(TakeRefusal::Unknown);
        };
        if mark == Mark::Durable {
            return Err(TakeRefusal::Durable);
        }
        self.rows.row_mut(block.0).state.take(no)?;
        Ok(())
    }

    /// Puts the class of a patch back.
    pub(crate) fn put_back_of(&mut self, block: BlockNo, no: PatchNo) -> Result<(), PutBackRefusal>
        requires { IsTrue (is_resident self.old block) }
        ensures answer { (whole : Bool) (run : Execution) (names : List ℕ) → ShowsBy whole self.old block names run
            → IsMovedBy whole put_back_cause run block names (Back no) result self.new }
        ensures accepted { (whole : Bool) (run : Execution) (names : List ℕ) → ShowsBy whole self.old block names run → IsOk result ↔ MayPutBack (history_of run block) names no }
        ensures others { self.new ≡ with_block self.old block (block_at self.new block) }
        ensures view { (before : Contents) → IsViewOf before block self.old → IsViewOf before block self.new }
        ensures refused { OnErr result (self.new ≡ self.old) }
    {
        self.rows.row_mut(block.0).state.put_back(no)
    }

    /// The block's bytes without the classes that are taken of it.
    pub(crate) fn bytes_of(&self, block: BlockNo) -> &[u8]
        requires { IsTrue (is_resident self.now block) }
        ensures length { length result.now ≡ BLOCK }
        ensures answer { (whole : Bool) (run : Execution) (names : List ℕ) → ShowsBy whole self.now block names run → result.now ≡ without (history_of run block) names }
    {
        self.rows.row(block.0).state.bytes()
    }

    /// Puts everything back that is taken of the block.
    pub(crate) fn restore_of(&mut self, block: BlockNo)
        requires { IsTrue (is_resident self.old block) }
        ensures answer { (whole : Bool) (run : Execution) (names : List ℕ) → ShowsBy whole self.old block names run → IsCacheBy whole self.new run }
        ensures as_before { (whole : Bool) (run : Execution) (names : List ℕ) (before : Contents) → ShowsBy whole self.old block names run → IsCacheBy whole before run
            → IsViewOf before block self.old → self.new ≡ before }
        ensures others { self.new ≡ with_block self.old block (block_at self.new block) }
    {
        self.rows.row_mut(block.0).state.put_all_back();
    }
}

impl<'a, A: Allocator + Copy> Ending for CacheView<'a, A> {}

impl<'a, A: Allocator + Copy> CacheView<'a, A> {
    ghost use Rattle.patch_cache.specs.Viewing.{seen_by, block_of, borrow_of, IsViewOf, IsMoved, IsMovedBy, HasTaken, HasTakenBy, IsLentOf};

    /// Takes the class of this patch back.
    pub fn take(&mut self, no: PatchNo) -> Result<(), TakeRefusal>
        ensures same_reference { borrow_of self.new ≡ borrow_of self.old }
        ensures same_block { block_of self.new ≡ block_of self.old }
        ensures answer { (run : Execution) (names : List ℕ) → HasTaken self.old names run
            → IsMoved take_cause run (block_of self.old) names (Take no) result (seen_by self.new) }
        ensures paged { (run : Execution) (names : List ℕ) → HasTakenBy false self.old names run
            → IsMovedBy false take_cause run (block_of self.old) names (Take no) result (seen_by self.new) }
        ensures accepted { (run : Execution) (names : List ℕ) → HasTaken self.old names run
            → IsOk result ↔ MayTake (history_of run (block_of self.old)) names no }
        ensures accepted_paged { (run : Execution) (names : List ℕ) → HasTakenBy false self.old names run
            → IsOk result ↔ MayTake (history_of run (block_of self.old)) names no }
        ensures others { seen_by self.new ≡ with_block (seen_by self.old) (block_of self.old) (block_at (seen_by self.new) (block_of self.old)) }
        ensures view { (before : Contents) → IsViewOf before (block_of self.old) (seen_by self.old) → IsViewOf before (block_of self.old) (seen_by self.new) }
        ensures refused { OnErr result (seen_by self.new ≡ seen_by self.old) }
    {
        self.cache.take_of(self.block, no)
    }

    /// Puts the class of this patch back.
    pub fn put_back(&mut self, no: PatchNo) -> Result<(), PutBackRefusal>
        ensures same_reference { borrow_of self.new ≡ borrow_of self.old }
        ensures same_block { block_of self.new ≡ block_of self.old }
        ensures answer { (run : Execution) (names : List ℕ) → HasTaken self.old names run
            → IsMoved put_back_cause run (block_of self.old) names (Back no) result (seen_by self.new) }
        ensures paged { (run : Execution) (names : List ℕ) → HasTakenBy false self.old names run
            → IsMovedBy false put_back_cause run (block_of self.old) names (Back no) result (seen_by self.new) }
        ensures accepted { (run : Execution) (names : List ℕ) → HasTaken self.old names run
            → IsOk result ↔ MayPutBack (history_of run (block_of self.old)) names no }
        ensures accepted_paged { (run : Execution) (names : List ℕ) → HasTakenBy false self.old names run
            → IsOk result ↔ MayPutBack (history_of run (block_of self.old)) names no }
        ensures others { seen_by self.new ≡ with_block (seen_by self.old) (block_of self.old) (block_at (seen_by self.new) (block_of self.old)) }
        ensures view { (before : Contents) → IsViewOf before (block_of self.old) (seen_by self.old) → IsViewOf before (block_of self.old) (seen_by self.new) }
        ensures refused { OnErr result (seen_by self.new ≡ seen_by self.old) }
    {
        self.cache.put_back_of(self.block, no)
    }

    /// The block's bytes without the classes that are taken.
    pub fn bytes(&self) -> &[u8]
        ensures length { length result.now ≡ BLOCK }
        ensures answer { (run : Execution) (names : List ℕ) → HasTaken self.now names run
            → result.now ≡ without (history_of run (block_of self.now)) names }
        ensures paged { (run : Execution) (names : List ℕ) → HasTakenBy false self.now names run
            → result.now ≡ without (history_of run (block_of self.now)) names }
    {
        self.cache.bytes_of(self.block)
    }

    /// Puts every class back, and spends the view. The cache is then as it was before the view.
    pub fn restore(self)
        ensures answer { (run : Execution) (names : List ℕ) → HasTaken self.entry names run → IsCacheOf self.exit.0.now run }
        ensures paged { (run : Execution) (names : List ℕ) → HasTakenBy false self.entry names run → IsPagedCacheOf self.exit.0.now run }
        ensures as_before { (run : Execution) (names : List ℕ) (before : Contents) → HasTaken self.entry names run
            → IsCacheOf before run → IsLentOf before self.entry → self.exit.0.now ≡ before }
        ensures as_before_paged { (run : Execution) (names : List ℕ) (before : Contents) → HasTakenBy false self.entry names run
            → IsPagedCacheOf before run → IsLentOf before self.entry → self.exit.0.now ≡ before }
        ensures others { self.exit.0.now ≡ with_block (seen_by self.entry) (block_of self.entry) (block_at self.exit.0.now (block_of self.entry)) }
    {
        let CacheView { cache, block } = self;
        cache.restore_of(block);
    }
}

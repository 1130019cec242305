//! What is read of an engine's blocks, with all their patches and without some.
ghost use Rattle.std.specs.Prelude.{◌≡◌, ◌<◌, ℕ, List, [], false, Some, length, MatchResult, IfErr, OnOk, OnErr};
ghost use Rattle.patch_model.specs.Execution.{Execution};
ghost use Rattle.patch_cache.specs.Contents.{Contents};
ghost use Rattle.patch_cache.specs.Paging.{if_resident};
ghost use Rattle.patch_cache.specs.Refusals.{read_cause, view_cause};
ghost use Rattle.patch_cache.specs.Viewing.{why_not_read, IsRead, seen_by, block_of, borrow_of, IsViewOf, HasTakenBy, StandsBy};
ghost use Rattle.patch_engine.specs.Meaning.{IsEngineOf, KeepsRest};
ghost use Rattle.patch_engine.specs.Showing.{IsShownWithout, why_not_without, HasShown, HaveTaken};
ghost use Rattle.patch_engine.specs.Refusals.{without_cause};

use crate::engines::Engine;
use crate::refusals::WithoutRefusal;
use patch_cache::{CacheView, ReadRefusal, TakeRefusal, ViewRefusal};
use patch_model::{BLOCK, BlockNo, PatchNo};
use std::alloc::Allocator;

impl<A: Allocator + Copy> Engine<A> {
    /// The `len` bytes of a block from `start` on, with all its patches. It takes no memory.
    pub fn read(&self, block: BlockNo, start: usize, len: usize) -> Result<&[u8], ReadRefusal>
        ensures { (run : Execution) → IsEngineOf self.now run → MatchResult result
            (λ bytes. IsRead run block start len bytes.now)
            (λ refusal. if_resident self.now.cache block (why_not_read run block start len) ≡ Some (read_cause refusal)) }
    {
        self.cache.read(block, start, len)
    }

    /// The bytes of a block from `start` on, as many as there is room for, without the classes of these patches. They are taken back one
    /// after another, each behind those that depend on it, and all is put back before the call returns. It takes no memory.
    pub fn without(
        &mut self,
        block: BlockNo,
        patches: &[PatchNo],
        start: usize,
        into: &mut [u8],
    ) -> Result<(), WithoutRefusal>
        ensures bytes { (run : Execution) → IsEngineOf self.old run → OnOk result (IsShownWithout run block patches.now start into.new) }
        ensures cause { (run : Execution) → IsEngineOf self.old run → IfErr result (λ refusal.
            why_not_without self.old.cache run block patches.now start (length into.old) ≡ Some (without_cause refusal)) }
        ensures same { (run : Execution) → IsEngineOf self.old run → self.new ≡ self.old }
        ensures rest { KeepsRest self.old self.new }
        ensures refused { OnErr result (into.new ≡ into.old) }
        ensures room { length into.new ≡ length into.old }
    {
        match self.cache.view(block) {
            Ok(mut view) => {
                let shown = show(&mut view, patches, start, into);
                view.restore();
                shown
            }
            Err(refusal) => Err(WithoutRefusal::Unread(unread(refusal))),
        }
    }
}

/// Why a block that isn't lent isn't read.
fn unread(refusal: ViewRefusal) -> ReadRefusal
    ensures { read_cause result ≡ view_cause refusal }
{
    match refusal {
        ViewRefusal::NoSuchBlock => ReadRefusal::NoSuchBlock,
        ViewRefusal::NotResident(block) => ReadRefusal::NotResident(block),
    }
}

/// Takes the classes of the patches back, and copies the span without them. What was taken stays so.
fn show<A: Allocator + Copy>(
    view: &mut CacheView<'_, A>,
    patches: &[PatchNo],
    start: usize,
    into: &mut [u8],
) -> Result<(), WithoutRefusal>
    ensures same_reference { borrow_of view.new ≡ borrow_of view.old }
    ensures same_block { block_of view.new ≡ block_of view.old }
    ensures view { (before : Contents) → IsViewOf before (block_of view.old) (seen_by view.old)
        → IsViewOf before (block_of view.old) (seen_by view.new) }
    ensures stands { (run : Execution) → HasTakenBy false view.old [] run → StandsBy false run (block_of view.old) (seen_by view.new) }
    ensures shown { (run : Execution) → HasTakenBy false view.old [] run → block_of view.old < length run.first
        → HasShown run (block_of view.old) patches.now start into.new result }
    ensures refused { OnErr result (into.new ≡ into.old) }
    ensures room { length into.new ≡ length into.old }
{
    let len = into.len();
    if len > BLOCK || start > BLOCK - len {
        return Err(WithoutRefusal::Unread(ReadRefusal::OutOfBlock));
    }
    match take_each(view, patches) {
        Ok(()) => {
            into.copy_from_slice(&view.bytes()[start..start + len]);
            Ok(())
        }
        Err(refusal) => Err(WithoutRefusal::Untaken(refusal)),
    }
}

/// Takes the classes of the patches back, one after another, up to the first that is refused.
fn take_each<A: Allocator + Copy>(
    view: &mut CacheView<'_, A>,
    patches: &[PatchNo],
) -> Result<(), TakeRefusal>
    ensures same_reference { borrow_of view.new ≡ borrow_of view.old }
    ensures same_block { block_of view.new ≡ block_of view.old }
    ensures view { (before : Contents) → IsViewOf before (block_of view.old) (seen_by view.old)
        → IsViewOf before (block_of view.old) (seen_by view.new) }
    ensures taken { (run : Execution) (names : List ℕ) → HasTakenBy false view.old names run
        → HaveTaken run (block_of view.old) names patches.now result (seen_by view.new) }
{
    for no in patches {
        view.take(*no)?;
    }
    Ok(())
}

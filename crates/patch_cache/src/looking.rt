//! A look at a span of a block, without some of its patches and with all of them.
ghost use Rattle.std.specs.Prelude.{Bool, ◌≡◌, ◌+◌, ◌≤◌, ◌⊎◌, None, IsTrue, ℕ, List, Some, Ok, Err, length, IfOk, IfErr};
ghost use Rattle.patch_model.specs.declared.blocks.TheConstants.{BLOCK};
ghost use Rattle.patch_model.specs.declared.refusals.RefusalKind.TheVariants as kind;
ghost use Rattle.patch_model.specs.Execution.{Execution};
ghost use Rattle.patch_model.specs.History.{history_of, without};
ghost use Rattle.patch_model.specs.Refusing.{bare};
ghost use Rattle.patch_cache.specs.Contents.{Contents, is_resident};
ghost use Rattle.patch_cache.specs.Meaning.{IsCacheBy, ShowsBy};
ghost use Rattle.patch_cache.specs.Paging.{why_not_resident};
ghost use Rattle.patch_cache.specs.Viewing.{with_move, with_moves, bytes_at, StandsBy, IsViewOf};
ghost use Rattle.patch_cache.specs.Asks.{IsAnswer, IsGivenUp, View, answer_of};
ghost use Rattle.patch_cache.specs.Looking.{HasLooked, HasMovedBy};

use crate::asks::{Answer, Move};
use crate::caches::Cache;
use patch_model::{BlockNo, Bytes, Refusal, RefusalKind, Refuses};
use std::alloc::Allocator;

impl<A: Allocator + Copy> Cache<A> {
    /// Looks at a span of a block without the classes that the moves leave taken. All is put back after the look.
    pub(crate) fn look(
        &mut self,
        block: BlockNo,
        moves: &[Move],
        start: usize,
        len: usize,
    ) -> Answer<A>
        requires { why_not_resident self.old block ≡ None }
        ensures answer { (whole : Bool) (run : Execution) → IsCacheBy whole self.old run
            → IsAnswer run (View block moves.now start len) (answer_of result) ⊎ IsGivenUp run (View block moves.now start len) (answer_of result) }
        ensures restored { (whole : Bool) (run : Execution) → IsCacheBy whole self.old run → IsCacheBy whole self.new run }
        ensures same { (whole : Bool) (run : Execution) → IsCacheBy whole self.old run → self.new ≡ self.old }
        ensures trace { self.new.trace ≡ self.old.trace }
    {
        if let Some(refusal) = self.why_not_shown(block, start, len) {
            return Answer::Refused(refusal.refusal());
        }
        let without = self.without(block, moves, start, len);
        self.restore_of(block);
        let without = match without {
            Ok(without) => without,
            Err(refusal) => return Answer::Refused(refusal),
        };
        match self.copied(block, start, len) {
            Ok(cached) => Answer::Seen { without, cached },
            Err(refusal) => Answer::Refused(refusal),
        }
    }

    /// The span without the classes that the moves leave taken, which stay so; or the first refusal of a move.
    fn without(
        &mut self,
        block: BlockNo,
        moves: &[Move],
        start: usize,
        len: usize,
    ) -> Result<Bytes<A>, Refusal>
        requires resident { IsTrue (is_resident self.old block) }
        requires fits { start + len ≤ BLOCK }
        ensures answer { (whole : Bool) (run : Execution) → IsCacheBy whole self.old run → HasLooked run block moves.now start len result }
        ensures stands { (whole : Bool) (run : Execution) → IsCacheBy whole self.old run → StandsBy whole run block self.new }
        ensures view { (before : Contents) → IsViewOf before block self.old → IsViewOf before block self.new }
        ensures resident { (n : ℕ) → is_resident self.new n ≡ is_resident self.old n }
        ensures trace { self.new.trace ≡ self.old.trace }
    {
        self.take_moves(block, moves)?;
        self.copied(block, start, len)
    }

    /// Makes the moves in their order, up to the first that is refused.
    fn take_moves(&mut self, block: BlockNo, moves: &[Move]) -> Result<(), Refusal>
        requires { IsTrue (is_resident self.old block) }
        ensures answer { (whole : Bool) (run : Execution) (names : List ℕ) → ShowsBy whole self.old block names run
            → HasMovedBy whole run block (with_moves run block names moves.now) result self.new }
        ensures view { (before : Contents) → IsViewOf before block self.old → IsViewOf before block self.new }
        ensures resident { (n : ℕ) → is_resident self.new n ≡ is_resident self.old n }
        ensures trace { self.new.trace ≡ self.old.trace }
    {
        for step in moves {
            self.take_move(block, *step)?;
        }
        Ok(())
    }

    /// Makes one move.
    fn take_move(&mut self, block: BlockNo, step: Move) -> Result<(), Refusal>
        requires { IsTrue (is_resident self.old block) }
        ensures answer { (whole : Bool) (run : Execution) (names : List ℕ) → ShowsBy whole self.old block names run
            → HasMovedBy whole run block (with_move run block names step) result self.new }
        ensures view { (before : Contents) → IsViewOf before block self.old → IsViewOf before block self.new }
        ensures resident { (n : ℕ) → is_resident self.new n ≡ is_resident self.old n }
        ensures trace { self.new.trace ≡ self.old.trace }
    {
        match step {
            Move::Take(no) => self.take_of(block, no).map_err(Refuses::refusal),
            Move::Back(no) => self.put_back_of(block, no).map_err(Refuses::refusal),
        }
    }

    /// A copy of the block's bytes in the span, without the classes that are taken of it.
    fn copied(&self, block: BlockNo, start: usize, len: usize) -> Result<Bytes<A>, Refusal>
        requires resident { IsTrue (is_resident self.now block) }
        requires fits { start + len ≤ BLOCK }
        ensures bytes { (whole : Bool) (run : Execution) (names : List ℕ) → ShowsBy whole self.now block names run
            → IfOk result (λ bytes. bytes ≡ bytes_at (without (history_of run block) names) start len) }
        ensures refusal { IfErr result (λ refusal. refusal ≡ bare kind.OutOfMemory) }
    {
        let bytes = self.bytes_of(block);
        match Bytes::from_slice(self.alloc, &bytes[start..start + len]) {
            Ok(copy) => Ok(copy),
            Err(_) => Err(RefusalKind::OutOfMemory.bare()),
        }
    }
}

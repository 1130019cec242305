//! How blocks become resident and are let go.
ghost use Rattle.std.specs.Prelude.{◌≡◌, None, Some, MatchResult, IfErr, OnOk, OnErr, slice_set};
ghost use Rattle.patch_model.specs.Execution.{Execution};
ghost use Rattle.patch_model.specs.History.{history_of, cached};
ghost use Rattle.patch_cache.specs.Paging.{with_admitted, IsWhyNotAdmitted, why_not_evicted};
ghost use Rattle.patch_cache.specs.Refusals.{evict_cause};
ghost use Rattle.patch_engine.specs.Meaning.{IsEngineOf, KeepsRest};

use crate::engines::Engine;
use patch_cache::{AdmitRefusal, EvictRefusal};
use patch_model::{BlockBytes, BlockNo};
use std::alloc::Allocator;

impl<A: Allocator + Copy> Engine<A> {
    /// Makes a block resident, of which these are the bytes: those that the disk has, with every patch that is durable. Where it is
    /// refused the bytes are given up.
    pub fn admit(&mut self, block: BlockNo, bytes: BlockBytes<A>) -> Result<(), AdmitRefusal>
        ensures answer { (run : Execution) → IsEngineOf self.old run → cached (history_of run block) ≡ bytes
            → OnOk result (IsEngineOf self.new run) }
        ensures admitted { OnOk result (self.new.cache ≡ with_admitted self.old.cache block bytes) }
        ensures rest { KeepsRest self.old self.new }
        ensures cause { IfErr result (λ refusal. IsWhyNotAdmitted self.old.cache block refusal) }
        ensures refused { OnErr result (self.new ≡ self.old) }
    {
        self.cache.admit(block, bytes)
    }

    /// Lets a block go of which no patch is in memory or in flight, and all memory that it took.
    pub fn evict(&mut self, block: BlockNo) -> Result<(), EvictRefusal>
        ensures answer { (run : Execution) → IsEngineOf self.old run → MatchResult result
            (λ done. (why_not_evicted self.old.cache run block ≡ None) × IsEngineOf self.new run)
            (λ refusal. why_not_evicted self.old.cache run block ≡ Some (evict_cause refusal)) }
        ensures gone { OnOk result (self.new.cache.blocks ≡ slice_set self.old.cache.blocks block None) }
        ensures rest { KeepsRest self.old self.new }
        ensures refused { OnErr result (self.new ≡ self.old) }
    {
        self.cache.evict(block)
    }
}

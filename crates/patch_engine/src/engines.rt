//! The engine, and what it counts.
ghost use Rattle.std.specs.Prelude.{◌≡◌, ◌<◌, ◌≤◌, ℕ, List, [], Some, None, false, length, count_by, MatchOption, IfOk, IfErr, OnOk};
ghost use Rattle.patch_model.specs.Execution.{Execution};
ghost use Rattle.patch_model.specs.Entry.{is_live};
ghost use Rattle.patch_model.specs.State.{entries_of};
ghost use Rattle.patch_model.specs.declared.patches.Mark.TheVariants.{Durable};
ghost use Rattle.patch_graph.specs.Meaning.{HasMark};
ghost use Rattle.patch_cache.specs.Contents.{is_resident};
ghost use Rattle.patch_cache.specs.Paging.{AreBlocks, resident_count};
ghost use Rattle.patch_engine.specs.Meaning.{IsEngineOf};
ghost use Rattle.patch_engine.specs.Refusals.{why_not_opened, open_cause};

use crate::refusals::OpenRefusal;
use patch_cache::{Cache, Flight};
use patch_group::Groups;
use patch_model::{BlockNo, MAX_CACHED, Mark, PatchNo};
use patch_plans::laws as plan_laws;
use std::alloc::{Allocator, Global};

/// A cache of the blocks that it was handed, the groups of its patches, and its writes that are out.
///
/// It reads and writes nothing: its caller hands it blocks, asks which may be written, writes their images, and says when that is
/// done. It may be let go whatever is in memory or in flight: what the disk has then is what a crash may leave.
pub struct Engine<A: Allocator + Copy = Global> {
    pub(crate) cache: Cache<A>,
    pub(crate) groups: Groups<A>,
    /// The writes that were begun and not completed.
    pub(crate) held: Vec<Flight<A>, A>,
}

impl<A: Allocator + Copy> Drop for Engine<A> {
    fn drop(self) {
        let Engine {
            cache,
            groups,
            mut held,
        } = self;
        while let Some(flight) = held.pop() {
            flight.abandon();
        }
        held.destroy_empty();
        drop(groups);
        drop(cache);
    }
}

impl<A: Allocator + Copy> Engine<A> {
    /// An engine of so many blocks, 1 to 16,777,216, of which none is resident. It takes no memory.
    pub fn open(alloc: A, blocks: u32) -> Result<Engine<A>, OpenRefusal>
        ensures answer { (first : List (List ℕ)) → AreBlocks blocks first
            → IfOk result (λ engine. IsEngineOf engine (record { first = first; steps = [] })) }
        ensures none { IfOk result (λ engine. (n : ℕ) → is_resident engine.cache n ≡ false) }
        ensures allowed { OnOk result (why_not_opened blocks ≡ None) }
        ensures cause { IfErr result (λ refusal. why_not_opened blocks ≡ Some (open_cause refusal)) }
    {
        plan_laws::order_is_kept();
        let count = blocks as usize;
        if count == 0 || count > MAX_CACHED {
            return Err(OpenRefusal::FileSize);
        }
        Ok(Engine {
            cache: Cache::of(alloc, count),
            groups: Groups::new(alloc),
            held: Vec::new(alloc),
        })
    }

    /// How many blocks there are.
    pub fn blocks(&self) -> u32
        ensures { (run : Execution) → IsEngineOf self.now run → result ≡ length run.first }
    {
        self.cache.blocks()
    }

    /// Whether the engine has the block.
    pub fn is_resident(&self, block: BlockNo) -> bool
        ensures { result ≡ is_resident self.now.cache block }
    {
        self.cache.is_resident(block)
    }

    /// How many blocks the engine has.
    pub fn resident(&self) -> u32
        ensures { result ≡ resident_count self.now.cache }
    {
        self.cache.resident()
    }

    /// How many patches were made.
    pub fn made(&self) -> u32
        ensures { (run : Execution) → IsEngineOf self.now run → result ≡ length (entries_of run) }
    {
        self.cache.made()
    }

    /// How many patches are in memory or in flight.
    pub fn live(&self) -> u32
        ensures { (run : Execution) → IsEngineOf self.now run → result ≡ count_by is_live (entries_of run) }
    {
        self.cache.live()
    }

    /// A number below which every patch is durable.
    pub fn durable_below(&self) -> u32
        ensures { (run : Execution) → IsEngineOf self.now run → (n : ℕ) → n < result → HasMark (entries_of run) n Durable }
    {
        self.cache.durable_below()
    }

    /// How far a patch has come: in memory, in flight or durable. None for one that wasn't made.
    pub fn mark_of(&self, no: PatchNo) -> Option<Mark>
        ensures { (run : Execution) → IsEngineOf self.now run → MatchOption result (length (entries_of run) ≤ no) (HasMark (entries_of run) no) }
    {
        self.cache.mark_of(no)
    }
}

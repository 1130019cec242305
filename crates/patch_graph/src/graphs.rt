//! The graph of the classes that are live.
ghost use Rattle.std.specs.Prelude.{◌≡◌, ◌<◌, ◌≤◌, ◌+◌, ℕ, List, [], false, None, MatchOption, length, IfOk, IfSome, OnOk, OnErr};
ghost use Rattle.patch_model.specs.declared.limits.TheConstants.{MAX_CACHED};
ghost use Rattle.patch_model.specs.Names.{numbers_named};
ghost use Rattle.patch_model.specs.Entry.{Entry};
ghost use Rattle.patch_model.specs.declared.patches.Mark.TheVariants.{Durable};
ghost use Rattle.patch_graph.specs.Meaning.{IsGraphOf, IsClearOf, IsNotLive, IsLiveClass, HasMark};
ghost use Rattle.patch_graph.specs.Showing.{IsShown};
ghost use Rattle.patch_graph.specs.Between.{LacksAnEnd, TellsLeastBetween, TellsReach};
ghost use Rattle.patch_graph.specs.Ready.{AreReady, TellsReady, TellsNextOpen};
ghost use Rattle.patch_graph.specs.MarkFlight.{PutsInFlight};
ghost use Rattle.patch_graph.specs.MarkDurable.{MakesDurable};
ghost use Rattle.patch_graph.specs.Merging.{Merges, CantBeOne};
ghost use Rattle.patch_graph.specs.Adding.{Adds, IsDrawnUp, MayBePutIn, PutsIn, Tells};

use crate::adding::{dependencies, insert, is_hard};
use crate::classes::{LiveClass, alone};
use crate::forgetting::forget;
use crate::mark_durable::land;
use crate::mark_flight::fly;
use crate::merging;
use crate::newcomers::Newcomer;
use crate::queries::{between, is_any_ready, next_open, numbers_ready, numbers_searched, reaches};
use crate::register::Register;
use crate::runs::reach_of;
use crate::scratch::Scratch;
use patch_model::{BlockNo, MAX_PATCHES, Mark, Named, OutOfMemory, PatchNo, Undo};
use patch_skyline::Span;
use std::alloc::{Allocator, Global};
use std::marker::Model;

/// A patch that was added: its number, and whether it is hard.
#[derive(Clone, Copy, Debug, PartialEq, Eq)]
pub struct Added {
    pub no: PatchNo,
    pub hard: bool,
}

/// The live classes of all blocks, and what each of them depends on.
///
/// Durable classes are forgotten: a number below the next one that isn't live is durable. Which classes a send of a block
/// takes is always known. Only `draw_up`, `put_in`, `add`, `merge` and `ready` take memory.
#[derive(Drop)]
pub struct Graph<A: Allocator + Copy = Global> {
    alloc: A,
    register: Register<A>,
    scratch: Scratch<A>,
}

impl<A: Allocator + Copy> Model for Graph<A> {
    ghost use Rattle.patch_graph.specs.State.{Graph as Seen, KeysFit};

    ghost Value = { Seen };

    ghost view = { λ g. g.register };

    ghost invariant = { λ g. KeysFit g.register.slots g.scratch };
}

impl<A: Allocator + Copy> Graph<A> {
    /// No patch yet.
    pub fn new(alloc: A) -> Graph<A>
        ensures { IsGraphOf result [] }
    {
        Graph {
            alloc,
            register: Register::new(alloc),
            scratch: Scratch::new(alloc),
        }
    }

    /// How many patches were made.
    pub fn made(&self) -> u32
        ensures { result ≡ self.now.made }
    {
        self.register.made()
    }

    /// The patches that a send of the block takes, rising.
    pub fn ready<B: Allocator>(
        &self,
        alloc: B,
        block: BlockNo,
    ) -> Result<Vec<PatchNo, B>, OutOfMemory>
        ensures { IfOk result (λ numbers. AreReady self.now block numbers.items) }
    {
        let numbers = numbers_ready(alloc, &self.register, block)?;
        Ok(numbers)
    }

    /// `ready`, by a search whatever is known.
    pub(crate) fn ready_searched<B: Allocator>(
        &mut self,
        alloc: B,
        block: BlockNo,
    ) -> Result<Vec<PatchNo, B>, OutOfMemory>
        ensures answer { IfOk result (λ numbers. AreReady self.old block numbers.items) }
        ensures same { self.new ≡ self.old }
    {
        let numbers = numbers_searched(alloc, &self.register, block, &mut self.scratch)?;
        Ok(numbers)
    }

    /// Whether a send of the block takes any patch.
    pub fn any_ready(&self, block: BlockNo) -> bool
        ensures { TellsReady self.now block result }
    {
        is_any_ready(&self.register, block)
    }

    /// The least block from one on, of those below [`MAX_CACHED`](patch_model::MAX_CACHED), of which a write can begin: a send of it
    /// takes some patch, and none of its patches is in flight.
    pub fn next_open(&self, from: usize) -> Option<BlockNo>
        ensures answer { TellsNextOpen self.now from result }
        ensures within { IfSome result (λ block. (from ≤ block) × (block < MAX_CACHED)) }
    {
        next_open(&self.register, from)
    }

    /// Draws up a patch of the bytes from `start` to `stop`, which [`put_in`](Graph::put_in) adds. It depends on the patches that
    /// it names and on those that wrote a byte of its span before. It is hard if it may drop its undo bytes and each patch that it depends
    /// on is durable or a hard one of its block. That is Featherstitch's hard patches, by a rule of our own that a send never
    /// has to revert one: in a block without a flight all hard patches are ready. Names in runs cost what of them is live and isn't
    /// reached through others of them, and not as much as they are many.
    pub fn draw_up(
        &self,
        block: BlockNo,
        start: usize,
        stop: usize,
        after: Named<'_>,
        undo: Undo,
    ) -> Result<Newcomer<A>, OutOfMemory>
        requires { start < stop }
        ensures answer { IfOk result (Tells self.now block start stop (numbers_named after.entry) undo) }
        ensures drawn { IfOk result (IsDrawnUp self.now block start stop undo (numbers_named after.entry)) }
        ensures next { IfOk result (MayBePutIn self.now) }
    {
        let deps = dependencies(self.alloc, &self.register, block, start, stop, after)?;
        let hard = is_hard(&self.register, block, undo, deps.as_slice());
        let reach = reach_of(&self.register, after);
        let span = Span {
            start,
            stop,
            no: PatchNo(self.register.made()),
        };
        let class = alone(self.alloc, block, span, deps, reach, hard);
        Ok(Newcomer::of(class))
    }

    /// Adds a patch that was drawn up when as many were made as now, in memory and a class of its own.
    pub fn put_in(&mut self, newcomer: Newcomer<A>) -> Result<(), OutOfMemory>
        requires numbers { self.old.made < MAX_PATCHES }
        requires next { MayBePutIn self.old newcomer }
        ensures answer { OnOk result (PutsIn self.old self.new newcomer) }
        ensures made { OnOk result (self.new.made ≡ self.old.made + 1) }
        ensures refused { OnErr result (self.new ≡ self.old) }
    {
        let class = newcomer.into_class();
        insert(self.alloc, &mut self.register, &mut self.scratch, class)?;
        Ok(())
    }

    /// Draws up a patch and puts it in.
    pub fn add(
        &mut self,
        block: BlockNo,
        start: usize,
        stop: usize,
        after: &[PatchNo],
        undo: Undo,
    ) -> Result<Added, OutOfMemory>
        requires numbers { self.old.made < MAX_PATCHES }
        requires span { start < stop }
        ensures answer { IfOk result (Adds self.old self.new block start stop after.now undo) }
        ensures made { OnOk result (self.new.made ≡ self.old.made + 1) }
        ensures refused { OnErr result (self.new ≡ self.old) }
    {
        let newcomer = self.draw_up(block, start, stop, Named::Listed(after), undo)?;
        let no = newcomer.no();
        let hard = newcomer.is_hard();
        self.put_in(newcomer)?;
        Ok(Added { no, hard })
    }

    /// Makes one class of the classes of two patches, where that is legal. Its name.
    pub fn merge(&mut self, a: PatchNo, b: PatchNo) -> Result<PatchNo, OutOfMemory>
        ensures answer { IfOk result (Merges self.old self.new a b) }
        ensures idle { (all : List Entry) → IsGraphOf self.old all → CantBeOne all a b → self.new ≡ self.old }
        ensures made { self.new.made ≡ self.old.made }
        ensures refused { OnErr result (self.new ≡ self.old) }
    {
        let name = merging::merge(&mut self.register, a, b)?;
        Ok(name)
    }

    /// The least name of a third live class on a path from the class of the one live patch to that of the other. There is
    /// none, too, where one of the two numbers is durable or wasn't made: it names no live class.
    pub fn between(&mut self, a: PatchNo, b: PatchNo) -> Option<PatchNo>
        ensures answer { TellsLeastBetween self.old a b result }
        ensures absent { (all : List Entry) → IsGraphOf self.old all → LacksAnEnd all a b → result ≡ None }
        ensures same { self.new ≡ self.old }
    {
        between(&self.register, a, b, &mut self.scratch)
    }

    /// Puts in flight what a send of the block takes.
    pub fn mark_flight(&mut self, block: BlockNo)
        ensures answer { PutsInFlight self.old self.new block }
        ensures made { self.new.made ≡ self.old.made }
    {
        fly(&mut self.register, block);
    }

    /// Makes durable what is in flight of the block, and forgets it.
    pub fn mark_durable(&mut self, block: BlockNo)
        ensures answer { MakesDurable self.old self.new block }
        ensures made { self.new.made ≡ self.old.made }
    {
        land(&mut self.register, block);
    }

    /// Lets what is kept of a block go, of which no patch is live: no memory is kept for it.
    pub fn forget(&mut self, block: BlockNo)
        ensures answer { (all : List Entry) → IsGraphOf self.old all → IsClearOf all block → IsGraphOf self.new all }
        ensures made { self.new.made ≡ self.old.made }
    {
        forget(&mut self.register, block);
    }

    /// Whether the class of the one live patch depends on that of the other, directly or through others. No class reaches
    /// itself, and a number that is durable or wasn't made reaches nothing and isn't reached.
    pub fn reaches(&mut self, a: PatchNo, b: PatchNo) -> bool
        ensures answer { TellsReach self.old a b result }
        ensures absent { (all : List Entry) → IsGraphOf self.old all → LacksAnEnd all a b → result ≡ false }
        ensures same { self.new ≡ self.old }
    {
        reaches(&self.register, a, b, &mut self.scratch)
    }

    /// The name of a live patch's class.
    pub fn class_of(&self, no: PatchNo) -> Option<PatchNo>
        ensures { (all : List Entry) → IsGraphOf self.now all → MatchOption result (IsNotLive all no) (IsLiveClass all no) }
    {
        let key = self.register.find(no)?;
        self.register.name_at(key)
    }

    /// The class of a live patch.
    pub fn live_class(&self, no: PatchNo) -> Option<LiveClass>
        ensures { (all : List Entry) → IsGraphOf self.now all → MatchOption result (IsNotLive all no) (IsShown all no) }
    {
        match self.register.find(no) {
            Some(key) => self.register.shown_at(key),
            None => None,
        }
    }

    /// How far a patch has come. None for one that wasn't made.
    pub fn mark_of(&self, no: PatchNo) -> Option<Mark>
        ensures { (all : List Entry) → IsGraphOf self.now all → MatchOption result (length all ≤ no) (HasMark all no) }
    {
        if no.0 >= self.register.made() {
            return None;
        }
        match self.register.find(no) {
            Some(key) => self.register.mark_at(key),
            None => Some(Mark::Durable),
        }
    }

    /// A number below which every patch is durable: who asks for the marks of many patches may pass over those below it. As a
    /// completion leaves it, the first that is live has this number, or the next one to be made.
    pub fn durable_below(&self) -> u32
        ensures { (all : List Entry) → IsGraphOf self.now all → (n : ℕ) → n < result → HasMark all n Durable }
    {
        self.register.lowest().min(self.register.made())
    }
}

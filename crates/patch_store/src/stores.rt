//! The store, and what it lends of itself.
ghost use Rattle.std.specs.Prelude.{◌≡◌, map, IfOk, OnOk, OnErr};
ghost use Rattle.patch_model.specs.StepOf.{step_of};
ghost use Rattle.patch_cache.specs.Contents.{drained};
ghost use Rattle.patch_history.specs.History.{History};
ghost use Rattle.patch_store.specs.Meaning.{IsStoreOf};

use patch_cache::Cache;
use patch_extent::Extents;
use patch_frame::Geometry;
use patch_group::Groups;
use patch_index::Index;
use patch_model::{OutOfMemory, PatchNo, Step};
use std::alloc::{Allocator, Global};
use std::marker::Model;

/// A chunk store: keys with values, kept as frames in extents and named by the slots of an index.
///
/// What it holds is a map and an order in which patches go to the disk, so that each disk that a crash leaves opens, with
/// each key as it was after one of its puts or deletes. Its contracts speak of every history of calls and writes that it
/// represents: after a call it represents the history with that call at its end.
#[derive(Drop)]
pub struct Store<A: Allocator + Copy = Global> {
    pub(crate) alloc: A,
    pub(crate) geometry: Geometry,
    pub(crate) cache: Cache<A>,
    pub(crate) groups: Groups<A>,
    pub(crate) extents: Extents<A>,
    pub(crate) index: Index<A>,
    /// The extent that puts append to.
    pub(crate) current: Option<u32>,
    /// The patch that cleared a slot last.
    pub(crate) last_delete: Option<PatchNo>,
    /// The patch of the upgrade.
    pub(crate) upgrade: Option<PatchNo>,
    /// For each extent the slot patches since its last reset that took an entry from it.
    pub(crate) left: Vec<Vec<PatchNo, A>, A>,
    /// How many merges of pointer patches were left out for want of memory.
    pub(crate) left_out: u32,
}

impl<A: Allocator + Copy> Model for Store<A> {
    ghost use Rattle.std.specs.Prelude.{◌≡◌, map};
    ghost use Rattle.patch_store.specs.Meaning.{Store as StoreValue, IsWhole};

    ghost Value = { StoreValue };

    ghost view = { λ s. record {
      cache = s.cache;
      groups = s.groups;
      shelf = record {
        extents = s.extents;
        slots = s.index;
        current = s.current;
        last_delete = s.last_delete;
        upgrade = s.upgrade;
        left = map (λ v. v.items) s.left.items;
      };
      left_out = s.left_out;
    } };

    ghost invariant = { λ s. (s.geometry ≡ s.extents.geometry) × IsWhole (record {
      extents = s.extents;
      slots = s.index;
      current = s.current;
      last_delete = s.last_delete;
      upgrade = s.upgrade;
      left = map (λ v. v.items) s.left.items;
    }) };
}

impl<A: Allocator + Copy> Store<A> {
    /// The cache of the store's blocks.
    pub fn cache(&self) -> &Cache<A>
        ensures { result.now ≡ self.now.cache }
    {
        &self.cache
    }

    /// How many merges of pointer patches were left out for want of memory: each leaves a live patch more.
    pub fn merges_left_out(&self) -> u32
        ensures { result ≡ self.now.left_out }
    {
        self.left_out
    }

    /// The steps that were added since this was called last, the oldest first. They are let go: a store that runs for
    /// months would else keep each byte that it ever wrote.
    pub fn drain_trace(&mut self) -> Result<Vec<Step<A>, A>, OutOfMemory>
        ensures steps { IfOk result (λ steps. map step_of steps.items ≡ self.old.cache.trace) }
        ensures drained { OnOk result (self.new ≡ record self.old { cache = drained self.old.cache }) }
        ensures same { (h : History) → IsStoreOf self.old h → IsStoreOf self.new h }
        ensures refused { OnErr result (self.new ≡ self.old) }
    {
        self.cache.drain_trace()
    }
}

//! How full a store is, and what its syncs have done.
ghost use Rattle.std.specs.Prelude.{◌≡◌, ◌↔◌, IsTrue, IsFalse, IfSome};
ghost use Rattle.patch_history.specs.History.{History};
ghost use Rattle.patch_store.specs.Meaning.{IsStoreOf};
ghost use Rattle.patch_c.specs.Counting.{statistics_of, counted_on};
ghost use Rattle.patch_c.specs.Handle.{StaysClosed};

use crate::handle::Handle;
use crate::opened::{Opened, Tally};
use patch_handles::{DONE, NOT_OPEN};
use patch_model::BLOCK;
use std::alloc::Global;

/// `fstch_statistics`.
#[derive(Clone, Copy)]
#[repr(C)]
pub struct Statistics {
    pub keys: u32,
    pub unsynced: u32,
    pub live_bytes: u64,
    pub file_bytes: u64,
    pub extents: u32,
    pub empty_extents: u32,
    pub syncs: u64,
    pub waves: u64,
}

impl Tally {
    /// Counts a sync that was done, of so many waves.
    pub fn count(&mut self, waves: u64)
        ensures syncs { self.new.syncs ≡ counted_on self.old.syncs 1 }
        ensures waves { self.new.waves ≡ counted_on self.old.waves waves }
    {
        self.syncs = self.syncs.saturating_add(1);
        self.waves = self.waves.saturating_add(waves);
    }
}

impl Opened {
    fn statistics(&self) -> Statistics
        ensures { (h : History) → IsStoreOf self.now.store h → result ≡ statistics_of h self.now.tally }
    {
        let totals = self.store.totals();
        Statistics {
            keys: totals.keys,
            unsynced: self.store.cache().live(),
            live_bytes: totals.live,
            file_bytes: u64::from(totals.blocks) * BLOCK as u64,
            extents: totals.extents,
            empty_extents: totals.empty,
            syncs: self.tally.syncs,
            waves: self.tally.waves,
        }
    }
}

/// Tells how full a store is, and what its syncs have done.
#[unsafe(no_mangle)]
pub extern "C" fn fstch_stats(
    handle: &mut Handle,
    alloc: Global,
    statistics: &mut Statistics,
) -> i32
    ensures same { handle.new.sealed.opened ≡ handle.old.sealed.opened }
    ensures not_open { (result ≡ NOT_OPEN) ↔ IsFalse handle.old.is_open }
    ensures done { (result ≡ DONE) ↔ IsTrue handle.old.is_open }
    ensures closed { StaysClosed handle.old handle.new }
    ensures told { IfSome handle.old.sealed.opened (λ opened. (h : History) → IsStoreOf opened.store h →
        statistics.new ≡ statistics_of h opened.tally) }
    ensures refused { IsFalse handle.old.is_open → statistics.new ≡ statistics.old }
{
    let Some(opened) = handle.take(alloc) else {
        return NOT_OPEN;
    };
    *statistics = opened.statistics();
    handle.put_back(opened);
    DONE
}

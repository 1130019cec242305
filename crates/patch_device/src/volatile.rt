//! A device in memory with a write cache.
ghost use Rattle.std.specs.Prelude.{◌≡◌, ◌+◌, ◌≤◌, ◌↔◌, [], ◌∷◌, ◌++◌, length, slice_get, slice_set, slice_index_or, false, Some, None, IsTrue, IfOk, IfErr, OnOk, OnErr, IsErr, IsErrOf};
ghost use Rattle.patch_device.specs.Device.{most_faults, HasRisen, CountsFault, LandsOrNot, LeavesNoMore, LeavesJust, Elapses};
ghost use Rattle.patch_device.specs.Blocks.{AreWhole, zeros};
ghost use Rattle.patch_device.specs.Cuts.{written_behind, with_landed, IsSyncedAt, writes_among};

use crate::devices::Device;
use crate::memory::{blocks_of_zeros, overwrite, put};
use crate::refusals::DeviceRefusal;
use patch_model::{BLOCK, BlockBytes, OutOfMemory};
use std::alloc::{Allocator, Global};

/// A device in memory with a volatile write cache, always honest: what is written is read at once, and lasts only once it is
/// synced. It keeps the list of all writes and syncs, and tells what a cut of the power would leave. A call fails only where that
/// list can't grow, and once a sync has failed.
#[derive(Drop)]
pub struct VolatileDevice<A: Allocator = Global> {
    count: u32,
    /// What a read gives.
    written: Vec<BlockBytes<A>, A>,
    /// Each write, a block's number and its bytes, and as nothing each sync.
    events: Vec<Option<(u32, BlockBytes<A>)>, A>,
    /// How many events there were up to the last sync.
    synced: usize,
    faults: u64,
    /// A sync was refused.
    spent: bool,
    ghost counted: { length written.items ≡ count },
    ghost whole: { AreWhole written.items },
    ghost replayed: { written.items ≡ written_behind (zeros count) events.items },
    ghost last_sync: { IsSyncedAt (zeros count) events.items synced },
    ghost faults_fit: { faults ≤ most_faults },
}

/// Does all of these writes to the blocks.
fn replay<A: Allocator>(blocks: &mut Vec<BlockBytes<A>, A>, events: &[Option<(u32, BlockBytes<A>)>])
    ensures { blocks.new.items ≡ written_behind blocks.old.items events.now }
{
    for event in events {
        if let Some((n, bytes)) = event {
            put(blocks, *n, bytes.as_slice());
        }
    }
}

/// Whether this place says so. One that isn't there doesn't.
fn is_said(lands: &[bool], place: usize) -> bool
    ensures { result ≡ slice_index_or lands.now place false }
{
    place < lands.len() && lands[place]
}

/// Does those of these writes to the blocks that land.
fn replay_some<A: Allocator>(
    blocks: &mut Vec<BlockBytes<A>, A>,
    events: &[Option<(u32, BlockBytes<A>)>],
    lands: &[bool],
)
    ensures { blocks.new.items ≡ with_landed blocks.old.items (writes_among events.now) lands.now }
{
    let mut place = 0;
    for event in events {
        if let Some((n, bytes)) = event {
            if is_said(lands, place) {
                put(blocks, *n, bytes.as_slice());
            }
            place += 1;
        }
    }
}

/// How many of these events are writes.
fn count_writes<A: Allocator>(events: &[Option<(u32, BlockBytes<A>)>]) -> usize
    ensures { result ≡ length (writes_among events.now) }
{
    let mut count = 0;
    for event in events {
        if event.is_some() {
            count += 1;
        }
    }
    count
}

impl<A: Allocator + Copy> VolatileDevice<A> {
    ghost use Rattle.patch_device.specs.VolatileDevice.{contents_of, moment_of, left_at_of, events_of, loose_of, left_where, block_count_of, fault_count_of, IsSpent};

    /// A device of so many blocks of zeros, all of which lasts.
    pub fn new(alloc: A, count: u32) -> Result<VolatileDevice<A>, OutOfMemory>
        ensures count { IfOk result (λ d. block_count_of d ≡ count) }
        ensures events { IfOk result (λ d. events_of d ≡ []) }
        ensures contents { IfOk result (λ d. contents_of d ≡ zeros count) }
        ensures lasts { IfOk result (λ d. LeavesJust (zeros count) (left_at_of d (moment_of d))) }
        ensures faults { IfOk result (λ d. fault_count_of d ≡ 0) }
        ensures fresh { IfOk result (λ d. IsSpent d → ⊥) }
    {
        Ok(VolatileDevice {
            count,
            written: blocks_of_zeros(alloc, count)?,
            events: Vec::new(alloc),
            synced: 0,
            faults: 0,
            spent: false,
        })
    }

    /// The writes and syncs that were done, the first of them first: a write as a block's number and its bytes, a sync as `None`.
    pub fn events(&self) -> &[Option<(u32, BlockBytes<A>)>]
        ensures { result.now ≡ events_of self.now }
    {
        self.events.as_slice()
    }

    /// How many writes there were since the last sync.
    pub fn loose(&self) -> usize
        ensures { result ≡ length (loose_of self.now) }
    {
        count_writes(&self.events[self.synced..])
    }

    /// The blocks that a cut of the power leaves now, if of the writes since the last sync, in their order, just those land whose
    /// place in `lands` says so. One that has no place there doesn't.
    pub fn cut(&self, alloc: A, lands: &[bool]) -> Result<Vec<BlockBytes<A>, A>, OutOfMemory>
        ensures blocks { IfOk result (λ blocks. blocks.items ≡ left_where self.now lands.now) }
        ensures may_be_left { IfOk result (λ blocks. left_at_of self.now (moment_of self.now) blocks.items) }
    {
        let mut blocks = blocks_of_zeros(alloc, self.count)?;
        let (before, loose) = self.events.as_slice().split_at(self.synced);
        replay(&mut blocks, before);
        replay_some(&mut blocks, loose, lands);
        Ok(blocks)
    }

    /// Counts a fault.
    fn fault(&mut self) -> Result<(), DeviceRefusal>
        ensures count { block_count_of self.new ≡ block_count_of self.old }
        ensures events { events_of self.new ≡ events_of self.old }
        ensures spent { self.new.spent ≡ self.old.spent }
        ensures risen { HasRisen (fault_count_of self.old) (fault_count_of self.new) }
        ensures fault { result ≡ Err DeviceRefusal.Fault }
    {
        self.faults = self.faults.saturating_add(1);
        Err(DeviceRefusal::Fault)
    }
}

impl<A: Allocator + Copy> Device for VolatileDevice<A> {
    ghost use Rattle.patch_device.specs.VolatileDevice.{contents_of, moment_of, left_at_of, events_of, block_count_of, fault_count_of, IsSpent, blocks_counted_law, blocks_whole_law, all_may_land_law, faults_fit_law};

    ghost contents = { contents_of };

    ghost moment = { moment_of };

    ghost left_at = { left_at_of };

    ghost is_honest = { λ _. Unit {0} };

    ghost is_spent = { IsSpent };

    ghost block_count = { block_count_of };

    ghost fault_count = { fault_count_of };

    fn count(&self) -> u32 {
        self.count
    }

    fn read(&mut self, n: u32, into: &mut [u8]) -> Result<(), DeviceRefusal>
        requires { length into.old ≡ BLOCK }
        ensures count { block_count_of self.new ≡ block_count_of self.old }
        ensures events { events_of self.new ≡ events_of self.old }
        ensures still_spent { IsSpent self.old ↔ IsSpent self.new }
        ensures no_such_block { IsErrOf result DeviceRefusal.NoSuchBlock
            ↔ (block_count_of self.old ≤ n) }
        ensures cause { CountsFault (fault_count_of self.old) (fault_count_of self.new) result }
        ensures refuses { IsSpent self.old → IsErr result }
        ensures fault { IsErrOf result DeviceRefusal.Fault → IsSpent self.old }
        ensures gives { OnOk result (slice_get (contents_of self.old) n ≡ Some into.new) }
    {
        let Some(block) = self.written.get(n as usize) else {
            return Err(DeviceRefusal::NoSuchBlock);
        };
        if self.spent {
            return self.fault();
        }
        into.copy_from_slice(block.as_slice());
        Ok(())
    }

    fn write(&mut self, n: u32, from: &[u8]) -> Result<(), DeviceRefusal>
        requires { length from.now ≡ BLOCK }
        ensures count { block_count_of self.new ≡ block_count_of self.old }
        ensures still_spent { IsSpent self.old ↔ IsSpent self.new }
        ensures no_such_block { IsErrOf result DeviceRefusal.NoSuchBlock
            ↔ (block_count_of self.old ≤ n) }
        ensures cause { CountsFault (fault_count_of self.old) (fault_count_of self.new) result }
        ensures refuses { IsSpent self.old → IsErr result }
        ensures written { OnOk result (events_of self.new ≡ events_of self.old ++ Some (n, from.now) ∷ []) }
        ensures refused { OnErr result (events_of self.new ≡ events_of self.old) }
        ensures contents { OnOk result (contents_of self.new ≡ slice_set (contents_of self.old) n from.now) }
        ensures kept { OnErr result (contents_of self.new ≡ contents_of self.old) }
        ensures time { Elapses (moment_of self.old) (moment_of self.new) (left_at_of self.old) (left_at_of self.new) }
        ensures one_moment { moment_of self.new ≤ moment_of self.old + 1 }
        ensures left { LandsOrNot (left_at_of self.old (moment_of self.old)) n from.now (left_at_of self.new (moment_of self.new)) }
    {
        if n >= self.count {
            return Err(DeviceRefusal::NoSuchBlock);
        }
        if self.spent {
            return self.fault();
        }
        let alloc = *self.events.allocator();
        let Ok(bytes) = BlockBytes::from_slice(alloc, from) else {
            return self.fault();
        };
        if self.events.push(Some((n, bytes))).is_err() {
            return self.fault();
        }
        overwrite(&mut self.written[n as usize], from);
        Ok(())
    }

    fn sync(&mut self) -> Result<(), DeviceRefusal>
        ensures count { block_count_of self.new ≡ block_count_of self.old }
        ensures no_fault { OnOk result (fault_count_of self.new ≡ fault_count_of self.old) }
        ensures fault { OnErr result (HasRisen (fault_count_of self.old) (fault_count_of self.new)) }
        ensures kind { IfErr result (λ refusal. refusal ≡ DeviceRefusal.Fault) }
        ensures refuses { IsSpent self.old → IsErr result }
        ensures spends { OnErr result (IsSpent self.new) }
        ensures still_fresh { OnOk result (IsSpent self.new → ⊥) }
        ensures synced { OnOk result (events_of self.new ≡ events_of self.old ++ None ∷ []) }
        ensures refused { OnErr result (events_of self.new ≡ events_of self.old) }
        ensures same { contents_of self.new ≡ contents_of self.old }
        ensures time { Elapses (moment_of self.old) (moment_of self.new) (left_at_of self.old) (left_at_of self.new) }
        ensures one_moment { moment_of self.new ≤ moment_of self.old + 1 }
        ensures no_more { LeavesNoMore (left_at_of self.old (moment_of self.old)) (left_at_of self.new (moment_of self.new)) }
        ensures lasts { OnOk result (LeavesJust (contents_of self.new) (left_at_of self.new (moment_of self.new))) }
    {
        if self.spent || self.events.push(None).is_err() {
            self.spent = true;
            return self.fault();
        }
        self.synced = self.events.len();
        Ok(())
    }

    // Syncs aren't passed over.
    fn finish(&mut self) -> Result<(), DeviceRefusal>
        ensures kept { self.new ≡ self.old }
        ensures done { result ≡ Ok tt }
    {
        Ok(())
    }

    ghost blocks_counted = { blocks_counted_law };

    ghost blocks_whole = { blocks_whole_law };

    ghost all_may_land = { all_may_land_law };

    ghost faults_fit = { faults_fit_law };
}

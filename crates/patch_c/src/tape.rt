//! A device that keeps the writes and barriers of a sync, until the program in C has brought them to the file.
ghost use Rattle.std.specs.Prelude.{◌≡◌, ◌+◌, ◌≤◌, ◌↔◌, [], ◌∷◌, ◌++◌, length, slice_set, count_by, is_none, Some, None, Ok, Err, IfErr, OnOk, OnErr, IsErr, IsErrOf, IsFalse};
ghost use Rattle.patch_device.specs.Blocks.{AreWhole};
ghost use Rattle.patch_device.specs.Device.{most_faults, HasRisen, CountsFault, Elapses, LandsOrNot, LeavesNoMore, LeavesJust};
ghost use Rattle.patch_device.specs.Cuts.{written_behind};

use crate::held_blocks::HeldBlocks;
use patch_device::{Device, DeviceRefusal};
use patch_model::{BLOCK, BlockBytes};
use std::alloc::Global;

/// What has to be done yet to a file of so many blocks: a list of writes and barriers, the first of them first. A write or a barrier is
/// refused where there is no memory for it, and nothing is read. To contracts it is an honest device with a write cache: it holds what the
/// file does once all is done, and a cut leaves of it what one leaves of the file behind the events that were done by then, if the file
/// is synced at each barrier before anything behind it is written.
#[derive(Drop)]
pub struct Tape {
    file: HeldBlocks,
    count: u32,
    /// Each write, a block's number and its bytes, and as nothing each barrier.
    events: Vec<Option<(u32, BlockBytes)>>,
    faults: u64,
    /// A barrier was refused.
    spent: bool,
    ghost counted: { length (written_behind file.blocks events.items) ≡ count },
    ghost whole: { AreWhole (written_behind file.blocks events.items) },
    ghost faults_fit: { faults ≤ most_faults },
}

impl Tape {
    ghost use Rattle.patch_c.specs.Tape.{file_of, contents_of, block_count_of, fault_count_of, events_of, loose_of, IsSpent};

    /// The tape of a file that holds so many blocks, with no event.
    pub fn new(alloc: Global, file: HeldBlocks, count: u32) -> Tape
        requires counted { length file.blocks ≡ count }
        requires whole { AreWhole file.blocks }
        ensures file { file_of result ≡ file.blocks }
        ensures count { block_count_of result ≡ count }
        ensures events { events_of result ≡ [] }
        ensures faults { fault_count_of result ≡ 0 }
        ensures fresh { IsSpent result → ⊥ }
    {
        Tape {
            file,
            count,
            events: Vec::new(alloc),
            faults: 0,
            spent: false,
        }
    }

    /// The events, a write as a block's number and its bytes, a barrier as `None`.
    pub fn events(&self) -> &[Option<(u32, BlockBytes)>]
        ensures { result.now ≡ events_of self.now }
    {
        self.events.as_slice()
    }

    /// How many barriers are among the events.
    pub fn barriers(&self) -> u64
        ensures { result ≡ count_by is_none (events_of self.now) }
    {
        let mut count = 0;
        for at in 0..self.events.len() {
            if self.events[at].is_none() {
                count += 1;
            }
        }
        count
    }

    /// What the file holds once all is done.
    fn landed(&self) -> HeldBlocks
        ensures { result.blocks ≡ contents_of self.now }
    {
        HeldBlocks {}
    }

    /// Lets go of all events: they are done.
    pub fn clear(&mut self)
        ensures file { file_of self.new ≡ contents_of self.old }
        ensures count { block_count_of self.new ≡ block_count_of self.old }
        ensures events { events_of self.new ≡ [] }
        ensures faults { fault_count_of self.new ≡ fault_count_of self.old }
        ensures spent { IsSpent self.old ↔ IsSpent self.new }
    {
        let file = self.landed();
        self.events.clear();
        self.file = file;
    }

    /// Whether the last event is a write.
    #[tactic(auto, using(crate::proofs::Writing::none_loose, crate::proofs::Writing::none_at_all))]
    fn is_loose(&self) -> bool
        ensures { IsFalse result → loose_of self.now ≡ [] }
    {
        match self.events.as_slice().last() {
            Some(event) => event.is_some(),
            None => false,
        }
    }

    /// Counts a fault.
    fn fault(&mut self) -> Result<(), DeviceRefusal>
        ensures file { file_of self.new ≡ file_of self.old }
        ensures count { block_count_of self.new ≡ block_count_of self.old }
        ensures events { events_of self.new ≡ events_of self.old }
        ensures spent { self.new.spent ≡ self.old.spent }
        ensures risen { HasRisen (fault_count_of self.old) (fault_count_of self.new) }
        ensures fault { result ≡ Err DeviceRefusal.Fault }
    {
        self.faults = self.faults.saturating_add(1);
        Err(DeviceRefusal::Fault)
    }
}

impl Device for Tape {
    ghost use Rattle.patch_c.specs.Tape.{file_of, contents_of, moment_of, left_at_of, block_count_of, fault_count_of, events_of, IsSpent, blocks_counted_law, blocks_whole_law, all_may_land_law, faults_fit_law};

    ghost contents = { contents_of };

    ghost moment = { moment_of };

    ghost left_at = { left_at_of };

    ghost is_honest = { λ _. Unit {0} };

    ghost is_spent = { IsSpent };

    ghost block_count = { block_count_of };

    ghost fault_count = { fault_count_of };

    fn count(&self) -> u32 {
        self.count
    }

    fn read(&mut self, n: u32, _into: &mut [u8]) -> Result<(), DeviceRefusal>
        requires { length _into.old ≡ BLOCK }
        ensures file { file_of self.new ≡ file_of self.old }
        ensures count { block_count_of self.new ≡ block_count_of self.old }
        ensures events { events_of self.new ≡ events_of self.old }
        ensures still_spent { IsSpent self.old ↔ IsSpent self.new }
        ensures no_such_block { IsErrOf result DeviceRefusal.NoSuchBlock
            ↔ (block_count_of self.old ≤ n) }
        ensures cause { CountsFault (fault_count_of self.old) (fault_count_of self.new) result }
        ensures refuses { IsErr result }
    {
        if n >= self.count {
            return Err(DeviceRefusal::NoSuchBlock);
        }
        self.fault()
    }

    #[tactic(auto, using(crate::proofs::Writing::counted_then, crate::proofs::Writing::whole_then, crate::proofs::Writing::written_then, crate::proofs::Writing::elapses_then, crate::proofs::Writing::lands_then))]
    fn write(&mut self, n: u32, from: &[u8]) -> Result<(), DeviceRefusal>
        requires { length from.now ≡ BLOCK }
        ensures count { block_count_of self.new ≡ block_count_of self.old }
        ensures still_spent { IsSpent self.old ↔ IsSpent self.new }
        ensures no_such_block { IsErrOf result DeviceRefusal.NoSuchBlock
            ↔ (block_count_of self.old ≤ n) }
        ensures faults { fault_count_of self.old ≤ fault_count_of self.new }
        ensures cause { CountsFault (fault_count_of self.old) (fault_count_of self.new) result }
        ensures refuses { IsSpent self.old → IsErr result }
        ensures file { file_of self.new ≡ file_of self.old }
        ensures kept { OnOk result (events_of self.new ≡ events_of self.old ++ Some (n, from.now) ∷ []) }
        ensures lost { OnErr result (events_of self.new ≡ events_of self.old) }
        ensures written { OnOk result (contents_of self.new ≡ slice_set (contents_of self.old) n from.now) }
        ensures refused { OnErr result (contents_of self.new ≡ contents_of self.old) }
        ensures time { Elapses (moment_of self.old) (moment_of self.new) (left_at_of self.old) (left_at_of self.new) }
        ensures one_moment { moment_of self.new ≤ moment_of self.old + 1 }
        ensures left { LandsOrNot (left_at_of self.old (moment_of self.old)) n from.now (left_at_of self.new (moment_of self.new)) }
    {
        if n >= self.count {
            return Err(DeviceRefusal::NoSuchBlock);
        }
        if self.spent {
            return self.fault();
        }
        let alloc = *self.events.allocator();
        let Ok(bytes) = BlockBytes::from_slice(alloc, from) else {
            return self.fault();
        };
        if self.events.push(Some((n, bytes))).is_err() {
            return self.fault();
        }
        Ok(())
    }

    // A barrier behind no write would be one more sync of the file for nothing.
    #[tactic(auto, using(crate::proofs::Writing::elapses_then, crate::proofs::Writing::synced_then, crate::proofs::Writing::no_more_then, crate::proofs::Writing::lasts_then, crate::proofs::Writing::lasts_still))]
    fn sync(&mut self) -> Result<(), DeviceRefusal>
        ensures count { block_count_of self.new ≡ block_count_of self.old }
        ensures no_fault { OnOk result (fault_count_of self.new ≡ fault_count_of self.old) }
        ensures fault { OnErr result (HasRisen (fault_count_of self.old) (fault_count_of self.new)) }
        ensures kind { IfErr result (λ refusal. refusal ≡ DeviceRefusal.Fault) }
        ensures still_spent { IsSpent self.old → IsSpent self.new }
        ensures refuses { IsSpent self.old → IsErr result }
        ensures spends { OnErr result (IsSpent self.new) }
        ensures file { file_of self.new ≡ file_of self.old }
        ensures lost { OnErr result (events_of self.new ≡ events_of self.old) }
        ensures same { contents_of self.new ≡ contents_of self.old }
        ensures time { Elapses (moment_of self.old) (moment_of self.new) (left_at_of self.old) (left_at_of self.new) }
        ensures one_moment { moment_of self.new ≤ moment_of self.old + 1 }
        ensures no_more { LeavesNoMore (left_at_of self.old (moment_of self.old)) (left_at_of self.new (moment_of self.new)) }
        ensures lasts { OnOk result (LeavesJust (contents_of self.new) (left_at_of self.new (moment_of self.new))) }
    {
        if self.spent {
            return self.fault();
        }
        if !self.is_loose() {
            return Ok(());
        }
        if self.events.push(None).is_err() {
            self.spent = true;
            return self.fault();
        }
        Ok(())
    }

    // Barriers aren't passed over.
    fn finish(&mut self) -> Result<(), DeviceRefusal>
        ensures kept { self.new ≡ self.old }
        ensures done { result ≡ Ok tt }
    {
        Ok(())
    }

    ghost blocks_counted = { blocks_counted_law };

    ghost blocks_whole = { blocks_whole_law };

    ghost all_may_land = { all_may_land_law };

    ghost faults_fit = { faults_fit_law };
}

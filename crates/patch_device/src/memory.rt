//! A device in memory, which lists what was written to it.
ghost use Rattle.std.specs.Prelude.{◌≡◌, ◌+◌, ◌≤◌, ◌↔◌, [], ◌∷◌, ◌++◌, length, slice_get, slice_set, Some, Ok, IfOk, IfErr, OnOk, OnErr, IsErrOf};
ghost use Rattle.patch_device.specs.Device.{most_faults, CountsFault, LandsOrNot, Elapses};
ghost use Rattle.patch_device.specs.Blocks.{AreWhole, zeros};
ghost use Rattle.patch_device.specs.Writes.{after_writes};

use crate::devices::Device;
use crate::refusals::DeviceRefusal;
use patch_model::{BLOCK, BlockBytes, OutOfMemory};
use std::alloc::{Allocator, Global};

/// A device in memory, always honest, on which each write lasts at once. It keeps the list of the writes that landed, and a call
/// fails only where that list can't grow.
#[derive(Drop)]
pub struct MemDevice<A: Allocator = Global> {
    count: u32,
    blocks: Vec<BlockBytes<A>, A>,
    landed: Vec<(u32, BlockBytes<A>), A>,
    faults: u64,
    ghost counted: { length blocks.items ≡ count },
    ghost whole: { AreWhole blocks.items },
    ghost replayed: { blocks.items ≡ after_writes (zeros count) landed.items },
    ghost faults_fit: { faults ≤ most_faults },
}

/// Puts these bytes in place of the block's.
pub(crate) fn overwrite<A: Allocator>(block: &mut BlockBytes<A>, bytes: &[u8])
    requires { length bytes.now ≡ BLOCK }
    ensures { block.new ≡ bytes.now }
{
    let _before = block.as_slice();
    block.write(0, bytes);
}

/// Puts these bytes in a block, if it is there.
pub(crate) fn put<A: Allocator>(blocks: &mut Vec<BlockBytes<A>, A>, n: u32, bytes: &[u8])
    requires { length bytes.now ≡ BLOCK }
    ensures { blocks.new.items ≡ slice_set blocks.old.items n bytes.now }
{
    if (n as usize) < blocks.len() {
        overwrite(&mut blocks[n as usize], bytes);
    }
}

/// So many blocks of zeros.
pub(crate) fn blocks_of_zeros<A: Allocator + Copy>(
    alloc: A,
    count: u32,
) -> Result<Vec<BlockBytes<A>, A>, OutOfMemory>
    ensures { IfOk result (λ blocks. blocks.items ≡ zeros count) }
{
    let mut blocks = Vec::with_capacity(alloc, count as usize)?;
    for _ in 0..count {
        blocks.push(BlockBytes::zeros(alloc)?)?;
    }
    Ok(blocks)
}

impl<A: Allocator + Copy> MemDevice<A> {
    ghost use Rattle.patch_device.specs.MemDevice.{contents_of, landed_writes, block_count_of, fault_count_of};

    /// A device of so many blocks of zeros.
    pub fn new(alloc: A, count: u32) -> Result<MemDevice<A>, OutOfMemory>
        ensures honest { IfOk result ⟦<MemDevice<A> as Device>⟧.is_honest }
        ensures count { IfOk result (λ d. block_count_of d ≡ count) }
        ensures zeros { IfOk result (λ d. contents_of d ≡ zeros count) }
        ensures writes { IfOk result (λ d. landed_writes d ≡ []) }
        ensures faults { IfOk result (λ d. fault_count_of d ≡ 0) }
    {
        Ok(MemDevice {
            count,
            blocks: blocks_of_zeros(alloc, count)?,
            landed: Vec::new(alloc),
            faults: 0,
        })
    }

    /// The writes that landed, each a block's number and its bytes, the first of them first.
    pub fn writes(&self) -> &[(u32, BlockBytes<A>)]
        ensures writes { result.now ≡ landed_writes self.now }
        ensures contents { contents_of self.now
            ≡ after_writes (zeros (block_count_of self.now)) result.now }
    {
        self.landed.as_slice()
    }
}

impl<A: Allocator + Copy> Device for MemDevice<A> {
    ghost use Rattle.patch_device.specs.MemDevice.{contents_of, moment_of, left_at_of, landed_writes, block_count_of, fault_count_of, blocks_counted_law, blocks_whole_law, all_may_land_law, faults_fit_law};

    ghost contents = { contents_of };

    ghost moment = { moment_of };

    ghost left_at = { left_at_of };

    ghost is_honest = { λ _. Unit {0} };

    ghost is_spent = { λ _. ⊥ };

    ghost block_count = { block_count_of };

    ghost fault_count = { fault_count_of };

    fn count(&self) -> u32 {
        self.count
    }

    // It never fails, and changes nothing of the device.
    fn read(&mut self, n: u32, into: &mut [u8]) -> Result<(), DeviceRefusal>
        requires { length into.old ≡ BLOCK }
        ensures kept { self.new ≡ self.old }
        ensures gives { OnOk result (slice_get (contents_of self.old) n ≡ Some into.new) }
        ensures no_such_block { IsErrOf result DeviceRefusal.NoSuchBlock
            ↔ (block_count_of self.old ≤ n) }
        ensures no_fault { IfErr result (λ refusal. refusal ≡ DeviceRefusal.NoSuchBlock) }
    {
        let Some(block) = self.blocks.get(n as usize) else {
            return Err(DeviceRefusal::NoSuchBlock);
        };
        into.copy_from_slice(block.as_slice());
        Ok(())
    }

    #[tactic(auto, using(crate::specs::Writes::after_one_more))]
    fn write(&mut self, n: u32, from: &[u8]) -> Result<(), DeviceRefusal>
        requires { length from.now ≡ BLOCK }
        ensures count { block_count_of self.new ≡ block_count_of self.old }
        ensures no_such_block { IsErrOf result DeviceRefusal.NoSuchBlock
            ↔ (block_count_of self.old ≤ n) }
        ensures faults { fault_count_of self.old ≤ fault_count_of self.new }
        ensures cause { CountsFault (fault_count_of self.old) (fault_count_of self.new) result }
        ensures written { OnOk result (contents_of self.new
            ≡ slice_set (contents_of self.old) n from.now) }
        ensures landed { OnOk result (landed_writes self.new
            ≡ landed_writes self.old ++ (n, from.now) ∷ []) }
        ensures refused { OnErr result (contents_of self.new ≡ contents_of self.old) }
        ensures lost { OnErr result (landed_writes self.new ≡ landed_writes self.old) }
        ensures time { Elapses (moment_of self.old) (moment_of self.new) (left_at_of self.old) (left_at_of self.new) }
        ensures one_moment { moment_of self.new ≤ moment_of self.old + 1 }
        ensures left { LandsOrNot (left_at_of self.old (moment_of self.old)) n from.now (left_at_of self.new (moment_of self.new)) }
    {
        if n >= self.count {
            return Err(DeviceRefusal::NoSuchBlock);
        }
        let alloc = *self.landed.allocator();
        let Ok(bytes) = BlockBytes::from_slice(alloc, from) else {
            self.faults = self.faults.saturating_add(1);
            return Err(DeviceRefusal::Fault);
        };
        if self.landed.push((n, bytes)).is_err() {
            self.faults = self.faults.saturating_add(1);
            return Err(DeviceRefusal::Fault);
        }
        overwrite(&mut self.blocks[n as usize], from);
        Ok(())
    }

    // Each write has lasted already.
    fn sync(&mut self) -> Result<(), DeviceRefusal>
        ensures kept { self.new ≡ self.old }
        ensures done { result ≡ Ok tt }
    {
        Ok(())
    }

    fn finish(&mut self) -> Result<(), DeviceRefusal>
        ensures kept { self.new ≡ self.old }
        ensures done { result ≡ Ok tt }
    {
        Ok(())
    }

    ghost blocks_counted = { blocks_counted_law };

    ghost blocks_whole = { blocks_whole_law };

    ghost all_may_land = { all_may_land_law };

    ghost faults_fit = { faults_fit_law };
}

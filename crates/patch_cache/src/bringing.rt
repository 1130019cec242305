//! How a block that isn't resident is read from the device, as it is needed.
ghost use Rattle.std.specs.Prelude.{◌≡◌, ◌<◌, false, None, Some, IsErrOf, IsOk, IfOk, OnOk, OnErr, length, slice_get};
ghost use Rattle.patch_model.specs.Execution.{Execution};
ghost use Rattle.patch_device.specs.Device.{HasRisen};
ghost use Rattle.patch_device.specs.SameDevice.{IsSameDevice};
ghost use Rattle.patch_cache.specs.Contents.{is_resident};
ghost use Rattle.patch_cache.specs.Meaning.{IsCacheOf, IsPagedCacheOf};
ghost use Rattle.patch_cache.specs.Paging.{why_not_resident};
ghost use Rattle.patch_cache.specs.Asks.{IsMissing};
ghost use Rattle.patch_cache.specs.Running.{LeavesSafe};
ghost use Rattle.patch_cache.specs.Waves.{HoldImages};

use crate::caches::Cache;
use crate::laws;
use crate::refusals::BringRefusal;
use patch_device::Device;
use patch_model::{BlockBytes, BlockNo};
use std::alloc::Allocator;

impl<A: Allocator + Copy> Cache<A> {
    /// Makes a block resident, as the device has it, and does nothing where it is so already or there is no such block. Where it is
    /// refused the cache is as before.
    pub fn bring<D: Device>(&mut self, device: &mut D, block: BlockNo) -> Result<(), BringRefusal>
        ensures there { OnOk result (why_not_resident self.new block ≡ None) }
        ensures whole { (run : Execution) → IsCacheOf self.old run → IsOk result × (self.new ≡ self.old) × (device.new ≡ device.old) }
        ensures needless { why_not_resident self.old block ≡ None → IsOk result }
        ensures still { why_not_resident self.old block ≡ None → self.new ≡ self.old }
        ensures unread { why_not_resident self.old block ≡ None → device.new ≡ device.old }
        ensures paged { (run : Execution) → IsPagedCacheOf self.old run → D.is_honest device.old
            → HoldImages run (D.contents device.old) → IsPagedCacheOf self.new run }
        ensures missing { (run : Execution) → IsPagedCacheOf self.old run → OnErr result (IsMissing run block) }
        ensures trace { self.new.trace ≡ self.old.trace }
        ensures refused { OnErr result (self.new ≡ self.old) }
        ensures device { IsSameDevice D.Device device.old device.new }
        ensures no_fault { OnOk result (D.fault_count device.new ≡ D.fault_count device.old) }
        ensures fault { IsErrOf result BringRefusal.Fault → length self.old.blocks ≡ D.block_count device.old
            → HasRisen (D.fault_count device.old) (D.fault_count device.new) }
        ensures no_memory { IsErrOf result BringRefusal.OutOfMemory → D.fault_count device.new ≡ D.fault_count device.old }
        ensures same { D.is_honest device.old → D.contents device.new ≡ D.contents device.old }
        ensures no_moment { D.moment device.new ≡ D.moment device.old }
        ensures crash { (run : Execution) → LeavesSafe D.Device run run device.old device.new }
    {
        if block.0 >= self.blocks() || self.is_resident(block) {
            return Ok(());
        }
        self.read_in(device, block)
    }

    /// Reads a block that isn't resident, and admits it.
    fn read_in<D: Device>(&mut self, device: &mut D, block: BlockNo) -> Result<(), BringRefusal>
        requires known { block < length self.old.blocks }
        requires absent { is_resident self.old block ≡ false }
        ensures there { OnOk result (why_not_resident self.new block ≡ None) }
        ensures paged { (run : Execution) → IsPagedCacheOf self.old run → D.is_honest device.old
            → HoldImages run (D.contents device.old) → IsPagedCacheOf self.new run }
        ensures missing { (run : Execution) → IsPagedCacheOf self.old run → OnErr result (IsMissing run block) }
        ensures trace { self.new.trace ≡ self.old.trace }
        ensures refused { OnErr result (self.new ≡ self.old) }
        ensures device { IsSameDevice D.Device device.old device.new }
        ensures no_fault { OnOk result (D.fault_count device.new ≡ D.fault_count device.old) }
        ensures fault { IsErrOf result BringRefusal.Fault → length self.old.blocks ≡ D.block_count device.old
            → HasRisen (D.fault_count device.old) (D.fault_count device.new) }
        ensures no_memory { IsErrOf result BringRefusal.OutOfMemory → D.fault_count device.new ≡ D.fault_count device.old }
        ensures same { D.is_honest device.old → D.contents device.new ≡ D.contents device.old }
        ensures no_moment { D.moment device.new ≡ D.moment device.old }
    {
        laws::clean_blocks_are_held();
        let bytes = read_block(self.alloc, device, block)?;
        match self.admit(block, bytes) {
            Ok(()) => Ok(()),
            Err(_) => Err(BringRefusal::OutOfMemory),
        }
    }
}

/// What the device has of a block.
fn read_block<A: Allocator, D: Device>(
    alloc: A,
    device: &mut D,
    block: BlockNo,
) -> Result<BlockBytes<A>, BringRefusal>
    ensures device { IsSameDevice D.Device device.old device.new }
    ensures no_fault { OnOk result (D.fault_count device.new ≡ D.fault_count device.old) }
    ensures fault { IsErrOf result BringRefusal.Fault → block < D.block_count device.old
        → HasRisen (D.fault_count device.old) (D.fault_count device.new) }
    ensures no_memory { IsErrOf result BringRefusal.OutOfMemory → D.fault_count device.new ≡ D.fault_count device.old }
    ensures gives { D.is_honest device.old → IfOk result (λ bytes. slice_get (D.contents device.old) block ≡ Some bytes) }
    ensures same { D.is_honest device.old → D.contents device.new ≡ D.contents device.old }
    ensures no_moment { D.moment device.new ≡ D.moment device.old }
{
    let mut bytes = BlockBytes::zeros(alloc)?.into_vec();
    match device.read(block.0, &mut bytes) {
        Ok(()) => Ok(BlockBytes::from_vec(bytes)),
        Err(_) => Err(BringRefusal::Fault),
    }
}

//! All blocks of a device.
ghost use Rattle.std.specs.Prelude.{◌≡◌, ◌<◌, length, slice_get, Some, IfOk, OnOk, IsErrOf};
ghost use Rattle.patch_device.specs.Device.{HasRisen};
ghost use Rattle.patch_device.specs.SameDevice.{IsSameDevice};

use crate::devices::Device;
use crate::refusals::LoadFault;
use patch_model::{BLOCK, BlockBytes};
use std::alloc::Allocator;

/// One block of the device.
fn read_block<A: Allocator, D: Device>(
    alloc: A,
    device: &mut D,
    n: u32,
) -> Result<BlockBytes<A>, LoadFault>
    requires { n < D.block_count device.old }
    ensures device { IsSameDevice D.Device device.old device.new }
    ensures no_fault { OnOk result (D.fault_count device.new ≡ D.fault_count device.old) }
    ensures fault { IsErrOf result LoadFault.Fault
        → HasRisen (D.fault_count device.old) (D.fault_count device.new) }
    ensures no_memory { IsErrOf result LoadFault.OutOfMemory
        → D.fault_count device.new ≡ D.fault_count device.old }
    ensures gives { D.is_honest device.old
        → IfOk result (λ block. slice_get (D.contents device.old) n ≡ Some block) }
    ensures same { D.is_honest device.old → D.contents device.new ≡ D.contents device.old }
    ensures no_moment { D.moment device.new ≡ D.moment device.old }
{
    let mut bytes = vec![in alloc; 0; BLOCK]?;
    match device.read(n, &mut bytes) {
        Ok(()) => Ok(BlockBytes::from_vec(bytes)),
        Err(_) => Err(LoadFault::Fault),
    }
}

/// The blocks of the device, each read once, in rising order. A read that fails isn't tried again.
pub fn load<A: Allocator + Copy, D: Device>(
    alloc: A,
    device: &mut D,
) -> Result<Vec<BlockBytes<A>, A>, LoadFault>
    ensures device { IsSameDevice D.Device device.old device.new }
    ensures blocks { IfOk result (λ blocks. length blocks.items ≡ D.block_count device.old) }
    ensures no_fault { OnOk result (D.fault_count device.new ≡ D.fault_count device.old) }
    ensures fault { IsErrOf result LoadFault.Fault
        → HasRisen (D.fault_count device.old) (D.fault_count device.new) }
    ensures no_memory { IsErrOf result LoadFault.OutOfMemory
        → D.fault_count device.new ≡ D.fault_count device.old }
    ensures gives { D.is_honest device.old
        → IfOk result (λ blocks. blocks.items ≡ D.contents device.old) }
    ensures same { D.is_honest device.old → D.contents device.new ≡ D.contents device.old }
    ensures no_moment { D.moment device.new ≡ D.moment device.old }
{
    let count = device.count();
    let mut blocks = Vec::with_capacity(alloc, count as usize)?;
    for n in 0..count {
        blocks.push(read_block(alloc, device, n)?)?;
    }
    Ok(blocks)
}

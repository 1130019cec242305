//! Writes of flights to a device, and what is noted of them.
ghost use Rattle.std.specs.Prelude.{◌≡◌, ◌+◌, ◌<◌, ◌≤◌, slice_set, IfOk, IfErr, OnOk, OnErr};
ghost use Rattle.patch_device.specs.Device.{HasRisen, IsOldOrNew, LandsOrNot};
ghost use Rattle.patch_device.specs.SameDevice.{IsSameDevice, may_leave};

use crate::flights::{Flight, Landed};
use crate::refusals::Fault;
use patch_device::Device;
use patch_model::{BlockNo, Numbers};
use std::alloc::{Allocator, Global};
use std::marker::Model;

/// What a completed write made durable: the numbers of its block's patches in it, rising.
#[derive(Debug, Drop)]
pub struct Done<A: Allocator = Global> {
    pub block: BlockNo,
    pub numbers: Numbers<A>,
}

/// A write under way, as the cache notes it.
#[derive(Drop)]
pub(crate) struct Write<A: Allocator = Global> {
    pub(crate) sequence: u32,
    pub(crate) numbers: Numbers<A>,
}

impl<A: Allocator> Model for Write<A> {
    ghost use Rattle.patch_cache.specs.Contents.{Write as Seen};

    ghost Value = { Seen };

    ghost view = { λ w. record { sequence = w.sequence; numbers = w.numbers } };
}

/// Writes a flight's image to its block of the device. It lasts there once the device is synced, which is when it may be completed.
/// It takes no memory of its own; after a fault the flight comes back, and the same image may be written again.
pub fn write_out<A: Allocator, D: Device>(
    device: &mut D,
    flight: Flight<A>,
) -> Result<Landed, (Flight<A>, Fault)>
    ensures landed { IfOk result (λ landed. (landed.block ≡ flight.block) × (landed.sequence ≡ flight.sequence)) }
    ensures back { IfErr result (λ refused. refused.0 ≡ flight) }
    ensures device { IsSameDevice D.Device device.old device.new }
    ensures cause { flight.block < D.block_count device.old → OnErr result (HasRisen (D.fault_count device.old) (D.fault_count device.new)) }
    ensures no_fault { OnOk result (D.fault_count device.new ≡ D.fault_count device.old) }
    ensures written { D.is_honest device.old → OnOk result (D.contents device.new ≡ slice_set (D.contents device.old) flight.block flight.image) }
    ensures refused { D.is_honest device.old → OnErr result (IsOldOrNew (D.contents device.old) flight.block flight.image (D.contents device.new)) }
    ensures moment { D.moment device.new ≤ D.moment device.old + 1 }
    ensures left { D.is_honest device.old → LandsOrNot (may_leave D.Device device.old) flight.block flight.image (may_leave D.Device device.new) }
{
    match write_image(device, &flight) {
        Ok(()) => Ok(flight.landed()),
        Err(fault) => Err((flight, fault)),
    }
}

/// Writes the image of a flight that stays as it is.
pub(crate) fn write_image<A: Allocator, D: Device>(
    device: &mut D,
    flight: &Flight<A>,
) -> Result<(), Fault>
    ensures device { IsSameDevice D.Device device.old device.new }
    ensures cause { flight.now.block < D.block_count device.old → OnErr result (HasRisen (D.fault_count device.old) (D.fault_count device.new)) }
    ensures no_fault { OnOk result (D.fault_count device.new ≡ D.fault_count device.old) }
    ensures written { D.is_honest device.old → OnOk result (D.contents device.new ≡ slice_set (D.contents device.old) flight.now.block flight.now.image) }
    ensures refused { D.is_honest device.old → OnErr result (IsOldOrNew (D.contents device.old) flight.now.block flight.now.image (D.contents device.new)) }
    ensures moment { D.moment device.new ≤ D.moment device.old + 1 }
    ensures left { D.is_honest device.old → LandsOrNot (may_leave D.Device device.old) flight.now.block flight.now.image (may_leave D.Device device.new) }
{
    match device.write(flight.block.0, flight.image.as_slice()) {
        Ok(()) => Ok(()),
        Err(_) => Err(Fault),
    }
}

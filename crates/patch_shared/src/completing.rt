//! What the thread does that writes: it takes the writes that were begun, does them, syncs the device, and ends them.
ghost use Rattle.std.specs.Prelude.{IfErr, OnOk};
ghost use Rattle.patch_device.specs.SameDevice.{IsSameDevice, IsLasting};
ghost use Rattle.patch_shared.specs.Serving.{RestsOn, IsBare, CameTo};

use crate::actors::Actor;
use crate::bells::Bell;
use crate::desks::{Desk, Tally};
use crate::faults::Cause;
use crate::gates::Gate;
use crate::parcels::{Arrival, Parcel};
use crossbeam_channel::Receiver;
use patch_cache::{Landed, write_out_tried};
use patch_device::Device;
use std::sync::ledger::Ledger;
use std::sync::{Mutex, Wait};

/// What the completer did. The device comes back with it.
#[derive(Drop)]
pub struct Completed<D: Device, T: Ledger> {
    pub device: D,
    pub tally: Tally<T>,
    /// Why it ended before all was done, if it did.
    pub end: Result<(), Cause>,
}

/// Does the writes that come, and ends them. Those that wait together share a sync.
pub fn complete_all<D: Device, C: Ledger, S: Ledger, T: Ledger, G: Gate, R: Wait>(
    rt: &R,
    desk: &Mutex<Desk<C, S, T>>,
    bell: &Bell,
    gate: &G,
    from: Receiver<Parcel>,
    mut landed: Vec<Arrival>,
    mut device: D,
    mut tally: Tally<T>,
) -> Completed<D, T>
    ensures device { IsSameDevice D.Device device result.device }
    ensures end { CameTo D.Device result.end device result.device }
{
    for _ in rt.forever() {
        let Ok(first) = from.recv(rt) else {
            break;
        };
        let end = complete_batch(
            rt,
            desk,
            bell,
            gate,
            &from,
            first,
            &mut landed,
            &mut device,
            &mut tally,
        );
        if end.is_err() {
            bell.stop(rt);
            return Completed { device, tally, end };
        }
    }
    Completed {
        device,
        tally,
        end: Ok(()),
    }
}

/// Does a write and those that wait behind it, syncs the device once, and only then ends them: so all that is ended lasts. No lock
/// is held while the device writes or syncs. Where it refuses, none of them is ended.
fn complete_batch<D: Device, C: Ledger, S: Ledger, T: Ledger, G: Gate, R: Wait>(
    rt: &R,
    desk: &Mutex<Desk<C, S, T>>,
    bell: &Bell,
    gate: &G,
    from: &Receiver<Parcel>,
    first: Parcel,
    landed: &mut Vec<Arrival>,
    device: &mut D,
    tally: &mut Tally<T>,
) -> Result<(), Cause>
    ensures device { IsSameDevice D.Device device.old device.new }
    ensures lasts { D.is_honest device.old → OnOk result (IsLasting D.Device device.new) }
    ensures fault { IfErr result (λ cause. RestsOn D.Device cause device.old device.new) }
{
    write_waiting(rt, from, first, landed, device)?;
    if device.sync().is_err() {
        return Err(Cause::SyncFailed);
    }
    end_writes(rt, desk, bell, gate, landed, device, tally)
}

/// Writes a flight out, and those that wait behind it. The channel may say that none waits while one is on its way: that one is
/// the first of the next batch.
fn write_waiting<D: Device, R: Wait>(
    rt: &R,
    from: &Receiver<Parcel>,
    first: Parcel,
    landed: &mut Vec<Arrival>,
    device: &mut D,
) -> Result<(), Cause>
    ensures device { IsSameDevice D.Device device.old device.new }
    ensures fault { IfErr result (λ cause. RestsOn D.Device cause device.old device.new) }
{
    let mut parcel = first;
    for _ in rt.forever() {
        let written = write_parcel(device, parcel)?;
        // Room for a write of each block was taken before: this asks for memory only where there were more.
        if landed.push(Arrival::new(written)).is_err() {
            return Err(Cause::OutOfMemory);
        }
        let Ok(next) = from.try_recv(rt) else {
            return Ok(());
        };
        parcel = next;
    }
    unreachable!()
}

/// Writes one flight out.
fn write_parcel<D: Device>(device: &mut D, parcel: Parcel) -> Result<Landed, Cause>
    ensures device { IsSameDevice D.Device device.old device.new }
    ensures fault { IfErr result (λ cause. RestsOn D.Device cause device.old device.new) }
{
    let flight = parcel.into_flight();
    let block = flight.block();
    if block.0 >= device.count() {
        flight.abandon();
        return Err(Cause::Disagreed);
    }
    match write_out_tried(device, flight) {
        Ok(landed) => Ok(landed),
        Err(flight) => {
            flight.abandon();
            Err(Cause::DeviceGaveUp(block))
        }
    }
}

/// Ends all writes that have landed. It may be called only where what an honest device holds lasts.
fn end_writes<D: Device, C: Ledger, S: Ledger, T: Ledger, G: Gate, R: Wait>(
    rt: &R,
    desk: &Mutex<Desk<C, S, T>>,
    bell: &Bell,
    gate: &G,
    landed: &mut Vec<Arrival>,
    device: &D,
    tally: &mut Tally<T>,
) -> Result<(), Cause>
    requires lasting { D.is_honest device.now → IsLasting D.Device device.now }
    ensures fault { IfErr result IsBare }
{
    while !landed.is_empty() {
        let arrival = landed.swap_remove(0);
        end_write(rt, desk, gate, arrival, tally)?;
        bell.land(rt);
    }
    Ok(())
}

/// Ends one write. The gate is passed outside the lock.
fn end_write<C: Ledger, S: Ledger, T: Ledger, G: Gate, R: Wait>(
    rt: &R,
    desk: &Mutex<Desk<C, S, T>>,
    gate: &G,
    arrival: Arrival,
    tally: &mut Tally<T>,
) -> Result<(), Cause>
    ensures fault { IfErr result IsBare }
{
    let call = tally.count().wrapping_add(1);
    gate.before(Actor::Completer, call);
    let done = desk.lock(rt).complete(arrival.into_landed(), tally);
    gate.after(Actor::Completer, call);
    match done {
        Ok(_) => Ok(()),
        Err(stranger) => {
            stranger.abandon();
            Err(Cause::Disagreed)
        }
    }
}

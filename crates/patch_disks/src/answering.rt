//! How a line of a script is answered.
ghost use Rattle.std.specs.Prelude.{ℕ, ◌≡◌, List, Some, None, true, IfOk, IfErr, OnOk, string_bytes};
ghost use Rattle.patch_device.specs.Device.{HasRisen};
ghost use Rattle.patch_device.specs.SameDevice.{IsSameDevice};
ghost use Rattle.patch_history.specs.Command.{Put};
ghost use Rattle.patch_history.specs.Commands.{command_of, reply_told};
ghost use Rattle.patch_history.specs.History.{History};
ghost use Rattle.patch_commands.specs.Asking.{call_of};
ghost use Rattle.patch_commands.specs.Shared.{is_sync};
ghost use Rattle.patch_commands.specs.declared.commands.CommandLine.{CommandLine as TheLine};
ghost use Rattle.patch_commands.specs.declared.commands.CommandLine.TheVariants.{Sync};
ghost use Rattle.patch_disks.specs.declared.answering.Reclaims.{Reclaims as TheReclaims};
ghost use Rattle.patch_disks.specs.declared.answering.Reclaims.TheVariants.{ByItself};
ghost use Rattle.patch_disks.specs.Going.{EndsSafely, StillLasts};
ghost use Rattle.patch_disks.specs.Running.{StandsOn, IsCalled, IsCommanded, IsTold, HasAnswered};
ghost use Rattle.patch_disks.specs.Stopping.{starved, IsStop};

use crate::endings::Stop;
use crate::opening::save;
use patch_cache::laws as cache_laws;
use patch_commands::{CommandLine, reply_line, synced_line};
use patch_device::Device;
use patch_history::{Command, Reply, laws as history_laws};
use patch_model::{Refuses, WriterNo, laws as model_laws};
use patch_room::put;
use patch_store::Store;
use std::alloc::Global;

/// How room is won back for a put that finds no extent.
#[derive(Clone, Copy, Debug, PartialEq, Eq)]
pub enum Reclaims {
    /// By the reclaims that are asked for alone: the put is refused.
    ByHand,
    /// By the put itself, as [`put`](patch_room::put) of `patch_room` does.
    ByItself,
}

/// Makes the one call of a command.
fn call(store: &mut Store, writer: WriterNo, command: &Command) -> Reply
    ensures { (h : History) (contents : List (List ℕ)) → StandsOn store.old h contents
        → IsCalled h (writer, command_of command.now) (reply_told result) store.new contents }
{
    model_laws::steps_extend();
    model_laws::images_stay();
    model_laws::disks_stay();
    store.answer(writer, command)
}

/// Puts a value, and wins room back for it where that is needed.
fn put_in_room(store: &mut Store, writer: WriterNo, key: &[u8], value: &[u8]) -> Reply
    ensures { (h : History) (contents : List (List ℕ)) → StandsOn store.old h contents
        → IsCommanded ByItself h (writer, Put key.now value.now) (reply_told result) store.new contents }
{
    model_laws::steps_extend();
    model_laws::images_stay();
    model_laws::disks_stay();
    history_laws::histories_begin();
    match put(store, writer, key, value) {
        Ok(()) => Reply::Done,
        Err(refusal) => Reply::Refused(refusal.refusal()),
    }
}

/// Goes through one command.
fn reply_to(store: &mut Store, reclaims: Reclaims, writer: WriterNo, command: &Command) -> Reply
    ensures { (h : History) (contents : List (List ℕ)) → StandsOn store.old h contents
        → IsCommanded reclaims h (writer, command_of command.now) (reply_told result) store.new contents }
{
    match reclaims {
        Reclaims::ByHand => call(store, writer, command),
        Reclaims::ByItself => reply_in_room(store, writer, command),
    }
}

/// Goes through one command, of which a put wins room back where it has to.
fn reply_in_room(store: &mut Store, writer: WriterNo, command: &Command) -> Reply
    ensures { (h : History) (contents : List (List ℕ)) → StandsOn store.old h contents
        → IsCommanded ByItself h (writer, command_of command.now) (reply_told result) store.new contents }
{
    match command {
        Command::Put { key, value } => {
            put_in_room(store, writer, key.as_slice(), value.as_slice())
        }
        _ => call(store, writer, command),
    }
}

/// Goes through one command, and answers it by a line.
fn answer_command(
    alloc: Global,
    store: &mut Store,
    reclaims: Reclaims,
    writer: WriterNo,
    command: &Command,
) -> Result<String, Stop>
    ensures answered { (h : History) (contents : List (List ℕ)) → StandsOn store.old h contents
        → IfOk result (λ text. IsTold reclaims h (writer, command_of command.now) (string_bytes text) store.new contents) }
    ensures stops { IfErr result (λ why. why ≡ starved) }
{
    let reply = reply_to(store, reclaims, writer, command);
    Ok(reply_line(alloc, &reply)?)
}

/// Goes through the command of a sync, and brings all patches to the disk, those of its group among them. Where that is refused, as there
/// is no such group, nothing is done.
fn sync<D: Device>(
    alloc: Global,
    store: &mut Store,
    device: &mut D,
    reclaims: Reclaims,
    writer: WriterNo,
    command: &Command,
) -> Result<String, Stop>
    ensures device { IsSameDevice D.Device device.old device.new }
    ensures answered { D.is_honest device.old → (h : History) (asked : TheLine) → StandsOn store.old h (D.contents device.old)
        → is_sync asked ≡ true → call_of asked ≡ Some (writer, command_of command.now)
        → IfOk result (λ text. HasAnswered D.Device reclaims h asked (string_bytes text) store.new device.old device.new) }
    ensures lasts { D.is_honest device.old → OnOk result (StillLasts D.Device device.old device.new) }
    ensures safe { D.is_honest device.old → (h : History) → StandsOn store.old h (D.contents device.old)
        → EndsSafely D.Device h device.old device.new }
    ensures stops { D.is_honest device.old → (h : History) → StandsOn store.old h (D.contents device.old)
        → IfErr result (λ why. IsStop why (HasRisen (D.fault_count device.old) (D.fault_count device.new))) }
{
    cache_laws::crashes_join::<D>();
    let reply = reply_to(store, reclaims, writer, command);
    if let Reply::Refused(_) = reply {
        return Ok(reply_line(alloc, &reply)?);
    }
    save(store, device)?;
    Ok(synced_line(alloc)?)
}

/// Brings all patches to the disk.
fn sync_all<D: Device>(alloc: Global, store: &mut Store, device: &mut D) -> Result<String, Stop>
    ensures device { IsSameDevice D.Device device.old device.new }
    ensures answered { D.is_honest device.old → (r : TheReclaims) (h : History) (writer : ℕ) → StandsOn store.old h (D.contents device.old) → IfOk result (λ text.
        HasAnswered D.Device r h (Sync writer None) (string_bytes text) store.new device.old device.new) }
    ensures lasts { D.is_honest device.old → OnOk result (StillLasts D.Device device.old device.new) }
    ensures safe { D.is_honest device.old → (h : History) → StandsOn store.old h (D.contents device.old)
        → EndsSafely D.Device h device.old device.new }
    ensures stops { D.is_honest device.old → (h : History) → StandsOn store.old h (D.contents device.old)
        → IfErr result (λ why. IsStop why (HasRisen (D.fault_count device.old) (D.fault_count device.new))) }
{
    save(store, device)?;
    let told = synced_line(alloc)?;
    Ok(told)
}

/// Answers a line, by a line of text. A put's value is laid out only now: of a script's lines one value at a time stands in memory.
pub(crate) fn answer<D: Device>(
    alloc: Global,
    store: &mut Store,
    device: &mut D,
    reclaims: Reclaims,
    line: CommandLine,
) -> Result<String, Stop>
    ensures device { IsSameDevice D.Device device.old device.new }
    ensures answered { D.is_honest device.old → (h : History) → StandsOn store.old h (D.contents device.old) → IfOk result (λ text.
        HasAnswered D.Device reclaims h line (string_bytes text) store.new device.old device.new) }
    ensures lasts { D.is_honest device.old → OnOk result (StillLasts D.Device device.old device.new) }
    ensures safe { D.is_honest device.old → (h : History) → StandsOn store.old h (D.contents device.old)
        → EndsSafely D.Device h device.old device.new }
    ensures stops { D.is_honest device.old → (h : History) → StandsOn store.old h (D.contents device.old)
        → IfErr result (λ why. IsStop why (HasRisen (D.fault_count device.old) (D.fault_count device.new))) }
{
    let writer = line.writer();
    let saves = line.is_sync();
    let Some(command) = line.into_command(alloc)? else {
        return sync_all(alloc, store, device);
    };
    if saves {
        return sync(alloc, store, device, reclaims, writer, &command);
    }
    answer_command(alloc, store, reclaims, writer, &command)
}

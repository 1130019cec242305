//! Serves the writers of a script, each on a thread of its own.
ghost use Rattle.std.specs.Prelude.{◌≡◌, ◌<◌, ◌≤◌, ℕ, List, map, vec_len, IfOk, IfErr, IfSome, OnOk, MatchOption, Some};
ghost use Rattle.std.specs.Io.KnownBytes.{Appends};
ghost use Rattle.patch_device.specs.SameDevice.{IsSameDevice};
ghost use Rattle.patch_history.specs.Commands.{reply_told};
ghost use Rattle.patch_shared.specs.Books.{IsFresh, IsNew};
ghost use Rattle.patch_shared.specs.Conversations.{commands_in, replies_in};
ghost use Rattle.patch_commands.specs.Shared.{shared_commands};
ghost use Rattle.patch_commands.specs.declared.commands.CommandLine.{CommandLine as TheLine};
ghost use Rattle.patch_disks.specs.Going.{StillLasts};
ghost use Rattle.patch_disks.specs.Reading.{IsRunOf};
ghost use Rattle.patch_files.specs.Serving.{jobs_by, replies_text, all_text, HasServed, HasServedOnOne, HasServedScriptOnOne, ServesOn};
ghost use Rattle.patch_files.specs.Stopping.{stop_for, IsUnserved};
ghost use Rattle.patch_disks.specs.declared.endings.Status.TheVariants.{Done, Unreadable};
ghost use Rattle.patch_replay.specs.declared.endings.BadScript.{BadScript as TheBadScript};

use crate::jobs::jobs_of;
use patch_commands::{CommandLine, reply_line};
use patch_device::{Device, FileDevice};
use patch_disks::{
    Barriers, Status, Stop, Unread, conclude, finish_device, open_file_to_read, open_store,
    read_script, refuse,
};
use patch_history::{Command, Reply};
use patch_model::{RefusalKind, Refuses};
use patch_replay::{Output, Sink, Source};
use patch_shared::{Cause, Finished, OpenGate, ServeFault, serve};
use patch_store::Store;
use std::alloc::Global;
use std::fs::OpenFile;
use std::io::Read;
use std::os::unix::fs::FileExt;
use std::rt::Files;
use std::sync::Wait;
use std::thread::Threads;

/// How a script of several writers ended, and the device where it was not lost with the threads.
#[derive(Drop)]
pub struct Served<D: Device> {
    pub status: Status,
    pub device: Option<D>,
}

/// Why the writers are not served to the end, and the device where it is left.
#[derive(Drop)]
struct Unserved<D: Device> {
    why: Stop,
    device: Option<D>,
}

impl<D: Device> From<ServeFault<D>> for Unserved<D> {
    ghost from_gives = { λ fault unserved. (unserved.why ≡ stop_for fault.cause) × (unserved.device ≡ fault.device) };

    fn from(fault: ServeFault<D>) -> Unserved<D> {
        let ServeFault { cause, device } = fault;
        Unserved {
            why: stop_of(cause),
            device,
        }
    }
}

/// What the cause of a fault is told as. That the sync of a disk failed is a fault of the disk.
fn stop_of(cause: Cause) -> Stop
    ensures { result ≡ stop_for cause }
{
    match cause {
        Cause::SyncFailed => Stop::Refused(RefusalKind::Disk.bare()),
        _ => Stop::Refused(cause.refusal()),
    }
}

/// Writes a line for each of a writer's replies.
fn write_replies<W: Output>(
    alloc: Global,
    writer: &mut Sink<W>,
    replies: &[Reply],
) -> Result<(), Stop>
    ensures { OnOk result (Appends (W.contents writer.old.inner) (W.contents writer.new.inner) (replies_text (map reply_told replies.now))) }
{
    for reply in replies {
        let text = reply_line(alloc, reply)?;
        writer.write_all(text.as_bytes())?;
    }
    Ok(())
}

/// Writes all replies, one writer's behind another's.
fn write_all_replies<W: Output>(
    alloc: Global,
    writer: &mut Sink<W>,
    replies: &[Vec<Reply>],
) -> Result<(), Stop>
    ensures { OnOk result (Appends (W.contents writer.old.inner) (W.contents writer.new.inner) (all_text (replies_in replies.now))) }
{
    for list in replies {
        write_replies(alloc, writer, list.as_slice())?;
    }
    Ok(())
}

/// Lets the device finish, and then writes all replies.
fn last_and_tell<W: Output, D: Device>(
    alloc: Global,
    writer: &mut Sink<W>,
    device: &mut D,
    replies: &[Vec<Reply>],
) -> Result<(), Stop>
    ensures device { IsSameDevice D.Device device.old device.new }
    ensures same { D.is_honest device.old → D.contents device.new ≡ D.contents device.old }
    ensures lasts { D.is_honest device.old → StillLasts D.Device device.old device.new }
    ensures written { OnOk result (Appends (W.contents writer.old.inner) (W.contents writer.new.inner) (all_text (replies_in replies.now))) }
{
    finish_device(device)?;
    write_all_replies(alloc, writer, replies)
}

/// Goes on where all are served.
fn finish<W: Output, D: Device + Drop>(
    alloc: Global,
    writer: &mut Sink<W>,
    finished: Finished<D>,
) -> Result<D, Unserved<D>>
    ensures device { IfOk result (IsSameDevice D.Device finished.device) }
    ensures same { D.is_honest finished.device → IfOk result (λ now. D.contents now ≡ D.contents finished.device) }
    ensures lasts { D.is_honest finished.device → IfOk result (StillLasts D.Device finished.device) }
    ensures written { OnOk result
        (Appends (W.contents writer.old.inner) (W.contents writer.new.inner) (all_text (replies_in finished.replies.items))) }
    ensures back { IfErr result (λ unserved. MatchOption unserved.device ⊥ (IsSameDevice D.Device finished.device)) }
    ensures kept { D.is_honest finished.device → IfErr result (λ unserved.
        MatchOption unserved.device ⊥ (λ now. D.contents now ≡ D.contents finished.device)) }
{
    let (mut device, replies) = finished.let_go();
    match last_and_tell(alloc, writer, &mut device, replies.as_slice()) {
        Ok(()) => Ok(device),
        Err(why) => Err(Unserved {
            why,
            device: Some(device),
        }),
    }
}

/// Opens the device's store, and what each writer asks of it.
fn prepare<D: Device>(
    alloc: Global,
    device: &mut D,
    lines: Vec<CommandLine>,
    writers: u32,
) -> Result<(Store, Vec<Vec<Command>>), Stop>
    ensures device { IsSameDevice D.Device device.old device.new }
    ensures same { D.is_honest device.old → D.contents device.new ≡ D.contents device.old }
    ensures no_moment { D.moment device.new ≡ D.moment device.old }
    ensures new { IfOk result (λ ready. IsNew ready.0) }
    ensures opened { D.is_honest device.old → IfOk result (λ ready. IsFresh ready.0 (D.contents device.old)) }
    ensures jobs { IfOk result (λ ready. commands_in ready.1.items ≡ jobs_by writers lines.items) }
    ensures count { IfOk result (λ ready. vec_len ready.1 ≡ writers) }
{
    let jobs = jobs_of(alloc, lines, writers)?;
    let store = open_store(alloc, device)?;
    Ok((store, jobs))
}

/// Serves the writers of these jobs on a store and its device, and writes their replies.
fn serve_jobs<W: Output, D: Device + Drop + Send, T: Threads + Wait + Sync>(
    rt: &T,
    alloc: Global,
    writer: &mut Sink<W>,
    store: Store,
    device: D,
    jobs: Vec<Vec<Command>>,
) -> Result<D, Unserved<D>>
    requires new { IsNew store }
    requires jobs { (0 < vec_len jobs) × (vec_len jobs ≤ 8) }
    ensures device { IfOk result (IsSameDevice D.Device device) }
    ensures lasts { D.is_honest device → IfOk result (StillLasts D.Device device) }
    ensures served { D.is_honest device → (blocks : List (List ℕ)) → IsFresh store blocks → (writers : ℕ) (lines : List TheLine)
        → commands_in jobs.items ≡ jobs_by writers lines → IfOk result (λ now.
        HasServed writers lines (W.contents writer.old.inner) (W.contents writer.new.inner) blocks (D.contents now)) }
    ensures back { IfErr result (IsUnserved D.Device device) }
{
    let finished = serve(rt, alloc, store, device, jobs, &OpenGate)?;
    finish(alloc, writer, finished)
}

/// Opens the device's store, and serves the writers of the lines.
fn serve_lines<W: Output, D: Device + Drop + Send, T: Threads + Wait + Sync>(
    rt: &T,
    alloc: Global,
    writer: &mut Sink<W>,
    mut device: D,
    lines: Vec<CommandLine>,
    writers: u32,
) -> Result<D, Unserved<D>>
    requires { (0 < writers) × (writers ≤ 8) }
    ensures device { IfOk result (IsSameDevice D.Device device) }
    ensures lasts { D.is_honest device → IfOk result (StillLasts D.Device device) }
    ensures served { D.is_honest device → IfOk result (λ now.
        HasServed writers lines.items (W.contents writer.old.inner) (W.contents writer.new.inner) (D.contents device) (D.contents now)) }
    ensures back { IfErr result (IsUnserved D.Device device) }
{
    match prepare(alloc, &mut device, lines, writers) {
        Ok((store, jobs)) => serve_jobs(rt, alloc, writer, store, device, jobs),
        Err(why) => Err(Unserved {
            why,
            device: Some(device),
        }),
    }
}

/// Runs the script that the reader gives on the store of a device, the lines of each writer on a thread of its own, and writes an
/// answer for each line: those of the first writer, then those of the second, and so on.
///
/// All of the script is read and parsed before the store is opened: a line of another writer than these is unreadable, and so is a
/// sync. All blocks are on the device and last there when the first answer is written. Where the script stops before, no answer is
/// written, and the last line tells why: a device that refuses a sync is a fault of the disk.
///
/// It may wait: that it returns isn't promised.
pub fn serve_script<R: Read, W: Output, D: Device + Drop + Send, T: Threads + Wait + Sync>(
    rt: &T,
    alloc: Global,
    reader: &mut Source<R>,
    writer: &mut Sink<W>,
    device: D,
    writers: u32,
) -> Served<D>
    requires { (0 < writers) × (writers ≤ 8) }
    ensures run { IsRunOf (shared_commands writers) (R.remaining reader.old.inner)
        (W.contents writer.old.inner) (W.contents writer.new.inner) result.status }
    ensures left { (why : TheBadScript) → result.status ≡ Unreadable why → result.device ≡ Some device }
    ensures device { result.status ≡ Done → MatchOption result.device ⊥ (IsSameDevice D.Device device) }
    ensures back { IfSome result.device (IsSameDevice D.Device device) }
    ensures done { D.is_honest device → ServesOn D.Device result.status device result.device writers
        (R.remaining reader.old.inner) (W.contents writer.old.inner) (W.contents writer.new.inner) }
    ensures lasts { D.is_honest device → result.status ≡ Done → MatchOption result.device ⊥ (StillLasts D.Device device) }
{
    let lines = match read_script(alloc, reader, Some(writers)) {
        Ok(lines) => lines,
        Err(Unread::Script(why)) => {
            return Served {
                status: refuse(alloc, writer, why),
                device: Some(device),
            };
        }
        Err(Unread::Stopped(stop)) => {
            return Served {
                status: conclude(alloc, writer, Err(stop)),
                device: Some(device),
            };
        }
    };
    match serve_lines(rt, alloc, writer, device, lines, writers) {
        Ok(device) => Served {
            status: conclude(alloc, writer, Ok(())),
            device: Some(device),
        },
        Err(Unserved { why, device }) => Served {
            status: conclude(alloc, writer, Err(why)),
            device,
        },
    }
}

/// Opens a file's store, and serves the writers of the lines.
fn serve_lines_on_file<F, H, W>(
    rt: &H,
    alloc: Global,
    writer: &mut Sink<W>,
    path: &str,
    barriers: Barriers,
    lines: Vec<CommandLine>,
    writers: u32,
) -> Result<(), Stop>
where
    F: FileExt + OpenFile + Drop + Send,
    H: Files<File = F> + Threads + Wait + Sync,
    W: Output,
    requires { (0 < writers) × (writers ≤ 8) }
    ensures served { OnOk result (HasServedOnOne ⟦<FileDevice<F> as Device>⟧ writers lines.items
        (W.contents writer.old.inner) (W.contents writer.new.inner)) }
{
    let jobs = jobs_of(alloc, lines, writers)?;
    let (device, store) = open_file_to_read(rt, alloc, path, barriers)?;
    match serve_jobs(rt, alloc, writer, store, device, jobs) {
        Ok(device) => {
            drop(device);
            Ok(())
        }
        Err(unserved) => Err(unserved.why),
    }
}

/// Runs a script of several writers on the store of a file, as [`serve_script`] does on that of a device. The file is opened when
/// the script is read.
pub fn serve_file<F, H, R, W>(
    rt: &H,
    alloc: Global,
    reader: &mut Source<R>,
    writer: &mut Sink<W>,
    path: &str,
    barriers: Barriers,
    writers: u32,
) -> Status
where
    F: FileExt + OpenFile + Drop + Send,
    H: Files<File = F> + Threads + Wait + Sync,
    R: Read,
    W: Output,
    requires { (0 < writers) × (writers ≤ 8) }
    ensures run { IsRunOf (shared_commands writers) (R.remaining reader.old.inner)
        (W.contents writer.old.inner) (W.contents writer.new.inner) result }
    ensures done { result ≡ Done → HasServedScriptOnOne ⟦<FileDevice<F> as Device>⟧ writers (R.remaining reader.old.inner)
        (W.contents writer.old.inner) (W.contents writer.new.inner) }
{
    let lines = match read_script(alloc, reader, Some(writers)) {
        Ok(lines) => lines,
        Err(Unread::Script(why)) => return refuse(alloc, writer, why),
        Err(Unread::Stopped(stop)) => return conclude(alloc, writer, Err(stop)),
    };
    let served = serve_lines_on_file(rt, alloc, writer, path, barriers, lines, writers);
    conclude(alloc, writer, served)
}

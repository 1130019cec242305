//! Runs a script on a store.
ghost use Rattle.std.specs.Prelude.{◌≡◌, ◌⊎◌, false, OnOk};
ghost use Rattle.patch_device.specs.SameDevice.{IsSameDevice, IsLasting};
ghost use Rattle.patch_commands.specs.Command.{commands_of};
ghost use Rattle.patch_disks.specs.Going.{EndsSafely, EndsOpened, WentSafely, StillLasts};
ghost use Rattle.patch_disks.specs.Reading.{IsRunOf};
ghost use Rattle.patch_disks.specs.Running.{OfEachPast, OnceOpened, ComesOn, RunsOpened, HasRun, HasRunScript, HasRunOnOne, HasRunScriptOnOne};
ghost use Rattle.patch_disks.specs.Stopping.{IsBroken, IfFailed, HasComeSome, HasWrittenSome, RunsSomeWay, TellsWhyItStops, TellsWhatItAnswered};
ghost use Rattle.patch_disks.specs.declared.answering.Reclaims.TheVariants.{ByHand, ByItself};
ghost use Rattle.patch_disks.specs.declared.endings.Status.TheVariants.{Done, Unreadable};
ghost use Rattle.patch_replay.specs.Streams.{IsGivenUp};
ghost use Rattle.patch_replay.specs.declared.endings.BadScript.{BadScript as TheBadScript};

use crate::answering::{Reclaims, answer};
use crate::endings::{Status, Stop, Unread, conclude, refuse};
use crate::opening::{Barriers, open_file, open_store, save};
use crate::progress::Progress;
use crate::reading::read_script;
use patch_cache::laws as cache_laws;
use patch_commands::CommandLine;
use patch_device::{Device, FileDevice};
use patch_model::laws as model_laws;
use patch_replay::{Output, Sink, Source};
use patch_store::Store;
use std::alloc::Global;
use std::fs::OpenFile;
use std::io::Read;
use std::os::unix::fs::FileExt;
use std::rt::Files;

/// Answers the lines in order, each by a line of text.
fn answer_lines<W: Output, D: Device, P: Progress>(
    alloc: Global,
    writer: &mut Sink<W>,
    store: &mut Store,
    device: &mut D,
    reclaims: Reclaims,
    lines: Vec<CommandLine>,
    progress: &mut P,
) -> Result<(), Stop>
    ensures device { IsSameDevice D.Device device.old device.new }
    ensures come { D.is_honest device.old → ComesOn D.Device reclaims result store.old store.new device.old device.new
        lines.items (W.contents writer.old.inner) (W.contents writer.new.inner) }
    ensures lasts { D.is_honest device.old → OnOk result (StillLasts D.Device device.old device.new) }
    ensures safe { D.is_honest device.old
        → OfEachPast store.old (D.contents device.old) (λ past. EndsSafely D.Device past device.old device.new) }
    ensures some { D.is_honest device.old → OfEachPast store.old (D.contents device.old) (λ past. writer.new.failed ≡ false
        → HasComeSome reclaims past lines.items (W.contents writer.old.inner) (W.contents writer.new.inner)) }
    ensures stops { D.is_honest device.old → OfEachPast store.old (D.contents device.old) (λ _.
        TellsWhyItStops result writer.new.failed (D.fault_count device.old) (D.fault_count device.new) (D.contents device.old)) }
{
    cache_laws::crashes_join::<D>();
    let all = lines.len();
    let mut answered = 0usize;
    for line in lines {
        let text = answer(alloc, store, device, reclaims, line)?;
        writer.write_all(text.as_bytes())?;
        answered = answered.saturating_add(1);
        progress.answered(answered, all);
    }
    Ok(())
}

/// Answers the lines, and brings all that they changed to the device.
fn answer_and_save<W: Output, D: Device, P: Progress>(
    alloc: Global,
    writer: &mut Sink<W>,
    store: &mut Store,
    device: &mut D,
    reclaims: Reclaims,
    lines: Vec<CommandLine>,
    progress: &mut P,
) -> Result<(), Stop>
    ensures run { D.is_honest device.old → RunsOpened D.Device reclaims result store.old
        lines.items (W.contents writer.old.inner) (W.contents writer.new.inner) device.old device.new }
    ensures safe { D.is_honest device.old → EndsOpened D.Device store.old (D.contents device.old) device.old device.new }
    ensures some { D.is_honest device.old → RunsSomeWay reclaims store.old (D.contents device.old) writer.new.failed
        lines.items (W.contents writer.old.inner) (W.contents writer.new.inner) }
    ensures stops { D.is_honest device.old → OnceOpened store.old (D.contents device.old)
        (TellsWhyItStops result writer.new.failed (D.fault_count device.old) (D.fault_count device.new)) }
{
    cache_laws::crashes_join::<D>();
    answer_lines(alloc, writer, store, device, reclaims, lines, progress)?;
    save(store, device)
}

/// Opens the device's store, answers the lines, and brings all that they changed to the device.
fn run_lines<W: Output, D: Device, P: Progress>(
    alloc: Global,
    writer: &mut Sink<W>,
    device: &mut D,
    reclaims: Reclaims,
    lines: Vec<CommandLine>,
    progress: &mut P,
) -> Result<(), Stop>
    ensures run { D.is_honest device.old → OnOk result (HasRun D.Device reclaims lines.items
        (W.contents writer.old.inner) (W.contents writer.new.inner) (D.contents device.old) device.old device.new) }
    ensures crash { D.is_honest device.old → IsLasting D.Device device.old
        → WentSafely D.Device (D.contents device.old) device.old device.new }
    ensures some { D.is_honest device.old → writer.new.failed ≡ false
        → HasWrittenSome reclaims lines.items (W.contents writer.old.inner) (W.contents writer.new.inner) (D.contents device.old) }
    ensures stops { D.is_honest device.old
        → TellsWhyItStops result writer.new.failed (D.fault_count device.old) (D.fault_count device.new) (D.contents device.old) }
{
    cache_laws::crashes_join::<D>();
    model_laws::first_bytes_are_left();
    let mut store = open_store(alloc, device)?;
    let ran = answer_and_save(alloc, writer, &mut store, device, reclaims, lines, progress);
    drop(store);
    ran
}

/// Runs a script on the store of a device.
fn run<R: Read, W: Output, D: Device, P: Progress>(
    alloc: Global,
    reader: &mut Source<R>,
    writer: &mut Sink<W>,
    device: &mut D,
    reclaims: Reclaims,
    progress: &mut P,
) -> Status
    ensures run { IsRunOf commands_of (R.remaining reader.old.inner) (W.contents writer.old.inner) (W.contents writer.new.inner) result }
    ensures left { (why : TheBadScript) → result ≡ Unreadable why → device.new ≡ device.old }
    ensures done { D.is_honest device.old → result ≡ Done → HasRunScript D.Device reclaims (R.remaining reader.old.inner)
        (W.contents writer.old.inner) (W.contents writer.new.inner) (D.contents device.old) device.old device.new }
    ensures lasts { D.is_honest device.old → result ≡ Done → StillLasts D.Device device.old device.new }
    ensures crash { D.is_honest device.old → IsLasting D.Device device.old
        → WentSafely D.Device (D.contents device.old) device.old device.new }
    ensures failed { D.is_honest device.old → IfFailed result (IsGivenUp reader.new
        ⊎ IsBroken writer.new.failed (D.fault_count device.old) (D.fault_count device.new) (D.contents device.old)) }
    ensures stopped { D.is_honest device.old → writer.new.failed ≡ false → TellsWhatItAnswered reclaims (R.remaining reader.old.inner)
        (W.contents writer.old.inner) (W.contents writer.new.inner) (D.contents device.old) result }
{
    model_laws::first_bytes_are_left();
    let lines = match read_script(alloc, reader, None) {
        Ok(lines) => lines,
        Err(Unread::Script(why)) => return refuse(alloc, writer, why),
        Err(Unread::Stopped(stop)) => return conclude(alloc, writer, Err(stop)),
    };
    let ran = run_lines(alloc, writer, device, reclaims, lines, progress);
    progress.end(ran.is_ok());
    conclude(alloc, writer, ran)
}

/// Runs the script that the reader gives on the store of a device, and writes an answer for each of its lines.
///
/// All of the script is read and parsed before the store is opened. Blocks go to the device where a line asks for it, and at the end,
/// and each wave of them is synced before the next. A fault is told by a last line, behind the answers of the lines before it; after a
/// fault of the writer nothing more is written. A device that refuses a sync is a fault of the disk, and the run ends there.
pub fn run_script<R: Read, W: Output, D: Device, P: Progress>(
    alloc: Global,
    reader: &mut Source<R>,
    writer: &mut Sink<W>,
    device: &mut D,
    progress: &mut P,
) -> Status
    ensures run { IsRunOf commands_of (R.remaining reader.old.inner) (W.contents writer.old.inner) (W.contents writer.new.inner) result }
    ensures left { (why : TheBadScript) → result ≡ Unreadable why → device.new ≡ device.old }
    ensures done { D.is_honest device.old → result ≡ Done → HasRunScript D.Device ByHand (R.remaining reader.old.inner)
        (W.contents writer.old.inner) (W.contents writer.new.inner) (D.contents device.old) device.old device.new }
    ensures lasts { D.is_honest device.old → result ≡ Done → StillLasts D.Device device.old device.new }
    ensures crash { D.is_honest device.old → IsLasting D.Device device.old
        → WentSafely D.Device (D.contents device.old) device.old device.new }
    ensures failed { D.is_honest device.old → IfFailed result (IsGivenUp reader.new
        ⊎ IsBroken writer.new.failed (D.fault_count device.old) (D.fault_count device.new) (D.contents device.old)) }
    ensures stopped { D.is_honest device.old → writer.new.failed ≡ false → TellsWhatItAnswered ByHand (R.remaining reader.old.inner)
        (W.contents writer.old.inner) (W.contents writer.new.inner) (D.contents device.old) result }
{
    run(alloc, reader, writer, device, Reclaims::ByHand, progress)
}

/// Runs a script as [`run_script`] does, but that its puts win room back by themselves: where no extent has room for the value.
pub fn run_script_in_room<R: Read, W: Output, D: Device, P: Progress>(
    alloc: Global,
    reader: &mut Source<R>,
    writer: &mut Sink<W>,
    device: &mut D,
    progress: &mut P,
) -> Status
    ensures run { IsRunOf commands_of (R.remaining reader.old.inner) (W.contents writer.old.inner) (W.contents writer.new.inner) result }
    ensures left { (why : TheBadScript) → result ≡ Unreadable why → device.new ≡ device.old }
    ensures done { D.is_honest device.old → result ≡ Done → HasRunScript D.Device ByItself (R.remaining reader.old.inner)
        (W.contents writer.old.inner) (W.contents writer.new.inner) (D.contents device.old) device.old device.new }
    ensures lasts { D.is_honest device.old → result ≡ Done → StillLasts D.Device device.old device.new }
    ensures crash { D.is_honest device.old → IsLasting D.Device device.old
        → WentSafely D.Device (D.contents device.old) device.old device.new }
    ensures failed { D.is_honest device.old → IfFailed result (IsGivenUp reader.new
        ⊎ IsBroken writer.new.failed (D.fault_count device.old) (D.fault_count device.new) (D.contents device.old)) }
    ensures stopped { D.is_honest device.old → writer.new.failed ≡ false → TellsWhatItAnswered ByItself (R.remaining reader.old.inner)
        (W.contents writer.old.inner) (W.contents writer.new.inner) (D.contents device.old) result }
{
    run(alloc, reader, writer, device, Reclaims::ByItself, progress)
}

/// Opens a file's store, and goes on as with that of a device.
fn run_lines_on_file<F, H, W, P>(
    rt: &H,
    alloc: Global,
    writer: &mut Sink<W>,
    path: &str,
    barriers: Barriers,
    reclaims: Reclaims,
    lines: Vec<CommandLine>,
    progress: &mut P,
) -> Result<(), Stop>
where
    F: FileExt + OpenFile + Drop,
    H: Files<File = F>,
    W: Output,
    P: Progress,
    ensures run { OnOk result (HasRunOnOne ⟦<FileDevice<F> as Device>⟧ reclaims lines.items (W.contents writer.old.inner) (W.contents writer.new.inner)) }
{
    let (mut device, mut store) = open_file(rt, alloc, path, barriers)?;
    let ran = answer_and_save(
        alloc,
        writer,
        &mut store,
        &mut device,
        reclaims,
        lines,
        progress,
    );
    drop(store);
    ran
}

/// Runs a script on the store of a file, as [`run_script`] or [`run_script_in_room`] does on that of a device. The file is opened when the
/// script is read.
pub fn run_file<F, H, R, W, P>(
    rt: &H,
    alloc: Global,
    reader: &mut Source<R>,
    writer: &mut Sink<W>,
    path: &str,
    barriers: Barriers,
    reclaims: Reclaims,
    progress: &mut P,
) -> Status
where
    F: FileExt + OpenFile + Drop,
    H: Files<File = F>,
    R: Read,
    W: Output,
    P: Progress,
    ensures run { IsRunOf commands_of (R.remaining reader.old.inner) (W.contents writer.old.inner) (W.contents writer.new.inner) result }
    ensures done { result ≡ Done → HasRunScriptOnOne ⟦<FileDevice<F> as Device>⟧ reclaims (R.remaining reader.old.inner)
        (W.contents writer.old.inner) (W.contents writer.new.inner) }
{
    let lines = match read_script(alloc, reader, None) {
        Ok(lines) => lines,
        Err(Unread::Script(why)) => return refuse(alloc, writer, why),
        Err(Unread::Stopped(stop)) => return conclude(alloc, writer, Err(stop)),
    };
    let ran = run_lines_on_file(rt, alloc, writer, path, barriers, reclaims, lines, progress);
    progress.end(ran.is_ok());
    conclude(alloc, writer, ran)
}

//! Runs a script of one writer or of several.
ghost use Rattle.std.specs.Prelude.{◌≡◌, ◌⊎◌, ◌<◌, ◌≤◌, IfSome, IsNone, MatchOption, None, Some, false};
ghost use Rattle.patch_device.specs.SameDevice.{IsLasting};
ghost use Rattle.patch_disks.specs.Going.{StillLasts, WentSafely};
ghost use Rattle.patch_disks.specs.Reading.{IsRunOf};
ghost use Rattle.patch_disks.specs.Stopping.{IfFailed, TellsWhatItAnswered};
ghost use Rattle.patch_disks.specs.declared.answering.Reclaims.TheVariants.{ByHand};
ghost use Rattle.patch_disks.specs.declared.endings.Status.TheVariants.{Done, Unreadable};
ghost use Rattle.patch_files.specs.Running.{IsBrokenOn, commands_for, RunsOn};
ghost use Rattle.patch_replay.specs.Streams.{IsGivenUp};
ghost use Rattle.patch_replay.specs.declared.endings.BadScript.{BadScript as TheBadScript};

use crate::serving::{Served, serve_script};
use patch_device::Device;
use patch_disks::{Progress, run_script};
use patch_replay::{Output, Sink, Source};
use std::alloc::Global;
use std::io::Read;
use std::sync::Wait;
use std::thread::Threads;

/// Runs the script that the reader gives on the store of a device: as [`run_script`] does, if no number of writers is given, and
/// else the lines of each writer on a thread of its own, as [`serve_script`] does. Of one thread the device always comes back.
///
/// With several writers it may wait: that it returns isn't promised. No progress is told then.
pub fn run_or_serve<R, W, D, P, T>(
    rt: &T,
    alloc: Global,
    reader: &mut Source<R>,
    writer: &mut Sink<W>,
    device: D,
    writers: Option<u32>,
    progress: &mut P,
) -> Served<D>
where
    R: Read,
    W: Output,
    D: Device + Drop + Send,
    P: Progress,
    T: Threads + Wait + Sync,
    requires { IfSome writers (λ count. (0 < count) × (count ≤ 8)) }
    ensures run { IsRunOf (commands_for writers) (R.remaining reader.old.inner)
        (W.contents writer.old.inner) (W.contents writer.new.inner) result.status }
    ensures left { (why : TheBadScript) → result.status ≡ Unreadable why → result.device ≡ Some device }
    ensures done { D.is_honest device → RunsOn D.Device result.status device result.device writers
        (R.remaining reader.old.inner) (W.contents writer.old.inner) (W.contents writer.new.inner) }
    ensures lasts { D.is_honest device → result.status ≡ Done → MatchOption result.device ⊥ (StillLasts D.Device device) }
    ensures crash { IsNone writers → D.is_honest device → IsLasting D.Device device
        → MatchOption result.device ⊥ (WentSafely D.Device (D.contents device) device) }
    ensures failed { IsNone writers → D.is_honest device → IfFailed result.status (IsGivenUp reader.new
        ⊎ IsBrokenOn D.fault_count writer.new.failed device result.device (D.contents device)) }
    ensures stopped { IsNone writers → D.is_honest device → writer.new.failed ≡ false → TellsWhatItAnswered ByHand
        (R.remaining reader.old.inner) (W.contents writer.old.inner) (W.contents writer.new.inner) (D.contents device) result.status }
{
    match writers {
        Some(count) => serve_script(rt, alloc, reader, writer, device, count),
        None => run_alone(alloc, reader, writer, device, progress),
    }
}

/// Runs a script on a device that is handed in, on this thread.
fn run_alone<R: Read, W: Output, D: Device + Drop, P: Progress>(
    alloc: Global,
    reader: &mut Source<R>,
    writer: &mut Sink<W>,
    device: D,
    progress: &mut P,
) -> Served<D>
    ensures run { IsRunOf (commands_for None) (R.remaining reader.old.inner)
        (W.contents writer.old.inner) (W.contents writer.new.inner) result.status }
    ensures left { (why : TheBadScript) → result.status ≡ Unreadable why → result.device ≡ Some device }
    ensures done { D.is_honest device → RunsOn D.Device result.status device result.device None
        (R.remaining reader.old.inner) (W.contents writer.old.inner) (W.contents writer.new.inner) }
    ensures lasts { D.is_honest device → result.status ≡ Done → MatchOption result.device ⊥ (StillLasts D.Device device) }
    ensures crash { D.is_honest device → IsLasting D.Device device
        → MatchOption result.device ⊥ (WentSafely D.Device (D.contents device) device) }
    ensures failed { D.is_honest device → IfFailed result.status (IsGivenUp reader.new
        ⊎ IsBrokenOn D.fault_count writer.new.failed device result.device (D.contents device)) }
    ensures stopped { D.is_honest device → writer.new.failed ≡ false → TellsWhatItAnswered ByHand
        (R.remaining reader.old.inner) (W.contents writer.old.inner) (W.contents writer.new.inner) (D.contents device) result.status }
{
    let mut device = device;
    let status = run_script(alloc, reader, writer, &mut device, progress);
    Served {
        status,
        device: Some(device),
    }
}

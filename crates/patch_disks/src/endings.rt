//! How a command ends, and why it stops.
ghost use Rattle.std.specs.Prelude.{◌≡◌, ◌≢◌, ◌++◌, IfOk, OnOk, string_bytes};
ghost use Rattle.patch_disks.specs.Ending.{exit_of, status_for, status_of, last_line as the_last_line, script_text, fault_words, fault_text};
ghost use Rattle.patch_disks.specs.Ending.{IsRead, IsTold, IsToldOrStarved, IsConcluded, IsDoneBehind};
ghost use Rattle.patch_disks.specs.declared.endings.Status.TheVariants.{Done, Unreadable};

use patch_cache::FlushRefusal;
use patch_model::{OutOfMemory, Refusal, RefusalKind, Refuses};
use patch_replay::{BadScript, Fault, Output, Sink};
use std::alloc::{AllocError, AllocFailed, Global};

/// How a command ended.
#[derive(Clone, Copy, Debug, PartialEq, Eq)]
pub enum Status {
    Done,
    /// No disk is divided as it was asked for.
    Misused,
    /// No line of the script was answered.
    Unreadable(BadScript),
    /// The disk, the reader or the writer failed, or the disk holds no store.
    Failed,
    /// There was no memory, or a thread couldn't be started.
    OutOfMemory,
}

impl Status {
    /// The exit status of the program.
    pub fn code(self) -> u8
        ensures { result ≡ exit_of self }
    {
        match self {
            Status::Done => 0,
            Status::Misused => 2,
            Status::Unreadable(_) => 3,
            Status::Failed => 4,
            Status::OutOfMemory => 5,
        }
    }
}

/// Why a command stops.
#[derive(Clone, Copy, Debug, PartialEq, Eq)]
pub enum Stop {
    Read,
    Write,
    /// What disk, store or memory refused.
    Refused(Refusal),
}

/// Why there are no lines of a script to be answered.
#[derive(Clone, Copy, Debug, PartialEq, Eq)]
pub enum Unread {
    /// It is too long, or a line of it unreadable.
    Script(BadScript),
    Stopped(Stop),
}

impl Stop {
    /// How the command ends.
    fn status(self) -> Status
        ensures value { result ≡ status_of self }
        ensures read { IsRead result }
        ensures stops { result ≢ Done }
    {
        match self {
            Stop::Read | Stop::Write => Status::Failed,
            Stop::Refused(refusal) => status_after(refusal.kind),
        }
    }

    /// Its last line.
    fn line(self, alloc: Global) -> Result<String, AllocError>
        ensures { IfOk result (λ text. string_bytes text ≡ the_last_line self) }
    {
        match self {
            Stop::Read => String::from_str(alloc, "fault Read\n"),
            Stop::Write => Ok(String::new(alloc)),
            Stop::Refused(refusal) => fault_line(alloc, refusal),
        }
    }
}

/// How a command ends that is stopped by such a refusal.
fn status_after(kind: RefusalKind) -> Status
    ensures value { result ≡ status_for kind }
    ensures read { IsRead result }
    ensures stops { result ≢ Done }
{
    match kind {
        RefusalKind::Geometry => Status::Misused,
        RefusalKind::OutOfMemory | RefusalKind::NoThread => Status::OutOfMemory,
        _ => Status::Failed,
    }
}

/// The one line of a command whose script isn't run.
fn script_line(alloc: Global, why: BadScript) -> Result<String, AllocError>
    ensures { IfOk result (λ text. string_bytes text ≡ script_text why) }
{
    match why {
        BadScript::TooLong => String::from_str(alloc, "fault ScriptTooLong\n"),
        BadScript::BadLine { line, .. } => format!(in alloc; "bad line {line}\n"),
    }
}

fn push_fault(out: &mut String, refusal: Refusal) -> Result<(), AllocError>
    ensures { OnOk result (string_bytes out.new ≡ string_bytes out.old ++ fault_words refusal) }
{
    let name = refusal.kind.name();
    match refusal.number {
        Some(number) => write!(out, "fault {name} {number}"),
        None => write!(out, "fault {name}"),
    }
}

fn fault_line(alloc: Global, refusal: Refusal) -> Result<String, AllocError>
    ensures { IfOk result (λ text. string_bytes text ≡ fault_text refusal) }
{
    let mut line = String::new(alloc);
    push_fault(&mut line, refusal)?;
    line.push_str("\n")?;
    Ok(line)
}

impl From<Refusal> for Stop {
    ghost use Rattle.patch_disks.specs.declared.endings.Stop.TheVariants.{Refused};

    ghost from_gives = { λ r e. e ≡ Refused r };

    fn from(refusal: Refusal) -> Stop {
        Stop::Refused(refusal)
    }
}

impl From<OutOfMemory> for Stop {
    ghost use Rattle.patch_disks.specs.Stopping.{starved};

    ghost from_gives = { λ _ e. e ≡ starved };

    fn from(refusal: OutOfMemory) -> Stop {
        Stop::Refused(refusal.refusal())
    }
}

impl From<AllocError> for Stop {
    ghost use Rattle.patch_disks.specs.Stopping.{starved};

    ghost from_gives = { λ _ e. e ≡ starved };

    fn from(_: AllocError) -> Stop {
        Stop::from(OutOfMemory)
    }
}

impl<T: Drop> From<AllocFailed<T>> for Stop {
    ghost use Rattle.patch_disks.specs.Stopping.{starved};

    ghost from_gives = { λ _ e. e ≡ starved };

    fn from(_: AllocFailed<T>) -> Stop {
        Stop::from(OutOfMemory)
    }
}

impl From<FlushRefusal> for Stop {
    ghost use Rattle.patch_disks.specs.Stopping.{flush_stop};

    ghost from_gives = { λ r e. e ≡ flush_stop r };

    // That the sync of a disk failed is told as any other fault of the disk is.
    fn from(refusal: FlushRefusal) -> Stop {
        match refusal {
            FlushRefusal::DeviceGaveUp(_) | FlushRefusal::OutOfMemory => {
                Stop::Refused(refusal.refusal())
            }
            FlushRefusal::SyncFailed => Stop::Refused(RefusalKind::Disk.bare()),
        }
    }
}

impl From<Fault> for Stop {
    ghost use Rattle.patch_disks.specs.Stopping.{stop_of};

    ghost from_gives = { λ r e. e ≡ stop_of r };

    fn from(fault: Fault) -> Stop {
        match fault {
            Fault::Read => Stop::Read,
            Fault::Write => Stop::Write,
            Fault::OutOfMemory => Stop::from(OutOfMemory),
        }
    }
}

/// Writes what is still kept back, behind a last line where the command stopped.
pub fn conclude<W: Output>(alloc: Global, writer: &mut Sink<W>, ended: Result<(), Stop>) -> Status
    ensures concluded { IsConcluded W.contents W.KeepsNothing writer.old writer.new ended result }
    ensures read { IsRead result }
    ensures done { result ≡ Done → IsDoneBehind ended (W.contents writer.old.inner) (W.contents writer.new.inner) }
{
    match ended {
        Ok(()) => tell(writer, b"", Status::Done),
        Err(Stop::Write) => Status::Failed,
        Err(stop) => match stop.line(alloc) {
            Ok(line) => tell(writer, line.as_bytes(), stop.status()),
            Err(AllocError) => tell(writer, b"fault OutOfMemory\n", Status::OutOfMemory),
        },
    }
}

/// Writes why no line of a script is answered.
pub fn refuse<W: Output>(alloc: Global, writer: &mut Sink<W>, why: BadScript) -> Status
    ensures told { IsToldOrStarved W.contents W.KeepsNothing writer.old writer.new (script_text why) (Unreadable why) result }
    ensures stops { result ≢ Done }
{
    match script_line(alloc, why) {
        Ok(line) => tell(writer, line.as_bytes(), Status::Unreadable(why)),
        Err(AllocError) => tell(writer, b"fault OutOfMemory\n", Status::OutOfMemory),
    }
}

/// Writes the end of the text.
fn tell<W: Output>(writer: &mut Sink<W>, text: &[u8], status: Status) -> Status
    ensures told { IsTold W.contents W.KeepsNothing writer.old writer.new text.now status result }
    ensures read { IsRead status → IsRead result }
    ensures done { result ≡ Done → status ≡ Done }
{
    if writer.write_all(text).is_err() || writer.flush().is_err() {
        return Status::Failed;
    }
    status
}

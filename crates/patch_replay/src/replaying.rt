//! Replays a script: all is read, then its limits are tested, then it is parsed, and then it is answered.
ghost use Rattle.std.specs.Prelude.{ℕ, true, false, ◌≡◌, ◌≢◌, ◌⊎◌, ◌+◌, ◌<◌, ◌≤◌, ◌++◌, ◌∷◌, [], List, length, nat_lt, if◌then◌else◌, IfOk, IfErr, OnOk, IfSome, Some, None, codes, decimal, string_bytes};
ghost use Rattle.std.specs.Io.KnownBytes.{Appends};
ghost use Rattle.patch_replay.specs.World.{World, start};
ghost use Rattle.patch_replay.specs.Replay.{IsLineTold, HasWrittenAll, HasAnswered, Stopped, HasStopped, HasStarved, bad_line, IsInput, IsEnd, Replayed, HasReplayed, too_long_text, unread_text};
ghost use Rattle.patch_replay.specs.Streams.{IsGivenUp, NoneFailed, ReadingIsNoted, WritingIsNoted, RunningIsNoted, IsToldLast, IsFlushed};
ghost use Rattle.patch_replay.specs.declared.endings.BadScript.TheVariants.{TooLong};
ghost use Rattle.patch_replay.specs.declared.endings.Status.TheVariants.{Unreadable, Failed, OutOfMemory as NoMemory};
ghost use Rattle.patch_replay.specs.declared.endings.Fault.TheVariants.{Write as WriteFault};

use crate::cached_disk::CachedDisk;
use crate::cores::Core;
use crate::endings::{BadScript, Fault, Status};
use crate::streams::{MAX_READS, Output, Sink, Source};
use patch_model::{MAX_BLOCKS, OutOfMemory};
use patch_script::{Line, MAX_BYTES, ScriptError, answer_line, passes_limit, read_script};
use std::alloc::{AllocError, Global};
use std::io::Read;

// How many bytes are asked for at a time.
const CHUNK: usize = 65_536;

/// All that the reader has, or `None` where it is more than a script may have.
pub fn read_input<R: Read>(alloc: Global, reader: &mut Source<R>) -> Result<Option<Vec<u8>>, Fault>
    ensures found { IfOk result (λ found. IfSome (R.remaining reader.old.inner) (IsInput found)) }
    ensures noted { ReadingIsNoted reader.old reader.new result }
    ensures reads { reader.new.reads ≤ reader.old.reads + MAX_READS }
{
    let mut chunk = new_chunk(alloc)?;
    let mut script = Vec::new(alloc);
    let mut over = false;
    'reads: for _ in 0..MAX_READS {
        match reader.read(chunk.as_mut_slice()) {
            Ok(Some(0)) => return Ok(if over { None } else { Some(script) }),
            Ok(Some(count)) => {
                if over || count > MAX_BYTES - script.len() {
                    over = true;
                } else {
                    append(&mut script, &chunk[..count])?;
                }
            }
            Ok(None) => {}
            Err(fault) => return Err(fault),
        }
    }
    Err(Fault::Read)
}

fn new_chunk(alloc: Global) -> Result<Vec<u8>, OutOfMemory>
    ensures { IfOk result (λ chunk. length chunk.items ≡ CHUNK) }
{
    Ok(vec![in alloc; 0u8; CHUNK]?)
}

fn append(script: &mut Vec<u8>, bytes: &[u8]) -> Result<(), OutOfMemory>
    ensures { OnOk result (script.new.items ≡ script.old.items ++ bytes.now) }
{
    script.extend_from_slice(bytes)?;
    Ok(())
}

/// Answers a line, as text.
fn answered<C: Core>(alloc: Global, core: &mut C, line: Line) -> Result<String, OutOfMemory>
    ensures { (w : World) → C.IsAt core.old w → IfOk result (λ text. IsLineTold w line (string_bytes text) (C.IsAt core.new)) }
{
    let answer = core.answer(alloc, line)?;
    Ok(answer_line(alloc, &answer)?)
}

/// Answers the lines in order, each by a line of text.
fn write_answers<W: Output, C: Core>(
    alloc: Global,
    writer: &mut Sink<W>,
    core: &mut C,
    lines: Vec<Line>,
) -> Result<(), Fault>
    ensures done { (w : World) → C.IsAt core.old w → OnOk result
        (HasWrittenAll w lines.items (W.contents writer.old.inner) (W.contents writer.new.inner)) }
    ensures stopped { (w : World) → C.IsAt core.old w → IfErr result (λ fault.
        HasAnswered fault w lines.items (W.contents writer.old.inner) (W.contents writer.new.inner)) }
    ensures noted { WritingIsNoted writer.old writer.new result }
{
    for line in lines {
        let text = answered(alloc, core, line)?;
        writer.write_all(text.as_bytes())?;
    }
    Ok(())
}

/// What was read is refused, or parsed and answered.
#[tactic(auto, unfolding(crate::specs::Replay::IsReplayText, crate::specs::Replay::IsReplayStatus))]
fn run<W: Output, C: Core>(
    alloc: Global,
    writer: &mut Sink<W>,
    core: &mut C,
    input: Option<Vec<u8>>,
) -> Result<Status, Fault>
    ensures done { (w : World) → C.IsAt core.old w → (text : List ℕ) → IsInput input text → IfOk result (λ status.
        Replayed w text status (W.contents writer.old.inner) (W.contents writer.new.inner)) }
    ensures ended { IfOk result IsEnd }
    ensures stopped { (w : World) → C.IsAt core.old w → (text : List ℕ) → IsInput input text → IfErr result (λ fault.
        Stopped fault w text (W.contents writer.old.inner) (W.contents writer.new.inner)) }
    ensures noted { WritingIsNoted writer.old writer.new result }
{
    let script = match input {
        Some(script) => script,
        None => return too_long(writer),
    };
    if passes_limit(script.as_slice()) {
        return too_long(writer);
    }
    match read_script(alloc, script.as_slice()) {
        Ok(lines) => {
            write_answers(alloc, writer, core, lines)?;
            Ok(Status::Done)
        }
        Err(ScriptError::BadLine { line, defect }) => {
            write_bad_line(alloc, writer, line)?;
            Ok(Status::Unreadable(BadScript::BadLine { line, defect }))
        }
        Err(ScriptError::OutOfMemory) => Err(Fault::OutOfMemory),
    }
}

fn too_long<W: Output>(writer: &mut Sink<W>) -> Result<Status, Fault>
    ensures done { IfOk result (λ status. (status ≡ Unreadable TooLong)
        × Appends (W.contents writer.old.inner) (W.contents writer.new.inner) too_long_text) }
    ensures noted { WritingIsNoted writer.old writer.new result }
    ensures failed { IfErr result (λ fault. fault ≡ WriteFault) }
{
    writer.write_all(b"fault ScriptTooLong\n")?;
    Ok(Status::Unreadable(BadScript::TooLong))
}

fn write_bad_line<W: Output>(
    alloc: Global,
    writer: &mut Sink<W>,
    number: usize,
) -> Result<(), Fault>
    ensures done { OnOk result (Appends (W.contents writer.old.inner) (W.contents writer.new.inner) (bad_line number)) }
    ensures stopped { (w : World) → IfErr result (λ fault. HasAnswered fault w [] (W.contents writer.old.inner) (W.contents writer.new.inner)) }
    ensures noted { WritingIsNoted writer.old writer.new result }
{
    match format!(in alloc; "bad line {number}\n") {
        Ok(text) => writer.write_all(text.as_bytes()),
        Err(AllocError) => Err(Fault::OutOfMemory),
    }
}

/// Replays the script that the reader gives on so many blocks of zeros, 1 to 4,096, and writes the answers.
///
/// All of the script is read and parsed before anything is done. A fault of the reader or of memory is told by a last
/// line, behind the answers of the lines before it; after a fault of the writer nothing more is written.
pub fn replay<R: Read, W: Output>(
    alloc: Global,
    reader: &mut Source<R>,
    writer: &mut Sink<W>,
    blocks: u32,
) -> Status
    requires some { 0 < blocks }
    requires few { blocks ≤ MAX_BLOCKS }
    ensures done { IsEnd result →
        HasReplayed (start blocks) (R.remaining reader.old.inner) result (W.contents writer.old.inner) (W.contents writer.new.inner) }
    ensures starved { result ≡ NoMemory →
        HasStarved (start blocks) (R.remaining reader.old.inner) (W.contents writer.old.inner) (W.contents writer.new.inner) }
    ensures failed { result ≡ Failed → IsGivenUp reader.new ⊎ (writer.new.failed ≡ true) }
    ensures unread { result ≡ Failed → writer.new.failed ≡ false →
        Appends (W.contents writer.old.inner) (W.contents writer.new.inner) unread_text }
    ensures none_hidden { result ≢ Failed → NoneFailed reader.old reader.new writer.old writer.new }
    ensures flushed { result ≢ Failed → IsFlushed W.KeepsNothing writer.new }
    ensures reads { reader.new.reads ≤ reader.old.reads + MAX_READS }
{
    match CachedDisk::new(alloc, blocks) {
        Ok(mut disk) => {
            let status = replay_over(alloc, reader, writer, &mut disk);
            disk.close();
            status
        }
        Err(OutOfMemory) => tell(writer, b"fault OutOfMemory\n", Status::OutOfMemory),
    }
}

/// Replays a script over any core.
pub fn replay_over<R: Read, W: Output, C: Core>(
    alloc: Global,
    reader: &mut Source<R>,
    writer: &mut Sink<W>,
    core: &mut C,
) -> Status
    ensures done { (w : World) → C.IsAt core.old w → IsEnd result →
        HasReplayed w (R.remaining reader.old.inner) result (W.contents writer.old.inner) (W.contents writer.new.inner) }
    ensures starved { (w : World) → C.IsAt core.old w → result ≡ NoMemory →
        HasStarved w (R.remaining reader.old.inner) (W.contents writer.old.inner) (W.contents writer.new.inner) }
    ensures failed { result ≡ Failed → IsGivenUp reader.new ⊎ (writer.new.failed ≡ true) }
    ensures unread { result ≡ Failed → writer.new.failed ≡ false →
        Appends (W.contents writer.old.inner) (W.contents writer.new.inner) unread_text }
    ensures none_hidden { result ≢ Failed → NoneFailed reader.old reader.new writer.old writer.new }
    ensures flushed { result ≢ Failed → IsFlushed W.KeepsNothing writer.new }
    ensures reads { reader.new.reads ≤ reader.old.reads + MAX_READS }
{
    match read_and_run(alloc, reader, writer, core) {
        Ok(status) => status,
        Err(Fault::Write) => Status::Failed,
        Err(Fault::Read) => tell(writer, b"fault Read\n", Status::Failed),
        Err(Fault::OutOfMemory) => tell(writer, b"fault OutOfMemory\n", Status::OutOfMemory),
    }
}

fn read_and_run<R: Read, W: Output, C: Core>(
    alloc: Global,
    reader: &mut Source<R>,
    writer: &mut Sink<W>,
    core: &mut C,
) -> Result<Status, Fault>
    ensures done { (w : World) → C.IsAt core.old w → IfOk result (λ status.
        HasReplayed w (R.remaining reader.old.inner) status (W.contents writer.old.inner) (W.contents writer.new.inner)) }
    ensures ended { IfOk result IsEnd }
    ensures stopped { (w : World) → C.IsAt core.old w → IfErr result (λ fault.
        HasStopped fault w (R.remaining reader.old.inner) (W.contents writer.old.inner) (W.contents writer.new.inner)) }
    ensures noted { RunningIsNoted reader.old reader.new writer.old writer.new result }
    ensures flushed { OnOk result (IsFlushed W.KeepsNothing writer.new) }
    ensures reads { reader.new.reads ≤ reader.old.reads + MAX_READS }
{
    let script = read_input(alloc, reader)?;
    let status = run(alloc, writer, core, script)?;
    writer.flush()?;
    Ok(status)
}

/// Writes the last line of a program that fails.
fn tell<W: Output>(writer: &mut Sink<W>, text: &[u8], status: Status) -> Status
    ensures { IsToldLast writer.old writer.new status result
        (Appends (W.contents writer.old.inner) (W.contents writer.new.inner) text.now) (IsFlushed W.KeepsNothing writer.new) }
{
    if writer.write_all(text).is_err() || writer.flush().is_err() {
        return Status::Failed;
    }
    status
}

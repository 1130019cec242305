//! How a script is read: all of it, within its limits, before anything is done.
ghost use Rattle.std.specs.Prelude.{ℕ, ◌≤◌, List, length, IfSome, IfErr};
ghost use Rattle.patch_script.specs.Kind.{lines_of, Reads};
ghost use Rattle.patch_script.specs.declared.scripts.TheConstants.{MAX_LINES};
ghost use Rattle.patch_disks.specs.Reading.{commands_for, IsParsed};
ghost use Rattle.patch_disks.specs.Stopping.{IsUnread};
ghost use Rattle.patch_replay.specs.Replay.{IsInput};
ghost use Rattle.patch_replay.specs.Streams.{IsGivenUp};

use crate::endings::{Stop, Unread};
use patch_commands::{CommandLine, read_commands, read_shared_commands};
use patch_model::{OutOfMemory, Refuses};
use patch_replay::{BadScript, Source, read_input};
use patch_script::{ScriptError, passes_limit};
use std::alloc::Global;
use std::io::Read;

/// What the lines ask for, of so many writers on threads where there are any.
fn read_lines(
    alloc: Global,
    script: &[u8],
    writers: Option<u32>,
) -> Result<Vec<CommandLine>, ScriptError>
    requires { length (lines_of script.now) ≤ MAX_LINES }
    ensures { Reads result (commands_for writers script.now) }
{
    match writers {
        None => read_commands(alloc, script),
        Some(writers) => read_shared_commands(alloc, script, writers),
    }
}

/// The lines of what was read, where that is no more than a script may have.
fn parse(
    alloc: Global,
    input: Option<Vec<u8>>,
    writers: Option<u32>,
) -> Result<Vec<CommandLine>, Unread>
    ensures parsed { (text : List ℕ) → IsInput input text → IsParsed (commands_for writers) text result }
    ensures stops { IfErr result (λ why. IsUnread why ⊥) }
{
    let Some(script) = input else {
        return Err(Unread::Script(BadScript::TooLong));
    };
    if passes_limit(script.as_slice()) {
        return Err(Unread::Script(BadScript::TooLong));
    }
    match read_lines(alloc, script.as_slice(), writers) {
        Ok(lines) => Ok(lines),
        Err(ScriptError::BadLine { line, defect }) => {
            Err(Unread::Script(BadScript::BadLine { line, defect }))
        }
        Err(ScriptError::OutOfMemory) => {
            Err(Unread::Stopped(Stop::Refused(OutOfMemory.refusal())))
        }
    }
}

/// All lines of the script that the reader gives. Where it is one of writers on threads, it has lines of so many writers alone.
pub fn read_script<R: Read>(
    alloc: Global,
    reader: &mut Source<R>,
    writers: Option<u32>,
) -> Result<Vec<CommandLine>, Unread>
    ensures parsed { IfSome (R.remaining reader.old.inner) (λ text. IsParsed (commands_for writers) text result) }
    ensures stops { IfErr result (λ why. IsUnread why (IsGivenUp reader.new)) }
{
    match read_input(alloc, reader) {
        Ok(input) => parse(alloc, input, writers),
        Err(fault) => Err(Unread::Stopped(Stop::from(fault))),
    }
}

//! The reading of a line of a store script.
ghost use Rattle.std.specs.Prelude.{◌≤◌, length, option_map, codes};
ghost use Rattle.patch_script.specs.Field.{whole, if_there};
ghost use Rattle.patch_script.specs.Gives.{Gives};
ghost use Rattle.patch_script.specs.Object.{object_data};
ghost use Rattle.patch_script.specs.Kind.{lines_of, Reads};
ghost use Rattle.patch_script.specs.declared.scripts.TheConstants.{MAX_LINES};
ghost use Rattle.patch_commands.specs.Command.{put_line, depend_line, group_command, writer_command, command_of, commands_of};
ghost use Rattle.patch_commands.specs.Shared.{shared_command, shared_commands};
ghost use Rattle.patch_commands.specs.declared.commands.CommandLine.TheVariants.{Sync};

use crate::commands::{CommandLine, MAX_VALUE_TEXT};
use crate::values::is_short_value;
use patch_model::{GroupNo, WriterNo};
use patch_script::{Defect, LineError, Name, Object, ObjectReader, ScriptError, read_objects};
use std::alloc::Global;

/// What makes a value too long: its piece alone, or how often that is repeated.
fn too_long(piece: &[u8]) -> LineError {
    let name = if piece.len() > MAX_VALUE_TEXT {
        Name::Hex
    } else {
        Name::Times
    };
    LineError::Unreadable(Defect::TooLong(name))
}

#[tactic(auto, unfolding(crate::specs::Command::put_line))]
fn read_put(alloc: Global, writer: WriterNo, line: &Object<'_>) -> Result<CommandLine, LineError>
    ensures { Gives result (put_line writer (object_data line.now)) }
{
    let key = line.text(alloc, Name::Key)?;
    let piece = line.bytes(alloc, Name::Hex)?;
    let times = line.number_or(Name::Times, 1)?;
    if !is_short_value(piece.as_slice(), times) {
        return Err(too_long(piece.as_slice()));
    }
    Ok(CommandLine::Put {
        writer,
        key,
        piece,
        times,
    })
}

#[tactic(auto, unfolding(crate::specs::Command::depend_line))]
fn read_depend(writer: WriterNo, line: &Object<'_>) -> Result<CommandLine, LineError>
    ensures { Gives result (depend_line writer (object_data line.now)) }
{
    let group = GroupNo(line.number(Name::Group)?);
    let on = GroupNo(line.number(Name::On)?);
    Ok(CommandLine::Depend { writer, group, on })
}

fn read_sync(writer: WriterNo, line: &Object<'_>) -> Result<CommandLine, LineError>
    ensures { Gives result (option_map (Sync writer) (if_there whole (codes "group") (object_data line.now))) }
{
    let group = match line.number_if_there(Name::Group)? {
        Some(number) => Some(GroupNo(number)),
        None => None,
    };
    Ok(CommandLine::Sync { writer, group })
}

#[tactic(auto, unfolding(crate::specs::Command::group_command))]
fn read_group_command(
    writer: WriterNo,
    op: &str,
    line: &Object<'_>,
) -> Result<CommandLine, LineError>
    ensures { Gives result (group_command writer op.now (object_data line.now)) }
{
    match op {
        "group" => Ok(CommandLine::Group { writer }),
        "engage" => Ok(CommandLine::Engage {
            writer,
            group: GroupNo(line.number(Name::Group)?),
        }),
        "disengage" => Ok(CommandLine::Disengage {
            writer,
            group: GroupNo(line.number(Name::Group)?),
        }),
        "depend" => read_depend(writer, line),
        "close" => Ok(CommandLine::Close {
            writer,
            group: GroupNo(line.number(Name::Group)?),
        }),
        "pending" => Ok(CommandLine::Pending {
            writer,
            group: GroupNo(line.number(Name::Group)?),
        }),
        "sync" => read_sync(writer, line),
        _ => Err(LineError::Unreadable(Defect::NoCommand)),
    }
}

#[tactic(auto, unfolding(crate::specs::Command::writer_command))]
fn read_command(
    alloc: Global,
    writer: WriterNo,
    op: &str,
    line: &Object<'_>,
) -> Result<CommandLine, LineError>
    ensures { Gives result (writer_command writer op.now (object_data line.now)) }
{
    match op {
        "put" => read_put(alloc, writer, line),
        "get" => Ok(CommandLine::Get {
            writer,
            key: line.text(alloc, Name::Key)?,
        }),
        "delete" => Ok(CommandLine::Delete {
            writer,
            key: line.text(alloc, Name::Key)?,
        }),
        "reclaim" => Ok(CommandLine::Reclaim {
            writer,
            extent: line.number(Name::Extent)?,
        }),
        _ => read_group_command(writer, op, line),
    }
}

#[tactic(auto, unfolding(crate::specs::Command::command_of))]
fn read_any(alloc: Global, op: &str, line: &Object<'_>) -> Result<CommandLine, LineError>
    ensures { Gives result (command_of op.now (object_data line.now)) }
{
    read_command(alloc, line.writer()?, op, line)
}

/// Reads the lines of a store script.
struct AnyLines;

impl ObjectReader for AnyLines {
    type Line = CommandLine;

    ghost says = { λ _. command_of };

    const UNKNOWN_OP: Defect = Defect::NoCommand;

    fn read(&self, alloc: Global, op: &str, line: &Object<'_>) -> Result<CommandLine, LineError> {
        read_any(alloc, op, line)
    }
}

/// Reads the lines of a store script of so many writers on threads.
#[derive(Clone, Copy)]
struct SharedLines {
    writers: u32,
}

impl ObjectReader for SharedLines {
    type Line = CommandLine;

    ghost says = { λ reader. shared_command reader.writers };

    const UNKNOWN_OP: Defect = Defect::NoCommand;

    fn read(&self, alloc: Global, op: &str, line: &Object<'_>) -> Result<CommandLine, LineError> {
        let line = read_any(alloc, op, line)?;
        if line.writer().0 as u32 >= self.writers {
            return Err(LineError::Unreadable(Defect::NoSuchWriter));
        }
        if line.is_sync() {
            return Err(LineError::Unreadable(Defect::NoSync));
        }
        Ok(line)
    }
}

/// What the lines of a store script ask for, blank ones nothing.
pub fn read_commands(alloc: Global, text: &[u8]) -> Result<Vec<CommandLine>, ScriptError>
    requires { length (lines_of text.now) ≤ MAX_LINES }
    ensures { Reads result (commands_of text.now) }
{
    read_objects(alloc, &AnyLines, text)
}

/// The same of a script of so many writers on threads: a line of another writer is unreadable, and so is a sync.
pub fn read_shared_commands(
    alloc: Global,
    text: &[u8],
    writers: u32,
) -> Result<Vec<CommandLine>, ScriptError>
    requires { length (lines_of text.now) ≤ MAX_LINES }
    ensures { Reads result (shared_commands writers text.now) }
{
    read_objects(alloc, &SharedLines { writers }, text)
}

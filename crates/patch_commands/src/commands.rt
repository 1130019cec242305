//! The forms of lines.
ghost use Rattle.std.specs.Prelude.{◌≡◌, option_map, IfOk};
ghost use Rattle.patch_history.specs.Commands.{command_of};
ghost use Rattle.patch_commands.specs.declared.commands.TheConstants.{MAX_VALUE_TEXT};
ghost use Rattle.patch_commands.specs.Asking.{command_on};
ghost use Rattle.patch_commands.specs.Shared.{writer_of, is_sync as the_is_sync};

use crate::values::value;
use patch_history::Command;
use patch_model::{Bytes, GroupNo, OutOfMemory, WriterNo};
use std::alloc::Global;

/// The most bytes of the value that a line puts.
pub const MAX_VALUE_TEXT: usize = 1_048_576;

/// The limit of a value in a line, in numbers.
pub fn limits_are_numbers()
    ensures { MAX_VALUE_TEXT ≡ 1048576 }
{}

/// What a line of a store script asks for, and for which writer.
#[derive(Debug, Drop)]
pub enum CommandLine {
    /// Put a value under a key: the piece, repeated so many times. The value itself is laid out when the line is answered,
    /// so that those of a whole script don't stand in memory at one time.
    Put {
        writer: WriterNo,
        key: Bytes,
        piece: Bytes,
        times: u32,
    },
    /// Read the value of a key.
    Get {
        writer: WriterNo,
        key: Bytes,
    },
    /// Take a key away.
    Delete {
        writer: WriterNo,
        key: Bytes,
    },
    /// Win an extent back.
    Reclaim {
        writer: WriterNo,
        extent: u32,
    },
    /// Make a group.
    Group {
        writer: WriterNo,
    },
    /// Let the writer's patches belong to the group from now on.
    Engage {
        writer: WriterNo,
        group: GroupNo,
    },
    /// End that.
    Disengage {
        writer: WriterNo,
        group: GroupNo,
    },
    /// Let the group depend on the other.
    Depend {
        writer: WriterNo,
        group: GroupNo,
        on: GroupNo,
    },
    /// Let the group be none from now on.
    Close {
        writer: WriterNo,
        group: GroupNo,
    },
    /// Count the patches of the group that aren't on the disk yet.
    Pending {
        writer: WriterNo,
        group: GroupNo,
    },
    /// Bring all patches to the disk, those of the group among them: where a group is named there has to be one.
    Sync {
        writer: WriterNo,
        group: Option<GroupNo>,
    },
}

impl CommandLine {
    /// The writer who asks for it.
    pub fn writer(&self) -> WriterNo
        ensures { result ≡ writer_of self.now }
    {
        match self {
            CommandLine::Put { writer, .. }
            | CommandLine::Get { writer, .. }
            | CommandLine::Delete { writer, .. }
            | CommandLine::Reclaim { writer, .. }
            | CommandLine::Group { writer }
            | CommandLine::Engage { writer, .. }
            | CommandLine::Disengage { writer, .. }
            | CommandLine::Depend { writer, .. }
            | CommandLine::Close { writer, .. }
            | CommandLine::Pending { writer, .. }
            | CommandLine::Sync { writer, .. } => *writer,
        }
    }

    /// Whether it is a sync.
    pub fn is_sync(&self) -> bool
        ensures { result ≡ the_is_sync self.now }
    {
        matches!(self, CommandLine::Sync { .. })
    }

    /// The command that it asks a store for, with its value laid out. A sync of a group asks how many of its patches aren't on the disk
    /// yet, and one of no group asks for nothing.
    pub fn into_command(self, alloc: Global) -> Result<Option<Command>, OutOfMemory>
        ensures { IfOk result (λ command. option_map command_of command ≡ command_on self) }
    {
        Ok(Some(match self {
            CommandLine::Put {
                key,
                piece,
                times,
                ..
            } => {
                let value = value(alloc, piece, times)?;
                Command::Put { key, value }
            }
            CommandLine::Get { key, .. } => Command::Get { key },
            CommandLine::Delete { key, .. } => Command::Delete { key },
            CommandLine::Reclaim { extent, .. } => Command::Reclaim { extent },
            CommandLine::Group { .. } => Command::Group,
            CommandLine::Engage { group, .. } => Command::Engage { group },
            CommandLine::Disengage { group, .. } => Command::Disengage { group },
            CommandLine::Depend { group, on, .. } => Command::Depend { group, on },
            CommandLine::Close { group, .. } => Command::CloseGroup { group },
            CommandLine::Pending { group, .. } => Command::Pending { group },
            CommandLine::Sync { group, .. } => match group {
                Some(group) => Command::Pending { group },
                None => return Ok(None),
            },
        }))
    }
}

//! Copies of commands and of replies.
ghost use Rattle.std.specs.Prelude.{ℕ, ◌≡◌, List, IfOk, OnErr};
ghost use Rattle.patch_history.specs.Command.{Value};
ghost use Rattle.patch_history.specs.Commands.{command_of, reply_told};

use patch_history::{Command, Reply};
use patch_model::{Bytes, OutOfMemory};
use std::alloc::Allocator;

/// A copy of a command.
pub(crate) fn copy_command<A: Allocator + Copy>(
    alloc: A,
    command: &Command<A>,
) -> Result<Command<A>, OutOfMemory>
    ensures { IfOk result (λ copy. command_of copy ≡ command_of command.now) }
{
    Ok(match command {
        Command::Put { key, value } => {
            let key = Bytes::from_slice(alloc, key.as_slice())?;
            let value = Bytes::from_slice(alloc, value.as_slice())?;
            Command::Put { key, value }
        }
        Command::Get { key } => Command::Get {
            key: Bytes::from_slice(alloc, key.as_slice())?,
        },
        Command::Delete { key } => Command::Delete {
            key: Bytes::from_slice(alloc, key.as_slice())?,
        },
        Command::Reclaim { extent } => Command::Reclaim { extent: *extent },
        Command::Upgrade => Command::Upgrade,
        Command::Group => Command::Group,
        Command::Engage { group } => Command::Engage { group: *group },
        Command::Disengage { group } => Command::Disengage { group: *group },
        Command::Depend { group, on } => Command::Depend {
            group: *group,
            on: *on,
        },
        Command::CloseGroup { group } => Command::CloseGroup { group: *group },
        Command::Pending { group } => Command::Pending { group: *group },
    })
}

/// A copy of a reply. Only that of a value takes memory.
pub(crate) fn copy_reply<A: Allocator>(alloc: A, reply: &Reply<A>) -> Result<Reply<A>, OutOfMemory>
    ensures copy { IfOk result (λ copy. reply_told copy ≡ reply_told reply.now) }
    ensures refused { OnErr result ((bytes : List ℕ) × (reply_told reply.now ≡ Value bytes)) }
{
    Ok(match reply {
        Reply::Done => Reply::Done,
        Reply::Value(bytes) => Reply::Value(Bytes::from_slice(alloc, bytes.as_slice())?),
        Reply::Absent => Reply::Absent,
        Reply::GroupMade(group) => Reply::GroupMade(*group),
        Reply::Count(count) => Reply::Count(*count),
        Reply::Refused(refusal) => Reply::Refused(*refusal),
    })
}

//! What is compared when the threads have ended.
ghost use Rattle.std.specs.Prelude.{ℕ, List, ◌≡◌, ◌↔◌, ◌<◌, ◌≤◌, length, map, true};
ghost use Rattle.patch_model.specs.declared.limits.TheConstants.{MAX_WRITER};
ghost use Rattle.patch_history.specs.Command.{Put};
ghost use Rattle.patch_history.specs.Commands.{command_of, reply_told};
ghost use Rattle.patch_shared.specs.Books.{entry_of, is_by as the_is_by};
ghost use Rattle.patch_shared.specs.Conversations.{IsNext, IsTold, AreTold, commands_in, replies_in};

use crate::actors::Actor;
use crate::entries::Entry;
use patch_history::{Command, Reply};
use patch_model::{BlockBytes, Bytes, Refusal};

/// Whether two commands are the same.
fn is_same_command(a: &Command, b: &Command) -> bool
    ensures { result ≡ true ↔ command_of a.now ≡ command_of b.now }
{
    match a {
        Command::Put { key, value } => is_put(b, key, value),
        Command::Get { key } => match b {
            Command::Get { key: other } => is_same_bytes(key, other),
            _ => false,
        },
        Command::Delete { key } => match b {
            Command::Delete { key: other } => is_same_bytes(key, other),
            _ => false,
        },
        Command::Reclaim { extent } => match b {
            Command::Reclaim { extent: other } => extent == other,
            _ => false,
        },
        Command::Upgrade => matches!(b, Command::Upgrade),
        Command::Group => matches!(b, Command::Group),
        Command::Engage { group } => match b {
            Command::Engage { group: other } => group == other,
            _ => false,
        },
        Command::Disengage { group } => match b {
            Command::Disengage { group: other } => group == other,
            _ => false,
        },
        Command::Depend { group, on } => match b {
            Command::Depend {
                group: other,
                on: another,
            } => group == other && on == another,
            _ => false,
        },
        Command::CloseGroup { group } => match b {
            Command::CloseGroup { group: other } => group == other,
            _ => false,
        },
        Command::Pending { group } => match b {
            Command::Pending { group: other } => group == other,
            _ => false,
        },
    }
}

fn is_put(command: &Command, key: &Bytes, value: &Bytes) -> bool
    ensures { result ≡ true ↔ command_of command.now ≡ Put key.now value.now }
{
    match command {
        Command::Put { key: k, value: v } => is_same_bytes(k, key) && is_same_bytes(v, value),
        _ => false,
    }
}

fn is_same_bytes(a: &Bytes, b: &Bytes) -> bool
    ensures { result ≡ true ↔ a.now ≡ b.now }
{
    a.as_slice() == b.as_slice()
}

fn is_same_number(a: Option<u32>, b: Option<u32>) -> bool
    ensures { result ≡ true ↔ a ≡ b }
{
    match a {
        None => b.is_none(),
        Some(number) => match b {
            Some(other) => number == other,
            None => false,
        },
    }
}

fn is_same_refusal(a: &Refusal, b: &Refusal) -> bool
    ensures { result ≡ true ↔ a.now ≡ b.now }
{
    a.kind == b.kind && is_same_number(a.number, b.number)
}

/// Whether two replies are the same.
fn is_same_reply(a: &Reply, b: &Reply) -> bool
    ensures { result ≡ true ↔ reply_told a.now ≡ reply_told b.now }
{
    match a {
        Reply::Done => matches!(b, Reply::Done),
        Reply::Value(bytes) => match b {
            Reply::Value(others) => is_same_bytes(bytes, others),
            _ => false,
        },
        Reply::Absent => matches!(b, Reply::Absent),
        Reply::GroupMade(group) => match b {
            Reply::GroupMade(other) => group == other,
            _ => false,
        },
        Reply::Count(count) => match b {
            Reply::Count(other) => count == other,
            _ => false,
        },
        Reply::Refused(refusal) => match b {
            Reply::Refused(other) => is_same_refusal(refusal, other),
            _ => false,
        },
    }
}

/// Whether the entry is one of this writer.
fn is_by(entry: &Entry, writer: u8) -> bool
    ensures { result ≡ the_is_by writer (entry_of entry.now) }
{
    match entry.actor {
        Actor::Writer(n) => n.0 == writer,
        Actor::Flusher => false,
        Actor::Completer => false,
    }
}

/// Whether the entry has the command and the reply of this place.
fn is_next(entry: &Entry, next: usize, jobs: &[Command], replies: &[Reply]) -> bool
    ensures { result ≡ true ↔ IsNext (entry_of entry.now) next (map command_of jobs.now) (map reply_told replies.now) }
{
    next < jobs.len()
        && next < replies.len()
        && is_same_command(&entry.command, &jobs[next])
        && is_same_reply(&entry.reply, &replies[next])
}

/// Whether the writer's entries have these commands with these replies, all of them and in this order.
fn is_told(calls: &[Entry], writer: u8, jobs: &[Command], replies: &[Reply]) -> bool
    ensures { result ≡ true ↔ IsTold writer (map entry_of calls.now) (map command_of jobs.now) (map reply_told replies.now) }
{
    if jobs.len() != replies.len() {
        return false;
    }
    let mut next = 0;
    for entry in calls {
        if is_by(entry, writer) {
            if !is_next(entry, next, jobs, replies) {
                return false;
            }
            next += 1;
        }
    }
    next == jobs.len()
}

/// Whether this is so of each writer.
pub(crate) fn are_told(calls: &[Entry], jobs: &[Vec<Command>], replies: &[Vec<Reply>]) -> bool
    requires { length jobs.now ≤ 8 }
    ensures { result ≡ true ↔ AreTold (map entry_of calls.now) (commands_in jobs.now) (replies_in replies.now) }
{
    if jobs.len() != replies.len() {
        return false;
    }
    for n in 0..jobs.len() {
        if !is_told(calls, n as u8, jobs[n].as_slice(), replies[n].as_slice()) {
            return false;
        }
    }
    true
}

/// Whether two lists of blocks are the same.
pub(crate) fn are_same_blocks(a: &[BlockBytes], b: &[BlockBytes]) -> bool
    ensures { result ≡ true ↔ a.now ≡ b.now }
{
    if a.len() != b.len() {
        return false;
    }
    for n in 0..a.len() {
        if a[n].as_slice() != b[n].as_slice() {
            return false;
        }
    }
    true
}

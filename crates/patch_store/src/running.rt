//! How a list of commands is gone through.
ghost use Rattle.std.specs.Prelude.{ℕ, List, ◌≡◌, ◌<◌, length, OnOk, OnErr};
ghost use Rattle.patch_group.specs.Refusals.{group_cause};
ghost use Rattle.patch_history.specs.Command.{Done, Get, Value, GroupMade, Count};
ghost use Rattle.patch_history.specs.Commands.{command_of, reply_told};
ghost use Rattle.patch_store.specs.Laws.{CachedDisksOpen, ClosedDisksOpen, CrashDisksOpen};
ghost use Rattle.patch_store.specs.Meaning.{Answers};
ghost use Rattle.patch_store.specs.Replies.{reply_to};
ghost use Rattle.patch_store.specs.Running.{commands_of, replies_in, RunsAll};

use crate::laws;
use crate::stores::Store;
use patch_group::GroupRefusal;
use patch_history::{Command, Reply, laws as history_laws};
use patch_model::{Bytes, GroupNo, OutOfMemory, Refuses, WriterNo};
use std::alloc::Allocator;

impl<A: Allocator + Copy> Store<A> {
    /// Goes through commands of some writers, in order, and answers each. Room for a reply is taken before its command is
    /// begun: where there is none, the replies so far come back, and no later command was begun.
    ///
    /// This is the promise of the store over whole runs: the calls are right where they stand, each by the commands before it;
    /// and whatever closed set of patches has reached the disk by then, it opens ([`closed_disks_open`](crate::laws::closed_disks_open)).
    pub fn run(
        &mut self,
        commands: &[(WriterNo, Command<A>)],
    ) -> Result<Vec<Reply<A>, A>, (Vec<Reply<A>, A>, OutOfMemory)>
        ensures ran { RunsAll (commands_of commands.now) (replies_in result) self.old self.new }
        ensures all { OnOk result (length (replies_in result) ≡ length commands.now) }
        ensures stopped { OnErr result (length (replies_in result) < length commands.now) }
        ensures cached { CachedDisksOpen }
        ensures closed { ClosedDisksOpen }
        ensures crash { CrashDisksOpen }
    {
        laws::closed_disks_open();
        let mut replies = Vec::new(self.alloc);
        for asked in commands {
            if let Err(_) = replies.reserve(1) {
                return Err((replies, OutOfMemory));
            }
            let reply = self.answer(asked.0, &asked.1);
            replies.push_reserved(reply);
        }
        Ok(replies)
    }

    /// Answers one command of a writer. Where it runs out of memory the reply says so.
    pub fn answer(&mut self, writer: WriterNo, command: &Command<A>) -> Reply<A>
        ensures answer { Answers writer (command_of command.now) (reply_told result) self.old self.new }
        ensures read { (bytes : List ℕ) → reply_told result ≡ Value bytes → self.new ≡ self.old }
    {
        match command {
            Command::Put { key, value } => {
                done_or_refused(self.put(writer, key.as_slice(), value.as_slice()))
            }
            Command::Get { key } => self.answer_get(key.as_slice()),
            Command::Delete { key } => done_or_refused(self.delete(writer, key.as_slice())),
            Command::Reclaim { extent } => done_or_refused(self.reclaim(*extent)),
            Command::Upgrade => done_or_refused(self.upgrade()),
            Command::Group => made_or_refused(self.create_group()),
            Command::Engage { group } => done_or_refused(self.engage(writer, *group)),
            Command::Disengage { group } => done_or_refused(self.disengage(writer, *group)),
            Command::Depend { group, on } => done_or_refused(self.depend(*group, *on)),
            Command::CloseGroup { group } => done_or_refused(self.close_group(*group)),
            Command::Pending { group } => count_or_refused(self.pending(*group)),
        }
    }

    /// Answers the value of a key.
    fn answer_get(&self, key: &[u8]) -> Reply<A>
        ensures { (writer : ℕ) → Answers writer (Get key.now) (reply_told result) self.now self.now }
    {
        history_laws::histories_extend();
        match self.get(key) {
            Ok(Some(value)) => Reply::Value(Bytes::from_vec(value)),
            Ok(None) => Reply::Absent,
            Err(refusal) => Reply::Refused(refusal.refusal()),
        }
    }
}

/// The reply to a command that tells nothing where it is done.
fn done_or_refused<E: Refuses, A: Allocator>(outcome: Result<(), E>) -> Reply<A>
    ensures { reply_told result ≡ reply_to E.Refuses.cause (λ _. Done) outcome }
{
    match outcome {
        Ok(()) => Reply::Done,
        Err(refusal) => Reply::Refused(refusal.refusal()),
    }
}

/// The reply to a command that makes a group.
fn made_or_refused<A: Allocator>(outcome: Result<GroupNo, GroupRefusal>) -> Reply<A>
    ensures { reply_told result ≡ reply_to group_cause (λ group. GroupMade group) outcome }
{
    match outcome {
        Ok(group) => Reply::GroupMade(group),
        Err(refusal) => Reply::Refused(refusal.refusal()),
    }
}

/// The reply to a command that counts patches.
fn count_or_refused<A: Allocator>(outcome: Result<u32, GroupRefusal>) -> Reply<A>
    ensures { reply_told result ≡ reply_to group_cause (λ count. Count count) outcome }
{
    match outcome {
        Ok(count) => Reply::Count(count),
        Err(refusal) => Reply::Refused(refusal.refusal()),
    }
}

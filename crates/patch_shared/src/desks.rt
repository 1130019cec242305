//! What stands under the lock: the book, and beside it sums of what the threads do.
ghost use Rattle.std.specs.Prelude.{◌≡◌, ◌+◌, ◌<◌, ◌^◌, ℕ, length, IfOk, IfErr, OnOk, OnErr, MatchOption};
ghost use Rattle.patch_shared.specs.Books.{IsKept};
ghost use Rattle.patch_shared.specs.Calling.{IsWriter};

use crate::actors::Actor;
use crate::books::Book;
use patch_cache::{Done, Flight, Landed};
use patch_history::{Command, Reply};
use patch_model::OutOfMemory;
use std::sync::ledger;
use std::sync::ledger::{Ledger, Share};

/// One part of a ledger, with how much its thread has counted.
#[derive(Drop)]
pub struct Tally<L: Ledger> {
    share: Share<L>,
    count: u64,
    ghost one_part: { share.parts ≡ 1 },
    ghost counted: { share.amount ≡ count },
}

impl<L: Ledger> Tally<L> {
    pub fn new(share: Share<L>) -> Tally<L>
        requires { (share.parts ≡ 1) × (share.amount ≡ 0) }
        ensures { result.count ≡ 0 }
    {
        Tally { share, count: 0 }
    }

    /// One call more, here and in the sum.
    fn add_one(&mut self, sum: &mut ledger::Book<L>)
        requires { sum.old.total + 1 < 2 ^ 64 }
        ensures count { self.new.count ≡ self.old.count + 1 }
        ensures total { sum.new.total ≡ sum.old.total + 1 }
    {
        let Tally { share, count } = self;
        sum.audit(share);
        sum.add(share, 1);
        *count += 1;
    }

    pub fn count(&self) -> u64
        ensures { result ≡ self.now.count }
    {
        self.count
    }

    pub fn into_share(self) -> Share<L>
        ensures { (result.parts ≡ 1) × (result.amount ≡ self.count) }
    {
        let Tally { share, count: _ } = self;
        share
    }
}

/// The book, and the sums of commands, sends and completions over all threads.
#[derive(Drop)]
pub struct Desk<C: Ledger, S: Ledger, T: Ledger> {
    book: Book,
    commands: ledger::Book<C>,
    sends: ledger::Book<S>,
    completions: ledger::Book<T>,
    ghost all_commands: { length book.calls ≡ commands.total },
    ghost all_sends: { book.counts.flusher ≡ sends.total },
    ghost all_completions: { book.counts.completer ≡ completions.total },
}

impl<C: Ledger, S: Ledger, T: Ledger> Desk<C, S, T> {
    pub fn new(
        book: Book,
        commands: ledger::Book<C>,
        sends: ledger::Book<S>,
        completions: ledger::Book<T>,
    ) -> Desk<C, S, T>
        requires commands { length book.calls ≡ commands.total }
        requires sends { book.counts.flusher ≡ sends.total }
        requires completions { book.counts.completer ≡ completions.total }
        ensures { result.book ≡ book }
    {
        Desk {
            book,
            commands,
            sends,
            completions,
        }
    }

    /// A command of a writer, counted where it is answered.
    pub fn command(
        &mut self,
        actor: Actor,
        command: &Command,
        mine: &mut Tally<C>,
    ) -> Result<Reply, OutOfMemory>
        requires { IsWriter actor }
        ensures ok { OnOk result (mine.new.count ≡ mine.old.count + 1) }
        ensures err { OnErr result (mine.new.count ≡ mine.old.count) }
    {
        let reply = self.book.command(actor, command)?;
        let _made = self.book.calls().len();
        mine.add_one(&mut self.commands);
        Ok(reply)
    }

    /// A write that is begun, and counted.
    pub fn send(&mut self, mine: &mut Tally<S>) -> Result<Option<Flight>, OutOfMemory>
        ensures ok { IfOk result (λ sent. MatchOption sent (mine.new.count ≡ mine.old.count) (λ flight. mine.new.count ≡ mine.old.count + 1)) }
    {
        match self.book.send(Actor::Flusher)? {
            None => Ok(None),
            Some(flight) => {
                let _made = self.book.counts();
                mine.add_one(&mut self.sends);
                Ok(Some(flight))
            }
        }
    }

    /// A write that is ended, and counted.
    pub fn complete(&mut self, landed: Landed, mine: &mut Tally<T>) -> Result<Done, Landed>
        ensures ok { OnOk result (mine.new.count ≡ mine.old.count + 1) }
        ensures err { OnErr result (mine.new.count ≡ mine.old.count) }
    {
        let done = self.book.complete(Actor::Completer, landed)?;
        let _made = self.book.counts();
        mine.add_one(&mut self.completions);
        Ok(done)
    }

    /// The book: it holds as many calls as all shares of each ledger together have counted.
    pub fn close(
        self,
        mut commands: Share<C>,
        mut sends: Share<S>,
        mut completions: Share<T>,
    ) -> Book
        requires commands { commands.parts ≡ C.parts }
        requires sends { sends.parts ≡ S.parts }
        requires completions { completions.parts ≡ T.parts }
        ensures kept { IsKept result }
        ensures commands { length result.calls ≡ commands.amount }
        ensures sends { result.counts.flusher ≡ sends.amount }
        ensures completions { result.counts.completer ≡ completions.amount }
    {
        let Desk {
            book,
            commands: mut all_commands,
            sends: mut all_sends,
            completions: mut all_completions,
        } = self;
        all_commands.audit(&mut commands);
        all_sends.audit(&mut sends);
        all_completions.audit(&mut completions);
        let _calls = book.calls();
        book
    }
}

//! A store with the history of its calls.
ghost use Rattle.std.specs.Prelude.{ℕ, List, ◌≡◌, map, IfOk, IfErr, OnErr};
ghost use Rattle.patch_history.specs.Commands.{command_of, reply_told};
ghost use Rattle.patch_store.specs.Meaning.{Answers};
ghost use Rattle.patch_shared.specs.declared.actors.Actor.TheVariants as the_actor;
ghost use Rattle.patch_shared.specs.Books.{IsKept, IsNew, IsBegun, entry_of, book_with};
ghost use Rattle.patch_shared.specs.Calling.{IsWriter, AddsCall, HasSent, HasEnded, IsStranger};

use crate::actors::{Actor, Counts};
use crate::blocks::copy_cached;
use crate::copying::{copy_command, copy_reply};
use crate::entries::{Entry, Rest};
use patch_cache::{Done, Flight, Landed};
use patch_history::{Command, Reply};
use patch_model::{BlockBytes, OutOfMemory, WriterNo};
use patch_store::Store;
use std::alloc::{Allocator, Global};
use std::marker::Model;

/// A store, the blocks that it was opened on, and all calls since. Its steps stand in the store's trace, which is never drained.
///
/// At every moment it is one legal history, that one writer might have made alone: this is known of each book, whoever made
/// its calls, and so of one that several threads share under a lock.
#[derive(Drop)]
pub struct Book<A: Allocator + Copy = Global> {
    alloc: A,
    store: Store<A>,
    opening: Vec<BlockBytes<A>, A>,
    calls: Vec<Entry<A>, A>,
    counts: Counts,
}

impl<A: Allocator + Copy> Model for Book<A> {
    ghost use Rattle.std.specs.Prelude.{map};
    ghost use Rattle.patch_shared.specs.Books.{Book as BookValue, IsKept, entry_of};

    ghost Value = { BookValue };

    ghost view = { λ b. record { store = b.store; opening = b.opening.items; calls = map entry_of b.calls.items; counts = b.counts } };

    ghost invariant = { λ b. IsKept (record { store = b.store; opening = b.opening.items; calls = map entry_of b.calls.items; counts = b.counts }) };
}

impl<A: Allocator + Copy> Book<A> {
    /// The book of a store that was just opened: it has made no patch and no group. Where there is no memory the store comes back.
    pub fn open(alloc: A, store: Store<A>) -> Result<Book<A>, (Store<A>, OutOfMemory)>
        requires { IsNew store }
        ensures begun { IfOk result (IsBegun store) }
        ensures back { IfErr result (λ refused. refused.0 ≡ store) }
    {
        let Ok(opening) = copy_cached(alloc, store.cache()) else {
            return Err((store, OutOfMemory));
        };
        Ok(Book {
            alloc,
            store,
            opening,
            calls: Vec::new(alloc),
            counts: Counts {
                writers: [0; 8],
                flusher: 0,
                completer: 0,
            },
        })
    }

    /// Answers a writer's command, and keeps both. The book's own room is taken first: where there is none, nothing is done.
    /// The store's own want of memory is a reply, and stands in the book as others do.
    #[tactic(auto, using(crate::proofs::Keeping::count_fits))]
    pub fn command(&mut self, actor: Actor, command: &Command<A>) -> Result<Reply<A>, OutOfMemory>
        requires { IsWriter actor }
        ensures called { IfOk result (λ reply. AddsCall self.old self.new actor (command_of command.now) (reply_told reply)) }
        ensures refused { OnErr result (self.new ≡ self.old) }
    {
        let Actor::Writer(writer) = actor else {
            unreachable!()
        };
        self.calls.reserve(1)?;
        let asked = copy_command(self.alloc, command)?;
        let before = self.store.cache().trace().len() as u64;
        let (reply, told) = answer_twice(self.alloc, &mut self.store, writer, command)?;
        let after = self.store.cache().trace().len() as u64;
        self.calls.push_reserved(Entry {
            actor,
            command: asked,
            reply: told,
            before,
            after,
        });
        // Only proofs need this: the number of calls fits its type.
        let _made = self.calls.len();
        self.counts.writers[writer.0 as usize] += 1;
        Ok(reply)
    }

    /// Begins a write of the least block of which one can begin, if there is one.
    pub fn send(&mut self, actor: Actor) -> Result<Option<Flight<A>>, OutOfMemory>
        requires { actor ≡ the_actor.Flusher }
        ensures sent { IfOk result (HasSent self.old self.new actor) }
        ensures refused { OnErr result (self.new ≡ self.old) }
    {
        match self.store.send()? {
            None => Ok(None),
            Some(flight) => {
                let _steps = self.store.cache().trace().len();
                self.counts.flusher += 1;
                Ok(Some(flight))
            }
        }
    }

    /// Ends a write that the device has done. One that is a stranger to the store comes back. It takes no memory.
    pub fn complete(&mut self, actor: Actor, landed: Landed) -> Result<Done<A>, Landed>
        requires { actor ≡ the_actor.Completer }
        ensures done { IfOk result (HasEnded self.old self.new actor landed) }
        ensures stranger { OnErr result (IsStranger self.old landed) }
        ensures back { IfErr result (λ back. back ≡ landed) }
        ensures refused { OnErr result (self.new ≡ self.old) }
    {
        match self.store.complete(landed) {
            Ok(done) => {
                let _steps = self.store.cache().trace().len();
                self.counts.completer += 1;
                Ok(done)
            }
            Err(stranger) => Err(stranger),
        }
    }

    /// The store as it stands after all calls.
    pub fn store(&self) -> &Store<A>
        ensures { result.now ≡ self.now.store }
    {
        &self.store
    }

    /// The blocks that the store was opened on.
    pub fn opening(&self) -> &[BlockBytes<A>]
        ensures { result.now ≡ self.now.opening }
    {
        self.opening.as_slice()
    }

    /// The commands that were answered, the first of them first. Of the book it says what every book is.
    pub fn calls(&self) -> &[Entry<A>]
        ensures calls { map entry_of result.now ≡ self.now.calls }
        ensures kept { IsKept self.now }
    {
        self.calls.as_slice()
    }

    /// How many calls each actor has made.
    pub fn counts(&self) -> Counts
        ensures { result ≡ self.now.counts }
    {
        self.counts
    }

    /// The store, and the rest of the book.
    pub(crate) fn into_parts(self) -> (Store<A>, Rest<A>)
        ensures parts { book_with result.0 result.1 ≡ self }
        ensures kept { IsKept self }
    {
        let Book {
            store,
            opening,
            calls,
            counts,
            ..
        } = self;
        (
            store,
            Rest {
                opening,
                calls,
                counts,
            },
        )
    }
}

/// Answers a command, and copies the reply. Only a value's copy takes memory, and a command that is answered a value has changed
/// nothing: so where there is none, nothing is done.
fn answer_twice<A: Allocator + Copy>(
    alloc: A,
    store: &mut Store<A>,
    writer: WriterNo,
    command: &Command<A>,
) -> Result<(Reply<A>, Reply<A>), OutOfMemory>
    ensures answer { IfOk result (λ both. Answers writer (command_of command.now) (reply_told both.0) store.old store.new) }
    ensures copy { IfOk result (λ both. reply_told both.1 ≡ reply_told both.0) }
    ensures refused { OnErr result (store.new ≡ store.old) }
{
    let reply = store.answer(writer, command);
    match copy_reply(alloc, &reply) {
        Ok(told) => Ok((reply, told)),
        Err(_) => Err(OutOfMemory),
    }
}

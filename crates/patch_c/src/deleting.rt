//! Room: how values are deleted, and what they took is won back.
ghost use Rattle.std.specs.Prelude.{ℕ, ◌≡◌, ◌↔◌, IsTrue, IsFalse, IfSome, IsNone};
ghost use Rattle.patch_history.specs.Command.{Delete, Reclaim};
ghost use Rattle.patch_handles.specs.Answering.{number_of, writer_of as writer_for};
ghost use Rattle.patch_c.specs.Answering.{Tells, KeepsIfRefused, KeepsUnlessDone};
ghost use Rattle.patch_c.specs.Handle.{Between, KeepsRest, StaysClosed};

use crate::answers::told;
use crate::handle::Handle;
use crate::laws::calls_stay;
use crate::opened::Opened;
use patch_handles::{Answer, NOT_OPEN, writer_of};
use std::alloc::Global;

impl Opened {
    fn delete(&mut self, writer: u32, key: &[u8]) -> Answer
        ensures told { IfSome (writer_for writer) (λ no.
            Tells no (Delete key.now) (number_of result) self.old.store self.new.store) }
        ensures bad_writer { IsNone (writer_for writer) → result ≡ Answer.BadWriter }
        ensures kept { KeepsUnlessDone (number_of result) self.old.store self.new.store }
        ensures rest { KeepsRest self.old self.new }
    {
        calls_stay();
        let Some(writer) = writer_of(writer) else {
            return Answer::BadWriter;
        };
        told(self.store.delete(writer, key))
    }

    fn reclaim(&mut self, extent: u32) -> Answer
        ensures told { (writer : ℕ) → Tells writer (Reclaim extent) (number_of result) self.old.store self.new.store }
        ensures kept { KeepsIfRefused (number_of result) self.old.store self.new.store }
        ensures rest { KeepsRest self.old self.new }
    {
        calls_stay();
        told(self.store.reclaim(extent))
    }
}

/// Takes a key and its value away.
#[unsafe(no_mangle)]
pub extern "C" fn fstch_delete(handle: &mut Handle, alloc: Global, writer: u32, key: &[u8]) -> i32
    ensures open { handle.new.is_open ≡ handle.old.is_open }
    ensures not_open { (result ≡ NOT_OPEN) ↔ IsFalse handle.old.is_open }
    ensures closed { StaysClosed handle.old handle.new }
    ensures told { IfSome (writer_for writer) (λ no. Between handle.old handle.new (λ before after.
        Tells no (Delete key.now) result before.store after.store)) }
    ensures bad_writer { IsNone (writer_for writer) → IsTrue handle.old.is_open → result ≡ number_of Answer.BadWriter }
    ensures kept { Between handle.old handle.new (λ before after. KeepsUnlessDone result before.store after.store) }
    ensures rest { Between handle.old handle.new KeepsRest }
{
    let Some(mut opened) = handle.take(alloc) else {
        return NOT_OPEN;
    };
    let answer = opened.delete(writer, key);
    handle.put_back(opened);
    answer.number()
}

/// Moves what is live in an extent elsewhere, and empties it.
#[unsafe(no_mangle)]
pub extern "C" fn fstch_reclaim(handle: &mut Handle, alloc: Global, extent: u32) -> i32
    ensures open { handle.new.is_open ≡ handle.old.is_open }
    ensures not_open { (result ≡ NOT_OPEN) ↔ IsFalse handle.old.is_open }
    ensures closed { StaysClosed handle.old handle.new }
    ensures told { (writer : ℕ) → Between handle.old handle.new (λ before after.
        Tells writer (Reclaim extent) result before.store after.store) }
    ensures kept { Between handle.old handle.new (λ before after. KeepsIfRefused result before.store after.store) }
    ensures rest { Between handle.old handle.new KeepsRest }
{
    let Some(mut opened) = handle.take(alloc) else {
        return NOT_OPEN;
    };
    let answer = opened.reclaim(extent);
    handle.put_back(opened);
    answer.number()
}

//! Values: how they are put, and read.
ghost use Rattle.std.specs.Prelude.{◌≡◌, ◌↔◌, IsTrue, IsFalse, IfSome, IsNone};
ghost use Rattle.patch_history.specs.Command.{Put};
ghost use Rattle.patch_history.specs.History.{History};
ghost use Rattle.patch_store.specs.Meaning.{IsStoreOf};
ghost use Rattle.patch_handles.specs.Answering.{number_of, writer_of as writer_for};
ghost use Rattle.patch_c.specs.Answering.{Tells, KeepsIfRefused};
ghost use Rattle.patch_c.specs.Handle.{Between, KeepsRest, StaysClosed};
ghost use Rattle.patch_c.specs.Putting.{TellsPut, HasRoomOrIsFull};
ghost use Rattle.patch_c.specs.Reading.{HasGot};

use crate::answers::told;
use crate::handle::Handle;
use crate::laws::{calls_stay, puts_stay};
use crate::opened::Opened;
use patch_handles::{Answer, NOT_OPEN, copy_out, writer_of};
use patch_model::{Refuses, WriterNo};
use std::alloc::Global;

impl Opened {
    fn put(&mut self, writer: u32, key: &[u8], value: &[u8]) -> Answer
        ensures told { IfSome (writer_for writer) (λ no. IsTrue self.old.manual →
            Tells no (Put key.now value.now) (number_of result) self.old.store self.new.store) }
        ensures told_in_room { IfSome (writer_for writer) (λ no. IsFalse self.old.manual →
            TellsPut no (record { key = key.now; value = value.now }) (number_of result) self.old.store self.new.store) }
        ensures bad_writer { IsNone (writer_for writer) → result ≡ Answer.BadWriter }
        ensures kept { IsTrue self.old.manual → KeepsIfRefused (number_of result) self.old.store self.new.store }
        ensures room { IsFalse self.old.manual → HasRoomOrIsFull (record { key = key.now; value = value.now }) (number_of result)
            self.old.store self.new.store }
        ensures rest { KeepsRest self.old self.new }
    {
        let Some(writer) = writer_of(writer) else {
            return Answer::BadWriter;
        };
        if self.manual {
            self.put_alone(writer, key, value)
        } else {
            self.put_in_room(writer, key, value)
        }
    }

    /// Puts a value where there is room for it.
    fn put_alone(&mut self, writer: WriterNo, key: &[u8], value: &[u8]) -> Answer
        ensures told { Tells writer (Put key.now value.now) (number_of result) self.old.store self.new.store }
        ensures kept { KeepsIfRefused (number_of result) self.old.store self.new.store }
        ensures rest { KeepsRest self.old self.new }
    {
        calls_stay();
        told(self.store.put(writer, key, value))
    }

    /// Puts a value, and wins extents back for it first where there is no room. Behind it frames may move ahead of need.
    fn put_in_room(&mut self, writer: WriterNo, key: &[u8], value: &[u8]) -> Answer
        ensures told { TellsPut writer (record { key = key.now; value = value.now }) (number_of result) self.old.store self.new.store }
        ensures room { HasRoomOrIsFull (record { key = key.now; value = value.now }) (number_of result) self.old.store self.new.store }
        ensures rest { KeepsRest self.old self.new }
    {
        puts_stay();
        told(patch_room::put(&mut self.store, writer, key, value))
    }

    fn get(&self, key: &[u8], into: &mut [u8], len: &mut usize) -> Answer
        ensures { (h : History) → IsStoreOf self.now.store h →
            HasGot h key.now into.old len.old (number_of result, into.new, len.new) }
    {
        match self.store.get(key) {
            Ok(Some(value)) => copy_out(value.as_slice(), into, len),
            Ok(None) => Answer::Absent,
            Err(refusal) => Answer::Refused(refusal.kind()),
        }
    }
}

/// Puts a value under a key, in place of the one that it had. Where no extent has room for it, some are won back first, but of a store
/// that was opened to have that done by `fstch_reclaim` alone.
#[unsafe(no_mangle)]
pub extern "C" fn fstch_put(
    handle: &mut Handle,
    alloc: Global,
    writer: u32,
    key: &[u8],
    value: &[u8],
) -> i32
    ensures open { handle.new.is_open ≡ handle.old.is_open }
    ensures not_open { (result ≡ NOT_OPEN) ↔ IsFalse handle.old.is_open }
    ensures closed { StaysClosed handle.old handle.new }
    ensures told { IfSome (writer_for writer) (λ no. Between handle.old handle.new (λ before after. IsTrue before.manual →
        Tells no (Put key.now value.now) result before.store after.store)) }
    ensures told_in_room { IfSome (writer_for writer) (λ no. Between handle.old handle.new (λ before after. IsFalse before.manual →
        TellsPut no (record { key = key.now; value = value.now }) result before.store after.store)) }
    ensures bad_writer { IsNone (writer_for writer) → IsTrue handle.old.is_open → result ≡ number_of Answer.BadWriter }
    ensures kept { Between handle.old handle.new (λ before after. IsTrue before.manual
        → KeepsIfRefused result before.store after.store) }
    ensures room { Between handle.old handle.new (λ before after. IsFalse before.manual
        → HasRoomOrIsFull (record { key = key.now; value = value.now }) result before.store after.store) }
    ensures rest { Between handle.old handle.new KeepsRest }
{
    let Some(mut opened) = handle.take(alloc) else {
        return NOT_OPEN;
    };
    let answer = opened.put(writer, key, value);
    handle.put_back(opened);
    answer.number()
}

/// Copies the value of a key to the front of a buffer.
#[unsafe(no_mangle)]
pub extern "C" fn fstch_get(
    handle: &mut Handle,
    alloc: Global,
    key: &[u8],
    into: &mut [u8],
    len: &mut usize,
) -> i32
    ensures same { handle.new.sealed.opened ≡ handle.old.sealed.opened }
    ensures not_open { (result ≡ NOT_OPEN) ↔ IsFalse handle.old.is_open }
    ensures closed { StaysClosed handle.old handle.new }
    ensures got { IfSome handle.old.sealed.opened (λ opened. (h : History) → IsStoreOf opened.store h →
        HasGot h key.now into.old len.old (result, into.new, len.new)) }
    ensures refused { IsFalse handle.old.is_open → (into.new ≡ into.old) × (len.new ≡ len.old) }
{
    let Some(opened) = handle.take(alloc) else {
        return NOT_OPEN;
    };
    let answer = opened.get(key, into, len);
    handle.put_back(opened);
    answer.number()
}

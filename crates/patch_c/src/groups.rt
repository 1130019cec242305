//! Groups: an order in which puts and deletes reach the file.
ghost use Rattle.std.specs.Prelude.{ℕ, ◌≡◌, ◌↔◌, IsTrue, IsFalse, IfSome, IsNone};
ghost use Rattle.patch_history.specs.Command.{Group, Engage, Disengage, Depend, CloseGroup, Pending};
ghost use Rattle.patch_handles.specs.Answering.{number_of, engaging_writer as engaging};
ghost use Rattle.patch_c.specs.Answering.{Tells, TellsOf, KeepsUnlessDone};
ghost use Rattle.patch_c.specs.Handle.{Between, KeepsRest, StaysClosed};

use crate::answers::told;
use crate::handle::Handle;
use crate::laws::calls_stay;
use crate::opened::Opened;
use patch_handles::{Answer, NOT_OPEN, engaging_writer};
use patch_model::{GroupNo, Refuses};
use std::alloc::Global;

impl Opened {
    fn create_group(&mut self, group: &mut u32) -> Answer
        ensures told { (writer : ℕ) → TellsOf writer Group (number_of result) group.old group.new self.old.store self.new.store }
        ensures kept { KeepsUnlessDone (number_of result) self.old.store self.new.store }
        ensures rest { KeepsRest self.old self.new }
    {
        calls_stay();
        match self.store.create_group() {
            Ok(made) => {
                *group = number_of_group(made);
                Answer::Done
            }
            Err(refusal) => Answer::Refused(refusal.kind()),
        }
    }

    fn engage(&mut self, group: u32, writer: u32) -> Answer
        ensures told { IfSome (engaging writer) (λ no. Tells no (Engage group) (number_of result) self.old.store self.new.store) }
        ensures bad_writer { IsNone (engaging writer) → result ≡ Answer.BadWriter }
        ensures kept { KeepsUnlessDone (number_of result) self.old.store self.new.store }
        ensures rest { KeepsRest self.old self.new }
    {
        calls_stay();
        let Some(writer) = engaging_writer(writer) else {
            return Answer::BadWriter;
        };
        told(self.store.engage(writer, GroupNo(group)))
    }

    fn disengage(&mut self, group: u32, writer: u32) -> Answer
        ensures told { IfSome (engaging writer) (λ no. Tells no (Disengage group) (number_of result) self.old.store self.new.store) }
        ensures bad_writer { IsNone (engaging writer) → result ≡ Answer.BadWriter }
        ensures kept { KeepsUnlessDone (number_of result) self.old.store self.new.store }
        ensures rest { KeepsRest self.old self.new }
    {
        calls_stay();
        let Some(writer) = engaging_writer(writer) else {
            return Answer::BadWriter;
        };
        told(self.store.disengage(writer, GroupNo(group)))
    }

    fn depend(&mut self, later: u32, earlier: u32) -> Answer
        ensures told { (writer : ℕ) → Tells writer (Depend later earlier) (number_of result) self.old.store self.new.store }
        ensures kept { KeepsUnlessDone (number_of result) self.old.store self.new.store }
        ensures rest { KeepsRest self.old self.new }
    {
        calls_stay();
        told(self.store.depend(GroupNo(later), GroupNo(earlier)))
    }

    fn close_group(&mut self, group: u32) -> Answer
        ensures told { (writer : ℕ) → Tells writer (CloseGroup group) (number_of result) self.old.store self.new.store }
        ensures kept { KeepsUnlessDone (number_of result) self.old.store self.new.store }
        ensures rest { KeepsRest self.old self.new }
    {
        calls_stay();
        told(self.store.close_group(GroupNo(group)))
    }

    fn pending(&self, group: u32, changes: &mut u32) -> Answer
        ensures { (writer : ℕ) → TellsOf writer (Pending group) (number_of result) changes.old changes.new self.now.store self.now.store }
    {
        match self.store.pending(GroupNo(group)) {
            Ok(count) => {
                *changes = count;
                Answer::Done
            }
            Err(refusal) => Answer::Refused(refusal.kind()),
        }
    }
}

fn number_of_group(group: GroupNo) -> u32
    ensures { result ≡ group }
{
    group.0
}

/// Makes a group, and tells its number.
#[unsafe(no_mangle)]
pub extern "C" fn fstch_group(handle: &mut Handle, alloc: Global, group: &mut u32) -> i32
    ensures open { handle.new.is_open ≡ handle.old.is_open }
    ensures not_open { (result ≡ NOT_OPEN) ↔ IsFalse handle.old.is_open }
    ensures closed { StaysClosed handle.old handle.new }
    ensures told { (writer : ℕ) → Between handle.old handle.new (λ before after.
        TellsOf writer Group result group.old group.new before.store after.store) }
    ensures kept { Between handle.old handle.new (λ before after. KeepsUnlessDone result before.store after.store) }
    ensures rest { Between handle.old handle.new KeepsRest }
    ensures refused { IsFalse handle.old.is_open → group.new ≡ group.old }
{
    let Some(mut opened) = handle.take(alloc) else {
        return NOT_OPEN;
    };
    let answer = opened.create_group(group);
    handle.put_back(opened);
    answer.number()
}

/// Lets what a writer changes belong to a group from now on.
#[unsafe(no_mangle)]
pub extern "C" fn fstch_group_engage(
    handle: &mut Handle,
    alloc: Global,
    group: u32,
    writer: u32,
) -> i32
    ensures open { handle.new.is_open ≡ handle.old.is_open }
    ensures not_open { (result ≡ NOT_OPEN) ↔ IsFalse handle.old.is_open }
    ensures closed { StaysClosed handle.old handle.new }
    ensures told { IfSome (engaging writer) (λ no. Between handle.old handle.new (λ before after.
        Tells no (Engage group) result before.store after.store)) }
    ensures bad_writer { IsNone (engaging writer) → IsTrue handle.old.is_open → result ≡ number_of Answer.BadWriter }
    ensures kept { Between handle.old handle.new (λ before after. KeepsUnlessDone result before.store after.store) }
    ensures rest { Between handle.old handle.new KeepsRest }
{
    let Some(mut opened) = handle.take(alloc) else {
        return NOT_OPEN;
    };
    let answer = opened.engage(group, writer);
    handle.put_back(opened);
    answer.number()
}

/// Ends what `fstch_group_engage` began.
#[unsafe(no_mangle)]
pub extern "C" fn fstch_group_disengage(
    handle: &mut Handle,
    alloc: Global,
    group: u32,
    writer: u32,
) -> i32
    ensures open { handle.new.is_open ≡ handle.old.is_open }
    ensures not_open { (result ≡ NOT_OPEN) ↔ IsFalse handle.old.is_open }
    ensures closed { StaysClosed handle.old handle.new }
    ensures told { IfSome (engaging writer) (λ no. Between handle.old handle.new (λ before after.
        Tells no (Disengage group) result before.store after.store)) }
    ensures bad_writer { IsNone (engaging writer) → IsTrue handle.old.is_open → result ≡ number_of Answer.BadWriter }
    ensures kept { Between handle.old handle.new (λ before after. KeepsUnlessDone result before.store after.store) }
    ensures rest { Between handle.old handle.new KeepsRest }
{
    let Some(mut opened) = handle.take(alloc) else {
        return NOT_OPEN;
    };
    let answer = opened.disengage(group, writer);
    handle.put_back(opened);
    answer.number()
}

/// Lets a group go to the file after another.
#[unsafe(no_mangle)]
pub extern "C" fn fstch_group_depend(
    handle: &mut Handle,
    alloc: Global,
    later: u32,
    earlier: u32,
) -> i32
    ensures open { handle.new.is_open ≡ handle.old.is_open }
    ensures not_open { (result ≡ NOT_OPEN) ↔ IsFalse handle.old.is_open }
    ensures closed { StaysClosed handle.old handle.new }
    ensures told { (writer : ℕ) → Between handle.old handle.new (λ before after.
        Tells writer (Depend later earlier) result before.store after.store) }
    ensures kept { Between handle.old handle.new (λ before after. KeepsUnlessDone result before.store after.store) }
    ensures rest { Between handle.old handle.new KeepsRest }
{
    let Some(mut opened) = handle.take(alloc) else {
        return NOT_OPEN;
    };
    let answer = opened.depend(later, earlier);
    handle.put_back(opened);
    answer.number()
}

/// Ends the use of a group's number.
#[unsafe(no_mangle)]
pub extern "C" fn fstch_group_close(handle: &mut Handle, alloc: Global, group: u32) -> i32
    ensures open { handle.new.is_open ≡ handle.old.is_open }
    ensures not_open { (result ≡ NOT_OPEN) ↔ IsFalse handle.old.is_open }
    ensures closed { StaysClosed handle.old handle.new }
    ensures told { (writer : ℕ) → Between handle.old handle.new (λ before after.
        Tells writer (CloseGroup group) result before.store after.store) }
    ensures kept { Between handle.old handle.new (λ before after. KeepsUnlessDone result before.store after.store) }
    ensures rest { Between handle.old handle.new KeepsRest }
{
    let Some(mut opened) = handle.take(alloc) else {
        return NOT_OPEN;
    };
    let answer = opened.close_group(group);
    handle.put_back(opened);
    answer.number()
}

/// Counts the patches of a group that haven't reached the file.
#[unsafe(no_mangle)]
pub extern "C" fn fstch_group_pending(
    handle: &mut Handle,
    alloc: Global,
    group: u32,
    changes: &mut u32,
) -> i32
    ensures same { handle.new.sealed.opened ≡ handle.old.sealed.opened }
    ensures not_open { (result ≡ NOT_OPEN) ↔ IsFalse handle.old.is_open }
    ensures closed { StaysClosed handle.old handle.new }
    ensures told { (writer : ℕ) → IfSome handle.old.sealed.opened (λ opened.
        TellsOf writer (Pending group) result changes.old changes.new opened.store opened.store) }
    ensures refused { IsFalse handle.old.is_open → changes.new ≡ changes.old }
{
    let Some(opened) = handle.take(alloc) else {
        return NOT_OPEN;
    };
    let answer = opened.pending(group, changes);
    handle.put_back(opened);
    answer.number()
}

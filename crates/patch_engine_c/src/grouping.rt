//! The groups of a cache's patches.
ghost use Rattle.std.specs.Prelude.{◌≡◌, ◌↔◌, IsFalse};
ghost use Rattle.patch_handles.specs.Answering.{number_of};
ghost use Rattle.patch_engine_c.specs.Handle.{StaysClosed, Between, OfCache};
ghost use Rattle.patch_engine_c.specs.Grouping.{TellsGroup, TellsEngaging, TellsDisengaging, TellsDepending, TellsClosing, TellsPending};

use crate::handle::Handle;
use crate::numbers::number_of_group;
use crate::opened::Opened;
use patch_handles::{Answer, NOT_OPEN, engaging_writer, told};
use patch_model::{GroupNo, Refuses};
use std::alloc::Global;

impl Opened {
    fn create_group(&mut self, group: &mut u32) -> Answer
        ensures { TellsGroup (number_of result) group.old group.new self.old.engine self.new.engine }
    {
        match self.engine.group() {
            Ok(made) => {
                *group = number_of_group(made);
                Answer::Done
            }
            Err(refusal) => Answer::Refused(refusal.kind()),
        }
    }

    fn engage(&mut self, group: u32, writer: u32) -> Answer
        ensures { TellsEngaging (number_of result) group writer self.old.engine self.new.engine }
    {
        let Some(writer) = engaging_writer(writer) else {
            return Answer::BadWriter;
        };
        told(self.engine.engage(writer, GroupNo(group)))
    }

    fn disengage(&mut self, group: u32, writer: u32) -> Answer
        ensures { TellsDisengaging (number_of result) group writer self.old.engine self.new.engine }
    {
        let Some(writer) = engaging_writer(writer) else {
            return Answer::BadWriter;
        };
        told(self.engine.disengage(writer, GroupNo(group)))
    }

    fn depend(&mut self, later: u32, earlier: u32) -> Answer
        ensures { TellsDepending (number_of result) later earlier self.old.engine self.new.engine }
    {
        told(self.engine.depend(GroupNo(later), GroupNo(earlier)))
    }

    fn close_group(&mut self, group: u32) -> Answer
        ensures { TellsClosing (number_of result) group self.old.engine self.new.engine }
    {
        told(self.engine.close_group(GroupNo(group)))
    }

    fn pending(&self, group: u32, changes: &mut u32) -> Answer
        ensures { TellsPending (number_of result) group changes.old changes.new self.now.engine }
    {
        match self.engine.pending(GroupNo(group)) {
            Ok(count) => {
                *changes = count;
                Answer::Done
            }
            Err(refusal) => Answer::Refused(refusal.kind()),
        }
    }
}

/// Makes a group, and tells its number.
#[unsafe(no_mangle)]
pub extern "C" fn fstch_cache_group(handle: &mut Handle, alloc: Global, group: &mut u32) -> i32
    ensures open { handle.new.is_open ≡ handle.old.is_open }
    ensures not_open { (result ≡ NOT_OPEN) ↔ IsFalse handle.old.is_open }
    ensures closed { StaysClosed handle.old handle.new }
    ensures told { Between handle.old handle.new (TellsGroup result group.old group.new) }
    ensures refused { IsFalse handle.old.is_open → group.new ≡ group.old }
{
    let Some(mut opened) = handle.take(alloc) else {
        return NOT_OPEN;
    };
    let answer = opened.create_group(group);
    handle.put_back(opened);
    answer.number()
}

/// Lets a writer's patches belong to a group from now on.
#[unsafe(no_mangle)]
pub extern "C" fn fstch_cache_group_engage(
    handle: &mut Handle,
    alloc: Global,
    group: u32,
    writer: u32,
) -> i32
    ensures open { handle.new.is_open ≡ handle.old.is_open }
    ensures not_open { (result ≡ NOT_OPEN) ↔ IsFalse handle.old.is_open }
    ensures closed { StaysClosed handle.old handle.new }
    ensures told { Between handle.old handle.new (TellsEngaging result group writer) }
{
    let Some(mut opened) = handle.take(alloc) else {
        return NOT_OPEN;
    };
    let answer = opened.engage(group, writer);
    handle.put_back(opened);
    answer.number()
}

/// Ends what `fstch_cache_group_engage` began.
#[unsafe(no_mangle)]
pub extern "C" fn fstch_cache_group_disengage(
    handle: &mut Handle,
    alloc: Global,
    group: u32,
    writer: u32,
) -> i32
    ensures open { handle.new.is_open ≡ handle.old.is_open }
    ensures not_open { (result ≡ NOT_OPEN) ↔ IsFalse handle.old.is_open }
    ensures closed { StaysClosed handle.old handle.new }
    ensures told { Between handle.old handle.new (TellsDisengaging result group writer) }
{
    let Some(mut opened) = handle.take(alloc) else {
        return NOT_OPEN;
    };
    let answer = opened.disengage(group, writer);
    handle.put_back(opened);
    answer.number()
}

/// Lets a group go to the disk after another.
#[unsafe(no_mangle)]
pub extern "C" fn fstch_cache_group_depend(
    handle: &mut Handle,
    alloc: Global,
    later: u32,
    earlier: u32,
) -> i32
    ensures open { handle.new.is_open ≡ handle.old.is_open }
    ensures not_open { (result ≡ NOT_OPEN) ↔ IsFalse handle.old.is_open }
    ensures closed { StaysClosed handle.old handle.new }
    ensures told { Between handle.old handle.new (TellsDepending result later earlier) }
{
    let Some(mut opened) = handle.take(alloc) else {
        return NOT_OPEN;
    };
    let answer = opened.depend(later, earlier);
    handle.put_back(opened);
    answer.number()
}

/// Ends the use of a group's number. Its patches and its place in the order stay.
#[unsafe(no_mangle)]
pub extern "C" fn fstch_cache_group_close(handle: &mut Handle, alloc: Global, group: u32) -> i32
    ensures open { handle.new.is_open ≡ handle.old.is_open }
    ensures not_open { (result ≡ NOT_OPEN) ↔ IsFalse handle.old.is_open }
    ensures closed { StaysClosed handle.old handle.new }
    ensures told { Between handle.old handle.new (TellsClosing result group) }
{
    let Some(mut opened) = handle.take(alloc) else {
        return NOT_OPEN;
    };
    let answer = opened.close_group(group);
    handle.put_back(opened);
    answer.number()
}

/// Counts the patches of a group that aren't on the disk yet.
#[unsafe(no_mangle)]
pub extern "C" fn fstch_cache_group_pending(
    handle: &mut Handle,
    alloc: Global,
    group: u32,
    changes: &mut u32,
) -> i32
    ensures same { handle.new.sealed.opened ≡ handle.old.sealed.opened }
    ensures not_open { (result ≡ NOT_OPEN) ↔ IsFalse handle.old.is_open }
    ensures closed { StaysClosed handle.old handle.new }
    ensures told { OfCache handle.old (TellsPending result group changes.old changes.new) }
    ensures refused { IsFalse handle.old.is_open → changes.new ≡ changes.old }
{
    let Some(opened) = handle.take(alloc) else {
        return NOT_OPEN;
    };
    let answer = opened.pending(group, changes);
    handle.put_back(opened);
    answer.number()
}

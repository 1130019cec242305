//! What is asked of a cache with groups, and what it answers.
use crate::refusals::GroupRefusal;
use patch_cache::{Answer, Ask};
use patch_model::{BlockNo, Bytes, GroupNo, Numbers, Undo, WriterNo};
use std::alloc::{Allocator, Global};

/// An ask of a list that [`run`](crate::Groups::run) goes through.
#[derive(Debug, Drop)]
pub enum GroupAsk<A: Allocator = Global> {
    /// An ask of the cache. A patch that is made by it is of no writer.
    Plain(Ask<A>),
    /// To make a patch of a writer.
    Patch {
        writer: WriterNo,
        block: BlockNo,
        start: usize,
        bytes: Bytes<A>,
        after: Numbers<A>,
        undo: Undo,
    },
    /// To make a group.
    Group,
    /// To let a writer's patches belong to a group from now on.
    Engage {
        writer: WriterNo,
        group: GroupNo,
    },
    /// To end that.
    Disengage {
        writer: WriterNo,
        group: GroupNo,
    },
    /// To let a group depend on another.
    Depend {
        group: GroupNo,
        on: GroupNo,
    },
    /// To let a group be none from now on. Its patches and its place in the order stay.
    Close {
        group: GroupNo,
    },
    /// To count the patches of a group that aren't on the disk yet.
    Pending {
        group: GroupNo,
    },
}

/// What an ask is answered.
#[derive(Debug, Drop)]
pub enum GroupAnswer<A: Allocator = Global> {
    /// The cache's answer, to its asks and to patches of writers.
    Plain(Answer<A>),
    /// The number of the group that was made.
    GroupMade(GroupNo),
    /// The group was engaged, disengaged, ordered or closed.
    Done,
    /// How many patches of the group are pending.
    Count(u32),
    /// The refusal of a call of groups.
    Refused(GroupRefusal),
}

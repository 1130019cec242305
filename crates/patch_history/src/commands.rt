//! What is asked of a store, and what it answers.
use patch_model::{Bytes, GroupNo, Refusal};
use std::alloc::{Allocator, Global};

/// A command of a list that a store goes through. The writer stands beside it.
#[derive(Debug, Drop)]
pub enum Command<A: Allocator = Global> {
    /// To put a value of bytes under a key of 1 to 32 bytes.
    Put { key: Bytes<A>, value: Bytes<A> },
    /// To read the value of a key.
    Get { key: Bytes<A> },
    /// To take a key away.
    Delete { key: Bytes<A> },
    /// To win an extent back: its live frames move, and it is emptied.
    Reclaim { extent: u32 },
    /// To make the disk one of version 2.
    Upgrade,
    /// To make a group.
    Group,
    /// To let the writer's patches belong to a group from now on.
    Engage { group: GroupNo },
    /// To end that.
    Disengage { group: GroupNo },
    /// To let a group depend on another.
    Depend { group: GroupNo, on: GroupNo },
    /// To let a group be none from now on.
    CloseGroup { group: GroupNo },
    /// To count the patches of a group that aren't on the disk yet.
    Pending { group: GroupNo },
}

/// What a command is answered.
#[derive(Debug, Drop)]
pub enum Reply<A: Allocator = Global> {
    Done,
    /// The value of the key.
    Value(Bytes<A>),
    /// The key has no value.
    Absent,
    /// The number of the group that was made.
    GroupMade(GroupNo),
    /// How many patches of the group are pending.
    Count(u32),
    Refused(Refusal),
}

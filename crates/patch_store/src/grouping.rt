//! The calls of groups.
ghost use Rattle.std.specs.Prelude.{◌≡◌, ℕ, length, OnErr};
ghost use Rattle.patch_group.specs.Refusals.{group_cause};
ghost use Rattle.patch_history.specs.Command.{Group, Engage, Disengage, Depend, CloseGroup, Pending, Done, GroupMade, Count};
ghost use Rattle.patch_store.specs.Meaning.{Answers};
ghost use Rattle.patch_store.specs.Replies.{reply_to};

use crate::stores::Store;
use patch_group::GroupRefusal;
use patch_history::laws as history_laws;
use patch_model::{GroupNo, WriterNo};
use std::alloc::Allocator;

impl<A: Allocator + Copy> Store<A> {
    /// Makes a group. Its number is the next one; numbers aren't used again before the store begins anew.
    pub fn create_group(&mut self) -> Result<GroupNo, GroupRefusal>
        ensures answer { (writer : ℕ) → Answers writer Group (reply_to group_cause (λ group. GroupMade group) result) self.old self.new }
        ensures refused { OnErr result (self.new ≡ self.old) }
    {
        history_laws::histories_extend();
        self.groups.create()
    }

    /// Lets the writer's patches belong to the group from now on.
    pub fn engage(&mut self, writer: WriterNo, group: GroupNo) -> Result<(), GroupRefusal>
        ensures answer { Answers writer (Engage group) (reply_to group_cause (λ _. Done) result) self.old self.new }
        ensures refused { OnErr result (self.new ≡ self.old) }
    {
        history_laws::histories_extend();
        self.groups.engage(writer, group)
    }

    /// Ends what `engage` began. It takes no memory.
    pub fn disengage(&mut self, writer: WriterNo, group: GroupNo) -> Result<(), GroupRefusal>
        ensures answer { Answers writer (Disengage group) (reply_to group_cause (λ _. Done) result) self.old self.new }
        ensures refused { OnErr result (self.new ≡ self.old) }
    {
        history_laws::histories_extend();
        self.groups.disengage(writer, group)
    }

    /// Lets a group go to the disk after another.
    pub fn depend(&mut self, group: GroupNo, on: GroupNo) -> Result<(), GroupRefusal>
        ensures answer { (writer : ℕ) → Answers writer (Depend group on) (reply_to group_cause (λ _. Done) result) self.old self.new }
        ensures refused { OnErr result (self.new ≡ self.old) }
    {
        history_laws::histories_extend();
        self.groups.depend(group, on)
    }

    /// Closes the group: to all later calls it is none. Its patches and its place in the order stay. It takes no memory.
    pub fn close_group(&mut self, group: GroupNo) -> Result<(), GroupRefusal>
        ensures answer { (writer : ℕ) → Answers writer (CloseGroup group) (reply_to group_cause (λ _. Done) result) self.old self.new }
        ensures refused { OnErr result (self.new ≡ self.old) }
    {
        history_laws::histories_extend();
        self.groups.close(group)
    }

    /// How many groups were made, closed ones counted, since the store was opened or began anew.
    pub fn groups_made(&self) -> u32
        ensures { result ≡ length self.now.groups.groups }
    {
        self.groups.count()
    }

    /// How many patches of the group aren't on the disk yet. It takes no memory.
    pub fn pending(&self, group: GroupNo) -> Result<u32, GroupRefusal>
        ensures { (writer : ℕ) → Answers writer (Pending group) (reply_to group_cause (λ count. Count count) result) self.now self.now }
    {
        history_laws::histories_extend();
        history_laws::standings_run();
        history_laws::groups_are_kept();
        self.groups.pending(group, &self.cache)
    }
}

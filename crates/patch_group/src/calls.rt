//! Groups, and the calls that begin, engage, order and close them.
ghost use Rattle.std.specs.Prelude.{◌≡◌, ◌≢◌, ◌<◌, ◌++◌, ◌∷◌, [], Some, None, true, false, length, option_map, IfOk, IfErr, OnOk, OnErr, IsNone};
ghost use Rattle.std.specs.List.{list_any};
ghost use Rattle.patch_cache.specs.Refusals.{IsCause};
ghost use Rattle.patch_plans.specs.Groups.{no_groups, is_open, is_engaged_by, is_engaged, why_not_begun, why_not_engaged, why_not_disengaged, why_not_closed, begun, engaged, disengaged, closed};
ghost use Rattle.patch_group.specs.Refusals.{group_cause};
ghost use Rattle.patch_group.specs.Records.{group_of};
ghost use Rattle.patch_group.specs.Renewing.{is_in_use, why_not_renewed};
ghost use Rattle.patch_model.specs.Refusing.{bare};
ghost use Rattle.patch_model.specs.declared.refusals.RefusalKind.TheVariants as kind;

use crate::records::{Before, Record};
use crate::refusals::GroupRefusal;
use patch_cache::Live;
use patch_model::{GroupNo, OutOfMemory, WriterNo};
use patch_plans::MAX_GROUPS;
use std::alloc::{Allocator, Global};
use std::marker::Model;

/// The groups of the patches of one cache.
///
/// A patch that a writer makes belongs to each group that the writer has engaged, and it depends on all patches of all groups
/// before these. A group depends on another by `depend`, before it is engaged for the first time; from then on the other
/// is sealed: it is never engaged again and depends on no further group. So what is before a group is all there when its first
/// patch is made.
///
/// What a writer's patches come after is found with the first of them and kept, while engagements and orders stay as they are.
#[derive(Drop)]
pub struct Groups<A: Allocator + Copy = Global> {
    pub(crate) alloc: A,
    pub(crate) groups: Vec<Record<A>, A>,
    pub(crate) engaged: Vec<(WriterNo, GroupNo), A>,
    pub(crate) before: Vec<Before<A>, A>,
}

impl<A: Allocator + Copy> Model for Groups<A> {
    ghost use Rattle.std.specs.Prelude.{◌≤◌, length};
    ghost use Rattle.patch_plans.specs.Groups.{Groups as State, AreApart};
    ghost use Rattle.patch_group.specs.Records.{groups_of, AreBefore, AreSealed};
    ghost use Rattle.patch_plans.specs.declared.limits.TheConstants.{MAX_GROUPS};

    ghost Value = { State };

    ghost view = { λ c. groups_of c.groups.items c.engaged.items };

    ghost invariant = { λ c. (length c.groups.items ≤ MAX_GROUPS) × AreApart c.engaged.items
        × AreBefore (groups_of c.groups.items c.engaged.items) c.before.items
        × AreSealed (groups_of c.groups.items c.engaged.items) };
}

impl<A: Allocator + Copy> Groups<A> {
    /// No groups. It takes no memory.
    pub fn new(alloc: A) -> Groups<A>
        ensures { result ≡ no_groups }
    {
        Groups {
            alloc,
            groups: Vec::new(alloc),
            engaged: Vec::new(alloc),
            before: Vec::new(alloc),
        }
    }

    /// Makes a group. Its number is the next one; numbers aren't used again.
    pub fn create(&mut self) -> Result<GroupNo, GroupRefusal>
        ensures made { IfOk result (λ group. (why_not_begun self.old ≡ None) × (group ≡ length self.old.groups) × (self.new ≡ begun self.old)) }
        ensures cause { IfErr result (λ refusal. IsCause (why_not_begun self.old) (group_cause refusal)) }
        ensures refused { OnErr result (self.new ≡ self.old) }
    {
        let made = self.groups.len();
        if made >= MAX_GROUPS {
            return Err(GroupRefusal::TooManyGroups);
        }
        self.groups.reserve(1)?;
        self.before.clear();
        self.groups.push_reserved(Record {
            started: false,
            sealed: false,
            closed: false,
            before: Vec::new(self.alloc),
            runs: Vec::new(self.alloc),
        });
        Ok(GroupNo(made as u32))
    }

    /// Lets the writer's patches belong to the group from now on.
    pub fn engage(&mut self, writer: WriterNo, group: GroupNo) -> Result<(), GroupRefusal>
        ensures done { OnOk result ((why_not_engaged self.old writer group ≡ None) × (self.new ≡ engaged self.old writer group)) }
        ensures cause { IfErr result (λ refusal. IsCause (why_not_engaged self.old writer group) (group_cause refusal)) }
        ensures refused { OnErr result (self.new ≡ self.old) }
    {
        if let Some(refusal) = self.why_not_engaged(writer, group) {
            return Err(refusal);
        }
        self.engaged.reserve(1)?;
        self.before.clear();
        let record = &mut self.groups[group.0 as usize];
        record.started = true;
        self.engaged.push_reserved((writer, group));
        Ok(())
    }

    /// The first cause against the writer's engaging the group.
    fn why_not_engaged(&self, writer: WriterNo, group: GroupNo) -> Option<GroupRefusal>
        ensures cause { option_map group_cause result ≡ why_not_engaged self.now writer group }
        ensures known { IsNone result → group < length self.now.groups }
        ensures new { IsNone result → is_engaged_by self.now writer group ≡ false }
    {
        if !self.is_open(group) {
            return Some(GroupRefusal::NoSuchGroup);
        }
        if self.groups[group.0 as usize].sealed {
            return Some(GroupRefusal::Sealed);
        }
        if self.is_engaged_by(writer, group) {
            return Some(GroupRefusal::Engaged);
        }
        None
    }

    /// Ends what `engage` began.
    pub fn disengage(&mut self, writer: WriterNo, group: GroupNo) -> Result<(), GroupRefusal>
        ensures done { OnOk result ((why_not_disengaged self.old writer group ≡ None) × (self.new ≡ disengaged self.old writer group)) }
        ensures cause { IfErr result (λ refusal. why_not_disengaged self.old writer group ≡ Some (group_cause refusal)) }
        ensures refused { OnErr result (self.new ≡ self.old) }
    {
        if !self.is_open(group) {
            return Err(GroupRefusal::NoSuchGroup);
        }
        if !self.is_engaged_by(writer, group) {
            return Err(GroupRefusal::NotEngaged);
        }
        self.before.clear();
        self.engaged.retain(|engagement| !(engagement.0 == writer && engagement.1 == group));
        Ok(())
    }

    /// Closes the group: to all later calls it is none. Its patches and its place in the order stay.
    pub fn close(&mut self, group: GroupNo) -> Result<(), GroupRefusal>
        ensures done { OnOk result ((why_not_closed self.old group ≡ None) × (self.new ≡ closed self.old group)) }
        ensures cause { IfErr result (λ refusal. why_not_closed self.old group ≡ Some (group_cause refusal)) }
        ensures refused { OnErr result (self.new ≡ self.old) }
    {
        if !self.is_open(group) {
            return Err(GroupRefusal::NoSuchGroup);
        }
        if self.is_engaged(group) {
            return Err(GroupRefusal::Engaged);
        }
        self.before.clear();
        let record = &mut self.groups[group.0 as usize];
        record.closed = true;
        Ok(())
    }

    /// How many groups were made, closed ones counted, since there were none or it began anew.
    pub fn count(&self) -> u32
        ensures { result ≡ length self.now.groups }
    {
        self.groups.len() as u32
    }

    /// Begins anew where each group is closed or was never engaged: there is no group then, and the next one has the number 0. It
    /// takes no memory.
    pub fn renew(&mut self) -> Result<(), Live>
        ensures done { OnOk result ((why_not_renewed self.old ≡ None) × (self.new ≡ no_groups)) }
        ensures cause { OnErr result (why_not_renewed self.old ≡ Some (bare kind.Live)) }
        ensures refused { OnErr result (self.new ≡ self.old) }
    {
        if is_any_in_use(&self.groups) {
            return Err(Live);
        }
        self.groups.clear();
        self.engaged.clear();
        self.before.clear();
        Ok(())
    }

    /// Whether there is a group of this number that wasn't closed.
    pub(crate) fn is_open(&self, group: GroupNo) -> bool
        ensures answer { result ≡ is_open self.now group }
        ensures known { result ≡ true → group < length self.now.groups }
    {
        match self.groups.get(group.0 as usize) {
            Some(record) => !record.closed,
            None => false,
        }
    }

    /// Whether this writer has engaged the group.
    fn is_engaged_by(&self, writer: WriterNo, group: GroupNo) -> bool
        ensures { result ≡ is_engaged_by self.now writer group }
    {
        self.engaged.iter().any(|engagement| engagement.0 == writer && engagement.1 == group)
    }

    /// Whether some writer has engaged the group.
    pub(crate) fn is_engaged(&self, group: GroupNo) -> bool
        ensures { result ≡ is_engaged self.now group }
    {
        self.engaged.iter().any(|engagement| engagement.1 == group)
    }
}

/// Whether a group of these was engaged and not closed.
fn is_any_in_use<A: Allocator>(records: &[Record<A>]) -> bool
    ensures { result ≡ list_any (λ kept. is_in_use (group_of kept)) records.now }
{
    records
        .iter()
        .any(|record| record.started && !record.closed)
}

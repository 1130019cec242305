//! The groups of an engine's patches.
ghost use Rattle.std.specs.Prelude.{◌≡◌, None, Some, length, IfOk, IfErr, OnOk, OnErr};
ghost use Rattle.patch_model.specs.Execution.{Execution};
ghost use Rattle.patch_model.specs.State.{entries_of};
ghost use Rattle.patch_cache.specs.Refusals.{IsCause};
ghost use Rattle.patch_plans.specs.Groups.{why_not_begun, why_not_engaged, why_not_disengaged, why_not_ordered, why_not_closed, why_not_counted, begun, engaged, disengaged, ordered, closed, pending};
ghost use Rattle.patch_group.specs.Refusals.{group_cause};
ghost use Rattle.patch_engine.specs.Meaning.{IsEngineOf, KeepsCache};

use crate::engines::Engine;
use patch_group::GroupRefusal;
use patch_model::{GroupNo, WriterNo};
use patch_plans::laws as plan_laws;
use std::alloc::Allocator;

impl<A: Allocator + Copy> Engine<A> {
    /// Makes a group. Its number is the next one; numbers aren't used again until the engine begins anew.
    pub fn group(&mut self) -> Result<GroupNo, GroupRefusal>
        ensures made { IfOk result (λ group.
            (why_not_begun self.old.groups ≡ None) × (group ≡ length self.old.groups.groups) × (self.new.groups ≡ begun self.old.groups)) }
        ensures stands { (run : Execution) → IsEngineOf self.old run → OnOk result (IsEngineOf self.new run) }
        ensures cause { IfErr result (λ refusal. IsCause (why_not_begun self.old.groups) (group_cause refusal)) }
        ensures rest { KeepsCache self.old self.new }
        ensures refused { OnErr result (self.new ≡ self.old) }
    {
        plan_laws::order_is_kept();
        self.groups.create()
    }

    /// Lets the writer's patches belong to the group from now on.
    pub fn engage(&mut self, writer: WriterNo, group: GroupNo) -> Result<(), GroupRefusal>
        ensures done { OnOk result ((why_not_engaged self.old.groups writer group ≡ None) × (self.new.groups ≡ engaged self.old.groups writer group)) }
        ensures stands { (run : Execution) → IsEngineOf self.old run → OnOk result (IsEngineOf self.new run) }
        ensures cause { IfErr result (λ refusal. IsCause (why_not_engaged self.old.groups writer group) (group_cause refusal)) }
        ensures rest { KeepsCache self.old self.new }
        ensures refused { OnErr result (self.new ≡ self.old) }
    {
        plan_laws::order_is_kept();
        self.groups.engage(writer, group)
    }

    /// Ends what `engage` began.
    pub fn disengage(&mut self, writer: WriterNo, group: GroupNo) -> Result<(), GroupRefusal>
        ensures done { OnOk result ((why_not_disengaged self.old.groups writer group ≡ None) × (self.new.groups ≡ disengaged self.old.groups writer group)) }
        ensures stands { (run : Execution) → IsEngineOf self.old run → OnOk result (IsEngineOf self.new run) }
        ensures cause { IfErr result (λ refusal. why_not_disengaged self.old.groups writer group ≡ Some (group_cause refusal)) }
        ensures rest { KeepsCache self.old self.new }
        ensures refused { OnErr result (self.new ≡ self.old) }
    {
        plan_laws::order_is_kept();
        self.groups.disengage(writer, group)
    }

    /// Lets the group depend on another, which is sealed by that. An order that is there already changes nothing.
    pub fn depend(&mut self, group: GroupNo, on: GroupNo) -> Result<(), GroupRefusal>
        ensures done { OnOk result ((why_not_ordered self.old.groups group on ≡ None) × (self.new.groups ≡ ordered self.old.groups group on)) }
        ensures stands { (run : Execution) → IsEngineOf self.old run → OnOk result (IsEngineOf self.new run) }
        ensures cause { IfErr result (λ refusal. IsCause (why_not_ordered self.old.groups group on) (group_cause refusal)) }
        ensures rest { KeepsCache self.old self.new }
        ensures refused { OnErr result (self.new ≡ self.old) }
    {
        plan_laws::order_is_kept();
        self.groups.depend(group, on)
    }

    /// Closes the group: to all later calls it is none. Its patches and its place in the order stay.
    pub fn close_group(&mut self, group: GroupNo) -> Result<(), GroupRefusal>
        ensures done { OnOk result ((why_not_closed self.old.groups group ≡ None) × (self.new.groups ≡ closed self.old.groups group)) }
        ensures stands { (run : Execution) → IsEngineOf self.old run → OnOk result (IsEngineOf self.new run) }
        ensures cause { IfErr result (λ refusal. why_not_closed self.old.groups group ≡ Some (group_cause refusal)) }
        ensures rest { KeepsCache self.old self.new }
        ensures refused { OnErr result (self.new ≡ self.old) }
    {
        plan_laws::order_is_kept();
        self.groups.close(group)
    }

    /// How many patches of the group aren't on the disk yet. It takes no memory.
    pub fn pending(&self, group: GroupNo) -> Result<u32, GroupRefusal>
        ensures count { (run : Execution) → IsEngineOf self.now run
            → IfOk result (λ count. count ≡ pending (entries_of run) self.now.groups group) }
        ensures known { OnOk result (why_not_counted self.now.groups group ≡ None) }
        ensures cause { IfErr result (λ refusal. why_not_counted self.now.groups group ≡ Some (group_cause refusal)) }
    {
        self.groups.pending(group, &self.cache)
    }
}

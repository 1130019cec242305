//! How many patches of a group are not on the disk yet.
ghost use Rattle.std.specs.Prelude.{◌≡◌, ◌+◌, ◌∷◌, [], Some, None, min, count_by, not, IfOk, IfErr, OnOk};
ghost use Rattle.patch_model.specs.Execution.{Execution};
ghost use Rattle.patch_model.specs.Entry.{marks_durable};
ghost use Rattle.patch_model.specs.State.{entries_of};
ghost use Rattle.patch_cache.specs.Meaning.{IsCacheOf, IsPagedCacheOf};
ghost use Rattle.patch_plans.specs.Groups.{why_not_counted, pending};
ghost use Rattle.patch_plans.specs.Groups as groups;
ghost use Rattle.patch_plans.specs.Order.{AreGroupsOf};
ghost use Rattle.patch_model.specs.Runs.{numbers_of, numbers_in};
ghost use Rattle.patch_group.specs.Pending.{NonePendingBelow};
ghost use Rattle.patch_group.specs.Refusals.{group_cause};

use crate::calls::Groups;
use crate::laws;
use crate::refusals::GroupRefusal;
use patch_cache::{Cache, laws as cache_laws};
use patch_model::{GroupNo, Mark, PatchNo, Run, laws as model_laws};
use std::alloc::Allocator;

impl<A: Allocator + Copy> Groups<A> {
    /// How many patches of the group aren't on the disk yet. It takes no memory.
    pub fn pending(&self, group: GroupNo, cache: &Cache<A>) -> Result<u32, GroupRefusal>
        ensures count { (run : Execution) → IsCacheOf cache.now run → AreGroupsOf run self.now
            → IfOk result (λ count. count ≡ pending (entries_of run) self.now group) }
        ensures count_paged { (run : Execution) → IsPagedCacheOf cache.now run → AreGroupsOf run self.now
            → IfOk result (λ count. count ≡ pending (entries_of run) self.now group) }
        ensures known { OnOk result (why_not_counted self.now group ≡ None) }
        ensures cause { IfErr result (λ refusal. why_not_counted self.now group ≡ Some (group_cause refusal)) }
    {
        laws::groups_are_small();
        cache_laws::whole_caches_are_paged();
        model_laws::executions_are_limited();
        if !self.is_open(group) {
            return Err(GroupRefusal::NoSuchGroup);
        }
        let record = &self.groups[group.0 as usize];
        Ok(count_pending(cache, record.runs.as_slice()))
    }
}

/// How many patches of these runs are pending, up to the greatest count.
fn count_pending<A: Allocator + Copy>(cache: &Cache<A>, runs: &[Run]) -> u32
    ensures { (run : Execution) → IsPagedCacheOf cache.now run
        → result ≡ min (count_by (groups.is_pending (entries_of run)) (numbers_in runs.now)) 4294967295 }
{
    let from = none_pending_below(cache);
    let mut count = 0;
    for run in runs {
        count = count_run(cache, run, from, count);
    }
    count
}

/// The count with those of one run. None below `from` is looked at.
fn count_run<A: Allocator + Copy>(cache: &Cache<A>, numbers: &Run, from: u32, before: u32) -> u32
    requires { (run : Execution) → IsPagedCacheOf cache.now run → NonePendingBelow run from }
    ensures { (run : Execution) → IsPagedCacheOf cache.now run
        → result ≡ min (before + count_by (groups.is_pending (entries_of run)) (numbers_of numbers.now)) 4294967295 }
{
    if numbers.last < from {
        return before;
    }
    let mut count = before;
    let first = numbers.first.max(from);
    for no in first..numbers.last {
        count = count_if_pending(cache, PatchNo(no), count);
    }
    count_if_pending(cache, PatchNo(numbers.last), count)
}

/// The count with this patch, if it is pending.
fn count_if_pending<A: Allocator + Copy>(cache: &Cache<A>, no: PatchNo, before: u32) -> u32
    ensures { (run : Execution) → IsPagedCacheOf cache.now run
        → result ≡ min (before + count_by (groups.is_pending (entries_of run)) (no ∷ [])) 4294967295 }
{
    if is_pending(cache, no) {
        before.saturating_add(1)
    } else {
        before
    }
}

/// A number below which no patch is pending: each that was made is on the disk. So of a group only those from there on are looked
/// at, however many it ever had.
pub(crate) fn none_pending_below<A: Allocator + Copy>(cache: &Cache<A>) -> u32
    ensures answer { (run : Execution) → IsCacheOf cache.now run → NonePendingBelow run result }
    ensures paged { (run : Execution) → IsPagedCacheOf cache.now run → NonePendingBelow run result }
{
    model_laws::executions_are_orderly();
    cache.durable_below()
}

/// Whether a patch was made and isn't on the disk yet.
pub(crate) fn is_pending<A: Allocator + Copy>(cache: &Cache<A>, no: PatchNo) -> bool
    ensures answer { (run : Execution) → IsCacheOf cache.now run → result ≡ groups.is_pending (entries_of run) no }
    ensures paged { (run : Execution) → IsPagedCacheOf cache.now run → result ≡ groups.is_pending (entries_of run) no }
{
    model_laws::executions_are_orderly();
    match cache.mark_of(no) {
        Some(mark) => lives(mark),
        None => false,
    }
}

/// Whether a patch of this mark isn't on the disk yet.
fn lives(mark: Mark) -> bool
    ensures { result ≡ not (marks_durable mark) }
{
    match mark {
        Mark::Memory => true,
        Mark::Flight => true,
        Mark::Durable => false,
    }
}

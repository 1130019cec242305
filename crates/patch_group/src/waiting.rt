//! Which patches of a group are not on the disk yet.
ghost use Rattle.std.specs.Prelude.{◌≡◌, ◌++◌, ◌∷◌, [], filter, IfOk, OnOk};
ghost use Rattle.patch_model.specs.Execution.{Execution};
ghost use Rattle.patch_model.specs.State.{entries_of};
ghost use Rattle.patch_cache.specs.Meaning.{IsCacheOf};
ghost use Rattle.patch_plans.specs.Groups.{patches_of};
ghost use Rattle.patch_plans.specs.Groups as groups;
ghost use Rattle.patch_model.specs.Runs.{numbers_of, numbers_in};
ghost use Rattle.patch_group.specs.Pending.{NonePendingBelow};

use crate::calls::Groups;
use crate::counting::{is_pending, none_pending_below};
use patch_cache::Cache;
use patch_model::{GroupNo, OutOfMemory, PatchNo, Run};
use std::alloc::Allocator;

impl<A: Allocator + Copy> Groups<A> {
    /// The patches of the group that aren't on the disk yet.
    pub(crate) fn list_pending(
        &self,
        group: GroupNo,
        cache: &Cache<A>,
    ) -> Result<Vec<PatchNo, A>, OutOfMemory>
        ensures { (run : Execution) → IsCacheOf cache.now run
            → IfOk result (λ waiting. waiting.items ≡ filter (groups.is_pending (entries_of run)) (patches_of self.now group)) }
    {
        let mut waiting = Vec::new(self.alloc);
        if let Some(record) = self.groups.get(group.0 as usize) {
            wait_for_each(cache, record.runs.as_slice(), &mut waiting)?;
        }
        Ok(waiting)
    }
}

/// Puts the pending patches of the runs behind those that are listed.
fn wait_for_each<A: Allocator + Copy>(
    cache: &Cache<A>,
    runs: &[Run],
    waiting: &mut Vec<PatchNo, A>,
) -> Result<(), OutOfMemory>
    ensures { (run : Execution) → IsCacheOf cache.now run
        → OnOk result (waiting.new.items ≡ waiting.old.items ++ filter (groups.is_pending (entries_of run)) (numbers_in runs.now)) }
{
    let from = none_pending_below(cache);
    for run in runs {
        wait_for_run(cache, run, from, waiting)?;
    }
    Ok(())
}

/// Puts the pending patches of one run behind those that are listed. None below `from` is looked at.
fn wait_for_run<A: Allocator + Copy>(
    cache: &Cache<A>,
    numbers: &Run,
    from: u32,
    waiting: &mut Vec<PatchNo, A>,
) -> Result<(), OutOfMemory>
    requires { (run : Execution) → IsCacheOf cache.now run → NonePendingBelow run from }
    ensures { (run : Execution) → IsCacheOf cache.now run
        → OnOk result (waiting.new.items ≡ waiting.old.items ++ filter (groups.is_pending (entries_of run)) (numbers_of numbers.now)) }
{
    if numbers.last < from {
        return Ok(());
    }
    let first = numbers.first.max(from);
    for no in first..numbers.last {
        wait_if_pending(cache, PatchNo(no), waiting)?;
    }
    wait_if_pending(cache, PatchNo(numbers.last), waiting)
}

/// Puts a patch behind those that are listed, if it is pending.
fn wait_if_pending<A: Allocator + Copy>(
    cache: &Cache<A>,
    no: PatchNo,
    waiting: &mut Vec<PatchNo, A>,
) -> Result<(), OutOfMemory>
    ensures { (run : Execution) → IsCacheOf cache.now run
        → OnOk result (waiting.new.items ≡ waiting.old.items ++ filter (groups.is_pending (entries_of run)) (no ∷ [])) }
{
    if is_pending(cache, no) {
        waiting.push(no)?;
    }
    Ok(())
}

//! Numbers of patches that lie in runs.
ghost use Rattle.std.specs.Prelude.{◌≡◌, ◌++◌, IfOk, OnOk};
ghost use Rattle.patch_model.specs.Runs.{numbers_of, numbers_in};

use crate::numbers::PatchNo;
use crate::refusals::OutOfMemory;
use std::alloc::Allocator;

/// Patches whose numbers follow one another, from the first to the last. Where the last is not above the first, it is the last alone.
#[derive(Clone, Copy, Debug, PartialEq, Eq)]
pub struct Run {
    pub first: u32,
    pub last: u32,
}

/// The numbers of these runs, one by one.
pub(crate) fn list_all<A: Allocator>(alloc: A, runs: &[Run]) -> Result<Vec<PatchNo, A>, OutOfMemory>
    ensures { IfOk result (λ all. all.items ≡ numbers_in runs.now) }
{
    let mut all = Vec::new(alloc);
    for run in runs {
        list_each(run, &mut all)?;
    }
    Ok(all)
}

/// Puts the numbers of the run behind those that are listed.
fn list_each<A: Allocator>(run: &Run, listed: &mut Vec<PatchNo, A>) -> Result<(), OutOfMemory>
    ensures { OnOk result (listed.new.items ≡ listed.old.items ++ numbers_of run.now) }
{
    let first = u64::from(run.first.min(run.last));
    let end = u64::from(run.last) + 1;
    listed.reserve(end.saturating_sub(first) as usize)?;
    for no in first..end {
        listed.push_reserved(PatchNo(no as u32));
    }
    Ok(())
}

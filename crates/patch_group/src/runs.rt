//! Runs of patch numbers.
ghost use Rattle.std.specs.Prelude.{◌≡◌, ◌<◌, ◌≤◌, ◌++◌, ◌∷◌, [], true, false, vec_len, vec_capacity, IfOk, OnOk};
ghost use Rattle.patch_model.specs.Runs.{numbers_of, numbers_in};
ghost use Rattle.patch_plans.specs.Rising.{rising};
ghost use Rattle.patch_group.specs.Records.{numbers_from};

use patch_model::{OutOfMemory, PatchNo, Run};
use std::alloc::Allocator;

/// Adds a number behind the others.
pub(crate) fn add<A: Allocator>(runs: &mut Vec<Run, A>, no: PatchNo)
    requires room { vec_len runs.old < vec_capacity runs.old }
    ensures { numbers_in runs.new.items ≡ numbers_in runs.old.items ++ no ∷ [] }
{
    put_behind(
        runs,
        Run {
            first: no.0,
            last: no.0,
        },
    );
}

/// Puts a run behind the others: where it goes on from the last of them, that one grows.
fn put_behind<A: Allocator>(runs: &mut Vec<Run, A>, run: Run)
    requires room { vec_len runs.old < vec_capacity runs.old }
    requires up { run.first ≤ run.last }
    ensures { numbers_in runs.new.items ≡ numbers_in runs.old.items ++ numbers_of run }
{
    let grown = match runs.last_mut() {
        Some(last) => grow(last, run),
        None => false,
    };
    if !grown {
        runs.push_reserved(run);
    }
}

/// Adds the numbers of the next run to a run, if they go on behind its last.
fn grow(run: &mut Run, next: Run) -> bool
    requires { next.first ≤ next.last }
    ensures grown { result ≡ true → numbers_of run.new ≡ numbers_of run.old ++ numbers_of next }
    ensures kept { result ≡ false → run.new ≡ run.old }
{
    if run.last < run.first || next.first <= run.last || run.last + 1 < next.first {
        return false;
    }
    run.last = next.last;
    true
}

/// Puts numbers behind those of the runs.
pub(crate) fn add_each<A: Allocator>(
    runs: &mut Vec<Run, A>,
    numbers: &[PatchNo],
) -> Result<(), OutOfMemory>
    ensures { OnOk result (numbers_in runs.new.items ≡ numbers_in runs.old.items ++ numbers.now) }
{
    for no in numbers {
        runs.reserve(1)?;
        add(runs, *no);
    }
    Ok(())
}

/// The numbers of these runs, rising, each once, in as few runs. These are put in order, and each adds what those before it left out.
pub(crate) fn rising_runs<A: Allocator>(
    alloc: A,
    runs: &mut Vec<Run, A>,
) -> Result<Vec<Run, A>, OutOfMemory>
    ensures { IfOk result (λ all. numbers_in all.items ≡ rising (numbers_in runs.old.items)) }
{
    runs.sort_unstable_by_key(|run| run.first.min(run.last));
    let mut all = Vec::new(alloc);
    let mut next = 0;
    for run in runs.as_slice() {
        add_from(run, next, &mut all)?;
        next = next.max(u64::from(run.last) + 1);
    }
    Ok(all)
}

/// Puts the numbers of the run, from this one on, behind those of the others.
fn add_from<A: Allocator>(run: &Run, next: u64, all: &mut Vec<Run, A>) -> Result<(), OutOfMemory>
    ensures { OnOk result (numbers_in all.new.items ≡ numbers_in all.old.items ++ numbers_from next run.now) }
{
    let first = u64::from(run.first.min(run.last)).max(next);
    if u64::from(run.last) < first {
        return Ok(());
    }
    all.reserve(1)?;
    let first = first as u32;
    put_behind(
        all,
        Run {
            first,
            last: run.last,
        },
    );
    Ok(())
}

//! Numbers that lie in runs.
ghost use Rattle.std.specs.Prelude.{◌≡◌, nat_lt, length};
ghost use Rattle.std.specs.List.{list_any};
ghost use Rattle.patch_model.specs.Entry.{is_among};
ghost use Rattle.patch_model.specs.Runs.{numbers_of, numbers_in};
ghost use Rattle.patch_numbers.specs.Runs.{LieWithin};

use patch_model::{PatchNo, Run};

/// Whether the number is one of the run's.
fn is_of_run(run: &Run, no: PatchNo) -> bool
    ensures { result ≡ is_among (numbers_of run.now) no }
{
    no.0 == run.last || (run.first <= no.0 && no.0 < run.last)
}

/// Whether the number is one of some run's.
pub fn is_of_runs(runs: &[Run], no: PatchNo) -> bool
    ensures { result ≡ list_any (λ r. is_among (numbers_of r) no) runs.now }
{
    runs.iter().any(|run| is_of_run(run, no))
}

/// A run from the least number of these runs to the greatest.
pub fn run_around(runs: &[Run]) -> Run
    ensures { LieWithin result (numbers_in runs.now) }
{
    let mut first = u32::MAX;
    let mut last = 0u32;
    for run in runs {
        first = first.min(run.first).min(run.last);
        last = last.max(run.last);
    }
    Run { first, last }
}

/// Whether the runs have fewer numbers than this in all. No more of them are looked at than that takes.
pub fn have_fewer(runs: &[Run], than: usize) -> bool
    ensures { result ≡ nat_lt (length (numbers_in runs.now)) than }
{
    let mut left = than;
    for run in runs {
        let but_one = run.last.saturating_sub(run.first) as usize;
        if left <= but_one {
            return false;
        }
        left -= but_one + 1;
    }
    left > 0
}

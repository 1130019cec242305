//! Numbers that a patch names in runs: a list takes those through which the others are reached.
ghost use Rattle.std.specs.Prelude.{◌≡◌, ◌<◌, ◌+◌, ◌⊎◌, ℕ, true, min, IfOk, OnOk};
ghost use Rattle.patch_model.specs.Runs.{numbers_of, numbers_in};
ghost use Rattle.patch_model.specs.Names.{numbers_named};
ghost use Rattle.patch_links.specs.State.{IsInReach};
ghost use Rattle.patch_graph.specs.Naming.{reach_at, IsNamedBelow, HasListed, HasTaken};

use crate::register::Register;
use patch_links::Reach;
use patch_model::{Named, PatchNo, Run};
use patch_numbers::NumberList;
use std::alloc::{AllocError, Allocator};

/// How many numbers of the reach are not below the lowest one.
fn width(lowest: u32, reach: Reach) -> u32 {
    reach.to.saturating_sub(reach.from.max(lowest))
}

/// The one of two reaches that has more numbers from the lowest one on.
fn wider(lowest: u32, a: Reach, b: Reach) -> Reach
    ensures { (result ≡ a) ⊎ (result ≡ b) }
{
    if width(lowest, a) < width(lowest, b) {
        b
    } else {
        a
    }
}

/// Whether the number is of the reach.
fn is_in(reach: Reach, no: u32) -> bool
    ensures { result ≡ true → IsInReach reach no }
{
    reach.from <= no && no < reach.to
}

/// The number above those of the run that were made.
fn end_of(made: u32, run: Run) -> u32
    ensures { result ≡ min (run.last + 1) made }
{
    if run.last < made { run.last + 1 } else { made }
}

/// What the class at a key reaches, if there is one.
fn reach_at<A: Allocator>(register: &Register<A>, key: usize) -> Reach
    ensures { result ≡ reach_at register.now.slots key }
{
    match register.class_at(key) {
        Some(class) => class.reach,
        None => Reach::none(),
    }
}

/// Lists a number, if it is live. What its class reaches then.
fn push_live<A: Allocator>(
    register: &Register<A>,
    no: PatchNo,
    all: &mut NumberList<A>,
) -> Result<Reach, AllocError>
    ensures { IfOk result (λ reach. HasListed register.now.slots register.now.numbers no reach all.old.items all.new.items) }
{
    match register.find(no) {
        Some(key) => {
            all.push(no)?;
            Ok(reach_at(register, key))
        }
        None => Ok(Reach::none()),
    }
}

/// Lists the live numbers of a run from its last one down, and jumps over what the class of one of them reaches.
fn push_run<A: Allocator>(
    register: &Register<A>,
    run: Run,
    all: &mut NumberList<A>,
) -> Result<(), AllocError>
    ensures { OnOk result (HasTaken register.now.slots register.now.numbers (IsNamedBelow register.now.made (numbers_of run)) all.old.items all.new.items) }
{
    let lowest = register.lowest();
    let first = run.first.min(run.last).max(lowest);
    let mut next = end_of(register.made(), run);
    let mut skip = Reach::none();
    while first < next {
        let no = next - 1;
        if is_in(skip, no) {
            next = skip.from;
            skip = Reach::none();
            continue;
        }
        let reach = push_live(register, PatchNo(no), all)?;
        next = no;
        skip = wider(lowest, skip, reach);
    }
    Ok(())
}

/// Puts enough of the numbers of runs behind the others: the rest isn't live, or is reached through these.
pub fn push_runs<A: Allocator>(
    register: &Register<A>,
    runs: &[Run],
    all: &mut NumberList<A>,
) -> Result<(), AllocError>
    ensures { OnOk result (HasTaken register.now.slots register.now.numbers (IsNamedBelow register.now.made (numbers_in runs.now)) all.old.items all.new.items) }
{
    for run in runs {
        push_run(register, *run, all)?;
    }
    Ok(())
}

/// The numbers of a run that were made.
fn reach_of_run(made: u32, run: Run) -> Reach
    ensures { (n : ℕ) → IsInReach result n → IsNamedBelow made (numbers_of run) n }
{
    Reach {
        from: run.first.min(run.last),
        to: end_of(made, run),
    }
}

/// The numbers that were made of the run that has the most of them.
fn widest(made: u32, lowest: u32, runs: &[Run]) -> Reach
    ensures { (n : ℕ) → IsInReach result n → IsNamedBelow made (numbers_in runs.now) n }
{
    let mut widest = Reach::none();
    for run in runs {
        widest = wider(lowest, widest, reach_of_run(made, *run));
    }
    widest
}

/// What a patch of these names reaches: it depends on each of its numbers by its name.
pub fn reach_of<A: Allocator>(register: &Register<A>, after: Named<'_>) -> Reach
    ensures { (n : ℕ) → IsInReach result n → IsNamedBelow register.now.made (numbers_named after.entry) n }
{
    match after {
        Named::Listed(_) => Reach::none(),
        Named::InRuns(runs) => widest(register.made(), register.lowest(), runs),
    }
}

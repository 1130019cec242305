//! Which of the numbers that a patch names its block keeps: those that may be members of the block's classes.
ghost use Rattle.std.specs.Prelude.{◌≡◌, ◌∷◌, [], IfOk, OnOk};
ghost use Rattle.std.specs.List.Sorted.{IsNonDecreasing};
ghost use Rattle.patch_model.specs.Names.{numbers_named};
ghost use Rattle.patch_model.specs.Runs.{numbers_of, numbers_in};
ghost use Rattle.patch_stacks.specs.State.{KeepsNames};
ghost use Rattle.patch_numbers.specs.Runs.{LieWithin};
ghost use Rattle.patch_stacks.specs.Names.{KeepsMore, TakesMembers};

use crate::stacks::Stack;
use patch_model::{Named, OutOfMemory, PatchNo, Run};
use patch_numbers::{NumberList, have_fewer, is_of_runs, run_around};
use patch_records::Class;
use std::alloc::Allocator;

impl<A: Allocator> Stack<A> {
    /// Those of these numbers that may be members of the block's classes, rising. No more than three take no memory.
    pub(crate) fn names_of(&self, after: Named<'_>) -> Result<NumberList<A>, OutOfMemory>
    where
        A: Clone,
        ensures kept { IfOk result (λ kept. KeepsNames self.now (numbers_named after.entry) kept.items) }
        ensures rising { IfOk result (λ kept. IsNonDecreasing kept.items) }
    {
        let mut kept = self.kept_of(after)?;
        kept.sort();
        Ok(kept)
    }

    fn kept_of(&self, after: Named<'_>) -> Result<NumberList<A>, OutOfMemory>
    where
        A: Clone,
        ensures { IfOk result (λ kept. KeepsNames self.now (numbers_named after.entry) kept.items) }
    {
        match after {
            Named::Listed(numbers) => self.kept_of_list(numbers),
            Named::InRuns(runs) => self.kept_of_runs(runs),
        }
    }

    /// No number yet.
    fn no_names(&self) -> Result<NumberList<A>, OutOfMemory>
    where
        A: Clone,
        ensures { IfOk result (λ none. none.items ≡ []) }
    {
        let alloc = self.bytes.allocator();
        Ok(NumberList::new(alloc.clone()?))
    }

    fn kept_of_list(&self, numbers: &[PatchNo]) -> Result<NumberList<A>, OutOfMemory>
    where
        A: Clone,
        ensures { IfOk result (λ kept. KeepsNames self.now numbers.now kept.items) }
    {
        let mut kept = self.no_names()?;
        let lowest = self.lowest_for(numbers);
        for no in numbers {
            if self.may_have_from(lowest, *no) {
                kept.push(*no)?;
            }
        }
        Ok(kept)
    }

    /// The same of numbers in runs. They may be tens of thousands, of which few are of this block: where they are more than it takes to look
    /// for each member of its classes in each run, that is done in place of asking for each number.
    fn kept_of_runs(&self, runs: &[Run]) -> Result<NumberList<A>, OutOfMemory>
    where
        A: Clone,
        ensures { IfOk result (λ kept. KeepsNames self.now (numbers_in runs.now) kept.items) }
    {
        if have_fewer(runs, self.len()) || have_fewer(runs, self.looks_in(runs.len())) {
            self.kept_by_number(runs)
        } else {
            self.kept_by_member(runs)
        }
    }

    /// How many looks it takes to look for each member of the classes in so many runs.
    fn looks_in(&self, runs: usize) -> usize {
        let mut members = 0usize;
        for class in &self.classes {
            members = members.saturating_add(class.members().len());
        }
        members.saturating_mul(runs)
    }

    /// The same by asking for each number.
    fn kept_by_number(&self, runs: &[Run]) -> Result<NumberList<A>, OutOfMemory>
    where
        A: Clone,
        ensures { IfOk result (λ kept. KeepsNames self.now (numbers_in runs.now) kept.items) }
    {
        let mut kept = self.no_names()?;
        for run in runs {
            self.keep_run(run, &mut kept)?;
        }
        Ok(kept)
    }

    /// Puts those numbers of a run behind others that may be members of the block's classes.
    fn keep_run(&self, run: &Run, kept: &mut NumberList<A>) -> Result<(), OutOfMemory>
    where
        A: Clone,
        ensures { OnOk result (KeepsMore self.now (numbers_of run.now) kept.old.items kept.new.items) }
    {
        for no in run.first..run.last {
            self.keep_number(PatchNo(no), kept)?;
        }
        self.keep_number(PatchNo(run.last), kept)
    }

    /// Puts a number behind others if it may be a member of a class.
    fn keep_number(&self, no: PatchNo, kept: &mut NumberList<A>) -> Result<(), OutOfMemory>
    where
        A: Clone,
        ensures { OnOk result (KeepsMore self.now (no ∷ []) kept.old.items kept.new.items) }
    {
        if !self.may_have(no) {
            return Ok(());
        }
        kept.push(no)?;
        Ok(())
    }

    /// The members of the classes that are numbers of the runs.
    fn kept_by_member(&self, runs: &[Run]) -> Result<NumberList<A>, OutOfMemory>
    where
        A: Clone,
        ensures { IfOk result (λ kept. KeepsNames self.now (numbers_in runs.now) kept.items) }
    {
        let around = run_around(runs);
        let mut kept = self.no_names()?;
        for class in &self.classes {
            keep_members(class, runs, around, &mut kept)?;
        }
        Ok(kept)
    }
}

/// Puts the members of a class that are numbers of the runs behind others. Where all of them lie below what is around the runs, or
/// above it, none is looked at but the least and the greatest.
fn keep_members<A: Allocator>(
    class: &Class<A>,
    runs: &[Run],
    around: Run,
    kept: &mut NumberList<A>,
) -> Result<(), OutOfMemory>
    requires { LieWithin around (numbers_in runs.now) }
    ensures { OnOk result (TakesMembers class.now.members (numbers_in runs.now) kept.old.items kept.new.items) }
{
    if class.highest() < around.first || around.last < class.lowest() {
        return Ok(());
    }
    keep_each(class.members(), runs, kept)
}

/// Puts these numbers behind others, each that is one of the runs'.
fn keep_each<A: Allocator>(
    numbers: &[PatchNo],
    runs: &[Run],
    kept: &mut NumberList<A>,
) -> Result<(), OutOfMemory>
    ensures { OnOk result (TakesMembers numbers.now (numbers_in runs.now) kept.old.items kept.new.items) }
{
    for no in numbers {
        if is_of_runs(runs, *no) {
            kept.push(*no)?;
        }
    }
    Ok(())
}

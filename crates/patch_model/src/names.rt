//! What a patch names.
ghost use Rattle.std.specs.Prelude.{◌≡◌, ◌++◌, IfOk, nat_le, option_to_list};
ghost use Rattle.std.specs.List.{list_any};
ghost use Rattle.patch_model.specs.Runs.{numbers_in};
ghost use Rattle.patch_model.specs.Names.{numbers_named};

use crate::lists::Numbers;
use crate::numbers::PatchNo;
use crate::refusals::OutOfMemory;
use crate::runs::{Run, list_all};
use arrayvec::ArrayVec;
use std::alloc::{Allocator, Global};
use std::marker::Model;

/// So many numbers lie in [`Names`] themselves.
const FEW: usize = 3;

/// The patches that a patch names, lent: each number by itself, or all in runs. The order of groups has a patch name all that the
/// groups before its own wrote, and these numbers mostly lie in one run.
#[derive(Clone, Copy, Debug)]
pub enum Named<'a> {
    Listed(&'a [PatchNo]),
    InRuns(&'a [Run]),
}

impl<'a> Named<'a> {
    /// The numbers, each by itself.
    pub fn to_vec<A: Allocator>(self, alloc: A) -> Result<Vec<PatchNo, A>, OutOfMemory>
        ensures { IfOk result (λ all. all.items ≡ numbers_named self.entry) }
    {
        match self {
            Named::Listed(numbers) => Ok(Vec::from_slice(alloc, numbers)?),
            Named::InRuns(runs) => list_all(alloc, runs),
        }
    }

    /// Whether one of the numbers isn't that of a patch, where so many were made.
    pub fn has_unmade(self, made: u32) -> bool
        ensures { result ≡ list_any (λ n. nat_le made n) (numbers_named self.entry) }
    {
        match self {
            Named::Listed(numbers) => numbers.iter().any(|no| no.0 >= made),
            Named::InRuns(runs) => end_unmade(runs, made),
        }
    }
}

/// Whether one of the runs ends with such a number: then it has one, and else it has none.
fn end_unmade(runs: &[Run], made: u32) -> bool
    ensures { result ≡ list_any (λ run. nat_le made run.last) runs.now }
{
    runs.iter().any(|run| run.last >= made)
}

/// The patches that a patch names. To contracts it is the list of their numbers, in order. As long as there are three at most they
/// may lie in it and take no memory: few patches name more.
#[derive(Debug, Drop)]
pub struct Names<A: Allocator = Global> {
    held: Held<A>,
}

#[derive(Debug, Drop)]
enum Held<A: Allocator> {
    Few(ArrayVec<PatchNo, FEW>),
    Listed(Numbers<A>),
    InRuns(Vec<Run, A>),
}

impl<A: Allocator> Model for Names<A> {
    ghost use Rattle.std.specs.Prelude.{ℕ, List};
    ghost use Rattle.patch_model.specs.Names.{numbers_held};

    ghost Value = { List ℕ };

    ghost view = { λ n. numbers_held n.held };
}

impl<A: Allocator> Names<A> {
    /// These numbers, each by itself. It takes no memory.
    pub fn listed(numbers: Numbers<A>) -> Names<A>
        ensures { result ≡ numbers }
    {
        Names {
            held: Held::Listed(numbers),
        }
    }

    /// Those of these numbers that there are. It takes no memory.
    pub fn of_some(
        first: Option<PatchNo>,
        second: Option<PatchNo>,
        third: Option<PatchNo>,
    ) -> Names<A>
        ensures { result ≡ option_to_list first ++ (option_to_list second ++ option_to_list third) }
    {
        let mut few = ArrayVec::new();
        if let Some(no) = first {
            few.push(no);
        }
        if let Some(no) = second {
            few.push(no);
        }
        if let Some(no) = third {
            few.push(no);
        }
        Names {
            held: Held::Few(few),
        }
    }

    /// Copies of these numbers, each by itself. No more than three take no memory.
    pub fn from_slice(alloc: A, numbers: &[PatchNo]) -> Result<Names<A>, OutOfMemory>
        ensures { IfOk result (λ names. names ≡ numbers.now) }
    {
        let mut few = ArrayVec::new();
        if few.try_extend_from_slice(numbers).is_ok() {
            return Ok(Names {
                held: Held::Few(few),
            });
        }
        Ok(Names::listed(Numbers::from_slice(alloc, numbers)?))
    }

    /// The same numbers once more.
    pub fn copied(&self, alloc: A) -> Result<Names<A>, OutOfMemory>
        ensures { IfOk result (λ names. names ≡ self.now) }
    {
        match self.lend() {
            Named::Listed(numbers) => Names::from_slice(alloc, numbers),
            Named::InRuns(runs) => Ok(Names::in_runs(Vec::from_slice(alloc, runs)?)),
        }
    }

    /// The numbers of these runs. It takes no memory.
    pub fn in_runs(runs: Vec<Run, A>) -> Names<A>
        ensures { result ≡ numbers_in runs.items }
    {
        Names {
            held: Held::InRuns(runs),
        }
    }

    /// The numbers, lent as they lie.
    pub fn lend(&self) -> Named<'_>
        ensures { numbers_named result ≡ self.now }
    {
        match &self.held {
            Held::Few(numbers) => Named::Listed(numbers.as_slice()),
            Held::Listed(numbers) => Named::Listed(numbers.as_slice()),
            Held::InRuns(runs) => Named::InRuns(runs.as_slice()),
        }
    }
}

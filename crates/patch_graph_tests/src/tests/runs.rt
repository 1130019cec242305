//! A walk by chance where patches are named in runs, beside a graph and a plain one that are given each number by itself: chains of
//! groups, each patch of which names all patches of the groups before its own, with merges, sends and completions between.
use super::chance::{Chance, chance_from, may_merge};
use super::expect_eq;
use super::plain::Plain;
use patch_graph::{Graph, Newcomer};
use patch_model::{BlockNo, MAX_PATCHES, Mark, Named, PatchNo, Run, Undo};
use std::alloc::{AllocError, Global};
use std::process::Abort;
use std::test::Fail;

// How many blocks a walk goes over.
const BLOCKS: u32 = 4;

// How many steps it takes.
const STEPS: u32 = 150;

// How many walks there are.
const WALKS: u32 = 6;

// How often two patches are asked about after each step.
const QUESTIONS: u32 = 2;

// The graph that is given runs, the two that are given numbers, and what the walk has come to: the first number of the newest
// group and of the groups that are in one chain, which blocks have a flight, and how many merges it made.
#[derive(Drop)]
struct Walk {
    graph: Graph,
    listed: Graph,
    plain: Plain,
    alloc: Global,
    group: u32,
    chain: u32,
    flights: [bool; 4],
    merges: u32,
}

// A span of a block.
#[derive(Clone, Copy)]
struct Place {
    block: u32,
    start: usize,
    stop: usize,
}

fn place_by_chance(chance: &mut Chance) -> Place {
    let start = chance.below(24) as usize;
    Place {
        block: chance.below(BLOCKS),
        start,
        stop: start + 1 + chance.below(4) as usize,
    }
}

// The numbers of the runs, as they are named.
fn numbers_in(alloc: Global, runs: &[Run]) -> Result<Vec<PatchNo>, AllocError> {
    let mut numbers = Vec::new(alloc);
    for run in runs {
        for no in run.first..run.last {
            numbers.push(PatchNo(no))?;
        }
        numbers.push(PatchNo(run.last))?;
    }
    Ok(numbers)
}

// Those of them that were made.
fn numbers_below(
    alloc: Global,
    made: u32,
    numbers: &[PatchNo],
) -> Result<Vec<PatchNo>, AllocError> {
    let mut below = Vec::new(alloc);
    for no in numbers {
        if no.0 < made {
            below.push(*no)?;
        }
    }
    Ok(below)
}

impl Walk {
    fn new(alloc: Global) -> Walk {
        Walk {
            graph: Graph::new(alloc),
            listed: Graph::new(alloc),
            plain: Plain::new(alloc),
            alloc,
            group: 0,
            chain: 0,
            flights: [false; 4],
            merges: 0,
        }
    }

    // The patches of the groups before the newest one, at times but for one of them.
    fn add_groups(&self, chance: &mut Chance, runs: &mut Vec<Run>) -> Result<(), AllocError> {
        let Some(last) = self.group.checked_sub(1) else {
            return Ok(());
        };
        if last < self.chain {
            return Ok(());
        }
        let gap = self
            .chain
            .saturating_add(chance.below(self.group - self.chain));
        if chance.below(4) > 0 || gap == self.chain || gap >= last {
            runs.push(Run {
                first: self.chain,
                last,
            })?;
            return Ok(());
        }
        runs.push(Run {
            first: self.chain,
            last: gap - 1,
        })?;
        runs.push(Run {
            first: gap.saturating_add(1),
            last,
        })?;
        Ok(())
    }

    // A patch by itself, by a run of which it is the last one alone, or some of the newest with some that weren't made.
    fn add_other(&self, chance: &mut Chance, runs: &mut Vec<Run>) -> Result<(), AllocError> {
        let made = self.graph.made();
        let Some(newest) = made.checked_sub(1) else {
            return Ok(());
        };
        let no = newest.saturating_sub(chance.below(made.min(30)));
        let first = match chance.below(3) {
            0 => no,
            1 => no.saturating_add(2),
            _ => no.saturating_sub(2),
        };
        runs.push(Run {
            first,
            last: no.saturating_add(chance.below(4)),
        })?;
        Ok(())
    }

    fn runs_by_chance(&self, chance: &mut Chance) -> Result<Vec<Run>, AllocError> {
        let mut runs = Vec::new(self.alloc);
        if chance.below(6) > 0 {
            self.add_groups(chance, &mut runs)?;
        }
        if chance.below(6) == 0 {
            self.add_other(chance, &mut runs)?;
        }
        Ok(runs)
    }

    // The patch with its names in runs. Whether it is hard.
    fn put_in(
        &mut self,
        rt: &impl Abort,
        place: Place,
        runs: &[Run],
        undo: Undo,
    ) -> Result<bool, Fail> {
        assert!(rt; self.graph.made() < MAX_PATCHES && place.start < place.stop);
        let block = BlockNo(place.block);
        let newcomer: Newcomer = self
            .graph
            .draw_up(block, place.start, place.stop, Named::InRuns(runs), undo)?;
        let hard = newcomer.is_hard();
        self.graph.put_in(newcomer)?;
        Ok(hard)
    }

    // The same with each number by itself.
    fn add(
        &mut self,
        rt: &impl Abort,
        place: Place,
        numbers: &[PatchNo],
        undo: Undo,
    ) -> Result<bool, Fail> {
        assert!(rt; self.listed.made() < MAX_PATCHES && place.start < place.stop);
        let made = self.listed.made();
        let block = BlockNo(place.block);
        let added = self
            .listed
            .add(block, place.start, place.stop, numbers, undo)?;
        let names = numbers_below(self.alloc, made, numbers)?;
        self.plain.add(
            place.block as usize,
            place.start,
            place.stop,
            names.as_slice(),
        )?;
        Ok(added.hard)
    }

    fn make(&mut self, rt: &impl Abort, chance: &mut Chance) -> Result<(), Fail> {
        let place = place_by_chance(chance);
        let undo = match chance.below(3) {
            0 => Undo::MayDrop,
            _ => Undo::Keep,
        };
        let runs = self.runs_by_chance(chance)?;
        let numbers = numbers_in(self.alloc, runs.as_slice())?;
        let hard = self.put_in(rt, place, runs.as_slice(), undo)?;
        let wanted = self.add(rt, place, numbers.as_slice(), undo)?;
        expect_eq(rt, &hard, &wanted);
        Ok(())
    }

    // Merges the newest patch's class with that of the newest patch that may be merged with it.
    fn merge(&mut self, rt: &impl Abort) -> Result<(), Fail> {
        let newest = PatchNo(self.listed.made().saturating_sub(1));
        for back in 1..30 {
            let other = PatchNo(newest.0.saturating_sub(back));
            if may_merge(&mut self.listed, newest, other) {
                let name = self.listed.merge(newest, other)?;
                expect_eq(rt, &self.graph.merge(newest, other)?, &name);
                self.plain.merge(newest, other)?;
                self.merges = self.merges.saturating_add(1);
                return Ok(());
            }
        }
        Ok(())
    }

    // Whether the block has a flight.
    fn is_flying(&self, block: u32) -> bool {
        self.flights.get(block as usize) == Some(&true)
    }

    // Notes whether it has one.
    fn set_flying(&mut self, block: u32, flying: bool) {
        if let Some(flight) = self.flights.get_mut(block as usize) {
            *flight = flying;
        }
    }

    fn send(&mut self, block: u32) {
        if !self.is_flying(block) {
            self.graph.mark_flight(BlockNo(block));
            self.listed.mark_flight(BlockNo(block));
            self.set_flying(block, true);
        }
    }

    fn complete(&mut self, block: u32) {
        self.graph.mark_durable(BlockNo(block));
        self.listed.mark_durable(BlockNo(block));
        self.set_flying(block, false);
        for no in 0..self.listed.made() {
            if self.listed.mark_of(PatchNo(no)) == Some(Mark::Durable) {
                self.plain.forget(PatchNo(no));
            }
        }
    }

    fn step(&mut self, rt: &impl Abort, chance: &mut Chance) -> Result<(), Fail> {
        let block = chance.below(BLOCKS);
        match chance.below(16) {
            0..8 => self.make(rt, chance)?,
            8 => self.group = self.graph.made(),
            9..12 => self.merge(rt)?,
            12..14 => self.send(block),
            14 => self.complete(block),
            _ if chance.below(8) == 0 => self.chain = self.graph.made(),
            _ => {}
        }
        Ok(())
    }

    // Of each block a send takes the same.
    fn expect_ready(&self, rt: &impl Abort) -> Result<(), Fail> {
        for block in 0..BLOCKS {
            let ready = self.graph.ready(self.alloc, BlockNo(block))?;
            let wanted = self.listed.ready(self.alloc, BlockNo(block))?;
            expect_eq(rt, &ready.as_slice(), &wanted.as_slice());
        }
        expect_eq(rt, &self.graph.next_open(0), &self.listed.next_open(0));
        Ok(())
    }

    // Of a patch and two of them the same is told.
    fn expect_told(&mut self, rt: &impl Abort, a: PatchNo, b: PatchNo) -> Result<(), Fail> {
        expect_eq(rt, &self.graph.mark_of(a), &self.listed.mark_of(a));
        expect_eq(rt, &self.graph.class_of(a), &self.listed.class_of(a));
        let reaches = self.listed.reaches(a, b);
        expect_eq(rt, &self.graph.reaches(a, b), &reaches);
        let between = self.graph.between(a, b);
        expect_eq(rt, &between, &self.listed.between(a, b));
        expect_eq(rt, &between, &self.plain.between(a, b)?);
        Ok(())
    }

    fn expect(&mut self, rt: &impl Abort, chance: &mut Chance) -> Result<(), Fail> {
        self.expect_ready(rt)?;
        let made = self.graph.made();
        for _ in 0..QUESTIONS {
            let back = chance.below(made.min(60));
            let a = PatchNo(made.saturating_sub(1).saturating_sub(back));
            let b = PatchNo(chance.below(made));
            self.expect_told(rt, a, b)?;
        }
        Ok(())
    }
}

fn walk_from(rt: &impl Abort, alloc: Global, seed: u32) -> Result<u32, Fail> {
    let mut chance = chance_from(seed);
    let mut walk = Walk::new(alloc);
    for _ in 0..STEPS {
        walk.step(rt, &mut chance)?;
        walk.expect(rt, &mut chance)?;
    }
    let merges = walk.merges;
    Ok(merges)
}

// The same walks each time: names in runs tell what each number by itself does.
#[test]
fn names_in_runs_are_as_each_by_itself(rt: HostRuntime) -> Result<(), Fail> {
    let mut merges: u32 = 0;
    for seed in 0..WALKS {
        merges = merges.saturating_add(walk_from(&rt, rt.alloc(), seed)?);
    }
    let is_often = merges > 20;
    expect_eq(&rt, &(&merges, &is_often), &(&merges, &true));
    Ok(())
}

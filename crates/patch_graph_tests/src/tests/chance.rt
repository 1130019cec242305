//! A thousand steps by chance: what a send of each block takes is what a search finds, and of which block a write can begin.
use super::{Ask, ask_for, expect_eq, make};
use patch_graph::laws::ready_slow;
use patch_graph::{Graph, LiveClass};
use patch_model::{BlockNo, Mark, PatchNo, Undo};
use std::alloc::Global;
use std::process::Abort;
use std::test::Fail;

// How many blocks a walk by chance goes over.
const BLOCKS: u32 = 8;

// How many steps it takes.
const STEPS: u32 = 1000;

// What a walk by chance has come to: the number that was drawn last, which blocks have a flight, and how many merges it made.
#[derive(Clone, Copy)]
pub(super) struct Chance {
    drawn: u32,
    flights: [bool; 8],
    merges: u32,
}

pub(super) fn chance_from(seed: u32) -> Chance {
    Chance {
        drawn: seed,
        flights: [false; 8],
        merges: 0,
    }
}

impl Chance {
    // A number below this one, and 0 for none.
    pub(super) fn below(&mut self, limit: u32) -> u32 {
        self.drawn = self
            .drawn
            .wrapping_mul(1_664_525)
            .wrapping_add(1_013_904_223);
        (self.drawn >> 8).checked_rem(limit).unwrap_or(0)
    }

    // Whether the block has a flight.
    fn is_flying(&self, block: u32) -> bool {
        let at = block as usize;
        at < self.flights.len() && self.flights[at]
    }

    // Notes whether it has one.
    fn set_flying(&mut self, block: u32, flying: bool) {
        let at = block as usize;
        if at < self.flights.len() {
            self.flights[at] = flying;
        }
    }
}

// A patch of a few bytes, which names an earlier one at every other time, and may drop its undo bytes at every third.
fn ask_by_chance(chance: &mut Chance, block: u32, made: u32) -> Ask {
    let start = chance.below(24) as usize;
    let stop = start + 1 + chance.below(4) as usize;
    let named = chance.below(made.min(40));
    let after = if chance.below(2) == 0 && made > 0 {
        Some(made.saturating_sub(1).saturating_sub(named))
    } else {
        None
    };
    let mut ask = ask_for(block, start, stop, after);
    if chance.below(3) == 0 {
        ask.undo = Undo::MayDrop;
    }
    ask
}

// Whether a class may be merged at all.
fn is_undoable(class: &LiveClass) -> bool {
    class.mark == Mark::Memory && !class.hard
}

// Whether the classes of two patches may become one.
pub(super) fn may_merge(graph: &mut Graph, a: PatchNo, b: PatchNo) -> bool {
    let Some(first) = graph.live_class(a) else {
        return false;
    };
    let Some(second) = graph.live_class(b) else {
        return false;
    };
    let near = first.start <= second.stop && second.start <= first.stop;
    let fit = is_undoable(&first) && is_undoable(&second) && first.block == second.block;
    let apart = graph.between(a, b).is_none() && graph.between(b, a).is_none();
    first.name != second.name && near && fit && apart
}

// Merges the newest patch's class with that of the newest patch that may be merged with it.
fn merge_by_chance(graph: &mut Graph, chance: &mut Chance) -> Result<(), Fail> {
    let newest = graph.made().saturating_sub(1);
    for back in 1..60 {
        let (a, b) = (PatchNo(newest), PatchNo(newest.saturating_sub(back)));
        if may_merge(graph, a, b) {
            graph.merge(a, b)?;
            chance.merges = chance.merges.saturating_add(1);
            return Ok(());
        }
    }
    Ok(())
}

fn send_by_chance(graph: &mut Graph, chance: &mut Chance, block: u32) {
    if !chance.is_flying(block) && graph.any_ready(BlockNo(block)) {
        graph.mark_flight(BlockNo(block));
        chance.set_flying(block, true);
    }
}

fn complete_by_chance(graph: &mut Graph, chance: &mut Chance, block: u32) {
    if chance.is_flying(block) {
        graph.mark_durable(BlockNo(block));
        chance.set_flying(block, false);
    }
}

fn step_by_chance(rt: &impl Abort, graph: &mut Graph, chance: &mut Chance) -> Result<(), Fail> {
    let block = chance.below(BLOCKS);
    match chance.below(8) {
        0..4 => {
            let ask = ask_by_chance(chance, block, graph.made());
            make(rt, graph, &ask)?;
        }
        4 => merge_by_chance(graph, chance)?,
        5 => send_by_chance(graph, chance, block),
        _ => complete_by_chance(graph, chance, block),
    }
    Ok(())
}

// What is kept of a block agrees with what a search finds.
fn expect_agreement(
    rt: &impl Abort,
    alloc: Global,
    graph: &mut Graph,
    block: BlockNo,
) -> Result<(), Fail> {
    let slow = ready_slow(graph, alloc, block)?;
    expect_eq(rt, &graph.any_ready(block), &!slow.is_empty());
    let ready = graph.ready(alloc, block)?;
    expect_eq(rt, &ready.as_slice(), &slow.as_slice());
    Ok(())
}

fn expect_agreements(rt: &impl Abort, alloc: Global, graph: &mut Graph) -> Result<(), Fail> {
    for block in 0..BLOCKS {
        expect_agreement(rt, alloc, graph, BlockNo(block))?;
    }
    Ok(())
}

// The first block that has something ready and no flight is the next of which a write can begin.
fn expect_next_open(rt: &impl Abort, graph: &Graph, chance: &Chance) {
    let mut open = None;
    for block in (0..BLOCKS).rev() {
        if graph.any_ready(BlockNo(block)) && !chance.is_flying(block) {
            open = Some(BlockNo(block));
        }
    }
    expect_eq(rt, &graph.next_open(0), &open);
}

fn walk_by_chance(
    rt: &impl Abort,
    alloc: Global,
    graph: &mut Graph,
    chance: &mut Chance,
) -> Result<(), Fail> {
    for _ in 0..STEPS {
        step_by_chance(rt, graph, chance)?;
        expect_agreements(rt, alloc, graph)?;
        expect_next_open(rt, graph, chance);
    }
    let is_long = chance.merges > 20 && graph.made() > 400;
    expect_eq(rt, &(&chance.merges, &is_long), &(&chance.merges, &true));
    Ok(())
}

// The same thousand steps each time: after each of them, what a send of each block takes is what a search finds.
#[test]
fn ready_agrees(rt: HostRuntime) -> Result<(), Fail> {
    let mut chance = chance_from(1);
    let mut graph = Graph::new(rt.alloc());
    let walked = walk_by_chance(&rt, rt.alloc(), &mut graph, &mut chance);
    drop(graph);
    walked
}

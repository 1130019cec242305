//! What a graph tells between two classes, beside what one search through all below the upper one finds, on graphs of many shapes.
use super::chance::{Chance, chance_from};
use super::plain::Plain;
use super::{Move, Path, expect_eq, walk};
use patch_graph::Graph;
use patch_model::{BlockNo, MAX_PATCHES, PatchNo, Undo};
use std::alloc::Global;
use std::process::Abort;
use std::test::Fail;

// A graph, and its classes in plain lists.
#[derive(Drop)]
struct Pair {
    graph: Graph,
    plain: Plain,
    alloc: Global,
}

impl Pair {
    fn new(alloc: Global) -> Pair {
        Pair {
            graph: Graph::new(alloc),
            plain: Plain::new(alloc),
            alloc,
        }
    }

    // A patch of this span, which names these.
    fn make_over(
        &mut self,
        rt: &impl Abort,
        block: u32,
        start: usize,
        stop: usize,
        names: &[PatchNo],
    ) -> Result<PatchNo, Fail> {
        assert!(rt; self.graph.made() < MAX_PATCHES && start < stop);
        let added = self
            .graph
            .add(BlockNo(block), start, stop, names, Undo::Keep)?;
        self.plain.add(block as usize, start, stop, names)?;
        Ok(added.no)
    }

    // A patch of one byte.
    fn make(
        &mut self,
        rt: &impl Abort,
        block: u32,
        byte: usize,
        names: &[PatchNo],
    ) -> Result<PatchNo, Fail> {
        self.make_over(rt, block, byte, byte.saturating_add(1), names)
    }

    // Makes the classes of two patches one, whatever lies between.
    fn merge(&mut self, rt: &impl Abort, a: PatchNo, b: PatchNo) -> Result<(), Fail> {
        self.graph.merge(a, b)?;
        self.plain.merge(a, b)?;
        expect_eq(rt, &self.graph.class_of(a), &self.plain.class_of(a));
        expect_eq(rt, &self.graph.class_of(b), &self.plain.class_of(b));
        Ok(())
    }

    // Makes durable what a send of the block takes.
    fn land(&mut self, block: u32) -> Result<(), Fail> {
        let landed = self.graph.ready(self.alloc, BlockNo(block))?;
        self.graph.mark_flight(BlockNo(block));
        self.graph.mark_durable(BlockNo(block));
        for no in landed.iter() {
            self.plain.forget(*no);
        }
        Ok(())
    }

    // Both tell the same between two patches. What they tell.
    fn expect(&mut self, rt: &impl Abort, a: PatchNo, b: PatchNo) -> Result<Option<PatchNo>, Fail> {
        let least = self.plain.between(a, b)?;
        assert!(rt; self.graph.between(a, b) == least, "between {a} and {b}");
        Ok(least)
    }
}

// How classes lie above the lower of two, and others below the upper one.
#[derive(Clone, Copy)]
enum Shape {
    // Each depends on the next one by its name.
    Chain,
    // Each writes over the next one.
    Pile,
    // Each names the lower class, or is named by the upper one.
    Fan,
    // Two at most name each, or are named by it.
    Tree,
}

// Which classes are made one.
#[derive(Clone, Copy)]
enum Joining {
    // None.
    Apart,
    // Each two that were made one after the other.
    Pairs,
    // Some that were made further apart: in a chain the classes between them are then in a ring with them.
    Knots,
    // The last one above the lower class and the first one below the upper one.
    Across,
    // The upper class and one that depends on it through a third one, which was made before all others: a ring.
    UpperRing,
    // The lower class and one that depends on the upper one: a ring, too, where that leads to the lower one.
    LowerRing,
}

// A graph to be made: how many classes are on the way from the upper class to the lower one, if there is a way, and how many numbers
// a search comes to above the lower one and below the upper one, those of the way among them.
#[derive(Clone, Copy)]
struct Plan {
    shape: Shape,
    joining: Joining,
    way: Option<u32>,
    above: u32,
    below: u32,
}

impl Plan {
    // How many numbers lead along the way.
    fn links(&self) -> u32 {
        match self.way {
            Some(count) => count.saturating_add(1),
            None => 0,
        }
    }

    // How many classes lie above the lower one, but for those of the way and of a ring.
    fn count_above(&self) -> u32 {
        let ring = match self.joining {
            Joining::UpperRing => 2,
            Joining::LowerRing => 1,
            _ => 0,
        };
        self.above.saturating_sub(self.links()).saturating_sub(ring)
    }

    // The same of those below the upper one.
    fn count_below(&self) -> u32 {
        let ring = match self.joining {
            Joining::UpperRing => 2,
            _ => 0,
        };
        self.below.saturating_sub(self.links()).saturating_sub(ring)
    }
}

// Patches that were made one after the other.
#[derive(Clone, Copy)]
struct Side {
    first: u32,
    count: u32,
}

impl Side {
    // The one at this place.
    fn at(&self, place: u32) -> PatchNo {
        PatchNo(self.first.saturating_add(place))
    }

    // The one at this place counted from the last one, if there are so many.
    fn back(&self, place: u32) -> Option<PatchNo> {
        let rest = self.count.checked_sub(place)?;
        Some(self.at(rest.checked_sub(1)?))
    }
}

// The two classes that are asked about, those above and below, and one that was made before all others.
#[derive(Clone, Copy)]
struct Ends {
    lower: PatchNo,
    upper: PatchNo,
    above: Side,
    below: Side,
    early: PatchNo,
}

// The block of both ends and of the way, that of the classes above and below, and that of the one in a ring with the upper end.
const WAY: u32 = 0;

const SIDES: u32 = 1;

const RINGS: u32 = 2;

// The byte of the next class of a side: all of a pile write that of the first one.
fn next_byte(pair: &Pair, shape: Shape, side: Side) -> usize {
    match shape {
        Shape::Pile => side.first as usize,
        _ => pair.graph.made() as usize,
    }
}

// Which one the class at this place names: the lower one, or one above that. Those of a pile write over another one.
fn named_above(shape: Shape, lower: PatchNo, above: Side, place: u32) -> Option<PatchNo> {
    let Some(before) = place.checked_sub(1) else {
        return Some(lower);
    };
    match shape {
        Shape::Chain => Some(above.at(before)),
        Shape::Pile => None,
        Shape::Fan => Some(lower),
        Shape::Tree => Some(above.at(before / 2)),
    }
}

// Makes a class of a side, which names two others at most.
fn make_naming(
    rt: &impl Abort,
    pair: &mut Pair,
    byte: usize,
    names: (Option<PatchNo>, Option<PatchNo>),
) -> Result<PatchNo, Fail> {
    match names {
        (Some(a), Some(b)) => pair.make(rt, SIDES, byte, &[a, b]),
        (Some(no), None) => pair.make(rt, SIDES, byte, &[no]),
        (None, Some(no)) => pair.make(rt, SIDES, byte, &[no]),
        (None, None) => pair.make(rt, SIDES, byte, &[]),
    }
}

// Makes the classes above the lower one.
fn lay_above(rt: &impl Abort, pair: &mut Pair, plan: &Plan, lower: PatchNo) -> Result<Side, Fail> {
    let above = Side {
        first: pair.graph.made(),
        count: plan.count_above(),
    };
    for place in 0..above.count {
        let byte = next_byte(pair, plan.shape, above);
        let named = named_above(plan.shape, lower, above, place);
        make_naming(rt, pair, byte, (named, None))?;
    }
    Ok(above)
}

// Which ones the class at this place below the upper one names, counted from the last one made.
fn named_below(shape: Shape, below: Side, place: u32) -> (Option<PatchNo>, Option<PatchNo>) {
    match shape {
        Shape::Chain => (below.back(place.saturating_add(1)), None),
        Shape::Tree => (
            below.back(place.saturating_mul(2).saturating_add(1)),
            below.back(place.saturating_mul(2).saturating_add(2)),
        ),
        _ => (None, None),
    }
}

// Makes the classes below the upper one, the last of them first.
fn lay_below(rt: &impl Abort, pair: &mut Pair, plan: &Plan) -> Result<Side, Fail> {
    let below = Side {
        first: pair.graph.made(),
        count: plan.count_below(),
    };
    for place in (0..below.count).rev() {
        let byte = next_byte(pair, plan.shape, below);
        make_naming(rt, pair, byte, named_below(plan.shape, below, place))?;
    }
    Ok(below)
}

// Makes the classes of the way. The one that the upper class names.
fn lay_way(
    rt: &impl Abort,
    pair: &mut Pair,
    plan: &Plan,
    lower: PatchNo,
) -> Result<Option<PatchNo>, Fail> {
    let Some(count) = plan.way else {
        return Ok(None);
    };
    let mut last = lower;
    for place in 0..count {
        last = pair.make(rt, WAY, 8usize.saturating_add(place as usize), &[last])?;
    }
    Ok(Some(last))
}

// The last of the way, and so many of those below.
fn names_of_upper(
    alloc: Global,
    way: Option<PatchNo>,
    below: Side,
    count: u32,
) -> Result<Vec<PatchNo>, Fail> {
    let mut names = Vec::new(alloc);
    names.extend(way)?;
    for place in 0..count {
        names.extend(below.back(place))?;
    }
    Ok(names)
}

// Makes the upper class, which names the last of the way and those below.
fn lay_upper(
    rt: &impl Abort,
    pair: &mut Pair,
    plan: &Plan,
    way: Option<PatchNo>,
    below: Side,
) -> Result<PatchNo, Fail> {
    let count = match plan.shape {
        Shape::Fan => below.count,
        _ => below.count.min(1),
    };
    let names = names_of_upper(pair.alloc, way, below, count)?;
    pair.make(rt, WAY, 1, names.as_slice())
}

fn lay(rt: &impl Abort, pair: &mut Pair, plan: &Plan) -> Result<Ends, Fail> {
    let early = pair.make(rt, RINGS, 0, &[])?;
    let below = lay_below(rt, pair, plan)?;
    let lower = pair.make(rt, WAY, 0, &[])?;
    let above = lay_above(rt, pair, plan, lower)?;
    let way = lay_way(rt, pair, plan, lower)?;
    let upper = lay_upper(rt, pair, plan, way, below)?;
    Ok(Ends {
        lower,
        upper,
        above,
        below,
        early,
    })
}

// Makes one class of each one at a multiple of the step and the one so far behind it.
fn join_by(rt: &impl Abort, pair: &mut Pair, side: Side, step: u32, far: u32) -> Result<(), Fail> {
    for turn in 0..side.count.checked_div(step).unwrap_or(0) {
        let place = turn.saturating_mul(step);
        pair.merge(rt, side.at(place), side.at(place.saturating_add(far)))?;
    }
    Ok(())
}

fn join_sides(
    rt: &impl Abort,
    pair: &mut Pair,
    ends: &Ends,
    step: u32,
    far: u32,
) -> Result<(), Fail> {
    join_by(rt, pair, ends.above, step, far)?;
    join_by(rt, pair, ends.below, step, far)
}

fn join_across(rt: &impl Abort, pair: &mut Pair, ends: &Ends) -> Result<(), Fail> {
    if let (Some(high), Some(low)) = (ends.above.back(0), ends.below.back(0)) {
        pair.merge(rt, high, low)?;
    }
    Ok(())
}

fn ring_above(rt: &impl Abort, pair: &mut Pair, ends: &Ends) -> Result<(), Fail> {
    let third = pair.make(rt, RINGS, 1, &[ends.upper])?;
    pair.merge(rt, third, ends.early)?;
    let last = pair.make(rt, WAY, 2, &[third])?;
    pair.merge(rt, last, ends.upper)
}

fn ring_below(rt: &impl Abort, pair: &mut Pair, ends: &Ends) -> Result<(), Fail> {
    let last = pair.make(rt, WAY, 2, &[ends.upper])?;
    pair.merge(rt, last, ends.lower)
}

fn join(rt: &impl Abort, pair: &mut Pair, joining: Joining, ends: &Ends) -> Result<(), Fail> {
    match joining {
        Joining::Apart => Ok(()),
        Joining::Pairs => join_sides(rt, pair, ends, 2, 1),
        Joining::Knots => join_sides(rt, pair, ends, 10, 5),
        Joining::Across => join_across(rt, pair, ends),
        Joining::UpperRing => ring_above(rt, pair, ends),
        Joining::LowerRing => ring_below(rt, pair, ends),
    }
}

// The least name of the classes of the way.
fn least_of_way(plan: &Plan, ends: &Ends) -> Option<PatchNo> {
    match plan.way {
        None | Some(0) => None,
        Some(_) => Some(ends.above.at(ends.above.count)),
    }
}

// What lies between the upper class and the lower one.
fn wanted(plan: &Plan, ends: &Ends) -> Option<PatchNo> {
    match plan.joining {
        Joining::UpperRing => plan.way.map(|_| ends.early),
        Joining::Across if ends.above.count > 0 && ends.below.count > 0 => ends.below.back(0),
        _ => least_of_way(plan, ends),
    }
}

fn name_of(shape: Shape) -> &'static str {
    match shape {
        Shape::Chain => "chain",
        Shape::Pile => "pile",
        Shape::Fan => "fan",
        Shape::Tree => "tree",
    }
}

// What lies between is wanted, and a failure tells of which plan.
fn expect_wanted(rt: &impl Abort, plan: &Plan, least: Option<PatchNo>, want: Option<PatchNo>) {
    let told = (name_of(plan.shape), plan.way, plan.above, plan.below);
    expect_eq(rt, &(told, least), &(told, want));
}

fn follow(rt: &impl Abort, pair: &mut Pair, plan: &Plan) -> Result<(), Fail> {
    let ends = lay(rt, pair, plan)?;
    join(rt, pair, plan.joining, &ends)?;
    let least = pair.expect(rt, ends.upper, ends.lower)?;
    expect_wanted(rt, plan, least, wanted(plan, &ends));
    pair.expect(rt, ends.lower, ends.upper)?;
    Ok(())
}

fn expect_plan(rt: &impl Abort, alloc: Global, plan: &Plan) -> Result<(), Fail> {
    let mut pair = Pair::new(alloc);
    follow(rt, &mut pair, plan)
}

// How many numbers a search comes to above the lower class, and below the upper one. It is looked for on both sides by turns, at 64
// more of them in each.
const NUMBERS: [(u32, u32); 31] = [
    (1, 1),
    (63, 1),
    (64, 1),
    (65, 1),
    (1, 63),
    (1, 64),
    (1, 65),
    (1, 1100),
    (1100, 1),
    (63, 64),
    (64, 64),
    (64, 65),
    (65, 63),
    (65, 64),
    (65, 65),
    (255, 256),
    (256, 256),
    (256, 257),
    (257, 255),
    (257, 256),
    (257, 257),
    (64, 257),
    (257, 64),
    (63, 1100),
    (1100, 63),
    (255, 1100),
    (1100, 255),
    (1100, 1088),
    (1100, 1089),
    (1100, 1100),
    (1100, 2049),
];

fn expect_numbers(
    rt: &impl Abort,
    alloc: Global,
    shape: Shape,
    joining: Joining,
) -> Result<(), Fail> {
    for (above, below) in NUMBERS {
        let plan = Plan {
            shape,
            joining,
            way: Some(2),
            above,
            below,
        };
        expect_plan(rt, alloc, &plan)?;
    }
    Ok(())
}

// No way, and some with none, one and three classes on it.
const WAYS: [Option<u32>; 4] = [None, Some(0), Some(1), Some(3)];

fn expect_ways(rt: &impl Abort, alloc: Global, shape: Shape, joining: Joining) -> Result<(), Fail> {
    for way in WAYS {
        let plan = Plan {
            shape,
            joining,
            way,
            above: 65,
            below: 64,
        };
        expect_plan(rt, alloc, &plan)?;
    }
    Ok(())
}

const SHAPES: [Shape; 4] = [Shape::Chain, Shape::Pile, Shape::Fan, Shape::Tree];

fn expect_shapes(rt: &impl Abort, alloc: Global, joining: Joining) -> Result<(), Fail> {
    for shape in SHAPES {
        expect_ways(rt, alloc, shape, joining)?;
        expect_numbers(rt, alloc, shape, joining)?;
    }
    Ok(())
}

#[test]
fn between_agrees_where_no_class_is_joined(rt: HostRuntime) -> Result<(), Fail> {
    expect_shapes(&rt, rt.alloc(), Joining::Apart)
}

#[test]
fn between_agrees_where_classes_are_joined_by_twos(rt: HostRuntime) -> Result<(), Fail> {
    expect_shapes(&rt, rt.alloc(), Joining::Pairs)
}

#[test]
fn between_agrees_where_classes_lie_in_small_rings(rt: HostRuntime) -> Result<(), Fail> {
    expect_shapes(&rt, rt.alloc(), Joining::Knots)
}

#[test]
fn between_agrees_where_classes_above_and_below_are_joined(rt: HostRuntime) -> Result<(), Fail> {
    expect_shapes(&rt, rt.alloc(), Joining::Across)
}

#[test]
fn between_agrees_where_the_upper_class_lies_in_a_ring(rt: HostRuntime) -> Result<(), Fail> {
    expect_shapes(&rt, rt.alloc(), Joining::UpperRing)
}

#[test]
fn between_agrees_where_the_lower_class_lies_in_a_ring(rt: HostRuntime) -> Result<(), Fail> {
    expect_shapes(&rt, rt.alloc(), Joining::LowerRing)
}

static RING_BY_AN_ILLEGAL_MERGE: [Move<'static>; 6] = [
    Move::Make(2, 0, 1, None),
    Move::Make(0, 0, 1, Some(0)),
    Move::Make(1, 0, 1, Some(1)),
    Move::Make(0, 1, 2, Some(2)),
    Move::Merge(1, 3, 1),
    Move::Paths(1, 0, Path::There, Some(2)),
];

// A third class depends on the upper one and is one on which that depends: it lies between, by a path on which the upper one comes
// twice.
#[test]
fn a_class_in_a_ring_with_the_upper_one_lies_between(rt: HostRuntime) -> Result<(), Fail> {
    walk(&rt, rt.alloc(), &RING_BY_AN_ILLEGAL_MERGE)
}

// How many patches a graph made by chance gets.
const SIZES: [u32; 8] = [1, 63, 64, 65, 255, 256, 257, 1100];

// In how many steps a merge comes.
const RARITIES: [u32; 4] = [3, 20, 100, 1000];

// In how many steps what a send takes of a block is made durable.
const SENDS: u32 = 600;

// How many graphs are made of each size and rarity.
const SEEDS: u32 = 5;

// How often two patches of one graph are asked about.
const QUESTIONS: u32 = 40;

// A number that was made, and one that wasn't where there is none.
fn any_no(chance: &mut Chance, made: u32) -> PatchNo {
    PatchNo(chance.below(made))
}

// One of the last forty.
fn late_no(chance: &mut Chance, made: u32) -> PatchNo {
    let back = chance.below(made.min(40));
    PatchNo(made.saturating_sub(1).saturating_sub(back))
}

// A patch of up to four bytes, which names up to two earlier ones.
fn make_by_chance(rt: &impl Abort, pair: &mut Pair, chance: &mut Chance) -> Result<(), Fail> {
    let made = pair.graph.made();
    let block = chance.below(3);
    let start = chance.below(200) as usize;
    let stop = start + 1 + chance.below(4) as usize;
    let names = [late_no(chance, made), any_no(chance, made)];
    let count = chance.below(3).min(made) as usize;
    pair.make_over(rt, block, start, stop, names.get(..count).unwrap_or(&[]))?;
    Ok(())
}

fn step_by_chance(
    rt: &impl Abort,
    pair: &mut Pair,
    chance: &mut Chance,
    rarity: u32,
) -> Result<(), Fail> {
    make_by_chance(rt, pair, chance)?;
    let made = pair.graph.made();
    if chance.below(rarity) == 0 {
        pair.merge(rt, any_no(chance, made), any_no(chance, made))?;
    }
    if chance.below(SENDS) == 0 {
        pair.land(chance.below(3))?;
    }
    Ok(())
}

// How often a class was told.
fn ask_by_chance(rt: &impl Abort, pair: &mut Pair, chance: &mut Chance) -> Result<u32, Fail> {
    let made = pair.graph.made();
    let mut told: u32 = 0;
    for _ in 0..QUESTIONS {
        let (a, b) = (any_no(chance, made), any_no(chance, made));
        if pair.expect(rt, a, b)?.is_some() {
            told = told.saturating_add(1);
        }
    }
    Ok(told)
}

fn grow_by_chance(
    rt: &impl Abort,
    pair: &mut Pair,
    chance: &mut Chance,
    size: u32,
    rarity: u32,
) -> Result<u32, Fail> {
    for _ in 0..size {
        step_by_chance(rt, pair, chance, rarity)?;
    }
    ask_by_chance(rt, pair, chance)
}

fn expect_graph(
    rt: &impl Abort,
    alloc: Global,
    size: u32,
    seed: u32,
    rarity: u32,
) -> Result<u32, Fail> {
    let mut chance = chance_from(seed);
    let mut pair = Pair::new(alloc);
    grow_by_chance(rt, &mut pair, &mut chance, size, rarity)
}

fn expect_rarities(rt: &impl Abort, alloc: Global, size: u32, seed: u32) -> Result<u32, Fail> {
    let mut told: u32 = 0;
    for rarity in RARITIES {
        told = told.saturating_add(expect_graph(rt, alloc, size, seed, rarity)?);
    }
    Ok(told)
}

fn expect_sizes(rt: &impl Abort, alloc: Global, seed: u32) -> Result<u32, Fail> {
    let mut told: u32 = 0;
    for size in SIZES {
        told = told.saturating_add(expect_rarities(rt, alloc, size, seed)?);
    }
    Ok(told)
}

// The same graphs each time, and any two of their patches: merges are made whether they are legal or not.
#[test]
fn between_agrees_on_graphs_made_by_chance(rt: HostRuntime) -> Result<(), Fail> {
    let mut told: u32 = 0;
    for seed in 0..SEEDS {
        told = told.saturating_add(expect_sizes(&rt, rt.alloc(), seed)?);
    }
    let is_often = told > 300 && told < SEEDS * 32 * QUESTIONS - 300;
    expect_eq(&rt, &(&told, &is_often), &(&told, &true));
    Ok(())
}

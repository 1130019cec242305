//! Walks through the calls against a slow model.
use crate::expecting::expect_eq;
use linked_list_allocator::LocalHeap;
use patch_links::{Class, Links, Reach};
use patch_model::{BlockNo, Mark, PatchNo};
use patch_numbers::NumberList;
use std::alloc::{AllocError, Global};
use std::process::Abort;
use std::test::Fail;

mod model;

use model::Slow;

// How many blocks the walks go over.
const BLOCKS: u32 = 4;

// Each so far from the one before that the last of them is the last one that `next_open` tells.
const FAR: u32 = 5_592_405;

// Where the blocks of a walk by chance lie: one after another, or far apart. Those far apart are forgotten as soon as they may be.
#[derive(Clone, Copy)]
enum Layout {
    Together,
    Apart,
}

impl Layout {
    fn number(self, block: u32) -> u32 {
        match self {
            Layout::Together => block,
            Layout::Apart => block.wrapping_mul(FAR),
        }
    }
}

fn new_class(
    alloc: Global,
    no: u32,
    block: u32,
    after: &[u32],
) -> Result<Class<Global>, AllocError> {
    let mut depends = NumberList::new(alloc);
    for other in after {
        depends.push(PatchNo(*other))?;
    }
    Ok(Class {
        name: PatchNo(no),
        members: NumberList::of(alloc, PatchNo(no)),
        block: BlockNo(block),
        mark: Mark::Memory,
        hard: false,
        start: 0,
        stop: 1,
        after: depends,
        reach: Reach::none(),
    })
}

fn expect_numbers(rt: &impl Abort, ready: &[PatchNo], numbers: &[u32]) {
    expect_eq(rt, &ready.len(), &numbers.len());
    for at in 0..numbers.len() {
        expect_eq(rt, &ready.get(at), &Some(&PatchNo(numbers[at])));
    }
}

// What may be sent of the block are these.
fn expect_ready(
    rt: &impl Abort,
    links: &Links<Global>,
    alloc: Global,
    block: u32,
    numbers: &[u32],
) -> Result<(), AllocError> {
    let ready = links.ready(alloc, BlockNo(block))?;
    expect_numbers(rt, ready.as_slice(), numbers);
    expect_eq(rt, &links.any_ready(BlockNo(block)), &!numbers.is_empty());
    Ok(())
}

fn expect_block(
    rt: &impl Abort,
    links: &Links<Global>,
    slow: &Slow,
    block: u32,
) -> Result<(), AllocError> {
    let none = !slow.classes.iter().any(|class| class.block == block);
    expect_eq(rt, &links.is_empty_of(BlockNo(block)), &none);
    let numbers = slow.ready_numbers(block)?;
    let is_open = !numbers.is_empty() && !slow.is_flying(block);
    let is_next = links.next_open(block as usize) == Some(BlockNo(block));
    expect_eq(rt, &is_next, &is_open);
    expect_ready(rt, links, slow.alloc, block, numbers.as_slice())
}

fn expect_all(
    rt: &impl Abort,
    links: &Links<Global>,
    slow: &Slow,
    layout: Layout,
) -> Result<(), AllocError> {
    for block in 0..BLOCKS {
        expect_block(rt, links, slow, layout.number(block))?;
    }
    Ok(())
}

// The class of a patch is found at this key.
fn expect_key(rt: &impl Abort, links: &Links<Global>, no: u32, key: usize) {
    expect_eq(rt, &links.find(PatchNo(no)), &Some(key));
}

// Puts in a class, which then stands at the key that was told.
fn put_in(
    rt: &impl Abort,
    links: &mut Links<Global>,
    class: Class<Global>,
) -> Result<(), AllocError> {
    assert!(rt; links.may_add(&class));
    let no = class.name.0;
    let key = links.next_key();
    let added = links.add(class)?;
    expect_eq(rt, &added, &key);
    expect_key(rt, links, no, key);
    assert!(rt; links.contains(key));
    Ok(())
}

// Links, a slow model of them, and how many patches were made and classes joined.
#[derive(Drop)]
struct Pair {
    links: Links<Global>,
    slow: Slow,
    made: u32,
    joined: u32,
    layout: Layout,
}

impl Pair {
    fn new(alloc: Global, layout: Layout) -> Pair {
        let slow = Slow {
            classes: Vec::new(alloc),
            alloc,
        };
        Pair {
            links: Links::new(alloc),
            slow,
            made: 0,
            joined: 0,
            layout,
        }
    }

    fn add(&mut self, rt: &impl Abort, block: u32, after: &[u32]) -> Result<(), AllocError> {
        let no = self.made;
        let class = new_class(self.slow.alloc, no, block, after)?;
        put_in(rt, &mut self.links, class)?;
        self.made = no.wrapping_add(1);
        self.slow.add(no, block, after)
    }

    fn fly(&mut self, block: u32) -> Result<(), AllocError> {
        self.links.fly(BlockNo(block));
        self.slow.fly(block)
    }

    fn land(&mut self, block: u32) {
        self.links.land(BlockNo(block));
        self.slow.land(block);
    }

    fn forget(&mut self, block: u32) {
        self.links.forget(BlockNo(block));
    }

    // Makes durable what is in flight of a block, and forgets it where blocks lie apart.
    fn clear(&mut self, block: u32) {
        self.land(block);
        match self.layout {
            Layout::Together => {}
            Layout::Apart => self.forget(block),
        }
    }

    // Joins the classes of two patches, where that makes no ring.
    fn join(&mut self, rt: &impl Abort, keep: u32, gone: u32) -> Result<(), AllocError> {
        let may = self.slow.may_join(keep, gone);
        if may && self.slow.makes_ring(keep, gone)? {
            return Ok(());
        }
        match (
            self.links.find(PatchNo(keep)),
            self.links.find(PatchNo(gone)),
        ) {
            (Some(one), Some(other)) => self.join_at(rt, (keep, one), (gone, other), may),
            _ => Ok(()),
        }
    }

    // Joins them, with their keys, if they may be joined. Else nothing changes.
    fn join_at(
        &mut self,
        rt: &impl Abort,
        keep: (u32, usize),
        gone: (u32, usize),
        may: bool,
    ) -> Result<(), AllocError> {
        self.links.join(keep.1, gone.1)?;
        expect_key(rt, &self.links, keep.0, keep.1);
        if !may {
            expect_key(rt, &self.links, gone.0, gone.1);
            return Ok(());
        }
        expect_key(rt, &self.links, gone.0, keep.1);
        assert!(rt; !self.links.contains(gone.1));
        self.joined = self.joined.wrapping_add(1);
        self.slow.join(keep.0, gone.0)
    }

    fn expect(&self, rt: &impl Abort) -> Result<(), AllocError> {
        expect_all(rt, &self.links, &self.slow, self.layout)
    }
}

// A small generator of numbers that look random.
#[derive(Drop)]
struct Source {
    state: u64,
}

impl Source {
    // A number up to this one.
    fn below(&mut self, bound: u32) -> u32 {
        self.state = self
            .state
            .wrapping_mul(6_364_136_223_846_793_005)
            .wrapping_add(1_442_695_040_888_963_407);
        let high = self.state >> 33;
        let wide = high % (u64::from(bound) + 1).max(1);
        u32::try_from(wide).unwrap_or(0).min(bound)
    }
}

// Numbers of patches that were made, most of them lately.
fn some_numbers(alloc: Global, source: &mut Source, made: u32) -> Result<Vec<u32>, AllocError> {
    let mut all = Vec::new(alloc);
    if made == 0 {
        return Ok(all);
    }
    for _ in 0..source.below(3) {
        let back = source.below(11).min(made - 1);
        all.push(made - 1 - back)?;
    }
    Ok(all)
}

fn join_some(rt: &impl Abort, pair: &mut Pair, source: &mut Source) -> Result<(), AllocError> {
    let keep = pair.made.saturating_sub(source.below(9));
    for back in 1..6 {
        pair.join(rt, keep, keep.saturating_sub(back))?;
    }
    Ok(())
}

fn add_some(
    rt: &impl Abort,
    pair: &mut Pair,
    source: &mut Source,
    block: u32,
) -> Result<(), AllocError> {
    let after = some_numbers(pair.slow.alloc, source, pair.made)?;
    pair.add(rt, block, after.as_slice())
}

fn step_by_chance(rt: &impl Abort, pair: &mut Pair, source: &mut Source) -> Result<(), AllocError> {
    let block = pair.layout.number(source.below(BLOCKS - 1));
    match source.below(14) {
        0 | 1 | 2 | 3 | 4 => add_some(rt, pair, source, block),
        5 | 6 => pair.fly(block),
        7 | 8 => {
            pair.clear(block);
            Ok(())
        }
        _ => join_some(rt, pair, source),
    }
}

fn walk_by_chance(rt: &impl Abort, pair: &mut Pair, source: &mut Source) -> Result<(), AllocError> {
    for _ in 0..300 {
        step_by_chance(rt, pair, source)?;
        pair.expect(rt)?;
    }
    assert!(rt; pair.joined > 10);
    Ok(())
}

// Three hundred asks: after each the links answer for every block what the slow model computes.
#[test]
fn a_long_walk_agrees_with_the_model(rt: HostRuntime) -> Result<(), Fail> {
    let mut pair = Pair::new(rt.alloc(), Layout::Together);
    Ok(walk_by_chance(&rt, &mut pair, &mut Source { state: 1 })?)
}

// The same where blocks lie far apart, and what is kept of those without a class goes.
#[test]
fn a_long_walk_over_blocks_far_apart_agrees_with_the_model(rt: HostRuntime) -> Result<(), Fail> {
    let mut pair = Pair::new(rt.alloc(), Layout::Apart);
    Ok(walk_by_chance(&rt, &mut pair, &mut Source { state: 2 })?)
}

// Ten patches more: the first one stays, on a block of its own, and the others are made durable.
fn add_ten(
    rt: &impl Abort,
    links: &mut Links<Global>,
    alloc: Global,
    first: u32,
) -> Result<(), AllocError> {
    put_in(rt, links, new_class(alloc, first, 1, &[])?)?;
    for step in 1..10u32 {
        let no = first.saturating_add(step);
        put_in(rt, links, new_class(alloc, no, 0, &[])?)?;
    }
    links.fly(BlockNo(0));
    links.land(BlockNo(0));
    Ok(())
}

// Of so many numbers every tenth leads to its own class, and the others lead nowhere.
fn expect_tenths(rt: &impl Abort, links: &Links<Global>, made: u32) {
    for no in 0..made {
        if no % 10 == 0 {
            expect_name(rt, links, no, no);
        } else {
            expect_eq(rt, &links.find(PatchNo(no)), &None);
        }
    }
}

fn walk_in_tens(
    rt: &impl Abort,
    links: &mut Links<Global>,
    alloc: Global,
) -> Result<(), AllocError> {
    for ten in 0..60u32 {
        add_ten(rt, links, alloc, ten * 10)?;
        expect_tenths(rt, links, ten * 10 + 10);
    }
    Ok(())
}

// Those that lead nowhere are let go by and by, and no other number's class is another then.
#[test]
fn live_numbers_lead_to_their_classes_between_durable_ones(rt: HostRuntime) -> Result<(), Fail> {
    let mut links = Links::new(rt.alloc());
    Ok(walk_in_tens(&rt, &mut links, rt.alloc())?)
}

// Where the first patch is made durable last, all that were made before it are passed over with it.
#[test]
fn all_that_lead_nowhere_are_passed_over(rt: HostRuntime) -> Result<(), Fail> {
    let mut links = Links::new(rt.alloc());
    add_ten(&rt, &mut links, rt.alloc(), 0)?;
    expect_eq(&rt, &links.lowest(), &0);
    links.fly(BlockNo(1));
    links.land(BlockNo(1));
    expect_eq(&rt, &links.lowest(), &10);
    Ok(())
}

// A patch that depends on nothing, in a heap.
fn class_in(heap: &LocalHeap, no: u32, block: u32) -> Class<&LocalHeap> {
    Class {
        name: PatchNo(no),
        members: NumberList::of(heap, PatchNo(no)),
        block: BlockNo(block),
        mark: Mark::Memory,
        hard: false,
        start: 0,
        stop: 1,
        after: NumberList::new(heap),
        reach: Reach::none(),
    }
}

// Patches that are made durable one after another.
fn walk_in_heap(rt: &impl Abort, heap: &LocalHeap) -> Result<(), AllocError> {
    let mut links = Links::new(heap);
    for no in 0..4_000u32 {
        let class = class_in(heap, no, 0);
        assert!(rt; links.may_add(&class));
        links.add(class)?;
        links.fly(BlockNo(0));
        links.land(BlockNo(0));
    }
    Ok(())
}

// A heap in which the map has no room for a tenth of their numbers is enough, since those that lead nowhere go.
#[test]
fn durable_numbers_take_no_memory_for_good(rt: HostRuntime) -> Result<(), Fail> {
    let heap = LocalHeap::new(rt.alloc(), 8_192)?;
    Ok(walk_in_heap(&rt, &heap)?)
}

// Patches on one block after another, each made durable and its block forgotten.
fn walk_over_blocks(rt: &impl Abort, heap: &LocalHeap, first: u32) -> Result<(), AllocError> {
    let mut links = Links::new(heap);
    for no in 0..4_000u32 {
        let block = first.wrapping_add(no);
        let class = class_in(heap, no, block);
        assert!(rt; links.may_add(&class));
        links.add(class)?;
        links.fly(BlockNo(block));
        links.land(BlockNo(block));
        links.forget(BlockNo(block));
    }
    Ok(())
}

// A heap in which there is no room for the lists of a tenth of the blocks is enough, for the first blocks and for those behind all that
// `next_open` tells.
#[test]
fn forgotten_blocks_take_no_memory_for_good(rt: HostRuntime) -> Result<(), Fail> {
    let heap = LocalHeap::new(rt.alloc(), 16_384)?;
    walk_over_blocks(&rt, &heap, 0)?;
    Ok(walk_over_blocks(&rt, &heap, 16_777_216)?)
}

// A move of a walk, and what is expected of it.
#[derive(Clone, Copy)]
enum Move<'a> {
    // A patch on a block, which depends on these.
    Add(u32, &'a [u32]),
    // One that depends on all before it.
    AddOnAll(u32),
    // So many on the first block, each made durable before the next.
    AddDurable(u32),
    // What may be sent of a block is in flight.
    Send(u32),
    // What is in flight of a block is durable.
    Complete(u32),
    // The classes of two patches become one, at the first one's key.
    Join(u32, u32),
    // What may be sent of a block.
    Ready(u32, &'a [u32]),
    // The name of a patch's class.
    Name(u32, u32),
    // The block has no class.
    Empty(u32),
    // What is kept of a block goes, if it has no class.
    Forget(u32),
    // The least block from one on of which a write can begin.
    NextOpen(usize, Option<u32>),
    // The links answer for every block what the slow model computes.
    Agree,
}

fn add_on_all(rt: &impl Abort, pair: &mut Pair, block: u32) -> Result<(), AllocError> {
    let mut after = Vec::new(pair.slow.alloc);
    after.extend(0..pair.made)?;
    pair.add(rt, block, after.as_slice())
}

fn add_durable(rt: &impl Abort, pair: &mut Pair, count: u32) -> Result<(), AllocError> {
    for _ in 0..count {
        pair.add(rt, 0, &[])?;
        pair.fly(0)?;
        pair.land(0);
    }
    Ok(())
}

fn expect_name(rt: &impl Abort, links: &Links<Global>, no: u32, name: u32) {
    let key = links.find(PatchNo(no)).unwrap_or(0);
    let found = match links.class_at(key) {
        Some(class) => Some(class.name),
        None => None,
    };
    expect_eq(rt, &found, &Some(PatchNo(name)));
}

fn expect_next(rt: &impl Abort, links: &Links<Global>, from: usize, block: Option<u32>) {
    let next = match links.next_open(from) {
        Some(found) => Some(found.0),
        None => None,
    };
    expect_eq(rt, &next, &block);
}

fn step(rt: &impl Abort, pair: &mut Pair, next: &Move) -> Result<(), AllocError> {
    match next {
        Move::Add(block, after) => return pair.add(rt, *block, after),
        Move::AddOnAll(block) => return add_on_all(rt, pair, *block),
        Move::AddDurable(count) => return add_durable(rt, pair, *count),
        Move::Send(block) => return pair.fly(*block),
        Move::Complete(block) => pair.land(*block),
        Move::Join(keep, gone) => return pair.join(rt, *keep, *gone),
        Move::Ready(block, numbers) => {
            return expect_ready(rt, &pair.links, pair.slow.alloc, *block, numbers);
        }
        Move::Name(no, name) => expect_name(rt, &pair.links, *no, *name),
        Move::Empty(block) => assert!(rt; pair.links.is_empty_of(BlockNo(*block))),
        Move::Forget(block) => pair.forget(*block),
        Move::NextOpen(from, block) => expect_next(rt, &pair.links, *from, *block),
        Move::Agree => return pair.expect(rt),
    }
    Ok(())
}

fn take_steps(rt: &impl Abort, pair: &mut Pair, moves: &[Move]) -> Result<(), AllocError> {
    for next in moves {
        step(rt, pair, next)?;
    }
    Ok(())
}

fn walk(rt: &impl Abort, alloc: Global, moves: &[Move]) -> Result<(), Fail> {
    let mut pair = Pair::new(alloc, Layout::Together);
    Ok(take_steps(rt, &mut pair, moves)?)
}

// A chain through two blocks: each link may be sent once the one before it is durable.
const LINK_BY_LINK: [Move<'static>; 13] = [
    Move::Add(0, &[]),
    Move::Add(1, &[0]),
    Move::Add(0, &[1]),
    Move::Ready(0, &[0]),
    Move::Ready(1, &[]),
    Move::Send(0),
    Move::Ready(1, &[]),
    Move::Complete(0),
    Move::Ready(1, &[1]),
    Move::Ready(0, &[]),
    Move::Send(1),
    Move::Complete(1),
    Move::Ready(0, &[2]),
];

#[test]
fn a_chain_goes_link_by_link(rt: HostRuntime) -> Result<(), Fail> {
    walk(&rt, rt.alloc(), &LINK_BY_LINK)
}

// Two hundred patches are made durable. One that names them all, and a live one behind them, waits for that one alone; so does
// one that names the live one first.
const MANY_DURABLE: [Move<'static>; 10] = [
    Move::AddDurable(200),
    Move::Add(1, &[]),
    Move::AddOnAll(0),
    Move::Add(0, &[200, 3, 199]),
    Move::Ready(0, &[]),
    Move::Agree,
    Move::Send(1),
    Move::Complete(1),
    Move::Ready(0, &[201, 202]),
    Move::Agree,
];

#[test]
fn durable_patches_keep_nothing_out(rt: HostRuntime) -> Result<(), Fail> {
    walk(&rt, rt.alloc(), &MANY_DURABLE)
}

// A diamond within a block is ready at once; with one side elsewhere, its top waits for that.
const DIAMOND: [Move<'static>; 13] = [
    Move::Add(0, &[]),
    Move::Add(0, &[0]),
    Move::Add(1, &[0]),
    Move::Add(0, &[1, 2]),
    Move::Ready(0, &[0, 1]),
    Move::Send(0),
    Move::Complete(0),
    Move::Ready(0, &[]),
    Move::Ready(1, &[2]),
    Move::Send(1),
    Move::Complete(1),
    Move::Ready(0, &[3]),
    Move::Agree,
];

#[test]
fn a_diamond_waits_for_both_sides(rt: HostRuntime) -> Result<(), Fail> {
    walk(&rt, rt.alloc(), &DIAMOND)
}

// A class that may be sent joins one that waits: neither may be sent, nor what depends on the first, until what they wait
// for is durable.
const JOINED_TO_A_WAITING_ONE: [Move<'static>; 11] = [
    Move::Add(1, &[]),
    Move::Add(0, &[]),
    Move::Add(0, &[1]),
    Move::Add(0, &[0]),
    Move::Ready(0, &[1, 2]),
    Move::Join(1, 3),
    Move::Ready(0, &[]),
    Move::Send(1),
    Move::Complete(1),
    Move::Ready(0, &[1, 2, 3]),
    Move::Agree,
];

#[test]
fn a_ready_class_joins_a_waiting_one(rt: HostRuntime) -> Result<(), Fail> {
    walk(&rt, rt.alloc(), &JOINED_TO_A_WAITING_ONE)
}

// A class that may be sent joins one that waits, and just what follows it may no more be sent, until what they wait for is durable.
const FOLLOWED_AND_JOINED: [Move<'static>; 17] = [
    Move::Add(1, &[]),
    Move::Add(0, &[]),
    Move::Add(0, &[1]),
    Move::Add(0, &[]),
    Move::Add(0, &[2, 1]),
    Move::Add(0, &[3]),
    Move::Add(0, &[0]),
    Move::Ready(0, &[1, 2, 3, 4, 5]),
    Move::Join(6, 1),
    Move::Ready(0, &[3, 5]),
    Move::Agree,
    Move::Join(3, 5),
    Move::Ready(0, &[3, 5]),
    Move::Send(1),
    Move::Complete(1),
    Move::Ready(0, &[1, 2, 3, 4, 5, 6]),
    Move::Agree,
];

#[test]
fn what_follows_a_ready_class_waits_with_it(rt: HostRuntime) -> Result<(), Fail> {
    walk(&rt, rt.alloc(), &FOLLOWED_AND_JOINED)
}

// Two classes of which one waits for the other alone, elsewhere kept out: joined they wait for the rest.
const WAITING_FOR_ITSELF: [Move<'static>; 14] = [
    Move::Add(1, &[]),
    Move::Add(0, &[0]),
    Move::Add(0, &[1, 1]),
    Move::Ready(0, &[]),
    Move::Join(2, 1),
    Move::Ready(0, &[]),
    Move::Send(1),
    Move::Complete(1),
    Move::Ready(0, &[1, 2]),
    Move::Name(1, 1),
    Move::Send(0),
    Move::Complete(0),
    Move::Empty(0),
    Move::Agree,
];

#[test]
fn what_waits_for_itself_waits_no_more(rt: HostRuntime) -> Result<(), Fail> {
    walk(&rt, rt.alloc(), &WAITING_FOR_ITSELF)
}

// The last block that `next_open` tells, the one behind it, which it never tells, and one before them.
const AT_THE_LAST_BLOCKS: [Move<'static>; 24] = [
    Move::Add(16_777_215, &[]),
    Move::Add(16_777_216, &[]),
    Move::Add(7, &[0]),
    Move::NextOpen(0, Some(16_777_215)),
    Move::NextOpen(16_777_215, Some(16_777_215)),
    Move::NextOpen(16_777_216, None),
    Move::Forget(16_777_215),
    Move::Ready(16_777_215, &[0]),
    Move::Send(16_777_215),
    Move::NextOpen(0, None),
    Move::Complete(16_777_215),
    Move::NextOpen(0, Some(7)),
    Move::Forget(16_777_215),
    Move::Empty(16_777_215),
    Move::Ready(16_777_215, &[]),
    Move::NextOpen(8, None),
    Move::Add(16_777_215, &[2]),
    Move::NextOpen(8, None),
    Move::Send(7),
    Move::Complete(7),
    Move::Forget(7),
    Move::NextOpen(0, Some(16_777_215)),
    Move::Ready(16_777_215, &[3]),
    Move::Ready(16_777_216, &[1]),
];

#[test]
fn blocks_are_told_up_to_the_last_one(rt: HostRuntime) -> Result<(), Fail> {
    walk(&rt, rt.alloc(), &AT_THE_LAST_BLOCKS)
}

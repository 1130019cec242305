//! A thousand asks of a cache, beside a graph that is told of each: what may be written of a block is what a search finds.
use super::asked::{Asked, ask_of};
use super::waves::drawn;
use super::*;
use patch_graph::Graph;
use patch_graph::laws::ready_slow;
use patch_model::MAX_PATCHES;

// How many blocks the asks go over.
const BLOCKS: u32 = 8;

const ASKS: u32 = 1000;

// What a patch may put in a block, or the first few of them.
const BYTES: &[u8] = &[7; 4];

// What the asks have come to: the number that was drawn last, the two newest patches of each block, which blocks have a flight,
// and how many patches were hard, and how many classes were merged.
#[derive(Clone, Copy)]
struct Walk {
    seed: u32,
    newest: [(PatchNo, PatchNo); 8],
    flying: [bool; 8],
    hard: u32,
    merged: u32,
}

impl Walk {
    // A number below this one, and 0 for none.
    fn below(&mut self, limit: u32) -> u32 {
        self.seed = drawn(self.seed);
        (self.seed >> 8).checked_rem(limit).unwrap_or(0)
    }

    fn is_flying(&self, block: u32) -> bool {
        self.flying.get(block as usize) == Some(&true)
    }

    fn set_flying(&mut self, block: BlockNo, flying: bool) {
        if let Some(place) = self.flying.get_mut(block.0 as usize) {
            *place = flying;
        }
    }

    // A patch of the block was made.
    fn note_made(&mut self, block: BlockNo, no: PatchNo, hard: bool) {
        if let Some(newest) = self.newest.get_mut(block.0 as usize) {
            *newest = (newest.1, no);
        }
        self.hard = self.hard.saturating_add(u32::from(hard));
    }
}

// A patch of a few bytes, which may drop its undo bytes at every other time, and at every other time names one of the forty
// before it.
fn create_drawn<'a>(walk: &mut Walk, made: u32, named: &'a mut [u32; 1]) -> Asked<'a> {
    let (block, start) = (walk.below(BLOCKS), walk.below(12) as usize);
    let count = 1 + walk.below(4) as usize;
    let bytes = BYTES.get(..count).unwrap_or(BYTES);
    let may_drop = walk.below(2) == 0;
    let back = walk.below(80);
    *named = [made.saturating_sub(1).saturating_sub(back)];
    let after: &[u32] = if back < made.min(40) { named } else { &[] };
    if may_drop {
        Asked::Bare(block, start, bytes, after)
    } else {
        Asked::Patch(block, start, bytes, after)
    }
}

fn ask_drawn<'a>(walk: &mut Walk, made: u32, named: &'a mut [u32; 1]) -> Asked<'a> {
    let turn = walk.below(8);
    if turn < 4 {
        return create_drawn(walk, made, named);
    }
    let block = walk.below(BLOCKS);
    match (turn, walk.newest.get(block as usize)) {
        (4, Some((a, b))) => Asked::Merge(a.0, b.0),
        (5, _) => Asked::Send(block),
        _ => Asked::Complete(block),
    }
}

fn tell_made(rt: &impl Abort, graph: &mut Graph, walk: &mut Walk, ask: &Ask, no: PatchNo) {
    let Ask::Create {
        block,
        start,
        bytes,
        after,
        undo,
    } = ask
    else {
        panic!(rt; "no patch was asked for");
    };
    let stop = start.saturating_add(bytes.as_slice().len());
    assert!(rt; graph.made() < MAX_PATCHES && *start < stop);
    let added = graph.add(*block, *start, stop, after.as_slice(), *undo);
    let added = added.expect(rt, "memory");
    expect_equal(rt, "number", added.no, no);
    walk.note_made(*block, no, added.hard);
}

// A send takes what the search finds.
fn expect_found(
    rt: &impl Abort,
    alloc: Global,
    graph: &mut Graph,
    block: BlockNo,
    numbers: &[PatchNo],
) {
    let slow = ready_slow(graph, alloc, block).expect(rt, "memory");
    expect_equal(rt, "found", numbers, slow.as_slice());
    drop(slow);
}

// The graph is told what the cache has accepted.
fn tell(
    rt: &impl Abort,
    alloc: Global,
    graph: &mut Graph,
    walk: &mut Walk,
    ask: &Ask,
    answer: &Answer,
) {
    match (ask, answer) {
        (_, Answer::Made(no)) => tell_made(rt, graph, walk, ask, *no),
        (Ask::Merge { a, b }, Answer::Merged(name)) => {
            expect_equal(rt, "name", graph.merge(*a, *b), Ok(*name));
            walk.merged = walk.merged.saturating_add(1);
        }
        (_, Answer::Sent { block, numbers, .. }) => {
            expect_found(rt, alloc, graph, *block, numbers.as_slice());
            graph.mark_flight(*block);
            walk.set_flying(*block, true);
        }
        (_, Answer::Landed { block, .. }) => {
            graph.mark_durable(*block);
            walk.set_flying(*block, false);
        }
        _ => {}
    }
}

// What may be written of the block is what a search finds. Whether something may.
fn is_ready(rt: &impl Abort, alloc: Global, graph: &mut Graph, block: BlockNo) -> bool {
    let ready = graph.ready(alloc, block).expect(rt, "memory");
    expect_found(rt, alloc, graph, block, ready.as_slice());
    let some = !ready.is_empty();
    drop(ready);
    some
}

// The least block without a flight of which something may be written.
fn least_ready(rt: &impl Abort, alloc: Global, graph: &mut Graph, walk: &Walk) -> Option<BlockNo> {
    let mut least = None;
    for n in 0..BLOCKS {
        let ready = is_ready(rt, alloc, graph, BlockNo(n));
        if ready && !walk.is_flying(n) && least.is_none() {
            least = Some(BlockNo(n));
        }
    }
    least
}

type Drawn = Bench<Global, MemDevice>;

// Asks once more, and tells the graph what came of it.
fn ask_once(rt: &impl Abort, alloc: Global, bench: &mut Drawn, graph: &mut Graph, walk: &mut Walk) {
    let mut named = [0];
    let asked = ask_drawn(walk, bench.cache.made(), &mut named);
    let ask = ask_of(rt, alloc, &asked);
    let answer = bench
        .cache
        .answer(&mut bench.flights, &mut bench.device, &ask);
    tell(rt, alloc, graph, walk, &ask, &answer);
    drop(answer);
    drop(ask);
}

fn ask_each(rt: &impl Abort, alloc: Global, bench: &mut Drawn, walk: &mut Walk) {
    let mut graph = Graph::new(alloc);
    for _ in 0..ASKS {
        ask_once(rt, alloc, bench, &mut graph, walk);
        let least = least_ready(rt, alloc, &mut graph, walk);
        expect_equal(rt, "next", bench.cache.next_ready(), least);
    }
    drop(graph);
}

// The same thousand asks each time.
#[test]
fn ready_agrees(rt: HostRuntime) {
    let mut walk = Walk {
        seed: 1,
        newest: [(PatchNo(0), PatchNo(0)); 8],
        flying: [false; 8],
        hard: 0,
        merged: 0,
    };
    let device = open_device(&rt, rt.alloc(), BLOCKS);
    let mut bench = open_bench(&rt, rt.alloc(), BLOCKS as usize, device);
    ask_each(&rt, rt.alloc(), &mut bench, &mut walk);
    close(bench);
    let Walk { hard, merged, .. } = walk;
    assert!(&rt; hard > 10 && merged > 20, "hard {hard}, merged {merged}");
}

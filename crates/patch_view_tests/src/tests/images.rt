//! What a write sends of a block with many classes, beside the same block of which all are taken one after another.
use super::{bare, expect_without_all, is_unentered, join_by};
use patch_model::{OutOfMemory, PatchNo};
use patch_view::BlockState;
use std::alloc::Global;
use std::process::Abort;
use std::test::Fail;

// How many patches of one byte wait at first.
const WAITING: u32 = 40;

// Two blocks on which the same is done. Views of the second forget what is kept of it.
#[derive(Drop)]
struct Pair {
    alloc: Global,
    kept: BlockState,
    plain: BlockState,
}

impl Pair {
    fn lay(&mut self, rt: &impl Abort, no: u32, start: usize, byte: u8) -> Result<(), OutOfMemory> {
        assert!(rt; start < 4096);
        self.kept.lay(PatchNo(no), start, &[byte], &[], false)?;
        self.plain.lay(PatchNo(no), start, &[byte], &[], false)
    }

    fn send(&mut self, rt: &impl Abort, numbers: &[PatchNo]) -> Result<(), OutOfMemory> {
        self.kept.depart_each(numbers);
        self.plain.depart_each(numbers);
        self.expect_same(rt)
    }

    fn end(&mut self, rt: &impl Abort) -> Result<(), OutOfMemory> {
        self.kept.land_each();
        self.plain.land_each();
        self.expect_same(rt)
    }

    // One patch is laid, sent and made durable.
    fn round(&mut self, rt: &impl Abort, no: u32, start: usize) -> Result<(), OutOfMemory> {
        self.lay(rt, no, start, 9)?;
        self.send(rt, &[PatchNo(no)])?;
        self.end(rt)
    }

    fn join(&mut self, a: u32, b: u32) -> Result<(), OutOfMemory> {
        join_by(&mut self.kept, a, b)?;
        join_by(&mut self.plain, a, b)
    }

    fn land(&mut self, rt: &impl Abort, no: u32) -> Result<(), OutOfMemory> {
        self.kept.land(PatchNo(no));
        self.plain.land(PatchNo(no));
        self.expect_same(rt)
    }

    fn lay_hard(
        &mut self,
        rt: &impl Abort,
        no: u32,
        start: usize,
        byte: u8,
    ) -> Result<(), OutOfMemory> {
        assert!(rt; start < 4096);
        self.kept.lay(PatchNo(no), start, &[byte], &[], true)?;
        self.plain.lay(PatchNo(no), start, &[byte], &[], true)?;
        self.expect_same(rt)
    }

    fn lay_nothing(
        &mut self,
        rt: &impl Abort,
        no: u32,
        start: usize,
        byte: u8,
    ) -> Result<(), OutOfMemory> {
        assert!(rt; is_unentered(rt, &mut self.kept, no, start, &[byte]));
        assert!(rt; is_unentered(rt, &mut self.plain, no, start, &[byte]));
        self.expect_same(rt)
    }

    fn expect_same(&mut self, rt: &impl Abort) -> Result<(), OutOfMemory> {
        let mut sent = Vec::from_slice(self.alloc, self.kept.bytes())?;
        self.kept.take_all_from(sent.as_mut_slice());
        expect_without_all(rt, &mut self.plain, sent.as_slice());
        Ok(())
    }
}

// What is done to both blocks.
#[derive(Clone, Copy)]
enum Deed<'a> {
    // A patch of this number, at this place, of this byte.
    Lay(u32, usize, u8),
    // These depart.
    Send(&'a [u32]),
    // What is in flight is made durable.
    End,
    // Patches from this number on, each laid at its place, sent and made durable before the next.
    Rounds(u32, &'a [usize]),
    // A hard patch, and one that isn't entered.
    LayHard(u32, usize, u8),
    LayNothing(u32, usize, u8),
    Join(u32, u32),
    // One alone is made durable.
    Land(u32),
    // What is sent is compared.
    Look,
}

use Deed::{End, Join, Land, Lay, LayHard, LayNothing, Look, Rounds, Send};

fn go_rounds(
    rt: &impl Abort,
    pair: &mut Pair,
    first: u32,
    starts: &[usize],
) -> Result<(), OutOfMemory> {
    let mut no = first;
    for start in starts {
        pair.round(rt, no, *start)?;
        no = no.saturating_add(1);
    }
    Ok(())
}

fn send_each(rt: &impl Abort, pair: &mut Pair, numbers: &[u32]) -> Result<(), OutOfMemory> {
    let mut all = Vec::new(pair.alloc);
    for no in numbers {
        all.push(PatchNo(*no))?;
    }
    pair.send(rt, &all)
}

fn act(rt: &impl Abort, pair: &mut Pair, deed: &Deed<'_>) -> Result<(), OutOfMemory> {
    match deed {
        Lay(no, start, byte) => pair.lay(rt, *no, *start, *byte),
        Send(numbers) => send_each(rt, pair, numbers),
        End => pair.end(rt),
        Rounds(first, starts) => go_rounds(rt, pair, *first, starts),
        LayHard(no, start, byte) => pair.lay_hard(rt, *no, *start, *byte),
        LayNothing(no, start, byte) => pair.lay_nothing(rt, *no, *start, *byte),
        Join(a, b) => pair.join(*a, *b),
        Land(no) => pair.land(rt, *no),
        Look => pair.expect_same(rt),
    }
}

// Where the patches stand that wait at first.
#[derive(Clone, Copy)]
enum Places {
    // On the first bytes.
    InARow,
    // On even bytes behind 1,000 and odd ones behind 3,000.
    InTwoHeaps,
}

fn place_of(places: Places, no: u32) -> usize {
    match places {
        Places::InARow => no as usize,
        Places::InTwoHeaps if no % 2 == 0 => (no as usize).saturating_add(1000),
        Places::InTwoHeaps => (no as usize).saturating_add(3000),
    }
}

fn act_each(
    rt: &impl Abort,
    pair: &mut Pair,
    places: Places,
    deeds: &[Deed<'_>],
) -> Result<(), OutOfMemory> {
    for no in 0..WAITING {
        pair.lay(rt, no, place_of(places, no), 7)?;
    }
    for deed in deeds {
        act(rt, pair, deed)?;
    }
    Ok(())
}

fn walk(rt: &impl Abort, alloc: Global, places: Places, deeds: &[Deed<'_>]) -> Result<(), Fail> {
    let kept = bare(alloc)?;
    let plain = bare(alloc)?;
    let mut pair = Pair { alloc, kept, plain };
    let walked = act_each(rt, &mut pair, places, deeds);
    drop(pair);
    Ok(walked?)
}

// Eight, each laid on its own byte or on that of the one before, and one on a byte where another waits.
const BESIDE: [Deed<'static>; 36] = [
    Lay(40, 1000, 9),
    Look,
    Send(&[40]),
    End,
    Lay(41, 1000, 9),
    Look,
    Send(&[41]),
    End,
    Lay(42, 1001, 9),
    Look,
    Send(&[42]),
    End,
    Lay(43, 1001, 9),
    Look,
    Send(&[43]),
    End,
    Lay(44, 1002, 9),
    Look,
    Send(&[44]),
    End,
    Lay(45, 1002, 9),
    Look,
    Send(&[45]),
    End,
    Lay(46, 1003, 9),
    Look,
    Send(&[46]),
    End,
    Lay(47, 1003, 9),
    Look,
    Send(&[47]),
    End,
    Lay(50, 5, 9),
    Send(&[50]),
    Send(&[5]),
    End,
];

#[test]
fn one_is_sent_beside_many(rt: HostRuntime) -> Result<(), Fail> {
    walk(&rt, rt.alloc(), Places::InARow, &BESIDE)
}

// One on which another rests departs first, and several at once.
const LOWER: [Deed<'static>; 8] = [
    Lay(50, 1000, 9),
    Send(&[50]),
    Lay(51, 7, 9),
    Send(&[7]),
    Send(&[1, 2, 51]),
    End,
    Send(&[3, 4, 8, 9, 10]),
    End,
];

#[test]
fn lower_ones_are_sent(rt: HostRuntime) -> Result<(), Fail> {
    walk(&rt, rt.alloc(), Places::InARow, &LOWER)
}

// Between the writes a hard patch is laid, one isn't entered, and classes are merged and landed alone.
const CHANGES: [Deed<'static>; 9] = [
    Send(&[0]),
    LayHard(50, 6, 9),
    LayNothing(51, 8, 9),
    Send(&[12]),
    Join(20, 21),
    Look,
    Send(&[30]),
    Land(31),
    End,
];

#[test]
fn what_is_kept_follows_changes(rt: HostRuntime) -> Result<(), Fail> {
    walk(&rt, rt.alloc(), Places::InARow, &CHANGES)
}

// Between the heaps, before and behind them, in them and on bytes where a class waits.
const IN_GAPS: [usize; 14] = [
    2000, 2001, 2500, 500, 2100, 3500, 2100, 1004, 2002, 1001, 999, 1039, 3000, 2003,
];

#[test]
fn one_after_another_is_sent_in_a_gap(rt: HostRuntime) -> Result<(), Fail> {
    walk(
        &rt,
        rt.alloc(),
        Places::InTwoHeaps,
        &[Rounds(WAITING, &IN_GAPS)],
    )
}

// By turns between the heaps and before them, each elsewhere than the one before, and one on a byte where a class waits.
const BY_TURNS: [usize; 26] = [
    2000, 500, 2001, 501, 2002, 502, 2003, 503, 2004, 504, 2005, 505, 2006, 506, 2007, 507, 2008,
    508, 2009, 509, 2010, 510, 2011, 511, 1004, 2005,
];

#[test]
fn each_is_sent_elsewhere_than_the_last(rt: HostRuntime) -> Result<(), Fail> {
    walk(
        &rt,
        rt.alloc(),
        Places::InTwoHeaps,
        &[Rounds(WAITING, &BY_TURNS)],
    )
}

// After two rounds the gap before the heaps is known. It is left for good, by turns for one between the heaps and one behind them,
// and after seven that missed it the next one is measured anew.
const OUTSIDE: [usize; 22] = [
    500, 501, 2000, 3501, 2002, 3503, 2004, 3505, 2006, 3507, 2008, 3509, 2010, 3511, 2012, 3513,
    2014, 3515, 2016, 3517, 2018, 3519,
];

// What is sent behind so many rounds that left the gap: one on a byte of a heap where a class waits, and one behind the heaps.
// Or one that is in flight there while another comes to wait, and one that is sent on that.
fn send_outside(rt: &impl Abort, alloc: Global, starts: &[usize]) -> Result<(), Fail> {
    let before = Rounds(WAITING, starts);
    let on_one = [before, Rounds(70, &[1004, 3600])];
    walk(rt, alloc, Places::InTwoHeaps, &on_one)?;
    let beside_a_flight = [
        before,
        Lay(70, 3590, 9),
        Send(&[70]),
        Lay(71, 3600, 5),
        Lay(72, 3600, 9),
        Send(&[72]),
        End,
    ];
    walk(rt, alloc, Places::InTwoHeaps, &beside_a_flight)
}

#[test]
fn many_in_a_row_are_sent_outside_the_gap(rt: HostRuntime) -> Result<(), Fail> {
    send_outside(&rt, rt.alloc(), &OUTSIDE[..9])?;
    send_outside(&rt, rt.alloc(), &OUTSIDE[..10])?;
    send_outside(&rt, rt.alloc(), &OUTSIDE[..11])?;
    send_outside(&rt, rt.alloc(), &OUTSIDE)
}

// In a gap where some were sent another one comes to wait, and more are sent there. Then the lowest one goes, and one is sent on
// another that waits in the gap, and then that one.
const AS_IT_CHANGES: [Deed<'static>; 10] = [
    Rounds(50, &[2000]),
    Lay(51, 2100, 5),
    Rounds(52, &[2101, 2100, 2050]),
    Send(&[0]),
    Land(0),
    Lay(55, 2060, 3),
    Rounds(56, &[2060]),
    Send(&[55]),
    End,
    Look,
];

#[test]
fn in_a_gap_one_comes_to_wait(rt: HostRuntime) -> Result<(), Fail> {
    walk(&rt, rt.alloc(), Places::InTwoHeaps, &AS_IT_CHANGES)
}

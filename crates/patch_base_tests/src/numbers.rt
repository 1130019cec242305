//! Numbers put into lists that are short, long, and long again, and into sets.
use crate::expecting::expect_eq;
use linked_list_allocator::LocalHeap;
use patch_model::{MAX_CACHED, PatchNo, Run};
use patch_numbers::{
    BlockSet, NumberList, both_lists, follow_on, greatest_of, have_common, have_fewer,
    is_interleaved, is_listed, is_of_runs, least_of, place_in, run_around, sort,
};
use std::alloc::{AllocError, Allocator, Global};
use std::process::Abort;
use std::test::Fail;

const NUMBERS: [PatchNo; 5] = [PatchNo(9), PatchNo(3), PatchNo(7), PatchNo(1), PatchNo(4)];

/// Whether the list has so many of the numbers, from the first on.
fn has_first(list: &NumberList, count: usize) -> bool {
    list.len() == count
        && list
            .as_slice()
            .iter()
            .zip(NUMBERS.iter())
            .all(|(a, b)| a == b)
}

#[test]
fn numbers_stand_in_the_order_they_came(rt: HostRuntime) -> Result<(), Fail> {
    let mut list = NumberList::of(rt.alloc(), PatchNo(9));
    list.push(PatchNo(3))?;
    assert!(rt; has_first(&list, 2));
    list.extend_from_slice(&[PatchNo(7), PatchNo(1), PatchNo(4)])?;
    assert!(rt; has_first(&list, 5));
    list.truncate(1);
    assert!(rt; has_first(&list, 1));
    list.push(PatchNo(3))?;
    assert!(rt; has_first(&list, 2));
    Ok(())
}

#[test]
fn short_and_long_lists_are_sorted(rt: HostRuntime) -> Result<(), Fail> {
    let mut few = NumberList::from_slice(rt.alloc(), &NUMBERS[..2])?;
    few.sort();
    expect_eq(&rt, &few.as_slice(), &[PatchNo(3), PatchNo(9)].as_slice());
    let mut many = NumberList::from_slice(rt.alloc(), &NUMBERS)?;
    many.sort();
    let rising = [PatchNo(1), PatchNo(3), PatchNo(4), PatchNo(7), PatchNo(9)];
    expect_eq(&rt, &many.as_slice(), &rising.as_slice());
    assert!(rt; NumberList::new(rt.alloc()).as_slice().is_empty());
    Ok(())
}

#[test]
fn room_that_was_made_is_enough(rt: HostRuntime) -> Result<(), Fail> {
    let mut list = NumberList::new(rt.alloc());
    list.reserve(2)?;
    list.reserve(5)?;
    list.extend_from_slice(&NUMBERS)?;
    expect_eq(&rt, &list.as_slice(), &NUMBERS.as_slice());
    Ok(())
}

#[test]
fn numbers_come_one_by_one_where_there_is_room(rt: HostRuntime) -> Result<(), Fail> {
    let mut list = NumberList::new(rt.alloc());
    for no in NUMBERS {
        list.reserve(1)?;
        list.push_reserved(no);
    }
    expect_eq(&rt, &list.as_slice(), &NUMBERS.as_slice());
    Ok(())
}

/// Puts the number into a set, with room for it.
fn put_in<A: Allocator>(set: &mut BlockSet<A>, number: usize) -> Result<(), AllocError> {
    if number < MAX_CACHED {
        set.reserve(number)?;
        set.insert(number);
    }
    Ok(())
}

#[test]
fn the_least_number_of_a_set_is_found_from_one_on(rt: HostRuntime) -> Result<(), Fail> {
    let mut set = BlockSet::new(rt.alloc());
    expect_eq(&rt, &set.least_from(0), &None);
    set.remove(700);
    for number in [4095, 64, 7, 700] {
        put_in(&mut set, number)?;
    }
    expect_eq(&rt, &set.least_from(0), &Some(7));
    expect_eq(&rt, &set.least_from(8), &Some(64));
    expect_eq(&rt, &set.least_from(65), &Some(700));
    set.remove(700);
    expect_eq(&rt, &set.least_from(65), &Some(4095));
    expect_eq(&rt, &set.least_from(4096), &None);
    expect_eq(&rt, &set.least_from(usize::MAX), &None);
    Ok(())
}

// The numbers at the edges of each level of a set.
static EDGES: [usize; 8] = [0, 63, 64, 4095, 4096, 262_143, 262_144, 16_777_215];

/// Expects each number at an edge to be the least one from one behind that before it on.
fn expect_edges(rt: &impl Abort, set: &BlockSet) {
    let mut from = 0;
    for edge in EDGES {
        expect_eq(rt, &set.least_from(from), &Some(edge));
        expect_eq(rt, &set.least_from(edge), &Some(edge));
        from = edge.saturating_add(1);
    }
    expect_eq(rt, &set.least_from(from), &None);
}

#[test]
fn a_set_has_numbers_at_the_edges_of_its_levels(rt: HostRuntime) -> Result<(), Fail> {
    let mut set = BlockSet::new(rt.alloc());
    for edge in EDGES {
        put_in(&mut set, edge)?;
    }
    expect_edges(&rt, &set);
    for (place, edge) in EDGES.iter().enumerate() {
        set.remove(*edge);
        let next = EDGES.get(place.saturating_add(1)).copied();
        expect_eq(&rt, &set.least_from(0), &next);
    }
    Ok(())
}

/// The least number from one on of a list in any order.
fn least_listed(numbers: &[usize], from: usize) -> Option<usize> {
    numbers
        .iter()
        .copied()
        .filter(|number| *number >= from)
        .min()
}

// How far the numbers of a walk are spread.
static SPREADS: [usize; 5] = [40, 200, 20_000, 1_000_000, 16_777_216];

/// Puts numbers into a set and a list, and takes them out again, as a fixed row of numbers says. Compares the least ones each time.
fn walk(rt: &impl Abort, alloc: Global, spread: usize) -> Result<(), AllocError> {
    let mut set = BlockSet::new(alloc);
    let mut listed = Vec::new(alloc);
    let mut row: u64 = 7;
    for turn in 0..400usize {
        row = row
            .wrapping_mul(6_364_136_223_846_793_005)
            .wrapping_add(1_442_695_040_888_963_407);
        let number = (row >> 33) as usize % spread.max(1);
        let from = (row >> 20 & 0xff_ffff) as usize % spread.max(1);
        if turn % 3 == 2 {
            let gone = least_listed(&listed, from).unwrap_or(number);
            listed.retain(|other| *other != gone);
            set.remove(gone);
        } else {
            put_in(&mut set, number)?;
            listed.push(number)?;
        }
        expect_eq(rt, &set.least_from(from), &least_listed(&listed, from));
        expect_eq(rt, &set.least_from(0), &least_listed(&listed, 0));
    }
    Ok(())
}

#[test]
fn sets_go_as_plain_lists_do(rt: HostRuntime) -> Result<(), Fail> {
    for spread in SPREADS {
        walk(&rt, rt.alloc(), spread)?;
    }
    Ok(())
}

/// Asks for room in a heap of this size. Whether it is refused, as soon as a first number is in.
fn is_room_refused(rt: &impl Abort, alloc: Global, size: usize) -> Result<bool, AllocError> {
    let heap = LocalHeap::new(alloc, size)?;
    let mut set = BlockSet::new(&heap);
    put_in(&mut set, 5)?;
    let refused = put_in(&mut set, 300_000).is_err();
    let next = if refused { None } else { Some(300_000) };
    expect_eq(rt, &set.least_from(0), &Some(5));
    expect_eq(rt, &set.least_from(6), &next);
    put_in(&mut set, 63)?;
    expect_eq(rt, &set.least_from(6), &Some(63));
    Ok(refused)
}

// Each heap is larger than the one before it. In small ones the level above gets no room, in larger ones the numbers' own gets none.
#[test]
fn a_set_is_as_it_was_where_room_is_refused(rt: HostRuntime) -> Result<(), Fail> {
    let mut refused = 0usize;
    for turn in 0..400usize {
        if is_room_refused(&rt, rt.alloc(), 256 + turn * 160)? {
            refused = refused.saturating_add(1);
        }
    }
    assert!(rt; refused > 200);
    assert!(rt; refused < 300);
    Ok(())
}

const RISING: [PatchNo; 4] = [PatchNo(2), PatchNo(5), PatchNo(5), PatchNo(9)];

// Which numbers are in the list that rises.
static FOUND: [(u32, bool); 7] = [
    (1, false),
    (2, true),
    (3, false),
    (5, true),
    (6, false),
    (9, true),
    (10, false),
];

#[test]
fn numbers_are_found_in_lists_that_rise(rt: HostRuntime) -> Result<(), Fail> {
    for (no, is_there) in FOUND {
        expect_eq(&rt, &is_listed(&RISING, PatchNo(no)), &is_there);
        let place = place_in(&RISING, 1, PatchNo(no));
        expect_eq(&rt, &place.is_some(), &is_there);
    }
    expect_eq(&rt, &is_listed(&[], PatchNo(0)), &false);
    expect_eq(&rt, &least_of(&RISING), &2);
    expect_eq(&rt, &greatest_of(&RISING), &9);
    expect_eq(&rt, &least_of(&[]), &u32::MAX);
    expect_eq(&rt, &greatest_of(&[]), &0);
    Ok(())
}

const FEW: [PatchNo; 2] = [PatchNo(3), PatchNo(9)];

const LOW: [PatchNo; 1] = [PatchNo(1)];

const HIGH: [PatchNo; 2] = [PatchNo(9), PatchNo(11)];

#[test]
fn lists_that_rise_are_compared(rt: HostRuntime) -> Result<(), Fail> {
    expect_eq(&rt, &have_common(&RISING, &FEW), &true);
    expect_eq(&rt, &have_common(&FEW, &RISING), &true);
    expect_eq(&rt, &have_common(&RISING, &LOW), &false);
    expect_eq(&rt, &have_common(&[], &RISING), &false);
    expect_eq(&rt, &follow_on(&RISING, &HIGH), &true);
    expect_eq(&rt, &follow_on(&RISING, &FEW), &false);
    expect_eq(&rt, &follow_on(&RISING, &[]), &true);
    Ok(())
}

const BOTH: [PatchNo; 6] = [
    PatchNo(2),
    PatchNo(3),
    PatchNo(5),
    PatchNo(5),
    PatchNo(9),
    PatchNo(9),
];

#[test]
fn two_lists_become_one_that_rises(rt: HostRuntime) -> Result<(), Fail> {
    let all = both_lists(&rt.alloc(), &RISING, &FEW, 3)?;
    expect_eq(&rt, &all.as_slice(), &BOTH.as_slice());
    assert!(&rt; all.capacity() >= 9);
    expect_eq(&rt, &is_interleaved(&all, &RISING, &FEW), &true);
    expect_eq(&rt, &is_interleaved(&all, &RISING, &LOW), &false);
    let mut falling = [PatchNo(9), PatchNo(5), PatchNo(2)];
    sort(&mut falling);
    expect_eq(&rt, &falling, &[PatchNo(2), PatchNo(5), PatchNo(9)]);
    Ok(())
}

static RUNS: [Run; 2] = [Run { first: 4, last: 6 }, Run { first: 1, last: 1 }];

// Which numbers are of the runs.
static OF_RUNS: [(u32, bool); 6] = [
    (0, false),
    (1, true),
    (2, false),
    (4, true),
    (6, true),
    (7, false),
];

#[test]
fn numbers_are_found_in_runs_and_counted(rt: HostRuntime) -> Result<(), Fail> {
    for (no, is_there) in OF_RUNS {
        expect_eq(&rt, &is_of_runs(&RUNS, PatchNo(no)), &is_there);
    }
    expect_eq(&rt, &run_around(&RUNS), &Run { first: 1, last: 6 });
    expect_eq(&rt, &have_fewer(&RUNS, 5), &true);
    expect_eq(&rt, &have_fewer(&RUNS, 4), &false);
    expect_eq(&rt, &have_fewer(&RUNS, 1), &false);
    expect_eq(&rt, &have_fewer(&[], 0), &false);
    Ok(())
}

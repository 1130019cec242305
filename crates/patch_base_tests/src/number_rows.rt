//! Rows by number: put in, found, changed in place and taken out, beside a list of all; with too little memory; of a type that owns
//! memory.
use crate::expecting::expect_eq;
use linked_list_allocator::LocalHeap;
use patch_rows::Rows;
use std::alloc::{AllocError, Allocator, Global};
use std::process::Abort;
use std::test::Fail;

const RISING: [u32; 12] = [0, 1, 2, 3, 4, 5, 6, 7, 8, 9, 10, 11];

const FALLING: [u32; 12] = [11, 10, 9, 8, 7, 6, 5, 4, 3, 2, 1, 0];

const FAR_APART: [u32; 4] = [0, 5_000, 16_777_215, u32::MAX];

// Numbers whose lowest bits are the same.
const ALIKE: [u32; 9] = [5, 13, 21, 69, 133, 1_029, 65_541, 16_777_221, 2_147_483_653];

/// Puts in the row of a number that has none, with room made for it. Whether it had none.
fn put_in<T: Drop, A: Allocator>(
    rows: &mut Rows<T, A>,
    number: u32,
    row: T,
) -> Result<bool, AllocError> {
    if rows.contains(number) {
        return Ok(false);
    }
    rows.lengthen(number as usize + 1);
    rows.reserve()?;
    rows.put(number, row);
    Ok(true)
}

/// Writes the row of a number, if it stands.
fn write(rows: &mut Rows<u32>, number: u32, row: u32) {
    if let Some(held) = rows.get_mut(number) {
        *held = row;
    }
}

/// A number's row is this one.
fn expect_row<A: Allocator>(rt: &impl Abort, rows: &Rows<u32, A>, number: u32, row: Option<u32>) {
    expect_eq(rt, &rows.get(number).copied(), &row);
    expect_eq(rt, &rows.contains(number), &row.is_some());
}

/// The row of each of these numbers is the number with its lowest bit turned.
fn expect_turned(rt: &impl Abort, rows: &Rows<u32>, numbers: &[u32]) {
    for number in numbers {
        expect_row(rt, rows, *number, Some(*number ^ 1));
    }
}

/// Takes the rows of these numbers out, one after another: those that are left are found, wherever they have moved.
fn take_all(rt: &impl Abort, rows: &mut Rows<u32>, numbers: &[u32]) {
    for (at, number) in numbers.iter().enumerate() {
        expect_turned(rt, rows, &numbers[at..]);
        expect_eq(rt, &rows.take(*number), &Some(*number ^ 1));
        expect_eq(rt, &rows.take(*number), &None);
        expect_row(rt, rows, *number, None);
    }
    expect_eq(rt, &rows.standing(), &0);
}

/// Rows are put in for these numbers, changed in place, and taken out.
fn go_through(rt: &impl Abort, alloc: Global, numbers: &[u32]) -> Result<(), AllocError> {
    let mut rows = Rows::new(alloc);
    for number in numbers {
        expect_row(rt, &rows, *number, None);
        assert!(rt; put_in(&mut rows, *number, *number)?);
        expect_row(rt, &rows, *number, Some(*number));
    }
    for number in numbers {
        write(&mut rows, *number, *number ^ 1);
    }
    expect_eq(rt, &rows.standing(), &numbers.len());
    take_all(rt, &mut rows, numbers);
    Ok(())
}

#[test]
fn rows_in_turn_are_found(rt: HostRuntime) -> Result<(), Fail> {
    go_through(&rt, rt.alloc(), &RISING)?;
    go_through(&rt, rt.alloc(), &FALLING)?;
    Ok(())
}

#[test]
fn rows_of_scattered_numbers_are_found(rt: HostRuntime) -> Result<(), Fail> {
    go_through(&rt, rt.alloc(), &FAR_APART)?;
    go_through(&rt, rt.alloc(), &ALIKE)?;
    Ok(())
}

#[test]
fn there_are_as_many_numbers_as_were_asked_for(rt: HostRuntime) -> Result<(), Fail> {
    let mut rows = Rows::of(rt.alloc(), 5);
    expect_row(&rt, &rows, 4, None);
    rows.lengthen(3);
    expect_eq(&rt, &rows.len(), &5);
    assert!(rt; put_in(&mut rows, 4, 9)?);
    rows.lengthen(9);
    expect_eq(&rt, &rows.len(), &9);
    expect_row(&rt, &rows, 4, Some(9));
    expect_eq(&rt, &Rows::<u32>::new(rt.alloc()).len(), &0);
    Ok(())
}

/// Takes out, changes or puts in the row of a number, as the state of a walk says. The list holds the same of that number.
fn step(
    rt: &impl Abort,
    rows: &mut Rows<u32>,
    held: &mut Option<u32>,
    number: u32,
    state: u32,
) -> Result<(), AllocError> {
    match (state >> 24) % 4 {
        0 => {
            expect_eq(rt, &rows.take(number), held);
            *held = None;
        }
        1 => {
            write(rows, number, state);
            *held = held.map(|_| state);
        }
        _ => {
            expect_eq(rt, &put_in(rows, number, state)?, &held.is_none());
            *held = Some(held.unwrap_or(state));
        }
    }
    expect_row(rt, rows, number, *held);
    Ok(())
}

/// How many numbers the walk goes over.
const NUMBERS: u32 = 64;

#[test]
fn a_walk_agrees_with_a_list(rt: HostRuntime) -> Result<(), Fail> {
    let mut rows = Rows::of(rt.alloc(), NUMBERS as usize);
    let mut list = [None; NUMBERS as usize];
    let mut state: u32 = 7;
    for _ in 0..3_000 {
        state = state.wrapping_mul(1_103_515_245).wrapping_add(12_345);
        let number = (state >> 16) % NUMBERS;
        step(&rt, &mut rows, &mut list[number as usize], number, state)?;
    }
    for number in 0..NUMBERS {
        expect_row(&rt, &rows, number, list[number as usize]);
    }
    let standing = list.iter().filter(|row| row.is_some()).count();
    expect_eq(&rt, &rows.standing(), &standing);
    Ok(())
}

/// Puts rows in until there is no memory for one more: those that came in are found, and no other.
fn fill(rt: &impl Abort, heap: &LocalHeap) {
    let mut rows = Rows::new(heap);
    let mut full = None;
    for number in 0..10_000 {
        if put_in(&mut rows, number, number).is_err() {
            full = Some(number);
            break;
        }
    }
    let count = full.unwrap_or(0);
    assert!(rt; 0 < count);
    expect_eq(rt, &rows.standing(), &(count as usize));
    for number in 0..count {
        expect_row(rt, &rows, number, Some(number));
    }
    expect_row(rt, &rows, count, None);
}

#[test]
fn what_stands_is_kept_where_memory_runs_out(rt: HostRuntime) -> Result<(), Fail> {
    for size in [1_024, 1_536, 2_048, 3_072, 8_192] {
        let heap = LocalHeap::new(rt.alloc(), size)?;
        fill(&rt, &heap);
    }
    Ok(())
}

/// So many rows are put in, and most of them taken out again.
const MANY: u32 = 4_000;

/// So many of them stay.
const FEW: u32 = 10;

/// Of so many bytes, so many are free in one piece where few rows stand, and not where many do.
const HEAP: usize = 1_048_576;

const PIECE: usize = 950_000;

fn has_piece(heap: &LocalHeap) -> bool {
    Vec::<u8, _>::with_capacity(heap, PIECE).is_ok()
}

#[test]
fn memory_of_rows_that_are_taken_out_is_given_back(rt: HostRuntime) -> Result<(), Fail> {
    let heap = LocalHeap::new(rt.alloc(), HEAP)?;
    let mut rows = Rows::new(&heap);
    for number in 0..MANY {
        assert!(rt; put_in(&mut rows, number, number)?);
    }
    assert!(rt; !has_piece(&heap));
    for number in FEW..MANY {
        expect_eq(&rt, &rows.take(number), &Some(number));
    }
    assert!(rt; has_piece(&heap));
    for number in 0..FEW {
        expect_row(&rt, &rows, number, Some(number));
    }
    expect_row(&rt, &rows, FEW, None);
    Ok(())
}

#[test]
fn rows_may_own_memory(rt: HostRuntime) -> Result<(), Fail> {
    let mut rows = Rows::new(rt.alloc());
    for number in 0..20 {
        let row = Vec::from_slice(rt.alloc(), &[number])?;
        assert!(rt; put_in(&mut rows, 1_000 * number, row)?);
    }
    if let Some(row) = rows.get_mut(7_000) {
        row.push(8)?;
    }
    let row = rows.take(7_000).ok_or("there is no row")?;
    expect_eq(&rt, &row.as_slice(), &[7, 8].as_slice());
    assert!(rt; rows.get(7_000).is_none());
    let last = rows.get(19_000).ok_or("there is no last row")?;
    expect_eq(&rt, &last.as_slice(), &[19].as_slice());
    expect_eq(&rt, &rows.standing(), &19);
    Ok(())
}

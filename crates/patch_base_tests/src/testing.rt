//! Blocks of zeros, and heaps that are full but for one hole.
use crate::expecting::expect_eq;
use linked_list_allocator::LocalHeap;
use patch_model::BLOCK;
use patch_testing::{HEAP, fill, hole_of, zeros};
use std::alloc::Global;
use std::process::Abort;
use std::test::Fail;

#[test]
fn blocks_are_zeros(rt: HostRuntime) -> Result<(), Fail> {
    let blocks = zeros(rt.alloc(), 3)?;
    expect_eq(&rt, &blocks.len(), &3);
    for block in &blocks {
        expect_eq(&rt, &block.as_slice(), &[0; BLOCK].as_slice());
    }
    Ok(())
}

// Whether the heap has so many bytes left in a row.
fn has_room(heap: &LocalHeap, size: usize) -> bool {
    Vec::<u8, &LocalHeap>::with_capacity(heap, size).is_ok()
}

fn expect_hole(rt: &impl Abort, heap: &LocalHeap, hole: usize) {
    assert!(rt; has_room(heap, hole), "no hole of {hole}");
    assert!(rt;
        !has_room(heap, hole.saturating_add(16)),
        "more than a hole of {hole}"
    );
}

fn look_at_holes(rt: &impl Abort, alloc: Global, heap: &LocalHeap) -> Result<(), Fail> {
    for hole in [0, 16, 48, 4096, 40_000] {
        let ballast = fill(alloc, heap, hole)?;
        expect_hole(rt, heap, hole);
        drop(ballast);
    }
    Ok(())
}

#[test]
fn a_full_heap_has_one_hole(rt: HostRuntime) -> Result<(), Fail> {
    let heap = LocalHeap::new(rt.alloc(), HEAP)?;
    look_at_holes(&rt, rt.alloc(), &heap)?;
    expect_eq(&rt, &heap.used(), &0);
    Ok(())
}

#[test]
fn holes_grow(rt: HostRuntime) -> Result<(), Fail> {
    for (turn, hole) in [
        (0, 0),
        (1, 16),
        (64, 1_024),
        (65, 1_088),
        (1_064, 65_024),
        (2_000, 65_024),
    ] {
        expect_eq(&rt, &(&turn, &hole_of(turn)), &(&turn, &hole));
    }
    Ok(())
}

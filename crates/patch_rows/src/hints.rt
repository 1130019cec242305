//! Hints: where the row of a number may stand, by the number's lowest bits. A hint may be wrong, so each look at a row compares the
//! number.
use crate::hashing::InARow;
use indexmap::IndexMap;
use std::alloc::Allocator;

/// Which hint is a number's, where there are so many, a power of two or none.
#[inline(always)]
fn hint_of(count: usize, number: u32) -> usize {
    number as usize & count.wrapping_sub(1)
}

/// Where a number's row may stand. Where there is no hint, that is behind all rows.
#[inline(always)]
pub(crate) fn hinted(hints: &[u32], number: u32) -> usize {
    match hints.get(hint_of(hints.len(), number)) {
        Some(place) => *place as usize,
        None => usize::MAX,
    }
}

/// Has the hint of a number say that its row stands here.
#[inline(always)]
pub(crate) fn note(hints: &mut [u32], number: u32, place: usize) {
    let at = hint_of(hints.len(), number);
    if let Some(hint) = hints.get_mut(at) {
        *hint = (place & 0xFFFF_FFFF) as u32;
    }
}

/// Has the hint of the row that stands here say so, if one does.
#[inline(always)]
pub(crate) fn note_at<T, A: Allocator>(
    hints: &mut [u32],
    standing: &IndexMap<u32, T, InARow, A>,
    place: usize,
) {
    if let Some((number, _)) = standing.get_index(place) {
        note(hints, *number, place);
    }
}

/// Has the hints say where each row stands.
pub(crate) fn note_all<T, A: Allocator>(hints: &mut [u32], standing: &IndexMap<u32, T, InARow, A>) {
    for place in 0..standing.len() {
        note_at(hints, standing, place);
    }
}

//! Where a slot stands in an order, or would: found by halves.
ghost use Rattle.std.specs.Prelude.{◌≡◌, ◌≤◌, ◌∷◌, [], Some, length, map, nat_lt, position};
ghost use Rattle.std.specs.Cmp.Lexicographic.{slice_cmp};
ghost use Rattle.std.specs.Ordering.{nat_cmp};
ghost use Rattle.patch_recovery.specs.Reading.{has_key as is_of};
ghost use Rattle.patch_index.specs.Index.{fields_of, told};
ghost use Rattle.patch_index.specs.Live.{live_behind};
ghost use Rattle.patch_index.specs.Orders.{comes_before, ranked, key_in, place_in, place_rank, unranked, is_used, AreOrders, ArePlaces, IsBehind, IsOrder, IsPlace, Rises};

use crate::entries::Entry;
use std::cmp::Ordering;

/// The slot of a key, by an order of the used slots by key.
pub(crate) fn find_key(slots: &[Option<Entry>], order: &[u16], key: &[u8]) -> Option<u32>
    requires { IsOrder (key_in (map told slots.now)) (is_used (map told slots.now)) order.now }
    ensures { result ≡ position (is_of key.now) (map told slots.now) }
{
    let at = place_by_key(slots, order, key, 0);
    if at == order.len() {
        return None;
    }
    let slot = order[at];
    if key_at(slots, slot) == key {
        Some(u32::from(slot))
    } else {
        None
    }
}

/// The slots that name the extent, by an order of the used slots by place.
pub(crate) fn live_part<'o>(slots: &[Option<Entry>], order: &'o [u16], extent: u32) -> &'o [u16]
    requires { IsOrder (place_in (map told slots.now)) (is_used (map told slots.now)) order.now }
    ensures slots { result.now ≡ live_behind (map told slots.now) extent 0 }
    ensures few { length result.now ≤ length order.now }
{
    let from = place_by_place(slots, order, u64::from(extent), 0, 0);
    let to = place_by_place(slots, order, u64::from(extent) + 1, 0, 0);
    &order[from..to]
}

/// Where a slot stands in the orders of an index, or would.
#[derive(Clone, Copy)]
pub(crate) struct Places {
    pub(crate) empty: usize,
    pub(crate) by_key: usize,
    pub(crate) by_place: usize,
}

/// Where a slot that names this frame stands in these orders, or would.
pub(crate) fn places_of(
    slots: &[Option<Entry>],
    empty: &[u16],
    by_key: &[u16],
    by_place: &[u16],
    slot: u32,
    entry: &Entry,
) -> Places
    requires { AreOrders (map told slots.now) empty.now by_key.now by_place.now }
    ensures { ArePlaces (map told slots.now) slot (fields_of entry.now) empty.now by_key.now by_place.now result.empty result.by_key result.by_place }
{
    Places {
        empty: place_by_number(empty, slot),
        by_key: place_by_key(slots, by_key, entry.key.as_slice(), slot),
        by_place: place_of(slots, by_place, slot, entry),
    }
}

/// Where a slot that names this frame stands among those that are ordered by place, or would.
pub(crate) fn place_of(slots: &[Option<Entry>], by_place: &[u16], slot: u32, entry: &Entry) -> usize
    requires { Rises (place_in (map told slots.now)) by_place.now }
    ensures { IsPlace (place_in (map told slots.now)) (place_rank (Some (fields_of entry.now)), slot) by_place.now result }
{
    place_by_place(slots, by_place, u64::from(entry.extent), entry.offset, slot)
}

/// The place of a slot with this key among those that are ordered by key.
pub(crate) fn place_by_key(slots: &[Option<Entry>], order: &[u16], key: &[u8], slot: u32) -> usize
    requires { Rises (key_in (map told slots.now)) order.now }
    ensures { IsPlace (key_in (map told slots.now)) (key.now, slot) order.now result }
{
    order.partition_point(
        |other: &u16| -> bool
            ensures { result ≡ comes_before (ranked (key_in (map told slots.entry.now)) other.now) (key.entry.now, slot) }
        { is_key_before(slots, *other, key, slot) },
    )
}

/// The place of a slot whose frame begins here among those that are ordered by place.
pub(crate) fn place_by_place(
    slots: &[Option<Entry>],
    order: &[u16],
    extent: u64,
    offset: u32,
    slot: u32,
) -> usize
    requires { Rises (place_in (map told slots.now)) order.now }
    ensures { IsPlace (place_in (map told slots.now)) (extent ∷ offset ∷ [], slot) order.now result }
{
    order.partition_point(
        |other: &u16| -> bool
            ensures { result ≡ comes_before (ranked (place_in (map told slots.entry.now)) other.now) (extent ∷ offset ∷ [], slot) }
        { is_place_before(slots, *other, extent, offset, slot) },
    )
}

/// The place of a slot among those that are ordered by number.
pub(crate) fn place_by_number(order: &[u16], slot: u32) -> usize
    requires { Rises unranked order.now }
    ensures { IsPlace unranked ([], slot) order.now result }
{
    order.partition_point(
        |other: &u16| -> bool
            ensures { result ≡ nat_lt other.now slot }
        { u32::from(*other) < slot },
    )
}

/// The slot that so many used ones stand before, by the empty slots: it is as far on as there are empty ones below it. Here the slots
/// 1, 2 and 5 are empty:
///
///     a . . b c . d    number 2 is c: two slots on, and two more for 1 and 2
///     1 2 5            1 ≤ 2 + 0 and 2 ≤ 2 + 1, but not 5 ≤ 2 + 2
pub(crate) fn used_slot(empty: &[u16], number: u32) -> usize
    requires { Rises unranked empty.now }
    ensures { IsBehind empty.now number result }
{
    let number = number as usize;
    let (mut low, mut high) = (0, empty.len());
    while low < high {
        let middle = low + (high - low) / 2;
        if empty[middle] as usize <= number + middle {
            low = middle + 1;
        } else {
            high = middle;
        }
    }
    number + low
}

/// Whether a slot comes before another with this key.
fn is_key_before(slots: &[Option<Entry>], other: u16, key: &[u8], slot: u32) -> bool
    ensures { result ≡ comes_before (ranked (key_in (map told slots.now)) other) (key.now, slot) }
{
    match compare_keys(key_at(slots, other), key) {
        Ordering::Less => true,
        Ordering::Equal => u32::from(other) < slot,
        Ordering::Greater => false,
    }
}

/// How two keys compare: the first byte that differs decides, and else the lengths do. Keys are short and often begin alike, so their
/// bytes are compared one by one.
fn compare_keys(own: &[u8], other: &[u8]) -> Ordering
    ensures { result ≡ slice_cmp nat_cmp own.now other.now }
{
    let common = own.len().min(other.len());
    for at in 0..common {
        if own[at] != other[at] {
            return own[at].cmp(&other[at]);
        }
    }
    own.len().cmp(&other.len())
}

/// Whether a slot comes before another whose frame begins here.
fn is_place_before(slots: &[Option<Entry>], other: u16, extent: u64, offset: u32, slot: u32) -> bool
    ensures { result ≡ comes_before (ranked (place_in (map told slots.now)) other) (extent ∷ offset ∷ [], slot) }
{
    let (own, begin) = place_at(slots, other);
    match own.cmp(&extent) {
        Ordering::Less => true,
        Ordering::Equal => begin < offset || (begin == offset && u32::from(other) < slot),
        Ordering::Greater => false,
    }
}

/// A slot's key, or no byte where it is empty.
fn key_at(slots: &[Option<Entry>], slot: u16) -> &[u8]
    ensures { result.now ≡ key_in (map told slots.now) slot }
{
    match slots.get(slot as usize) {
        Some(Some(entry)) => entry.key.as_slice(),
        _ => &[],
    }
}

/// The extent and the offset of a slot's frame, or twice 0 where it is empty.
fn place_at(slots: &[Option<Entry>], slot: u16) -> (u64, u32)
    ensures { result.0 ∷ result.1 ∷ [] ≡ place_in (map told slots.now) slot }
{
    match slots.get(slot as usize) {
        Some(Some(entry)) => (u64::from(entry.extent), entry.offset),
        _ => (0, 0),
    }
}

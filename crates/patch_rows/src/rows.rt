//! Rows by number, of which few may stand.
ghost use Rattle.std.specs.Prelude.{◌≡◌, ℕ, ◌<◌, ◌≤◌, [], None, Some, IsSome, IfSome, IfNone, OnOk, is_some, length, replicate, count_by, slice_get, slice_set, option_copied, nat_eq};
ghost use Rattle.std.specs.Borrow.{sem};
ghost use Rattle.std.specs.Option.{option_copied_mut};
ghost use Rattle.indexmap.specs.IndexMap.{get, keys, IsUnchanged};
ghost use Rattle.patch_rows.specs.Rows.{row_at};

use crate::hashing::InARow;
use crate::hints::{hinted, note, note_all, note_at};
use indexmap::IndexMap;
use std::alloc::{AllocError, Allocator, Global};
use std::marker::Model;

/// How many hints there are for each row, at least.
const HINTS_OF_A_ROW: usize = 4;

/// Up to so many numbers each has a hint of its own.
const MOST_WITH_OWN: usize = 4096;

/// Room for so many rows is never given back.
const ROOM_KEPT: usize = 64;

/// Rows by number, of which few may stand: what they take in memory goes with how many stand, not with the greatest number.
///
/// A row is looked for first where a hint says that it stands, which costs two reads, and only where that misses by the number's hash.
/// Where there are up to 4,096 numbers, or numbers from 0 on come in turn, each look hits at once.
///
/// Beside itself a row takes some 38 bytes where all room is used: its number, the number's hash, where that stands in the table, and
/// four hints. Room grows by doubling, so all of this, and the row, is up to twice as much just after. Few rows take up to 16 KiB of
/// hints.
#[derive(Drop)]
pub struct Rows<T, A: Allocator = Global> {
    /// The rows that stand, by their numbers.
    standing: IndexMap<u32, T, InARow, A>,
    /// Where the row of a number may stand, by the number's lowest bits: hints, which no proof asks for.
    hints: Vec<u32, A>,
    /// Each number of a row is below this one.
    bound: usize,
}

impl<T, A: Allocator> Model for Rows<T, A> {
    ghost use Rattle.std.specs.Prelude.{ℕ};
    ghost use Rattle.indexmap.specs.IndexMap.{spare};
    ghost use Rattle.patch_rows.specs.Rows.{Rows as Seen, rows_code, rows_of, AreRows};

    ghost Value = { Seen T };

    ghost coded = { rows_code T.code };

    ghost view = { λ r. record { items = rows_of r.standing.entries r.bound; room = spare r.standing } };

    ghost invariant = { λ r. AreRows r.standing.entries r.bound };
}

impl<T, A: Allocator + Copy> Rows<T, A> {
    /// There is no number. Takes no memory.
    pub fn new(alloc: A) -> Rows<T, A>
        ensures { result.items ≡ [] }
    {
        Rows {
            standing: IndexMap::with_hasher(alloc, InARow::new()),
            hints: Vec::new(alloc),
            bound: 0,
        }
    }

    /// Of so many numbers no row stands. Takes no memory.
    pub fn of(alloc: A, count: usize) -> Rows<T, A>
        ensures { result.items ≡ replicate count None }
    {
        Rows {
            standing: IndexMap::with_hasher(alloc, InARow::new()),
            hints: Vec::new(alloc),
            bound: count,
        }
    }
}

/// The place of a number's row among those that stand, by the number's hash.
fn seek<T, A: Allocator>(standing: &IndexMap<u32, T, InARow, A>, number: u32) -> Option<usize>
    ensures found { IfSome result (λ place. slice_get (keys standing.now) place ≡ Some number) }
    ensures absent { IfNone result (get nat_eq standing.now number ≡ None) }
{
    match standing.get_full(&number) {
        Some((place, _, _)) => Some(place),
        None => None,
    }
}

/// The same, which its hint then says.
#[inline(never)]
fn seek_and_note<T, A: Allocator>(
    standing: &IndexMap<u32, T, InARow, A>,
    hints: &mut [u32],
    number: u32,
) -> Option<usize>
    ensures found { IfSome result (λ place. slice_get (keys standing.now) place ≡ Some number) }
    ensures absent { IfNone result (get nat_eq standing.now number ≡ None) }
{
    let place = seek(standing, number);
    if let Some(found) = place {
        note(hints, number, found);
    }
    place
}

/// The same, by the number's hint, and by its hash where that misses.
#[inline(always)]
fn place_of<T, A: Allocator>(
    standing: &IndexMap<u32, T, InARow, A>,
    hints: &mut [u32],
    number: u32,
) -> Option<usize>
    ensures found { IfSome result (λ place. slice_get (keys standing.now) place ≡ Some number) }
    ensures absent { IfNone result (get nat_eq standing.now number ≡ None) }
{
    let place = hinted(hints, number);
    if let Some((at, _)) = standing.get_index(place) {
        if *at == number {
            return Some(place);
        }
    }
    seek_and_note(standing, hints, number)
}

/// How many hints there have to be for so many rows and numbers.
fn hints_for(rows: usize, numbers: usize) -> usize {
    let own = numbers.min(MOST_WITH_OWN);
    rows.saturating_mul(HINTS_OF_A_ROW).max(own)
}

/// Gives memory back where less than a quarter of it is used.
fn tighten<T, A: Allocator>(
    standing: &mut IndexMap<u32, T, InARow, A>,
    hints: &mut Vec<u32, A>,
    numbers: usize,
)
    ensures { IsUnchanged standing.old standing.new }
{
    let rows = standing.len();
    let room = standing.capacity();
    if room <= ROOM_KEPT || rows > room / 4 {
        return;
    }
    let left = room / 2;
    standing.shrink_to(left);
    if let Some(count) = hints_for(left, numbers).checked_next_power_of_two() {
        hints.truncate(count);
        hints.shrink_to_fit();
        note_all(hints.as_mut_slice(), standing);
    }
}

impl<T, A: Allocator> Rows<T, A> {
    ghost use Rattle.patch_rows.specs.Lends.{lends_row, lends_standing};

    /// How many numbers there are.
    #[inline(always)]
    pub fn len(&self) -> usize
        ensures { result ≡ length self.now.items }
    {
        self.bound
    }

    /// How many rows stand.
    #[inline(always)]
    pub fn standing(&self) -> usize
        ensures { result ≡ count_by is_some self.now.items }
    {
        self.standing.len()
    }

    /// Whether the row of a number stands.
    #[inline(always)]
    pub fn contains(&self, number: u32) -> bool
        ensures { result ≡ is_some (row_at self.now number) }
    {
        self.get(number).is_some()
    }

    /// The row of a number, if it stands.
    #[inline(always)]
    pub fn get(&self, number: u32) -> Option<&T>
        ensures { option_copied result ≡ row_at self.now number }
    {
        if let Some((at, row)) = self.standing.get_index(hinted(&self.hints, number)) {
            if *at == number {
                return Some(row);
            }
        }
        self.search(number)
    }

    /// The same, wherever it is.
    #[inline(never)]
    fn search(&self, number: u32) -> Option<&T>
        ensures { option_copied result ≡ row_at self.now number }
    {
        self.standing.get(&number)
    }

    /// The row of a number, if it stands, to be changed in place.
    #[inline(always)]
    pub fn get_mut(&mut self, number: u32) -> Option<&mut T>
        ensures* writes_back { sem 𝓛 (lends_row T.row A.row A.Allocator self.entry number result) }
        ensures value { option_copied_mut result ≡ row_at self.old number }
    {
        match place_of(&self.standing, self.hints.as_mut_slice(), number) {
            Some(place) => Some(&mut self.standing[place]),
            None => None,
        }
    }

    /// The row of a number that stands.
    #[inline(always)]
    pub fn row(&self, number: u32) -> &T
        requires { IsSome (row_at self.now number) }
        ensures { row_at self.now number ≡ Some result.now }
    {
        self.get(number).unwrap()
    }

    /// The row of a number that stands, to be changed in place.
    #[inline(always)]
    pub fn row_mut(&mut self, number: u32) -> &mut T
        requires { IsSome (row_at self.old number) }
        ensures* writes_back { sem 𝓛 (lends_standing T.row A.row A.Allocator self.entry number result) }
        ensures value { row_at self.old number ≡ Some result.now }
    {
        let place = place_of(&self.standing, self.hints.as_mut_slice(), number).unwrap();
        &mut self.standing[place]
    }

    /// Has at least so many numbers. Takes no memory.
    pub fn lengthen(&mut self, count: usize)
        ensures kept { (n : ℕ) → row_at self.new n ≡ row_at self.old n }
        ensures long { count ≤ length self.new.items }
        ensures longer { length self.old.items ≤ length self.new.items }
        ensures room { self.new.room ≡ self.old.room }
    {
        self.bound = self.bound.max(count);
    }

    /// Makes room for one more row. Makes room for the hints too, as far as there is memory: one that is missing costs a search.
    pub fn reserve(&mut self) -> Result<(), AllocError>
        ensures room { OnOk result (0 < self.new.room) }
        ensures same { self.new.items ≡ self.old.items }
    {
        self.standing.reserve(1)?;
        let wanted = hints_for(self.standing.len().saturating_add(1), self.bound);
        if self.hints.len() < wanted {
            self.widen(wanted);
        }
        Ok(())
    }

    /// So many hints, or up to twice as many, if there is memory.
    #[inline(never)]
    fn widen(&mut self, wanted: usize)
        ensures { self.new ≡ self.old }
    {
        let Some(count) = wanted.checked_next_power_of_two() else {
            return;
        };
        if self.hints.resize(count, 0).is_ok() {
            note_all(self.hints.as_mut_slice(), &self.standing);
        }
    }

    /// Has the row of a number stand, which did not. Takes no memory.
    pub fn put(&mut self, number: u32, row: T)
    where
        T: Drop,
        requires within { number < length self.old.items }
        requires absent { row_at self.old number ≡ None }
        requires room { 0 < self.old.room }
        ensures { self.new.items ≡ slice_set self.old.items number (Some row) }
    {
        let place = self.standing.len();
        note(self.hints.as_mut_slice(), number, place);
        let _was = self.standing.insert(number, row).unwrap();
    }

    /// Takes the row of a number out, if it stands. The number stays, with no row. Where rows take little of the memory that there is
    /// for them, some of it is given back.
    pub fn take(&mut self, number: u32) -> Option<T>
        ensures row { result ≡ row_at self.old number }
        ensures left { self.new.items ≡ slice_set self.old.items number None }
    {
        let place = seek(&self.standing, number)?;
        let (_, row) = self.standing.swap_remove_index(place).unwrap();
        note_at(self.hints.as_mut_slice(), &self.standing, place);
        tighten(&mut self.standing, &mut self.hints, self.bound);
        Some(row)
    }
}

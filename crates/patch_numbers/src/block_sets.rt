//! Sets of block numbers.
ghost use Rattle.std.specs.Prelude.{◌≡◌, ◌≢◌, ◌<◌, ◌≤◌, ◌==◌, ◌&&◌, ◌||◌, ◌+◌, ◌/◌, ℕ, not, true, false, max, length, slice_index_or, OnOk};
ghost use Rattle.patch_numbers.specs.BlockSets.{holds, HasRoom, IsPutIn, IsTakenOut, IsSummary, IsLowestFrom, IsLeastInWord, IsLeastFrom};

use patch_model::MAX_CACHED;
use std::alloc::{AllocError, Allocator, Global};
use std::marker::Model;

/// A set of block numbers below [`MAX_CACHED`]: a bit for each in words of 64, a bit for each word that isn't 0 in words above them, and
/// so on in four levels. So its least number is found in a few steps. Its memory goes with the greatest number that room was made for:
/// a bit for each number up to it and a 64th of that, and up to about twice as much, since room is doubled where it ends. The two
/// highest levels lie in the set itself.
#[derive(Drop)]
pub struct BlockSet<A: Allocator = Global> {
    // A bit for each number.
    words: Vec<u64, A>,
    // A bit for each word that isn't 0, so that a row has 64 words.
    rows: Vec<u64, A>,
    // A bit for each row that isn't 0, so that a sheet has 64 rows.
    sheets: [u64; 64],
    // A bit for each sheet that isn't 0.
    top: [u64; 1],
}

impl<A: Allocator> Model for BlockSet<A> {
    ghost use Rattle.std.specs.Prelude.{ℕ, List};
    ghost use Rattle.patch_numbers.specs.BlockSets.{AreLevels};

    ghost Value = { List ℕ };

    ghost view = { λ s. s.words.items };

    ghost invariant = { λ s. AreLevels s.words.items s.rows.items s.sheets s.top };
}

impl<A: Allocator + Copy> BlockSet<A> {
    /// No number yet, and room for none.
    pub fn new(alloc: A) -> BlockSet<A>
        ensures { (n : ℕ) → holds result n ≡ false }
    {
        BlockSet {
            words: Vec::new(alloc),
            rows: Vec::new(alloc),
            sheets: [0; 64],
            top: [0; 1],
        }
    }
}

impl<A: Allocator> BlockSet<A> {
    /// Makes room for a number, and for those below it. What room a refused call has got stays.
    pub fn reserve(&mut self, number: usize) -> Result<(), AllocError>
        requires { number < MAX_CACHED }
        ensures room { OnOk result (HasRoom self.new number) }
        ensures kept { (n : ℕ) → holds self.new n ≡ holds self.old n }
        ensures longer { length self.old ≤ length self.new }
    {
        lengthen(&mut self.rows, number / 64)?;
        lengthen(&mut self.words, number)
    }

    /// Puts a number in, if it isn't there.
    pub fn insert(&mut self, number: usize)
        requires { HasRoom self.old number }
        ensures numbers { (n : ℕ) → holds self.new n ≡ (n == number || holds self.old n) }
        ensures room { length self.new ≡ length self.old }
    {
        if !put_in(&mut self.words, number) {
            return;
        }
        let word = number / 64;
        if !put_in(&mut self.rows, word) {
            return;
        }
        let row = word / 64;
        if !put_in(&mut self.sheets, row) {
            return;
        }
        put_in(&mut self.top, row / 64);
    }

    /// Takes a number out, if it is there.
    pub fn remove(&mut self, number: usize)
        ensures numbers { (n : ℕ) → holds self.new n ≡ (not (n == number) && holds self.old n) }
        ensures room { length self.new ≡ length self.old }
    {
        if !take_out(&mut self.words, number) {
            return;
        }
        let word = number / 64;
        if !take_out(&mut self.rows, word) {
            return;
        }
        let row = word / 64;
        if !take_out(&mut self.sheets, row) {
            return;
        }
        take_out(&mut self.top, row / 64);
    }

    /// The least number that is there, from one on.
    pub fn least_from(&self, from: usize) -> Option<usize>
        ensures { IsLeastFrom self.now from result }
    {
        if let Some(number) = least_in_word(&self.words, from) {
            return Some(number);
        }
        let word = filled_word(&self.rows, &self.sheets, &self.top, from / 64 + 1)?;
        least_in_word(&self.words, word * 64)
    }
}

/// Makes words so many that they have a bit for the number.
fn lengthen<A: Allocator>(words: &mut Vec<u64, A>, number: usize) -> Result<(), AllocError>
    ensures room { OnOk result (HasRoom words.new.items number) }
    ensures kept { (place : ℕ) → slice_index_or words.new.items place 0 ≡ slice_index_or words.old.items place 0 }
    ensures longer { length words.old.items ≤ length words.new.items }
    ensures bounded { length words.new.items ≤ max (length words.old.items) (number / 64 + 1) }
{
    let place = number / 64;
    if place < words.len() {
        return Ok(());
    }
    words.resize(place + 1, 0)
}

/// Sets the bit of a number, and tells whether its word was 0.
fn put_in(words: &mut [u64], number: usize) -> bool
    requires { HasRoom words.old number }
    ensures put { IsPutIn words.old words.new number }
    ensures began { result ≡ (slice_index_or words.old (number / 64) 0 == 0) }
{
    let place = number / 64;
    let was = words[place];
    words[place] = was | 1 << (number % 64);
    was == 0
}

/// Clears the bit of a number, if it is set, and tells whether that empties its word.
fn take_out(words: &mut [u64], number: usize) -> bool
    ensures taken { IsTakenOut words.old words.new number }
    ensures ended { result ≡ true → slice_index_or words.new (number / 64) 0 ≡ 0 }
    ensures kept { result ≡ false → (slice_index_or words.new (number / 64) 0 == 0) ≡ (slice_index_or words.old (number / 64) 0 == 0) }
{
    let place = number / 64;
    if place >= words.len() {
        return false;
    }
    let was = words[place];
    let bit = 1 << (number % 64);
    if was & bit == 0 {
        return false;
    }
    let left = was & !bit;
    words[place] = left;
    left == 0
}

/// The first word from one on that isn't 0.
fn filled_word(rows: &[u64], sheets: &[u64; 64], top: &[u64; 1], from: usize) -> Option<usize>
    requires few { length rows.now ≤ 4096 }
    requires of_rows { IsSummary sheets.now rows.now }
    requires of_sheets { IsSummary top.now sheets.now }
    ensures { IsLeastFrom rows.now from result }
{
    if let Some(word) = least_in_word(rows, from) {
        return Some(word);
    }
    let row = filled_row(sheets, top, from / 64 + 1)?;
    least_in_word(rows, row * 64)
}

/// The first row from one on that isn't 0.
fn filled_row(sheets: &[u64; 64], top: &[u64; 1], from: usize) -> Option<usize>
    requires { IsSummary top.now sheets.now }
    ensures { IsLeastFrom sheets.now from result }
{
    if let Some(row) = least_in_word(sheets, from) {
        return Some(row);
    }
    let sheet = filled_sheet(top, from / 64 + 1)?;
    least_in_word(sheets, sheet * 64)
}

/// The first sheet from one on that isn't 0.
fn filled_sheet(top: &[u64; 1], from: usize) -> Option<usize>
    ensures { IsLeastFrom top.now from result }
{
    least_in_word(top, from)
}

/// The least number from one on of those whose bit is in the same word.
fn least_in_word(words: &[u64], from: usize) -> Option<usize>
    ensures { IsLeastInWord words.now from result }
{
    let place = from / 64;
    if place >= words.len() {
        return None;
    }
    let bit = lowest_from(words[place], from % 64)?;
    Some(place * 64 + bit)
}

/// The least bit that is set in a word, from a place on.
fn lowest_from(word: u64, from: usize) -> Option<usize>
    requires { from < 64 }
    ensures { IsLowestFrom word from result }
{
    let rest = word >> from;
    if rest == 0 {
        return None;
    }
    Some(from + rest.trailing_zeros() as usize)
}

//! The key of each live patch's class, by the patch's number.
ghost use Rattle.std.specs.Prelude.{◌≡◌, ◌≢◌, ◌<◌, ◌⊎◌, ℕ, [], true, false, None, Some, IsSome, OnOk, is_some};
ghost use Rattle.std.specs.Option.{option_map};
ghost use Rattle.patch_links.specs.State.{find};

use indexmap::IndexMap;
use patch_model::PatchNo;
use patch_rows::InARow;
use std::alloc::{AllocError, Allocator, Global};
use std::marker::Model;

/// The key that each live patch's number leads to. Numbers mostly come in a row, and then one is looked for first where its distance
/// from the first one says.
#[derive(Drop)]
pub struct Keys<A: Allocator = Global> {
    /// A number that leads nowhere any more stays where it is, so that the others do, until there is no room and most are such.
    map: IndexMap<PatchNo, Option<usize>, InARow, A>,
    /// How many numbers stay so, about.
    gone: usize,
    /// The number at the first place, where those up to the last one are in a row.
    first: u32,
    /// No number below this one leads anywhere.
    lowest: u32,
    /// One above the greatest number that ever led somewhere, if there is a number above it.
    end: u32,
}

impl<A: Allocator> Model for Keys<A> {
    ghost use Rattle.std.specs.Prelude.{◌≡◌, ◌<◌, ℕ, None, nat_eq};
    ghost use Rattle.indexmap.specs.IndexMap.{spare, IsUnique};
    ghost use Rattle.patch_links.specs.State.{find};
    ghost use Rattle.patch_links.specs.Keys.{Keys as Seen, live_of};

    ghost Value = { Seen };

    ghost view = { λ k. record { numbers = live_of k.map.entries; room = spare k.map } };

    ghost invariant = { λ k. IsUnique nat_eq k.map × ((n : ℕ) → n < k.lowest → find (live_of k.map.entries) n ≡ None) };
}

impl<A: Allocator + Copy> Keys<A> {
    /// No number leads anywhere.
    pub fn new(alloc: A) -> Keys<A>
        ensures { result.numbers ≡ [] }
    {
        Keys {
            map: IndexMap::with_hasher(alloc, InARow::new()),
            gone: 0,
            first: 0,
            lowest: 0,
            end: 0,
        }
    }
}

impl<A: Allocator> Keys<A> {
    /// The key that a number leads to.
    pub fn get(&self, no: PatchNo) -> Option<usize>
        ensures { result ≡ find self.now.numbers no }
    {
        let place = no.0.wrapping_sub(self.first) as usize;
        if let Some((at, key)) = self.map.get_index(place) {
            if *at == no {
                return *key;
            }
        }
        if no.0 < self.lowest {
            return None;
        }
        self.search(no)
    }

    /// The same, wherever it is.
    #[inline(never)]
    fn search(&self, no: PatchNo) -> Option<usize>
        ensures { result ≡ find self.now.numbers no }
    {
        match self.map.get(&no) {
            Some(key) => *key,
            None => None,
        }
    }

    /// A number below which none leads anywhere.
    pub fn lowest(&self) -> u32
        ensures { (n : ℕ) → n < result → find self.now.numbers n ≡ None }
    {
        self.lowest
    }

    /// Makes room for one more number.
    pub fn reserve(&mut self) -> Result<(), AllocError>
        ensures room { OnOk result (0 < self.new.room) }
        ensures same { self.new.numbers ≡ self.old.numbers }
    {
        let count = self.map.len();
        if count == self.map.capacity() && count / 2 < self.gone {
            self.sweep();
        }
        self.map.reserve(1)
    }

    /// Lets the numbers go that lead nowhere any more.
    #[inline(never)]
    fn sweep(&mut self)
        ensures { self.new.numbers ≡ self.old.numbers }
    {
        self.map.retain(
            |_no: &PatchNo, key: &mut Option<usize>| -> bool
                ensures { (result ≡ is_some key.old) × (key.new ≡ key.old) }
            { key.is_some() },
        );
        self.gone = 0;
    }

    /// Has a number lead to a key or nowhere, if it leads to one or there is room.
    fn lead(&mut self, no: PatchNo, key: Option<usize>)
        requires { (0 < self.old.room) ⊎ IsSome (find self.old.numbers no) }
        ensures here { find self.new.numbers no ≡ key }
        ensures others { (n : ℕ) → n ≢ no → find self.new.numbers n ≡ find self.old.numbers n }
    {
        let at = no.0.wrapping_sub(self.first) as usize;
        if self.set_at(at, no, key) {
            return;
        }
        match self.map.insert(no, key) {
            Ok(_) => {}
            Err(_) => {}
        }
        self.lowest = self.lowest.min(no.0);
    }

    /// Has a number lead to a key or nowhere, if it stands at this place, and tells whether it does.
    fn set_at(&mut self, place: usize, no: PatchNo, key: Option<usize>) -> bool
        ensures here { result ≡ true → find self.new.numbers no ≡ key }
        ensures others { (n : ℕ) → n ≢ no → find self.new.numbers n ≡ find self.old.numbers n }
        ensures same { result ≡ false → self.new ≡ self.old }
    {
        if let Some((there, _)) = self.map.get_index(place) {
            if *there == no {
                let (_, held) = self.map.pair_mut(place);
                *held = key;
                self.lowest = no.0.min(self.lowest);
                return true;
            }
        }
        false
    }

    /// Has a number lead to a key.
    pub fn put(&mut self, no: PatchNo, key: usize)
        requires { 0 < self.old.room }
        ensures here { find self.new.numbers no ≡ Some key }
        ensures others { (n : ℕ) → n ≢ no → find self.new.numbers n ≡ find self.old.numbers n }
    {
        let count = (self.map.len() & 0xFFFF_FFFF) as u32;
        self.first = no.0.wrapping_sub(count);
        self.end = self.end.max(no.0.saturating_add(1));
        self.lead(no, Some(key));
    }

    /// Has a number lead to another key, if it leads to one.
    pub fn change(&mut self, no: PatchNo, key: usize)
        ensures here { find self.new.numbers no ≡ option_map (λ k. key) (find self.old.numbers no) }
        ensures others { (n : ℕ) → n ≢ no → find self.new.numbers n ≡ find self.old.numbers n }
    {
        if self.get(no).is_some() {
            self.lead(no, Some(key));
        }
    }

    /// Has a number lead nowhere.
    pub fn remove(&mut self, no: PatchNo)
        ensures here { find self.new.numbers no ≡ None }
        ensures others { (n : ℕ) → n ≢ no → find self.new.numbers n ≡ find self.old.numbers n }
    {
        if self.get(no).is_none() {
            return;
        }
        self.lead(no, None);
        self.gone = self.gone.saturating_add(1);
        self.pass_gone();
    }

    /// Passes over all numbers from the lowest on that lead nowhere, up to the greatest that ever led somewhere. None is passed
    /// over twice, so that takes a few instructions a patch in all.
    fn pass_gone(&mut self)
        ensures { self.new ≡ self.old }
    {
        self.lowest = self.first_leading();
    }

    /// The first number that leads somewhere, or one behind all that ever did.
    fn first_leading(&self) -> u32
        ensures { (n : ℕ) → n < result → find self.now.numbers n ≡ None }
    {
        for no in self.lowest..self.end {
            if self.get(PatchNo(no)).is_some() {
                return no;
            }
        }
        self.lowest.max(self.end)
    }
}

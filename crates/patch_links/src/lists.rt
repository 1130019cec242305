//! Which of each block's classes are ready, and which in flight.
ghost use Rattle.std.specs.Prelude.{◌≡◌, ◌≢◌, ◌<◌, ◌≤◌, ◌+◌, ◌-◌, ◌==◌, ◌++◌, ◌∷◌, [], ℕ, length, filter, not, slice_index_or, Some, None, IfOk, OnOk, OnErr, IsSome, IfSome, IfNone, take, drop, vec_capacity};
ghost use Rattle.patch_links.specs.Lists.{of_at, pushed, times, once, is_open, ChangesOf, LosesFlying};
ghost use Rattle.patch_links.specs.Joining.{is_neither};
ghost use Rattle.patch_links.specs.Leaving.{HasLeft, LosesLast};

use patch_rows::Rows;
use std::alloc::{AllocError, Allocator, Global};
use std::marker::Model;

/// For so many keys a list makes room at first.
const FIRST_ROOM: usize = 16;

/// Keys of a block's classes. A class in memory that waits for others is in no list.
#[derive(Drop)]
pub struct OfBlock<A: Allocator = Global> {
    /// Of the classes that nothing keeps out of the ready set.
    ready: Vec<usize, A>,
    /// So many of them are in it; the others are still to come.
    done: usize,
    /// Of the classes in flight.
    flying: Vec<usize, A>,
    /// How many classes the block has; each list has room for so many keys.
    count: usize,
}

impl<A: Allocator> Model for OfBlock<A> {
    ghost use Rattle.std.specs.Prelude.{vec_capacity};
    ghost use Rattle.patch_links.specs.Lists.{OfBlock as Seen};

    ghost Value = { Seen };

    ghost view = { λ o. record {
      ready = o.ready.items;
      done = o.done;
      flying = o.flying.items;
      count = o.count;
      room_ready = vec_capacity o.ready;
      room_flying = vec_capacity o.flying;
    } };
}

/// The lists of each block, by its number. A block that was never touched has none, so what they take in memory goes with how many
/// blocks were.
pub type Lists<A> = Rows<OfBlock<A>, A>;

impl<A: Allocator + Copy> OfBlock<A> {
    /// Of a block without classes.
    pub fn new(alloc: A) -> OfBlock<A>
        ensures ready { result.ready ≡ [] }
        ensures done { result.done ≡ 0 }
        ensures flying { result.flying ≡ [] }
        ensures count { result.count ≡ 0 }
    {
        OfBlock {
            ready: Vec::new(alloc),
            done: 0,
            flying: Vec::new(alloc),
            count: 0,
        }
    }
}

impl<A: Allocator> OfBlock<A> {
    /// Whether a key of the first list is not in the ready set yet.
    pub fn has_next(&self) -> bool
        ensures { result ≡ not (self.now.done == length self.now.ready) }
    {
        self.done != self.ready.len()
    }

    /// The first of these, which comes into the set.
    pub fn next(&mut self) -> usize
        requires { self.old.done < length self.old.ready }
        ensures key { result ≡ slice_index_or self.old.ready self.old.done 0 }
        ensures counted { self.new ≡ record self.old { done = self.old.done + 1 } }
    {
        let key = self.ready[self.done];
        self.done += 1;
        key
    }

    /// One more key for the ready set, still to come into it.
    pub fn push(&mut self, key: usize)
        requires { length self.old.ready < self.old.room_ready }
        ensures { self.new ≡ pushed self.old key }
    {
        self.ready.push_reserved(key);
    }

    /// How many keys of the first list are those of the ready set.
    pub fn done(&self) -> usize
        ensures { result ≡ self.now.done }
    {
        self.done
    }

    /// The keys of the ready set.
    pub fn ready(&self) -> &[usize]
        ensures { result.now ≡ self.now.ready }
    {
        self.ready.as_slice()
    }

    /// How many classes the block has.
    pub fn count(&self) -> usize
        ensures { result ≡ self.now.count }
    {
        self.count
    }

    /// Whether a write of the block can begin: some class of it is ready, or comes into the ready set, and none is in flight.
    pub fn is_open(&self) -> bool
        ensures { result ≡ is_open self.now }
    {
        !self.ready.is_empty() && self.flying.is_empty()
    }

    /// All ready classes are in flight.
    pub fn fly(&mut self)
        requires { length self.old.flying + length self.old.ready ≤ self.old.room_flying }
        ensures ready { self.new.ready ≡ [] }
        ensures done { self.new.done ≡ 0 }
        ensures flying { self.new.flying ≡ self.old.flying ++ self.old.ready }
        ensures count { self.new.count ≡ self.old.count }
        ensures room_ready { self.new.room_ready ≡ self.old.room_ready }
        ensures room_flying { self.old.room_flying ≤ self.new.room_flying }
    {
        self.flying.append(&mut self.ready).unwrap();
        self.done = 0;
    }

    /// Takes one of the classes in flight out, if there is one.
    pub fn land(&mut self) -> Option<usize>
        ensures none { IfNone result ((self.new ≡ self.old) × (self.old.flying ≡ [])) }
        ensures some { IfSome result (λ key. LosesFlying self.old self.new key) }
    {
        match self.flying.pop() {
            Some(key) => {
                self.count = self.count.saturating_sub(1);
                Some(key)
            }
            None => None,
        }
    }

    /// Makes room for one class more.
    pub fn grow(&mut self) -> Result<(), AllocError>
        ensures same { self.new ≡ record self.old { room_ready = self.new.room_ready; room_flying = self.new.room_flying } }
        ensures ready { self.old.room_ready ≤ self.new.room_ready }
        ensures flying { self.old.room_flying ≤ self.new.room_flying }
        ensures room { OnOk result ((self.old.count < self.new.room_ready) × (self.old.count < self.new.room_flying)) }
    {
        if self.count < self.ready.capacity() && self.count < self.flying.capacity() {
            return Ok(());
        }
        let Some(count) = self.count.checked_add(1) else {
            return Err(AllocError);
        };
        make_room(&mut self.ready, count)?;
        make_room(&mut self.flying, count)
    }

    /// One class more.
    pub fn add(&mut self)
        requires { self.old.count < self.old.room_ready }
        ensures { self.new ≡ record self.old { count = self.old.count + 1 } }
    {
        self.count += 1;
    }

    /// Where the key stands among those of the ready set: mostly there where it is thought to.
    fn place_of(&self, key: usize, hint: usize) -> usize
        requires within { self.now.done ≤ length self.now.ready }
        requires some { 0 < times (take self.now.done self.now.ready) key }
        ensures before { result < self.now.done }
        ensures here { slice_index_or self.now.ready result 0 ≡ key }
    {
        if hint < self.done && self.ready[hint] == key {
            return hint;
        }
        last_place(self.ready.as_slice(), self.done, key)
    }

    /// The key of a class that leaves the ready set changes places with the last one there. Which that is, and its place now.
    pub fn leave(&mut self, key: usize, hint: usize) -> (usize, usize)
        requires within { self.old.done ≤ length self.old.ready }
        requires some { 0 < times (take self.old.done self.old.ready) key }
        ensures { HasLeft self.old self.new key }
    {
        let place = self.place_of(key, hint);
        let last = self.done - 1;
        let moved = self.ready[last];
        self.ready.swap(place, last);
        self.done = last;
        (moved, place)
    }

    /// Takes the last key out that stands behind those of the ready set, if there is one.
    pub fn take_waiting(&mut self) -> Option<usize>
        ensures none { IfNone result ((self.new ≡ self.old) × (length self.old.ready ≤ self.old.done)) }
        ensures some { IfSome result (λ key. LosesLast self.old self.new key) }
    {
        if self.ready.len() <= self.done {
            return None;
        }
        self.ready.pop()
    }

    /// One class fewer, since two of them that are not in the ready set are one from now on.
    pub fn leave_waiting(&mut self, keep: usize, gone: usize)
        requires { self.old.done ≤ length self.old.ready }
        ensures ready { self.new.ready ≡ take self.old.done self.old.ready ++ filter (is_neither keep gone) (drop self.old.done self.old.ready) }
        ensures rest { self.new ≡ record self.old { ready = self.new.ready; count = self.old.count - 1 } }
    {
        drop_both(&mut self.ready, self.done, keep, gone);
        self.count = self.count.saturating_sub(1);
    }

    /// One class fewer, since one of the ready set, which has all keys, is part of another one from now on. The last key takes
    /// the place of its key, which is told.
    pub fn leave_ready(&mut self, gone: usize, hint: usize) -> usize
        requires within { self.old.done ≤ length self.old.ready }
        requires some { 0 < times (take self.old.done self.old.ready) gone }
        ensures less { (k : ℕ) → times self.new.ready k + once (gone == k) ≡ times self.old.ready k }
        ensures rest { self.new ≡ record self.old { ready = self.new.ready; done = length self.new.ready; count = self.old.count - 1 } }
    {
        let place = self.place_of(gone, hint);
        self.ready.swap_remove(place);
        self.done = self.ready.len();
        self.count = self.count.saturating_sub(1);
        place
    }
}

/// Whether the key is neither of the two.
fn is_neither(keep: usize, gone: usize, key: usize) -> bool
    ensures { result ≡ is_neither keep gone key }
{
    key != keep && key != gone
}

/// Takes both keys out of those behind the first so many.
fn drop_both<A: Allocator>(keys: &mut Vec<usize, A>, first: usize, keep: usize, gone: usize)
    requires { first ≤ length keys.old.items }
    ensures keys { keys.new.items ≡ take first keys.old.items ++ filter (is_neither keep gone) (drop first keys.old.items) }
    ensures room { vec_capacity keys.new ≡ vec_capacity keys.old }
{
    let mut place = first;
    while place < keys.len() {
        if is_neither(keep, gone, keys[place]) {
            place += 1;
        } else {
            keys.remove(place);
        }
    }
}

/// The last place before so many where the key stands.
fn last_place(keys: &[usize], count: usize, key: usize) -> usize
    requires within { count ≤ length keys.now }
    requires some { 0 < times (take count keys.now) key }
    ensures before { result < count }
    ensures here { slice_index_or keys.now result 0 ≡ key }
{
    let mut place = count;
    while place > 0 {
        place -= 1;
        if keys[place] == key {
            return place;
        }
    }
    place
}

/// Makes room for so many keys in all, and at first for some more.
fn make_room<A: Allocator>(keys: &mut Vec<usize, A>, count: usize) -> Result<(), AllocError>
    ensures keys { keys.new.items ≡ keys.old.items }
    ensures kept { vec_capacity keys.old ≤ vec_capacity keys.new }
    ensures room { OnOk result (count ≤ vec_capacity keys.new) }
{
    if count <= keys.capacity() {
        return Ok(());
    }
    keys.reserve(count.saturating_sub(keys.len()).max(FIRST_ROOM))
}

//! What a block keeps of a live class.
ghost use Rattle.std.specs.Prelude.{ℕ, ◌≡◌, ◌||◌, ◌+◌, ◌≤◌, ◌++◌, ◌∷◌, length, IfOk, OnOk, IsTrue, IsPermutation, true, false, [], min, max, replicate, ◌-◌, if◌then◌else◌};
ghost use Rattle.std.specs.List.{list_all};
ghost use Rattle.std.specs.List.Sorted.{IsNonDecreasing};
ghost use Rattle.patch_model.specs.Entry.{is_among};
ghost use Rattle.patch_numbers.specs.Rising.{follow_on};
ghost use Rattle.patch_records.specs.Records.{is_takeable, meets, names, departed, departed_among, MayHaveDeparted, saved_end, saves_any};
ghost use Rattle.patch_records.specs.Exchanges.{uncovered, laid_on, laid_over, covering, exchanged_with, leaves_taken};
ghost use Rattle.patch_records.specs.Merged.{merged, IsMerged, IsDrawn, IsUnion, has_room_for, is_around, with_lists_of, with_all_of, in_its_place, with_lists};

use crate::lists::Lists;
use crate::spans::{put_over, swap_span};
use patch_model::{BLOCK, OutOfMemory, PatchNo};
use patch_numbers::{
    both_lists, follow_on, greatest_of, have_common, is_interleaved, is_listed, least_of, place_in,
};
use std::alloc::{Allocator, Global};
use std::marker::Model;
use std::mem::replace;

/// Which way a class is exchanged.
#[derive(Clone, Copy)]
pub enum Turn {
    /// It is taken back.
    Take,
    /// It is put back.
    PutBack,
}

impl Turn {
    fn leaves_taken(self) -> bool
        ensures { result ≡ leaves_taken self }
    {
        match self {
            Turn::Take => true,
            Turn::PutBack => false,
        }
    }
}

/// A live class of the block. The numbers of its members, and those that they name, rise. Either list takes in as many more
/// numbers as `room` says without memory. A record is small, since a class that goes moves those behind it: bytes of a block are counted
/// in 16 bits, and long lists have memory of their own.
#[derive(Drop)]
pub struct Class<A: Allocator = Global> {
    name: PatchNo,
    start: u16,
    stop: u16,
    room: u32,
    flying: bool,
    hard: bool,
    taken: bool,
    saved: Vec<u8, A>,
    lists: Lists<A>,
}

impl<A: Allocator> Model for Class<A> {
    ghost use Rattle.std.specs.Prelude.{◌+◌, ◌≤◌, length};
    ghost use Rattle.std.specs.List.Sorted.{IsNonDecreasing};
    ghost use Rattle.patch_records.specs.Records.{Class as Seen};

    ghost Value = { Seen };

    ghost view = { λ c. record {
      name = c.name;
      members = c.lists.members;
      start = c.start;
      stop = c.stop;
      saved = c.saved.items;
      after = c.lists.after;
      flying = c.flying;
      hard = c.hard;
      taken = c.taken;
      room = c.room;
    } };

    ghost invariant = { λ c. (c.start + length c.saved.items ≤ c.stop) × (c.stop ≤ 4096)
        × IsNonDecreasing c.lists.members × IsNonDecreasing c.lists.after × (c.room ≤ c.lists.spare) };
}

/// Two classes as one, where that takes memory. A growing one has no lists of its own: in the block, the lower class's have room for
/// the higher one's.
#[derive(Drop)]
pub struct Drawn<A: Allocator = Global> {
    class: Class<A>,
    growing: bool,
}

impl<A: Allocator> Model for Drawn<A> {
    ghost use Rattle.patch_records.specs.Merged.{Drawn as Seen};

    ghost Value = { Seen };

    ghost view = { λ d. record { class = d.class; growing = d.growing } };
}

impl<A: Allocator> Class<A> {
    pub fn name(&self) -> PatchNo
        ensures { result ≡ self.now.name }
    {
        self.name
    }

    /// The greater of its name and another's.
    pub fn greater_name(&self, other: &Class<A>) -> PatchNo
        ensures { result ≡ max self.now.name other.now.name }
    {
        self.name.max(other.name)
    }

    /// The lesser of its name and another's.
    fn lesser_name(&self, other: &Class<A>) -> PatchNo
        ensures { result ≡ min self.now.name other.now.name }
    {
        self.name.min(other.name)
    }

    /// The least of its members, or the greatest number where it has none.
    pub fn lowest(&self) -> u32
        ensures { (n : ℕ) → is_among self.now.members n ≡ true → result ≤ n }
    {
        least_of(self.lists.members())
    }

    /// The greatest of its members, or zero where it has none.
    pub fn highest(&self) -> u32
        ensures { (n : ℕ) → is_among self.now.members n ≡ true → n ≤ result }
    {
        greatest_of(self.lists.members())
    }

    /// The numbers that its patches name, rising.
    pub fn named(&self) -> &[PatchNo]
        ensures { result.now ≡ self.now.after }
    {
        self.lists.after()
    }

    /// The numbers of its patches, rising.
    pub fn members(&self) -> &[PatchNo]
        ensures { result.now ≡ self.now.members }
    {
        self.lists.members()
    }

    pub fn is_flying(&self) -> bool
        ensures { result ≡ self.now.flying }
    {
        self.flying
    }

    pub fn is_hard(&self) -> bool
        ensures { result ≡ self.now.hard }
    {
        self.hard
    }

    pub fn is_taken(&self) -> bool
        ensures { result ≡ self.now.taken }
    {
        self.taken
    }

    /// It may be taken and isn't.
    pub fn is_takeable(&self) -> bool
        ensures { result ≡ is_takeable self.now }
    {
        !self.flying && !self.hard && !self.taken
    }

    pub fn includes(&self, no: PatchNo) -> bool
        ensures { result ≡ is_among self.now.members no }
    {
        is_listed(self.lists.members(), no)
    }

    /// The two spans have a common byte, or some member of this class names some member of the other.
    pub fn rests_on(&self, other: &Class<A>) -> bool
        ensures { result ≡ (meets self.now other.now || names self.now other.now) }
    {
        self.meets(other) || self.names_some_of(other)
    }

    fn meets(&self, other: &Class<A>) -> bool
        ensures { result ≡ meets self.now other.now }
    {
        self.start < other.stop && other.start < self.stop
    }

    /// Some member of it names some member of the other.
    fn names_some_of(&self, other: &Class<A>) -> bool
        ensures { result ≡ names self.now other.now }
    {
        have_common(self.lists.after(), other.lists.members())
    }

    /// A class of one patch, in memory and applied.
    pub fn new(
        no: PatchNo,
        start: usize,
        stop: usize,
        saved: Vec<u8, A>,
        lists: Lists<A>,
        hard: bool,
    ) -> Class<A>
        requires long { start + length saved.items ≤ stop }
        requires fits { stop ≤ BLOCK }
        requires members { lists.members ≡ no ∷ [] }
        requires after { IsNonDecreasing lists.after }
        ensures { result ≡ record {
          name = no;
          members = no ∷ [];
          start = start;
          stop = stop;
          saved = saved.items;
          after = lists.after;
          flying = false;
          hard = hard;
          taken = false;
          room = 0;
        } }
    {
        Class {
            name: no,
            start: start as u16,
            stop: stop as u16,
            room: 0,
            flying: false,
            hard,
            taken: false,
            saved,
            lists,
        }
    }

    /// Whether the lists of a higher class can stand behind this one's without memory, in rising order.
    fn has_room_for(&self, high: &Class<A>) -> bool
        ensures exact { result ≡ has_room_for self.now high.now }
        ensures members { IsTrue result → IsNonDecreasing (self.now.members ++ high.now.members) }
        ensures after { IsTrue result → IsNonDecreasing (self.now.after ++ high.now.after) }
    {
        let (members, names) = (high.lists.members(), high.lists.after());
        members.len() <= self.room()
            && names.len() <= self.room()
            && follow_on(self.lists.members(), members)
            && follow_on(self.lists.after(), names)
    }

    /// Whether the bytes of a higher class are all among those that this one saved.
    fn is_around(&self, high: &Class<A>) -> bool
        ensures exact { result ≡ is_around self.now high.now }
        ensures held { saved_end high.now ≤ high.now.stop }
    {
        self.start <= high.start
            && high.stop <= self.stop
            && self.start() + self.saved.len() == self.stop()
    }

    /// Draws this class and a higher one up as one. None where this one takes the higher one in without memory.
    pub fn drawn_up(&self, alloc: &A, high: &Class<A>) -> Result<Option<Drawn<A>>, OutOfMemory>
    where
        A: Clone,
        ensures { IfOk result (λ drawn. IsDrawn self.now high.now drawn) }
    {
        let growing = self.has_room_for(high);
        if growing && self.is_around(high) {
            return Ok(None);
        }
        if growing {
            self.drawn_growing(alloc, high)
        } else {
            self.drawn_whole(alloc, high)
        }
    }

    /// Draws up the record of both without lists, which this one's grow into.
    fn drawn_growing(&self, alloc: &A, high: &Class<A>) -> Result<Option<Drawn<A>>, OutOfMemory>
    where
        A: Clone,
        requires { has_room_for self.now high.now ≡ true }
        ensures { IfOk result (λ drawn. IsDrawn self.now high.now drawn) }
    {
        let zeros = self.zeros_for(alloc, high)?;
        let class = self.merged_with(high, Lists::none(), zeros);
        Ok(Some(Drawn {
            class,
            growing: true,
        }))
    }

    /// Draws up the record of both with their lists.
    fn drawn_whole(&self, alloc: &A, high: &Class<A>) -> Result<Option<Drawn<A>>, OutOfMemory>
    where
        A: Clone,
        ensures { IfOk result (λ drawn. IsDrawn self.now high.now drawn) }
    {
        let zeros = self.zeros_for(alloc, high)?;
        let class = self.merged(alloc, high, zeros)?;
        Ok(Some(Drawn {
            class,
            growing: false,
        }))
    }

    /// A zero for each byte from the first of this class and a higher one to the last.
    fn zeros_for(&self, alloc: &A, high: &Class<A>) -> Result<Vec<u8, A>, OutOfMemory>
    where
        A: Clone,
        ensures { IfOk result (λ zeros. zeros.items ≡ replicate (max self.now.stop high.now.stop - min self.now.start high.now.start) 0) }
    {
        let width = self.stop.max(high.stop) - self.start.min(high.start);
        Ok(vec![in alloc.clone()?; 0u8; usize::from(width)]?)
    }

    /// This class and a higher one as one class: on the bytes that they share it has what this one saved. It has room for as
    /// many numbers again as either of its lists has.
    fn merged(&self, alloc: &A, high: &Class<A>, zeros: Vec<u8, A>) -> Result<Class<A>, OutOfMemory>
    where
        A: Clone,
        requires { zeros.items ≡ replicate (max self.now.stop high.now.stop - min self.now.start high.now.start) 0 }
        ensures { IfOk result (λ c. IsMerged self.now high.now c) }
    {
        let lists = self.lists_with(alloc, high)?;
        Ok(self.merged_with(high, lists, zeros))
    }

    /// Its lists with those of a higher class, and room for as many numbers again as either has then.
    fn lists_with(&self, alloc: &A, high: &Class<A>) -> Result<Lists<A>, OutOfMemory>
    where
        A: Clone,
        ensures members { IfOk result (λ l. IsPermutation (self.now.members ++ high.now.members) l.members) }
        ensures after { IfOk result (λ l. IsPermutation (self.now.after ++ high.now.after) l.after) }
        ensures rising_members { IfOk result (λ l. IsNonDecreasing l.members) }
        ensures rising_after { IfOk result (λ l. IsNonDecreasing l.after) }
    {
        let (members, more_members) = (self.lists.members(), high.lists.members());
        let (names, more_names) = (self.lists.after(), high.lists.after());
        let most_members = members.len().saturating_add(more_members.len());
        let most_names = names.len().saturating_add(more_names.len());
        let room = most_members.max(most_names);
        let members = both_lists(alloc, members, more_members, room)?;
        let after = match both_lists(alloc, names, more_names, room) {
            Ok(after) => after,
            Err(refusal) => {
                drop(members);
                return Err(refusal);
            }
        };
        Lists::of_class(alloc, members, after)
    }

    /// Both as one class, with these lists, whose saved bytes are written over the zeros.
    fn merged_with(&self, high: &Class<A>, lists: Lists<A>, zeros: Vec<u8, A>) -> Class<A>
        requires members { IsNonDecreasing lists.members }
        requires after { IsNonDecreasing lists.after }
        requires zeros { zeros.items ≡ replicate (max self.now.stop high.now.stop - min self.now.start high.now.start) 0 }
        ensures { result ≡ merged self.now high.now lists.members lists.after result.room }
    {
        let start = self.start().min(high.start());
        let stop = self.stop().max(high.stop());
        let upper = high.start() - start;
        let lower = self.start() - start;
        let mut saved = zeros;
        saved[upper..upper + high.saved.len()].copy_from_slice(&high.saved);
        saved[lower..lower + self.saved.len()].copy_from_slice(&self.saved);
        Class {
            name: self.lesser_name(high),
            start: start as u16,
            stop: stop as u16,
            room: u32::try_from(lists.spare()).unwrap_or(u32::MAX),
            flying: false,
            hard: false,
            taken: false,
            saved,
            lists,
        }
    }

    /// Becomes what was drawn up of it and a higher class. Answers whether it then has no members but theirs and the lesser name, as it
    /// has where the record was drawn up of them.
    pub fn become_both(&mut self, drawn: Option<Drawn<A>>, high: &Class<A>) -> bool
        ensures drawn { IsDrawn self.old high.now drawn → self.new ≡ in_its_place self.old high.now drawn }
        ensures of_both { IsTrue result → IsUnion self.new self.old high.now }
    {
        let Some(drawn) = drawn else {
            self.take_in(high);
            return true;
        };
        let Drawn { class, growing } = drawn;
        if growing {
            let has_lesser_name = class.has_name_of(self, high);
            self.take_lists(high);
            self.take_the_rest(class);
            has_lesser_name
        } else {
            let is_of_both = class.is_union_of(self, high);
            drop(replace(self, class));
            is_of_both
        }
    }

    /// Becomes one with a higher class whose bytes lie among those that it saved: these stay what they are, since on the bytes
    /// that the two share the lower class's count.
    fn take_in(&mut self, high: &Class<A>)
        ensures taken { has_room_for self.old high.now ≡ true → self.new ≡ with_all_of self.old high.now }
        ensures of_both { IsUnion self.new self.old high.now }
    {
        let name = self.lesser_name(high);
        self.take_lists(high);
        self.name = name;
        self.flying = false;
        self.hard = false;
        self.taken = false;
    }

    /// Whether it has no members but those of two other classes, and the lesser of their names.
    fn is_union_of(&self, low: &Class<A>, high: &Class<A>) -> bool
        ensures { IsTrue result → IsUnion self.now low.now high.now }
    {
        self.has_name_of(low, high) && self.has_members_of(low, high)
    }

    /// Whether its name is the lesser of those of two other classes.
    fn has_name_of(&self, low: &Class<A>, high: &Class<A>) -> bool
        ensures { IsTrue result → self.now.name ≡ min low.now.name high.now.name }
    {
        self.name == low.lesser_name(high)
    }

    /// Whether each member is one of two other classes. In a record that was drawn up of the two they are interleaved, which one pass
    /// tells; in any other, each is looked for.
    fn has_members_of(&self, low: &Class<A>, high: &Class<A>) -> bool
        ensures { result
            ≡ list_all (λ n. is_among low.now.members n || is_among high.now.members n) self.now.members }
    {
        let members = self.lists.members();
        let (these, those) = (low.lists.members(), high.lists.members());
        is_interleaved(members, these, those)
            || members
                .iter()
                .all(|n| low.includes(*n) || high.includes(*n))
    }

    /// Takes the members and the names of a higher class in behind its own, where there is room for them.
    fn take_lists(&mut self, high: &Class<A>)
        ensures room { has_room_for self.old high.now ≡ true → self.new ≡ with_lists_of self.old high.now }
        ensures no_room { has_room_for self.old high.now ≡ false → self.new ≡ self.old }
    {
        if self.has_room_for(high) {
            let (members, names) = (high.lists.members(), high.lists.after());
            let most = members.len().max(names.len());
            self.lists.put_behind(members, names);
            self.room -= most as u32;
        }
    }

    /// Becomes another class, but for its lists.
    fn take_the_rest(&mut self, class: Class<A>)
        ensures { self.new ≡ with_lists class self.old }
    {
        self.name = class.name;
        self.start = class.start;
        self.stop = class.stop;
        self.flying = class.flying;
        self.hard = class.hard;
        self.taken = class.taken;
        self.saved = class.saved;
    }

    pub fn depart(&mut self)
        ensures { self.new ≡ departed self.old }
    {
        self.flying = true;
        self.saved.clear();
    }

    /// Departs if one of the numbers, which rise, is its name, which is looked for at a place first. Answers where the next
    /// class's may be.
    pub fn depart_among(&mut self, numbers: &[PatchNo], first: usize) -> usize
        ensures named { MayHaveDeparted numbers.now self.old self.new }
        ensures exact { IsNonDecreasing numbers.now → self.new ≡ departed_among numbers.now self.old }
    {
        match place_in(numbers, first, self.name) {
            Some(at) => {
                self.depart();
                at.saturating_add(1)
            }
            None => first,
        }
    }

    pub fn start(&self) -> usize
        ensures { result ≡ self.now.start }
    {
        usize::from(self.start)
    }

    fn stop(&self) -> usize
        ensures { result ≡ self.now.stop }
    {
        usize::from(self.stop)
    }

    /// How many more members and names it takes in without memory.
    fn room(&self) -> usize
        ensures { result ≡ self.now.room }
    {
        self.room as usize
    }

    /// Where the saved bytes end.
    pub fn saved_end(&self) -> usize
        ensures exact { result ≡ saved_end self.now }
        ensures range { self.now.start ≤ result }
        ensures fits { result ≤ BLOCK }
    {
        self.start() + self.saved.len()
    }

    /// Whether it saved a byte from one place up to another.
    pub fn saves_any(&self, start: usize, stop: usize) -> bool
        ensures exact { result ≡ saves_any self.now start stop }
        ensures fits { saved_end self.now ≤ BLOCK }
    {
        self.start() < stop && start < self.start() + self.saved.len()
    }

    /// Lays the saved bytes on a copy of the block's, where the class may be taken and isn't.
    pub fn uncover(&self, copy: &mut [u8])
        requires { length copy.old ≡ BLOCK }
        ensures { copy.new ≡ uncovered self.now copy.old }
    {
        if self.is_takeable() {
            let stop = self.start() + self.saved.len();
            copy[self.start()..stop].copy_from_slice(&self.saved);
        }
    }

    /// Lays a patch's bytes on the block's. The class keeps those that were there, in place of the patch's own, which it has till
    /// then; a hard one has neither.
    pub fn lay_on(&mut self, block: &mut [u8], bytes: &[u8])
        requires fits { self.old.start + length bytes.now ≤ length block.old }
        requires same { self.old.saved ≡ (if self.old.hard then [] else bytes.now) }
        ensures laid { block.new ≡ laid_over self.old.start bytes.now block.old }
        ensures class { self.new ≡ covering self.old block.old bytes.now }
    {
        let start = self.start();
        let saved = self.saved.as_mut_slice();
        put_over(block, start, bytes, saved, self.hard);
    }

    /// Exchanges the saved bytes with the block's, and marks the class.
    pub fn exchange(&mut self, bytes: &mut [u8], turn: Turn)
        requires { length bytes.old ≡ 4096 }
        ensures laid { bytes.new ≡ laid_on self.old bytes.old }
        ensures class { self.new ≡ exchanged_with self.old bytes.old turn }
    {
        let start = self.start();
        let saved = self.saved.as_mut_slice();
        swap_span(bytes, start, saved);
        self.taken = turn.leaves_taken();
    }
}

//! The records of one block's classes in their order, with the block's bytes.
ghost use Rattle.std.specs.Prelude.{◌≡◌, ◌<◌, ◌≤◌, ◌==◌, length, Some, IfSome, IsFalse, IsTrue, OnErr, ℕ, false};
ghost use Rattle.patch_model.specs.Entry.{is_among};
ghost use Rattle.patch_stacks.specs.State.{Block, HasNoneBelow, swept_to, class_at, exchanged_at, follows, hinders, HinderWithin, place_of, IsOnlyNamed, restored_to, outline, IsLeast, unlaid};
ghost use Rattle.patch_records.specs.Records.{is_takeable, names};
ghost use Rattle.patch_stacks.specs.Places.{IsRange};
ghost use Rattle.patch_stacks.specs.Turns.{IsTakeOf, IsPutBackOf};

use crate::members::Members;
use crate::places::Places;
use crate::refusals::{PutBackRefusal, TakeRefusal};
use patch_images::{Image, copy_image, forget, uncover_all};
use patch_model::{BLOCK, BlockBytes, PatchNo};
use patch_records::{Class, Turn};
use std::alloc::{Allocator, Global};
use std::marker::Model;

/// So many records are asked one after another whether they have a number.
pub(crate) const FEW: usize = 16;

/// One block's bytes, and a record of each live class: its members, its span, what its members name, whether it is in
/// flight, and the bytes that a take or a put back exchanges (a hard class and one in flight keep none). The records stand one
/// above the other, each above those that it follows.
///
/// The calls that change the records (`lay_if`, `join_by`, `depart`, `depart_each`, `land`, `land_each`) are for a block of which
/// nothing is taken.
#[derive(Drop)]
pub struct Stack<A: Allocator = Global> {
    pub(crate) bytes: Vec<u8, A>,
    pub(crate) classes: Vec<Class<A>, A>,
    /// Outside of these places no class is taken.
    pub(crate) taken: Places,
    /// Outside of these no class is in flight.
    pub(crate) flying: Places,
    /// Where they are known to be apart, a record that has a number is the only one.
    pub(crate) members: Members,
    /// Where it is known, what a write sends of the block is found without a look at its records.
    pub(crate) image: Option<Image<A>>,
}

impl<A: Allocator> Model for Stack<A> {
    ghost use Rattle.std.specs.Prelude.{◌≡◌, length};
    ghost use Rattle.patch_stacks.specs.State.{Block, TakenWithin, FlyingWithin, KnownApart};
    ghost use Rattle.patch_images.specs.Images.{KnownGap, KnownImage};

    ghost Value = { Block };

    ghost view = { λ s. record { bytes = s.bytes.items; classes = s.classes.items } };

    ghost invariant = { λ s. (length s.bytes.items ≡ 4096) × TakenWithin s.taken s.classes.items × KnownApart s.members s.classes.items × FlyingWithin s.flying s.classes.items
        × KnownImage s.image s.classes.items s.bytes.items × KnownGap s.image s.classes.items };
}

impl<A: Allocator> Stack<A> {
    /// These bytes with no record yet; the records take their memory from `alloc`.
    pub fn of(alloc: A, first: BlockBytes<A>) -> Stack<A>
        ensures empty { result ≡ unlaid first }
        ensures length { length first ≡ BLOCK }
    {
        Stack {
            bytes: first.into_vec(),
            classes: Vec::new(alloc),
            taken: Places::none(),
            flying: Places::none(),
            members: Members::none(),
            image: None,
        }
    }

    /// The place of the record that has this number among its members. Mostly that is the last one whose name isn't above the
    /// number, since names rise with the places but for what merges and moves did; else each record is asked.
    pub(crate) fn place_of(&self, no: PatchNo) -> Option<usize>
        ensures { result ≡ place_of self.now no }
    {
        match self.place_by_name(no) {
            Some(at) => Some(at),
            None => self.place_by_asking(no),
        }
    }

    /// The same by asking each record.
    fn place_by_asking(&self, no: PatchNo) -> Option<usize>
        ensures { result ≡ place_of self.now no }
    {
        self.classes.iter().position(|class| class.includes(no))
    }

    fn place_by_name(&self, no: PatchNo) -> Option<usize>
        ensures { IfSome result (λ at. place_of self.now no ≡ Some at) }
    {
        if !self.members.are_apart {
            return None;
        }
        let Some(at) = self.place_upto(no) else {
            return None;
        };
        let class = &self.classes[at];
        class.includes(no).then_some(at)
    }

    /// The last place whose name isn't above the number, where names rise with the places. That is mostly the last of all, which is
    /// looked at first.
    fn place_upto(&self, no: PatchNo) -> Option<usize>
        ensures { IfSome result (λ at. at < length self.now.classes) }
    {
        let last = self.classes.len().checked_sub(1)?;
        if self.name_at(last) <= no {
            return Some(last);
        }
        let behind = self.classes.partition_point(|class| class.name() <= no);
        behind.checked_sub(1)
    }

    /// The place of the record with this name, where that is found at once, and no other is known to have it.
    pub(crate) fn place_of_name(&self, name: PatchNo) -> Option<usize>
        ensures { IfSome result (λ at. IsOnlyNamed self.now name at) }
    {
        if !self.members.are_rising {
            return None;
        }
        let Some(at) = self.place_upto(name) else {
            return None;
        };
        if self.name_at(at) == name {
            Some(at)
        } else {
            None
        }
    }

    /// Whether some record may have this number among its members. Where there are many records, and the number's isn't found
    /// at once, it is taken to be there.
    pub(crate) fn may_have(&self, no: PatchNo) -> bool
        ensures { IsFalse result → (i : ℕ) → is_among (class_at self.now i).members no ≡ false }
    {
        if self.members.are_below(no) {
            return false;
        }
        if self.place_by_name(no).is_some() {
            return true;
        }
        if self.is_missed(no) {
            return false;
        }
        self.len() > FEW || self.place_by_asking(no).is_some()
    }

    /// The same, where no record has a member below the lowest.
    pub(crate) fn may_have_from(&self, lowest: PatchNo, no: PatchNo) -> bool
        requires { HasNoneBelow self.now lowest }
        ensures { IsFalse result → (i : ℕ) → is_among (class_at self.now i).members no ≡ false }
    {
        lowest.0 <= no.0 && self.may_have(no)
    }

    /// A number below which no record has a member, so that names below it need not be looked for: most names of a patch may be older, as
    /// in a chain of groups. It is the least member where it pays to look for that, since the records are no more than the names and some
    /// name may be a member; else it is 0.
    pub(crate) fn lowest_for(&self, names: &[PatchNo]) -> PatchNo
        ensures { HasNoneBelow self.now result }
    {
        if names.len() < self.classes.len() || self.are_all_newer(names) {
            return PatchNo(0);
        }
        let mut lowest = u32::MAX;
        for class in &self.classes {
            lowest = lowest.min(class.lowest());
        }
        PatchNo(lowest)
    }

    /// Whether all of these numbers are known to be above the members of the records.
    fn are_all_newer(&self, numbers: &[PatchNo]) -> bool {
        numbers.iter().all(|no| self.members.are_below(*no))
    }

    pub(crate) fn len(&self) -> usize
        ensures { result ≡ length self.now.classes }
    {
        self.classes.len()
    }

    /// Whether no class is live.
    pub fn is_empty(&self) -> bool
        ensures { result ≡ (length self.now.classes == 0) }
    {
        self.len() == 0
    }

    fn name_at(&self, at: usize) -> PatchNo
        requires { at < length self.now.classes }
        ensures { result ≡ (class_at self.now at).name }
    {
        let class = &self.classes[at];
        class.name()
    }

    pub(crate) fn is_flying_at(&self, at: usize) -> bool
        requires { at < length self.now.classes }
        ensures { result ≡ (class_at self.now at).flying }
    {
        let class = &self.classes[at];
        class.is_flying()
    }

    fn is_hard_at(&self, at: usize) -> bool
        requires { at < length self.now.classes }
        ensures { result ≡ (class_at self.now at).hard }
    {
        let class = &self.classes[at];
        class.is_hard()
    }

    fn is_taken_at(&self, at: usize) -> bool
        requires { at < length self.now.classes }
        ensures { result ≡ (class_at self.now at).taken }
    {
        let class = &self.classes[at];
        class.is_taken()
    }

    /// Whether the class at the first place depends directly on that at the second, which stands below it.
    pub(crate) fn follows_at(&self, at: usize, other: usize) -> bool
        requires first { at < length self.now.classes }
        requires second { other < length self.now.classes }
        ensures { result ≡ follows self.now at other }
    {
        let class = &self.classes[at];
        other < at && class.rests_on(&self.classes[other])
    }

    /// Whether the class at the second place keeps that at the first from being taken, or from going back.
    fn hinders_at(&self, turn: Turn, at: usize, other: usize) -> bool
        requires first { at < length self.now.classes }
        requires second { other < length self.now.classes }
        ensures { result ≡ hinders turn self.now at other }
    {
        match turn {
            Turn::Take => at < other && !self.is_taken_at(other) && self.follows_at(other, at),
            Turn::PutBack => other < at && self.is_taken_at(other) && self.follows_at(at, other),
        }
    }

    /// Where the classes stand that may keep this one from being taken, or from going back.
    fn reach(&self, turn: Turn, at: usize) -> Places
        requires { at < length self.now.classes }
        ensures fits { IsRange result (length self.now.classes) }
        ensures all { HinderWithin turn self.now at result }
    {
        match turn {
            Turn::Take => Places {
                from: at + 1,
                to: self.len(),
            },
            Turn::PutBack => self.taken.below(at),
        }
    }

    /// Whether the number is known to be no member: as a member it would be a name, but lies between those of two records, one right above
    /// the other, or below them all or above. Of numbers below which each member is a name, and names that rise:
    ///
    ///     3 5 8    the names of the records, the lowest first
    ///     3 5 8    6 is missed: it lies between 5 and 8
    ///     3 5 8    so are 2 and 9, which lie below 3 and above 8
    fn is_missed(&self, no: PatchNo) -> bool
        ensures { IsTrue result → (i : ℕ) → is_among (class_at self.now i).members no ≡ false }
    {
        if !self.members.are_rising {
            return false;
        }
        if self.members.others_from <= no.0 {
            return false;
        }
        match self.place_upto(no) {
            Some(at) => self.is_below(at, no) && self.is_above(at + 1, no),
            None => self.is_above(0, no),
        }
    }

    /// Whether the record at a place has a name below the number.
    fn is_below(&self, at: usize, no: PatchNo) -> bool
        requires { at < length self.now.classes }
        ensures { IsTrue result → (class_at self.now at).name < no }
    {
        self.name_at(at) < no
    }

    /// Whether the record at a place has a name above the number, or there is none.
    fn is_above(&self, at: usize, no: PatchNo) -> bool
        ensures { IsTrue result → at < length self.now.classes → no < (class_at self.now at).name }
    {
        at >= self.len() || no < self.name_at(at)
    }

    /// The least name of a class that keeps this one from being taken, or from going back.
    fn hindrance(&self, turn: Turn, at: usize) -> Option<PatchNo>
        requires { at < length self.now.classes }
        ensures { IsLeast (hinders turn self.now at) self.now result }
    {
        let reach = self.reach(turn, at);
        let mut least: Option<PatchNo> = None;
        for other in reach.from..reach.to {
            if self.hinders_at(turn, at, other) {
                let name = self.name_at(other);
                least = match least {
                    Some(before) => Some(if before < name { before } else { name }),
                    None => Some(name),
                };
            }
        }
        least
    }

    /// Takes the class of this patch back, whose number is any member's: what it saved is exchanged with the bytes of its span. It
    /// looks at the records above it one after another, and takes no memory.
    pub fn take(&mut self, no: PatchNo) -> Result<(), TakeRefusal>
        ensures exact { IsTakeOf self.old no self.new result }
        ensures outline { outline self.new ≡ outline self.old }
        ensures refused { OnErr result (self.new ≡ self.old) }
    {
        let Some(at) = self.place_of(no) else {
            return Err(TakeRefusal::Unknown);
        };
        if self.is_flying_at(at) {
            return Err(TakeRefusal::InFlight);
        }
        if self.is_hard_at(at) {
            return Err(TakeRefusal::Hard);
        }
        if self.is_taken_at(at) {
            return Err(TakeRefusal::AlreadyTaken);
        }
        if let Some(name) = self.hindrance(Turn::Take, at) {
            return Err(TakeRefusal::DependentApplied(name));
        }
        self.exchange_at(at, Turn::Take);
        Ok(())
    }

    /// Puts the class of this patch back, whose number is any member's. It takes no memory.
    pub fn put_back(&mut self, no: PatchNo) -> Result<(), PutBackRefusal>
        ensures exact { IsPutBackOf self.old no self.new result }
        ensures outline { outline self.new ≡ outline self.old }
        ensures refused { OnErr result (self.new ≡ self.old) }
    {
        let Some(at) = self.place_of(no) else {
            return Err(PutBackRefusal::NotTaken);
        };
        if !self.is_taken_at(at) {
            return Err(PutBackRefusal::NotTaken);
        }
        if let Some(name) = self.hindrance(Turn::PutBack, at) {
            return Err(PutBackRefusal::DependencyTaken(name));
        }
        self.exchange_at(at, Turn::PutBack);
        Ok(())
    }

    /// Takes every class back that is in memory and not hard, in one pass downwards over the records.
    pub fn take_all(&mut self)
        ensures { self.new ≡ swept_to (length self.old.classes) self.old }
    {
        for passed in 0..self.len() {
            let at = self.len() - 1 - passed;
            if self.is_takeable_at(at) {
                self.exchange_at(at, Turn::Take);
            }
        }
    }

    /// Takes every class that is in memory and not hard from a copy of the block's bytes. Where the image is known it is copied,
    /// else it takes one pass downwards over the records. The block stays as it is, and no memory is taken.
    pub fn take_all_from(&self, copy: &mut [u8])
        requires { copy.old ≡ self.now.bytes }
        ensures exact { copy.new ≡ (swept_to (length self.now.classes) self.now).bytes }
        ensures length { length copy.new ≡ BLOCK }
    {
        let _ = &self.bytes;
        if !copy_image(&self.image, copy) {
            uncover_all(self.classes.as_slice(), copy);
        }
    }

    fn is_takeable_at(&self, at: usize) -> bool
        requires { at < length self.now.classes }
        ensures { result ≡ is_takeable (class_at self.now at) }
    {
        let class = &self.classes[at];
        class.is_takeable()
    }

    /// Puts every class back, in one pass upwards over the records from the lowest that is taken to the highest.
    pub fn put_all_back(&mut self)
        ensures { self.new ≡ restored_to (length self.old.classes) self.old }
    {
        let taken = self.taken.below(self.len());
        for at in taken.from..taken.to {
            if self.is_taken_at(at) {
                self.exchange_at(at, Turn::PutBack);
            }
        }
        self.taken = Places::none();
    }

    /// The bytes as they stand, without the classes that are taken.
    pub fn bytes(&self) -> &[u8]
        ensures value { result.now ≡ self.now.bytes }
        ensures length { length result.now ≡ BLOCK }
    {
        &self.bytes
    }

    fn exchange_at(&mut self, at: usize, turn: Turn)
        requires { at < length self.old.classes }
        ensures { self.new ≡ exchanged_at self.old at turn }
    {
        let class = &mut self.classes[at];
        class.exchange(self.bytes.as_mut_slice(), turn);
        self.taken = self.taken.with(at, at + 1);
        forget(&mut self.image);
    }
}

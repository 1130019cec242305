//! What becomes of a block's records as patches are made, sent and completed.
ghost use Rattle.std.specs.Prelude.{◌≡◌, ◌+◌, ◌-◌, ◌<◌, ◌≤◌, length, vec_len, vec_capacity, [], IfOk, OnOk, OnErr, ℕ, true, IsTrue, if◌then◌else◌, ◌==◌, ◌++◌, ◌∷◌, not};
ghost use Rattle.std.specs.Fn.{FnOnceTakesAtMut};
ghost use Rattle.std.specs.List.Sorted.{IsNonDecreasing};
ghost use Rattle.patch_model.specs.Names.{numbers_named};
ghost use Rattle.patch_stacks.specs.State.{with_laid, IsLaid, departed_at, landed_at, with_departed, HasDeparted, AreDeparting, class_at, with_one_departed, with_one_landed, with_landed, FlyingWithin, AllFlyAt};
ghost use Rattle.patch_records.specs.Records.{unlaid_class};
ghost use Rattle.patch_records.specs.Exchanges.{laid_over, covering};
ghost use Rattle.patch_stacks.specs.Members.{with_member};
ghost use Rattle.patch_images.specs.Images.{StaysIf};
ghost use Rattle.patch_stacks.specs.Places.{IsRange};
ghost use Rattle.patch_stacks.specs.Changes.{Enters};

use crate::members::Members;
use crate::places::Places;
use crate::stacks::{FEW, Stack};
use crate::turning::take_out;
use patch_images::{
    Image, draw_unless_known, forget, forget_unless, gap_of_departing, keep_span, make_room,
    trim_gap,
};
use patch_model::{BLOCK, Named, OutOfMemory, PatchNo};
use patch_numbers::NumberList;
use patch_records::{Class, Lists};
use std::alloc::Allocator;

/// So many classes that depart are searched for one after another.
const MOST_SOUGHT: usize = 4;

/// For so many records room is made where there is none.
const FIRST_ROOM: usize = 8;

impl<A: Allocator> Stack<A> {
    /// Lays a patch over the records, in memory and a class of its own, once it is entered elsewhere: `enter` is called when the
    /// block has all the memory that it needs. Of a hard patch no bytes are saved. What it names that is no member of a record may be
    /// forgotten. Where the block lacks memory itself, nothing is changed here.
    pub fn lay_if<V, F>(
        &mut self,
        no: PatchNo,
        start: usize,
        bytes: &[u8],
        after: Named<'_>,
        hard: bool,
        other: &mut V,
        enter: F,
    ) -> Result<(), OutOfMemory>
    where
        A: Clone,
        F: FnOnce(&mut V) -> Result<(), OutOfMemory> + Drop,
        requires fits { start + length bytes.now ≤ BLOCK }
        requires callable { FnOnceTakesAtMut F.FnOnce enter other.old }
        ensures laid { OnOk result (IsLaid self.old no start bytes.now (numbers_named after.entry) hard self.new) }
        ensures refused { OnErr result (self.new ≡ self.old) }
        ensures entered { Enters F.FnOnce enter other.old result other.new }
    {
        let named = self.names_of(after)?;
        let class = self.new_class(no, start, bytes, named, hard)?;
        self.lay_with(class, bytes, other, enter)?;
        Ok(())
    }

    /// A new class, which isn't laid yet.
    fn new_class(
        &self,
        no: PatchNo,
        start: usize,
        bytes: &[u8],
        names: NumberList<A>,
        hard: bool,
    ) -> Result<Class<A>, OutOfMemory>
    where
        A: Clone,
        requires fits { start + length bytes.now ≤ BLOCK }
        requires rising { IsNonDecreasing names.items }
        ensures { IfOk result (λ c. c ≡ unlaid_class no start bytes.now names.items hard) }
    {
        let alloc = self.bytes.allocator();
        let lists = Lists::of_patch(alloc, no, names)?;
        let saved = to_be_saved(alloc.clone()?, bytes, hard)?;
        let stop = start + bytes.len();
        Ok(Class::new(no, start, stop, saved, lists, hard))
    }

    /// Lays a new class, once it is entered elsewhere.
    fn lay_with<V, F>(
        &mut self,
        class: Class<A>,
        bytes: &[u8],
        other: &mut V,
        enter: F,
    ) -> Result<(), OutOfMemory>
    where
        A: Clone,
        F: FnOnce(&mut V) -> Result<(), OutOfMemory> + Drop,
        requires fits { class.start + length bytes.now ≤ BLOCK }
        requires unlaid { class ≡ unlaid_class class.name class.start bytes.now class.after class.hard }
        requires callable { FnOnceTakesAtMut F.FnOnce enter other.old }
        ensures done { OnOk result (self.new ≡ with_laid self.old class.name class.start bytes.now class.after class.hard) }
        ensures refused { OnErr result (self.new ≡ self.old) }
        ensures entered { Enters F.FnOnce enter other.old result other.new }
    {
        make_record_room(&mut self.classes)?;
        enter(other)?;
        know_laid(
            self.bytes.allocator(),
            self.classes.as_slice(),
            &class,
            &mut self.members,
            &mut self.image,
        );
        lay_class(&mut self.bytes, &mut self.classes, class, bytes);
        Ok(())
    }

    /// Puts the class of this patch in flight. Its saved bytes go.
    pub fn depart(&mut self, no: PatchNo)
        ensures { self.new ≡ with_one_departed self.old no }
    {
        if let Some(at) = self.place_of(no) {
            self.depart_at(at);
        }
    }

    /// Puts in flight each class that has one of these numbers, which rise, as its name. Of few numbers each is searched for; of
    /// many, or where one isn't found at once, each record is looked at. Of numbers that don't rise some may be overlooked.
    pub fn depart_each(&mut self, numbers: &[PatchNo])
        ensures exact { IsNonDecreasing numbers.now → self.new ≡ with_departed self.old numbers.now }
        ensures named { HasDeparted numbers.now self.old self.new }
    {
        let are_gone = numbers.len() <= MOST_SOUGHT && self.depart_by_name(numbers);
        if !are_gone {
            self.depart_over_all(numbers);
        }
        self.draw_image();
    }

    /// Draws the image anew where the block has many records, and it isn't known.
    fn draw_image(&mut self)
        ensures { self.new ≡ self.old }
    {
        if self.classes.len() > FEW {
            let classes = self.classes.as_slice();
            draw_unless_known(&mut self.image, self.bytes.as_slice(), classes);
        }
    }

    /// Puts in flight the classes of these names, one after another, as long as each is found at once. Answers whether all were.
    fn depart_by_name(&mut self, names: &[PatchNo]) -> bool
        ensures { AreDeparting names.now self.old result self.new }
    {
        for name in names {
            let Some(place) = self.place_of_name(*name) else {
                return false;
            };
            self.depart_at(place);
        }
        true
    }

    /// Puts in flight each class that has one of these numbers as its name, in one pass over the records.
    fn depart_over_all(&mut self, numbers: &[PatchNo])
        ensures exact { IsNonDecreasing numbers.now → self.new ≡ with_departed self.old numbers.now }
        ensures named { HasDeparted numbers.now self.old self.new }
    {
        let mut next = 0;
        for class in self.classes.iter_mut() {
            next = class.depart_among(numbers, next);
        }
        self.flying = self.flying.spread_over(self.classes.len(), true);
        forget(&mut self.image);
    }

    fn depart_at(&mut self, at: usize)
        requires { at < length self.old.classes }
        ensures { self.new ≡ departed_at self.old at }
    {
        let gap = gap_of_departing(&self.image, self.classes.as_slice(), at);
        let class = &mut self.classes[at];
        let (start, stop) = (class.start(), class.saved_end());
        class.depart();
        self.flying = self.flying.with(at, at + 1);
        keep_span(&mut self.image, self.bytes.as_slice(), start, stop, gap);
    }

    /// Lets the record of this patch's class go.
    pub fn land(&mut self, no: PatchNo)
        ensures { self.new ≡ with_one_landed self.old no }
    {
        if let Some(at) = self.place_of(no) {
            self.land_at(at);
        }
    }

    /// Lets the records of the classes in flight go, the quickest way. F is one in flight, M one in memory:
    ///
    ///     M F F F M      they stand one upon another, and go at once
    ///     M F M F M      they are close together: those from the first to the last are looked at
    ///     F M ... M F    they are far apart: each record is looked at once
    pub fn land_each(&mut self)
        ensures { self.new ≡ with_landed self.old }
    {
        let flying = self.flying.below(self.len());
        if self.are_flying(flying) {
            self.land_range(flying);
        } else if flying.to <= flying.from.saturating_add(FEW) {
            self.land_within(flying);
        } else {
            self.land_over_all();
        }
    }

    /// Whether each class at one of these places is in flight.
    fn are_flying(&self, places: Places) -> bool
        requires { IsRange places (length self.now.classes) }
        ensures { IsTrue result → AllFlyAt places self.now.classes }
    {
        for at in places.from..places.to {
            if !self.is_flying_at(at) {
                return false;
            }
        }
        true
    }

    /// Lets those in flight go, which stand at these places and no others, all at once.
    fn land_range(&mut self, flying: Places)
        requires range { IsRange flying (length self.old.classes) }
        requires all { AllFlyAt flying self.old.classes }
        requires within { FlyingWithin flying self.old.classes }
        ensures { self.new ≡ with_landed self.old }
    {
        drop(self.classes.drain(flying.from..flying.to));
        trim_gap(&mut self.image, flying.from, flying.to);
        self.taken = self.taken.spread(self.classes.len());
        self.flying = Places::none();
    }

    /// Lets those in flight go, which stand within these places, the highest first.
    fn land_within(&mut self, flying: Places)
        requires range { IsRange flying (length self.old.classes) }
        requires within { FlyingWithin flying self.old.classes }
        ensures { self.new ≡ with_landed self.old }
    {
        for passed in 0..flying.to - flying.from {
            let highest = flying.to - 1 - passed;
            if self.is_flying_at(highest) {
                self.land_at(highest);
            }
        }
        self.flying = Places::none();
    }

    /// Lets those in flight go, in one pass over the records.
    fn land_over_all(&mut self)
        ensures { self.new ≡ with_landed self.old }
    {
        trim_gap(&mut self.image, 0, self.classes.len());
        self.classes.retain(|class| !class.is_flying());
        self.taken = self.taken.spread(self.classes.len());
        self.flying = Places::none();
    }

    fn land_at(&mut self, at: usize)
        requires { at < length self.old.classes }
        ensures { self.new ≡ landed_at self.old at }
    {
        let gone = take_out(&mut self.classes, at);
        forget_unless(&mut self.image, !gone.is_takeable());
        drop(gone);
        trim_gap(&mut self.image, at, at + 1);
        self.taken = self.taken.spread(self.classes.len());
        self.flying = self.flying.spread(self.classes.len());
    }
}

/// What is known of these classes, once another one is laid over them. Where memory lacks, less is known.
fn know_laid<A: Allocator + Clone>(
    alloc: &A,
    classes: &[Class<A>],
    class: &Class<A>,
    members: &mut Members,
    image: &mut Option<Image<A>>,
)
    ensures members { members.new ≡ with_member members.old class.now.name (length classes.now == 0) }
    ensures image { StaysIf (not class.now.hard) image.old image.new }
{
    let is_only = classes.is_empty();
    *members = members.with(class.name(), is_only);
    make_room(image, alloc, classes.len() >= FEW);
    forget_unless(image, !class.is_hard()); // It has no byte of a hard patch, which stays.
}

/// Lays a new class on the block's bytes, over its classes, among which there is room for it.
fn lay_class<A: Allocator>(
    block: &mut Vec<u8, A>,
    classes: &mut Vec<Class<A>, A>,
    class: Class<A>,
    bytes: &[u8],
)
    requires fits { class.start + length bytes.now ≤ length block.old.items }
    requires saved { class.saved ≡ (if class.hard then [] else bytes.now) }
    requires room { vec_len classes.old < vec_capacity classes.old }
    ensures block { block.new.items ≡ laid_over class.start bytes.now block.old.items }
    ensures classes { classes.new.items ≡ classes.old.items ++ covering class block.old.items bytes.now ∷ [] }
{
    let mut laid = class;
    laid.lay_on(block.as_mut_slice(), bytes);
    classes.push_reserved(laid);
}

/// Makes room for one more record; where there is none, for some.
fn make_record_room<A: Allocator>(classes: &mut Vec<Class<A>, A>) -> Result<(), OutOfMemory>
    ensures same { classes.new.items ≡ classes.old.items }
    ensures room { OnOk result (vec_len classes.new < vec_capacity classes.new) }
{
    if classes.len() < classes.capacity() {
        return Ok(());
    }
    classes.reserve(FIRST_ROOM)?;
    Ok(())
}

/// What is to be exchanged with the bytes that a patch covers: its own. Of a hard patch nothing is saved.
fn to_be_saved<A: Allocator>(alloc: A, bytes: &[u8], hard: bool) -> Result<Vec<u8, A>, OutOfMemory>
    ensures { IfOk result (λ saved. saved.items ≡ (if hard then [] else bytes.now)) }
{
    if hard {
        return Ok(Vec::new(alloc));
    }
    Ok(Vec::from_slice(alloc, bytes)?)
}

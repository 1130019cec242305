//! The members of a class and what these name, of which a plain patch's take no memory of their own.
ghost use Rattle.std.specs.Prelude.{◌≡◌, ◌+◌, ◌-◌, ◌≤◌, ◌++◌, ◌∷◌, [], length, vec_capacity, max, IfOk};

use patch_model::{OutOfMemory, PatchNo};
use patch_numbers::NumberList;
use std::alloc::{Allocator, Global};
use std::marker::Model;

/// The members of a class, and the numbers that these name. Those of a patch that names no more than three stand in the value itself,
/// all others in memory of their own, so that a record is small.
#[derive(Drop)]
pub struct Lists<A: Allocator = Global> {
    shape: Shape<A>,
}

/// How many of each there are: the member, or the members, and what is named.
#[derive(Drop)]
enum Shape<A: Allocator> {
    Nothing,
    Alone([PatchNo; 1]),
    One([PatchNo; 1], [PatchNo; 1]),
    Two([PatchNo; 1], [PatchNo; 2]),
    Three([PatchNo; 1], [PatchNo; 3]),
    Many(Box<Both<A>, A>),
}

#[derive(Drop)]
struct Both<A: Allocator> {
    members: Vec<PatchNo, A>,
    after: Vec<PatchNo, A>,
}

impl<A: Allocator> Model for Lists<A> {
    ghost use Rattle.patch_records.specs.Lists.{Lists as Seen};

    ghost Value = { Seen };

    ghost use Rattle.patch_records.specs.Shapes.{lists_view};

    ghost view = { λ l. lists_view l.shape };
}

impl<A: Allocator> Lists<A> {
    /// No numbers.
    pub fn none() -> Lists<A>
        ensures { result ≡ record { members = []; after = []; spare = 0 } }
    {
        Lists {
            shape: Shape::Nothing,
        }
    }

    /// Those of a patch that names these. No more than three names take no memory.
    pub fn of_patch(alloc: &A, no: PatchNo, names: NumberList<A>) -> Result<Lists<A>, OutOfMemory>
    where
        A: Clone,
        ensures members { IfOk result (λ l. l.members ≡ no ∷ []) }
        ensures after { IfOk result (λ l. l.after ≡ names.items) }
    {
        let shape = match names.as_slice() {
            [] => Shape::Alone([no]),
            [name] => Shape::One([no], [*name]),
            [first, second] => Shape::Two([no], [*first, *second]),
            [first, second, third] => Shape::Three([no], [*first, *second, *third]),
            _ => return Lists::of_class(alloc, one(alloc, no)?, names.into_vec()?),
        };
        Ok(Lists { shape })
    }

    /// Those of a class of these members, which name these.
    pub fn of_class(
        alloc: &A,
        members: Vec<PatchNo, A>,
        after: Vec<PatchNo, A>,
    ) -> Result<Lists<A>, OutOfMemory>
    where
        A: Clone,
        ensures members { IfOk result (λ l. l.members ≡ members.items) }
        ensures after { IfOk result (λ l. l.after ≡ after.items) }
    {
        let both = boxed(alloc, Both { members, after })?;
        Ok(Lists {
            shape: Shape::Many(both),
        })
    }

    pub fn members(&self) -> &[PatchNo]
        ensures { result.now ≡ self.now.members }
    {
        match &self.shape {
            Shape::Nothing => &[],
            Shape::Alone(member)
            | Shape::One(member, _)
            | Shape::Two(member, _)
            | Shape::Three(member, _) => member,
            Shape::Many(both) => both.members.as_slice(),
        }
    }

    /// The numbers that the members name.
    pub fn after(&self) -> &[PatchNo]
        ensures { result.now ≡ self.now.after }
    {
        match &self.shape {
            Shape::Nothing | Shape::Alone(_) => &[],
            Shape::One(_, names) => names,
            Shape::Two(_, names) => names,
            Shape::Three(_, names) => names,
            Shape::Many(both) => both.after.as_slice(),
        }
    }

    /// How many more members, and how many more names, come in without memory.
    pub fn spare(&self) -> usize
        ensures { result ≡ self.now.spare }
    {
        match &self.shape {
            Shape::Many(both) => room_in(&both.members).min(room_in(&both.after)),
            _ => 0,
        }
    }

    /// Puts members and names behind the others, where there is room for them.
    pub fn put_behind(&mut self, members: &[PatchNo], after: &[PatchNo])
        requires members { length members.now ≤ self.old.spare }
        requires after { length after.now ≤ self.old.spare }
        ensures members { self.new.members ≡ self.old.members ++ members.now }
        ensures after { self.new.after ≡ self.old.after ++ after.now }
        ensures spare { self.old.spare ≤ self.new.spare + max (length members.now) (length after.now) }
    {
        if let Shape::Many(both) = &mut self.shape {
            put_behind(&mut both.members, members);
            put_behind(&mut both.after, after);
        }
    }
}

/// Both in memory of their own.
fn boxed<A: Allocator + Clone>(alloc: &A, both: Both<A>) -> Result<Box<Both<A>, A>, OutOfMemory>
    ensures { IfOk result (λ boxed. boxed.value ≡ both) }
{
    match alloc.clone() {
        Ok(alloc) => Ok(Box::new(alloc, both)?),
        Err(refusal) => {
            drop(both);
            Err(refusal.into())
        }
    }
}

/// One number in memory.
fn one<A: Allocator + Clone>(alloc: &A, no: PatchNo) -> Result<Vec<PatchNo, A>, OutOfMemory>
    ensures { IfOk result (λ numbers. numbers.items ≡ no ∷ []) }
{
    let mut numbers = Vec::new(alloc.clone()?);
    numbers.push(no)?;
    Ok(numbers)
}

/// How many more numbers come in without memory.
fn room_in<A: Allocator>(numbers: &Vec<PatchNo, A>) -> usize
    ensures { result ≡ vec_capacity numbers.now - length numbers.now.items }
{
    numbers.capacity().saturating_sub(numbers.len())
}

/// Puts numbers behind others, where there is room for them.
fn put_behind<A: Allocator>(numbers: &mut Vec<PatchNo, A>, more: &[PatchNo])
    requires { length more.now ≤ vec_capacity numbers.old - length numbers.old.items }
    ensures items { numbers.new.items ≡ numbers.old.items ++ more.now }
    ensures room { vec_capacity numbers.old - length numbers.old.items ≤ (vec_capacity numbers.new - length numbers.new.items) + length more.now }
{
    // Never refused, since the room is there.
    match more {
        [no] => {
            let _ = numbers.push(*no);
        }
        _ => {
            let _ = numbers.extend_from_slice(more);
        }
    }
}

//! Numbers in a row, where one may be put in or taken out.
ghost use Rattle.std.specs.Prelude.{◌≡◌, ◌<◌, ◌≤◌, [], length, IfOk};
ghost use Rattle.std.specs.List.{insert, remove};

use std::alloc::{AllocError, Allocator, Global};
use std::marker::Model;

/// How many numbers an order has room for.
pub const MOST: usize = 1024;

/// Numbers in a row, no more than [`MOST`] of them, for which there is room from the beginning. What order they are in is for their user to
/// keep.
#[derive(Drop)]
pub struct Order<A: Allocator = Global> {
    numbers: Vec<u16, A>,
    count: usize,
}

impl<A: Allocator> Model for Order<A> {
    ghost use Rattle.std.specs.Prelude.{ℕ, ◌≡◌, ◌≤◌, List, length, take};
    ghost use Rattle.patch_order.specs.declared.orders.TheConstants.{MOST};

    ghost Value = { List ℕ };

    ghost view = { λ o. take o.count o.numbers.items };

    ghost invariant = { λ o. (length o.numbers.items ≡ MOST) × (o.count ≤ MOST) };
}

impl<A: Allocator> Order<A> {
    /// No number yet.
    pub fn new(alloc: A) -> Result<Order<A>, AllocError>
        ensures { IfOk result (λ order. order ≡ []) }
    {
        Ok(Order {
            numbers: vec![in alloc; 0; MOST]?,
            count: 0,
        })
    }

    /// How many they are.
    pub fn len(&self) -> usize
        ensures { result ≡ length self.now }
    {
        self.count
    }

    /// The numbers.
    pub fn as_slice(&self) -> &[u16]
        ensures { result.now ≡ self.now }
    {
        &self.numbers.as_slice()[..self.count]
    }

    /// Puts a number in at a place; those that stand there or behind it move up by one.
    pub fn insert(&mut self, at: usize, number: u16)
        requires within { at ≤ length self.old }
        requires room { length self.old < MOST }
        ensures { self.new ≡ insert self.old at number }
    {
        let last = self.count;
        self.numbers[last] = number;
        let numbers = self.numbers.as_mut_slice();
        numbers[at..last + 1].rotate_right(1);
        self.count = last + 1;
    }

    /// Takes out the number at a place; those behind it move down by one.
    pub fn remove(&mut self, at: usize)
        requires { at < length self.old }
        ensures { self.new ≡ remove self.old at }
    {
        let count = self.count;
        let numbers = self.numbers.as_mut_slice();
        numbers[at..count].rotate_left(1);
        self.count = count - 1;
    }
}

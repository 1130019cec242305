//! Which extents are empty.
ghost use Rattle.std.specs.Prelude.{ℕ, Bool, ◌≡◌, ◌<◌, ◌≤◌, ◌&&◌, ◌||◌, ◌==◌, not, nat_lt, length, slice_index_or, IfOk};
ghost use Rattle.std.specs.List.Sorted.{IsPartitionPoint};
ghost use Rattle.patch_plans.specs.Empties.{passing, AreSome};
ghost use Rattle.patch_plans.specs.Extents.{is_empty_in};

use patch_model::OutOfMemory;
use patch_order::Order;
use patch_plans::Extent;
use std::alloc::{Allocator, Global};
use std::marker::Model;

/// Some extents in rising order.
#[derive(Drop)]
pub(crate) struct EmptyExtents<A: Allocator = Global> {
    numbers: Order<A>,
}

impl<A: Allocator> Model for EmptyExtents<A> {
    ghost use Rattle.std.specs.Prelude.{ℕ, List};

    ghost Value = { List ℕ };

    ghost view = { λ s. s.numbers };
}

impl<A: Allocator> EmptyExtents<A> {
    /// Those of these extents whose pointer is 0.
    pub(crate) fn of(alloc: A, each: &[Extent]) -> Result<EmptyExtents<A>, OutOfMemory>
        requires { length each.now ≤ 254 }
        ensures { IfOk result (λ empty. empty ≡ passing (is_empty_in each.now) (length each.now)) }
    {
        let mut numbers = Order::new(alloc)?;
        for extent in 0..each.len() {
            if each[extent].pointer.offset == 0 {
                let last = numbers.len();
                numbers.insert(last, extent as u16);
            }
        }
        Ok(EmptyExtents { numbers })
    }

    /// The extents.
    pub(crate) fn as_slice(&self) -> &[u16]
        ensures { result.now ≡ self.now }
    {
        self.numbers.as_slice()
    }

    /// Takes an extent out.
    pub(crate) fn take(&mut self, extent: u32)
        ensures { (test : ℕ → Bool) (count : ℕ) → self.old ≡ passing test count
            → self.new ≡ passing (λ e. test e && not (e == extent)) count }
    {
        let at = self.place_of(extent);
        if self.stands_at(extent, at) {
            self.numbers.remove(at);
        }
    }

    /// Puts an extent in.
    pub(crate) fn put(&mut self, extent: u32)
        requires { AreSome extent self.old }
        ensures { (test : ℕ → Bool) (count : ℕ) → extent < count → self.old ≡ passing test count
            → self.new ≡ passing (λ e. test e || (e == extent)) count }
    {
        let at = self.place_of(extent);
        if !self.stands_at(extent, at) {
            self.numbers.insert(at, extent as u16);
        }
    }

    /// The place of an extent, or where it would stand.
    fn place_of(&self, extent: u32) -> usize
        ensures bound { result ≤ length self.now }
        ensures place { (test : ℕ → Bool) (count : ℕ) → self.now ≡ passing test count
            → IsPartitionPoint (λ e. e < extent) (λ e. extent ≤ e) self.now result }
    {
        self.numbers.as_slice().partition_point(
            |other: &u16| -> bool
                ensures { result ≡ nat_lt other.now extent }
            { u32::from(*other) < extent },
        )
    }

    /// Whether the extent stands at a place.
    fn stands_at(&self, extent: u32, at: usize) -> bool
        ensures { result ≡ (nat_lt at (length self.now) && (slice_index_or self.now at 0 == extent)) }
    {
        match self.numbers.as_slice().get(at) {
            Some(other) => u32::from(*other) == extent,
            None => false,
        }
    }
}

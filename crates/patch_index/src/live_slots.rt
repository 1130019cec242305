//! The slots whose frames a reclaim moves.
ghost use Rattle.std.specs.Prelude.{◌≡◌, ◌<◌, ◌≤◌, length, Some};
ghost use Rattle.std.specs.List.{slice_get};

use crate::indexes::MAX_SLOTS;
use std::marker::Model;

/// Slots in a row, in no memory of their own: a reclaim takes none before it is known that nothing stands against it.
#[derive(Drop)]
pub struct LiveSlots {
    numbers: [u16; MAX_SLOTS],
    count: usize,
}

impl Model for LiveSlots {
    ghost use Rattle.std.specs.Prelude.{ℕ, ◌≤◌, List, take};

    ghost Value = { List ℕ };

    ghost view = { λ s. take s.count s.numbers };

    ghost invariant = { λ s. s.count ≤ 1024 };
}

impl LiveSlots {
    /// These slots.
    pub(crate) fn of(slots: &[u16]) -> LiveSlots
        requires { length slots.now ≤ 1024 }
        ensures { result ≡ slots.now }
    {
        let mut numbers = [0; MAX_SLOTS];
        numbers[..slots.len()].copy_from_slice(slots);
        LiveSlots {
            numbers,
            count: slots.len(),
        }
    }

    /// How many they are.
    pub fn len(&self) -> usize
        ensures { result ≡ length self.now }
    {
        self.count
    }

    /// There are no more than an index has. Only proofs need this call: a look at the fields is what tells it of the type.
    pub fn are_few(&self)
        ensures { length self.now ≤ 1024 }
    {
        let _ = &self.count;
    }

    /// The slot at a place, of which there are so many.
    pub fn nth(&self, at: usize) -> u32
        requires { at < length self.now }
        ensures { slice_get self.now at ≡ Some result }
    {
        let slots = &self.numbers[..self.count];
        u32::from(slots[at])
    }
}

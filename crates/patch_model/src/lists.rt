//! Lists whose items contracts see in order, and nothing else of them.
ghost use Rattle.std.specs.Prelude.{◌≡◌, IfOk};

use crate::numbers::PatchNo;
use crate::refusals::OutOfMemory;
use std::alloc::{Allocator, Global};
use std::marker::Model;

/// Some items, in order. To contracts it is the list of them.
#[derive(Debug, Drop)]
pub struct Items<T, A: Allocator = Global> {
    items: Vec<T, A>,
}

/// Some bytes.
pub type Bytes<A = Global> = Items<u8, A>;

/// The numbers of some patches.
pub type Numbers<A = Global> = Items<PatchNo, A>;

impl<T, A: Allocator> Model for Items<T, A> {
    ghost use Rattle.std.specs.Prelude.{List};

    ghost Value = { List T };

    ghost view = { λ l. l.items.items };
}

impl<T, A: Allocator> Items<T, A> {
    /// The list of a vector's items. It takes no memory.
    pub fn from_vec(items: Vec<T, A>) -> Items<T, A>
        ensures { result ≡ items.items }
    {
        Items { items }
    }

    /// The vector that holds the items. It takes no memory.
    pub fn into_vec(self) -> Vec<T, A>
        ensures { result.items ≡ self }
    {
        let Items { items } = self;
        items
    }

    /// The items, lent in order.
    pub fn as_slice(&self) -> &[T]
        ensures { result.now ≡ self.now }
    {
        &self.items
    }
}

impl<T: Copy, A: Allocator> Items<T, A> {
    /// A list with a copy of these items.
    pub fn from_slice(alloc: A, items: &[T]) -> Result<Items<T, A>, OutOfMemory>
        ensures { IfOk result (λ list. list ≡ items.now) }
    {
        let items = Vec::from_slice(alloc, items)?;
        Ok(Items { items })
    }
}

//! The lists of all blocks, and of which of these a write can begin.
ghost use Rattle.std.specs.Prelude.{◌≡◌, ◌<◌, ◌≤◌, ◌==◌, if◌then◌else◌, ℕ, [], true, false, length, OnOk};
ghost use Rattle.patch_model.specs.declared.limits.TheConstants.{MAX_CACHED};
ghost use Rattle.patch_numbers.specs.BlockSets.{holds, HasRoom};
ghost use Rattle.patch_links.specs.Lists.{IsLeastOpen, LetsGo, is_open, lists_of, of_at};

use crate::lists::Lists;
use patch_model::{BlockNo, MAX_CACHED};
use patch_numbers::BlockSet;
use std::alloc::{AllocError, Allocator, Global};
use std::marker::Model;

/// The lists of all blocks.
#[derive(Drop)]
pub struct Blocks<A: Allocator = Global> {
    pub lists: Lists<A>,
    /// Each block below [`MAX_CACHED`] of which a write can begin.
    pub open: BlockSet<A>,
}

impl<A: Allocator> Model for Blocks<A> {
    ghost use Rattle.patch_links.specs.Lists.{ByBlock, AreNoted, lists_of};

    ghost Value = { ByBlock };

    ghost view = { λ b. record { items = lists_of b.lists.items } };

    ghost invariant = { λ b. AreNoted b.open b.lists.items };
}

impl<A: Allocator + Copy> Blocks<A> {
    /// Of no block yet.
    pub fn new(alloc: A) -> Blocks<A>
        ensures { result.items ≡ [] }
    {
        Blocks {
            lists: Lists::new(alloc),
            open: BlockSet::new(alloc),
        }
    }
}

impl<A: Allocator> Blocks<A> {
    /// The least block from one on, of those below [`MAX_CACHED`], of which a write can begin.
    pub fn next_open(&self, from: usize) -> Option<usize>
        ensures { IsLeastOpen self.now.items from result }
    {
        self.open.least_from(from)
    }

    /// Lets the lists of a block go that has no class.
    pub fn forget(&mut self, block: BlockNo)
        requires { (of_at self.old.items block).count ≡ 0 → is_open (of_at self.old.items block) ≡ false }
        ensures { LetsGo self.old.items self.new.items }
    {
        if has_no_class(&self.lists, block) {
            let _lists = self.lists.take(block.0);
        }
    }
}

/// Whether the block has lists and no class.
fn has_no_class<A: Allocator>(lists: &Lists<A>, block: BlockNo) -> bool
    ensures { result ≡ true → (of_at (lists_of lists.now.items) block).count ≡ 0 }
{
    match lists.get(block.0) {
        Some(list) => list.count() == 0,
        None => false,
    }
}

/// Makes room for the note of a block.
pub fn make_room<A: Allocator>(open: &mut BlockSet<A>, block: BlockNo) -> Result<(), AllocError>
    ensures room { OnOk result (block < MAX_CACHED → HasRoom open.new block) }
    ensures kept { (n : ℕ) → holds open.new n ≡ holds open.old n }
    ensures longer { length open.old ≤ length open.new }
{
    let number = block.0 as usize;
    if number >= MAX_CACHED {
        return Ok(());
    }
    open.reserve(number)
}

/// Notes whether a write of the block can begin.
pub fn note<A: Allocator>(open: &mut BlockSet<A>, block: BlockNo, is_open: bool)
    requires { block < MAX_CACHED → HasRoom open.old block }
    ensures noted { (n : ℕ) → n < MAX_CACHED → holds open.new n ≡ (if n == block then is_open else holds open.old n) }
    ensures room { length open.new ≡ length open.old }
{
    let number = block.0 as usize;
    if number >= MAX_CACHED {
        return;
    }
    if is_open {
        open.insert(number);
    } else {
        open.remove(number);
    }
}

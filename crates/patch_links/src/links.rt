//! The live classes of all blocks.
ghost use Rattle.std.specs.Prelude.{◌≡◌, ◌↔◌, ◌<◌, ℕ, [], None, IfOk, OnOk, OnErr, false, true, is_some};
ghost use Rattle.std.specs.Option.{option_copied};
ghost use Rattle.patch_links.specs.State.{find, class_at};
ghost use Rattle.patch_links.specs.Ready.{AreReady, TellsReady, TellsEmpty, IsNextOpen};
ghost use Rattle.patch_links.specs.Adding.{IsNew, IsAdded};
ghost use Rattle.patch_links.specs.MarkFlight.{HasFlown};
ghost use Rattle.patch_links.specs.MarkDurable.{HasLanded};
ghost use Rattle.patch_links.specs.Merging.{HasJoined, may_join_at};
ghost use Rattle.patch_links.specs.Following.{AreFollowers};

use crate::adding::{add, is_new};
use crate::asking::{count, numbers, ready_keys};
use crate::blocks::Blocks;
use crate::flying::fly;
use crate::joining::join;
use crate::keys::Keys;
use crate::landing::land;
use crate::nodes::{Class, Nodes, find};
use patch_model::{BlockNo, PatchNo};
use std::alloc::{AllocError, Allocator, Global};
use std::marker::Model;

/// The live classes of all blocks: which of them may be sent with their block is always known.
#[derive(Drop)]
pub struct Links<A: Allocator = Global> {
    /// No number of a patch has reached this one.
    made: u64,
    nodes: Nodes<A>,
    keys: Keys<A>,
    blocks: Blocks<A>,
    alloc: A,
}

impl<A: Allocator> Model for Links<A> {
    ghost use Rattle.patch_links.specs.State.{Links as Seen, slots_of};
    ghost use Rattle.patch_links.specs.Invariants.{AreBelow, Stands};

    ghost Value = { Seen };

    ghost view = { λ l. record { made = l.made; slots = slots_of l.nodes.slots; next = l.nodes.vacant_key; numbers = l.keys.numbers } };

    ghost invariant = { λ l. Stands l.nodes.slots l.keys.numbers l.blocks.items × AreBelow l.made l.nodes.slots };
}

impl<A: Allocator + Copy> Links<A> {
    /// No class yet.
    pub fn new(alloc: A) -> Links<A>
        ensures { result ≡ record { made = 0; slots = []; next = 0; numbers = [] } }
    {
        Links {
            made: 0,
            nodes: Nodes::new(alloc),
            keys: Keys::new(alloc),
            blocks: Blocks::new(alloc),
            alloc,
        }
    }

    /// Puts in the class of a new patch. Its key.
    pub fn add(&mut self, class: Class<A>) -> Result<usize, AllocError>
        requires { IsNew self.old.made class }
        ensures added { IfOk result (λ key. IsAdded self.old self.new key class) }
        ensures refused { OnErr result (self.new ≡ self.old) }
    {
        let made = u64::from(class.name.0) + 1;
        let key = add(
            self.alloc,
            &mut self.nodes,
            &mut self.keys,
            &mut self.blocks,
            class,
        )?;
        self.made = made;
        Ok(key)
    }

    /// Makes the classes at these keys one, at the first of them, if they are two in memory and of one block. The numbers of
    /// both lead there. Where it is known which class has more numbers, that one is best kept: the other one's are moved. Of
    /// which key comes next afterwards nothing is said.
    pub fn join(&mut self, keep: usize, gone: usize) -> Result<(), AllocError>
        ensures joined { OnOk result (HasJoined keep gone self.old self.new) }
        ensures made { self.new.made ≡ self.old.made }
        ensures idle { may_join_at keep gone self.old.slots ≡ false → self.new ≡ self.old }
        ensures refused { OnErr result (self.new ≡ record self.old { next = self.new.next }) }
    {
        join(
            self.alloc,
            &mut self.nodes,
            &mut self.keys,
            &mut self.blocks,
            keep,
            gone,
        )
    }
}

impl<A: Allocator> Links<A> {
    /// Whether the class is one that can be put in: that of one patch in memory, whose number is new, and which depends on
    /// earlier ones.
    pub fn may_add(&self, class: &Class<A>) -> bool
        ensures { result ≡ true ↔ IsNew self.now.made class.now }
    {
        self.made <= u64::from(class.name.0) && is_new(class)
    }

    /// The key of a live patch's class.
    pub fn find(&self, no: PatchNo) -> Option<usize>
        ensures { result ≡ find self.now.numbers no }
    {
        find(&self.keys, no)
    }

    /// A number below which no patch is live: as a landing leaves it, the least live one, or where there is none one above the newest.
    pub fn lowest(&self) -> u32
        ensures { (n : ℕ) → n < result → find self.now.numbers n ≡ None }
    {
        self.keys.lowest()
    }

    /// The key that the next class gets.
    pub fn next_key(&self) -> usize
        ensures { result ≡ self.now.next }
    {
        self.nodes.vacant_key()
    }

    /// The class at a key.
    pub fn class_at(&self, key: usize) -> Option<&Class<A>>
        ensures { option_copied result ≡ class_at self.now.slots key }
    {
        match self.nodes.get(key) {
            Some(node) => Some(&node.class),
            None => None,
        }
    }

    /// Whether there is a class at a key.
    pub fn contains(&self, key: usize) -> bool
        ensures { result ≡ is_some (class_at self.now.slots key) }
    {
        self.nodes.get(key).is_some()
    }

    /// A number of each other class that depends on the class at a key, for each time that it does. Some of them may lead to the
    /// class itself.
    pub fn followers(&self, key: usize) -> &[PatchNo]
        ensures { AreFollowers self.now.slots self.now.numbers key result.now }
    {
        match self.nodes.get(key) {
            Some(node) => node.followers.as_slice(),
            None => &[],
        }
    }

    /// Whether the block has no class.
    pub fn is_empty_of(&self, block: BlockNo) -> bool
        ensures { TellsEmpty self.now.slots block result }
    {
        count(&self.blocks, block) == 0
    }

    /// Whether any class may be sent with the block.
    pub fn any_ready(&self, block: BlockNo) -> bool
        ensures { TellsReady self.now.slots self.now.numbers block result }
    {
        !ready_keys(&self.blocks, block).is_empty()
    }

    /// The least block from one on, of those below `MAX_CACHED`, of which a write can begin: some class may be sent with it, and
    /// none of its classes is in flight.
    pub fn next_open(&self, from: usize) -> Option<BlockNo>
        ensures { IsNextOpen self.now.slots self.now.numbers from result }
    {
        match self.blocks.next_open(from) {
            Some(number) => Some(BlockNo(number as u32)),
            None => None,
        }
    }

    /// The numbers of all that may be sent with the block, rising.
    pub fn ready<B: Allocator>(
        &self,
        alloc: B,
        block: BlockNo,
    ) -> Result<Vec<PatchNo, B>, AllocError>
        ensures { IfOk result (λ all. AreReady self.now.slots self.now.numbers block all.items) }
    {
        numbers(alloc, &self.nodes, ready_keys(&self.blocks, block))
    }

    /// Puts in flight all that may be sent with the block.
    pub fn fly(&mut self, block: BlockNo)
        ensures { HasFlown block self.old self.new }
    {
        fly(&mut self.nodes, &self.keys, &mut self.blocks, block);
    }

    /// Lets what is kept of a block's lists go, where the block has no class: no memory is kept for it. It changes nothing else.
    pub fn forget(&mut self, block: BlockNo)
        ensures { self.new ≡ self.old }
    {
        self.blocks.forget(block);
    }

    /// Forgets all that is in flight of the block.
    pub fn land(&mut self, block: BlockNo)
        ensures landed { HasLanded block self.old self.new }
        ensures made { self.new.made ≡ self.old.made }
    {
        land(&mut self.nodes, &mut self.keys, &mut self.blocks, block);
    }
}

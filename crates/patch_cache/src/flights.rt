//! Writes on their way to the disk: one that was begun, one that the device has done, and those that are held.
ghost use Rattle.std.specs.Prelude.{◌≡◌, ◌==◌, [], length};
ghost use Rattle.std.specs.List.{position};

use patch_model::{BLOCK, BlockBytes, BlockNo, Ending, Numbers, PatchNo};
use std::alloc::{Allocator, Global};

/// A write of a block that was begun: its image has to be written out. A flight can't be let go: it is written out, or
/// abandoned.
pub struct Flight<A: Allocator = Global> {
    pub(crate) block: BlockNo,
    pub(crate) sequence: u32,
    pub(crate) numbers: Numbers<A>,
    pub(crate) image: BlockBytes<A>,
}

/// A write that the device has done, and the cache has yet to complete. It can't be let go either.
pub struct Landed {
    pub(crate) block: BlockNo,
    pub(crate) sequence: u32,
}

/// The flights of a cache that are not completed, whose images may have to be written again. They can't be let go: each is
/// completed, or all of them are abandoned.
pub struct Flights<A: Allocator = Global> {
    pub(crate) held: Vec<Flight<A>, A>,
}

impl<A: Allocator> Ending for Flight<A> {}

impl Ending for Landed {}

impl<A: Allocator> Ending for Flights<A> {}

impl<A: Allocator> Flight<A> {
    /// The block that it writes.
    pub fn block(&self) -> BlockNo
        ensures { result ≡ self.now.block }
    {
        let Flight { block, .. } = self;
        *block
    }

    /// How many writes of the cache began before this one.
    pub fn number(&self) -> u32
        ensures { result ≡ self.now.sequence }
    {
        let Flight { sequence, .. } = self;
        *sequence
    }

    /// The patches that it makes durable, rising.
    pub fn numbers(&self) -> &[PatchNo]
        ensures { result.now ≡ self.now.numbers }
    {
        self.numbers.as_slice()
    }

    /// The bytes that go to the disk.
    pub fn image(&self) -> &[u8]
        ensures bytes { result.now ≡ self.now.image }
        ensures length { length result.now ≡ BLOCK }
    {
        self.image.as_slice()
    }

    /// What is left of a flight whose image its caller has written and made to last, which is the caller's claim.
    /// [`write_out`](crate::write_out) writes it to a device first.
    pub fn landed(self) -> Landed
        ensures block { result.block ≡ self.block }
        ensures sequence { result.sequence ≡ self.sequence }
    {
        let Flight {
            block,
            sequence,
            numbers: _,
            image: _,
        } = self;
        Landed { block, sequence }
    }

    /// Gives the write up. Its block stays in flight for the cache's life.
    pub fn abandon(self) {
        self.landed().abandon();
    }
}

impl Landed {
    /// The block that was written.
    pub fn block(&self) -> BlockNo
        ensures { result ≡ self.now.block }
    {
        let Landed { block, .. } = self;
        *block
    }

    /// How many writes of the cache began before this one.
    pub fn number(&self) -> u32
        ensures { result ≡ self.now.sequence }
    {
        let Landed { sequence, .. } = self;
        *sequence
    }

    /// Gives the completion up. Its block stays in flight for the cache's life.
    pub fn abandon(self) {
        let Landed {
            block: _,
            sequence: _,
        } = self;
    }
}

impl<A: Allocator> Flights<A> {
    ghost use Rattle.patch_cache.specs.Running.{held_by};

    /// No flight. It takes no memory.
    pub fn new(alloc: A) -> Flights<A>
        ensures { held_by result ≡ [] }
    {
        Flights {
            held: Vec::new(alloc),
        }
    }

    /// The place of the block's flight.
    pub(crate) fn place_of(&self, block: BlockNo) -> Option<usize>
        ensures { result ≡ position (λ flight. flight.block == block) (held_by self.now) }
    {
        self.held.iter().position(|flight| flight.block == block)
    }

    /// Gives up all flights that are held. Their blocks stay in flight for the cache's life.
    pub fn abandon(self) {
        let Flights { mut held } = self;
        while let Some(flight) = held.pop() {
            flight.abandon();
        }
        held.destroy_empty();
    }
}

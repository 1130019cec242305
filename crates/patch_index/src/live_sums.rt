//! How many bytes the frames have that slots name, extent by extent.
ghost use Rattle.std.specs.Prelude.{◌≡◌, ◌+◌, ◌<◌, ◌≤◌, ◌^◌, length, slice_get, slice_index_or, All, IfOk};
ghost use Rattle.patch_index.specs.Index.{fields_of};
ghost use Rattle.patch_index.specs.Sums.{with_frame, without_frame};

use crate::entries::Entry;
use std::alloc::{AllocError, Allocator, Global};
use std::marker::Model;

// As many extents as a disk may have.
const EXTENTS: usize = 254;

/// The sums of the extents that a disk may have. They aren't in the index itself, which is moved by value.
#[derive(Drop)]
pub(crate) struct LiveSums<A: Allocator = Global> {
    sums: Vec<u32, A>,
}

impl<A: Allocator> Model for LiveSums<A> {
    ghost use Rattle.std.specs.Prelude.{ℕ, List};

    ghost Value = { List ℕ };

    ghost view = { λ l. l.sums.items };
}

impl<A: Allocator> LiveSums<A> {
    /// Those of no frame.
    pub(crate) fn new(alloc: A) -> Result<LiveSums<A>, AllocError>
        ensures { IfOk result (λ sums. All (λ live. live ≡ 0) sums) }
    {
        Ok(LiveSums {
            sums: vec![in alloc; 0; EXTENTS]?,
        })
    }

    /// The sum of an extent, if it is kept.
    pub(crate) fn of(&self, extent: u32) -> Option<u32>
        ensures { result ≡ slice_get self.now extent }
    {
        match self.sums.get(extent as usize) {
            Some(live) => Some(*live),
            None => None,
        }
    }

    /// A slot names this frame from now on.
    pub(crate) fn add(&mut self, entry: &Entry)
        requires { slice_index_or self.old entry.now.extent 0 + entry.now.length < 2 ^ 32 }
        ensures { self.new ≡ with_frame self.old (fields_of entry.now) }
    {
        let extent = entry.extent as usize;
        if extent < self.sums.len() {
            self.sums[extent] += entry.length;
        }
    }

    /// No slot names this frame any more.
    pub(crate) fn take_off(&mut self, entry: &Entry)
        requires { entry.now.extent < length self.old → entry.now.length ≤ slice_index_or self.old entry.now.extent 0 }
        ensures { self.new ≡ without_frame self.old (fields_of entry.now) }
    {
        let extent = entry.extent as usize;
        if extent < self.sums.len() {
            self.sums[extent] -= entry.length;
        }
    }
}

//! Live classes.
ghost use Rattle.std.specs.Prelude.{◌≡◌};
ghost use Rattle.patch_graph.specs.Showing.{shown};
ghost use Rattle.patch_graph.specs.Adding.{new_class};
ghost use Rattle.patch_links.specs.Ready.{is_candidate};

use patch_links::{Class, Reach};
use patch_model::{BlockNo, Mark, PatchNo};
use patch_numbers::NumberList;
use patch_skyline::Span;
use std::alloc::Allocator;

/// A live class, as it is shown: its members and what they depend on stay inside.
#[derive(Clone, Copy, Debug, PartialEq, Eq)]
pub struct LiveClass {
    /// The least of its members.
    pub name: PatchNo,
    pub block: BlockNo,
    pub mark: Mark,
    pub hard: bool,
    /// Its span, from the first byte to the one after the last.
    pub start: usize,
    pub stop: usize,
}

/// The class of a new patch of this span, in memory and alone.
pub fn alone<A: Allocator>(
    alloc: A,
    block: BlockNo,
    span: Span,
    after: NumberList<A>,
    reach: Reach,
    hard: bool,
) -> Class<A>
    ensures { result ≡ new_class span.no block span.start span.stop after.items reach hard }
{
    Class {
        name: span.no,
        members: NumberList::of(alloc, span.no),
        block,
        mark: Mark::Memory,
        hard,
        start: span.start,
        stop: span.stop,
        after,
        reach,
    }
}

/// What is shown of a class.
pub fn shown<A: Allocator>(class: &Class<A>) -> LiveClass
    ensures { result ≡ shown class.now }
{
    LiveClass {
        name: class.name,
        block: class.block,
        mark: class.mark,
        hard: class.hard,
        start: class.start,
        stop: class.stop,
    }
}

/// Whether a class is in memory and of the block: a send takes it if all that it depends on lets it.
pub fn is_candidate<A: Allocator>(class: &Class<A>, block: BlockNo) -> bool
    ensures { result ≡ is_candidate block class.now }
{
    matches!(class.mark, Mark::Memory) && class.block == block
}

//! The skyline of each block.
ghost use Rattle.std.specs.Prelude.{◌≡◌, ◌<◌, [], None, IfOk, OnErr};
ghost use Rattle.patch_rows.specs.Rows.{row_at};
ghost use Rattle.patch_links.specs.Adding.{IsNew, IsAdded};
ghost use Rattle.patch_graph.specs.Skyline.{spans_of, lines_of, trimmed, IsLaidOn, IsEmptied};
ghost use Rattle.patch_skyline.specs.Skyline.{AreTops, IsLaid};

use patch_links::{Class, Links};
use patch_model::BlockNo;
use patch_rows::Rows;
use patch_skyline::{Skyline, Span};
use std::alloc::{AllocError, Allocator, Global};
use std::marker::Model;

/// The skyline of one block. How much room it has is its own affair.
#[derive(Drop)]
pub struct Line<A: Allocator = Global> {
    skyline: Skyline<A>,
}

impl<A: Allocator> Model for Line<A> {
    ghost use Rattle.std.specs.Prelude.{List};
    ghost use Rattle.patch_skyline.specs.declared.skylines.Span.{Span as Seen};

    ghost Value = { List Seen };

    ghost view = { λ l. l.skyline.spans };
}

/// The skyline of each block, by its number. A block that was never written has none, which says the same as an empty one: what they
/// take in memory goes with how many blocks were.
pub type Skylines<A> = Rows<Line<A>, A>;

impl<A: Allocator> Line<A> {
    /// No span.
    fn new(alloc: A) -> Line<A>
        ensures { result ≡ [] }
    {
        Line {
            skyline: Skyline::new(alloc),
        }
    }

    /// The spans that have a byte between these.
    fn tops(&self, start: usize, stop: usize) -> &[Span]
        requires { start < stop }
        ensures { AreTops self.now start stop result.now }
    {
        self.skyline.tops(start, stop)
    }

    /// Leaves none, and the room for them.
    fn clear(&mut self)
        ensures { self.new ≡ [] }
    {
        self.skyline.clear();
    }
}

impl<A: Allocator + Copy> Line<A> {
    /// Puts in a class and lays a span over the others, or does neither.
    fn lay(&mut self, links: &mut Links<A>, class: Class<A>, top: Span) -> Result<usize, AllocError>
        requires some { top.start < top.stop }
        requires new { IsNew links.old.made class }
        ensures laid { IfOk result (λ key. IsLaid self.old self.new top) }
        ensures added { IfOk result (λ key. IsAdded links.old links.new key class) }
        ensures refused { OnErr result (self.new ≡ self.old) }
        ensures refused_class { OnErr result (links.new ≡ links.old) }
    {
        self.skyline.reserve()?;
        let key = links.add(class)?;
        self.skyline.lay_reserved(top);
        Ok(key)
    }
}

/// The spans of the block that have a byte between these.
pub fn tops<A: Allocator>(
    skylines: &Skylines<A>,
    block: BlockNo,
    start: usize,
    stop: usize,
) -> &[Span]
    requires { start < stop }
    ensures { AreTops (spans_of (lines_of skylines.now.items) block) start stop result.now }
{
    match skylines.get(block.0) {
        Some(line) => line.tops(start, stop),
        None => &[],
    }
}

/// Puts in a class and lays its span, which has a byte, on a skyline that its block gets, or does neither.
fn lay_first<A: Allocator + Copy>(
    alloc: A,
    skylines: &mut Skylines<A>,
    links: &mut Links<A>,
    class: Class<A>,
    top: Span,
) -> Result<usize, AllocError>
    requires none { row_at skylines.old class.block ≡ None }
    requires some { top.start < top.stop }
    requires new { IsNew links.old.made class }
    ensures laid { IfOk result (λ key. IsLaidOn (trimmed (lines_of skylines.old.items)) (trimmed (lines_of skylines.new.items)) class.block top) }
    ensures added { IfOk result (λ key. IsAdded links.old links.new key class) }
    ensures refused { OnErr result (trimmed (lines_of skylines.new.items) ≡ trimmed (lines_of skylines.old.items)) }
    ensures refused_class { OnErr result (links.new ≡ links.old) }
{
    let block = class.block;
    let mut line = Line::new(alloc);
    skylines.lengthen(block.0 as usize + 1);
    skylines.reserve()?;
    let key = line.lay(links, class, top)?;
    skylines.put(block.0, line);
    Ok(key)
}

/// Puts in a class and lays its span over its block's skyline, which has a byte, or does neither.
pub fn lay<A: Allocator + Copy>(
    alloc: A,
    skylines: &mut Skylines<A>,
    links: &mut Links<A>,
    class: Class<A>,
    top: Span,
) -> Result<usize, AllocError>
    requires some { top.start < top.stop }
    requires new { IsNew links.old.made class }
    ensures laid { IfOk result (λ key. IsLaidOn (trimmed (lines_of skylines.old.items)) (trimmed (lines_of skylines.new.items)) class.block top) }
    ensures added { IfOk result (λ key. IsAdded links.old links.new key class) }
    ensures refused { OnErr result (trimmed (lines_of skylines.new.items) ≡ trimmed (lines_of skylines.old.items)) }
    ensures refused_class { OnErr result (links.new ≡ links.old) }
{
    let block = class.block;
    match skylines.get_mut(block.0) {
        Some(line) => line.lay(links, class, top),
        None => lay_first(alloc, skylines, links, class, top),
    }
}

/// Leaves the block's skyline empty, and its room.
pub fn empty<A: Allocator>(skylines: &mut Skylines<A>, block: BlockNo)
    ensures { IsEmptied (trimmed (lines_of skylines.old.items)) (trimmed (lines_of skylines.new.items)) block }
{
    if let Some(line) = skylines.get_mut(block.0) {
        line.clear();
    }
}

/// Lets the block's skyline go, and its room.
pub fn forget<A: Allocator>(skylines: &mut Skylines<A>, block: BlockNo)
    ensures { IsEmptied (trimmed (lines_of skylines.old.items)) (trimmed (lines_of skylines.new.items)) block }
{
    let _line = skylines.take(block.0);
}

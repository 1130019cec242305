//! A block's bytes without the classes that may be taken, kept beside the block.
//!
//! A write of a block sends them. Where many classes wait, it would cost a look at each to find them.
ghost use Rattle.std.specs.Prelude.{◌≡◌, ◌<◌, ◌≤◌, length, true, false, slice_range, IfOk, IfSome, IsTrue, IsFalse};
ghost use Rattle.patch_model.specs.declared.blocks.TheConstants.{BLOCK};
ghost use Rattle.patch_records.specs.Exchanges.{laid_over};
ghost use Rattle.patch_images.specs.Gaps.{no_gap, without_places};
ghost use Rattle.patch_images.specs.Images.{bared, IsForgotten, StaysIf, IsDrawnOf, KeepsSpan, IsCopied, IsTrimmed, KnownGap, DepartsAlone};

use crate::gaps::{Gap, gap_left};
use patch_model::{BLOCK, OutOfMemory};
use patch_records::Class;
use std::alloc::{Allocator, Global};
use std::marker::Model;

/// Room for the bytes of a block, and whether those that stand there are known to be the block's without its classes that
/// may be taken. Then none of the gap's classes saved a byte in the gap that may be taken.
#[derive(Drop)]
pub struct Image<A: Allocator = Global> {
    bytes: Vec<u8, A>,
    is_known: bool,
    gap: Gap,
}

impl<A: Allocator> Model for Image<A> {
    ghost use Rattle.std.specs.Prelude.{◌≡◌, length};
    ghost use Rattle.patch_images.specs.Images.{Image as Seen};

    ghost Value = { Seen };

    ghost view = { λ m. record { bytes = m.bytes.items; known = m.is_known; gap = m.gap } };

    ghost invariant = { λ m. length m.bytes.items ≡ 4096 };
}

impl<A: Allocator> Image<A> {
    fn none(alloc: &A) -> Result<Image<A>, OutOfMemory>
    where
        A: Clone,
        ensures { IfOk result (λ image. image.known ≡ false) }
    {
        let bytes = vec![in alloc.clone()?; 0u8; BLOCK]?;
        Ok(Image {
            bytes,
            is_known: false,
            gap: Gap::none(),
        })
    }

    fn is_known(&self) -> bool
        ensures { result ≡ self.now.known }
    {
        self.is_known
    }

    fn forget(&mut self)
        ensures { self.new ≡ record self.old { known = false } }
    {
        self.is_known = false;
    }

    fn draw(&mut self, block: &[u8], classes: &[Class<A>])
        requires { length block.now ≡ BLOCK }
        ensures { self.new ≡ record { bytes = bared classes.now block.now; known = true; gap = no_gap } }
    {
        let copy = self.bytes.as_mut_slice();
        copy.copy_from_slice(block);
        uncover_all(classes, copy);
        self.is_known = true;
        self.gap = Gap::none();
    }

    fn keep_span(&mut self, block: &[u8], start: usize, stop: usize, gap: Gap)
        requires range { start ≤ stop }
        requires within { stop ≤ BLOCK }
        requires length { length block.now ≡ BLOCK }
        ensures { self.new ≡ record self.old { bytes = laid_over start (slice_range block.now start stop) self.old.bytes; gap = gap } }
    {
        self.bytes[start..stop].copy_from_slice(&block[start..stop]);
        self.gap = gap;
    }

    fn trim_gap(&mut self, from: usize, to: usize)
        ensures { self.new ≡ record self.old { gap = without_places self.old.gap from to } }
    {
        self.gap = self.gap.without(from, to);
    }

    fn copy_to(&self, copy: &mut [u8])
        requires { length copy.old ≡ BLOCK }
        ensures { copy.new ≡ self.now.bytes }
    {
        copy.copy_from_slice(&self.bytes);
    }
}

/// Lays on a copy of the block's bytes what each class saved that may be taken, the highest first.
pub fn uncover_all<A: Allocator>(classes: &[Class<A>], copy: &mut [u8])
    requires { length copy.old ≡ BLOCK }
    ensures exact { copy.new ≡ bared classes.now copy.old }
    ensures length { length copy.new ≡ BLOCK }
{
    for passed in 0..classes.len() {
        let class = &classes[classes.len() - 1 - passed];
        class.uncover(copy);
    }
}

/// Makes room for the bytes where there is none yet, if there are many classes. Without memory for it there is none.
pub fn make_room<A: Allocator + Clone>(image: &mut Option<Image<A>>, alloc: &A, are_many: bool)
    ensures { StaysIf true image.old image.new }
{
    if are_many && image.is_none() {
        *image = Image::none(alloc).ok();
    }
}

/// Forgets what is known.
pub fn forget<A: Allocator>(image: &mut Option<Image<A>>)
    ensures { IsForgotten image.new }
{
    if let Some(image) = image {
        image.forget();
    }
}

/// Forgets what is known, unless it stays what it is.
pub fn forget_unless<A: Allocator>(image: &mut Option<Image<A>>, stays: bool)
    ensures { StaysIf stays image.old image.new }
{
    if !stays {
        forget(image);
    }
}

/// Draws the image where there is room for it and it isn't known.
pub fn draw_unless_known<A: Allocator>(
    image: &mut Option<Image<A>>,
    block: &[u8],
    classes: &[Class<A>],
)
    requires { length block.now ≡ BLOCK }
    ensures { IsDrawnOf classes.now block.now image.old image.new }
{
    if let Some(image) = image {
        if !image.is_known() {
            image.draw(block, classes);
        }
    }
}

/// What becomes of the image where a class departs: it has the block's own bytes where the class saved some, and the gap that is
/// left. If the class doesn't stand alone there, nothing is known.
pub fn keep_span<A: Allocator>(
    image: &mut Option<Image<A>>,
    block: &[u8],
    start: usize,
    stop: usize,
    gap: Option<Gap>,
)
    requires range { start ≤ stop }
    requires within { stop ≤ BLOCK }
    requires length { length block.now ≡ BLOCK }
    ensures { KeepsSpan gap block.now start stop image.old image.new }
{
    if let Some(image) = image {
        match gap {
            Some(gap) => image.keep_span(block, start, stop, gap),
            None => image.forget(),
        }
    }
}

/// Leaves the gap beside those of its classes that stay, where the ones from one place up to another go.
pub fn trim_gap<A: Allocator>(image: &mut Option<Image<A>>, from: usize, to: usize)
    ensures { IsTrimmed from to image.old image.new }
{
    if let Some(image) = image {
        image.trim_gap(from, to);
    }
}

/// Copies the image where it is known.
pub fn copy_image<A: Allocator>(image: &Option<Image<A>>, copy: &mut [u8]) -> bool
    requires { length copy.old ≡ BLOCK }
    ensures copied { IsTrue result → IsCopied image.now copy.new }
    ensures same { IsFalse result → copy.new ≡ copy.old }
{
    match image {
        Some(image) => {
            if image.is_known() {
                image.copy_to(copy);
                true
            } else {
                false
            }
        }
        None => false,
    }
}

/// The gap that is left once the class at a place departed, where the image is known, and the class may be taken and stands
/// alone.
pub fn gap_of_departing<A: Allocator>(
    image: &Option<Image<A>>,
    classes: &[Class<A>],
    at: usize,
) -> Option<Gap>
    requires there { at < length classes.now }
    requires gap { KnownGap image.now classes.now }
    ensures { IfSome result (λ gap. DepartsAlone classes.now at gap) }
{
    let Some(image) = image else {
        return None;
    };
    if image.is_known() && classes[at].is_takeable() {
        gap_left(classes, image.gap, at)
    } else {
        None
    }
}

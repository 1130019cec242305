//! What lies between the bytes that a block's classes saved.
//!
//! Where many classes wait, those that depart are mostly beside them, one after another: what was found of the first classes
//! holds of the next ones too. Where they depart all over the block, a gap is seldom worth its measuring: then each is compared
//! with the others alone.
ghost use Rattle.std.specs.Prelude.{◌≡◌, ◌<◌, length, slice_index_or, IfSome, IsTrue};
ghost use Rattle.patch_records.specs.Records.{no_class, saved_end};
ghost use Rattle.patch_images.specs.Gaps.{no_gap, without_places, missed, has_bytes, begun_gap, IsRound, IsNarrowed, IsGap, IsGapRound};
ghost use Rattle.patch_images.specs.Images.{IsAloneBelow, IsApartAt, StandsAlone};

use patch_model::BLOCK;
use patch_records::Class;
use std::alloc::Allocator;

/// After so many classes that departed elsewhere, one after another, a gap is measured anew.
const MOST_MISSES: usize = 7;

/// A part of a block of which no class saved a byte that may be taken, among so many from the lowest on, and how many classes
/// departed elsewhere since it was measured or one departed in it.
#[derive(Clone, Copy)]
pub struct Gap {
    pub count: usize,
    pub start: usize,
    pub stop: usize,
    pub misses: usize,
}

impl Gap {
    /// Of no class.
    pub fn none() -> Gap
        ensures { result ≡ no_gap }
    {
        Gap {
            count: 0,
            start: 0,
            stop: BLOCK,
            misses: 0,
        }
    }

    /// Without the classes from one place up to another, which go: it counts those of its own that are left.
    pub fn without(self, from: usize, to: usize) -> Gap
        ensures { result ≡ without_places self from to }
    {
        let gone = self.count.min(to).saturating_sub(self.count.min(from));
        Gap {
            count: self.count - gone,
            start: self.start,
            stop: self.stop,
            misses: self.misses,
        }
    }

    /// One class more departed elsewhere.
    fn missed(self) -> Gap
        ensures { result ≡ missed self }
    {
        Gap {
            count: self.count,
            start: self.start,
            stop: self.stop,
            misses: self.misses.saturating_add(1),
        }
    }

    /// Whether these bytes lie in it.
    fn has(self, start: usize, stop: usize) -> bool
        ensures { result ≡ has_bytes self start stop }
    {
        self.start <= start && stop <= self.stop
    }

    /// The gap itself, where the bytes lie in it; else the whole block, of no class yet.
    fn begun(self, start: usize, stop: usize) -> Gap
        ensures { result ≡ begun_gap self start stop }
    {
        if self.has(start, stop) {
            self
        } else {
            Gap::none()
        }
    }

    /// With one more class, which didn't save any of these bytes, or may not be taken.
    fn narrowed<A: Allocator>(self, class: &Class<A>, start: usize, stop: usize) -> Option<Gap>
        requires { IsRound self start stop }
        ensures { IfSome result (λ gap. IsNarrowed self class.now start stop gap) }
    {
        let end = class.saved_end();
        if end <= start {
            return Some(Gap {
                count: self.count,
                start: self.start.max(end),
                stop: self.stop,
                misses: 0,
            });
        }
        if stop <= class.start() {
            return Some(Gap {
                count: self.count,
                start: self.start,
                stop: self.stop.min(class.start()),
                misses: 0,
            });
        }
        if class.is_takeable() {
            return None;
        }
        Some(self)
    }
}

/// The gap round the bytes that the class at a place saved, if they are beside those of all others that may be taken. Where they
/// lie in a gap that is known, its classes aren't asked again.
fn gap_round<A: Allocator>(classes: &[Class<A>], known: Gap, at: usize) -> Option<Gap>
    requires there { at < length classes.now }
    requires gap { IsGap known classes.now }
    ensures { IfSome result (λ gap. IsGapRound gap classes.now at) }
{
    let class = &classes[at];
    let (start, stop) = (class.start(), class.saved_end());
    let begun = known.begun(start, stop);
    let mut gap = begun;
    for other in begun.count..classes.len() {
        if other != at {
            gap = gap.narrowed(&classes[other], start, stop)?;
        }
    }
    Some(Gap {
        count: classes.len(),
        start: gap.start,
        stop: gap.stop,
        misses: 0,
    })
}

/// Whether no other class that may be taken saved one of the bytes that the class at a place saved.
fn are_others_elsewhere<A: Allocator>(classes: &[Class<A>], at: usize) -> bool
    requires { at < length classes.now }
    ensures { IsTrue result → IsAloneBelow classes.now at (length classes.now) }
{
    let class = &classes[at];
    let (start, stop) = (class.start(), class.saved_end());
    for other in 0..classes.len() {
        if !is_apart(classes, at, other, start, stop) {
            return false;
        }
    }
    true
}

/// Whether the class at another place isn't one that may be taken and saved a byte from one place up to another, where the first
/// class saved its bytes.
fn is_apart<A: Allocator>(
    classes: &[Class<A>],
    at: usize,
    other: usize,
    start: usize,
    stop: usize,
) -> bool
    requires within { other < length classes.now }
    requires start { start ≡ (slice_index_or classes.now at no_class).start }
    requires stop { stop ≡ saved_end (slice_index_or classes.now at no_class) }
    ensures { IsTrue result → IsApartAt classes.now at other }
{
    let class = &classes[other];
    if !class.saves_any(start, stop) {
        return true;
    }
    if other == at {
        return true;
    }
    !class.is_takeable()
}

/// The gap that is known once the class at a place departed, if that stands alone. One in which it lies is kept, as narrow as the
/// classes make it that came since. Else it is counted as a miss, until a gap round these bytes is measured.
pub fn gap_left<A: Allocator>(classes: &[Class<A>], known: Gap, at: usize) -> Option<Gap>
    requires there { at < length classes.now }
    requires gap { IsGap known classes.now }
    ensures { IfSome result (λ gap. StandsAlone classes.now at gap) }
{
    let class = &classes[at];
    if known.has(class.start(), class.saved_end()) || known.misses >= MOST_MISSES {
        return gap_round(classes, known, at);
    }
    if !are_others_elsewhere(classes, at) {
        return None;
    }
    Some(known.missed())
}

//! Which patch wrote each byte of a block last.
ghost use Rattle.std.specs.Prelude.{ℕ, false, ◌≡◌, ◌<◌, ◌≤◌, ◌+◌, ◌∷◌, [], length, nat_lt, nat_le, vec_len, vec_capacity, IfOk, OnOk, OnErr};
ghost use Rattle.std.specs.List.{AllWithin, HoldsAt, insert, remove_range};
ghost use Rattle.std.specs.List.Sorted.{IsPartitionPoint};
ghost use Rattle.patch_skyline.specs.Skyline.{has_byte, top_at, AreApart, IsCutAt, IsLaid, AreTops};

use patch_model::PatchNo;
use std::alloc::{AllocError, Allocator, Global};
use std::marker::Model;

/// How many spans one that is laid over the others adds at most: itself, and what is left behind it of one that it lies
/// within, with one to spare.
pub const LAY_ROOM: usize = 3;

/// For so many spans a skyline makes room where it has none.
const FIRST_ROOM: usize = 16;

/// So many spans that another one meets are looked at one after the other.
const FEW_MET: usize = 8;

/// Bytes that one patch wrote last, from the first to the one after the last, and the number of that patch.
#[derive(Clone, Copy, Debug, PartialEq, Eq)]
pub struct Span {
    pub start: usize,
    pub stop: usize,
    pub no: PatchNo,
}

/// The skyline of a block: spans in rising order, none of which overlap, with the number of the patch that wrote these
/// bytes last. A patch keeps its number when its class is merged, sent or done, so none of these touches it.
#[derive(Drop)]
pub struct Skyline<A: Allocator = Global> {
    spans: Vec<Span, A>,
}

impl<A: Allocator> Model for Skyline<A> {
    ghost use Rattle.std.specs.Prelude.{◌-◌, vec_len, vec_capacity};
    ghost use Rattle.patch_skyline.specs.Skyline.{Skyline as Seen, AreApart};

    ghost Value = { Seen };

    ghost view = { λ s. record { spans = s.spans.items; room = vec_capacity s.spans - vec_len s.spans } };

    ghost invariant = { λ s. AreApart s.spans.items };
}

impl<A: Allocator> Skyline<A> {
    /// No span. It takes no memory.
    pub fn new(alloc: A) -> Skyline<A>
        ensures { result.spans ≡ [] }
    {
        Skyline {
            spans: Vec::new(alloc),
        }
    }

    /// One span, which has a byte.
    pub fn of(alloc: A, top: Span) -> Result<Skyline<A>, AllocError>
        requires { top.start < top.stop }
        ensures { IfOk result (λ line. line.spans ≡ top ∷ []) }
    {
        let spans = Vec::from_slice(alloc, &[top])?;
        Ok(Skyline { spans })
    }

    /// Lays a span over the others, which has a byte.
    pub fn lay(&mut self, top: Span) -> Result<(), AllocError>
        requires { top.start < top.stop }
        ensures laid { OnOk result (IsLaid self.old.spans self.new.spans top) }
        ensures refused { OnErr result (self.new.spans ≡ self.old.spans) }
    {
        self.reserve()?;
        self.lay_reserved(top);
        Ok(())
    }

    /// Makes room for one more span that is laid over the others.
    pub fn reserve(&mut self) -> Result<(), AllocError>
        ensures spans { self.new.spans ≡ self.old.spans }
        ensures room { OnOk result (LAY_ROOM ≤ self.new.room) }
    {
        if self.spans.capacity().saturating_sub(self.spans.len()) >= LAY_ROOM {
            return Ok(());
        }
        self.spans.reserve(FIRST_ROOM)
    }

    /// Lays a span over the others, which has a byte and for which there is room.
    pub fn lay_reserved(&mut self, top: Span)
        requires some { top.start < top.stop }
        requires room { LAY_ROOM ≤ self.old.room }
        ensures { IsLaid self.old.spans self.new.spans top }
    {
        put(&mut self.spans, top);
    }

    /// The spans that have a byte between these.
    pub fn tops(&self, start: usize, stop: usize) -> &[Span]
        requires { start < stop }
        ensures { AreTops self.now.spans start stop result.now }
    {
        let spans = self.spans.as_slice();
        let first = ended(spans, start);
        let last = begun(spans, stop);
        if first < last {
            &spans[first..last]
        } else {
            &[]
        }
    }

    /// Leaves none, and the room for them.
    pub fn clear(&mut self)
        ensures { self.new.spans ≡ [] }
    {
        self.spans.clear();
    }
}

/// Lays a span over the others. Most are laid where there is none, or where just one was laid before. Of those that it
/// meets the first may be left before it and the last behind it, each in its own place, so the spans behind them are moved
/// once at most; they are moved twice where the same one is left on both sides.
fn put<A: Allocator>(spans: &mut Vec<Span, A>, top: Span)
    requires apart { AreApart spans.old.items }
    requires some { top.start < top.stop }
    requires room { vec_len spans.old + LAY_ROOM ≤ vec_capacity spans.old }
    ensures laid { IsLaid spans.old.items spans.new.items top }
    ensures apart { AreApart spans.new.items }
{
    let first = ended(spans.as_slice(), top.start);
    if first == spans.len() {
        spans.push_reserved(top);
        return;
    }
    let span = spans[first];
    if top.stop <= span.start {
        put_at(spans, first, top);
        return;
    }
    if span.start == top.start && span.stop == top.stop {
        spans[first] = top;
        return;
    }
    if span.start < top.start && top.stop < span.stop {
        split(spans, first, top);
        return;
    }
    let low = trim_stop(spans, first, &top);
    let last = begun_from(spans.as_slice(), low, top.stop);
    let high = trim_start(spans, last, &top);
    cover(spans, low, high, top);
}

/// Puts a span before those from a place on. A rotation moves them all at once, where an insert would one after the other.
fn put_at<A: Allocator>(spans: &mut Vec<Span, A>, place: usize, top: Span)
    requires within { place ≤ vec_len spans.old }
    requires room { vec_len spans.old < vec_capacity spans.old }
    ensures items { spans.new.items ≡ insert spans.old.items place top }
    ensures len { vec_len spans.new ≡ vec_len spans.old + 1 }
    ensures capacity { vec_capacity spans.new ≡ vec_capacity spans.old }
{
    spans.push_reserved(top);
    spans.slice_mut(place..).rotate_right(1);
}

/// How many of the spans begin before the byte. Where all do, it looks at the last one alone.
fn begun(spans: &[Span], at: usize) -> usize
    requires { AreApart spans.now }
    ensures within { result ≤ length spans.now }
    ensures place { IsPartitionPoint (λ s. s.start < at) (λ s. at ≤ s.start) spans.now result }
{
    match spans.last() {
        Some(last) => if last.start < at {
            spans.len()
        } else {
            begun_before(spans, at)
        },
        None => 0,
    }
}

/// How many of the spans begin before the byte, where as many do as are given. Mostly few more do, so it looks at one after the
/// other; where many do, they are found by halves.
fn begun_from(spans: &[Span], from: usize, at: usize) -> usize
    requires apart { AreApart spans.now }
    requires within { from ≤ length spans.now }
    requires from { AllWithin (λ s. s.start < at) spans.now 0 from }
    ensures within { result ≤ length spans.now }
    ensures place { IsPartitionPoint (λ s. s.start < at) (λ s. at ≤ s.start) spans.now result }
{
    let far = from.saturating_add(FEW_MET);
    if far < spans.len() && spans[far].start < at {
        return begun_before(spans, at);
    }
    let mut last = from;
    while last < spans.len() && spans[last].start < at {
        last += 1;
    }
    last
}

fn begun_before(spans: &[Span], at: usize) -> usize
    requires { AreApart spans.now }
    ensures within { result ≤ length spans.now }
    ensures place { IsPartitionPoint (λ s. s.start < at) (λ s. at ≤ s.start) spans.now result }
{
    spans.partition_point(
        |span: &Span| -> bool
            ensures { result ≡ nat_lt span.now.start at }
        { span.start < at },
    )
}

/// How many of the spans end before the byte. Where all do, or all but the last one, it looks at that alone.
fn ended(spans: &[Span], at: usize) -> usize
    requires { AreApart spans.now }
    ensures within { result ≤ length spans.now }
    ensures place { IsPartitionPoint (λ s. s.stop ≤ at) (λ s. at < s.stop) spans.now result }
{
    match spans.last() {
        Some(last) => if last.stop <= at {
            spans.len()
        } else if last.start <= at {
            spans.len() - 1
        } else {
            ended_before(spans, at)
        },
        None => 0,
    }
}

fn ended_before(spans: &[Span], at: usize) -> usize
    requires { AreApart spans.now }
    ensures within { result ≤ length spans.now }
    ensures place { IsPartitionPoint (λ s. s.stop ≤ at) (λ s. at < s.stop) spans.now result }
{
    spans.partition_point(
        |span: &Span| -> bool
            ensures { result ≡ nat_le span.now.stop at }
        { span.stop <= at },
    )
}

/// Lays a span within one that begins before it and ends behind it, which is left on both sides.
fn split<A: Allocator>(spans: &mut Vec<Span, A>, place: usize, top: Span)
    requires apart { AreApart spans.old.items }
    requires some { top.start < top.stop }
    requires place { place < vec_len spans.old }
    requires start { HoldsAt (λ s. s.start < top.start) spans.old.items place }
    requires stop { HoldsAt (λ s. top.stop < s.stop) spans.old.items place }
    requires room { vec_len spans.old + LAY_ROOM ≤ vec_capacity spans.old }
    ensures laid { IsLaid spans.old.items spans.new.items top }
    ensures apart { AreApart spans.new.items }
{
    let span = spans[place];
    spans[place] = Span {
        stop: top.start,
        ..span
    };
    let rest = Span {
        start: top.stop,
        ..span
    };
    put_at(spans, place + 1, rest);
    put_at(spans, place + 1, top);
}

/// Takes the end of the first span that another one meets, if it begins before that. How many of the spans do, then.
fn trim_stop<A: Allocator>(spans: &mut Vec<Span, A>, first: usize, top: &Span) -> usize
    requires apart { AreApart spans.old.items }
    requires some { top.now.start < top.now.stop }
    requires within { first < vec_len spans.old }
    requires first { IsPartitionPoint (λ s. s.stop ≤ top.now.start) (λ s. top.now.start < s.stop) spans.old.items first }
    requires stop { HoldsAt (λ s. s.start < top.now.start → s.stop ≤ top.now.stop) spans.old.items first }
    ensures beside { (x : ℕ) → has_byte top.now x ≡ false → top_at spans.new.items x ≡ top_at spans.old.items x }
    ensures apart { AreApart spans.new.items }
    ensures cut { IsCutAt top.now.start spans.new.items }
    ensures place { IsPartitionPoint (λ s. s.start < top.now.start) (λ s. top.now.start ≤ s.start) spans.new.items result }
    ensures within { result ≤ vec_len spans.new }
    ensures len { vec_len spans.new ≡ vec_len spans.old }
    ensures capacity { vec_capacity spans.new ≡ vec_capacity spans.old }
{
    let span = spans[first];
    if span.start < top.start {
        spans[first] = Span {
            stop: top.start,
            ..span
        };
        first + 1
    } else {
        first
    }
}

/// Takes the beginning of the last span that another one meets, if it ends behind that. How many of the spans begin before
/// the end of that one, then.
fn trim_start<A: Allocator>(spans: &mut Vec<Span, A>, last: usize, top: &Span) -> usize
    requires apart { AreApart spans.old.items }
    requires some { top.now.start < top.now.stop }
    requires within { last ≤ vec_len spans.old }
    requires cut { IsCutAt top.now.start spans.old.items }
    requires last { IsPartitionPoint (λ s. s.start < top.now.stop) (λ s. top.now.stop ≤ s.start) spans.old.items last }
    ensures beside { (x : ℕ) → has_byte top.now x ≡ false → top_at spans.new.items x ≡ top_at spans.old.items x }
    ensures apart { AreApart spans.new.items }
    ensures cut { IsCutAt top.now.stop spans.new.items }
    ensures kept { IsCutAt top.now.start spans.new.items }
    ensures place { IsPartitionPoint (λ s. s.start < top.now.stop) (λ s. top.now.stop ≤ s.start) spans.new.items result }
    ensures low { (low : ℕ) → IsPartitionPoint (λ s. s.start < top.now.start) (λ s. top.now.start ≤ s.start) spans.old.items low → IsPartitionPoint (λ s. s.start < top.now.start) (λ s. top.now.start ≤ s.start) spans.new.items low }
    ensures within { result ≤ vec_len spans.new }
    ensures len { vec_len spans.new ≡ vec_len spans.old }
    ensures capacity { vec_capacity spans.new ≡ vec_capacity spans.old }
{
    // Not reached: the other one meets a span, which begins before its end.
    if last == 0 {
        return 0;
    }
    let span = spans[last - 1];
    if top.stop < span.stop {
        spans[last - 1] = Span {
            start: top.stop,
            ..span
        };
        last - 1
    } else {
        last
    }
}

/// Puts a span in the place of those between its ends, from one place on to another, where no span lies across either end.
fn cover<A: Allocator>(spans: &mut Vec<Span, A>, low: usize, high: usize, top: Span)
    requires apart { AreApart spans.old.items }
    requires cut_start { IsCutAt top.start spans.old.items }
    requires cut_stop { IsCutAt top.stop spans.old.items }
    requires some { top.start < top.stop }
    requires low { IsPartitionPoint (λ s. s.start < top.start) (λ s. top.start ≤ s.start) spans.old.items low }
    requires high { IsPartitionPoint (λ s. s.start < top.stop) (λ s. top.stop ≤ s.start) spans.old.items high }
    requires low_within { low ≤ vec_len spans.old }
    requires high_within { high ≤ vec_len spans.old }
    requires room { vec_len spans.old < vec_capacity spans.old }
    ensures laid { IsLaid spans.old.items spans.new.items top }
    ensures apart { AreApart spans.new.items }
{
    if low == high {
        put_at(spans, low, top);
        return;
    }
    spans[low] = top;
    if low + 1 < high {
        take_out(spans, low + 1, high);
    }
}

/// Takes out the spans from a place on to another. Those behind them are copied to their places.
fn take_out<A: Allocator>(spans: &mut Vec<Span, A>, start: usize, stop: usize)
    requires order { start ≤ stop }
    requires within { stop ≤ vec_len spans.old }
    ensures { spans.new.items ≡ remove_range spans.old.items start stop }
{
    let rest = spans.len() - (stop - start);
    spans.copy_within(stop.., start);
    spans.truncate(rest);
}

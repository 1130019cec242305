//! Runs of frames, one after another without gaps, as an extent holds them.
ghost use Rattle.std.specs.Prelude.{◌≡◌, List, [], IfOk, IfErr, All, map};
ghost use Rattle.patch_frame.specs.declared.geometries.Format.TheVariants.{One};
ghost use Rattle.patch_frame.specs.Frame.{Content, content, length_of};
ghost use Rattle.patch_frame.specs.declared.runs.FramesRefusal.TheVariants as refusal;
ghost use Rattle.patch_frame.specs.Refusal.{run_cause};
ghost use Rattle.patch_frame.specs.Run.{run, AllFit, IsRead, StopsSo, GivesRun};
ghost use Rattle.patch_frame.specs.Geometry.{value_limit};

use crate::faults::FrameFault;
use crate::framing::{Frame, decode_within};
use crate::geometries::Format;
use patch_model::{Refusal, RefusalKind, Refuses};
use std::alloc::{AllocFailed, Allocator};
use thiserror::Error;

/// Why a run of frames isn't read. Want of memory may come before a fault that later bytes would have met.
#[derive(Clone, Copy, Debug, PartialEq, Eq, Error)]
pub enum FramesRefusal {
    /// What the first frame that isn't one is refused with.
    #[error(transparent)]
    Fault(FrameFault),
    /// There was no memory for the list of frames.
    #[error("OutOfMemory")]
    OutOfMemory,
}

impl Refuses for FramesRefusal {
    ghost cause = { run_cause };

    fn refusal(self) -> Refusal {
        match self {
            FramesRefusal::Fault(fault) => fault.refusal(),
            FramesRefusal::OutOfMemory => RefusalKind::OutOfMemory.bare(),
        }
    }
}

impl<T: Drop> From<AllocFailed<T>> for FramesRefusal {
    ghost from_gives = { λ _ e. e ≡ refusal.OutOfMemory };

    fn from(_: AllocFailed<T>) -> FramesRefusal {
        FramesRefusal::OutOfMemory
    }
}

/// The frames that fill the bytes, with values of at most 32,768 bytes: the limit of version 1.
pub fn frames<A: Allocator>(alloc: A, bytes: &[u8]) -> Result<Vec<Frame<'_>, A>, FramesRefusal>
    ensures found { IfOk result (λ frames. AllFit (value_limit One) (map content frames.items)
        × (bytes.now ≡ run (map content frames.items))) }
    ensures lengths { IfOk result (λ frames. All (λ frame. frame.length ≡ length_of (content frame)) frames.items) }
    ensures only { (cs : List Content) → AllFit (value_limit One) cs → bytes.now ≡ run cs
        → GivesRun (λ frames. map content frames.items) result cs }
    ensures refused { IfErr result (StopsSo (value_limit One) bytes.now) }
{
    frames_within(alloc, bytes, Format::One.value_limit())
}

/// The frames that fill the bytes, one after another, with values of at most `limit` bytes. No bytes are no frames.
pub fn frames_within<A: Allocator>(
    alloc: A,
    bytes: &[u8],
    limit: u32,
) -> Result<Vec<Frame<'_>, A>, FramesRefusal>
    // What is read fills the bytes.
    ensures found { IfOk result (λ frames. AllFit limit (map content frames.items)
        × (bytes.now ≡ run (map content frames.items))) }
    ensures lengths { IfOk result (λ frames. All (λ frame. frame.length ≡ length_of (content frame)) frames.items) }
    // Frames that fill the bytes are read, unless memory runs out.
    ensures only { (cs : List Content) → AllFit limit cs → bytes.now ≡ run cs
        → GivesRun (λ frames. map content frames.items) result cs }
    // The first place where no frame stands refuses.
    ensures refused { IfErr result (StopsSo limit bytes.now) }
{
    run_of(alloc, bytes, limit)
}

fn run_of<A: Allocator>(
    alloc: A,
    bytes: &[u8],
    limit: u32,
) -> Result<Vec<Frame<'_>, A>, FramesRefusal>
    ensures found { IfOk result (λ frames. IsRead limit bytes.now frames.items []) }
    ensures refused { IfErr result (StopsSo limit bytes.now) }
{
    let mut frames = Vec::new(alloc);
    let mut rest = bytes;
    while !rest.is_empty() {
        let frame = match decode_within(rest, limit) {
            Ok(frame) => frame,
            Err(fault) => return Err(FramesRefusal::Fault(fault)),
        };
        frames.push(frame)?;
        rest = rest.split_at(frame.length).1;
    }
    Ok(frames)
}

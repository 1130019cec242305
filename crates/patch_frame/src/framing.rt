//! Frames: what an extent is filled with, a key and its value between two marks. They play the part of ShardStore's chunks.
ghost use Rattle.std.specs.Prelude.{◌≡◌, ◌≤◌, ◌++◌, ℕ, List, IfOk, Ok, drop, length};
ghost use Rattle.patch_frame.specs.Field.{Gives};
ghost use Rattle.patch_frame.specs.declared.geometries.Format.TheVariants.{One};
ghost use Rattle.patch_frame.specs.Frame.{Content, content, spelling, Fits, length_of, frame_at};
ghost use Rattle.patch_frame.specs.Geometry.{value_limit};

use crate::bytes::{is_zeros, push_zeros, u32_at};
use crate::faults::FrameFault;
use crate::geometries::Format;
use patch_model::OutOfMemory;
use std::alloc::Allocator;

/// The most bytes of a key, which has one at least.
pub const MAX_KEY: usize = 32;

/// The most bytes of a value, on whatever disk. How many may be put on a given one is said by its format.
pub const MAX_VALUE: u32 = 131_072;

/// How many bytes of a frame stand before its key: a mark, the length of the key, zeros, and the length of the value.
pub const KEY_START: u32 = 12;

/// How many bytes a frame has beside its key and its value.
pub const OVERHEAD: u32 = 16;

/// How many bytes the shortest frames have, those of a key of one byte and of no value.
pub const MIN_FRAME: u32 = 17;

const BEGIN: [u8; 4] = *b"FCH1";

const END: [u8; 4] = *b"1HCF";

/// A frame, lent from the bytes in which it stands at the front.
#[derive(Clone, Copy, Debug, PartialEq, Eq)]
pub struct Frame<'a> {
    pub key: &'a [u8],
    pub value: &'a [u8],
    /// How many bytes the frame has.
    pub length: usize,
}

/// The frame of a key and its value, in a vector of just that room. It writes each byte once.
pub fn encode<A: Allocator>(alloc: A, key: &[u8], value: &[u8]) -> Result<Vec<u8, A>, OutOfMemory>
    requires { Fits MAX_VALUE (record { key = key.now; value = value.now }) }
    ensures { IfOk result (λ bytes. bytes.items ≡ spelling (record { key = key.now; value = value.now })) }
{
    let mut out = Vec::with_capacity(alloc, OVERHEAD as usize + key.len() + value.len())?;
    out.extend_from_slice(&BEGIN)?;
    out.push(key.len() as u8)?;
    push_zeros(&mut out, 3)?;
    out.extend_from_slice(&(value.len() as u32).to_be_bytes())?;
    out.extend_from_slice(key)?;
    out.extend_from_slice(value)?;
    out.extend_from_slice(&END)?;
    Ok(out)
}

/// The frame at the front of the bytes, with a value of at most 32,768 bytes: the limit of version 1.
pub fn decode(bytes: &[u8]) -> Result<Frame<'_>, FrameFault>
    // What is read stands at the front.
    ensures found { IfOk result (λ frame. Fits (value_limit One) (content frame)
        × (frame.length ≡ length_of (content frame))
        × (bytes.now ≡ spelling (content frame) ++ drop frame.length bytes.now)) }
    ensures within { IfOk result (λ frame. frame.length ≤ length bytes.now) }
    // A frame at the front is read, whatever follows it.
    ensures only { (c : Content) (rest : List ℕ) → Fits (value_limit One) c → bytes.now ≡ spelling c ++ rest
        → Gives content result (Ok c) }
    // Which refusal it is.
    ensures exact { Gives content result (frame_at (value_limit One) bytes.now) }
{
    decode_within(bytes, Format::One.value_limit())
}

/// The frame at the front of the bytes, with a value of at most `limit` bytes.
pub fn decode_within(bytes: &[u8], limit: u32) -> Result<Frame<'_>, FrameFault>
    // What is read stands at the front.
    ensures found { IfOk result (λ frame. Fits limit (content frame)
        × (frame.length ≡ length_of (content frame))
        × (bytes.now ≡ spelling (content frame) ++ drop frame.length bytes.now)) }
    ensures within { IfOk result (λ frame. frame.length ≤ length bytes.now) }
    // A frame at the front is read, whatever follows it.
    ensures only { (c : Content) (rest : List ℕ) → Fits limit c → bytes.now ≡ spelling c ++ rest
        → Gives content result (Ok c) }
    // Which refusal it is.
    ensures exact { Gives content result (frame_at limit bytes.now) }
{
    frame_of(bytes, limit)
}

// The tests in their order.
fn frame_of(bytes: &[u8], limit: u32) -> Result<Frame<'_>, FrameFault>
    ensures length { IfOk result (λ frame. frame.length ≡ length_of (content frame)) }
    ensures within { IfOk result (λ frame. frame.length ≤ length bytes.now) }
    ensures exact { Gives content result (frame_at limit bytes.now) }
{
    let start = KEY_START as usize;
    if bytes.len() < start {
        return Err(FrameFault::Short);
    }
    if &bytes[..4] != BEGIN.as_slice() {
        return Err(FrameFault::BadMagic);
    }
    let key = bytes[4] as usize;
    if key == 0 || key > MAX_KEY {
        return Err(FrameFault::BadKey);
    }
    if !is_zeros(&bytes[5..8]) {
        return Err(FrameFault::NotZero);
    }
    let value = u32_at(bytes, 8);
    if value > limit {
        return Err(FrameFault::BadValue);
    }
    let end = start + key + value as usize;
    if bytes.len() < end + 4 {
        return Err(FrameFault::Short);
    }
    if &bytes[end..end + 4] != END.as_slice() {
        return Err(FrameFault::BadMagic);
    }
    Ok(Frame {
        key: &bytes[start..start + key],
        value: &bytes[start + key..end],
        length: end + 4,
    })
}

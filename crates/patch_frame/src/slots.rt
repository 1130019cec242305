//! Index slots: which frame holds the value of a key. The slots are this project's own; ShardStore has a tree here.
ghost use Rattle.std.specs.Prelude.{◌≡◌, IfOk, length, Option, Ok};
ghost use Rattle.patch_frame.specs.declared.geometries.Format.TheVariants.{One};
ghost use Rattle.patch_frame.specs.Field.{zeros, Gives};
ghost use Rattle.patch_frame.specs.Geometry.{longest_frame};
ghost use Rattle.patch_frame.specs.Slot.{SlotFields, fields, used_fields, Fits, FitsUsed, spelling, used_spelling, slot_at};

use crate::bytes::{is_zeros, push_zeros, u16_at, u32_at};
use crate::faults::FrameFault;
use crate::framing::{MAX_KEY, MIN_FRAME};
use crate::geometries::Format;
use patch_model::OutOfMemory;
use std::alloc::Allocator;

/// How many bytes an index slot has.
pub const SLOT_BYTES: usize = 64;

/// The longest frame that any slot names, on whatever disk.
pub const MAX_FRAME: u32 = 131_120;

/// How many bytes of a slot stand before its key.
pub const SLOT_KEY_START: usize = 16;

/// What a used slot says: the frame with the key's value is there.
#[derive(Clone, Copy, Debug, PartialEq, Eq)]
pub struct Slot<'a> {
    pub key: &'a [u8],
    pub extent: u16,
    /// The extent's generation when the frame was appended.
    pub generation: u32,
    /// Where in the extent the frame begins, in bytes.
    pub offset: u32,
    /// How many bytes the frame has.
    pub length: u32,
}

/// Whether a slot is in use, with what it says then.
#[derive(Clone, Copy, Debug, PartialEq, Eq)]
pub enum SlotState<'a> {
    Empty,
    Used(Slot<'a>),
}

/// The slot that the bytes spell, with a frame of at most 32,816 bytes: the limit of version 1.
pub fn read_slot(bytes: &[u8]) -> Result<SlotState<'_>, FrameFault>
    requires { length bytes.now ≡ SLOT_BYTES }
    ensures found { IfOk result (λ slot. Fits (longest_frame One) (fields slot)
        × (bytes.now ≡ spelling (fields slot))) }
    ensures only { (s : Option SlotFields) → Fits (longest_frame One) s → bytes.now ≡ spelling s
        → Gives fields result (Ok s) }
    ensures exact { Gives fields result (slot_at (longest_frame One) bytes.now) }
{
    read_slot_within(bytes, Format::One.longest_frame())
}

/// The slot that the bytes spell, with a frame of at most `longest` bytes.
pub fn read_slot_within(bytes: &[u8], longest: u32) -> Result<SlotState<'_>, FrameFault>
    requires { length bytes.now ≡ SLOT_BYTES }
    // What is read is spelled so.
    ensures found { IfOk result (λ slot. Fits longest (fields slot) × (bytes.now ≡ spelling (fields slot))) }
    // What is spelled so is read.
    ensures only { (s : Option SlotFields) → Fits longest s → bytes.now ≡ spelling s
        → Gives fields result (Ok s) }
    // Which refusal it is.
    ensures exact { Gives fields result (slot_at longest bytes.now) }
{
    slot_of(bytes, longest)
}

// The tests in their order.
fn slot_of(bytes: &[u8], longest: u32) -> Result<SlotState<'_>, FrameFault>
    requires { length bytes.now ≡ SLOT_BYTES }
    ensures { Gives fields result (slot_at longest bytes.now) }
{
    if bytes[0] == 0 {
        if !is_zeros(bytes) {
            return Err(FrameFault::NotZero);
        }
        return Ok(SlotState::Empty);
    }
    if bytes[0] > 1 {
        return Err(FrameFault::BadMagic);
    }
    let key = bytes[1] as usize;
    if key == 0 || key > MAX_KEY {
        return Err(FrameFault::BadKey);
    }
    if !is_zeros(&bytes[SLOT_KEY_START + key..SLOT_BYTES]) {
        return Err(FrameFault::NotZero);
    }
    let length = u32_at(bytes, 12);
    if length < MIN_FRAME || length > longest {
        return Err(FrameFault::BadValue);
    }
    Ok(SlotState::Used(Slot {
        key: &bytes[SLOT_KEY_START..SLOT_KEY_START + key],
        extent: u16_at(bytes, 2),
        generation: u32_at(bytes, 4),
        offset: u32_at(bytes, 8),
        length,
    }))
}

/// The bytes of a slot, in a vector of just that room. It writes each byte once.
pub fn write_slot<A: Allocator>(alloc: A, slot: &SlotState<'_>) -> Result<Vec<u8, A>, OutOfMemory>
    requires { Fits MAX_FRAME (fields slot.now) }
    ensures bytes { IfOk result (λ bytes. bytes.items ≡ spelling (fields slot.now)) }
    ensures length { IfOk result (λ bytes. length bytes.items ≡ SLOT_BYTES) }
{
    match slot {
        SlotState::Empty => empty_bytes(alloc),
        SlotState::Used(slot) => used_bytes(alloc, slot),
    }
}

fn empty_bytes<A: Allocator>(alloc: A) -> Result<Vec<u8, A>, OutOfMemory>
    ensures { IfOk result (λ bytes. bytes.items ≡ zeros SLOT_BYTES) }
{
    let mut out = Vec::with_capacity(alloc, SLOT_BYTES)?;
    push_zeros(&mut out, SLOT_BYTES)?;
    Ok(out)
}

fn used_bytes<A: Allocator>(alloc: A, slot: &Slot<'_>) -> Result<Vec<u8, A>, OutOfMemory>
    requires { FitsUsed MAX_FRAME (used_fields slot.now) }
    ensures { IfOk result (λ bytes. bytes.items ≡ used_spelling (used_fields slot.now)) }
{
    let mut out = Vec::with_capacity(alloc, SLOT_BYTES)?;
    out.extend_from_slice(&[1, slot.key.len() as u8])?;
    out.extend_from_slice(&slot.extent.to_be_bytes())?;
    out.extend_from_slice(&slot.generation.to_be_bytes())?;
    out.extend_from_slice(&slot.offset.to_be_bytes())?;
    out.extend_from_slice(&slot.length.to_be_bytes())?;
    out.extend_from_slice(slot.key)?;
    push_zeros(&mut out, SLOT_BYTES - SLOT_KEY_START - slot.key.len())?;
    Ok(out)
}

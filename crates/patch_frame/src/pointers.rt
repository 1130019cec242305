//! Pointer records: how far each extent is filled. Write pointers and generations follow ShardStore's extents, which are
//! appended to and reset; the layout is this project's own.
ghost use Rattle.std.specs.Prelude.{◌≡◌, IfOk, length, Ok};
ghost use Rattle.patch_frame.specs.declared.geometries.Format.TheVariants.{One};
ghost use Rattle.patch_frame.specs.declared.pointers.Pointer.{Pointer as PointerFields};
ghost use Rattle.patch_frame.specs.Geometry.{largest_pointer};
ghost use Rattle.patch_frame.specs.Pointer.{Fits, spelling, pointer_at};

use crate::bytes::u32_at;
use crate::faults::FrameFault;
use crate::geometries::Format;

/// How many bytes a pointer record has.
pub const POINTER_BYTES: usize = 8;

/// The greatest write pointer, on whatever disk.
pub const MAX_POINTER: u32 = 262_144;

/// The record of one extent in the pointer block.
#[derive(Clone, Copy, Debug, PartialEq, Eq)]
pub struct Pointer {
    /// How often the extent was reset.
    pub generation: u32,
    /// The write pointer: where in the extent the next frame begins.
    pub offset: u32,
}

/// The record that the bytes spell, with a write pointer of at most 65,536: the limit of version 1.
pub fn read_pointer(bytes: &[u8]) -> Result<Pointer, FrameFault>
    requires { length bytes.now ≡ POINTER_BYTES }
    ensures found { IfOk result (λ p. Fits (largest_pointer One) p × (bytes.now ≡ spelling p)) }
    ensures only { (p : PointerFields) → Fits (largest_pointer One) p → bytes.now ≡ spelling p
        → result ≡ Ok p }
    ensures exact { result ≡ pointer_at (largest_pointer One) bytes.now }
{
    read_pointer_within(bytes, Format::One.largest_pointer())
}

/// The record that the bytes spell, with a write pointer of at most `largest`.
pub fn read_pointer_within(bytes: &[u8], largest: u32) -> Result<Pointer, FrameFault>
    requires { length bytes.now ≡ POINTER_BYTES }
    // What is read is spelled so.
    ensures found { IfOk result (λ p. Fits largest p × (bytes.now ≡ spelling p)) }
    // What is spelled so is read.
    ensures only { (p : PointerFields) → Fits largest p → bytes.now ≡ spelling p → result ≡ Ok p }
    // Which refusal it is.
    ensures exact { result ≡ pointer_at largest bytes.now }
{
    pointer_of(bytes, largest)
}

fn pointer_of(bytes: &[u8], largest: u32) -> Result<Pointer, FrameFault>
    requires { length bytes.now ≡ POINTER_BYTES }
    ensures { result ≡ pointer_at largest bytes.now }
{
    let offset = u32_at(bytes, 4);
    if offset > largest {
        return Err(FrameFault::BadValue);
    }
    Ok(Pointer {
        generation: u32_at(bytes, 0),
        offset,
    })
}

/// The bytes of a record. It takes no memory.
pub fn write_pointer(pointer: Pointer) -> [u8; POINTER_BYTES]
    requires { Fits MAX_POINTER pointer }
    ensures { result ≡ spelling pointer }
{
    let [a, b, c, d] = pointer.generation.to_be_bytes();
    let [e, f, g, h] = pointer.offset.to_be_bytes();
    [a, b, c, d, e, f, g, h]
}

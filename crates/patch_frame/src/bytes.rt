//! Numbers and padding among bytes.
ghost use Rattle.std.specs.Prelude.{◌≡◌, ◌+◌, ◌≤◌, ◌++◌, length, slice_range, OnOk};
ghost use Rattle.std.specs.Int.{w16, w32, from_be_bytes};
ghost use Rattle.patch_frame.specs.Field.{are_zeros, zeros};

use patch_model::OutOfMemory;
use std::alloc::Allocator;

/// The number of the two bytes from `place` on, the high one first.
pub fn u16_at(bytes: &[u8], place: usize) -> u16
    requires { place + 2 ≤ length bytes.now }
    ensures { result ≡ from_be_bytes w16 (slice_range bytes.now place (place + 2)) }
{
    let field = &bytes[place..place + 2];
    u16::from_be_bytes([field[0], field[1]])
}

/// The number of the four bytes from `place` on, the highest one first.
pub fn u32_at(bytes: &[u8], place: usize) -> u32
    requires { place + 4 ≤ length bytes.now }
    ensures { result ≡ from_be_bytes w32 (slice_range bytes.now place (place + 4)) }
{
    let field = &bytes[place..place + 4];
    u32::from_be_bytes([field[0], field[1], field[2], field[3]])
}

/// Whether each of the bytes is zero, as of none at all.
pub fn is_zeros(bytes: &[u8]) -> bool
    ensures { result ≡ are_zeros bytes.now }
{
    bytes.iter().all(|byte| *byte == 0)
}

/// Writes zeros at the end.
#[tactic(auto, unfolding(crate::specs::Field::zeros))]
pub fn push_zeros<A: Allocator>(out: &mut Vec<u8, A>, count: usize) -> Result<(), OutOfMemory>
    ensures { OnOk result (out.new.items ≡ out.old.items ++ zeros count) }
{
    for _ in 0..count {
        out.push(0)?;
    }
    Ok(())
}

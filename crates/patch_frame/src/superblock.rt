//! The superblock: how the disk is divided, and which version it is of.
ghost use Rattle.std.specs.Prelude.{◌≡◌, IfOk, length, Ok};
ghost use Rattle.patch_frame.specs.declared.geometries.Geometry.{Geometry as GeometryFields};
ghost use Rattle.patch_frame.specs.Geometry.{IsGeometry};
ghost use Rattle.patch_frame.specs.Superblock.{spelling, superblock_at};

use crate::bytes::{is_zeros, push_zeros, u32_at};
use crate::faults::FrameFault;
use crate::geometries::{Format, Geometry};
use patch_model::{BLOCK, BlockBytes, OutOfMemory};
use std::alloc::Allocator;

const MARK: [u8; 8] = *b"FSTCHUNK";

/// How the disk of this superblock is divided, in either version.
pub fn read_superblock(bytes: &[u8]) -> Result<Geometry, FrameFault>
    requires { length bytes.now ≡ BLOCK }
    // What is read is spelled so.
    ensures found { IfOk result (λ g. IsGeometry g × (bytes.now ≡ spelling g)) }
    // What is spelled so is read.
    ensures only { (g : GeometryFields) → IsGeometry g → bytes.now ≡ spelling g → result ≡ Ok g }
    // Which refusal it is.
    ensures exact { result ≡ superblock_at bytes.now }
{
    geometry_of(bytes)
}

// The tests in their order.
fn geometry_of(bytes: &[u8]) -> Result<Geometry, FrameFault>
    requires { length bytes.now ≡ BLOCK }
    ensures { result ≡ superblock_at bytes.now }
{
    let version = u32_at(bytes, 8);
    if &bytes[..8] != MARK.as_slice() || version == 0 || version > 2 {
        return Err(FrameFault::BadMagic);
    }
    let (format, end) = if version == 1 {
        (Format::One, 20)
    } else {
        let length = u32_at(bytes, 20);
        (Format::Two { length }, 24)
    };
    let geometry = Geometry {
        index: u32_at(bytes, 12),
        extents: u32_at(bytes, 16),
        format,
    };
    if !geometry.is_valid() {
        return Err(FrameFault::BadValue);
    }
    if !is_zeros(&bytes[end..BLOCK]) {
        return Err(FrameFault::NotZero);
    }
    Ok(geometry)
}

/// The superblock of a disk that is divided like this. It writes each byte once.
pub fn write_superblock<A: Allocator>(
    alloc: A,
    geometry: Geometry,
) -> Result<BlockBytes<A>, OutOfMemory>
    requires { IsGeometry geometry }
    ensures { IfOk result (λ block. block ≡ spelling geometry) }
{
    let bytes = superblock_bytes(alloc, geometry)?;
    Ok(BlockBytes::from_vec(bytes))
}

fn superblock_bytes<A: Allocator>(alloc: A, geometry: Geometry) -> Result<Vec<u8, A>, OutOfMemory>
    ensures { IfOk result (λ bytes. bytes.items ≡ spelling geometry) }
{
    let mut out = Vec::with_capacity(alloc, BLOCK)?;
    out.extend_from_slice(&MARK)?;
    out.extend_from_slice(&geometry.format.version().to_be_bytes())?;
    out.extend_from_slice(&geometry.index.to_be_bytes())?;
    out.extend_from_slice(&geometry.extents.to_be_bytes())?;
    match geometry.format {
        Format::One => push_zeros(&mut out, 4076)?,
        Format::Two { length } => {
            out.extend_from_slice(&length.to_be_bytes())?;
            push_zeros(&mut out, 4072)?;
        }
    }
    Ok(out)
}

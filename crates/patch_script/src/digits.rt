//! Bytes in lower case hexadecimal, two digits for each, written by blocks.
ghost use Rattle.std.specs.Prelude.{◌≡◌, ◌<◌, ◌≤◌, ◌++◌, OnOk, map, slice_index, string_bytes, take};
ghost use Rattle.std.specs.Simd.Lanes.{Each1};
ghost use Rattle.hex.specs.Hex.{encode_lower, lower_digits};

use std::alloc::AllocError;
use std::simd::prelude::*;

/// How many bytes are turned into digits at a time.
const BLOCK: usize = 64;

/// The digits of numbers below 16.
fn digits_of(numbers: u8x64) -> u8x64
    requires { Each1 (λ n. n < 16) numbers }
    ensures { result ≡ map (λ n. slice_index lower_digits n) numbers }
{
    let is_letter = numbers.simd_gt(u8x64::splat(9));
    let ahead = is_letter.select(u8x64::splat(b'a' - b'0' - 10), u8x64::splat(0));
    numbers + u8x64::splat(b'0') + ahead
}

/// The digits of the first half of a block, and those of the other half.
fn halves_of(bytes: u8x64) -> (u8x64, u8x64)
    ensures { result.0 ++ result.1 ≡ encode_lower bytes }
{
    let high = digits_of(bytes >> u8x64::splat(4));
    let low = digits_of(bytes & u8x64::splat(15));
    high.interleave(low)
}

/// Writes the digits of the first bytes of a block, as many as it is told, at the end.
fn push_block(out: &mut String, block: &[u8; BLOCK], count: usize) -> Result<(), AllocError>
    requires { count ≤ BLOCK }
    ensures { OnOk result (string_bytes out.new ≡ string_bytes out.old ++ encode_lower (take count block.now)) }
{
    let (front, back) = halves_of(u8x64::from_array(*block));
    let halves = [front.to_array(), back.to_array()];
    let digits = halves.as_flattened();
    out.push_str(unsafe { str::from_utf8_unchecked(&digits[..2 * count]) })
}

/// Writes the digits of some bytes at the end. Those that fill no block are told with zeros behind them, and the digits of
/// the zeros are left out.
pub(crate) fn push_digits(out: &mut String, bytes: &[u8]) -> Result<(), AllocError>
    ensures { OnOk result (string_bytes out.new ≡ string_bytes out.old ++ encode_lower bytes.now) }
{
    let mut rest = bytes;
    while let Some((block, more)) = rest.split_first_chunk::<BLOCK>() {
        push_block(out, block, BLOCK)?;
        rest = more;
    }
    let mut last = [0u8; BLOCK];
    last[..rest.len()].copy_from_slice(rest);
    push_block(out, &last, rest.len())
}

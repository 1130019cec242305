//! Bytes of a span, exchanged.
ghost use Rattle.std.specs.Prelude.{◌≡◌, ◌+◌, ◌≤◌, ◌++◌, [], length, take, drop, slice_range, if◌then◌else◌};

/// Exchanges the saved bytes with the buffer's from `start` on, in one pass.
pub fn swap_span(buffer: &mut [u8], start: usize, saved: &mut [u8])
    requires { start + length saved.old ≤ length buffer.old }
    ensures laid { buffer.new
        ≡ take start buffer.old ++ saved.old ++ drop (start + length saved.old) buffer.old }
    ensures kept { saved.new ≡ slice_range buffer.old start (start + length saved.old) }
{
    let end = start + saved.len();
    let span = &mut buffer[start..end];
    span.swap_with_slice(saved);
}

/// Puts bytes over the buffer's from `start` on. Those that were there are saved in place of the same bytes, but of hard ones none
/// are.
pub fn put_over(buffer: &mut [u8], start: usize, bytes: &[u8], saved: &mut [u8], hard: bool)
    requires fits { start + length bytes.now ≤ length buffer.old }
    requires same { saved.old ≡ (if hard then [] else bytes.now) }
    ensures laid { buffer.new
        ≡ take start buffer.old ++ bytes.now ++ drop (start + length bytes.now) buffer.old }
    ensures kept { saved.new
        ≡ (if hard then [] else slice_range buffer.old start (start + length bytes.now)) }
{
    if hard {
        let end = start + bytes.len();
        let span = &mut buffer[start..end];
        span.copy_from_slice(bytes);
    } else {
        swap_span(buffer, start, saved);
    }
}

//! Bytes that are copied into a caller's buffer.
ghost use Rattle.std.specs.Prelude.{◌≡◌, length};
ghost use Rattle.patch_handles.specs.Copying.{copied, answer_copying};

use crate::answers::Answer;

/// Copies bytes to the front of a buffer, where they fit, and says how many they are.
pub fn copy_out(bytes: &[u8], into: &mut [u8], len: &mut usize) -> Answer
    ensures answer { result ≡ answer_copying bytes.now into.old }
    ensures bytes { into.new ≡ copied bytes.now into.old }
    ensures len { len.new ≡ length bytes.now }
{
    *len = bytes.len();
    if bytes.len() > into.len() {
        return Answer::BufferTooSmall;
    }
    into[..bytes.len()].copy_from_slice(bytes);
    Answer::Done
}

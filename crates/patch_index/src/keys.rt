//! Keys as the index keeps them.
ghost use Rattle.std.specs.Prelude.{◌≡◌, ◌≤◌, length};
ghost use Rattle.patch_index.specs.Index.{key_of};

use crate::entries::Key;
use patch_frame::MAX_KEY;

impl Key {
    /// The key of these bytes.
    pub fn of(bytes: &[u8]) -> Key
        requires { length bytes.now ≤ MAX_KEY }
        ensures { key_of result ≡ bytes.now }
    {
        let mut kept = [0; MAX_KEY];
        kept[..bytes.len()].copy_from_slice(bytes);
        Key {
            bytes: kept,
            length: bytes.len() as u32,
        }
    }

    /// The bytes of the key.
    pub fn as_slice(&self) -> &[u8]
        ensures { result.now ≡ key_of self.now }
    {
        &self.bytes[..self.length as usize]
    }
}

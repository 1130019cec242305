//! What is reported of a used slot.
ghost use Rattle.std.specs.Prelude.{◌≡◌};
ghost use Rattle.patch_index.specs.Index.{fields_of};
ghost use Rattle.patch_index.specs.Reporting.{reported, of_slot};

use crate::entries::{Entry, Key};
use patch_frame::OVERHEAD;

/// A key, and how many bytes its value has.
#[derive(Clone, Copy)]
pub struct EntryReport {
    pub key: Key,
    pub length: u32,
}

impl Entry {
    /// The key, and how long its value is.
    pub fn report(&self) -> EntryReport
        ensures { reported result ≡ of_slot (fields_of self.now) }
    {
        let overhead = OVERHEAD + self.key.as_slice().len() as u32;
        EntryReport {
            key: self.key,
            length: self.length - overhead,
        }
    }
}

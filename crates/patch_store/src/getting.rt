//! How the value of a key is read.
ghost use Rattle.std.specs.Prelude.{◌≡◌, IfOk};
ghost use Rattle.patch_model.specs.Execution.{Execution};
ghost use Rattle.patch_cache.specs.Meaning.{IsCacheOf};
ghost use Rattle.patch_plans.specs.Meaning.{AreExtentsOf};
ghost use Rattle.patch_history.specs.History.{History};
ghost use Rattle.patch_index.specs.Index.{fields_of};
ghost use Rattle.patch_store.specs.Getting.{IsGot, value_kept};
ghost use Rattle.patch_store.specs.Meaning.{IsStoreOf};

use crate::stores::Store;
use patch_extent::Place;
use patch_frame::{KEY_START, MAX_KEY, OVERHEAD};
use patch_history::{GetRefusal, laws as history_laws};
use patch_index::Entry;
use patch_model::OutOfMemory;
use std::alloc::Allocator;

impl<A: Allocator + Copy> Store<A> {
    /// The value of a key, if it has one. It is read where the key's slot says, and copied once.
    pub fn get(&self, key: &[u8]) -> Result<Option<Vec<u8, A>>, GetRefusal>
        ensures { (h : History) → IsStoreOf self.now h → IsGot h key.now result }
    {
        history_laws::shelves_are_kept();
        history_laws::histories_are_of_stores();
        history_laws::extents_are_kept();
        if key.is_empty() || key.len() > MAX_KEY {
            return Err(GetRefusal::KeyLength);
        }
        let Some(slot) = self.index.slot_of(key) else {
            return Ok(None);
        };
        let Some(entry) = self.index.entry(slot) else {
            return Ok(None);
        };
        let Ok(value) = self.value_of(&entry) else {
            return Err(GetRefusal::OutOfMemory);
        };
        Ok(Some(value))
    }

    /// The bytes of a frame's value.
    fn value_of(&self, entry: &Entry) -> Result<Vec<u8, A>, OutOfMemory>
        ensures { (run : Execution) → IsCacheOf self.now.cache run → AreExtentsOf self.now.shelf.extents run
            → IfOk result (λ value. value.items ≡ value_kept self.now run (fields_of entry.now)) }
    {
        let key = entry.key.as_slice().len() as u32;
        let place = Place {
            extent: entry.extent,
            generation: entry.generation,
            offset: entry.offset + (KEY_START + key),
            len: entry.length - OVERHEAD - key,
        };
        let Ok(bytes) = self.extents.read(&self.cache, place) else {
            return Err(OutOfMemory);
        };
        Ok(bytes)
    }
}

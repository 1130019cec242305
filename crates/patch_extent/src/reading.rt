//! How a place of an extent is read.
ghost use Rattle.std.specs.Prelude.{◌≡◌, ◌+◌, ◌<◌, ◌≤◌, Some, None, OnOk, IfOk, IfErr};
ghost use Rattle.patch_model.specs.Execution.{Execution};
ghost use Rattle.patch_frame.specs.Geometry.{largest_pointer};
ghost use Rattle.patch_cache.specs.Meaning.{IsCacheOf};
ghost use Rattle.patch_cache.specs.Refusals.{IsCause};
ghost use Rattle.patch_extent.specs.Refusals.{read_cause};
ghost use Rattle.patch_extent.specs.Refusing.{why_not_read};
ghost use Rattle.patch_plans.specs.Meaning.{AreExtentsOf};
ghost use Rattle.patch_extent.specs.Answers.{cached_bytes};

use crate::extents::Extents;
use crate::parting::{part_end, part_start, touched};
use crate::places::Place;
use crate::refusals::ReadRefusal;
use patch_cache::Cache;
use patch_model::{BLOCK, BlockNo, OutOfMemory, laws as model_laws};
use std::alloc::Allocator;

impl<A: Allocator + Copy> Extents<A> {
    /// The bytes of a place, as they are cached.
    pub fn read(&self, cache: &Cache<A>, place: Place) -> Result<Vec<u8, A>, ReadRefusal>
        ensures bytes { (run : Execution) → IsCacheOf cache.now run → AreExtentsOf self.now run → IfOk result (λ bytes.
            bytes.items ≡ cached_bytes self.now.geometry run place.extent place.offset place.len) }
        ensures allowed { OnOk result (why_not_read self.now place ≡ None) }
        ensures cause { IfErr result (λ refusal. IsCause (why_not_read self.now place) (read_cause refusal)) }
    {
        self.why_not_read(place)?;
        Ok(self.read_span(cache, place)?)
    }

    /// Whether a place can be read: the first cause against it.
    fn why_not_read(&self, place: Place) -> Result<(), ReadRefusal>
        ensures none { OnOk result (why_not_read self.now place ≡ None) }
        ensures cause { IfErr result (λ refusal. why_not_read self.now place ≡ Some (read_cause refusal)) }
        ensures known { OnOk result (place.extent < self.now.geometry.extents) }
        ensures within { OnOk result (place.offset + place.len ≤ largest_pointer self.now.geometry.format) }
    {
        if place.extent >= self.geometry.extents {
            return Err(ReadRefusal::NoSuchExtent);
        }
        let pointer = self.each[place.extent as usize].pointer;
        if place.generation != pointer.generation {
            return Err(ReadRefusal::OldGeneration);
        }
        if place.len > pointer.offset || place.offset > pointer.offset - place.len {
            return Err(ReadRefusal::PastPointer);
        }
        Ok(())
    }

    /// The bytes of a span of an extent.
    fn read_span(&self, cache: &Cache<A>, place: Place) -> Result<Vec<u8, A>, OutOfMemory>
        requires known { place.extent < self.now.geometry.extents }
        requires within { place.offset + place.len ≤ largest_pointer self.now.geometry.format }
        ensures { (run : Execution) → IsCacheOf cache.now run → AreExtentsOf self.now run → IfOk result (λ bytes.
            bytes.items ≡ cached_bytes self.now.geometry run place.extent place.offset place.len) }
    {
        model_laws::executions_are_orderly();
        let mut bytes = Vec::with_capacity(self.alloc, place.len as usize)?;
        if place.len == 0 {
            return Ok(bytes);
        }
        let first = self.geometry.first_block(place.extent);
        for k in 0..touched(place.offset, place.len) {
            let start = part_start(place.offset, k);
            let len = part_end(place.offset, place.len, k) - start;
            let block = BlockNo(first + start / BLOCK as u32);
            match cache.read(block, start as usize % BLOCK, len as usize) {
                Ok(part) => bytes.extend_from_slice(part)?,
                // Never so in a cache of the same disk: the extent lies on it. Of no other is anything promised.
                Err(_) => return Ok(bytes),
            }
        }
        Ok(bytes)
    }
}

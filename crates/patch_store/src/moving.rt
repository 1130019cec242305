//! How frames are moved out of an extent.
ghost use Rattle.std.specs.Prelude.{◌≤◌, length};
ghost use Rattle.patch_index.specs.Index.{fields_of};
ghost use Rattle.patch_store.specs.Moving.{CopiesFrame, MovesFrame, MovesFrames};

use crate::laws::laws_below;
use crate::stores::Store;
use patch_extent::Place;
use patch_frame::decode_within;
use patch_history::laws as history_laws;
use patch_index::{Entry, LiveSlots};
use patch_model::{Bytes, OutOfMemory};
use std::alloc::Allocator;

impl<A: Allocator + Copy> Store<A> {
    /// Moves the frames of the first so many of these slots, one after another.
    pub(crate) fn move_frames(&mut self, slots: &LiveSlots, count: usize) -> Result<(), OutOfMemory>
        requires { count ≤ length slots.now }
        ensures { MovesFrames slots.now count result self.old self.new }
    {
        laws_below();
        for at in 0..count {
            let slot = slots.nth(at);
            let Ok(()) = self.move_frame(slot) else {
                return Err(OutOfMemory);
            };
        }
        Ok(())
    }

    /// Moves the frame that a slot names: its bytes are appended where they have room, and then the slot names them there.
    fn move_frame(&mut self, slot: u32) -> Result<(), OutOfMemory>
        ensures { MovesFrame slot result self.old self.new }
    {
        history_laws::frames_compose();
        let Some(entry) = self.index.entry(slot) else {
            return Err(OutOfMemory);
        };
        let Some(extent) = self.extent_for_move(entry.length) else {
            return Err(OutOfMemory);
        };
        let Ok(frame) = self.frame_of(&entry) else {
            return Err(OutOfMemory);
        };
        let frame = Bytes::from_vec(frame);
        self.put_frame(&None, slot, extent, entry.key.as_slice(), frame)
    }

    /// The bytes of a frame.
    fn frame_of(&self, entry: &Entry) -> Result<Vec<u8, A>, OutOfMemory>
        ensures { CopiesFrame self.now (fields_of entry.now) result }
    {
        let place = Place {
            extent: entry.extent,
            generation: entry.generation,
            offset: entry.offset,
            len: entry.length,
        };
        let Ok(frame) = self.extents.read(&self.cache, place) else {
            return Err(OutOfMemory);
        };
        // Always so: a slot names a frame.
        let limit = self.geometry.format.value_limit();
        let Ok(_) = decode_within(frame.as_slice(), limit) else {
            return Err(OutOfMemory);
        };
        Ok(frame)
    }
}

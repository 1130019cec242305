//! The index: what each slot says.
ghost use Rattle.std.specs.Prelude.{◌≡◌, ◌<◌, ◌≤◌, ◌++◌, ◌∷◌, [], Some, None, length, position, is_none, slice_get, slice_index_or, slice_set, map, option_map, IfOk, OnOk, OnErr};
ghost use Rattle.patch_recovery.specs.Reading.{has_key as is_of};
ghost use Rattle.patch_index.specs.Reporting.{reported, of_slots, live_bytes, length_told};
ghost use Rattle.patch_index.specs.Index.{fields_of, key_of, told};
ghost use Rattle.patch_index.specs.Live.{live_behind};

use crate::entries::Entry;
use crate::live_slots::LiveSlots;
use crate::live_sums::LiveSums;
use crate::reports::EntryReport;
use crate::searching::{find_key, live_part, place_of, places_of, used_slot};
use patch_model::OutOfMemory;
use patch_order::Order;
use std::alloc::{Allocator, Global};
use std::marker::Model;

/// The most slots that an index has.
pub const MAX_SLOTS: usize = 1024;

/// The slots of a disk, each empty or with the frame that it names. There are 1,024 at most.
#[derive(Drop)]
pub struct Index<A: Allocator = Global> {
    pub(crate) slots: Vec<Option<Entry>, A>,
    empty: Order<A>,
    /// The used slots by their keys, and by the places of their frames.
    pub(crate) by_key: Order<A>,
    by_place: Order<A>,
    live: LiveSums<A>,
}

impl<A: Allocator> Model for Index<A> {
    ghost use Rattle.std.specs.Prelude.{◌≤◌, List, Option, length, map};
    ghost use Rattle.patch_frame.specs.Slot.{SlotFields};
    ghost use Rattle.patch_index.specs.Index.{told};
    ghost use Rattle.patch_index.specs.Orders.{AreOrders};
    ghost use Rattle.patch_index.specs.Sums.{AreSums};

    ghost Value = { List (Option SlotFields) };

    ghost view = { λ i. map told i.slots.items };

    ghost invariant = { λ i. (length i.slots.items ≤ 1024) × AreOrders (map told i.slots.items) i.empty i.by_key i.by_place
        × AreSums (map told i.slots.items) i.live };
}

impl<A: Allocator + Copy> Index<A> {
    /// An index of no slot yet, with room for so many.
    pub fn with_room(alloc: A, count: u32) -> Result<Index<A>, OutOfMemory>
        ensures { IfOk result (λ index. index ≡ []) }
    {
        let slots = Vec::with_capacity(alloc, count as usize)?;
        Ok(Index {
            slots,
            empty: Order::new(alloc)?,
            by_key: Order::new(alloc)?,
            by_place: Order::new(alloc)?,
            live: LiveSums::new(alloc)?,
        })
    }
}

impl<A: Allocator> Index<A> {
    /// One slot more, behind the others.
    pub fn push(&mut self, slot: Option<Entry>) -> Result<(), OutOfMemory>
        requires { length self.old < 1024 }
        ensures pushed { OnOk result (self.new ≡ self.old ++ told slot ∷ []) }
        ensures refused { OnErr result (self.new ≡ self.old) }
    {
        let number = self.count();
        let Ok(()) = self.push_empty() else {
            return Err(OutOfMemory);
        };
        if let Some(entry) = slot {
            self.occupy(number, entry);
        }
        Ok(())
    }

    // An empty slot more: it is the last of the empty ones.
    fn push_empty(&mut self) -> Result<(), OutOfMemory>
        requires { length self.old < 1024 }
        ensures pushed { OnOk result (self.new ≡ self.old ++ None ∷ []) }
        ensures refused { OnErr result (self.new ≡ self.old) }
    {
        let number = self.slots.len();
        let Ok(()) = self.slots.push(None) else {
            return Err(OutOfMemory);
        };
        let last = self.empty.len();
        self.empty.insert(last, number as u16);
        Ok(())
    }

    /// How many slots there are.
    pub fn count(&self) -> u32
        ensures count { result ≡ length self.now }
        ensures few { length self.now ≤ 1024 }
    {
        self.slots.len() as u32
    }

    /// How many slots are used.
    pub fn used(&self) -> u32
        ensures { result ≡ length (of_slots self.now) }
    {
        self.slots.len() as u32 - self.empty.len() as u32
    }

    /// The frame that a slot names, if it is used.
    pub fn entry(&self, slot: u32) -> Option<Entry>
        ensures { told result ≡ slice_index_or self.now slot None }
    {
        self.entry_at(slot as usize)
    }

    fn entry_at(&self, slot: usize) -> Option<Entry>
        ensures { told result ≡ slice_index_or self.now slot None }
    {
        match self.slots.get(slot) {
            Some(entry) => *entry,
            None => None,
        }
    }

    /// The slot of a key.
    pub fn slot_of(&self, key: &[u8]) -> Option<u32>
        ensures { result ≡ position (is_of key.now) self.now }
    {
        find_key(self.slots.as_slice(), self.by_key.as_slice(), key)
    }

    /// The lowest empty slot.
    pub fn empty_slot(&self) -> Option<u32>
        ensures { result ≡ position is_none self.now }
    {
        match self.empty.as_slice().first() {
            Some(slot) => Some(u32::from(*slot)),
            None => None,
        }
    }

    /// The key of the used slot that so many used ones stand before, with the length of its value. It is found by halves.
    pub fn report(&self, number: u32) -> Option<EntryReport>
        ensures { option_map reported result ≡ slice_get (of_slots self.now) number }
    {
        let slot = used_slot(self.empty.as_slice(), number);
        let entry = self.entry_at(slot)?;
        Some(entry.report())
    }

    /// Each used slot's key, with the length of its value, in the order of the slots.
    pub fn reports<B: Allocator>(&self, alloc: B) -> Result<Vec<EntryReport, B>, OutOfMemory>
        ensures { IfOk result (λ entries. map reported entries.items ≡ of_slots self.now) }
    {
        let mut entries = Vec::new(alloc);
        for slot in 0..self.slots.len() {
            if let Some(entry) = self.slots[slot] {
                entries.push(entry.report())?;
            }
        }
        Ok(entries)
    }

    /// How many bytes the frames have that slots name in the extent. They are kept for the extents that a disk may have.
    pub fn live_bytes(&self, extent: u32) -> u32
        ensures { result ≡ live_bytes self.now extent }
    {
        match self.live.of(extent) {
            Some(live) => live,
            None => self.count_live(extent),
        }
    }

    // Counts them, by the slots that name the extent.
    fn count_live(&self, extent: u32) -> u32
        ensures { result ≡ live_bytes self.now extent }
    {
        let slots = self.slots.as_slice();
        let part = live_part(slots, self.by_place.as_slice(), extent);
        let mut live = 0;
        for at in 0..part.len() {
            live += frame_length(slots, part[at]);
        }
        live
    }

    /// The slots that name the extent, in order of the offsets of their frames.
    pub fn live_slots(&self, extent: u32) -> LiveSlots
        ensures { result ≡ live_behind self.now extent 0 }
    {
        LiveSlots::of(live_part(self.slots.as_slice(), self.by_place.as_slice(), extent))
    }

    /// Lets a slot name this frame from now on. Where it names one of the same key already, only the order by place changes.
    pub fn fill(&mut self, slot: u32, entry: Entry)
        requires { slot < length self.old }
        ensures { self.new ≡ slice_set self.old slot (Some (fields_of entry)) }
    {
        if let Some(old) = self.slots[slot as usize] {
            if old.key.as_slice() == entry.key.as_slice() {
                self.refill(slot, old, entry);
                return;
            }
        }
        self.clear(slot);
        self.occupy(slot, entry);
    }

    // Lets a slot that names a frame name another one of its key.
    fn refill(&mut self, slot: u32, old: Entry, entry: Entry)
        requires there { slot < length self.old }
        requires used { slice_index_or self.old slot None ≡ Some (fields_of old) }
        requires key { key_of entry.key ≡ key_of old.key }
        ensures { self.new ≡ slice_set self.old slot (Some (fields_of entry)) }
    {
        let from = place_of(self.slots.as_slice(), self.by_place.as_slice(), slot, &old);
        self.by_place.remove(from);
        let to = place_of(
            self.slots.as_slice(),
            self.by_place.as_slice(),
            slot,
            &entry,
        );
        self.by_place.insert(to, slot as u16);
        self.live.take_off(&old);
        self.live.add(&entry);
        self.slots[slot as usize] = Some(entry);
    }

    /// Empties a slot.
    pub fn clear(&mut self, slot: u32)
        requires { slot < length self.old }
        ensures { self.new ≡ slice_set self.old slot None }
    {
        let Some(entry) = self.slots[slot as usize] else {
            return;
        };
        let places = places_of(
            self.slots.as_slice(),
            self.empty.as_slice(),
            self.by_key.as_slice(),
            self.by_place.as_slice(),
            slot,
            &entry,
        );
        self.slots[slot as usize] = None;
        self.empty.insert(places.empty, slot as u16);
        self.by_key.remove(places.by_key);
        self.by_place.remove(places.by_place);
        self.live.take_off(&entry);
    }

    // Lets an empty slot name this frame.
    fn occupy(&mut self, slot: u32, entry: Entry)
        requires there { slot < length self.old }
        requires empty { slice_index_or self.old slot None ≡ None }
        ensures { self.new ≡ slice_set self.old slot (Some (fields_of entry)) }
    {
        let places = places_of(
            self.slots.as_slice(),
            self.empty.as_slice(),
            self.by_key.as_slice(),
            self.by_place.as_slice(),
            slot,
            &entry,
        );
        self.slots[slot as usize] = Some(entry);
        self.empty.remove(places.empty);
        self.by_key.insert(places.by_key, slot as u16);
        self.by_place.insert(places.by_place, slot as u16);
        self.live.add(&entry);
    }
}

/// How many bytes a slot's frame has.
fn frame_length(slots: &[Option<Entry>], slot: u16) -> u32
    ensures value { result ≡ length_told (slice_index_or (map told slots.now) slot None) }
    ensures few { result ≤ 262144 }
{
    match slots.get(slot as usize) {
        Some(Some(entry)) => entry.length,
        _ => 0,
    }
}

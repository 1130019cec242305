//! What a store holds: how entries are counted, and listed, how full extents are, and what is to be synced.
ghost use Rattle.std.specs.Prelude.{◌≡◌, ◌↔◌, IsTrue, IsFalse, IfSome};
ghost use Rattle.patch_history.specs.History.{History};
ghost use Rattle.patch_store.specs.Meaning.{IsStoreOf};
ghost use Rattle.patch_handles.specs.Answering.{number_of};
ghost use Rattle.patch_c.specs.Handle.{StaysClosed};
ghost use Rattle.patch_c.specs.Reading.{HasListed, HasCounted, HasMeasured, unsynced};

use crate::handle::Handle;
use crate::opened::Opened;
use crate::walking::tell_entry;
use patch_handles::{Answer, DONE, NOT_OPEN};
use patch_model::RefusalKind;
use std::alloc::Global;

const NO_MEMORY: Answer = Answer::Refused(RefusalKind::OutOfMemory);

impl Opened {
    fn count(&self, entries: &mut u32, extents: &mut u32) -> Answer
        ensures { (h : History) → IsStoreOf self.now.store h →
            HasCounted h entries.old extents.old (number_of result, entries.new, extents.new) }
    {
        let Ok(report) = self.store.check() else {
            return NO_MEMORY;
        };
        // Never so: a disk has few slots, and fewer extents. The numbers are those of vectors, whose types don't say so.
        let Ok(keys) = u32::try_from(report.entries.len()) else {
            return NO_MEMORY;
        };
        let Ok(reported) = u32::try_from(report.extents.len()) else {
            return NO_MEMORY;
        };
        *entries = keys;
        *extents = reported;
        Answer::Done
    }

    fn entry(
        &self,
        number: u32,
        key: &mut [u8],
        key_len: &mut usize,
        value_len: &mut usize,
    ) -> Answer
        ensures { (h : History) → IsStoreOf self.now.store h →
            HasListed h number key.old key_len.old value_len.old (number_of result, key.new, key_len.new, value_len.new) }
    {
        tell_entry(self.store.entry(number), key, key_len, value_len)
    }

    fn extent(&self, extent: u32, live: &mut u32, filled: &mut u32) -> Answer
        ensures { (h : History) → IsStoreOf self.now.store h →
            HasMeasured h extent live.old filled.old (number_of result, live.new, filled.new) }
    {
        let Some(report) = self.store.extent(extent) else {
            return Answer::Refused(RefusalKind::NoSuchExtent);
        };
        *live = report.live;
        *filled = report.pointer;
        Answer::Done
    }

    fn unsynced(&self) -> u32
        ensures { (h : History) → IsStoreOf self.now.store h → result ≡ unsynced h }
    {
        self.store.cache().live()
    }
}

/// Counts the keys that have a value, and the extents.
#[unsafe(no_mangle)]
pub extern "C" fn fstch_check(
    handle: &mut Handle,
    alloc: Global,
    entries: &mut u32,
    extents: &mut u32,
) -> i32
    ensures same { handle.new.sealed.opened ≡ handle.old.sealed.opened }
    ensures not_open { (result ≡ NOT_OPEN) ↔ IsFalse handle.old.is_open }
    ensures closed { StaysClosed handle.old handle.new }
    ensures counted { IfSome handle.old.sealed.opened (λ opened. (h : History) → IsStoreOf opened.store h →
        HasCounted h entries.old extents.old (result, entries.new, extents.new)) }
    ensures refused { IsFalse handle.old.is_open → (entries.new ≡ entries.old) × (extents.new ≡ extents.old) }
{
    let Some(opened) = handle.take(alloc) else {
        return NOT_OPEN;
    };
    let answer = opened.count(entries, extents);
    handle.put_back(opened);
    answer.number()
}

/// Copies the key of an entry to the front of a buffer, and says how long its value is.
#[unsafe(no_mangle)]
pub extern "C" fn fstch_entry(
    handle: &mut Handle,
    alloc: Global,
    number: u32,
    key: &mut [u8],
    key_len: &mut usize,
    value_len: &mut usize,
) -> i32
    ensures same { handle.new.sealed.opened ≡ handle.old.sealed.opened }
    ensures not_open { (result ≡ NOT_OPEN) ↔ IsFalse handle.old.is_open }
    ensures closed { StaysClosed handle.old handle.new }
    ensures listed { IfSome handle.old.sealed.opened (λ opened. (h : History) → IsStoreOf opened.store h →
        HasListed h number key.old key_len.old value_len.old (result, key.new, key_len.new, value_len.new)) }
    ensures refused { IsFalse handle.old.is_open
        → (key.new ≡ key.old) × (key_len.new ≡ key_len.old) × (value_len.new ≡ value_len.old) }
{
    let Some(opened) = handle.take(alloc) else {
        return NOT_OPEN;
    };
    let answer = opened.entry(number, key, key_len, value_len);
    handle.put_back(opened);
    answer.number()
}

/// Tells how many bytes of an extent are live, and how many are filled.
#[unsafe(no_mangle)]
pub extern "C" fn fstch_extent(
    handle: &mut Handle,
    alloc: Global,
    extent: u32,
    live: &mut u32,
    filled: &mut u32,
) -> i32
    ensures same { handle.new.sealed.opened ≡ handle.old.sealed.opened }
    ensures not_open { (result ≡ NOT_OPEN) ↔ IsFalse handle.old.is_open }
    ensures closed { StaysClosed handle.old handle.new }
    ensures measured { IfSome handle.old.sealed.opened (λ opened. (h : History) → IsStoreOf opened.store h →
        HasMeasured h extent live.old filled.old (result, live.new, filled.new)) }
    ensures refused { IsFalse handle.old.is_open → (live.new ≡ live.old) × (filled.new ≡ filled.old) }
{
    let Some(opened) = handle.take(alloc) else {
        return NOT_OPEN;
    };
    let answer = opened.extent(extent, live, filled);
    handle.put_back(opened);
    answer.number()
}

/// Tells how many patches haven't reached the file.
#[unsafe(no_mangle)]
pub extern "C" fn fstch_unsynced(handle: &mut Handle, alloc: Global, changes: &mut u32) -> i32
    ensures same { handle.new.sealed.opened ≡ handle.old.sealed.opened }
    ensures not_open { (result ≡ NOT_OPEN) ↔ IsFalse handle.old.is_open }
    ensures done { (result ≡ DONE) ↔ IsTrue handle.old.is_open }
    ensures closed { StaysClosed handle.old handle.new }
    ensures counted { IfSome handle.old.sealed.opened (λ opened. (h : History) → IsStoreOf opened.store h →
        changes.new ≡ unsynced h) }
    ensures refused { IsFalse handle.old.is_open → changes.new ≡ changes.old }
{
    let Some(opened) = handle.take(alloc) else {
        return NOT_OPEN;
    };
    *changes = opened.unsynced();
    handle.put_back(opened);
    DONE
}

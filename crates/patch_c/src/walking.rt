//! Keys in order: the least from a key on, the greatest below one, and the greatest of all.
ghost use Rattle.std.specs.Prelude.{◌≡◌, ◌↔◌, IsFalse, IfSome, Some, None, option_map};
ghost use Rattle.patch_history.specs.History.{History};
ghost use Rattle.patch_index.specs.Reporting.{reported};
ghost use Rattle.patch_store.specs.Meaning.{IsStoreOf};
ghost use Rattle.patch_handles.specs.Answering.{number_of};
ghost use Rattle.patch_c.specs.Handle.{StaysClosed};
ghost use Rattle.patch_c.specs.Reading.{HasFound, IsNextOf, IsPreviousOf, entry_told};

use crate::handle::Handle;
use crate::opened::Opened;
use patch_handles::{Answer, NOT_OPEN, copy_out};
use patch_store::EntryReport;
use std::alloc::Global;

/// Copies the key of an entry, if there is one, to the front of a buffer, and says how long its value is.
pub fn tell_entry(
    entry: Option<EntryReport>,
    key: &mut [u8],
    key_len: &mut usize,
    value_len: &mut usize,
) -> Answer
    ensures { (number_of result, key.new, key_len.new, value_len.new)
        ≡ entry_told (option_map reported entry) key.old key_len.old value_len.old }
{
    let Some(entry) = entry else {
        return Answer::Absent;
    };
    *value_len = entry.length as usize;
    copy_out(entry.key.as_slice(), key, key_len)
}

impl Opened {
    fn next(
        &self,
        from: &[u8],
        key: &mut [u8],
        key_len: &mut usize,
        value_len: &mut usize,
    ) -> Answer
        ensures { (h : History) → IsStoreOf self.now.store h → HasFound (IsNextOf h from.now) key.old key_len.old value_len.old
            (number_of result, key.new, key_len.new, value_len.new) }
    {
        tell_entry(self.store.next_key(from), key, key_len, value_len)
    }

    fn previous(
        &self,
        before: Option<&[u8]>,
        key: &mut [u8],
        key_len: &mut usize,
        value_len: &mut usize,
    ) -> Answer
        ensures { (h : History) → IsStoreOf self.now.store h → HasFound (IsPreviousOf h (option_map (λ b. b.now) before.entry))
            key.old key_len.old value_len.old (number_of result, key.new, key_len.new, value_len.new) }
    {
        tell_entry(self.store.previous_key(before), key, key_len, value_len)
    }
}

/// Copies the least key from one on to the front of a buffer, and says how long its value is.
#[unsafe(no_mangle)]
pub extern "C" fn fstch_next(
    handle: &mut Handle,
    alloc: Global,
    from: &[u8],
    key: &mut [u8],
    key_len: &mut usize,
    value_len: &mut usize,
) -> i32
    ensures same { handle.new.sealed.opened ≡ handle.old.sealed.opened }
    ensures not_open { (result ≡ NOT_OPEN) ↔ IsFalse handle.old.is_open }
    ensures closed { StaysClosed handle.old handle.new }
    ensures found { IfSome handle.old.sealed.opened (λ opened. (h : History) → IsStoreOf opened.store h →
        HasFound (IsNextOf h from.now) key.old key_len.old value_len.old (result, key.new, key_len.new, value_len.new)) }
    ensures refused { IsFalse handle.old.is_open
        → (key.new ≡ key.old) × (key_len.new ≡ key_len.old) × (value_len.new ≡ value_len.old) }
{
    let Some(opened) = handle.take(alloc) else {
        return NOT_OPEN;
    };
    let answer = opened.next(from, key, key_len, value_len);
    handle.put_back(opened);
    answer.number()
}

/// Copies the greatest key below one to the front of a buffer, and says how long its value is.
#[unsafe(no_mangle)]
pub extern "C" fn fstch_previous(
    handle: &mut Handle,
    alloc: Global,
    before: &[u8],
    key: &mut [u8],
    key_len: &mut usize,
    value_len: &mut usize,
) -> i32
    ensures same { handle.new.sealed.opened ≡ handle.old.sealed.opened }
    ensures not_open { (result ≡ NOT_OPEN) ↔ IsFalse handle.old.is_open }
    ensures closed { StaysClosed handle.old handle.new }
    ensures found { IfSome handle.old.sealed.opened (λ opened. (h : History) → IsStoreOf opened.store h →
        HasFound (IsPreviousOf h (Some before.now)) key.old key_len.old value_len.old (result, key.new, key_len.new, value_len.new)) }
    ensures refused { IsFalse handle.old.is_open
        → (key.new ≡ key.old) × (key_len.new ≡ key_len.old) × (value_len.new ≡ value_len.old) }
{
    let Some(opened) = handle.take(alloc) else {
        return NOT_OPEN;
    };
    let answer = opened.previous(Some(before), key, key_len, value_len);
    handle.put_back(opened);
    answer.number()
}

/// Copies the greatest key of all to the front of a buffer, and says how long its value is.
#[unsafe(no_mangle)]
pub extern "C" fn fstch_last(
    handle: &mut Handle,
    alloc: Global,
    key: &mut [u8],
    key_len: &mut usize,
    value_len: &mut usize,
) -> i32
    ensures same { handle.new.sealed.opened ≡ handle.old.sealed.opened }
    ensures not_open { (result ≡ NOT_OPEN) ↔ IsFalse handle.old.is_open }
    ensures closed { StaysClosed handle.old handle.new }
    ensures found { IfSome handle.old.sealed.opened (λ opened. (h : History) → IsStoreOf opened.store h →
        HasFound (IsPreviousOf h None) key.old key_len.old value_len.old (result, key.new, key_len.new, value_len.new)) }
    ensures refused { IsFalse handle.old.is_open
        → (key.new ≡ key.old) × (key_len.new ≡ key_len.old) × (value_len.new ≡ value_len.old) }
{
    let Some(opened) = handle.take(alloc) else {
        return NOT_OPEN;
    };
    let answer = opened.previous(None, key, key_len, value_len);
    handle.put_back(opened);
    answer.number()
}

//! The line of a key.
ghost use Rattle.std.specs.Prelude.{ℕ, ◌≡◌, ◌++◌, IfOk, OnOk, string_bytes};
ghost use Rattle.patch_index.specs.Reporting.{reported};
ghost use Rattle.patch_listing.specs.Listing.{OfContent, OfValue, entry_text, value_text, line_of};

use patch_disks::Stop;
use patch_model::Refuses;
use patch_script::push_hex;
use patch_store::{EntryReport, Store, laws as store_laws};
use std::alloc::{AllocError, Global};

/// The value of a key that has one.
fn value_of(alloc: Global, store: &Store, key: &[u8]) -> Result<Vec<u8>, Stop>
    ensures { OfValue store.now key.now (λ value. IfOk result (λ v. v.items ≡ value)) }
{
    store_laws::closed_disks_open();
    match store.get(key) {
        Ok(Some(value)) => Ok(value),
        Ok(None) => Ok(Vec::new(alloc)),
        Err(refusal) => Err(Stop::Refused(refusal.refusal())),
    }
}

/// Writes a value behind a space, if it has bytes.
fn push_value(alloc: Global, line: &mut String, value: &[u8]) -> Result<(), AllocError>
    ensures { OnOk result (string_bytes line.new ≡ string_bytes line.old ++ value_text value.now) }
{
    if value.is_empty() {
        return Ok(());
    }
    push_hex(alloc, line, " ", value)
}

/// A key, and the length of its value.
fn begin_line(alloc: Global, entry: &EntryReport) -> Result<String, AllocError>
    ensures { IfOk result (λ line. string_bytes line ≡ entry_text (reported entry.now)) }
{
    let mut line = String::new(alloc);
    push_hex(alloc, &mut line, "", entry.key.as_slice())?;
    let length = entry.length;
    write!(line, " {length}")?;
    Ok(line)
}

/// The line of a key: the key, the length of its value, and the value where it is wanted.
pub(crate) fn key_line(
    alloc: Global,
    store: &Store,
    entry: &EntryReport,
    values: bool,
) -> Result<String, Stop>
    ensures { OfContent store.now (reported entry.now) (λ c. IfOk result (λ line. string_bytes line ≡ line_of values c)) }
{
    let mut line = begin_line(alloc, entry)?;
    if values {
        let value = value_of(alloc, store, entry.key.as_slice())?;
        push_value(alloc, &mut line, value.as_slice())?;
    }
    line.push_str("\n")?;
    Ok(line)
}

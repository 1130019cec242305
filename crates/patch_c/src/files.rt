//! Files: what a new one holds, and how the store of one is opened and closed. The program in C makes, opens and closes the files.
ghost use Rattle.std.specs.Prelude.{◌≡◌, ◌≢◌, ◌↔◌, IsTrue, IsFalse, IfSome, false};
ghost use Rattle.patch_handles.specs.Answering.{IsOf};
ghost use Rattle.patch_c.specs.Handle.{IsZeros, StaysClosed};
ghost use Rattle.patch_c.specs.Opening.{IsFresh, TellsWhyNot, AnswersMaking, HasMade, geometry_for as geometry_of};

use crate::handle::Handle;
use crate::opening::{geometry_for, make_first, open_bytes};
use patch_handles::{DONE, IS_OPEN, NOT_OPEN};
use std::alloc::Global;

/// `FSTCH_VERSION`.
const VERSION: u32 = 400;

/// What `fstch_core_file` answers where no store is open.
const NO_FILE: i32 = -1;

/// The first block of a file that holds an empty store, and how many blocks the file has. All others are zeros.
#[unsafe(no_mangle)]
pub extern "C" fn fstch_core_make(
    alloc: Global,
    index_blocks: u32,
    extents: u32,
    extent_blocks: u32,
    into: &mut [u8],
    blocks: &mut u32,
) -> i32
    ensures answered { IsOf result (AnswersMaking (geometry_of index_blocks extents extent_blocks) into.old) }
    ensures made { result ≡ DONE → HasMade (geometry_of index_blocks extents extent_blocks) into.old into.new blocks.new }
    ensures refused { result ≢ DONE → (into.new ≡ into.old) × (blocks.new ≡ blocks.old) }
{
    let geometry = geometry_for(index_blocks, extents, extent_blocks);
    make_first(alloc, geometry, into, blocks).number()
}

/// Opens the store of a file that holds these bytes and no others. It is kept whether the file is to be synced at each barrier, and
/// whether extents are won back by a reclaim alone.
#[unsafe(no_mangle)]
pub extern "C" fn fstch_core_open(
    handle: &mut Handle,
    alloc: Global,
    file: i32,
    barriers: bool,
    manual: bool,
    bytes: &[u8],
    slot: &mut u32,
) -> i32
    ensures is_open { (result ≡ IS_OPEN) ↔ IsTrue handle.old.is_open }
    ensures opened { result ≡ DONE → IsTrue handle.new.is_open }
    ensures fresh { result ≡ DONE → IfSome handle.new.sealed.opened (IsFresh file barriers manual bytes.now) }
    ensures refused { result ≢ DONE → handle.new ≡ handle.old }
    ensures slot { result ≡ DONE → slot.new ≡ slot.old }
    ensures slot_kept { IsTrue handle.old.is_open → slot.new ≡ slot.old }
    ensures why { IsFalse handle.old.is_open → result ≢ DONE → TellsWhyNot bytes.now result slot.old slot.new }
{
    if handle.is_open {
        return IS_OPEN;
    }
    match open_bytes(alloc, file, barriers, manual, bytes) {
        Ok(opened) => {
            handle.put_back(opened);
            DONE
        }
        Err(why) => {
            why.tell_number(slot);
            why.answer().number()
        }
    }
}

/// The number of the file whose store is open.
#[unsafe(no_mangle)]
pub extern "C" fn fstch_core_file(handle: &mut Handle, alloc: Global) -> i32
    ensures same { handle.new.sealed.opened ≡ handle.old.sealed.opened }
    ensures open { handle.new.is_open ≡ handle.old.is_open }
    ensures file { IfSome handle.old.sealed.opened (λ opened. result ≡ opened.file) }
    ensures none { IsFalse handle.old.is_open → result ≡ NO_FILE }
    ensures closed { StaysClosed handle.old handle.new }
{
    let Some(opened) = handle.take(alloc) else {
        return NO_FILE;
    };
    let file = opened.file;
    handle.put_back(opened);
    file
}

/// Whether the file of the store is to be synced at each barrier. Where no store is open it is not.
#[unsafe(no_mangle)]
pub extern "C" fn fstch_core_barriers(handle: &mut Handle, alloc: Global) -> bool
    ensures same { handle.new.sealed.opened ≡ handle.old.sealed.opened }
    ensures open { handle.new.is_open ≡ handle.old.is_open }
    ensures barriers { IfSome handle.old.sealed.opened (λ opened. result ≡ opened.barriers) }
    ensures none { IsFalse handle.old.is_open → result ≡ false }
    ensures closed { StaysClosed handle.old handle.new }
{
    let Some(opened) = handle.take(alloc) else {
        return false;
    };
    let barriers = opened.barriers;
    handle.put_back(opened);
    barriers
}

/// Closes a store, and writes nothing.
#[unsafe(no_mangle)]
pub extern "C" fn fstch_core_close(handle: &mut Handle, alloc: Global) -> i32
    ensures zeros { IsZeros handle.new }
    ensures done { (result ≡ DONE) ↔ IsTrue handle.old.is_open }
    ensures not_open { (result ≡ NOT_OPEN) ↔ IsFalse handle.old.is_open }
{
    match handle.take(alloc) {
        Some(_opened) => DONE,
        None => NOT_OPEN,
    }
}

/// Whether a store is open.
#[unsafe(no_mangle)]
pub extern "C" fn fstch_is_open(handle: &Handle) -> bool
    ensures { result ≡ handle.now.is_open }
{
    handle.is_open
}

/// The version of the interface.
#[unsafe(no_mangle)]
pub extern "C" fn fstch_version() -> u32
    ensures { result ≡ VERSION }
{
    VERSION
}

//! What can be read of blocks that hold no store because slots of the index are wrong.
ghost use Rattle.std.specs.Prelude.{◌≡◌, ◌+◌, ◌≤◌, ℕ, map, option_and_then, IfOk, IfErr};
ghost use Rattle.patch_frame.specs.Superblock.{superblock_at};
ghost use Rattle.patch_history.specs.Refusals.{fault_of, open_cause};
ghost use Rattle.patch_history.specs.declared.refusals.OpenFault.{OpenFault};
ghost use Rattle.patch_index.specs.Reporting.{reported};
ghost use Rattle.patch_disks.specs.Stopping.{TellsTest};
ghost use Rattle.patch_disks.specs.Surveying.{slot_in, key_under, key_named, without_slot, IsBad, HasEntries, IsSurvey};
ghost use Rattle.patch_disks.specs.declared.endings.Stop.TheVariants.{Refused};

use crate::endings::Stop;
use crate::opening::{Barriers, open_blocks, store_of};
use patch_device::copy_blocks;
use patch_frame::{
    SLOT_BYTES, SlotState, read_slot_within, read_superblock, slot_block, slot_start,
};
use patch_index::MAX_SLOTS;
use patch_model::{BLOCK, BlockBytes, Bytes, OutOfMemory, Refusal, RefusalKind};
use patch_store::EntryReport;
use std::alloc::Global;
use std::fs::OpenFile;
use std::os::unix::fs::FileExt;
use std::rt::Files;

/// A slot of the index that is wrong.
#[derive(Drop)]
pub struct BadSlot {
    /// What opening refuses it for: `BadSlot`, `BadFrame` or `DuplicateKey`, with its number.
    pub why: Refusal,
    /// The key that it names, if it says what a slot may say.
    pub key: Option<Bytes>,
}

/// What is found where slots of the index are wrong.
#[derive(Drop)]
pub struct Survey {
    /// The slots that are wrong, each as it is found where those before it are empty.
    pub bad: Vec<BadSlot>,
    /// The keys that can be read, in the order of the slots, with the lengths of their values.
    pub entries: Vec<EntryReport>,
}

/// The slot that a disk is refused for, if it is one.
fn slot_of(why: Refusal) -> Option<u32>
    ensures { (fault : OpenFault) → why ≡ open_cause fault → result ≡ option_and_then slot_in (fault_of fault) }
{
    match why.kind {
        RefusalKind::BadSlot | RefusalKind::BadFrame | RefusalKind::DuplicateKey => why.number,
        _ => None,
    }
}

/// The key of the slot that begins there in its block, where the first block of the disk is this.
fn key_at(
    alloc: Global,
    first: &BlockBytes,
    block: &BlockBytes,
    start: usize,
) -> Result<Option<Bytes>, OutOfMemory>
    requires { start + SLOT_BYTES ≤ BLOCK }
    ensures { IfOk result (λ key. key ≡ key_under (superblock_at first.now) start block.now) }
{
    let Ok(geometry) = read_superblock(first.as_slice()) else {
        return Ok(None);
    };
    let bytes = &block.as_slice()[start..start + SLOT_BYTES];
    let Ok(state) = read_slot_within(bytes, geometry.format.longest_frame()) else {
        return Ok(None);
    };
    let SlotState::Used(named) = state else {
        return Ok(None);
    };
    Ok(Some(Bytes::from_slice(alloc, named.key)?))
}

/// The key that a slot names, if it says what a slot may say.
fn key_in(alloc: Global, blocks: &[BlockBytes], slot: u32) -> Result<Option<Bytes>, OutOfMemory>
    ensures { IfOk result (λ key. key ≡ key_named blocks.now slot) }
{
    let Some(first) = blocks.get(0) else {
        return Ok(None);
    };
    let Some(block) = blocks.get(slot_block(slot) as usize) else {
        return Ok(None);
    };
    key_at(alloc, first, block, slot_start(slot))
}

/// Makes a slot an empty one.
fn clear(blocks: &mut Vec<BlockBytes>, slot: u32)
    ensures { blocks.new.items ≡ without_slot blocks.old.items slot }
{
    let block = slot_block(slot) as usize;
    if block < blocks.len() {
        blocks[block].write(slot_start(slot), &[0; SLOT_BYTES]);
    }
}

/// Takes the slot out that the blocks are refused for.
fn take_out(alloc: Global, blocks: &mut Vec<BlockBytes>, why: Refusal) -> Result<BadSlot, Stop>
    ensures { TellsTest blocks.old.items (Refused why) → IfOk result (λ bad.
        (slot : ℕ) × IsBad blocks.old.items slot bad × (blocks.new.items ≡ without_slot blocks.old.items slot)) }
{
    let Some(slot) = slot_of(why) else {
        return Err(Stop::Refused(why));
    };
    let key = key_in(alloc, blocks.as_slice(), slot)?;
    clear(blocks, slot);
    Ok(BadSlot { why, key })
}

/// What the store of these blocks holds.
fn entries_on(alloc: Global, blocks: Vec<BlockBytes>) -> Result<Vec<EntryReport>, Stop>
    ensures entries { IfOk result (λ entries. HasEntries blocks.items (map reported entries.items)) }
    ensures kind { IfErr result (TellsTest blocks.items) }
{
    let store = store_of(alloc, blocks)?;
    let report = store.check();
    drop(store);
    Ok(report?.entries)
}

/// The slots that are wrong, and the keys that can be read without them. Blocks whose superblock, pointers or number are wrong are refused
/// as they are where they are opened.
pub fn survey_blocks(alloc: Global, blocks: Vec<BlockBytes>) -> Result<Survey, Stop>
    ensures { IfOk result (λ found. IsSurvey blocks.items found.bad.items (map reported found.entries.items)) }
{
    let mut left = blocks;
    let mut bad = Vec::new(alloc);
    for _ in 0..=MAX_SLOTS {
        match entries_on(alloc, copy_blocks(alloc, left.as_slice())?) {
            Ok(entries) => return Ok(Survey { bad, entries }),
            Err(Stop::Refused(why)) => bad.push(take_out(alloc, &mut left, why)?)?,
            Err(stop) => return Err(stop),
        }
    }
    Err(Stop::Refused(RefusalKind::BadSlot.bare()))
}

/// The same of the blocks of a file.
pub fn survey_file<F: FileExt + OpenFile + Drop, R: Files<File = F>>(
    rt: &R,
    alloc: Global,
    path: &str,
) -> Result<Survey, Stop> {
    let (device, blocks) = open_blocks(rt, alloc, path, Barriers::On)?;
    drop(device);
    survey_blocks(alloc, blocks)
}

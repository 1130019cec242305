//! How the file of a store is made, and opened.
ghost use Rattle.std.specs.Prelude.{◌≡◌, ◌≢◌, [], length, IfOk, IfErr};
ghost use Rattle.patch_device.specs.Blocks.{FitsFile};
ghost use Rattle.patch_store.specs.Opening.{IsOpened};
ghost use Rattle.patch_c.specs.Opening.{IsFresh, IsTested, IsWhyNot, AnswersMaking, HasMade, geometry_for};

use crate::file_blocks::{Given, blocks_in};
use crate::held_blocks::HeldBlocks;
use crate::opened::{Opened, Tally};
use crate::tape::Tape;
use crate::unopened::Unopened;
use patch_cache::Cache;
use patch_frame::{Format, Geometry, write_superblock};
use patch_handles::{Answer, copy_out};
use patch_model::{BLOCK, BlockBytes, RefusalKind, Refuses};
use patch_store::Store;
use std::alloc::Global;

/// The store of these blocks.
#[tactic(auto, using(crate::proofs::Refused::starved_tested, crate::proofs::Refused::tested_so))]
fn open_store(alloc: Global, blocks: Vec<BlockBytes>) -> Result<Store, Unopened>
    requires { FitsFile (length blocks.items) }
    ensures opened { IfOk result (λ store. IsOpened blocks.items store) }
    ensures no_steps { IfOk result (λ store. store.cache.trace ≡ []) }
    ensures why { IfErr result (λ why. IsTested blocks.items why.refusal) }
{
    let cache = Cache::open(alloc, blocks)?;
    match Store::open(alloc, cache) {
        Ok(store) => Ok(store),
        Err((_, fault)) => Err(Unopened::of(fault.refusal())),
    }
}

/// The store of a file's bytes, on the heap.
#[tactic(auto, using(crate::proofs::Refused::starved_why, crate::proofs::Refused::tested_why, crate::proofs::Refused::passed_why, crate::proofs::Staying::whole_so))]
pub fn open_bytes(
    alloc: Global,
    file: i32,
    barriers: bool,
    manual: bool,
    bytes: &[u8],
) -> Result<Box<Opened, Global>, Unopened>
    ensures fresh { IfOk result (λ opened. IsFresh file barriers manual bytes.now opened.value) }
    ensures why { IfErr result (λ why. IsWhyNot bytes.now why.refusal) }
{
    let blocks = blocks_in(alloc, bytes)?;
    let count = blocks.len() as u32;
    let given = Given { blocks };
    let holding = HeldBlocks::of(&given);
    let Given { blocks } = given;
    let store = open_store(alloc, blocks)?;
    let device = Tape::new(alloc, holding, count);
    Ok(Box::new(
        alloc,
        Opened {
            store,
            device,
            file,
            barriers,
            manual,
            tally: Tally { syncs: 0, waves: 0 },
            is_spent: false,
        },
    )?)
}

/// How a new disk is divided: with no length of its extents it is of version 1.
pub fn geometry_for(index: u32, extents: u32, extent_blocks: u32) -> Geometry
    ensures { result ≡ geometry_for index extents extent_blocks }
{
    let format = if extent_blocks == 0 {
        Format::One
    } else {
        Format::Two {
            length: extent_blocks,
        }
    };
    Geometry {
        index,
        extents,
        format,
    }
}

/// Copies the first block of a new disk to the front of a buffer, and counts the blocks. The others are zeros.
#[tactic(auto, using(crate::proofs::Made::made_so, crate::proofs::Made::kept_so))]
pub fn make_first(alloc: Global, geometry: Geometry, into: &mut [u8], count: &mut u32) -> Answer
    ensures answered { AnswersMaking geometry into.old result }
    ensures made { result ≡ Answer.Done → HasMade geometry into.old into.new count.new }
    ensures refused { result ≢ Answer.Done → (into.new ≡ into.old) × (count.new ≡ count.old) }
{
    if !geometry.is_valid() {
        return Answer::Refused(RefusalKind::Geometry);
    }
    if into.len() < BLOCK {
        return Answer::BufferTooSmall;
    }
    let Ok(first) = write_superblock(alloc, geometry) else {
        return Answer::Refused(RefusalKind::OutOfMemory);
    };
    let mut len = 0;
    let answer = copy_out(first.as_slice(), into, &mut len);
    if answer == Answer::Done {
        *count = geometry.block_count();
    }
    answer
}

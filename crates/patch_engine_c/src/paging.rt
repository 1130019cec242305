//! How blocks become resident and are let go.
ghost use Rattle.std.specs.Prelude.{◌≡◌, ◌↔◌, IsFalse};
ghost use Rattle.patch_handles.specs.Answering.{number_of};
ghost use Rattle.patch_engine_c.specs.Handle.{StaysClosed, Between};
ghost use Rattle.patch_engine_c.specs.Paging.{admit_answer, TellsAdmitting, TellsEvicting};

use crate::handle::Handle;
use crate::opened::Opened;
use patch_engine::AdmitRefusal;
use patch_handles::{Answer, NOT_OPEN, told};
use patch_model::{BLOCK, BlockBytes, BlockNo, RefusalKind};
use std::alloc::Global;

fn admit_answer(refusal: AdmitRefusal) -> Answer
    ensures { result ≡ admit_answer refusal }
{
    match refusal {
        AdmitRefusal::NoSuchBlock => Answer::Refused(RefusalKind::NoSuchBlock),
        AdmitRefusal::IsResident => Answer::IsResident,
        AdmitRefusal::OutOfMemory => Answer::Refused(RefusalKind::OutOfMemory),
    }
}

impl Opened {
    fn admit(&mut self, alloc: Global, block: u32, bytes: &[u8]) -> Answer
        ensures { TellsAdmitting (number_of result) block bytes.now self.old.engine self.new.engine }
    {
        if bytes.len() < BLOCK {
            return Answer::BufferTooSmall;
        }
        let Ok(bytes) = BlockBytes::from_slice(alloc, &bytes[..BLOCK]) else {
            return Answer::Refused(RefusalKind::OutOfMemory);
        };
        match self.engine.admit(BlockNo(block), bytes) {
            Ok(()) => Answer::Done,
            Err(refusal) => admit_answer(refusal),
        }
    }

    fn evict(&mut self, block: u32) -> Answer
        ensures { TellsEvicting (number_of result) block self.old.engine self.new.engine }
    {
        told(self.engine.evict(BlockNo(block)))
    }
}

/// Makes a block resident, of which these are the first 4,096 bytes: those that the disk has, with every patch that is durable. Nothing
/// tests that they are.
#[unsafe(no_mangle)]
pub extern "C" fn fstch_core_cache_admit(
    handle: &mut Handle,
    alloc: Global,
    block: u32,
    bytes: &[u8],
) -> i32
    ensures open { handle.new.is_open ≡ handle.old.is_open }
    ensures not_open { (result ≡ NOT_OPEN) ↔ IsFalse handle.old.is_open }
    ensures closed { StaysClosed handle.old handle.new }
    ensures told { Between handle.old handle.new (TellsAdmitting result block bytes.now) }
{
    let Some(mut opened) = handle.take(alloc) else {
        return NOT_OPEN;
    };
    let answer = opened.admit(alloc, block, bytes);
    handle.put_back(opened);
    answer.number()
}

/// Lets a block go of which no patch is in memory or in flight, and all memory that it took.
#[unsafe(no_mangle)]
pub extern "C" fn fstch_cache_evict(handle: &mut Handle, alloc: Global, block: u32) -> i32
    ensures open { handle.new.is_open ≡ handle.old.is_open }
    ensures not_open { (result ≡ NOT_OPEN) ↔ IsFalse handle.old.is_open }
    ensures closed { StaysClosed handle.old handle.new }
    ensures told { Between handle.old handle.new (TellsEvicting result block) }
{
    let Some(mut opened) = handle.take(alloc) else {
        return NOT_OPEN;
    };
    let answer = opened.evict(block);
    handle.put_back(opened);
    answer.number()
}

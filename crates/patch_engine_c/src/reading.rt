//! What is read of blocks, with all their patches and without some.
ghost use Rattle.std.specs.Prelude.{◌≡◌, ◌↔◌, IsFalse};
ghost use Rattle.patch_engine.specs.Refusals.{without_cause};
ghost use Rattle.patch_handles.specs.Answering.{number_of};
ghost use Rattle.patch_engine_c.specs.Handle.{StaysClosed, Between, OfCache};
ghost use Rattle.patch_engine_c.specs.Reading.{which_told, TellsReading, TellsWithout};

use crate::handle::Handle;
use crate::numbers::patches_of;
use crate::opened::Opened;
use patch_engine::WithoutRefusal;
use patch_handles::{Answer, NOT_OPEN, copy_out, refused};
use patch_model::{BlockNo, RefusalKind, Refuses, laws as model_laws};
use std::alloc::Global;

/// The answer where bytes aren't shown without some patches. The number of the patch that stands in the way is set, if one does.
fn unshown(refusal: WithoutRefusal, which: &mut u32) -> Answer
    ensures answer { result ≡ Answer.Refused (without_cause refusal).kind }
    ensures which { which.new ≡ which_told refusal which.old }
{
    match refusal {
        WithoutRefusal::Unread(unread) => Answer::Refused(unread.kind()),
        WithoutRefusal::Untaken(untaken) => refused(untaken.refusal(), which),
    }
}

impl Opened {
    fn read(&self, block: u32, start: usize, into: &mut [u8]) -> Answer
        ensures { TellsReading (number_of result) block start into.old into.new self.now.engine }
    {
        model_laws::executions_are_orderly();
        match self.engine.read(BlockNo(block), start, into.len()) {
            Ok(bytes) => {
                let mut len = 0;
                copy_out(bytes, into, &mut len)
            }
            Err(refusal) => Answer::Refused(refusal.kind()),
        }
    }

    fn without(
        &mut self,
        alloc: Global,
        block: u32,
        patches: &[u32],
        start: usize,
        into: &mut [u8],
        which: &mut u32,
    ) -> Answer
        ensures { TellsWithout (number_of result) block patches.now start into.old into.new which.old which.new self.old.engine self.new.engine }
    {
        let Ok(patches) = patches_of(alloc, patches) else {
            return Answer::Refused(RefusalKind::OutOfMemory);
        };
        match self.engine.without(BlockNo(block), &patches, start, into) {
            Ok(()) => Answer::Done,
            Err(refusal) => unshown(refusal, which),
        }
    }
}

/// Copies the bytes of a block from `start` on, as many as there is room for, with all its patches.
#[unsafe(no_mangle)]
pub extern "C" fn fstch_core_cache_read(
    handle: &mut Handle,
    alloc: Global,
    block: u32,
    start: usize,
    into: &mut [u8],
) -> i32
    ensures same { handle.new.sealed.opened ≡ handle.old.sealed.opened }
    ensures not_open { (result ≡ NOT_OPEN) ↔ IsFalse handle.old.is_open }
    ensures closed { StaysClosed handle.old handle.new }
    ensures told { OfCache handle.old (TellsReading result block start into.old into.new) }
    ensures refused { IsFalse handle.old.is_open → into.new ≡ into.old }
{
    let Some(opened) = handle.take(alloc) else {
        return NOT_OPEN;
    };
    let answer = opened.read(block, start, into);
    handle.put_back(opened);
    answer.number()
}

/// Copies the same without the classes of these patches, each taken back behind those that depend on it; all are put back before the call
/// returns.
#[unsafe(no_mangle)]
pub extern "C" fn fstch_core_cache_without(
    handle: &mut Handle,
    alloc: Global,
    block: u32,
    patches: &[u32],
    start: usize,
    into: &mut [u8],
    which: &mut u32,
) -> i32
    ensures open { handle.new.is_open ≡ handle.old.is_open }
    ensures not_open { (result ≡ NOT_OPEN) ↔ IsFalse handle.old.is_open }
    ensures closed { StaysClosed handle.old handle.new }
    ensures told { Between handle.old handle.new (TellsWithout result block patches.now start into.old into.new which.old which.new) }
    ensures refused { IsFalse handle.old.is_open → (into.new ≡ into.old) × (which.new ≡ which.old) }
{
    let Some(mut opened) = handle.take(alloc) else {
        return NOT_OPEN;
    };
    let answer = opened.without(alloc, block, patches, start, into, which);
    handle.put_back(opened);
    answer.number()
}

//! What a cache counts, and how far a patch has come.
ghost use Rattle.std.specs.Prelude.{◌≡◌, ◌↔◌, IsFalse};
ghost use Rattle.patch_handles.specs.Answering.{number_of};
ghost use Rattle.patch_engine_c.specs.Handle.{StaysClosed, OfCache};
ghost use Rattle.patch_engine_c.specs.Counting.{TellsMark, TellsCounts};

use crate::handle::Handle;
use crate::numbers::mark_number;
use crate::opened::Opened;
use patch_handles::{Answer, NOT_OPEN};
use patch_model::{PatchNo, RefusalKind};
use std::alloc::Global;

impl Opened {
    fn mark(&self, patch: u32, mark: &mut u32) -> Answer
        ensures { TellsMark (number_of result) patch mark.old mark.new self.now.engine }
    {
        let Some(is) = self.engine.mark_of(PatchNo(patch)) else {
            return Answer::Refused(RefusalKind::Unknown);
        };
        *mark = mark_number(is);
        Answer::Done
    }

    fn count(
        &self,
        blocks: &mut u32,
        made: &mut u32,
        live: &mut u32,
        durable_below: &mut u32,
    ) -> Answer
        ensures { TellsCounts (number_of result) blocks.new made.new live.new durable_below.new self.now.engine }
    {
        *blocks = self.engine.blocks();
        *made = self.engine.made();
        *live = self.engine.live();
        *durable_below = self.engine.durable_below();
        Answer::Done
    }
}

/// Tells how far a patch has come: 0 in memory, 1 in flight, 2 durable.
#[unsafe(no_mangle)]
pub extern "C" fn fstch_cache_mark(
    handle: &mut Handle,
    alloc: Global,
    patch: u32,
    mark: &mut u32,
) -> i32
    ensures same { handle.new.sealed.opened ≡ handle.old.sealed.opened }
    ensures not_open { (result ≡ NOT_OPEN) ↔ IsFalse handle.old.is_open }
    ensures closed { StaysClosed handle.old handle.new }
    ensures told { OfCache handle.old (TellsMark result patch mark.old mark.new) }
    ensures refused { IsFalse handle.old.is_open → mark.new ≡ mark.old }
{
    let Some(opened) = handle.take(alloc) else {
        return NOT_OPEN;
    };
    let answer = opened.mark(patch, mark);
    handle.put_back(opened);
    answer.number()
}

/// Counts the blocks, the patches that were made, and those that are live; and tells a number below which all patches are durable.
#[unsafe(no_mangle)]
pub extern "C" fn fstch_cache_counts(
    handle: &mut Handle,
    alloc: Global,
    blocks: &mut u32,
    made: &mut u32,
    live: &mut u32,
    durable_below: &mut u32,
) -> i32
    ensures same { handle.new.sealed.opened ≡ handle.old.sealed.opened }
    ensures not_open { (result ≡ NOT_OPEN) ↔ IsFalse handle.old.is_open }
    ensures closed { StaysClosed handle.old handle.new }
    ensures told { OfCache handle.old (TellsCounts result blocks.new made.new live.new durable_below.new) }
    ensures refused { IsFalse handle.old.is_open → (blocks.new ≡ blocks.old) × (made.new ≡ made.old) }
    ensures kept { IsFalse handle.old.is_open → (live.new ≡ live.old) × (durable_below.new ≡ durable_below.old) }
{
    let Some(opened) = handle.take(alloc) else {
        return NOT_OPEN;
    };
    let answer = opened.count(blocks, made, live, durable_below);
    handle.put_back(opened);
    answer.number()
}

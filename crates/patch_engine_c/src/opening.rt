//! How a cache is opened, begins anew, and is closed.
ghost use Rattle.std.specs.Prelude.{◌≡◌, ◌↔◌, IsTrue, IsFalse, IfOk, IfErr};
ghost use Rattle.patch_cache.specs.Refusals.{IsCause};
ghost use Rattle.patch_engine.specs.Refusals.{why_not_opened};
ghost use Rattle.patch_handles.specs.Answering.{number_of};
ghost use Rattle.patch_engine_c.specs.Handle.{IsZeros, StaysClosed, Between};
ghost use Rattle.patch_engine_c.specs.Opening.{IsOpened, TellsOpening, TellsRenewing};

use crate::handle::Handle;
use crate::opened::Opened;
use patch_engine::Engine;
use patch_handles::{Answer, DONE, IS_OPEN, NOT_OPEN, told};
use patch_model::{OutOfMemory, Refusal, Refuses};
use std::alloc::Global;

/// An engine of so many blocks, on the heap.
fn open_engine(alloc: Global, blocks: u32) -> Result<Box<Opened, Global>, Refusal>
    ensures opened { IfOk result (λ opened. IsOpened blocks opened.value.engine) }
    ensures why { IfErr result (IsCause (why_not_opened blocks)) }
{
    match Engine::open(alloc, blocks) {
        Ok(engine) => match Box::new(alloc, Opened { engine }) {
            Ok(opened) => Ok(opened),
            Err(_) => Err(OutOfMemory.refusal()),
        },
        Err(refusal) => Err(refusal.refusal()),
    }
}

impl Opened {
    fn renew(&mut self) -> Answer
        ensures { TellsRenewing (number_of result) self.old.engine self.new.engine }
    {
        told(self.engine.renew())
    }
}

/// Opens a cache of so many blocks, of which none is resident.
#[unsafe(no_mangle)]
pub extern "C" fn fstch_cache_open(handle: &mut Handle, alloc: Global, blocks: u32) -> i32
    ensures is_open { (result ≡ IS_OPEN) ↔ IsTrue handle.old.is_open }
    ensures told { IsFalse handle.old.is_open → TellsOpening result blocks handle.old handle.new }
    ensures kept { IsTrue handle.old.is_open → handle.new ≡ handle.old }
{
    if handle.is_open {
        return IS_OPEN;
    }
    match open_engine(alloc, blocks) {
        Ok(opened) => {
            handle.put_back(opened);
            DONE
        }
        Err(refusal) => Answer::Refused(refusal.kind).number(),
    }
}

/// Begins anew: the numbers of patches, of writes and of groups begin at 0 again. The resident blocks stay, with their bytes.
#[unsafe(no_mangle)]
pub extern "C" fn fstch_cache_renew(handle: &mut Handle, alloc: Global) -> i32
    ensures open { handle.new.is_open ≡ handle.old.is_open }
    ensures not_open { (result ≡ NOT_OPEN) ↔ IsFalse handle.old.is_open }
    ensures closed { StaysClosed handle.old handle.new }
    ensures told { Between handle.old handle.new (TellsRenewing result) }
{
    let Some(mut opened) = handle.take(alloc) else {
        return NOT_OPEN;
    };
    let answer = opened.renew();
    handle.put_back(opened);
    answer.number()
}

/// Closes a cache, whatever is in memory or in flight, and lets all its memory go.
#[unsafe(no_mangle)]
pub extern "C" fn fstch_cache_close(handle: &mut Handle, alloc: Global) -> i32
    ensures zeros { IsZeros handle.new }
    ensures done { (result ≡ DONE) ↔ IsTrue handle.old.is_open }
    ensures not_open { (result ≡ NOT_OPEN) ↔ IsFalse handle.old.is_open }
{
    match handle.take(alloc) {
        Some(_opened) => DONE,
        None => NOT_OPEN,
    }
}

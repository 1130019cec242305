//! How a write of a block begins, what goes to the disk, and how it ends.
//!
//! What holds of each image, and of what a crash leaves while writes are out, is the contract of [`promise`](crate::laws::promise).
ghost use Rattle.std.specs.Prelude.{◌≡◌, ◌↔◌, IsFalse};
ghost use Rattle.patch_handles.specs.Answering.{number_of};
ghost use Rattle.patch_engine_c.specs.Handle.{StaysClosed, Between, OfCache};
ghost use Rattle.patch_engine_c.specs.Writing.{TellsNext, TellsSending, TellsImage, TellsFlight, TellsCompleting};

use crate::handle::Handle;
use crate::numbers::{copy_numbers, number_of_block};
use crate::opened::Opened;
use patch_handles::{Answer, NOT_OPEN, copy_out, told};
use patch_model::{BLOCK, BlockNo, RefusalKind, Refuses};
use std::alloc::Global;

impl Opened {
    fn next_ready(&mut self, block: &mut u32) -> Answer
        ensures told { TellsNext (number_of result) block.old block.new self.old.engine }
        ensures same { self.new ≡ self.old }
    {
        let Some(ready) = self.engine.next_ready() else {
            return Answer::Refused(RefusalKind::NothingReady);
        };
        *block = number_of_block(ready);
        Answer::Done
    }

    fn send(&mut self, block: u32, number: &mut u32, image: &mut [u8]) -> Answer
        ensures { TellsSending (number_of result) block number.old number.new image.old image.new self.old.engine self.new.engine }
    {
        if image.len() < BLOCK {
            return Answer::BufferTooSmall;
        }
        match self.engine.send(BlockNo(block), &mut image[..BLOCK]) {
            Ok(begun) => {
                *number = begun;
                Answer::Done
            }
            Err(refusal) => Answer::Refused(refusal.kind()),
        }
    }

    fn image(&self, block: u32, number: u32, image: &mut [u8]) -> Answer
        ensures { TellsImage (number_of result) block number image.old image.new self.now.engine }
    {
        let Some(bytes) = self.engine.image(BlockNo(block), number) else {
            return Answer::Refused(RefusalKind::Stranger);
        };
        let mut len = 0;
        copy_out(bytes, image, &mut len)
    }

    fn flight(&self, block: u32, number: u32, patches: &mut [u32], count: &mut usize) -> Answer
        ensures { TellsFlight (number_of result) block number patches.old patches.new count.old count.new self.now.engine }
    {
        let Some(numbers) = self.engine.flight(BlockNo(block), number) else {
            return Answer::Refused(RefusalKind::Stranger);
        };
        copy_numbers(numbers, patches, count)
    }

    fn complete(&mut self, block: u32, number: u32) -> Answer
        ensures { TellsCompleting (number_of result) block number self.old.engine self.new.engine }
    {
        told(self.engine.complete(BlockNo(block), number))
    }
}

/// Tells the least block of which a write can begin now.
#[unsafe(no_mangle)]
pub extern "C" fn fstch_cache_next(handle: &mut Handle, alloc: Global, block: &mut u32) -> i32
    ensures same { handle.new.sealed.opened ≡ handle.old.sealed.opened }
    ensures not_open { (result ≡ NOT_OPEN) ↔ IsFalse handle.old.is_open }
    ensures closed { StaysClosed handle.old handle.new }
    ensures told { OfCache handle.old (TellsNext result block.old block.new) }
    ensures refused { IsFalse handle.old.is_open → block.new ≡ block.old }
{
    let Some(mut opened) = handle.take(alloc) else {
        return NOT_OPEN;
    };
    let answer = opened.next_ready(block);
    handle.put_back(opened);
    answer.number()
}

/// Begins a write of a block, of all that may go to the disk of it together, and copies its image to the front of a buffer. The write is
/// held until it is completed. What its image holds, and what a crash leaves meanwhile, is said by [`promise`](crate::laws::promise).
#[unsafe(no_mangle)]
pub extern "C" fn fstch_cache_send(
    handle: &mut Handle,
    alloc: Global,
    block: u32,
    number: &mut u32,
    image: &mut [u8],
) -> i32
    ensures open { handle.new.is_open ≡ handle.old.is_open }
    ensures not_open { (result ≡ NOT_OPEN) ↔ IsFalse handle.old.is_open }
    ensures closed { StaysClosed handle.old handle.new }
    ensures told { Between handle.old handle.new (TellsSending result block number.old number.new image.old image.new) }
    ensures refused { IsFalse handle.old.is_open → (number.new ≡ number.old) × (image.new ≡ image.old) }
{
    let Some(mut opened) = handle.take(alloc) else {
        return NOT_OPEN;
    };
    let answer = opened.send(block, number, image);
    handle.put_back(opened);
    answer.number()
}

/// Copies the image of a write that is out, to be written again.
#[unsafe(no_mangle)]
pub extern "C" fn fstch_cache_image(
    handle: &mut Handle,
    alloc: Global,
    block: u32,
    number: u32,
    image: &mut [u8],
) -> i32
    ensures same { handle.new.sealed.opened ≡ handle.old.sealed.opened }
    ensures not_open { (result ≡ NOT_OPEN) ↔ IsFalse handle.old.is_open }
    ensures closed { StaysClosed handle.old handle.new }
    ensures told { OfCache handle.old (TellsImage result block number image.old image.new) }
    ensures refused { IsFalse handle.old.is_open → image.new ≡ image.old }
{
    let Some(opened) = handle.take(alloc) else {
        return NOT_OPEN;
    };
    let answer = opened.image(block, number, image);
    handle.put_back(opened);
    answer.number()
}

/// Copies the numbers of the patches of a write that is out, rising, and counts them.
#[unsafe(no_mangle)]
pub extern "C" fn fstch_cache_flight(
    handle: &mut Handle,
    alloc: Global,
    block: u32,
    number: u32,
    patches: &mut [u32],
    count: &mut usize,
) -> i32
    ensures same { handle.new.sealed.opened ≡ handle.old.sealed.opened }
    ensures not_open { (result ≡ NOT_OPEN) ↔ IsFalse handle.old.is_open }
    ensures closed { StaysClosed handle.old handle.new }
    ensures told { OfCache handle.old (TellsFlight result block number patches.old patches.new count.old count.new) }
    ensures refused { IsFalse handle.old.is_open → (patches.new ≡ patches.old) × (count.new ≡ count.old) }
{
    let Some(opened) = handle.take(alloc) else {
        return NOT_OPEN;
    };
    let answer = opened.flight(block, number, patches, count);
    handle.put_back(opened);
    answer.number()
}

/// Ends a write that the disk has: its patches are durable. That the disk has it is the caller's word; what
/// [`promise`](crate::laws::promise) says of a crash is said of what the disk then has.
#[unsafe(no_mangle)]
pub extern "C" fn fstch_cache_complete(
    handle: &mut Handle,
    alloc: Global,
    block: u32,
    number: u32,
) -> i32
    ensures open { handle.new.is_open ≡ handle.old.is_open }
    ensures not_open { (result ≡ NOT_OPEN) ↔ IsFalse handle.old.is_open }
    ensures closed { StaysClosed handle.old handle.new }
    ensures told { Between handle.old handle.new (TellsCompleting result block number) }
{
    let Some(mut opened) = handle.take(alloc) else {
        return NOT_OPEN;
    };
    let answer = opened.complete(block, number);
    handle.put_back(opened);
    answer.number()
}

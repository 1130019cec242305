//! Walks through the calls, memory taken and given back, and the names of refusals.
use patch_model::{BlockBytes, Named, OutOfMemory, PatchNo};
use patch_view::{BlockState, TakeRefusal};
use std::alloc::Allocator;
use std::fmt::Debug;
use std::process::Abort;

mod images;
mod memory;
mod names;
mod rests;
mod runs;
mod walks;

// Ends the test, telling both, unless what came is what is wanted. A call takes the prover less than `assert_eq!` where it stands.
fn expect_eq<T: PartialEq + Debug>(rt: &impl Abort, got: &T, want: &T) {
    assert_eq!(rt; *got, *want);
}

// A block of zeros.
fn bare<A: Allocator + Copy>(alloc: A) -> Result<BlockState<A>, OutOfMemory> {
    let first = BlockBytes::zeros(alloc)?;
    Ok(BlockState::of(alloc, first))
}

fn has_joint<A: Allocator + Clone>(
    block: &BlockState<A>,
    a: u32,
    b: u32,
) -> Result<bool, OutOfMemory> {
    let joint = block.joint(PatchNo(a), PatchNo(b))?;
    Ok(joint.is_some())
}

fn join_by<A: Allocator + Clone>(
    block: &mut BlockState<A>,
    a: u32,
    b: u32,
) -> Result<(), OutOfMemory> {
    let joint = block.joint(PatchNo(a), PatchNo(b))?;
    block.join_by(joint);
    Ok(())
}

// Lays a patch that can't be entered elsewhere, for want of memory there. Whether it is refused.
fn is_unentered<A: Allocator + Clone>(
    rt: &impl Abort,
    block: &mut BlockState<A>,
    no: u32,
    start: usize,
    bytes: &[u8],
) -> bool {
    assert!(rt; start <= 100 && bytes.len() <= 500);
    let mut asked = false;
    let laid = block.lay_if(
        PatchNo(no),
        start,
        bytes,
        Named::Listed(&[]),
        false,
        &mut asked,
        refuse,
    );
    assert!(rt; asked);
    laid.is_err()
}

fn refuse(asked: &mut bool) -> Result<(), OutOfMemory> {
    *asked = true;
    Err(OutOfMemory)
}

fn expect_taken(rt: &impl Abort, answer: Result<(), TakeRefusal>, want: Result<(), TakeRefusal>) {
    expect_eq(rt, &answer, &want);
}

// The first four of these bytes are the wanted ones.
fn expect_bytes(rt: &impl Abort, bytes: &[u8], want: [u8; 4]) {
    expect_eq(rt, &bytes.get(..4), &Some(want.as_slice()));
}

// A view that takes all shows these bytes. It is put right again.
fn expect_without_all(rt: &impl Abort, block: &mut BlockState, want: &[u8]) {
    let mut view = block.view();
    view.take_all();
    assert!(rt; view.bytes() == want);
    view.restore();
}

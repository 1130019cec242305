//! How bytes are cut into the parts of the blocks that they touch, and what the patches of a plan name.
ghost use Rattle.std.specs.Prelude.{◌≡◌, ◌+◌, ◌<◌, ◌≤◌, ◌^◌, ◌++◌, IfOk, option_to_list};
ghost use Rattle.std.specs.List.{range_with_len};
ghost use Rattle.patch_plans.specs.Planning.{touched, part_start, part_end};

use patch_model::{BLOCK, Names, Numbers, OutOfMemory, PatchNo};
use std::alloc::Allocator;

const BLOCK_BYTES: u32 = BLOCK as u32;

/// How many blocks a write of so many bytes touches: an append makes a data patch for each, and then its pointer patch.
pub fn touched(offset: u32, len: u32) -> u32
    requires some { 0 < len }
    requires fits { offset + len ≤ 2 ^ 31 }
    ensures { result ≡ touched offset len }
{
    (offset + len - 1) / BLOCK_BYTES - offset / BLOCK_BYTES + 1
}

/// Where the part in the `k`-th block touched begins.
pub(crate) fn part_start(offset: u32, k: u32) -> u32
    requires offset { offset ≤ 2 ^ 30 }
    requires k { k ≤ 2 ^ 16 }
    ensures { result ≡ part_start offset k }
{
    offset.max((offset / BLOCK_BYTES + k) * BLOCK_BYTES)
}

/// Where it ends.
pub(crate) fn part_end(offset: u32, len: u32, k: u32) -> u32
    requires offset { offset ≤ 2 ^ 30 }
    requires len { len ≤ 2 ^ 30 }
    requires k { k ≤ 2 ^ 16 }
    ensures { result ≡ part_end offset len k }
{
    (offset + len).min((offset / BLOCK_BYTES + k + 1) * BLOCK_BYTES)
}

/// These numbers, and behind them one more if there is one.
pub(crate) fn with_one_more<A: Allocator>(
    alloc: A,
    numbers: &[PatchNo],
    last: &Option<PatchNo>,
) -> Result<Names<A>, OutOfMemory>
    ensures { IfOk result (λ all. all ≡ numbers.now ++ option_to_list last.now) }
{
    if numbers.is_empty() {
        return Ok(Names::of_some(*last, None, None));
    }
    let mut all = Vec::with_capacity(alloc, numbers.len())?;
    all.extend_from_slice(numbers)?;
    if let Some(no) = last {
        all.push(*no)?;
    }
    Ok(Names::listed(Numbers::from_vec(all)))
}

/// So many numbers from this one on.
pub(crate) fn numbers_from<A: Allocator>(
    alloc: A,
    first: u32,
    count: u32,
) -> Result<Names<A>, OutOfMemory>
    requires { first + count < 2 ^ 32 }
    ensures { IfOk result (λ all. all ≡ range_with_len first count) }
{
    if count == 1 {
        return Ok(Names::of_some(Some(PatchNo(first)), None, None));
    }
    let mut all = Vec::with_capacity(alloc, count as usize)?;
    for k in 0..count {
        all.push(PatchNo(first + k))?;
    }
    Ok(Names::listed(Numbers::from_vec(all)))
}

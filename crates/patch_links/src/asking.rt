//! What may be sent of a block.
ghost use Rattle.std.specs.Prelude.{◌≡◌, ◌++◌, [], IfOk, OnOk};
ghost use Rattle.std.specs.Option.{option_map_or};
ghost use Rattle.patch_links.specs.State.{node_at};
ghost use Rattle.patch_links.specs.Lists.{of_at};
ghost use Rattle.patch_links.specs.Ready.{members_at, gathered, IsArranged};

use crate::blocks::Blocks;
use crate::nodes::Nodes;
use patch_model::{BlockNo, PatchNo};
use std::alloc::{AllocError, Allocator};

/// The keys of the block's ready set.
pub fn ready_keys<A: Allocator>(blocks: &Blocks<A>, block: BlockNo) -> &[usize]
    ensures { result.now ≡ (of_at blocks.now.items block).ready }
{
    match blocks.lists.get(block.0) {
        Some(list) => list.ready(),
        None => &[],
    }
}

/// How many classes the block has.
pub fn count<A: Allocator>(blocks: &Blocks<A>, block: BlockNo) -> usize
    ensures { result ≡ (of_at blocks.now.items block).count }
{
    match blocks.lists.get(block.0) {
        Some(list) => list.count(),
        None => 0,
    }
}

/// Adds the numbers of the class at a key.
fn add_members<A: Allocator, B: Allocator>(
    nodes: &Nodes<A>,
    key: usize,
    all: &mut Vec<PatchNo, B>,
) -> Result<(), AllocError>
    ensures { OnOk result (all.new.items ≡ all.old.items ++ members_at nodes.now.slots key) }
{
    match nodes.get(key) {
        Some(node) => append(node.class.members.as_slice(), all),
        None => Ok(()),
    }
}

/// Puts numbers behind the others; mostly it is one.
fn append<B: Allocator>(numbers: &[PatchNo], all: &mut Vec<PatchNo, B>) -> Result<(), AllocError>
    ensures { OnOk result (all.new.items ≡ all.old.items ++ numbers.now) }
{
    match numbers {
        [no] => all.push(*no)?,
        _ => all.extend_from_slice(numbers)?,
    }
    Ok(())
}

/// The numbers of the classes at these keys, in some order.
fn gather<A: Allocator, B: Allocator>(
    alloc: B,
    nodes: &Nodes<A>,
    ready: &[usize],
) -> Result<Vec<PatchNo, B>, AllocError>
    ensures { IfOk result (λ all. all.items ≡ gathered nodes.now.slots ready.now) }
{
    let mut all = Vec::with_capacity(alloc, ready.len())?;
    for key in ready {
        add_members(nodes, *key, &mut all)?;
    }
    Ok(all)
}

/// Puts numbers in order, each once.
fn arrange<B: Allocator>(all: &mut Vec<PatchNo, B>) -> Result<(), AllocError>
    ensures { OnOk result (IsArranged all.old.items all.new.items) }
{
    all.sort()?;
    all.dedup();
    Ok(())
}

/// The numbers of the classes at these keys, rising.
pub fn numbers<A: Allocator, B: Allocator>(
    alloc: B,
    nodes: &Nodes<A>,
    ready: &[usize],
) -> Result<Vec<PatchNo, B>, AllocError>
    ensures { IfOk result (λ all. IsArranged (gathered nodes.now.slots ready.now) all.items) }
{
    let mut all = gather(alloc, nodes, ready)?;
    arrange(&mut all)?;
    Ok(all)
}

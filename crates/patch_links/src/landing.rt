//! Classes in flight that are durable, and so forgotten.
ghost use Rattle.std.specs.Prelude.{◌≡◌, ◌≢◌, ℕ, None, [], true, length, IfSome, IfNone};
ghost use Rattle.patch_links.specs.State.{find, is_at, slots_of};
ghost use Rattle.patch_links.specs.Waiting.{of_block, AreLinked};
ghost use Rattle.patch_links.specs.Lists.{AreListed, AreSettled, of_at};
ghost use Rattle.patch_links.specs.Invariants.{KeepsBare, PaysOne, AreBelow, Stands};
ghost use Rattle.patch_links.specs.MarkDurable.{AreForgotten, AreLanded, AreTold, HasPopped, IsForgotten, IsLanding, PaysLed};

use crate::admitting::settle;
use crate::blocks::{Blocks, note};
use crate::keys::Keys;
use crate::nodes::{Nodes, block_at, find};
use patch_model::{BlockNo, PatchNo};
use std::alloc::Allocator;

/// Takes the key of a number away.
fn forget_one<A: Allocator>(keys: &mut Keys<A>, no: PatchNo)
    ensures here { find keys.new.numbers no ≡ None }
    ensures others { (n : ℕ) → n ≢ no → find keys.new.numbers n ≡ find keys.old.numbers n }
{
    keys.remove(no);
}

/// Takes the keys of these numbers away.
fn forget<A: Allocator>(keys: &mut Keys<A>, members: &[PatchNo])
    ensures { AreForgotten members.now keys.old.numbers keys.new.numbers (length members.now) }
{
    for no in members {
        forget_one(keys, *no);
    }
}

/// One number less keeps the class of the block out that is at the key.
fn tell_at<A: Allocator>(
    nodes: &mut Nodes<A>,
    keys: &Keys<A>,
    blocks: &mut Blocks<A>,
    block: BlockNo,
    key: usize,
)
    requires listed { AreListed nodes.old.slots blocks.old.items }
    requires settled { AreSettled blocks.old.items }
    requires linked { AreLinked nodes.old.slots keys.now.numbers }
    requires here { is_at (of_block block) nodes.old.slots key ≡ true }
    ensures listed { AreListed nodes.new.slots blocks.new.items }
    ensures settled { AreSettled blocks.new.items }
    ensures bare { KeepsBare nodes.old.slots nodes.new.slots }
    ensures paid { PaysOne keys.now.numbers key nodes.old.slots nodes.new.slots }
{
    match blocks.lists.get_mut(block.0) {
        Some(list) => {
            settle(nodes, keys, list, block, key);
            note(&mut blocks.open, block, list.is_open());
        }
        None => {}
    }
}

/// One number less keeps the class out that is at the key.
fn tell_key<A: Allocator>(nodes: &mut Nodes<A>, keys: &Keys<A>, blocks: &mut Blocks<A>, key: usize)
    requires listed { AreListed nodes.old.slots blocks.old.items }
    requires settled { AreSettled blocks.old.items }
    requires linked { AreLinked nodes.old.slots keys.now.numbers }
    ensures listed { AreListed nodes.new.slots blocks.new.items }
    ensures settled { AreSettled blocks.new.items }
    ensures bare { KeepsBare nodes.old.slots nodes.new.slots }
    ensures paid { PaysOne keys.now.numbers key nodes.old.slots nodes.new.slots }
{
    match block_at(nodes, key) {
        Some(block) => tell_at(nodes, keys, blocks, block, key),
        None => {}
    }
}

/// One number less keeps the class out that the number leads to.
fn tell<A: Allocator>(nodes: &mut Nodes<A>, keys: &Keys<A>, blocks: &mut Blocks<A>, no: PatchNo)
    requires listed { AreListed nodes.old.slots blocks.old.items }
    requires settled { AreSettled blocks.old.items }
    requires linked { AreLinked nodes.old.slots keys.now.numbers }
    ensures listed { AreListed nodes.new.slots blocks.new.items }
    ensures settled { AreSettled blocks.new.items }
    ensures bare { KeepsBare nodes.old.slots nodes.new.slots }
    ensures paid { PaysLed keys.now.numbers no nodes.old.slots nodes.new.slots }
{
    match find(keys, no) {
        Some(key) => tell_key(nodes, keys, blocks, key),
        None => {}
    }
}

/// The same of the classes that these numbers lead to.
fn tell_all<A: Allocator>(
    nodes: &mut Nodes<A>,
    keys: &Keys<A>,
    blocks: &mut Blocks<A>,
    followers: &[PatchNo],
)
    requires listed { AreListed nodes.old.slots blocks.old.items }
    requires settled { AreSettled blocks.old.items }
    requires linked { AreLinked nodes.old.slots keys.now.numbers }
    ensures listed { AreListed nodes.new.slots blocks.new.items }
    ensures settled { AreSettled blocks.new.items }
    ensures bare { KeepsBare nodes.old.slots nodes.new.slots }
    ensures told { AreTold keys.now.numbers followers.now nodes.old.slots nodes.new.slots }
{
    for no in followers {
        tell(nodes, keys, blocks, *no);
    }
}

/// Forgets the class at the key, which was taken out of the block's lists.
fn land_at<A: Allocator>(
    nodes: &mut Nodes<A>,
    keys: &mut Keys<A>,
    blocks: &mut Blocks<A>,
    block: BlockNo,
    key: usize,
)
    requires { IsLanding block nodes.old.slots keys.old.numbers blocks.old.items key }
    ensures stands { Stands nodes.new.slots keys.new.numbers blocks.new.items }
    ensures gone { IsForgotten key nodes.old.slots nodes.new.slots keys.old.numbers keys.new.numbers }
{
    match nodes.try_remove(key) {
        Some(node) => {
            forget(keys, node.class.members.as_slice());
            tell_all(nodes, keys, blocks, node.followers.as_slice());
        }
        None => {}
    }
}

/// Takes a class in flight out of the block's lists.
fn next_landing<A: Allocator>(blocks: &mut Blocks<A>, block: BlockNo) -> Option<usize>
    ensures none { IfNone result ((of_at blocks.old.items block).flying ≡ []) }
    ensures same { IfNone result ((other : ℕ) → of_at blocks.new.items other ≡ of_at blocks.old.items other) }
    ensures some { IfSome result (λ key. HasPopped block blocks.old.items blocks.new.items key) }
{
    match blocks.lists.get_mut(block.0) {
        Some(list) => {
            let landed = list.land();
            note(&mut blocks.open, block, list.is_open());
            landed
        }
        None => None,
    }
}

/// Forgets the classes in flight of the block.
pub fn land<A: Allocator>(
    nodes: &mut Nodes<A>,
    keys: &mut Keys<A>,
    blocks: &mut Blocks<A>,
    block: BlockNo,
)
    requires { Stands nodes.old.slots keys.old.numbers blocks.old.items }
    ensures stands { Stands nodes.new.slots keys.new.numbers blocks.new.items }
    ensures landed { AreLanded (slots_of nodes.old.slots) (slots_of nodes.new.slots) keys.old.numbers keys.new.numbers block (λ key. true) }
    ensures below { (made : ℕ) → AreBelow made nodes.old.slots → AreBelow made nodes.new.slots }
{
    while let Some(key) = next_landing(blocks, block) {
        land_at(nodes, keys, blocks, block, key);
    }
}

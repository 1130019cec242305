//! The ready set put in flight.
ghost use Rattle.std.specs.Prelude.{◌≡◌, ◌<◌, ◌≤◌, ◌&&◌, ◌==◌, ℕ, true, false, length};
ghost use Rattle.patch_model.specs.Entry.{is_among};
ghost use Rattle.patch_links.specs.State.{is_at, changed_at, slots_of};
ghost use Rattle.patch_links.specs.Waiting.{of_block, ready_in, raised, unreadied, AreCounted, AreLinked, AreOwing, passed_by, changed_if_other, passed_to, followers_at};
ghost use Rattle.patch_links.specs.Lists.{HoldsJust, IsListed, IsSettled, of_at};
ghost use Rattle.patch_links.specs.Invariants.{KeepsRest, KeepsMarks, KeepsPlain, Stands};
ghost use Rattle.patch_links.specs.MarkFlight.{AreFlown, flown_node, AreNodesFlown, IsPutInFlight};

use crate::blocks::{Blocks, note};
use crate::keys::Keys;
use crate::lists::OfBlock;
use crate::nodes::{Nodes, find, follower_at, follower_count, is_of, raise, take_ready};
use patch_model::{BlockNo, Mark, PatchNo};
use std::alloc::Allocator;

/// One number more keeps the class at a key out, if it is another one of the block than that at the key `from`.
fn raise_other<A: Allocator>(nodes: &mut Nodes<A>, from: usize, block: BlockNo, key: usize)
    ensures { nodes.new.slots ≡ changed_if_other raised from block nodes.old.slots key }
{
    if key != from && is_of(nodes, block, key) {
        raise(nodes, key);
    }
}

/// The same of the class that the number leads to.
fn raise_to<A: Allocator>(
    nodes: &mut Nodes<A>,
    keys: &Keys<A>,
    from: usize,
    block: BlockNo,
    no: PatchNo,
)
    ensures { nodes.new.slots ≡ passed_to raised keys.now.numbers from block nodes.old.slots no }
{
    if let Some(key) = find(keys, no) {
        raise_other(nodes, from, block, key);
    }
}

/// The same of each follower of the class at the key `from`.
fn raise_all<A: Allocator>(nodes: &mut Nodes<A>, keys: &Keys<A>, from: usize, block: BlockNo)
    ensures rest { KeepsRest block nodes.old.slots nodes.new.slots }
    ensures marks { KeepsMarks nodes.old.slots nodes.new.slots }
    ensures counted { AreOwing nodes.old.slots keys.now.numbers (passed_by keys.now.numbers from block (followers_at nodes.old.slots from)) → AreCounted nodes.new.slots keys.now.numbers }
{
    let count = follower_count(nodes, from);
    for place in 0..count {
        match follower_at(nodes, from, place) {
            Some(no) => raise_to(nodes, keys, from, block, no),
            None => {}
        }
    }
}

/// Takes the class at the key out of the ready set.
fn take_out_at<A: Allocator>(nodes: &mut Nodes<A>, keys: &Keys<A>, key: usize, block: BlockNo)
    requires here { is_at (ready_in block) nodes.old.slots key ≡ true }
    requires linked { AreLinked nodes.old.slots keys.now.numbers }
    requires counted { AreCounted nodes.old.slots keys.now.numbers }
    ensures rest { KeepsRest block nodes.old.slots nodes.new.slots }
    ensures marks { KeepsMarks (changed_at unreadied nodes.old.slots key) nodes.new.slots }
    ensures counted { AreCounted nodes.new.slots keys.now.numbers }
{
    take_ready(nodes, key);
    raise_all(nodes, keys, key, block);
}

/// Takes the classes at these keys out of the ready set, which are all of it.
pub fn take_out<A: Allocator>(nodes: &mut Nodes<A>, keys: &Keys<A>, ready: &[usize], block: BlockNo)
    requires ready { HoldsJust (ready_in block) nodes.old.slots ready.now }
    requires linked { AreLinked nodes.old.slots keys.now.numbers }
    requires counted { AreCounted nodes.old.slots keys.now.numbers }
    ensures rest { KeepsRest block nodes.old.slots nodes.new.slots }
    ensures none { (key : ℕ) → is_at (ready_in block) nodes.new.slots key ≡ false }
    ensures counted { AreCounted nodes.new.slots keys.now.numbers }
{
    for key in ready {
        take_out_at(nodes, keys, *key, block);
    }
}

/// Puts the class at the key in flight.
fn fly_at<A: Allocator>(nodes: &mut Nodes<A>, key: usize)
    ensures { nodes.new.slots ≡ changed_at flown_node nodes.old.slots key }
{
    if let Some(node) = nodes.get_mut(key) {
        node.class.mark = Mark::Flight;
    }
}

/// Puts the classes at these keys in flight.
fn fly_each<A: Allocator>(nodes: &mut Nodes<A>, ready: &[usize])
    ensures flown { AreNodesFlown (is_among ready.now) nodes.old.slots nodes.new.slots }
    ensures long { length nodes.new.slots ≡ length nodes.old.slots }
{
    for key in ready {
        fly_at(nodes, *key);
    }
}

/// Puts the ready set in flight.
fn fly_list<A: Allocator>(
    nodes: &mut Nodes<A>,
    keys: &Keys<A>,
    list: &mut OfBlock<A>,
    block: BlockNo,
)
    requires listed { IsListed block nodes.old.slots list.old }
    requires settled { IsSettled list.old }
    requires linked { AreLinked nodes.old.slots keys.now.numbers }
    requires counted { AreCounted nodes.old.slots keys.now.numbers }
    ensures listed { IsListed block nodes.new.slots list.new }
    ensures settled { IsSettled list.new }
    ensures counted { AreCounted nodes.new.slots keys.now.numbers }
    ensures flown { IsPutInFlight block (is_among list.old.ready) nodes.old.slots nodes.new.slots }
{
    take_out(nodes, keys, list.ready(), block);
    fly_each(nodes, list.ready());
    list.fly();
}

/// Puts the block's ready set in flight.
pub fn fly<A: Allocator>(
    nodes: &mut Nodes<A>,
    keys: &Keys<A>,
    blocks: &mut Blocks<A>,
    block: BlockNo,
)
    requires { Stands nodes.old.slots keys.now.numbers blocks.old.items }
    ensures stands { Stands nodes.new.slots keys.now.numbers blocks.new.items }
    ensures flown { AreFlown (is_among (of_at blocks.old.items block).ready) (slots_of nodes.old.slots) (slots_of nodes.new.slots) }
    ensures plain { KeepsPlain nodes.old.slots nodes.new.slots }
{
    if let Some(list) = blocks.lists.get_mut(block.0) {
        fly_list(nodes, keys, list, block);
        note(&mut blocks.open, block, list.is_open());
    }
}

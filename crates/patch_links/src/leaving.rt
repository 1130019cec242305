//! Classes that leave the ready set, one after another.
ghost use Rattle.std.specs.Prelude.{◌≡◌, ◌≤◌, ◌&&◌, ◌==◌, ℕ, true, false, not, length};
ghost use Rattle.patch_links.specs.State.{is_at, changed_at};
ghost use Rattle.patch_links.specs.Waiting.{ready_in, raised, unreadied, AreCounted, AreLinked, passed_by, changed_if_other, followers_at};
ghost use Rattle.patch_links.specs.Lists.{IsListed, IsSettled};
ghost use Rattle.patch_links.specs.Invariants.{KeepsRest};
ghost use Rattle.patch_links.specs.Leaving.{HoldsReady, HasLeft, LeavesIf, LeavesTo, LosesReady, KeepsLeaving};

use crate::keys::Keys;
use crate::lists::OfBlock;
use crate::nodes::{
    Nodes, find, follower_at, follower_count, is_due, is_of, is_ready, note_place, place_at, raise,
    take_ready,
};
use patch_model::{BlockNo, PatchNo};
use std::alloc::Allocator;

/// The class at the key leaves the ready set. Its followers are still to be told.
fn leave<A: Allocator>(nodes: &mut Nodes<A>, list: &mut OfBlock<A>, block: BlockNo, key: usize)
    requires here { is_at (ready_in block) nodes.old.slots key ≡ true }
    requires holds { HoldsReady block nodes.old.slots list.old }
    ensures changed { nodes.new.slots ≡ changed_at unreadied nodes.old.slots key }
    ensures left { HasLeft list.old list.new key }
{
    take_ready(nodes, key);
    let (moved, place) = list.leave(key, place_at(nodes, key));
    note_place(nodes, moved, place);
}

/// One number more keeps the class at the key out of the ready set, so it leaves that, if it is there.
fn pull<A: Allocator>(nodes: &mut Nodes<A>, list: &mut OfBlock<A>, block: BlockNo, key: usize)
    requires { HoldsReady block nodes.old.slots list.old }
    ensures { LeavesIf (is_at (ready_in block) nodes.old.slots key) key (changed_at raised nodes.old.slots key) nodes.new.slots list.old list.new }
{
    let ready = is_ready(nodes, block, key);
    raise(nodes, key);
    if ready {
        leave(nodes, list, block, key);
    }
}

/// The same, if it is another one of the block than that at the key `from`.
fn pull_other<A: Allocator>(
    nodes: &mut Nodes<A>,
    list: &mut OfBlock<A>,
    from: usize,
    block: BlockNo,
    key: usize,
)
    requires { HoldsReady block nodes.old.slots list.old }
    ensures { LeavesIf (not (key == from) && is_at (ready_in block) nodes.old.slots key) key (changed_if_other raised from block nodes.old.slots key) nodes.new.slots list.old list.new }
{
    if key != from && is_of(nodes, block, key) {
        pull(nodes, list, block, key);
    }
}

/// The same of the class that the number leads to.
fn pull_to<A: Allocator>(
    nodes: &mut Nodes<A>,
    keys: &Keys<A>,
    list: &mut OfBlock<A>,
    from: usize,
    block: BlockNo,
    no: PatchNo,
)
    requires { HoldsReady block nodes.old.slots list.old }
    ensures { LeavesTo keys.now.numbers from block nodes.old.slots nodes.new.slots list.old list.new no }
{
    match find(keys, no) {
        Some(key) => pull_other(nodes, list, from, block, key),
        None => {}
    }
}

/// The same of each follower of the class at the key `from`.
fn pull_all<A: Allocator>(
    nodes: &mut Nodes<A>,
    keys: &Keys<A>,
    list: &mut OfBlock<A>,
    from: usize,
    block: BlockNo,
)
    requires { HoldsReady block nodes.old.slots list.old }
    ensures holds { HoldsReady block nodes.new.slots list.new }
    ensures rest { KeepsRest block nodes.old.slots nodes.new.slots }
    ensures long { length list.new.ready ≡ length list.old.ready }
    ensures fewer { LosesReady block nodes.old.slots nodes.new.slots }
    ensures leaving { KeepsLeaving block keys.now.numbers nodes.old.slots nodes.new.slots list.old list.new (passed_by keys.now.numbers from block (followers_at nodes.old.slots from)) }
{
    let count = follower_count(nodes, from);
    for place in 0..count {
        match follower_at(nodes, from, place) {
            Some(no) => pull_to(nodes, keys, list, from, block, no),
            None => {}
        }
    }
}

/// The same of each class that left the ready set and whose followers weren't told, and of those that leave it then.
fn pull_each<A: Allocator>(
    nodes: &mut Nodes<A>,
    keys: &Keys<A>,
    list: &mut OfBlock<A>,
    block: BlockNo,
)
    requires { HoldsReady block nodes.old.slots list.old }
    ensures rest { KeepsRest block nodes.old.slots nodes.new.slots }
    ensures fewer { LosesReady block nodes.old.slots nodes.new.slots }
    ensures leaving { KeepsLeaving block keys.now.numbers nodes.old.slots nodes.new.slots list.old list.new (λ key c. 0) }
    ensures none { length list.new.ready ≤ list.new.done }
{
    while let Some(key) = list.take_waiting() {
        pull_all(nodes, keys, list, key, block);
    }
}

/// The class at the key leaves the ready set, and what follows it there, and what follows that.
pub fn withdraw<A: Allocator>(
    nodes: &mut Nodes<A>,
    keys: &Keys<A>,
    list: &mut OfBlock<A>,
    block: BlockNo,
    key: usize,
)
    requires here { is_at (ready_in block) nodes.old.slots key ≡ true }
    requires listed { IsListed block nodes.old.slots list.old }
    requires settled { IsSettled list.old }
    requires linked { AreLinked nodes.old.slots keys.now.numbers }
    requires counted { AreCounted nodes.old.slots keys.now.numbers }
    ensures listed { IsListed block nodes.new.slots list.new }
    ensures rest { KeepsRest block nodes.old.slots nodes.new.slots }
    ensures fewer { LosesReady block nodes.old.slots nodes.new.slots }
    ensures out { is_at (ready_in block) nodes.new.slots key ≡ false }
    ensures counted { AreCounted nodes.new.slots keys.now.numbers }
{
    leave(nodes, list, block, key);
    pull_each(nodes, keys, list, block);
    if is_due(nodes, key) {
        list.push(key);
    }
}

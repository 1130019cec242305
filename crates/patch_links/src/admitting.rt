//! Classes that come into the ready set, one after another.
ghost use Rattle.std.specs.Prelude.{◌≡◌, ◌≢◌, ◌<◌, ◌≤◌, ◌+◌, ◌&&◌, ◌==◌, ℕ, true, false, not, length, slice_get};
ghost use Rattle.std.specs.Option.{option_map_or};
ghost use Rattle.patch_links.specs.State.{Class, find, is_at, changed_at};
ghost use Rattle.patch_links.specs.Waiting.{of_block, is_due, lowered, AreLinked, changed_if_other, passed_to, followers_at};
ghost use Rattle.patch_links.specs.Lists.{IsListed, IsSettled};
ghost use Rattle.patch_links.specs.Invariants.{KeepsRest, KeepsOwed, PaysOwed, PaysOne};

use crate::keys::Keys;
use crate::lists::OfBlock;
use crate::nodes::{Nodes, find, follower_at, follower_count, is_due, is_of, lower, put_ready};
use patch_model::{BlockNo, PatchNo};
use std::alloc::Allocator;

/// One number less keeps the class at a key out. Whether nothing does any more, and it is in memory.
fn comes_due<A: Allocator>(nodes: &mut Nodes<A>, key: usize) -> bool
    ensures changed { nodes.new.slots ≡ changed_at lowered nodes.old.slots key }
    ensures due { result ≡ (not (is_at is_due nodes.old.slots key) && is_at is_due nodes.new.slots key) }
{
    let was = is_due(nodes, key);
    lower(nodes, key);
    !was && is_due(nodes, key)
}

/// One number less keeps the class of the block out that is at the key.
fn pay<A: Allocator>(nodes: &mut Nodes<A>, list: &mut OfBlock<A>, block: BlockNo, key: usize)
    requires listed { IsListed block nodes.old.slots list.old }
    requires here { is_at (of_block block) nodes.old.slots key ≡ true }
    ensures changed { nodes.new.slots ≡ changed_at lowered nodes.old.slots key }
    ensures listed { IsListed block nodes.new.slots list.new }
    ensures done { list.new.done ≡ list.old.done }
    ensures count { list.new.count ≡ list.old.count }
{
    if comes_due(nodes, key) {
        list.push(key);
    }
}

/// The same, if it is another one of the block than that at the key `from`.
fn pay_other<A: Allocator>(
    nodes: &mut Nodes<A>,
    list: &mut OfBlock<A>,
    from: usize,
    block: BlockNo,
    key: usize,
)
    requires { IsListed block nodes.old.slots list.old }
    ensures changed { nodes.new.slots ≡ changed_if_other lowered from block nodes.old.slots key }
    ensures listed { IsListed block nodes.new.slots list.new }
    ensures done { list.new.done ≡ list.old.done }
    ensures count { list.new.count ≡ list.old.count }
{
    if key != from && is_of(nodes, block, key) {
        pay(nodes, list, block, key);
    }
}

/// The same of the class that the number leads to.
fn pay_to<A: Allocator>(
    nodes: &mut Nodes<A>,
    keys: &Keys<A>,
    list: &mut OfBlock<A>,
    from: usize,
    block: BlockNo,
    no: PatchNo,
)
    requires { IsListed block nodes.old.slots list.old }
    ensures changed { nodes.new.slots ≡ passed_to lowered keys.now.numbers from block nodes.old.slots no }
    ensures listed { IsListed block nodes.new.slots list.new }
    ensures done { list.new.done ≡ list.old.done }
    ensures count { list.new.count ≡ list.old.count }
{
    if let Some(key) = find(keys, no) {
        pay_other(nodes, list, from, block, key);
    }
}

/// The same of each follower of the class at the key `from`.
fn pay_all<A: Allocator>(
    nodes: &mut Nodes<A>,
    keys: &Keys<A>,
    list: &mut OfBlock<A>,
    from: usize,
    block: BlockNo,
)
    requires { IsListed block nodes.old.slots list.old }
    ensures listed { IsListed block nodes.new.slots list.new }
    ensures done { list.new.done ≡ list.old.done }
    ensures count { list.new.count ≡ list.old.count }
    ensures rest { KeepsRest block nodes.old.slots nodes.new.slots }
    ensures paid { PaysOwed keys.now.numbers from block (followers_at nodes.old.slots from) nodes.old.slots nodes.new.slots }
{
    let count = follower_count(nodes, from);
    for place in 0..count {
        match follower_at(nodes, from, place) {
            Some(no) => pay_to(nodes, keys, list, from, block, no),
            None => {}
        }
    }
}

/// The next class comes into the ready set.
fn admit_next<A: Allocator>(
    nodes: &mut Nodes<A>,
    keys: &Keys<A>,
    list: &mut OfBlock<A>,
    block: BlockNo,
)
    requires listed { IsListed block nodes.old.slots list.old }
    requires linked { AreLinked nodes.old.slots keys.now.numbers }
    requires some { list.old.done < length list.old.ready }
    ensures listed { IsListed block nodes.new.slots list.new }
    ensures done { list.new.done ≡ list.old.done + 1 }
    ensures count { list.new.count ≡ list.old.count }
    ensures rest { KeepsRest block nodes.old.slots nodes.new.slots }
    ensures owed { KeepsOwed keys.now.numbers nodes.old.slots nodes.new.slots }
{
    let place = list.done();
    let key = list.next();
    put_ready(nodes, key, place);
    pay_all(nodes, keys, list, key, block);
}

/// All classes come into the ready set that nothing keeps out, or nothing any more once others are in it.
pub fn admit_all<A: Allocator>(
    nodes: &mut Nodes<A>,
    keys: &Keys<A>,
    list: &mut OfBlock<A>,
    block: BlockNo,
)
    requires listed { IsListed block nodes.old.slots list.old }
    requires linked { AreLinked nodes.old.slots keys.now.numbers }
    ensures listed { IsListed block nodes.new.slots list.new }
    ensures settled { IsSettled list.new }
    ensures rest { KeepsRest block nodes.old.slots nodes.new.slots }
    ensures owed { KeepsOwed keys.now.numbers nodes.old.slots nodes.new.slots }
{
    while list.has_next() {
        admit_next(nodes, keys, list, block);
    }
}

/// One number less keeps the class of the block out that is at the key. All come into the ready set that nothing keeps out.
pub fn settle<A: Allocator>(
    nodes: &mut Nodes<A>,
    keys: &Keys<A>,
    list: &mut OfBlock<A>,
    block: BlockNo,
    key: usize,
)
    requires listed { IsListed block nodes.old.slots list.old }
    requires linked { AreLinked nodes.old.slots keys.now.numbers }
    requires here { is_at (of_block block) nodes.old.slots key ≡ true }
    ensures listed { IsListed block nodes.new.slots list.new }
    ensures settled { IsSettled list.new }
    ensures rest { KeepsRest block nodes.old.slots nodes.new.slots }
    ensures paid { PaysOne keys.now.numbers key nodes.old.slots nodes.new.slots }
{
    pay(nodes, list, block, key);
    admit_all(nodes, keys, list, block);
}

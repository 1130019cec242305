//! Live classes by their keys, and what is kept beside each.
ghost use Rattle.std.specs.Prelude.{◌≡◌, ◌&&◌, ◌==◌, None, slice_get, length, nat_lt};
ghost use Rattle.std.specs.Option.{option_map, option_map_or, option_copied};
ghost use Rattle.patch_links.specs.State.{no_reach, find, node_at, is_at, changed_at};
ghost use Rattle.patch_links.specs.Waiting.{of_block, ready_in, is_due, lowered, raised, readied, unreadied, followers_at};

use crate::keys::Keys;
use patch_model::{BlockNo, Mark, PatchNo};
use patch_numbers::NumberList;
use slab::Slab;
use std::alloc::{Allocator, Global};
use std::marker::Model;

/// Numbers in a row, from the first up to before the last, and none where these are the same: each live patch of them is of the
/// class that has it, or of one on which that depends, directly or through others. The links carry it, and a merge leaves that of
/// the class that is kept.
#[derive(Clone, Copy, Debug, PartialEq, Eq)]
pub struct Reach {
    pub from: u32,
    pub to: u32,
}

impl Reach {
    /// No number.
    pub fn none() -> Reach
        ensures { result ≡ no_reach }
    {
        Reach { from: 0, to: 0 }
    }
}

/// A live class: its members are of one block, alike in mark and hardness, and its span has no gap.
#[derive(Drop)]
pub struct Class<A: Allocator = Global> {
    /// The least of its members.
    pub name: PatchNo,
    pub members: NumberList<A>,
    pub block: BlockNo,
    pub mark: Mark,
    pub hard: bool,
    /// Its span, from the first byte to the one after the last.
    pub start: usize,
    pub stop: usize,
    /// Patches of the classes that it depends on directly, live or not; some of them may be its own by now.
    pub after: NumberList<A>,
    pub reach: Reach,
}

impl<A: Allocator> Model for Class<A> {
    ghost use Rattle.patch_links.specs.State.{Class as Seen};

    ghost Value = { Seen };

    ghost view = { λ c. record {
      name = c.name;
      members = c.members.items;
      block = c.block;
      mark = c.mark;
      hard = c.hard;
      start = c.start;
      stop = c.stop;
      after = c.after.items;
      reach = c.reach;
    } };
}

/// A class and its part in the ready set.
#[derive(Drop)]
pub struct Node<A: Allocator = Global> {
    pub class: Class<A>,
    /// How many of the numbers that it depends on keep it out of its block's ready set.
    pub waits: usize,
    /// Where its key stands there, if it has it: a hint, which no proof asks for.
    pub place: u32,
    /// Whether that set has it.
    pub ready: bool,
    /// A number of each class that depends on it, for each time that it does. Those that lead to the class itself are
    /// skipped, and those that lead nowhere, as some do while classes land.
    pub followers: NumberList<A>,
}

impl<A: Allocator> Model for Node<A> {
    ghost use Rattle.std.specs.Prelude.{◌+◌, length};
    ghost use Rattle.patch_links.specs.State.{Node as Seen};

    ghost Value = { Seen };

    ghost view = { λ x. record {
      class = x.class;
      ready = x.ready;
      waits = x.waits;
      followers = x.followers.items;
      room = length x.followers.items + x.followers.room;
    } };
}

/// Classes by their keys.
pub type Nodes<A> = Slab<Node<A>, A>;

/// The key of a live patch's class.
pub fn find<A: Allocator>(keys: &Keys<A>, no: PatchNo) -> Option<usize>
    ensures { result ≡ find keys.now.numbers no }
{
    keys.get(no)
}

/// The block of the class at a key.
pub fn block_at<A: Allocator>(nodes: &Nodes<A>, key: usize) -> Option<BlockNo>
    ensures { result ≡ option_map (λ x. x.class.block) (node_at nodes.now.slots key) }
{
    match nodes.get(key) {
        Some(node) => Some(node.class.block),
        None => None,
    }
}

/// Whether there is a class of the block at a key.
pub fn is_of<A: Allocator>(nodes: &Nodes<A>, block: BlockNo, key: usize) -> bool
    ensures { result ≡ is_at (of_block block) nodes.now.slots key }
{
    match nodes.get(key) {
        Some(node) => node.class.block == block,
        None => false,
    }
}

/// Whether the block's ready set has the class at a key.
pub fn is_ready<A: Allocator>(nodes: &Nodes<A>, block: BlockNo, key: usize) -> bool
    ensures { result ≡ is_at (ready_in block) nodes.now.slots key }
{
    match nodes.get(key) {
        Some(node) => node.class.block == block && node.ready,
        None => false,
    }
}

/// Whether the class at a key is in memory, and nothing keeps it out of its block's ready set.
pub fn is_due<A: Allocator>(nodes: &Nodes<A>, key: usize) -> bool
    ensures { result ≡ is_at is_due nodes.now.slots key }
{
    match nodes.get(key) {
        Some(node) => matches!(node.class.mark, Mark::Memory) && node.waits == 0,
        None => false,
    }
}

/// How many followers the class at a key has.
pub fn follower_count<A: Allocator>(nodes: &Nodes<A>, key: usize) -> usize
    ensures { result ≡ length (followers_at nodes.now.slots key) }
{
    match nodes.get(key) {
        Some(node) => node.followers.len(),
        None => 0,
    }
}

/// A follower of the class at a key.
pub fn follower_at<A: Allocator>(nodes: &Nodes<A>, key: usize, place: usize) -> Option<PatchNo>
    ensures { result ≡ slice_get (followers_at nodes.now.slots key) place }
{
    match nodes.get(key) {
        Some(node) => node.followers.as_slice().get(place).copied(),
        None => None,
    }
}

/// One number less keeps the class at a key out.
pub fn lower<A: Allocator>(nodes: &mut Nodes<A>, key: usize)
    ensures { nodes.new.slots ≡ changed_at lowered nodes.old.slots key }
{
    if let Some(node) = nodes.get_mut(key) {
        node.waits = node.waits.saturating_sub(1);
    }
}

/// One number more keeps the class at a key out.
pub fn raise<A: Allocator>(nodes: &mut Nodes<A>, key: usize)
    ensures { nodes.new.slots ≡ changed_at raised nodes.old.slots key }
{
    if let Some(node) = nodes.get_mut(key) {
        // Always so: what keeps a class out is among what it depends on.
        if node.waits < node.class.after.len() {
            node.waits += 1;
        }
    }
}

/// A place as a hint, which may be any number.
fn narrow(place: usize) -> u32 {
    u32::try_from(place).unwrap_or(u32::MAX)
}

/// Has the ready set have the class at a key, which stands at this place there.
pub fn put_ready<A: Allocator>(nodes: &mut Nodes<A>, key: usize, place: usize)
    ensures { nodes.new.slots ≡ changed_at readied nodes.old.slots key }
{
    if let Some(node) = nodes.get_mut(key) {
        node.ready = true;
        node.place = narrow(place);
    }
}

/// Where the key stands among those of the ready set, as it was noted.
pub fn place_at<A: Allocator>(nodes: &Nodes<A>, key: usize) -> usize {
    match nodes.get(key) {
        Some(node) => node.place as usize,
        None => 0,
    }
}

/// Notes where the key stands among those of the ready set.
pub fn note_place<A: Allocator>(nodes: &mut Nodes<A>, key: usize, place: usize)
    ensures { nodes.new.slots ≡ nodes.old.slots }
{
    if let Some(node) = nodes.get_mut(key) {
        node.place = narrow(place);
    }
}

/// Has the ready set have the class at a key no more.
pub fn take_ready<A: Allocator>(nodes: &mut Nodes<A>, key: usize)
    ensures { nodes.new.slots ≡ changed_at unreadied nodes.old.slots key }
{
    if let Some(node) = nodes.get_mut(key) {
        node.ready = false;
    }
}

//! One more class.
ghost use Rattle.std.specs.Prelude.{◌≡◌, ◌↔◌, ◌≢◌, ◌<◌, ◌≤◌, ◌+◌, ◌∷◌, ℕ, [], true, false, nat_lt, length, count_by, Some, None, IfOk, OnOk, OnErr};
ghost use Rattle.std.specs.List.{list_all};
ghost use Rattle.patch_model.specs.declared.patches.Mark.TheVariants.{Memory};
ghost use Rattle.slab.specs.Slab.{HasRoomFor};
ghost use Rattle.patch_rows.specs.Rows.{row_at};
ghost use Rattle.patch_links.specs.State.{changed_at, find, is_at, slots_of};
ghost use Rattle.patch_links.specs.Waiting.{is_unmet, ready_in, AreCounted, AreLinked};
ghost use Rattle.patch_links.specs.Lists.{IsListed, IsSettled, AreListed, AreNoted, AreSettled, lists_of};
ghost use Rattle.patch_links.specs.Invariants.{AreBelow, KeepsBare, KeepsOwed, KeepsRest, Stands};
ghost use Rattle.patch_links.specs.Adding.{followed, followed_to, AreFollowed, HasLists, HasPut, HasRoom, HasRoomForAll, HasRoomTo, IsEnlisting, IsJoining, IsNewClass, IsRoomier, KeepsLists, LeadNowhere};

use crate::admitting::admit_all;
use crate::blocks::{self, Blocks, note};
use crate::keys::Keys;
use crate::lists::{Lists, OfBlock};
use crate::nodes::{Class, Node, Nodes, find, is_due};
use patch_model::{BlockNo, Mark, PatchNo};
use patch_numbers::{BlockSet, NumberList};
use std::alloc::{AllocError, Allocator};

/// Makes room for so many more followers of the class.
fn reserve_in<A: Allocator>(node: &mut Node<A>, more: usize) -> Result<(), AllocError>
    ensures same { node.new ≡ record node.old { room = node.new.room } }
    ensures grows { node.old.room ≤ node.new.room }
    ensures room { OnOk result (length node.old.followers + more ≤ node.new.room) }
{
    node.followers.reserve(more)
}

/// The same of the class at the key.
fn reserve_at<A: Allocator>(nodes: &mut Nodes<A>, key: usize, more: usize) -> Result<(), AllocError>
    ensures roomier { IsRoomier nodes.old.slots nodes.new.slots }
    ensures room { OnOk result (HasRoom more key nodes.new.slots) }
    ensures next { nodes.new.vacant_key ≡ nodes.old.vacant_key }
{
    match nodes.get_mut(key) {
        Some(node) => reserve_in(node, more),
        None => Ok(()),
    }
}

/// The same of the class that the number leads to.
fn reserve_to<A: Allocator>(
    nodes: &mut Nodes<A>,
    keys: &Keys<A>,
    no: PatchNo,
    more: usize,
) -> Result<(), AllocError>
    ensures roomier { IsRoomier nodes.old.slots nodes.new.slots }
    ensures room { OnOk result (HasRoomTo keys.now.numbers more no nodes.new.slots) }
    ensures next { nodes.new.vacant_key ≡ nodes.old.vacant_key }
{
    match find(keys, no) {
        Some(key) => reserve_at(nodes, key, more),
        None => Ok(()),
    }
}

/// How many of these numbers, from the first on, are below all that lead to a class. A patch of a group names all that the
/// groups before it wrote, and most of those are often durable.
fn count_gone<A: Allocator>(keys: &Keys<A>, numbers: &[PatchNo]) -> usize
    ensures { LeadNowhere keys.now.numbers numbers.now result }
{
    let lowest = keys.lowest();
    for at in 0..numbers.len() {
        let no = numbers[at];
        if no.0 >= lowest {
            return at;
        }
    }
    numbers.len()
}

/// Makes room for as many more followers as there are numbers, of each class that one of them leads to.
fn reserve_all<A: Allocator>(
    nodes: &mut Nodes<A>,
    keys: &Keys<A>,
    after: &[PatchNo],
) -> Result<(), AllocError>
    ensures roomier { IsRoomier nodes.old.slots nodes.new.slots }
    ensures room { OnOk result (HasRoomForAll keys.now.numbers (length after.now) after.now nodes.new.slots) }
    ensures next { nodes.new.vacant_key ≡ nodes.old.vacant_key }
{
    let more = after.len();
    for at in count_gone(keys, after)..more {
        reserve_to(nodes, keys, after[at], more)?;
    }
    Ok(())
}

/// One more follower of the class at the key. Whether the block's ready set has that class.
fn follow_at<A: Allocator>(
    nodes: &mut Nodes<A>,
    key: usize,
    block: BlockNo,
    follower: PatchNo,
) -> bool
    requires { HasRoom 1 key nodes.old.slots }
    ensures ready { result ≡ is_at (ready_in block) nodes.old.slots key }
    ensures followed { nodes.new.slots ≡ changed_at (followed follower) nodes.old.slots key }
    ensures capacity { nodes.new.capacity ≡ nodes.old.capacity }
    ensures next { nodes.new.vacant_key ≡ nodes.old.vacant_key }
{
    match nodes.get_mut(key) {
        Some(node) => {
            node.followers.push_reserved(follower);
            node.class.block == block && node.ready
        }
        None => false,
    }
}

/// The same of the class that the number leads to. Whether that keeps the class of the block out that is to be at the key.
fn follow_to<A: Allocator>(
    nodes: &mut Nodes<A>,
    keys: &Keys<A>,
    key: usize,
    block: BlockNo,
    no: PatchNo,
    follower: PatchNo,
) -> bool
    requires { HasRoomTo keys.now.numbers 1 no nodes.old.slots }
    ensures unmet { result ≡ is_unmet nodes.old.slots keys.now.numbers key block no }
    ensures followed { nodes.new.slots ≡ followed_to keys.now.numbers follower nodes.old.slots no }
    ensures capacity { nodes.new.capacity ≡ nodes.old.capacity }
    ensures next { nodes.new.vacant_key ≡ nodes.old.vacant_key }
{
    match find(keys, no) {
        Some(other) => {
            let ready = follow_at(nodes, other, block, follower);
            other != key && !ready
        }
        None => false,
    }
}

/// The same of the classes that these numbers lead to. How many of the numbers keep that class out.
fn follow_all<A: Allocator>(
    nodes: &mut Nodes<A>,
    keys: &Keys<A>,
    key: usize,
    block: BlockNo,
    after: &[PatchNo],
    follower: PatchNo,
) -> usize
    requires { HasRoomForAll keys.now.numbers (length after.now) after.now nodes.old.slots }
    ensures unmet { result ≡ count_by (is_unmet nodes.old.slots keys.now.numbers key block) after.now }
    ensures followed { AreFollowed keys.now.numbers follower after.now nodes.old.slots nodes.new.slots }
    ensures capacity { nodes.new.capacity ≡ nodes.old.capacity }
    ensures next { nodes.new.vacant_key ≡ nodes.old.vacant_key }
{
    let mut unmet = 0;
    for at in count_gone(keys, after)..after.len() {
        if follow_to(nodes, keys, key, block, after[at], follower) {
            unmet += 1;
        }
    }
    unmet
}

/// Gives the block its lists, which hold no key yet and have room for those of one class.
fn put_lists<A: Allocator + Copy>(
    alloc: A,
    lists: &mut Lists<A>,
    open: &mut BlockSet<A>,
    block: BlockNo,
) -> Result<(), AllocError>
    requires none { row_at lists.old block ≡ None }
    requires noted { AreNoted open.old lists.old.items }
    ensures kept { KeepsLists (lists_of lists.old.items) (lists_of lists.new.items) }
    ensures room { OnOk result (HasLists block (lists_of lists.new.items)) }
    ensures noted { AreNoted open.new lists.new.items }
{
    let mut list = OfBlock::new(alloc);
    list.grow()?;
    blocks::make_room(open, block)?;
    lists.lengthen(block.0 as usize + 1);
    lists.reserve()?;
    lists.put(block.0, list);
    Ok(())
}

/// Makes room for the keys of one more class of the block, in lists that it has or gets.
fn make_lists<A: Allocator + Copy>(
    alloc: A,
    lists: &mut Lists<A>,
    open: &mut BlockSet<A>,
    block: BlockNo,
) -> Result<(), AllocError>
    requires { AreNoted open.old lists.old.items }
    ensures kept { KeepsLists (lists_of lists.old.items) (lists_of lists.new.items) }
    ensures room { OnOk result (HasLists block (lists_of lists.new.items)) }
    ensures noted { AreNoted open.new lists.new.items }
{
    match lists.get_mut(block.0) {
        Some(list) => list.grow(),
        None => put_lists(alloc, lists, open, block),
    }
}

/// One more class of the block, at the key.
fn enlist_key<A: Allocator>(nodes: &Nodes<A>, list: &mut OfBlock<A>, block: BlockNo, key: usize)
    requires { IsJoining block key nodes.now.slots list.old }
    ensures { IsListed block nodes.now.slots list.new }
{
    list.add();
    if is_due(nodes, key) {
        list.push(key);
    }
}

/// The same, and all come into the ready set that nothing keeps out.
fn enlist_in<A: Allocator>(
    nodes: &mut Nodes<A>,
    keys: &Keys<A>,
    list: &mut OfBlock<A>,
    block: BlockNo,
    key: usize,
)
    requires joining { IsJoining block key nodes.old.slots list.old }
    requires linked { AreLinked nodes.old.slots keys.now.numbers }
    ensures listed { IsListed block nodes.new.slots list.new }
    ensures settled { IsSettled list.new }
    ensures rest { KeepsRest block nodes.old.slots nodes.new.slots }
    ensures owed { KeepsOwed keys.now.numbers nodes.old.slots nodes.new.slots }
{
    enlist_key(nodes, list, block, key);
    admit_all(nodes, keys, list, block);
}

/// One more class of the block, at the key, in the block's lists.
fn enlist<A: Allocator>(
    nodes: &mut Nodes<A>,
    keys: &Keys<A>,
    blocks: &mut Blocks<A>,
    block: BlockNo,
    key: usize,
)
    requires enlisting { IsEnlisting block key nodes.old.slots blocks.old.items }
    requires linked { AreLinked nodes.old.slots keys.now.numbers }
    requires counted { AreCounted nodes.old.slots keys.now.numbers }
    ensures listed { AreListed nodes.new.slots blocks.new.items }
    ensures settled { AreSettled blocks.new.items }
    ensures bare { KeepsBare nodes.old.slots nodes.new.slots }
    ensures counted { AreCounted nodes.new.slots keys.now.numbers }
{
    match blocks.lists.get_mut(block.0) {
        Some(list) => {
            enlist_in(nodes, keys, list, block, key);
            note(&mut blocks.open, block, list.is_open());
        }
        None => {}
    }
}

/// Notes the key of a patch's class, where there is room for one more.
fn enter<A: Allocator + Copy>(keys: &mut Keys<A>, no: PatchNo, key: usize)
    requires { 0 < keys.old.room }
    ensures here { find keys.new.numbers no ≡ Some key }
    ensures others { (n : ℕ) → n ≢ no → find keys.new.numbers n ≡ find keys.old.numbers n }
{
    keys.put(no, key);
}

/// What the class depends on.
fn after<A: Allocator>(class: &Class<A>) -> &[PatchNo]
    ensures { result.now ≡ class.now.after }
{
    class.after.as_slice()
}

/// Whether the class is in memory.
fn is_in_memory<A: Allocator>(class: &Class<A>) -> bool
    ensures { result ≡ true ↔ class.now.mark ≡ Memory }
{
    match class.mark {
        Mark::Memory => true,
        _ => false,
    }
}

/// Whether the class is of one patch.
fn is_of_one<A: Allocator>(class: &Class<A>) -> bool
    ensures { result ≡ true ↔ class.now.members ≡ class.now.name ∷ [] }
{
    match class.members.as_slice() {
        [no] => *no == class.name,
        _ => false,
    }
}

/// Whether it depends on earlier patches alone.
fn is_of_earlier<A: Allocator>(class: &Class<A>) -> bool
    ensures { result ≡ list_all (λ n. nat_lt n class.now.name) class.now.after }
{
    let name = class.name;
    after(class).iter().all(|no| no.0 < name.0)
}

/// Whether the class is of one patch in memory, which depends on earlier ones.
pub fn is_new<A: Allocator>(class: &Class<A>) -> bool
    ensures { result ≡ true ↔ IsNewClass class.now }
{
    if !is_in_memory(class) {
        return false;
    }
    if !is_of_one(class) {
        return false;
    }
    is_of_earlier(class)
}

/// The class before anything depends on it, outside of the ready set.
pub fn alone<A: Allocator>(alloc: A, class: Class<A>, waits: usize) -> Node<A>
where
    A: Copy,
    ensures class { result.class ≡ class }
    ensures ready { result.ready ≡ false }
    ensures waits { result.waits ≡ waits }
    ensures followers { result.followers ≡ [] }
{
    Node {
        class,
        ready: false,
        place: 0,
        waits,
        followers: NumberList::new(alloc),
    }
}

/// Makes room for the class.
fn make_room<A: Allocator + Copy>(
    alloc: A,
    nodes: &mut Nodes<A>,
    keys: &mut Keys<A>,
    blocks: &mut Blocks<A>,
    class: &Class<A>,
) -> Result<(), AllocError>
    ensures roomier { IsRoomier nodes.old.slots nodes.new.slots }
    ensures keys { keys.new.numbers ≡ keys.old.numbers }
    ensures kept { KeepsLists blocks.old.items blocks.new.items }
    ensures nodes { OnOk result (HasRoomFor nodes.new 1) }
    ensures numbers { OnOk result (0 < keys.new.room) }
    ensures followers { OnOk result (HasRoomForAll keys.new.numbers (length class.now.after) class.now.after nodes.new.slots) }
    ensures lists { OnOk result (HasLists class.now.block blocks.new.items) }
    ensures next { nodes.new.vacant_key ≡ nodes.old.vacant_key }
{
    reserve_all(nodes, keys, after(class))?;
    make_lists(alloc, &mut blocks.lists, &mut blocks.open, class.block)?;
    keys.reserve()?;
    nodes.reserve(1)
}

/// Puts in the class of a new patch, for which there is room. Its key.
fn put_in<A: Allocator + Copy>(
    alloc: A,
    nodes: &mut Nodes<A>,
    keys: &mut Keys<A>,
    blocks: &mut Blocks<A>,
    class: Class<A>,
) -> usize
    requires nodes { HasRoomFor nodes.old 1 }
    requires numbers { 0 < keys.old.room }
    requires followers { HasRoomForAll keys.old.numbers (length class.after) class.after nodes.old.slots }
    requires lists { HasLists class.block blocks.old.items }
    requires stands { Stands nodes.old.slots keys.old.numbers blocks.old.items }
    requires below { AreBelow class.name nodes.old.slots }
    requires fresh { IsNewClass class }
    ensures put { HasPut (slots_of nodes.old.slots) (slots_of nodes.new.slots) keys.old.numbers keys.new.numbers result class }
    ensures stands { Stands nodes.new.slots keys.new.numbers blocks.new.items }
    ensures below { AreBelow (class.name + 1) nodes.new.slots }
    ensures next { result ≡ nodes.old.vacant_key }
{
    let no = class.name;
    let block = class.block;
    let key = nodes.vacant_key();
    let waits = follow_all(nodes, keys, key, block, after(&class), no);
    nodes.insert_reserved(alone(alloc, class, waits));
    enter(keys, no, key);
    enlist(nodes, keys, blocks, block, key);
    key
}

/// Puts in the class of a new patch. Its key.
pub fn add<A: Allocator + Copy>(
    alloc: A,
    nodes: &mut Nodes<A>,
    keys: &mut Keys<A>,
    blocks: &mut Blocks<A>,
    class: Class<A>,
) -> Result<usize, AllocError>
    requires stands { Stands nodes.old.slots keys.old.numbers blocks.old.items }
    requires below { AreBelow class.name nodes.old.slots }
    requires fresh { IsNewClass class }
    ensures put { IfOk result (λ key. HasPut (slots_of nodes.old.slots) (slots_of nodes.new.slots) keys.old.numbers keys.new.numbers key class) }
    ensures stands { Stands nodes.new.slots keys.new.numbers blocks.new.items }
    ensures below { OnOk result (AreBelow (class.name + 1) nodes.new.slots) }
    ensures refused { OnErr result (IsRoomier nodes.old.slots nodes.new.slots) }
    ensures numbers { OnErr result (keys.new.numbers ≡ keys.old.numbers) }
    ensures next { IfOk result (λ key. key ≡ nodes.old.vacant_key) }
    ensures same_next { OnErr result (nodes.new.vacant_key ≡ nodes.old.vacant_key) }
{
    make_room(alloc, nodes, keys, blocks, &class)?;
    Ok(put_in(alloc, nodes, keys, blocks, class))
}

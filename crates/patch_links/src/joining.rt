//! Two classes made one.
ghost use Rattle.std.specs.Prelude.{None, [], ◌≡◌, ◌≢◌, ◌+◌, ◌≤◌, ◌++◌, ◌==◌, ℕ, false, min, length, count_by, if◌then◌else◌, Some, OnOk, OnErr};
ghost use Rattle.std.specs.Option.{option_map};
ghost use Rattle.patch_links.specs.State.{Node as SeenNode, find, leads_at, node_at, slots_of, changed_at};
ghost use Rattle.patch_links.specs.Waiting.{AreCounted};
ghost use Rattle.patch_links.specs.Lists.{IsListed, IsSettled, AreListed, AreSettled};
ghost use Rattle.patch_links.specs.Invariants.{AreBelow, KeepsRest, Stands};
ghost use Rattle.patch_links.specs.Merging.{may_join, may_join_at, AreRedirected};
ghost use Rattle.patch_links.specs.Joining.{FitsAt, may_join_with, may_join_both, inner, IsAbsorbed, HasAbsorbed, AreClassesJoined, AreClassesJoinedIf, AreTied, KeepsOrder, IsPair, AreLevel, IsSettledFor, IsRelisting};

use crate::adding::alone;
use crate::admitting::admit_all;
use crate::blocks::{Blocks, note};
use crate::keys::Keys;
use crate::leaving::withdraw;
use crate::lists::OfBlock;
use crate::nodes::{Class, Node, Nodes, Reach, block_at, find, is_due, is_ready, note_place};
use patch_model::{BlockNo, Mark, PatchNo};
use patch_numbers::NumberList;
use std::alloc::{AllocError, Allocator};
use std::mem;

/// The lesser number.
fn lesser(a: PatchNo, b: PatchNo) -> PatchNo
    ensures { result ≡ min a b }
{
    if a.0 < b.0 { a } else { b }
}

/// Puts numbers at the end, where there is room for them. Mostly there is one, or none.
fn extend<A: Allocator>(list: &mut NumberList<A>, numbers: &[PatchNo])
    requires { length numbers.now ≤ list.old.room }
    ensures { list.new.items ≡ list.old.items ++ numbers.now }
{
    match numbers {
        [] => {}
        [no] => list.push_reserved(*no),
        _ => list.extend_reserved(numbers),
    }
}

/// Takes in the other class's patches and its followers, where so many of what they waited for was each other.
fn absorb<A: Allocator>(node: &mut Node<A>, other: &Node<A>, inner: usize) -> Result<(), AllocError>
    requires { inner ≤ node.old.waits + other.now.waits }
    ensures absorbed { OnOk result (IsAbsorbed node.old other.now node.new inner) }
    ensures refused { OnErr result (node.new ≡ node.old) }
{
    let Some(waits) = node.waits.checked_add(other.waits) else {
        return Err(AllocError);
    };
    node.class.members.reserve(other.class.members.len())?;
    node.class.after.reserve(other.class.after.len())?;
    node.followers.reserve(other.followers.len())?;
    extend(&mut node.class.members, other.class.members.as_slice());
    extend(&mut node.class.after, other.class.after.as_slice());
    extend(&mut node.followers, other.followers.as_slice());
    node.class.name = lesser(node.class.name, other.class.name);
    node.class.start = node.class.start.min(other.class.start);
    node.class.stop = node.class.stop.max(other.class.stop);
    node.waits = waits - inner;
    Ok(())
}

/// Has a number lead to another key, if it leads to one.
fn redirect_one<A: Allocator>(keys: &mut Keys<A>, no: PatchNo, key: usize)
    ensures here { find keys.new.numbers no ≡ option_map (λ k. key) (find keys.old.numbers no) }
    ensures others { (n : ℕ) → n ≢ no → find keys.new.numbers n ≡ find keys.old.numbers n }
{
    keys.change(no, key);
}

/// Has these numbers lead to another key.
fn redirect<A: Allocator>(keys: &mut Keys<A>, members: &[PatchNo], key: usize)
    ensures { AreRedirected members.now key keys.old.numbers keys.new.numbers }
{
    for no in members {
        redirect_one(keys, *no, key);
    }
}

/// Whether the number leads to the key.
fn leads_to<A: Allocator>(keys: &Keys<A>, key: usize, no: PatchNo) -> bool
    ensures { result ≡ leads_at keys.now.numbers key no }
{
    match find(keys, no) {
        Some(other) => other == key,
        None => false,
    }
}

/// How many of these numbers lead to the key.
fn count_leading<A: Allocator>(keys: &Keys<A>, key: usize, numbers: &[PatchNo]) -> usize
    ensures counted { result ≡ count_by (leads_at keys.now.numbers key) numbers.now }
    ensures most { result ≤ length numbers.now }
{
    let mut count = 0;
    for no in numbers {
        if leads_to(keys, key, *no) {
            count += 1;
        }
    }
    count
}

/// How often two classes, neither of which is in the ready set, wait for each other.
fn count_inner<A: Allocator>(keys: &Keys<A>, keep: usize, other: &Node<A>) -> usize
    ensures { result ≡ (if other.now.ready then 0 else inner keys.now.numbers keep other.now) }
{
    if other.ready {
        0
    } else {
        count_leading(keys, keep, other.class.after.as_slice())
            + count_leading(keys, keep, other.followers.as_slice())
    }
}

/// A class of no patch.
fn nobody<A: Allocator + Copy>(alloc: A) -> Class<A>
    ensures { result.members ≡ [] }
{
    Class {
        name: PatchNo(0),
        members: NumberList::new(alloc),
        block: BlockNo(0),
        mark: Mark::Memory,
        hard: false,
        start: 0,
        stop: 0,
        after: NumberList::new(alloc),
        reach: Reach::none(),
    }
}

/// Takes the class at the key out, and leaves one of no patch in its place.
fn take_at<A: Allocator + Copy>(alloc: A, nodes: &mut Nodes<A>, key: usize) -> Option<Node<A>>
    ensures taken { result ≡ node_at nodes.old.slots key }
    ensures others { (k : ℕ) → k ≢ key → node_at nodes.new.slots k ≡ node_at nodes.old.slots k }
    ensures back { (x : SeenNode) → node_at nodes.old.slots key ≡ Some x → changed_at (λ y. x) nodes.new.slots key ≡ nodes.old.slots }
{
    match nodes.get_mut(key) {
        Some(node) => Some(mem::replace(node, alone(alloc, nobody(alloc), 0))),
        None => None,
    }
}

/// Puts a class in the place of that at the key.
fn put_at<A: Allocator>(nodes: &mut Nodes<A>, key: usize, node: Node<A>)
    ensures { nodes.new.slots ≡ changed_at (λ x. node) nodes.old.slots key }
{
    if let Some(place) = nodes.get_mut(key) {
        *place = node;
    }
}

/// Has the class at the key take in another one, where so many of what they waited for was each other.
fn absorb_at<A: Allocator>(
    nodes: &mut Nodes<A>,
    key: usize,
    other: &Node<A>,
    inner: usize,
) -> Result<(), AllocError>
    requires { FitsAt nodes.old.slots key other.now inner }
    ensures absorbed { OnOk result (HasAbsorbed key other.now inner nodes.old.slots nodes.new.slots) }
    ensures refused { OnErr result (nodes.new.slots ≡ nodes.old.slots) }
{
    match nodes.get_mut(key) {
        Some(node) => absorb(node, other, inner),
        None => Ok(()),
    }
}

/// Takes the class at the key away.
fn remove<A: Allocator>(nodes: &mut Nodes<A>, key: usize)
    ensures gone { node_at nodes.new.slots key ≡ None }
    ensures others { (k : ℕ) → k ≢ key → node_at nodes.new.slots k ≡ node_at nodes.old.slots k }
{
    nodes.try_remove(key);
}

/// The members of the class.
fn members<A: Allocator>(node: &Node<A>) -> &[PatchNo]
    ensures { result.now ≡ node.now.class.members }
{
    node.class.members.as_slice()
}

/// Notes the place of the key that stands there now, if there is one.
fn renote<A: Allocator>(nodes: &mut Nodes<A>, list: &OfBlock<A>, place: usize)
    ensures { nodes.new.slots ≡ nodes.old.slots }
{
    if let Some(key) = list.ready().get(place) {
        note_place(nodes, *key, place);
    }
}

/// The block's lists once the other class is part of that at the key `keep`.
fn relist<A: Allocator>(
    nodes: &mut Nodes<A>,
    list: &mut OfBlock<A>,
    block: BlockNo,
    keep: usize,
    gone: usize,
    other: &Node<A>,
)
    requires { IsRelisting block keep gone other.now.ready nodes.old.slots list.old }
    ensures same { nodes.new.slots ≡ nodes.old.slots }
    ensures listed { IsListed block nodes.new.slots list.new }
{
    if other.ready {
        let place = list.leave_ready(gone, other.place as usize);
        renote(nodes, list, place);
        return;
    }
    list.leave_waiting(keep, gone);
    if is_due(nodes, keep) {
        list.push(keep);
    }
}

/// Makes two classes one, both of which are in the ready set, or neither is.
fn join_alike<A: Allocator + Copy>(
    alloc: A,
    nodes: &mut Nodes<A>,
    keys: &mut Keys<A>,
    list: &mut OfBlock<A>,
    block: BlockNo,
    keep: usize,
    gone: usize,
) -> Result<(), AllocError>
    requires pair { IsPair block keep gone nodes.old.slots }
    requires level { AreLevel block keep gone nodes.old.slots }
    requires tied { AreTied nodes.old.slots keys.old.numbers }
    requires listed { IsListed block nodes.old.slots list.old }
    requires settled { IsSettledFor block keep nodes.old.slots list.old }
    ensures listed { IsListed block nodes.new.slots list.new }
    ensures order { KeepsOrder block nodes.old.slots nodes.new.slots keys.old.numbers keys.new.numbers }
    ensures joined { OnOk result (AreClassesJoined keep gone (slots_of nodes.old.slots) (slots_of nodes.new.slots) keys.old.numbers keys.new.numbers) }
    ensures refused { OnErr result (nodes.new.slots ≡ nodes.old.slots) }
    ensures numbers { OnErr result (keys.new.numbers ≡ keys.old.numbers) }
{
    let Some(other) = take_at(alloc, nodes, gone) else {
        return Ok(());
    };
    let inner = count_inner(keys, keep, &other);
    if let Err(refusal) = absorb_at(nodes, keep, &other, inner) {
        put_at(nodes, gone, other);
        return Err(refusal);
    }
    remove(nodes, gone);
    redirect(keys, members(&other), keep);
    relist(nodes, list, block, keep, gone, &other);
    Ok(())
}

/// Takes that one of the two out of the ready set that is in it, and what follows it there, where just one of them is.
fn level<A: Allocator>(
    nodes: &mut Nodes<A>,
    keys: &Keys<A>,
    list: &mut OfBlock<A>,
    block: BlockNo,
    keep: usize,
    gone: usize,
)
    requires listed { IsListed block nodes.old.slots list.old }
    requires settled { IsSettled list.old }
    requires tied { AreTied nodes.old.slots keys.now.numbers }
    ensures listed { IsListed block nodes.new.slots list.new }
    ensures rest { KeepsRest block nodes.old.slots nodes.new.slots }
    ensures counted { AreCounted nodes.new.slots keys.now.numbers }
    ensures level { AreLevel block keep gone nodes.new.slots }
    ensures settled { IsSettledFor block keep nodes.new.slots list.new }
{
    let ready = is_ready(nodes, block, keep);
    if ready == is_ready(nodes, block, gone) {
        return;
    }
    if ready {
        withdraw(nodes, keys, list, block, keep);
    } else {
        withdraw(nodes, keys, list, block, gone);
    }
}

/// Makes two classes of the block one.
fn join_in<A: Allocator + Copy>(
    alloc: A,
    nodes: &mut Nodes<A>,
    keys: &mut Keys<A>,
    list: &mut OfBlock<A>,
    block: BlockNo,
    keep: usize,
    gone: usize,
) -> Result<(), AllocError>
    requires pair { IsPair block keep gone nodes.old.slots }
    requires tied { AreTied nodes.old.slots keys.old.numbers }
    requires listed { IsListed block nodes.old.slots list.old }
    requires settled { IsSettled list.old }
    ensures listed { IsListed block nodes.new.slots list.new }
    ensures settled { IsSettled list.new }
    ensures order { KeepsOrder block nodes.old.slots nodes.new.slots keys.old.numbers keys.new.numbers }
    ensures joined { OnOk result (AreClassesJoined keep gone (slots_of nodes.old.slots) (slots_of nodes.new.slots) keys.old.numbers keys.new.numbers) }
    ensures refused { OnErr result (slots_of nodes.new.slots ≡ slots_of nodes.old.slots) }
    ensures numbers { OnErr result (keys.new.numbers ≡ keys.old.numbers) }
{
    level(nodes, keys, list, block, keep, gone);
    let result = join_alike(alloc, nodes, keys, list, block, keep, gone);
    admit_all(nodes, keys, list, block);
    result
}

/// Whether both classes are in memory, and of one block.
fn may_join<A: Allocator>(class: &Class<A>, other: &Class<A>) -> bool
    ensures { result ≡ may_join class.now other.now }
{
    matches!(class.mark, Mark::Memory)
        && matches!(other.mark, Mark::Memory)
        && class.block == other.block
}

/// The same of the class at the key and this one.
fn may_join_with<A: Allocator>(nodes: &Nodes<A>, class: &Class<A>, key: usize) -> bool
    ensures { result ≡ may_join_with nodes.now.slots key class.now }
{
    match nodes.get(key) {
        Some(node) => may_join(class, &node.class),
        None => false,
    }
}

/// Whether there are two classes at these keys that may be made one.
fn may_join_both<A: Allocator>(nodes: &Nodes<A>, keep: usize, gone: usize) -> bool
    ensures { result ≡ may_join_both keep gone nodes.now.slots }
{
    match nodes.get(keep) {
        Some(node) => keep != gone && may_join_with(nodes, &node.class, gone),
        None => false,
    }
}

/// Makes two classes of the block one.
fn join_at<A: Allocator + Copy>(
    alloc: A,
    nodes: &mut Nodes<A>,
    keys: &mut Keys<A>,
    blocks: &mut Blocks<A>,
    block: BlockNo,
    keep: usize,
    gone: usize,
) -> Result<(), AllocError>
    requires pair { IsPair block keep gone nodes.old.slots }
    requires tied { AreTied nodes.old.slots keys.old.numbers }
    requires listed { AreListed nodes.old.slots blocks.old.items }
    requires settled { AreSettled blocks.old.items }
    ensures stands { Stands nodes.new.slots keys.new.numbers blocks.new.items }
    ensures below { (made : ℕ) → AreBelow made nodes.old.slots → AreBelow made nodes.new.slots }
    ensures joined { OnOk result (AreClassesJoined keep gone (slots_of nodes.old.slots) (slots_of nodes.new.slots) keys.old.numbers keys.new.numbers) }
    ensures refused { OnErr result (slots_of nodes.new.slots ≡ slots_of nodes.old.slots) }
    ensures numbers { OnErr result (keys.new.numbers ≡ keys.old.numbers) }
{
    match blocks.lists.get_mut(block.0) {
        Some(list) => {
            let joined = join_in(alloc, nodes, keys, list, block, keep, gone);
            note(&mut blocks.open, block, list.is_open());
            joined
        }
        None => Ok(()),
    }
}

/// Makes the classes at these keys one, at the first of them, if they may be.
pub fn join<A: Allocator + Copy>(
    alloc: A,
    nodes: &mut Nodes<A>,
    keys: &mut Keys<A>,
    blocks: &mut Blocks<A>,
    keep: usize,
    gone: usize,
) -> Result<(), AllocError>
    requires { Stands nodes.old.slots keys.old.numbers blocks.old.items }
    ensures stands { Stands nodes.new.slots keys.new.numbers blocks.new.items }
    ensures below { (made : ℕ) → AreBelow made nodes.old.slots → AreBelow made nodes.new.slots }
    ensures joined { OnOk result (AreClassesJoinedIf keep gone (slots_of nodes.old.slots) (slots_of nodes.new.slots) keys.old.numbers keys.new.numbers) }
    ensures idle { may_join_at keep gone (slots_of nodes.old.slots) ≡ false → (slots_of nodes.new.slots ≡ slots_of nodes.old.slots) × (keys.new.numbers ≡ keys.old.numbers) }
    ensures next { may_join_at keep gone (slots_of nodes.old.slots) ≡ false → nodes.new.vacant_key ≡ nodes.old.vacant_key }
    ensures refused { OnErr result (slots_of nodes.new.slots ≡ slots_of nodes.old.slots) }
    ensures numbers { OnErr result (keys.new.numbers ≡ keys.old.numbers) }
{
    if !may_join_both(nodes, keep, gone) {
        return Ok(());
    }
    match block_at(nodes, keep) {
        Some(block) => join_at(alloc, nodes, keys, blocks, block, keep, gone),
        None => Ok(()),
    }
}

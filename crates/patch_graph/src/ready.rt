//! What a send takes, by marks on the keys of classes.
ghost use Rattle.std.specs.Prelude.{◌++◌, OnOk, IfOk, OnErr, ◌≡◌, ◌<◌, ◌≤◌, ◌==◌, ◌&&◌, ℕ, length, slice_set, true, false};
ghost use Rattle.std.specs.List.{list_any};
ghost use Rattle.patch_graph.specs.State.{KeysFit};
ghost use Rattle.patch_graph.specs.Marks.{is_marked, AreClear, HoldsMarked};
ghost use Rattle.patch_graph.specs.Ready.{AreFirstKeys, is_unmet, HoldsKeys, IsRound, MarksReady, members_at, gathered};
ghost use Rattle.patch_links.specs.Ready.{is_met, is_met_at, picks, IsLargestMet, IsArranged};

use crate::classes::is_candidate;
use crate::marks::{is_marked, put_mark, take_mark};
use crate::register::Register;
use patch_links::Class;
use patch_model::{BlockNo, PatchNo};
use std::alloc::{AllocError, Allocator};

/// Lists as many keys as there is room for, from the first one on.
pub fn list_keys(keys: &mut [usize])
    ensures keys { AreFirstKeys keys.new }
    ensures length { length keys.new ≡ length keys.old }
{
    for key in 0..keys.len() {
        keys[key] = key;
    }
}

/// Whether a number isn't live, or its class is marked.
fn is_met_at<A: Allocator>(register: &Register<A>, marks: &[bool], no: PatchNo) -> bool
    ensures { result ≡ is_met_at register.now.numbers (is_marked marks.now) no }
{
    match register.find(no) {
        Some(key) => is_marked(marks, key),
        None => true,
    }
}

/// Whether all that a class depends on is met.
fn is_met<A: Allocator>(register: &Register<A>, class: &Class<A>, marks: &[bool]) -> bool
    ensures { result ≡ is_met register.now.numbers (is_marked marks.now) class.now }
{
    class
        .after
        .as_slice()
        .iter()
        .all(|no| is_met_at(register, marks, *no))
}

/// Whether the class at a key is in memory and of the block.
fn picks<A: Allocator>(register: &Register<A>, block: BlockNo, key: usize) -> bool
    ensures { result ≡ picks register.now.slots block key }
{
    match register.class_at(key) {
        Some(class) => is_candidate(class, block),
        None => false,
    }
}

/// Marks the block's classes in memory, whose keys are among these.
pub fn pick<A: Allocator>(
    register: &Register<A>,
    block: BlockNo,
    keys: &[usize],
    marks: &mut [bool],
)
    requires fits { KeysFit register.now.slots (length marks.old) }
    requires clear { AreClear marks.old }
    requires complete { HoldsKeys register.now.slots block keys.now }
    ensures picked { (key : ℕ) → is_marked marks.new key ≡ picks register.now.slots block key }
    ensures length { length marks.new ≡ length marks.old }
{
    for key in keys {
        if picks(register, block, *key) {
            put_mark(marks, *key);
        }
    }
}

/// Whether the key is marked, and its class depends on something that isn't met.
fn is_unmet<A: Allocator>(register: &Register<A>, marks: &[bool], key: usize) -> bool
    ensures { result ≡ is_unmet register.now.slots register.now.numbers (is_marked marks.now) key }
{
    if !is_marked(marks, key) {
        return false;
    }
    match register.class_at(key) {
        Some(class) => !is_met(register, class, marks),
        None => false,
    }
}

/// Takes the mark off each class, of these keys, whose dependencies aren't all marked. Whether it took any.
fn strike<A: Allocator>(register: &Register<A>, keys: &[usize], marks: &mut [bool]) -> bool
    requires { HoldsMarked marks.old keys.now }
    ensures { IsRound register.now.slots register.now.numbers marks.old marks.new result }
{
    let mut changed = false;
    for key in keys {
        if is_unmet(register, marks, *key) {
            take_mark(marks, *key);
            changed = true;
        }
    }
    changed
}

/// Takes marks off until each marked class depends on marked ones alone.
pub fn settle<A: Allocator>(register: &Register<A>, keys: &[usize], marks: &mut [bool])
    requires { HoldsMarked marks.old keys.now }
    ensures largest { IsLargestMet register.now.slots register.now.numbers (is_marked marks.old) (is_marked marks.new) }
    ensures length { length marks.new ≡ length marks.old }
{
    let mut changed = true;
    while changed {
        changed = strike(register, keys, marks);
    }
}

/// Marks what a send of the block takes, of these keys.
pub fn mark_ready<A: Allocator>(
    register: &Register<A>,
    block: BlockNo,
    keys: &[usize],
    marks: &mut [bool],
)
    requires fits { KeysFit register.now.slots (length marks.old) }
    requires clear { AreClear marks.old }
    requires complete { HoldsKeys register.now.slots block keys.now }
    ensures largest { MarksReady register.now block marks.new }
    ensures held { HoldsMarked marks.new keys.now }
    ensures length { length marks.new ≡ length marks.old }
{
    pick(register, block, keys, marks);
    settle(register, keys, marks);
}

/// Adds the numbers of the class at a key, if it is marked.
fn add_members<A: Allocator, B: Allocator>(
    register: &Register<A>,
    marks: &[bool],
    key: usize,
    all: &mut Vec<PatchNo, B>,
) -> Result<(), AllocError>
    ensures { OnOk result (all.new.items ≡ all.old.items ++ members_at register.now.slots marks.now key) }
{
    if is_marked(marks, key) {
        if let Some(class) = register.class_at(key) {
            all.extend_from_slice(class.members.as_slice())?;
        }
    }
    Ok(())
}

/// The numbers of the marked classes of these keys, in some order.
fn gather<A: Allocator, B: Allocator>(
    alloc: B,
    register: &Register<A>,
    keys: &[usize],
    marks: &[bool],
) -> Result<Vec<PatchNo, B>, AllocError>
    ensures { IfOk result (λ all. all.items ≡ gathered register.now.slots marks.now keys.now) }
{
    let mut all = Vec::new(alloc);
    for key in keys {
        add_members(register, marks, *key, &mut all)?;
    }
    Ok(all)
}

/// Puts numbers in order, each once.
fn arrange<B: Allocator>(all: &mut Vec<PatchNo, B>) -> Result<(), AllocError>
    ensures { OnOk result (IsArranged all.old.items all.new.items) }
{
    all.sort()?;
    all.dedup();
    Ok(())
}

/// The numbers of the marked classes of these keys, rising.
pub fn marked_numbers<A: Allocator, B: Allocator>(
    alloc: B,
    register: &Register<A>,
    keys: &[usize],
    marks: &[bool],
) -> Result<Vec<PatchNo, B>, AllocError>
    ensures { IfOk result (λ all. IsArranged (gathered register.now.slots marks.now keys.now) all.items) }
{
    let mut all = gather(alloc, register, keys, marks)?;
    arrange(&mut all)?;
    Ok(all)
}

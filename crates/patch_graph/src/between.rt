//! The least name of a class between two others.
ghost use Rattle.std.specs.Prelude.{◌≡◌, ◌≤◌, ℕ, length};
ghost use Rattle.std.specs.List.{list_all};
ghost use Rattle.patch_graph.specs.Between.{lies, lesser, name_if, IsLeastOf, AreWithout, are_gone, is_leaf, ends_at, rests_on_leaves};
ghost use Rattle.patch_graph.specs.Marks.{AreClear, HoldsMarked};

use crate::marks::{is_marked, put_mark};
use crate::register::Register;
use patch_model::PatchNo;
use std::alloc::Allocator;

/// Whether the key is of a class between: marked, no dead end, and neither end.
fn lies(marks: &[bool], dead_ends: &[bool], from: usize, to: usize, key: usize) -> bool
    ensures { result ≡ lies marks.now dead_ends.now from to key }
{
    is_marked(marks, key) && !is_marked(dead_ends, key) && (key != from && key != to)
}

/// The lesser name, of those that there are.
fn lesser(a: Option<PatchNo>, b: Option<PatchNo>) -> Option<PatchNo>
    ensures { result ≡ lesser a b }
{
    match a {
        None => b,
        Some(x) => match b {
            None => Some(x),
            Some(y) => if x.0 < y.0 { Some(x) } else { Some(y) },
        },
    }
}

/// Whether none of the numbers leads to a class.
fn are_gone<A: Allocator>(register: &Register<A>, numbers: &[PatchNo]) -> bool
    ensures { result ≡ are_gone register.now.numbers numbers.now }
{
    numbers.iter().all(|no| register.find(*no).is_none())
}

/// Whether the class at the key depends on no live one.
fn is_leaf<A: Allocator>(register: &Register<A>, key: usize) -> bool
    ensures { result ≡ is_leaf register.now.slots register.now.numbers key }
{
    match register.class_at(key) {
        Some(class) => are_gone(register, class.after.as_slice()),
        None => true,
    }
}

/// Whether the number leads to one of the two keys, to none, or to a class that depends on no live one.
fn ends_at<A: Allocator>(register: &Register<A>, from: usize, to: usize, no: PatchNo) -> bool
    ensures { result ≡ ends_at register.now.slots register.now.numbers from to no }
{
    match register.find(no) {
        Some(key) => key == from || (key == to || is_leaf(register, key)),
        None => true,
    }
}

/// Whether each of the numbers does.
fn all_end_at<A: Allocator>(
    register: &Register<A>,
    from: usize,
    to: usize,
    numbers: &[PatchNo],
) -> bool
    ensures { result ≡ list_all (ends_at register.now.slots register.now.numbers from to) numbers.now }
{
    numbers.iter().all(|no| ends_at(register, from, to, *no))
}

/// Whether the class at the one key depends directly on no class but that at the other and such as depend on no live one:
/// then nothing lies between. So it is where a pointer record is written again behind new data.
pub fn rests_on_leaves<A: Allocator>(register: &Register<A>, from: usize, to: usize) -> bool
    ensures { result ≡ rests_on_leaves register.now.slots register.now.numbers from to }
{
    match register.class_at(from) {
        Some(class) => all_end_at(register, from, to, class.after.as_slice()),
        None => true,
    }
}

/// The name of the class at the key, if that lies between.
fn name_if<A: Allocator>(
    register: &Register<A>,
    marks: &[bool],
    dead_ends: &[bool],
    from: usize,
    to: usize,
    key: usize,
) -> Option<PatchNo>
    ensures { result ≡ name_if register.now.slots (lies marks.now dead_ends.now from to) key }
{
    if lies(marks, dead_ends, from, to, key) {
        register.name_at(key)
    } else {
        None
    }
}

/// The least name of a class, of these keys, that is marked, no dead end, and neither end.
pub fn least_name<A: Allocator>(
    register: &Register<A>,
    keys: &[usize],
    marks: &[bool],
    dead_ends: &[bool],
    from: usize,
    to: usize,
) -> Option<PatchNo>
    ensures { IsLeastOf register.now.slots (lies marks.now dead_ends.now from to) keys.now (length keys.now) result }
{
    let mut least = None;
    for key in keys {
        least = lesser(least, name_if(register, marks, dead_ends, from, to, *key));
    }
    least
}

/// Copies the marks of these keys, but for one key.
pub fn copy_without(keys: &[usize], marks: &[bool], dead_ends: &mut [bool], to: usize)
    requires fits { length marks.now ≤ length dead_ends.old }
    requires clear { AreClear dead_ends.old }
    requires held { HoldsMarked marks.now keys.now }
    ensures copied { AreWithout to marks.now dead_ends.new }
    ensures length { length dead_ends.new ≡ length dead_ends.old }
{
    for key in keys {
        if is_marked(marks, *key) && *key != to {
            put_mark(dead_ends, *key);
        }
    }
}

//! Two classes made one.
ghost use Rattle.std.specs.Prelude.{◌≡◌, ℕ, false, IfOk, OnOk, OnErr};
ghost use Rattle.patch_links.specs.Merging.{may_join_at};
ghost use Rattle.patch_graph.specs.State.{KeysFit};
ghost use Rattle.patch_graph.specs.Merging.{HasJoined, Merges, may_be_one};

use crate::register::Register;
use patch_model::PatchNo;
use std::alloc::{AllocError, Allocator};

/// Puts the class at the key `gone` into that at the key `keep`, where both are in memory and of one block.
fn join<A: Allocator + Copy>(
    register: &mut Register<A>,
    keep: usize,
    gone: usize,
) -> Result<(), AllocError>
    ensures joined { OnOk result (HasJoined keep gone register.old register.new) }
    ensures idle { may_join_at keep gone register.old.slots ≡ false → register.new ≡ register.old }
    ensures refused { OnErr result (register.new ≡ register.old) }
    ensures made { register.new.made ≡ register.old.made }
    ensures tops { register.new.tops ≡ register.old.tops }
    ensures fit { (room : ℕ) → KeysFit register.old.slots room → KeysFit register.new.slots room }
{
    register.links.join(keep, gone)
}

/// How many members the class at the key has.
fn members_at<A: Allocator>(register: &Register<A>, key: usize) -> usize {
    match register.class_at(key) {
        Some(class) => class.members.len(),
        None => 0,
    }
}

/// Makes one class of the classes of two patches, where that is legal. The name of the class.
pub fn merge<A: Allocator + Copy>(
    register: &mut Register<A>,
    a: PatchNo,
    b: PatchNo,
) -> Result<PatchNo, AllocError>
    ensures answer { IfOk result (Merges register.old register.new a b) }
    ensures idle { may_be_one register.old.slots register.old.numbers a b ≡ false → register.new ≡ register.old }
    ensures refused { OnErr result (register.new ≡ register.old) }
    ensures made { register.new.made ≡ register.old.made }
    ensures fit { (room : ℕ) → KeysFit register.old.slots room → KeysFit register.new.slots room }
{
    // The patches of a legal merge are live, so each of them has a key, and its key a class.
    let Some(first) = register.find(a) else {
        return Ok(a);
    };
    let Some(second) = register.find(b) else {
        return Ok(a);
    };
    if members_at(register, first) < members_at(register, second) {
        join(register, second, first)?;
        Ok(register.name_at(second).unwrap_or(a))
    } else {
        join(register, first, second)?;
        Ok(register.name_at(first).unwrap_or(a))
    }
}

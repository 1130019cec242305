//! Classes made durable.
ghost use Rattle.std.specs.Prelude.{◌≡◌, ℕ};
ghost use Rattle.patch_graph.specs.State.{KeysFit};
ghost use Rattle.patch_graph.specs.Meaning.{StandsForSame};
ghost use Rattle.patch_graph.specs.MarkDurable.{MakesDurable};

use crate::register::Register;
use crate::skylines::empty;
use patch_model::BlockNo;
use std::alloc::Allocator;

/// Forgets what is in flight of the block, and nothing else.
fn land_classes<A: Allocator>(register: &mut Register<A>, block: BlockNo)
    ensures answer { MakesDurable register.old register.new block }
    ensures made { register.new.made ≡ register.old.made }
    ensures fit { (room : ℕ) → KeysFit register.old.slots room → KeysFit register.new.slots room }
{
    register.links.land(block);
}

/// Empties the skyline of a block that has no class: all its patches are durable.
fn empty_unlinked<A: Allocator>(register: &mut Register<A>, block: BlockNo)
    ensures same { StandsForSame register.old register.new }
    ensures made { register.new.made ≡ register.old.made }
    ensures slots { register.new.slots ≡ register.old.slots }
{
    if register.links.is_empty_of(block) {
        empty(&mut register.skylines, block);
    }
}

/// Makes durable what is in flight of the block, and forgets it.
pub fn land<A: Allocator>(register: &mut Register<A>, block: BlockNo)
    ensures answer { MakesDurable register.old register.new block }
    ensures made { register.new.made ≡ register.old.made }
    ensures fit { (room : ℕ) → KeysFit register.old.slots room → KeysFit register.new.slots room }
{
    land_classes(register, block);
    empty_unlinked(register, block);
}

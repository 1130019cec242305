//! Blocks of which nothing is live, and then nothing is kept.
ghost use Rattle.std.specs.Prelude.{◌≡◌};
ghost use Rattle.patch_graph.specs.Meaning.{StandsForSame};

use crate::register::Register;
use crate::skylines;
use patch_model::BlockNo;
use std::alloc::Allocator;

/// Lets what is kept of a block go that has no class: all its patches are durable.
pub fn forget<A: Allocator>(register: &mut Register<A>, block: BlockNo)
    ensures same { StandsForSame register.old register.new }
    ensures made { register.new.made ≡ register.old.made }
    ensures slots { register.new.slots ≡ register.old.slots }
{
    if register.links.is_empty_of(block) {
        skylines::forget(&mut register.skylines, block);
        register.links.forget(block);
    }
}

//! Classes put in flight.
ghost use Rattle.std.specs.Prelude.{◌≡◌, ℕ};
ghost use Rattle.patch_graph.specs.State.{KeysFit};
ghost use Rattle.patch_graph.specs.MarkFlight.{PutsInFlight};

use crate::register::Register;
use patch_model::{BlockNo, laws};
use std::alloc::Allocator;

/// Puts in flight what a send of the block takes.
pub fn fly<A: Allocator>(register: &mut Register<A>, block: BlockNo)
    ensures answer { PutsInFlight register.old register.new block }
    ensures made { register.new.made ≡ register.old.made }
    ensures fit { (room : ℕ) → KeysFit register.old.slots room → KeysFit register.new.slots room }
{
    laws::ready_is_largest();
    register.links.fly(block);
}

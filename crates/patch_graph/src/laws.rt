//! What tests and proofs may rest on. No other part of the program calls it.
ghost use Rattle.std.specs.Prelude.{◌≡◌, IfOk};
ghost use Rattle.patch_graph.specs.Ready.{AreReady};

use crate::graphs::Graph;
use patch_model::{BlockNo, OutOfMemory, PatchNo};
use std::alloc::Allocator;

/// `Graph::ready` by a search, whatever the graph knows: the same answer, at the cost of a look at each class and at each
/// dependency of the block's classes in memory, and of another one for each round in which some are struck out.
pub fn ready_slow<A: Allocator + Copy, B: Allocator>(
    graph: &mut Graph<A>,
    alloc: B,
    block: BlockNo,
) -> Result<Vec<PatchNo, B>, OutOfMemory>
    ensures answer { IfOk result (λ numbers. AreReady graph.old block numbers.items) }
    ensures same { graph.new ≡ graph.old }
{
    graph.ready_searched(alloc, block)
}

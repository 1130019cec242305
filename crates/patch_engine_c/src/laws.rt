//! What the caches of all programs keep, as the contract of a function that does nothing.
ghost use Rattle.std.specs.Global.{Global as Heap};
ghost use Rattle.patch_cache.specs.Promise.{TakingBack, MovesArePermitted};
ghost use Rattle.patch_engine.specs.Promise.{GroupsInOrder, ImagesHold, CrashesInOrder};

use patch_engine::laws as engine_laws;
use std::alloc::Global;

/// For every execution that the engine of a handle represents: a set of its patches that is closed under dependencies, and holds a patch
/// of a group, holds all patches of all groups before it; the image of each write that is out holds exactly its block's durable and
/// in-flight patches; what a crash can leave is closed, made of whole classes, and in the order of groups; and classes that are taken
/// back in a permitted order, and put back, leave the block as it was.
pub fn promise()
    ensures order { GroupsInOrder Heap }
    ensures images { ImagesHold Heap }
    ensures crashes { CrashesInOrder Heap }
    ensures taking_back { TakingBack }
    ensures moves { MovesArePermitted }
{
    engine_laws::promise::<Global>();
}

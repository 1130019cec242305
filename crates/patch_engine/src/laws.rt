//! What the definitions give of engines, as the contract of a function that does nothing.
ghost use Rattle.patch_cache.specs.Promise.{TakingBack, MovesArePermitted};
ghost use Rattle.patch_engine.specs.Promise.{GroupsInOrder, ImagesHold, CrashesInOrder};

use std::alloc::Allocator;

/// For every execution that an engine represents: a set of its patches that is closed under dependencies, and holds a patch of a group,
/// holds all patches of all groups before it; the image of each write that is out holds exactly its block's durable and
/// in-flight patches; what a crash can leave is closed, made of whole classes, and in the order of groups; and classes that are taken
/// back in a permitted order, and put back, leave the block as it was.
pub fn promise<A: Allocator + Copy>()
    ensures order { GroupsInOrder A }
    ensures images { ImagesHold A }
    ensures crashes { CrashesInOrder A }
    ensures taking_back { TakingBack }
    ensures moves { MovesArePermitted }
{
    patch_group::laws::promise();
    patch_model::laws::crash_sets_are_closed();
}

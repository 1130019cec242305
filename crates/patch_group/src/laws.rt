//! What the rules of groups give, each law the contract of a function that does nothing.
ghost use Rattle.patch_cache.specs.Promise.{TakingBack, MovesArePermitted, LooksShow, ImagesSent, CrashesClosed};
ghost use Rattle.patch_plans.specs.Order.{ClosedSetsHoldBefore, GroupsAreSmall};
ghost use Rattle.patch_group.specs.Promise.{GroupsInOrder, AsksKeep, BeforeIsAChain};

/// For every list of asks of a cache with groups: a set of its patches that is closed under dependencies, as those that a crash
/// can leave, and that holds a patch of a group, holds all patches of all groups before it, to which chains of accepted
/// `depend` calls lead. And what the cache promises of every execution.
pub fn promise()
    ensures order { ClosedSetsHoldBefore }
    ensures in_order { GroupsInOrder }
    ensures taking_back { TakingBack }
    ensures moves { MovesArePermitted }
    ensures looks { LooksShow }
    ensures images { ImagesSent }
    ensures closed { CrashesClosed }
{
    patch_cache::laws::promise();
    patch_model::laws::steps_extend();
    patch_model::laws::executions_are_orderly();
}

/// Each patch of a group names all patches of all groups before it, after every list of asks, as far as they are answered.
pub fn asks_keep_order()
    ensures { AsksKeep }
{
    patch_model::laws::steps_extend();
    patch_model::laws::executions_are_orderly();
}

/// The groups before one are those to which a chain of accepted orders leads from it.
pub fn before_is_a_chain()
    ensures { BeforeIsAChain }
{}

/// A group has no more patches than were made.
pub fn groups_are_small()
    ensures { GroupsAreSmall }
{}

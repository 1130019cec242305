//! What the rules of groups keep true, and how plans are put together, each law the contract of a function that does nothing.
ghost use Rattle.std.specs.Prelude.{◌≡◌};
ghost use Rattle.patch_plans.specs.Order.{NoneAreOfAny, StepsKeep, PatchesKeep, CallsKeep};
ghost use Rattle.patch_plans.specs.Laws.{PlansJoin};
ghost use Rattle.patch_plans.specs.declared.limits.TheConstants.{MAX_GROUPS};

/// Each patch of a group names all patches of all groups before it: so it is where there are no groups, and each step, each
/// patch that names what it has to and each call that isn't refused keeps it so.
pub fn order_is_kept()
    ensures none { NoneAreOfAny }
    ensures steps { StepsKeep }
    ensures patches { PatchesKeep }
    ensures calls { CallsKeep }
{
    patch_model::laws::steps_extend();
    patch_model::laws::executions_are_orderly();
}

/// The steps of two plans, one after the other, are those of the first and then those of the second.
pub fn plans_join()
    ensures { PlansJoin }
{}

/// The limit that all else names by its constant, in numbers.
pub fn limits_are_numbers()
    ensures groups { MAX_GROUPS ≡ 1024 }
{}

//! Laws of plans and of what they leave of the bytes, each the contract of a function that does nothing.
ghost use Rattle.patch_extent.specs.Laws.{PlansKeepGroups, OtherStepsLeaveExtents, AppendsPutBytes, AppendsKeepBytes, ResetsKeepBytes};

/// Groups stay those of the execution over a plan: each patch of a group names all patches of all groups before it.
pub fn plans_keep_groups()
    ensures { PlansKeepGroups }
{
    patch_model::laws::steps_extend();
    patch_plans::laws::order_is_kept();
}

/// Merges, sends and completions leave the extents as they are: only patches move their pointers.
pub fn other_steps_leave_extents()
    ensures { OtherStepsLeaveExtents }
{
    patch_model::laws::steps_extend();
}

/// What is cached at the place of an append that is done is what was appended.
pub fn appends_put_bytes()
    ensures { AppendsPutBytes }
{
    patch_model::laws::steps_extend();
    patch_model::laws::executions_are_orderly();
}

/// An append, done or cut short, leaves each byte below its extent's pointer, and each of the other extents, as it was; a reset
/// leaves them all.
pub fn bytes_stay()
    ensures appends { AppendsKeepBytes }
    ensures resets { ResetsKeepBytes }
{
    patch_model::laws::steps_extend();
    patch_model::laws::executions_are_orderly();
}

//! The patches of a plan are counted before the first of them is made.
ghost use Rattle.std.specs.Prelude.{◌≡◌, ◌<◌, Some, None, MatchResult};
ghost use Rattle.patch_extent.specs.Refusals.{count_cause};
ghost use Rattle.patch_extent.specs.Refusing.{why_not_held};

use patch_cache::Cache;
use patch_model::{MAX_LIVE, MAX_PATCHES, Named, PatchNo};
use std::alloc::Allocator;

/// Why the patches of a plan can't all be made. The causes are tested in this order.
#[derive(Clone, Copy)]
pub(crate) enum CountRefusal {
    UnknownDependency,
    NumbersSpent,
    TooManyLive,
}

/// Whether so many patches more can be made, by a caller who names these.
pub(crate) fn count_patches<A: Allocator + Copy>(
    cache: &Cache<A>,
    after: &[PatchNo],
    count: u32,
) -> Result<(), CountRefusal>
    requires { count < 1000 }
    ensures { MatchResult result
        (λ _. why_not_held cache.now after.now count ≡ None)
        (λ refusal. why_not_held cache.now after.now count ≡ Some (count_cause refusal)) }
{
    if Named::Listed(after).has_unmade(cache.made()) {
        return Err(CountRefusal::UnknownDependency);
    }
    if cache.made() > MAX_PATCHES - count {
        return Err(CountRefusal::NumbersSpent);
    }
    if cache.live() > MAX_LIVE - count {
        return Err(CountRefusal::TooManyLive);
    }
    Ok(())
}

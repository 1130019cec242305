//! What stays of a store that is open.
ghost use Rattle.patch_c.specs.LegalStores.{CallsStay};
ghost use Rattle.patch_c.specs.Putting.{PutsStay};
ghost use Rattle.patch_c.specs.Renewing.{RenewalsStay};

use patch_model::laws as model_laws;

/// A put that wins extents back begins no write and ends none: neither do the reclaims that it makes.
pub fn puts_stay()
    ensures { PutsStay }
{
    model_laws::steps_extend();
    model_laws::images_stay();
    patch_history::laws::histories_begin();
}

/// A store that has begun anew has no write under way, and the blocks of its file are those that it began with.
pub fn renewals_stay()
    ensures { RenewalsStay }
{
    patch_cache::laws::clean_blocks_are_held();
}

/// A call begins no write and ends none, so a store with none under way has none behind it.
pub fn calls_stay()
    ensures { CallsStay }
{
    model_laws::steps_extend();
    model_laws::images_stay();
}

//! What the definitions say of a replay, each law the contract of a function that does nothing.
ghost use Rattle.std.specs.Prelude.{◌≡◌};
ghost use Rattle.patch_replay.specs.Laws.{TextsAreSingle};
ghost use Rattle.patch_replay.specs.declared.streams.TheConstants.{MAX_READS};

/// The limit that all else names by its constant, in numbers.
pub fn limits_are_numbers()
    ensures reads { MAX_READS ≡ 33554432 }
{}

/// A script has one text, one with syncs too.
pub fn texts_are_single()
    ensures { TextsAreSingle }
{
    patch_cache::laws::answers_are_single();
    patch_model::laws::steps_extend();
}

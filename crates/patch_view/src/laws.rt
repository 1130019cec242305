//! Laws of the definitions, each the contract of a function that does nothing.
ghost use Rattle.patch_view.specs.Laws.{OrderlyIsCoherent, LastIsNext, FlightMayLand, UppermostMayBeTaken, TakenWithoutCause, PutBackWithoutCause, NumberNamesClass, OneValue, ImageIsWithout, SendLeavesTheImage};

/// What the calls ask of a block's history is true of each block of an execution.
pub fn blocks_are_coherent()
    ensures coherent { OrderlyIsCoherent }
    ensures next { LastIsNext }
{}

/// The classes in flight of an execution's block may land.
pub fn flights_may_land()
    ensures { FlightMayLand }
{}

/// An undoable class may be taken once each live class that depends directly on it is taken: so one on which none depends
/// may always be.
pub fn uppermost_may_be_taken()
    ensures { UppermostMayBeTaken }
{}

/// A class may be taken, and put back, just where no cause of a refusal stands against it; a patch's number names its class.
pub fn refusals_have_causes()
    ensures take { TakenWithoutCause }
    ensures put_back { PutBackWithoutCause }
    ensures class { NumberNamesClass }
{}

/// Of records with one outline, one history and one set of taken classes leave one value.
pub fn one_value()
    ensures { OneValue }
{}

/// With all that is in memory taken back, the block is its image; and what a send leaves behind may be taken all at once.
pub fn image_is_without()
    ensures image { ImageIsWithout }
    ensures send { SendLeavesTheImage }
{
    patch_model::laws::steps_change_blocks();
}

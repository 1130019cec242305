//! A store that is open.
ghost use Rattle.patch_c.specs.LegalStores.{StandsSomewhere};
ghost use Rattle.patch_c.specs.Tape.{contents_of};

use crate::tape::Tape;
use patch_store::Store;

/// What the syncs of a store have done since it was opened.
#[derive(Clone, Copy)]
pub struct Tally {
    /// How many syncs were done.
    pub syncs: u64,
    /// How many waves they have written.
    pub waves: u64,
}

/// A store, and what has to be done to its file yet. It stands at the end of a legal history. While no sync was refused no write is under
/// way, and the file, once the tape's events are done, has the blocks that this history has left: of what the calls say of every history
/// that the store represents, there is one.
#[derive(Drop)]
pub struct Opened {
    pub store: Store,
    pub device: Tape,
    /// The number of the file, which is the caller's.
    pub file: i32,
    /// Whether the file is synced at each barrier. Where it isn't, the program in C syncs it behind the last event alone, and what is
    /// said of a cut holds where the program ends and the power stays.
    pub barriers: bool,
    /// Whether extents are won back by a reclaim that is asked for alone. Else a put that finds no room wins some back first.
    pub manual: bool,
    pub tally: Tally,
    /// Whether a sync was refused. Then some patches may stay away from the file for good, and no sync is done any more.
    pub is_spent: bool,
    ghost stands: { ∥ StandsSomewhere is_spent store (contents_of device) ∥₁ },
}

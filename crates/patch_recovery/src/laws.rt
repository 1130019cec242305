//! Laws of the definitions. Each is the contract of a function that does nothing: who calls it may rest on the law.
ghost use Rattle.patch_recovery.specs.Naming.{NamesSuffice};
ghost use Rattle.patch_recovery.specs.Store.{StoresBegin, StoresGrow, OtherStepsLeaveStores, FramesStay};
ghost use Rattle.patch_recovery.specs.Closed.{ClosedDisksOpen, ClosedDisksHaveWords, CrashDisksOpen};
ghost use Rattle.patch_recovery.specs.Closed.{CrashDisksHaveWords, CachedBlocksOpen};
ghost use Rattle.patch_recovery.specs.Putting.{PutsAreWellMade, PutsAgainAreMoves};
ghost use Rattle.patch_recovery.specs.Lasting.{LedgersLast, ReadBlocksAreSound};

// What every closed set leaves.

/// Whatever closed set of the store's patches reached the disk, it opens and says what their changes alone leave. Each
/// key has what the last of them said of it: its value by its last put or delete that is in the set, or a later move of
/// which is.
pub fn closed_disks_open()
    ensures open { ClosedDisksOpen }
    ensures words { ClosedDisksHaveWords }
{
    patch_frame::laws::slots_are_read_again();
    patch_frame::laws::pointers_are_read_again();
}

/// What a crash leaves is the disk of a closed set, so it opens and says what the changes that had reached it leave.
pub fn crash_disks_open()
    ensures open { CrashDisksOpen }
    ensures words { CrashDisksHaveWords }
{
    patch_model::laws::crash_sets_are_closed();
    closed_disks_open();
}

/// The ledger of a store's changes is what its cached blocks say.
pub fn cached_blocks_open()
    ensures { CachedBlocksOpen }
{
    patch_frame::laws::slots_are_read_again();
    patch_frame::laws::pointers_are_read_again();
}

// For who builds a store.

/// A store begins with blocks that are read, and grows by a change at a time. Merges, sends and completions play no
/// part.
pub fn stores_grow()
    ensures begin { StoresBegin }
    ensures grow { StoresGrow }
    ensures others { OtherStepsLeaveStores }
{
    patch_model::laws::steps_extend();
}

/// What a patch has to name, so that it comes after all that it has to: the newest of each kind.
pub fn names_suffice()
    ensures { NamesSuffice }
{}

/// The changes of a put: bytes, pointer, slot. A put of what the slot's frame holds already is a move.
pub fn puts_are_well_made()
    ensures well_made { PutsAreWellMade }
    ensures moves { PutsAgainAreMoves }
{
    patch_frame::laws::frames_are_read_again();
    patch_frame::laws::frames_fit_extents();
}

/// The frames that slots name stay as they are.
pub fn frames_stay()
    ensures { FramesStay }
{}

/// Changes that were each well made leave of a sound ledger a sound one, and its map has what they say. An upgrade among
/// them moves nothing.
pub fn ledgers_last()
    ensures { LedgersLast }
{}

/// Blocks that are read are divided as a disk may be, and what they say is sound.
pub fn read_blocks_are_sound()
    ensures { ReadBlocksAreSound }
{}

//! What winning extents back comes to, each law the contract of a function that does nothing.
ghost use Rattle.patch_room.specs.Laws.{LiveBytesAreOfFrames, DisksAreFull, ReclaimsFit, PutsFitBehind, ReclaimsEmpty, PutsKeepEmpty};
ghost use Rattle.patch_room.specs.LawsBelow.{Given};

/// The frames that a reclaim of an extent moves have together the bytes that are live in it.
pub fn live_bytes_are_of_frames()
    ensures { LiveBytesAreOfFrames }
{}

/// Where an extent is empty, another one whose live bytes fit an extent can be won back: each of its frames finds room. A frame
/// that would fit an extent beside those bytes finds one then.
pub fn reclaims_fit()
    ensures fit { ReclaimsFit }
    ensures behind { PutsFitBehind }
{
    laws_below();
}

/// Behind each reclaim that is done an extent is empty, and no put takes the last one.
pub fn empties_are_kept()
    ensures reclaims { ReclaimsEmpty }
    ensures puts { PutsKeepEmpty }
{
    laws_below();
}

/// Where a put finds no extent, and none may be won back whose live bytes leave room for it, the disk is full.
pub fn disks_are_full()
    ensures { DisksAreFull }
{
    laws_below();
}

// What the laws of the crates below say.
pub(crate) fn laws_below()
    ensures { Given }
{
    patch_frame::laws::frames_are_read_again();
    patch_frame::laws::frames_fit_extents();
    patch_history::laws::extents_are_kept();
    patch_history::laws::shelves_are_kept();
    patch_history::laws::histories_are_of_stores();
    patch_history::laws::commands_fit();
}

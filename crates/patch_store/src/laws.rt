//! What is true of every store, each law the contract of a function that does nothing.
ghost use Rattle.patch_store.specs.HistoryLaws.{Given};
ghost use Rattle.patch_store.specs.Laws.{CachedDisksOpen, ClosedDisksOpen, CrashDisksOpen, CountsAgree};
ghost use Rattle.patch_store.specs.Laws.{CountsAreSingle, StoresAreOfSteps};

/// Whatever closed set of a store's patches reached the disk, it opens: each key has the value of its last put or delete whose
/// patch is in the set, or a later move of which is. What a crash leaves is such a disk. And the cached blocks open as the map
/// of the commands. So it is behind each call, as each leaves a store that represents a history.
pub fn closed_disks_open()
    ensures cached { CachedDisksOpen }
    ensures closed { ClosedDisksOpen }
    ensures crash { CrashDisksOpen }
{
    patch_history::laws::histories_are_of_stores();
    patch_history::laws::closed_disks_open();
}

/// A history tells how many of its merges were left out for want of memory: the stores that represent it have counted alike.
pub fn counts_agree()
    ensures { CountsAgree }
{}

/// The opening blocks and the steps say how many merges were left out for want of memory, whatever calls have made the steps:
/// each that was made stands right behind its patch, and the steps before say which of the others could have come.
pub fn counts_are_single()
    ensures { CountsAreSingle }
{
    patch_history::laws::plans_continue();
    patch_history::laws::shelves_are_single();
}

/// A store that represents a history represents each legal one of the same opening blocks and the same steps that leads to the same
/// groups.
pub fn stores_are_of_steps()
    ensures { StoresAreOfSteps }
{
    counts_are_single();
    patch_history::laws::shelves_are_single();
}

// What the laws of histories say that a reclaim rests on.
pub(crate) fn laws_below()
    ensures { Given }
{
    patch_history::laws::histories_extend();
    patch_history::laws::standings_run();
    patch_history::laws::shelves_are_kept();
    patch_history::laws::histories_are_of_stores();
    patch_history::laws::extents_are_kept();
    patch_history::laws::plans_continue();
    patch_history::laws::commands_fit();
}

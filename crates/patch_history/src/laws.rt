//! Laws of histories.
ghost use Rattle.patch_history.specs.ShelfLedger.{ShelvesAreKept, NewestAreKept, KeptAreMade, KeptAreNamed};
ghost use Rattle.patch_history.specs.Steps.{FramesCompose, AppendsAreCuts, BegunAppendsAreCuts, ShelvesGoOn, WholesJoin, CutsJoin, WholesAreCuts};
ghost use Rattle.patch_history.specs.Steps.{CutsAreFirst, PlansAreOfStores, UpgradesSpellAlike};
ghost use Rattle.patch_history.specs.Fitting.{PutsFit, FramesAreThere, ReclaimsGoOn};
ghost use Rattle.patch_history.specs.LawsBelow.{Given};
ghost use Rattle.patch_history.specs.Closed.{HistoriesMove, ClosedDisksOpen, CrashDisksOpen};
ghost use Rattle.patch_history.specs.Laws.{HistoriesExtend, HistoriesBegin, StandingsRun, HistoriesAreOfStores, MapsAreSaid, HistoriesAreRead, StandingsAgree, ExtentsAreKept, GroupsAreKept, GroupsAreFew};
ghost use Rattle.patch_history.specs.Chained.{GroupsAreChained, ChainsAreKept};
ghost use Rattle.patch_history.specs.Single.{ShelvesAreOfChanges, ChangesAreSingle, ShelvesAreSingle};

/// One event more is judged by the history so far.
pub fn histories_extend()
    ensures { HistoriesExtend }
{}

/// The first events of a legal history are a legal history.
pub fn histories_begin()
    ensures { HistoriesBegin }
{}

/// What a history's calls have made of the execution is its steps.
pub fn standings_run()
    ensures { StandingsRun }
{}

/// What is kept beside the cache is what the changes of a history say.
pub fn shelves_are_kept()
    ensures { ShelvesAreKept }
{}

/// The patches that are kept to be named are the newest of their kinds.
pub fn newest_are_kept()
    ensures { NewestAreKept }
{}

/// All that is kept to be named was made.
pub fn kept_are_made()
    ensures { KeptAreMade }
{}

/// What a shelf keeps is all that the next patches have to name.
pub fn kept_are_named()
    ensures { KeptAreNamed }
{}

/// The steps of an append, and of the slot's patch behind it, are those of a frame; where memory runs out between, some
/// first ones of them.
pub fn frames_compose()
    ensures whole { FramesCompose }
    ensures appended { AppendsAreCuts }
    ensures begun { BegunAppendsAreCuts }
{
    patch_plans::laws::plans_join();
}

/// The steps of a plan of no writer, and those of one behind it, are those of both; so are some first ones. The extents of
/// a shelf go with the plan.
pub fn plans_continue()
    ensures shelf { ShelvesGoOn }
    ensures whole { WholesJoin }
    ensures cut { CutsJoin }
    ensures stopped { WholesAreCuts }
{
    patch_plans::laws::plans_join();
}

/// Some first steps of a plan are the steps of its first patches.
pub fn cuts_are_first()
    ensures { CutsAreFirst }
{}

/// The steps of a plan whose changes are well made leave a store.
pub fn plans_are_of_stores()
    ensures { PlansAreOfStores }
{
    patch_recovery::laws::stores_grow();
}

/// A change is spelled alike before the upgrade and after it.
pub fn upgrades_spell_alike()
    ensures { UpgradesSpellAlike }
{}

// What legal histories make.

/// The patches of a legal history are the changes of a store, each right where it was made and behind what it has to come
/// after. The map of the commands that were done has for each key what the changes say of it, so the cached blocks are
/// read as that map.
pub fn histories_are_of_stores()
    ensures stores { HistoriesAreOfStores }
    ensures maps { MapsAreSaid }
    ensures read { HistoriesAreRead }
    ensures agree { StandingsAgree }
{
    laws_below();
}

/// The opening blocks and the steps say which changes were made, and so what is kept beside the cache: legal histories of one
/// execution differ in neither, whatever calls have made the steps.
pub fn shelves_are_single()
    ensures whole { ShelvesAreOfChanges }
    ensures changes { ChangesAreSingle }
    ensures shelf { ShelvesAreSingle }
{
    laws_below();
    patch_frame::laws::slots_are_read_again();
}

/// Whatever closed set of a legal history's patches reached the disk, it opens, and each key has the value of its last put
/// or delete whose patch is in the set, or a later move of which is. What a crash leaves is such a disk.
pub fn closed_disks_open()
    ensures moves { HistoriesMove }
    ensures closed { ClosedDisksOpen }
    ensures crash { CrashDisksOpen }
{
    laws_below();
    histories_are_of_stores();
    patch_recovery::laws::closed_disks_open();
    patch_recovery::laws::crash_disks_open();
}

/// What is kept of the extents is what the cached pointer block and the patches say of them.
pub fn extents_are_kept()
    ensures { ExtentsAreKept }
{
    laws_below();
}

/// The groups are those of the execution: each patch of a group names all patches of all groups before it.
pub fn groups_are_kept()
    ensures { GroupsAreKept }
{
    patch_model::laws::steps_extend();
    patch_plans::laws::order_is_kept();
}

/// There are never more groups than may be made.
pub fn groups_are_few()
    ensures { GroupsAreFew }
{}

/// The groups before one are those to which a chain of the history's accepted `Depend` commands leads from it. So what a crash
/// leaves, and every other set that is closed under dependencies, holds with a patch of a group all patches of those.
pub fn groups_are_chained()
    ensures before { GroupsAreChained }
    ensures closed { ChainsAreKept }
{
    groups_are_kept();
}

/// A put that isn't refused finds a slot and an extent with room. The frame of each used slot is there, with the value of
/// its key; and in a reclaim that isn't refused each next one is there too, and finds an extent.
pub fn commands_fit()
    ensures puts { PutsFit }
    ensures frames { FramesAreThere }
    ensures reclaims { ReclaimsGoOn }
{
    laws_below();
}

// What the laws of the crates below say.
fn laws_below()
    ensures { Given }
{
    patch_model::laws::executions_are_orderly();
    patch_frame::laws::frames_are_read_again();
    patch_frame::laws::frames_fit_extents();
    patch_frame::laws::pointers_are_read_again();
    patch_frame::laws::read_pointers_are_spelled();
    patch_recovery::laws::names_suffice();
    patch_recovery::laws::puts_are_well_made();
    patch_recovery::laws::stores_grow();
    patch_recovery::laws::ledgers_last();
    patch_recovery::laws::read_blocks_are_sound();
    patch_recovery::laws::cached_blocks_open();
}

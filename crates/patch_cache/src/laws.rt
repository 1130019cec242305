//! What the definitions say by themselves, each law the contract of a function that does nothing: the cache's promise once
//! more, that an ask has one answer, and how what is done in stretches, one after another, is done in one.
ghost use Rattle.std.specs.Prelude.{◌≡◌, ◌<◌, ◌≤◌, ℕ, List, [], IsTrue, count_by, length, slice_index_or};
ghost use Rattle.patch_model.specs.Execution.{Execution};
ghost use Rattle.patch_model.specs.Entry.{Entry, is_live};
ghost use Rattle.patch_model.specs.History.{history_of, image, cached};
ghost use Rattle.patch_model.specs.Legal.{IsLegal};
ghost use Rattle.patch_model.specs.Renewed.{is_clean};
ghost use Rattle.patch_cache.specs.Contents.{Contents};
ghost use Rattle.patch_cache.specs.Meaning.{IsCacheOf, IsPagedCacheOf};
ghost use Rattle.patch_cache.specs.Paging.{AreAllResident};
ghost use Rattle.patch_cache.specs.Waves.{classes_in_memory, live_classes, HoldImages, IsFlushed};
ghost use Rattle.patch_cache.specs.Joining.{UnmovedIsSafe, UnwrittenIsSafe, SafeJoin, NoneSince, AddedSince, SinceJoin, StillIsStretch, StretchesJoin, StillIsKept, KeptJoin, StillIsTried, WavesAreTried, TriesJoin, FlightsStay, FlightsStayMerged, FlightsBegin, FlightsEnd};
ghost use Rattle.patch_cache.specs.Asks.{Ask, Answer, IsAnswer};
ghost use Rattle.patch_cache.specs.declared.landing.TheConstants.{TRIES};
ghost use Rattle.patch_cache.specs.Promise.{TakingBack, MovesArePermitted, LooksShow, ImagesSent, CrashesClosed};

use patch_device::Device;
use std::alloc::Allocator;

/// For every execution of patch, merge, send and completion steps: taking back in any permitted order a set of undoable
/// patches that holds its dependents leaves the block's other patches over its first bytes, and putting them back restores
/// the cached block; every image sent holds exactly its block's durable and in-flight patches; and what a crash can leave is
/// closed under dependencies. What a view accepts is just the permitted orders. [`Cache::run`](crate::Cache::run) has these
/// as clauses of its own, beside what its answers are.
pub fn promise()
    ensures taking_back { TakingBack }
    ensures moves { MovesArePermitted }
    ensures looks { LooksShow }
    ensures images { ImagesSent }
    ensures crashes { CrashesClosed }
{
    patch_model::laws::crash_sets_are_closed();
    patch_model::laws::sends_leave();
    patch_model::laws::executions_are_orderly();
    patch_model::laws::orders_end_alike();
    patch_view::laws::blocks_are_coherent();
    patch_view::laws::refusals_have_causes();
}

/// How often the write of a flight is tried, in numbers.
pub fn limits_are_numbers()
    ensures { TRIES ≡ 8 }
{}

/// The definitions leave one answer to each ask.
pub fn answers_are_single()
    ensures { (run : Execution) (ask : Ask) (a b : Answer) → IsAnswer run ask a → IsAnswer run ask b → a ≡ b }
{
    patch_model::laws::pairs_merge();
}

/// What is left of an honest device is what a crash may leave: where nothing changes, over a step that ends no write, and over
/// one stretch of steps and the next. A run of steps of a crate above is shown so, one call after another.
pub fn crashes_join<D: Device>()
    ensures unmoved { UnmovedIsSafe D.Device }
    ensures unwritten { UnwrittenIsSafe D.Device }
    ensures joined { SafeJoin D.Device }
{
    patch_model::laws::disks_stay();
}

/// The steps that a cache has added, from one moment to the next and over both.
pub fn traces_join()
    ensures none { NoneSince }
    ensures added { AddedSince }
    ensures joined { SinceJoin }
{}

/// Two stretches of writes, one after the other, are one: of the cache and its flights, and of what they keep of an honest
/// device. Where nothing is done there is a stretch of no steps.
pub fn stretches_join<A: Allocator, D: Device>()
    ensures still { StillIsStretch A }
    ensures joined { StretchesJoin A }
    ensures still_kept { StillIsKept D.Device }
    ensures kept { KeptJoin D.Device }
{}

/// The flights of two stretches of writes, one after the other, are tried as those of one: none by what another one left over.
pub fn tries_join<A: Allocator, D: Device>()
    ensures still { StillIsTried A D.Device }
    ensures waves { WavesAreTried A D.Device }
    ensures joined { TriesJoin A D.Device }
{}

/// Held flights stay those of the execution beside a patch that is made.
pub fn flights_stay<A: Allocator>()
    ensures { FlightsStay A }
{
    patch_model::laws::steps_extend();
    patch_model::laws::flights_are_ready();
    patch_model::laws::images_stay();
}

/// Held flights stay those of the execution beside a merge, too; that of a write that begins is held with them, and that of a
/// write that ends no more.
pub fn flights_begin_and_end<A: Allocator>()
    ensures merged { FlightsStayMerged A }
    ensures begun { FlightsBegin A }
    ensures ended { FlightsEnd A }
{
    patch_model::laws::steps_extend();
    patch_model::laws::flights_are_ready();
    patch_model::laws::images_stay();
}

/// There are no more classes in memory than live ones, and no more than live patches: so many writes at most begin until all
/// patches are on the disk.
pub fn classes_are_few()
    ensures classes { (all : List Entry) → classes_in_memory all ≤ live_classes all }
    ensures patches { (all : List Entry) → classes_in_memory all ≤ count_by is_live all }
{}

/// Where nothing is left to be written, the image of each block is all that is cached of it.
pub fn flushed_images_are_cached()
    ensures { (run : Execution) (block : ℕ) → IsFlushed run → image (history_of run block) ≡ cached (history_of run block) }
{}

/// A cache of which each block is resident is one of which some are; and where each is, the other way round.
pub fn whole_caches_are_paged()
    ensures part { (c : Contents) (run : Execution) → IsCacheOf c run → IsPagedCacheOf c run }
    ensures whole { (c : Contents) (run : Execution) → IsPagedCacheOf c run → AreAllResident c → IsCacheOf c run }
{}

/// What an honest device holds of a block without live patches is the cached block, where it holds the images: so a block that was
/// let go is read again as it was.
pub fn clean_blocks_are_held()
    ensures { (run : Execution) (contents : List (List ℕ)) (block : ℕ) → IsLegal run → HoldImages run contents
        → block < length run.first → IsTrue (is_clean run block) → slice_index_or contents block [] ≡ cached (history_of run block) }
{
    patch_model::laws::flights_are_single();
    patch_model::laws::clean_blocks_are_images();
}

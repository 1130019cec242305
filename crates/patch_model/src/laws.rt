//! Laws of the definitions. Each is the contract of a function that does nothing: who calls it may rest on the law.
ghost use Rattle.std.specs.Prelude.{ℕ, ◌≡◌, ◌≢◌, ◌<◌, ◌≤◌, ◌+◌, ◌==◌, ◌&&◌, ◌↔◌, [], IsTrue, None, List, Contains, All, length, map};
ghost use Rattle.std.specs.List.{list_any};
ghost use Rattle.std.specs.List.Sorted.{IsNonDecreasing};
ghost use Rattle.patch_model.specs.declared.blocks.TheConstants.{BLOCK};
ghost use Rattle.patch_model.specs.declared.limits.TheConstants.{MAX_BLOCKS, MAX_CACHED, MAX_WRITER, MAX_PATCHES, MAX_LIVE};
ghost use Rattle.patch_model.specs.declared.patches.Undo.{Undo};
ghost use Rattle.patch_model.specs.Patch.{Patch};
ghost use Rattle.patch_model.specs.Step.{Step, Create, Merge, Send, Complete};
ghost use Rattle.patch_model.specs.Pile.{covers};
ghost use Rattle.patch_model.specs.Execution.{Execution, extended};
ghost use Rattle.patch_model.specs.Entry.{Entry, is_memory, is_flight, is_among, in_memory_of};
ghost use Rattle.patch_model.specs.Dependency.{shares_byte, depends_directly, Path, has_live};
ghost use Rattle.patch_model.specs.Ready.{IsLargestWritable, IsRising, has, ready, ReadyIsOnly};
ghost use Rattle.patch_model.specs.State.{joined, sent, landed, has_flight, after_step, state_of, entries_of};
ghost use Rattle.patch_model.specs.Legal.{IsLegal, IsLegalCreate, IsLegalMerge, touch};
ghost use Rattle.patch_model.specs.Refusing.{IsBetween, why_not_made, why_no_pair, why_not_sent};
ghost use Rattle.patch_model.specs.History.{History, of_block, history_of, without, cached, image, HoldsDependents, holds_dependents};
ghost use Rattle.patch_model.specs.Orderly.{IsUnder, IsOrderly, IsNumbered, IsOrderlyBlock, MayJoin, MeetAt, IsClassUnder, left_behind};
ghost use Rattle.patch_model.specs.Renewed.{AreAllClean, cached_blocks, is_clean, renewed};
ghost use Rattle.patch_model.specs.Crash.{AreWhole, IsClosed, MayLeave, crash_set, with_image};
ghost use Rattle.patch_model.specs.Progress.{IsMade, IsIdle, MayFollow, history_after, class_in, block_in, live_count, ready_in, ready_numbers, flying_numbers};
ghost use Rattle.patch_model.specs.Laws.{MadeIsLast, MadeHereAlone, KeepsLimits, NoneComesBetween, ClassesLeaveNoGap, NearClassesTouch, TakenAreLast, TakenAreInMemory};
ghost use Rattle.patch_model.specs.Piles.{NeighboursCommute, RearrangedAlike, MayComeLast, UncoveredByte, CoveredByte, TakenBack};

// Piles.

/// Two neighbouring patches that share no byte may be laid in either order.
pub fn neighbours_commute()
    ensures { NeighboursCommute }
{}

/// Lists that differ by such exchanges give one block.
pub fn rearranged_alike()
    ensures { RearrangedAlike }
{}

/// A patch that shares no byte with a later one may be laid last.
pub fn may_come_last()
    ensures { MayComeLast }
{}

/// Which patch each byte of a pile comes from.
pub fn bytes_of_piles()
    ensures uncovered { UncoveredByte }
    ensures covered { CoveredByte }
{}

/// What a patch was laid over takes it back.
pub fn taken_back()
    ensures { TakenBack }
{}

/// Two patches share a byte where a byte of their block is in both spans.
pub fn sharing_is_a_common_byte()
    ensures { (p q : Patch) → IsTrue (shares_byte p q)
        ↔ ((p.block ≡ q.block) × ((place : ℕ) × IsTrue (covers p place) × IsTrue (covers q place))) }
{}

// Executions.

/// A step more is taken from the state so far.
pub fn steps_extend()
    ensures state { (run : Execution) (step : Step)
        → state_of (extended run step) ≡ after_step (state_of run) step }
    ensures legal { (run : Execution) (step : Step) → IsLegal run
        → MayFollow run step → IsLegal (extended run step) }
{}

/// What a step makes of each block's history: a patch is added to its block; a merge, a send and a completion change the
/// entries where they stand, and those of one block alone.
pub fn steps_change_blocks()
    ensures made_here { MadeIsLast }
    ensures made_elsewhere { MadeHereAlone }
    ensures merged { (run : Execution) (a b block : ℕ)
        → (history_after run (Merge a b) block).entries
        ≡ map (joined (class_in run a) (class_in run b)) (history_of run block).entries }
    ensures merged_elsewhere { (run : Execution) (a b other : ℕ) → IsLegal run → MayFollow run (Merge a b)
        → other ≢ block_in run a → history_after run (Merge a b) other ≡ history_of run other }
    ensures sent { (run : Execution) (block other : ℕ)
        → (history_after run (Send block) other).entries ≡ map (sent (ready_in run block)) (history_of run other).entries }
    ensures sent_elsewhere { (run : Execution) (block other : ℕ) → other ≢ block
        → history_after run (Send block) other ≡ history_of run other }
    ensures landed { (run : Execution) (block other : ℕ)
        → (history_after run (Complete block) other).entries ≡ map (landed block) (history_of run other).entries }
    ensures landed_elsewhere { (run : Execution) (block other : ℕ) → other ≢ block
        → history_after run (Complete block) other ≡ history_of run other }
{}

/// The patches of a legal execution are orderly, and so are those of each block.
pub fn executions_are_orderly()
    ensures patches { (run : Execution) → IsLegal run → IsOrderly (entries_of run) }
    ensures numbered { (run : Execution) → IsNumbered (entries_of run) }
    ensures blocks { (run : Execution) (block : ℕ) → IsLegal run → block < length run.first
        → IsOrderlyBlock (history_of run block) block }
{}

/// The limits that all else names by their constants, in numbers.
pub fn limits_are_numbers()
    ensures bytes { BLOCK ≡ 4096 }
    ensures blocks { MAX_BLOCKS ≡ 4096 }
    ensures cached { MAX_CACHED ≡ 16777216 }
    ensures writer { MAX_WRITER ≡ 7 }
    ensures patches { MAX_PATCHES ≡ 16777216 }
    ensures live { MAX_LIVE ≡ 65536 }
{}

/// How many blocks, patches, live patches and sends an execution has at most; and that it may begin with so many blocks.
pub fn executions_are_limited()
    ensures blocks { (run : Execution) → IsLegal run → length run.first ≤ MAX_CACHED }
    ensures patches { (run : Execution) → IsLegal run → length (entries_of run) ≤ MAX_PATCHES }
    ensures live { (run : Execution) → IsLegal run → live_count run ≤ MAX_LIVE }
    ensures sends { (run : Execution) → IsLegal run → (state_of run).sends ≤ MAX_PATCHES }
    ensures opened { (first : List (List ℕ)) → 0 < length first → length first ≤ MAX_CACHED → All (λ block. length block ≡ BLOCK) first
        → IsLegal (record { first = first; steps = [] }) }
{}

/// Which patches may be made, in numbers.
pub fn creations_are_limited()
    ensures { (blocks block start : ℕ) (all : List Entry) (bytes after : List ℕ)
        → IsLegalCreate blocks all block start bytes after
        ↔ KeepsLimits blocks all block start bytes after }
{}

/// A patch is made just where no cause of a refusal holds.
pub fn legal_patches_are_made()
    ensures { (blocks block start : ℕ) (all : List Entry) (bytes after : List ℕ)
        → (why_not_made blocks all block start bytes after ≡ None) ↔ IsLegalCreate blocks all block start bytes after }
{}

/// A patch is of a block that there is, and one in flight is of a block with a flight.
pub fn patches_are_placed()
    ensures known { (run : Execution) (e : Entry) → IsLegal run → IsMade run e
        → e.patch.block < length run.first }
    ensures flying { (run : Execution) (e : Entry) → IsLegal run → IsMade run e
        → IsTrue (is_flight e) → IsTrue (has_flight (state_of run) e.patch.block) }
{}

/// A block has at most one flight; a flight's number is below the count of sends, and some patch of the block is in it.
pub fn flights_are_single()
    ensures single { (run : Execution) (f g : ℕ × ℕ) → IsLegal run → Contains (state_of run).flights f
        → Contains (state_of run).flights g → f.0 ≡ g.0 → f ≡ g }
    ensures counted { (run : Execution) (f : ℕ × ℕ) → IsLegal run → Contains (state_of run).flights f
        → f.1 < (state_of run).sends }
    ensures holds { (run : Execution) (block : ℕ) → IsLegal run → IsTrue (has_flight (state_of run) block)
        → IsTrue (list_any (λ e. is_flight e && e.patch.block == block) (entries_of run)) }
{}

/// What a send puts in flight is what was ready; no other step changes what is in flight of a block until its write ends.
pub fn flights_are_ready()
    ensures sent { (run : Execution) (block : ℕ) → IsLegal run → IsIdle run block
        → flying_numbers (extended run (Send block)) block ≡ ready_numbers run block }
    ensures made { (run : Execution) (at start : ℕ) (bytes after : List ℕ) (undo : Undo) (block : ℕ)
        → flying_numbers (extended run (Create at start bytes after undo)) block ≡ flying_numbers run block }
    ensures merged { (run : Execution) (a b block : ℕ)
        → flying_numbers (extended run (Merge a b)) block ≡ flying_numbers run block }
    ensures sent_elsewhere { (run : Execution) (other block : ℕ) → other ≢ block
        → flying_numbers (extended run (Send other)) block ≡ flying_numbers run block }
    ensures landed_elsewhere { (run : Execution) (other block : ℕ) → other ≢ block
        → flying_numbers (extended run (Complete other)) block ≡ flying_numbers run block }
{}

/// How many patches are live after each step: a patch that is made is, and those whose write ends no more.
pub fn live_are_counted()
    ensures made { (run : Execution) (block start : ℕ) (bytes after : List ℕ) (undo : Undo)
        → live_count (extended run (Create block start bytes after undo)) ≡ live_count run + 1 }
    ensures merged { (run : Execution) (a b : ℕ)
        → live_count (extended run (Merge a b)) ≡ live_count run }
    ensures sent { (run : Execution) (block : ℕ)
        → live_count (extended run (Send block)) ≡ live_count run }
    ensures landed { (run : Execution) (block : ℕ)
        → live_count (extended run (Complete block)) + length (flying_numbers run block) ≡ live_count run }
{}

// Dependencies, classes and marks.

/// What a durable patch depends on directly is durable; what one in flight depends on is durable or in flight of its
/// block; what a hard one depends on is durable or hard of its block.
pub fn marks_are_closed()
    ensures { (run : Execution) (e f : Entry) → IsLegal run → IsMade run e → IsMade run f
        → IsTrue (depends_directly e.patch f.patch) → IsUnder e f }
{}

/// Dependencies of classes form no ring, and what leads to a live class is live.
pub fn paths_form_no_ring()
    ensures ring { (run : Execution) (a : ℕ) → IsLegal run → Path (entries_of run) a a → ⊥ }
    ensures back { (run : Execution) (a b : ℕ) → IsLegal run → Path (entries_of run) a b
        → Path (entries_of run) b a → ⊥ }
    ensures live { (run : Execution) (a b : ℕ) → IsLegal run → Path (entries_of run) a b
        → IsTrue (has_live (entries_of run) b) → IsTrue (has_live (entries_of run) a) }
{}

/// Of the patches that change a byte, those of a class are neighbours, and of two classes that change it just one
/// depends on the other: that of the later patch, directly.
pub fn classes_are_neighbours()
    ensures neighbours { NoneComesBetween }
    ensures over { (run : Execution) (place : ℕ) (e f : Entry) → IsLegal run
        → MeetAt (entries_of run) place e f → e.patch.no < f.patch.no → e.class ≢ f.class
        → IsClassUnder (entries_of run) e f }
    ensures marks { (run : Execution) (place : ℕ) (e f : Entry) → IsLegal run
        → MeetAt (entries_of run) place e f → e.patch.no < f.patch.no → IsUnder f e }
{}

/// A class's patches leave no gap between them, so two classes touch where their spans do.
pub fn spans_are_whole()
    ensures gap { ClassesLeaveNoGap }
    ensures near { NearClassesTouch }
{}

/// Two classes merge just where no cause of a refusal holds and no third class lies between them, and a write of a block
/// begins just where none holds.
pub fn pairs_merge()
    ensures legal { (all : List Entry) (a b : ℕ)
        → ((why_no_pair all a b ≡ None) × ((c : ℕ) → IsBetween all a b c → ⊥)) ↔ IsLegalMerge all a b }
    ensures sent { (run : Execution) (block : ℕ) → (why_not_sent run block ≡ None)
        ↔ ((block < length run.first) × MayFollow run (Send block)) }
{}

/// The numbers of what is ready of a block rise, and name its classes: a class is ready where its name is one of them.
pub fn classes_have_names()
    ensures rising { (run : Execution) (block : ℕ) → IsNonDecreasing (ready_numbers run block) }
    ensures ready { (run : Execution) (block : ℕ) (e : Entry) → IsLegal run → IsMade run e
        → is_among (ready_numbers run block) e.class ≡ has (ready_in run block) e }
{}

/// The classes of a legal merge may be joined, as the patches of their block alone show.
pub fn merges_may_join()
    ensures { (run : Execution) (a b : ℕ) → IsLegal run → MayFollow run (Merge a b)
        → MayJoin (of_block (block_in run a) (entries_of run)) (class_in run a) (class_in run b) }
{}

// What a send takes.

/// What a send takes is the largest set that may be written, in order of making, and no other list is: of any patches in
/// the order of their numbers, as those of an execution are.
pub fn ready_is_largest()
    ensures largest { (all : List Entry) (block : ℕ) → IsRising all → IsLargestWritable all block (ready all block) }
    ensures rising { (all : List Entry) (block : ℕ) → IsRising all → IsRising (ready all block) }
    ensures only { ReadyIsOnly }
    ensures made { (run : Execution) → IsRising (entries_of run) }
{}

/// Where a block has no flight, each hard patch of it in memory is ready.
pub fn hard_is_ready()
    ensures { (run : Execution) (block : ℕ) (e : Entry) → IsLegal run → IsIdle run block
        → IsMade run e → IsTrue (in_memory_of block e) → IsTrue e.hard → Contains (ready_in run block) e }
{}

/// Where nothing is in flight and some patch is in memory, some block may be sent.
pub fn some_is_ready()
    ensures { (run : Execution) (e : Entry) → IsLegal run → (state_of run).flights ≡ [] → IsMade run e
        → IsTrue (is_memory e) → (block : ℕ) × (block < length run.first) × (ready_in run block ≢ []) }
{}

/// What a send of a block leaves in memory holds its dependents, and the block without it is the image sent.
pub fn sends_leave()
    ensures holds { (run : Execution) (block : ℕ) → IsLegal run → IsIdle run block
        → HoldsDependents (history_of run block) (left_behind (entries_of run) block) }
    ensures image { (run : Execution) (block : ℕ) → IsLegal run → IsIdle run block
        → image (history_after run (Send block) block)
        ≡ without (history_of run block) (left_behind (entries_of run) block) }
{}

/// Only a send of the block changes its image.
pub fn images_stay()
    ensures { (run : Execution) (step : Step) (block : ℕ) → step ≢ Send block
        → image (history_after run step block) ≡ image (history_of run block) }
{}

// Views.

/// The test of holding dependents tells it.
pub fn holding_is_tested()
    ensures { (h : History) (names : List ℕ) → IsTrue (holds_dependents h names) ↔ HoldsDependents h names }
{}

/// What a set that holds its dependents takes is in memory, of the block, and at each byte above all that it doesn't take.
pub fn taken_are_last()
    ensures last { TakenAreLast }
    ensures memory { TakenAreInMemory }
{}

/// What is left without some classes rests on which they are, and not on the order in which they were taken.
pub fn orders_end_alike()
    ensures { (h : History) (a b : List ℕ) → ((n : ℕ) → is_among a n ≡ is_among b n) → without h a ≡ without h b }
{}

// Crashes.

/// What a crash leaves holds all that it depends on, and is made of whole classes.
pub fn crash_sets_are_closed()
    ensures closed { (run : Execution) (landed : List ℕ) → IsLegal run
        → IsClosed (entries_of run) (crash_set landed) }
    ensures whole { (run : Execution) (landed : List ℕ) → IsLegal run
        → AreWhole (entries_of run) (crash_set landed) }
{}

/// Where a crash may leave a disk, it may also leave that disk with a block's image written.
pub fn images_land()
    ensures { (run : Execution) (disk : List (List ℕ)) (block : ℕ) → block < length run.first → MayLeave run disk
        → MayLeave run (with_image run block disk) }
{}

/// A crash before any step leaves the first bytes.
pub fn first_bytes_are_left()
    ensures { (first : List (List ℕ)) → MayLeave (record { first = first; steps = [] }) first }
{}

/// A disk that a crash may leave it may also leave after one more step that ends no write.
pub fn disks_stay()
    ensures { (run : Execution) (step : Step) (disk : List (List ℕ)) → IsLegal run
        → MayFollow run step → ((block : ℕ) → step ≢ Complete block)
        → MayLeave run disk → MayLeave (extended run step) disk }
{}

/// Where a write of a block ends, a crash may leave the disks of before with the block's image written.
pub fn writes_end()
    ensures { (run : Execution) (disk : List (List ℕ)) (block : ℕ) → IsLegal run → block < length run.first
        → MayLeave run disk
        → MayLeave (extended run (Complete block)) (with_image run block disk) }
{}

// Renewals.

/// An execution may begin anew with the cached blocks of another one, and each block then holds what it held.
pub fn executions_begin_anew()
    ensures legal { (run : Execution) → IsLegal run → IsLegal (renewed run) }
    ensures held { (run : Execution) (block : ℕ) → block < length run.first
        → cached (history_of (renewed run) block) ≡ cached (history_of run block) }
    ensures count { (run : Execution) → length (renewed run).first ≡ length run.first }
{}

/// A block of which no patch is live is its image; and where none is live at all, a crash leaves the cached blocks.
pub fn clean_blocks_are_images()
    ensures block { (run : Execution) (block : ℕ) → IsTrue (is_clean run block)
        → image (history_of run block) ≡ cached (history_of run block) }
    ensures crash { (run : Execution) (disk : List (List ℕ)) → AreAllClean run → MayLeave run disk
        → disk ≡ cached_blocks run }
{}

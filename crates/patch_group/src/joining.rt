//! How patches are made, and join groups.
ghost use Rattle.std.specs.Prelude.{◌≡◌, ◌≢◌, ◌<◌, ◌++◌, ◌∷◌, ℕ, [], Some, None, length, map, IfOk, IfErr, OnOk, OnErr, IsTrue};
ghost use Rattle.patch_model.specs.Execution.{Execution, extended};
ghost use Rattle.patch_model.specs.Names.{numbers_named};
ghost use Rattle.patch_model.specs.Refusing.{why_not_made};
ghost use Rattle.patch_model.specs.Runs.{numbers_in};
ghost use Rattle.patch_model.specs.State.{entries_of};
ghost use Rattle.patch_model.specs.Step.{Create};
ghost use Rattle.patch_cache.specs.Meaning.{IsCacheOf, IsPagedCacheOf};
ghost use Rattle.patch_cache.specs.Paging.{if_resident};
ghost use Rattle.patch_cache.specs.Refusals.{create_cause};
ghost use Rattle.patch_group.specs.Refusals.{IsCauseOf};
ghost use Rattle.patch_plans.specs.Groups.{AreApart, with_patch, after_of, entered, patch_of, why_not_patched};
ghost use Rattle.patch_group.specs.Records.{group_of, HasRoomAt, HaveRoom, names_of};

use crate::calls::Groups;
use crate::records::Record;
use crate::runs::{add, add_each};
use patch_cache::{Cache, CreateRefusal};
use patch_model::{
    BlockNo, Bytes, GroupNo, Named, Names, OutOfMemory, PatchNo, Run, Undo, WriterNo,
};
use std::alloc::Allocator;

impl<A: Allocator + Copy> Groups<A> {
    /// Makes a patch of a writer, or of none. Beside what it names itself it names all patches of all groups before those that
    /// the writer has engaged, and it joins each of these. Its room in the groups is taken first. After a refusal cache and
    /// groups are as before.
    pub fn create_patch(
        &mut self,
        cache: &mut Cache<A>,
        writer: Option<WriterNo>,
        block: BlockNo,
        start: usize,
        bytes: &[u8],
        after: &[PatchNo],
        undo: Undo,
    ) -> Result<PatchNo, CreateRefusal>
        ensures made { (run : Execution) → IsCacheOf cache.old run → OnOk result
            (IsCacheOf cache.new (extended run (patch_of self.old writer block start bytes.now after.now undo))) }
        ensures made_paged { (run : Execution) → IsPagedCacheOf cache.old run → OnOk result
            (IsPagedCacheOf cache.new (extended run (patch_of self.old writer block start bytes.now after.now undo))) }
        ensures number { (run : Execution) → IsCacheOf cache.old run → IfOk result (λ no. no ≡ length (entries_of run)) }
        ensures number_paged { (run : Execution) → IsPagedCacheOf cache.old run → IfOk result (λ no. no ≡ length (entries_of run)) }
        ensures allowed { (run : Execution) → IsCacheOf cache.old run
            → OnOk result (why_not_patched run self.old writer block start bytes.now after.now ≡ None) }
        ensures allowed_paged { (run : Execution) → IsPagedCacheOf cache.old run
            → OnOk result (why_not_patched run self.old writer block start bytes.now after.now ≡ None) }
        ensures joined { IfOk result (λ no. self.new ≡ with_patch self.old writer no) }
        ensures cause { (run : Execution) → IsCacheOf cache.old run → IfErr result (λ refusal.
            IsCauseOf (why_not_patched run self.old writer block start bytes.now after.now) (create_cause refusal)) }
        ensures cause_paged { (run : Execution) → IsPagedCacheOf cache.old run → IfErr result (λ refusal.
            IsCauseOf (if_resident cache.old block (why_not_patched run self.old writer block start bytes.now after.now)) (create_cause refusal)) }
        ensures trace { OnOk result (cache.new.trace ≡ cache.old.trace ++ patch_of self.old writer block start bytes.now after.now undo ∷ []) }
        ensures refused { OnErr result (self.new ≡ self.old) }
        ensures refused_cache { OnErr result (cache.new ≡ cache.old) }
    {
        match writer {
            Some(writer) => {
                let bytes = Bytes::from_slice(self.alloc, bytes)?;
                let after = Names::from_slice(self.alloc, after)?;
                self.create_owned(cache, writer, block, start, bytes, after, undo)
            }
            None => cache.create(block, start, bytes, after, undo),
        }
    }

    /// Makes a patch as [`create_patch`](Groups::create_patch) does, of bytes and names that the caller gives up: the cache's
    /// trace keeps them, and nothing is copied for it where no group comes before.
    pub fn create_given(
        &mut self,
        cache: &mut Cache<A>,
        writer: Option<WriterNo>,
        block: BlockNo,
        start: usize,
        bytes: Bytes<A>,
        after: Names<A>,
        undo: Undo,
    ) -> Result<PatchNo, CreateRefusal>
        ensures made { (run : Execution) → IsCacheOf cache.old run → OnOk result
            (IsCacheOf cache.new (extended run (patch_of self.old writer block start bytes after undo))) }
        ensures made_paged { (run : Execution) → IsPagedCacheOf cache.old run → OnOk result
            (IsPagedCacheOf cache.new (extended run (patch_of self.old writer block start bytes after undo))) }
        ensures number { (run : Execution) → IsCacheOf cache.old run → IfOk result (λ no. no ≡ length (entries_of run)) }
        ensures number_paged { (run : Execution) → IsPagedCacheOf cache.old run → IfOk result (λ no. no ≡ length (entries_of run)) }
        ensures allowed { (run : Execution) → IsCacheOf cache.old run
            → OnOk result (why_not_patched run self.old writer block start bytes after ≡ None) }
        ensures allowed_paged { (run : Execution) → IsPagedCacheOf cache.old run
            → OnOk result (why_not_patched run self.old writer block start bytes after ≡ None) }
        ensures joined { IfOk result (λ no. self.new ≡ with_patch self.old writer no) }
        ensures cause { (run : Execution) → IsCacheOf cache.old run → IfErr result (λ refusal.
            IsCauseOf (why_not_patched run self.old writer block start bytes after) (create_cause refusal)) }
        ensures cause_paged { (run : Execution) → IsPagedCacheOf cache.old run → IfErr result (λ refusal.
            IsCauseOf (if_resident cache.old block (why_not_patched run self.old writer block start bytes after)) (create_cause refusal)) }
        ensures trace { OnOk result (cache.new.trace ≡ cache.old.trace ++ patch_of self.old writer block start bytes after undo ∷ []) }
        ensures refused { OnErr result (self.new ≡ self.old) }
        ensures refused_cache { OnErr result (cache.new ≡ cache.old) }
    {
        match writer {
            Some(writer) => self.create_owned(cache, writer, block, start, bytes, after, undo),
            None => cache.create_owned(block, start, bytes, after, undo),
        }
    }

    /// Makes a patch of this writer as [`create_patch`](Groups::create_patch) does, of bytes and names that the caller gives up:
    /// the cache's trace keeps them, and nothing is copied for it where no group comes before.
    pub fn create_owned(
        &mut self,
        cache: &mut Cache<A>,
        writer: WriterNo,
        block: BlockNo,
        start: usize,
        bytes: Bytes<A>,
        after: Names<A>,
        undo: Undo,
    ) -> Result<PatchNo, CreateRefusal>
        ensures made { (run : Execution) → IsCacheOf cache.old run → OnOk result
            (IsCacheOf cache.new (extended run (patch_of self.old (Some writer) block start bytes after undo))) }
        ensures made_paged { (run : Execution) → IsPagedCacheOf cache.old run → OnOk result
            (IsPagedCacheOf cache.new (extended run (patch_of self.old (Some writer) block start bytes after undo))) }
        ensures number { (run : Execution) → IsCacheOf cache.old run → IfOk result (λ no. no ≡ length (entries_of run)) }
        ensures number_paged { (run : Execution) → IsPagedCacheOf cache.old run → IfOk result (λ no. no ≡ length (entries_of run)) }
        ensures allowed { (run : Execution) → IsCacheOf cache.old run
            → OnOk result (why_not_patched run self.old (Some writer) block start bytes after ≡ None) }
        ensures allowed_paged { (run : Execution) → IsPagedCacheOf cache.old run
            → OnOk result (why_not_patched run self.old (Some writer) block start bytes after ≡ None) }
        ensures joined { IfOk result (λ no. self.new ≡ with_patch self.old (Some writer) no) }
        ensures cause { (run : Execution) → IsCacheOf cache.old run → IfErr result (λ refusal.
            IsCauseOf (why_not_patched run self.old (Some writer) block start bytes after) (create_cause refusal)) }
        ensures cause_paged { (run : Execution) → IsPagedCacheOf cache.old run → IfErr result (λ refusal.
            IsCauseOf (if_resident cache.old block (why_not_patched run self.old (Some writer) block start bytes after)) (create_cause refusal)) }
        ensures trace { OnOk result (cache.new.trace ≡ cache.old.trace ++ patch_of self.old (Some writer) block start bytes after undo ∷ []) }
        ensures refused { OnErr result (self.new ≡ self.old) }
        ensures refused_cache { OnErr result (cache.new ≡ cache.old) }
    {
        let names = self.names_behind(writer, after)?;
        self.create_naming(cache, writer, block, start, bytes, names, undo)
    }

    /// What a patch of this writer names: the numbers that it is given, and behind them all patches of the groups before.
    fn names_behind(&mut self, writer: WriterNo, after: Names<A>) -> Result<Names<A>, OutOfMemory>
        ensures names { IfOk result (λ names. names ≡ after ++ after_of self.old writer) }
        ensures same { self.new ≡ self.old }
    {
        if self.engages_none() {
            return Ok(after);
        }
        let before = self.runs_before_next(writer)?;
        if before.is_empty() {
            return Ok(after);
        }
        let runs = self.both(after.lend(), before)?;
        Ok(Names::in_runs(runs))
    }

    /// Makes a patch of this writer that names just these.
    fn create_naming(
        &mut self,
        cache: &mut Cache<A>,
        writer: WriterNo,
        block: BlockNo,
        start: usize,
        bytes: Bytes<A>,
        names: Names<A>,
        undo: Undo,
    ) -> Result<PatchNo, CreateRefusal>
        ensures made { (run : Execution) → IsCacheOf cache.old run → OnOk result
            (IsCacheOf cache.new (extended run (Create block start bytes names undo))) }
        ensures made_paged { (run : Execution) → IsPagedCacheOf cache.old run → OnOk result
            (IsPagedCacheOf cache.new (extended run (Create block start bytes names undo))) }
        ensures number { (run : Execution) → IsCacheOf cache.old run → IfOk result (λ no. no ≡ length (entries_of run)) }
        ensures number_paged { (run : Execution) → IsPagedCacheOf cache.old run → IfOk result (λ no. no ≡ length (entries_of run)) }
        ensures allowed { (run : Execution) → IsCacheOf cache.old run
            → OnOk result (why_not_made (length run.first) (entries_of run) block start bytes names ≡ None) }
        ensures allowed_paged { (run : Execution) → IsPagedCacheOf cache.old run
            → OnOk result (why_not_made (length run.first) (entries_of run) block start bytes names ≡ None) }
        ensures joined { IfOk result (λ no. self.new ≡ with_patch self.old (Some writer) no) }
        ensures cause { (run : Execution) → IsCacheOf cache.old run → IfErr result (λ refusal.
            IsCauseOf (why_not_made (length run.first) (entries_of run) block start bytes names) (create_cause refusal)) }
        ensures cause_paged { (run : Execution) → IsPagedCacheOf cache.old run → IfErr result (λ refusal.
            IsCauseOf (if_resident cache.old block (why_not_made (length run.first) (entries_of run) block start bytes names)) (create_cause refusal)) }
        ensures trace { OnOk result (cache.new.trace ≡ cache.old.trace ++ Create block start bytes names undo ∷ []) }
        ensures refused { OnErr result (self.new ≡ self.old) }
        ensures refused_cache { OnErr result (cache.new ≡ cache.old) }
    {
        make_room(&mut self.groups, self.engaged.as_slice(), writer)?;
        let no = cache.create_owned(block, start, bytes, names, undo)?;
        enter(&mut self.groups, self.engaged.as_slice(), writer, no);
        Ok(no)
    }

    /// Whether no writer has engaged a group. Then patches come after no others for it.
    fn engages_none(&self) -> bool
        ensures { IsTrue result → (writer : ℕ) → after_of self.now writer ≡ [] }
    {
        let engaged = self.engaged.as_slice();
        engaged.is_empty()
    }

    /// The numbers, in runs, and the runs behind them.
    fn both(&self, these: Named<'_>, those: Vec<Run, A>) -> Result<Vec<Run, A>, OutOfMemory>
        ensures { IfOk result (λ all. numbers_in all.items ≡ numbers_named these.entry ++ numbers_in those.items) }
    {
        match these {
            Named::Listed(numbers) => self.numbers_and_runs(numbers, those),
            Named::InRuns(runs) => self.runs_and_runs(runs, those),
        }
    }

    /// The same, where the numbers lie in runs.
    fn runs_and_runs(&self, these: &[Run], those: Vec<Run, A>) -> Result<Vec<Run, A>, OutOfMemory>
        ensures { IfOk result (λ all. numbers_in all.items ≡ numbers_in these.now ++ numbers_in those.items) }
    {
        let mut all = Vec::with_capacity(self.alloc, these.len().saturating_add(those.len()))?;
        all.extend_from_slice(these)?;
        all.extend_from_slice(those.as_slice())?;
        Ok(all)
    }

    /// The same, where each number is by itself.
    fn numbers_and_runs(
        &self,
        these: &[PatchNo],
        those: Vec<Run, A>,
    ) -> Result<Vec<Run, A>, OutOfMemory>
        ensures { IfOk result (λ all. numbers_in all.items ≡ these.now ++ numbers_in those.items) }
    {
        if these.is_empty() {
            return Ok(those);
        }
        let mut all = Vec::with_capacity(self.alloc, these.len().saturating_add(those.len()))?;
        add_each(&mut all, these)?;
        all.extend_from_slice(those.as_slice())?;
        Ok(all)
    }
}

/// Takes room for one number more in each group that the writer has engaged.
fn make_room<A: Allocator>(
    groups: &mut Vec<Record<A>, A>,
    engaged: &[(WriterNo, GroupNo)],
    writer: WriterNo,
) -> Result<(), OutOfMemory>
    ensures same { map group_of groups.new.items ≡ map group_of groups.old.items }
    ensures room { OnOk result (HaveRoom groups.new.items (names_of engaged.now writer)) }
{
    for engagement in engaged {
        if engagement.0 == writer {
            make_room_in(groups, engagement.1)?;
        }
    }
    Ok(())
}

/// Takes room for one number more in this group.
fn make_room_in<A: Allocator>(
    groups: &mut Vec<Record<A>, A>,
    group: GroupNo,
) -> Result<(), OutOfMemory>
    ensures same { map group_of groups.new.items ≡ map group_of groups.old.items }
    ensures here { OnOk result (HasRoomAt groups.new.items group) }
    ensures others { (k : ℕ) → HasRoomAt groups.old.items k → HasRoomAt groups.new.items k }
{
    if let Some(record) = groups.get_mut(group.0 as usize) {
        record.runs.reserve(1)?;
    }
    Ok(())
}

/// Puts a number into each group that the writer has engaged.
fn enter<A: Allocator>(
    groups: &mut Vec<Record<A>, A>,
    engaged: &[(WriterNo, GroupNo)],
    writer: WriterNo,
    no: PatchNo,
)
    requires room { HaveRoom groups.old.items (names_of engaged.now writer) }
    requires apart { AreApart engaged.now }
    ensures { map group_of groups.new.items ≡ entered (map group_of groups.old.items) (names_of engaged.now writer) no }
{
    for engagement in engaged {
        if engagement.0 == writer {
            enter_into(groups, engagement.1, no);
        }
    }
}

/// Puts a number into this group.
fn enter_into<A: Allocator>(groups: &mut Vec<Record<A>, A>, group: GroupNo, no: PatchNo)
    requires room { HasRoomAt groups.old.items group }
    ensures entered { map group_of groups.new.items ≡ entered (map group_of groups.old.items) (group ∷ []) no }
    ensures others { (k : ℕ) → k ≢ group → HasRoomAt groups.old.items k → HasRoomAt groups.new.items k }
{
    if let Some(record) = groups.get_mut(group.0 as usize) {
        add(&mut record.runs, no);
    }
}

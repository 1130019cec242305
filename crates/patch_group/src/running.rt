//! A list of asks of a cache with groups, answered one after another.
ghost use Rattle.std.specs.Prelude.{false, None, ◌≡◌, ◌<◌, ◌++◌, [], length, OnOk, OnErr};
ghost use Rattle.patch_model.specs.Execution.{Execution};
ghost use Rattle.patch_device.specs.SameDevice.{IsSameDevice};
ghost use Rattle.patch_cache.specs.Meaning.{IsCacheOf, IsPagedCacheOf};
ghost use Rattle.patch_cache.specs.Paging.{why_not_resident};
ghost use Rattle.patch_cache.specs.Promise.{TakingBack, MovesArePermitted, LooksShow, ImagesSent, CrashesClosed};
ghost use Rattle.patch_group.specs.Asks.{Patch, Group, Engage, Disengage, Depend, Close, Pending, IsGroupAnswer, parts, part_of, steps_of, groups_after, groups_after_all};
ghost use Rattle.patch_plans.specs.Order.{AreGroupsOf, ClosedSetsHoldBefore};
ghost use Rattle.patch_group.specs.Promise.{GroupsInOrder};
ghost use Rattle.patch_group.specs.Runs.{asks_of, group_ask_of, group_answer_of, group_answers_in, AnswersAsk, AnswersAsks, AnswersOnImages, AnswerAllOnImages, IsCalled, IsPatched, IsPatchedBy, HasPatched};

use crate::asks::{GroupAnswer, GroupAsk};
use crate::calls::Groups;
use crate::laws;
use patch_cache::{Answer, Cache, Flights, laws as cache_laws};
use patch_device::Device;
use patch_model::{
    BlockNo, Bytes, GroupNo, Names, Numbers, OutOfMemory, PatchNo, Refuses, Undo, WriterNo,
    laws as model_laws,
};
use std::alloc::Allocator;

impl<A: Allocator + Copy> Groups<A> {
    /// Answers a list of asks, in order, as [`Cache::run`] does. Where there is no room for one more answer, the answers so far
    /// come back.
    ///
    /// This is the promise of the cache and its groups over whole runs. What the cache promises of its own asks holds of these
    /// here, a patch of a writer being one that names all patches before it. And of the disks that a crash may leave, as of every
    /// set of patches that is closed under dependencies: which holds a patch of a group holds all patches of all groups before it
    /// ([`promise`](crate::laws::promise)).
    ///
    /// The groups are those of this cache and of no other, `flights` holds the cache's flights that are not completed, all of
    /// them and no others, and the device has the cache's blocks. A block that an ask names and that isn't resident is brought
    /// first, as [`Cache::run`] does.
    pub fn run<D: Device>(
        &mut self,
        cache: &mut Cache<A>,
        flights: &mut Flights<A>,
        device: &mut D,
        asks: &[GroupAsk<A>],
    ) -> Result<Vec<GroupAnswer<A>, A>, (Vec<GroupAnswer<A>, A>, OutOfMemory)>
        ensures ran { AnswersAsks D.Device cache.old flights.old self.old device.old (asks_of asks.now) (group_answers_in result)
            cache.new flights.new self.new device.new }
        ensures ran_paged { AnswerAllOnImages D.Device cache.old flights.old self.old device.old (asks_of asks.now) (group_answers_in result)
            cache.new flights.new self.new device.new }
        ensures groups { self.new ≡ groups_after_all self.old (asks_of asks.now) (group_answers_in result) }
        ensures trace { cache.new.trace ≡ cache.old.trace ++ steps_of (parts self.old (asks_of asks.now) (group_answers_in result)) }
        ensures all { OnOk result (length (group_answers_in result) ≡ length asks.now) }
        ensures stopped { OnErr result (length (group_answers_in result) < length asks.now) }
        ensures device { IsSameDevice D.Device device.old device.new }
        ensures taking_back { TakingBack }
        ensures moves { MovesArePermitted }
        ensures looks { LooksShow }
        ensures images { ImagesSent }
        ensures closed { CrashesClosed }
        ensures order { ClosedSetsHoldBefore }
        ensures in_order { GroupsInOrder }
    {
        laws::promise();
        cache_laws::crashes_join::<D>();
        let mut answers = Vec::new(self.alloc);
        for ask in asks {
            if let Err(_) = answers.reserve(1) {
                return Err((answers, OutOfMemory));
            }
            let answer = self.answer_lent(cache, flights, device, ask);
            answers.push_reserved(answer);
        }
        Ok(answers)
    }

    /// Answers one ask, on the same premises as [`run`](Groups::run). It takes no memory for a list of answers, and what a patch's
    /// ask holds is kept in the cache's trace and not copied.
    pub fn answer<D: Device>(
        &mut self,
        cache: &mut Cache<A>,
        flights: &mut Flights<A>,
        device: &mut D,
        ask: GroupAsk<A>,
    ) -> GroupAnswer<A>
        ensures answer { AnswersAsk D.Device cache.old flights.old self.old device.old (group_ask_of ask) (group_answer_of result)
            cache.new flights.new self.new device.new }
        ensures paged { AnswersOnImages D.Device cache.old flights.old self.old device.old (group_ask_of ask) (group_answer_of result)
            cache.new flights.new self.new device.new }
        ensures groups { self.new ≡ groups_after self.old (group_ask_of ask) (group_answer_of result) }
        ensures trace { cache.new.trace ≡ cache.old.trace ++ steps_of (part_of self.old (group_ask_of ask) (group_answer_of result)) }
        ensures device { IsSameDevice D.Device device.old device.new }
    {
        model_laws::disks_stay();
        model_laws::steps_extend();
        model_laws::flights_are_ready();
        model_laws::images_stay();
        model_laws::executions_are_orderly();
        cache_laws::crashes_join::<D>();
        match ask {
            GroupAsk::Patch {
                writer,
                block,
                start,
                bytes,
                after,
                undo,
            } => match cache.bring(device, block) {
                Ok(()) => self.answer_patch(cache, writer, block, start, bytes, after, undo),
                Err(refusal) => GroupAnswer::Plain(Answer::Refused(refusal.refusal())),
            },
            other => self.answer_lent(cache, flights, device, &other),
        }
    }

    /// Answers an ask that is lent.
    fn answer_lent<D: Device>(
        &mut self,
        cache: &mut Cache<A>,
        flights: &mut Flights<A>,
        device: &mut D,
        ask: &GroupAsk<A>,
    ) -> GroupAnswer<A>
        ensures answer { AnswersAsk D.Device cache.old flights.old self.old device.old (group_ask_of ask.now) (group_answer_of result)
            cache.new flights.new self.new device.new }
        ensures paged { AnswersOnImages D.Device cache.old flights.old self.old device.old (group_ask_of ask.now) (group_answer_of result)
            cache.new flights.new self.new device.new }
        ensures groups { self.new ≡ groups_after self.old (group_ask_of ask.now) (group_answer_of result) }
        ensures trace { cache.new.trace ≡ cache.old.trace ++ steps_of (part_of self.old (group_ask_of ask.now) (group_answer_of result)) }
        ensures device { IsSameDevice D.Device device.old device.new }
    {
        model_laws::disks_stay();
        model_laws::steps_extend();
        model_laws::flights_are_ready();
        model_laws::images_stay();
        model_laws::executions_are_orderly();
        cache_laws::crashes_join::<D>();
        match ask {
            GroupAsk::Plain(ask) => GroupAnswer::Plain(cache.answer(flights, device, ask)),
            GroupAsk::Patch {
                writer,
                block,
                start,
                bytes,
                after,
                undo,
            } => match cache.bring(device, *block) {
                Ok(()) => self.answer_lent_patch(
                    cache,
                    *writer,
                    *block,
                    *start,
                    bytes.as_slice(),
                    after.as_slice(),
                    *undo,
                ),
                Err(refusal) => GroupAnswer::Plain(Answer::Refused(refusal.refusal())),
            },
            GroupAsk::Group => self.answer_group(),
            GroupAsk::Engage { writer, group } => self.answer_engage(*writer, *group),
            GroupAsk::Disengage { writer, group } => self.answer_disengage(*writer, *group),
            GroupAsk::Depend { group, on } => self.answer_depend(*group, *on),
            GroupAsk::Close { group } => self.answer_close(*group),
            GroupAsk::Pending { group } => self.answer_pending(*group, cache),
        }
    }

    /// Makes a patch of a writer, of a block that is resident, or isn't the cache's.
    fn answer_patch(
        &mut self,
        cache: &mut Cache<A>,
        writer: WriterNo,
        block: BlockNo,
        start: usize,
        bytes: Bytes<A>,
        after: Numbers<A>,
        undo: Undo,
    ) -> GroupAnswer<A>
        requires { why_not_resident cache.old block ≡ None }
        ensures answer { (run : Execution) → IsCacheOf cache.old run
            → IsPatched run self.old (Patch writer block start bytes after undo) (group_answer_of result) cache.new }
        ensures paged { (run : Execution) → IsPagedCacheOf cache.old run
            → IsPatchedBy false run self.old (Patch writer block start bytes after undo) (group_answer_of result) cache.new }
        ensures patched { HasPatched self.old (Patch writer block start bytes after undo) (group_answer_of result) self.new cache.old.trace cache.new.trace }
    {
        let after = Names::listed(after);
        match self.create_owned(cache, writer, block, start, bytes, after, undo) {
            Ok(no) => GroupAnswer::Plain(Answer::Made(no)),
            Err(refusal) => GroupAnswer::Plain(Answer::Refused(refusal.refusal())),
        }
    }

    /// Makes a patch of a writer, of bytes and names that are lent.
    fn answer_lent_patch(
        &mut self,
        cache: &mut Cache<A>,
        writer: WriterNo,
        block: BlockNo,
        start: usize,
        bytes: &[u8],
        after: &[PatchNo],
        undo: Undo,
    ) -> GroupAnswer<A>
        requires { why_not_resident cache.old block ≡ None }
        ensures answer { (run : Execution) → IsCacheOf cache.old run
            → IsPatched run self.old (Patch writer block start bytes.now after.now undo) (group_answer_of result) cache.new }
        ensures paged { (run : Execution) → IsPagedCacheOf cache.old run
            → IsPatchedBy false run self.old (Patch writer block start bytes.now after.now undo) (group_answer_of result) cache.new }
        ensures patched { HasPatched self.old (Patch writer block start bytes.now after.now undo) (group_answer_of result) self.new cache.old.trace cache.new.trace }
    {
        match self.create_patch(cache, Some(writer), block, start, bytes, after, undo) {
            Ok(no) => GroupAnswer::Plain(Answer::Made(no)),
            Err(refusal) => GroupAnswer::Plain(Answer::Refused(refusal.refusal())),
        }
    }

    /// Makes a group.
    fn answer_group(&mut self) -> GroupAnswer<A>
        ensures { IsCalled self.old Group (group_answer_of result) self.new }
    {
        match self.create() {
            Ok(group) => GroupAnswer::GroupMade(group),
            Err(refusal) => GroupAnswer::Refused(refusal),
        }
    }

    /// Engages a group.
    fn answer_engage(&mut self, writer: WriterNo, group: GroupNo) -> GroupAnswer<A>
        ensures { IsCalled self.old (Engage writer group) (group_answer_of result) self.new }
    {
        match self.engage(writer, group) {
            Ok(()) => GroupAnswer::Done,
            Err(refusal) => GroupAnswer::Refused(refusal),
        }
    }

    /// Ends an engagement.
    fn answer_disengage(&mut self, writer: WriterNo, group: GroupNo) -> GroupAnswer<A>
        ensures { IsCalled self.old (Disengage writer group) (group_answer_of result) self.new }
    {
        match self.disengage(writer, group) {
            Ok(()) => GroupAnswer::Done,
            Err(refusal) => GroupAnswer::Refused(refusal),
        }
    }

    /// Orders two groups.
    fn answer_depend(&mut self, group: GroupNo, on: GroupNo) -> GroupAnswer<A>
        ensures { IsCalled self.old (Depend group on) (group_answer_of result) self.new }
    {
        match self.depend(group, on) {
            Ok(()) => GroupAnswer::Done,
            Err(refusal) => GroupAnswer::Refused(refusal),
        }
    }

    /// Closes a group.
    fn answer_close(&mut self, group: GroupNo) -> GroupAnswer<A>
        ensures { IsCalled self.old (Close group) (group_answer_of result) self.new }
    {
        match self.close(group) {
            Ok(()) => GroupAnswer::Done,
            Err(refusal) => GroupAnswer::Refused(refusal),
        }
    }

    /// Counts what is pending of a group.
    fn answer_pending(&self, group: GroupNo, cache: &Cache<A>) -> GroupAnswer<A>
        ensures answer { (run : Execution) → IsCacheOf cache.now run → AreGroupsOf run self.now
            → IsGroupAnswer run self.now (Pending group) (group_answer_of result) }
        ensures paged { (run : Execution) → IsPagedCacheOf cache.now run → AreGroupsOf run self.now
            → IsGroupAnswer run self.now (Pending group) (group_answer_of result) }
        ensures groups { self.now ≡ groups_after self.now (Pending group) (group_answer_of result) }
        ensures no_part { part_of self.now (Pending group) (group_answer_of result) ≡ [] }
    {
        match self.pending(group, cache) {
            Ok(count) => GroupAnswer::Count(count),
            Err(refusal) => GroupAnswer::Refused(refusal),
        }
    }
}

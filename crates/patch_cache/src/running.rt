//! A list of asks, answered one after another.
ghost use Rattle.std.specs.Prelude.{Bool, ◌≡◌, ◌+◌, ◌<◌, ◌++◌, true, IsTrue, Some, None, length, map, IfOk, OnOk, OnErr};
ghost use Rattle.patch_model.specs.Execution.{Execution};
ghost use Rattle.patch_model.specs.Refusing.{why_not_sent};
ghost use Rattle.patch_device.specs.SameDevice.{IsSameDevice};
ghost use Rattle.patch_cache.specs.Contents.{is_resident, write_at};
ghost use Rattle.patch_cache.specs.Meaning.{IsCacheBy};
ghost use Rattle.patch_cache.specs.Paging.{why_not_resident};
ghost use Rattle.patch_cache.specs.Asks.{Create, Merge, Send, Complete, IsFault, ask_of, answer_of, step_added, steps_added, is_complete, block_named, after, after_all};
ghost use Rattle.patch_cache.specs.Promise.{TakingBack, MovesArePermitted, LooksShow, ImagesSent, CrashesClosed};
ghost use Rattle.patch_cache.specs.Running.{Runs, RunsBy, RunsOn, RunsOnBy, IsDoneBy, IsAnsweredBy, IsServed, IsServedBy, LeavesSafe, HasRun, CountFaults, HaveAllWritten, answers_in};
ghost use Rattle.patch_cache.specs.Bringing.{HasNamed, RunsOnImages, IsServedOnImages, HasRunOnImages};

use crate::asks::{Answer, Ask};
use crate::caches::Cache;
use crate::flights::Flights;
use crate::laws;
use crate::writes::write_image;
use patch_device::Device;
use patch_model::{
    BLOCK, BlockBytes, BlockNo, Numbers, OutOfMemory, PatchNo, RefusalKind, Refuses, Undo,
    laws as model_laws,
};
use std::alloc::Allocator;

impl<A: Allocator + Copy> Cache<A> {
    /// Answers a list of asks, in order. Where there is no room for one more answer, the answers so far come back.
    ///
    /// This is the cache's promise over whole runs. Each answer is what the definitions say of the steps before it: a view
    /// shows the other patches of its block over its first bytes, whichever classes were taken back in whatever permitted
    /// order, and leaves all as it was; an image sent holds just the durable and in-flight patches of its block. On an honest
    /// device of which a cut of the power left at first what a crash may leave, a cut at each moment on the way leaves a disk that
    /// a crash may leave, closed under dependencies ([`promise`](crate::laws::promise)).
    ///
    /// `flights` holds the cache's flights that are not completed, all of them and no others, and the device has the cache's
    /// blocks. The answer of an ask for which there is no memory is `OutOfMemory`; a completion is answered `Fault`
    /// where the device refuses its write and `SyncFailed` where it refuses the sync, and its flight is held as before.
    ///
    /// A block that an ask names and that isn't resident is read from the device and admitted ([`bring`](Cache::bring)) before the
    /// ask is answered, which is `Fault` where the device refuses the read. So the answers are those of a cache that has all its
    /// blocks, on an honest device that holds the image of each block with no write under way.
    pub fn run<D: Device>(
        &mut self,
        flights: &mut Flights<A>,
        device: &mut D,
        asks: &[Ask<A>],
    ) -> Result<Vec<Answer<A>, A>, (Vec<Answer<A>, A>, OutOfMemory)>
        ensures answers { (run : Execution) → RunsOn D.Device self.old flights.old device.old run
            → HasRun run (map ask_of asks.now) (answers_in result) self.new flights.new }
        ensures paged { (run : Execution) → RunsOnImages D.Device self.old flights.old device.old run
            → HasRunOnImages D.Device run (map ask_of asks.now) (answers_in result) self.new flights.new device.old device.new }
        ensures all { OnOk result (length (answers_in result) ≡ length asks.now) }
        ensures stopped { OnErr result (length (answers_in result) < length asks.now) }
        ensures trace { self.new.trace ≡ self.old.trace ++ steps_added (map ask_of asks.now) (answers_in result) }
        ensures device { IsSameDevice D.Device device.old device.new }
        ensures fault { (run : Execution) → RunsOn D.Device self.old flights.old device.old run
            → CountFaults (answers_in result) (D.fault_count device.old) (D.fault_count device.new) }
        ensures written { (run : Execution) → RunsOn D.Device self.old flights.old device.old run
            → HaveAllWritten D.Device run (map ask_of asks.now) (answers_in result) device.old device.new }
        ensures taking_back { TakingBack }
        ensures moves { MovesArePermitted }
        ensures looks { LooksShow }
        ensures images { ImagesSent }
        ensures closed { CrashesClosed }
        ensures crash { (run : Execution) → RunsOn D.Device self.old flights.old device.old run
            → LeavesSafe D.Device run (after_all run (map ask_of asks.now) (answers_in result)) device.old device.new }
    {
        laws::promise();
        let mut answers = Vec::new(self.alloc);
        for ask in asks {
            if let Err(_) = answers.reserve(1) {
                return Err((answers, OutOfMemory));
            }
            let answer = self.answer(flights, device, ask);
            answers.push_reserved(answer);
        }
        Ok(answers)
    }

    /// Answers one ask, on the same premises as [`run`](Cache::run): so a crate that has asks of its own can answer a cache's
    /// among them.
    pub fn answer<D: Device>(
        &mut self,
        flights: &mut Flights<A>,
        device: &mut D,
        ask: &Ask<A>,
    ) -> Answer<A>
        ensures served { (run : Execution) → RunsOn D.Device self.old flights.old device.old run
            → IsServed D.Device run (ask_of ask.now) (answer_of result) self.new flights.new device.old device.new }
        ensures paged { (run : Execution) → RunsOnImages D.Device self.old flights.old device.old run
            → IsServedOnImages D.Device run (ask_of ask.now) (answer_of result) self.new flights.new device.old device.new }
        ensures trace { self.new.trace ≡ self.old.trace ++ step_added (ask_of ask.now) (answer_of result) }
        ensures device { IsSameDevice D.Device device.old device.new }
        ensures of_completion { (run : Execution) → Runs self.old flights.old run
            → IsFault (answer_of result) → is_complete (ask_of ask.now) ≡ true }
    {
        model_laws::steps_extend();
        model_laws::images_stay();
        let Some(block) = ask.block() else {
            return self.answer_resident(flights, device, ask);
        };
        match self.bring(device, block) {
            Ok(()) => self.answer_resident(flights, device, ask),
            Err(refusal) => Answer::Refused(refusal.refusal()),
        }
    }

    /// Answers an ask that names a resident block, one that isn't the cache's, or none.
    fn answer_resident<D: Device>(
        &mut self,
        flights: &mut Flights<A>,
        device: &mut D,
        ask: &Ask<A>,
    ) -> Answer<A>
        requires named { HasNamed self.old (block_named (ask_of ask.now)) }
        ensures served { (whole : Bool) (run : Execution) → RunsOnBy D.Device whole self.old flights.old device.old run
            → IsServedBy D.Device whole run (ask_of ask.now) (answer_of result) self.new flights.new device.old device.new }
        ensures trace { self.new.trace ≡ self.old.trace ++ step_added (ask_of ask.now) (answer_of result) }
        ensures device { IsSameDevice D.Device device.old device.new }
        ensures of_completion { (whole : Bool) (run : Execution) → RunsBy whole self.old flights.old run
            → IsFault (answer_of result) → is_complete (ask_of ask.now) ≡ true }
    {
        model_laws::steps_extend();
        model_laws::flights_are_ready();
        model_laws::images_stay();
        model_laws::disks_stay();
        match ask {
            Ask::Create {
                block,
                start,
                bytes,
                after,
                undo,
            } => self.answer_create(*block, *start, bytes.as_slice(), after.as_slice(), *undo),
            Ask::Merge { a, b } => self.answer_merge(*a, *b),
            Ask::Send { block } => self.answer_send(flights, *block),
            Ask::Complete { block } => self.answer_complete(flights, device, *block),
            Ask::View {
                block,
                moves,
                start,
                len,
            } => self.look(*block, moves.as_slice(), *start, *len),
        }
    }

    /// Makes a patch.
    fn answer_create(
        &mut self,
        block: BlockNo,
        start: usize,
        bytes: &[u8],
        after: &[PatchNo],
        undo: Undo,
    ) -> Answer<A>
        requires { why_not_resident self.old block ≡ None }
        ensures answer { (whole : Bool) (run : Execution) → IsCacheBy whole self.old run
            → IsDoneBy whole run (Create block start bytes.now after.now undo) (answer_of result) self.new }
        ensures trace { self.new.trace ≡ self.old.trace ++ step_added (Create block start bytes.now after.now undo) (answer_of result) }
        ensures no_fault { IsFault (answer_of result) → ⊥ }
    {
        match self.create(block, start, bytes, after, undo) {
            Ok(no) => Answer::Made(no),
            Err(refusal) => Answer::Refused(refusal.refusal()),
        }
    }

    /// Makes one class of two.
    fn answer_merge(&mut self, a: PatchNo, b: PatchNo) -> Answer<A>
        ensures answer { (whole : Bool) (run : Execution) → IsCacheBy whole self.old run → IsDoneBy whole run (Merge a b) (answer_of result) self.new }
        ensures trace { self.new.trace ≡ self.old.trace ++ step_added (Merge a b) (answer_of result) }
        ensures no_fault { IsFault (answer_of result) → ⊥ }
    {
        match self.merge(a, b) {
            Ok(name) => Answer::Merged(name),
            Err(refusal) => Answer::Refused(refusal.refusal()),
        }
    }

    /// Begins a write and holds its flight.
    fn answer_send(&mut self, flights: &mut Flights<A>, block: BlockNo) -> Answer<A>
        requires { why_not_resident self.old block ≡ None }
        ensures answer { (whole : Bool) (run : Execution) → RunsBy whole self.old flights.old run
            → IsAnsweredBy whole run (Send block) (answer_of result) self.new flights.new }
        ensures trace { self.new.trace ≡ self.old.trace ++ step_added (Send block) (answer_of result) }
        ensures no_fault { IsFault (answer_of result) → ⊥ }
    {
        if let Some(refusal) = self.why_not_sent(block) {
            return Answer::Refused(refusal.refusal());
        }
        match self.send_and_hold(flights, block) {
            Ok(answer) => answer,
            Err(OutOfMemory) => Answer::Refused(RefusalKind::OutOfMemory.bare()),
        }
    }

    /// Begins a write that there is no cause to refuse. Its flight is held, and what it holds is answered: all memory for that
    /// is taken before the write begins.
    fn send_and_hold(
        &mut self,
        flights: &mut Flights<A>,
        block: BlockNo,
    ) -> Result<Answer<A>, OutOfMemory>
        requires resident { IsTrue (is_resident self.old block) }
        requires not_under_way { write_at self.old block ≡ None }
        ensures answer { (whole : Bool) (run : Execution) → RunsBy whole self.old flights.old run → why_not_sent run block ≡ None
            → IfOk result (λ answer. IsAnsweredBy whole run (Send block) (answer_of answer) self.new flights.new) }
        ensures trace { IfOk result (λ answer. self.new.trace ≡ self.old.trace ++ step_added (Send block) (answer_of answer)) }
        ensures no_fault { IfOk result (λ answer. IsFault (answer_of answer) → ⊥) }
        ensures refused { OnErr result (self.new ≡ self.old) }
        ensures held { OnErr result (flights.new.held.items ≡ flights.old.held.items) }
    {
        model_laws::steps_extend();
        model_laws::pairs_merge();
        model_laws::flights_are_ready();
        model_laws::images_stay();
        model_laws::paths_form_no_ring();
        let numbers = self.graph.ready(self.alloc, block)?;
        let answered_numbers = Vec::from_slice(self.alloc, numbers.as_slice())?;
        let mut answered_image = Vec::with_capacity(self.alloc, BLOCK)?;
        flights.held.reserve(1)?;
        let flight = self.begin(block, numbers)?;
        answered_image.extend_from_slice(flight.image()).unwrap();
        flights.held.push_reserved(flight);
        Ok(Answer::Sent {
            block,
            numbers: Numbers::from_vec(answered_numbers),
            image: BlockBytes::from_vec(answered_image),
        })
    }

    /// Writes the held flight of the block out, syncs the device, and completes it. After a fault it is held as before.
    fn answer_complete<D: Device>(
        &mut self,
        flights: &mut Flights<A>,
        device: &mut D,
        block: BlockNo,
    ) -> Answer<A>
        ensures served { (whole : Bool) (run : Execution) → RunsOnBy D.Device whole self.old flights.old device.old run
            → IsServedBy D.Device whole run (Complete block) (answer_of result) self.new flights.new device.old device.new }
        ensures trace { self.new.trace ≡ self.old.trace ++ step_added (Complete block) (answer_of result) }
        ensures device { IsSameDevice D.Device device.old device.new }
    {
        model_laws::steps_extend();
        model_laws::flights_are_ready();
        model_laws::flights_are_single();
        model_laws::patches_are_placed();
        model_laws::images_stay();
        model_laws::images_land();
        model_laws::writes_end();
        let Some(at) = flights.place_of(block) else {
            return Answer::Refused(RefusalKind::Stranger.bare());
        };
        if write_image(device, &flights.held[at]).is_err() {
            return Answer::Refused(RefusalKind::Fault.bare());
        }
        if device.sync().is_err() {
            return Answer::Refused(RefusalKind::SyncFailed.bare());
        }
        let landed = flights.held.swap_remove(at).landed();
        match self.complete(landed) {
            Ok(done) => Answer::Landed {
                block: done.block,
                numbers: done.numbers,
            },
            // Never so in a cache that represents an execution and whose flights these are. Of no other is anything promised.
            Err(stranger) => {
                stranger.abandon();
                Answer::Refused(RefusalKind::Stranger.bare())
            }
        }
    }
}

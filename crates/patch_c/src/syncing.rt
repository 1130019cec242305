//! Syncs: all changes are put on the tape, the program in C brings them from there to the file, and says whether it has.
ghost use Rattle.std.specs.Prelude.{◌≡◌, ◌≢◌, ◌↔◌, ℕ, [], ◌||◌, not, IsTrue, IsFalse, IfSome, length, slice_get};
ghost use Rattle.patch_model.specs.declared.refusals.RefusalKind.TheVariants as kind;
ghost use Rattle.patch_history.specs.History.{History};
ghost use Rattle.patch_store.specs.Flushing.{StandsStill};
ghost use Rattle.patch_store.specs.Meaning.{IsStoreOf};
ghost use Rattle.patch_disks.specs.Running.{StandsOn};
ghost use Rattle.patch_handles.specs.Answering.{number_of, IsOf};
ghost use Rattle.patch_c.specs.Handle.{Between, StaysClosed};
ghost use Rattle.patch_c.specs.Saving.{IsSynced, HasSaved, HasWrittenOn, LandsSafely, HasCause, LastsOnceDone, IsSettled};
ghost use Rattle.patch_c.specs.Tape.{file_of, contents_of, block_count_of, fault_count_of, events_of, event_told};

use crate::handle::Handle;
use crate::opened::Opened;
use crate::saving::save;
use patch_handles::{Answer, DONE, NOT_OPEN, copy_out};
use patch_model::RefusalKind;
use std::alloc::Global;

/// What a flush to the tape comes to: the tape refuses a write or a barrier for want of memory alone, since it has each block.
fn on_tape(answer: Answer) -> Answer
    ensures done { (result ≡ Answer.Done) ↔ (answer ≡ Answer.Done) }
    ensures gave_up { result ≢ Answer.Refused kind.DeviceGaveUp }
    ensures sync_failed { result ≢ Answer.Refused kind.SyncFailed }
    ensures cause { (faults faults_now : ℕ) → HasCause answer faults faults_now → HasCause result faults faults_now }
{
    match answer {
        Answer::Refused(RefusalKind::DeviceGaveUp | RefusalKind::SyncFailed) => {
            Answer::Refused(RefusalKind::OutOfMemory)
        }
        _ => answer,
    }
}

impl Opened {
    /// Puts all patches on the tape. Once a sync was refused none is tried again.
    fn sync(&mut self) -> Answer
        ensures spent { IsTrue self.old.is_spent → (result ≡ Answer.NoSync) × (self.new.store ≡ self.old.store) × (self.new.device ≡ self.old.device) }
        ensures number { self.new.file ≡ self.old.file }
        ensures barriers { self.new.barriers ≡ self.old.barriers }
        ensures manual { self.new.manual ≡ self.old.manual }
        ensures tally { self.new.tally ≡ self.old.tally }
        ensures saved { (h : History) → StandsOn self.old.store h (contents_of self.old.device)
            → result ≡ Answer.Done → HasSaved h self.new.store (contents_of self.new.device) }
        ensures lands { IsFalse self.old.is_spent → events_of self.old.device ≡ [] → (h : History)
            → StandsOn self.old.store h (file_of self.old.device) → LandsSafely h self.new.store self.old.device self.new.device }
        ensures lasts { events_of self.old.device ≡ [] → result ≡ Answer.Done → LastsOnceDone self.new.device }
        ensures synced { (h : History) → StandsStill self.old.store h → result ≡ Answer.Done → IsSynced h self.new.store }
        ensures written { IsFalse self.old.is_spent → (h : History) → IsStoreOf self.old.store h → HasWrittenOn h self.new.store }
        ensures fails { IsFalse self.new.is_spent ↔ (result ≡ Answer.Done) }
        ensures gave_up { result ≢ Answer.Refused kind.DeviceGaveUp }
        ensures sync_failed { result ≢ Answer.Refused kind.SyncFailed }
        ensures cause { IsFalse self.old.is_spent → (h : History) → IsStoreOf self.old.store h
            → block_count_of self.old.device ≡ length h.opening
            → HasCause result (fault_count_of self.old.device) (fault_count_of self.new.device) }
    {
        if self.is_spent {
            return Answer::NoSync;
        }
        let answer = on_tape(save(&mut self.store, &mut self.device));
        self.is_spent = answer != Answer::Done;
        answer
    }

    /// Tells an event of the tape.
    fn event(&self, number: u32, is_barrier: &mut bool, block: &mut u32, into: &mut [u8]) -> Answer
        ensures { (number_of result, is_barrier.new, block.new, into.new)
            ≡ event_told (slice_get (events_of self.now.device) number) is_barrier.old block.old into.old }
    {
        let Some(event) = self.device.events().get(number as usize) else {
            return Answer::Absent;
        };
        *is_barrier = event.is_none();
        let Some((place, bytes)) = event else {
            return Answer::Done;
        };
        *block = *place;
        let mut len = 0;
        copy_out(bytes.as_slice(), into, &mut len)
    }

    /// Empties the tape. Where the file hasn't got all of it no sync is done any more.
    #[tactic(auto, using(crate::proofs::Staying::spent_so, crate::proofs::Staying::same_so))]
    fn settle(&mut self, is_done: bool)
        ensures { IsSettled is_done self.old self.new }
    {
        let waves = self.device.barriers();
        self.device.clear();
        if is_done {
            self.tally.count(waves);
        } else {
            self.is_spent = true;
        }
    }
}

/// Puts all changes on the tape, in waves with a barrier behind each. The store takes them for durable from then on.
///
/// What the file holds as it is called, and that it lasts there, is a premise: the blocks from which it was opened, with the writes of all
/// tapes since. Then they are what `file_of` says. The events of the tape are brought to the file in order, and nothing behind a barrier is
/// written before a sync of the file has succeeded there. What a cut of the power leaves at any moment of that a crash may leave; once
/// all is done, the blocks are the cached ones, and they last.
#[unsafe(no_mangle)]
pub extern "C" fn fstch_core_sync(handle: &mut Handle, alloc: Global) -> i32
    ensures open { handle.new.is_open ≡ handle.old.is_open }
    ensures not_open { (result ≡ NOT_OPEN) ↔ IsFalse handle.old.is_open }
    ensures closed { StaysClosed handle.old handle.new }
    ensures saved { Between handle.old handle.new (λ before after. (h : History) → StandsOn before.store h (contents_of before.device)
        → result ≡ DONE → HasSaved h after.store (contents_of after.device)) }
    ensures lands { Between handle.old handle.new (λ before after. IsFalse before.is_spent → events_of before.device ≡ []
        → (h : History) → StandsOn before.store h (file_of before.device) → LandsSafely h after.store before.device after.device) }
    ensures lasts { Between handle.old handle.new (λ before after. events_of before.device ≡ [] → result ≡ DONE
        → LastsOnceDone after.device) }
    ensures synced { Between handle.old handle.new (λ before after. (h : History) → StandsStill before.store h
        → result ≡ DONE → IsSynced h after.store) }
    ensures written { Between handle.old handle.new (λ before after. IsFalse before.is_spent
        → (h : History) → IsStoreOf before.store h → HasWrittenOn h after.store) }
    ensures spent { Between handle.old handle.new (λ before after. IsTrue before.is_spent
        → (result ≡ number_of Answer.NoSync) × (after.store ≡ before.store) × (after.device ≡ before.device)) }
    ensures number { Between handle.old handle.new (λ before after. after.file ≡ before.file) }
    ensures barriers { Between handle.old handle.new (λ before after. after.barriers ≡ before.barriers) }
    ensures manual { Between handle.old handle.new (λ before after. after.manual ≡ before.manual) }
    ensures tally { Between handle.old handle.new (λ before after. after.tally ≡ before.tally) }
    ensures fails { Between handle.old handle.new (λ before after. IsFalse after.is_spent ↔ (result ≡ DONE)) }
    ensures gave_up { result ≢ number_of (Answer.Refused kind.DeviceGaveUp) }
    ensures sync_failed { result ≢ number_of (Answer.Refused kind.SyncFailed) }
    ensures cause { Between handle.old handle.new (λ before after. IsFalse before.is_spent → (h : History) → IsStoreOf before.store h
        → block_count_of before.device ≡ length h.opening
        → IsOf result (λ answer. HasCause answer (fault_count_of before.device) (fault_count_of after.device))) }
{
    let Some(mut opened) = handle.take(alloc) else {
        return NOT_OPEN;
    };
    let answer = opened.sync();
    handle.put_back(opened);
    answer.number()
}

/// The event of this number, from 0 on: of a write its block is told and the bytes are copied, of a barrier that it is one. All of them
/// have to be done to the file, in this order.
#[unsafe(no_mangle)]
pub extern "C" fn fstch_core_write(
    handle: &mut Handle,
    alloc: Global,
    number: u32,
    is_barrier: &mut bool,
    block: &mut u32,
    into: &mut [u8],
) -> i32
    ensures same { handle.new.sealed.opened ≡ handle.old.sealed.opened }
    ensures not_open { (result ≡ NOT_OPEN) ↔ IsFalse handle.old.is_open }
    ensures closed { StaysClosed handle.old handle.new }
    ensures told { IfSome handle.old.sealed.opened (λ opened.
        (result, is_barrier.new, block.new, into.new)
        ≡ event_told (slice_get (events_of opened.device) number) is_barrier.old block.old into.old) }
    ensures refused { IsFalse handle.old.is_open
        → (is_barrier.new ≡ is_barrier.old) × (block.new ≡ block.old) × (into.new ≡ into.old) }
{
    let Some(opened) = handle.take(alloc) else {
        return NOT_OPEN;
    };
    let answer = opened.event(number, is_barrier, block, into);
    handle.put_back(opened);
    answer.number()
}

/// Takes note that all events of the tape are done and its writes last in the file now, or that some may not.
#[unsafe(no_mangle)]
pub extern "C" fn fstch_core_synced(handle: &mut Handle, alloc: Global, is_done: bool) -> i32
    ensures open { handle.new.is_open ≡ handle.old.is_open }
    ensures done { (result ≡ DONE) ↔ IsTrue handle.old.is_open }
    ensures not_open { (result ≡ NOT_OPEN) ↔ IsFalse handle.old.is_open }
    ensures closed { StaysClosed handle.old handle.new }
    ensures settled { Between handle.old handle.new (IsSettled is_done) }
{
    let Some(mut opened) = handle.take(alloc) else {
        return NOT_OPEN;
    };
    opened.settle(is_done);
    handle.put_back(opened);
    DONE
}

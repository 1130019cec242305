//! What a line is answered, of what the cache with its groups answers. Want of memory is no line's answer: a replay ends there.
ghost use Rattle.std.specs.Prelude.{◌≡◌, ◌≢◌, IfOk};
ghost use Rattle.patch_model.specs.declared.refusals.RefusalKind.TheVariants as kind;
ghost use Rattle.patch_model.specs.Refusing.{bare};
ghost use Rattle.patch_cache.specs.Asks.{answer_of, Refused, IsFault};
ghost use Rattle.patch_group.specs.Runs.{group_answer_of};
ghost use Rattle.patch_group.specs.declared.refusals.SyncRefusal.TheVariants as sync_refusal;
ghost use Rattle.patch_script.specs.declared.answers.Answer.TheVariants as answer;
ghost use Rattle.patch_replay.specs.Answering.{of_cache, line_answer};
ghost use Rattle.patch_replay.specs.CachedDisk.{IsServed};

use patch_group::{GroupAnswer, SyncRefusal};
use patch_model::{OutOfMemory, Refusal, RefusalKind, Refuses};
use patch_script::Answer;

/// A line's answer. A device in memory has no fault but want of memory.
pub(crate) fn answer_of_ask(answer: GroupAnswer) -> Result<Answer, OutOfMemory>
    ensures is { IfOk result (λ line. line ≡ line_answer (group_answer_of answer)) }
    ensures served { IfOk result (λ _. IsServed (group_answer_of answer)) }
{
    match answer {
        GroupAnswer::Plain(answer) => answer_of_cache(answer),
        GroupAnswer::GroupMade(group) => Ok(Answer::GroupMade(group)),
        GroupAnswer::Done => Ok(Answer::Done),
        GroupAnswer::Count(count) => Ok(Answer::Count(count)),
        GroupAnswer::Refused(refusal) => answer_of_refusal(refusal.refusal()),
    }
}

fn answer_of_cache(answer: patch_cache::Answer) -> Result<Answer, OutOfMemory>
    ensures is { IfOk result (λ line. line ≡ of_cache (answer_of answer)) }
    ensures memory { IfOk result (λ _. answer_of answer ≢ Refused (bare kind.OutOfMemory)) }
    ensures fault { IfOk result (λ _. IsFault (answer_of answer) → ⊥) }
{
    match answer {
        patch_cache::Answer::Made(no) => Ok(Answer::Made(no)),
        patch_cache::Answer::Merged(name) => Ok(Answer::Merged(name)),
        patch_cache::Answer::Sent {
            block,
            numbers,
            image: _,
        } => Ok(Answer::Sent { block, numbers }),
        patch_cache::Answer::Landed { block, numbers } => Ok(Answer::Landed { block, numbers }),
        patch_cache::Answer::Seen { without, cached } => Ok(Answer::Seen { without, cached }),
        patch_cache::Answer::Refused(refusal) => answer_of_refusal(refusal),
    }
}

fn answer_of_refusal(refusal: Refusal) -> Result<Answer, OutOfMemory>
    ensures is { IfOk result (λ line. line ≡ answer.Refused refusal) }
    ensures memory { IfOk result (λ _. refusal.kind ≢ kind.OutOfMemory) }
    ensures fault { IfOk result (λ _. IsFault (Refused refusal) → ⊥) }
{
    match refusal.kind {
        RefusalKind::OutOfMemory | RefusalKind::Fault | RefusalKind::SyncFailed => {
            Err(OutOfMemory)
        }
        _ => Ok(Answer::Refused(refusal)),
    }
}

/// The answer of a sync that did nothing. A device in memory gives a write up only for want of memory.
pub(crate) fn answer_of_sync_refusal(refusal: SyncRefusal) -> Result<Answer, OutOfMemory>
    ensures why { IfOk result (λ _. refusal ≡ sync_refusal.NoSuchGroup) }
    ensures is { IfOk result (λ line. line ≡ answer.Refused (bare kind.NoSuchGroup)) }
{
    match refusal {
        SyncRefusal::NoSuchGroup => Ok(Answer::Refused(RefusalKind::NoSuchGroup.bare())),
        SyncRefusal::DeviceGaveUp(_) | SyncRefusal::SyncFailed | SyncRefusal::OutOfMemory => {
            Err(OutOfMemory)
        }
    }
}

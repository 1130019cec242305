//! What a call of a store comes to.
ghost use Rattle.std.specs.Prelude.{◌≡◌};
ghost use Rattle.patch_history.specs.Command.{Done};
ghost use Rattle.patch_store.specs.Replies.{reply_to};
ghost use Rattle.patch_c.specs.Answering.{answer_of};

use patch_handles::Answer;
use patch_model::Refuses;

/// What a store's call comes to.
pub fn told<E: Refuses>(called: Result<(), E>) -> Answer
    ensures { result ≡ answer_of (reply_to E.cause (λ _. Done) called) }
{
    match called {
        Ok(()) => Answer::Done,
        Err(refusal) => Answer::Refused(refusal.kind()),
    }
}

//! Why a store isn't opened.
ghost use Rattle.std.specs.Prelude.{◌≡◌, ◌≢◌};
ghost use Rattle.patch_c.specs.Opening.{number_told};

use patch_handles::Answer;
use patch_model::{OutOfMemory, Refusal, Refuses};
use std::alloc::{AllocError, AllocFailed};

/// Why a store isn't opened.
#[derive(Clone, Copy)]
pub struct Unopened {
    refusal: Refusal,
}

impl Unopened {
    /// For this.
    pub fn of(refusal: Refusal) -> Unopened
        ensures { result.refusal ≡ refusal }
    {
        Unopened { refusal }
    }

    /// The answer.
    pub fn answer(self) -> Answer
        ensures { result ≡ Answer.Refused self.refusal.kind }
    {
        Answer::Refused(self.refusal.kind)
    }

    /// Sets the number that goes with it, if one does.
    pub fn tell_number(self, number: &mut u32)
        ensures { number.new ≡ number_told self.refusal number.old }
    {
        if let Some(told) = self.refusal.number {
            *number = told;
        }
    }
}

impl From<OutOfMemory> for Unopened {
    ghost use Rattle.patch_c.specs.Opening.{starved};

    ghost from_gives = { λ _ e. e ≡ starved };

    fn from(refusal: OutOfMemory) -> Unopened {
        Unopened::of(refusal.refusal())
    }
}

impl From<AllocError> for Unopened {
    ghost use Rattle.patch_c.specs.Opening.{starved};

    ghost from_gives = { λ _ e. e ≡ starved };

    fn from(_: AllocError) -> Unopened {
        Unopened::from(OutOfMemory)
    }
}

impl<T: Drop> From<AllocFailed<T>> for Unopened {
    ghost use Rattle.patch_c.specs.Opening.{starved};

    ghost from_gives = { λ _ e. e ≡ starved };

    fn from(_: AllocFailed<T>) -> Unopened {
        Unopened::from(OutOfMemory)
    }
}

//! What a call answers.
ghost use Rattle.std.specs.Prelude.{◌≡◌, ◌≢◌};
ghost use Rattle.patch_handles.specs.Answering.{number_of, number_told, answer_to};

use patch_model::{Refusal, RefusalKind, Refuses};

/// `FSTCH_DONE`.
pub const DONE: i32 = 0;

/// `FSTCH_NOT_OPEN`. It goes before every answer of what is open.
pub const NOT_OPEN: i32 = -1;

/// `FSTCH_IS_OPEN`.
pub const IS_OPEN: i32 = -2;

/// What a call answers beside whether its handle is open. The numbers -6 and -9 are answers about files, which C gives.
#[derive(Clone, Copy, Debug, PartialEq, Eq)]
pub enum Answer {
    Done,
    /// It is refused.
    Refused(RefusalKind),
    /// What was asked for is longer than the buffer.
    BufferTooSmall,
    /// The key has no value, or there is no entry of this number.
    Absent,
    /// An earlier sync was refused. C also answers it where the system doesn't sync the file.
    NoSync,
    /// There is no writer of this number.
    BadWriter,
    /// The cache has the block already.
    IsResident,
}

impl Answer {
    /// The number of the answer, as the headers have it.
    pub fn number(self) -> i32
        ensures value { result ≡ number_of self }
        ensures open { result ≢ NOT_OPEN }
        ensures closed { result ≢ IS_OPEN }
    {
        match self {
            Answer::Done => DONE,
            Answer::Refused(kind) => i32::from(kind.code()),
            Answer::BufferTooSmall => -4,
            Answer::Absent => -5,
            Answer::NoSync => -7,
            Answer::BadWriter => -8,
            Answer::IsResident => -20,
        }
    }
}

/// The answer of a refusal. The number that goes with it is set, if one does.
pub fn refused(refusal: Refusal, number: &mut u32) -> Answer
    ensures answer { result ≡ Answer.Refused refusal.kind }
    ensures number { number.new ≡ number_told refusal number.old }
{
    if let Some(told) = refusal.number {
        *number = told;
    }
    Answer::Refused(refusal.kind)
}

/// What a call comes to that tells nothing but whether it is refused.
pub fn told<E: Refuses>(called: Result<(), E>) -> Answer
    ensures { result ≡ answer_to E.cause called }
{
    match called {
        Ok(()) => Answer::Done,
        Err(refusal) => Answer::Refused(refusal.kind()),
    }
}

//! Why bytes are in no format.
ghost use Rattle.patch_frame.specs.Refusal.{fault_cause};

use patch_model::{Refusal, RefusalKind, Refuses};
use thiserror::Error;

/// The first test of a reader that fails.
#[derive(Clone, Copy, Debug, PartialEq, Eq, Error)]
pub enum FrameFault {
    /// The mark of the format, its version, or the state of a slot is none that exists.
    #[error("BadMagic")]
    BadMagic,
    /// The length of a key is none that a key may have.
    #[error("BadKey")]
    BadKey,
    /// A number is out of its range.
    #[error("BadValue")]
    BadValue,
    /// The bytes end before the format does.
    #[error("Short")]
    Short,
    /// A byte of the padding isn't zero.
    #[error("NotZero")]
    NotZero,
}

impl Refuses for FrameFault {
    ghost cause = { fault_cause };

    fn refusal(self) -> Refusal {
        match self {
            FrameFault::BadMagic => RefusalKind::BadMagic.bare(),
            FrameFault::BadKey => RefusalKind::BadKey.bare(),
            FrameFault::BadValue => RefusalKind::BadValue.bare(),
            FrameFault::Short => RefusalKind::Short.bare(),
            FrameFault::NotZero => RefusalKind::NotZero.bare(),
        }
    }
}

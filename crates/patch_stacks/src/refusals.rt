//! Why a class isn't taken back, or put back.
ghost use Rattle.patch_stacks.specs.Refusal.{take_cause, put_back_cause};

use patch_model::{PatchNo, Refusal, RefusalKind, Refuses};
use thiserror::Error;

/// Why a class isn't taken back. The causes are tested in this order.
#[derive(Clone, Copy, Debug, PartialEq, Eq, Error)]
pub enum TakeRefusal {
    /// No live class of the block has this number.
    #[error("Unknown")]
    Unknown,
    /// The class is in a write under way.
    #[error("InFlight")]
    InFlight,
    /// The class keeps no bytes to be taken back.
    #[error("Hard")]
    Hard,
    #[error("AlreadyTaken")]
    AlreadyTaken,
    /// The least name of a class of the block that depends directly on this one and isn't taken.
    #[error("DependentApplied {0}")]
    DependentApplied(PatchNo),
}

impl Refuses for TakeRefusal {
    ghost cause = { take_cause };

    fn refusal(self) -> Refusal {
        match self {
            TakeRefusal::Unknown => RefusalKind::Unknown.bare(),
            TakeRefusal::InFlight => RefusalKind::InFlight.bare(),
            TakeRefusal::Hard => RefusalKind::Hard.bare(),
            TakeRefusal::AlreadyTaken => RefusalKind::AlreadyTaken.bare(),
            TakeRefusal::DependentApplied(no) => RefusalKind::DependentApplied.with_number(no.0),
        }
    }
}

/// Why a class isn't put back. The causes are tested in this order.
#[derive(Clone, Copy, Debug, PartialEq, Eq, Error)]
pub enum PutBackRefusal {
    /// Also of a number that no live class of the block has.
    #[error("NotTaken")]
    NotTaken,
    /// The least name of a class of the block on which this one depends directly and which is taken.
    #[error("DependencyTaken {0}")]
    DependencyTaken(PatchNo),
}

impl Refuses for PutBackRefusal {
    ghost cause = { put_back_cause };

    fn refusal(self) -> Refusal {
        match self {
            PutBackRefusal::NotTaken => RefusalKind::NotTaken.bare(),
            PutBackRefusal::DependencyTaken(no) => RefusalKind::DependencyTaken.with_number(no.0),
        }
    }
}

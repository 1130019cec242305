//! What the extents refuse. The causes are tested in the order in which they stand here.
ghost use Rattle.std.specs.Prelude.{◌≡◌};
ghost use Rattle.patch_extent.specs.Refusals.{append_cause, count_cause, fault_cause, read_cause, reset_cause};

use crate::counting::CountRefusal;
use patch_model::{OutOfMemory, Refusal, RefusalKind, Refuses};
use std::alloc::AllocError;
use thiserror::Error;

/// Why the extents of a cache aren't opened.
#[derive(Clone, Copy, Debug, PartialEq, Eq, Error)]
pub enum ExtentsFault {
    /// A pointer record is refused, or a byte behind the last one isn't zero.
    #[error("BadPointer")]
    BadPointer,
    #[error("OutOfMemory")]
    OutOfMemory,
}

/// Why bytes aren't appended.
#[derive(Clone, Copy, Debug, PartialEq, Eq, Error)]
pub enum AppendRefusal {
    #[error("NoSuchExtent")]
    NoSuchExtent,
    /// The bytes pass the end of the extent.
    #[error("ExtentFull")]
    ExtentFull,
    /// A number is named that no patch has yet.
    #[error("UnknownDependency")]
    UnknownDependency,
    /// There are too few numbers left for all patches of the append.
    #[error("NumbersSpent")]
    NumbersSpent,
    /// With all patches of the append more would be in memory or in flight than there may be.
    #[error("TooManyLive")]
    TooManyLive,
    #[error("OutOfMemory")]
    OutOfMemory,
}

/// Why a place isn't read.
#[derive(Clone, Copy, Debug, PartialEq, Eq, Error)]
pub enum ReadRefusal {
    #[error("NoSuchExtent")]
    NoSuchExtent,
    /// The place is of another generation than its extent has.
    #[error("OldGeneration")]
    OldGeneration,
    /// The place passes the write pointer.
    #[error("PastPointer")]
    PastPointer,
    #[error("OutOfMemory")]
    OutOfMemory,
}

/// Why an extent isn't reset.
#[derive(Clone, Copy, Debug, PartialEq, Eq, Error)]
pub enum ResetRefusal {
    #[error("NoSuchExtent")]
    NoSuchExtent,
    /// The extent has the last generation that there is.
    #[error("GenerationSpent")]
    GenerationSpent,
    /// A number is named that no patch has yet.
    #[error("UnknownDependency")]
    UnknownDependency,
    #[error("NumbersSpent")]
    NumbersSpent,
    #[error("TooManyLive")]
    TooManyLive,
    #[error("OutOfMemory")]
    OutOfMemory,
}

impl Refuses for ExtentsFault {
    ghost cause = { fault_cause };

    fn refusal(self) -> Refusal {
        match self {
            ExtentsFault::BadPointer => RefusalKind::BadPointer.bare(),
            ExtentsFault::OutOfMemory => RefusalKind::OutOfMemory.bare(),
        }
    }
}

impl Refuses for AppendRefusal {
    ghost cause = { append_cause };

    fn refusal(self) -> Refusal {
        match self {
            AppendRefusal::NoSuchExtent => RefusalKind::NoSuchExtent.bare(),
            AppendRefusal::ExtentFull => RefusalKind::ExtentFull.bare(),
            AppendRefusal::UnknownDependency => RefusalKind::UnknownDependency.bare(),
            AppendRefusal::NumbersSpent => RefusalKind::NumbersSpent.bare(),
            AppendRefusal::TooManyLive => RefusalKind::TooManyLive.bare(),
            AppendRefusal::OutOfMemory => RefusalKind::OutOfMemory.bare(),
        }
    }
}

impl Refuses for ReadRefusal {
    ghost cause = { read_cause };

    fn refusal(self) -> Refusal {
        match self {
            ReadRefusal::NoSuchExtent => RefusalKind::NoSuchExtent.bare(),
            ReadRefusal::OldGeneration => RefusalKind::OldGeneration.bare(),
            ReadRefusal::PastPointer => RefusalKind::PastPointer.bare(),
            ReadRefusal::OutOfMemory => RefusalKind::OutOfMemory.bare(),
        }
    }
}

impl Refuses for ResetRefusal {
    ghost cause = { reset_cause };

    fn refusal(self) -> Refusal {
        match self {
            ResetRefusal::NoSuchExtent => RefusalKind::NoSuchExtent.bare(),
            ResetRefusal::GenerationSpent => RefusalKind::GenerationSpent.bare(),
            ResetRefusal::UnknownDependency => RefusalKind::UnknownDependency.bare(),
            ResetRefusal::NumbersSpent => RefusalKind::NumbersSpent.bare(),
            ResetRefusal::TooManyLive => RefusalKind::TooManyLive.bare(),
            ResetRefusal::OutOfMemory => RefusalKind::OutOfMemory.bare(),
        }
    }
}

impl From<OutOfMemory> for ExtentsFault {
    ghost use Rattle.patch_extent.specs.declared.refusals.ExtentsFault.TheVariants.{OutOfMemory as NoMemory};

    ghost from_gives = { λ _ e. e ≡ NoMemory };

    fn from(_: OutOfMemory) -> ExtentsFault {
        ExtentsFault::OutOfMemory
    }
}

impl From<AllocError> for ExtentsFault {
    ghost use Rattle.patch_extent.specs.declared.refusals.ExtentsFault.TheVariants.{OutOfMemory as NoMemory};

    ghost from_gives = { λ _ e. e ≡ NoMemory };

    fn from(_: AllocError) -> ExtentsFault {
        ExtentsFault::OutOfMemory
    }
}

impl From<OutOfMemory> for AppendRefusal {
    ghost use Rattle.patch_extent.specs.declared.refusals.AppendRefusal.TheVariants.{OutOfMemory as NoMemory};

    ghost from_gives = { λ _ e. e ≡ NoMemory };

    fn from(_: OutOfMemory) -> AppendRefusal {
        AppendRefusal::OutOfMemory
    }
}

impl From<OutOfMemory> for ReadRefusal {
    ghost use Rattle.patch_extent.specs.declared.refusals.ReadRefusal.TheVariants.{OutOfMemory as NoMemory};

    ghost from_gives = { λ _ e. e ≡ NoMemory };

    fn from(_: OutOfMemory) -> ReadRefusal {
        ReadRefusal::OutOfMemory
    }
}

impl From<OutOfMemory> for ResetRefusal {
    ghost use Rattle.patch_extent.specs.declared.refusals.ResetRefusal.TheVariants.{OutOfMemory as NoMemory};

    ghost from_gives = { λ _ e. e ≡ NoMemory };

    fn from(_: OutOfMemory) -> ResetRefusal {
        ResetRefusal::OutOfMemory
    }
}

impl From<CountRefusal> for AppendRefusal {
    ghost from_gives = { λ r e. append_cause e ≡ count_cause r };

    fn from(refusal: CountRefusal) -> AppendRefusal {
        match refusal {
            CountRefusal::UnknownDependency => AppendRefusal::UnknownDependency,
            CountRefusal::NumbersSpent => AppendRefusal::NumbersSpent,
            CountRefusal::TooManyLive => AppendRefusal::TooManyLive,
        }
    }
}

impl From<CountRefusal> for ResetRefusal {
    ghost from_gives = { λ r e. reset_cause e ≡ count_cause r };

    fn from(refusal: CountRefusal) -> ResetRefusal {
        match refusal {
            CountRefusal::UnknownDependency => ResetRefusal::UnknownDependency,
            CountRefusal::NumbersSpent => ResetRefusal::NumbersSpent,
            CountRefusal::TooManyLive => ResetRefusal::TooManyLive,
        }
    }
}

//! What a store refuses. The causes of each type are tested in the order in which they stand here.
ghost use Rattle.std.specs.Prelude.{◌≡◌};
ghost use Rattle.patch_history.specs.Refusals.{make_cause, open_cause, put_cause, get_cause, delete_cause, reclaim_cause, upgrade_cause};

use patch_model::{Refusal, RefusalKind, Refuses};
use thiserror::Error;

/// Why no blocks of a new disk are made.
#[derive(Clone, Copy, Debug, PartialEq, Eq, Error)]
pub enum MakeRefusal {
    /// No disk is divided like this.
    #[error("Geometry")]
    Geometry,
    #[error("OutOfMemory")]
    OutOfMemory,
}

/// Why blocks aren't opened.
#[derive(Clone, Copy, Debug, PartialEq, Eq, Error)]
pub enum OpenFault {
    #[error("BadSuper")]
    BadSuper,
    /// There are more or fewer blocks than the superblock says.
    #[error("FileSize")]
    FileSize,
    #[error("BadPointer")]
    BadPointer,
    #[error("BadSlot {0}")]
    BadSlot(u32),
    /// The slot names no frame of its key.
    #[error("BadFrame {0}")]
    BadFrame(u32),
    /// A lower slot has the slot's key.
    #[error("DuplicateKey {0}")]
    DuplicateKey(u32),
    #[error("OutOfMemory")]
    OutOfMemory,
}

/// Why a value isn't put.
#[derive(Clone, Copy, Debug, PartialEq, Eq, Error)]
pub enum PutRefusal {
    /// A key has 1 to 32 bytes.
    #[error("KeyLength")]
    KeyLength,
    /// The value is longer than the disk's version allows.
    #[error("ValueLength")]
    ValueLength,
    /// The key is new, and no slot is empty.
    #[error("IndexFull")]
    IndexFull,
    /// No extent has room, and the last empty one is kept.
    #[error("NoSpace")]
    NoSpace,
    #[error("NumbersSpent")]
    NumbersSpent,
    #[error("TooManyLive")]
    TooManyLive,
    #[error("OutOfMemory")]
    OutOfMemory,
}

/// Why a key isn't looked up.
#[derive(Clone, Copy, Debug, PartialEq, Eq, Error)]
pub enum GetRefusal {
    #[error("KeyLength")]
    KeyLength,
    #[error("OutOfMemory")]
    OutOfMemory,
}

/// Why a key isn't taken away.
#[derive(Clone, Copy, Debug, PartialEq, Eq, Error)]
pub enum DeleteRefusal {
    #[error("KeyLength")]
    KeyLength,
    /// The key has no value.
    #[error("NoKey")]
    NoKey,
    #[error("NumbersSpent")]
    NumbersSpent,
    #[error("TooManyLive")]
    TooManyLive,
    #[error("OutOfMemory")]
    OutOfMemory,
}

/// Why an extent isn't won back.
#[derive(Clone, Copy, Debug, PartialEq, Eq, Error)]
pub enum ReclaimRefusal {
    #[error("NoSuchExtent")]
    NoSuchExtent,
    /// Nothing was appended to it since its last reset.
    #[error("EmptyExtent")]
    EmptyExtent,
    /// Puts append to it, and frames in it are live.
    #[error("OpenExtent")]
    OpenExtent,
    #[error("GenerationSpent")]
    GenerationSpent,
    /// Its live frames don't fit elsewhere.
    #[error("NoSpace")]
    NoSpace,
    #[error("NumbersSpent")]
    NumbersSpent,
    #[error("TooManyLive")]
    TooManyLive,
    #[error("OutOfMemory")]
    OutOfMemory,
}

/// Why a disk isn't made one of version 2.
#[derive(Clone, Copy, Debug, PartialEq, Eq, Error)]
pub enum UpgradeRefusal {
    #[error("AlreadyVersion2")]
    AlreadyVersion2,
    #[error("NumbersSpent")]
    NumbersSpent,
    #[error("TooManyLive")]
    TooManyLive,
    #[error("OutOfMemory")]
    OutOfMemory,
}

impl Refuses for MakeRefusal {
    ghost cause = { make_cause };

    fn refusal(self) -> Refusal {
        match self {
            MakeRefusal::Geometry => RefusalKind::Geometry.bare(),
            MakeRefusal::OutOfMemory => RefusalKind::OutOfMemory.bare(),
        }
    }
}

impl Refuses for OpenFault {
    ghost cause = { open_cause };

    fn refusal(self) -> Refusal {
        match self {
            OpenFault::BadSuper => RefusalKind::BadSuper.bare(),
            OpenFault::FileSize => RefusalKind::FileSize.bare(),
            OpenFault::BadPointer => RefusalKind::BadPointer.bare(),
            OpenFault::BadSlot(slot) => RefusalKind::BadSlot.with_number(slot),
            OpenFault::BadFrame(slot) => RefusalKind::BadFrame.with_number(slot),
            OpenFault::DuplicateKey(slot) => RefusalKind::DuplicateKey.with_number(slot),
            OpenFault::OutOfMemory => RefusalKind::OutOfMemory.bare(),
        }
    }
}

impl Refuses for PutRefusal {
    ghost cause = { put_cause };

    fn refusal(self) -> Refusal {
        match self {
            PutRefusal::KeyLength => RefusalKind::KeyLength.bare(),
            PutRefusal::ValueLength => RefusalKind::ValueLength.bare(),
            PutRefusal::IndexFull => RefusalKind::IndexFull.bare(),
            PutRefusal::NoSpace => RefusalKind::NoSpace.bare(),
            PutRefusal::NumbersSpent => RefusalKind::NumbersSpent.bare(),
            PutRefusal::TooManyLive => RefusalKind::TooManyLive.bare(),
            PutRefusal::OutOfMemory => RefusalKind::OutOfMemory.bare(),
        }
    }
}

impl Refuses for GetRefusal {
    ghost cause = { get_cause };

    fn refusal(self) -> Refusal {
        match self {
            GetRefusal::KeyLength => RefusalKind::KeyLength.bare(),
            GetRefusal::OutOfMemory => RefusalKind::OutOfMemory.bare(),
        }
    }
}

impl Refuses for DeleteRefusal {
    ghost cause = { delete_cause };

    fn refusal(self) -> Refusal {
        match self {
            DeleteRefusal::KeyLength => RefusalKind::KeyLength.bare(),
            DeleteRefusal::NoKey => RefusalKind::NoKey.bare(),
            DeleteRefusal::NumbersSpent => RefusalKind::NumbersSpent.bare(),
            DeleteRefusal::TooManyLive => RefusalKind::TooManyLive.bare(),
            DeleteRefusal::OutOfMemory => RefusalKind::OutOfMemory.bare(),
        }
    }
}

impl Refuses for ReclaimRefusal {
    ghost cause = { reclaim_cause };

    fn refusal(self) -> Refusal {
        match self {
            ReclaimRefusal::NoSuchExtent => RefusalKind::NoSuchExtent.bare(),
            ReclaimRefusal::EmptyExtent => RefusalKind::EmptyExtent.bare(),
            ReclaimRefusal::OpenExtent => RefusalKind::OpenExtent.bare(),
            ReclaimRefusal::GenerationSpent => RefusalKind::GenerationSpent.bare(),
            ReclaimRefusal::NoSpace => RefusalKind::NoSpace.bare(),
            ReclaimRefusal::NumbersSpent => RefusalKind::NumbersSpent.bare(),
            ReclaimRefusal::TooManyLive => RefusalKind::TooManyLive.bare(),
            ReclaimRefusal::OutOfMemory => RefusalKind::OutOfMemory.bare(),
        }
    }
}

impl Refuses for UpgradeRefusal {
    ghost cause = { upgrade_cause };

    fn refusal(self) -> Refusal {
        match self {
            UpgradeRefusal::AlreadyVersion2 => RefusalKind::AlreadyVersion2.bare(),
            UpgradeRefusal::NumbersSpent => RefusalKind::NumbersSpent.bare(),
            UpgradeRefusal::TooManyLive => RefusalKind::TooManyLive.bare(),
            UpgradeRefusal::OutOfMemory => RefusalKind::OutOfMemory.bare(),
        }
    }
}

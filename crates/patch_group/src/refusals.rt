//! What groups refuse.
ghost use Rattle.std.specs.Prelude.{◌≡◌};
ghost use Rattle.patch_group.specs.Refusals.{group_cause, sync_cause};

use patch_cache::FlushRefusal;
use patch_model::{BlockNo, OutOfMemory, Refusal, RefusalKind, Refuses};
use std::alloc::AllocError;
use thiserror::Error;

/// Why a call of groups is refused. Each call tests its own causes, in the order that its contract says.
#[derive(Clone, Copy, Debug, PartialEq, Eq, Error)]
pub enum GroupRefusal {
    /// No group has the number, or it was closed.
    #[error("NoSuchGroup")]
    NoSuchGroup,
    /// A group can't depend on itself.
    #[error("SameGroup")]
    SameGroup,
    /// The group was engaged before, so it takes no more orders.
    #[error("Started")]
    Started,
    /// A group depends on it, so it takes no more patches and no more orders.
    #[error("Sealed")]
    Sealed,
    /// The writer has engaged the group already; or somebody has a group engaged that has to be free.
    #[error("Engaged")]
    Engaged,
    /// The writer hasn't engaged the group.
    #[error("NotEngaged")]
    NotEngaged,
    /// As many groups were made as there are numbers.
    #[error("TooManyGroups")]
    TooManyGroups,
    #[error("OutOfMemory")]
    OutOfMemory,
}

/// Why a group isn't brought to the disk. The causes are tested in this order.
#[derive(Clone, Copy, Debug, PartialEq, Eq, Error)]
pub enum SyncRefusal {
    #[error("NoSuchGroup")]
    NoSuchGroup,
    /// The device refused the write of this block [`TRIES`](patch_cache::TRIES) times. Its flight is held as before.
    #[error("DeviceGaveUp {0}")]
    DeviceGaveUp(BlockNo),
    /// The device refused the sync behind a write, so that it may be lost. Its flight is held as before, and the device is spent.
    #[error("SyncFailed")]
    SyncFailed,
    #[error("OutOfMemory")]
    OutOfMemory,
}

impl Refuses for GroupRefusal {
    ghost cause = { group_cause };

    fn refusal(self) -> Refusal {
        match self {
            GroupRefusal::NoSuchGroup => RefusalKind::NoSuchGroup.bare(),
            GroupRefusal::SameGroup => RefusalKind::SameGroup.bare(),
            GroupRefusal::Started => RefusalKind::Started.bare(),
            GroupRefusal::Sealed => RefusalKind::Sealed.bare(),
            GroupRefusal::Engaged => RefusalKind::Engaged.bare(),
            GroupRefusal::NotEngaged => RefusalKind::NotEngaged.bare(),
            GroupRefusal::TooManyGroups => RefusalKind::TooManyGroups.bare(),
            GroupRefusal::OutOfMemory => RefusalKind::OutOfMemory.bare(),
        }
    }
}

impl Refuses for SyncRefusal {
    ghost cause = { sync_cause };

    fn refusal(self) -> Refusal {
        match self {
            SyncRefusal::NoSuchGroup => RefusalKind::NoSuchGroup.bare(),
            SyncRefusal::DeviceGaveUp(block) => RefusalKind::DeviceGaveUp.with_number(block.0),
            SyncRefusal::SyncFailed => RefusalKind::SyncFailed.bare(),
            SyncRefusal::OutOfMemory => RefusalKind::OutOfMemory.bare(),
        }
    }
}

impl From<OutOfMemory> for GroupRefusal {
    ghost use Rattle.patch_group.specs.declared.refusals.GroupRefusal.TheVariants.{OutOfMemory as NoMemory};

    ghost from_gives = { λ _ e. e ≡ NoMemory };

    fn from(_: OutOfMemory) -> GroupRefusal {
        GroupRefusal::OutOfMemory
    }
}

impl From<AllocError> for GroupRefusal {
    ghost use Rattle.patch_group.specs.declared.refusals.GroupRefusal.TheVariants.{OutOfMemory as NoMemory};

    ghost from_gives = { λ _ e. e ≡ NoMemory };

    fn from(_: AllocError) -> GroupRefusal {
        GroupRefusal::OutOfMemory
    }
}

impl From<OutOfMemory> for SyncRefusal {
    ghost use Rattle.patch_group.specs.declared.refusals.SyncRefusal.TheVariants.{OutOfMemory as NoMemory};

    ghost from_gives = { λ _ e. e ≡ NoMemory };

    fn from(_: OutOfMemory) -> SyncRefusal {
        SyncRefusal::OutOfMemory
    }
}

impl From<FlushRefusal> for SyncRefusal {
    ghost use Rattle.patch_group.specs.Refusals.{sync_of_flush};

    ghost from_gives = { λ r e. e ≡ sync_of_flush r };

    fn from(refusal: FlushRefusal) -> SyncRefusal {
        match refusal {
            FlushRefusal::DeviceGaveUp(block) => SyncRefusal::DeviceGaveUp(block),
            FlushRefusal::SyncFailed => SyncRefusal::SyncFailed,
            FlushRefusal::OutOfMemory => SyncRefusal::OutOfMemory,
        }
    }
}

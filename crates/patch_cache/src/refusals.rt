//! What a cache refuses.
ghost use Rattle.std.specs.Prelude.{◌≡◌};
ghost use Rattle.patch_model.specs.declared.refusals.RefusalKind.TheVariants as kind;
ghost use Rattle.patch_model.specs.Refusing.{bare};
ghost use Rattle.patch_cache.specs.Refusals.{view_cause, bring_cause, evict_cause, read_cause, create_cause, merge_cause, send_cause, take_cause, flush_cause, gave_up_cause};
ghost use Rattle.patch_stacks.specs.Refusal.{take_cause as view_take_cause};

use patch_model::{BlockNo, OutOfMemory, PatchNo, Refusal, RefusalKind, Refuses};
use thiserror::Error;

/// The device refused the write.
#[derive(Clone, Copy, Debug, PartialEq, Eq, Error)]
#[error("Fault")]
pub struct Fault;

/// The device refused the write of this block [`TRIES`](crate::TRIES) times. Its flight is held as before.
#[derive(Clone, Copy, Debug, PartialEq, Eq, Error)]
#[error("DeviceGaveUp {0}")]
pub struct DeviceGaveUp(pub BlockNo);

/// Why writes end before all patches are on the disk.
#[derive(Clone, Copy, Debug, PartialEq, Eq, Error)]
pub enum FlushRefusal {
    /// The device refused the write of this block [`TRIES`](crate::TRIES) times. Its flight is held as before.
    #[error("DeviceGaveUp {0}")]
    DeviceGaveUp(BlockNo),
    /// The device refused the sync behind some writes, so that they may be lost. Their flights are held as before, and the device
    /// is spent: what is left of it is found by opening it anew.
    #[error("SyncFailed")]
    SyncFailed,
    #[error("OutOfMemory")]
    OutOfMemory,
}

/// Some patch is in memory or in flight.
#[derive(Clone, Copy, Debug, PartialEq, Eq, Error)]
#[error("Live")]
pub struct Live;

/// Why a block isn't admitted. The causes are tested in this order.
#[derive(Clone, Copy, Debug, PartialEq, Eq, Error)]
pub enum AdmitRefusal {
    #[error("NoSuchBlock")]
    NoSuchBlock,
    /// The cache has the block already.
    #[error("IsResident")]
    IsResident,
    #[error("OutOfMemory")]
    OutOfMemory,
}

/// Why a block that isn't resident isn't read from the device and admitted.
#[derive(Clone, Copy, Debug, PartialEq, Eq, Error)]
pub enum BringRefusal {
    /// The device refused the read.
    #[error("Fault")]
    Fault,
    #[error("OutOfMemory")]
    OutOfMemory,
}

/// Why a block isn't let go. The causes are tested in this order.
#[derive(Clone, Copy, Debug, PartialEq, Eq, Error)]
pub enum EvictRefusal {
    #[error("NoSuchBlock")]
    NoSuchBlock,
    #[error("NotResident {0}")]
    NotResident(BlockNo),
    /// Some patch of it is in memory or in flight.
    #[error("Live")]
    Live,
}

/// Why a block isn't lent as a view. The causes are tested in this order.
#[derive(Clone, Copy, Debug, PartialEq, Eq, Error)]
pub enum ViewRefusal {
    #[error("NoSuchBlock")]
    NoSuchBlock,
    #[error("NotResident {0}")]
    NotResident(BlockNo),
}

/// Why bytes aren't read. The causes are tested in this order.
#[derive(Clone, Copy, Debug, PartialEq, Eq, Error)]
pub enum ReadRefusal {
    #[error("NoSuchBlock")]
    NoSuchBlock,
    #[error("NotResident {0}")]
    NotResident(BlockNo),
    /// The span passes the end of the block.
    #[error("OutOfBlock")]
    OutOfBlock,
}

/// Why a patch isn't made. The causes are tested in this order.
#[derive(Clone, Copy, Debug, PartialEq, Eq, Error)]
pub enum CreateRefusal {
    #[error("NoSuchBlock")]
    NoSuchBlock,
    #[error("NotResident {0}")]
    NotResident(BlockNo),
    /// It has no bytes.
    #[error("EmptyPatch")]
    EmptyPatch,
    /// Its bytes pass the end of the block.
    #[error("OutOfBlock")]
    OutOfBlock,
    /// It names a number that no patch has yet.
    #[error("UnknownDependency")]
    UnknownDependency,
    /// As many patches were made as there are numbers.
    #[error("NumbersSpent")]
    NumbersSpent,
    /// As many patches are in memory or in flight as there may be.
    #[error("TooManyLive")]
    TooManyLive,
    #[error("OutOfMemory")]
    OutOfMemory,
}

/// Why two classes aren't merged. The causes are tested in this order; where one can be of either patch, the number is the
/// first's if it is of the first.
#[derive(Clone, Copy, Debug, PartialEq, Eq, Error)]
pub enum MergeRefusal {
    /// A number that no patch has yet.
    #[error("Unknown")]
    Unknown,
    #[error("NotInMemory {0}")]
    NotInMemory(PatchNo),
    /// They are one class already.
    #[error("Same")]
    Same,
    #[error("OtherBlock")]
    OtherBlock,
    #[error("Hard {0}")]
    Hard(PatchNo),
    /// Their spans neither overlap nor touch.
    #[error("Apart")]
    Apart,
    /// The least name of a third live class on a path from one to the other, which would stand both above and below the
    /// merged class.
    #[error("WouldCycle {0}")]
    WouldCycle(PatchNo),
    #[error("OutOfMemory")]
    OutOfMemory,
}

/// Why a block isn't sent. The causes are tested in this order.
#[derive(Clone, Copy, Debug, PartialEq, Eq, Error)]
pub enum SendRefusal {
    #[error("NoSuchBlock")]
    NoSuchBlock,
    #[error("NotResident {0}")]
    NotResident(BlockNo),
    #[error("AlreadyInFlight")]
    AlreadyInFlight,
    #[error("NothingReady")]
    NothingReady,
    #[error("OutOfMemory")]
    OutOfMemory,
}

/// Why a class isn't taken back in a view of a cache's block. The causes are tested in this order.
#[derive(Clone, Copy, Debug, PartialEq, Eq, Error)]
pub enum TakeRefusal {
    /// No patch has the number, or a live one of another block.
    #[error("Unknown")]
    Unknown,
    /// The patch is on the disk, of whichever block it is.
    #[error("Durable")]
    Durable,
    #[error("InFlight")]
    InFlight,
    /// The class keeps no bytes to be taken back.
    #[error("Hard")]
    Hard,
    #[error("AlreadyTaken")]
    AlreadyTaken,
    /// The least name of a class of the block that depends directly on this one and isn't taken.
    #[error("DependentApplied {0}")]
    DependentApplied(PatchNo),
}

impl Refuses for ViewRefusal {
    ghost cause = { view_cause };

    fn refusal(self) -> Refusal {
        match self {
            ViewRefusal::NoSuchBlock => RefusalKind::NoSuchBlock.bare(),
            ViewRefusal::NotResident(block) => RefusalKind::NotResident.with_number(block.0),
        }
    }
}

impl Refuses for BringRefusal {
    ghost cause = { bring_cause };

    fn refusal(self) -> Refusal {
        match self {
            BringRefusal::Fault => RefusalKind::Fault.bare(),
            BringRefusal::OutOfMemory => RefusalKind::OutOfMemory.bare(),
        }
    }
}

impl Refuses for EvictRefusal {
    ghost cause = { evict_cause };

    fn refusal(self) -> Refusal {
        match self {
            EvictRefusal::NoSuchBlock => RefusalKind::NoSuchBlock.bare(),
            EvictRefusal::NotResident(block) => RefusalKind::NotResident.with_number(block.0),
            EvictRefusal::Live => RefusalKind::Live.bare(),
        }
    }
}

impl Refuses for Live {
    ghost cause = { λ _. bare kind.Live };

    fn refusal(self) -> Refusal {
        RefusalKind::Live.bare()
    }
}

impl Refuses for Fault {
    ghost cause = { λ _. bare kind.Fault };

    fn refusal(self) -> Refusal {
        RefusalKind::Fault.bare()
    }
}

impl Refuses for ReadRefusal {
    ghost cause = { read_cause };

    fn refusal(self) -> Refusal {
        match self {
            ReadRefusal::NoSuchBlock => RefusalKind::NoSuchBlock.bare(),
            ReadRefusal::NotResident(block) => RefusalKind::NotResident.with_number(block.0),
            ReadRefusal::OutOfBlock => RefusalKind::OutOfBlock.bare(),
        }
    }
}

impl Refuses for CreateRefusal {
    ghost cause = { create_cause };

    fn refusal(self) -> Refusal {
        match self {
            CreateRefusal::NoSuchBlock => RefusalKind::NoSuchBlock.bare(),
            CreateRefusal::NotResident(block) => RefusalKind::NotResident.with_number(block.0),
            CreateRefusal::EmptyPatch => RefusalKind::EmptyPatch.bare(),
            CreateRefusal::OutOfBlock => RefusalKind::OutOfBlock.bare(),
            CreateRefusal::UnknownDependency => RefusalKind::UnknownDependency.bare(),
            CreateRefusal::NumbersSpent => RefusalKind::NumbersSpent.bare(),
            CreateRefusal::TooManyLive => RefusalKind::TooManyLive.bare(),
            CreateRefusal::OutOfMemory => RefusalKind::OutOfMemory.bare(),
        }
    }
}

impl Refuses for MergeRefusal {
    ghost cause = { merge_cause };

    fn refusal(self) -> Refusal {
        match self {
            MergeRefusal::Unknown => RefusalKind::Unknown.bare(),
            MergeRefusal::NotInMemory(no) => RefusalKind::NotInMemory.with_number(no.0),
            MergeRefusal::Same => RefusalKind::Same.bare(),
            MergeRefusal::OtherBlock => RefusalKind::OtherBlock.bare(),
            MergeRefusal::Hard(no) => RefusalKind::Hard.with_number(no.0),
            MergeRefusal::Apart => RefusalKind::Apart.bare(),
            MergeRefusal::WouldCycle(no) => RefusalKind::WouldCycle.with_number(no.0),
            MergeRefusal::OutOfMemory => RefusalKind::OutOfMemory.bare(),
        }
    }
}

impl Refuses for SendRefusal {
    ghost cause = { send_cause };

    fn refusal(self) -> Refusal {
        match self {
            SendRefusal::NoSuchBlock => RefusalKind::NoSuchBlock.bare(),
            SendRefusal::NotResident(block) => RefusalKind::NotResident.with_number(block.0),
            SendRefusal::AlreadyInFlight => RefusalKind::AlreadyInFlight.bare(),
            SendRefusal::NothingReady => RefusalKind::NothingReady.bare(),
            SendRefusal::OutOfMemory => RefusalKind::OutOfMemory.bare(),
        }
    }
}

impl Refuses for TakeRefusal {
    ghost cause = { take_cause };

    fn refusal(self) -> Refusal {
        match self {
            TakeRefusal::Unknown => RefusalKind::Unknown.bare(),
            TakeRefusal::Durable => RefusalKind::Durable.bare(),
            TakeRefusal::InFlight => RefusalKind::InFlight.bare(),
            TakeRefusal::Hard => RefusalKind::Hard.bare(),
            TakeRefusal::AlreadyTaken => RefusalKind::AlreadyTaken.bare(),
            TakeRefusal::DependentApplied(no) => RefusalKind::DependentApplied.with_number(no.0),
        }
    }
}

impl Refuses for DeviceGaveUp {
    ghost cause = { gave_up_cause };

    fn refusal(self) -> Refusal {
        RefusalKind::DeviceGaveUp.with_number(self.0.0)
    }
}

impl Refuses for FlushRefusal {
    ghost cause = { flush_cause };

    fn refusal(self) -> Refusal {
        match self {
            FlushRefusal::DeviceGaveUp(block) => RefusalKind::DeviceGaveUp.with_number(block.0),
            FlushRefusal::SyncFailed => RefusalKind::SyncFailed.bare(),
            FlushRefusal::OutOfMemory => RefusalKind::OutOfMemory.bare(),
        }
    }
}

impl From<OutOfMemory> for CreateRefusal {
    ghost use Rattle.patch_cache.specs.declared.refusals.CreateRefusal.TheVariants.{OutOfMemory as NoMemory};

    ghost from_gives = { λ _ e. e ≡ NoMemory };

    fn from(_: OutOfMemory) -> CreateRefusal {
        CreateRefusal::OutOfMemory
    }
}

impl From<OutOfMemory> for MergeRefusal {
    ghost use Rattle.patch_cache.specs.declared.refusals.MergeRefusal.TheVariants.{OutOfMemory as NoMemory};

    ghost from_gives = { λ _ e. e ≡ NoMemory };

    fn from(_: OutOfMemory) -> MergeRefusal {
        MergeRefusal::OutOfMemory
    }
}

impl From<OutOfMemory> for SendRefusal {
    ghost use Rattle.patch_cache.specs.declared.refusals.SendRefusal.TheVariants.{OutOfMemory as NoMemory};

    ghost from_gives = { λ _ e. e ≡ NoMemory };

    fn from(_: OutOfMemory) -> SendRefusal {
        SendRefusal::OutOfMemory
    }
}

impl From<OutOfMemory> for BringRefusal {
    ghost use Rattle.patch_cache.specs.declared.refusals.BringRefusal.TheVariants.{OutOfMemory as NoMemory};

    ghost from_gives = { λ _ e. e ≡ NoMemory };

    fn from(_: OutOfMemory) -> BringRefusal {
        BringRefusal::OutOfMemory
    }
}

impl From<patch_view::TakeRefusal> for TakeRefusal {
    ghost from_gives = { λ r e. take_cause e ≡ view_take_cause r };

    fn from(refusal: patch_view::TakeRefusal) -> TakeRefusal {
        match refusal {
            patch_view::TakeRefusal::Unknown => TakeRefusal::Unknown,
            patch_view::TakeRefusal::InFlight => TakeRefusal::InFlight,
            patch_view::TakeRefusal::Hard => TakeRefusal::Hard,
            patch_view::TakeRefusal::AlreadyTaken => TakeRefusal::AlreadyTaken,
            patch_view::TakeRefusal::DependentApplied(no) => TakeRefusal::DependentApplied(no),
        }
    }
}

impl From<OutOfMemory> for FlushRefusal {
    ghost use Rattle.patch_cache.specs.declared.refusals.FlushRefusal.TheVariants.{OutOfMemory as NoMemory};

    ghost from_gives = { λ _ e. e ≡ NoMemory };

    fn from(_: OutOfMemory) -> FlushRefusal {
        FlushRefusal::OutOfMemory
    }
}

impl From<DeviceGaveUp> for FlushRefusal {
    ghost use Rattle.patch_cache.specs.declared.refusals.FlushRefusal.TheVariants.{DeviceGaveUp as GaveUp};

    ghost from_gives = { λ r e. e ≡ GaveUp r.0 };

    fn from(refusal: DeviceGaveUp) -> FlushRefusal {
        FlushRefusal::DeviceGaveUp(refusal.0)
    }
}

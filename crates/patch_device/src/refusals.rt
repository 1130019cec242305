//! What devices refuse.
ghost use Rattle.std.specs.Prelude.{◌≡◌};
ghost use Rattle.patch_device.specs.Refusals.{device_cause, file_cause, load_cause};

use patch_model::{Refusal, RefusalKind, Refuses};
use std::alloc::{AllocError, AllocFailed};
use thiserror::Error;

/// Why a read or a write of a device isn't done.
#[derive(Clone, Copy, Debug, PartialEq, Eq, Error)]
pub enum DeviceRefusal {
    #[error("NoSuchBlock")]
    NoSuchBlock,
    #[error("Fault")]
    Fault,
}

/// Why a file isn't taken, or made, as a device.
#[derive(Clone, Copy, Debug, PartialEq, Eq, Error)]
pub enum FileRefusal {
    /// The length isn't 1 to 4,096 whole blocks.
    #[error("FileSize")]
    FileSize,
    /// The file can't be opened, made, measured, read or written.
    #[error("Disk")]
    Disk,
    /// There is no memory for the blocks.
    #[error("OutOfMemory")]
    OutOfMemory,
}

/// Why the blocks of a device weren't loaded.
#[derive(Clone, Copy, Debug, PartialEq, Eq, Error)]
pub enum LoadFault {
    #[error("Fault")]
    Fault,
    #[error("OutOfMemory")]
    OutOfMemory,
}

impl Refuses for DeviceRefusal {
    ghost cause = { device_cause };

    fn refusal(self) -> Refusal {
        match self {
            DeviceRefusal::NoSuchBlock => RefusalKind::NoSuchBlock.bare(),
            DeviceRefusal::Fault => RefusalKind::Fault.bare(),
        }
    }
}

impl Refuses for FileRefusal {
    ghost cause = { file_cause };

    fn refusal(self) -> Refusal {
        match self {
            FileRefusal::FileSize => RefusalKind::FileSize.bare(),
            FileRefusal::Disk => RefusalKind::Disk.bare(),
            FileRefusal::OutOfMemory => RefusalKind::OutOfMemory.bare(),
        }
    }
}

impl Refuses for LoadFault {
    ghost cause = { load_cause };

    fn refusal(self) -> Refusal {
        match self {
            LoadFault::Fault => RefusalKind::Fault.bare(),
            LoadFault::OutOfMemory => RefusalKind::OutOfMemory.bare(),
        }
    }
}

impl From<AllocError> for FileRefusal {
    ghost use Rattle.patch_device.specs.declared.refusals.FileRefusal.TheVariants.{OutOfMemory};

    ghost from_gives = { λ _ e. e ≡ OutOfMemory };

    fn from(_: AllocError) -> FileRefusal {
        FileRefusal::OutOfMemory
    }
}

impl<T: Drop> From<AllocFailed<T>> for FileRefusal {
    ghost use Rattle.patch_device.specs.declared.refusals.FileRefusal.TheVariants.{OutOfMemory};

    ghost from_gives = { λ _ e. e ≡ OutOfMemory };

    fn from(_: AllocFailed<T>) -> FileRefusal {
        FileRefusal::OutOfMemory
    }
}

impl From<AllocError> for LoadFault {
    ghost use Rattle.patch_device.specs.declared.refusals.LoadFault.TheVariants.{OutOfMemory};

    ghost from_gives = { λ _ e. e ≡ OutOfMemory };

    fn from(_: AllocError) -> LoadFault {
        LoadFault::OutOfMemory
    }
}

impl<T: Drop> From<AllocFailed<T>> for LoadFault {
    ghost use Rattle.patch_device.specs.declared.refusals.LoadFault.TheVariants.{OutOfMemory};

    ghost from_gives = { λ _ e. e ≡ OutOfMemory };

    fn from(_: AllocFailed<T>) -> LoadFault {
        LoadFault::OutOfMemory
    }
}

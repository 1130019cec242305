//! Why serving ends before all is done.
ghost use Rattle.std.specs.Prelude.{◌≡◌, None};
ghost use Rattle.patch_shared.specs.Refusals.{serve_cause};

use patch_device::Device;
use patch_model::{BlockNo, Refusal, RefusalKind, Refuses};
use thiserror::Error;

/// Why no more is served.
#[derive(Clone, Copy, Debug, PartialEq, Eq, Error)]
pub enum Cause {
    /// The device refused [`TRIES`](patch_cache::TRIES) times to write this block, or to read it back.
    #[error("DeviceGaveUp {0}")]
    DeviceGaveUp(BlockNo),
    /// The device refused a sync. What was written since the last one may be lost, whatever a later sync says.
    #[error("SyncFailed")]
    SyncFailed,
    /// What the book holds isn't what the threads did.
    #[error("Disagreed")]
    Disagreed,
    /// The device holds other bytes in this block than were written.
    #[error("ReadBack {0}")]
    ReadBack(BlockNo),
    /// A thread can't be started.
    #[error("NoThread")]
    NoThread,
    #[error("OutOfMemory")]
    OutOfMemory,
}

impl Refuses for Cause {
    ghost cause = { serve_cause };

    fn refusal(self) -> Refusal {
        match self {
            Cause::DeviceGaveUp(block) => RefusalKind::DeviceGaveUp.with_number(block.0),
            Cause::SyncFailed => RefusalKind::SyncFailed.bare(),
            Cause::Disagreed => RefusalKind::Disagreed.bare(),
            Cause::ReadBack(block) => RefusalKind::ReadBack.with_number(block.0),
            Cause::NoThread => RefusalKind::NoThread.bare(),
            Cause::OutOfMemory => RefusalKind::OutOfMemory.bare(),
        }
    }
}

/// A cause, and the device where it gave up or refused a sync. The store is lost.
#[derive(Drop)]
pub struct ServeFault<D: Device> {
    pub cause: Cause,
    pub device: Option<D>,
}

impl<D: Device> ServeFault<D> {
    /// A fault of which no device comes back.
    pub(crate) fn bare(cause: Cause) -> ServeFault<D>
        ensures { (result.cause ≡ cause) × (result.device ≡ None) }
    {
        ServeFault {
            cause,
            device: None,
        }
    }
}

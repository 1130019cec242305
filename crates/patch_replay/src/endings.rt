//! How a replay ends, and why it stops.
ghost use Rattle.std.specs.Prelude.{◌≡◌};
ghost use Rattle.patch_replay.specs.declared.endings.Fault.TheVariants.{OutOfMemory as MemoryFault};
ghost use Rattle.patch_replay.specs.Replay.{exit_of};

use patch_model::OutOfMemory;
use patch_script::{Defect, MAX_BYTES, MAX_LINES};
use thiserror::Error;

/// Why no line of a script is answered.
#[derive(Clone, Copy, Debug, PartialEq, Eq, Error)]
pub enum BadScript {
    #[error("the script has more than {bytes} bytes or {lines} lines", bytes = MAX_BYTES, lines = MAX_LINES)]
    TooLong,
    /// The first line that is unreadable, counted from 1, and what is wrong with it.
    #[error("line {line}: {defect}")]
    BadLine { line: usize, defect: Defect },
}

/// How a replay ended.
#[derive(Clone, Copy, Debug, PartialEq, Eq)]
pub enum Status {
    Done,
    Unreadable(BadScript),
    /// The reader or the writer failed.
    Failed,
    OutOfMemory,
}

/// Why a replay stopped.
#[derive(Clone, Copy, Debug, PartialEq, Eq)]
pub enum Fault {
    Read,
    Write,
    OutOfMemory,
}

impl From<OutOfMemory> for Fault {
    ghost from_gives = { λ _ fault. fault ≡ MemoryFault };

    fn from(_: OutOfMemory) -> Fault {
        Fault::OutOfMemory
    }
}

impl Status {
    /// The exit status of the program.
    pub fn code(self) -> u8
        ensures { result ≡ exit_of self }
    {
        match self {
            Status::Done => 0,
            Status::Unreadable(_) => 3,
            Status::Failed => 4,
            Status::OutOfMemory => 5,
        }
    }
}

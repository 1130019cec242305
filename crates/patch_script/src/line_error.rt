//! Why a line gave nothing.
ghost use Rattle.std.specs.Prelude.{◌≡◌};
ghost use Rattle.patch_script.specs.declared.defects.Defect.TheVariants.{Missing, Wrong};
ghost use Rattle.patch_script.specs.declared.line_error.LineError.TheVariants.{OutOfMemory, Unreadable};

use crate::defects::{Defect, Name};
use std::alloc::{AllocError, AllocFailed};

/// Why a line gave nothing.
#[derive(Clone, Copy, Debug, PartialEq, Eq)]
pub enum LineError {
    /// The line has no meaning, and this is wrong with it.
    Unreadable(Defect),
    OutOfMemory,
}

impl From<AllocError> for LineError {
    ghost from_gives = { λ _ e. e ≡ OutOfMemory };

    fn from(_: AllocError) -> LineError {
        LineError::OutOfMemory
    }
}

impl<T: Drop> From<AllocFailed<T>> for LineError {
    ghost from_gives = { λ _ e. e ≡ OutOfMemory };

    fn from(_: AllocFailed<T>) -> LineError {
        LineError::OutOfMemory
    }
}

/// What has to be there, and isn't.
pub(crate) fn missing(name: Name) -> LineError
    ensures { result ≡ Unreadable (Missing name) }
{
    LineError::Unreadable(Defect::Missing(name))
}

/// What is there, with a value that it can't have.
pub(crate) fn wrong(name: Name) -> LineError
    ensures { result ≡ Unreadable (Wrong name) }
{
    LineError::Unreadable(Defect::Wrong(name))
}

//! What an engine refuses that its cache and its groups don't.
ghost use Rattle.std.specs.Prelude.{◌≡◌};
ghost use Rattle.patch_model.specs.declared.refusals.RefusalKind.TheVariants as kind;
ghost use Rattle.patch_model.specs.Refusing.{bare};
ghost use Rattle.patch_engine.specs.Refusals.{open_cause, without_cause};

use patch_cache::{ReadRefusal, TakeRefusal};
use patch_model::{Refusal, RefusalKind, Refuses};
use thiserror::Error;

/// Why an engine isn't opened.
#[derive(Clone, Copy, Debug, PartialEq, Eq, Error)]
pub enum OpenRefusal {
    /// There are no blocks, or more than there may be.
    #[error("FileSize")]
    FileSize,
}

/// Why bytes aren't shown without some patches. The causes are tested in this order.
#[derive(Clone, Copy, Debug, PartialEq, Eq, Error)]
pub enum WithoutRefusal {
    /// The span isn't read.
    #[error("{0}")]
    Unread(ReadRefusal),
    /// The class of a patch isn't taken back: of the first that isn't.
    #[error("{0}")]
    Untaken(TakeRefusal),
}

/// No such write is out: none began, or it was completed.
#[derive(Clone, Copy, Debug, PartialEq, Eq, Error)]
#[error("Stranger")]
pub struct Stranger;

impl Refuses for OpenRefusal {
    ghost cause = { open_cause };

    fn refusal(self) -> Refusal {
        match self {
            OpenRefusal::FileSize => RefusalKind::FileSize.bare(),
        }
    }
}

impl Refuses for WithoutRefusal {
    ghost cause = { without_cause };

    fn refusal(self) -> Refusal {
        match self {
            WithoutRefusal::Unread(refusal) => refusal.refusal(),
            WithoutRefusal::Untaken(refusal) => refusal.refusal(),
        }
    }
}

impl Refuses for Stranger {
    ghost cause = { λ _. bare kind.Stranger };

    fn refusal(self) -> Refusal {
        RefusalKind::Stranger.bare()
    }
}

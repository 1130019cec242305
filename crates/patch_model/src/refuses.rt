//! What every type of refusals tells.
ghost use Rattle.std.specs.Prelude.{◌≡◌};
ghost use Rattle.patch_model.specs.declared.refusals.Refusal.{Refusal};
ghost use Rattle.patch_model.specs.Refusal.{code_of, name_of};

use crate::refusals::{Refusal, RefusalKind};

/// A type of refusals: each says what it comes to, and the rest follows.
pub trait Refuses {
    /// What a refusal of this type comes to.
    ghost cause: { Self → Refusal };

    /// The kind of the refusal, and the number that goes with it.
    fn refusal(self) -> Refusal
        ensures { result ≡ cause self };

    /// Of what kind the refusal is.
    final fn kind(self) -> RefusalKind
    where
        Self: Sized,
        ensures { result ≡ (cause self).kind }
    {
        self.refusal().kind
    }

    /// The number that it carries.
    final fn number(self) -> Option<u32>
    where
        Self: Sized,
        ensures { result ≡ (cause self).number }
    {
        self.refusal().number
    }

    /// The number of the refusal's kind, from 1.
    final fn code(self) -> u8
    where
        Self: Sized,
        ensures { result ≡ code_of (cause self).kind }
    {
        self.kind().code()
    }

    /// The name of the refusal's kind, as the program prints it.
    final fn name(self) -> &'static str
    where
        Self: Sized,
        ensures { result.now ≡ name_of (cause self).kind }
    {
        self.kind().name()
    }
}

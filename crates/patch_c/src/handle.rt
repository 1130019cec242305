//! What a program in C holds of a store.
ghost use Rattle.std.specs.Prelude.{◌↔◌, IsTrue, IsSome};

use crate::opened::Opened;
use crate::sealed::Sealed;
use patch_handles::RawBox;
use std::alloc::Global;
use std::mem;

/// `fstch_store`: zeros, or what the last call left.
#[repr(C)]
pub struct Handle {
    pub is_open: bool,
    pub sealed: Sealed,
    ghost agrees: { IsTrue is_open ↔ IsSome sealed.opened },
}

impl Handle {
    ghost use Rattle.std.specs.Prelude.{◌≡◌, IsFalse, IfSome, Some, None, true, false};
    ghost use Rattle.patch_c.specs.Handle.{IsZeros};

    /// `FSTCH_CLOSED`.
    pub fn closed(alloc: Global) -> Handle
        ensures { IsZeros result }
    {
        Handle {
            is_open: false,
            sealed: Sealed::empty(alloc),
        }
    }

    fn holding(opened: Box<Opened, Global>) -> Handle
        ensures open { result.is_open ≡ true }
        ensures value { result.sealed.opened ≡ Some opened.value }
    {
        Handle {
            is_open: true,
            sealed: Sealed::of(RawBox::of(opened)),
        }
    }

    /// Takes the store out, and leaves a closed handle.
    pub fn take(&mut self, alloc: Global) -> Option<Box<Opened, Global>>
        ensures some { IsSome result ↔ IsTrue self.old.is_open }
        ensures value { IfSome result (λ b. Some b.value ≡ self.old.sealed.opened) }
        ensures closed { IsZeros self.new }
    {
        let Handle { is_open, sealed } = mem::replace(self, Handle::closed(alloc));
        if !is_open {
            sealed.forget();
            return None;
        }
        Some(sealed.into_raw().into_box())
    }

    /// Puts a store where there is none.
    pub fn put_back(&mut self, opened: Box<Opened, Global>)
        requires { IsFalse self.old.is_open }
        ensures open { self.new.is_open ≡ true }
        ensures value { self.new.sealed.opened ≡ Some opened.value }
    {
        let Handle { is_open: _, sealed } = mem::replace(self, Handle::holding(opened));
        sealed.forget();
    }
}

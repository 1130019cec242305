//! An open cache on the heap, by a type that names none that C may not see.
ghost use Rattle.std.specs.Prelude.{◌≡◌, Option, Some, None, IsSome, IsNone};
ghost use denote.RawPtr.{null_ptr};
ghost use Rattle.patch_engine_c.specs.declared.opened.Opened.{Opened};
ghost use Rattle.patch_engine_c.specs.Sealed.{sealed_owns, opened_coded};

use crate::opened::Opened;
use patch_handles::RawBox;
use std::alloc::Global;
use std::marker::Model;
use std::ptr;

/// What a box of an open cache owns, or nothing.
#[repr(C)]
pub struct Sealed {
    pub at: *mut u8,
    pub alloc: Global,
    pub ghost opened: { Option Opened } by { opened_coded },
}

impl Model for Sealed {
    ghost also_owns = { λ s. sealed_owns s.alloc s.at s.opened };
}

impl Sealed {
    /// Nothing.
    pub fn empty(alloc: Global) -> Sealed
        ensures { (result.opened ≡ None) × (result.at ≡ null_ptr) }
    {
        Sealed {
            at: ptr::null_mut(),
            alloc,
        }
    }

    /// Lets go of nothing.
    pub fn forget(self)
        requires { IsNone self.opened }
    {
        let Sealed { at: _, alloc: _ } = self;
    }

    /// What the box owns.
    pub fn of(raw: RawBox<Opened, Global>) -> Sealed
        ensures { result.opened ≡ Some raw.value }
    {
        let RawBox { at, alloc } = raw;
        Sealed {
            at: at as *mut u8,
            alloc,
        }
    }

    /// The box again.
    pub fn into_raw(self) -> RawBox<Opened, Global>
        requires { IsSome self.opened }
        ensures { Some result.value ≡ self.opened }
    {
        let Sealed { at, alloc } = self;
        RawBox {
            at: at as *mut Opened,
            alloc,
        }
    }
}

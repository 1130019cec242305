//! Renewal: a store from which much was asked begins anew behind a sync, so that it is never spent.
ghost use Rattle.std.specs.Prelude.{◌≡◌, ◌↔◌, IsTrue, IsFalse};
ghost use Rattle.patch_history.specs.History.{History};
ghost use Rattle.patch_store.specs.Meaning.{IsStoreOf};
ghost use Rattle.patch_c.specs.Handle.{Between, KeepsRest, StaysClosed};
ghost use Rattle.patch_c.specs.Renewing.{is_worn as is_worn_at, IsRenewed};

use crate::handle::Handle;
use crate::laws::renewals_stay;
use crate::opened::Opened;
use patch_handles::{DONE, NOT_OPEN};
use patch_store::Live;
use std::alloc::Global;

/// A store with more patches than these is worn, of all that may be made.
const MOST_PATCHES: u32 = 1_048_576;

/// And one with more groups.
const MOST_GROUPS: u32 = 512;

impl Opened {
    /// Begins anew where the store is worn and nothing is under way.
    fn renew(&mut self)
        ensures renewed { (h : History) → IsStoreOf self.old.store h → IsRenewed h self.old.store self.new.store }
        ensures rest { KeepsRest self.old self.new }
    {
        renewals_stay();
        if !self.is_worn() {
            return;
        }
        match self.store.renew() {
            Ok(()) | Err(Live) => {}
        }
    }

    fn is_worn(&self) -> bool
        ensures { (h : History) → IsStoreOf self.now.store h → result ≡ is_worn_at h }
    {
        self.store.cache().made() > MOST_PATCHES || self.store.groups_made() > MOST_GROUPS
    }
}

/// Begins anew where many patches or groups were made, none of the patches is in memory or in flight, and each group is closed or was
/// never engaged. Keys, values and the file stay.
#[unsafe(no_mangle)]
pub extern "C" fn fstch_core_renew(handle: &mut Handle, alloc: Global) -> i32
    ensures open { handle.new.is_open ≡ handle.old.is_open }
    ensures done { (result ≡ DONE) ↔ IsTrue handle.old.is_open }
    ensures not_open { (result ≡ NOT_OPEN) ↔ IsFalse handle.old.is_open }
    ensures closed { StaysClosed handle.old handle.new }
    ensures renewed { Between handle.old handle.new (λ before after. (h : History) → IsStoreOf before.store h
        → IsRenewed h before.store after.store) }
    ensures rest { Between handle.old handle.new KeepsRest }
{
    let Some(mut opened) = handle.take(alloc) else {
        return NOT_OPEN;
    };
    opened.renew();
    handle.put_back(opened);
    DONE
}

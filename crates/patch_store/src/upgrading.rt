//! How the disk is made one of version 2.
ghost use Rattle.std.specs.Prelude.{◌≡◌, ℕ, None, OnErr, count_by, length};
ghost use Rattle.patch_model.specs.Entry.{is_live};
ghost use Rattle.patch_model.specs.Execution.{Execution};
ghost use Rattle.patch_model.specs.State.{entries_of};
ghost use Rattle.patch_frame.specs.declared.geometries.Format.TheVariants.{One};
ghost use Rattle.patch_cache.specs.Meaning.{IsCacheOf};
ghost use Rattle.patch_plans.specs.Room.{why_no_room};
ghost use Rattle.patch_history.specs.Command.{Upgrade, Done};
ghost use Rattle.patch_history.specs.Refusals.{upgrade_cause};
ghost use Rattle.patch_store.specs.Meaning.{Answers};
ghost use Rattle.patch_store.specs.Replies.{reply_to};
ghost use Rattle.patch_store.specs.Upgrading.{Widens};

use crate::stores::Store;
use patch_frame::Format;
use patch_history::{UpgradeRefusal, laws as history_laws};
use patch_model::{MAX_LIVE, MAX_PATCHES, OutOfMemory};
use std::alloc::Allocator;

impl<A: Allocator + Copy> Store<A> {
    /// Makes the disk one of version 2, in which values may be longer: one patch, of no writer, says so in the superblock.
    /// Extents and keys stay where they are. Each slot that is filled from now on comes after that patch.
    pub fn upgrade(&mut self) -> Result<(), UpgradeRefusal>
        ensures answer { (writer : ℕ) → Answers writer Upgrade (reply_to upgrade_cause (λ _. Done) result) self.old self.new }
        ensures refused { OnErr result (self.new ≡ self.old) }
    {
        history_laws::histories_extend();
        history_laws::shelves_are_kept();
        history_laws::histories_are_of_stores();
        if let Format::Two { .. } = self.geometry.format {
            return Err(UpgradeRefusal::AlreadyVersion2);
        }
        if self.cache.made() >= MAX_PATCHES {
            return Err(UpgradeRefusal::NumbersSpent);
        }
        if self.cache.live() >= MAX_LIVE {
            return Err(UpgradeRefusal::TooManyLive);
        }
        let Ok(()) = self.widen() else {
            return Err(UpgradeRefusal::OutOfMemory);
        };
        Ok(())
    }

    /// Makes the patch of the upgrade, and notes it.
    fn widen(&mut self) -> Result<(), OutOfMemory>
        requires version { self.old.shelf.extents.geometry.format ≡ One }
        requires room { (run : Execution) → IsCacheOf self.old.cache run
            → why_no_room (length (entries_of run)) (count_by is_live (entries_of run)) 1 ≡ None }
        ensures { Widens result self.old self.new }
    {
        let Ok(no) = self.extents.upgrade(&mut self.cache) else {
            return Err(OutOfMemory);
        };
        self.geometry = self.extents.geometry();
        self.upgrade = Some(no);
        Ok(())
    }
}

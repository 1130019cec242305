//! What a store holds, as it is reported.
ghost use Rattle.std.specs.Prelude.{◌≡◌, ◌<◌, slice_get, map, option_map, IfOk};
ghost use Rattle.patch_history.specs.History.{History, standing_of};
ghost use Rattle.patch_index.specs.Reporting.{reported};
ghost use Rattle.patch_store.specs.Checking.{entries_of, extent_report, extent_reports, ListsMap};
ghost use Rattle.patch_store.specs.Meaning.{IsStoreOf};

use crate::reports::{ExtentReport, Report};
use crate::stores::Store;
use patch_history::laws as history_laws;
use patch_index::EntryReport;
use patch_model::OutOfMemory;
use std::alloc::Allocator;

impl<A: Allocator + Copy> Store<A> {
    /// What the store holds: its keys, with the lengths of their values, and its extents.
    pub fn check(&self) -> Result<Report<A>, OutOfMemory>
        ensures entries { (h : History) → IsStoreOf self.now h → IfOk result (λ report. ListsMap h (map reported report.entries.items)) }
        ensures extents { (h : History) → IsStoreOf self.now h → IfOk result (λ report.
            report.extents.items ≡ extent_reports (standing_of h).shelf) }
    {
        history_laws::shelves_are_kept();
        history_laws::histories_are_of_stores();
        let entries = self.index.reports(self.alloc)?;
        let extents = self.extent_reports()?;
        Ok(Report { entries, extents })
    }

    /// The key that so many others stand before in the order of the slots, with the length of its value.
    pub fn entry(&self, number: u32) -> Option<EntryReport>
        ensures { (h : History) → IsStoreOf self.now h → option_map reported result ≡ slice_get (entries_of h) number }
    {
        history_laws::shelves_are_kept();
        history_laws::histories_are_of_stores();
        self.index.report(number)
    }

    /// An extent, if there is one of this number.
    pub fn extent(&self, extent: u32) -> Option<ExtentReport>
        ensures { (h : History) → IsStoreOf self.now h → result ≡ slice_get (extent_reports (standing_of h).shelf) extent }
    {
        if extent < self.geometry.extents {
            Some(self.extent_report(extent))
        } else {
            None
        }
    }

    /// The extents, rising.
    fn extent_reports(&self) -> Result<Vec<ExtentReport, A>, OutOfMemory>
        ensures { IfOk result (λ extents. extents.items ≡ extent_reports self.now.shelf) }
    {
        let mut extents = Vec::with_capacity(self.alloc, self.geometry.extents as usize)?;
        for extent in 0..self.geometry.extents {
            extents.push(self.extent_report(extent))?;
        }
        Ok(extents)
    }

    /// One of the disk's extents, for who knows that there is one of this number.
    pub fn extent_report(&self, extent: u32) -> ExtentReport
        requires { extent < self.now.shelf.extents.geometry.extents }
        ensures { result ≡ extent_report self.now.shelf extent }
    {
        let (generation, pointer) = self.extents.pointer(extent);
        ExtentReport {
            generation,
            pointer,
            live: self.index.live_bytes(extent),
        }
    }
}

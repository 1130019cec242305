//! A device over a file.
ghost use Rattle.std.specs.Prelude.{◌≡◌, ℕ, ◌+◌, ◌*◌, ◌/◌, ◌≤◌, ◌<◌, ◌↔◌, ◌⊎◌, [], ◌∷◌, ◌++◌, length, Some, None, Err, Ok, IfOk, IfErr, OnOk, OnErr, IfSome, IfNone, IsNone, IsSome, MatchOption, IsTrue, IsFalse, IsErr, IsErrOf, true, false, slice_get, slice_set};
ghost use Rattle.std.specs.Option.{ForSome};
ghost use Rattle.patch_device.specs.Blocks.{FitsFile, AreWhole, zeros};
ghost use Rattle.patch_device.specs.Cuts.{written_behind};
ghost use Rattle.patch_device.specs.Device.{most_faults, HasRisen, CountsFault, IsOldOrNew, LandsOrNot, LeavesNoMore, LeavesJust, Elapses};

use crate::devices::Device;
use crate::memory::put;
use crate::past::{FilePast, Filled, Found, Writing};
use crate::refusals::{DeviceRefusal, FileRefusal};
use patch_model::{BLOCK, BlockBytes, MAX_BLOCKS, OutOfMemory};
use std::alloc::Global;
use std::fs;
use std::fs::{OpenFile, OpenOptions};
use std::os::unix::fs::FileExt;
use std::rt::Files;

/// A file of 1 to 4,096 whole blocks, which is read once, when it is opened. What it holds is a premise: what was found in it and
/// what was written to it before a sync that was done is there, and of what was written since, each block is old or new, whatever is
/// cut. A write that failed is taken for one that was done. To contracts, then, the device is honest; that its calls reach the file no
/// clause can say.
///
/// `read` refuses each block that there is, but where the device remembers all that the file holds: then it reads the file, and
/// refuses what isn't as it is remembered.
///
/// Without barriers its syncs are passed over, and done as one by `finish`, where something was written. The premise is weaker then: only of a crash of the
/// program, and not of a cut of the power, is it said what is there, each write as soon as it is done.
#[derive(Drop)]
pub struct FileDevice<F: FileExt + Drop> {
    file: F,
    count: u32,
    past: FilePast,
    /// All blocks as they were found and written, where reads are compared with them.
    remembered: Option<Vec<BlockBytes>>,
    /// Syncs are done, and not passed over.
    barriers: bool,
    /// A write was tried, and no sync was done behind it.
    loose: bool,
    faults: u64,
    /// A sync has failed.
    spent: bool,
    ghost fits: { FitsFile count },
    ghost counted: { length (written_behind past.first past.events) ≡ count },
    ghost whole: { AreWhole (written_behind past.first past.events) },
    ghost remembers: { ForSome remembered (λ blocks. blocks.items ≡ written_behind past.first past.events) },
    ghost faults_fit: { faults ≤ most_faults },
}

/// Where a block begins in the file.
fn place_of(n: u32) -> u64
    ensures { result ≡ n * BLOCK }
{
    u64::from(n) * BLOCK as u64
}

/// How many blocks a file of this length has, if they are whole and as many as there may be.
pub fn whole_blocks(length: u64) -> Option<u32>
    ensures whole { IfSome result (λ count. length ≡ count * BLOCK) }
    ensures count { IfSome result (λ count. count ≡ length / BLOCK) }
    ensures fits { IfSome result FitsFile }
    ensures none { IfNone result ((count : ℕ) → length ≡ count * BLOCK → FitsFile count → ⊥) }
{
    let blocks = length / BLOCK as u64;
    if length % BLOCK as u64 != 0 || blocks == 0 || blocks > MAX_BLOCKS as u64 {
        return None;
    }
    Some(blocks as u32)
}

/// Writes so many blocks of zeros and syncs them, and answers whether that went well.
fn fill_with_zeros<F: FileExt + OpenFile>(file: &F, blocks: u32) -> bool {
    let zeros = [0; BLOCK];
    for n in 0..blocks {
        if file.write_all_at(&zeros, place_of(n)).is_err() {
            return false;
        }
    }
    file.sync_all().is_ok()
}

/// One block of the file.
fn read_block<F: FileExt>(alloc: Global, file: &F, n: u32) -> Result<BlockBytes, FileRefusal> {
    let mut bytes = vec![in alloc; 0; BLOCK]?;
    if file.read_exact_at(&mut bytes, place_of(n)).is_err() {
        return Err(FileRefusal::Disk);
    }
    Ok(BlockBytes::from_vec(bytes))
}

/// The first blocks of the file, so many, in rising order.
fn read_blocks<F: FileExt>(
    alloc: Global,
    file: &F,
    count: u32,
) -> Result<Vec<BlockBytes>, FileRefusal>
    ensures count { IfOk result (λ blocks. length blocks.items ≡ count) }
    ensures whole { IfOk result (λ blocks. AreWhole blocks.items) }
{
    let mut blocks = Vec::with_capacity(alloc, count as usize)?;
    for n in 0..count {
        blocks.push(read_block(alloc, file, n)?)?;
    }
    Ok(blocks)
}

/// A copy of these blocks.
pub fn copy_blocks(alloc: Global, blocks: &[BlockBytes]) -> Result<Vec<BlockBytes>, OutOfMemory>
    ensures { IfOk result (λ copied. copied.items ≡ blocks.now) }
{
    let mut copied = Vec::with_capacity(alloc, blocks.len())?;
    for block in blocks {
        copied.push(BlockBytes::from_slice(alloc, block.as_slice())?)?;
    }
    Ok(copied)
}

/// Whether these are the same bytes.
fn are_same(read: &[u8], remembered: &[u8]) -> bool
    ensures { result ≡ true → read.now ≡ remembered.now }
{
    read == remembered
}

/// Puts these bytes in a block, where the blocks are remembered.
fn put_where_remembered(remembered: &mut Option<Vec<BlockBytes>>, n: u32, bytes: &[u8])
    requires { length bytes.now ≡ BLOCK }
    ensures { MatchOption remembered.old (IsNone remembered.new) (λ before.
        MatchOption remembered.new ⊥ (λ now. now.items ≡ slice_set before.items n bytes.now)) }
{
    if let Some(blocks) = remembered {
        put(blocks, n, bytes);
    }
}

/// A device over a file to which nothing was done.
fn begun<F: FileExt + Drop>(file: F, count: u32, past: FilePast) -> FileDevice<F>
    requires fits { FitsFile count }
    requires none { past.events ≡ [] }
    requires counted { length past.first ≡ count }
    requires whole { AreWhole past.first }
    ensures past { result.past ≡ past }
    ensures count { result.count ≡ count }
    ensures remembered { result.remembered ≡ None }
    ensures barriers { result.barriers ≡ true }
    ensures faults { result.faults ≡ 0 }
    ensures spent { result.spent ≡ false }
{
    FileDevice {
        file,
        count,
        past,
        remembered: None,
        barriers: true,
        loose: false,
        faults: 0,
        spent: false,
    }
}

impl<F: FileExt + OpenFile + Drop> FileDevice<F> {
    ghost use Rattle.patch_device.specs.FileDevice.{block_count_of, fault_count_of, first_of, events_of, contents_of, moment_of, left_at_of, has_barriers, Remembers, IsSpent};

    /// Makes a new file of so many blocks of zeros, and syncs it. `Disk` also says that there is something of this name, which is
    /// left as it was. A file that can't be filled is removed.
    pub fn create<R: Files<File = F>>(
        rt: &R,
        path: &str,
        blocks: u32,
    ) -> Result<FileDevice<F>, FileRefusal>
        ensures count { IfOk result (λ d. block_count_of d ≡ blocks) }
        ensures contents { IfOk result (λ d. contents_of d ≡ zeros blocks) }
        ensures moment { IfOk result (λ d. moment_of d ≡ 0) }
        ensures lasts { IfOk result (λ d. LeavesJust (contents_of d) (left_at_of d (moment_of d))) }
        ensures faults { IfOk result (λ d. fault_count_of d ≡ 0) }
        ensures fresh { IfOk result (λ d. IsSpent d → ⊥) }
        ensures barriers { IfOk result (λ d. IsTrue (has_barriers d)) }
        ensures size { IsErrOf result FileRefusal.FileSize
            ↔ ((blocks ≡ 0) ⊎ (MAX_BLOCKS < blocks)) }
    {
        if blocks == 0 || blocks as usize > MAX_BLOCKS {
            return Err(FileRefusal::FileSize);
        }
        let Ok(file) = OpenOptions::new()
            .read(true)
            .write(true)
            .create_new(true)
            .open(rt, path)
        else {
            return Err(FileRefusal::Disk);
        };
        if fill_with_zeros(&file, blocks) {
            let past = FilePast::of_zeros(&Filled { count: blocks });
            return Ok(begun(file, blocks, past));
        }
        let _removed = fs::remove_file(rt, path);
        Err(FileRefusal::Disk)
    }

    /// Takes a file that there is, for reading and writing, and reads it: the device, and its blocks.
    pub fn open<R: Files<File = F>>(
        rt: &R,
        alloc: Global,
        path: &str,
    ) -> Result<(FileDevice<F>, Vec<BlockBytes>), FileRefusal>
        ensures fits { IfOk result (λ opened. FitsFile (block_count_of opened.0)) }
        ensures contents { IfOk result (λ opened. contents_of opened.0 ≡ opened.1.items) }
        ensures moment { IfOk result (λ opened. moment_of opened.0 ≡ 0) }
        ensures lasts { IfOk result (λ opened. LeavesJust (contents_of opened.0) (left_at_of opened.0 (moment_of opened.0))) }
        ensures faults { IfOk result (λ opened. fault_count_of opened.0 ≡ 0) }
        ensures fresh { IfOk result (λ opened. IsSpent opened.0 → ⊥) }
        ensures barriers { IfOk result (λ opened. IsTrue (has_barriers opened.0)) }
    {
        let Ok(file) = OpenOptions::new().read(true).write(true).open(rt, path) else {
            return Err(FileRefusal::Disk);
        };
        let Ok(metadata) = file.metadata() else {
            return Err(FileRefusal::Disk);
        };
        let Some(count) = whole_blocks(metadata.len()) else {
            return Err(FileRefusal::FileSize);
        };
        // What a program that died had written may be loose still: it lasts before anything is built on it.
        if file.sync_all().is_err() {
            return Err(FileRefusal::Disk);
        }
        let found = Found {
            blocks: read_blocks(alloc, &file, count)?,
        };
        let past = FilePast::of(&found);
        let Found { blocks } = found;
        Ok((begun(file, count, past), blocks))
    }

    /// The device, whose syncs are passed over from now on.
    pub fn without_barriers(self) -> FileDevice<F>
        ensures barriers { IsFalse (has_barriers result) }
        ensures count { block_count_of result ≡ block_count_of self }
        ensures contents { contents_of result ≡ contents_of self }
        ensures moment { moment_of result ≡ moment_of self }
        ensures lasts { LeavesJust (contents_of result) (left_at_of result (moment_of result)) }
        ensures faults { fault_count_of result ≡ fault_count_of self }
        ensures spent { IsSpent result ↔ IsSpent self }
    {
        let mut device = self;
        device.barriers = false;
        device
    }

    /// The device, which remembers what the file holds, in a copy of these blocks, and so can be read.
    pub fn remembering(
        self,
        alloc: Global,
        blocks: &[BlockBytes],
    ) -> Result<FileDevice<F>, OutOfMemory>
        requires { blocks.now ≡ contents_of self }
        ensures remembers { IfOk result Remembers }
        ensures barriers { IfOk result (λ d. has_barriers d ≡ has_barriers self) }
        ensures count { IfOk result (λ d. block_count_of d ≡ block_count_of self) }
        ensures first { IfOk result (λ d. first_of d ≡ first_of self) }
        ensures events { IfOk result (λ d. events_of d ≡ events_of self) }
        ensures faults { IfOk result (λ d. fault_count_of d ≡ fault_count_of self) }
        ensures spent { IfOk result (λ d. IsSpent d ↔ IsSpent self) }
    {
        let mut device = self;
        device.remembered = Some(copy_blocks(alloc, blocks)?);
        Ok(device)
    }

    /// What is remembered of a block.
    fn remembered_of(&self, n: u32) -> Option<&[u8]>
        ensures is { IfSome result (λ bytes. slice_get (contents_of self.now) n ≡ Some bytes.now) }
        ensures remembers { IsSome result → Remembers self.now }
    {
        let blocks = self.remembered.as_ref()?;
        let block = blocks.get(n as usize)?;
        Some(block.as_slice())
    }

    /// Reads a block of the file, and answers whether that gave what is remembered of it.
    fn reads_back(&self, n: u32, into: &mut [u8]) -> bool
        requires { length into.old ≡ BLOCK }
        ensures gives { result ≡ true → slice_get (contents_of self.now) n ≡ Some into.new }
        ensures remembers { result ≡ true → Remembers self.now }
    {
        match self.remembered_of(n) {
            Some(bytes) => {
                self.file.read_exact_at(into, place_of(n)).is_ok() && are_same(into, bytes)
            }
            None => false,
        }
    }

    /// Counts a fault.
    fn fault(&mut self) -> Result<(), DeviceRefusal>
        ensures count { block_count_of self.new ≡ block_count_of self.old }
        ensures past { self.new.past ≡ self.old.past }
        ensures remembers { Remembers self.old ↔ Remembers self.new }
        ensures risen { HasRisen (fault_count_of self.old) (fault_count_of self.new) }
        ensures barriers { self.new.barriers ≡ self.old.barriers }
        ensures spent { self.new.spent ≡ self.old.spent }
        ensures fault { result ≡ Err DeviceRefusal.Fault }
    {
        self.faults = self.faults.saturating_add(1);
        Err(DeviceRefusal::Fault)
    }

    /// Takes a write for tried: of the block all is there, or may be.
    fn note_write(&mut self, n: u32, from: &[u8])
        requires { length from.now ≡ BLOCK }
        ensures count { block_count_of self.new ≡ block_count_of self.old }
        ensures first { first_of self.new ≡ first_of self.old }
        ensures events { events_of self.new ≡ events_of self.old ++ Some (n, from.now) ∷ [] }
        ensures remembers { Remembers self.old ↔ Remembers self.new }
        ensures faults { fault_count_of self.new ≡ fault_count_of self.old }
        ensures barriers { self.new.barriers ≡ self.old.barriers }
        ensures spent { self.new.spent ≡ self.old.spent }
    {
        let mut bytes = [0; BLOCK];
        bytes.copy_from_slice(from);
        self.loose = true;
        let past = self.past.same();
        put_where_remembered(&mut self.remembered, n, from);
        self.past = FilePast::behind_write(&Writing { past, n, bytes });
    }

    /// Syncs the file, if it can be synced yet, and answers whether that went well.
    fn sync_file(&mut self) -> Result<(), DeviceRefusal>
        ensures count { block_count_of self.new ≡ block_count_of self.old }
        ensures past { self.new.past ≡ self.old.past }
        ensures remembers { Remembers self.old ↔ Remembers self.new }
        ensures no_fault { OnOk result (fault_count_of self.new ≡ fault_count_of self.old) }
        ensures fault { OnErr result (HasRisen (fault_count_of self.old) (fault_count_of self.new)) }
        ensures kind { IfErr result (λ refusal. refusal ≡ DeviceRefusal.Fault) }
        ensures barriers { self.new.barriers ≡ self.old.barriers }
        ensures refuses { IsSpent self.old → IsErr result }
        ensures spends { OnErr result (IsSpent self.new) }
        ensures still_fresh { OnOk result (IsSpent self.new → ⊥) }
    {
        if self.spent || self.file.sync_data().is_err() {
            self.spent = true;
            return self.fault();
        }
        self.loose = false;
        Ok(())
    }
}

impl<F: FileExt + OpenFile + Drop> Device for FileDevice<F> {
    ghost use Rattle.patch_device.specs.FileDevice.{block_count_of, fault_count_of, first_of, events_of, contents_of, moment_of, left_at_of, has_barriers, Remembers, IsSpent, blocks_counted_law, blocks_whole_law, all_may_land_law, faults_fit_law};

    ghost contents = { contents_of };

    ghost moment = { moment_of };

    ghost left_at = { left_at_of };

    ghost is_honest = { λ _. Unit {0} };

    ghost is_spent = { IsSpent };

    ghost block_count = { block_count_of };

    ghost fault_count = { fault_count_of };

    fn count(&self) -> u32 {
        self.count
    }

    // A premise says what the file holds, and what a read gives would be one more: so it is compared with what is remembered.
    fn read(&mut self, n: u32, into: &mut [u8]) -> Result<(), DeviceRefusal>
        requires { length into.old ≡ BLOCK }
        ensures count { block_count_of self.new ≡ block_count_of self.old }
        ensures first { first_of self.new ≡ first_of self.old }
        ensures events { events_of self.new ≡ events_of self.old }
        ensures barriers { has_barriers self.new ≡ has_barriers self.old }
        ensures remembers { Remembers self.old ↔ Remembers self.new }
        ensures still_spent { IsSpent self.old ↔ IsSpent self.new }
        ensures no_such_block { IsErrOf result DeviceRefusal.NoSuchBlock
            ↔ (block_count_of self.old ≤ n) }
        ensures cause { CountsFault (fault_count_of self.old) (fault_count_of self.new) result }
        ensures refuses { IsSpent self.old → IsErr result }
        ensures unremembered { (Remembers self.old → ⊥) → IsErr result }
        ensures gives { OnOk result (slice_get (contents_of self.old) n ≡ Some into.new) }
    {
        if n >= self.count {
            return Err(DeviceRefusal::NoSuchBlock);
        }
        if self.spent || !self.reads_back(n, into) {
            return self.fault();
        }
        Ok(())
    }

    fn write(&mut self, n: u32, from: &[u8]) -> Result<(), DeviceRefusal>
        requires { length from.now ≡ BLOCK }
        ensures count { block_count_of self.new ≡ block_count_of self.old }
        ensures barriers { has_barriers self.new ≡ has_barriers self.old }
        ensures remembers { Remembers self.old ↔ Remembers self.new }
        ensures still_spent { IsSpent self.old ↔ IsSpent self.new }
        ensures no_such_block { IsErrOf result DeviceRefusal.NoSuchBlock
            ↔ (block_count_of self.old ≤ n) }
        ensures faults { fault_count_of self.old ≤ fault_count_of self.new }
        ensures cause { CountsFault (fault_count_of self.old) (fault_count_of self.new) result }
        ensures refuses { IsSpent self.old → IsErr result }
        ensures first { first_of self.new ≡ first_of self.old }
        ensures tried { n < block_count_of self.old → (IsSpent self.old → ⊥)
            → events_of self.new ≡ events_of self.old ++ Some (n, from.now) ∷ [] }
        ensures untried { IsSpent self.old → events_of self.new ≡ events_of self.old }
        ensures absent { block_count_of self.old ≤ n → events_of self.new ≡ events_of self.old }
        ensures written { OnOk result (contents_of self.new ≡ slice_set (contents_of self.old) n from.now) }
        ensures refused { OnErr result (IsOldOrNew (contents_of self.old) n from.now (contents_of self.new)) }
        ensures time { Elapses (moment_of self.old) (moment_of self.new) (left_at_of self.old) (left_at_of self.new) }
        ensures one_moment { moment_of self.new ≤ moment_of self.old + 1 }
        ensures left { LandsOrNot (left_at_of self.old (moment_of self.old)) n from.now (left_at_of self.new (moment_of self.new)) }
    {
        if n >= self.count {
            return Err(DeviceRefusal::NoSuchBlock);
        }
        if self.spent {
            return self.fault();
        }
        let done = self.file.write_all_at(from, place_of(n)).is_ok();
        self.note_write(n, from);
        if !done {
            return self.fault();
        }
        Ok(())
    }

    fn sync(&mut self) -> Result<(), DeviceRefusal>
        ensures count { block_count_of self.new ≡ block_count_of self.old }
        ensures barriers { has_barriers self.new ≡ has_barriers self.old }
        ensures remembers { Remembers self.old ↔ Remembers self.new }
        ensures no_fault { OnOk result (fault_count_of self.new ≡ fault_count_of self.old) }
        ensures fault { OnErr result (HasRisen (fault_count_of self.old) (fault_count_of self.new)) }
        ensures kind { IfErr result (λ refusal. refusal ≡ DeviceRefusal.Fault) }
        ensures still_spent { IsSpent self.old → IsSpent self.new }
        ensures refuses { IsSpent self.old → IsErr result }
        ensures spends { OnErr result (IsSpent self.new) }
        ensures same { contents_of self.new ≡ contents_of self.old }
        ensures time { Elapses (moment_of self.old) (moment_of self.new) (left_at_of self.old) (left_at_of self.new) }
        ensures one_moment { moment_of self.new ≤ moment_of self.old + 1 }
        ensures no_more { LeavesNoMore (left_at_of self.old (moment_of self.old)) (left_at_of self.new (moment_of self.new)) }
        ensures lasts { OnOk result (LeavesJust (contents_of self.new) (left_at_of self.new (moment_of self.new))) }
        ensures first { first_of self.new ≡ first_of self.old }
        ensures synced { IsTrue (has_barriers self.old) → OnOk result (events_of self.new ≡ events_of self.old ++ None ∷ []) }
        ensures passed_over { IsFalse (has_barriers self.old) → events_of self.new ≡ events_of self.old }
        ensures failed { OnErr result (events_of self.new ≡ events_of self.old) }
    {
        if !self.barriers {
            if self.spent {
                return self.fault();
            }
            return Ok(());
        }
        self.sync_file()?;
        self.past = self.past.behind_sync();
        Ok(())
    }

    fn finish(&mut self) -> Result<(), DeviceRefusal>
        ensures count { block_count_of self.new ≡ block_count_of self.old }
        ensures first { first_of self.new ≡ first_of self.old }
        ensures events { events_of self.new ≡ events_of self.old }
        ensures barriers { has_barriers self.new ≡ has_barriers self.old }
        ensures remembers { Remembers self.old ↔ Remembers self.new }
        ensures no_fault { OnOk result (fault_count_of self.new ≡ fault_count_of self.old) }
        ensures fault { OnErr result (HasRisen (fault_count_of self.old) (fault_count_of self.new)) }
        ensures kind { IfErr result (λ refusal. refusal ≡ DeviceRefusal.Fault) }
        ensures still_spent { IsSpent self.old → IsSpent self.new }
        ensures spends { OnErr result (IsSpent self.new) }
        ensures nothing_left { IsTrue (has_barriers self.old) → result ≡ Ok tt }
    {
        let is_done = !self.loose && !self.spent;
        if self.barriers || is_done {
            return Ok(());
        }
        self.sync_file()
    }

    ghost blocks_counted = { blocks_counted_law };

    ghost blocks_whole = { blocks_whole_law };

    ghost all_may_land = { all_may_land_law };

    ghost faults_fit = { faults_fit_law };
}

//! What a device is.
ghost use Rattle.std.specs.Prelude.{◌≡◌, ℕ, ◌+◌, ◌<◌, ◌≤◌, ◌↔◌, List, Some, length, slice_get, slice_set, OnOk, OnErr, IfErr, IsErr, IsErrOf};
ghost use Rattle.patch_device.specs.Blocks.{AreWhole};
ghost use Rattle.patch_device.specs.Device.{most_faults, HasRisen, CountsFault, IsOldOrNew, LandsOrNot, Elapses, LeavesNoMore, LeavesJust};

use crate::refusals::DeviceRefusal;
use patch_model::BLOCK;

/// A disk of blocks of [`BLOCK`] bytes each, numbered from 0.
///
/// What was written may stand in a write cache alone until the next sync: where the power is cut before that, each of these writes
/// may have landed or not, by itself. An honest device is one that keeps what is written to it so. What its calls do to the
/// contents, and what a cut leaves of them, is said of an honest device alone. On any device, honest or not, the blocks stay as
/// many as they were, each fault is counted, and what a cut at an earlier moment would have left stays as it is. A device whose
/// sync was refused is spent: each later read, write and sync of it is refused.
pub trait Device {
    // What was written to the blocks, which a read gives, if the device is honest.
    ghost contents: { Self → List (List ℕ) };

    // How many moments there were before this one: a call begins one at most.
    ghost moment: { Self → ℕ };

    // What a cut of the power at a moment may leave, for each moment up to this one.
    ghost left_at: { Self → ℕ → List (List ℕ) → Type 0 };

    // A read gives the contents, a write changes its own block alone, and a sync lets all of them last.
    ghost is_honest: { Self → Type 0 };

    // A sync was refused.
    ghost is_spent: { Self → Type 0 };

    // How many blocks there are.
    ghost block_count: { Self → ℕ };

    // How many faults there were.
    ghost fault_count: { Self → ℕ };

    /// How many blocks there are.
    fn count(&self) -> u32
        ensures { result ≡ block_count self.now };

    /// Copies block `n` into `into`. A read that is refused may have put some bytes there.
    fn read(&mut self, n: u32, into: &mut [u8]) -> Result<(), DeviceRefusal>
        requires { length into.old ≡ BLOCK }
        ensures honesty { is_honest self.old ↔ is_honest self.new }
        ensures count { block_count self.new ≡ block_count self.old }
        ensures no_such_block { IsErrOf result DeviceRefusal.NoSuchBlock
            ↔ (block_count self.old ≤ n) }
        ensures faults { fault_count self.old ≤ fault_count self.new }
        ensures cause { CountsFault (fault_count self.old) (fault_count self.new) result }
        ensures spent { is_spent self.old → is_spent self.new }
        ensures refuses { is_spent self.old → IsErr result }
        ensures time { Elapses (moment self.old) (moment self.new) (left_at self.old) (left_at self.new) }
        ensures no_moment { moment self.new ≡ moment self.old }
        ensures gives { is_honest self.old
            → OnOk result (slice_get (contents self.old) n ≡ Some into.new) }
        ensures same { is_honest self.old → contents self.new ≡ contents self.old };

    /// Puts `from` in block `n`. After a refused write an honest device holds there what it held, or all of `from`. Until the
    /// next sync a cut leaves of the block what it would have left before, or all of `from`.
    fn write(&mut self, n: u32, from: &[u8]) -> Result<(), DeviceRefusal>
        requires { length from.now ≡ BLOCK }
        ensures honesty { is_honest self.old ↔ is_honest self.new }
        ensures count { block_count self.new ≡ block_count self.old }
        ensures no_such_block { IsErrOf result DeviceRefusal.NoSuchBlock
            ↔ (block_count self.old ≤ n) }
        ensures faults { fault_count self.old ≤ fault_count self.new }
        ensures cause { CountsFault (fault_count self.old) (fault_count self.new) result }
        ensures spent { is_spent self.old → is_spent self.new }
        ensures refuses { is_spent self.old → IsErr result }
        ensures time { Elapses (moment self.old) (moment self.new) (left_at self.old) (left_at self.new) }
        ensures one_moment { moment self.new ≤ moment self.old + 1 }
        ensures no_moment { block_count self.old ≤ n → moment self.new ≡ moment self.old }
        ensures written { is_honest self.old
            → OnOk result (contents self.new ≡ slice_set (contents self.old) n from.now) }
        ensures refused { is_honest self.old
            → OnErr result (IsOldOrNew (contents self.old) n from.now (contents self.new)) }
        ensures left { is_honest self.old
            → LandsOrNot (left_at self.old (moment self.old)) n from.now (left_at self.new (moment self.new)) };

    /// Lets what was written last from now on, over a cut of the power too. Where it is refused, nothing new is promised, and the
    /// device is spent: what a system lost at a sync that failed, a later one may pass over in silence.
    fn sync(&mut self) -> Result<(), DeviceRefusal>
        ensures honesty { is_honest self.old ↔ is_honest self.new }
        ensures count { block_count self.new ≡ block_count self.old }
        ensures no_fault { OnOk result (fault_count self.new ≡ fault_count self.old) }
        ensures fault { OnErr result (HasRisen (fault_count self.old) (fault_count self.new)) }
        ensures kind { IfErr result (λ refusal. refusal ≡ DeviceRefusal.Fault) }
        ensures spent { is_spent self.old → is_spent self.new }
        ensures refuses { is_spent self.old → IsErr result }
        ensures spends { OnErr result (is_spent self.new) }
        ensures time { Elapses (moment self.old) (moment self.new) (left_at self.old) (left_at self.new) }
        ensures one_moment { moment self.new ≤ moment self.old + 1 }
        ensures same { is_honest self.old → contents self.new ≡ contents self.old }
        ensures no_more { is_honest self.old
            → LeavesNoMore (left_at self.old (moment self.old)) (left_at self.new (moment self.new)) }
        ensures lasts { is_honest self.old
            → OnOk result (LeavesJust (contents self.new) (left_at self.new (moment self.new))) };

    /// What is left to be done behind the last sync: a device that was told to pass its syncs over lets all that was written last
    /// now. Of any other device nothing is left to be done.
    fn finish(&mut self) -> Result<(), DeviceRefusal>
        ensures honesty { is_honest self.old ↔ is_honest self.new }
        ensures count { block_count self.new ≡ block_count self.old }
        ensures no_fault { OnOk result (fault_count self.new ≡ fault_count self.old) }
        ensures fault { OnErr result (HasRisen (fault_count self.old) (fault_count self.new)) }
        ensures kind { IfErr result (λ refusal. refusal ≡ DeviceRefusal.Fault) }
        ensures spent { is_spent self.old → is_spent self.new }
        ensures spends { OnErr result (is_spent self.new) }
        ensures time { Elapses (moment self.old) (moment self.new) (left_at self.old) (left_at self.new) }
        ensures no_moment { moment self.new ≡ moment self.old }
        ensures same { is_honest self.old → contents self.new ≡ contents self.old };

    ghost blocks_counted: { (d : Self) → is_honest d → length (contents d) ≡ block_count d };

    ghost blocks_whole: { (d : Self) → is_honest d → AreWhole (contents d) };

    // All that was written may have landed.
    ghost all_may_land: { (d : Self) → is_honest d → left_at d (moment d) (contents d) };

    ghost faults_fit: { (d : Self) → fault_count d ≤ most_faults };
}

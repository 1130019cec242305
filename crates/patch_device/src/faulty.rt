//! A device that fails one call.
ghost use Rattle.std.specs.Prelude.{◌≡◌, ◌≢◌, ℕ, List, ◌+◌, ◌≤◌, ◌<◌, ◌↔◌, length, slice_get, slice_set, Some, IsTrue, IsFalse, OnOk, OnErr, IfErr, IsErr, IsErrOf};
ghost use Rattle.patch_device.specs.Device.{HasRisen, CountsFault, IsOldOrNew, LandsOrNot, LeavesNoMore};
ghost use Rattle.patch_device.specs.SameDevice.{IsSameDevice, IsLasting, may_leave};

use crate::devices::Device;
use crate::refusals::DeviceRefusal;
use patch_model::BLOCK;

/// Hands its calls to another device, but for one, which it fails. Reads and writes of blocks that there are count as
/// calls, the first of them as number 0. Its faults are its own and those of the other device.
#[derive(Drop)]
pub struct FaultyDevice<D: Device> {
    inner: D,
    calls_left: Option<u64>,
    lands: bool,
}

impl<D: Device> FaultyDevice<D> {
    ghost use Rattle.patch_device.specs.FaultyDevice.{inner_of, calls_before, does_land, after_a_call};

    /// The device `inner`, with call number `k` failing. If that is a write, it lands first where `lands` says so.
    pub fn new(inner: D, k: u64, lands: bool) -> FaultyDevice<D>
        ensures inner { inner_of result ≡ inner }
        ensures calls { calls_before result ≡ Some k }
        ensures lands { does_land result ≡ lands }
        ensures honesty { ⟦<FaultyDevice<D> as Device>⟧.is_honest result ↔ D.is_honest inner }
        ensures contents { ⟦<FaultyDevice<D> as Device>⟧.contents result ≡ D.contents inner }
        ensures moment { ⟦<FaultyDevice<D> as Device>⟧.moment result ≡ D.moment inner }
        ensures left { (t : ℕ) (disk : List (List ℕ))
            → ⟦<FaultyDevice<D> as Device>⟧.left_at result t disk ↔ D.left_at inner t disk }
        ensures count { ⟦<FaultyDevice<D> as Device>⟧.block_count result ≡ D.block_count inner }
        ensures faults { ⟦<FaultyDevice<D> as Device>⟧.fault_count result ≡ D.fault_count inner }
    {
        FaultyDevice {
            inner,
            calls_left: Some(k),
            lands,
        }
    }

    /// Counts a call, and answers whether it is the one that fails.
    fn is_failing(&mut self) -> bool
        ensures inner { self.new.inner ≡ self.old.inner }
        ensures lands { self.new.lands ≡ self.old.lands }
        ensures calls { self.new.calls_left ≡ after_a_call self.old.calls_left }
        ensures fails { IsTrue result ↔ (self.old.calls_left ≡ Some 0) }
    {
        let Some(calls_left) = self.calls_left else {
            return false;
        };
        self.calls_left = calls_left.checked_sub(1);
        calls_left == 0
    }
}

impl<D: Device> Device for FaultyDevice<D> {
    ghost use Rattle.patch_device.specs.FaultyDevice.{inner_of, calls_before, does_land, after_a_call, IsFailing, HasLanded, faults_of_both, faults_of_both_fit};

    ghost contents = { λ d. D.contents (inner_of d) };

    ghost moment = { λ d. D.moment (inner_of d) };

    ghost left_at = { λ d. D.left_at (inner_of d) };

    ghost is_honest = { λ d. D.is_honest (inner_of d) };

    ghost is_spent = { λ d. D.is_spent (inner_of d) };

    ghost block_count = { λ d. D.block_count (inner_of d) };

    ghost fault_count = { λ d. faults_of_both (calls_before d) (D.fault_count (inner_of d)) };

    fn count(&self) -> u32 {
        self.inner.count()
    }

    fn read(&mut self, n: u32, into: &mut [u8]) -> Result<(), DeviceRefusal>
        requires { length into.old ≡ BLOCK }
        ensures device { IsSameDevice D.Device (inner_of self.old) (inner_of self.new) }
        ensures no_such_block { IsErrOf result DeviceRefusal.NoSuchBlock
            ↔ (D.block_count (inner_of self.old) ≤ n) }
        ensures gives { D.is_honest (inner_of self.old)
            → OnOk result (slice_get (D.contents (inner_of self.old)) n ≡ Some into.new) }
        ensures same { D.is_honest (inner_of self.old)
            → D.contents (inner_of self.new) ≡ D.contents (inner_of self.old) }
        ensures no_moment { D.moment (inner_of self.new) ≡ D.moment (inner_of self.old) }
        ensures refuses { D.is_spent (inner_of self.old) → IsErr result }
        ensures lands { does_land self.new ≡ does_land self.old }
        ensures not_counted { D.block_count (inner_of self.old) ≤ n → self.new ≡ self.old }
        ensures counted { n < D.block_count (inner_of self.old)
            → calls_before self.new ≡ after_a_call (calls_before self.old) }
        ensures fails { IsFailing D.Device self.old n
            → IsErrOf result DeviceRefusal.Fault × (inner_of self.new ≡ inner_of self.old) }
        ensures passes { calls_before self.old ≢ Some 0
            → CountsFault (D.fault_count (inner_of self.old))
            (D.fault_count (inner_of self.new)) result }
    {
        if n >= self.inner.count() {
            return Err(DeviceRefusal::NoSuchBlock);
        }
        if self.is_failing() {
            return Err(DeviceRefusal::Fault);
        }
        self.inner.read(n, into)
    }

    fn write(&mut self, n: u32, from: &[u8]) -> Result<(), DeviceRefusal>
        requires { length from.now ≡ BLOCK }
        ensures device { IsSameDevice D.Device (inner_of self.old) (inner_of self.new) }
        ensures no_such_block { IsErrOf result DeviceRefusal.NoSuchBlock
            ↔ (D.block_count (inner_of self.old) ≤ n) }
        ensures written { D.is_honest (inner_of self.old)
            → OnOk result (D.contents (inner_of self.new)
            ≡ slice_set (D.contents (inner_of self.old)) n from.now) }
        ensures refused { D.is_honest (inner_of self.old)
            → OnErr result (IsOldOrNew (D.contents (inner_of self.old)) n from.now
            (D.contents (inner_of self.new))) }
        ensures left { D.is_honest (inner_of self.old)
            → LandsOrNot (may_leave D.Device (inner_of self.old)) n from.now (may_leave D.Device (inner_of self.new)) }
        ensures one_moment { D.moment (inner_of self.new) ≤ D.moment (inner_of self.old) + 1 }
        ensures no_moment { D.block_count (inner_of self.old) ≤ n
            → D.moment (inner_of self.new) ≡ D.moment (inner_of self.old) }
        ensures refuses { D.is_spent (inner_of self.old) → IsErr result }
        ensures lands { does_land self.new ≡ does_land self.old }
        ensures not_counted { D.block_count (inner_of self.old) ≤ n → self.new ≡ self.old }
        ensures counted { n < D.block_count (inner_of self.old)
            → calls_before self.new ≡ after_a_call (calls_before self.old) }
        ensures fails { IsFailing D.Device self.old n → IsErrOf result DeviceRefusal.Fault }
        ensures not_landed { IsFailing D.Device self.old n → IsFalse (does_land self.old)
            → inner_of self.new ≡ inner_of self.old }
        ensures landed { IsFailing D.Device self.old n → IsTrue (does_land self.old)
            → HasLanded D.Device (inner_of self.old) n from.now (inner_of self.new) }
        ensures passes { calls_before self.old ≢ Some 0
            → CountsFault (D.fault_count (inner_of self.old))
            (D.fault_count (inner_of self.new)) result }
    {
        if n >= self.inner.count() {
            return Err(DeviceRefusal::NoSuchBlock);
        }
        if self.is_failing() {
            if self.lands {
                self.inner.write(n, from)?;
            }
            return Err(DeviceRefusal::Fault);
        }
        self.inner.write(n, from)
    }

    // A sync is no call that counts.
    fn sync(&mut self) -> Result<(), DeviceRefusal>
        ensures device { IsSameDevice D.Device (inner_of self.old) (inner_of self.new) }
        ensures lands { does_land self.new ≡ does_land self.old }
        ensures calls { calls_before self.new ≡ calls_before self.old }
        ensures no_fault { OnOk result (D.fault_count (inner_of self.new) ≡ D.fault_count (inner_of self.old)) }
        ensures fault { OnErr result (HasRisen (D.fault_count (inner_of self.old)) (D.fault_count (inner_of self.new))) }
        ensures kind { IfErr result (λ refusal. refusal ≡ DeviceRefusal.Fault) }
        ensures refuses { D.is_spent (inner_of self.old) → IsErr result }
        ensures spends { OnErr result (D.is_spent (inner_of self.new)) }
        ensures one_moment { D.moment (inner_of self.new) ≤ D.moment (inner_of self.old) + 1 }
        ensures same { D.is_honest (inner_of self.old)
            → D.contents (inner_of self.new) ≡ D.contents (inner_of self.old) }
        ensures no_more { D.is_honest (inner_of self.old)
            → LeavesNoMore (may_leave D.Device (inner_of self.old)) (may_leave D.Device (inner_of self.new)) }
        ensures lasts { D.is_honest (inner_of self.old) → OnOk result (IsLasting D.Device (inner_of self.new)) }
    {
        self.inner.sync()
    }

    fn finish(&mut self) -> Result<(), DeviceRefusal>
        ensures device { IsSameDevice D.Device (inner_of self.old) (inner_of self.new) }
        ensures lands { does_land self.new ≡ does_land self.old }
        ensures calls { calls_before self.new ≡ calls_before self.old }
        ensures no_fault { OnOk result (D.fault_count (inner_of self.new) ≡ D.fault_count (inner_of self.old)) }
        ensures fault { OnErr result (HasRisen (D.fault_count (inner_of self.old)) (D.fault_count (inner_of self.new))) }
        ensures kind { IfErr result (λ refusal. refusal ≡ DeviceRefusal.Fault) }
        ensures spends { OnErr result (D.is_spent (inner_of self.new)) }
        ensures no_moment { D.moment (inner_of self.new) ≡ D.moment (inner_of self.old) }
        ensures same { D.is_honest (inner_of self.old)
            → D.contents (inner_of self.new) ≡ D.contents (inner_of self.old) }
    {
        self.inner.finish()
    }

    ghost blocks_counted = { λ d h. D.blocks_counted (inner_of d) h };

    ghost blocks_whole = { λ d h. D.blocks_whole (inner_of d) h };

    ghost all_may_land = { λ d h. D.all_may_land (inner_of d) h };

    ghost faults_fit = { λ d. faults_of_both_fit (calls_before d) (D.fault_count (inner_of d)) };
}

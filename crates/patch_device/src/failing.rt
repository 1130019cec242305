//! A device whose syncs fail, from one on.
ghost use Rattle.std.specs.Prelude.{◌≡◌, ◌≢◌, ℕ, List, ◌+◌, ◌≤◌, ◌<◌, ◌↔◌, length, slice_get, slice_set, Some, None, Err, OnOk, OnErr, IfErr, IsErr, IsErrOf, min};
ghost use Rattle.patch_device.specs.Device.{most_faults, HasRisen, CountsFault, IsOldOrNew, LandsOrNot, LeavesNoMore};
ghost use Rattle.patch_device.specs.SameDevice.{IsSameDevice, IsLasting, may_leave};

use crate::devices::Device;
use crate::refusals::DeviceRefusal;
use patch_model::BLOCK;

/// Hands its calls to another device until one of its syncs, which it refuses. From then on it refuses every read, write and sync
/// itself, though the other device would do them, as a disk that is gone. Its faults are its own and those of the other device.
#[derive(Drop)]
pub struct UnsyncedDevice<D: Device> {
    inner: D,
    /// How many syncs are still to come before the one that fails; none once it has.
    syncs_left: Option<u64>,
    /// How many calls it has refused itself.
    refused: u64,
}

impl<D: Device> UnsyncedDevice<D> {
    ghost use Rattle.patch_device.specs.UnsyncedDevice.{inner_of, syncs_before, refused_by, IsSpent};

    /// The device `inner`, with sync number `k` failing, from 0.
    pub fn new(inner: D, k: u64) -> UnsyncedDevice<D>
        ensures inner { inner_of result ≡ inner }
        ensures syncs { syncs_before result ≡ Some k }
        ensures refused { refused_by result ≡ 0 }
        ensures honesty { ⟦<UnsyncedDevice<D> as Device>⟧.is_honest result ↔ D.is_honest inner }
        ensures spent { ⟦<UnsyncedDevice<D> as Device>⟧.is_spent result ↔ D.is_spent inner }
        ensures contents { ⟦<UnsyncedDevice<D> as Device>⟧.contents result ≡ D.contents inner }
        ensures moment { ⟦<UnsyncedDevice<D> as Device>⟧.moment result ≡ D.moment inner }
        ensures left { (t : ℕ) (disk : List (List ℕ))
            → ⟦<UnsyncedDevice<D> as Device>⟧.left_at result t disk ↔ D.left_at inner t disk }
        ensures count { ⟦<UnsyncedDevice<D> as Device>⟧.block_count result ≡ D.block_count inner }
        ensures faults { ⟦<UnsyncedDevice<D> as Device>⟧.fault_count result ≡ D.fault_count inner }
    {
        UnsyncedDevice {
            inner,
            syncs_left: Some(k),
            refused: 0,
        }
    }

    /// The device that it calls.
    pub fn into_inner(self) -> D
        ensures { result ≡ inner_of self }
    {
        let UnsyncedDevice { inner, .. } = self;
        inner
    }

    /// Refuses a call, and counts it.
    fn refuse(&mut self) -> Result<(), DeviceRefusal>
        ensures inner { inner_of self.new ≡ inner_of self.old }
        ensures syncs { syncs_before self.new ≡ syncs_before self.old }
        ensures counted { refused_by self.new ≡ min (refused_by self.old + 1) most_faults }
        ensures fault { result ≡ Err DeviceRefusal.Fault }
    {
        self.refused = self.refused.saturating_add(1);
        Err(DeviceRefusal::Fault)
    }
}

impl<D: Device> Device for UnsyncedDevice<D> {
    ghost use Rattle.patch_device.specs.UnsyncedDevice.{inner_of, syncs_before, refused_by, IsSpent, fault_count_of};
    ghost use Rattle.patch_device.specs.FaultyDevice.{after_a_call};
    ghost use Rattle.patch_device.specs.Faults.{faults_together_fit};

    ghost contents = { λ d. D.contents (inner_of d) };

    ghost moment = { λ d. D.moment (inner_of d) };

    ghost left_at = { λ d. D.left_at (inner_of d) };

    ghost is_honest = { λ d. D.is_honest (inner_of d) };

    ghost is_spent = { IsSpent D.Device };

    ghost block_count = { λ d. D.block_count (inner_of d) };

    ghost fault_count = { fault_count_of D.Device };

    fn count(&self) -> u32 {
        self.inner.count()
    }

    fn read(&mut self, n: u32, into: &mut [u8]) -> Result<(), DeviceRefusal>
        requires { length into.old ≡ BLOCK }
        ensures device { IsSameDevice D.Device (inner_of self.old) (inner_of self.new) }
        ensures syncs { syncs_before self.new ≡ syncs_before self.old }
        ensures no_such_block { IsErrOf result DeviceRefusal.NoSuchBlock
            ↔ (D.block_count (inner_of self.old) ≤ n) }
        ensures refuses { IsSpent D.Device self.old → IsErr result }
        ensures faults { fault_count_of D.Device self.old ≤ fault_count_of D.Device self.new }
        ensures cause { CountsFault (fault_count_of D.Device self.old) (fault_count_of D.Device self.new) result }
        ensures gives { D.is_honest (inner_of self.old)
            → OnOk result (slice_get (D.contents (inner_of self.old)) n ≡ Some into.new) }
        ensures same { D.is_honest (inner_of self.old)
            → D.contents (inner_of self.new) ≡ D.contents (inner_of self.old) }
        ensures no_moment { D.moment (inner_of self.new) ≡ D.moment (inner_of self.old) }
        ensures alone { syncs_before self.old ≡ None → inner_of self.new ≡ inner_of self.old }
        ensures passes { syncs_before self.old ≢ None
            → CountsFault (D.fault_count (inner_of self.old)) (D.fault_count (inner_of self.new)) result }
    {
        if n >= self.inner.count() {
            return Err(DeviceRefusal::NoSuchBlock);
        }
        if self.syncs_left.is_none() {
            return self.refuse();
        }
        self.inner.read(n, into)
    }

    fn write(&mut self, n: u32, from: &[u8]) -> Result<(), DeviceRefusal>
        requires { length from.now ≡ BLOCK }
        ensures device { IsSameDevice D.Device (inner_of self.old) (inner_of self.new) }
        ensures syncs { syncs_before self.new ≡ syncs_before self.old }
        ensures no_such_block { IsErrOf result DeviceRefusal.NoSuchBlock
            ↔ (D.block_count (inner_of self.old) ≤ n) }
        ensures refuses { IsSpent D.Device self.old → IsErr result }
        ensures faults { fault_count_of D.Device self.old ≤ fault_count_of D.Device self.new }
        ensures cause { CountsFault (fault_count_of D.Device self.old) (fault_count_of D.Device self.new) result }
        ensures written { D.is_honest (inner_of self.old)
            → OnOk result (D.contents (inner_of self.new)
            ≡ slice_set (D.contents (inner_of self.old)) n from.now) }
        ensures refused { D.is_honest (inner_of self.old)
            → OnErr result (IsOldOrNew (D.contents (inner_of self.old)) n from.now
            (D.contents (inner_of self.new))) }
        ensures left { D.is_honest (inner_of self.old)
            → LandsOrNot (may_leave D.Device (inner_of self.old)) n from.now (may_leave D.Device (inner_of self.new)) }
        ensures one_moment { D.moment (inner_of self.new) ≤ D.moment (inner_of self.old) + 1 }
        ensures no_moment { D.block_count (inner_of self.old) ≤ n
            → D.moment (inner_of self.new) ≡ D.moment (inner_of self.old) }
        ensures alone { syncs_before self.old ≡ None → inner_of self.new ≡ inner_of self.old }
        ensures passes { syncs_before self.old ≢ None
            → CountsFault (D.fault_count (inner_of self.old)) (D.fault_count (inner_of self.new)) result }
    {
        if n >= self.inner.count() {
            return Err(DeviceRefusal::NoSuchBlock);
        }
        if self.syncs_left.is_none() {
            return self.refuse();
        }
        self.inner.write(n, from)
    }

    fn sync(&mut self) -> Result<(), DeviceRefusal>
        ensures device { IsSameDevice D.Device (inner_of self.old) (inner_of self.new) }
        ensures syncs { syncs_before self.new ≡ after_a_call (syncs_before self.old) }
        ensures fails { syncs_before self.old ≡ Some 0 → IsErr result × (inner_of self.new ≡ inner_of self.old) }
        ensures alone { syncs_before self.old ≡ None → inner_of self.new ≡ inner_of self.old }
        ensures passes { (k : ℕ) → syncs_before self.old ≡ Some (k + 1)
            → OnErr result (HasRisen (D.fault_count (inner_of self.old)) (D.fault_count (inner_of self.new))) }
        ensures no_fault { OnOk result (fault_count_of D.Device self.new ≡ fault_count_of D.Device self.old) }
        ensures fault { OnErr result (HasRisen (fault_count_of D.Device self.old) (fault_count_of D.Device self.new)) }
        ensures kind { IfErr result (λ refusal. refusal ≡ DeviceRefusal.Fault) }
        ensures refuses { IsSpent D.Device self.old → IsErr result }
        ensures spends { OnErr result (IsSpent D.Device self.new) }
        ensures one_moment { D.moment (inner_of self.new) ≤ D.moment (inner_of self.old) + 1 }
        ensures same { D.is_honest (inner_of self.old)
            → D.contents (inner_of self.new) ≡ D.contents (inner_of self.old) }
        ensures no_more { D.is_honest (inner_of self.old)
            → LeavesNoMore (may_leave D.Device (inner_of self.old)) (may_leave D.Device (inner_of self.new)) }
        ensures lasts { D.is_honest (inner_of self.old) → OnOk result (IsLasting D.Device (inner_of self.new)) }
    {
        let Some(syncs_left) = self.syncs_left else {
            return self.refuse();
        };
        self.syncs_left = syncs_left.checked_sub(1);
        if syncs_left == 0 {
            return self.refuse();
        }
        self.inner.sync()
    }

    fn finish(&mut self) -> Result<(), DeviceRefusal>
        ensures device { IsSameDevice D.Device (inner_of self.old) (inner_of self.new) }
        ensures syncs { syncs_before self.new ≡ syncs_before self.old }
        ensures alone { syncs_before self.old ≡ None → IsErr result × (inner_of self.new ≡ inner_of self.old) }
        ensures passes { syncs_before self.old ≢ None
            → OnErr result (HasRisen (D.fault_count (inner_of self.old)) (D.fault_count (inner_of self.new))) }
        ensures no_fault { OnOk result (fault_count_of D.Device self.new ≡ fault_count_of D.Device self.old) }
        ensures fault { OnErr result (HasRisen (fault_count_of D.Device self.old) (fault_count_of D.Device self.new)) }
        ensures kind { IfErr result (λ refusal. refusal ≡ DeviceRefusal.Fault) }
        ensures spends { OnErr result (IsSpent D.Device self.new) }
        ensures no_moment { D.moment (inner_of self.new) ≡ D.moment (inner_of self.old) }
        ensures same { D.is_honest (inner_of self.old)
            → D.contents (inner_of self.new) ≡ D.contents (inner_of self.old) }
    {
        if self.syncs_left.is_none() {
            return self.refuse();
        }
        self.inner.finish()
    }

    ghost blocks_counted = { λ d h. D.blocks_counted (inner_of d) h };

    ghost blocks_whole = { λ d h. D.blocks_whole (inner_of d) h };

    ghost all_may_land = { λ d h. D.all_may_land (inner_of d) h };

    ghost faults_fit = { λ d. faults_together_fit (refused_by d) (D.fault_count (inner_of d)) };
}

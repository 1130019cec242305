//! A device that refuses some of its writes again and again.
ghost use Rattle.std.specs.Prelude.{◌≡◌, ◌≤◌};
ghost use Rattle.patch_device.specs.Device.{most_faults};

use patch_device::{Device, DeviceRefusal, MemDevice};

/// A device in memory that refuses some writes so many times each, and does them then. Writes of blocks that there are count, from
/// number 0 on, once they are done. It isn't honest, so nothing is said of what it holds: it holds what was written.
#[derive(Drop)]
pub struct StubbornDevice {
    inner: MemDevice,
    first: u64,
    end: u64,
    times: u64,
    done: u64,
    tries: u64,
    faults: u64,
    ghost faults_fit: { faults ≤ most_faults },
}

impl StubbornDevice {
    /// The device `inner`, with the writes from number `first` up to number `end`, which is done at once, refused so many times each.
    pub fn new(inner: MemDevice, first: u64, end: u64, times: u64) -> StubbornDevice {
        StubbornDevice {
            inner,
            first,
            end,
            times,
            done: 0,
            tries: 0,
            faults: 0,
        }
    }

    /// Counts a try of a write, and answers whether it is refused.
    fn refuses(&mut self) -> bool
        ensures inner { self.new.inner ≡ self.old.inner }
        ensures faults { self.new.faults ≡ self.old.faults }
    {
        self.tries = self.tries.saturating_add(1);
        self.first <= self.done && self.done < self.end && self.tries <= self.times
    }
}

impl Device for StubbornDevice {
    ghost use Rattle.std.specs.Prelude.{[]};
    ghost use Rattle.patch_device.specs.MemDevice.{block_count_of};

    ghost contents = { λ _. [] };

    ghost moment = { λ _. 0 };

    ghost left_at = { λ _ _ _. ⊥ };

    ghost is_honest = { λ _. ⊥ };

    ghost is_spent = { λ _. ⊥ };

    ghost block_count = { λ d. block_count_of d.inner };

    ghost fault_count = { λ d. d.faults };

    fn count(&self) -> u32 {
        self.inner.count()
    }

    fn read(&mut self, n: u32, into: &mut [u8]) -> Result<(), DeviceRefusal> {
        if n >= self.inner.count() {
            return Err(DeviceRefusal::NoSuchBlock);
        }
        if self.inner.read(n, into).is_err() {
            self.faults = self.faults.saturating_add(1);
            return Err(DeviceRefusal::Fault);
        }
        Ok(())
    }

    fn write(&mut self, n: u32, from: &[u8]) -> Result<(), DeviceRefusal> {
        if n >= self.inner.count() {
            return Err(DeviceRefusal::NoSuchBlock);
        }
        if self.refuses() || self.inner.write(n, from).is_err() {
            self.faults = self.faults.saturating_add(1);
            return Err(DeviceRefusal::Fault);
        }
        self.done = self.done.saturating_add(1);
        self.tries = 0;
        Ok(())
    }

    fn sync(&mut self) -> Result<(), DeviceRefusal> {
        self.inner.sync()
    }

    fn finish(&mut self) -> Result<(), DeviceRefusal> {
        self.inner.finish()
    }

    ghost blocks_counted = { λ d h. absurd h };

    ghost blocks_whole = { λ d h. absurd h };

    ghost all_may_land = { λ d h. absurd h };

    ghost faults_fit = { λ d. d.faults_fit };
}

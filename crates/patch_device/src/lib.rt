//! Disks of blocks: what a device promises, and devices in memory, with a write cache, with a failing call or sync, and over a file.
#![tactic(auto)]

mod devices;
mod failing;
mod faulty;
mod files;
mod loading;
mod memory;
mod past;
mod refusals;
mod volatile;

pub use devices::Device;
pub use failing::UnsyncedDevice;
pub use faulty::FaultyDevice;
pub use files::{FileDevice, copy_blocks, whole_blocks};
pub use loading::load;
pub use memory::MemDevice;
pub use refusals::{DeviceRefusal, FileRefusal, LoadFault};
pub use volatile::VolatileDevice;

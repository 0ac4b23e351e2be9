//! Disks that keep their file in memory: for programs that keep no file, and for tests that need a device which fails
//! or crashes at a chosen call.
#![tactic(auto)]

mod bytes;
mod crash;
mod fault;
mod memory;

pub use crash::{Call, CrashDisk, Part};
pub use fault::{Afterwards, FaultDisk};
pub use memory::MemoryDisk;

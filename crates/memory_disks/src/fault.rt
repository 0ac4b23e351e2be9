// A file in memory of which a chosen call fails.
ghost use Rattle.std.specs.Prelude.{◌≡◌, ◌+◌, ◌-◌, ◌<◌, ◌↔◌, true, IsTrue};
ghost use Rattle.disk.specs.State.{of_bytes};
ghost use Rattle.memory_disks.specs.declared.fault.Afterwards.TheVariants.{GoOn, Fail};

use crate::MemoryDisk;
use disk::{Count, Disk, DiskFault};
use std::alloc::Allocator;

/// What the calls after the one that fails do.
#[derive(Clone, Copy, Debug, PartialEq, Eq)]
pub enum Afterwards {
    GoOn,
    Fail,
}

/// A file in memory of which one call, counted from the disk's making, fails and does nothing. It claims its bytes,
/// and nothing of a crash.
#[derive(Drop)]
pub struct FaultDisk<A: Allocator> {
    inner: MemoryDisk<A>,
    // how many calls it is to the one that fails, itself counted; none fails at 0
    left: u64,
    afterwards: Afterwards,
    failed: Count,
}

/// Whether the call that begins is to fail. It counts this call.
fn fails_now(left: &mut u64, afterwards: Afterwards) -> bool
    ensures fails { IsTrue result ↔ (left.old ≡ 1) }
    ensures never { left.old ≡ 0 → left.new ≡ 0 }
    ensures counts { 1 < left.old → left.new + 1 ≡ left.old }
    ensures goes_on { left.old ≡ 1 → afterwards ≡ GoOn → left.new ≡ 0 }
    ensures stays { left.old ≡ 1 → afterwards ≡ Fail → left.new ≡ 1 }
{
    match *left {
        0 => false,
        1 => {
            if afterwards == Afterwards::GoOn {
                *left = 0;
            }
            true
        }
        _ => {
            *left -= 1;
            false
        }
    }
}

impl<A: Allocator> FaultDisk<A> {
    ghost use Rattle.memory_disks.specs.Shown.{fault_bytes, calls_to_fault, afterwards_of};

    /// A disk whose file has these bytes, and whose k-th call fails, counted from 1. With k = 0 none fails.
    pub fn new(bytes: Vec<u8, A>, k: u64, afterwards: Afterwards) -> FaultDisk<A>
        ensures bytes { fault_bytes result ≡ bytes.items }
        ensures call { calls_to_fault result ≡ k }
        ensures afterwards { afterwards_of result ≡ afterwards }
    {
        FaultDisk {
            inner: MemoryDisk::new(bytes),
            left: k,
            afterwards,
            failed: Count::new(),
        }
    }

    /// The file's bytes.
    pub fn bytes(&self) -> &[u8]
        ensures { result.now ≡ fault_bytes self.now }
    {
        self.inner.bytes()
    }
}

impl<A: Allocator> Disk for FaultDisk<A> {
    ghost state = { λ d. of_bytes true d.inner.bytes.items (d.inner.failed.n + d.failed.n) };

    fn len(&mut self) -> Result<usize, DiskFault> {
        if fails_now(&mut self.left, self.afterwards) {
            self.failed = Count::after(&self.failed);
            return Err(DiskFault);
        }
        self.inner.len()
    }

    fn read_at(&mut self, at: usize, buf: &mut [u8]) -> Result<usize, DiskFault> {
        if fails_now(&mut self.left, self.afterwards) {
            self.failed = Count::after(&self.failed);
            return Err(DiskFault);
        }
        self.inner.read_at(at, buf)
    }

    fn write_at(&mut self, at: usize, bytes: &[u8]) -> Result<(), DiskFault> {
        if fails_now(&mut self.left, self.afterwards) {
            self.failed = Count::after(&self.failed);
            return Err(DiskFault);
        }
        self.inner.write_at(at, bytes)
    }

    fn cut(&mut self, len: usize) -> Result<(), DiskFault> {
        if fails_now(&mut self.left, self.afterwards) {
            self.failed = Count::after(&self.failed);
            return Err(DiskFault);
        }
        self.inner.cut(len)
    }

    fn sync(&mut self) -> Result<(), DiskFault> {
        if fails_now(&mut self.left, self.afterwards) {
            self.failed = Count::after(&self.failed);
            return Err(DiskFault);
        }
        self.inner.sync()
    }
}

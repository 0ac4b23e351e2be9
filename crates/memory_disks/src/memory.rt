// A file in memory.
ghost use Rattle.std.specs.Prelude.{◌≡◌, true};
ghost use Rattle.disk.specs.State.{of_bytes};

use crate::bytes::{fill, overwrite};
use disk::{Count, Disk, DiskFault};
use std::alloc::Allocator;

/// A file in memory. It claims its bytes, and nothing of a crash. A write that needs more memory than there is, or
/// that begins past the file's end, is a fault of this disk and leaves the file as it was. No other call fails.
#[derive(Drop)]
pub struct MemoryDisk<A: Allocator> {
    bytes: Vec<u8, A>,
    failed: Count,
}

impl<A: Allocator> MemoryDisk<A> {
    ghost use Rattle.memory_disks.specs.Shown.{memory_bytes};

    /// A disk whose file has these bytes.
    pub fn new(bytes: Vec<u8, A>) -> MemoryDisk<A>
        ensures { memory_bytes result ≡ bytes.items }
    {
        MemoryDisk {
            bytes,
            failed: Count::new(),
        }
    }

    /// The file's bytes.
    pub fn bytes(&self) -> &[u8]
        ensures { result.now ≡ memory_bytes self.now }
    {
        &self.bytes
    }
}

impl<A: Allocator> Disk for MemoryDisk<A> {
    ghost state = { λ m. of_bytes true m.bytes.items m.failed.n };

    fn len(&mut self) -> Result<usize, DiskFault> {
        Ok(self.bytes.len())
    }

    fn read_at(&mut self, at: usize, buf: &mut [u8]) -> Result<usize, DiskFault> {
        Ok(fill(&self.bytes, at, buf))
    }

    fn write_at(&mut self, at: usize, bytes: &[u8]) -> Result<(), DiskFault> {
        let done = overwrite(&mut self.bytes, at, bytes);
        if done.is_err() {
            self.failed = Count::after(&self.failed);
        }
        done
    }

    fn cut(&mut self, len: usize) -> Result<(), DiskFault> {
        self.bytes.truncate(len);
        Ok(())
    }

    fn sync(&mut self) -> Result<(), DiskFault> {
        Ok(())
    }
}

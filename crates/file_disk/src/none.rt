//! A disk without a file.

ghost use Rattle.std.specs.Prelude.{◌≡◌, [], false};
ghost use Rattle.disk.specs.State.{of_bytes};

use disk::{Count, Disk, DiskFault};

/// The most bytes of a file.
const LONGEST: usize = 1 << 63;

/// A disk that keeps nothing, for a session whose journal nobody wants. So it claims neither its bytes nor what a crash leaves. A write
/// past 2^63 bytes fails, and no other call.
#[derive(Drop)]
pub struct NoFile {
    failures: Count,
}

impl NoFile {
    /// The disk, which has not failed yet.
    pub fn new() -> NoFile {
        NoFile {
            failures: Count::new(),
        }
    }
}

impl Disk for NoFile {
    ghost state = { λ d. of_bytes false [] d.failures.n };

    fn len(&mut self) -> Result<usize, DiskFault> {
        Ok(0)
    }

    fn read_at(&mut self, _at: usize, _buf: &mut [u8]) -> Result<usize, DiskFault> {
        Ok(0)
    }

    fn write_at(&mut self, at: usize, bytes: &[u8]) -> Result<(), DiskFault> {
        if at > LONGEST || bytes.len() > LONGEST - at {
            self.failures = Count::after(&self.failures);
            return Err(DiskFault);
        }
        Ok(())
    }

    fn cut(&mut self, _len: usize) -> Result<(), DiskFault> {
        Ok(())
    }

    fn sync(&mut self) -> Result<(), DiskFault> {
        Ok(())
    }
}

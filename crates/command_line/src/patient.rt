//! A reader or a writer that goes on where a signal interrupts it.
ghost use Rattle.std.specs.Prelude.{◌≡◌};

use std::io::{self, ErrorKind, Read, Write};

/// A reader or a writer whose reads and writes are tried again where a signal interrupts them.
#[derive(Drop)]
pub(crate) struct Patient<T> {
    inner: T,
}

impl<T> Patient<T> {
    /// The reads of this reader, or the writes of this writer.
    pub(crate) fn new(inner: T) -> Patient<T>
        ensures { result.inner ≡ inner }
    {
        Patient { inner }
    }
}

impl<T: Read> Read for Patient<T> {
    ghost remaining = { λ p. T.remaining p.inner };

    fn read(&mut self, buf: &mut [u8]) -> io::Result<usize> {
        for _ in 0..u64::MAX {
            match self.inner.read(buf) {
                Ok(count) => return Ok(count),
                Err(fault) if fault.kind() == ErrorKind::Interrupted => {}
                Err(fault) => return Err(fault),
            }
        }
        Err(io::Error::from(ErrorKind::Interrupted))
    }
}

impl<T: Write> Write for Patient<T> {
    ghost contents = { λ p. T.contents p.inner };

    fn write(&mut self, buf: &[u8]) -> io::Result<usize> {
        for _ in 0..u64::MAX {
            match self.inner.write(buf) {
                Ok(count) => return Ok(count),
                Err(error) if error.kind() == ErrorKind::Interrupted => {}
                Err(error) => return Err(error),
            }
        }
        Err(io::Error::from(ErrorKind::Interrupted))
    }

    fn flush(&mut self) -> io::Result<()> {
        self.inner.flush()
    }
}

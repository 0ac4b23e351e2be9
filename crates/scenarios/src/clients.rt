//! A client that sends a line at a time.

ghost use Rattle.std.specs.Prelude.{None};

use crate::memory::Memory;
use wire::{Source, SourceFault};

/// Lines, of which each is sent once the one before it was answered.
#[derive(Drop)]
pub(crate) struct Client<'a> {
    lines: &'a [u8],
    memory: Memory<'a>,
}

impl<'a> Client<'a> {
    pub(crate) fn new(lines: &'a [u8], memory: Memory<'a>) -> Client<'a> {
        Client { lines, memory }
    }
}

impl Source for Client<'_> {
    ghost left = { λ _. None };

    ghost failures = { λ _. 0 };

    fn read(&mut self, buffer: &mut [u8]) -> Result<usize, SourceFault> {
        self.memory.answered();
        let line = match self.lines.iter().position(|byte| *byte == b'\n') {
            Some(place) => place.saturating_add(1),
            None => self.lines.len(),
        };
        let count = line.min(buffer.len()).min(self.lines.len());
        buffer[..count].copy_from_slice(&self.lines[..count]);
        self.lines = &self.lines[count..];
        Ok(count)
    }
}

//! The doors of a server in memory, and what takes its output.

ghost use Rattle.std.specs.Prelude.{◌≡◌};

use crate::clients::Comers;
use connections::Totals;
use disk::Count;
use program::{Doors, Exit};
use std::alloc::Global;
use wire::{Sink, SinkFault, send};

/// Doors that open once, and write `open` then; or that don't open, with a status.
#[derive(Drop)]
pub(crate) struct Hall {
    comers: Option<Comers>,
    pub(crate) shut: Option<Exit>,
    /// What came of all connections together, and whether one couldn't be taken, once they are closed.
    pub(crate) over: Option<(Totals, bool)>,
}

impl Hall {
    pub(crate) fn new(comers: Comers) -> Hall {
        Hall {
            comers: Some(comers),
            shut: None,
            over: None,
        }
    }
}

impl Doors for Hall {
    type Accept = Comers;

    ghost use Rattle.std.specs.Prelude.{◌≡◌, ◌⊎◌, codes, Some};
    ghost use Rattle.std.specs.Io.KnownBytes.{Appends};
    ghost use Rattle.answers.specs.declared.exit.Exit.TheVariants.{FileFailed};

    ghost opens = { λ old before after accept _. (old.comers ≡ Some accept) × Appends before after (codes "open\n") };

    ghost refuses = { λ old exit. (old.shut ≡ Some exit) ⊎ (exit ≡ FileFailed) };

    ghost closes = { λ _ totals accept_failed new. new.over ≡ Some (totals, accept_failed) };

    fn open<O: Sink>(&mut self, output: &mut O) -> Result<Comers, Exit> {
        if let Some(exit) = self.shut {
            return Err(exit);
        }
        if send(output, b"open\n").is_err() {
            return Err(Exit::FileFailed);
        }
        match self.comers.take() {
            Some(comers) => Ok(comers),
            None => Err(Exit::FileFailed),
        }
    }

    fn close(&mut self, totals: Totals, accept_failed: bool) {
        self.over = Some((totals, accept_failed));
    }
}

/// An output that has room for so many bytes more.
#[derive(Drop)]
pub(crate) struct Told {
    pub(crate) taken: Vec<u8, Global>,
    pub(crate) room: usize,
    failures: Count,
}

impl Told {
    pub(crate) fn new(alloc: Global) -> Told {
        Told {
            taken: Vec::new(alloc),
            room: usize::MAX,
            failures: Count::new(),
        }
    }
}

impl Sink for Told {
    ghost use Rattle.std.specs.Prelude.{Some};

    ghost contents = { λ told. Some told.taken.items };

    ghost failures = { λ told. told.failures.n };

    fn write(&mut self, bytes: &[u8]) -> Result<usize, SinkFault> {
        let count = bytes.len().min(self.room);
        if count == 0 || self.taken.extend_from_slice(&bytes[..count]).is_err() {
            self.failures = Count::after(&self.failures);
            return Err(SinkFault);
        }
        self.room -= count;
        Ok(count)
    }

    fn flush(&mut self) -> Result<(), SinkFault> {
        Ok(())
    }
}

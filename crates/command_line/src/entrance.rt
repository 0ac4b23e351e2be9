//! The door of a run of the server, as `program::serve` asks for one, and what is told of its run.

ghost use Rattle.command_line.specs.Endings.{IsUnserved};

use crate::doors::Door;
use crate::hints::show_limit_met;
use crate::limits::names_by;
use crate::telling::{tell_fault, tell_unjudged};
use program::{Doors, Exit, Line};
use serving::Totals;
use std::io::{IsTerminal, Write};
use wire::Sink;
use words::Service;

/// A door, and where its faults are reported.
#[derive(Drop)]
pub(crate) struct Entrance<'v, 's, 'a, D, E> {
    service: &'v Service<'s>,
    door: D,
    errors: &'a mut E,
    is_open: bool,
    was_open: bool,
    is_heard: bool,
}

/// What became of a door.
#[derive(Clone, Copy)]
pub(crate) struct Past {
    /// Clients were told where to connect.
    pub(crate) was_open: bool,
    /// Standard error takes more.
    pub(crate) is_heard: bool,
}

impl<'v, 's, 'a, D: Door, E> Entrance<'v, 's, 'a, D, E> {
    /// This door, which isn't open yet.
    pub(crate) fn new(
        service: &'v Service<'s>,
        door: D,
        errors: &'a mut E,
    ) -> Entrance<'v, 's, 'a, D, E> {
        Entrance {
            service,
            door,
            errors,
            is_open: false,
            was_open: false,
            is_heard: true,
        }
    }

    /// What became of it. One that is still open is closed: no connection was taken then, and the fault is told whatever standard error takes.
    pub(crate) fn leave(&mut self) -> Past {
        if self.is_open {
            self.is_open = false;
            self.door.close();
        }
        Past {
            was_open: self.was_open,
            is_heard: self.is_heard,
        }
    }
}

impl<D: Door, E: Write + IsTerminal> Doors for Entrance<'_, '_, '_, D, E> {
    type Accept = D::Accept;

    // Nothing is known of what the system does.
    ghost opens = { λ _ _ _ _ _. Unit {0} };

    ghost refuses = { λ _ exit. IsUnserved exit };

    ghost closes = { λ _ _ _ _. Unit {0} };

    fn open<O: Sink>(&mut self, output: &mut O) -> Result<D::Accept, Exit> {
        match self.door.open(output, self.errors) {
            Ok((accept, _)) => {
                self.is_open = true;
                self.was_open = true;
                Ok(accept)
            }
            Err(shut) => {
                self.was_open = shut.was_open;
                Err(shut.exit)
            }
        }
    }

    // Where standard error takes nothing more, it doesn't wait for that.
    fn close(&mut self, totals: Totals, accept_failed: bool) {
        self.is_open = false;
        self.is_heard = self.door.close();
        if self.is_heard {
            tell_totals(self.service, totals, accept_failed, self.errors);
        }
    }
}

// Reports what came of all connections together, on a terminal with what helps against a limit that was met.
fn tell_totals<E: Write + IsTerminal>(
    service: &Service<'_>,
    totals: Totals,
    accept_failed: bool,
    errors: &mut E,
) {
    if accept_failed {
        tell_fault(errors, service.listen, "cannot accept", Exit::FileFailed);
    }
    tell_unjudged(errors, totals.unjudged);
    if totals.limit {
        show_limit_met(errors, names_by(service.large));
    }
}

/// Reports what became of the line of the counts, where it wasn't written.
pub(crate) fn tell_line<E: Write>(service: &Service<'_>, line: Line, errors: &mut E) {
    match line {
        Line::Written => {}
        Line::Unwritten => {
            tell_fault(errors, "-", "cannot write", Exit::FileFailed);
        }
        Line::Unmade => {
            tell_fault(errors, service.spec, "40 memory", Exit::Limit);
        }
    }
}

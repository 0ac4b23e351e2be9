//! What came of connections together.

ghost use Rattle.std.specs.Prelude.{◌≡◌, []};
ghost use Rattle.connections.specs.Endings.{has_rejected, is_limit, is_out_of_memory, met_limit};
ghost use Rattle.connections.specs.Services.{IsSum, unjudged_of};
ghost use Rattle.connections.specs.Visiting.{IsAdded};

use crate::outcome::Ending;
use wire::{End, Fault, WireError, unjudged};

/// What came of connections together.
#[derive(Clone, Copy, Debug, PartialEq, Eq)]
pub struct Totals {
    /// A report of some connection was rejected.
    pub rejected: bool,
    /// A line was answered with a fault; or a connection got no place for another cause than that the session is closed, or no thread,
    /// or memory ran out before its first line.
    pub limit: bool,
    /// How many lines weren't judged, since they were no command, named no event, or were too long.
    pub unjudged: u64,
}

// Whether memory ran out before the first line.
fn ran_out(end: &Result<End, WireError>) -> bool
    ensures { result ≡ is_out_of_memory end.now }
{
    matches!(end, Err(WireError::Memory))
}

// Whether this is another cause than that the session is closed.
fn tells_limit(fault: &Fault) -> bool
    ensures { result ≡ is_limit fault.now }
{
    !matches!(fault, Fault::Closed(()))
}

impl Ending {
    /// Whether a report was rejected. So it is where some report of the connection was judged and rejected, which is answered
    /// `NO n`, also if reading or writing failed later; a connection without a place or a thread has reported nothing.
    /// Constant cost: each answer was noted as it was made.
    pub fn has_rejected(&self) -> bool
        ensures { result ≡ has_rejected self.now }
    {
        match self {
            Ending::Served(_, tally) => tally.rejected,
            Ending::Refused(_) | Ending::NotStarted => false,
        }
    }

    /// Whether memory ran out, or a limit was met.
    pub fn met_limit(&self) -> bool
        ensures { result ≡ met_limit self.now }
    {
        match self {
            Ending::Served(end, tally) => tally.limit | ran_out(end),
            Ending::Refused(fault) => tells_limit(fault),
            Ending::NotStarted => true,
        }
    }

    /// How many lines were answered `ERR 10`, `11` or `12`, as far as 64 bits go. Constant cost: each answer was noted as it was made.
    pub fn unjudged(&self) -> u64
        ensures { result ≡ unjudged_of self.now }
    {
        match self {
            Ending::Served(end, tally) => unjudged(end, tally),
            Ending::Refused(_) | Ending::NotStarted => 0,
        }
    }
}

impl Totals {
    /// Of no connection.
    pub fn new() -> Totals
        ensures { IsSum [] result }
    {
        Totals {
            rejected: false,
            limit: false,
            unjudged: 0,
        }
    }

    /// Of connections that ended so: one ending for each, in any order. Where there is none, nothing was rejected, no limit was met, and
    /// each line was judged. Goes over the endings once; takes no memory.
    ///
    /// ```text
    /// let totals = Totals::of(&endings);
    /// ```
    pub fn of(endings: &[Ending]) -> Totals
        ensures { IsSum endings.now result }
    {
        let mut totals = Totals::new();
        for ending in endings {
            totals.add(ending);
        }
        totals
    }

    /// Adds how one more connection ended.
    pub(crate) fn add(&mut self, ending: &Ending)
        ensures { IsAdded self.old ending.now self.new }
    {
        self.rejected |= ending.has_rejected();
        self.limit |= ending.met_limit();
        self.unjudged = self.unjudged.saturating_add(ending.unjudged());
    }
}

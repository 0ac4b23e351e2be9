//! Why a report isn't judged, or a seat isn't given.

ghost use Rattle.std.specs.Prelude.{◌≡◌, Some};
ghost use Rattle.answers.specs.Faults.{code_of, word_of, fault_text, plain_of, IsNoSeat};

use std::fmt;

/// Why a report isn't judged, or a seat isn't given. Its text is its number and its word. What closed a session, where it is known, is an
/// `F`; a reply says nothing of it, and has a `Fault<()>`.
#[derive(Clone, Copy, Debug, PartialEq, Eq)]
pub enum Fault<F> {
    /// A state would be too deep.
    Depth,
    /// There would be too many states.
    States,
    /// There are no more seats.
    Seats,
    /// The history is full.
    History,
    /// The report isn't the next one of its seat.
    Turn,
    /// The history is shorter than what the seat has seen.
    Behind,
    /// There is no reader of the published history.
    Reader,
    /// Another connection has the seat.
    Taken,
    /// The journal couldn't be written, which closed the session.
    Journal(F),
    /// The session was closed before.
    Closed(F),
    /// A request for memory was refused.
    Memory,
}

impl<F: Copy> Fault<F> {
    /// The number of the fault in replies and messages.
    pub fn code(&self) -> u8
        ensures { result ≡ code_of self.now }
    {
        match self {
            Fault::Depth => 20,
            Fault::States => 21,
            Fault::Seats => 22,
            Fault::History => 23,
            Fault::Turn => 24,
            Fault::Behind => 25,
            Fault::Reader => 26,
            Fault::Taken => 27,
            Fault::Journal(_) => 30,
            Fault::Closed(_) => 31,
            Fault::Memory => 40,
        }
    }

    /// The word after the number.
    pub fn word(&self) -> &'static str
        ensures { result.now ≡ word_of self.now }
    {
        match self {
            Fault::Depth => "depth",
            Fault::States => "states",
            Fault::Seats => "seats",
            Fault::History => "history",
            Fault::Turn => "turn",
            Fault::Behind => "behind",
            Fault::Reader => "reader",
            Fault::Taken => "taken",
            Fault::Journal(_) => "journal",
            Fault::Closed(_) => "closed",
            Fault::Memory => "memory",
        }
    }

    /// The same fault, without what closed the session.
    pub fn plain(self) -> Fault<()>
        ensures plain { result ≡ plain_of self }
        ensures no_seat { IsNoSeat self → IsNoSeat result }
    {
        match self {
            Fault::Depth => Fault::Depth,
            Fault::States => Fault::States,
            Fault::Seats => Fault::Seats,
            Fault::History => Fault::History,
            Fault::Turn => Fault::Turn,
            Fault::Behind => Fault::Behind,
            Fault::Reader => Fault::Reader,
            Fault::Taken => Fault::Taken,
            Fault::Journal(_) => Fault::Journal(()),
            Fault::Closed(_) => Fault::Closed(()),
            Fault::Memory => Fault::Memory,
        }
    }
}

impl<F: Copy> fmt::Display for Fault<F> {
    ghost output = { λ fault. Some (fault_text fault) };

    fn fmt<W: fmt::Write>(&self, f: &mut fmt::Formatter<W>) -> fmt::Result {
        write!(f, "{} {}", self.code(), self.word())
    }
}

impl<F: Copy + fmt::Debug> std::error::Error for Fault<F> {}

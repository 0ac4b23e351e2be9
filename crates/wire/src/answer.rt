//! What is answered: by a judge, and to a line.
ghost use Rattle.std.specs.Prelude.{◌≡◌, ◌≤◌, length, false};
ghost use Rattle.wire.specs.Replies.{fault_text, identified_as, tallied};

use alphabet::EventSet;
use answers::{Receipt, Status};

/// A seat by its number, and how many reports of it stand in the history.
#[derive(Clone, Copy, Debug, PartialEq, Eq)]
pub struct Identity {
    pub seat: u16,
    pub judged: u64,
}

/// Why a report isn't judged, or a seat isn't given, as a reply says it.
pub type Fault = answers::Fault<()>;

/// The line that reports the fault to a client.
pub(crate) fn reply_of(fault: Fault) -> &'static [u8]
    ensures text { result.now ≡ fault_text fault }
    ensures short { length result.now ≤ 16 }
{
    match fault {
        Fault::Depth => b"ERR 20 depth\n",
        Fault::States => b"ERR 21 states\n",
        Fault::Seats => b"ERR 22 seats\n",
        Fault::History => b"ERR 23 history\n",
        Fault::Turn => b"ERR 24 turn\n",
        Fault::Behind => b"ERR 25 behind\n",
        Fault::Reader => b"ERR 26 reader\n",
        Fault::Taken => b"ERR 27 taken\n",
        Fault::Journal(()) => b"ERR 30 journal\n",
        Fault::Closed(()) => b"ERR 31 closed\n",
        Fault::Memory => b"ERR 40 memory\n",
    }
}

/// What a line was answered with.
#[derive(Clone, Copy, Debug)]
pub enum Answer {
    /// The report was judged.
    Judged(Receipt),
    /// The report wasn't judged, the seat isn't given, or there was no memory for the names of the events of `N`.
    Fault(Fault),
    /// The answer to `S`.
    Status(Status),
    /// The answer to `N`: the events that may come next.
    Next(EventSet),
    /// The answer to `I n`: the seat is the connection's.
    Identity(Identity),
    /// The answer to `Q`.
    Bye,
    /// The line is no command.
    UnknownCommand,
    /// The line names no event of the alphabet.
    UnknownEvent,
}

impl Answer {
    /// The answer to `I n` for this seat, where a judge answers so: that it is no command where the judge takes no names.
    pub fn of_identity(seat: u16, answer: Option<Result<u64, Fault>>) -> Answer
        ensures { result ≡ identified_as seat answer }
    {
        match answer {
            None => Answer::UnknownCommand,
            Some(Ok(judged)) => Answer::Identity(Identity { seat, judged }),
            Some(Err(fault)) => Answer::Fault(fault),
        }
    }
}

/// What there was among the answers so far.
#[derive(Clone, Copy, Debug, PartialEq, Eq)]
pub struct Tally {
    /// A line was answered. From then on `I n` is no command.
    pub begun: bool,
    /// A report was judged and rejected.
    pub rejected: bool,
    /// How many lines were no command, or named no event of the alphabet: what they told wasn't judged.
    pub unjudged: u64,
    /// A line was answered with a fault, other than that the seat is taken.
    pub limit: bool,
}

impl Tally {
    /// Of no answers. A conversation begins with this; each answer is added by `after`, which takes nothing back. Whoever held the
    /// conversation reads from it, at the end, whether a report was rejected, how many lines were no command or named no event, and
    /// whether a fault was answered: the exit status of a run is found so. Constant cost; takes no memory.
    pub fn new() -> Tally
        ensures { result ≡ record { begun = false; rejected = false; unjudged = 0; limit = false } }
    {
        Tally {
            begun: false,
            rejected: false,
            unjudged: 0,
            limit: false,
        }
    }

    /// With one answer more. `BYE`, after which nothing comes, leaves it as it is.
    pub fn after(self, answer: &Answer) -> Tally
        ensures { result ≡ tallied self answer.now }
    {
        let mut tally = self;
        match answer {
            Answer::Bye => return tally,
            Answer::Judged(receipt) if !receipt.verdict => tally.rejected = true,
            Answer::Fault(Fault::Taken) => {}
            Answer::Fault(_) => tally.limit = true,
            Answer::UnknownCommand | Answer::UnknownEvent => {
                tally.unjudged = tally.unjudged.saturating_add(1);
            }
            _ => {}
        }
        tally.begun = true;
        tally
    }
}

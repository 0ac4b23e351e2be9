//! A judge of `P = a -> d.2 -> P`, and a connection to it.

ghost use Rattle.std.specs.Prelude.{◌≡◌, ◌≢◌, Err};
ghost use Rattle.alphabet.specs.Channels.{event_count};
ghost use Rattle.wire.specs.Requests.{IsEventBelow};
ghost use Rattle.wire.specs.declared.engine.WireError.{WireError};

use alphabet::{Alphabet, Event, EventSet, Report};
use std::alloc::{Allocator, Global};
use std::sync::Wait;
use wire::{End, Fault, Judge, Receipt, Sink, Source, Status, Summary, Tally, WireError, serve};

/// A judge of `P = a -> d.2 -> P`, which answers a fault at its tenth report. Where it takes names, seat 7 is taken, and of each other
/// seat there are a million reports times its number.
#[derive(Drop)]
struct Turns {
    takes_names: bool,
    is_second_next: bool,
    summary: Summary,
}

impl Turns {
    fn new(takes_names: bool) -> Turns {
        Turns {
            takes_names,
            is_second_next: false,
            summary: Summary {
                judged: 0,
                events: 0,
                refusals: 0,
                rejected: 0,
            },
        }
    }

    fn next_event(&self) -> Event
        ensures { IsEventBelow 2 result }
    {
        Event::Of(if self.is_second_next { 1 } else { 0 })
    }
}

impl Judge for Turns {
    ghost event_count = { λ _. 2 };

    ghost reports = { λ _ _ _ _. Unit {0} };

    ghost statuses = { λ _ _ _. Unit {0} };

    ghost nexts = { λ _ _ _. Unit {0} };

    ghost identifies = { λ _ _ _ _. Unit {0} };

    fn report(&mut self, report: Report) -> Result<Receipt, Fault> {
        if self.summary.judged >= 9 {
            return Err(Fault::History);
        }
        self.summary.judged += 1;
        let next = self.next_event();
        let verdict = match report {
            Report::Event(event) => event == next,
            Report::Refusal(set) => !set.contains(next),
        };
        match report {
            _ if !verdict => self.summary.rejected = self.summary.rejected.saturating_add(1),
            Report::Event(_) => {
                self.is_second_next = !self.is_second_next;
                self.summary.events = self.summary.events.saturating_add(1);
            }
            Report::Refusal(_) => {
                self.summary.refusals = self.summary.refusals.saturating_add(1);
            }
        }
        Ok(Receipt {
            verdict,
            place: self.summary.judged,
        })
    }

    fn status(&mut self) -> Status {
        Status {
            summary: self.summary,
            closed: self.summary.judged >= 9,
        }
    }

    fn identify(&mut self, seat: u16) -> Option<Result<u64, Fault>> {
        match seat {
            _ if !self.takes_names => None,
            7 => Some(Err(Fault::Taken)),
            _ => Some(Ok(u64::from(seat) * 1_000_000)),
        }
    }

    fn next(&mut self) -> EventSet {
        let none = EventSet::empty();
        let one = none.with(self.next_event());
        one.with(Event::Tick)
    }
}

/// What a connection came to: how it ended, how many entries the judge has, and what there was among the answers.
#[derive(Clone, Copy, Drop)]
pub(crate) struct Outcome {
    pub end: Result<End, WireError>,
    pub judged: u64,
    pub tally: Tally,
}

/// Serves a connection to a judge of its own, which takes names or not.
pub(crate) fn talk<T: Wait, R: Source, W: Sink, B: Allocator + Clone + Drop>(
    rt: &T,
    alloc: B,
    reader: &mut R,
    writer: &mut W,
    alphabet: &Alphabet<Global>,
    takes_names: bool,
) -> Outcome
    requires { event_count alphabet.now ≡ 2 }
    ensures handed_on { W.has_handed_on writer.old → result.end ≢ Err WireError.Write → W.has_handed_on writer.new }
{
    let mut judge = Turns::new(takes_names);
    let mut tally = Tally::new();
    let end = serve(rt, alloc, reader, writer, &mut judge, alphabet, &mut tally);
    Outcome {
        end,
        judged: judge.summary.judged,
        tally,
    }
}

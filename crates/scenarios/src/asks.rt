//! What is asked of a session, one thing after the other, parted by `; `.
//!
//! | Ask | Answer |
//! |---|---|
//! | `J` | the number of a seat that joins |
//! | `L` | the length of the history |
//! | `N`, `S` | as the line protocol answers them |
//! | `number SEAT` | the number of the seat's next report |
//! | `report SEAT NUMBER FLOOR E NAME` or `.. R NAME ..` | as the line protocol answers a report |
//! | `ready SEAT NUMBER FLOOR E NAME` or `.. R NAME ..` | the same, made ready first and then written: the verdict and the length between the two, and whether the entry written is the `same` |
//! | `offer SEAT NUMBER E NAME` or `.. R NAME ..` | what is offered as the seat's report: the verdict, and its place after the history and what is offered |
//! | `settle` | `settled`, or the fault |
//! | `times COUNT SEAT E NAME` or `.. R NAME ..` | so many reports of the seat, each its next: how many were accepted |

ghost use Rattle.std.specs.Prelude.{◌≡◌, IfSome};
ghost use Rattle.journal.specs.Reports.{AreEvents, IsReport};
ghost use Rattle.journal.specs.Recorder.{on_disk};
ghost use Rattle.session.specs.View.{IsReadyFor};

use crate::memory::Memory;
use alphabet::{Alphabet, EventSet, Report};
use disk::Disk;
use rows::{Output, first_word, number_of};
use session::{Entry, Fault, Ready, SeatNumber, Session};
use std::alloc::Allocator;

/// A report as a row asks for it.
#[derive(Clone, Copy)]
struct Wanted {
    seat: SeatNumber,
    number: u32,
    floor: usize,
    report: Report,
}

/// The set of the events with these names, where each is one's.
fn set_of<A: Allocator>(alphabet: &Alphabet<A>, names: &str) -> Option<EventSet>
    ensures { IfSome result (AreEvents alphabet.now) }
{
    let mut set = EventSet::empty();
    for name in names.split(' ') {
        set = set.with(alphabet.event(name.as_bytes())?);
    }
    Some(set)
}

/// The report that the words ask for.
fn report_of<A: Allocator>(alphabet: &Alphabet<A>, words: &str) -> Option<Report>
    ensures { IfSome result (IsReport alphabet.now) }
{
    match first_word(words) {
        ("E", name) => Some(Report::Event(alphabet.event(name.as_bytes())?)),
        ("R", "") => Some(Report::Refusal(EventSet::empty())),
        ("R", names) => Some(Report::Refusal(set_of(alphabet, names)?)),
        _ => None,
    }
}

/// What the words `SEAT NUMBER FLOOR REPORT` ask for.
fn wanted_by<A: Allocator>(alphabet: &Alphabet<A>, words: &str) -> Option<Wanted>
    ensures { IfSome result (λ wanted. IsReport alphabet.now wanted.report) }
{
    let (seat, words) = first_word(words);
    let (number, words) = first_word(words);
    let (floor, words) = first_word(words);
    let report = report_of(alphabet, words)?;
    Some(Wanted {
        seat: SeatNumber::new(seat.parse().unwrap_or(0))?,
        number: number.parse().unwrap_or(0),
        floor: floor.parse().unwrap_or(0),
        report,
    })
}

/// Appends how a report was answered, as the line protocol writes it.
fn put_answer(answer: Result<Entry, Fault>, place: usize, out: &mut Output) {
    match answer {
        Ok(entry) => {
            out.put(if entry.verdict { "OK " } else { "NO " });
            out.put_shown(&place);
        }
        Err(fault) => put_fault(fault, out),
    }
}

/// Appends a fault, as the line protocol writes it.
fn put_fault(fault: Fault, out: &mut Output) {
    out.put("ERR ");
    out.put_shown(&fault);
}

/// Reports what the words ask for.
fn report<D: Disk, A: Allocator + Copy>(
    session: &mut Session<D, A>,
    words: &str,
    out: &mut Output,
) {
    match wanted_by(session.spec().alphabet(), words) {
        Some(wanted) => {
            let answer = session.report(wanted.seat, wanted.number, wanted.floor, &wanted.report);
            put_answer(answer, session.history().len(), out);
        }
        None => out.put("no such report"),
    }
}

/// Writes what is ready, which takes no memory: its verdict, how long the history is before, and the answer.
fn write_ready<D: Disk, A: Allocator + Copy>(
    session: &mut Session<D, A>,
    ready: Ready<A>,
    memory: Memory,
    out: &mut Output,
)
    requires { IsReadyFor (on_disk D.state) session.old ready }
{
    memory.begin_quiet();
    let (entry, length) = (ready.entry(), session.history().len());
    let answer = session.write(ready);
    let asked = memory.end_quiet();
    out.put(if entry.verdict { "true " } else { "false " });
    out.put_shown(&length);
    out.put(match answer {
        Ok(written) if written == entry => " same",
        Ok(_) => " other",
        Err(_) => " none",
    });
    out.put(asked);
}

/// Makes ready what the words ask for, and writes it then.
fn ready<D: Disk, A: Allocator + Copy + Drop>(
    session: &mut Session<D, A>,
    words: &str,
    memory: Memory,
    out: &mut Output,
) {
    match wanted_by(session.spec().alphabet(), words) {
        Some(wanted) => {
            match session.ready(wanted.seat, wanted.number, wanted.floor, &wanted.report) {
                Ok(ready) => write_ready(session, ready, memory, out),
                Err(fault) => put_fault(fault, out),
            }
        }
        None => out.put("no such report"),
    }
}

/// Offers what the words `SEAT NUMBER REPORT` ask for.
fn offer<D: Disk, A: Allocator + Copy>(session: &mut Session<D, A>, words: &str, out: &mut Output) {
    let (seat, words) = first_word(words);
    let (number, words) = first_word(words);
    let seat = SeatNumber::new(seat.parse().unwrap_or(0));
    match (seat, report_of(session.spec().alphabet(), words)) {
        (Some(seat), Some(report)) => {
            let answer = session.offer(seat, number.parse().unwrap_or(0), &report);
            let place = session
                .history()
                .len()
                .saturating_add(session.offered().len());
            put_answer(answer, place, out);
        }
        _ => out.put("no such report"),
    }
}

/// Settles what is offered, which takes no memory.
fn settle<D: Disk, A: Allocator + Copy>(
    session: &mut Session<D, A>,
    memory: Memory,
    out: &mut Output,
) {
    memory.begin_quiet();
    let answer = session.settle();
    let asked = memory.end_quiet();
    match answer {
        Ok(()) => out.put("settled"),
        Err(fault) => put_fault(fault, out),
    }
    out.put(asked);
}

/// Reports this so many times, each as the seat's next. How many were accepted is answered.
fn accepted<D: Disk, A: Allocator + Copy>(
    session: &mut Session<D, A>,
    count: u64,
    seat: SeatNumber,
    report: &Report,
) -> u64
    requires { IsReport session.old.spec.alphabet report.now }
{
    let mut accepted: u64 = 0;
    for _ in 0..count {
        let number = session.next_number(seat);
        if let Ok(entry) = session.report(seat, number, 0, report)
            && entry.verdict
        {
            accepted = accepted.saturating_add(1);
        }
    }
    accepted
}

/// Reports so many times what the words `COUNT SEAT REPORT` ask for.
fn times<D: Disk, A: Allocator + Copy>(session: &mut Session<D, A>, words: &str, out: &mut Output) {
    let (count, words) = first_word(words);
    let (seat, words) = first_word(words);
    let seat = SeatNumber::new(seat.parse().unwrap_or(0));
    match (seat, report_of(session.spec().alphabet(), words)) {
        (Some(seat), Some(report)) => {
            let accepted = accepted(session, number_of(count), seat, &report);
            out.put_shown(&accepted);
            out.put(" accepted");
        }
        _ => out.put("no such report"),
    }
}

/// A seat joins.
fn join<D: Disk, A: Allocator>(session: &mut Session<D, A>, out: &mut Output) {
    match session.join() {
        Ok(seat) => {
            out.put("J ");
            out.put_shown(&seat.get());
        }
        Err(fault) => put_fault(fault, out),
    }
}

/// Appends the events of the set, each after a space.
fn put_names<A: Allocator>(alphabet: &Alphabet<A>, set: &EventSet, out: &mut Output) {
    for place in 1..alphabet.len() + 2 {
        if let Some(event) = alphabet.at(place)
            && set.contains(event)
        {
            let mut name = out.copy_of(b" ");
            if alphabet.name_into(event, &mut name).is_err() {
                out.is_cut = true;
            }
            out.put_bytes(&name);
        }
    }
}

/// Appends the counts of the entries, and whether the session is open.
fn put_status<D: Disk, A: Allocator>(session: &Session<D, A>, out: &mut Output) {
    let summary = session.summary();
    out.put("S");
    for count in [
        summary.judged,
        summary.events,
        summary.refusals,
        summary.rejected,
    ] {
        out.put(" ");
        out.put_shown(&count);
    }
    out.put(if session.is_closed() {
        " closed"
    } else {
        " open"
    });
}

/// Appends the answer to one thing that changes nothing.
fn look<D: Disk, A: Allocator>(session: &Session<D, A>, kind: &str, words: &str, out: &mut Output) {
    match kind {
        "L" => {
            out.put("L ");
            out.put_shown(&session.history().len());
        }
        "N" => {
            out.put("N");
            put_names(session.spec().alphabet(), &session.next(), out);
        }
        "S" => put_status(session, out),
        "number" => match SeatNumber::new(words.parse().unwrap_or(0)) {
            Some(seat) => out.put_shown(&session.next_number(seat)),
            None => out.put("no such seat"),
        },
        _ => out.put("no such ask"),
    }
}

/// Appends the answer to one thing.
fn answer<D: Disk, A: Allocator + Copy + Drop>(
    session: &mut Session<D, A>,
    ask: &str,
    memory: Memory,
    out: &mut Output,
) {
    let (kind, words) = first_word(ask);
    match kind {
        "J" => join(session, out),
        "report" => report(session, words, out),
        "ready" => ready(session, words, memory, out),
        "offer" => offer(session, words, out),
        "settle" => settle(session, memory, out),
        "times" => times(session, words, out),
        _ => {
            memory.begin_quiet();
            look(session, kind, words, out);
            out.put(memory.end_quiet());
        }
    }
}

/// Appends the answers to all, parted by `; `. What is answered by `ERR 40 memory` is asked once more.
pub(crate) fn answer_all<D: Disk, A: Allocator + Copy + Drop>(
    session: &mut Session<D, A>,
    asks: &str,
    memory: Memory,
    out: &mut Output,
) {
    let mut has_begun = false;
    for ask in asks.split("; ") {
        out.put(if has_begun { "; " } else { "" });
        answer(session, ask, memory, out);
        if out.text().ends_with("ERR 40 memory") {
            memory.answered();
            out.put("; ");
            answer(session, ask, memory, out);
        }
        has_begun = true;
    }
}

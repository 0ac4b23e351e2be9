//! One who reports alone to a session.

ghost use Rattle.std.specs.Prelude.{◌≡◌, ◌<◌, [], length, None, OnOk};
ghost use Rattle.alphabet.specs.Channels.{event_count};
ghost use Rattle.term.specs.Proc.{bodies_of};
ghost use Rattle.session.specs.Reports.{IsReport};
ghost use Rattle.session.specs.Legal.{IsJudged};
ghost use Rattle.wire.specs.Requests.{IsRequestBelow};
ghost use Rattle.wire.specs.Replies.{Answers, IsAnswerBelow, TakesNoName};
ghost use Rattle.attending.specs.Courses.{Reports, Statuses, Nexts, status_of};
ghost use Rattle.attending.specs.Standing.{course_of};
ghost use Rattle.attending.specs.Preparing.{HasLast};

use alphabet::Report;
use disk::Disk;
use session::{SeatNumber, Session};
use std::alloc::Allocator;
use wire::{Answer, Fault, Receipt, Request, Status};

/// A session, and its only seat.
#[derive(Drop)]
pub(crate) struct Alone<D: Disk, A: Allocator> {
    pub(crate) session: Session<D, A>,
    seat: SeatNumber,
    ghost idle: { session.failed ≡ None → session.offered ≡ [] },
    ghost first: { seat ≡ 1 },
}

/// The first seat of a session.
fn first_seat() -> SeatNumber
    ensures { result ≡ 1 }
{
    match SeatNumber::new(1) {
        Some(seat) => seat,
        None => unreachable!(),
    }
}

/// One who reports alone to the session, in which nothing is offered.
pub(crate) fn alone_at<D: Disk, A: Allocator>(session: Session<D, A>) -> Alone<D, A>
    requires { session.offered ≡ [] }
    ensures { result.session ≡ session }
{
    Alone {
        session,
        seat: first_seat(),
    }
}

impl<D: Disk, A: Allocator> Alone<D, A> {
    /// The session.
    pub(crate) fn into_session(self) -> Session<D, A>
        ensures { result ≡ self.session }
    {
        let Alone { session, seat: _ } = self;
        session
    }
}

/// Judges the report as the next one of the seat.
fn judge<D: Disk, A: Allocator + Copy>(
    alone: &mut Alone<D, A>,
    report: &Report,
) -> Result<Receipt, Fault>
    requires { IsReport alone.old.session.spec.alphabet report.now }
    ensures spec { alone.new.session.spec ≡ alone.old.session.spec }
    ensures reports { Reports alone.old.session.spec (course_of alone.old.session.history alone.old.session.failed) report.now result
        (course_of alone.new.session.history alone.new.session.failed) }
    ensures last { OnOk result (alone.new.session.gone < length alone.new.session.history) }
{
    let number = alone.session.next_number(alone.seat);
    let _ = alone.session.history();
    match alone.session.report(alone.seat, number, 0, report) {
        Ok(entry) => Ok(Receipt {
            verdict: entry.verdict,
            place: alone.session.len() as u64,
        }),
        Err(fault) => Err(fault.plain()),
    }
}

/// The counts of the session, and whether it is closed.
fn status<D: Disk, A: Allocator>(session: &Session<D, A>) -> Status
    ensures { result ≡ status_of session.now.history (course_of session.now.history session.now.failed).closed }
{
    Status {
        summary: session.summary(),
        closed: session.is_closed(),
    }
}

/// Answers what a line asks for.
pub(crate) fn answer<D: Disk, A: Allocator + Copy>(
    alone: &mut Alone<D, A>,
    request: &Request,
) -> Answer
    requires { IsRequestBelow (event_count alone.old.session.spec.alphabet) request.now }
    ensures spec { alone.new.session.spec ≡ alone.old.session.spec }
    ensures answers { Answers (Reports alone.old.session.spec) Statuses (Nexts (bodies_of alone.old.session.spec.bodies)) TakesNoName
        (course_of alone.old.session.history alone.old.session.failed) request.now (course_of alone.new.session.history alone.new.session.failed) result }
    ensures below { IsAnswerBelow (event_count alone.old.session.spec.alphabet) result }
    ensures last { HasLast result alone.new.session.gone alone.new.session.history }
{
    match request {
        Request::Judge(report) => match judge(alone, report) {
            Ok(receipt) => Answer::Judged(receipt),
            Err(fault) => Answer::Fault(fault),
        },
        Request::Status => Answer::Status(status(&alone.session)),
        Request::Next => {
            let _ = alone.session.spec().bodies();
            Answer::Next(alone.session.next())
        }
        Request::Quit => Answer::Bye,
        Request::Identify(_) | Request::UnknownCommand => Answer::UnknownCommand,
        Request::UnknownEvent => Answer::UnknownEvent,
    }
}

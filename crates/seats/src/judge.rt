//! A seat as a judge.
ghost use Rattle.std.specs.Prelude.{◌≡◌, ◌≢◌, ◌<◌, Err, IsErrOf};
ghost use Rattle.alphabet.specs.Channels.{event_count};
ghost use Rattle.wire.specs.Replies.{noted};
ghost use Rattle.wire.specs.Talks.{Serves};
ghost use Rattle.seats.specs.Judges.{SeatReplies};

use alphabet::{Alphabet, EventSet, Report};
use left_right::Absorb;
use shared::{Board, Recorder, Seat, Share, Sharing, Summary};
use std::alloc::Allocator;
use std::sync::Wait;
use wire::{End, Fault, Judge, Receipt, Sink, Source, Status, Tally, WireError};

/// A seat, and the right to wait for the lock. It isn't `Drop`: end it by `end`.
pub struct SeatJudge<'a, J: Recorder, A: Allocator, N: Sharing<J>, R: Wait>
where
    Board<N, A>: Absorb<Summary, State = Summary>,
{
    pub seat: Seat<'a, J, A, N>,
    pub(crate) rt: &'a R,
}

impl<'a, J: Recorder, A: Allocator + Copy, N: Sharing<J>, R: Wait> SeatJudge<'a, J, A, N, R> {
    /// The judge of this seat. With it `wire::serve` answers the lines of a connection from a seat of a shared session. `rt` is the
    /// right to wait for the session's lock: a report and `next` wait for it, a status doesn't. Nothing is reported here, and the
    /// seat has seen what it had seen. Constant cost; takes no memory.
    ///
    /// ```text
    /// let mut judge = SeatJudge::new(rt, seat);
    /// let end = judge.serve(alloc, &mut reader, &mut writer, &alphabet, &mut tally);
    /// let share = judge.end();
    /// ```
    pub fn new(rt: &'a R, seat: Seat<'a, J, A, N>) -> SeatJudge<'a, J, A, N, R>
        ensures { result.seat.share ≡ seat.entry.share }
    {
        SeatJudge { seat, rt }
    }

    /// Ends the seat. Its share has what it knows and has done.
    pub fn end(self) -> Share<N, A>
        ensures { result ≡ self.entry.seat.share }
    {
        let Self { seat, rt: _ } = self;
        seat.end()
    }
}

impl<J: Recorder, A: Allocator + Copy, N: Sharing<J>, R: Wait> Judge for SeatJudge<'_, J, A, N, R> {
    ghost use Rattle.alphabet.specs.Channels.{event_count};
    ghost use Rattle.term.specs.Proc.{bodies_of};
    ghost use Rattle.seats.specs.Judges.{Reports, Statuses, Nexts};
    ghost use Rattle.wire.specs.Replies.{TakesNoName};

    ghost event_count = { λ _. event_count N.spec.alphabet };

    ghost reports = { λ j report answer k. Reports N.spec j.seat.share report answer k.seat.share };

    ghost statuses = { λ j status k. Statuses (bodies_of N.spec.bodies) j.seat.share status k.seat.share };

    ghost nexts = { λ j set k. Nexts (bodies_of N.spec.bodies) j.seat.share set k.seat.share };

    ghost identifies = { λ j seat answer k. TakesNoName j.seat.share seat answer k.seat.share };

    fn report(&mut self, report: Report) -> Result<Receipt, Fault> {
        match self.seat.report(self.rt, report) {
            Ok(receipt) => Ok(receipt),
            Err(fault) => Err(fault.plain()),
        }
    }

    fn report_all<B: Allocator>(
        &mut self,
        group: &[Report],
        answers: &mut Vec<Result<Receipt, Fault>, B>,
    ) {
        if group.is_empty() {
            return;
        }
        let mut rest = group;
        while !rest.is_empty() {
            let count = self.report_some(rest, answers);
            rest = &rest[count..];
        }
    }

    fn status(&mut self) -> Status {
        self.seat.status()
    }

    fn identify(&mut self, _seat: u16) -> Option<Result<u64, Fault>> {
        None
    }

    fn next(&mut self) -> EventSet {
        self.seat.next(self.rt)
    }
}

impl<J: Recorder, A: Allocator + Copy + Drop, N: Sharing<J>, R: Wait> SeatJudge<'_, J, A, N, R> {
    /// Answers the lines of the reader by lines to the writer, as `wire::serve` does, each report as the next one of this seat.
    /// The alphabet's events are those of the session's specification.
    pub fn serve<T: Source, W: Sink, B: Allocator>(
        &mut self,
        alloc: A,
        reader: &mut T,
        writer: &mut W,
        alphabet: &Alphabet<B>,
        tally: &mut Tally,
    ) -> Result<End, WireError>
        requires { event_count N.spec.alphabet ≡ event_count alphabet.now }
        ensures serves { Serves (SeatReplies N.spec alphabet.now)
            (record {
              before = noted self.old.seat.share tally.old;
              after = noted self.new.seat.share tally.new;
              unread_before = T.left reader.old;
              unread_after = T.left reader.new;
              written_before = W.contents writer.old;
              written_after = W.contents writer.new;
            }) result }
        ensures handed_on { W.has_handed_on writer.old → result ≢ Err WireError.Write → W.has_handed_on writer.new }
        ensures reader_failed { IsErrOf result WireError.Read → T.failures reader.old < T.failures reader.new }
        ensures writer_failed { IsErrOf result WireError.Write → W.failures writer.old < W.failures writer.new }
    {
        let rt = self.rt;
        wire::serve(rt, alloc, reader, writer, self, alphabet, tally)
    }
}

//! A seat of a service as a judge.
ghost use Rattle.std.specs.Prelude.{◌≡◌, ◌≢◌, ◌<◌, Err, IsErrOf};
ghost use Rattle.alphabet.specs.Channels.{event_count};
ghost use Rattle.wire.specs.Replies.{noted};
ghost use Rattle.wire.specs.Talks.{Serves};
ghost use Rattle.seats.specs.Judges.{ServiceReplies};

use crate::judge::SeatJudge;
use alphabet::{Alphabet, EventSet, Report};
use left_right::Absorb;
use shared::{Board, NameFault, Recorder, Seat, SeatNumber, Share, Sharing, Summary};
use std::alloc::Allocator;
use std::sync::Wait;
use wire::{End, Fault, Judge, Receipt, Sink, Source, Status, Tally, WireError};

/// A seat of a service, where a client may say by its first line (`I n`) that it is the seat n. It isn't `Drop`: end it by `end`.
pub struct ServiceJudge<'a, J: Recorder, A: Allocator, N: Sharing<J>, R: Wait>
where
    Board<N, A>: Absorb<Summary, State = Summary>,
{
    pub judge: SeatJudge<'a, J, A, N, R>,
}

impl<'a, J: Recorder, A: Allocator + Copy, N: Sharing<J>, R: Wait> ServiceJudge<'a, J, A, N, R> {
    /// The judge of this seat, as `SeatJudge::new` makes one.
    pub fn new(rt: &'a R, seat: Seat<'a, J, A, N>) -> ServiceJudge<'a, J, A, N, R>
        ensures { result.judge.seat.share ≡ seat.entry.share }
    {
        ServiceJudge {
            judge: SeatJudge::new(rt, seat),
        }
    }

    /// Ends the seat. Its share has what it knows and has done.
    pub fn end(self) -> Share<N, A>
        ensures { result ≡ self.entry.judge.seat.share }
    {
        let Self { judge } = self;
        judge.end()
    }
}

impl<J: Recorder, A: Allocator + Copy, N: Sharing<J>, R: Wait> Judge
    for ServiceJudge<'_, J, A, N, R> {
    ghost use Rattle.alphabet.specs.Channels.{event_count};
    ghost use Rattle.term.specs.Proc.{bodies_of};
    ghost use Rattle.seats.specs.Judges.{Reports, Statuses, Nexts, Identifies};

    ghost event_count = { λ _. event_count N.spec.alphabet };

    ghost reports = { λ j report answer k. Reports N.spec j.judge.seat.share report answer k.judge.seat.share };

    ghost statuses = { λ j status k. Statuses (bodies_of N.spec.bodies) j.judge.seat.share status k.judge.seat.share };

    ghost nexts = { λ j set k. Nexts (bodies_of N.spec.bodies) j.judge.seat.share set k.judge.seat.share };

    ghost identifies = { λ j name answer k. Identifies (bodies_of N.spec.bodies) j.judge.seat.share name answer k.judge.seat.share };

    fn report(&mut self, report: Report) -> Result<Receipt, Fault> {
        self.judge.report(report)
    }

    fn report_all<B: Allocator>(
        &mut self,
        group: &[Report],
        answers: &mut Vec<Result<Receipt, Fault>, B>,
    ) {
        if group.is_empty() {
            return;
        }
        self.judge.report_all(group, answers);
    }

    fn status(&mut self) -> Status {
        self.judge.status()
    }

    fn identify(&mut self, seat: u16) -> Option<Result<u64, Fault>> {
        let name = SeatNumber::new(u32::from(seat))?;
        let rt = self.judge.rt;
        match self.judge.seat.identify(rt, name) {
            Ok(count) => Some(Ok(u64::from(count))),
            Err(NameFault::Nameless) => None,
            Err(NameFault::Taken) => Some(Err(Fault::Taken)),
            Err(NameFault::Closed(_)) => Some(Err(Fault::Closed(()))),
        }
    }

    fn next(&mut self) -> EventSet {
        self.judge.next()
    }
}

impl<J: Recorder, A: Allocator + Copy + Drop, N: Sharing<J>, R: Wait> ServiceJudge<'_, J, A, N, R> {
    /// Answers the lines of the reader by lines to the writer, as `wire::serve` does, each report as the next one of this seat.
    /// The alphabet's events are those of the session's specification.
    pub fn serve<T: Source, W: Sink, B: Allocator>(
        &mut self,
        alloc: A,
        reader: &mut T,
        writer: &mut W,
        alphabet: &Alphabet<B>,
        tally: &mut Tally,
    ) -> Result<End, WireError>
        requires { event_count N.spec.alphabet ≡ event_count alphabet.now }
        ensures serves { Serves (ServiceReplies N.spec alphabet.now)
            (record {
              before = noted self.old.judge.seat.share tally.old;
              after = noted self.new.judge.seat.share tally.new;
              unread_before = T.left reader.old;
              unread_after = T.left reader.new;
              written_before = W.contents writer.old;
              written_after = W.contents writer.new;
            }) result }
        ensures handed_on { W.has_handed_on writer.old → result ≢ Err WireError.Write → W.has_handed_on writer.new }
        ensures reader_failed { IsErrOf result WireError.Read → T.failures reader.old < T.failures reader.new }
        ensures writer_failed { IsErrOf result WireError.Write → W.failures writer.old < W.failures writer.new }
    {
        let rt = self.judge.rt;
        wire::serve(rt, alloc, reader, writer, self, alphabet, tally)
    }
}

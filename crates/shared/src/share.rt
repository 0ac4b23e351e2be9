//! What a seat knows and has done.

ghost use Rattle.std.specs.Prelude.{◌≡◌, ◌↔◌, ◌≤◌, ◌<◌, ◌+◌, ◌^◌, ◌++◌, ◌∷◌, [], length, suc, true, false, ℕ, IsTrue, None, Some, IfOk, IfErr, IfSome, is_some, ◌⊎◌};
ghost use Rattle.alphabet.specs.declared.events.Event.{Event};
ghost use Rattle.alphabet.specs.EventSets.{member};
ghost use Rattle.term.specs.Meaning.{Trace};
ghost use Rattle.term.specs.Proc.{bodies_of, root};
ghost use Rattle.locked.specs.Reports.{IsReport};
ghost use Rattle.term.specs.Specs.{IsClosed};
ghost use Rattle.locked.specs.Entries.{calls, events, summary_of};
ghost use Rattle.locked.specs.Legal.{Legal, limit_of, seat_limit};
ghost use Rattle.locked.specs.SessionView.{IsOf};
ghost use Rattle.locked.specs.Beginnings.{StartsWith};
ghost use Rattle.shared.specs.Faults.{closes};
ghost use Rattle.shared.specs.Seats.{Answered, Refused, Named, IsWithin, answers_to};
ghost use Rattle.shared.specs.Turns.{CameTo};
ghost use Rattle.std.specs.List.{AllByRecursion};
ghost use Rattle.answers.specs.declared.fault.Fault.TheVariants as faults;

use crate::seat::Shared;
use crate::turns::{locked_for, named_at, take_turn};
use alphabet::{EventSet, Report};
use answers::{Receipt, Status};
use core::mem::replace_with;
use locked::{
    BoardReader, Counts, Failed, Fault, NameFault, Naming, Recorder, SeatNumber, Sharing, Summary,
    is_of, look,
};
use std::alloc::Allocator;
use std::marker::Model;
use std::sync::{MutexGuard, Wait, ledger};

/// The most reports of a seat in one turn.
pub const GROUP: usize = 1024;

/// What came of some reports in one turn: so many receipts for the first ones, with places one after the other from this place on; and why
/// the next report was refused, where not all have receipts.
#[derive(Clone, Copy, PartialEq, Eq, Debug)]
pub struct Round {
    pub count: u32,
    pub place: u64,
    pub fault: Option<Fault>,
}

impl Round {
    // No receipt, and the first report refused.
    fn refused(fault: Fault) -> Round
        ensures { (result.count ≡ 0) × (result.place ≡ 0) × (result.fault ≡ Some fault) }
    {
        Round {
            count: 0,
            place: 0,
            fault: Some(fault),
        }
    }
}

/// What a seat knows and has done: a settled history, how many of its entries it has seen, and how many of its own reports were answered,
/// with those that stood there when it came; and its reader of the board. Contracts see the seen history, and the answered reports
/// themselves: the first so many of the seat's entries in it.
#[derive(Drop)]
pub struct Share<N: Naming, A: Allocator> {
    number: SeatNumber,
    known: Counts<N>,
    seen: u64,
    /// What closed the session, where a report of this seat was answered so.
    failed: Option<Failed>,
    answered: u32,
    /// How many of these stood there when the seat came: none, but where it came back by its name.
    begun: u32,
    /// How many of its reports were offered, and never settled.
    lost: u32,
    part: ledger::Share<N>,
    board_reader: BoardReader<N, A>,
}

impl<N: Naming, A: Allocator> Model for Share<N, A> {
    ghost use Rattle.shared.specs.View.{SeatView};

    ghost Value = { SeatView };

    ghost use Rattle.std.specs.Prelude.{◌≡◌, ◌≤◌, ◌+◌, ◌++◌, length, [], take, None, is_some};
    ghost use Rattle.locked.specs.Entries.{calls};
    ghost use Rattle.locked.specs.Legal.{seat_limit};
    ghost use Rattle.shared.specs.declared.share.TheConstants.{GROUP};

    ghost view = { λ s. record {
      seat = s.number;
      seen = take s.seen (N.opening ++ s.known);
      mine = take s.answered (calls (take s.seen (N.opening ++ s.known)) s.number);
      begun = s.begun;
      closed = is_some s.failed;
    } };

    ghost invariant = { λ s. (s.seen ≤ length (N.opening ++ s.known))
        × (s.answered ≤ length (calls (take s.seen (N.opening ++ s.known)) s.number))
        × (length (calls N.opening s.number) ≤ s.begun)
        × (s.part.parts ≡ 1)
        × (s.part.amount + s.begun ≡ s.answered + s.lost)
        × (s.failed ≡ None → s.lost ≡ 0)
        × (s.lost ≤ GROUP)
        × (s.answered ≤ 4294967294)
        × (s.begun ≤ s.answered)
        × (s.number ≤ seat_limit N.spec.names) };
}

// 30 for the report whose entry is the first that the disk failed on, and 31 for all others.
fn closing(failed: Failed, seat: SeatNumber, number: u32, report: &Report) -> Fault
    ensures first { IsOf failed seat number report.now → result ≡ faults.Journal failed }
    ensures others { ((result ≡ faults.Journal failed) × IsOf failed seat number report.now) ⊎ (result ≡ faults.Closed failed) }
{
    if is_of(&failed.entry(), seat, number, report) {
        Fault::Journal(failed)
    } else {
        Fault::Closed(failed)
    }
}

// What closed the session, where the fault says that it is closed.
fn closing_of(fault: Fault) -> Option<Failed>
    ensures { is_some result ≡ closes fault }
{
    match fault {
        Fault::Journal(failed) | Fault::Closed(failed) => Some(failed),
        _ => None,
    }
}

// What closed the session, where there is a fault that says that it is closed.
fn closed_by(fault: Option<Fault>) -> Option<Failed>
    ensures none { fault ≡ None → result ≡ None }
    ensures some { IfSome fault (λ f. is_some result ≡ closes f) }
{
    match fault {
        Some(fault) => closing_of(fault),
        None => None,
    }
}

// How many entries of the settled list are seen: all where a report was refused after it, or those up to the last of so many from this place
// on.
fn seen_by<N: Naming>(counts: &Counts<N>, place: u64, count: u32, fault: Option<Fault>) -> u64
    requires { (0 < place) × (place + count ≤ 2 ^ 62 + 1) }
    ensures all { IfSome fault (λ _. result ≡ length (N.opening ++ counts.now)) }
    ensures last { fault ≡ None → result + 1 ≡ place + count }
{
    match fault {
        Some(_) => counts.summary().judged,
        None => place - 1 + u64::from(count),
    }
}

impl<N: Naming, A: Allocator> Share<N, A> {
    /// What a new seat knows.
    pub(crate) fn new(
        number: SeatNumber,
        known: Counts<N>,
        part: ledger::Share<N>,
        board_reader: BoardReader<N, A>,
    ) -> Share<N, A>
        requires fresh { calls (N.opening ++ known) number ≡ [] }
        requires within { number ≤ seat_limit N.spec.names }
        requires part { (part.parts ≡ 1) × (part.amount ≡ 0) }
        ensures { (result.mine ≡ []) × (result.begun ≡ 0) × (result.seen ≡ N.opening ++ known) × (result.seat ≡ number) × (result.closed ≡ false) }
    {
        Share {
            number,
            seen: known.summary().judged,
            known,
            failed: None,
            answered: 0,
            begun: 0,
            lost: 0,
            part,
            board_reader,
        }
    }

    // All of a settled list is seen, unless more was known.
    fn see(&mut self, counts: &Counts<N>)
        ensures seen { StartsWith self.new.seen self.old.seen }
        ensures same { (self.new.seat ≡ self.old.seat) × (self.new.mine ≡ self.old.mine) × (self.new.closed ≡ self.old.closed) × (self.new.begun ≡ self.old.begun) }
    {
        if !self.known.front().begins(counts.front()) {
            return;
        }
        self.seen = counts.summary().judged;
        self.known = counts.again();
    }

    // All that is known is seen.
    fn known(&mut self) -> Status
        ensures seen { StartsWith self.new.seen self.old.seen × Legal (bodies_of N.spec.bodies) self.new.seen }
        ensures summary { result.summary ≡ summary_of self.new.seen }
        ensures closed { result.closed ≡ self.old.closed }
        ensures same { (self.new.seat ≡ self.old.seat) × (self.new.mine ≡ self.old.mine) × (self.new.closed ≡ self.old.closed) × (self.new.begun ≡ self.old.begun) }
    {
        let _legal = self.known.front().len();
        self.seen = self.known.summary().judged;
        Status {
            summary: self.known.summary(),
            closed: self.failed.is_some(),
        }
    }

    // One look at the board.
    fn look(&mut self) -> Option<Counts<N>>
        ensures { self.new ≡ self.old }
    {
        replace_with(
            &mut self.board_reader,
            (),
            |board_reader, _| look(board_reader),
        )
    }

    /// One look at the board: the counts of a history that goes on from what was seen, and that is then what was seen. It waits for
    /// nobody.
    pub(crate) fn status(&mut self) -> Status
        ensures seen { StartsWith self.new.seen self.old.seen × Legal (bodies_of N.spec.bodies) self.new.seen }
        ensures summary { result.summary ≡ summary_of self.new.seen }
        ensures closed { result.closed ≡ self.old.closed }
        ensures same { (self.new.seat ≡ self.old.seat) × (self.new.mine ≡ self.old.mine) × (self.new.closed ≡ self.old.closed) × (self.new.begun ≡ self.old.begun) }
    {
        let Some(counts) = self.look() else {
            return self.known();
        };
        self.see(&counts);
        self.known()
    }

    /// Whether what was seen begins the whole list. Then its own reports begin those of its seat in the whole.
    pub(crate) fn is_within(&self, all: &Counts<N>) -> bool
        ensures { result ≡ true → IsWithin N.opening all.now self.now }
    {
        self.known.front().begins(all.front())
    }

    /// The number of the seat.
    pub fn number(&self) -> SeatNumber
        ensures { result ≡ self.now.seat }
    {
        self.number
    }

    /// How many of its reports were answered with a receipt since it came.
    pub(crate) fn answered(&self) -> u64
        ensures { result ≡ answers_to self.now }
    {
        u64::from(self.answered - self.begun)
    }

    /// Whether the seat has no entry, and none of its reports is lost.
    pub(crate) fn is_unused(&self) -> bool {
        self.answered == 0 && self.lost == 0
    }

    /// Its part of the ledger.
    pub(crate) fn into_part(self) -> ledger::Share<N>
        ensures parts { result.parts ≡ 1 }
        ensures amount { self.closed ≡ false → result.amount ≡ answers_to self }
        ensures least { answers_to self ≤ result.amount }
    {
        let Self { part, .. } = self;
        part
    }
}

impl<N: Naming, A: Allocator + Copy> Share<N, A> {
    /// Some reports, one after the other, in one turn under the lock: judged up to the first that is refused, and answered once their entries
    /// are settled. The first verdicts are then those of the receipts.
    pub(crate) fn turn<J: Recorder, R: Wait>(
        &mut self,
        rt: &R,
        shared: &Shared<J, A, N>,
        reports: &[Report],
        verdicts: &mut [bool],
    ) -> Round
    where
        N: Sharing<J>,
        requires reports { AllByRecursion (IsReport N.spec.alphabet) reports.now }
        requires count { (0 < length reports.now) × (length reports.now ≤ GROUP) × (length reports.now ≤ length verdicts.old) }
        ensures count { (result.count ≤ length reports.now) × (result.place + result.count ≤ 2 ^ 62 + 1) }
        ensures limit { result.place + result.count ≤ suc (limit_of N.spec.names) }
        ensures left { IfSome result.fault (λ _. result.count < length reports.now) }
        ensures came { CameTo N.spec self.old reports.now verdicts.new result.count result.place result.fault self.new }
        ensures room { length verdicts.new ≡ length verdicts.old }
    {
        let _legal = self.known.front().len();
        if let Some(failed) = self.failed {
            return Round::refused(Fault::Closed(failed));
        }
        let number = self.answered + 1;
        match take_turn(
            rt,
            shared,
            &self.known,
            self.number,
            number,
            reports,
            verdicts,
            &mut self.part,
        ) {
            Ok(turn) => {
                let _legal = turn.counts.front().len();
                let round = Round {
                    count: turn.count,
                    place: turn.place,
                    fault: turn.fault,
                };
                self.answered += turn.count;
                self.seen = seen_by(&turn.counts, turn.place, turn.count, turn.fault);
                self.failed = closed_by(turn.fault);
                self.known = turn.counts;
                round
            }
            Err((failed, lost)) => {
                self.lost = lost;
                self.failed = Some(failed);
                Round::refused(closing(failed, self.number, number, &reports[0]))
            }
        }
    }

    /// A report: judged under the lock, and answered once it is settled.
    pub(crate) fn report<J: Recorder, R: Wait>(
        &mut self,
        rt: &R,
        shared: &Shared<J, A, N>,
        report: Report,
    ) -> Result<Receipt, Fault>
    where
        N: Sharing<J>,
        requires { IsReport N.spec.alphabet report }
        ensures answered { IfOk result (λ r. Answered (bodies_of N.spec.bodies) self.old self.new report r.verdict r.place) }
        ensures refused { IfErr result (λ f. Refused N.spec self.old self.new report f) }
    {
        let mut verdicts = [false];
        let round = self.turn(rt, shared, &[report], &mut verdicts);
        match round.fault {
            Some(fault) => Err(fault),
            None => Ok(Receipt {
                verdict: verdicts[0],
                place: round.place,
            }),
        }
    }

    /// Takes a name, where the seat has none and has reported nothing, and no connection has that name. The answer is how many entries of the
    /// name stand in the settled history, which is then what was seen.
    pub(crate) fn identify<J: Recorder, R: Wait>(
        &mut self,
        rt: &R,
        shared: &Shared<J, A, N>,
        name: SeatNumber,
    ) -> Result<u32, NameFault>
    where
        N: Sharing<J>,
        ensures named { IfOk result (λ count. Named (bodies_of N.spec.bodies) self.old self.new name count) }
        ensures unnamed { IfErr result (λ _. self.new ≡ self.old) }
    {
        if let Some(failed) = self.failed {
            return Err(NameFault::Closed(failed));
        }
        if self.answered != 0 {
            return Err(NameFault::Nameless);
        }
        match named_at(rt, shared, &self.known, name, self.number) {
            Ok((count, counts)) => {
                let _legal = counts.front().len();
                self.number = name;
                self.begun = count;
                self.answered = count;
                self.seen = counts.summary().judged;
                self.known = counts;
                Ok(count)
            }
            Err(fault) => Err(fault),
        }
    }

    /// The events that may come next after the settled history, which is then what was seen.
    pub(crate) fn next<J: Recorder, R: Wait>(
        &mut self,
        rt: &R,
        shared: &Shared<J, A, N>,
    ) -> EventSet
    where
        N: Sharing<J>,
        ensures next { (x : Event) → IsTrue (member result x) ↔ Trace (bodies_of N.spec.bodies) root (events self.new.seen ++ x ∷ []) }
        ensures seen { StartsWith self.new.seen self.old.seen × Legal (bodies_of N.spec.bodies) self.new.seen }
        ensures same { (self.new.seat ≡ self.old.seat) × (self.new.mine ≡ self.old.mine) × (self.new.closed ≡ self.old.closed) × (self.new.begun ≡ self.old.begun) }
        ensures closed { IsClosed N.spec }
    {
        let locked = locked_for(rt, shared, &self.known);
        let counts = locked.list();
        let next = locked.next();
        MutexGuard::unlock(locked);
        let _legal = counts.front().len();
        self.seen = counts.summary().judged;
        self.known = counts;
        next
    }
}

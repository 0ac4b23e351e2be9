//! A shared session, and the seats at it.

ghost use Rattle.std.specs.Prelude.{◌≡◌, ◌↔◌, ◌≤◌, ◌<◌, ◌+◌, ◌^◌, ◌++◌, ◌∷◌, [], length, suc, false, None, IsTrue, IfOk, IfErr, IfSome};
ghost use Rattle.alphabet.specs.declared.events.Event.{Event};
ghost use Rattle.alphabet.specs.EventSets.{member};
ghost use Rattle.term.specs.Meaning.{Trace};
ghost use Rattle.term.specs.Proc.{bodies_of, root};
ghost use Rattle.term.specs.Specs.{IsClosed};
ghost use Rattle.locked.specs.Reports.{IsReport};
ghost use Rattle.locked.specs.Entries.{events, summary_of};
ghost use Rattle.locked.specs.Legal.{Legal, limit_of};
ghost use Rattle.locked.specs.Beginnings.{StartsWith};
ghost use Rattle.shared.specs.Seats.{Answered, Refused, Named};
ghost use Rattle.shared.specs.Turns.{CameTo};
ghost use Rattle.std.specs.List.{AllByRecursion};
ghost use Rattle.answers.specs.declared.fault.Fault.TheVariants as faults;
ghost use Rattle.answers.specs.Faults.{IsNoSeat};

use crate::share::{GROUP, Round, Share};
use alphabet::{EventSet, Report};
use answers::{Receipt, Status};
use left_right::Absorb;
use locked::{
    Board, Fault, Locked, NameFault, Opened, Recorder, SeatNumber, SessionOn, Sharing, Summary,
};
use std::alloc::Allocator;
use std::sync::atomic::AtomicU64;
use std::sync::ledger::Blank;
use std::sync::{Condvar, Mutex, MutexGuard, Wait};

/// A session that seats share. It isn't `Drop`: end it by `finish`.
pub struct Shared<J: Recorder, A: Allocator, N: Sharing<J>>
where
    Board<N, A>: Absorb<Summary, State = Summary>,
{
    pub(crate) locked: Mutex<Locked<J, A, N>>,
    // How many threads wait for the lock to judge.
    pub(crate) judging: AtomicU64,
    // How many have judged since the last settling, and how many had between the two before.
    pub(crate) turns: AtomicU64,
    pub(crate) crowd: AtomicU64,
    // Those sleep here whose entries are offered and not settled.
    pub(crate) woken: Condvar,
}

/// A seat at a shared session. It isn't `Drop`: end it by `end`. What may be dropped, and moved to a thread, is its `Share`.
pub struct Seat<'a, J: Recorder, A: Allocator, N: Sharing<J>>
where
    Board<N, A>: Absorb<Summary, State = Summary>,
{
    pub(crate) shared: &'a Shared<J, A, N>,
    pub share: Share<N, A>,
}

impl<J: Recorder + Drop, A: Allocator + Copy, N: Sharing<J>> Shared<J, A, N> {
    /// A session that up to so many seats share, to which nothing is offered. Where memory is refused, the session is gone, and its file stays.
    pub fn new<R: Wait>(
        rt: &R,
        alloc: A,
        session: SessionOn<J, A>,
        opened: Opened,
        blank: Blank,
        places: u64,
    ) -> Result<Shared<J, A, N>, Fault>
        requires story { (session.spec ≡ N.spec) × (session.history ≡ N.opening) × (session.offered ≡ []) }
        requires before { IfSome N.before (λ before. before ≡ session) }
        requires book { opened.seen.book ≡ N.book }
        requires ledger { (blank.name ≡ N.name) × (blank.parts ≡ N.parts) × (N.all ≡ N.parts) }
        requires places { (0 < places) × (places ≤ 64) × (places < N.all) }
        ensures fault { IfErr result (λ f. f ≡ faults.Memory) }
    {
        match Locked::new(rt, alloc, session, opened, blank, places) {
            Ok(locked) => Ok(Shared {
                locked: Mutex::new(locked),
                judging: AtomicU64::new(0),
                turns: AtomicU64::new(0),
                crowd: AtomicU64::new(0),
                woken: Condvar::new(),
            }),
            Err(fault) => Err(fault),
        }
    }
}

impl<J: Recorder, A: Allocator + Copy, N: Sharing<J>> Shared<J, A, N> {
    /// Gives a seat, which has seen the history as it stands. A seat takes no memory of the allocator.
    ///
    /// The faults are asked for in this order: `Closed`, `Seats`, `Reader`. After `Reader` a seat number is used up.
    pub fn seat<R: Wait>(&self, rt: &R, _alloc: A) -> Result<Seat<'_, J, A, N>, Fault>
        ensures seat { IfOk result (λ s. (s.share.mine ≡ []) × (s.share.closed ≡ false) × StartsWith s.share.seen N.opening) }
        ensures begun { IfOk result (λ s. s.share.begun ≡ 0) }
        ensures why { IfErr result IsNoSeat }
    {
        let mut locked = self.locked.lock(rt);
        let given = locked.seat();
        MutexGuard::unlock(locked);
        let (number, known, part, board_reader) = given?;
        Ok(Seat {
            shared: self,
            share: Share::new(number, known, part, board_reader),
        })
    }

    /// The seat of a share again.
    pub fn again(&self, share: Share<N, A>) -> Seat<'_, J, A, N>
        ensures { result.share ≡ share }
    {
        Seat {
            shared: self,
            share,
        }
    }
}

impl<J: Recorder, A: Allocator + Copy, N: Sharing<J>> Seat<'_, J, A, N> {
    /// Reports. The receipt has the verdict and the place of the report's entry in the history.
    ///
    /// The faults: `Depth` or `States` where judging met that limit; `History` at 1,000,000 entries, or where names are kept as their bodies at 2^62, or at
    /// 4,294,967,294 of this seat; `Turn` where the history has
    /// other calls of this seat than its own; `Journal` where the disk failed, which closes the session; `Closed` from then on;
    /// `Memory`.
    pub fn report<R: Wait>(&mut self, rt: &R, report: Report) -> Result<Receipt, Fault>
        requires { IsReport N.spec.alphabet report }
        ensures answered { IfOk result (λ r. Answered (bodies_of N.spec.bodies) self.old.share self.new.share report r.verdict r.place) }
        ensures refused { IfErr result (λ f. Refused N.spec self.old.share self.new.share report f) }
    {
        self.share.report(rt, self.shared, report)
    }

    /// Reports one after the other in one turn, up to the first that is refused. All of their entries that wait for the disk wait for it
    /// together. The first of `verdicts` are then those of the receipts. The faults are those of `report`.
    pub fn turn<R: Wait>(&mut self, rt: &R, reports: &[Report], verdicts: &mut [bool]) -> Round
        requires reports { AllByRecursion (IsReport N.spec.alphabet) reports.now }
        requires count { (0 < length reports.now) × (length reports.now ≤ GROUP) × (length reports.now ≤ length verdicts.old) }
        ensures count { (result.count ≤ length reports.now) × (result.place + result.count ≤ 2 ^ 62 + 1) }
        ensures limit { result.place + result.count ≤ suc (limit_of N.spec.names) }
        ensures left { IfSome result.fault (λ _. result.count < length reports.now) }
        ensures came { CameTo N.spec self.old.share reports.now verdicts.new result.count result.place result.fault self.new.share }
        ensures room { length verdicts.new ≡ length verdicts.old }
    {
        self.share.turn(rt, self.shared, reports, verdicts)
    }

    /// Takes a name, in a service: a number from 1 to 1,000 that no other seat with a connection has, where this one has no name and has
    /// reported nothing. The answer is how many reports of the name stand in the history, once all that is offered is settled: these
    /// are then the seat's own, which it goes on from. A seat that gets no name stays as it is.
    pub fn identify<R: Wait>(&mut self, rt: &R, name: SeatNumber) -> Result<u32, NameFault>
        ensures named { IfOk result (λ count. Named (bodies_of N.spec.bodies) self.old.share self.new.share name count) }
        ensures unnamed { IfErr result (λ _. self.new.share ≡ self.old.share) }
    {
        self.share.identify(rt, self.shared, name)
    }

    /// The events that may come next, tick among them, after the history as it stands, which is then what was seen.
    pub fn next<R: Wait>(&mut self, rt: &R) -> EventSet
        ensures next { (x : Event) → IsTrue (member result x) ↔ Trace (bodies_of N.spec.bodies) root (events self.new.share.seen ++ x ∷ []) }
        ensures seen { StartsWith self.new.share.seen self.old.share.seen × Legal (bodies_of N.spec.bodies) self.new.share.seen }
        ensures same { (self.new.share.seat ≡ self.old.share.seat) × (self.new.share.mine ≡ self.old.share.mine) × (self.new.share.closed ≡ self.old.share.closed) × (self.new.share.begun ≡ self.old.share.begun) }
        ensures closed { IsClosed N.spec }
    {
        self.share.next(rt, self.shared)
    }

    /// The counts of a history that goes on from what was seen, and that is then what was seen.
    ///
    /// It waits for nobody, and takes no memory. Where the board gives no look, the counts are those of what was seen before.
    pub fn status(&mut self) -> Status
        ensures seen { StartsWith self.new.share.seen self.old.share.seen × Legal (bodies_of N.spec.bodies) self.new.share.seen }
        ensures summary { result.summary ≡ summary_of self.new.share.seen }
        ensures closed { result.closed ≡ self.old.share.closed }
        ensures same { (self.new.share.seat ≡ self.old.share.seat) × (self.new.share.mine ≡ self.old.share.mine) × (self.new.share.closed ≡ self.old.share.closed) × (self.new.share.begun ≡ self.old.share.begun) }
    {
        self.share.status()
    }

    /// Ends the seat. Its share has what it knows and has done.
    pub fn end(self) -> Share<N, A>
        ensures { result ≡ self.entry.share }
    {
        let Self { shared: _, share } = self;
        share
    }
}

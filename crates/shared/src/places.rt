//! The places of a service: seats that come and go.

ghost use Rattle.std.specs.Prelude.{◌≡◌, ◌≤◌, ◌<◌, ◌+◌, [], false, IfOk, IfErr, IfSome};
ghost use Rattle.locked.specs.Beginnings.{StartsWith};
ghost use Rattle.shared.specs.Seats.{answers_to};
ghost use Rattle.answers.specs.declared.fault.Fault.TheVariants as faults;
ghost use Rattle.answers.specs.Faults.{IsNoSeat};

use crate::seat::{Seat, Shared};
use crate::share::Share;
use crate::turns::lock;
use locked::{Fault, Locked, Naming, Opened, Recorder, SeatNumber, SessionOn, Sharing};
use std::alloc::Allocator;
use std::marker::Model;
use std::sync::atomic::AtomicU64;
use std::sync::ledger::Blank;
use std::sync::{Condvar, Mutex, MutexGuard, Wait, ledger};

/// The places of a service, which one thread has: those that are free, and how many reports were answered to the seats that have left.
/// Contracts see both numbers. A place that isn't free is a part of the ledger that a seat has: so there are never more seats than places.
#[derive(Drop)]
pub struct Places<N: Naming> {
    pub(crate) free: u64,
    pub(crate) receipts: u64,
    /// A part for each place that is free, and one for what was answered.
    pub(crate) part: ledger::Share<N>,
}

impl<N: Naming> Model for Places<N> {
    ghost use Rattle.std.specs.Prelude.{◌≡◌, ◌≤◌, ◌<◌, ◌+◌, ◌^◌};
    ghost use Rattle.shared.specs.View.{PlacesView};

    ghost Value = { PlacesView };

    ghost view = { λ p. record { free = p.free; receipts = p.receipts } };

    ghost invariant = { λ p. (p.part.parts ≡ p.free + 1)
        × (p.receipts ≤ p.part.amount)
        × (p.receipts ≤ 2 ^ 62)
        × (p.free < N.all)
        × (N.all ≤ 66) };
}

impl<N: Naming> Places<N> {
    /// So many free places, of which a part is cut from the ledger.
    pub(crate) fn new(free: u64, part: ledger::Share<N>) -> Places<N>
        requires part { (part.parts ≡ free + 1) × (part.amount ≡ 0) }
        requires all { (free < N.all) × (N.all ≤ 66) }
        ensures { (result.free ≡ free) × (result.receipts ≡ 0) }
    {
        Places {
            free,
            receipts: 0,
            part,
        }
    }

    /// How many places are free.
    pub fn free(&self) -> u64
        ensures { result ≡ self.now.free }
    {
        self.free
    }

    /// How many reports were answered with a receipt to the seats that have left.
    pub fn receipts(&self) -> u64
        ensures { result ≡ self.now.receipts }
    {
        self.receipts
    }

    // Takes a place.
    fn take(&mut self) -> ledger::Share<N>
        requires { 0 < self.old.free }
        ensures free { self.new.free + 1 ≡ self.old.free }
        ensures receipts { self.new.receipts ≡ self.old.receipts }
        ensures part { (result.parts ≡ 1) × (result.amount ≡ 0) }
    {
        self.free -= 1;
        self.part.split_off(1, 0)
    }

    // Takes a place back from a seat that has this number and was answered so often.
    fn take_back<J: Recorder, A: Allocator + Copy>(
        &mut self,
        locked: &mut Locked<J, A, N>,
        seat: SeatNumber,
        unused: bool,
        answered: u64,
        part: ledger::Share<N>,
    )
    where
        N: Sharing<J>,
        requires all { N.all ≡ N.parts }
        requires part { (part.parts ≡ 1) × (answered ≤ part.amount) }
        ensures free { self.new.free ≡ self.old.free + 1 }
        ensures receipts { self.new.receipts ≡ self.old.receipts + answered }
    {
        self.part.merge(part);
        locked.leave(seat, unused, &mut self.part);
        self.free += 1;
        self.receipts += answered;
    }
}

impl<J: Recorder + Drop, A: Allocator + Copy, N: Sharing<J>> Shared<J, A, N> {
    /// A service: a session that up to so many seats share at one time, to which nothing is offered, with names from 1 to 1,000; and its places,
    /// which are all free. Where memory is refused, the session is gone, and its file stays.
    pub fn service<R: Wait>(
        rt: &R,
        alloc: A,
        session: SessionOn<J, A>,
        opened: Opened,
        blank: Blank,
        places: u64,
    ) -> Result<(Shared<J, A, N>, Places<N>), Fault>
        requires story { (session.spec ≡ N.spec) × (session.history ≡ N.opening) × (session.offered ≡ []) }
        requires before { IfSome N.before (λ before. before ≡ session) }
        requires book { opened.seen.book ≡ N.book }
        requires ledger { (blank.name ≡ N.name) × (blank.parts ≡ N.parts) × (N.all ≡ N.parts) }
        requires places { (0 < places) × (places ≤ 64) × (N.all ≡ places + 2) }
        ensures places { IfOk result (λ s. (s.1.free ≡ places) × (s.1.receipts ≡ 0)) }
        ensures fault { IfErr result (λ f. f ≡ faults.Memory) }
    {
        match Locked::service(rt, alloc, session, opened, blank, places) {
            Ok((locked, part)) => Ok((
                Shared {
                    locked: Mutex::new(locked),
                    judging: AtomicU64::new(0),
                    turns: AtomicU64::new(0),
                    crowd: AtomicU64::new(0),
                    woken: Condvar::new(),
                },
                Places::new(places, part),
            )),
            Err(fault) => Err(fault),
        }
    }
}

impl<J: Recorder, A: Allocator + Copy, N: Sharing<J>> Shared<J, A, N> {
    /// Gives a free place to a seat without a name, which has seen the history as it stands. Its number is above 1,000. A seat takes no memory
    /// of the allocator.
    ///
    /// The faults: `Seats` where no place is free; then `Closed`, `Seats` where no number is left, and `Reader`. The places stay then.
    pub fn take_place<R: Wait>(
        &self,
        rt: &R,
        places: &mut Places<N>,
    ) -> Result<Seat<'_, J, A, N>, Fault>
        ensures seat { IfOk result (λ s. (s.share.mine ≡ []) × (s.share.closed ≡ false) × StartsWith s.share.seen N.opening) }
        ensures begun { IfOk result (λ s. s.share.begun ≡ 0) }
        ensures taken { IfOk result (λ _. places.new.free + 1 ≡ places.old.free) }
        ensures stay { IfErr result (λ _. places.new.free ≡ places.old.free) }
        ensures why { IfErr result IsNoSeat }
        ensures receipts { places.new.receipts ≡ places.old.receipts }
    {
        if places.free() == 0 {
            return Err(Fault::Seats);
        }
        let mut locked = lock(rt, &self.locked);
        let admitted = locked.admit();
        MutexGuard::unlock(locked);
        match admitted {
            Ok((number, known, board_reader)) => Ok(Seat {
                shared: self,
                share: Share::new(number, known, places.take(), board_reader),
            }),
            Err(fault) => Err(fault),
        }
    }

    /// A seat leaves. Its place is free again, its name too, and its reader of the board; the reports that were answered to it are counted.
    pub fn leave<R: Wait>(&self, rt: &R, share: Share<N, A>, places: &mut Places<N>)
        requires { N.all ≡ N.parts }
        ensures free { places.new.free ≡ places.old.free + 1 }
        ensures receipts { places.new.receipts ≡ places.old.receipts + answers_to share }
    {
        let answered = share.answered();
        let number = share.number();
        let unused = share.is_unused();
        // The reader goes first, so that its place on the board is free when the seat's is.
        let part = share.into_part();
        let mut locked = lock(rt, &self.locked);
        places.take_back(&mut locked, number, unused, answered, part);
        MutexGuard::unlock(locked);
    }
}

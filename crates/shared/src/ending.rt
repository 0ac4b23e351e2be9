//! How a shared session ends.

ghost use Rattle.std.specs.Prelude.{◌≡◌, ◌≤◌, ◌<◌, ◌+◌, ◌^◌, ◌++◌, ◌∷◌, [], suc, length, true, ℕ, List, IfSome, IsSome, MatchOption};
ghost use Rattle.term.specs.Proc.{bodies_of};
ghost use Rattle.locked.specs.Entry.{Entry};
ghost use Rattle.locked.specs.Lasting.{Lasts};
ghost use Rattle.locked.specs.Legal.{Legal};
ghost use Rattle.locked.specs.SessionView.{IsRecorded};
ghost use Rattle.locked.specs.Beginnings.{StartsWith};
ghost use Rattle.shared.specs.Crashes.{AllLeft};
ghost use Rattle.shared.specs.Seats.{AllWithin, AllTold, receipts, apart, all_open, is_new};

use crate::places::Places;
use crate::seat::Shared;
use crate::share::Share;
use locked::{Counts, Naming, Recorder, SeatNumber, SessionOn, Sharing, close};
use std::alloc::Allocator;
use std::sync::ledger::Book;
use std::sync::{Wait, ledger};

impl<J: Recorder, A: Allocator + Copy, N: Sharing<J>> Shared<J, A, N> {
    /// Ends the board. It gives back the session, and how many reports were answered with a receipt: `None` where the shares aren't
    /// as many as the seats given, or two have one seat number.
    ///
    /// All seats have ended, since a seat borrows the shared session. So there is nobody to wait for, although the call may wait.
    pub fn finish<R: Wait>(
        self,
        rt: &R,
        shares: Vec<Share<N, A>, A>,
    ) -> (SessionOn<J, A>, Option<u64>)
        requires { N.all ≡ N.parts }
        ensures session { (result.0.spec ≡ N.spec) × StartsWith result.0.history N.opening × Legal (bodies_of N.spec.bodies) result.0.history }

        // The journal is then one for the same script and root, and so is each content that a crash has left since the session began to be shared.
        ensures lasts { IfSome N.before (λ before. Lasts J.recording before result.0) }
        ensures counted { IfSome result.1 (λ n. (length result.0.history ≡ length N.opening + n) × (n ≡ receipts shares.items)) }
        ensures told { IfSome result.1 (λ n. AllTold result.0.history shares.items) }
        ensures crash { (script root : List ℕ) → IsRecorded J.recording script root result.0
            → IfSome result.1 (λ n. AllLeft J.recording script root result.0 shares.items) }

        // The ledger has a part more than there are places at least. So where the shares have all other parts, they are all.
        ensures whole { suc (length shares.items) ≡ N.all → apart shares.items ≡ true → IsSome result.1 }
    {
        let Shared {
            locked,
            judging: _,
            turns: _,
            crowd: _,
            woken: _,
        } = self;
        let (session, settled, book, rest, given) = close(rt, locked.into_inner());
        let _ = session.history();
        let count = audited(rt, &settled, book, rest, given, shares);
        (session, count)
    }
}

impl<J: Recorder, A: Allocator + Copy, N: Sharing<J>> Shared<J, A, N> {
    /// Ends a service. It gives back the session, and how many reports were answered with a receipt, to the seats that have left and to those
    /// of these shares: `None` where a seat hasn't left and its share isn't among them.
    ///
    /// All seats have ended, since a seat borrows the shared session. So there is nobody to wait for, although the call may wait.
    pub fn finish_service<R: Wait>(
        self,
        rt: &R,
        shares: Vec<Share<N, A>, A>,
        places: Places<N>,
    ) -> (SessionOn<J, A>, Option<u64>)
        requires { N.all ≡ N.parts }
        ensures session { (result.0.spec ≡ N.spec) × StartsWith result.0.history N.opening × Legal (bodies_of N.spec.bodies) result.0.history }

        // The journal is then one for the same script and root, and so is each content that a crash has left since the session began to be shared.
        ensures lasts { IfSome N.before (λ before. Lasts J.recording before result.0) }
        ensures counted { IfSome result.1 (λ n. (length result.0.history ≡ length N.opening + n) × (n ≡ places.receipts + receipts shares.items)) }
        ensures within { IfSome result.1 (λ n. (all : List Entry) × (result.0.history ≡ N.opening ++ all) × AllWithin N.opening all shares.items) }
        ensures crash { (script root : List ℕ) → IsRecorded J.recording script root result.0
            → IfSome result.1 (λ n. AllLeft J.recording script root result.0 shares.items) }

        // The ledger has a part for each place, one for what lies under the lock and one for the receipts of the seats that left. So where the
        // shares and the free places have all others, they are all.
        ensures whole { places.free + length shares.items + 2 ≡ N.all → IsSome result.1 }
    {
        let Shared {
            locked,
            judging: _,
            turns: _,
            crowd: _,
            woken: _,
        } = self;
        let (session, settled, book, rest, given) = close(rt, locked.into_inner());
        let _ = session.history();
        let count = audited_with(rt, &settled, book, rest, given, shares, places);
        (session, count)
    }
}

// How many reports were answered with a receipt, by the whole list: `None` where the shares and the free places aren't as many as the places
// given.
fn audited_with<N: Naming, A: Allocator, R: Wait>(
    rt: &R,
    all: &Counts<N>,
    book: Book<N>,
    rest: ledger::Share<N>,
    given: u64,
    shares: Vec<Share<N, A>, A>,
    places: Places<N>,
) -> Option<u64>
    requires parts { (N.all ≡ N.parts) × (rest.parts + given ≡ N.all) × (given < N.all) }
    ensures told { IfSome result (λ n. AllWithin N.opening all.now shares.items × (n ≡ length all.now) × (n ≡ places.receipts + receipts shares.items)) }

    // The ledger has one part more than that. So where the shares and the places have all others, they are all.
    ensures whole { places.free + length shares.items + 2 ≡ N.all → IsSome result }
{
    let mut book = book;
    let mut rest = rest;
    let Places {
        free,
        receipts,
        part,
    } = places;
    let seats = shares.as_slice();
    let count = seats.len() as u64 + free + 1;
    await_within(rt, all, seats);
    if count != given {
        rest.merge(part);
        gather(&mut rest, shares);
        return None;
    }
    let answered = await_told(rt, all, seats, receipts);
    rest.merge(part);
    gather(&mut rest, shares);
    book.audit(&mut rest);
    Some(answered)
}

// How many reports were answered with a receipt, by the whole list: `None` where the shares aren't as many as the seats given, or two
// have one seat number.
fn audited<N: Naming, A: Allocator, R: Wait>(
    rt: &R,
    all: &Counts<N>,
    book: Book<N>,
    rest: ledger::Share<N>,
    given: u64,
    shares: Vec<Share<N, A>, A>,
) -> Option<u64>
    requires parts { (N.all ≡ N.parts) × (rest.parts + given ≡ N.all) × (given < N.all) }
    requires receipts { rest.amount ≡ 0 }
    ensures told { IfSome result (λ n. AllWithin N.opening all.now shares.items × (apart shares.items ≡ true) × (n ≡ length all.now) × (n ≡ receipts shares.items)) }

    // The ledger has a part more than there are places at least. So where the shares have all other parts, they are all.
    ensures whole { suc (length shares.items) ≡ N.all → apart shares.items ≡ true → IsSome result }
{
    let mut book = book;
    let mut rest = rest;
    let seats = shares.as_slice();
    let count = seats.len() as u64;
    let alone = are_apart(seats);
    await_within(rt, all, seats);
    if count != given || !alone {
        gather(&mut rest, shares);
        return None;
    }
    let answered = await_told(rt, all, seats, 0);
    gather(&mut rest, shares);
    book.audit(&mut rest);
    Some(answered)
}

// Looks until as many reports were answered as the list has entries, to these seats and so many to those that have left. Each entry that is
// settled is answered before its seat reports again or ends, so the first look ends it.
fn await_told<N: Naming, A: Allocator, R: Wait>(
    rt: &R,
    all: &Counts<N>,
    shares: &[Share<N, A>],
    left: u64,
) -> u64
    ensures { (result ≡ length all.now) × (result ≡ left + receipts shares.now) }
{
    let len = all.front().len();
    for _ in rt.forever() {
        if left <= len && receipts_of(shares) == Some(len - left) {
            return len;
        }
    }
    unreachable!()
}

// How many reports were answered with a receipt. `None` where that is no u64.
fn receipts_of<N: Naming, A: Allocator>(shares: &[Share<N, A>]) -> Option<u64>
    ensures { MatchOption result (2 ^ 64 ≤ receipts shares.now) (λ n. n ≡ receipts shares.now) }
{
    match shares {
        [] => Some(0),
        [first, rest @ ..] => first.answered().checked_add(receipts_of(rest)?),
    }
}

// Whether no two have one seat number.
// It visits each pair: there are 64 at most.
fn are_apart<N: Naming, A: Allocator>(shares: &[Share<N, A>]) -> bool
    ensures { result ≡ apart shares.now }
{
    match shares {
        [] => true,
        [first, rest @ ..] => is_new_in(first.number(), rest) && are_apart(rest),
    }
}

// Whether none has this seat number.
fn is_new_in<N: Naming, A: Allocator>(number: SeatNumber, shares: &[Share<N, A>]) -> bool
    ensures { result ≡ is_new number shares.now }
{
    match shares {
        [] => true,
        [first, rest @ ..] => first.number() != number && is_new_in(number, rest),
    }
}

// Whether what each has seen begins the whole list.
fn are_within<N: Naming, A: Allocator>(all: &Counts<N>, shares: &[Share<N, A>]) -> bool
    ensures { result ≡ true → AllWithin N.opening all.now shares.now }
{
    match shares {
        [] => true,
        [first, rest @ ..] => first.is_within(all) && are_within(all, rest),
    }
}

// Looks until each has seen no more than the whole list. No seat has seen more than that, so the first look ends it.
fn await_within<N: Naming, A: Allocator, R: Wait>(rt: &R, all: &Counts<N>, shares: &[Share<N, A>])
    ensures { AllWithin N.opening all.now shares.now }
{
    for _ in rt.forever() {
        if are_within(all, shares) {
            return;
        }
    }
    unreachable!()
}

// Puts all parts of the ledger together. It has no more than all.
fn gather<N: Naming, A: Allocator>(rest: &mut ledger::Share<N>, shares: Vec<Share<N, A>, A>)
    requires { rest.old.parts ≤ N.parts }
    ensures parts { rest.new.parts ≡ rest.old.parts + length shares.items }
    ensures bound { rest.new.parts ≤ N.parts }
    ensures amount { all_open shares.items ≡ true → rest.new.amount ≡ rest.old.amount + receipts shares.items }
{
    let mut shares = shares;
    while let Some(share) = shares.pop() {
        rest.merge(share.into_part());
    }
}

//! How a seat's report is judged and settled under the lock, with those of other seats.

ghost use Rattle.std.specs.Prelude.{◌≡◌, ◌≤◌, ◌<◌, ◌+◌, ◌^◌, ◌++◌, length, suc, take, None, IfOk, IfErr, IfSome};
ghost use Rattle.locked.specs.Entries.{calls};
ghost use Rattle.std.specs.List.{AllByRecursion};
ghost use Rattle.term.specs.Proc.{bodies_of};
ghost use Rattle.locked.specs.Reports.{IsReport};
ghost use Rattle.locked.specs.Beginnings.{StartsWith};
ghost use Rattle.locked.specs.Groups.{HasEntries};
ghost use Rattle.locked.specs.Legal.{limit_of, seat_limit};
ghost use Rattle.shared.specs.Turns.{IsRefused};

use crate::seat::Shared;
use alphabet::Report;
use locked::{Counts, Failed, Fault, Locked, NameFault, Naming, Recorder, SeatNumber, Sharing};
use std::alloc::Allocator;
use std::hint::spin_loop;
use std::sync::atomic::Ordering;
use std::sync::{Mutex, MutexGuard, Wait, ledger};
use std::thread::yield_now;
use std::time::Duration;

// How often a lock that is held is asked for again before the thread sleeps.
const TRIES: u32 = 56;

// After how many of these tries the thread pauses. After the others it lets another thread run.
const PAUSED_TRIES: u32 = 6;

// How many pauses there are after the first try; after each try there are twice as many as after the one before. Each try takes the
// lock's word away from the thread that holds the lock. And while others pause, a thread takes the lock for several reports, so that
// what is under the lock doesn't go from processor to processor with each of them.
const PAUSES: u32 = 30;

// How often a thread that waits for a settling looks for it, and lets another run, before it sleeps.
const LOOKS: u32 = 3;

// How long it sleeps at most, before it looks again, in seconds.
const LONGEST_SLEEP: u64 = 3600;

// How long a thread that has judged last waits at most before it settles, in microseconds.
const PATIENCE: u64 = 100;

// Waits for a moment.
fn pause(pauses: u32) {
    for _ in 0..pauses {
        spin_loop();
    }
}

// Takes the lock. Most reports are over sooner than a thread that sleeps is woken. Where more threads wait than there are processors,
// the one that holds the lock may be waiting for a processor.
pub(crate) fn lock<'a, J: Recorder, A: Allocator + Copy, N: Sharing<J>, R: Wait>(
    rt: &R,
    mutex: &'a Mutex<Locked<J, A, N>>,
) -> MutexGuard<'a, Locked<J, A, N>> {
    for failed in 0..TRIES {
        if let Some(locked) = mutex.try_lock() {
            return locked;
        }
        if failed < PAUSED_TRIES {
            pause(PAUSES << failed);
        } else {
            yield_now();
        }
    }
    mutex.lock(rt)
}

// The lock, where the settled list is no shorter than what the seat knows. Otherwise it is released.
fn once_no_shorter<'a, J: Recorder, A: Allocator + Copy, N: Sharing<J>>(
    known: &Counts<N>,
    locked: MutexGuard<'a, Locked<J, A, N>>,
) -> Option<MutexGuard<'a, Locked<J, A, N>>>
    ensures { IfSome result (λ l. StartsWith l.value.settled known.now) }
{
    if !locked.knows(known) {
        MutexGuard::unlock(locked);
        return None;
    }
    Some(locked)
}

// Takes the lock once the settled list is no shorter than what the seat knows. No seat knows more than that, so the first turn ends it.
pub(crate) fn locked_for<'a, J: Recorder, A: Allocator + Copy, N: Sharing<J>, R: Wait>(
    rt: &R,
    shared: &'a Shared<J, A, N>,
    known: &Counts<N>,
) -> MutexGuard<'a, Locked<J, A, N>>
    ensures { StartsWith result.value.settled known.now }
{
    for _ in rt.forever() {
        if let Some(locked) = once_no_shorter(known, lock(rt, &shared.locked)) {
            return locked;
        }
    }
    unreachable!()
}

// Takes the lock to judge. Until then the thread is counted, so that whoever has judged leaves the settling to it.
fn locked_to_judge<'a, J: Recorder, A: Allocator + Copy, N: Sharing<J>, R: Wait>(
    rt: &R,
    shared: &'a Shared<J, A, N>,
    known: &Counts<N>,
) -> MutexGuard<'a, Locked<J, A, N>>
    ensures { StartsWith result.value.settled known.now }
{
    shared.judging.fetch_add(1, Ordering::SeqCst);
    let locked = locked_for(rt, shared, known);
    shared.judging.fetch_sub(1, Ordering::SeqCst);
    shared.turns.fetch_add(1, Ordering::SeqCst);
    locked
}

// Settles all that is offered, and wakes those that wait for it.
fn settle<J: Recorder, A: Allocator + Copy, N: Sharing<J>, R: Wait>(
    rt: &R,
    shared: &Shared<J, A, N>,
    locked: &mut Locked<J, A, N>,
)
    ensures entries { locked.new.entries ≡ locked.old.entries }
    ensures longer { StartsWith locked.new.settled locked.old.settled }
    ensures whole { locked.new.failed ≡ None → locked.new.entries ≡ N.opening ++ locked.new.settled }
{
    locked.settle(rt);
    let turns = shared.turns.swap(0, Ordering::SeqCst);
    shared.crowd.store(turns, Ordering::SeqCst);
    shared.woken.notify_all();
}

// Waits for a moment, where more than one thread has judged between the last two settlings, and fewer have since: those whose replies
// came by the last one may be about to report again. The lock is released meanwhile.
fn await_others<'a, J: Recorder, A: Allocator + Copy, N: Sharing<J>, R: Wait>(
    rt: &R,
    shared: &'a Shared<J, A, N>,
    locked: MutexGuard<'a, Locked<J, A, N>>,
) -> MutexGuard<'a, Locked<J, A, N>> {
    let crowd = shared.crowd.load(Ordering::SeqCst);
    if crowd < 2 || shared.turns.load(Ordering::SeqCst) >= crowd {
        return locked;
    }
    let seen = shared.woken.notifications();
    MutexGuard::unlock(locked);
    shared
        .woken
        .sleep(rt, seen, Duration::from_micros(PATIENCE));
    lock(rt, &shared.locked)
}

// Waits for the next settling. The lock is released meanwhile. Where syncs are fast, all is settled by the time that the threads which are
// ready have run once, sooner than one that sleeps is woken.
fn await_settling<'a, J: Recorder, A: Allocator + Copy, N: Sharing<J>, R: Wait>(
    rt: &R,
    shared: &'a Shared<J, A, N>,
    locked: MutexGuard<'a, Locked<J, A, N>>,
) -> MutexGuard<'a, Locked<J, A, N>> {
    let seen = shared.woken.notifications();
    MutexGuard::unlock(locked);
    for _ in 0..LOOKS {
        if shared.woken.notifications() != seen {
            return lock(rt, &shared.locked);
        }
        yield_now();
    }
    shared
        .woken
        .sleep(rt, seen, Duration::from_secs(LONGEST_SLEEP));
    shared.locked.lock(rt)
}

// Waits until so many entries are settled, or the session is closed. Where nobody waits to judge, it settles all itself; otherwise the last of
// those does.
fn await_len<'a, J: Recorder, A: Allocator + Copy, N: Sharing<J>, R: Wait>(
    rt: &R,
    shared: &'a Shared<J, A, N>,
    locked: MutexGuard<'a, Locked<J, A, N>>,
    len: u64,
) -> MutexGuard<'a, Locked<J, A, N>> {
    let mut locked = locked;
    let mut settles = shared.judging.load(Ordering::SeqCst) == 0;
    if settles {
        locked = await_others(rt, shared, locked);
    }
    for _ in rt.forever() {
        if locked.settled_len() >= len || locked.failed().is_some() {
            return locked;
        }
        if settles {
            settle(rt, shared, &mut locked);
            settles = false;
        } else {
            locked = await_settling(rt, shared, locked);
        }
    }
    unreachable!()
}

// Waits until the entries of these reports of the seat are settled, from this place on; where too many seats wait, it settles them itself.
// `Err` where the session was closed before.
fn await_settled<'a, J: Recorder, A: Allocator + Copy, N: Sharing<J>, R: Wait>(
    rt: &R,
    shared: &'a Shared<J, A, N>,
    locked: MutexGuard<'a, Locked<J, A, N>>,
    known: &Counts<N>,
    place: u64,
    seat: SeatNumber,
    number: u32,
    reports: &[Report],
    verdicts: &mut [bool],
) -> Result<Counts<N>, Failed>
    requires place { (0 < place) × (place ≤ 2 ^ 62 + 1) }
    requires number { number + length reports.now ≤ 4294967295 }
    requires room { length reports.now ≤ length verdicts.old }
    ensures found { IfOk result (λ c. HasEntries (N.opening ++ c) place seat number reports.now (take (length reports.now) verdicts.new)) }
    ensures later { IfOk result (λ c. StartsWith c known.now) }
    ensures room { length verdicts.new ≡ length verdicts.old }
{
    let len = place - 1 + reports.len() as u64;
    let mut locked = locked;
    let Some(waits) = locked.wait(place) else {
        return settled_at_once(
            rt, shared, locked, known, place, seat, number, reports, verdicts,
        );
    };
    for _ in rt.forever() {
        locked = await_len(rt, shared, locked, len);
        if let Some(counts) = locked.found(place, seat, number, reports, verdicts) {
            if known.front().begins(counts.front()) {
                locked.end_wait(waits);
                MutexGuard::unlock(locked);
                return Ok(counts);
            }
        }
        if let Some(failed) = locked.failed() {
            locked.end_wait(waits);
            MutexGuard::unlock(locked);
            return Err(failed);
        }
    }
    unreachable!()
}

// Settles all, since a report of this seat was refused: so what is told of it is told of the settled history, in which the entries of those
// before it stand from this place on. `Err` where the session is closed.
fn settled_at_once<'a, J: Recorder, A: Allocator + Copy, N: Sharing<J>, R: Wait>(
    rt: &R,
    shared: &'a Shared<J, A, N>,
    locked: MutexGuard<'a, Locked<J, A, N>>,
    known: &Counts<N>,
    place: u64,
    seat: SeatNumber,
    number: u32,
    reports: &[Report],
    verdicts: &mut [bool],
) -> Result<Counts<N>, Failed>
    requires place { (0 < place) × (place ≤ 2 ^ 62 + 1) }
    requires number { number + length reports.now ≤ 4294967295 }
    requires room { length reports.now ≤ length verdicts.old }
    ensures found { IfOk result (λ c. HasEntries (N.opening ++ c) place seat number reports.now (take (length reports.now) verdicts.new)) }
    ensures whole { IfOk result (λ c. locked.entry.value.entries ≡ N.opening ++ c) }
    ensures later { IfOk result (λ c. StartsWith c known.now) }
    ensures room { length verdicts.new ≡ length verdicts.old }
{
    let mut locked = locked;
    for _ in rt.forever() {
        settle(rt, shared, &mut locked);
        if let Some(failed) = locked.failed() {
            MutexGuard::unlock(locked);
            return Err(failed);
        }
        if let Some(counts) = locked.found(place, seat, number, reports, verdicts) {
            if known.front().begins(counts.front()) {
                MutexGuard::unlock(locked);
                return Ok(counts);
            }
        }
    }
    unreachable!()
}

// Offers reports of a seat one after the other, until one is refused. The answer is how many were taken, and why the next one wasn't.
fn offer_all<J: Recorder, A: Allocator + Copy, N: Sharing<J>>(
    locked: &mut Locked<J, A, N>,
    seat: SeatNumber,
    number: u32,
    reports: &[Report],
    part: &mut ledger::Share<N>,
) -> (u32, Option<Fault>)
    requires part { 0 < part.old.parts }
    requires reports { AllByRecursion (IsReport N.spec.alphabet) reports.now }
    requires limit { length locked.old.entries ≤ limit_of N.spec.names }
    requires small { length locked.old.entries ≤ 2 ^ 62 }
    ensures count { result.0 ≤ length reports.now }
    ensures counted { part.new.amount ≡ part.old.amount + result.0 }
    ensures parts { part.new.parts ≡ part.old.parts }
    ensures entries { length locked.new.entries ≡ length locked.old.entries + result.0 }
    ensures limit { length locked.new.entries ≤ limit_of N.spec.names }
    ensures small { length locked.new.entries ≤ 2 ^ 62 }
    ensures numbers { number + result.0 ≤ 4294967295 }
    ensures settled { locked.new.settled ≡ locked.old.settled }
    ensures all { result.1 ≡ None → result.0 ≡ length reports.now }
    ensures refused { IfSome result.1 (IsRefused N.spec locked.new.entries seat number reports.now result.0) }
{
    let mut count = 0;
    for report in reports {
        match locked.offer(seat, number + count, report, part) {
            Ok(_) => count += 1,
            Err(fault) => return (count, Some(fault)),
        }
    }
    (count, None)
}

/// What came of some reports of a seat in one turn under the lock.
#[derive(Drop)]
pub(crate) struct Turn<N: Naming> {
    /// The settled list after the turn.
    pub counts: Counts<N>,
    /// The place of the first report's entry.
    pub place: u64,
    /// How many of the reports, the first ones, have entries.
    pub count: u32,
    /// Why the next one was refused, after this list.
    pub fault: Option<Fault>,
}

/// Reports of a seat that knows this much are judged in one turn under the lock, up to the first that is refused, and settled with all that
/// is offered. `Err` where the session is closed, with how many of them were offered and lost.
pub(crate) fn take_turn<J: Recorder, A: Allocator + Copy, N: Sharing<J>, R: Wait>(
    rt: &R,
    shared: &Shared<J, A, N>,
    known: &Counts<N>,
    seat: SeatNumber,
    number: u32,
    reports: &[Report],
    verdicts: &mut [bool],
    part: &mut ledger::Share<N>,
) -> Result<Turn<N>, (Failed, u32)>
    requires part { 0 < part.old.parts }
    requires reports { AllByRecursion (IsReport N.spec.alphabet) reports.now }
    requires room { length reports.now ≤ length verdicts.old }
    ensures found { IfOk result (λ t. HasEntries (N.opening ++ t.counts) t.place seat number (take t.count reports.now) (take t.count verdicts.new)) }
    ensures count { IfOk result (λ t. (t.count ≤ length reports.now) × (t.fault ≡ None → t.count ≡ length reports.now)) }
    ensures later { IfOk result (λ t. (length (N.opening ++ known.now) < t.place) × StartsWith t.counts known.now × (t.place + t.count ≤ 2 ^ 62 + 1)) }
    ensures limit { IfOk result (λ t. t.place + t.count ≤ suc (limit_of N.spec.names)) }
    ensures numbers { IfOk result (λ t. number + t.count ≤ 4294967295) }
    ensures counted { IfOk result (λ t. part.new.amount ≡ part.old.amount + t.count) }
    ensures refused { IfOk result (λ t. IfSome t.fault (IsRefused N.spec (N.opening ++ t.counts) seat number reports.now t.count)) }
    ensures lost { IfErr result (λ f. (part.new.amount ≡ part.old.amount + f.1) × (f.1 ≤ length reports.now)) }
    ensures parts { part.new.parts ≡ part.old.parts }
    ensures room { length verdicts.new ≡ length verdicts.old }
{
    let mut locked = locked_to_judge(rt, shared, known);
    let place = locked.len() + 1;
    let (count, fault) = offer_all(&mut locked, seat, number, reports, part);
    let taken = &reports[..count as usize];
    let settled = match fault {
        Some(_) => settled_at_once(
            rt, shared, locked, known, place, seat, number, taken, verdicts,
        ),
        None => await_settled(
            rt, shared, locked, known, place, seat, number, taken, verdicts,
        ),
    };
    match settled {
        Ok(counts) => Ok(Turn {
            counts,
            place,
            count,
            fault,
        }),
        Err(failed) => Err((failed, count)),
    }
}

// Gives a name to a seat that has another number so far and has reported nothing, once all that is offered is settled. The answer is how
// many entries of the name the settled list has with the opening, and that list.
fn name_under<J: Recorder, A: Allocator + Copy, N: Sharing<J>, R: Wait>(
    rt: &R,
    shared: &Shared<J, A, N>,
    locked: &mut Locked<J, A, N>,
    name: SeatNumber,
    former: SeatNumber,
) -> Result<(u32, Counts<N>), NameFault>
    ensures later { IfOk result (λ n. StartsWith n.1 locked.old.settled) }
    ensures count { IfOk result (λ n. (n.0 ≡ length (calls (N.opening ++ n.1) name)) × (n.0 < 4294967295)) }
    ensures within { IfOk result (λ _. name ≤ seat_limit N.spec.names) }
{
    settle(rt, shared, locked);
    match locked.name(name, former) {
        Ok(count) => Ok((count, locked.list())),
        Err(fault) => Err(fault),
    }
}

/// The same for a seat that knows this much, under the lock.
pub(crate) fn named_at<J: Recorder, A: Allocator + Copy, N: Sharing<J>, R: Wait>(
    rt: &R,
    shared: &Shared<J, A, N>,
    known: &Counts<N>,
    name: SeatNumber,
    former: SeatNumber,
) -> Result<(u32, Counts<N>), NameFault>
    ensures later { IfOk result (λ n. StartsWith n.1 known.now) }
    ensures count { IfOk result (λ n. (n.0 ≡ length (calls (N.opening ++ n.1) name)) × (n.0 < 4294967295)) }
    ensures within { IfOk result (λ _. name ≤ seat_limit N.spec.names) }
{
    let mut locked = locked_for(rt, shared, known);
    let named = name_under(rt, shared, &mut locked, name, former);
    MutexGuard::unlock(locked);
    named
}

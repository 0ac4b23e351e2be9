//! Connections in threads of their own, at places that are given back.

ghost use Rattle.std.specs.Prelude.{◌≡◌, ◌+◌, ◌<◌, [], length, vec_capacity, IfOk, IfErr};
ghost use Rattle.connections.specs.Outcomes.{WasClosed, ending_of};
ghost use Rattle.connections.specs.Services.{Without};
ghost use Rattle.connections.specs.Visiting.{Begins, Comes, GoesOn, IsAdded, book_of, outcome_after, place_after, promises};

use crate::gate::{Close, Gate, Over, Reusable};
use crate::outcome::Ending;
use crate::totals::Totals;
use std::alloc::Global;
use std::snapshot::Snapshot;
use std::sync::atomic::{AtomicBool, Ordering};
use std::sync::{Arc, Wait};
use std::thread::{Promise, PromisedHandle, Scope, Threads};
use wire::{Sink, Source};

/// A connection at a place of a gate, as its thread begins. It promises what comes of it.
#[derive(Drop)]
pub(crate) struct Visit<G, P, R, W> {
    gate: Snapshot<G>,
    place: Snapshot<P>,
    reader: Snapshot<R>,
    writer: Snapshot<W>,
}

impl<G: Gate, R: Source + Close, W: Sink> Promise<Visited<G::Place>> for Visit<G, G::Place, R, W> {
    ghost use Rattle.connections.specs.Visiting.{IsVisited};

    ghost kept_by = { IsVisited G.serves R.left R.is_closed W.contents };
}

/// What a thread comes to.
#[derive(Drop)]
pub(crate) enum Visited<P> {
    /// The connection is over.
    Over(Over<P>),
    /// It was called off before the connection was served.
    CalledOff(P),
}

/// A connection whose thread runs, or has said that it is over.
#[derive(Drop)]
pub(crate) struct Running<P, V: Promise<Visited<P>>> {
    thread: PromisedHandle<Visited<P>, V>,
    is_over: Arc<AtomicBool, Global>,
}

/// The connections whose threads run, the free places, and what came of the connections that are over.
#[derive(Drop)]
pub(crate) struct Hall<P, V: Promise<Visited<P>>, L> {
    pub(crate) running: Vec<Running<P, V>>,
    pub(crate) places: L,
    pub(crate) totals: Totals,
    /// Whether there was any connection.
    pub(crate) any: bool,
}

// Serves a connection at a place, closes it, and says that it is over. Where it is called off before, it gives the place back alone.
fn serve_one<T: Wait, R: Source + Close + Drop, W: Sink + Drop, G: Gate>(
    rt: &T,
    alloc: Global,
    mut reader: R,
    mut writer: W,
    gate: &G,
    place: G::Place,
    is_over: Arc<AtomicBool, Global>,
) -> Visited<G::Place>
    ensures { Comes G.serves (WasClosed R.left R.is_closed) gate.now place (R.left reader) (W.contents writer) result }
{
    if is_over.load(Ordering::SeqCst) {
        return Visited::CalledOff(place);
    }
    let over = gate.serve(rt, alloc, place, &mut reader, &mut writer);
    drop(writer);
    reader.close();
    is_over.store(true, Ordering::SeqCst);
    Visited::Over(over)
}

// A flag that isn't set, twice.
fn flags(alloc: Global) -> Option<(Arc<AtomicBool, Global>, Arc<AtomicBool, Global>)> {
    let first = Arc::new(alloc, AtomicBool::new(false)).ok()?;
    let second = Arc::try_clone(&first).ok()?;
    Some((first, second))
}

/// Serves a connection at a place, in a thread of its own. Where none can be started, it is called off.
pub(crate) fn start<'s, E, T, G, R, W>(
    rt: &'s T,
    alloc: Global,
    scope: &Scope<'s, E>,
    gate: &'s G,
    place: G::Place,
    reader: R,
    writer: W,
) -> Result<Running<G::Place, Visit<G, G::Place, R, W>>, Visited<G::Place>>
where
    T: Threads + Wait + Sync,
    G: Gate + Sync,
    R: Source + Close + Send + Drop + 's,
    W: Sink + Send + Drop + 's,
    G::Place: 's,
    ensures started { IfOk result (λ running. Begins gate.now place reader writer running.thread.promise) }
    ensures called_off { IfErr result (Comes G.serves (WasClosed R.left R.is_closed) gate.now place (R.left reader) (W.contents writer)) }
{
    let visit = Visit {
        gate: Snapshot::of(gate),
        place: Snapshot::of(&place),
        reader: Snapshot::of(&reader),
        writer: Snapshot::of(&writer),
    };
    let Some((is_over, seen)) = flags(alloc) else {
        return Err(Visited::CalledOff(place));
    };
    match scope.spawn_with(visit, move || {
        serve_one(rt, alloc, reader, writer, gate, place, seen)
    }) {
        Ok(thread) => Ok(Running { thread, is_over }),
        Err(refused) => {
            is_over.store(true, Ordering::SeqCst);
            Err((refused.value)())
        }
    }
}

impl<P: Drop, V: Promise<Visited<P>>> Running<P, V> {
    /// Whether the thread has said that the connection is over.
    pub(crate) fn is_over(&self) -> bool {
        self.is_over.load(Ordering::SeqCst)
    }
}

/// Gives the place back of a connection that is over, and adds how it ended.
pub(crate) fn leave<T: Wait, G: Reusable, V: Promise<Visited<G::Place>>>(
    rt: &T,
    gate: &G,
    hall: &mut Hall<G::Place, V, G::Places>,
    gone: Visited<G::Place>,
)
    requires back { G.takes_back gate.now }
    ensures running { hall.new.running.items ≡ hall.old.running.items }
    ensures capacity { vec_capacity hall.new.running ≡ vec_capacity hall.old.running }
    ensures any { hall.new.any ≡ hall.old.any }
    ensures added { IsAdded hall.old.totals (ending_of (outcome_after gone)) hall.new.totals }
    ensures free { G.free hall.new.places ≡ G.free hall.old.places + 1 }
    ensures counted { G.counted hall.new.places ≡ G.counted hall.old.places + G.answered (place_after gone) }
{
    match gone {
        Visited::Over(Over { place, end, tally }) => {
            gate.leave(rt, place, &mut hall.places);
            hall.totals.add(&Ending::Served(end, tally));
        }
        Visited::CalledOff(place) => {
            gate.leave(rt, place, &mut hall.places);
            hall.totals.add(&Ending::NotStarted);
        }
    }
}

// Takes out what runs at this index.
fn taken_out<P: Drop, V: Promise<Visited<P>>>(
    running: &mut Vec<Running<P, V>>,
    index: usize,
) -> PromisedHandle<Visited<P>, V>
    requires { index < length running.old.items }
    ensures out { Without result.promise (promises running.old.items) (promises running.new.items) }
    ensures len { length running.new.items + 1 ≡ length running.old.items }
    ensures capacity { vec_capacity running.new ≡ vec_capacity running.old }
{
    let one = running.remove(index);
    let Running { thread, is_over } = one;
    drop(is_over);
    thread
}

// Waits until the connection with this index is over, gives its place back, and adds how it ended.
fn join_one<T: Threads + Wait, G: Reusable, V: Promise<Visited<G::Place>>>(
    rt: &T,
    gate: &G,
    hall: &mut Hall<G::Place, V, G::Places>,
    index: usize,
)
    requires back { G.takes_back gate.now }
    requires index { index < length hall.old.running.items }
    ensures goes_on { GoesOn V.kept_by G.answered (book_of G.free G.counted hall.old) (book_of G.free G.counted hall.new) }
    ensures any { hall.new.any ≡ hall.old.any }
    ensures len { length hall.new.running.items + 1 ≡ length hall.old.running.items }
    ensures capacity { vec_capacity hall.new.running ≡ vec_capacity hall.old.running }
{
    let thread = taken_out(&mut hall.running, index);
    leave(rt, gate, hall, thread.join(rt));
}

// Gives the place back of the connection with this index, where its thread has said that it is over. The answer is the index after it.
fn join_if_over<T: Threads + Wait, G: Reusable, V: Promise<Visited<G::Place>>>(
    rt: &T,
    gate: &G,
    hall: &mut Hall<G::Place, V, G::Places>,
    index: usize,
) -> usize
    requires back { G.takes_back gate.now }
    requires index { index < length hall.old.running.items }
    ensures goes_on { GoesOn V.kept_by G.answered (book_of G.free G.counted hall.old) (book_of G.free G.counted hall.new) }
    ensures any { hall.new.any ≡ hall.old.any }
    ensures passed { length hall.new.running.items + (index + 1) ≡ length hall.old.running.items + result }
    ensures capacity { vec_capacity hall.new.running ≡ vec_capacity hall.old.running }
{
    if !hall.running[index].is_over() {
        return index + 1;
    }
    join_one(rt, gate, hall, index);
    index
}

/// Gives the places back of those connections whose threads have said that they are over.
pub(crate) fn join_ended<T: Threads + Wait, G: Reusable, V: Promise<Visited<G::Place>>>(
    rt: &T,
    gate: &G,
    hall: &mut Hall<G::Place, V, G::Places>,
)
    requires back { G.takes_back gate.now }
    ensures goes_on { GoesOn V.kept_by G.answered (book_of G.free G.counted hall.old) (book_of G.free G.counted hall.new) }
    ensures any { hall.new.any ≡ hall.old.any }
    ensures capacity { vec_capacity hall.new.running ≡ vec_capacity hall.old.running }
{
    let mut index = 0;
    while index < hall.running.len() {
        index = join_if_over(rt, gate, hall, index);
    }
}

/// Waits until all connections are over, and gives their places back.
pub(crate) fn join_all<T: Threads + Wait, G: Reusable, V: Promise<Visited<G::Place>>>(
    rt: &T,
    gate: &G,
    hall: &mut Hall<G::Place, V, G::Places>,
)
    requires back { G.takes_back gate.now }
    ensures goes_on { GoesOn V.kept_by G.answered (book_of G.free G.counted hall.old) (book_of G.free G.counted hall.new) }
    ensures any { hall.new.any ≡ hall.old.any }
    ensures none { hall.new.running.items ≡ [] }
{
    let mut left = hall.running.len();
    while left > 0 {
        join_one(rt, gate, hall, 0);
        left -= 1;
    }
}

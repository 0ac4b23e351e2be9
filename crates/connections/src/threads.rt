//! Connections, each served by a thread of its own.

ghost use Rattle.std.specs.Prelude.{◌≡◌, ◌≤◌, ℕ, List, [], Option, length, vec_capacity, IfOk, IfErr, OnErr};
ghost use Rattle.connections.specs.Outcomes.{InTurn, IsLast, IsOutcome, WasClosed, WasTold};
ghost use Rattle.connections.specs.Starting.{Each, IsJoined, IsTaken};

use crate::gate::{Accept, AcceptFault, Close, Gate, Over};
use crate::outcome::Outcome;
use std::alloc::{AllocError, Global};
use std::snapshot::Snapshot;
use std::sync::Wait;
use std::thread;
use std::thread::{Promise, PromisedHandle, Scope, Threads};
use wire::{Fault, Sink, Source, refuse};

/// What came of all connections.
#[derive(Drop)]
pub struct Served<P> {
    /// One for each connection, in the order in which they were taken.
    pub outcomes: Vec<Outcome<P>>,
    /// No further connection could be taken after these.
    pub accept_failed: bool,
}

// A connection at a place of a gate, as its thread begins. It promises what comes of it.
#[derive(Drop)]
struct Begun<G, P, R, W> {
    gate: Snapshot<G>,
    place: Snapshot<P>,
    reader: Snapshot<R>,
    writer: Snapshot<W>,
}

impl<G: Gate, R: Source + Close, W: Sink> Promise<Over<G::Place>> for Begun<G, G::Place, R, W> {
    ghost use Rattle.std.specs.Prelude.{ℕ, List, Option};
    ghost use Rattle.connections.specs.Outcomes.{WasClosed};

    ghost kept_by = { λ begun over. (rest : Option (List ℕ)) × (new : Option (List ℕ))
        × G.serves begun.gate.value begun.place.value over.place over.tally (R.left begun.reader.value) rest (W.contents begun.writer.value) new over.end × WasClosed R.left R.is_closed rest };
}

// A connection that was taken.
#[derive(Drop)]
enum Taken<T, P: Promise<T>> {
    Started(PromisedHandle<T, P>),
    Refused(Fault),
    NotStarted,
}

// Serves a connection at a place, and closes it.
fn serve_one<T: Wait, R: Source + Close + Drop, W: Sink + Drop, G: Gate>(
    rt: &T,
    alloc: Global,
    mut reader: R,
    mut writer: W,
    gate: &G,
    place: G::Place,
) -> Over<G::Place>
    ensures { (rest : Option (List ℕ)) × (new : Option (List ℕ)) × G.serves gate.now place result.place result.tally (R.left reader) rest (W.contents writer) new result.end × WasClosed R.left R.is_closed rest }
{
    let over = gate.serve(rt, alloc, place, &mut reader, &mut writer);
    drop(writer);
    reader.close();
    over
}

// Serves a connection at a place, in a thread of its own.
fn start<'s, E, T, G, R, W>(
    rt: &'s T,
    alloc: Global,
    scope: &Scope<'s, E>,
    gate: &'s G,
    place: G::Place,
    reader: R,
    writer: W,
) -> Taken<Over<G::Place>, Begun<G, G::Place, R, W>>
where
    T: Threads + Wait + Sync,
    G: Gate + Sync,
    R: Source + Close + Send + Drop + 's,
    W: Sink + Send + Drop + 's,
    G::Place: 's,
    requires { G.gives gate.now place }
    ensures { IsTaken gate.now (G.gives gate.now) (G.refuses gate.now) (WasTold W.contents W.has_handed_on W.failures) reader writer result }
{
    let begun = Begun {
        gate: Snapshot::of(gate),
        place: Snapshot::of(&place),
        reader: Snapshot::of(&reader),
        writer: Snapshot::of(&writer),
    };
    match scope.spawn_with(begun, move || {
        serve_one(rt, alloc, reader, writer, gate, place)
    }) {
        Ok(thread) => Taken::Started(thread),
        Err(_) => Taken::NotStarted,
    }
}

// Takes a connection, and starts a thread that serves it.
fn take<'s, E, T, A, G>(
    rt: &'s T,
    alloc: Global,
    scope: &Scope<'s, E>,
    accept: &mut A,
    gate: &'s G,
) -> Result<Taken<Over<G::Place>, Begun<G, G::Place, A::Reader, A::Writer>>, AcceptFault>
where
    T: Threads + Wait + Sync,
    A: Accept,
    G: Gate + Sync,
    A::Reader: 's,
    A::Writer: 's,
    G::Place: 's,
    ensures taken { IfOk result (λ t. (reader : _) × (writer : _) × A.takes accept.old reader writer accept.new
        × IsTaken gate.now (G.gives gate.now) (G.refuses gate.now) (WasTold A.Writer.contents A.Writer.has_handed_on A.Writer.failures) reader writer t) }
    ensures failed { OnErr result (A.fails accept.old accept.new) }
{
    let (reader, mut writer) = match accept.accept() {
        Ok(connection) => connection,
        Err(fault) => return Err(fault),
    };
    match gate.place(rt, alloc) {
        Ok(place) => Ok(start(rt, alloc, scope, gate, place, reader, writer)),
        Err(fault) => {
            let _ = refuse(&mut writer, fault);
            Ok(Taken::Refused(fault))
        }
    }
}

// Takes connections until there are so many, and answers whether an accept failed before.
fn take_all<'s, E, T, A, G>(
    rt: &'s T,
    alloc: Global,
    scope: &Scope<'s, E>,
    accept: &mut A,
    gate: &'s G,
    count: u8,
    threads: &mut Vec<Taken<Over<G::Place>, Begun<G, G::Place, A::Reader, A::Writer>>>,
) -> bool
where
    T: Threads + Wait + Sync,
    A: Accept,
    G: Gate + Sync,
    A::Reader: 's,
    A::Writer: 's,
    G::Place: 's,
    requires none { threads.old.items ≡ [] }
    requires room { count ≤ vec_capacity threads.old }
    ensures { (mid : _) × InTurn A.takes (IsTaken gate.now (G.gives gate.now) (G.refuses gate.now) (WasTold A.Writer.contents A.Writer.has_handed_on A.Writer.failures)) accept.old threads.new.items mid
        × IsLast A.fails mid (length threads.new.items) count result }
{
    for _index in 0..count {
        match take(rt, alloc, scope, accept, gate) {
            Ok(taken) => threads.push_reserved(taken),
            Err(AcceptFault) => return true,
        }
    }
    false
}

// Waits until the connection is over.
fn outcome_of<T: Threads, O: Drop, P: Promise<Over<O>>>(
    rt: &T,
    taken: Taken<Over<O>, P>,
) -> Outcome<O>
    ensures { IsJoined P.kept_by taken result }
{
    match taken {
        Taken::Started(thread) => Outcome::Over(thread.join(rt)),
        Taken::Refused(fault) => Outcome::Refused(fault),
        Taken::NotStarted => Outcome::NotStarted,
    }
}

// Waits until all are over.
fn join_all<T: Threads, O: Drop, P: Promise<Over<O>>>(
    rt: &T,
    threads: Vec<Taken<Over<O>, P>>,
    outcomes: &mut Vec<Outcome<O>>,
)
    requires none { outcomes.old.items ≡ [] }
    requires room { length threads.items ≤ vec_capacity outcomes.old }
    ensures { Each (IsJoined P.kept_by) threads.items outcomes.new.items }
{
    for taken in threads {
        outcomes.push_reserved(outcome_of(rt, taken));
    }
}

// Empty lists with room for so many.
fn rooms<T: Drop, O: Drop>(alloc: Global, count: u8) -> Result<(Vec<T>, Vec<O>), AllocError>
    ensures threads { IfOk result (λ rooms. (rooms.0.items ≡ []) × (count ≤ vec_capacity rooms.0)) }
    ensures outcomes { IfOk result (λ rooms. (rooms.1.items ≡ []) × (count ≤ vec_capacity rooms.1)) }
{
    let threads = Vec::with_capacity(alloc, usize::from(count))?;
    let outcomes = Vec::with_capacity(alloc, usize::from(count))?;
    Ok((threads, outcomes))
}

// Takes the connections, closes where they come from, and waits until all are over.
fn run_all<'s, E, T, A, G>(
    rt: &'s T,
    alloc: Global,
    scope: &Scope<'s, E>,
    mut accept: A,
    gate: &'s G,
    count: u8,
    mut threads: Vec<Taken<Over<G::Place>, Begun<G, G::Place, A::Reader, A::Writer>>>,
    mut outcomes: Vec<Outcome<G::Place>>,
) -> Served<G::Place>
where
    T: Threads + Wait + Sync,
    A: Accept + Drop,
    G: Gate + Sync,
    A::Reader: 's,
    A::Writer: 's,
    G::Place: 's,
    requires threads { (threads.items ≡ []) × (count ≤ vec_capacity threads) }
    requires outcomes { (outcomes.items ≡ []) × (count ≤ vec_capacity outcomes) }
    ensures { (end : _)
        × InTurn A.takes (λ reader writer. IsOutcome (G.gives gate.now) (G.refuses gate.now) (G.serves gate.now) (WasClosed A.Reader.left A.Reader.is_closed) (WasTold A.Writer.contents A.Writer.has_handed_on A.Writer.failures writer) (A.Reader.left reader) (A.Writer.contents writer)) accept result.outcomes.items end
        × IsLast A.fails end (length result.outcomes.items) count result.accept_failed }
{
    let accept_failed = take_all(rt, alloc, scope, &mut accept, gate, count, &mut threads);
    drop(accept);
    join_all(rt, threads, &mut outcomes);
    Served {
        outcomes,
        accept_failed,
    }
}

fn start_all<'s, E, T, A, G>(
    rt: &'s T,
    alloc: Global,
    scope: &Scope<'s, E>,
    accept: A,
    gate: &'s G,
    count: u8,
) -> Result<Served<G::Place>, (AllocError, A)>
where
    T: Threads + Wait + Sync,
    A: Accept + Drop,
    G: Gate + Sync,
    A::Reader: 's,
    A::Writer: 's,
    G::Place: 's,
    ensures served { IfOk result (λ s. (end : _)
        × InTurn A.takes (λ reader writer. IsOutcome (G.gives gate.now) (G.refuses gate.now) (G.serves gate.now) (WasClosed A.Reader.left A.Reader.is_closed) (WasTold A.Writer.contents A.Writer.has_handed_on A.Writer.failures writer) (A.Reader.left reader) (A.Writer.contents writer)) accept s.outcomes.items end
        × IsLast A.fails end (length s.outcomes.items) count s.accept_failed) }
    ensures memory { IfErr result (λ error. error.1 ≡ accept) }
{
    match rooms(alloc, count) {
        Ok((threads, outcomes)) => Ok(run_all(
            rt, alloc, scope, accept, gate, count, threads, outcomes,
        )),
        Err(error) => Err((error, accept)),
    }
}

/// Takes up to `count` connections, and serves each in a thread of its own, at a place of its own. One that gets no place is sent
/// its fault and closed. After an accept that fails no more are taken. Where connections come from is closed once the last is
/// taken; the call ends once all are over. Room for what it answers is made before the first connection, and the error comes
/// then alone, with where connections come from.
pub fn serve_all<T, A, G>(
    rt: &T,
    alloc: Global,
    accept: A,
    gate: &G,
    count: u8,
) -> Result<Served<G::Place>, (AllocError, A)>
where
    T: Threads + Wait + Sync,
    A: Accept + Drop,
    G: Gate + Sync,
    // One outcome for each connection, in the order in which they were taken: what came of that one. They are as many as were asked for, or
    // fewer where an accept failed after the last of them.
    ensures served { IfOk result (λ s. (end : _)
        × InTurn A.takes (λ reader writer. IsOutcome (G.gives gate.now) (G.refuses gate.now) (G.serves gate.now) (WasClosed A.Reader.left A.Reader.is_closed) (WasTold A.Writer.contents A.Writer.has_handed_on A.Writer.failures writer) (A.Reader.left reader) (A.Writer.contents writer)) accept s.outcomes.items end
        × IsLast A.fails end (length s.outcomes.items) count s.accept_failed) }
    ensures memory { IfErr result (λ error. error.1 ≡ accept) }
{
    thread::scope(thread::scope_env(), rt, |scope| {
        start_all(rt, alloc, scope, accept, gate, count)
    })
}

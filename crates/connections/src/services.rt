//! Connections without end, each served by a thread of its own, at a place that is given back once it is over.

ghost use Rattle.std.specs.Prelude.{◌≡◌, ◌≢◌, ◌&&◌, ◌==◌, ◌+◌, ◌<◌, ◌≤◌, ℕ, Bool, true, None, Some, [], length, vec_capacity, IfOk, IfErr, IfNone};
ghost use Rattle.connections.specs.Outcomes.{WasTold};
ghost use Rattle.connections.specs.Services.{Came, EndsByFailure, EndsByIdleness};
ghost use Rattle.connections.specs.Visiting.{GoesOn, IsRefused, IsSoFar, before_place, book_of, with_one};

use crate::gate::{AcceptFault, Listen, Reusable};
use crate::outcome::Ending;
use crate::totals::Totals;
use crate::visits::{Hall, Running, Visit, Visited, join_all, join_ended, leave, start};
use std::alloc::{AllocError, Global};
use std::sync::Wait;
use std::thread;
use std::thread::{Promise, Scope, Threads, sleep};
use std::time::{Clock, Duration};
use wire::{Fault, refuse};

/// How often a place is asked for again at most, where all are taken.
const ASKS: u8 = 20;

/// For how many milliseconds a service waits before it asks for a place again.
const ASK_AGAIN: u64 = 5;

/// For how many milliseconds a service waits after an accept that failed.
const ACCEPT_AGAIN: u64 = 100;

/// How a service goes on.
#[derive(Clone, Copy, Debug, PartialEq, Eq)]
pub struct Terms {
    /// So many threads may run at most.
    pub threads: u8,
    /// Whether the service ends once all connections are over, and there was one.
    pub until_idle: bool,
    /// How many accepts in a row may fail before the one that ends the service.
    pub retries: u8,
}

/// What came of a service.
#[derive(Drop)]
pub struct Closed<L> {
    /// The places, which are all free again.
    pub places: L,
    /// What came of all connections together.
    pub totals: Totals,
    /// The service ended since no further connection could be taken.
    pub accept_failed: bool,
}

// What became of one look for a connection.
#[derive(Clone, Copy, PartialEq, Eq)]
enum Look {
    Taken,
    Nobody,
    Failed,
}

// Gives the places back of connections that are over, and asks for one, where a further thread may run.
fn ask<T: Threads + Wait, G: Reusable, V: Promise<Visited<G::Place>>>(
    rt: &T,
    alloc: Global,
    gate: &G,
    hall: &mut Hall<G::Place, V, G::Places>,
    threads: u8,
) -> Result<G::Place, Fault>
    requires back { G.takes_back gate.now }
    ensures given { IfOk result (λ place. G.gives gate.now place × (G.answered place ≡ 0) × (length hall.new.running.items < threads)) }
    ensures refused { IfErr result (IsRefused (G.refuses gate.now) threads (book_of G.free G.counted hall.new)) }
    ensures goes_on { GoesOn V.kept_by G.answered (book_of G.free G.counted hall.old) (before_place result (book_of G.free G.counted hall.new)) }
    ensures any { hall.new.any ≡ hall.old.any }
    ensures capacity { vec_capacity hall.new.running ≡ vec_capacity hall.old.running }
{
    join_ended(rt, gate, hall);
    if hall.running.len() >= usize::from(threads) {
        return Err(Fault::Seats);
    }
    gate.take(rt, alloc, &mut hall.places)
}

// Asks for a place. Where all are taken, it waits a moment for a connection that is just ending.
fn place_for<T: Threads + Wait + Clock, G: Reusable, V: Promise<Visited<G::Place>>>(
    rt: &T,
    alloc: Global,
    gate: &G,
    hall: &mut Hall<G::Place, V, G::Places>,
    threads: u8,
) -> Result<G::Place, Fault>
    requires back { G.takes_back gate.now }
    ensures given { IfOk result (λ place. G.gives gate.now place × (G.answered place ≡ 0) × (length hall.new.running.items < threads)) }
    ensures refused { IfErr result (IsRefused (G.refuses gate.now) threads (book_of G.free G.counted hall.new)) }
    ensures goes_on { GoesOn V.kept_by G.answered (book_of G.free G.counted hall.old) (before_place result (book_of G.free G.counted hall.new)) }
    ensures any { hall.new.any ≡ hall.old.any }
    ensures capacity { vec_capacity hall.new.running ≡ vec_capacity hall.old.running }
{
    for _turn in 0..ASKS {
        match ask(rt, alloc, gate, hall, threads) {
            Err(Fault::Seats) => sleep(rt, Duration::from_millis(ASK_AGAIN)),
            answer => return answer,
        }
    }
    ask(rt, alloc, gate, hall, threads)
}

// Serves a connection that was taken, at a place that was given, in a thread of its own.
fn serve_at<'s, E, T, A, G>(
    rt: &'s T,
    alloc: Global,
    scope: &Scope<'s, E>,
    gate: &'s G,
    hall: &mut Hall<G::Place, Visit<G, G::Place, A::Reader, A::Writer>, G::Places>,
    place: G::Place,
    reader: A::Reader,
    writer: A::Writer,
)
where
    T: Threads + Wait + Sync,
    A: Listen,
    G: Reusable + Sync,
    A::Reader: 's,
    A::Writer: 's,
    G::Place: 's,
    requires back { G.takes_back gate.now }
    requires given { G.gives gate.now place × (G.answered place ≡ 0) }
    requires room { length hall.old.running.items < vec_capacity hall.old.running }
    ensures so_far { (first now next : A) (places : G.Places) (terms : Terms) (any : Bool) (failures : ℕ) → length hall.old.running.items < terms.threads
        → IsSoFar gate.now (G.gives gate.now) (G.refuses gate.now) G.serves G.answered G.free G.counted A.takes A.fails A.waits A.Reader.left A.Reader.is_closed A.Writer.contents (WasTold A.Writer.contents A.Writer.has_handed_on A.Writer.failures) terms first now places (with_one (book_of G.free G.counted hall.old)) any failures None → A.takes now reader writer next
        → IsSoFar gate.now (G.gives gate.now) (G.refuses gate.now) G.serves G.answered G.free G.counted A.takes A.fails A.waits A.Reader.left A.Reader.is_closed A.Writer.contents (WasTold A.Writer.contents A.Writer.has_handed_on A.Writer.failures) terms first next places (book_of G.free G.counted hall.new) true 0 None }
    ensures any { hall.new.any ≡ hall.old.any }
    ensures capacity { vec_capacity hall.new.running ≡ vec_capacity hall.old.running }
{
    match start(rt, alloc, scope, gate, place, reader, writer) {
        Ok(running) => hall.running.push_reserved(running),
        Err(gone) => leave(rt, gate, hall, gone),
    }
}

// Serves a connection that was taken, in a thread of its own, where there is a place for it.
fn admit<'s, E, T, A, G>(
    rt: &'s T,
    alloc: Global,
    scope: &Scope<'s, E>,
    gate: &'s G,
    hall: &mut Hall<G::Place, Visit<G, G::Place, A::Reader, A::Writer>, G::Places>,
    terms: Terms,
    reader: A::Reader,
    mut writer: A::Writer,
)
where
    T: Threads + Wait + Clock + Sync,
    A: Listen,
    G: Reusable + Sync,
    A::Reader: 's,
    A::Writer: 's,
    G::Place: 's,
    G::Places: 's,
    requires back { G.takes_back gate.now }
    requires room { terms.threads ≤ vec_capacity hall.old.running }
    ensures so_far { (first now next : A) (places : G.Places) (failures : ℕ) → IsSoFar gate.now (G.gives gate.now) (G.refuses gate.now) G.serves G.answered G.free G.counted A.takes A.fails A.waits A.Reader.left A.Reader.is_closed A.Writer.contents (WasTold A.Writer.contents A.Writer.has_handed_on A.Writer.failures) terms first now places (book_of G.free G.counted hall.old) hall.old.any failures None
        → A.takes now reader writer next → IsSoFar gate.now (G.gives gate.now) (G.refuses gate.now) G.serves G.answered G.free G.counted A.takes A.fails A.waits A.Reader.left A.Reader.is_closed A.Writer.contents (WasTold A.Writer.contents A.Writer.has_handed_on A.Writer.failures) terms first next places (book_of G.free G.counted hall.new) hall.new.any 0 None }
    ensures capacity { vec_capacity hall.new.running ≡ vec_capacity hall.old.running }
{
    hall.any = true;
    match place_for(rt, alloc, gate, hall, terms.threads) {
        Ok(place) => {
            serve_at::<E, T, A, G>(rt, alloc, scope, gate, hall, place, reader, writer);
        }
        Err(fault) => {
            let _ = refuse(&mut writer, fault);
            hall.totals.add(&Ending::Refused(fault));
        }
    }
}

// Takes a connection if one comes, and sees which are over.
fn take_next<'s, E, T, A, G>(
    rt: &'s T,
    alloc: Global,
    scope: &Scope<'s, E>,
    accept: &mut A,
    gate: &'s G,
    hall: &mut Hall<G::Place, Visit<G, G::Place, A::Reader, A::Writer>, G::Places>,
    terms: Terms,
) -> Look
where
    T: Threads + Wait + Clock + Sync,
    A: Listen,
    G: Reusable + Sync,
    A::Reader: 's,
    A::Writer: 's,
    G::Place: 's,
    G::Places: 's,
    requires back { G.takes_back gate.now }
    requires room { terms.threads ≤ vec_capacity hall.old.running }
    ensures taken { result ≡ Look.Taken → (first : A) (places : G.Places) (failures : ℕ)
        → IsSoFar gate.now (G.gives gate.now) (G.refuses gate.now) G.serves G.answered G.free G.counted A.takes A.fails A.waits A.Reader.left A.Reader.is_closed A.Writer.contents (WasTold A.Writer.contents A.Writer.has_handed_on A.Writer.failures) terms first accept.old places (book_of G.free G.counted hall.old) hall.old.any failures None
        → IsSoFar gate.now (G.gives gate.now) (G.refuses gate.now) G.serves G.answered G.free G.counted A.takes A.fails A.waits A.Reader.left A.Reader.is_closed A.Writer.contents (WasTold A.Writer.contents A.Writer.has_handed_on A.Writer.failures) terms first accept.new places (book_of G.free G.counted hall.new) hall.new.any 0 None }
    ensures none { result ≢ Look.Taken → (first : A) (places : G.Places) (failures : ℕ)
        → IsSoFar gate.now (G.gives gate.now) (G.refuses gate.now) G.serves G.answered G.free G.counted A.takes A.fails A.waits A.Reader.left A.Reader.is_closed A.Writer.contents (WasTold A.Writer.contents A.Writer.has_handed_on A.Writer.failures) terms first accept.old places (book_of G.free G.counted hall.old) hall.old.any failures None
        → IsSoFar gate.now (G.gives gate.now) (G.refuses gate.now) G.serves G.answered G.free G.counted A.takes A.fails A.waits A.Reader.left A.Reader.is_closed A.Writer.contents (WasTold A.Writer.contents A.Writer.has_handed_on A.Writer.failures) terms first accept.old places (book_of G.free G.counted hall.new) hall.new.any failures None }
    ensures nobody { result ≡ Look.Nobody → A.waits accept.old accept.new }
    ensures failed { result ≡ Look.Failed → A.fails accept.old accept.new × (accept.new ≡ accept.old) }
    ensures capacity { vec_capacity hall.new.running ≡ vec_capacity hall.old.running }
{
    match accept.accept_soon() {
        Ok(Some(connection)) => {
            let (reader, writer) = connection;
            admit::<E, T, A, G>(rt, alloc, scope, gate, hall, terms, reader, writer);
            Look::Taken
        }
        Ok(None) => {
            join_ended(rt, gate, hall);
            Look::Nobody
        }
        Err(AcceptFault) => {
            join_ended(rt, gate, hall);
            Look::Failed
        }
    }
}

// Whether no connection is there, and there was one.
fn is_idle<P: Drop, V: Promise<Visited<P>>, L>(hall: &Hall<P, V, L>) -> bool
    ensures { result ≡ (hall.now.any && (length hall.now.running.items == 0)) }
{
    hall.any && hall.running.is_empty()
}

// After an accept that failed: whether the service ends. It counts the failures in a row.
fn after_failure(terms: Terms, failures: &mut u8) -> Option<bool>
    ensures ends { EndsByFailure terms failures.old result }
    ensures counted { IfNone result (failures.new ≡ failures.old + 1) }
{
    if *failures >= terms.retries {
        return Some(true);
    }
    *failures += 1;
    None
}

// After such a look: whether an accept failed, where the service ends; or that it goes on.
fn closing(look: Look, terms: Terms, idle: bool, failures: &mut u8) -> Option<bool>
    ensures taken { look ≡ Look.Taken → (result ≡ None) × (failures.new ≡ 0) }
    ensures nobody { look ≡ Look.Nobody → EndsByIdleness terms idle result × (failures.new ≡ 0) }
    ensures failed { look ≡ Look.Failed → EndsByFailure terms failures.old result × IfNone result (failures.new ≡ failures.old + 1) }
{
    if look == Look::Failed {
        return after_failure(terms, failures);
    }
    *failures = 0;
    if look == Look::Nobody && terms.until_idle && idle {
        Some(false)
    } else {
        None
    }
}

// Waits a moment after an accept that failed.
fn pause<T: Clock>(rt: &T, look: Look) {
    if look == Look::Failed {
        sleep(rt, Duration::from_millis(ACCEPT_AGAIN));
    }
}

// Takes connections until the service ends, and answers whether an accept failed then.
fn take_all<'s, E, T, A, G>(
    rt: &'s T,
    alloc: Global,
    scope: &Scope<'s, E>,
    accept: &mut A,
    gate: &'s G,
    hall: &mut Hall<G::Place, Visit<G, G::Place, A::Reader, A::Writer>, G::Places>,
    terms: Terms,
) -> bool
where
    T: Threads + Wait + Clock + Sync,
    A: Listen,
    G: Reusable + Sync,
    A::Reader: 's,
    A::Writer: 's,
    G::Place: 's,
    G::Places: 's,
    requires back { G.takes_back gate.now }
    requires room { terms.threads ≤ vec_capacity hall.old.running }
    ensures { (first : A) (places : G.Places) → IsSoFar gate.now (G.gives gate.now) (G.refuses gate.now) G.serves G.answered G.free G.counted A.takes A.fails A.waits A.Reader.left A.Reader.is_closed A.Writer.contents (WasTold A.Writer.contents A.Writer.has_handed_on A.Writer.failures) terms first accept.old places (book_of G.free G.counted hall.old) hall.old.any 0 None
        → (failures : ℕ) × IsSoFar gate.now (G.gives gate.now) (G.refuses gate.now) G.serves G.answered G.free G.counted A.takes A.fails A.waits A.Reader.left A.Reader.is_closed A.Writer.contents (WasTold A.Writer.contents A.Writer.has_handed_on A.Writer.failures) terms first accept.new places (book_of G.free G.counted hall.new) hall.new.any failures (Some result) }
{
    let mut failures = 0u8;
    for _turn in rt.forever() {
        let look = take_next(rt, alloc, scope, accept, gate, hall, terms);
        let idle = is_idle(hall);
        if let Some(accept_failed) = closing(look, terms, idle, &mut failures) {
            return accept_failed;
        }
        pause(rt, look);
    }
    unreachable!()
}

// Takes connections until the service ends, and waits until all are over.
fn run_in<'s, E, T, A, G>(
    rt: &'s T,
    alloc: Global,
    scope: &Scope<'s, E>,
    mut accept: A,
    gate: &'s G,
    places: G::Places,
    terms: Terms,
    running: Vec<Running<G::Place, Visit<G, G::Place, A::Reader, A::Writer>>>,
) -> Closed<G::Places>
where
    T: Threads + Wait + Clock + Sync,
    A: Listen + Drop,
    G: Reusable + Sync,
    A::Reader: 's,
    A::Writer: 's,
    G::Place: 's,
    G::Places: 's,
    requires back { G.takes_back gate.now }
    requires running { (running.items ≡ []) × (terms.threads ≤ vec_capacity running) }
    ensures { Came (G.gives gate.now) (G.refuses gate.now) (G.serves gate.now) G.answered G.free G.counted A.takes A.fails A.waits A.Reader.left A.Reader.is_closed A.Writer.contents (WasTold A.Writer.contents A.Writer.has_handed_on A.Writer.failures) accept places terms result }
{
    let mut hall = Hall {
        running,
        places,
        totals: Totals::new(),
        any: false,
    };
    let accept_failed = take_all(rt, alloc, scope, &mut accept, gate, &mut hall, terms);
    drop(accept);
    join_all(rt, gate, &mut hall);
    let Hall {
        running,
        places,
        totals,
        any: _,
    } = hall;
    drop(running);
    Closed {
        places,
        totals,
        accept_failed,
    }
}

// The same, once there is room for the threads.
fn run<'s, E, T, A, G>(
    rt: &'s T,
    alloc: Global,
    scope: &Scope<'s, E>,
    accept: A,
    gate: &'s G,
    places: G::Places,
    terms: Terms,
) -> Result<Closed<G::Places>, (AllocError, A, G::Places)>
where
    T: Threads + Wait + Clock + Sync,
    A: Listen + Drop,
    G: Reusable + Sync,
    A::Reader: 's,
    A::Writer: 's,
    G::Place: 's,
    G::Places: 's,
    requires back { G.takes_back gate.now }
    ensures served { IfOk result (Came (G.gives gate.now) (G.refuses gate.now) (G.serves gate.now) G.answered G.free G.counted A.takes A.fails A.waits A.Reader.left A.Reader.is_closed A.Writer.contents (WasTold A.Writer.contents A.Writer.has_handed_on A.Writer.failures) accept places terms) }
    ensures memory { IfErr result (λ error. (error.1 ≡ accept) × (error.2 ≡ places)) }
{
    match Vec::with_capacity(alloc, usize::from(terms.threads)) {
        Ok(running) => Ok(run_in(rt, alloc, scope, accept, gate, places, terms, running)),
        Err(AllocError) => Err((AllocError, accept, places)),
    }
}

/// Takes connections without end, and serves each in a thread of its own, at a place of its own, which is given back once the
/// connection is over. One that comes while all places are taken waits a tenth of a second at most for one that is just ending, and is
/// then sent the fault 22 and closed; the next may get a place. Where an accept fails, it is tried again a tenth of a second later,
/// and after so many failures in a row as the terms say the service ends. Else it ends only where the terms ask for that, once no
/// connection is left and there was one; the call ends once all are over. It keeps nothing of a connection that is over but what it
/// adds to the totals. Room for the threads is made before the first connection, and the error comes then alone, with where
/// connections come from and the places.
pub fn serve_on<T, A, G>(
    rt: &T,
    alloc: Global,
    accept: A,
    gate: &G,
    places: G::Places,
    terms: Terms,
) -> Result<Closed<G::Places>, (AllocError, A, G::Places)>
where
    T: Threads + Wait + Clock + Sync,
    A: Listen + Drop,
    G: Reusable + Sync,
    requires back { G.takes_back gate.now }
    // What came of each connection that was taken, in their order, and of all together; and why the service ended.
    ensures served { IfOk result (Came (G.gives gate.now) (G.refuses gate.now) (G.serves gate.now) G.answered G.free G.counted A.takes A.fails A.waits A.Reader.left A.Reader.is_closed A.Writer.contents (WasTold A.Writer.contents A.Writer.has_handed_on A.Writer.failures) accept places terms) }
    ensures memory { IfErr result (λ error. (error.1 ≡ accept) × (error.2 ≡ places)) }
{
    thread::scope(
        thread::scope_env(),
        rt,
        |scope|
            requires { G.takes_back gate.now }
        { run(rt, alloc, scope, accept, gate, places, terms) },
    )
}

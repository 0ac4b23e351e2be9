//! A session as a service: connections come and go, until it ends.

ghost use Rattle.std.specs.Prelude.{◌≡◌, ◌+◌, [], ℕ, List, IfOk, IfErr, IfSome, IsSome, Some, Ok, Err, length};
ghost use Rattle.term.specs.Proc.{bodies_of};
ghost use Rattle.shared.specs.Lasting.{Lasts};
ghost use Rattle.shared.specs.Legal.{Legal};
ghost use Rattle.shared.specs.Beginnings.{StartsWith};
ghost use Rattle.shared.specs.Seats.{answers_to};
ghost use Rattle.shared.specs.View.{PlacesView};
ghost use Rattle.connections.specs.declared.services.Closed.{Closed as ClosedAt};
ghost use Rattle.connections.specs.Outcomes.{WasTold};
ghost use Rattle.connections.specs.Services.{Came};
ghost use Rattle.serving.specs.Runs.{IsNewSeat};
ghost use Rattle.answers.specs.Faults.{IsNoSeat};
ghost use Rattle.serving.specs.Services.{IsServedAt, Ran};

use crate::service_gate::ServiceGate;
use crate::sessions::give_up;
use alphabet::{Alphabet, EventSet};
use connections::{Closed, Listen, Terms, Totals, serve_on};
use journal::Prepared;
use shared::{
    Counts, Failed, Names, Opened, Places, Publisher, Recorder, SessionOn, Shared, Sharing, Source,
    Spine, Waiting, crosses, legal_crosses,
};
use std::alloc::{AllocError, Global};
use std::marker::Brand;
use std::sync::ledger::Blank;
use std::sync::{Wait, ledger};
use std::thread::Threads;
use std::time::Clock;

/// How many connections a service has at one time.
const PLACES: u8 = 64;

/// A service that has ended.
#[derive(Drop)]
pub struct ClosedService<J: Recorder> {
    /// The session.
    pub session: SessionOn<J, Global>,
    /// What came of all connections together.
    pub totals: Totals,
    /// The service ended since no further connection could be taken.
    pub accept_failed: bool,
    /// How many reports were answered with `OK` or `NO`.
    pub answered: u64,
}

// Serves connections at places of the shared session, until the service ends.
fn serve_at<
    J: Recorder + Send,
    N: Sharing<J> + Send + Sync,
    T: Threads + Wait + Clock + Sync,
    L: Listen + Drop,
>(
    rt: &T,
    alloc: Global,
    shared: &Shared<J, Global, N>,
    accept: L,
    alphabet: &Alphabet<Global>,
    places: Places<N>,
    terms: Terms,
) -> Result<Closed<Places<N>>, (AllocError, L, Places<N>)>
    requires alphabet { alphabet.now ≡ N.spec.alphabet }
    requires ledger { N.all ≡ N.parts }
    ensures served { IfOk result (Came (IsNewSeat N.opening) IsNoSeat (IsServedAt N.spec) answers_to (λ (p : PlacesView). p.free) (λ (p : PlacesView). p.receipts) L.takes L.fails L.waits L.Reader.left L.Reader.is_closed L.Writer.contents (WasTold L.Writer.contents L.Writer.has_handed_on L.Writer.failures) accept places terms) }
    ensures memory { IfErr result (λ error. error.1 ≡ accept) }
{
    // The parts of what lies under the lock: the proof that the whole may go to another thread asks for each.
    legal_crosses();
    crosses::<J>();
    crosses::<Option<Failed>>();
    crosses::<Spine<N>>();
    crosses::<Counts<N>>();
    crosses::<Publisher<N, Global>>();
    crosses::<Source<N, Global>>();
    crosses::<ledger::Book<N>>();
    crosses::<ledger::Share<N>>();
    crosses::<Prepared<Global>>();
    crosses::<EventSet>();
    crosses::<Names>();
    crosses::<Waiting>();
    let gate = ServiceGate::new(shared, alphabet);
    let served = serve_on(rt, alloc, accept, &gate, places, terms);
    gate.end();
    served
}

// How many reports were answered, where that is known.
fn known(answered: Option<u64>) -> u64
    requires { IsSome answered }
    ensures { answered ≡ Some result }
{
    match answered {
        Some(count) => count,
        None => unreachable!(),
    }
}

// Gives back the session of a service whose connections are over, and whose places are all free.
fn close<J: Recorder, N: Sharing<J>, R: Wait>(
    rt: &R,
    alloc: Global,
    shared: Shared<J, Global, N>,
    closed: Closed<Places<N>>,
) -> ClosedService<J>
    requires ledger { N.all ≡ N.parts }
    requires free { closed.places.free + 2 ≡ N.all }
    ensures session { (result.session.spec ≡ N.spec) × StartsWith result.session.history N.opening × Legal (bodies_of N.spec.bodies) result.session.history }
    ensures lasts { IfSome N.before (λ before. Lasts J.recording before result.session) }
    ensures counted { (length result.session.history ≡ length N.opening + result.answered) × (result.answered ≡ closed.places.receipts) }
    ensures same { (result.totals ≡ closed.totals) × (result.accept_failed ≡ closed.accept_failed) }
{
    let Closed {
        places,
        totals,
        accept_failed,
    } = closed;
    let (session, answered) = shared.finish_service(rt, Vec::new(alloc), places);
    ClosedService {
        session,
        totals,
        accept_failed,
        answered: known(answered),
    }
}

// Ends a service that had no connection because memory ran out.
fn drop_service<J: Recorder + Drop, N: Sharing<J>, R: Wait>(
    rt: &R,
    alloc: Global,
    shared: Shared<J, Global, N>,
    places: Places<N>,
)
    requires { N.all ≡ N.parts }
{
    let (session, _) = shared.finish_service(rt, Vec::new(alloc), places);
    drop(session);
}

// Gives back the session of a service whose connections are over; or ends it, where it had none because memory ran out.
fn end<J: Recorder + Drop, N: Sharing<J>, R: Wait, L>(
    rt: &R,
    alloc: Global,
    shared: Shared<J, Global, N>,
    served: Result<Closed<Places<N>>, (AllocError, L, Places<N>)>,
) -> Result<ClosedService<J>, (AllocError, L)>
    requires ledger { N.all ≡ N.parts }
    requires free { IfOk served (λ closed. closed.places.free + 2 ≡ N.all) }
    ensures session { IfOk result (λ c. (c.session.spec ≡ N.spec) × StartsWith c.session.history N.opening × Legal (bodies_of N.spec.bodies) c.session.history) }
    ensures lasts { IfOk result (λ c. IfSome N.before (λ before. Lasts J.recording before c.session)) }
    ensures ended { IfOk result (λ c. (closed : ClosedAt PlacesView) × (served ≡ Ok closed) × (c.totals ≡ closed.totals) × (c.accept_failed ≡ closed.accept_failed)
        × (length c.session.history ≡ length N.opening + c.answered) × (c.answered ≡ closed.places.receipts)) }
    ensures memory { IfErr result (λ error. (places : PlacesView) × (served ≡ Err (error.0, error.1, places))) }
{
    match served {
        Ok(closed) => Ok(close(rt, alloc, shared, closed)),
        Err((AllocError, accept, places)) => {
            drop_service(rt, alloc, shared, places);
            Err((AllocError, accept))
        }
    }
}

// Serves connections at the places of a service, until it ends, and gives its session back.
fn run<
    N: Sharing<J> + Send + Sync,
    J: Recorder + Drop + Send,
    T: Threads + Wait + Clock + Sync,
    L: Listen + Drop,
>(
    rt: &T,
    alloc: Global,
    shared: Shared<J, Global, N>,
    accept: L,
    alphabet: &Alphabet<Global>,
    places: Places<N>,
    terms: Terms,
) -> Result<ClosedService<J>, (AllocError, L)>
    requires alphabet { alphabet.now ≡ N.spec.alphabet }
    requires ledger { N.all ≡ N.parts }
    requires places { (places.free + 2 ≡ N.all) × (places.receipts ≡ 0) }
    ensures session { IfOk result (λ c. (c.session.spec ≡ N.spec) × StartsWith c.session.history N.opening × Legal (bodies_of N.spec.bodies) c.session.history) }
    ensures lasts { IfOk result (λ c. IfSome N.before (λ before. Lasts J.recording before c.session)) }
    ensures ran { IfOk result (λ c. Ran L.takes L.fails L.waits L.Reader.left L.Reader.is_closed L.Writer.contents (WasTold L.Writer.contents L.Writer.has_handed_on L.Writer.failures) accept terms places.free N.spec N.opening c.session.history c.totals c.accept_failed c.answered) }
    ensures memory { IfErr result (λ error. error.1 ≡ accept) }
{
    let served = serve_at(rt, alloc, &shared, accept, alphabet, places, terms);
    end(rt, alloc, shared, served)
}

// Shares the session, and serves connections. The caller picks the names.
fn over_places<
    N: Sharing<J> + Send + Sync,
    J: Recorder + Drop + Send,
    T: Threads + Wait + Clock + Sync,
    L: Listen + Drop,
>(
    rt: &T,
    alloc: Global,
    session: SessionOn<J, Global>,
    opened: Opened,
    blank: Blank,
    accept: L,
    alphabet: &Alphabet<Global>,
    terms: Terms,
) -> Result<ClosedService<J>, (AllocError, L)>
    requires story { (session.spec ≡ N.spec) × (session.history ≡ N.opening) × (session.offered ≡ []) }
    requires before { IfSome N.before (λ before. before ≡ session) }
    requires book { opened.seen.book ≡ N.book }
    requires ledger { (blank.name ≡ N.name) × (blank.parts ≡ N.parts) × (N.all ≡ N.parts) × (N.all ≡ 66) }
    requires alphabet { alphabet.now ≡ N.spec.alphabet }
    ensures session { IfOk result (λ c. (c.session.spec ≡ N.spec) × StartsWith c.session.history N.opening × Legal (bodies_of N.spec.bodies) c.session.history) }
    ensures lasts { IfOk result (λ c. IfSome N.before (λ before. Lasts J.recording before c.session)) }
    ensures ran { IfOk result (λ c. Ran L.takes L.fails L.waits L.Reader.left L.Reader.is_closed L.Writer.contents (WasTold L.Writer.contents L.Writer.has_handed_on L.Writer.failures) accept terms 64 N.spec N.opening c.session.history c.totals c.accept_failed c.answered) }
    ensures memory { IfErr result (λ error. error.1 ≡ accept) }
{
    match Shared::<J, Global, N>::service(rt, alloc, session, opened, blank, u64::from(PLACES)) {
        Ok((shared, places)) => run(rt, alloc, shared, accept, alphabet, places, terms),
        Err(_) => Err((AllocError, accept)),
    }
}

/// Serves connections, each in a thread of its own at a seat of its own, which leaves once its connection is over, so that another may
/// come: 64 at one time at most. A client may say by its first line which seat it is, and goes on from that seat's entries. Nothing is
/// offered to the session before.
///
/// It ends where so many accepts in a row and one more have failed; or, if that is asked for, once no connection is left and there was one.
/// It gives the session back then, with what came of the connections. Its specification is as it was, and its history is legal and begins
/// with the one that it had. It takes no more memory with each connection that is over. The error is that memory ran out before the first
/// connection, and comes with where connections come from; the session is gone then, and its file stays.
pub fn serve_service<J: Recorder + Drop + Send, T: Threads + Wait + Clock + Sync, L: Listen + Drop>(
    rt: &T,
    alloc: Global,
    session: SessionOn<J, Global>,
    accept: L,
    until_idle: bool,
    retries: u8,
) -> Result<ClosedService<J>, (AllocError, L)>
    requires { session.offered ≡ [] }
    ensures session { IfOk result (λ c. (c.session.spec ≡ session.spec) × StartsWith c.session.history session.history × Legal (bodies_of session.spec.bodies) c.session.history) }

    // For the script and root for which the journal was one, it is one of the longer history; and so was each content that a crash left meanwhile.
    ensures lasts { IfOk result (λ c. Lasts J.recording session c.session) }

    // What came of each connection, in the order in which they were taken, and of all together; when one was refused by 22; why and when it ended;
    // and how many reports were answered.
    ensures ran { IfOk result (λ c. Ran L.takes L.fails L.waits L.Reader.left L.Reader.is_closed L.Writer.contents (WasTold L.Writer.contents L.Writer.has_handed_on L.Writer.failures) accept (record { threads = 64; until_idle = until_idle; retries = retries }) 64 session.spec session.history c.session.history c.totals c.accept_failed c.answered) }
    ensures memory { IfErr result (λ error. error.1 ≡ accept) }
{
    match session.spec().shared_alphabet(alloc) {
        Ok(alphabet) => {
            let opened = Opened::new();
            // The ledger has a part for each place, one for what lies under the lock, and one for what was answered to seats that left.
            let blank = Blank::new(u64::from(PLACES) + 2);
            let terms = Terms {
                threads: PLACES,
                until_idle,
                retries,
            };
            over_places::<Brand, J, T, L>(
                rt, alloc, session, opened, blank, accept, &alphabet, terms,
            )
        }
        Err(AllocError) => give_up(session, accept),
    }
}

//! A session, served from its first connection to its last.

ghost use Rattle.std.specs.Prelude.{◌≡◌, ◌≤◌, ◌+◌, [], ℕ, List, Ok, Err, IfOk, IfErr, IfSome, IsErr, length, map, vec_capacity};
ghost use Rattle.std.specs.Arc.{arc_value};
ghost use Rattle.term.specs.Proc.{bodies_of};
ghost use Rattle.shared.specs.Lasting.{Lasts};
ghost use Rattle.shared.specs.Legal.{Legal};
ghost use Rattle.shared.specs.Beginnings.{StartsWith};
ghost use Rattle.shared.specs.View.{SeatView};
ghost use Rattle.connections.specs.declared.outcome.Outcome.{Outcome};
ghost use Rattle.connections.specs.Outcomes.{WasTold, ending_of, places_of};
ghost use Rattle.serving.specs.Runs.{CameTo, Went};

use crate::shared_gate::SharedGate;
use alphabet::{Alphabet, EventSet};
use connections::{Accept, Connections, Ending, part, serve_all};
use journal::Prepared;
use shared::{
    Counts, Failed, Names, Opened, Publisher, Recorder, SessionOn, Share, Shared, Sharing, Source,
    Spine, Waiting, crosses, legal_crosses,
};
use std::alloc::{AllocError, Global};
use std::marker::Brand;
use std::sync::ledger::Blank;
use std::sync::{Arc, Wait, ledger};
use std::thread::Threads;

/// A session whose connections are over.
#[derive(Drop)]
pub struct Closing<J: Recorder> {
    /// The session.
    pub session: SessionOn<J, Global>,
    /// How each connection ended, in the order in which they were taken.
    pub endings: Vec<Ending, Global>,
    /// A connection couldn't be taken.
    pub accept_failed: bool,
    /// How many reports were answered with `OK` or `NO`. `None` where a connection's place was lost, since no thread could be started for it.
    pub answered: Option<u64>,
}

// What a run needs memory for before its first connection.
#[derive(Drop)]
struct Room {
    alphabet: Arc<Alphabet<Global>>,
    endings: Vec<Ending, Global>,
}

fn room_for<J: Recorder>(
    alloc: Global,
    session: &SessionOn<J, Global>,
    count: u8,
) -> Result<Room, AllocError>
    ensures alphabet { IfOk result (λ room. arc_value room.alphabet ≡ session.now.spec.alphabet) }
    ensures endings { IfOk result (λ room. (room.endings.items ≡ []) × (count ≤ vec_capacity room.endings)) }
{
    let alphabet = session.spec().shared_alphabet(alloc)?;
    let endings = Vec::with_capacity(alloc, usize::from(count))?;
    Ok(Room { alphabet, endings })
}

/// Ends a session that can't be served because memory ran out.
pub(crate) fn give_up<J: Recorder + Drop, L, C>(
    session: SessionOn<J, Global>,
    accept: L,
) -> Result<C, (AllocError, L)>
    ensures memory { IfErr result (λ error. error.1 ≡ accept) }
    ensures none { IsErr result }
{
    drop(session);
    Err((AllocError, accept))
}

// Serves the connections at seats of the shared session. Their shares come to the shares, and how each ended to the endings.
fn serve_at<
    J: Recorder + Send,
    N: Sharing<J> + Send + Sync,
    T: Threads + Wait + Sync,
    L: Accept + Drop,
>(
    rt: &T,
    alloc: Global,
    shared: &Shared<J, Global, N>,
    accept: L,
    alphabet: &Alphabet<Global>,
    count: u8,
    shares: &mut Vec<Share<N, Global>, Global>,
    endings: &mut Vec<Ending, Global>,
) -> Result<bool, (AllocError, L)>
    requires alphabet { alphabet.now ≡ N.spec.alphabet }
    requires shares { (shares.old.items ≡ []) × (count ≤ vec_capacity shares.old) }
    requires endings { (endings.old.items ≡ []) × (count ≤ vec_capacity endings.old) }
    ensures served { IfOk result (λ accept_failed. (outcomes : List (Outcome SeatView))
        × CameTo L.takes L.fails L.Reader.left L.Reader.is_closed L.Writer.contents (WasTold L.Writer.contents L.Writer.has_handed_on L.Writer.failures) accept count N.spec N.opening outcomes accept_failed
        × (shares.new.items ≡ places_of outcomes) × (endings.new.items ≡ map ending_of outcomes)) }
    ensures memory { IfErr result (λ error. error.1 ≡ accept) }
{
    // The parts of what lies under the lock: the proof that the whole may go to another thread asks for each.
    legal_crosses();
    crosses::<J>();
    crosses::<Option<Failed>>();
    crosses::<Spine<N>>();
    crosses::<Counts<N>>();
    crosses::<Publisher<N, Global>>();
    crosses::<Source<N, Global>>();
    crosses::<ledger::Book<N>>();
    crosses::<ledger::Share<N>>();
    crosses::<Prepared<Global>>();
    crosses::<EventSet>();
    crosses::<Names>();
    crosses::<Waiting>();
    let gate = SharedGate::new(shared, alphabet);
    let served = serve_all(rt, alloc, accept, &gate, count);
    gate.end();
    match served {
        Ok(all) => {
            let accept_failed = all.accept_failed;
            part(all.outcomes, shares, endings);
            Ok(accept_failed)
        }
        Err(refused) => Err(refused),
    }
}

// The same, once there is room for the shares.
fn serve_in<
    J: Recorder + Send,
    N: Sharing<J> + Send + Sync,
    T: Threads + Wait + Sync,
    L: Accept + Drop,
>(
    rt: &T,
    alloc: Global,
    shared: &Shared<J, Global, N>,
    accept: L,
    alphabet: &Alphabet<Global>,
    count: u8,
    shares: &mut Vec<Share<N, Global>, Global>,
    endings: &mut Vec<Ending, Global>,
) -> Result<bool, (AllocError, L)>
    requires alphabet { alphabet.now ≡ N.spec.alphabet }
    requires shares { shares.old.items ≡ [] }
    requires endings { (endings.old.items ≡ []) × (count ≤ vec_capacity endings.old) }
    ensures served { IfOk result (λ accept_failed. (outcomes : List (Outcome SeatView))
        × CameTo L.takes L.fails L.Reader.left L.Reader.is_closed L.Writer.contents (WasTold L.Writer.contents L.Writer.has_handed_on L.Writer.failures) accept count N.spec N.opening outcomes accept_failed
        × (shares.new.items ≡ places_of outcomes) × (endings.new.items ≡ map ending_of outcomes)) }
    ensures memory { IfErr result (λ error. error.1 ≡ accept) }
{
    match shares.reserve(usize::from(count)) {
        Ok(()) => serve_at(rt, alloc, shared, accept, alphabet, count, shares, endings),
        Err(_) => Err((AllocError, accept)),
    }
}

// What is answered of a session whose connections are over, or that had none because memory ran out.
fn close<J: Recorder + Drop, L>(
    session: SessionOn<J, Global>,
    answered: Option<u64>,
    endings: Vec<Ending, Global>,
    served: Result<bool, (AllocError, L)>,
) -> Result<Closing<J>, (AllocError, L)>
    ensures closed { IfOk result (λ c. (c.session ≡ session) × (c.answered ≡ answered) × (c.endings ≡ endings) × (served ≡ Ok c.accept_failed)) }
    ensures memory { IfErr result (λ error. served ≡ Err error) }
{
    match served {
        Ok(accept_failed) => Ok(Closing {
            session,
            endings,
            accept_failed,
            answered,
        }),
        Err(refused) => {
            drop(session);
            Err(refused)
        }
    }
}

// Shares the session, and serves its connections. The caller picks the names.
fn over_seats<
    N: Sharing<J> + Send + Sync,
    J: Recorder + Drop + Send,
    T: Threads + Wait + Sync,
    L: Accept + Drop,
>(
    rt: &T,
    alloc: Global,
    session: SessionOn<J, Global>,
    opened: Opened,
    blank: Blank,
    accept: L,
    room: Room,
    count: u8,
) -> Result<Closing<J>, (AllocError, L)>
    requires count { (1 ≤ count) × (count ≤ 64) }
    requires story { (session.spec ≡ N.spec) × (session.history ≡ N.opening) × (session.offered ≡ []) }
    requires before { IfSome N.before (λ before. before ≡ session) }
    requires book { opened.seen.book ≡ N.book }
    requires ledger { (blank.name ≡ N.name) × (blank.parts ≡ N.parts) × (N.all ≡ N.parts) × (N.all ≡ count + 1) }
    requires alphabet { arc_value room.alphabet ≡ N.spec.alphabet }
    requires endings { (room.endings.items ≡ []) × (count ≤ vec_capacity room.endings) }
    ensures session { IfOk result (λ c. (c.session.spec ≡ N.spec) × StartsWith c.session.history N.opening × Legal (bodies_of N.spec.bodies) c.session.history) }
    ensures lasts { IfOk result (λ c. IfSome N.before (λ before. Lasts J.recording before c.session)) }
    ensures went { IfOk result (λ c. Went L.takes L.fails L.Reader.left L.Reader.is_closed L.Writer.contents (WasTold L.Writer.contents L.Writer.has_handed_on L.Writer.failures) accept count N.spec N.opening c.session.history c.endings.items c.accept_failed c.answered) }
    ensures memory { IfErr result (λ error. error.1 ≡ accept) }
{
    let Room {
        alphabet,
        mut endings,
    } = room;
    let Ok(shared) = Shared::<J, Global, N>::new(
        rt,
        alloc,
        session,
        opened,
        blank,
        u64::from(count),
    ) else {
        drop(alphabet);
        return Err((AllocError, accept));
    };
    let mut shares = Vec::new(alloc);
    let served = serve_in(
        rt,
        alloc,
        &shared,
        accept,
        &alphabet,
        count,
        &mut shares,
        &mut endings,
    );
    let (session, answered) = shared.finish(rt, shares);
    close(session, answered, endings, served)
}

/// Serves up to so many connections, each in a thread of its own at a seat of its own, and gives the session back once all are over, with
/// how each connection ended. Nothing is offered to the session before. Its specification is as it was, and its history is legal and
/// begins with the one that it had. The error is that memory ran out before the first connection, and comes with where connections come
/// from; the session is gone then, and its file stays.
pub fn serve_session<J: Recorder + Drop + Send, T: Threads + Wait + Sync, L: Accept + Drop>(
    rt: &T,
    alloc: Global,
    session: SessionOn<J, Global>,
    accept: L,
    connections: Connections,
) -> Result<Closing<J>, (AllocError, L)>
    requires { session.offered ≡ [] }
    ensures session { IfOk result (λ c. (c.session.spec ≡ session.spec) × StartsWith c.session.history session.history × Legal (bodies_of session.spec.bodies) c.session.history) }

    // For the script and root for which the journal was one, it is one of the longer history; and so was each content that a crash left meanwhile.
    ensures lasts { IfOk result (λ c. Lasts J.recording session c.session) }

    // What came of each connection, in the order in which they were taken.
    ensures went { IfOk result (λ c. Went L.takes L.fails L.Reader.left L.Reader.is_closed L.Writer.contents (WasTold L.Writer.contents L.Writer.has_handed_on L.Writer.failures) accept connections session.spec session.history c.session.history c.endings.items c.accept_failed c.answered) }
    ensures memory { IfErr result (λ error. error.1 ≡ accept) }
{
    let count = connections.get();
    match room_for(alloc, &session, count) {
        Ok(room) => {
            let opened = Opened::new();
            // The ledger has a part for each seat, and one for what lies under the lock.
            let blank = Blank::new(u64::from(count) + 1);
            over_seats::<Brand, J, T, L>(rt, alloc, session, opened, blank, accept, room, count)
        }
        Err(AllocError) => give_up(session, accept),
    }
}

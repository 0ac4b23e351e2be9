//! A run of a server, by its plan, up to the status that it ends with.

ghost use Rattle.std.specs.Prelude.{◌≡◌, ◌||◌, [], ℕ, List, Option, not, is_some, IfOk, IfErr};
ghost use Rattle.term.specs.Proc.{bodies_of};
ghost use Rattle.shared.specs.Beginnings.{StartsWith};
ghost use Rattle.shared.specs.Lasting.{Lasts};
ghost use Rattle.shared.specs.Legal.{Legal};
ghost use Rattle.connections.specs.declared.outcome.Ending.{Ending};
ghost use Rattle.connections.specs.Outcomes.{WasTold};
ghost use Rattle.serving.specs.Plans.{IsTotal, WentBy, terms_of};
ghost use Rattle.serving.specs.Runs.{Went};
ghost use Rattle.serving.specs.Services.{Ran};
ghost use Rattle.serving.specs.Statuses.{service_status};

use crate::services::{ClosedService, serve_service};
use crate::sessions::{Closing, serve_session};
use answers::Exit;
use connections::{Connections, Listen, Totals};
use shared::{Recorder, SessionOn};
use std::alloc::{AllocError, Global};
use std::sync::Wait;
use std::thread::Threads;
use std::time::Clock;

/// How long a server runs.
#[derive(Clone, Copy, PartialEq, Eq, Debug)]
pub enum Plan {
    /// Until so many connections are over, each at a seat of its own.
    Over(Connections),
    /// As a service, until no connection is left and there was one.
    Idle,
    /// As a service, without end.
    Stopped,
}

/// A run that has ended.
#[derive(Drop)]
pub struct Run<J: Recorder> {
    /// The session.
    pub session: SessionOn<J, Global>,
    /// What came of all connections together.
    pub totals: Totals,
    /// A connection couldn't be taken.
    pub accept_failed: bool,
}

/// How a run ends whose session was closed or not, and where an accept failed or not: `BadJournal` where it was closed, then
/// `FileFailed` where one failed, `Rejected`, `Misuse` where a line wasn't judged, and `Limit`; else `Done`.
pub fn exit_of(totals: &Totals, closed: bool, accept_failed: bool) -> Exit
    ensures { result ≡ service_status closed accept_failed totals.now }
{
    if closed {
        Exit::BadJournal
    } else if accept_failed {
        Exit::FileFailed
    } else if totals.rejected {
        Exit::Rejected
    } else if totals.unjudged > 0 {
        Exit::Misuse
    } else if totals.limit {
        Exit::Limit
    } else {
        Exit::Done
    }
}

impl<J: Recorder> Run<J> {
    /// How the run ends, if its end could be told or not: an output that failed counts as an accept that did.
    #[tactic(auto, using(crate::proofs::Plans::some_is))]
    pub fn status(&self, is_told: bool) -> Exit
        ensures { result ≡ service_status (is_some self.now.session.failed) (self.now.accept_failed || not is_told) self.now.totals }
    {
        let accept_failed = self.accept_failed || !is_told;
        exit_of(&self.totals, self.session.is_closed(), accept_failed)
    }
}

// What is left of a run of so many connections.
fn run_of<J: Recorder>(closing: Closing<J>, counts: bool) -> Run<J>
    ensures session { result.session ≡ closing.session }
    ensures totals { IsTotal counts closing.endings.items result.totals }
    ensures accept { result.accept_failed ≡ closing.accept_failed }
{
    let Closing {
        session,
        endings,
        accept_failed,
        answered: _,
    } = closing;
    let mut totals = Totals::of(&endings);
    if !counts {
        totals.unjudged = 0;
    }
    Run {
        session,
        totals,
        accept_failed,
    }
}

// What is left of a service.
fn run_of_service<J: Recorder>(closed: ClosedService<J>) -> Run<J>
    ensures { (result.session ≡ closed.session) × (result.totals ≡ closed.totals) × (result.accept_failed ≡ closed.accept_failed) }
{
    let ClosedService {
        session,
        totals,
        accept_failed,
        answered: _,
    } = closed;
    Run {
        session,
        totals,
        accept_failed,
    }
}

// Serves so many connections.
fn run_some<J: Recorder + Drop + Send, T: Threads + Wait + Sync, L: Listen + Drop>(
    rt: &T,
    alloc: Global,
    session: SessionOn<J, Global>,
    accept: L,
    connections: Connections,
    counts: bool,
) -> Result<Run<J>, (AllocError, L)>
    requires { session.offered ≡ [] }
    ensures session { IfOk result (λ run. (run.session.spec ≡ session.spec) × StartsWith run.session.history session.history × Legal (bodies_of session.spec.bodies) run.session.history) }
    ensures lasts { IfOk result (λ run. Lasts J.recording session run.session) }
    ensures went { IfOk result (λ run. (endings : List Ending) × (answered : Option ℕ)
        × Went L.takes L.fails L.Reader.left L.Reader.is_closed L.Writer.contents (WasTold L.Writer.contents L.Writer.has_handed_on L.Writer.failures) accept connections session.spec session.history run.session.history endings run.accept_failed answered
        × IsTotal counts endings run.totals) }
    ensures memory { IfErr result (λ error. error.1 ≡ accept) }
{
    match serve_session(rt, alloc, session, accept, connections) {
        Ok(closing) => Ok(run_of(closing, counts)),
        Err(refused) => Err(refused),
    }
}

// Serves connections as a service.
fn run_service<J: Recorder + Drop + Send, T: Threads + Wait + Clock + Sync, L: Listen + Drop>(
    rt: &T,
    alloc: Global,
    session: SessionOn<J, Global>,
    accept: L,
    until_idle: bool,
    retries: u8,
) -> Result<Run<J>, (AllocError, L)>
    requires { session.offered ≡ [] }
    ensures session { IfOk result (λ run. (run.session.spec ≡ session.spec) × StartsWith run.session.history session.history × Legal (bodies_of session.spec.bodies) run.session.history) }
    ensures lasts { IfOk result (λ run. Lasts J.recording session run.session) }
    ensures ran { IfOk result (λ run. (answered : ℕ)
        × Ran L.takes L.fails L.waits L.Reader.left L.Reader.is_closed L.Writer.contents (WasTold L.Writer.contents L.Writer.has_handed_on L.Writer.failures) accept (terms_of until_idle retries) 64 session.spec session.history run.session.history run.totals run.accept_failed answered) }
    ensures memory { IfErr result (λ error. error.1 ≡ accept) }
{
    match serve_service(rt, alloc, session, accept, until_idle, retries) {
        Ok(closed) => Ok(run_of_service(closed)),
        Err(refused) => Err(refused),
    }
}

/// Serves connections at this session by the plan, each in a thread of its own at a seat of its own, as `serve_session` or `serve_service` does;
/// a service ends where so many accepts in a row and one more have failed. The lines of a run of so many connections that weren't judged are counted,
/// or passed over. It gives the session back, with what came of the connections: from that the run's status is found. The error is that memory ran
/// out before the first connection, and comes with where connections come from; the session is gone then, and its file stays.
pub fn serve<J: Recorder + Drop + Send, T: Threads + Wait + Clock + Sync, L: Listen + Drop>(
    rt: &T,
    alloc: Global,
    session: SessionOn<J, Global>,
    accept: L,
    plan: Plan,
    retries: u8,
    counts: bool,
) -> Result<Run<J>, (AllocError, L)>
    requires { session.offered ≡ [] }

    // The history at the end is legal, and begins with the one before.
    ensures session { IfOk result (λ run. (run.session.spec ≡ session.spec) × StartsWith run.session.history session.history × Legal (bodies_of session.spec.bodies) run.session.history) }

    // For the script and root for which the journal was one, it is one of the longer history; and so was each content that a crash left meanwhile.
    ensures lasts { IfOk result (λ run. Lasts J.recording session run.session) }

    // What came of the connections, one by one and together.
    ensures went { IfOk result (λ run. WentBy L.takes L.fails L.waits L.Reader.left L.Reader.is_closed L.Writer.contents (WasTold L.Writer.contents L.Writer.has_handed_on L.Writer.failures) accept plan retries counts session.spec session.history run.session.history run.totals run.accept_failed) }
    ensures memory { IfErr result (λ error. error.1 ≡ accept) }
{
    match plan {
        Plan::Over(connections) => run_some(rt, alloc, session, accept, connections, counts),
        Plan::Idle => run_service(rt, alloc, session, accept, true, retries),
        Plan::Stopped => run_service(rt, alloc, session, accept, false, retries),
    }
}

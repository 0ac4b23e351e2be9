//! The whole of a server: a session of a script on a journal that may be there already, the connections that are served at it, the line
//! with its counts, and the exit status.

ghost use Rattle.std.specs.Prelude.{◌≡◌, ◌≢◌, ◌≤◌, ◌<◌, ◌^◌, [], ℕ, Bool, List, Option, is_some, length, IsTrue, IfOk, IfErr, OnOk, MatchResult};
ghost use Rattle.term.specs.Proc.{bodies_of};
ghost use Rattle.term.specs.Specs.{Specified};
ghost use Rattle.answers.specs.declared.exit.Exit.{Exit};
ghost use Rattle.journal.specs.Faults.{HasFault};
ghost use Rattle.journal.specs.declared.error.JournalError.{JournalError};
ghost use Rattle.shared.specs.Beginnings.{StartsWith};
ghost use Rattle.shared.specs.Entry.{Entry};
ghost use Rattle.shared.specs.Entries.{summary_of};
ghost use Rattle.shared.specs.Lasting.{Lasts};
ghost use Rattle.shared.specs.SessionFaults.{journal_error};
ghost use Rattle.shared.specs.Legal.{IsJudged, Legal};
ghost use Rattle.shared.specs.Records.{AreReports, names_of as names_kept};
ghost use Rattle.connections.specs.declared.totals.Totals.{Totals};
ghost use Rattle.connections.specs.Outcomes.{WasTold};
ghost use Rattle.serving.specs.Held.{Holds, IsOfAnother};
ghost use Rattle.large_sessions.specs.Faults.{HaveFault};
ghost use Rattle.large_sessions.specs.PartsError.{PartsError};
ghost use Rattle.serving.specs.HeldInParts.{AreNew, AreOfAnother, HoldSession};
ghost use Rattle.program.specs.Servers.{AreInPlace, AreOpenedIn, AreServedIn, AreUnopenedFor, AreUnopenedIn, IsBefore, IsEnd, IsInPlace, IsOpenedOn, IsServedBy, IsServedOn, IsShutOn, IsTold, IsUnopenedFor, IsUnopenedOn, IsUnserved, IsWritten};

use crate::summaries::summary_line;
use answers::Exit;
use connections::{Listen, Totals};
use disk::{Disk, Folder};
use journal::Journal;
use serving::{OpenError, Parts, Plan, Run, exit_of, open, open_parts};
use shared::{ReadScript, Recorder, SessionOn};
use std::alloc::{AllocError, Global};
use std::sync::Wait;
use std::thread::Threads;
use std::time::Clock;
use term::Names;
use wire::{Sink, SinkFault, send};

/// Where the connections of a server come from, once its session is there. They say by relations of their own what opening and closing them
/// comes to.
pub trait Doors {
    /// Takes the connections.
    type Accept: Listen + Drop;

    /// They are opened: what they were before, what the output had before and then, what takes the connections, and what they are then.
    ghost opens: { Self → Option (List ℕ) → Option (List ℕ) → Self.Accept → Self → Type 0 };

    /// They can't be opened, with this status.
    ghost refuses: { Self → Exit → Type 0 };

    /// They are closed, after this came of the connections, and one couldn't be taken, or that didn't happen: what they were before, and what
    /// they are then.
    ghost closes: { Self → Totals → Bool → Self → Type 0 };

    /// From now on clients may connect, as the output says. The error is the status of a fault that was reported.
    fn open<O: Sink>(&mut self, output: &mut O) -> Result<Self::Accept, Exit>
        ensures opened { IfOk result (λ accept. opens self.old (O.contents output.old) (O.contents output.new) accept self.new) }
        ensures steady { OnOk result (O.failures output.new ≡ O.failures output.old) }
        ensures refused { IfErr result (λ exit. refuses self.old exit) };

    /// All connections are over: reports what came of them together, other than the line of the counts.
    fn close(&mut self, totals: Totals, accept_failed: bool)
        ensures { closes self.old totals accept_failed self.new };
}

/// What is asked of a server.
#[derive(Clone, Copy, PartialEq, Eq, Debug)]
pub struct Demand {
    /// How long it runs.
    pub plan: Plan,
    /// How many accepts in a row may fail before a service ends.
    pub retries: u8,
    /// Whether the lines of a run of so many connections that weren't judged are counted.
    pub counts: bool,
}

/// What became of the line of the counts.
#[derive(Clone, Copy, PartialEq, Eq, Debug)]
pub enum Line {
    /// It was written.
    Written,
    /// The output failed.
    Unwritten,
    /// There was no memory for it.
    Unmade,
}

/// A session that was served.
#[derive(Drop)]
pub struct Served<J: Recorder> {
    /// The session, with all that was answered.
    pub session: SessionOn<J, Global>,
    /// The exit status.
    pub exit: Exit,
    /// What became of the line of the counts.
    pub line: Line,
}

/// Why nothing was served.
#[derive(Drop)]
pub enum Unserved<D, J: Recorder> {
    /// There is no session on this disk.
    Unopened(OpenError, D),
    /// No door could be opened, with this status, for the session.
    Shut(Exit, SessionOn<J, Global>),
    /// Memory ran out before the first connection. The session is gone then, and its file stays.
    Memory,
}

// Writes the line with the counts of the session.
fn put_line<J: Recorder, O: Sink>(
    alloc: Global,
    session: &SessionOn<J, Global>,
    output: &mut O,
) -> Line
    ensures { IsWritten result (summary_of session.now.history) (is_some session.now.failed) (O.contents output.old) (O.contents output.new) (O.failures output.old < O.failures output.new) }
{
    match summary_line(alloc, session.summary(), session.is_closed()) {
        Ok(line) => match send(output, &line) {
            Ok(()) => Line::Written,
            Err(SinkFault) => Line::Unwritten,
        },
        Err(AllocError) => Line::Unmade,
    }
}

// The status of a run whose line this became of: an output that failed counts as an accept that did, and no memory for the line as a limit.
fn exit_by<J: Recorder>(run: &Run<J>, line: Line) -> Exit
    ensures { IsEnd line (is_some run.now.session.failed) run.now.totals run.now.accept_failed result }
{
    match line {
        Line::Written => run.status(true),
        Line::Unwritten => run.status(false),
        Line::Unmade => {
            let met = Totals {
                limit: true,
                ..run.totals
            };
            exit_of(&met, run.session.is_closed(), run.accept_failed)
        }
    }
}

// Ends a run: writes the line of the counts, and answers the status.
fn end<J: Recorder, O: Sink>(alloc: Global, run: Run<J>, output: &mut O) -> Served<J>
    ensures session { result.session ≡ run.session }
    ensures told { IsTold result.line (summary_of run.session.history) (is_some run.session.failed) run.totals run.accept_failed (O.contents output.old) (O.contents output.new) (O.failures output.old < O.failures output.new) result.exit }
    ensures judged { IsJudged run.session.spec run.session.history }
    ensures reports { AreReports run.session.spec.alphabet run.session.history }
    ensures names { run.session.spec.names ≡ names_kept (J.recording.version run.session.journal) }
{
    // What a session keeps: its history is judged.
    let _entries = run.session.history();
    let line = put_line(alloc, &run.session, output);
    let exit = exit_by(&run, line);
    let Run { session, .. } = run;
    Served {
        session,
        exit,
        line,
    }
}

// Serves a session that was opened, once its doors are.
fn serve_opened<D, J: Recorder + Drop + Send, R: Threads + Wait + Clock + Sync, S: Doors, O: Sink>(
    rt: &R,
    alloc: Global,
    session: SessionOn<J, Global>,
    demand: Demand,
    doors: &mut S,
    output: &mut O,
) -> Result<Served<J>, Unserved<D, J>>
    requires { session.offered ≡ [] }
    ensures session { IfOk result (λ r. (r.session.spec ≡ session.spec) × StartsWith r.session.history session.history × Legal (bodies_of session.spec.bodies) r.session.history) }
    ensures lasts { IfOk result (λ r. Lasts J.recording session r.session) }
    ensures judged { IfOk result (λ r. IsJudged r.session.spec r.session.history × AreReports r.session.spec.alphabet r.session.history
        × (r.session.spec.names ≡ names_kept (J.recording.version r.session.journal))) }
    ensures served { IfOk result (λ r. IsServedBy S.opens S.closes S.Accept.takes S.Accept.fails S.Accept.waits S.Accept.Reader.left S.Accept.Reader.is_closed S.Accept.Writer.contents
        (WasTold S.Accept.Writer.contents S.Accept.Writer.has_handed_on S.Accept.Writer.failures)
        demand session.spec session.history r.session.history (is_some r.session.failed) doors.old doors.new (O.contents output.old) (O.contents output.new) (O.failures output.old < O.failures output.new) r.line r.exit) }
    ensures unserved { IfErr result (IsShutOn (S.refuses doors.old) session) }
    ensures doors { IfErr result (IsBefore S.opens doors.old doors.new (O.contents output.old) (O.contents output.new)) }
{
    let accept = match doors.open(output) {
        Ok(accept) => accept,
        Err(exit) => return Err(Unserved::Shut(exit, session)),
    };
    match serving::serve(
        rt,
        alloc,
        session,
        accept,
        demand.plan,
        demand.retries,
        demand.counts,
    ) {
        Ok(run) => {
            doors.close(run.totals, run.accept_failed);
            Ok(end(alloc, run, output))
        }
        Err((AllocError, accept)) => {
            drop(accept);
            Err(Unserved::Memory)
        }
    }
}

/// Serves, as was asked, the session of what the script denotes for its root, with names kept so, on the journal that the disk holds: a new
/// one where the file is empty, else the one that it gives, if that is of this script and root and keeps names so. First the session is
/// opened; then the doors; once all connections are over the doors are closed, and the line with the counts is written. It gives the session
/// back, with the exit status: where the line can't be written, that of an accept that failed, and where there is no memory for it, that
/// of a limit.
pub fn serve<D: Disk + Drop + Send, R: Threads + Wait + Clock + Sync, S: Doors, O: Sink>(
    rt: &R,
    alloc: Global,
    disk: D,
    script: ReadScript<'_, Global>,
    names: Names,
    demand: Demand,
    doors: &mut S,
    output: &mut O,
) -> Result<Served<Journal<D>>, Unserved<D, Journal<D>>>
    // What the script denotes for its root was served from the history that the file held. What was answered stands in the file, and a crash at
    // any moment left a file that is read as a history which begins with the opening.
    ensures served { IfOk result (λ r. (spec : Specified) × (opening : List Entry)
        × IsServedOn D.state names (D.state disk) script.entry.text script.entry.root spec opening r.session
        × IsServedBy S.opens S.closes S.Accept.takes S.Accept.fails S.Accept.waits S.Accept.Reader.left S.Accept.Reader.is_closed S.Accept.Writer.contents
        (WasTold S.Accept.Writer.contents S.Accept.Writer.has_handed_on S.Accept.Writer.failures)
        demand spec opening r.session.history (is_some r.session.failed) doors.old doors.new (O.contents output.old) (O.contents output.new) (O.failures output.old < O.failures output.new) r.line r.exit) }

    // Or nothing was served, for this reason.
    ensures unserved { IfErr result (IsUnserved (IsUnopenedOn D.state names (D.state disk) script.entry.text script.entry.root)
        (IsOpenedOn D.state names (D.state disk) script.entry.text script.entry.root) (S.refuses doors.old)) }
    ensures doors { IfErr result (IsBefore S.opens doors.old doors.new (O.contents output.old) (O.contents output.new)) }

    // A file that holds a session gives it, if a door can be opened; a journal of another script, root or way of keeping names is refused as that,
    // and one that has a fault for it: device and memory apart.
    ensures only { IsTrue (D.state disk).claims_bytes → (spec : Specified) (h : List Entry) → Holds names (D.state disk).bytes script.entry.text script.entry.root spec h
        → MatchResult result (λ r. (r.session.spec ≡ spec) × StartsWith r.session.history h) (IsInPlace (D.state disk).bytes spec h) }
    ensures other { IsTrue (D.state disk).claims_bytes → IsOfAnother names (D.state disk).bytes script.entry.text script.entry.root
        → MatchResult result (λ _. ⊥) (IsUnopenedFor OpenError.OtherSpecification) }
    ensures refuses { IsTrue (D.state disk).claims_bytes → (D.state disk).bytes ≢ [] → (error : JournalError) → HasFault (D.state disk).bytes error
        → MatchResult result (λ _. ⊥) (IsUnopenedFor (OpenError.Replay (journal_error error))) }
{
    match open(alloc, disk, script, names) {
        Ok(session) => {
            // What a session keeps: its history is judged.
            let _entries = session.history();
            serve_opened(rt, alloc, session, demand, doors, output)
        }
        Err((error, disk)) => Err(Unserved::Unopened(error, disk)),
    }
}

/// The same with names kept as their bodies, on a journal whose parts take so many records, in a folder.
pub fn serve_parts<F: Folder + Drop + Send, R: Threads + Wait + Clock + Sync, S: Doors, O: Sink>(
    rt: &R,
    alloc: Global,
    folder: F,
    script: ReadScript<'_, Global>,
    size: usize,
    demand: Demand,
    doors: &mut S,
    output: &mut O,
) -> Result<Served<Parts<F, Global>>, Unserved<F, Parts<F, Global>>>
    requires size { 1 ≤ size }
    ensures served { IfOk result (λ r. (spec : Specified) × (opening : List Entry)
        × AreServedIn F.state size (F.state folder) script.entry.text script.entry.root spec opening r.session
        × IsServedBy S.opens S.closes S.Accept.takes S.Accept.fails S.Accept.waits S.Accept.Reader.left S.Accept.Reader.is_closed S.Accept.Writer.contents
        (WasTold S.Accept.Writer.contents S.Accept.Writer.has_handed_on S.Accept.Writer.failures)
        demand spec opening r.session.history (is_some r.session.failed) doors.old doors.new (O.contents output.old) (O.contents output.new) (O.failures output.old < O.failures output.new) r.line r.exit) }
    ensures unserved { IfErr result (IsUnserved (AreUnopenedIn F.state size (F.state folder) script.entry.text script.entry.root)
        (AreOpenedIn F.state size (F.state folder) script.entry.text script.entry.root) (S.refuses doors.old)) }
    ensures doors { IfErr result (IsBefore S.opens doors.old doors.new (O.contents output.old) (O.contents output.new)) }
    ensures only { IsTrue (F.state folder).claims_bytes → (spec : Specified) (h : List Entry)
        → HoldSession size (F.state folder).bytes script.entry.text script.entry.root spec h → length h < 2 ^ 62
        → MatchResult result (λ r. (r.session.spec ≡ spec) × StartsWith r.session.history h) (AreInPlace (F.state folder).bytes spec h) }
    ensures other { IsTrue (F.state folder).claims_bytes → (a : AreOfAnother size (F.state folder).bytes script.entry.text script.entry.root) → length a.history < 2 ^ 62
        → MatchResult result (λ _. ⊥) (IsUnopenedFor OpenError.OtherSpecification) }
    ensures refuses { IsTrue (F.state folder).claims_bytes → (AreNew (F.state folder).bytes → ⊥) → (fault : PartsError) → HaveFault size (F.state folder).bytes fault
        → MatchResult result (λ _. ⊥) (AreUnopenedFor size (F.state folder).bytes fault) }
{
    match open_parts(alloc, folder, script, size) {
        Ok(session) => {
            // What a session keeps: its history is judged.
            let _entries = session.history();
            serve_opened(rt, alloc, session, demand, doors, output)
        }
        Err((error, folder)) => Err(Unserved::Unopened(error, folder)),
    }
}

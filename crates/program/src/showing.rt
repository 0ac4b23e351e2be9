//! The history that a journal holds, judged again: a line for each report, why it was rejected, and how often each event came.

ghost use Rattle.std.specs.Prelude.{◌≡◌, ◌<◌, ◌⊎◌, ◌++◌, [], ℕ, List, IsTrue, IfOk, IfErr, OnOk, IsErrOf, MatchResult};
ghost use Rattle.std.specs.Io.KnownBytes.{Appends};
ghost use Rattle.term.specs.Specs.{Specified};
ghost use Rattle.journal.specs.Faults.{HasFault};
ghost use Rattle.journal.specs.declared.error.JournalError.{JournalError};
ghost use Rattle.shared.specs.Entry.{Entry};
ghost use Rattle.shared.specs.SessionFaults.{journal_error};
ghost use Rattle.shared.specs.Scripts.{IsReplayOf};
ghost use Rattle.shown.specs.Shows.{Writes};
ghost use Rattle.program.specs.Exits.{replay_exit};
ghost use Rattle.program.specs.Showings.{HasNoDisplay, IsBeyond, WritesAll, summary_text};
ghost use Rattle.program.specs.declared.showing.DisplayError.TheVariants.{Session as of_session};

use crate::replaying::exit_of;
use crate::summaries::{add_json, add_line};
use answers::Exit;
use disk::Disk;
use journal::{Header, Journal};
use shared::{History, Monitor, Session, SessionError, Summary};
use shown::{Format, Options, ShowError, Showing};
use std::alloc::{AllocError, Allocator};
use wire::{Sink, SinkFault, send};

/// What was displayed of a journal.
#[derive(Drop)]
pub struct Displayed<D: Disk, A: Allocator> {
    /// The journal.
    pub journal: Journal<D>,
    /// The script and the root of the journal.
    pub header: Header<A>,
    /// The history that it holds.
    pub history: History<A>,
    /// The monitor that judged the history, after all of its events.
    pub monitor: Monitor<A>,
    /// `Rejected` where the history has a rejected report, else `Done`.
    pub exit: Exit,
}

/// Why a journal isn't displayed whole.
#[derive(Clone, Copy, Debug, PartialEq, Eq)]
pub enum DisplayError {
    /// The journal has no session, or a request for memory was refused.
    Session(SessionError),
    /// The output failed.
    Output,
}

impl From<ShowError> for DisplayError {
    ghost use Rattle.program.specs.declared.showing.DisplayError.{DisplayError};
    ghost use Rattle.shown.specs.declared.error.ShowError.{ShowError};

    ghost from_gives = { λ from error. IsBeyond error × (error ≡ DisplayError.Output → from ≡ ShowError.Output) };

    fn from(error: ShowError) -> DisplayError {
        match error {
            ShowError::Memory => DisplayError::Session(SessionError::Memory),
            ShowError::Output => DisplayError::Output,
        }
    }
}

// Appends the counts of a history that may go on.
fn add_summary<A: Allocator>(
    text: &mut Vec<u8, A>,
    format: Format,
    summary: Summary,
) -> Result<(), AllocError>
    ensures { OnOk result (text.new.items ≡ text.old.items ++ summary_text format summary) }
{
    match format {
        Format::Text => add_line(text, summary, false),
        Format::Json => add_json(text, summary),
    }
}

// Judges the records of the journal on the disk again, and writes the lines of its history as it goes, but for their end.
pub(crate) fn lines_of<D: Disk + Drop, A: Allocator + Copy, W: Sink>(
    alloc: A,
    disk: D,
    options: Options,
    output: &mut W,
) -> Result<(Session<D, A>, Header<A>, Vec<u8, A>), DisplayError>
    ensures replayed { IfOk result (λ r. IsTrue (D.state disk).claims_bytes
        → IsReplayOf (D.state disk).bytes r.1.script.items r.1.root.items r.0.spec r.0.history) }
    ensures none_offered { IfOk result (λ r. r.0.offered ≡ []) }
    ensures text { IfOk result (λ r. Writes options r.0.spec r.0.history (W.contents output.old) (W.contents output.new) r.2.items) }
    ensures steady { OnOk result (W.failures output.new ≡ W.failures output.old) }
    ensures output_failed { IsErrOf result DisplayError.Output → W.failures output.old < W.failures output.new }
    ensures fault { IfErr result (λ error. IsTrue (D.state disk).claims_bytes → HasNoDisplay (D.state disk).bytes error) }
    ensures only { IsTrue (D.state disk).claims_bytes → (script root : List ℕ) (spec : Specified) (h : List Entry)
        → IsReplayOf (D.state disk).bytes script root spec h
        → MatchResult result (λ r. (r.0.spec ≡ spec) × (r.0.history ≡ h)) IsBeyond }
    ensures refuses { IsTrue (D.state disk).claims_bytes → (error : JournalError) → HasFault (D.state disk).bytes error
        → MatchResult result (λ _. ⊥) (λ e. (e ≡ of_session (journal_error error)) ⊎ IsBeyond e) }
    ensures silent { IsTrue (D.state disk).claims_bytes → (error : JournalError) → HasFault (D.state disk).bytes error → output.new ≡ output.old }
{
    let mut showing = Showing::new(alloc, options, output);
    let (session, header) = match Session::replay_watched(alloc, disk, None, &mut showing, output) {
        Ok(replayed) => replayed,
        Err((error, disk)) => {
            drop(disk);
            drop(showing);
            return Err(DisplayError::Session(error));
        }
    };
    match showing.end(session.spec()) {
        Ok(left) => Ok((session, header, left)),
        Err(error) => {
            drop(session);
            drop(header);
            Err(error.into())
        }
    }
}

// Writes the end of the lines, and the counts after it.
pub(crate) fn write_end<A: Allocator, W: Sink>(
    left: &mut Vec<u8, A>,
    format: Format,
    summary: Summary,
    output: &mut W,
) -> Result<(), ShowError>
    ensures text { OnOk result (Appends (W.contents output.old) (W.contents output.new) (left.old.items ++ summary_text format summary)) }
    ensures output_failed { IsErrOf result ShowError.Output → W.failures output.old < W.failures output.new }
{
    add_summary(left, format, summary)?;
    match send(output, left) {
        Ok(()) => Ok(()),
        Err(SinkFault) => Err(ShowError::Output),
    }
}

/// Judges the records of the journal on the disk again, as `replay` does, and writes what is asked for of its history: the lines, as it
/// goes, and then the counts. The errors are those of `replay`, and that of the output, which comes once all records are judged. Where the
/// output fails, a part may have been written; where memory is refused or a record is refused, a part of a text of 64 KiB or more.
pub fn show<D: Disk + Drop, A: Allocator + Copy, W: Sink>(
    alloc: A,
    disk: D,
    options: Options,
    output: &mut W,
) -> Result<Displayed<D, A>, DisplayError>
    // The file holds the session's history, of which each verdict is that of what its script denotes.
    ensures replayed { IfOk result (λ r. IsTrue (D.state disk).claims_bytes
        → IsReplayOf (D.state disk).bytes r.header.script.items r.header.root.items r.monitor.spec r.history.entries) }

    // What was written is that history, as asked for, with exactly the events and the acceptances of what the script denotes.
    ensures text { IfOk result (λ r. WritesAll r.monitor.spec r.history.entries options (W.contents output.old) (W.contents output.new)) }
    ensures exit { IfOk result (λ r. r.exit ≡ replay_exit r.history.entries) }

    // Or the file has no session for this reason, or the output failed.
    ensures fault { IfErr result (λ error. IsTrue (D.state disk).claims_bytes → HasNoDisplay (D.state disk).bytes error) }
    ensures output_failed { IsErrOf result DisplayError.Output → W.failures output.old < W.failures output.new }

    // Of a file that holds a history exactly what `Displays` has of it is written, which is one text (`shown::one_text`); one
    // that has a fault is refused for it, and nothing is written. Devices and memory apart.
    ensures only { IsTrue (D.state disk).claims_bytes → (script root : List ℕ) (spec : Specified) (h : List Entry)
        → IsReplayOf (D.state disk).bytes script root spec h
        → MatchResult result (λ r. (r.history.entries ≡ h) × WritesAll spec h options (W.contents output.old) (W.contents output.new) × (r.exit ≡ replay_exit h)) IsBeyond }
    ensures refuses { IsTrue (D.state disk).claims_bytes → (error : JournalError) → HasFault (D.state disk).bytes error
        → MatchResult result (λ _. ⊥) (λ e. (e ≡ of_session (journal_error error)) ⊎ IsBeyond e) }
    ensures silent { IsTrue (D.state disk).claims_bytes → (error : JournalError) → HasFault (D.state disk).bytes error → output.new ≡ output.old }
{
    let (session, header, mut left) = lines_of(alloc, disk, options, output)?;
    let (monitor, history, journal) = session.into_parts();
    let summary = history.summary();
    let written = write_end(&mut left, options.format, summary, output);
    drop(left);
    match written {
        Ok(()) => Ok(Displayed {
            journal,
            header,
            history,
            monitor,
            exit: exit_of(summary.rejected),
        }),
        Err(error) => {
            drop(journal);
            drop(history);
            drop(header);
            drop(monitor);
            Err(error.into())
        }
    }
}

//! Journals in parts, replayed and shown, one part after the other.

ghost use Rattle.std.specs.Prelude.{◌≡◌, ◌≢◌, ◌≤◌, ◌<◌, ◌^◌, Ok, length, ℕ, List, [], false, IsTrue, IfOk, IfErr, OnOk, MatchResult, IsErrOf, None};
ghost use Rattle.term.specs.Specs.{Specified};
ghost use Rattle.shared.specs.Entry.{Entry};
ghost use Rattle.shared.specs.Scripts.{IsOutside};
ghost use Rattle.wire.specs.Replies.{status_text};
ghost use Rattle.attending.specs.Courses.{status_of};
ghost use Rattle.large_sessions.specs.Faults.{HaveFault};
ghost use Rattle.large_sessions.specs.Opening.{IsDone};
ghost use Rattle.large_sessions.specs.PartsError.{PartsError};
ghost use Rattle.large_sessions.specs.Sessions.{AreRefusedFor, AreReplayOf, HaveNoSession};
ghost use Rattle.shown.specs.Shows.{Writes};
ghost use Rattle.program.specs.Exits.{replay_exit};
ghost use Rattle.program.specs.Parts.{AreFollowed, AreNotFollowed, AreTextOf, HaveNoDisplay, HaveNoDisplayFor};
ghost use Rattle.program.specs.Showings.{IsBeyond, WritesAll};

use crate::following::{FollowError, joined, show_on};
use crate::replaying::exit_of;
use crate::showing::{DisplayError, write_end};
use crate::summaries::summary_line;
use answers::Exit;
use disk::Folder;
use large_sessions::Replaying;
use shared::{Nobody, Onlooker, SessionError};
use shown::{Options, Showing};
use std::alloc::{AllocError, Allocator};
use wire::{Plain, Sink};

/// What a replay of a journal in parts comes to.
#[derive(Drop)]
pub struct ReplayedParts<F: Folder, A: Allocator> {
    /// The replay, of which no part is left.
    pub replaying: Replaying<F, A>,
    /// The counts of the history, as `S` is answered.
    pub line: Vec<u8, A>,
    /// `Rejected` where the history has a rejected report, else `Done`.
    pub exit: Exit,
}

// All parts of the journal, replayed, one after the other, unless the onlooker wants to see no more. It sees each entry as it is judged.
fn whole_of<F: Folder + Drop, A: Allocator + Copy, W, O: Onlooker<A, W>>(
    alloc: A,
    folder: F,
    size: usize,
    onlooker: &mut O,
    output: &mut W,
) -> Result<Replaying<F, A>, SessionError>
    requires size { 1 ≤ size }
    requires seen { (spec : Specified) → O.has_seen onlooker.old output.old spec [] }
    ensures done { IfOk result (λ r. O.is_over onlooker.new ≡ false → IsDone r.opened) }
    ensures replayed { IfOk result (λ r. O.is_over onlooker.new ≡ false → IsTrue (F.state folder).claims_bytes
        → AreReplayOf size (F.state folder).bytes r.opened.held.script r.opened.held.root r.taken.spec r.taken.entries) }
    ensures no_fault { OnOk result (O.is_over onlooker.new ≡ false → IsTrue (F.state folder).claims_bytes → (fault : PartsError) → HaveFault size (F.state folder).bytes fault → ⊥) }
    ensures fault { IfErr result (λ error. IsTrue (F.state folder).claims_bytes → HaveNoSession size (F.state folder).bytes error) }
    ensures only { IsTrue (F.state folder).claims_bytes → (script root : List ℕ) (spec : Specified) (h : List Entry)
        → AreReplayOf size (F.state folder).bytes script root spec h → length h < 2 ^ 62
        → MatchResult result (λ r. O.is_over onlooker.new ≡ false → (r.taken.spec ≡ spec) × (r.taken.entries ≡ h)) IsOutside }
    ensures seen { IfOk result (λ r. O.has_seen onlooker.new output.new r.taken.spec r.taken.entries) }
    ensures onlooker { (first : O) → O.kept first onlooker.old → O.kept first onlooker.new }
{
    let (replaying, header) = match Replaying::begin_watched(
        alloc, folder, size, None, onlooker, output,
    ) {
        Ok(begun) => begun,
        Err((error, folder)) => {
            drop(folder);
            return Err(error);
        }
    };
    drop(header);
    match replaying.whole_watched(onlooker, output) {
        Ok(replaying) => {
            // Then the files hold just its history.
            let _is_done = replaying.is_done();
            Ok(replaying)
        }
        Err((error, folder)) => {
            drop(folder);
            Err(error)
        }
    }
}

/// Judges the records of a journal in parts again, one part after the other: the replay, the line with its counts, and the exit status.
/// Nothing is written to the files. The errors are those of `Replaying::whole`, or `Memory`. Takes memory for one part.
pub fn replay_parts<F: Folder + Drop, A: Allocator + Copy>(
    alloc: A,
    folder: F,
    size: usize,
) -> Result<ReplayedParts<F, A>, SessionError>
    requires { 1 ≤ size }
    // The files hold the history, of which each verdict is that of what its script denotes.
    ensures replayed { IfOk result (λ r. IsTrue (F.state folder).claims_bytes
        → AreReplayOf size (F.state folder).bytes r.replaying.opened.held.script r.replaying.opened.held.root r.replaying.taken.spec r.replaying.taken.entries) }
    ensures done { IfOk result (λ r. IsDone r.replaying.opened) }
    ensures line { IfOk result (λ r. r.line.items ≡ status_text (status_of r.replaying.taken.entries false)) }
    ensures exit { IfOk result (λ r. r.exit ≡ replay_exit r.replaying.taken.entries) }

    // Or the files have no session for this reason.
    ensures fault { IfErr result (λ error. IsTrue (F.state folder).claims_bytes → HaveNoSession size (F.state folder).bytes error) }

    // Files that hold a history give it, with what its script denotes, and files that have a fault are refused for it, device and memory apart.
    ensures only { IsTrue (F.state folder).claims_bytes → (script root : List ℕ) (spec : Specified) (h : List Entry)
        → AreReplayOf size (F.state folder).bytes script root spec h → length h < 2 ^ 62
        → MatchResult result (λ r. (r.replaying.taken.spec ≡ spec) × (r.replaying.taken.entries ≡ h)) IsOutside }
    ensures refuses { IsTrue (F.state folder).claims_bytes → (fault : PartsError) → HaveFault size (F.state folder).bytes fault
        → MatchResult result (λ _. ⊥) (AreRefusedFor size (F.state folder).bytes fault) }
{
    let replaying = whole_of(alloc, folder, size, &mut Nobody, &mut ())?;
    let summary = replaying.summary();
    match summary_line(alloc, summary, false) {
        Ok(line) => Ok(ReplayedParts {
            replaying,
            line,
            exit: exit_of(summary.rejected),
        }),
        Err(_) => {
            drop(replaying);
            Err(SessionError::Memory)
        }
    }
}

// Writes the lines of what the parts hold, but for their end, which is answered.
fn lines_of_parts<F: Folder + Drop, A: Allocator + Copy, W: Sink>(
    alloc: A,
    folder: F,
    size: usize,
    options: Options,
    output: &mut W,
) -> Result<(Replaying<F, A>, Vec<u8, A>), DisplayError>
    requires { 1 ≤ size }
    ensures done { IfOk result (λ r. IsDone r.0.opened) }
    ensures no_fault { OnOk result (IsTrue (F.state folder).claims_bytes → (fault : PartsError) → HaveFault size (F.state folder).bytes fault → ⊥) }
    ensures replayed { IfOk result (λ r. IsTrue (F.state folder).claims_bytes
        → AreReplayOf size (F.state folder).bytes r.0.opened.held.script r.0.opened.held.root r.0.taken.spec r.0.taken.entries) }
    ensures text { IfOk result (λ r. Writes options r.0.taken.spec r.0.taken.entries (W.contents output.old) (W.contents output.new) r.1.items) }
    ensures steady { OnOk result (W.failures output.new ≡ W.failures output.old) }
    ensures output_failed { IsErrOf result DisplayError.Output → W.failures output.old < W.failures output.new }
    ensures fault { IfErr result (λ error. IsTrue (F.state folder).claims_bytes → HaveNoDisplay size (F.state folder).bytes error) }
    ensures only { IsTrue (F.state folder).claims_bytes → (script root : List ℕ) (spec : Specified) (h : List Entry)
        → AreReplayOf size (F.state folder).bytes script root spec h → length h < 2 ^ 62
        → MatchResult result (λ r. (r.0.taken.spec ≡ spec) × (r.0.taken.entries ≡ h)) IsBeyond }
{
    let mut showing = Showing::new(alloc, options, output);
    let replaying = match whole_of(alloc, folder, size, &mut showing, output) {
        Ok(replaying) => replaying,
        Err(error) => {
            drop(showing);
            return Err(DisplayError::Session(error));
        }
    };
    match showing.end(replaying.spec()) {
        Ok(left) => Ok((replaying, left)),
        Err(error) => {
            drop(replaying);
            Err(error.into())
        }
    }
}

/// What was displayed of a journal in parts.
#[derive(Drop)]
pub struct DisplayedParts<F: Folder, A: Allocator> {
    /// The replay, of which no part is left.
    pub replaying: Replaying<F, A>,
    /// `Rejected` where the history has a rejected report, else `Done`.
    pub exit: Exit,
}

/// Judges the records of a journal in parts again, one part after the other, and writes what is asked for of its history: the lines, and then
/// the counts. Nothing is written to the files. The errors are those of `replay_parts`, and that of the output; a part of the text may have
/// been written then, of 64 KiB or more. An entry's line is written once the entry is judged: so of files with a fault those before it may have
/// been. Takes memory for one part.
pub fn show_parts<F: Folder + Drop, A: Allocator + Copy, W: Sink>(
    alloc: A,
    folder: F,
    size: usize,
    options: Options,
    output: &mut W,
) -> Result<DisplayedParts<F, A>, DisplayError>
    requires { 1 ≤ size }
    // The files hold the history, of which each verdict is that of what its script denotes.
    ensures replayed { IfOk result (λ r. IsTrue (F.state folder).claims_bytes
        → AreReplayOf size (F.state folder).bytes r.replaying.opened.held.script r.replaying.opened.held.root r.replaying.taken.spec r.replaying.taken.entries) }

    // What was written is that history, as asked for, with exactly the events and the acceptances of what the script denotes.
    ensures text { IfOk result (λ r. WritesAll r.replaying.taken.spec r.replaying.taken.entries options (W.contents output.old) (W.contents output.new)) }
    ensures exit { IfOk result (λ r. r.exit ≡ replay_exit r.replaying.taken.entries) }

    // Or the files have no session for this reason, or the output failed. Files that have a fault are refused for it.
    ensures fault { IfErr result (λ error. IsTrue (F.state folder).claims_bytes → HaveNoDisplay size (F.state folder).bytes error) }
    ensures output_failed { IsErrOf result DisplayError.Output → W.failures output.old < W.failures output.new }
    ensures refuses { IsTrue (F.state folder).claims_bytes → (fault : PartsError) → HaveFault size (F.state folder).bytes fault
        → MatchResult result (λ _. ⊥) (HaveNoDisplayFor size (F.state folder).bytes fault) }

    // Of files that hold a history exactly what `Displays` has of it is written. Devices and memory apart.
    ensures only { IsTrue (F.state folder).claims_bytes → (script root : List ℕ) (spec : Specified) (h : List Entry)
        → AreReplayOf size (F.state folder).bytes script root spec h → length h < 2 ^ 62
        → MatchResult result (λ r. (r.replaying.taken.entries ≡ h) × WritesAll spec h options (W.contents output.old) (W.contents output.new) × (r.exit ≡ replay_exit h)) IsBeyond }
{
    let (replaying, mut left) = lines_of_parts(alloc, folder, size, options, output)?;
    let summary = replaying.summary();
    let written = write_end(&mut left, options.format, summary, output);
    drop(left);
    match written {
        Ok(()) => Ok(DisplayedParts {
            replaying,
            exit: exit_of(summary.rejected),
        }),
        Err(error) => {
            drop(replaying);
            Err(error.into())
        }
    }
}

// The lines of what the parts hold.
fn text_of_parts<F: Folder + Drop, A: Allocator + Copy>(
    alloc: A,
    folder: F,
    size: usize,
    options: Options,
) -> Result<Vec<u8, A>, DisplayError>
    requires { 1 ≤ size }
    ensures text { IfOk result (λ text. AreTextOf size (F.state folder) options text.items) }
    ensures fault { IfErr result (λ error. IsTrue (F.state folder).claims_bytes → HaveNoDisplay size (F.state folder).bytes error) }
{
    let mut text = Plain::new(Vec::new(alloc));
    match lines_of_parts(alloc, folder, size, options, &mut text) {
        Ok((replaying, left)) => {
            drop(replaying);
            match joined(text.into_inner(), left) {
                Ok(text) => Ok(text),
                Err(AllocError) => Err(DisplayError::Session(SessionError::Memory)),
            }
        }
        Err(error) => {
            drop(text);
            Err(error)
        }
    }
}

/// `follow`, of a journal in parts.
pub fn follow_parts<F: Folder + Drop, A: Allocator + Copy, W: Sink>(
    alloc: A,
    folder: F,
    size: usize,
    options: Options,
    before: Vec<u8, A>,
    output: &mut W,
) -> Result<Vec<u8, A>, FollowError>
    requires { 1 ≤ size }
    ensures followed { IfOk result (λ text. AreFollowed size (F.state folder) options before.items text.items (W.contents output.old) (W.contents output.new)) }
    ensures fault { IfErr result (AreNotFollowed size (F.state folder) options before.items) }
    ensures silent { IfErr result (λ error. error ≢ FollowError.Output → output.new ≡ output.old) }
    ensures output_failed { IsErrOf result FollowError.Output → W.failures output.old < W.failures output.new }
{
    match text_of_parts(alloc, folder, size, options) {
        Ok(text) => show_on(text, before, output),
        Err(error) => {
            drop(before);
            match error {
                DisplayError::Session(error) => Err(FollowError::Session(error)),
                DisplayError::Output => Err(FollowError::Session(SessionError::Memory)),
            }
        }
    }
}

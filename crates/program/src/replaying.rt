//! The history that a journal holds, judged again.

ghost use Rattle.std.specs.Prelude.{◌≡◌, ◌⊎◌, [], ℕ, List, false, IsTrue, IfOk, IfErr, MatchResult};
ghost use Rattle.term.specs.Specs.{Specified};
ghost use Rattle.journal.specs.Faults.{HasFault};
ghost use Rattle.journal.specs.declared.error.JournalError.{JournalError};
ghost use Rattle.shared.specs.Entry.{Entry};
ghost use Rattle.shared.specs.SessionFaults.{journal_error};
ghost use Rattle.shared.specs.Records.{names_of};
ghost use Rattle.shared.specs.Scripts.{HasNoSession, IsOutside, IsReadAs, IsReplayOf};
ghost use Rattle.wire.specs.Replies.{status_text};
ghost use Rattle.attending.specs.Courses.{status_of};
ghost use Rattle.program.specs.Exits.{rejected_exit, replay_exit};

use crate::summaries::summary_line;
use answers::Exit;
use disk::Disk;
use journal::Header;
use shared::{Session, SessionError};
use std::alloc::Allocator;

/// What a replay comes to.
#[derive(Drop)]
pub struct Replayed<D: Disk, A: Allocator> {
    /// The session that goes on from the journal.
    pub session: Session<D, A>,
    /// The script and the root of the journal.
    pub header: Header<A>,
    /// The counts of the history, as `S` is answered.
    pub line: Vec<u8, A>,
    /// `Rejected` where the history has a rejected report, else `Done`.
    pub exit: Exit,
}

// How a replay ends with so many rejected reports.
pub(crate) fn exit_of(rejected: u64) -> Exit
    ensures { result ≡ rejected_exit rejected }
{
    if rejected > 0 {
        Exit::Rejected
    } else {
        Exit::Done
    }
}

/// Judges the records of the journal on the disk again: the session that goes on from it, the line with its counts, and the exit status.
/// The errors are those of `Session::replay`, or `Memory`.
pub fn replay<D: Disk + Drop, A: Allocator + Copy>(
    alloc: A,
    disk: D,
) -> Result<Replayed<D, A>, SessionError>
    // The file holds the session's history, of which each verdict is that of what its script denotes.
    ensures replayed { IfOk result (λ r. IsTrue (D.state disk).claims_bytes
        → IsReplayOf (D.state disk).bytes r.header.script.items r.header.root.items r.session.spec r.session.history) }
    ensures read { IfOk result (λ r. IsReadAs (names_of r.header.version) r.header.script.items r.header.root.items r.session.spec) }
    ensures none_offered { IfOk result (λ r. r.session.offered ≡ []) }
    ensures line { IfOk result (λ r. r.line.items ≡ status_text (status_of r.session.history false)) }
    ensures exit { IfOk result (λ r. r.exit ≡ replay_exit r.session.history) }

    // Or the file has no session for this reason.
    ensures fault { IfErr result (λ error. IsTrue (D.state disk).claims_bytes → HasNoSession (D.state disk).bytes error) }

    // A file that holds a history gives it, with what its script denotes, and one that has a fault is refused for it,
    // device and memory apart.
    ensures only { IsTrue (D.state disk).claims_bytes → (script root : List ℕ) (spec : Specified) (h : List Entry)
        → IsReplayOf (D.state disk).bytes script root spec h
        → MatchResult result (λ r. (r.session.spec ≡ spec) × (r.session.history ≡ h)) IsOutside }
    ensures refuses { IsTrue (D.state disk).claims_bytes → (error : JournalError) → HasFault (D.state disk).bytes error
        → MatchResult result (λ _. ⊥) (λ e. (e ≡ journal_error error) ⊎ IsOutside e) }
{
    let (session, header) = match Session::replay(alloc, disk, None) {
        Ok(replayed) => replayed,
        Err((error, disk)) => {
            drop(disk);
            return Err(error);
        }
    };
    let summary = session.summary();
    match summary_line(alloc, summary, false) {
        Ok(line) => Ok(Replayed {
            session,
            header,
            line,
            exit: exit_of(summary.rejected),
        }),
        Err(_) => {
            drop(session);
            drop(header);
            Err(SessionError::Memory)
        }
    }
}

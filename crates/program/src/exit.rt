//! The exit statuses.

ghost use Rattle.std.specs.Prelude.{◌≡◌};
ghost use Rattle.program.specs.Exits.{attended_exit, exit_of, opening_exit, script_exit, journal_exit};

use answers::Exit;
use attending::Ending;
use shared::SessionError;
use tokens::{ScriptError, ScriptErrorKind};
use wire::{End, Tally, WireError};

/// After a conversation, by how it ended and what was answered: `FileFailed` where reading or writing failed; then `Rejected` where
/// a report was, `Limit` where a line was answered with a fault or memory ran out, `Misuse` where a line was no command, named no
/// event or was too long; else `Done`.
pub fn exit_after(end: Result<End, WireError>, tally: Tally) -> Exit
    ensures { result ≡ exit_of end tally }
{
    match end {
        Err(WireError::Read) | Err(WireError::Write) => Exit::FileFailed,
        Err(WireError::Memory) => Exit::Limit,
        Ok(_) if tally.rejected => Exit::Rejected,
        Ok(_) if tally.limit => Exit::Limit,
        Ok(End::Line) => Exit::Misuse,
        Ok(_) if 0 < tally.unjudged => Exit::Misuse,
        Ok(_) => Exit::Done,
    }
}

/// After a check line by line, as after any conversation: one that its first rejected report ended is `Rejected`.
pub fn exit_of_attended(end: Result<Ending, WireError>, tally: Tally) -> Exit
    ensures { result ≡ attended_exit end tally }
{
    match end {
        Ok(Ending::Rejected) => Exit::Rejected,
        Ok(Ending::By(end)) => exit_after(Ok(end), tally),
        Err(error) => exit_after(Err(error), tally),
    }
}

/// Where a script is refused: `Limit` where memory ran out, else `BadScript`.
pub fn exit_of_script(fault: &ScriptError) -> Exit
    ensures { result ≡ script_exit fault.now }
{
    match fault.kind {
        ScriptErrorKind::Memory => Exit::Limit,
        _ => Exit::BadScript,
    }
}

/// Where a session of a script doesn't open.
pub fn exit_of_opening(error: &SessionError) -> Exit
    ensures { result ≡ opening_exit error.now }
{
    match error {
        SessionError::Script(fault) => exit_of_script(fault),
        SessionError::Device => Exit::FileFailed,
        _ => Exit::Limit,
    }
}

/// Where a journal gives no session: `FileFailed` where its file failed, `Limit` for a limit or where memory ran out, else `BadJournal`.
pub fn exit_of_journal(error: &SessionError) -> Exit
    ensures { result ≡ journal_exit error.now }
{
    match error {
        SessionError::Device => Exit::FileFailed,
        SessionError::Depth | SessionError::States | SessionError::History | SessionError::Memory =>
            Exit::Limit,
        SessionError::Script(fault) => match fault.kind {
            ScriptErrorKind::Memory => Exit::Limit,
            _ => Exit::BadJournal,
        },
        SessionError::BadHeader
        | SessionError::Truncated
        | SessionError::BadRecord(_)
        | SessionError::OtherVerdict(_)
        | SessionError::Part(_) => Exit::BadJournal,
    }
}

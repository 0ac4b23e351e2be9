//! The faults of journals in parts, as those of sessions.
ghost use Rattle.std.specs.Prelude.{◌≡◌};
ghost use Rattle.large_sessions.specs.Sessions.{parts_error};

use parts::PartsError;
use session::SessionError;

/// The fault, as a session tells it.
pub(crate) fn error_of(error: PartsError) -> SessionError
    ensures { result ≡ parts_error error }
{
    match error {
        PartsError::Journal(error) => SessionError::from(error),
        PartsError::Part(number) => SessionError::Part(number),
    }
}

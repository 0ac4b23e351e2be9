//! Why a part of a script isn't read.
ghost use Rattle.std.specs.Prelude.{◌≡◌};
ghost use Rattle.tokens.specs.declared.read_error.ReadError.TheVariants.{Fault, Memory};
ghost use Rattle.tokens.specs.Unreads.{reported};

use crate::error::{ScriptError, ScriptErrorKind};
use crate::position::Position;
use std::alloc::{AllocError, AllocFailed};

/// Why a part of a script isn't read: something is wrong with it, or memory ran out, which is no fault of the script.
#[derive(Clone, Copy, Debug)]
pub enum ReadError {
    Fault(ScriptError),
    Memory,
}

impl From<ScriptError> for ReadError {
    ghost from_gives = { λ error read_error. read_error ≡ Fault error };

    fn from(error: ScriptError) -> ReadError {
        ReadError::Fault(error)
    }
}

impl From<AllocError> for ReadError {
    ghost from_gives = { λ _ read_error. read_error ≡ Memory };

    fn from(_e: AllocError) -> ReadError {
        ReadError::Memory
    }
}

impl<T: Drop> From<AllocFailed<T>> for ReadError {
    ghost from_gives = { λ _ read_error. read_error ≡ Memory };

    fn from(_e: AllocFailed<T>) -> ReadError {
        ReadError::Memory
    }
}

impl From<ReadError> for ScriptError {
    ghost from_gives = { λ read_error error. error ≡ reported read_error };

    fn from(read_error: ReadError) -> ScriptError {
        match read_error {
            ReadError::Fault(error) => error,
            ReadError::Memory => ScriptError {
                line: Position::Line(1),
                kind: ScriptErrorKind::Memory,
            },
        }
    }
}

/// A fault of this kind there.
pub fn fault(line: Position, kind: ScriptErrorKind) -> ReadError
    ensures { result ≡ Fault (record { line = line; kind = kind }) }
{
    ReadError::Fault(ScriptError { line, kind })
}

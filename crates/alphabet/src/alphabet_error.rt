//! Why a channel isn't declared.

ghost use Rattle.std.specs.Prelude.{◌≡◌, Some};
ghost use Rattle.alphabet.specs.AlphabetErrors.{code_of, word_of, error_text};

use std::fmt;

/// Why a channel isn't declared. The text is the number and the word.
#[derive(Clone, Copy, Debug, PartialEq, Eq)]
pub enum AlphabetError {
    /// A channel of this name is declared already.
    Redeclared,
    /// The alphabet would have more than 256 events.
    TooManyEvents,
    /// A growth was refused.
    Memory,
}

impl AlphabetError {
    /// The fault's number. Constant cost.
    pub fn code(&self) -> u8
        ensures { result ≡ code_of self.now }
    {
        match self {
            AlphabetError::Redeclared => 5,
            AlphabetError::TooManyEvents => 8,
            AlphabetError::Memory => 40,
        }
    }

    /// The fault's word. Constant cost.
    pub fn word(&self) -> &'static str
        ensures { result.now ≡ word_of self.now }
    {
        match self {
            AlphabetError::Redeclared => "redeclared",
            AlphabetError::TooManyEvents => "events",
            AlphabetError::Memory => "memory",
        }
    }
}

impl fmt::Display for AlphabetError {
    ghost output = { λ error. Some (error_text error) };

    fn fmt<W: fmt::Write>(&self, f: &mut fmt::Formatter<W>) -> fmt::Result {
        write!(f, "{} {}", self.code(), self.word())
    }
}

impl std::error::Error for AlphabetError {}

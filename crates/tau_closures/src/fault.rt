//! Why there is no set of states.

ghost use Rattle.std.specs.Prelude.{◌≡◌};
ghost use Rattle.tau_closures.specs.Faults.{code_of, word_of};

use std::alloc::{AllocError, AllocFailed};
use thiserror::Error;

/// Why there is no set of states.
#[derive(Clone, Copy, Debug, PartialEq, Eq, Error)]
pub enum AfterFault {
    /// A state is deeper than a state may be.
    #[error("20 depth")]
    Depth,
    /// There are more states than a set may have.
    #[error("21 states")]
    States,
    /// Memory is wanting.
    #[error("40 memory")]
    Memory,
}

impl AfterFault {
    /// The number of the fault.
    pub fn code(&self) -> u8
        ensures { result ≡ code_of self.now }
    {
        match self {
            AfterFault::Depth => 20,
            AfterFault::States => 21,
            AfterFault::Memory => 40,
        }
    }

    /// The word of the fault. It is `depth`, `states` or `memory`. The fault's text is its number (`code`), a space and
    /// this word: `20 depth`, which a client reads in the line `ERR 20 depth`. The number alone tells the faults apart;
    /// the word is for the reader. Constant cost; takes no memory.
    pub fn word(&self) -> &'static str
        ensures { result.now ≡ word_of self.now }
    {
        match self {
            AfterFault::Depth => "depth",
            AfterFault::States => "states",
            AfterFault::Memory => "memory",
        }
    }
}

impl From<AllocError> for AfterFault {
    ghost use Rattle.tau_closures.specs.declared.fault.AfterFault.TheVariants.{Memory};

    ghost from_gives = { λ _ fault. fault ≡ Memory };

    fn from(_: AllocError) -> AfterFault {
        AfterFault::Memory
    }
}

impl<T: Drop> From<AllocFailed<T>> for AfterFault {
    ghost use Rattle.tau_closures.specs.declared.fault.AfterFault.TheVariants.{Memory};

    ghost from_gives = { λ _ fault. fault ≡ Memory };

    fn from(_: AllocFailed<T>) -> AfterFault {
        AfterFault::Memory
    }
}

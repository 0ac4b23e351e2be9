//! Why the targets of a term's steps can't be found.

ghost use Rattle.std.specs.Prelude.{◌≡◌};
ghost use Rattle.step.specs.Faults.{code_of, word_of};

use std::alloc::AllocError;
use thiserror::Error;

/// Why the targets of a term's steps can't be found.
#[derive(Clone, Copy, Debug, PartialEq, Eq, Error)]
pub enum StepFault {
    /// A target is deeper than a state may be.
    #[error("20 depth")]
    Depth,
    /// Memory is wanting.
    #[error("40 memory")]
    Memory,
}

impl StepFault {
    /// The number of the fault.
    pub fn code(&self) -> u8
        ensures { result ≡ code_of self.now }
    {
        match self {
            StepFault::Depth => 20,
            StepFault::Memory => 40,
        }
    }

    /// The word of the fault.
    pub fn word(&self) -> &'static str
        ensures { result.now ≡ word_of self.now }
    {
        match self {
            StepFault::Depth => "depth",
            StepFault::Memory => "memory",
        }
    }
}

impl From<AllocError> for StepFault {
    ghost use Rattle.step.specs.declared.fault.StepFault.TheVariants.{Memory};

    ghost from_gives = { λ _ fault. fault ≡ Memory };

    fn from(_: AllocError) -> StepFault {
        StepFault::Memory
    }
}

//! Why a history isn't shown whole.

use std::alloc::AllocError;

/// Why a history isn't shown whole.
#[derive(Clone, Copy, Debug, PartialEq, Eq)]
pub enum ShowError {
    /// There was no memory for it.
    Memory,
    /// The output failed.
    Output,
}

impl From<AllocError> for ShowError {
    ghost use Rattle.std.specs.Prelude.{◌≡◌};
    ghost use Rattle.shown.specs.declared.error.ShowError.TheVariants.{Memory};

    ghost from_gives = { λ _ error. error ≡ Memory };

    fn from(_: AllocError) -> ShowError {
        ShowError::Memory
    }
}

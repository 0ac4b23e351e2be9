//! Why there is no value.
ghost use Rattle.std.specs.Prelude.{◌≡◌, None};
ghost use Rattle.cspm_values.specs.declared.stop.Stop.TheVariants.{Fault, Beyond, Memory};

use std::alloc::{AllocError, AllocFailed};

/// What an evaluation may go beyond.
#[derive(Clone, Copy, Debug, PartialEq, Eq)]
pub enum Limit {
    /// The size of a number.
    Numbers,
    /// How many members a set or a sequence has, and how many choices generators have together.
    Members,
    /// How many values stand in one another.
    Height,
    /// How many phrases are evaluated in one another, calls included.
    Phrases,
}

/// What kind of value a value is.
#[derive(Clone, Copy, Debug, PartialEq, Eq)]
pub enum Sort {
    Number,
    Truth,
    Constructor,
    Tuple,
    Sequence,
    Set,
}

/// What is wrong with a phrase.
#[derive(Clone, Copy, Debug, PartialEq, Eq)]
pub enum FaultKind {
    /// A value of one kind is wanted, and one of another was found.
    Sort { wanted: Sort, found: Sort },
    /// The values have no order, or don't fit an operator.
    Unfit { found: Sort },
    /// More or fewer arguments than are wanted.
    Arguments,
    /// A division by zero.
    Division,
    /// The first member, or the rest, of an empty sequence; the intersection of no sets.
    Empty,
    /// A name means nothing.
    Unknown,
    /// No clause of a function takes the arguments.
    Clause,
    /// The phrase has another form than is wanted.
    Form,
    /// The value to the left of a dot takes no more arguments.
    Full,
}

/// Why there is no value: a fault of the script, something beyond a limit, or no memory. Where it came from may stand beside it, as
/// the place of a phrase.
#[derive(Clone, Copy, Debug)]
pub enum Stop {
    Fault(FaultKind, Option<u32>),
    Beyond(Limit, Option<u32>),
    Memory,
}

impl From<AllocError> for Stop {
    ghost from_gives = { λ _ stop. stop ≡ Memory };

    fn from(_e: AllocError) -> Stop {
        Stop::Memory
    }
}

impl<T: Drop> From<AllocFailed<T>> for Stop {
    ghost from_gives = { λ _ stop. stop ≡ Memory };

    fn from(_e: AllocFailed<T>) -> Stop {
        Stop::Memory
    }
}

/// A fault whose place isn't known yet.
pub fn fault(kind: FaultKind) -> Stop
    ensures { result ≡ Fault kind None }
{
    Stop::Fault(kind, None)
}

/// Something beyond a limit, whose place isn't known yet.
pub fn beyond(limit: Limit) -> Stop
    ensures { result ≡ Beyond limit None }
{
    Stop::Beyond(limit, None)
}

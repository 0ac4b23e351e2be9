//! What is asked, and what comes of it.

use alphabet::{Event, EventSet};
use spaces::AfterFault;
use std::alloc::{AllocError, AllocFailed, Allocator};

/// In which model one process is to refine the other.
#[derive(Clone, Copy, Debug, PartialEq, Eq)]
pub enum Refinement {
    /// Each trace of the implementation is one of the specification.
    Traces,
    /// So is each stable failure.
    Failures,
}

/// What the implementation does after a trace and the specification doesn't.
#[derive(Clone, Copy)]
pub enum Broken {
    /// It takes this event.
    Event(Event),
    /// It refuses this set.
    Refusal(EventSet),
}

/// A trace of both, and what only the implementation does after it.
#[derive(Drop)]
pub struct Counterexample<A: Allocator> {
    pub trace: Vec<Event, A>,
    pub broken: Broken,
}

/// Why it isn't decided.
#[derive(Clone, Copy, Debug, PartialEq, Eq)]
pub enum Fault {
    /// The specification meets a limit.
    Specification(AfterFault),
    /// The implementation meets a limit.
    Implementation(AfterFault),
    /// There are more pairs of sets, or more sets of one process, than may be kept.
    Pairs,
    /// Memory is wanting.
    Memory,
}

impl From<AllocError> for Fault {
    ghost use Rattle.std.specs.Prelude.{◌≡◌};
    ghost use Rattle.refinement.specs.declared.outcome.Fault.TheVariants.{Memory};

    ghost from_gives = { λ _ fault. fault ≡ Memory };

    fn from(_: AllocError) -> Fault {
        Fault::Memory
    }
}

impl<T: Drop> From<AllocFailed<T>> for Fault {
    ghost use Rattle.std.specs.Prelude.{◌≡◌};
    ghost use Rattle.refinement.specs.declared.outcome.Fault.TheVariants.{Memory};

    ghost from_gives = { λ _ fault. fault ≡ Memory };

    fn from(_: AllocFailed<T>) -> Fault {
        Fault::Memory
    }
}

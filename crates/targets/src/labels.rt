//! What steps show, and how deep a state may be.

use alphabet::Event;

/// The greatest depth of a state.
pub const DEEPEST_STATE: u64 = 1000;

/// What a step shows.
#[derive(Clone, Copy, Debug, PartialEq, Eq)]
pub enum Label {
    /// Nothing: the step is hidden.
    Tau,
    /// An event of Sigma, or termination.
    Event(Event),
}

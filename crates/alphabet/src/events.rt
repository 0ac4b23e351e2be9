//! Events, and what a component reports.

use crate::event_set::EventSet;

/// An event of an alphabet, by its number in alphabet order, or termination.
#[derive(Clone, Copy, Debug, PartialEq, Eq)]
pub enum Event {
    /// Termination, which is outside Sigma.
    Tick,
    /// The event of Sigma with this number. The first event has number 0.
    Of(u8),
}

impl Event {
    /// Termination.
    pub const TICK: Event = Event::Tick;
}

/// What a component reports: that an event happened, or that a set of events is refused.
#[derive(Clone, Copy, Debug, PartialEq, Eq)]
pub enum Report {
    Event(Event),
    Refusal(EventSet),
}

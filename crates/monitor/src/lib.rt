//! A monitor judges what a component reports against a specification.
//!
//! It keeps the trace of the accepted events, and the states in which the specification may be after it. `judge` tells
//! whether a report is accepted after this trace, and `commit` makes the trace longer by an accepted event.
#![tactic(auto)]

mod crossing;
mod monitor;

pub use crossing::monitor_crosses;
pub use monitor::{Judged, Monitor};
pub use spaces::{AfterFault, crosses};

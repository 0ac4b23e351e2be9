//! The sets of states in which a process may be after a trace, by number.
//!
//! A space keeps each set once, with what is known of it, and remembers what comes of a set by an event. A set is a number
//! in its space. It answers for traces and failures: which events go on from its trace, and what is refused there.
#![tactic(auto)]

mod crossing;
mod facts;
mod found;
mod keys;
mod offers;
mod space;
mod states;

pub use crossing::{crosses, space_crosses};
pub use found::{MOST_MEMBERS, MOST_NEW_PROCESSES};
pub use space::{MOST_REMEMBERED, Space};
pub use states::StateSet;
pub use tau_closures::AfterFault;

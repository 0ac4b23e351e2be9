//! The events that a specification speaks of: their names, their numbers, and sets of them.
#![tactic(auto)]

mod alphabet_error;
mod copying;
mod event_set;
mod events;
mod field_value;
mod half;
mod names;
mod naming;
mod table;

pub use alphabet_error::AlphabetError;
pub use copying::copy_of;
pub use event_set::{EventSet, Members};
pub use events::{Event, Report};
pub use field_value::{Field, Value};
pub use names::is_name;
pub use table::{Alphabet, SIGMA_LIMIT};

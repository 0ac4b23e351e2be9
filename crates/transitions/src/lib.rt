//! What processes become by steps, by number: found from what their parts become, and remembered.
#![tactic(auto)]

mod by_number;
mod depths;
mod events;
mod keys;
mod lists;
mod memory;
mod transitions;
mod walk;

pub use transitions::{MOST_STATES, Transitions};

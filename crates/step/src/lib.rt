//! The steps of a term by the table of `docs/SEMANTICS.md`: what it becomes by one, whether it is stable, and what it offers.
//!
//! Calls for one term alone, made of what the program asks of processes by number (`nodes`, `transitions`).
#![tactic(auto)]

mod fault;
mod finding;
mod looks;

pub use fault::StepFault;
pub use finding::steps;
pub use looks::{can_tick, is_stable, offers};
pub use targets::{DEEPEST_STATE, Label};

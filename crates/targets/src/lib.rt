//! What the steps of a process are by their labels, and what the targets of its steps are as lists.
//!
//! The definitions (what a process offers, whether it rests, whether it can terminate, and cuts: targets each once, as far as a
//! bound) and the laws by which they are found from those of a process's parts. `nodes` and `transitions` find them for the
//! program; `step` asks these of a term.
#![tactic(auto)]

mod labels;

pub use labels::{DEEPEST_STATE, Label};

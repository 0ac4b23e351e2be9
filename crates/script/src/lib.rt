//! The specification that a script denotes for a root, and the printed form of a specification.
#![tactic(auto)]

mod fields;
mod law;
mod names;
mod printed;
mod reading;
mod root;
mod rows;
mod script;
mod sigma;
mod standing;
mod table;

pub use law::{names_are_processes, one_reading, roots_are_lines};
pub use printed::print;
pub use reading::read;

//! The printed form of a specification: a text of the language that denotes it.
#![tactic(auto)]

mod declarations;
mod names;
mod processes;
mod whole;

pub use whole::print;

//! How the rows of the programs that play rows of text are read, and how what came of one is written.
#![tactic(auto)]

mod output;
mod refusing;
mod words;

pub use output::Output;
pub use refusing::Refusing;
pub use words::{first_word, number_of, parts};

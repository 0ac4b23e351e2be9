//! What is answered to reports and to questions: receipts, counts, faults with their numbers and words; and how the program ends.
#![tactic(auto)]

mod exit;
mod fault;
mod receipt;

pub use exit::Exit;
pub use fault::Fault;
pub use receipt::{Receipt, Status, Summary};

//! Sets of processes by number, closed under hidden steps level by level.
#![tactic(auto)]

mod breadth;
mod closing;
mod fault;
mod kept;
mod kept_sets;
pub mod laws;
mod numbers;
mod plain_sets;
mod sets;

pub use fault::AfterFault;
pub use keeping::States;
pub use nodes::{Facts, Table};
pub use sets::{advance, start};
pub use transitions::Transitions;

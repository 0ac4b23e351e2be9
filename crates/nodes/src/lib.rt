//! Processes by number: each is a node over the numbers of its parts, and stands once in a table.
#![tactic(auto)]

mod acts;
mod copies;
mod facts;
mod hids;
mod lists;
mod node;
mod offers;
mod places;
mod table;
mod terms;
mod trees;

pub use facts::{Facts, facts_of_term};
pub use node::Node;
pub use places::Place;
pub use table::Table;

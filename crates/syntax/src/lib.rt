//! The syntax trees of scripts.
#![tactic(auto)]

mod ahead;
mod fault;
mod form;
mod law;
mod left_out;
mod limits;
mod operator;
mod parts;
mod phrase;
mod piece;
mod reading;
mod script;
mod tree;

pub use form::Form;
pub use law::{one_phrase, one_tree};
pub use operator::Operator;
pub use phrase::parse_phrase;
pub use script::parse;
pub use tree::Tree;

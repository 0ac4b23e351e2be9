//! What numbers, sets, truths and names of a script mean.
#![tactic(auto)]

mod input;
mod known;
mod law;
mod number;
mod phrase;
mod sets;
mod truths;
mod value;
mod worth;

pub use input::{Input, is_value};
pub use known::Known;
pub use law::steps_reach_all;
pub use phrase::stands_for;
pub use sets::{SET_LIMIT, Values};
pub use value::Value;
pub use worth::{Worth, constant_set, the_set, the_truth, the_value};

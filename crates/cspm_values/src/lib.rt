//! Values of CSPM: numbers, truths, constructors with their arguments, tuples, sequences and sets, and what operators and functions
//! make of them.
#![tactic(auto)]

mod function;
mod height;
mod law;
mod making;
mod number;
mod operator;
mod order;
mod parts;
mod range;
mod sequence;
mod set;
mod stop;
mod value;

pub use function::{Function, applied};
pub use height::{HEIGHT_LIMIT, is_within, sized};
pub use law::{sets_of_the_same, values_in_order};
pub use making::{Kind, MEMBER_LIMIT, fitting, made};
pub use number::{LARGEST_NUMBER, LEAST_NUMBER, limited, negated};
pub use operator::{Operator, negated_truth, operated};
pub use order::{compare, is_same};
pub use parts::{first_value, number_value, the_members, the_truth, truth_value};
pub use range::ranged;
pub use stop::{FaultKind, Limit, Sort, Stop, beyond, fault};
pub use value::{Head, Value, all_copied, copied, copied_head, sort_of, split, with_parts};

//! What phrases for events, sets of events, fields and renamings are where a script's names are known: the definitions, and the
//! sets, pairs and inputs that phrases give by them.
#![tactic(auto)]

mod beginning;
mod events;
mod fields;
pub mod forms;
mod global_scope;
mod leading;
mod pairs;
mod prefix;
mod renaming;
mod row;
mod scope;
mod sets;
mod uses;

pub use fields::prefix_of;
pub use global_scope::{GlobalScope, Set, Wanted};
pub use leading::next_fitting;
pub use pairs::ordered;
pub use prefix::Prefix;
pub use renaming::pairs_of;
pub use row::Row;
pub use scope::{Scope, behind_input, copies, wanted_truth, wanted_value, wanted_values};
pub use sets::{set_of_events, two_sets, wanted_events};

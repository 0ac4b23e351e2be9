//! The names that a script declares, and what they mean.
#![tactic(auto)]

mod entering;
mod entries;
mod faults;
mod law;
mod lookups;
mod order;
mod parameters;
mod part;
mod process_answers;
mod processes;
mod search;
mod standing;

pub use entering::{declarations_of, distinct_entries, name_list, set_list};
pub use entries::{Entries, Entry, Meaning};
pub use faults::fault_of_names;
pub use law::trees_have_names;
pub use parameters::parameters_fit;
pub use part::{Part, no_parts, only_part, part_of, two_parts, worth_alone};
pub use processes::{Answer, answer_of, is_process_form};
pub use search::{Learner, learn_names};
pub use standing::table_of_names;

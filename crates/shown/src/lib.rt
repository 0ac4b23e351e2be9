//! What a judged history looks like: a line for each entry, and how often each event came and could come.
#![tactic(auto)]

mod counts;
mod coverage;
mod entries;
mod error;
mod laws;
mod lines;
mod names;
mod nearness;
mod options;
mod progress;
mod reasons;
mod remarks;
mod said;
mod showing;
mod tally;

pub use entries::follow;
pub use error::ShowError;
pub use laws::{one_list_of_acceptances, one_text};
pub use monitor::Monitor;
pub use options::{Format, Options, Selection};
pub use reasons::put_reason;
pub use showing::Showing;

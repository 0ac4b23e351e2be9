//! What a script declares: its names with what they mean, and the events of its channels.
#![tactic(auto)]

mod declared;
mod diagnosis;
mod found;
mod kinds;
mod needs;
mod phrase_kinds;
mod sight;
mod sigma;

pub use declared::{Declared, declare};
pub use diagnosis::{
    fault_of_beginning, fault_of_call, fault_of_channel, fault_of_name, fault_of_phrase,
};
pub use kinds::Wanted;

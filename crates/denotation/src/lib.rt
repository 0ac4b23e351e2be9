//! What a script denotes: what its phrases for processes denote, and the specification that it denotes for a root; a law, and the
//! bodies made by this definition.
#![tactic(auto)]

mod ahead;
mod call;
mod calls;
mod choice;
mod draft;
mod forms;
mod gathering;
mod joining;
mod law;
mod maker;
mod making;
mod numbering;
mod replicated;
mod room;
mod root;
mod simple;
mod walk;

pub use draft::{Joint, Operation};
pub use forms::Join;
pub use gathering::gathered;
pub use law::one_specification;
pub use root::Root;

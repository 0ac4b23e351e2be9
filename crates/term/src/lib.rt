//! Terms of CSP, and what they mean.
#![tactic(auto)]

pub mod laws;
mod names;
mod spec;
mod terms;

pub use names::Names;
pub use spec::Spec;
pub use terms::Term;

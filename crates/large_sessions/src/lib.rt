//! Sessions whose journal is in parts: how one begins, and how one goes on from what the parts hold.
//!
//! A journal in parts is replayed one part after the other: the entries of a part can be let go before the next one is read, so that no more
//! memory is taken than for one part, however long the history is.
#![tactic(auto)]

mod creating;
mod error;
mod replaying;

pub use creating::create;
pub use parts::Parts;
pub use replaying::Replaying;

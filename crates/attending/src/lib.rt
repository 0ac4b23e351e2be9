//! A check line by line: what is wanted beside the replies to all lines.
//!
//! `attend` answers the lines of a reader one after the other from a session of its own, and writes on a stream for errors why each report
//! was rejected, leaves out the replies to accepted reports, or ends after the first rejected one. The replies are those of the line
//! protocol.
#![tactic(auto)]

mod alone;
mod attendant;
mod attending;
mod engine;
mod manner;
mod reasons;

pub use attending::{Attended, attend};
pub use manner::{Ending, Manner};

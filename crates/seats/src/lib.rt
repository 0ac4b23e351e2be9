//! A seat at a shared session, as a judge of the line protocol.
//!
//! `SeatJudge` answers the lines of one connection by one seat. Each `OK n` or `NO n` that it writes is the verdict and the place
//! of that line's own entry, in a legal history that begins with all that the seat had seen. In a service `ServiceJudge` does, where a
//! client may come back by a name.
#![tactic(auto)]

mod groups;
mod judge;
mod service;

pub use judge::SeatJudge;
pub use service::ServiceJudge;

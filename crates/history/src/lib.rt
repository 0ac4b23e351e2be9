//! Histories: what seats reported and how it was judged, one entry a report.
//!
//! `History` is a list of entries that counts those of each seat as it grows. `LegalHistory` holds one beside a monitor: each
//! entry has the verdict of the specification after the accepted events before it, and is its seat's next.
//!
//! The first entries can be let go: contracts still speak of all, and what is asked at each report is answered of all.
#![tactic(auto)]

mod crossing;
mod entry;
mod history;
mod legal;
mod onlooker;
mod seat;

pub use answers::Summary;
pub use crossing::legal_crosses;
pub use entry::Entry;
pub use history::{HISTORY_LIMIT, History, LARGE_HISTORY_LIMIT};
pub use legal::{Candidate, LegalHistory};
pub use monitor::{AfterFault, Monitor, crosses};
pub use onlooker::{Nobody, Onlooker};
pub use seat::{LARGE_LAST_SEAT, LAST_SEAT, SeatNumber};

//! A session that threads share: one lock, and one legal history, in which each seat finds its own reports in its own order.
//!
//! `Shared` gives seats. A `Seat` reports under the lock, and looks at a status without it. What a seat knows and has done is its
//! `Share`, which may be moved to another thread, made a seat again, and handed to `Shared::finish`.
//!
//! In a service (`Shared::service`) seats come and go: `Places` has the places that are free, to which `Shared::leave` gives one back. A
//! seat may take a name there, by which it comes back.
#![tactic(auto)]

mod ending;
mod places;
mod seat;
mod share;
mod turns;

pub use answers::{Receipt, Status};
pub use locked::{
    Board, Counts, Entry, Failed, Fault, Front, History, LAST_NAME, Monitor, NameFault, Names,
    Naming, Nobody, Onlooker, Opened, Publisher, ReadScript, Recorder, SeatNumber, Session,
    SessionError, SessionOn, Sharing, Source, Spine, Summary, Waiting, crosses,
    headers_take_scripts, legal_crosses, names_of, read_as,
};
pub use places::Places;
pub use seat::{Seat, Shared};
pub use share::{GROUP, Round, Share};

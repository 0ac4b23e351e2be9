//! What lies under the lock of a session that threads share.
//!
//! `Locked` judges reports one after the other and offers their entries; `settle` writes all that is offered, adds it to the list of settled
//! entries, and publishes it. Whoever has it has it alone; that threads share it is for `shared`. `close` ends its board, which leaves the
//! session and the book of all that was offered.
#![tactic(auto)]

mod closing;
mod fault;
mod locked;
mod names;
mod sharing;
mod waiting;

pub use alphabet::{EventSet, Report};
pub use board::{
    Board, BoardReader, Counts, Front, Naming, Opened, Publisher, Source, Spine, look,
};
pub use closing::close;
pub use fault::NameFault;
pub use locked::{Locked, is_of};
pub use names::{LAST_NAME, Names};
pub use session::{
    Entry, Failed, Fault, History, Monitor, Nobody, Onlooker, ReadScript, Recorder, SeatNumber,
    Session, SessionError, SessionOn, Summary, crosses, headers_take_scripts, legal_crosses,
    names_of, read_as,
};
pub use sharing::Sharing;
pub use waiting::Waiting;

//! Connections, each served by a thread of its own at a place of its own.
//!
//! `Accept` says where connections come from, and `Gate` where they are served. `serve_all` takes so many connections, waits until
//! all are over, and answers what came of each. `serve_on` takes connections without end, and gives their places again.
#![tactic(auto)]

mod gate;
mod lingering;
mod number;
mod outcome;
mod services;
mod tcp;
mod threads;
mod totals;
mod unix;
mod visits;

pub use gate::{Accept, AcceptFault, Close, Gate, Listen, Over, Reusable};
pub use number::Connections;
pub use outcome::{Ending, Outcome, part};
pub use services::{Closed, Terms, serve_on};
pub use tcp::TcpAccept;
pub use threads::{Served, serve_all};
pub use totals::Totals;
pub use unix::UnixAccept;

//! A session that is served over connections, each by a thread of its own at a seat of its own: so many, or as a service without
//! end; and the session of a script on a journal that may be there already.
#![tactic(auto)]

mod opening;
mod opening_parts;
mod runs;
mod service_gate;
mod services;
mod sessions;
mod shared_gate;

pub use connections::{
    Accept, AcceptFault, Closed, Connections, Ending, Gate, Listen, Outcome, Over, Reusable,
    Served, TcpAccept, Terms, Totals, UnixAccept, serve_all, serve_on,
};
pub use large_sessions::Parts;
pub use opening::{OpenError, open};
pub use opening_parts::open_parts;
pub use runs::{Plan, Run, exit_of, serve};
pub use service_gate::ServiceGate;
pub use services::{ClosedService, serve_service};
pub use sessions::{Closing, serve_session};
pub use shared::{ReadScript, Recorder, SessionOn};
pub use shared_gate::SharedGate;

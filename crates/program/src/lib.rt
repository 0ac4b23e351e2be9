//! What the commands do, over any reader, writer and disk. Each call's contract is the promise of its command.
//!
//! `check` judges the lines of a reader by what a script denotes, `replay` judges a journal's records again, `show` writes what it found
//! of each and `follow` what came since, `print` prints what a script denotes, and `serve` is the whole of a server: a session on a journal, the
//! connections that are served at it, and how it ends. An `Exit` is the program's exit status.
#![tactic(auto)]

mod checking;
mod exit;
mod following;
mod forms;
mod in_parts;
mod replaying;
mod served;
mod showing;
mod summaries;

pub use answers::Exit;
pub use attending::{Attended, Ending, Manner, attend};
pub use checking::{Checked, check};
pub use exit::{exit_after, exit_of_attended, exit_of_journal, exit_of_opening, exit_of_script};
pub use following::{FollowError, follow};
pub use forms::{PrintError, print};
pub use in_parts::{DisplayedParts, ReplayedParts, follow_parts, replay_parts, show_parts};
pub use large_sessions::Replaying;
pub use replaying::{Replayed, replay};
pub use served::{Demand, Doors, Line, Served, Unserved, serve, serve_parts};
pub use shared::{ReadScript, Session, SessionError, Summary};
pub use showing::{DisplayError, Displayed, show};
pub use shown::{Format, Options, Selection};
pub use summaries::summary_line;

//! What is wanted of a check, and how it ends.

use wire::End;

/// What is wanted of a check beside the replies to all lines.
#[derive(Clone, Copy, Debug, PartialEq, Eq)]
pub struct Manner {
    /// Why each report was rejected is written on the errors.
    pub explain: bool,
    /// Replies to accepted reports aren't written.
    pub quiet: bool,
    /// The first rejected report ends the check.
    pub first: bool,
}

/// How a check ended.
#[derive(Clone, Copy, Debug, PartialEq, Eq)]
pub enum Ending {
    /// As any conversation ends.
    By(End),
    /// By a report that was rejected, the first one.
    Rejected,
}

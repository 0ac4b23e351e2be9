//! The answer to a report that was judged, and the counts of a history.

/// The answer to a report that was judged.
#[derive(Clone, Copy, Debug, PartialEq, Eq)]
pub struct Receipt {
    /// Whether the report was accepted.
    pub verdict: bool,
    /// The place of the report's entry in the history, counted from 1.
    pub place: u64,
}

/// How many reports of a history were judged, and how.
#[derive(Clone, Copy, Debug, PartialEq, Eq)]
pub struct Summary {
    /// All entries.
    pub judged: u64,
    /// The accepted events.
    pub events: u64,
    /// The accepted refusals.
    pub refusals: u64,
    /// The rejected reports.
    pub rejected: u64,
}

/// The counts of a history, and whether the session is known to be closed: it takes no more reports.
#[derive(Clone, Copy, Debug, PartialEq, Eq)]
pub struct Status {
    pub summary: Summary,
    pub closed: bool,
}

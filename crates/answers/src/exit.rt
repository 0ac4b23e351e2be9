//! How a program ends that judges.

ghost use Rattle.std.specs.Prelude.{◌≡◌};
ghost use Rattle.answers.specs.Exits.{exit_code};

/// How the program ends.
#[derive(Clone, Copy, Debug, PartialEq, Eq)]
pub enum Exit {
    /// All is done.
    Done,
    /// A report was rejected.
    Rejected,
    /// The words, or a line, ask for nothing that there is.
    Misuse,
    /// The script was refused.
    BadScript,
    /// The journal gives no session, or its device failed, which closed the session.
    BadJournal,
    /// A file, standard input or standard output failed, or a connection couldn't be taken.
    FileFailed,
    /// Memory ran out, or a limit was met.
    Limit,
}

impl Exit {
    /// The exit status.
    pub fn code(self) -> u8
        ensures { result ≡ exit_code self }
    {
        match self {
            Exit::Done => 0,
            Exit::Rejected => 1,
            Exit::Misuse => 2,
            Exit::BadScript => 3,
            Exit::BadJournal => 4,
            Exit::FileFailed => 5,
            Exit::Limit => 6,
        }
    }
}

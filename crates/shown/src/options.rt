//! What is shown of a history, and how.

ghost use Rattle.std.specs.Prelude.{◌≡◌};
ghost use Rattle.shown.specs.Names.{opening, between, closing, ending, quote};
ghost use Rattle.shown.specs.Lines.{is_selected};

/// How a history is written.
#[derive(Clone, Copy, Debug, PartialEq, Eq)]
pub enum Format {
    /// Lines of words.
    Text,
    /// A JSON object a line.
    Json,
}

/// Which entries get a line.
#[derive(Clone, Copy, Debug, PartialEq, Eq)]
pub enum Selection {
    All,
    /// Those that were rejected.
    Rejected,
    None,
}

/// What is shown of a history, and how.
#[derive(Clone, Copy, Debug, PartialEq, Eq)]
pub struct Options {
    pub entries: Selection,
    /// Whether the lines of coverage follow.
    pub coverage: bool,
    pub format: Format,
}

impl Selection {
    /// Whether an entry with this verdict gets a line.
    pub(crate) fn has(self, verdict: bool) -> bool
        ensures { result ≡ is_selected self verdict }
    {
        match self {
            Selection::All => true,
            Selection::Rejected => !verdict,
            Selection::None => false,
        }
    }
}

impl Format {
    /// What begins a set.
    pub(crate) fn opening(self) -> &'static [u8]
        ensures { result.now ≡ opening self }
    {
        match self {
            Format::Text => b"{",
            Format::Json => b"[",
        }
    }

    /// What stands between the events of a set.
    pub(crate) fn between(self) -> &'static [u8]
        ensures { result.now ≡ between self }
    {
        match self {
            Format::Text => b" ",
            Format::Json => b",",
        }
    }

    /// What ends a set.
    pub(crate) fn closing(self) -> &'static [u8]
        ensures { result.now ≡ closing self }
    {
        match self {
            Format::Text => b"}",
            Format::Json => b"]",
        }
    }

    /// What stands before and after a name.
    pub(crate) fn quote(self) -> &'static [u8]
        ensures { result.now ≡ quote self }
    {
        match self {
            Format::Text => b"",
            Format::Json => b"\"",
        }
    }

    /// What ends a line.
    pub(crate) fn ending(self) -> &'static [u8]
        ensures { result.now ≡ ending self }
    {
        match self {
            Format::Text => b"\n",
            Format::Json => b"}\n",
        }
    }
}

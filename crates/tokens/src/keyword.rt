//! Words that are no names.
ghost use Rattle.std.specs.Prelude.{◌≡◌};
ghost use Rattle.tokens.specs.Spelling.{keyword_text, refused_word_text};

/// A word of the language, which is no name.
#[derive(Clone, Copy, PartialEq, Eq)]
pub enum Keyword {
    /// `channel`
    Channel,
    /// `datatype`
    Datatype,
    /// `STOP`
    Stop,
    /// `SKIP`
    Skip,
    /// `Events`
    Events,
    /// `union`
    Union,
    /// `inter`
    Inter,
    /// `diff`
    Diff,
    /// `if`
    If,
    /// `then`
    Then,
    /// `else`
    Else,
    /// `and`
    And,
    /// `or`
    Or,
    /// `not`
    Not,
    /// `true`
    True,
    /// `false`
    False,
}

/// A word of CSPM that this profile leaves out. It is no name and stands in no list of tokens.
#[derive(Clone, Copy)]
pub(crate) enum RefusedWord {
    /// `let`
    Let,
    /// `within`
    Within,
    /// `nametype`
    Nametype,
    /// `subtype`
    Subtype,
    /// `include`
    Include,
    /// `transparent`
    Transparent,
    /// `external`
    External,
    /// `module`
    Module,
    /// `print`
    Print,
}

impl Keyword {
    /// How it is written.
    #[tactic(auto, unfolding(crate::specs::Spelling::keyword_text))]
    pub fn text(self) -> &'static [u8]
        ensures { result.now ≡ keyword_text self }
    {
        match self {
            Keyword::Channel => b"channel",
            Keyword::Datatype => b"datatype",
            Keyword::Stop => b"STOP",
            Keyword::Skip => b"SKIP",
            Keyword::Events => b"Events",
            Keyword::Union => b"union",
            Keyword::Inter => b"inter",
            Keyword::Diff => b"diff",
            Keyword::If => b"if",
            Keyword::Then => b"then",
            Keyword::Else => b"else",
            Keyword::And => b"and",
            Keyword::Or => b"or",
            Keyword::Not => b"not",
            Keyword::True => b"true",
            Keyword::False => b"false",
        }
    }
}

impl RefusedWord {
    /// How it is written.
    #[tactic(auto, unfolding(crate::specs::Spelling::refused_word_text))]
    pub(crate) fn text(self) -> &'static [u8]
        ensures { result.now ≡ refused_word_text self }
    {
        match self {
            RefusedWord::Let => b"let",
            RefusedWord::Within => b"within",
            RefusedWord::Nametype => b"nametype",
            RefusedWord::Subtype => b"subtype",
            RefusedWord::Include => b"include",
            RefusedWord::Transparent => b"transparent",
            RefusedWord::External => b"external",
            RefusedWord::Module => b"module",
            RefusedWord::Print => b"print",
        }
    }
}

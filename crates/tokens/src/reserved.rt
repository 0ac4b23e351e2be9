//! Words that are no names, with those that the profile refuses.
ghost use Rattle.std.specs.Prelude.{◌≡◌};
ghost use Rattle.tokens.specs.Scanning.{reserved_of};
ghost use Rattle.tokens.specs.Spelling.{reserved_text};

use crate::keyword::{Keyword, RefusedWord};

/// A word that is no name.
#[derive(Clone, Copy)]
pub(crate) enum Reserved {
    Kept(Keyword),
    Refused(RefusedWord),
    /// `assert`, which is blank with the rest of its line.
    Assert,
}

/// All of them.
pub(crate) const RESERVED: [Reserved; 26] = [
    Reserved::Kept(Keyword::Channel),
    Reserved::Kept(Keyword::Datatype),
    Reserved::Kept(Keyword::Stop),
    Reserved::Kept(Keyword::Skip),
    Reserved::Kept(Keyword::Events),
    Reserved::Kept(Keyword::Union),
    Reserved::Kept(Keyword::Inter),
    Reserved::Kept(Keyword::Diff),
    Reserved::Kept(Keyword::If),
    Reserved::Kept(Keyword::Then),
    Reserved::Kept(Keyword::Else),
    Reserved::Kept(Keyword::And),
    Reserved::Kept(Keyword::Or),
    Reserved::Kept(Keyword::Not),
    Reserved::Kept(Keyword::True),
    Reserved::Kept(Keyword::False),
    Reserved::Refused(RefusedWord::Let),
    Reserved::Refused(RefusedWord::Within),
    Reserved::Refused(RefusedWord::Nametype),
    Reserved::Refused(RefusedWord::Subtype),
    Reserved::Refused(RefusedWord::Include),
    Reserved::Refused(RefusedWord::Transparent),
    Reserved::Refused(RefusedWord::External),
    Reserved::Refused(RefusedWord::Module),
    Reserved::Refused(RefusedWord::Print),
    Reserved::Assert,
];

impl Reserved {
    /// How it is written.
    #[tactic(auto, unfolding(crate::specs::Spelling::reserved_text))]
    pub(crate) fn text(self) -> &'static [u8]
        ensures { result.now ≡ reserved_text self }
    {
        match self {
            Reserved::Kept(keyword) => keyword.text(),
            Reserved::Refused(word) => word.text(),
            Reserved::Assert => b"assert",
        }
    }
}

/// The reserved word that these bytes are.
pub(crate) fn reserved_word(word: &[u8]) -> Option<Reserved>
    ensures { result ≡ reserved_of word.now }
{
    RESERVED
        .iter()
        .copied()
        .find(|reserved| word == reserved.text())
}

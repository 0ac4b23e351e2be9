//! Tokens that aren't words, with those that the profile refuses.
ghost use Rattle.std.specs.List.{starts_with};
ghost use Rattle.std.specs.Prelude.{◌≡◌, ◌≤◌, IfSome, find, length, nat_eq};
ghost use Rattle.tokens.specs.Spelling.{begins, mark_text};

use crate::symbol::{RefusedSymbol, Symbol};

/// A token that is no word.
#[derive(Clone, Copy)]
pub(crate) enum Mark {
    Taken(Symbol),
    Refused(RefusedSymbol),
}

/// All of them, the longer ones first.
pub(crate) const MARKS: [Mark; 46] = [
    Mark::Taken(Symbol::InternalChoice),
    Mark::Taken(Symbol::Interleaving),
    Mark::Refused(RefusedSymbol::LinkedParallel),
    Mark::Taken(Symbol::Arrow),
    Mark::Taken(Symbol::LeftArrow),
    Mark::Taken(Symbol::ExternalChoice),
    Mark::Taken(Symbol::Interrupt),
    Mark::Taken(Symbol::OpenSharing),
    Mark::Taken(Symbol::CloseSharing),
    Mark::Taken(Symbol::DoubleBar),
    Mark::Taken(Symbol::OpenRenaming),
    Mark::Taken(Symbol::CloseRenaming),
    Mark::Taken(Symbol::OpenEvents),
    Mark::Taken(Symbol::CloseEvents),
    Mark::Taken(Symbol::Range),
    Mark::Taken(Symbol::Equal),
    Mark::Taken(Symbol::NotEqual),
    Mark::Taken(Symbol::LessOrEqual),
    Mark::Taken(Symbol::GreaterOrEqual),
    Mark::Refused(RefusedSymbol::Timeout),
    Mark::Refused(RefusedSymbol::Exception),
    Mark::Taken(Symbol::Semicolon),
    Mark::Taken(Symbol::Hiding),
    Mark::Taken(Symbol::OpenBracket),
    Mark::Taken(Symbol::CloseBracket),
    Mark::Taken(Symbol::OpenBrace),
    Mark::Taken(Symbol::CloseBrace),
    Mark::Taken(Symbol::OpenParenthesis),
    Mark::Taken(Symbol::CloseParenthesis),
    Mark::Taken(Symbol::Dot),
    Mark::Taken(Symbol::Question),
    Mark::Taken(Symbol::Exclamation),
    Mark::Taken(Symbol::Comma),
    Mark::Taken(Symbol::Colon),
    Mark::Taken(Symbol::Definition),
    Mark::Taken(Symbol::Bar),
    Mark::Taken(Symbol::At),
    Mark::Taken(Symbol::Ampersand),
    Mark::Taken(Symbol::Plus),
    Mark::Taken(Symbol::Minus),
    Mark::Taken(Symbol::Times),
    Mark::Taken(Symbol::Percent),
    Mark::Taken(Symbol::Less),
    Mark::Taken(Symbol::Greater),
    Mark::Refused(RefusedSymbol::Slash),
    Mark::Refused(RefusedSymbol::Underscore),
];

impl Mark {
    /// How it is written.
    pub(crate) fn text(self) -> &'static [u8]
        ensures { result.now ≡ mark_text self }
    {
        match self {
            Mark::Taken(symbol) => symbol.text(),
            Mark::Refused(symbol) => symbol.text(),
        }
    }
}

/// The longest one that the text begins with.
#[tactic(auto, using(crate::proofs::Marks::mark_fits))]
pub(crate) fn mark_at(text: &[u8]) -> Option<Mark>
    ensures found { result ≡ find (begins text.now) MARKS }
    ensures fits { IfSome result (λ m. length (mark_text m) ≤ length text.now) }
{
    MARKS
        .iter()
        .copied()
        .find(|mark| text.starts_with(mark.text()))
}

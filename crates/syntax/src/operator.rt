//! The table of operators.
ghost use Rattle.std.specs.Prelude.{◌≡◌};
ghost use Rattle.syntax.specs.Operators.{behind as behind_of, left_limit as left_limit_of, level as level_of, operator_of_keyword, operator_of_symbol, opens as opens_of};

use crate::piece::{Kind, Piece, Place, Sign, Start};
use tokens::{Keyword, Symbol};

/// An operator between two phrases or after one.
#[derive(Clone, Copy, PartialEq, Eq)]
pub enum Operator {
    /// `P[[a <- b]]`
    Renaming,
    /// `*`
    Times,
    /// `%`
    Remainder,
    /// `+`
    Plus,
    /// `-`
    Minus,
    /// `==`
    Equal,
    /// `!=`
    NotEqual,
    /// `<`
    Less,
    /// `<=`
    LessOrEqual,
    /// `>`
    Greater,
    /// `>=`
    GreaterOrEqual,
    /// `and`
    And,
    /// `or`
    Or,
    /// `->`
    Prefix,
    /// `&`
    Guard,
    /// `;`
    Sequence,
    /// `/\`
    Interrupt,
    /// `[]`
    ExternalChoice,
    /// `|~|`
    InternalChoice,
    /// `P [| A |] Q`
    Sharing,
    /// `P [ A || B ] Q`
    Alphabetised,
    /// `|||`
    Interleaving,
    /// `\`
    Hiding,
}

#[tactic(auto, unfolding(crate::specs::Operators::operator_of_symbol))]
pub(crate) fn of_symbol(symbol: Symbol) -> Option<Operator>
    ensures { result ≡ operator_of_symbol symbol }
{
    match symbol {
        Symbol::OpenRenaming => Some(Operator::Renaming),
        Symbol::Times => Some(Operator::Times),
        Symbol::Percent => Some(Operator::Remainder),
        Symbol::Plus => Some(Operator::Plus),
        Symbol::Minus => Some(Operator::Minus),
        Symbol::Equal => Some(Operator::Equal),
        Symbol::NotEqual => Some(Operator::NotEqual),
        Symbol::Less => Some(Operator::Less),
        Symbol::LessOrEqual => Some(Operator::LessOrEqual),
        Symbol::Greater => Some(Operator::Greater),
        Symbol::GreaterOrEqual => Some(Operator::GreaterOrEqual),
        Symbol::Arrow => Some(Operator::Prefix),
        Symbol::Ampersand => Some(Operator::Guard),
        Symbol::Semicolon => Some(Operator::Sequence),
        Symbol::Interrupt => Some(Operator::Interrupt),
        Symbol::ExternalChoice => Some(Operator::ExternalChoice),
        Symbol::InternalChoice => Some(Operator::InternalChoice),
        Symbol::OpenSharing => Some(Operator::Sharing),
        Symbol::OpenBracket => Some(Operator::Alphabetised),
        Symbol::Interleaving => Some(Operator::Interleaving),
        Symbol::Hiding => Some(Operator::Hiding),
        _ => None,
    }
}

#[tactic(auto, unfolding(crate::specs::Operators::operator_of_keyword))]
pub(crate) fn of_keyword(keyword: Keyword) -> Option<Operator>
    ensures { result ≡ operator_of_keyword keyword }
{
    match keyword {
        Keyword::And => Some(Operator::And),
        Keyword::Or => Some(Operator::Or),
        _ => None,
    }
}

/// How loosely it binds, from 1 to 16.
#[tactic(auto, unfolding(crate::specs::Operators::level))]
pub(crate) fn level(operator: Operator) -> u32
    ensures { result ≡ level_of operator }
{
    match operator {
        Operator::Renaming => 1,
        Operator::Times | Operator::Remainder => 3,
        Operator::Plus | Operator::Minus => 4,
        Operator::Equal
        | Operator::NotEqual
        | Operator::Less
        | Operator::LessOrEqual
        | Operator::Greater
        | Operator::GreaterOrEqual => 5,
        Operator::And => 7,
        Operator::Or => 8,
        Operator::Prefix | Operator::Guard => 9,
        Operator::Sequence => 10,
        Operator::Interrupt => 11,
        Operator::ExternalChoice => 12,
        Operator::InternalChoice => 13,
        Operator::Sharing | Operator::Alphabetised => 14,
        Operator::Interleaving => 15,
        Operator::Hiding => 16,
    }
}

/// The loosest phrase on its left.
#[tactic(auto, unfolding(crate::specs::Operators::left_limit, crate::specs::Operators::level))]
pub(crate) fn left_limit(operator: Operator) -> u32
    ensures { result ≡ left_limit_of operator }
{
    match operator {
        Operator::Equal
        | Operator::NotEqual
        | Operator::Less
        | Operator::LessOrEqual
        | Operator::Greater
        | Operator::GreaterOrEqual => 4,
        Operator::Prefix => 0,
        Operator::Guard => 8,
        _ => level(operator),
    }
}

/// Whether it begins with a bracket.
#[tactic(auto, unfolding(crate::specs::Operators::opens))]
pub(crate) fn opens(operator: Operator) -> bool
    ensures { result ≡ opens_of operator }
{
    matches!(
        operator,
        Operator::Renaming | Operator::Sharing | Operator::Alphabetised
    )
}

/// What stands after its first token.
#[tactic(auto, unfolding(crate::specs::Operators::behind, crate::specs::Operators::right_limit))]
pub(crate) fn behind(operator: Operator) -> &'static [Piece]
    ensures { result.now ≡ behind_of operator }
{
    match operator {
        Operator::Renaming => &[
            Piece::Part(Place::Inside, Kind::Pair),
            Piece::Others(Place::Inside, Kind::Pair, Start::Behind(Symbol::Comma)),
            Piece::Sign(Sign::Symbol(Symbol::CloseRenaming)),
        ],
        Operator::Times | Operator::Remainder => &[Piece::Part(Place::Outside, Kind::Phrase(2))],
        Operator::Plus | Operator::Minus => &[Piece::Part(Place::Outside, Kind::Phrase(3))],
        Operator::Equal
        | Operator::NotEqual
        | Operator::Less
        | Operator::LessOrEqual
        | Operator::Greater
        | Operator::GreaterOrEqual => &[Piece::Part(Place::Outside, Kind::Phrase(4))],
        Operator::And => &[Piece::Part(Place::Outside, Kind::Phrase(6))],
        Operator::Or => &[Piece::Part(Place::Outside, Kind::Phrase(7))],
        Operator::Prefix | Operator::Guard | Operator::Sequence => {
            &[Piece::Part(Place::Outside, Kind::Phrase(9))]
        }
        Operator::Interrupt => &[Piece::Part(Place::Outside, Kind::Phrase(10))],
        Operator::ExternalChoice => &[Piece::Part(Place::Outside, Kind::Phrase(11))],
        Operator::InternalChoice => &[Piece::Part(Place::Outside, Kind::Phrase(12))],
        Operator::Sharing => &[
            Piece::Part(Place::Inside, Kind::Phrase(16)),
            Piece::Sign(Sign::Symbol(Symbol::CloseSharing)),
            Piece::Part(Place::Outside, Kind::Phrase(13)),
        ],
        Operator::Alphabetised => &[
            Piece::Part(Place::Inside, Kind::Phrase(16)),
            Piece::Sign(Sign::Symbol(Symbol::DoubleBar)),
            Piece::Part(Place::Inside, Kind::Phrase(16)),
            Piece::Sign(Sign::Symbol(Symbol::CloseBracket)),
            Piece::Part(Place::Outside, Kind::Phrase(13)),
        ],
        Operator::Interleaving => &[Piece::Part(Place::Outside, Kind::Phrase(14))],
        Operator::Hiding => &[Piece::Part(Place::Outside, Kind::Phrase(15))],
    }
}

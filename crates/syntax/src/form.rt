//! The rules of the grammar.
ghost use Rattle.std.specs.Prelude.{◌≡◌};
ghost use Rattle.syntax.specs.Rules.{ending as ending_of, form_level, is_heavy};
ghost use Rattle.syntax.specs.Parsing.{back as back_of, front as front_of};

use crate::operator::{Operator, level};
use crate::piece::{Fields, Kind, Piece, Place, Sign, Start};
use tokens::{Keyword, Symbol};

/// What a node of a tree means.
#[derive(Clone, Copy, PartialEq, Eq)]
pub enum Form {
    /// `STOP`
    Stop,
    /// `SKIP`
    Skip,
    /// `Events`
    Events,
    /// `true`
    True,
    /// `false`
    False,
    /// A name and its fields, if there are any.
    Event,
    /// `P(x, y)`
    Call,
    /// A phrase in brackets.
    Brackets,
    /// `{}`
    EmptySet,
    /// `{x, y}`
    Set,
    /// `{x..y}`
    Range,
    /// `{||}`
    NoProductions,
    /// `{|c, d|}`
    Productions,
    /// `union(A, B)`
    Union,
    /// `inter(A, B)`
    Intersection,
    /// `diff(A, B)`
    Difference,
    /// `if b then P else Q`
    If,
    /// `[] x:A @ P`
    ReplicatedExternal,
    /// `|~| x:A @ P`
    ReplicatedInternal,
    /// `||| x:A @ P`
    ReplicatedInterleaving,
    /// `-x`
    Negation,
    /// `not b`
    Not,
    /// An operator between two phrases or after one.
    Operation(Operator),
    /// `x:A, y:B`
    Generators,
    /// `x:A`
    Generator,
    /// `a <- b`
    Pair,
    /// `.x`, a field.
    Dotted,
    /// `!x`, a field.
    Output,
    /// `?x`, a field.
    Input,
    /// `?x:A`, a field.
    RestrictedInput,
    /// `-1`, what a field gives.
    NegativeNumber,
    /// `a, b`, the names of channels or parameters.
    Names,
    /// `a | b`, the constants of a datatype.
    Constants,
    /// `A.B`, the sets of a channel's fields.
    FieldSets,
    /// `channel a, b`
    Channels,
    /// `channel a, b : A.B`
    ChannelsWithFields,
    /// `datatype T = a | b`
    Datatype,
    /// `P = STOP`
    Definition,
    /// `P(x, y) = STOP`
    DefinitionWithParameters,
    /// The declarations of a script.
    Script,
}

/// How a form ends.
#[derive(Clone, Copy)]
pub(crate) enum Ending {
    /// With a token of its own.
    Closed,
    /// With its last part.
    Last,
    /// With a phrase that takes all that can follow.
    Far,
}

/// How loosely it binds; 99 for what is no phrase.
#[tactic(auto, unfolding(crate::specs::Rules::form_level))]
pub(crate) fn looseness(form: Form) -> u32
    ensures { result ≡ form_level form }
{
    match form {
        Form::Operation(operator) => level(operator),
        Form::Negation => 2,
        Form::Not => 6,
        Form::Generators
        | Form::Generator
        | Form::Pair
        | Form::Dotted
        | Form::Output
        | Form::Input
        | Form::RestrictedInput
        | Form::NegativeNumber
        | Form::Names
        | Form::Constants
        | Form::FieldSets
        | Form::Channels
        | Form::ChannelsWithFields
        | Form::Datatype
        | Form::Definition
        | Form::DefinitionWithParameters
        | Form::Script => 99,
        _ => 0,
    }
}

/// Whether it is higher than its parts.
#[tactic(auto, unfolding(crate::specs::Rules::is_heavy))]
pub(crate) fn heavy(form: Form) -> bool
    ensures { result ≡ is_heavy form }
{
    match form {
        Form::Brackets
        | Form::Generators
        | Form::Generator
        | Form::Pair
        | Form::Dotted
        | Form::Output
        | Form::RestrictedInput
        | Form::NegativeNumber
        | Form::Names
        | Form::Constants
        | Form::FieldSets
        | Form::Channels
        | Form::ChannelsWithFields
        | Form::Datatype
        | Form::Definition
        | Form::DefinitionWithParameters
        | Form::Script => false,
        _ => true,
    }
}

/// How it ends.
#[tactic(auto, unfolding(crate::specs::Rules::ending))]
pub(crate) fn end_of(form: Form) -> Ending
    ensures { result ≡ ending_of form }
{
    match form {
        Form::If
        | Form::ReplicatedExternal
        | Form::ReplicatedInternal
        | Form::ReplicatedInterleaving => Ending::Far,
        Form::Operation(Operator::Renaming) => Ending::Closed,
        Form::Event
        | Form::Negation
        | Form::Not
        | Form::Operation(_)
        | Form::Generators
        | Form::Generator
        | Form::Pair
        | Form::Dotted
        | Form::Output
        | Form::RestrictedInput
        | Form::Names
        | Form::Constants
        | Form::FieldSets
        | Form::Channels
        | Form::ChannelsWithFields
        | Form::Datatype
        | Form::Definition
        | Form::DefinitionWithParameters
        | Form::Script => Ending::Last,
        _ => Ending::Closed,
    }
}

/// What stands first in a set or in a declaration of channels, before it is known which form it is.
#[tactic(auto, unfolding(crate::specs::Parsing::front))]
pub(crate) fn front(form: Form) -> &'static [Piece]
    ensures { result.now ≡ front_of form }
{
    match form {
        Form::Set | Form::Range => &[
            Piece::Open(Symbol::OpenBrace),
            Piece::Part(Place::Inside, Kind::Phrase(16)),
        ],
        Form::Channels | Form::ChannelsWithFields => &[
            Piece::Sign(Sign::Keyword(Keyword::Channel)),
            Piece::Part(Place::Outside, Kind::Names),
        ],
        _ => &[],
    }
}

/// The rule of a form without its front. A name takes these fields.
#[tactic(auto, unfolding(crate::specs::Parsing::back, crate::specs::Rules::rule))]
pub(crate) fn back(form: Form, fields: Fields) -> &'static [Piece]
    ensures { result.now ≡ back_of fields form }
{
    match form {
        Form::Event => match fields {
            Fields::Any => &[
                Piece::Name,
                Piece::Others(Place::Outside, Kind::Field, Start::Field(Fields::Any)),
            ],
            Fields::Undotted => &[
                Piece::Name,
                Piece::Others(Place::Outside, Kind::Field, Start::Field(Fields::Undotted)),
            ],
            Fields::None => &[
                Piece::Name,
                Piece::Others(Place::Outside, Kind::Field, Start::Field(Fields::None)),
            ],
        },
        Form::Stop => &[Piece::Sign(Sign::Keyword(Keyword::Stop))],
        Form::Skip => &[Piece::Sign(Sign::Keyword(Keyword::Skip))],
        Form::Events => &[Piece::Sign(Sign::Keyword(Keyword::Events))],
        Form::True => &[Piece::Sign(Sign::Keyword(Keyword::True))],
        Form::False => &[Piece::Sign(Sign::Keyword(Keyword::False))],
        Form::Call => &[
            Piece::Name,
            Piece::Open(Symbol::OpenParenthesis),
            Piece::Part(Place::Inside, Kind::Phrase(16)),
            Piece::Others(
                Place::Inside,
                Kind::Phrase(16),
                Start::Behind(Symbol::Comma),
            ),
            Piece::Sign(Sign::Symbol(Symbol::CloseParenthesis)),
        ],
        Form::Brackets => &[
            Piece::Open(Symbol::OpenParenthesis),
            Piece::Part(Place::Inside, Kind::Phrase(16)),
            Piece::Sign(Sign::Symbol(Symbol::CloseParenthesis)),
        ],
        Form::EmptySet => &[
            Piece::Open(Symbol::OpenBrace),
            Piece::Sign(Sign::Symbol(Symbol::CloseBrace)),
        ],
        Form::Set => &[
            Piece::Others(
                Place::Inside,
                Kind::Phrase(16),
                Start::Behind(Symbol::Comma),
            ),
            Piece::Sign(Sign::Symbol(Symbol::CloseBrace)),
        ],
        Form::Range => &[
            Piece::Sign(Sign::Symbol(Symbol::Range)),
            Piece::Part(Place::Inside, Kind::Phrase(16)),
            Piece::Sign(Sign::Symbol(Symbol::CloseBrace)),
        ],
        Form::NoProductions => &[
            Piece::Open(Symbol::OpenEvents),
            Piece::Sign(Sign::Symbol(Symbol::CloseEvents)),
        ],
        Form::Productions => &[
            Piece::Open(Symbol::OpenEvents),
            Piece::Part(Place::Inside, Kind::Event),
            Piece::Others(Place::Inside, Kind::Event, Start::Behind(Symbol::Comma)),
            Piece::Sign(Sign::Symbol(Symbol::CloseEvents)),
        ],
        Form::Union => &[
            Piece::Sign(Sign::Keyword(Keyword::Union)),
            Piece::Open(Symbol::OpenParenthesis),
            Piece::Part(Place::Inside, Kind::Phrase(16)),
            Piece::Sign(Sign::Symbol(Symbol::Comma)),
            Piece::Part(Place::Inside, Kind::Phrase(16)),
            Piece::Sign(Sign::Symbol(Symbol::CloseParenthesis)),
        ],
        Form::Intersection => &[
            Piece::Sign(Sign::Keyword(Keyword::Inter)),
            Piece::Open(Symbol::OpenParenthesis),
            Piece::Part(Place::Inside, Kind::Phrase(16)),
            Piece::Sign(Sign::Symbol(Symbol::Comma)),
            Piece::Part(Place::Inside, Kind::Phrase(16)),
            Piece::Sign(Sign::Symbol(Symbol::CloseParenthesis)),
        ],
        Form::Difference => &[
            Piece::Sign(Sign::Keyword(Keyword::Diff)),
            Piece::Open(Symbol::OpenParenthesis),
            Piece::Part(Place::Inside, Kind::Phrase(16)),
            Piece::Sign(Sign::Symbol(Symbol::Comma)),
            Piece::Part(Place::Inside, Kind::Phrase(16)),
            Piece::Sign(Sign::Symbol(Symbol::CloseParenthesis)),
        ],
        Form::If => &[
            Piece::Sign(Sign::Keyword(Keyword::If)),
            Piece::Part(Place::Outside, Kind::Phrase(16)),
            Piece::Sign(Sign::Keyword(Keyword::Then)),
            Piece::Part(Place::Outside, Kind::Phrase(16)),
            Piece::Sign(Sign::Keyword(Keyword::Else)),
            Piece::Part(Place::Outside, Kind::Phrase(16)),
        ],
        Form::ReplicatedExternal => &[
            Piece::Sign(Sign::Symbol(Symbol::ExternalChoice)),
            Piece::Part(Place::Outside, Kind::Generators),
            Piece::Sign(Sign::Symbol(Symbol::At)),
            Piece::Part(Place::Outside, Kind::Phrase(16)),
        ],
        Form::ReplicatedInternal => &[
            Piece::Sign(Sign::Symbol(Symbol::InternalChoice)),
            Piece::Part(Place::Outside, Kind::Generators),
            Piece::Sign(Sign::Symbol(Symbol::At)),
            Piece::Part(Place::Outside, Kind::Phrase(16)),
        ],
        Form::ReplicatedInterleaving => &[
            Piece::Sign(Sign::Symbol(Symbol::Interleaving)),
            Piece::Part(Place::Outside, Kind::Generators),
            Piece::Sign(Sign::Symbol(Symbol::At)),
            Piece::Part(Place::Outside, Kind::Phrase(16)),
        ],
        Form::Negation => &[
            Piece::Sign(Sign::Symbol(Symbol::Minus)),
            Piece::Part(Place::Outside, Kind::Phrase(2)),
        ],
        Form::Not => &[
            Piece::Sign(Sign::Keyword(Keyword::Not)),
            Piece::Part(Place::Outside, Kind::Phrase(6)),
        ],
        Form::Generators => &[
            Piece::Part(Place::Outside, Kind::Generator),
            Piece::Others(
                Place::Outside,
                Kind::Generator,
                Start::Behind(Symbol::Comma),
            ),
        ],
        Form::Generator => &[
            Piece::Name,
            Piece::Sign(Sign::Symbol(Symbol::Colon)),
            Piece::Part(Place::Outside, Kind::Atom(Fields::Any)),
        ],
        Form::Pair => &[
            Piece::Part(Place::Outside, Kind::Event),
            Piece::Sign(Sign::Symbol(Symbol::LeftArrow)),
            Piece::Part(Place::Outside, Kind::Event),
        ],
        Form::Dotted => &[
            Piece::Sign(Sign::Symbol(Symbol::Dot)),
            Piece::Part(Place::Outside, Kind::Value),
        ],
        Form::Output => &[
            Piece::Sign(Sign::Symbol(Symbol::Exclamation)),
            Piece::Part(Place::Outside, Kind::Value),
        ],
        Form::Input => &[Piece::Sign(Sign::Symbol(Symbol::Question)), Piece::Name],
        Form::RestrictedInput => &[
            Piece::Sign(Sign::Symbol(Symbol::Question)),
            Piece::Name,
            Piece::Sign(Sign::Symbol(Symbol::Colon)),
            Piece::Part(Place::Outside, Kind::Atom(Fields::None)),
        ],
        Form::NegativeNumber => &[
            Piece::Sign(Sign::Symbol(Symbol::Minus)),
            Piece::Part(Place::Outside, Kind::Number),
        ],
        Form::Names => &[
            Piece::Name,
            Piece::Others(Place::Outside, Kind::Called, Start::Behind(Symbol::Comma)),
        ],
        Form::Constants => &[
            Piece::Name,
            Piece::Others(Place::Outside, Kind::Called, Start::Behind(Symbol::Bar)),
        ],
        Form::FieldSets => &[
            Piece::Part(Place::Outside, Kind::Atom(Fields::Undotted)),
            Piece::Others(Place::Outside, Kind::Atom(Fields::Undotted), Start::Dot),
        ],
        Form::Channels => &[],
        Form::ChannelsWithFields => &[
            Piece::Sign(Sign::Symbol(Symbol::Colon)),
            Piece::Part(Place::Outside, Kind::FieldSets),
        ],
        Form::Datatype => &[
            Piece::Sign(Sign::Keyword(Keyword::Datatype)),
            Piece::Name,
            Piece::Sign(Sign::Symbol(Symbol::Definition)),
            Piece::Part(Place::Outside, Kind::Constants),
        ],
        Form::Definition => &[
            Piece::Name,
            Piece::Sign(Sign::Symbol(Symbol::Definition)),
            Piece::Part(Place::Outside, Kind::Phrase(16)),
        ],
        Form::DefinitionWithParameters => &[
            Piece::Name,
            Piece::Open(Symbol::OpenParenthesis),
            Piece::Part(Place::Inside, Kind::Names),
            Piece::Sign(Sign::Symbol(Symbol::CloseParenthesis)),
            Piece::Sign(Sign::Symbol(Symbol::Definition)),
            Piece::Part(Place::Outside, Kind::Phrase(16)),
        ],
        Form::Script => &[Piece::Others(Place::Outside, Kind::Declaration, Start::Any)],
        Form::Operation(_) => &[],
    }
}

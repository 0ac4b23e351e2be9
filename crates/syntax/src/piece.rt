//! What the rules of the grammar are made of.

use crate::operator::Operator;
use tokens::{Keyword, Symbol};

/// A token that is written in one way.
#[derive(Clone, Copy)]
pub(crate) enum Sign {
    Symbol(Symbol),
    Keyword(Keyword),
}

/// Which fields a name may take.
#[derive(Clone, Copy)]
pub(crate) enum Fields {
    Any,
    /// Those that no dot begins.
    Undotted,
    None,
}

/// What a part may be.
#[derive(Clone, Copy)]
pub(crate) enum Kind {
    /// A phrase that binds no looser than this level.
    Phrase(u32),
    /// An atom, whose name takes these fields if it is one.
    Atom(Fields),
    /// A name with its fields.
    Event,
    /// What a field gives: a number, a name, or a phrase in brackets.
    Value,
    Number,
    Field,
    Generator,
    Generators,
    /// What is renamed, and what it becomes.
    Pair,
    /// What this operator takes on its left.
    Left(Operator),
    /// A name alone.
    Called,
    Names,
    Constants,
    FieldSets,
    Declaration,
    Script,
}

/// Whether a part stands in the brackets of what it is a part of.
#[derive(Clone, Copy)]
pub(crate) enum Place {
    Outside,
    Inside,
}

/// What shows that one more part follows.
#[derive(Clone, Copy)]
pub(crate) enum Start {
    /// A separator, which stands before it.
    Behind(Symbol),
    /// A dot before it, which stands after no part that takes all that can follow.
    Dot,
    /// The sign that it begins with, as a field that a name may take.
    Field(Fields),
    /// Any token.
    Any,
}

/// A piece of a rule.
#[derive(Clone, Copy)]
pub(crate) enum Piece {
    Sign(Sign),
    /// An opening bracket.
    Open(Symbol),
    Name,
    Part(Place, Kind),
    /// Any number of further parts.
    Others(Place, Kind, Start),
}

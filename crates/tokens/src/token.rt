//! Tokens.

use crate::keyword::Keyword;
use crate::position::Position;
use crate::symbol::Symbol;
use std::alloc::Allocator;

/// A token without its place.
#[derive(Drop, PartialEq, Eq)]
pub enum Word<A: Allocator> {
    /// The bytes of a name.
    Name(Vec<u8, A>),
    /// A number, at most 1,000,000.
    Number(u32),
    Keyword(Keyword),
    Symbol(Symbol),
}

/// A token, and where it stands.
#[derive(Drop, PartialEq, Eq)]
pub struct Token<A: Allocator> {
    pub word: Word<A>,
    pub line: Position,
}

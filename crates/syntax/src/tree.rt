//! Syntax trees.
ghost use Rattle.std.specs.Prelude.{◌≡◌};

use crate::form::Form;
use std::alloc::Allocator;
use tokens::Position;

/// A part of a script as it is written, with the line of its first token; or of a phrase by itself, with columns.
#[derive(Drop)]
pub enum Tree<A: Allocator> {
    /// A name that stands in a form: of an event, a call, a variable.
    Name {
        line: Position,
        text: Vec<u8, A>,
    },
    Number {
        line: Position,
        value: u32,
    },
    Node {
        line: Position,
        form: Form,
        parts: Vec<Tree<A>, A>,
    },
}

impl<A: Allocator> Tree<A> {
    ghost use Rattle.syntax.specs.View.{line_of};

    /// Where its first token stands.
    pub fn line(&self) -> Position
        ensures { result ≡ line_of self.now }
    {
        match self {
            Tree::Name { line, .. } | Tree::Number { line, .. } | Tree::Node { line, .. } => *line,
        }
    }
}

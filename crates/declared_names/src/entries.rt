//! The declared names.
ghost use Rattle.declared_names.specs.Stored.{listed};
ghost use Rattle.declared_names.specs.ProcessAnswers.{AreAnswers};

use indexmap::IndexMap;
use std::alloc::Allocator;
use std::hash::{BuildHasherDefault, FoldHasher};
use syntax::Tree;
use tokens::Position;

pub(crate) type Hashing = BuildHasherDefault<FoldHasher>;

/// Names with what they are declared as, in text order.
pub(crate) type Table<'a, A> = IndexMap<Vec<u8, A>, Entry<'a, A>, Hashing, A>;

/// What a name is declared as.
#[derive(Drop)]
pub enum Meaning<'a, A: Allocator> {
    /// A channel, with the sets of its fields as they are written.
    Channel(&'a [Tree<A>]),
    /// A datatype, with its constants as they are written.
    Datatype(Vec<Vec<u8, A>, A>),
    /// A constant of a datatype.
    Constant,
    /// A definition without parameters, with its body.
    Definition(&'a Tree<A>),
    /// A definition with parameters.
    WithParameters {
        /// The parameters, as they are written.
        written: &'a [Tree<A>],
        /// The names of the parameters.
        names: Vec<Vec<u8, A>, A>,
        body: &'a Tree<A>,
    },
}

/// A declared name's line and what it is declared as.
#[derive(Drop)]
pub struct Entry<'a, A: Allocator> {
    /// The line of the name in its declaration.
    pub line: Position,
    pub meaning: Meaning<'a, A>,
}

/// The names that a script declares, in text order.
#[derive(Drop)]
pub struct Entries<'a, A: Allocator> {
    pub(crate) table: Table<'a, A>,
    /// Whether the name at each place may be one of a process, where it was found; `None` in a circle of names, which is one.
    pub(crate) answers: Vec<Option<bool>, A>,
    ghost answered: { AreAnswers (listed table.entries) answers.items },
}

//! What is reached from.
ghost use Rattle.std.specs.Prelude.{◌≡◌, []};
ghost use Rattle.std.specs.Option.{option_map};
ghost use Rattle.syntax.specs.View.{shape};
ghost use Rattle.denotation.specs.Denotes.{name_called, root_key, root_of as root_of_phrase};
ghost use Rattle.denotation.specs.Phrases.{phrase_of};
ghost use Rattle.denotation.specs.Shapes.{plain};
ghost use Rattle.denotation.specs.View.{root as view_of};

use crate::forms::{Phrase, process_phrase};
use std::alloc::Allocator;
use syntax::Tree;

/// What is reached from.
#[derive(Drop)]
pub enum Root<'a, A: Allocator> {
    /// A process of the script, by its name.
    Named(&'a [u8]),
    /// A phrase for a process. It is like the body of a definition without a name.
    Phrase(&'a Tree<A>),
}

/// The name that the phrase is, if it is nothing else.
fn called_name<'a, A: Allocator>(phrase: Phrase<'a, A>) -> Option<&'a [u8]>
    ensures { option_map (λ n. n.now) result ≡ name_called (plain phrase.entry) }
{
    match phrase {
        Phrase::Called(name) => Some(name),
        _ => None,
    }
}

/// The same of the phrase that this is.
#[tactic(auto, unfolding(crate::specs::Denotes::name_called))]
fn name_alone<A: Allocator>(tree: &Tree<A>) -> Option<&[u8]>
    ensures { option_map (λ n. n.now) result ≡ name_called (phrase_of (shape tree.now)) }
{
    match process_phrase(tree) {
        Some(phrase) => called_name(phrase),
        None => None,
    }
}

impl<'a, A: Allocator> Root<'a, A> {
    /// The root that this phrase is: a name alone is the process with that name.
    #[tactic(auto, unfolding(crate::specs::Denotes::root_by))]
    pub fn of(phrase: &'a Tree<A>) -> Root<'a, A>
        ensures { view_of result ≡ root_of_phrase (shape phrase.now) }
    {
        match name_alone(phrase) {
            Some(name) => Root::Named(name),
            None => Root::Phrase(phrase),
        }
    }

    /// The name of the definition that it is.
    #[tactic(auto, unfolding(crate::specs::Denotes::root_key))]
    pub(crate) fn name(&self) -> &'a [u8]
        ensures { (result.now, []) ≡ root_key (view_of self.now) }
    {
        match self {
            Root::Named(name) => name,
            Root::Phrase(_) => b"",
        }
    }
}

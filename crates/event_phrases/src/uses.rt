//! Whether phrases have a name in them.
ghost use Rattle.std.specs.Prelude.{◌≡◌};
ghost use Rattle.syntax.specs.Parsing.{syntaxes};
ghost use Rattle.syntax.specs.View.{shape, shapes};
ghost use Rattle.event_phrases.specs.Uses.{mention as mention_of, mentions as mentions_of};

use std::alloc::Allocator;
use syntax::Tree;

/// Whether the name is in the phrase.
#[cycle(mentioning)]
#[tactic(auto, unfolding(crate::specs::Uses::mentions))]
pub(crate) fn mentions<A: Allocator>(tree: &Tree<A>, name: &[u8]) -> bool
    ensures { result ≡ mentions_of name.now (shape tree.now) }
{
    match tree {
        Tree::Name { text, .. } => text.as_slice() == name,
        Tree::Number { .. } => false,
        Tree::Node { parts, .. } => mention(parts, name),
    }
}

/// Whether the name is in one of the phrases.
#[cycle(mentioning)]
fn mention<A: Allocator>(trees: &[Tree<A>], name: &[u8]) -> bool
    ensures { result ≡ mention_of name.now (syntaxes (shapes trees.now)) }
{
    for tree in trees {
        if mentions(tree, name) {
            return true;
        }
    }
    false
}

//! Whether a replicated form has no list of values, seen before the values are gone through.
ghost use Rattle.std.specs.Prelude.{◌≡◌, [], Some, IsTrue, map};
ghost use Rattle.syntax.specs.Parsing.{syntaxes};
ghost use Rattle.syntax.specs.View.{shape, shapes};
ghost use Rattle.values.specs.Tables.{input};
ghost use Rattle.event_phrases.specs.Scopes.{within};
ghost use Rattle.denotation.specs.Phrases.{generator_of};
ghost use Rattle.denotation.specs.Ahead.{has_name as has_name_of, is_name_of as is_name_of_these, some_uses, uses as uses_these};
ghost use Rattle.denotation.specs.Walks.{first_scope, visits};

use crate::forms::generator;
use crate::replicated::values_of;
use event_phrases::{GlobalScope, Scope};
use std::alloc::Allocator;
use syntax::Tree;

/// Whether this generator has this name.
#[tactic(auto, unfolding(crate::specs::Ahead::has_name))]
fn has_name<A: Allocator>(tree: &Tree<A>, name: &[u8]) -> bool
    ensures { result ≡ has_name_of (generator_of (shape tree.now)) name.now }
{
    match generator(tree) {
        Some((own, _)) => name == own,
        None => false,
    }
}

/// Whether one of these generators has this name.
fn is_name_of<A: Allocator>(generators: &[Tree<A>], name: &[u8]) -> bool
    ensures { result ≡ is_name_of_these (shapes generators.now) name.now }
{
    for tree in generators {
        if has_name(tree, name) {
            return true;
        }
    }
    false
}

/// Whether the name of one of these generators occurs in the phrase.
#[cycle(uses)]
#[tactic(auto, unfolding(crate::specs::Ahead::uses), using(crate::proofs::Unused::node_uses))]
fn uses<A: Allocator>(tree: &Tree<A>, generators: &[Tree<A>]) -> bool
    ensures { result ≡ uses_these (shapes generators.now) (shape tree.now) }
{
    match tree {
        Tree::Name { text, .. } => is_name_of(generators, text),
        Tree::Number { .. } => false,
        Tree::Node { parts, .. } => some_use(parts, generators),
    }
}

/// Whether it occurs in one of the phrases.
#[cycle(uses)]
fn some_use<A: Allocator>(trees: &[Tree<A>], generators: &[Tree<A>]) -> bool
    ensures { result ≡ some_uses (shapes generators.now) (syntaxes (shapes trees.now)) }
{
    for tree in trees {
        if uses(tree, generators) {
            return true;
        }
    }
    false
}

/// Whether one of several generators has an empty set, where neither that set nor one before it uses the name of a generator
/// before it, and none of these fails. Then there is no list of values, however many values the generators before it have.
pub(crate) fn is_empty_ahead<A: Allocator + Copy, G: GlobalScope<A>>(
    alloc: A,
    scope: &Scope<'_, A, G>,
    generators: &[Tree<A>],
) -> bool
    ensures { IsTrue result → first_scope (visits (shapes generators.now) (within (G.scope scope.now.global.now) (map input scope.now.inputs.items))) ≡ Some [] }
{
    if generators.len() < 2 {
        return false;
    }
    for (number, tree) in generators.iter().enumerate() {
        match generator(tree) {
            None => return false,
            Some((name, set)) => {
                if uses(set, &generators[..number]) {
                    return false;
                }
                match values_of(alloc, scope, name, set, tree.line()) {
                    Err(_) => return false,
                    Ok(values) => {
                        if values.is_empty() {
                            return true;
                        }
                    }
                }
            }
        }
    }
    false
}

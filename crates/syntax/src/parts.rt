//! Trees on their way.
ghost use Rattle.std.specs.Prelude.{◌≡◌, ◌≤◌, ◌+◌, ◌++◌, ◌∷◌, [], max, IfOk, if◌then◌else◌};
ghost use Rattle.syntax.specs.Rules.{is_heavy};
ghost use Rattle.syntax.specs.Grammar.{Node, height_of, highest, is_open};
ghost use Rattle.syntax.specs.Parsing.{last_is_open, syntaxes};
ghost use Rattle.syntax.specs.View.{shape, shapes};

use crate::form::{Ending, Form, end_of, heavy};
use crate::tree::Tree;
use std::alloc::{AllocError, Allocator};
use tokens::Position;

/// A tree, its height, and whether it takes all that can follow.
#[derive(Drop)]
pub(crate) struct Parsed<A: Allocator> {
    pub tree: Tree<A>,
    pub height: u32,
    pub greedy: bool,
    ghost is_height: { height ≡ height_of (shape tree) },
    ghost is_low: { height ≤ 250 },
    ghost is_greedy: { greedy ≡ is_open (shape tree) },
}

/// The parts of a form, their greatest height, and whether the last one takes all that can follow.
#[derive(Drop)]
pub(crate) struct Parts<A: Allocator> {
    pub trees: Vec<Tree<A>, A>,
    pub height: u32,
    pub greedy: bool,
    ghost is_height: { height ≡ highest (syntaxes (shapes trees.items)) },
    ghost is_low: { height ≤ 250 },
    ghost is_greedy: { greedy ≡ last_is_open (shapes trees.items) },
}

impl<A: Allocator + Clone + Drop> Parts<A> {
    /// No parts.
    pub(crate) fn new(alloc: &A) -> Result<Parts<A>, AllocError>
        ensures { IfOk result (λ p. (shapes p.trees.items ≡ []) × (p.height ≡ 0)) }
    {
        Ok(Parts {
            trees: Vec::new(alloc.clone()?),
            height: 0,
            greedy: false,
        })
    }

    /// This part alone.
    pub(crate) fn alone(alloc: &A, part: Parsed<A>) -> Result<Parts<A>, AllocError>
        ensures { IfOk result (λ p. (shapes p.trees.items ≡ shape part.tree ∷ []) × (p.height ≡ part.height)) }
    {
        Parts::new(alloc)?.with(part)
    }

    /// One part more.
    pub(crate) fn with(self, part: Parsed<A>) -> Result<Parts<A>, AllocError>
        ensures { IfOk result (λ p. (shapes p.trees.items ≡ shapes self.trees.items ++ shape part.tree ∷ []) × (p.height ≡ max self.height part.height)) }
    {
        let Parts {
            mut trees,
            height,
            greedy: _,
        } = self;
        let height = height.max(part.height);
        let greedy = part.greedy;
        trees.push(part.tree)?;
        Ok(Parts {
            trees,
            height,
            greedy,
        })
    }

    /// The node that has them as its parts.
    #[tactic(auto, unfolding(crate::specs::Grammar::is_open))]
    pub(crate) fn node(self, form: Form, line: Position) -> Parsed<A>
        requires { (if is_heavy form then 1 else 0) + self.height ≤ 250 }
        ensures shape { shape result.tree ≡ Node form (syntaxes (shapes self.trees.items)) }
        ensures height { result.height ≡ (if is_heavy form then 1 else 0) + self.height }
    {
        let height = if heavy(form) {
            1 + self.height
        } else {
            self.height
        };
        let greedy = match end_of(form) {
            Ending::Closed => false,
            Ending::Last => self.greedy,
            Ending::Far => true,
        };
        let tree = Tree::Node {
            line,
            form,
            parts: self.trees,
        };
        Parsed {
            tree,
            height,
            greedy,
        }
    }
}

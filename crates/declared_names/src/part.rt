//! Trees, one level at a time.
ghost use Rattle.std.specs.Prelude.{◌≡◌, []};
ghost use Rattle.syntax.specs.Grammar.{Syntax};
ghost use Rattle.syntax.specs.Parsing.{syntaxes};
ghost use Rattle.syntax.specs.View.{shape, shapes};
ghost use Rattle.values.specs.Tables.{table};
ghost use Rattle.values.specs.View.{Gives, worth as worth_of};
ghost use Rattle.values.specs.Worths.{worth as worth_in};
ghost use Rattle.declared_names.specs.Steps.{only_of, two_of};
ghost use Rattle.declared_names.specs.View.{part_shape};

use std::alloc::Allocator;
use syntax::{Form, Tree};
use tokens::{Position, ReadError, ScriptErrorKind, fault};
use values::{Known, Worth, stands_for};

/// What a tree is, one level of it.
#[derive(Drop)]
pub enum Part<'a, A: Allocator> {
    /// A name, by its bytes.
    Name(&'a [u8]),
    /// A number.
    Number(u32),
    /// A phrase of this form, with its parts in text order.
    Node(Form, &'a [Tree<A>]),
}

/// What the tree is. Looks at one level, and copies nothing.
pub fn part_of<A: Allocator>(tree: &Tree<A>) -> Part<'_, A>
    ensures { shape tree.now ≡ part_shape result }
{
    match tree {
        Tree::Name { text, .. } => Part::Name(text),
        Tree::Number { value, .. } => Part::Number(*value),
        Tree::Node { form, parts, .. } => Part::Node(*form, parts),
    }
}

/// The only part; `Expected` on this line where there is another number of parts.
pub fn only_part<A: Allocator>(parts: &[Tree<A>], line: Position) -> Result<&Tree<A>, ReadError>
    ensures { Gives (λ t. shape t.now) result (only_of (syntaxes (shapes parts.now))) }
{
    match parts {
        [only] => Ok(only),
        _ => Err(fault(line, ScriptErrorKind::Expected)),
    }
}

/// The two parts; `Expected` on this line where there is another number of parts.
pub fn two_parts<A: Allocator>(
    parts: &[Tree<A>],
    line: Position,
) -> Result<(&Tree<A>, &Tree<A>), ReadError>
    ensures { Gives {Y = Syntax × Syntax} (λ p. (shape p.0.now, shape p.1.now)) result (two_of (syntaxes (shapes parts.now))) }
{
    match parts {
        [first, second] => Ok((first, second)),
        _ => Err(fault(line, ScriptErrorKind::Expected)),
    }
}

/// No parts, after the last one.
#[tactic(auto, using(crate::proofs::Shapes::behind_all))]
pub fn no_parts<A: Allocator>(parts: &[Tree<A>]) -> &[Tree<A>]
    ensures { result.now ≡ [] }
{
    &parts[parts.len()..]
}

/// What a phrase means, where names mean what the table says and no input stands before it.
pub fn worth_alone<A: Allocator + Copy>(
    alloc: A,
    known: &Known<A>,
    phrase: &Tree<A>,
) -> Result<Worth<A>, ReadError>
    ensures { Gives worth_of result (worth_in (table known.now) (shape phrase.now)) }
{
    let none = Vec::new(alloc);
    stands_for(&alloc, known, &none, phrase)
}

//! The tree of a script.
ghost use Rattle.std.specs.Prelude.{◌≡◌, IfOk, MatchResult};
ghost use Rattle.tokens.specs.declared.error.ScriptErrorKind.TheVariants as kinds;
ghost use Rattle.tokens.specs.declared.read_error.ReadError.TheVariants.{Memory};
ghost use Rattle.tokens.specs.Lexeme.{lexemes};
ghost use Rattle.syntax.specs.Grammar.{Syntax};
ghost use Rattle.syntax.specs.Script.{HasTree, IsScript};
ghost use Rattle.syntax.specs.View.{shape};

use crate::left_out::unless_left_out;
use crate::piece::Kind;
use crate::reading::whole;
use crate::tree::Tree;
use std::alloc::Allocator;
use tokens::{Position, ReadError, ScriptError, ScriptErrorKind, Token, end_line, scan};

/// The fault with the place where the text ends in place of line 0.
pub(crate) fn at_end(read_error: ReadError, end: Position) -> ReadError
    ensures { read_error ≡ Memory → result ≡ Memory }
{
    match read_error {
        ReadError::Fault(error) => ReadError::Fault(ScriptError {
            line: if error.line == Position::Line(0) {
                end
            } else {
                error.line
            },
            kind: error.kind,
        }),
        ReadError::Memory => ReadError::Memory,
    }
}

/// The fault of tokens that are no script: one that names what CSPM has and this profile leaves out, where that is why.
fn explained<A: Allocator + Clone + Drop>(
    alloc: &A,
    tokens: &[Token<A>],
    read_error: ReadError,
) -> ReadError
    ensures { read_error ≡ Memory → result ≡ Memory }
{
    match read_error {
        ReadError::Fault(error) => match error.kind {
            ScriptErrorKind::Expected => unless_left_out(alloc, tokens, read_error),
            _ => read_error,
        },
        ReadError::Memory => ReadError::Memory,
    }
}

/// The tree of the script that has these tokens, in a text that ends on this line; line 0 of a fault is that line.
pub(crate) fn read_script<A: Allocator + Clone + Drop>(
    alloc: &A,
    tokens: &[Token<A>],
    end: Position,
) -> Result<Tree<A>, ReadError>
    ensures found { IfOk result (λ tree. IsScript (lexemes tokens.now) (shape tree)) }
    ensures only { (t : Syntax) → IsScript (lexemes tokens.now) t → MatchResult result (λ tree. shape tree ≡ t) (λ e. e ≡ Memory) }
{
    match whole(alloc, Kind::Script, tokens) {
        Ok(tree) => Ok(tree),
        Err(read_error) => Err(at_end(explained(alloc, tokens, read_error), end)),
    }
}

/// The syntax tree of a script, or its first fault.
///
/// The size is looked at first (`TooLarge` on line 1), then the tokens from the left, as `scan` reports their faults, and
/// then the first token that can't go on as a script within the limits: `Expected` where the grammar wants another, at
/// the end of the text on the line after the last line feed; `TooDeep` where every tree is higher than 250 or has more
/// than 250 brackets open at once; `Unsupported` at a pattern in place of a parameter and at a field of a datatype.
/// `Memory` is reported on line 1. The time grows with the length of the text, and the deepest texts take 2 to 2.5 MB of
/// stack. `docs/LANGUAGE.md` has the grammar.
#[tactic(auto, using(crate::proofs::Texts::has_tree))]
pub fn parse<A: Allocator + Clone + Drop>(alloc: A, text: &[u8]) -> Result<Tree<A>, ScriptError>
    // The tree that is read is one that the text has.
    ensures found { IfOk result (λ tree. HasTree text.now (shape tree)) }

    // A tree that the text has is read, and no other, unless memory runs out.
    ensures only { (t : Syntax) → HasTree text.now t → MatchResult result (λ tree. shape tree ≡ t) (λ e. e.kind ≡ kinds.Memory) }
{
    let tokens = scan(alloc.clone()?, text)?;
    let end = Position::Line(end_line(text));
    Ok(read_script(&alloc, &tokens, end)?)
}

//! The tree of a phrase by itself.
ghost use Rattle.std.specs.Prelude.{◌≡◌, ◌≤◌, IfOk, MatchResult, length};
ghost use Rattle.tokens.specs.declared.error.ScriptErrorKind.TheVariants as kinds;
ghost use Rattle.tokens.specs.declared.read_error.ReadError.TheVariants.{Memory};
ghost use Rattle.std.specs.List.{list_all};
ghost use Rattle.tokens.specs.Lexeme.{lexemes};
ghost use Rattle.tokens.specs.Text.{is_of_line};
ghost use Rattle.syntax.specs.Grammar.{Syntax};
ghost use Rattle.syntax.specs.Script.{HasPhrase, IsPhrase, is_one_line as one_line};
ghost use Rattle.syntax.specs.View.{shape};

use crate::piece::Kind;
use crate::reading::whole;
use crate::script::at_end;
use crate::tree::Tree;
use std::alloc::Allocator;
use tokens::{
    MAX_SCRIPT_LEN, Position, ReadError, ScriptError, ScriptErrorKind, Token, scan_phrase,
};

fn has_no_line_feed(text: &[u8]) -> bool
    ensures { result ≡ list_all is_of_line text.now }
{
    text.iter().all(|byte| *byte != b'\n')
}

/// Whether a text is one line: one byte or more, and no line feed.
fn is_one_line(text: &[u8]) -> bool
    ensures { result ≡ one_line text.now }
{
    !text.is_empty() && has_no_line_feed(text)
}

/// What is wrong with a text that isn't one line: it ends at once, or has a line feed.
fn line_fault(text: &[u8]) -> ScriptError {
    match text
        .iter()
        .take(MAX_SCRIPT_LEN)
        .position(|byte| *byte == b'\n')
    {
        Some(place) => ScriptError {
            line: Position::Column(1 + place as u32),
            kind: ScriptErrorKind::BadByte,
        },
        None => ScriptError {
            line: Position::Column(1),
            kind: ScriptErrorKind::Expected,
        },
    }
}

/// Where a phrase ends: after its last byte.
fn end_of(text: &[u8]) -> Position
    requires { length text.now ≤ MAX_SCRIPT_LEN }
{
    Position::Column(1 + text.len() as u32)
}

/// The tree of the phrase that has these tokens, in a text that ends there.
fn read_phrase<A: Allocator + Clone + Drop>(
    alloc: &A,
    tokens: &[Token<A>],
    end: Position,
) -> Result<Tree<A>, ReadError>
    ensures found { IfOk result (λ tree. IsPhrase (lexemes tokens.now) (shape tree)) }
    ensures only { (t : Syntax) → IsPhrase (lexemes tokens.now) t → MatchResult result (λ tree. shape tree ≡ t) (λ e. e ≡ Memory) }
{
    match whole(alloc, Kind::Phrase(16), tokens) {
        Ok(tree) => Ok(tree),
        Err(read_error) => Err(at_end(read_error, end)),
    }
}

/// The syntax tree of a phrase by itself, in one line, or its first fault.
///
/// A text that isn't one line is refused first (`Expected` at column 1 where there is no byte, `BadByte` at the first line feed), then
/// one of more than 65,536 bytes (`TooLarge` at column 1), then tokens from the left, as `scan_phrase` reports their faults, and then
/// the first token that can't go on as a phrase within the limits, as `parse` reports it, at the end of the text after its last byte.
/// `Memory` is reported on line 1.
#[tactic(auto, using(crate::proofs::Texts::has_phrase))]
pub fn parse_phrase<A: Allocator + Clone + Drop>(
    alloc: A,
    text: &[u8],
) -> Result<Tree<A>, ScriptError>
    // The tree that is read is one that the text has.
    ensures found { IfOk result (λ tree. HasPhrase text.now (shape tree)) }

    // A tree that the text has is read, and no other, unless memory runs out.
    ensures only { (t : Syntax) → HasPhrase text.now t → MatchResult result (λ tree. shape tree ≡ t) (λ e. e.kind ≡ kinds.Memory) }
{
    if !is_one_line(text) {
        return Err(line_fault(text));
    }
    let tokens = scan_phrase(alloc.clone()?, text)?;
    Ok(read_phrase(&alloc, &tokens, end_of(text))?)
}

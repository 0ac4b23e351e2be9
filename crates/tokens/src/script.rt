//! From bytes to tokens.
ghost use Rattle.std.specs.Prelude.{◌≡◌, ℕ, ◌+◌, ◌≤◌, ◌++◌, ◌==◌, List, [], IfOk, MatchResult, OnOk, count_by, length};
ghost use Rattle.tokens.specs.Found.{token_found};
ghost use Rattle.tokens.specs.Lexeme.{Lexeme, lexemes};
ghost use Rattle.tokens.specs.Text.{HasTokens, behind};
ghost use Rattle.tokens.specs.declared.error.ScriptErrorKind.TheVariants.{Memory};

use crate::error::{ScriptError, ScriptErrorKind};
use crate::part::{Found, first_part};
use crate::position::Position;
use crate::token::{Token, Word};
use std::alloc::{AllocError, Allocator};

/// The longest script, in bytes.
pub const MAX_SCRIPT_LEN: usize = 65_536;

/// Keeps a token, if there is one.
fn keep<A: Allocator + Clone>(
    tokens: &mut Vec<Token<A>, A>,
    found: Option<Found<'_>>,
    line: Position,
) -> Result<(), AllocError>
    ensures { OnOk result (lexemes tokens.new.items ≡ lexemes tokens.old.items ++ behind (token_found found.entry) []) }
{
    let word = match found {
        None => return Ok(()),
        Some(Found::Name(name)) => Word::Name(Vec::from_slice(tokens.allocator().clone()?, name)?),
        Some(Found::Number(number)) => Word::Number(number),
        Some(Found::Keyword(keyword)) => Word::Keyword(keyword),
        Some(Found::Symbol(symbol)) => Word::Symbol(symbol),
    };
    tokens.push(Token { word, line })?;
    Ok(())
}

fn line_feeds(text: &[u8]) -> usize
    ensures { result ≡ count_by (λ c. c == 10) text.now }
{
    text.iter().filter(|byte| **byte == b'\n').count()
}

/// The line on which a script ends: 1, and 1 more for each line feed.
pub fn end_line(text: &[u8]) -> u32
    requires { length text.now ≤ MAX_SCRIPT_LEN }
    ensures { result ≡ 1 + count_by (λ c. c == 10) text.now }
{
    1 + line_feeds(text) as u32
}

/// What places are counted by.
#[derive(Clone, Copy)]
enum Counted {
    Lines,
    Columns,
}

impl Counted {
    /// The place with this number.
    fn at(self, number: u32) -> Position {
        match self {
            Counted::Lines => Position::Line(number),
            Counted::Columns => Position::Column(number),
        }
    }

    /// How many places further it is after these bytes.
    fn steps(self, bytes: &[u8]) -> usize
        ensures { result ≤ length bytes.now }
    {
        match self {
            Counted::Lines => line_feeds(bytes),
            Counted::Columns => bytes.len(),
        }
    }
}

/// The tokens of a text, each with its place.
fn scanned<A: Allocator + Clone>(
    alloc: A,
    text: &[u8],
    counted: Counted,
) -> Result<Vec<Token<A>, A>, ScriptError>
    ensures found { IfOk result (λ tokens. HasTokens text.now (lexemes tokens.items)) }
    ensures only { (ws : List Lexeme) → HasTokens text.now ws → MatchResult result (λ tokens. lexemes tokens.items ≡ ws) (λ e. e.kind ≡ Memory) }
{
    if text.len() > MAX_SCRIPT_LEN {
        return Err(ScriptError {
            line: counted.at(1),
            kind: ScriptErrorKind::TooLarge,
        });
    }
    let mut tokens = Vec::new(alloc);
    let mut rest = text;
    let mut number = 1;
    while !rest.is_empty() {
        let line = counted.at(number);
        match first_part(rest) {
            Ok(part) => {
                keep(&mut tokens, part.token, line)?;
                number += counted.steps(&rest[..rest.len() - part.rest.len()]) as u32;
                rest = part.rest;
            }
            Err(kind) => return Err(ScriptError { line, kind }),
        }
    }
    Ok(tokens)
}

/// The tokens of a script, each with its line.
///
/// The first fault from the left is reported: `TooLarge` on line 1 for a text of more than 65,536 bytes,
/// `BadByte` and `BadToken` where no token begins, `Unsupported` for what CSPM has and this profile
/// leaves out, `OutOfRange` for a number over 1,000,000, `BadToken` where a block comment that isn't
/// closed begins, and `Memory` on line 1. The time grows with the length of the text.
pub fn scan<A: Allocator + Clone>(alloc: A, text: &[u8]) -> Result<Vec<Token<A>, A>, ScriptError>
    // What is read are tokens of the text.
    ensures found { IfOk result (λ tokens. HasTokens text.now (lexemes tokens.items)) }

    // Tokens of the text are read, and no others, unless memory runs out.
    ensures only { (ws : List Lexeme) → HasTokens text.now ws → MatchResult result (λ tokens. lexemes tokens.items ≡ ws) (λ e. e.kind ≡ Memory) }
{
    scanned(alloc, text, Counted::Lines)
}

/// The tokens of a phrase by itself, each with its column. The faults are those of `scan`, with columns; `Memory` is reported on line 1.
pub fn scan_phrase<A: Allocator + Clone>(
    alloc: A,
    text: &[u8],
) -> Result<Vec<Token<A>, A>, ScriptError>
    // What is read are tokens of the text.
    ensures found { IfOk result (λ tokens. HasTokens text.now (lexemes tokens.items)) }

    // Tokens of the text are read, and no others, unless memory runs out.
    ensures only { (ws : List Lexeme) → HasTokens text.now ws → MatchResult result (λ tokens. lexemes tokens.items ≡ ws) (λ e. e.kind ≡ Memory) }
{
    scanned(alloc, text, Counted::Columns)
}

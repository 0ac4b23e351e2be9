//! What stands first in a text.
ghost use Rattle.std.specs.Char.{is_ascii_digit};
ghost use Rattle.std.specs.Prelude.{◌≡◌, ℕ, ◌+◌, ◌<◌, ◌≤◌, ◌^◌, List, Option, None, IfErr, IfOk, length};
ghost use Rattle.tokens.specs.Found.{step_of, token_found};
ghost use Rattle.tokens.specs.Lexeme.{Lexeme};
ghost use Rattle.tokens.specs.Scanning.{Tells, comment_at, name_at, name_len, next_at, number_at, run, sign_at, value_from, word_at};
ghost use Rattle.tokens.specs.Text.{Holds, behind, is_blank, is_name_byte, is_of_line, is_prime};

use crate::comment::behind_comment;
use crate::error::ScriptErrorKind;
use crate::keyword::Keyword;
use crate::mark::{Mark, mark_at};
use crate::reserved::{Reserved, reserved_word};
use crate::symbol::Symbol;

/// The largest number that a script may hold.
const MAX_NUMBER: u32 = 1_000_000;

/// A token whose name stands in the text still.
#[derive(Clone, Copy)]
pub(crate) enum Found<'a> {
    Name(&'a [u8]),
    Number(u32),
    Keyword(Keyword),
    Symbol(Symbol),
}

/// What stands first in a text, its token if it is one, and what stands after it.
#[derive(Clone, Copy)]
pub(crate) struct Part<'a> {
    pub(crate) token: Option<Found<'a>>,
    pub(crate) rest: &'a [u8],
}

fn may_stand_in_name(byte: u8) -> bool
    ensures { result ≡ is_name_byte byte }
{
    byte.is_ascii_alphanumeric() || byte == b'_'
}

fn is_blank_byte(byte: u8) -> bool
    ensures { result ≡ is_blank byte }
{
    byte == b' ' || byte == b'\t' || byte == b'\r' || byte == b'\n'
}

fn digits_len(text: &[u8]) -> usize
    ensures { result ≡ run is_ascii_digit text.now }
{
    text.iter().take_while(|byte| byte.is_ascii_digit()).count()
}

fn name_bytes_len(text: &[u8]) -> usize
    ensures { result ≡ run is_name_byte text.now }
{
    text.iter()
        .take_while(|byte| may_stand_in_name(**byte))
        .count()
}

fn primes_len(text: &[u8]) -> usize
    ensures { result ≡ run is_prime text.now }
{
    text.iter().take_while(|byte| **byte == b'\'').count()
}

fn line_len(text: &[u8]) -> usize
    ensures { result ≡ run is_of_line text.now }
{
    text.iter().take_while(|byte| **byte != b'\n').count()
}

/// The number of these digits, unless it is too large.
#[tactic(auto, unfolding(crate::specs::Scanning::value_from))]
fn value(digits: &[u8]) -> Option<u32>
    ensures { result ≡ value_from 0 digits.now }
{
    let mut number = 0;
    for digit in digits {
        number = number * 10 + u32::from(digit.saturating_sub(b'0'));
        if number > MAX_NUMBER {
            return None;
        }
    }
    Some(number)
}

#[tactic(auto, unfolding(crate::specs::Scanning::name_at, crate::specs::Scanning::named))]
fn name_part(text: &[u8]) -> Result<Part<'_>, ScriptErrorKind>
    ensures { Tells step_of result (name_at text.now) }
{
    let body = name_bytes_len(text);
    let len = body + primes_len(&text[body..]);
    let (name, rest) = text.split_at(len);
    match reserved_word(name) {
        None => Ok(Part {
            token: Some(Found::Name(name)),
            rest,
        }),
        Some(Reserved::Kept(keyword)) => Ok(Part {
            token: Some(Found::Keyword(keyword)),
            rest,
        }),
        Some(Reserved::Refused(_)) => Err(ScriptErrorKind::Unsupported),
        Some(Reserved::Assert) => Ok(Part {
            token: None,
            rest: &rest[line_len(rest)..],
        }),
    }
}

#[tactic(auto, unfolding(crate::specs::Scanning::number_at))]
fn number_part(text: &[u8]) -> Result<Part<'_>, ScriptErrorKind>
    ensures { Tells step_of result (number_at text.now) }
{
    let (digits, rest) = text.split_at(digits_len(text));
    match value(digits) {
        Some(number) => Ok(Part {
            token: Some(Found::Number(number)),
            rest,
        }),
        None => Err(ScriptErrorKind::OutOfRange),
    }
}

/// The fault of a byte that begins no token.
fn fault_of(byte: u8) -> ScriptErrorKind {
    if byte.is_ascii_graphic() {
        ScriptErrorKind::BadToken
    } else {
        ScriptErrorKind::BadByte
    }
}

#[tactic(auto, unfolding(crate::specs::Scanning::sign_at, crate::specs::Scanning::signed))]
fn symbol_part(first: u8, text: &[u8]) -> Result<Part<'_>, ScriptErrorKind>
    ensures { Tells step_of result (sign_at text.now) }
{
    match mark_at(text) {
        Some(Mark::Taken(symbol)) => Ok(Part {
            token: Some(Found::Symbol(symbol)),
            rest: &text[symbol.text().len()..],
        }),
        Some(Mark::Refused(_)) => Err(ScriptErrorKind::Unsupported),
        None => Err(fault_of(first)),
    }
}

#[tactic(auto, unfolding(crate::specs::Scanning::word_at))]
fn word_part(first: u8, text: &[u8]) -> Result<Part<'_>, ScriptErrorKind>
    ensures { Tells step_of result (word_at first text.now) }
{
    if first.is_ascii_alphabetic() {
        name_part(text)
    } else if first.is_ascii_digit() {
        number_part(text)
    } else {
        symbol_part(first, text)
    }
}

#[tactic(auto, unfolding(crate::specs::Scanning::comment_at))]
fn comment_part(rest: &[u8]) -> Result<Part<'_>, ScriptErrorKind>
    requires { length rest.now < 2 ^ 63 }
    ensures { Tells step_of result (comment_at rest.now) }
{
    match behind_comment(rest) {
        Some(rest) => Ok(Part { token: None, rest }),
        None => Err(ScriptErrorKind::BadToken),
    }
}

/// What stands first in a text.
#[tactic(auto, unfolding(crate::specs::Scanning::next_at))]
pub(crate) fn first_part(text: &[u8]) -> Result<Part<'_>, ScriptErrorKind>
    requires { length text.now < 2 ^ 63 }
    ensures { Tells step_of result (next_at text.now) }
{
    match text {
        [b'-', b'-', rest @ ..] => Ok(Part {
            token: None,
            rest: &rest[line_len(rest)..],
        }),
        [b'{', b'-', rest @ ..] => comment_part(rest),
        [first, rest @ ..] if is_blank_byte(*first) => Ok(Part { token: None, rest }),
        [first, ..] => word_part(*first, text),
        [] => Err(ScriptErrorKind::BadToken),
    }
}

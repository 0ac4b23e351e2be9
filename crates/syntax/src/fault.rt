//! Why tokens are no script.
ghost use Rattle.std.specs.Prelude.{◌≡◌};
ghost use Rattle.tokens.specs.declared.error.ScriptErrorKind.TheVariants.{Expected, TooDeep, Unsupported};
ghost use Rattle.syntax.specs.Faults.{fault_at, first_line};

use std::alloc::Allocator;
use tokens::{Position, ReadError, ScriptError, ScriptErrorKind, Token};

/// Where the first token stands; line 0 at the end of the text.
pub(crate) fn line_of<A: Allocator>(tokens: &[Token<A>]) -> Position
    ensures { result ≡ first_line tokens.now }
{
    match tokens {
        [first, ..] => first.line,
        [] => Position::Line(0),
    }
}

/// A fault of this kind at the first token.
fn fault_at<A: Allocator>(tokens: &[Token<A>], kind: ScriptErrorKind) -> ReadError
    ensures { result ≡ fault_at tokens.now kind }
{
    ReadError::Fault(ScriptError {
        line: line_of(tokens),
        kind,
    })
}

/// The first token isn't what the grammar wants there.
pub(crate) fn expected<A: Allocator>(tokens: &[Token<A>]) -> ReadError
    ensures { result ≡ fault_at tokens.now Expected }
{
    fault_at(tokens, ScriptErrorKind::Expected)
}

/// What begins with the first token is too high, or opens a bracket too many.
pub(crate) fn too_deep<A: Allocator>(tokens: &[Token<A>]) -> ReadError
    ensures { result ≡ fault_at tokens.now TooDeep }
{
    fault_at(tokens, ScriptErrorKind::TooDeep)
}

/// What begins with the first token is left out of this profile.
pub(crate) fn unsupported<A: Allocator>(tokens: &[Token<A>]) -> ReadError
    ensures { result ≡ fault_at tokens.now Unsupported }
{
    fault_at(tokens, ScriptErrorKind::Unsupported)
}

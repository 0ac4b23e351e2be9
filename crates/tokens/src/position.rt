//! Where tokens stand.
ghost use Rattle.std.specs.Prelude.{Some};
ghost use Rattle.tokens.specs.Positions.{number_text};

use std::fmt;

/// Where a token stands, or where something is wrong: in a script on a line, in a phrase by itself at a column, the place of a byte in
/// it; both from 1. As text it is the number.
#[derive(Clone, Copy, Debug, PartialEq, Eq)]
pub enum Position {
    Line(u32),
    Column(u32),
}

impl fmt::Display for Position {
    ghost output = { λ position. Some (number_text position) };

    fn fmt<W: fmt::Write>(&self, f: &mut fmt::Formatter<W>) -> fmt::Result {
        match self {
            Position::Line(number) | Position::Column(number) => write!(f, "{number}"),
        }
    }
}

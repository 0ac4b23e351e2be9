//! The limits that are asked for.

ghost use Rattle.std.specs.Prelude.{◌≡◌, MatchBool};

use term::Names;

/// How many records each part of a large journal takes.
pub(crate) const PART_SIZE: usize = 1_000_000;

/// How names are kept: as their bodies by the limits for large systems.
pub(crate) fn names_by(large: bool) -> Names
    ensures { MatchBool large (result ≡ Names.Bodies) (result ≡ Names.Steps) }
{
    if large { Names::Bodies } else { Names::Steps }
}

//! How names are kept, by the version of the journal.

ghost use Rattle.std.specs.Prelude.{◌≡◌};
ghost use Rattle.session.specs.Records.{names_of as names_kept, version_of as version_made};

use journal::Version;
use term::Names;

/// How a session keeps names whose journal is of this version.
pub fn names_of(version: Version) -> Names
    ensures { result ≡ names_kept version }
{
    match version {
        Version::One | Version::Two => Names::Steps,
        Version::Large => Names::Bodies,
    }
}

/// The version of a new journal of a session that keeps names so.
pub(crate) fn version_of(names: Names) -> Version
    ensures { result ≡ version_made names }
{
    match names {
        Names::Steps => Version::Two,
        Names::Bodies => Version::Large,
    }
}

//! How much a part may hold.
ghost use Rattle.std.specs.Prelude.{◌≡◌};
ghost use Rattle.syntax.specs.Parsing.{may_open as may_open_of};

/// What is left of the limits where a part is read.
#[derive(Clone, Copy)]
pub(crate) struct Limits {
    /// How many brackets may be opened.
    pub brackets: u32,
    /// How high it may be.
    pub room: u32,
    /// How many parts of its height may stand in one another.
    pub layers: u32,
}

/// The greatest height of a part of a script, brackets not counted.
pub(crate) const MAX_HEIGHT: u32 = 250;

/// The most brackets that may be open at once.
pub(crate) const MAX_BRACKETS: u32 = 250;

/// Of the parts that add no height, at most four stand in one another: a script, a declaration, a list in it,
/// and its members.
pub(crate) const LAYERS: u32 = 4;

/// Whether a bracket may be opened where so many may be.
#[tactic(auto, using(crate::proofs::Steps::may_open_none, crate::proofs::Steps::may_open_some))]
pub(crate) fn may_open(brackets: u32) -> bool
    ensures { result ≡ may_open_of brackets }
{
    brackets != 0
}

//! How sets of states keep names.

/// How a set of states keeps the names of bodies in its members. What a process can do and refuse is the same either way; how many
/// states there are, and how deep they are, is counted over what is kept (`docs/SEMANTICS.md`).
#[derive(Clone, Copy, Debug, PartialEq, Eq)]
pub enum Names {
    /// A name stays a name, which a hidden step unfolds.
    Steps,
    /// A name that can be unfolded at once is replaced by its body, where that comes to an end.
    Bodies,
}

//! Which requests for memory are refused while a row is played.

use rows::Refusing;
use std::alloc::Global;

/// When requests are refused.
#[derive(Clone, Copy, PartialEq, Eq)]
pub(crate) enum Way {
    /// As the allocator was made.
    Made,
    /// As it was made, until an answer says so.
    UntilAnswered,
    /// All, during the calls that take no memory.
    Quiet,
}

/// An allocator, and when it refuses requests.
#[derive(Clone, Copy)]
pub(crate) struct Memory<'a> {
    pub refusing: &'a Refusing<Global>,
    pub way: Way,
}

impl Memory<'_> {
    /// A refusal was answered.
    pub(crate) fn answered(self) {
        if self.way == Way::UntilAnswered && self.refusing.has_refused() {
            self.refusing.release();
        }
    }

    /// A call begins that takes no memory.
    pub(crate) fn begin_quiet(self) {
        if self.way == Way::Quiet {
            self.refusing.refuse();
        }
    }

    /// The call is over. What is to be written where it made a request is answered.
    pub(crate) fn end_quiet(self) -> &'static str {
        let asked = self.way == Way::Quiet && self.refusing.has_refused();
        if self.way == Way::Quiet {
            self.refusing.release();
        }
        if asked { " (a request)" } else { "" }
    }
}

//! Which requests for memory are refused while conversations are played.

use rows::Refusing;
use std::alloc::Global;

/// When requests are refused.
#[derive(Clone, Copy, PartialEq, Eq)]
pub(crate) enum Way {
    /// As the allocator was made.
    Made,
    /// As it was made, until the conversation is over in which one came.
    UntilOver,
    /// All, once the conversations are over.
    Quiet,
}

/// An allocator of ample memory, one over it, and when that refuses requests.
#[derive(Clone, Copy)]
pub(crate) struct Memory<'a> {
    pub alloc: Global,
    pub refusing: &'a Refusing<Global>,
    pub way: Way,
}

impl Memory<'_> {
    /// A conversation is over.
    pub(crate) fn after_talk(self) {
        if self.way == Way::UntilOver && self.refusing.has_refused() {
            self.refusing.release();
        }
    }

    /// All conversations are over. Whether it is to be looked at what the seats answer then.
    pub(crate) fn after_talks(self) -> bool {
        if self.way == Way::Quiet {
            self.refusing.refuse();
        }
        self.way == Way::Quiet
    }
}

//! An allocator that refuses one request, or all from one on, for tests.

use std::alloc::{AllocError, Allocator};
use std::cell::Cell;

/// Passes each request on to `inner`, save those that it refuses.
pub struct Refusing<B: Allocator> {
    inner: B,
    requests: Cell<Requests>,
}

/// Which requests are refused, and whether one was.
#[derive(Clone, Copy)]
struct Requests {
    /// How many requests are granted before one is refused.
    granted: u64,
    /// What is refused then.
    then: Then,
    /// Whether a request was refused.
    refused: bool,
}

/// What is refused, once so many requests are granted.
#[derive(Clone, Copy)]
enum Then {
    Nothing,
    One,
    All,
}

/// The requests before the one with this number, counted from 1, are granted.
fn requests_to(which: u64, then: Then) -> Requests {
    match which {
        0 => Requests {
            granted: 0,
            then: Then::Nothing,
            refused: false,
        },
        which => Requests {
            granted: which - 1,
            then,
            refused: false,
        },
    }
}

impl<B: Allocator> Refusing<B> {
    /// Refuses the request number `which`, counted from 1, and no other; with 0 none.
    pub fn new(inner: B, which: u64) -> Refusing<B> {
        Refusing {
            inner,
            requests: Cell::new(requests_to(which, Then::One)),
        }
    }

    /// Refuses the request number `which`, counted from 1, and all after it, up to a release; with 0 none.
    pub fn all_from(inner: B, which: u64) -> Refusing<B> {
        Refusing {
            inner,
            requests: Cell::new(requests_to(which, Then::All)),
        }
    }

    /// From now on every request is refused, up to a release. None counts as refused before.
    pub fn refuse(&self) {
        self.requests.set(Requests {
            granted: 0,
            then: Then::All,
            refused: false,
        });
    }

    /// From now on no request is refused. What was refused stays known.
    pub fn release(&self) {
        self.requests.set(Requests {
            granted: 0,
            then: Then::Nothing,
            refused: self.requests.get().refused,
        });
    }

    /// Whether a request was refused.
    pub fn has_refused(&self) -> bool {
        self.requests.get().refused
    }
}

impl<B: Allocator> Drop for Refusing<B> {
    fn drop(self) {
        let Self {
            inner: _,
            requests: _,
        } = self;
    }
}

// Counts a request, and says whether it is to be refused.
fn counts(requests: &Cell<Requests>) -> bool {
    let now = requests.get();
    if now.granted > 0 {
        requests.set(Requests {
            granted: now.granted - 1,
            ..now
        });
        return false;
    }
    match now.then {
        Then::Nothing => false,
        Then::One => {
            requests.set(Requests {
                granted: 0,
                then: Then::Nothing,
                refused: true,
            });
            true
        }
        Then::All => {
            requests.set(Requests {
                granted: 0,
                then: Then::All,
                refused: true,
            });
            true
        }
    }
}

unsafe impl<B: Allocator> Allocator for Refusing<B> {
    ghost dealloc_token = { λ heap ty ptr. B.dealloc_token heap.inner ty ptr };

    fn allocate(&self, size: usize, align: usize) -> Result<*mut u8, AllocError> {
        if counts(&self.requests) {
            return Err(AllocError);
        }
        self.inner.allocate(size, align)
    }

    unsafe fn deallocate(&self, ptr: *mut u8, size: usize, align: usize) {
        self.inner.deallocate(ptr, size, align);
    }
}

//! A list that only proofs read: it takes no memory, however long it is.
//!
//! What has happened determines much of what may happen next, and contracts speak of it. A program that keeps only what
//! follows from it keeps the list here.
#![tactic(auto)]

ghost use Rattle.std.specs.Prelude.{◌≡◌, List, [], ◌∷◌, ◌++◌};
ghost use Rattle.std.specs.Borrow.{ftrue};

use std::marker::{Model, PhantomData};

/// What has come so far, the oldest first. Proofs alone read the items. It takes no memory.
#[derive(Drop)]
pub struct Past<T> {
    of: PhantomData<T>,
    pub ghost items: { List T },
}

impl<T> Model for Past<T> {
    ghost also_owns = { λ _. ftrue };
}

// It owns nothing.
unsafe impl<T: Send> Send for Past<T> {}

impl<T> Past<T> {
    /// The past of which nothing has come yet.
    pub fn new() -> Past<T>
        ensures { result.items ≡ [] }
    {
        Past { of: PhantomData }
    }

    /// The past once this item has come too.
    pub fn and(&self, item: &T) -> Past<T>
        ensures { result.items ≡ self.now.items ++ item.now ∷ [] }
    {
        Past { of: PhantomData } // the proof gives its items
    }
}

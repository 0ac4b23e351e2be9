//! Lists of numbers by key.

ghost use Rattle.std.specs.Prelude.{◌≡◌, [], nat_eq, option_map};
ghost use Rattle.std.specs.Map.{lookup};
ghost use Rattle.transitions.specs.Lists.{MayHave};

use indexmap::IndexMap;
use std::alloc::Allocator;
use std::hash::{BuildHasherDefault, FoldHasher};
use std::marker::Model;

type Hashing = BuildHasherDefault<FoldHasher>;

/// Lists of numbers by key. All are parts of one list, so each costs its numbers and three words.
#[derive(Drop)]
pub(crate) struct Lists<A: Allocator> {
    // From where to where each key's numbers stand in `numbers`.
    places: IndexMap<u64, (usize, usize), Hashing, A>,
    numbers: Vec<u32, A>,
}

impl<A: Allocator> Model for Lists<A> {
    ghost use Rattle.std.specs.Prelude.{ℕ, List, length};
    ghost use Rattle.transitions.specs.Lists.{listed, AreWithin};

    ghost Value = { List (ℕ × List ℕ) };

    ghost view = { λ l. listed l.numbers.items l.places.entries };

    ghost invariant = { λ l. AreWithin (length l.numbers.items) l.places.entries };
}

impl<A: Allocator + Copy> Lists<A> {
    /// No lists. Takes no memory.
    pub(crate) fn new(alloc: A) -> Lists<A>
        ensures { result ≡ [] }
    {
        Lists {
            places: IndexMap::new(alloc),
            numbers: Vec::new(alloc),
        }
    }
}

impl<A: Allocator> Lists<A> {
    /// The key's list. Takes no memory.
    pub(crate) fn get(&self, key: u64) -> Option<&[u32]>
        ensures { option_map (λ x. x.now) result ≡ lookup (nat_eq key) self.now }
    {
        match self.places.get(&key) {
            Some(&(from, to)) => Some(&self.numbers[from..to]),
            None => None,
        }
    }

    /// Keeps the list by the key, unless memory is refused.
    pub(crate) fn put(&mut self, key: u64, list: &[u32])
        ensures { MayHave self.old self.new key list.now }
    {
        let from = self.numbers.len();
        let Ok(()) = self.numbers.extend_from_slice(list) else {
            return;
        };
        let to = self.numbers.len();
        let _ = self.places.insert(key, (from, to));
    }
}

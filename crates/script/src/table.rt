//! Tables of names.
ghost use Rattle.std.specs.Prelude.{◌≡◌, ℕ, List, Some, None, is_some, OnOk, if◌then◌else◌};
ghost use Rattle.std.specs.Option.{option_map};
ghost use Rattle.values.specs.Names.{same_name};
ghost use Rattle.script.specs.Tables.{said};

use indexmap::IndexMap;
use std::alloc::{AllocError, Allocator};
use std::hash::{BuildHasherDefault, FoldHasher};

type Hashing = BuildHasherDefault<FoldHasher>;

/// What names mean.
#[derive(Drop)]
pub(crate) struct Table<V: Drop, A: Allocator> {
    entries: IndexMap<Vec<u8, A>, V, Hashing, A>,
}

impl<V: Drop, A: Allocator + Copy> Table<V, A> {
    /// A table without names. Takes no memory.
    pub(crate) fn new(alloc: A) -> Table<V, A>
        ensures { (name : List ℕ) → said result name ≡ None }
    {
        Table {
            entries: IndexMap::new(alloc),
        }
    }

    /// Says that the name means this value.
    pub(crate) fn insert(&mut self, name: &[u8], value: V) -> Result<(), AllocError>
        ensures { OnOk result ((other : List ℕ) → said self.new other ≡ (if same_name other name.now then Some value else said self.old other)) }
    {
        let name = Vec::from_slice(*self.entries.allocator(), name)?;
        let _old = self.entries.insert(name, value)?;
        Ok(())
    }
}

impl<V: Drop, A: Allocator> Table<V, A> {
    /// What the name means. Costs one look-up by its hash.
    pub(crate) fn get(&self, name: &[u8]) -> Option<&V>
        ensures { option_map (λ v. v.now) result ≡ said self.now name.now }
    {
        self.entries.get(name)
    }

    /// Whether the table says what the name means.
    pub(crate) fn has(&self, name: &[u8]) -> bool
        ensures { result ≡ is_some (said self.now name.now) }
    {
        self.get(name).is_some()
    }
}

//! What names mean.
ghost use Rattle.std.specs.Prelude.{◌≡◌, ℕ, List, Some, None, is_some, OnOk, OnErr, if◌then◌else◌};
ghost use Rattle.std.specs.Option.{option_map};
ghost use Rattle.values.specs.Names.{same_name};
ghost use Rattle.values.specs.View.{Gives, worth as worth_of};
ghost use Rattle.values.specs.Tables.{table, names_value};

use crate::worth::Worth;
use indexmap::IndexMap;
use std::alloc::{AllocError, Allocator};
use std::hash::{BuildHasherDefault, FoldHasher};
use tokens::{Position, ReadError, ScriptErrorKind, fault};

type Hashing = BuildHasherDefault<FoldHasher>;

/// A table of names and what they mean.
#[derive(Drop)]
pub struct Known<A: Allocator> {
    pub(crate) worths: IndexMap<Vec<u8, A>, Worth<A>, Hashing, A>,
}

impl<A: Allocator + Copy> Known<A> {
    /// A table without names. Takes no memory.
    #[tactic(auto, unfolding(crate::specs::Tables::known_by))]
    pub fn new(alloc: A) -> Known<A>
        ensures { (name : List ℕ) → table result name ≡ None }
    {
        Known {
            worths: IndexMap::new(alloc),
        }
    }
}

impl<A: Allocator> Known<A> {
    /// What the name means.
    fn get(&self, name: &[u8]) -> Option<&Worth<A>>
        ensures { option_map (λ w. worth_of w.now) result ≡ table self.now name.now }
    {
        self.worths.get(name)
    }

    /// Whether the table says what the name means.
    pub fn has(&self, name: &[u8]) -> bool
        ensures { result ≡ is_some (table self.now name.now) }
    {
        match self.get(name) {
            Some(_) => true,
            None => false,
        }
    }

    /// Whether the name means one value or a truth.
    #[tactic(auto, unfolding(crate::specs::Tables::names_value))]
    pub(crate) fn is_one(&self, name: &[u8]) -> bool
        ensures { result ≡ names_value (table self.now name.now) }
    {
        match self.get(name) {
            Some(Worth::One(_) | Worth::Truth(_)) => true,
            Some(Worth::Many(_)) => false,
            None => false,
        }
    }
}

impl<A: Allocator + Clone> Known<A> {
    /// Says what the name means, in place of what it meant. Where memory is refused the table stays. Costs one
    /// look-up by the name's hash.
    #[tactic(auto, using(crate::proofs::Lists::inserted, crate::proofs::Lists::kept))]
    pub fn insert(&mut self, name: Vec<u8, A>, worth: Worth<A>) -> Result<(), AllocError>
        ensures inserted { OnOk result ((other : List ℕ) → table self.new other ≡ (if same_name other name.items then Some (worth_of worth) else table self.old other)) }
        ensures unchanged { OnErr result ((other : List ℕ) → table self.new other ≡ table self.old other) }
    {
        let _old = self.worths.insert(name, worth)?;
        Ok(())
    }

    /// A copy of what the name means; `UnknownName` where the table hasn't got it.
    pub fn worth(&self, name: &[u8], line: Position) -> Result<Worth<A>, ReadError>
        ensures { Gives worth_of result (table self.now name.now) }
    {
        match self.get(name) {
            Some(worth) => Ok(worth.try_clone()?),
            None => Err(fault(line, ScriptErrorKind::UnknownName)),
        }
    }
}

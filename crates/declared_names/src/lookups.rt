//! How the declared names are looked up.
ghost use Rattle.std.specs.Prelude.{◌≡◌, ◌↔◌, IsTrue, length, slice_get, Some, MatchOption};
ghost use Rattle.std.specs.Option.{option_map};
ghost use Rattle.values.specs.View.{Gives};
ghost use Rattle.values.specs.Names.{meaning as meaning_in};
ghost use Rattle.declared_names.specs.Stored.{listed};
ghost use Rattle.declared_names.specs.ProcessAnswers.{name_in};
ghost use Rattle.declared_names.specs.View.{entries as entries_of, meaning_of};

use crate::entries::{Entries, Entry, Table};
use crate::process_answers::answers;
use std::alloc::Allocator;
use tokens::ReadError;

impl<'a, A: Allocator + Copy> Entries<'a, A> {
    /// The names in the table, with what can be found of them all at once.
    pub(crate) fn complete(alloc: A, table: Table<'a, A>) -> Result<Entries<'a, A>, ReadError>
        ensures { Gives entries_of result (Some (listed table.entry.entries)) }
    {
        let entries = Entries {
            table,
            answers: Vec::new(alloc),
        };
        let answers = answers(alloc, &entries)?;
        Ok(Entries {
            table: entries.table,
            answers,
        })
    }
}

impl<'a, A: Allocator> Entries<'a, A> {
    /// How many names there are.
    pub fn len(&self) -> usize
        ensures { result ≡ length (entries_of self.now) }
    {
        self.table.len()
    }

    /// Whether there are none.
    pub fn is_empty(&self) -> bool
        ensures { IsTrue result ↔ (length (entries_of self.now) ≡ 0) }
    {
        self.len() == 0
    }

    /// What the name is declared as. Costs one look-up by its hash.
    pub fn get(&self, name: &[u8]) -> Option<&Entry<'a, A>>
        ensures { option_map (λ e. meaning_of e.now.meaning) result ≡ meaning_in (entries_of self.now) name.now }
    {
        self.table.get(name)
    }

    /// What the name at this place in text order, counted from 0, is declared as.
    pub fn at(&self, place: usize) -> Option<&Entry<'a, A>>
        ensures { option_map (λ e. meaning_of e.now.meaning) result ≡ option_map (λ e. e.1) (slice_get (entries_of self.now) place) }
    {
        match self.table.get_index(place) {
            Some((_, entry)) => Some(entry),
            None => None,
        }
    }

    /// The place of the name in text order, counted from 0, if it is declared. Costs one look-up by its hash.
    pub fn place(&self, name: &[u8]) -> Option<usize>
        ensures { MatchOption result (meaning_in (entries_of self.now) name.now ≡ None) (λ i. name_in (entries_of self.now) i ≡ Some name.now) }
    {
        self.table.get_index_of(name)
    }

    /// The name at this place in text order, counted from 0.
    pub fn name_at(&self, place: usize) -> Option<&[u8]>
        ensures { option_map (λ n. n.now) result ≡ option_map (λ e. e.0) (slice_get (entries_of self.now) place) }
    {
        match self.table.get_index(place) {
            Some((name, _)) => Some(name.as_slice()),
            None => None,
        }
    }
}

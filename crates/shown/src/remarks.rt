//! Texts by what they were said of.

ghost use Rattle.std.specs.Prelude.{◌≡◌, ◌⊎◌, List, None, OnOk, Some, ℕ};
ghost use Rattle.std.specs.Option.{option_map};
ghost use Rattle.alphabet.specs.EventSets.{Set};
ghost use Rattle.shown.specs.Remarks.{remark};

use alphabet::EventSet;
use indexmap::IndexMap;
use std::alloc::{AllocError, Allocator};
use std::hash::{BuildHasherDefault, FoldHasher};

/// When this many bytes of text are kept, the next text takes the place of all.
const MOST: usize = 16_777_216;

/// Texts that were said of some sets of events.
#[derive(Drop)]
pub(crate) struct Remarks<A: Allocator> {
    texts: IndexMap<Vec<EventSet, A>, Vec<u8, A>, BuildHasherDefault<FoldHasher>, A>,
    /// How many bytes the texts are together.
    bytes: usize,
}

impl<A: Allocator> Remarks<A> {
    /// What was said of these sets. Costs one look-up by their hash.
    pub(crate) fn get(&self, sets: &[EventSet]) -> Option<&Vec<u8, A>>
        ensures { option_map (λ text. text.now.items) result ≡ remark self.now sets.now }
    {
        self.texts.get(sets)
    }

    /// Forgets all, where it has become much.
    fn make_room(&mut self)
        ensures { (others : List Set) (text : List ℕ) → remark self.new others ≡ Some text → remark self.old others ≡ Some text }
    {
        if self.bytes >= MOST {
            self.texts.clear();
            self.bytes = 0;
        }
    }
}

impl<A: Allocator + Copy> Remarks<A> {
    /// No texts yet. Takes no memory.
    pub(crate) fn new(alloc: A) -> Remarks<A>
        ensures { (sets : List Set) → remark result sets ≡ None }
    {
        Remarks {
            texts: IndexMap::new(alloc),
            bytes: 0,
        }
    }

    /// Keeps what was said of these sets.
    pub(crate) fn keep(&mut self, sets: &[EventSet], said: &[u8]) -> Result<(), AllocError>
        ensures { OnOk result ((others : List Set) (text : List ℕ) → remark self.new others ≡ Some text → (remark self.old others ≡ Some text) ⊎ ((others ≡ sets.now) × (text ≡ said.now))) }
    {
        self.make_room();
        let alloc = *self.texts.allocator();
        let key = Vec::from_slice(alloc, sets)?;
        let text = Vec::from_slice(alloc, said)?;
        let _old = self.texts.insert(key, text)?;
        self.bytes = self.bytes.saturating_add(said.len());
        Ok(())
    }
}

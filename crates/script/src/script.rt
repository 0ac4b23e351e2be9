//! A script as phrases look at it.
ghost use Rattle.std.specs.Prelude.{◌≡◌, ℕ, List, Some};
ghost use Rattle.alphabet.specs.EventSets.{has};
ghost use Rattle.event_phrases.specs.Events.{set_of};
ghost use Rattle.script.specs.Tables.{said};

use crate::names::Names;
use crate::table::Table;
use alphabet::EventSet;
use declarations::{
    fault_of_beginning, fault_of_call, fault_of_channel, fault_of_name, fault_of_phrase,
};
use event_phrases::{GlobalScope, Row, Set, Wanted};
use std::alloc::Allocator;
use syntax::Tree;
use tokens::{Position, ReadError};
use values::{Input, Known};

/// What is known of a script's names, with the named sets of events that were found.
#[derive(Drop)]
pub(crate) struct Script<'a, A: Allocator> {
    pub(crate) names: &'a Names<'a, A>,
    pub(crate) sets: &'a Table<EventSet, A>,
    /// Memory to look for what is wrong with a phrase.
    pub(crate) alloc: A,
    ghost lie: { (name : List ℕ) (set : ℕ) → said sets.now name ≡ Some set → set ≡ set_of names.now.sigma.alphabet (has set) },
}

impl<'a, A: Allocator + Copy> GlobalScope<A> for Script<'a, A> {
    ghost use Rattle.script.specs.View.{scope as scope_of};

    ghost scope = { scope_of };

    fn known(&self) -> &Known<A> {
        &self.names.known
    }

    fn events(&self) -> &[Row<A>] {
        &self.names.sigma.rows
    }

    fn fields(&self, channel: &[u8]) -> Option<&[Set<A>]> {
        match self.names.sigma.fields.get(channel) {
            Some(fields) => Some(fields.as_slice()),
            None => None,
        }
    }

    fn sigma(&self) -> EventSet {
        EventSet::all(&self.names.sigma.alphabet)
    }

    #[tactic(auto, using(crate::proofs::Masks::stored))]
    fn set(&self, name: &[u8]) -> Option<EventSet> {
        self.sets.get(name).copied()
    }

    fn is_process(&self, name: &[u8]) -> bool {
        self.names.entries.is_process(name)
    }

    fn is_constant(&self, name: &[u8]) -> bool {
        self.names.is_constant(name)
    }

    fn definition(&self, name: &[u8]) -> Option<&Tree<A>> {
        self.names.body(name)
    }

    fn with_parameters(&self, name: &[u8]) -> Option<(&[Vec<u8, A>], &Tree<A>)> {
        match self.names.with_parameters(name) {
            Some((names, body)) => Some((names, body)),
            None => None,
        }
    }

    fn line(&self, name: &[u8]) -> Position {
        match self.names.entries.get(name) {
            Some(entry) => entry.line,
            None => Position::Line(1),
        }
    }

    fn fault(&self, name: &[u8], line: Position) -> ReadError {
        fault_of_name(
            self.alloc,
            &self.names.entries,
            &self.names.known,
            name,
            line,
        )
    }

    fn call_fault(&self, name: &[u8], line: Position) -> ReadError {
        fault_of_call(&self.names.entries, name, line)
    }

    fn phrase_fault(&self, inputs: &[Input<A>], phrase: &Tree<A>, wanted: Wanted) -> ReadError {
        let alloc = self.alloc;
        let Names { entries, known, .. } = self.names;
        let wanted = match wanted {
            Wanted::Value => declarations::Wanted::Value,
            Wanted::Values => declarations::Wanted::Values,
            Wanted::Events => declarations::Wanted::Events,
            Wanted::Truth => declarations::Wanted::Truth,
            Wanted::Beginning => return fault_of_beginning(alloc, entries, known, inputs, phrase),
            Wanted::Channel => return fault_of_channel(entries, known, inputs, phrase),
        };
        fault_of_phrase(alloc, entries, known, inputs, phrase, wanted)
    }
}

//! The scope of a whole script.
ghost use Rattle.std.specs.Prelude.{◌≡◌, ◌≤◌, List, length, map, Some, MatchOption};
ghost use Rattle.std.specs.Option.{option_map};
ghost use Rattle.alphabet.specs.Channels.{events as events_of, event_count};
ghost use Rattle.alphabet.specs.Events.{is_numbered_below};
ghost use Rattle.alphabet.specs.declared.events.Event.{Event};
ghost use Rattle.alphabet.specs.EventSets.{member};
ghost use Rattle.syntax.specs.Grammar.{Syntax};
ghost use Rattle.syntax.specs.View.{shape};
ghost use Rattle.values.specs.Names.{definition as defined_by, parametric as parametric_by, meaning, is_process as is_process_of, is_constant as is_constant_meaning};
ghost use Rattle.values.specs.Values.{Name};
ghost use Rattle.values.specs.Tables.{table};
ghost use Rattle.event_phrases.specs.Events.{fields_named, masked};
ghost use Rattle.event_phrases.specs.Scopes.{Scope};
ghost use Rattle.event_phrases.specs.View.{listed, row};

use crate::row::Row;
use alphabet::EventSet;
use std::alloc::Allocator;
use syntax::Tree;
use tokens::{Position, ReadError};
use values::{Input, Known, Value};

/// The values of a field, in order.
pub type Set<A> = Vec<Value<A>, A>;

/// What is wanted of a phrase.
#[derive(Clone, Copy, Debug, PartialEq, Eq)]
pub enum Wanted {
    /// A number or a constant.
    Value,
    /// A set of numbers and constants.
    Values,
    /// A set of events.
    Events,
    /// A truth.
    Truth,
    /// A channel and its first values, without inputs.
    Beginning,
    /// A channel, whatever its fields.
    Channel,
}

/// What is known of a script's names where no input stands before a phrase.
pub trait GlobalScope<A: Allocator>: Drop {
    /// What is known.
    ghost scope: { Self → Scope };

    /// What names mean.
    fn known(&self) -> &Known<A>
        ensures { table result.now ≡ (scope self.now).known };

    /// The events of Sigma, each at its number.
    fn events(&self) -> &[Row<A>]
        ensures rows { map row result.now ≡ events_of (scope self.now).channels }
        ensures few { length result.now ≤ 256 };

    /// The values of the fields of a channel.
    fn fields(&self, channel: &[u8]) -> Option<&[Set<A>]>
        ensures { option_map (λ f. map (λ v. listed v.items) f.now) result ≡ fields_named (scope self.now).channels channel.now };

    /// Sigma.
    fn sigma(&self) -> EventSet
        ensures { (x : Event) → member result x ≡ is_numbered_below (event_count (scope self.now).channels) x };

    /// What a name of a set of events means.
    fn set(&self, name: &[u8]) -> Option<EventSet>
        ensures { result ≡ masked (scope self.now).channels ((scope self.now).sets name.now) };

    /// Whether the name is one of a process.
    fn is_process(&self, name: &[u8]) -> bool
        ensures { result ≡ is_process_of (scope self.now).entries name.now };

    /// Whether the name is a constant's.
    fn is_constant(&self, name: &[u8]) -> bool
        ensures { result ≡ is_constant_meaning (meaning (scope self.now).entries name.now) };

    /// The body of the definition without parameters that has this name.
    fn definition(&self, name: &[u8]) -> Option<&Tree<A>>
        ensures { MatchOption result ((t : Syntax) → meaning (scope self.now).entries name.now ≡ Some (defined_by t) → ⊥) (λ t. meaning (scope self.now).entries name.now ≡ Some (defined_by (shape t.now))) };

    /// The parameters and the body of the definition with parameters that has this name.
    fn with_parameters(&self, name: &[u8]) -> Option<(&[Vec<u8, A>], &Tree<A>)>
        ensures { MatchOption result ((xs : List Name) (t : Syntax) → meaning (scope self.now).entries name.now ≡ Some (parametric_by xs t) → ⊥) (λ p. meaning (scope self.now).entries name.now ≡ Some (parametric_by (map (λ x. x.items) p.0.now) (shape p.1.now))) };

    /// The line of the name of a definition.
    fn line(&self, name: &[u8]) -> Position;

    /// What is wrong with a name on this line that is no process.
    fn fault(&self, name: &[u8], line: Position) -> ReadError;

    /// What is wrong with a call on this line of a name that is no definition with so many parameters.
    fn call_fault(&self, name: &[u8], line: Position) -> ReadError;

    /// What is wrong with a phrase after these inputs that isn't what is wanted.
    fn phrase_fault(&self, inputs: &[Input<A>], phrase: &Tree<A>, wanted: Wanted) -> ReadError;
}

//! Sets of events, as phrases give them.
ghost use Rattle.std.specs.Prelude.{◌≡◌, Some, map};
ghost use Rattle.alphabet.specs.declared.events.Event.{Event};
ghost use Rattle.alphabet.specs.EventSets.{member};
ghost use Rattle.syntax.specs.View.{shape, shapes};
ghost use Rattle.values.specs.Tables.{input};
ghost use Rattle.values.specs.View.{Gives};
ghost use Rattle.event_phrases.specs.Events.{event_set as event_set_in, gives, is_in_both, masked, together, two_masked};
ghost use Rattle.event_phrases.specs.Forms.{event_of, set_phrase_of};
ghost use Rattle.event_phrases.specs.Scopes.{events_by, within};
ghost use Rattle.event_phrases.specs.Shapes.{plain_set};

use crate::beginning::{beginning, whole_event};
use crate::events::beginning_so;
use crate::forms::{Combination, Extent, SetPhrase, set_phrase};
use crate::global_scope::{GlobalScope, Wanted};
use crate::scope::{Scope, reported_fault, truth};
use alphabet::EventSet;
use std::alloc::Allocator;
use syntax::Tree;
use tokens::{Position, ReadError, ScriptErrorKind, fault};

/// What is made of two sets.
#[tactic(auto, unfolding(crate::specs::Events::is_in_both))]
fn combined(combination: Combination, first: EventSet, second: EventSet) -> EventSet
    ensures { (x : Event) → member result x ≡ is_in_both combination (member first x) (member second x) }
{
    match combination {
        Combination::Union => first.union(second),
        Combination::Intersection => first.minus(first.minus(second)),
        Combination::Difference => first.minus(second),
    }
}

/// The events of one phrase in a set.
fn events_of<A: Allocator + Copy, G: GlobalScope<A>>(
    alloc: A,
    scope: &Scope<'_, A, G>,
    extent: Extent,
    tree: &Tree<A>,
) -> Result<EventSet, ReadError>
    ensures { Gives (λ s. s) result (masked (G.scope scope.now.global.now).channels (gives (G.scope scope.now.global.now).channels (within (G.scope scope.now.global.now) (map input scope.now.inputs.items)).known extent (event_of (shape tree.now)))) }
{
    let event = match extent {
        Extent::Beginnings => beginning(alloc, scope, tree)?,
        Extent::Events => whole_event(alloc, scope, tree)?,
    };
    Ok(beginning_so(scope.global.events(), &event))
}

/// The events of the phrases in a set.
fn several<A: Allocator + Copy, G: GlobalScope<A>>(
    alloc: A,
    scope: &Scope<'_, A, G>,
    extent: Extent,
    trees: &[Tree<A>],
) -> Result<EventSet, ReadError>
    ensures { Gives (λ s. s) result (masked (G.scope scope.now.global.now).channels (together (gives (G.scope scope.now.global.now).channels (within (G.scope scope.now.global.now) (map input scope.now.inputs.items)).known extent) (map event_of (shapes trees.now)))) }
{
    let mut set = EventSet::empty();
    for tree in trees {
        let more = events_of(alloc, scope, extent, tree)?;
        set = set.union(more);
    }
    Ok(set)
}

/// The set of events that a phrase means. Its fault isn't the one that is reported.
#[cycle(sets)]
fn event_set<A: Allocator + Copy, G: GlobalScope<A>>(
    alloc: A,
    scope: &Scope<'_, A, G>,
    tree: &Tree<A>,
) -> Result<EventSet, ReadError>
    ensures { Gives (λ s. s) result (masked (G.scope scope.now.global.now).channels (event_set_in (G.scope scope.now.global.now).channels (within (G.scope scope.now.global.now) (map input scope.now.inputs.items)).known (G.scope scope.now.global.now).sets (set_phrase_of (shape tree.now)))) }
{
    match set_phrase(tree) {
        Some(phrase) => set_of_phrase(alloc, scope, phrase, tree.line()),
        None => Err(fault(tree.line(), ScriptErrorKind::Expected)),
    }
}

/// The same of a phrase by its form.
#[cycle(sets)]
fn set_of_phrase<A: Allocator + Copy, G: GlobalScope<A>>(
    alloc: A,
    scope: &Scope<'_, A, G>,
    phrase: SetPhrase<'_, A>,
    line: Position,
) -> Result<EventSet, ReadError>
    ensures { Gives (λ s. s) result (masked (G.scope scope.now.global.now).channels (event_set_in (G.scope scope.now.global.now).channels (within (G.scope scope.now.global.now) (map input scope.now.inputs.items)).known (G.scope scope.now.global.now).sets (plain_set phrase.entry))) }
{
    match phrase {
        SetPhrase::Inside(inner) => event_set(alloc, scope, inner),
        SetPhrase::Called(name) => {
            if scope.is_value(name) {
                return Err(fault(line, ScriptErrorKind::Expected));
            }
            match scope.global.set(name) {
                Some(set) => Ok(set),
                None => Err(fault(line, ScriptErrorKind::UnknownName)),
            }
        }
        SetPhrase::Nothing => Ok(EventSet::empty()),
        SetPhrase::Everything => Ok(scope.global.sigma()),
        SetPhrase::Several(extent, trees) => several(alloc, scope, extent, trees),
        SetPhrase::Chosen(condition, first, second) => {
            if truth(alloc, scope.global.known(), &scope.inputs, condition)? {
                event_set(alloc, scope, first)
            } else {
                event_set(alloc, scope, second)
            }
        }
        SetPhrase::Combined(combination, first, second) => {
            let first = event_set(alloc, scope, first)?;
            let second = event_set(alloc, scope, second)?;
            Ok(combined(combination, first, second))
        }
    }
}

/// The set of events that a phrase means, and the fault where it means none.
#[tactic(auto, using(syntax::proofs::Failing::fails_too))]
pub fn wanted_events<A: Allocator + Copy, G: GlobalScope<A>>(
    alloc: A,
    scope: &Scope<'_, A, G>,
    tree: &Tree<A>,
) -> Result<EventSet, ReadError>
    ensures { Gives (λ s. s) result (masked (G.scope scope.now.global.now).channels (event_set_in (G.scope scope.now.global.now).channels (within (G.scope scope.now.global.now) (map input scope.now.inputs.items)).known (G.scope scope.now.global.now).sets (set_phrase_of (shape tree.now)))) }
{
    match event_set(alloc, scope, tree) {
        Ok(set) => Ok(set),
        Err(error) => Err(reported_fault(scope.global, &scope.inputs, tree, Wanted::Events, error)),
    }
}

/// The sets of events that two phrases mean.
pub fn two_sets<A: Allocator + Copy, G: GlobalScope<A>>(
    alloc: A,
    scope: &Scope<'_, A, G>,
    first: &Tree<A>,
    second: &Tree<A>,
) -> Result<(EventSet, EventSet), ReadError>
    ensures { Gives (λ p. p) result (two_masked (G.scope scope.now.global.now).channels (events_by (within (G.scope scope.now.global.now) (map input scope.now.inputs.items)) (shape first.now)) (events_by (within (G.scope scope.now.global.now) (map input scope.now.inputs.items)) (shape second.now))) }
{
    let first = wanted_events(alloc, scope, first)?;
    let second = wanted_events(alloc, scope, second)?;
    Ok((first, second))
}

/// The set of events that a phrase means where no input stands before it. Its fault isn't the one that is reported.
pub fn set_of_events<A: Allocator + Copy, G: GlobalScope<A>>(
    alloc: A,
    global: &G,
    tree: &Tree<A>,
) -> Result<EventSet, ReadError>
    ensures { Gives (λ s. s) result (masked (G.scope global.now).channels (event_set_in (G.scope global.now).channels (G.scope global.now).known (G.scope global.now).sets (set_phrase_of (shape tree.now)))) }
{
    let scope = Scope {
        global,
        inputs: Vec::new(alloc),
        line: tree.line(),
    };
    event_set(alloc, &scope, tree)
}

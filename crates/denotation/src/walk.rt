//! The values of a replicated form's generators, gone through one after the other. Where a walk stands is a value in memory, so
//! that it takes no more of the stack for more generators.
ghost use Rattle.std.specs.Prelude.{◌≡◌, ◌∷◌, IfOk, map};
ghost use Rattle.syntax.specs.View.{shape, shapes};
ghost use Rattle.values.specs.Tables.{input};
ghost use Rattle.values.specs.View.{Gives, value as value_of, values};
ghost use Rattle.event_phrases.specs.Scopes.{Scope as ScopeOf, within};
ghost use Rattle.denotation.specs.Walks.{first_scope, once_found, visits, visits_after, visits_from};
ghost use Rattle.denotation.specs.Places.{from_next, from_place, from_scope, innermost_first, waiting};

use crate::ahead::is_empty_ahead;
use crate::forms::generator;
use crate::replicated::values_of;
use event_phrases::forms::first;
use event_phrases::{GlobalScope, Scope, copies};
use std::alloc::{AllocError, Allocator};
use syntax::Tree;
use tokens::{ReadError, ScriptErrorKind, fault};
use values::{Input, Value, Values};

/// A generator that has a value.
#[derive(Drop)]
pub(crate) struct Opened<'a, A: Allocator> {
    name: &'a [u8],
    /// The values that come later.
    left: Values<A>,
    /// The generators after it.
    inner: &'a [Tree<A>],
}

/// A place on the walk.
#[derive(Drop)]
pub(crate) struct Place<'a, A: Allocator> {
    /// The inputs before it; the last ones are those of the generators that have a value.
    pub(crate) inputs: Vec<Input<A>, A>,
    /// The generators that have a value, the innermost last.
    pub(crate) outer: Vec<Opened<'a, A>, A>,
    /// The generators that have none.
    inner: &'a [Tree<A>],
}

/// The place at this value of a generator inside of these.
fn at_value<'a, A: Allocator + Copy>(
    alloc: A,
    inputs: Vec<Input<A>, A>,
    outer: Vec<Opened<'a, A>, A>,
    generator: Opened<'a, A>,
    value: Value<A>,
) -> Result<Place<'a, A>, AllocError>
    ensures { (s : ScopeOf) → IfOk result (λ p. from_place s p ≡ visits_from s (map input inputs.items) (generator.entry.name.now, value_of value ∷ values generator.entry.left, shapes generator.entry.inner.now) (innermost_first outer.entry.items)) }
{
    let inner = generator.inner;
    let name = Vec::from_slice(alloc, generator.name)?;
    let mut inputs = inputs;
    inputs.push(Input { name, value })?;
    let mut outer = outer;
    outer.push(generator)?;
    Ok(Place {
        inputs,
        outer,
        inner,
    })
}

/// The place at the next value of a generator inside of these, or else of the innermost of these that has one left.
fn next_value<'a, A: Allocator + Copy>(
    alloc: A,
    inputs: Vec<Input<A>, A>,
    outer: Vec<Opened<'a, A>, A>,
    generator: Opened<'a, A>,
) -> Result<Option<Place<'a, A>>, AllocError>
    ensures { (s : ScopeOf) → IfOk result (λ o. from_next s o ≡ visits_from s (map input inputs.items) (waiting generator.entry) (innermost_first outer.entry.items)) }
{
    let mut inputs = inputs;
    let mut outer = outer;
    let mut generator = generator;
    loop {
        if let Some(value) = generator.left.pop_first() {
            return Ok(Some(at_value(alloc, inputs, outer, generator, value)?));
        }
        match outer.pop() {
            None => return Ok(None),
            Some(before) => {
                let own = inputs.pop();
                drop(own);
                generator = before;
            }
        }
    }
}

/// The place at the first value of this generator, the first that has none, or else at the next value of those before.
fn entered<'a, A: Allocator + Copy, G: GlobalScope<A>>(
    alloc: A,
    scope: &Scope<'a, A, G>,
    place: Place<'a, A>,
    tree: &'a Tree<A>,
    inner: &'a [Tree<A>],
) -> Result<Option<Place<'a, A>>, ReadError>
    ensures { Gives (from_next (G.scope scope.now.global.now)) result (once_found (G.scope scope.now.global.now) (map input place.entry.inputs.items) (innermost_first place.entry.outer.items) (shapes inner.now) (shape tree.now)) }
{
    match generator(tree) {
        None => Err(fault(tree.line(), ScriptErrorKind::Expected)),
        Some((name, set)) => {
            let Place { inputs, outer, .. } = place;
            let here = Scope {
                global: scope.global,
                inputs,
                line: scope.line,
            };
            let left = values_of(alloc, &here, name, set, tree.line())?;
            let Scope { inputs, .. } = here;
            Ok(next_value(alloc, inputs, outer, Opened { name, left, inner })?)
        }
    }
}

/// The first place from this one on that is after a value of each generator.
fn descended<'a, A: Allocator + Copy, G: GlobalScope<A>>(
    alloc: A,
    scope: &Scope<'a, A, G>,
    place: Place<'a, A>,
) -> Result<Option<Place<'a, A>>, ReadError>
    ensures { Gives (from_scope (G.scope scope.now.global.now)) result (first_scope (from_place (G.scope scope.now.global.now) place.entry)) }
{
    let mut at = place;
    while let Some((tree, inner)) = first(at.inner) {
        match entered(alloc, scope, at, tree, inner)? {
            None => return Ok(None),
            Some(next) => at = next,
        }
    }
    Ok(Some(at))
}

/// The first place after a value of each of the generators, in this scope. Sets of later generators are looked at first, as far as
/// they can be: where one is empty there is no place, and the values of the earlier ones aren't gone through.
pub(crate) fn first_place<'a, A: Allocator + Copy, G: GlobalScope<A>>(
    alloc: A,
    scope: &Scope<'a, A, G>,
    generators: &'a [Tree<A>],
) -> Result<Option<Place<'a, A>>, ReadError>
    ensures { Gives (from_scope (G.scope scope.now.global.now)) result (first_scope (visits (shapes generators.now) (within (G.scope scope.now.global.now) (map input scope.now.inputs.items)))) }
{
    if is_empty_ahead(alloc, scope, generators) {
        return Ok(None);
    }
    let place = Place {
        inputs: copies(alloc, &scope.inputs)?,
        outer: Vec::new(alloc),
        inner: generators,
    };
    descended(alloc, scope, place)
}

/// The next place after a value of each generator, after the one with these inputs and generators.
pub(crate) fn next_place<'a, A: Allocator + Copy, G: GlobalScope<A>>(
    alloc: A,
    scope: &Scope<'a, A, G>,
    inputs: Vec<Input<A>, A>,
    outer: Vec<Opened<'a, A>, A>,
) -> Result<Option<Place<'a, A>>, ReadError>
    ensures { Gives (from_scope (G.scope scope.now.global.now)) result (first_scope (visits_after (G.scope scope.now.global.now) (map input inputs.items) (innermost_first outer.entry.items))) }
{
    let mut inputs = inputs;
    let mut outer = outer;
    match outer.pop() {
        None => Ok(None),
        Some(generator) => {
            let own = inputs.pop();
            drop(own);
            match next_value(alloc, inputs, outer, generator)? {
                None => Ok(None),
                Some(place) => descended(alloc, scope, place),
            }
        }
    }
}

//! The first values of a prefix, and the events that fit it.
ghost use Rattle.std.specs.Prelude.{suc, ◌≤◌, ◌<◌, ◌++◌, IfOk, IfSome, Some, drop, map};
ghost use Rattle.std.specs.Option.{option_map};
ghost use Rattle.alphabet.specs.Channels.{events as events_of};
ghost use Rattle.syntax.specs.View.{shape, shapes};
ghost use Rattle.values.specs.Tables.{behind, input, table};
ghost use Rattle.values.specs.View.{Gives, value as value_of};
ghost use Rattle.event_phrases.specs.Events.{field_value, value_within};
ghost use Rattle.event_phrases.specs.Forms.{field_of};
ghost use Rattle.event_phrases.specs.Leading.{first_fit, leading, led_fits, led_fitting as led_fitting_of};
ghost use Rattle.event_phrases.specs.Scopes.{within};
ghost use Rattle.event_phrases.specs.View.{listed, row};

use crate::beginning::given_within;
use crate::global_scope::{GlobalScope, Set};
use crate::prefix::{Prefix, fitting};
use crate::row::{Row, is_equal};
use crate::scope::{Scope, copies};
use std::alloc::Allocator;
use syntax::Tree;
use tokens::{Position, ReadError, ScriptErrorKind, fault};
use values::{Input, Known, Value};

/// The value that a field gives, if it is one of the field's set. A fault isn't reported here.
fn leading_value<A: Allocator + Copy>(
    alloc: A,
    known: &Known<A>,
    inputs: &[Input<A>],
    field: &Tree<A>,
    set: &Set<A>,
) -> Result<Option<Value<A>>, ReadError>
    ensures { Gives (option_map value_of) result (Some (value_within (field_value (behind (table known.now) (map input inputs.now)) (field_of (shape field.now))) (listed set.now.items))) }
{
    match given_within(alloc, known, inputs, field, set) {
        Ok(value) => Ok(Some(value)),
        Err(ReadError::Fault(_)) => Ok(None),
        Err(ReadError::Memory) => Err(ReadError::Memory),
    }
}

/// Appends the values of the first fields, as far as they give one of their set.
fn more_leading<A: Allocator + Copy>(
    alloc: A,
    known: &Known<A>,
    inputs: &[Input<A>],
    fields: &[Tree<A>],
    sets: &[Set<A>],
    values: &mut Vec<Value<A>, A>,
) -> Result<(), ReadError>
    ensures { Gives (λ u. listed values.new.items) result (Some (listed values.old.items ++ leading (behind (table known.now) (map input inputs.now)) (map field_of (shapes fields.now)) (map (λ v. listed v.items) sets.now))) }
{
    match fields {
        [] => Ok(()),
        [field, fields @ ..] => match sets {
            [] => Ok(()),
            [set, sets @ ..] => match leading_value(alloc, known, inputs, field, set)? {
                None => Ok(()),
                Some(value) => {
                    values.push(value)?;
                    more_leading(alloc, known, inputs, fields, sets, values)
                }
            },
        },
    }
}

/// The values of the first fields, as far as they give one of their set. A field that is at fault is left to the events.
pub(crate) fn leading_values<A: Allocator + Copy>(
    alloc: A,
    known: &Known<A>,
    inputs: &[Input<A>],
    fields: &[Tree<A>],
    sets: &[Set<A>],
) -> Result<Vec<Value<A>, A>, ReadError>
    ensures { Gives (λ v. listed v.items) result (Some (leading (behind (table known.now) (map input inputs.now)) (map field_of (shapes fields.now)) (map (λ v. listed v.items) sets.now))) }
{
    let mut values = Vec::new(alloc);
    more_leading(alloc, known, inputs, fields, sets, &mut values)?;
    Ok(values)
}

/// The inputs after the fields, if the event's values fit them; the first fields have these values.
fn led_fitting<A: Allocator + Copy, G: GlobalScope<A>>(
    alloc: A,
    scope: &Scope<'_, A, G>,
    leading: &[Value<A>],
    fields: &[Tree<A>],
    sets: &[Set<A>],
    values: &[Value<A>],
    line: Position,
) -> Result<Option<Vec<Input<A>, A>>, ReadError>
    ensures { Gives (option_map (λ v. within (G.scope scope.now.global.now) (map input v.items))) result (led_fitting_of (listed leading.now) (map field_of (shapes fields.now)) (map (λ v. listed v.items) sets.now) (listed values.now) (within (G.scope scope.now.global.now) (map input scope.now.inputs.items))) }
{
    match leading {
        [] => {
            let mut inputs = copies(alloc, &scope.inputs)?;
            if fitting(alloc, scope.global, &mut inputs, fields, sets, values, line)? {
                Ok(Some(inputs))
            } else {
                Ok(None)
            }
        }
        [first, leading @ ..] => match fields {
            [] => Err(fault(line, ScriptErrorKind::WrongFields)),
            [_field, fields @ ..] => match sets {
                [] => Err(fault(line, ScriptErrorKind::WrongFields)),
                [_set, sets @ ..] => match values {
                    [] => Err(fault(line, ScriptErrorKind::WrongFields)),
                    [value, values @ ..] => {
                        if is_equal(first, value) {
                            led_fitting(alloc, scope, leading, fields, sets, values, line)
                        } else {
                            Ok(None)
                        }
                    }
                },
            },
        },
    }
}

/// The inputs after a prefix, where the event fits it, and `None` where it doesn't. A fault has the line of the phrase that is
/// at fault: a field without a value, a value outside its field's set (`OutOfRange`), an input by a constant's name
/// (`Unsupported`).
#[tactic(auto, unfolding(crate::specs::Leading::led_fits))]
fn inputs_behind<A: Allocator + Copy, G: GlobalScope<A>>(
    alloc: A,
    scope: &Scope<'_, A, G>,
    prefix: &Prefix<'_, A>,
    event: &Row<A>,
) -> Result<Option<Vec<Input<A>, A>>, ReadError>
    ensures { Gives (option_map (λ v. within (G.scope scope.now.global.now) (map input v.items))) result (led_fits prefix.now.channel.now (listed prefix.now.leading.items) (map field_of (shapes prefix.now.fields.now)) (map (λ v. listed v.items) prefix.now.sets.now) (within (G.scope scope.now.global.now) (map input scope.now.inputs.items)) (row event.now)) }
{
    if prefix.channel != event.channel.as_slice() {
        return Ok(None);
    }
    led_fitting(
        alloc,
        scope,
        &prefix.leading,
        prefix.fields,
        prefix.sets,
        &event.values,
        prefix.line,
    )
}

/// The first event from this number on that fits the prefix, by its number, with the inputs after the prefix; `None` where no
/// more fits.
pub fn next_fitting<A: Allocator + Copy, G: GlobalScope<A>>(
    alloc: A,
    scope: &Scope<'_, A, G>,
    prefix: &Prefix<'_, A>,
    from: usize,
) -> Result<Option<(usize, Vec<Input<A>, A>)>, ReadError>
    ensures first { Gives (option_map (λ x. (x.0, within (G.scope scope.now.global.now) (map input x.1.items), drop (suc x.0) (events_of (G.scope scope.now.global.now).channels)))) result (first_fit (led_fits prefix.now.channel.now (listed prefix.now.leading.items) (map field_of (shapes prefix.now.fields.now)) (map (λ v. listed v.items) prefix.now.sets.now) (within (G.scope scope.now.global.now) (map input scope.now.inputs.items))) from (drop from (events_of (G.scope scope.now.global.now).channels))) }
    ensures number { IfOk result (λ o. IfSome o (λ x. (from ≤ x.0) × (x.0 < 256))) }
{
    let events = scope.global.events();
    let mut number = from;
    while number < events.len() {
        if let Some(inputs) = inputs_behind(alloc, scope, prefix, &events[number])? {
            return Ok(Some((number, inputs)));
        }
        number += 1;
    }
    Ok(None)
}

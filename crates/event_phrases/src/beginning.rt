//! Events, and events that begin alike, as phrases without inputs give them.
ghost use Rattle.std.specs.Prelude.{◌≡◌, map};
ghost use Rattle.std.specs.Option.{option_map};
ghost use Rattle.syntax.specs.View.{shape, shapes};
ghost use Rattle.values.specs.Tables.{behind, input, table};
ghost use Rattle.values.specs.Values.{is_among};
ghost use Rattle.values.specs.View.{Gives, value as value_of};
ghost use Rattle.event_phrases.specs.Events.{beginning as beginning_in, field_value, field_values, value_within, whole_event as whole_event_in};
ghost use Rattle.event_phrases.specs.Forms.{event as event_with, event_of, field_of};
ghost use Rattle.event_phrases.specs.Scopes.{within};
ghost use Rattle.event_phrases.specs.Shapes.{plain_field};
ghost use Rattle.event_phrases.specs.Uses.{values_behind};
ghost use Rattle.event_phrases.specs.View.{beginning as beginning_of, listed};

use crate::forms::{EventPhrase, FieldPhrase, event_parts, event_phrase, field};
use crate::global_scope::{GlobalScope, Set, Wanted};
use crate::row::Row;
use crate::scope::{Scope, reported_fault, truth};
use std::alloc::Allocator;
use syntax::Tree;
use tokens::{Position, ReadError, ScriptErrorKind, fault};
use values::{Input, Known, Value, stands_for, the_value};

/// Whether the value is one of the set.
pub(crate) fn is_one_of<A: Allocator>(value: &Value<A>, set: &[Value<A>]) -> bool
    ensures { result ≡ is_among (value_of value.now) (listed set.now) }
{
    match set.binary_search(value) {
        Ok(_) => true,
        // A set that isn't in order is looked through.
        Err(_) => set.contains(value),
    }
}

/// The value that a field of this form gives after these inputs.
#[tactic(auto, unfolding(crate::specs::Events::field_value))]
fn given_by<A: Allocator + Copy>(
    alloc: A,
    known: &Known<A>,
    inputs: &[Input<A>],
    phrase: FieldPhrase<'_, A>,
    line: Position,
) -> Result<Value<A>, ReadError>
    ensures { Gives value_of result (field_value (behind (table known.now) (map input inputs.now)) (plain_field phrase.entry)) }
{
    match phrase {
        FieldPhrase::Given(tree) => {
            let found = stands_for(&alloc, known, inputs, tree)?;
            the_value(found, tree.line())
        }
        FieldPhrase::Input(_) => Err(fault(line, ScriptErrorKind::Expected)),
        FieldPhrase::InputFrom(_, _) => Err(fault(line, ScriptErrorKind::Expected)),
    }
}

/// The value that a field gives after these inputs.
pub(crate) fn given<A: Allocator + Copy>(
    alloc: A,
    known: &Known<A>,
    inputs: &[Input<A>],
    tree: &Tree<A>,
) -> Result<Value<A>, ReadError>
    ensures { Gives value_of result (field_value (behind (table known.now) (map input inputs.now)) (field_of (shape tree.now))) }
{
    match field(tree) {
        Some(phrase) => given_by(alloc, known, inputs, phrase, tree.line()),
        None => Err(fault(tree.line(), ScriptErrorKind::Expected)),
    }
}

/// The value that a field gives, which has to be one of the field's set.
pub(crate) fn given_within<A: Allocator + Copy>(
    alloc: A,
    known: &Known<A>,
    inputs: &[Input<A>],
    field: &Tree<A>,
    set: &Set<A>,
) -> Result<Value<A>, ReadError>
    ensures { Gives value_of result (value_within (field_value (behind (table known.now) (map input inputs.now)) (field_of (shape field.now))) (listed set.now.items)) }
{
    let value = given(alloc, known, inputs, field)?;
    if is_one_of(&value, set) {
        Ok(value)
    } else {
        Err(fault(field.line(), ScriptErrorKind::OutOfRange))
    }
}

/// Appends the values that the fields give, each of which has to be one of its field's.
fn more_values<A: Allocator + Copy>(
    alloc: A,
    known: &Known<A>,
    inputs: &[Input<A>],
    fields: &[Tree<A>],
    sets: &[Set<A>],
    values: &mut Vec<Value<A>, A>,
    line: Position,
) -> Result<(), ReadError>
    ensures { Gives (λ u. listed values.new.items) result (values_behind (listed values.old.items) (field_values (behind (table known.now) (map input inputs.now)) (map field_of (shapes fields.now)) (map (λ v. listed v.items) sets.now))) }
{
    match fields {
        [] => Ok(()),
        [field, fields @ ..] => match sets {
            [] => Err(fault(line, ScriptErrorKind::WrongFields)),
            [set, sets @ ..] => {
                values.push(given_within(alloc, known, inputs, field, set)?)?;
                more_values(alloc, known, inputs, fields, sets, values, line)
            }
        },
    }
}

/// The channel and the values that the fields after it give, each of which has to be one of its field's.
fn begun<A: Allocator + Copy>(
    alloc: A,
    known: &Known<A>,
    inputs: &[Input<A>],
    channel: &[u8],
    fields: &[Tree<A>],
    sets: &[Set<A>],
    line: Position,
) -> Result<Row<A>, ReadError>
    ensures { Gives (λ r. beginning_of r) result (option_map (λ vs. (channel.now, vs)) (field_values (behind (table known.now) (map input inputs.now)) (map field_of (shapes fields.now)) (map (λ v. listed v.items) sets.now))) }
{
    if fields.len() > sets.len() {
        return Err(fault(line, ScriptErrorKind::WrongFields));
    }
    let mut values = Vec::new(alloc);
    more_values(alloc, known, inputs, fields, sets, &mut values, line)?;
    Ok(Row {
        channel: Vec::from_slice(alloc, channel)?,
        values,
    })
}

/// The channel and the first values that an event phrase without inputs gives. Its fault isn't the one that is reported.
pub(crate) fn beginning<A: Allocator + Copy, G: GlobalScope<A>>(
    alloc: A,
    scope: &Scope<'_, A, G>,
    tree: &Tree<A>,
) -> Result<Row<A>, ReadError>
    ensures { Gives (λ r. beginning_of r) result (beginning_in (G.scope scope.now.global.now).channels (within (G.scope scope.now.global.now) (map input scope.now.inputs.items)).known (event_of (shape tree.now))) }
{
    match event_parts(tree) {
        None => Err(fault(tree.line(), ScriptErrorKind::Expected)),
        Some((channel, fields)) => match scope.fields(channel) {
            None => Err(fault(tree.line(), ScriptErrorKind::Expected)),
            Some(sets) => {
                let known = scope.global.known();
                begun(
                    alloc,
                    known,
                    &scope.inputs,
                    channel,
                    fields,
                    sets,
                    tree.line(),
                )
            }
        },
    }
}

/// The same, and the fault where it gives none: of the event where its name is no channel's, one of its fields is an input or
/// it has too many (`WrongFields`), and of a field whose value is none of its set (`OutOfRange`).
#[tactic(auto, using(syntax::proofs::Failing::fails_too))]
pub(crate) fn wanted_beginning<A: Allocator + Copy, G: GlobalScope<A>>(
    alloc: A,
    scope: &Scope<'_, A, G>,
    tree: &Tree<A>,
) -> Result<Row<A>, ReadError>
    ensures { Gives (λ r. beginning_of r) result (beginning_in (G.scope scope.now.global.now).channels (within (G.scope scope.now.global.now) (map input scope.now.inputs.items)).known (event_of (shape tree.now))) }
{
    match beginning(alloc, scope, tree) {
        Ok(row) => Ok(row),
        Err(error) => Err(reported_fault(
            scope.global,
            &scope.inputs,
            tree,
            Wanted::Beginning,
            error,
        )),
    }
}

/// The event of this channel and these fields, of which there is one for each field of the channel.
#[tactic(auto, unfolding(crate::specs::Events::whole_event))]
fn event<A: Allocator + Copy, G: GlobalScope<A>>(
    alloc: A,
    scope: &Scope<'_, A, G>,
    channel: &[u8],
    fields: &[Tree<A>],
    line: Position,
) -> Result<Row<A>, ReadError>
    ensures { Gives (λ r. beginning_of r) result (whole_event_in (G.scope scope.now.global.now).channels (within (G.scope scope.now.global.now) (map input scope.now.inputs.items)).known (event_with channel.now (map field_of (shapes fields.now)))) }
{
    match scope.fields(channel) {
        None => Err(fault(line, ScriptErrorKind::Expected)),
        Some(sets) => {
            if fields.len() != sets.len() {
                return Err(fault(line, ScriptErrorKind::WrongFields));
            }
            begun(
                alloc,
                scope.global.known(),
                &scope.inputs,
                channel,
                fields,
                sets,
                line,
            )
        }
    }
}

/// The event that a phrase without inputs gives, with all its fields. Its fault isn't the one that is reported.
pub(crate) fn whole_event<A: Allocator + Copy, G: GlobalScope<A>>(
    alloc: A,
    scope: &Scope<'_, A, G>,
    tree: &Tree<A>,
) -> Result<Row<A>, ReadError>
    ensures { Gives (λ r. beginning_of r) result (whole_event_in (G.scope scope.now.global.now).channels (within (G.scope scope.now.global.now) (map input scope.now.inputs.items)).known (event_of (shape tree.now))) }
{
    match event_phrase(tree) {
        None => Err(fault(tree.line(), ScriptErrorKind::Expected)),
        Some(phrase) => match phrase {
            EventPhrase::Event(channel, fields) => {
                event(alloc, scope, channel, fields, tree.line())
            }
            EventPhrase::Inside(inner) => whole_event(alloc, scope, inner),
            EventPhrase::Chosen(condition, first, second) => {
                if truth(alloc, scope.global.known(), &scope.inputs, condition)? {
                    whole_event(alloc, scope, first)
                } else {
                    whole_event(alloc, scope, second)
                }
            }
        },
    }
}

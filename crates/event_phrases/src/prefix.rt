//! Events held against the fields of a prefix.
ghost use Rattle.std.specs.Prelude.{◌≡◌, Some, None, if◌then◌else◌, map};
ghost use Rattle.std.specs.Option.{option_map};
ghost use Rattle.syntax.specs.View.{shape, shapes};
ghost use Rattle.values.specs.Tables.{input};
ghost use Rattle.values.specs.Values.{is_among};
ghost use Rattle.values.specs.View.{Gives, value as value_of, values};
ghost use Rattle.event_phrases.specs.Forms.{field_of};
ghost use Rattle.event_phrases.specs.Scopes.{value_by, values_by, within};
ghost use Rattle.event_phrases.specs.Fitting.{against, fits_field, fitting as fitting_of};
ghost use Rattle.event_phrases.specs.Shapes.{plain_field};
ghost use Rattle.event_phrases.specs.View.{listed};

use crate::beginning::is_one_of;
use crate::forms::{FieldPhrase, field};
use crate::global_scope::{GlobalScope, Set, Wanted};
use crate::row::is_equal;
use crate::scope::{push_input, wanted_worth};
use std::alloc::Allocator;
use syntax::Tree;
use tokens::{Position, ReadError, ScriptErrorKind, fault};
use values::{Input, Value, Values, the_set, the_value};

/// A prefix: the channel of its event, the fields with the sets of their values, and the process after its arrow.
#[derive(Drop)]
pub struct Prefix<'a, A: Allocator> {
    /// The channel's name.
    pub channel: &'a [u8],
    /// The fields after it.
    pub fields: &'a [Tree<A>],
    /// The values of each of the channel's fields.
    pub sets: &'a [Set<A>],
    /// The values that the first fields give, which are the same for all events.
    pub leading: Vec<Value<A>, A>,
    /// The process after the arrow.
    pub then: &'a Tree<A>,
    /// The line of the event phrase.
    pub line: Position,
}

/// Whether the value is one of the set.
pub(crate) fn has_value<A: Allocator>(set: &Values<A>, value: &Value<A>) -> bool
    ensures { result ≡ is_among (value_of value.now) (values set.now) }
{
    set.contains(value)
}

/// Whether the value is the one that a field gives, which has to be one of the field's set.
#[tactic(auto, unfolding(crate::specs::Fitting::against))]
fn is_given<A: Allocator + Copy, G: GlobalScope<A>>(
    alloc: A,
    global: &G,
    inputs: &[Input<A>],
    tree: &Tree<A>,
    set: &Set<A>,
    value: &Value<A>,
) -> Result<bool, ReadError>
    ensures { Gives (λ fits. if fits then Some (within (G.scope global.now) (map input inputs.now)) else None) result (against (listed set.now.items) (value_of value.now) (within (G.scope global.now) (map input inputs.now)) (value_by (within (G.scope global.now) (map input inputs.now)) (shape tree.now))) }
{
    let found = wanted_worth(alloc, global, inputs, tree, Wanted::Value)?;
    let wanted = the_value(found, tree.line())?;
    if is_one_of(&wanted, set) {
        Ok(is_equal(&wanted, value))
    } else {
        Err(fault(tree.line(), ScriptErrorKind::OutOfRange))
    }
}

/// Whether the value is one of the set that a phrase means.
fn is_in_part<A: Allocator + Copy, G: GlobalScope<A>>(
    alloc: A,
    global: &G,
    inputs: &[Input<A>],
    tree: &Tree<A>,
    value: &Value<A>,
) -> Result<bool, ReadError>
    ensures { Gives (λ b. b) result (option_map (is_among (value_of value.now)) (values_by (within (G.scope global.now) (map input inputs.now)) (shape tree.now))) }
{
    let found = wanted_worth(alloc, global, inputs, tree, Wanted::Values)?;
    let part = the_set(found, tree.line())?;
    Ok(has_value(&part, value))
}

/// Whether the event's value fits a field, whose values are this set. What the field puts in is appended to the inputs.
fn fits_phrase<A: Allocator + Copy, G: GlobalScope<A>>(
    alloc: A,
    global: &G,
    inputs: &mut Vec<Input<A>, A>,
    phrase: FieldPhrase<'_, A>,
    set: &Set<A>,
    value: &Value<A>,
    line: Position,
) -> Result<bool, ReadError>
    ensures { Gives (λ fits. if fits then Some (within (G.scope global.now) (map input inputs.new.items)) else None) result (fits_field (plain_field phrase.entry) (listed set.now.items) (value_of value.now) (within (G.scope global.now) (map input inputs.old.items))) }
{
    match phrase {
        FieldPhrase::Given(tree) => is_given(alloc, global, inputs, tree, set, value),
        FieldPhrase::Input(name) => {
            if global.is_constant(name) {
                return Err(fault(line, ScriptErrorKind::Unsupported));
            }
            push_input(alloc, inputs, name, value)?;
            Ok(true)
        }
        FieldPhrase::InputFrom(name, tree) => {
            if global.is_constant(name) {
                return Err(fault(line, ScriptErrorKind::Unsupported));
            }
            if !is_in_part(alloc, global, inputs, tree, value)? {
                return Ok(false);
            }
            push_input(alloc, inputs, name, value)?;
            Ok(true)
        }
    }
}

/// The same of the field as it is written. A fault has the line of the phrase that is at fault.
fn fits<A: Allocator + Copy, G: GlobalScope<A>>(
    alloc: A,
    global: &G,
    inputs: &mut Vec<Input<A>, A>,
    tree: &Tree<A>,
    set: &Set<A>,
    value: &Value<A>,
) -> Result<bool, ReadError>
    ensures { Gives (λ fits. if fits then Some (within (G.scope global.now) (map input inputs.new.items)) else None) result (fits_field (field_of (shape tree.now)) (listed set.now.items) (value_of value.now) (within (G.scope global.now) (map input inputs.old.items))) }
{
    match field(tree) {
        Some(phrase) => fits_phrase(alloc, global, inputs, phrase, set, value, tree.line()),
        None => Err(fault(tree.line(), ScriptErrorKind::Expected)),
    }
}

/// Whether the event's values fit the fields, from left to right. What the fields put in is appended to the inputs.
pub(crate) fn fitting<A: Allocator + Copy, G: GlobalScope<A>>(
    alloc: A,
    global: &G,
    inputs: &mut Vec<Input<A>, A>,
    fields: &[Tree<A>],
    sets: &[Set<A>],
    values: &[Value<A>],
    line: Position,
) -> Result<bool, ReadError>
    ensures { Gives (λ fits. if fits then Some (within (G.scope global.now) (map input inputs.new.items)) else None) result (fitting_of (map field_of (shapes fields.now)) (map (λ v. listed v.items) sets.now) (listed values.now) (within (G.scope global.now) (map input inputs.old.items))) }
{
    match fields {
        [] => match sets {
            [] => match values {
                [] => Ok(true),
                [_, ..] => Err(fault(line, ScriptErrorKind::WrongFields)),
            },
            [_, ..] => Err(fault(line, ScriptErrorKind::WrongFields)),
        },
        [field, fields @ ..] => match sets {
            [] => Err(fault(line, ScriptErrorKind::WrongFields)),
            [set, sets @ ..] => match values {
                [] => Err(fault(line, ScriptErrorKind::WrongFields)),
                [value, values @ ..] => {
                    if !fits(alloc, global, inputs, field, set, value)? {
                        return Ok(false);
                    }
                    fitting(alloc, global, inputs, fields, sets, values, line)
                }
            },
        },
    }
}

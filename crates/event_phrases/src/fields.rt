//! The fields of a prefix before a channel without events.
ghost use Rattle.std.specs.Prelude.{◌≡◌, IfOk, Some, [], ◌∷◌, filter, map};
ghost use Rattle.std.specs.Option.{option_map};
ghost use Rattle.std.specs.Result.{MatchResult};
ghost use Rattle.syntax.specs.View.{shape, shapes};
ghost use Rattle.tokens.specs.declared.read_error.ReadError.TheVariants.{Memory};
ghost use Rattle.values.specs.Tables.{input};
ghost use Rattle.values.specs.Values.{is_among};
ghost use Rattle.values.specs.View.{Fails, Gives, values};
ghost use Rattle.event_phrases.specs.Forms.{event_of, field_of, given};
ghost use Rattle.event_phrases.specs.Leading.{leading as leading_in};
ghost use Rattle.event_phrases.specs.Prefixes.{all_pass as all_pass_in, at_no_fault as at_no_fault_of, fields_pass as fields_pass_in, has_event as has_event_in, prefix_parts, scopes_after};
ghost use Rattle.event_phrases.specs.Scopes.{Scope as PlainScope, with_input as with_input_of, within};
ghost use Rattle.event_phrases.specs.Shapes.{plain_field};
ghost use Rattle.event_phrases.specs.Uses.{chosen_values, is_used as is_used_in, is_within as is_within_of, passes_after};
ghost use Rattle.event_phrases.specs.View.{listed};

use crate::beginning::is_one_of;
use crate::forms::{FieldPhrase, event_parts, field};
use crate::global_scope::{GlobalScope, Set, Wanted};
use crate::leading::leading_values;
use crate::prefix::{Prefix, has_value};
use crate::row::extended;
use crate::scope::{Scope, copies, push_input, wanted_worth};
use crate::uses::mentions;
use std::alloc::{AllocError, Allocator};
use syntax::Tree;
use tokens::{Position, ReadError, ScriptErrorKind, fault};
use values::{Input, Value, Values, the_set, the_value};

/// Whether the name is in the phrase that a field gives a value or a set by.
#[tactic(auto, unfolding(crate::specs::Uses::is_within))]
fn is_within<A: Allocator>(name: &[u8], tree: &Tree<A>) -> bool
    ensures { result ≡ is_within_of name.now (field_of (shape tree.now)) }
{
    match field(tree) {
        Some(FieldPhrase::Given(value)) => mentions(value, name),
        Some(FieldPhrase::Input(_)) => false,
        Some(FieldPhrase::InputFrom(_, set)) => mentions(set, name),
        None => false,
    }
}

/// Whether the name is in one of the fields up to the first without values.
fn is_used<A: Allocator>(name: &[u8], fields: &[Tree<A>], sets: &[Set<A>]) -> bool
    ensures { result ≡ is_used_in name.now (map field_of (shapes fields.now)) (map (λ v. listed v.items) sets.now) }
{
    match fields {
        [] => false,
        [field, fields @ ..] => match sets {
            [] => false,
            [set, sets @ ..] => {
                is_within(name, field) || !set.is_empty() && is_used(name, fields, sets)
            }
        },
    }
}

/// Copies of those of the values that are also in the set.
fn common<A: Allocator + Copy>(
    alloc: A,
    all: &[Value<A>],
    part: &Values<A>,
) -> Result<Vec<Value<A>, A>, AllocError>
    ensures { IfOk result (λ v. listed v.items ≡ filter (λ v. is_among v (values part.now)) (listed all.now)) }
{
    let mut common = Vec::new(alloc);
    for value in all {
        if has_value(part, value) {
            common.push(value.clone()?)?;
        }
    }
    Ok(common)
}

/// The input and its values, with each of which the fields after it are looked at; `None` where these don't use it, and are looked at without.
fn looked_at<'a, A: Allocator + Copy>(
    alloc: A,
    name: &'a [u8],
    values: &[Value<A>],
    rest: (&[Tree<A>], &[Set<A>]),
) -> Result<Option<(&'a [u8], Vec<Value<A>, A>)>, ReadError>
    ensures { MatchResult result (λ o. (s : PlainScope) → all_pass_in (fields_pass_in (map field_of (shapes rest.entry.0.now)) (map (λ v. listed v.items) rest.entry.1.now)) (map (with_input_of s name.now) (listed values.now)) ≡ passes_after (map field_of (shapes rest.entry.0.now)) (map (λ v. listed v.items) rest.entry.1.now) s (option_map (λ p. (p.0.now, listed p.1.items)) o)) (λ e. e ≡ Memory) }
{
    match values {
        [] => Ok(Some((name, Vec::new(alloc)))),
        [_, ..] => {
            if is_used(name, rest.0, rest.1) {
                Ok(Some((name, extended(Vec::new(alloc), values)?)))
            } else {
                Ok(None)
            }
        }
    }
}

/// Looks at a value that a field is given: it has to be one of the field's set.
#[tactic(auto, unfolding(crate::specs::Prefixes::scopes_after))]
fn value_passes<A: Allocator + Copy, G: GlobalScope<A>>(
    alloc: A,
    global: &G,
    inputs: &[Input<A>],
    tree: &Tree<A>,
    set: &Set<A>,
) -> Result<(), ReadError>
    ensures { Gives (λ u. within (G.scope global.now) (map input inputs.now) ∷ []) result (scopes_after (given (shape tree.now)) (listed set.now.items) (within (G.scope global.now) (map input inputs.now))) }
{
    let found = wanted_worth(alloc, global, inputs, tree, Wanted::Value)?;
    let value = the_value(found, tree.line())?;
    if is_one_of(&value, set) {
        Ok(())
    } else {
        Err(fault(tree.line(), ScriptErrorKind::OutOfRange))
    }
}

/// Copies of those of the values that are also in the set that the phrase stands for.
#[tactic(auto, unfolding(crate::specs::Uses::chosen_values))]
fn chosen<A: Allocator + Copy, G: GlobalScope<A>>(
    alloc: A,
    global: &G,
    inputs: &[Input<A>],
    tree: &Tree<A>,
    all: &[Value<A>],
) -> Result<Vec<Value<A>, A>, ReadError>
    ensures { Gives (λ v. listed v.items) result (chosen_values (within (G.scope global.now) (map input inputs.now)) (shape tree.now) (listed all.now)) }
{
    let found = wanted_worth(alloc, global, inputs, tree, Wanted::Values)?;
    let part = the_set(found, tree.line())?;
    let common = common(alloc, all, &part)?;
    Ok(common)
}

/// What is left to look at after a field of this form, whose values are this set: the fields after it for each value of an
/// input that they use, or else once. A fault has the line of the phrase that is at fault.
#[tactic(auto, unfolding(crate::specs::Prefixes::scopes_after, crate::specs::Prefixes::fields_pass, crate::specs::Uses::passes_after))]
fn passing<'a, A: Allocator + Copy, G: GlobalScope<A>>(
    alloc: A,
    global: &G,
    inputs: &[Input<A>],
    phrase: FieldPhrase<'a, A>,
    set: &Set<A>,
    rest: (&[Tree<A>], &[Set<A>]),
    line: Position,
) -> Result<Option<(&'a [u8], Vec<Value<A>, A>)>, ReadError>
    ensures { MatchResult result (λ o. (fields_pass_in (plain_field phrase.entry ∷ map field_of (shapes rest.entry.0.now)) (listed set.now.items ∷ map (λ v. listed v.items) rest.entry.1.now) (within (G.scope global.now) (map input inputs.now))) ≡ passes_after (map field_of (shapes rest.entry.0.now)) (map (λ v. listed v.items) rest.entry.1.now) (within (G.scope global.now) (map input inputs.now)) (option_map (λ p. (p.0.now, listed p.1.items)) o)) (λ e. Fails e (fields_pass_in (plain_field phrase.entry ∷ map field_of (shapes rest.entry.0.now)) (listed set.now.items ∷ map (λ v. listed v.items) rest.entry.1.now) (within (G.scope global.now) (map input inputs.now)))) }
{
    match phrase {
        FieldPhrase::Given(tree) => {
            value_passes(alloc, global, inputs, tree, set)?;
            Ok(None)
        }
        FieldPhrase::Input(name) => {
            if global.is_constant(name) {
                return Err(fault(line, ScriptErrorKind::Unsupported));
            }
            looked_at(alloc, name, set, rest)
        }
        FieldPhrase::InputFrom(name, tree) => {
            if global.is_constant(name) {
                return Err(fault(line, ScriptErrorKind::Unsupported));
            }
            let values = chosen(alloc, global, inputs, tree, set)?;
            looked_at(alloc, name, &values, rest)
        }
    }
}

/// Looks at the fields after an input with each of these values.
#[cycle(passing)]
fn all_pass<A: Allocator + Copy, G: GlobalScope<A>>(
    alloc: A,
    global: &G,
    inputs: &[Input<A>],
    name: &[u8],
    values: &[Value<A>],
    rest: (&[Tree<A>], &[Set<A>]),
) -> Result<(), ReadError>
    ensures { Gives (λ u. u) result (all_pass_in (λ v. fields_pass_in (map field_of (shapes rest.entry.0.now)) (map (λ v. listed v.items) rest.entry.1.now) (with_input_of (within (G.scope global.now) (map input inputs.now)) name.now v)) (listed values.now)) }
{
    for value in values {
        let mut inner = copies(alloc, inputs)?;
        push_input(alloc, &mut inner, name, value)?;
        fields_pass(alloc, global, &inner, rest.0, rest.1)?;
    }
    Ok(())
}

/// Looks at the fields from left to right, each for all values of the inputs before it that it uses.
#[cycle(passing)]
fn fields_pass<A: Allocator + Copy, G: GlobalScope<A>>(
    alloc: A,
    global: &G,
    inputs: &[Input<A>],
    fields: &[Tree<A>],
    sets: &[Set<A>],
) -> Result<(), ReadError>
    ensures { Gives (λ u. u) result (fields_pass_in (map field_of (shapes fields.now)) (map (λ v. listed v.items) sets.now) (within (G.scope global.now) (map input inputs.now))) }
{
    match fields {
        [] => Ok(()),
        [tree, fields @ ..] => match sets {
            [] => Ok(()),
            [set, sets @ ..] => match field(tree) {
                None => Err(fault(tree.line(), ScriptErrorKind::Expected)),
                Some(phrase) => {
                    let rest = (fields, sets);
                    match passing(alloc, global, inputs, phrase, set, rest, tree.line())? {
                        None => fields_pass(alloc, global, inputs, fields, sets),
                        Some((name, values)) => all_pass(
                            alloc, global, inputs, name, &values, rest,
                        ),
                    }
                }
            },
        },
    }
}

/// Whether a channel whose fields have these values has an event.
#[tactic(auto, unfolding(crate::specs::Prefixes::has_event))]
fn has_event<A: Allocator>(sets: &[Set<A>]) -> bool
    ensures { result ≡ has_event_in (map (λ v. listed v.items) sets.now) }
{
    match sets {
        [] => true,
        [set, sets @ ..] => !set.is_empty() && has_event(sets),
    }
}

/// Looks at the fields of a prefix where its channel has no event, to which they could be held.
#[tactic(auto, unfolding(crate::specs::Prefixes::at_no_fault))]
fn at_no_fault<A: Allocator + Copy, G: GlobalScope<A>>(
    alloc: A,
    scope: &Scope<'_, A, G>,
    fields: &[Tree<A>],
    sets: &[Set<A>],
) -> Result<(), ReadError>
    ensures { Gives (λ u. u) result (at_no_fault_of (map field_of (shapes fields.now)) (map (λ v. listed v.items) sets.now) (within (G.scope scope.now.global.now) (map input scope.now.inputs.items))) }
{
    if has_event(sets) {
        return Ok(());
    }
    fields_pass(alloc, scope.global, &scope.inputs, fields, sets)
}

/// The prefix of this event phrase and this process. A fault is that of the event phrase (`WrongFields` where it hasn't as many
/// fields as its channel), or, where the channel has no event, of one of its fields.
pub fn prefix_of<'a, A: Allocator + Copy, G: GlobalScope<A>>(
    alloc: A,
    scope: &Scope<'a, A, G>,
    event: &'a Tree<A>,
    then: &'a Tree<A>,
) -> Result<Prefix<'a, A>, ReadError>
    ensures parts { Gives (λ p. (p.channel.now, map field_of (shapes p.fields.now), map (λ v. listed v.items) p.sets.now)) result (prefix_parts (within (G.scope scope.now.global.now) (map input scope.now.inputs.items)) (event_of (shape event.now))) }
    ensures then { IfOk result (λ p. p.then.now ≡ then.now) }
    ensures leading { IfOk result (λ p. listed p.leading.items ≡ leading_in (within (G.scope scope.now.global.now) (map input scope.now.inputs.items)).known (map field_of (shapes p.fields.now)) (map (λ v. listed v.items) p.sets.now)) }
{
    match event_parts(event) {
        None => Err(fault(event.line(), ScriptErrorKind::Expected)),
        Some((channel, fields)) => match scope.fields(channel) {
            None => Err(scope.no_channel(event)),
            Some(sets) => {
                if fields.len() != sets.len() {
                    return Err(fault(event.line(), ScriptErrorKind::WrongFields));
                }
                at_no_fault(alloc, scope, fields, sets)?;
                let leading = leading_values(
                    alloc,
                    scope.global.known(),
                    &scope.inputs,
                    fields,
                    sets,
                )?;
                Ok(Prefix {
                    channel,
                    fields,
                    sets,
                    leading,
                    then,
                    line: event.line(),
                })
            }
        },
    }
}

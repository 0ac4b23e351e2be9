//! What phrases are, or the first fault that is met when their parts are looked into from the left.
ghost use Rattle.std.specs.Prelude.{◌<◌, ◌≤◌, IfOk, IfSome};
ghost use Rattle.syntax.specs.declared.tree.Tree.{size-Tree};

use crate::kinds::{Kind, Look, Wanted, look_of, takes, takes_form};
use crate::sight::{
    Sight, as_evaluated, field_sets, in_set, kind_here, kind_of_call, kind_of_event,
    kind_of_events, truth_behind,
};
use declared_names::is_process_form;
use std::alloc::Allocator;
use syntax::{Form, Tree};
use tokens::{Position, ReadError, ScriptErrorKind, fault};

/// What a phrase is that means a set of values, or the fault of one that means nothing.
fn ended(own: Option<ReadError>) -> Result<Kind, ReadError> {
    match own {
        Some(own) => Err(own),
        None => Ok(Kind::Values),
    }
}

/// The kind, where it is wanted of a phrase on this line.
fn as_wanted(wanted: Wanted, kind: Kind, line: Position) -> Result<Kind, ReadError> {
    if takes(wanted, kind) {
        Ok(kind)
    } else {
        Err(fault(line, ScriptErrorKind::Expected))
    }
}

/// What is made of two sets of these kinds; none where they are of different sorts.
fn kind_of_both(first: Kind, second: Kind) -> Option<Kind> {
    match (first, second) {
        (Kind::Nothing, kind) | (kind, Kind::Nothing) => Some(kind),
        _ if first == second => Some(first),
        _ => None,
    }
}

/// Whether a field takes any value, which isn't allowed in a set.
fn is_input<A: Allocator>(field: &Tree<A>) -> bool {
    match field {
        Tree::Node { form, .. } => matches!(form, Form::Input | Form::RestrictedInput),
        Tree::Name { .. } | Tree::Number { .. } => false,
    }
}

/// What evaluation says of a phrase.
#[derive(Clone, Copy)]
enum Evaluation {
    Is(Kind),
    /// Its parts are to be looked into. This is reported where they are as they should be; none where it means a set.
    Unclear(Option<ReadError>),
}

/// What evaluation says of the phrase. What is made of two sets isn't evaluated as a whole, since that is costly and says
/// nothing but that it is too large.
fn evaluation_of<A: Allocator + Copy>(
    sight: &Sight<'_, '_, A>,
    phrase: &Tree<A>,
) -> Result<Evaluation, ReadError> {
    if let Tree::Node { form, .. } = phrase {
        if matches!(form, Form::Union | Form::Intersection | Form::Difference) {
            return Ok(Evaluation::Unclear(None));
        }
    }
    match kind_here(sight, phrase) {
        Ok(Kind::Nothing) => Ok(Evaluation::Unclear(None)),
        Ok(kind) => Ok(Evaluation::Is(kind)),
        Err(ReadError::Memory) => Err(ReadError::Memory),
        Err(own) => Ok(Evaluation::Unclear(Some(own))),
    }
}

/// What evaluation says of the phrase, where it is or can be what is wanted of it on this line.
fn evaluation_as_wanted<A: Allocator + Copy>(
    sight: &Sight<'_, '_, A>,
    phrase: &Tree<A>,
    wanted: Wanted,
    line: Position,
) -> Result<Evaluation, ReadError> {
    match evaluation_of(sight, phrase)? {
        Evaluation::Is(kind) => Ok(Evaluation::Is(as_wanted(wanted, kind, line)?)),
        unclear => match phrase {
            Tree::Node { form, .. } if !takes_form(wanted, *form) => {
                Err(fault(line, ScriptErrorKind::Expected))
            }
            _ => Ok(unclear),
        },
    }
}

/// What is reported where this fault is met after the phrase, which is of this kind: a set of values that is too large is met
/// first.
fn fault_after<A: Allocator + Copy>(
    sight: &Sight<'_, '_, A>,
    phrase: &Tree<A>,
    kind: Kind,
    error: ReadError,
) -> ReadError {
    match as_evaluated(sight, phrase, kind) {
        Ok(_) => error,
        Err(own) => own,
    }
}

/// The kind of the phrase, where it is wanted of it on this line.
fn as_wanted_of<A: Allocator + Copy>(
    sight: &Sight<'_, '_, A>,
    phrase: &Tree<A>,
    wanted: Wanted,
    kind: Kind,
    line: Position,
) -> Result<Kind, ReadError> {
    match as_wanted(wanted, kind, line) {
        Ok(kind) => Ok(kind),
        Err(error) => Err(fault_after(sight, phrase, kind, error)),
    }
}

/// What is made of two sets of these kinds; else the fault that is met first: the first one is too large, or the second one is, or
/// they are of different sorts.
fn as_both<A: Allocator + Copy>(
    sight: &Sight<'_, '_, A>,
    left: &Tree<A>,
    first: Kind,
    right: &Tree<A>,
    second: Kind,
) -> Result<Kind, ReadError> {
    match kind_of_both(first, second) {
        Some(kind) => Ok(kind),
        None => {
            let error = fault(right.line(), ScriptErrorKind::Expected);
            let error = fault_after(sight, right, second, error);
            Err(fault_after(sight, left, first, error))
        }
    }
}

/// What a phrase is that is looked into no further than its own names: a call, an event, a set that its form names, or a process.
fn kind_alone<A: Allocator + Copy>(
    sight: &Sight<'_, '_, A>,
    form: Form,
    parts: &[Tree<A>],
    line: Position,
) -> Result<Kind, ReadError> {
    match form {
        Form::Event => kind_of_event(sight, parts, line),
        Form::Call => kind_of_call(sight, parts, line),
        Form::EmptySet => Ok(Kind::Nothing),
        Form::NoProductions => Ok(Kind::Events),
        Form::Events => kind_of_events(sight, line),
        _ if is_process_form(form) => Ok(Kind::Process),
        _ => Err(fault(line, ScriptErrorKind::Expected)),
    }
}

/// What the phrase is, which is wanted on this line; else the fault that is met first. Of a condition it is what the branch
/// is that it chooses: the other one isn't looked into.
#[cycle(kinds)]
pub(crate) fn kind_of<A: Allocator + Copy>(
    sight: &Sight<'_, '_, A>,
    phrase: &Tree<A>,
    wanted: Wanted,
    line: Position,
) -> Result<Kind, ReadError> {
    let phrase = without_conditions(sight, phrase)?;
    match evaluation_as_wanted(sight, phrase, wanted, line)? {
        Evaluation::Is(kind) => Ok(kind),
        Evaluation::Unclear(own) => {
            let kind = kind_by_parts(sight, phrase, own)?;
            as_wanted_of(sight, phrase, wanted, kind, line)
        }
    }
}

/// What the phrase is by its form and its parts. This is reported where they are as they should be; none where it means a set.
#[cycle(kinds)]
fn kind_by_parts<A: Allocator + Copy>(
    sight: &Sight<'_, '_, A>,
    phrase: &Tree<A>,
    own: Option<ReadError>,
) -> Result<Kind, ReadError> {
    let Tree::Node { line, form, parts } = phrase else {
        return ended(own);
    };
    match look_of(*form) {
        Look::Members => kind_of_members(sight, parts, own),
        Look::Sets => kind_of_sets(sight, parts, own),
        Look::Productions => kind_of_productions(sight, parts),
        Look::Connected(decisive) => connected(sight, decisive, parts, own),
        Look::Each(wanted) => each(sight, wanted, parts, own),
        Look::Alone => kind_alone(sight, *form, parts, *line),
    }
}

/// The truth that decides; else the first fault in the phrase.
#[cycle(kinds)]
fn decided<A: Allocator + Copy>(
    sight: &Sight<'_, '_, A>,
    phrase: &Tree<A>,
) -> Result<bool, ReadError> {
    if let Some(truth) = truth_behind(&sight.alloc, sight.known, sight.inputs, phrase)? {
        return Ok(truth);
    }
    kind_of(sight, phrase, Wanted::Truth, phrase.line())?;
    Err(fault(phrase.line(), ScriptErrorKind::Expected))
}

/// The first fault in the sides of `and` or `or`, or else this one. The second side isn't looked into where the first is the
/// truth that decides.
#[cycle(kinds)]
fn connected<A: Allocator + Copy>(
    sight: &Sight<'_, '_, A>,
    decisive: bool,
    sides: &[Tree<A>],
    own: Option<ReadError>,
) -> Result<Kind, ReadError> {
    if let [first, second] = sides {
        if decided(sight, first)? != decisive {
            kind_of(sight, second, Wanted::Truth, second.line())?;
        }
    }
    ended(own)
}

/// The kind of a phrase of which this is wanted; where phrases are compared, it is to be that of the one before it.
fn as_before(
    wanted: Wanted,
    before: Option<Kind>,
    kind: Kind,
    line: Position,
) -> Result<Option<Kind>, ReadError> {
    match (wanted, before) {
        (Wanted::Comparable, Some(before)) if before != kind => {
            Err(fault(line, ScriptErrorKind::Expected))
        }
        _ => Ok(Some(kind)),
    }
}

/// The first fault in phrases of each of which this is wanted, or else this one.
#[cycle(kinds)]
fn each<A: Allocator + Copy>(
    sight: &Sight<'_, '_, A>,
    wanted: Wanted,
    parts: &[Tree<A>],
    own: Option<ReadError>,
) -> Result<Kind, ReadError> {
    let mut before = None;
    for part in parts {
        let line = part.line();
        let kind = kind_of(sight, part, wanted, line)?;
        before = as_before(wanted, before, kind, line)?;
    }
    ended(own)
}

/// Whether a member of this kind is an event, as it is to be where the first member is one, and not where it isn't.
fn is_event_as_first<A: Allocator>(
    sight: &Sight<'_, '_, A>,
    kind: Kind,
    first: Option<bool>,
    line: Position,
) -> Result<bool, ReadError> {
    let is_event = kind == Kind::Event;
    if first.unwrap_or(is_event) != is_event {
        return Err(fault(line, ScriptErrorKind::Expected));
    }
    if is_event {
        kind_of_events(sight, line)?;
    }
    Ok(is_event)
}

/// What a set of these members is.
#[cycle(kinds)]
fn kind_of_members<A: Allocator + Copy>(
    sight: &Sight<'_, '_, A>,
    members: &[Tree<A>],
    own: Option<ReadError>,
) -> Result<Kind, ReadError> {
    let mut first = None;
    for member in members {
        let line = member.line();
        let kind = kind_of(sight, member, Wanted::Member, line)?;
        let is_event = is_event_as_first(sight, kind, first, line)?;
        if is_event {
            event_in_set(sight, member, true)?;
        }
        first = Some(is_event);
    }
    match first {
        Some(true) => Ok(Kind::Events),
        _ => ended(own),
    }
}

/// What a set of all events that begin with one of these is.
#[cycle(kinds)]
fn kind_of_productions<A: Allocator + Copy>(
    sight: &Sight<'_, '_, A>,
    events: &[Tree<A>],
) -> Result<Kind, ReadError> {
    for event in events {
        kind_of_events(sight, event.line())?;
        event_in_set(sight, event, false)?;
    }
    Ok(Kind::Events)
}

/// The sets of the fields of an event phrase with this name and these fields in a set; as a member it is a whole event.
fn sets_of_event<'a, A: Allocator + Copy>(
    sight: &Sight<'_, 'a, A>,
    name: &Tree<A>,
    fields: &[Tree<A>],
    is_member: bool,
    line: Position,
) -> Result<&'a [Tree<A>], ReadError> {
    let sets = field_sets(sight, name, line)?;
    if fields.iter().any(is_input) {
        return Err(fault(line, ScriptErrorKind::Expected));
    }
    if fields.len() == sets.len() || (!is_member && fields.len() < sets.len()) {
        Ok(sets)
    } else {
        Err(fault(line, ScriptErrorKind::WrongFields))
    }
}

/// Looks into an event phrase in a set; as a member it is a whole event.
#[cycle(kinds)]
pub(crate) fn event_in_set<A: Allocator + Copy>(
    sight: &Sight<'_, '_, A>,
    phrase: &Tree<A>,
    is_member: bool,
) -> Result<(), ReadError> {
    let Tree::Node { line, parts, .. } = without_conditions(sight, phrase)? else {
        return Ok(());
    };
    let [first, fields @ ..] = parts.as_slice() else {
        return Ok(());
    };
    let sets = sets_of_event(sight, first, fields, is_member, *line)?;
    values_in_sets(sight, fields, sets)
}

/// What a field gives, if it gives one value. It is less deep than the field.
fn value_of_field<A: Allocator>(field: &Tree<A>) -> Option<&Tree<A>>
    ensures { IfSome result (λ v. size-Tree _ v.now < size-Tree _ field.now) }
{
    match field {
        Tree::Node { parts, .. } => match parts.as_slice() {
            [value] => Some(value),
            _ => None,
        },
        Tree::Name { .. } | Tree::Number { .. } => None,
    }
}

/// Looks into the fields of an event, each of which is to be a value of its set.
#[cycle(kinds)]
fn values_in_sets<A: Allocator + Copy>(
    sight: &Sight<'_, '_, A>,
    fields: &[Tree<A>],
    sets: &[Tree<A>],
) -> Result<(), ReadError> {
    for (field, set) in fields.iter().zip(sets) {
        if let Some(value) = value_of_field(field) {
            kind_of(sight, value, Wanted::Value, value.line())?;
            in_set(sight, value, set)?;
        }
    }
    Ok(())
}

/// What is made of two sets. The first one is too large before a fault of the second is met.
#[cycle(kinds)]
fn kind_of_sets<A: Allocator + Copy>(
    sight: &Sight<'_, '_, A>,
    parts: &[Tree<A>],
    own: Option<ReadError>,
) -> Result<Kind, ReadError> {
    let [left, right] = parts else {
        return ended(own);
    };
    let first = kind_of(sight, left, Wanted::Set, left.line())?;
    match kind_of(sight, right, Wanted::Set, right.line()) {
        Ok(second) => as_both(sight, left, first, right, second),
        Err(error) => Err(fault_after(sight, left, first, error)),
    }
}

/// The phrase that is left of a phrase without its brackets and with its conditions decided, which is no deeper; else the first
/// fault in a condition.
#[cycle(kinds)]
pub(crate) fn without_conditions<'t, A: Allocator + Copy>(
    sight: &Sight<'_, '_, A>,
    phrase: &'t Tree<A>,
) -> Result<&'t Tree<A>, ReadError>
    ensures { IfOk result (λ t. size-Tree _ t.now ≤ size-Tree _ phrase.now) }
{
    let Tree::Node { form, parts, .. } = phrase else {
        return Ok(phrase);
    };
    match (*form, parts.as_slice()) {
        (Form::Brackets, [inner]) => without_conditions(sight, inner),
        (Form::If, [condition, first, second]) => {
            if decided(sight, condition)? {
                without_conditions(sight, first)
            } else {
                without_conditions(sight, second)
            }
        }
        _ => Ok(phrase),
    }
}

/// What the phrase is, of which this is wanted; also the fault of a set of values that is too large.
pub(crate) fn evaluated_kind<A: Allocator + Copy>(
    sight: &Sight<'_, '_, A>,
    phrase: &Tree<A>,
    wanted: Wanted,
) -> Result<Kind, ReadError> {
    let kind = kind_of(sight, phrase, wanted, phrase.line())?;
    as_evaluated(sight, phrase, kind)
}

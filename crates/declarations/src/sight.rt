//! What is known where a fault is looked for, and what single names are.

use crate::kinds::Kind;
use declared_names::{Entries, Meaning, Part, part_of, worth_alone};
use std::alloc::{AllocError, Allocator};
use syntax::Tree;
use tokens::{Position, ReadError, ScriptErrorKind, fault};
use values::{Input, Known, Value, Worth, is_value, stands_for};

/// What was found of a definition.
#[derive(Clone, Copy)]
pub(crate) enum Found {
    /// It wasn't looked into, or is being looked into.
    Nothing,
    Is(Kind),
    Fault(ReadError),
}

/// What is known where a fault is looked for.
#[derive(Drop)]
pub(crate) struct Sight<'s, 'a, A: Allocator> {
    pub(crate) alloc: A,
    pub(crate) entries: &'s Entries<'a, A>,
    pub(crate) known: &'s Known<A>,
    /// The inputs before the phrase that is looked into.
    pub(crate) inputs: &'s [Input<A>],
    /// Whether events can be spoken of, which they can't in the sets of a channel's fields.
    pub(crate) has_events: bool,
    /// What was found of the name at each place.
    pub(crate) found: Vec<Found, A>,
}

/// Words of CSPM that mean something without a declaration, which this profile leaves out.
const BUILT_IN: [&str; 8] = ["CHAOS", "RUN", "DIV", "WAIT", "Int", "Bool", "Char", "Proc"];

/// What is reported of a name that isn't declared.
pub(crate) fn undeclared(name: &[u8], line: Position) -> ReadError {
    for word in &BUILT_IN {
        if word.as_bytes() == name {
            return fault(line, ScriptErrorKind::Unsupported);
        }
    }
    fault(line, ScriptErrorKind::UnknownName)
}

/// What a phrase is that means this: `Nothing` for a set without values, whatever it is made of.
fn kind_of_worth<A: Allocator>(worth: &Worth<A>) -> Kind {
    match worth {
        Worth::One(Value::Number(_)) => Kind::Number,
        Worth::One(Value::Constant(_)) => Kind::Constant,
        Worth::Many(set) => {
            if set.is_empty() {
                Kind::Nothing
            } else {
                Kind::Values
            }
        }
        Worth::Truth(_) => Kind::Truth,
    }
}

/// Whether the name means a value, which hides a channel of its name.
fn hides<A: Allocator>(sight: &Sight<'_, '_, A>, name: &[u8]) -> bool {
    is_value(sight.known, sight.inputs, name)
}

/// What a phrase after the inputs means.
fn worth_here<A: Allocator + Copy>(
    sight: &Sight<'_, '_, A>,
    phrase: &Tree<A>,
) -> Result<Worth<A>, ReadError> {
    stands_for(&sight.alloc, sight.known, sight.inputs, phrase)
}

/// What a phrase is by what it means after the inputs.
pub(crate) fn kind_here<A: Allocator + Copy>(
    sight: &Sight<'_, '_, A>,
    phrase: &Tree<A>,
) -> Result<Kind, ReadError> {
    let worth = worth_here(sight, phrase)?;
    Ok(kind_of_worth(&worth))
}

/// The kind, of a phrase that is of it; the fault of a set of values that is too large.
pub(crate) fn as_evaluated<A: Allocator + Copy>(
    sight: &Sight<'_, '_, A>,
    phrase: &Tree<A>,
    kind: Kind,
) -> Result<Kind, ReadError> {
    if kind == Kind::Values {
        kind_here(sight, phrase)?;
    }
    Ok(kind)
}

/// The truth that a phrase stands for after these inputs, if it is one.
pub(crate) fn truth_behind<A: Allocator + Copy>(
    alloc: &A,
    known: &Known<A>,
    inputs: &[Input<A>],
    phrase: &Tree<A>,
) -> Result<Option<bool>, AllocError> {
    match stands_for(alloc, known, inputs, phrase) {
        Ok(Worth::Truth(truth)) => Ok(Some(truth)),
        Err(ReadError::Memory) => Err(AllocError),
        _ => Ok(None),
    }
}

/// What was found of the definition with this name, which is used on this line.
fn kind_found<A: Allocator>(
    sight: &Sight<'_, '_, A>,
    name: &[u8],
    line: Position,
) -> Result<Kind, ReadError> {
    let Some(place) = sight.entries.place(name) else {
        return Err(undeclared(name, line));
    };
    match sight.found.get(place) {
        Some(Found::Is(Kind::Event)) => Err(fault(line, ScriptErrorKind::Expected)),
        Some(Found::Is(kind)) => Ok(*kind),
        Some(Found::Fault(error)) => Err(*error),
        Some(Found::Nothing) | None => Err(fault(line, ScriptErrorKind::UnknownName)),
    }
}

/// What the name is, which is used on this line.
pub(crate) fn kind_of_name<A: Allocator + Copy>(
    sight: &Sight<'_, '_, A>,
    name: &[u8],
    line: Position,
) -> Result<Kind, ReadError> {
    let Some(entry) = sight.entries.get(name) else {
        return Err(undeclared(name, line));
    };
    match &entry.meaning {
        Meaning::Channel(_) => Ok(Kind::Event),
        Meaning::Datatype(_) => Ok(Kind::Values),
        Meaning::Constant => Ok(Kind::Constant),
        Meaning::WithParameters { .. } => Err(fault(line, ScriptErrorKind::Expected)),
        Meaning::Definition(_) => kind_found(sight, name, line),
    }
}

/// What an event phrase with these parts is: with fields it is an event.
pub(crate) fn kind_of_event<A: Allocator + Copy>(
    sight: &Sight<'_, '_, A>,
    parts: &[Tree<A>],
    line: Position,
) -> Result<Kind, ReadError> {
    let [first, fields @ ..] = parts else {
        return Err(fault(line, ScriptErrorKind::Expected));
    };
    if !fields.is_empty() {
        field_sets(sight, first, line)?;
        return Ok(Kind::Event);
    }
    match part_of(first) {
        Part::Name(name) => kind_of_name(sight, name, line),
        _ => Err(fault(line, ScriptErrorKind::Expected)),
    }
}

/// What a call with these parts is: one of a definition with so many parameters is a process.
pub(crate) fn kind_of_call<A: Allocator + Copy>(
    sight: &Sight<'_, '_, A>,
    parts: &[Tree<A>],
    line: Position,
) -> Result<Kind, ReadError> {
    let [first, arguments @ ..] = parts else {
        return Err(fault(line, ScriptErrorKind::Expected));
    };
    let Part::Name(name) = part_of(first) else {
        return Err(fault(line, ScriptErrorKind::Expected));
    };
    if hides(sight, name) {
        return Err(fault(line, ScriptErrorKind::Expected));
    }
    let Some(entry) = sight.entries.get(name) else {
        return Err(undeclared(name, line));
    };
    match &entry.meaning {
        Meaning::WithParameters { names, .. } if names.len() == arguments.len() => {
            Ok(Kind::Process)
        }
        _ => Err(fault(line, ScriptErrorKind::Expected)),
    }
}

/// What a set of events on this line is.
pub(crate) fn kind_of_events<A: Allocator>(
    sight: &Sight<'_, '_, A>,
    line: Position,
) -> Result<Kind, ReadError> {
    if sight.has_events {
        Ok(Kind::Events)
    } else {
        Err(fault(line, ScriptErrorKind::Expected))
    }
}

/// The sets of the fields of the channel with this name, which is used on this line.
pub(crate) fn field_sets<'a, A: Allocator + Copy>(
    sight: &Sight<'_, 'a, A>,
    name: &Tree<A>,
    line: Position,
) -> Result<&'a [Tree<A>], ReadError> {
    let Part::Name(name) = part_of(name) else {
        return Err(fault(line, ScriptErrorKind::Expected));
    };
    if hides(sight, name) {
        return Err(fault(line, ScriptErrorKind::Expected));
    }
    match sight.entries.get(name) {
        Some(entry) => match &entry.meaning {
            Meaning::Channel(sets) => Ok(*sets),
            _ => Err(fault(line, ScriptErrorKind::Expected)),
        },
        None => Err(undeclared(name, line)),
    }
}

/// Whether this is a set with that value in it.
fn contains<A: Allocator + Copy>(set: &Worth<A>, value: &Worth<A>) -> bool {
    match (set, value) {
        (Worth::Many(set), Worth::One(value)) => set.contains(value),
        _ => false,
    }
}

/// Whether the phrase means a value of the set.
fn is_in<A: Allocator + Copy>(
    sight: &Sight<'_, '_, A>,
    value: &Tree<A>,
    set: &Tree<A>,
) -> Result<bool, ReadError> {
    let value = worth_here(sight, value)?;
    let set = worth_alone(sight.alloc, sight.known, set)?;
    Ok(contains(&set, &value))
}

/// Looks whether the phrase means a value of the set; it is out of range where it doesn't.
pub(crate) fn in_set<A: Allocator + Copy>(
    sight: &Sight<'_, '_, A>,
    value: &Tree<A>,
    set: &Tree<A>,
) -> Result<(), ReadError> {
    if is_in(sight, value, set)? {
        Ok(())
    } else {
        Err(fault(value.line(), ScriptErrorKind::OutOfRange))
    }
}

//! Which fault is reported of a phrase that means nothing: the first one that is met when its parts, and the definitions
//! of the names in it, are looked into from the left.
ghost use Rattle.std.specs.Prelude.{◌≡◌, []};
ghost use Rattle.syntax.specs.Parsing.{syntaxes};
ghost use Rattle.syntax.specs.View.{shapes};
ghost use Rattle.tokens.specs.declared.read_error.ReadError.TheVariants.{Memory};
ghost use Rattle.values.specs.Tables.{table};
ghost use Rattle.values.specs.View.{Gives};
ghost use Rattle.values.specs.Names.{declared_by_all};
ghost use Rattle.declarations.specs.Sigma.{Follows, entered};

use crate::found::{seen_behind, seen_of};
use crate::kinds::{Kind, Wanted};
use crate::phrase_kinds::{evaluated_kind, event_in_set, kind_of};
use crate::sight::{kind_of_name, undeclared};
use crate::sigma::alphabet_of;
use alphabet::Alphabet;
use declared_names::{Entries, Meaning, Part, part_of, worth_alone};
use std::alloc::Allocator;
use syntax::{Form, Tree};
use tokens::{Position, ReadError, ScriptError, ScriptErrorKind, fault};
use values::{Input, Known, is_value, the_set};

/// What is reported of the phrase, which is to be a set of values for a channel's field and which evaluation refuses.
fn field_fault<'a, A: Allocator + Copy>(
    alloc: A,
    entries: &Entries<'a, A>,
    known: &Known<A>,
    phrase: &Tree<A>,
) -> Result<Kind, ReadError> {
    let sight = seen_behind(alloc, entries, known, &[], phrase, false)?;
    kind_of(&sight, phrase, Wanted::Values, phrase.line())
}

/// Whether evaluation finds the phrase to be a set of values: its fault where it isn't one.
fn evaluated_set<A: Allocator + Copy>(
    alloc: A,
    known: &Known<A>,
    phrase: &Tree<A>,
) -> Result<(), ReadError> {
    the_set(worth_alone(alloc, known, phrase)?, phrase.line())?;
    Ok(())
}

/// The fault in the set of a field, if it has one.
fn set_fault<'a, A: Allocator + Copy>(
    alloc: A,
    entries: &Entries<'a, A>,
    known: &Known<A>,
    set: &Tree<A>,
) -> Result<(), ReadError> {
    match evaluated_set(alloc, known, set) {
        Ok(()) => Ok(()),
        Err(ReadError::Memory) => Err(ReadError::Memory),
        Err(own) => match field_fault(alloc, entries, known, set) {
            Ok(_) => Err(own),
            Err(error) => Err(error),
        },
    }
}

/// The fault in the first of the sets of fields that has one.
fn fields_fault<'a, A: Allocator + Copy>(
    alloc: A,
    entries: &Entries<'a, A>,
    known: &Known<A>,
    sets: &Tree<A>,
) -> Result<(), ReadError> {
    if let Part::Node(_, sets) = part_of(sets) {
        for set in sets {
            set_fault(alloc, entries, known, set)?;
        }
    }
    Ok(())
}

/// The fault in the fields of the first channel that has one.
fn channels_fault<'a, A: Allocator + Copy>(
    alloc: A,
    entries: &Entries<'a, A>,
    known: &Known<A>,
    declarations: &[Tree<A>],
) -> Result<(), ReadError> {
    for declaration in declarations {
        if let Part::Node(Form::ChannelsWithFields, [_names, sets]) = part_of(declaration) {
            fields_fault(alloc, entries, known, sets)?;
        }
    }
    Ok(())
}

/// What is reported where the channels of these declarations can't be made for this fault: the fault that is met first when
/// the definitions of the names in the sets of their fields are looked into.
fn diagnosed_channels<'a, A: Allocator + Copy>(
    alloc: A,
    entries: &Entries<'a, A>,
    known: &Known<A>,
    declarations: &[Tree<A>],
    error: ReadError,
) -> ReadError
    ensures { error ≡ Memory → result ≡ Memory }
{
    match error {
        ReadError::Memory => error,
        ReadError::Fault(
            ScriptError {
                kind: ScriptErrorKind::TooManyEvents,
                ..
            },
        ) => error,
        ReadError::Fault(_) => match channels_fault(alloc, entries, known, declarations) {
            Ok(()) => error,
            Err(found) => found,
        },
    }
}

/// The alphabet of these declarations, whose names are among the entries. Of a fault the one that is met first is reported.
#[tactic(auto, using(syntax::proofs::Failing::fails_too))]
pub(crate) fn declared_alphabet<'a, A: Allocator + Copy>(
    alloc: A,
    entries: &Entries<'a, A>,
    known: &Known<A>,
    declarations: &[Tree<A>],
) -> Result<Alphabet<A>, ReadError>
    requires { Follows (table known.now) [] (declared_by_all (syntaxes (shapes declarations.now))) }
    ensures { Gives (λ a. a) result (entered (table known.now) [] (declared_by_all (syntaxes (shapes declarations.now)))) }
{
    match alphabet_of(alloc, known, declarations) {
        Ok(alphabet) => Ok(alphabet),
        Err(error) => Err(diagnosed_channels(alloc, entries, known, declarations, error)),
    }
}

/// What is reported of a name that is used on this line and isn't of the kind that is wanted there, or means nothing:
/// `Unsupported` for the words of CSPM that mean something without a declaration, `UnknownName` for another name that
/// isn't declared, the first fault in the definitions that it needs, `UnknownName` for a value that depends on itself; else
/// `Expected`.
///
/// Costs one look-up for the name of a channel or of what is known, and for one that isn't declared; else a turn for each
/// declared name, and about what it takes to find what the names mean that it needs. `Memory` is reported where it runs out.
pub fn fault_of_name<'a, A: Allocator + Copy>(
    alloc: A,
    entries: &Entries<'a, A>,
    known: &Known<A>,
    name: &[u8],
    line: Position,
) -> ReadError {
    match kind_by_definitions(alloc, entries, known, name, line) {
        Ok(_) => fault(line, ScriptErrorKind::Expected),
        Err(error) => error,
    }
}

/// What the name is, which is used on this line.
fn kind_by_definitions<'a, A: Allocator + Copy>(
    alloc: A,
    entries: &Entries<'a, A>,
    known: &Known<A>,
    name: &[u8],
    line: Position,
) -> Result<Kind, ReadError> {
    let Some(entry) = entries.get(name) else {
        return Err(undeclared(name, line));
    };
    let is_clear = match &entry.meaning {
        Meaning::Definition(_) => known.has(name),
        _ => true,
    };
    if is_clear {
        return Err(fault(line, ScriptErrorKind::Expected));
    }
    let sight = seen_of(alloc, entries, known, name)?;
    kind_of_name(&sight, name, line)
}

/// What is reported of a phrase after these inputs that isn't what is wanted: the first fault in a condition that decides which
/// phrase it is; then a form that can't be what is wanted, before its parts are looked into; else the first fault in its parts
/// and in the definitions of the names in them, from the left.
///
/// Costs about what it takes to find what the names mean that it needs. `Memory` is reported where it runs out.
pub fn fault_of_phrase<'a, A: Allocator + Copy>(
    alloc: A,
    entries: &Entries<'a, A>,
    known: &Known<A>,
    inputs: &[Input<A>],
    phrase: &Tree<A>,
    wanted: Wanted,
) -> ReadError {
    match kind_behind_inputs(alloc, entries, known, inputs, phrase, wanted) {
        Ok(_) => fault(phrase.line(), ScriptErrorKind::Expected),
        Err(error) => error,
    }
}

/// What the phrase after these inputs is, of which this is wanted.
fn kind_behind_inputs<'a, A: Allocator + Copy>(
    alloc: A,
    entries: &Entries<'a, A>,
    known: &Known<A>,
    inputs: &[Input<A>],
    phrase: &Tree<A>,
    wanted: Wanted,
) -> Result<Kind, ReadError> {
    let sight = seen_behind(alloc, entries, known, inputs, phrase, true)?;
    evaluated_kind(&sight, phrase, wanted)
}

/// What is reported of an event phrase after these inputs that gives no channel and first values of its fields.
pub fn fault_of_beginning<'a, A: Allocator + Copy>(
    alloc: A,
    entries: &Entries<'a, A>,
    known: &Known<A>,
    inputs: &[Input<A>],
    phrase: &Tree<A>,
) -> ReadError {
    match beginning_behind_inputs(alloc, entries, known, inputs, phrase) {
        Ok(()) => fault(phrase.line(), ScriptErrorKind::Expected),
        Err(error) => error,
    }
}

/// Looks into an event phrase after these inputs.
fn beginning_behind_inputs<'a, A: Allocator + Copy>(
    alloc: A,
    entries: &Entries<'a, A>,
    known: &Known<A>,
    inputs: &[Input<A>],
    phrase: &Tree<A>,
) -> Result<(), ReadError> {
    let sight = seen_behind(alloc, entries, known, inputs, phrase, true)?;
    event_in_set(&sight, phrase, false)
}

/// What is reported of an event phrase after these inputs whose name is no channel's: the definition of that name isn't looked
/// into.
pub fn fault_of_channel<'a, A: Allocator>(
    entries: &Entries<'a, A>,
    known: &Known<A>,
    inputs: &[Input<A>],
    phrase: &Tree<A>,
) -> ReadError {
    let line = phrase.line();
    match part_of(phrase) {
        Part::Node(Form::Event, [first, ..]) => match part_of(first) {
            Part::Name(name) if entries.get(name).is_none() && !is_value(known, inputs, name) => {
                undeclared(name, line)
            }
            _ => fault(line, ScriptErrorKind::Expected),
        },
        _ => fault(line, ScriptErrorKind::Expected),
    }
}

/// What is wrong with a call on this line of a name that is no definition with so many parameters: what is reported of a name that
/// isn't declared, else `Expected`.
pub fn fault_of_call<'a, A: Allocator>(
    entries: &Entries<'a, A>,
    name: &[u8],
    line: Position,
) -> ReadError {
    match entries.get(name) {
        Some(_) => fault(line, ScriptErrorKind::Expected),
        None => undeclared(name, line),
    }
}

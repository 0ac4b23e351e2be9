//! What is wrong with a root that isn't a process.
use crate::names::Names;
use declarations::fault_of_name;
use declared_names::{Meaning, is_process_form, worth_alone};
use std::alloc::{AllocError, Allocator};
use syntax::{Form, Tree};
use tokens::{Position, ReadError, ScriptErrorKind, fault};
use values::{Known, Worth};

/// The fault of a root that is of another kind, or isn't declared.
pub(crate) fn no_process() -> ReadError {
    fault(Position::Line(1), ScriptErrorKind::NoSuchProcess)
}

/// The truth that a condition means; none where the condition is at fault.
fn truth_of<A: Allocator + Copy>(
    alloc: A,
    known: &Known<A>,
    condition: &Tree<A>,
) -> Result<Option<bool>, AllocError> {
    match worth_alone(alloc, known, condition) {
        Ok(Worth::Truth(truth)) => Ok(Some(truth)),
        Ok(_) => Ok(None),
        Err(ReadError::Fault(_)) => Ok(None),
        Err(ReadError::Memory) => Err(AllocError),
    }
}

/// The phrase that is left of a body without its brackets and with its conditions decided; none where a condition is at fault.
fn chosen<'t, A: Allocator + Copy>(
    alloc: A,
    known: &Known<A>,
    phrase: &'t Tree<A>,
) -> Result<Option<&'t Tree<A>>, AllocError> {
    let Tree::Node { form, parts, .. } = phrase else {
        return Ok(Some(phrase));
    };
    match parts.as_slice() {
        [inner] if *form == Form::Brackets => chosen(alloc, known, inner),
        [condition, first, second] if *form == Form::If => match truth_of(
            alloc, known, condition,
        )? {
            Some(true) => chosen(alloc, known, first),
            Some(false) => chosen(alloc, known, second),
            None => Ok(None),
        },
        _ => Ok(Some(phrase)),
    }
}

/// The name, where the phrase is nothing else.
fn bare_name<A: Allocator>(phrase: &Tree<A>) -> Option<&[u8]> {
    let Tree::Node { form, parts, .. } = phrase else {
        return None;
    };
    match parts.as_slice() {
        [Tree::Name { text, .. }] if *form == Form::Event => Some(text),
        _ => None,
    }
}

/// Whether the form of the phrase is one of processes.
fn is_process<A: Allocator>(phrase: &Tree<A>) -> bool {
    match phrase {
        Tree::Node { form, .. } => is_process_form(*form),
        Tree::Name { .. } | Tree::Number { .. } => false,
    }
}

/// What is reported of a bare name on this line to which the root leads on: of one that has parameters or isn't declared.
fn name_fault<A: Allocator + Copy>(
    alloc: A,
    names: &Names<'_, A>,
    name: &[u8],
    line: Position,
) -> Option<ReadError> {
    match names.entries.get(name) {
        Some(entry) => match &entry.meaning {
            Meaning::WithParameters { .. } => Some(fault(line, ScriptErrorKind::Expected)),
            _ => None,
        },
        None => Some(fault_of_name(alloc, &names.entries, &names.known, name, line)),
    }
}

/// What is wrong with a root: by the bare names that it leads on to, with its conditions decided, that it is of another kind, that
/// such a name isn't declared, or that one has parameters; else what was reported of it.
pub(crate) fn root_fault<A: Allocator + Copy>(
    alloc: A,
    names: &Names<'_, A>,
    root: &[u8],
    reported: ReadError,
) -> ReadError {
    let mut name = root;
    for _ in 0..names.entries.len() {
        let Some(body) = names.body(name) else {
            return no_process();
        };
        let phrase = match chosen(alloc, &names.known, body) {
            Ok(Some(phrase)) => phrase,
            Ok(None) => return reported,
            Err(refused) => return refused.into(),
        };
        let Some(next) = bare_name(phrase) else {
            return if is_process(phrase) {
                reported
            } else {
                no_process()
            };
        };
        if let Some(error) = name_fault(alloc, names, next, phrase.line()) {
            return error;
        }
        name = next;
    }
    reported
}

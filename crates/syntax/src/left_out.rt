//! Forms of CSPM that this profile leaves out, where the grammar wants something else.

use crate::ahead::past;
use crate::fault::unsupported;
use crate::form::Form;
use crate::limits::{LAYERS, Limits, MAX_BRACKETS, MAX_HEIGHT};
use crate::piece::{Kind, Sign};
use crate::reading::read;
use crate::tree::Tree;
use std::alloc::Allocator;
use tokens::{ReadError, Symbol, Token, Word};

/// What a definition by patterns has in place of a parameter: a phrase that is no name.
///
/// The tokens are those after the opening bracket. A phrase that doesn't read has its own fault.
fn unless_patterns<A: Allocator + Clone + Drop>(
    alloc: &A,
    tokens: &[Token<A>],
    fault: ReadError,
) -> ReadError {
    let limits = Limits {
        brackets: MAX_BRACKETS - 1,
        room: MAX_HEIGHT,
        layers: LAYERS,
    };
    let mut rest = tokens;
    for _ in 0..tokens.len() {
        match read(alloc, Kind::Phrase(16), rest, limits) {
            Err(error) => return error,
            Ok((phrase, behind)) => {
                if !is_name(&phrase.tree) {
                    return unsupported(rest);
                }
                match past(behind, Sign::Symbol(Symbol::Comma)) {
                    Some(next) => rest = next,
                    None => return fault,
                }
            }
        }
    }
    fault
}

fn is_name<A: Allocator>(phrase: &Tree<A>) -> bool {
    match phrase {
        Tree::Node {
            form: Form::Event,
            parts,
            ..
        } => parts.len() == 1,
        _ => false,
    }
}

fn is_datatype<A: Allocator>(declaration: &Tree<A>) -> bool {
    match declaration {
        Tree::Node { form, .. } => matches!(form, Form::Datatype),
        _ => false,
    }
}

/// The fault of a declaration that doesn't read, or of what stands in a declaration's place after a datatype.
fn of_declaration<A: Allocator + Clone + Drop>(
    alloc: &A,
    tokens: &[Token<A>],
    datatype: bool,
    fault: ReadError,
) -> ReadError {
    match tokens {
        [first, second, parameters @ ..] => match (&first.word, &second.word) {
            (Word::Symbol(Symbol::Dot), _) if datatype => unsupported(tokens),
            (Word::Name(_), Word::Symbol(Symbol::OpenParenthesis)) => {
                unless_patterns(alloc, parameters, fault)
            }
            _ => fault,
        },
        [first] => match &first.word {
            Word::Symbol(Symbol::Dot) if datatype => unsupported(tokens),
            _ => fault,
        },
        [] => fault,
    }
}

/// The fault of tokens that are no script: this one, where nothing is left out that CSPM has.
///
/// A definition by patterns is reported at its first pattern, a datatype with fields at its first dot.
pub(crate) fn unless_left_out<A: Allocator + Clone + Drop>(
    alloc: &A,
    tokens: &[Token<A>],
    fault: ReadError,
) -> ReadError {
    let limits = Limits {
        brackets: MAX_BRACKETS,
        room: MAX_HEIGHT,
        layers: LAYERS,
    };
    let mut rest = tokens;
    let mut datatype = false;
    for _ in 0..tokens.len() {
        match read(alloc, Kind::Declaration, rest, limits) {
            Ok((declaration, behind)) => {
                datatype = is_datatype(&declaration.tree);
                rest = behind;
            }
            Err(error) => {
                return match error {
                    ReadError::Memory => error,
                    ReadError::Fault(_) => of_declaration(alloc, rest, datatype, fault),
                };
            }
        }
    }
    fault
}

//! The numbers, words and texts of faults.

use alphabet::AlphabetError;
use rows::{Output, first_word};
use std::fmt::Display;
use step::StepFault;
use tau_closures::AfterFault;

/// Appends a fault's number, word and text.
fn put<E: Display>(code: u32, word: &str, fault: &E, out: &mut Output) {
    out.put_shown(&code);
    out.put_word(&word);
    out.put(" | ");
    out.put_shown(fault);
}

/// The fault of `wire` with this name.
fn wire_fault(name: &str) -> wire::Fault {
    match name {
        "Depth" => wire::Fault::Depth,
        "States" => wire::Fault::States,
        "Seats" => wire::Fault::Seats,
        "History" => wire::Fault::History,
        "Turn" => wire::Fault::Turn,
        "Behind" => wire::Fault::Behind,
        "Reader" => wire::Fault::Reader,
        "Taken" => wire::Fault::Taken,
        "Journal" => wire::Fault::Journal(()),
        "Closed" => wire::Fault::Closed(()),
        _ => wire::Fault::Memory,
    }
}

/// Appends the number, the word and the text of the fault of a library with this name.
fn put_fault(library: &str, name: &str, out: &mut Output) {
    match library {
        "wire" => {
            let fault = wire_fault(name);
            put(u32::from(fault.code()), fault.word(), &fault, out);
        }
        "after" => {
            let fault = match name {
                "Depth" => AfterFault::Depth,
                "States" => AfterFault::States,
                _ => AfterFault::Memory,
            };
            put(u32::from(fault.code()), fault.word(), &fault, out);
        }
        "step" => {
            let fault = match name {
                "Depth" => StepFault::Depth,
                _ => StepFault::Memory,
            };
            put(u32::from(fault.code()), fault.word(), &fault, out);
        }
        _ => {
            let fault = match name {
                "Redeclared" => AlphabetError::Redeclared,
                "TooManyEvents" => AlphabetError::TooManyEvents,
                _ => AlphabetError::Memory,
            };
            put(u32::from(fault.code()), fault.word(), &fault, out);
        }
    }
}

/// Appends what a fault of a crate is told as, where the row is of this kind.
pub(crate) fn play(row: &str, out: &mut Output) -> bool {
    let (kind, rest) = first_word(row);
    let (library, name) = first_word(rest);
    if kind == "fault_text" {
        put_fault(library, name, out);
    }
    kind == "fault_text"
}

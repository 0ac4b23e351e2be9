//! The numbers, words and texts of faults.

use journal::JournalError;
use rows::{Output, first_word};
use session::SessionError;
use std::fmt::Display;

/// Appends a fault's number, word and text.
fn put<E: Display>(code: u32, word: &str, fault: &E, out: &mut Output) {
    out.put_shown(&code);
    out.put(" ");
    out.put(word);
    out.put(" | ");
    out.put_shown(fault);
}

/// The session's fault with this name.
fn session_error(name: &str) -> SessionError {
    match name {
        "Depth" => SessionError::Depth,
        "States" => SessionError::States,
        "History" => SessionError::History,
        "Device" => SessionError::Device,
        "BadHeader" => SessionError::BadHeader,
        "Truncated" => SessionError::Truncated,
        "BadRecord" => SessionError::BadRecord(2),
        "OtherVerdict" => SessionError::OtherVerdict(3),
        "Part" => SessionError::Part(4),
        _ => SessionError::Memory,
    }
}

/// The journal's fault with this name.
fn journal_error(name: &str) -> JournalError {
    match name {
        "Device" => JournalError::Device,
        "BadHeader" => JournalError::BadHeader,
        "Truncated" => JournalError::Truncated,
        "BadRecord" => JournalError::BadRecord(2),
        _ => JournalError::Memory,
    }
}

/// Plays a row of this kind. Whether it is one is answered.
pub(crate) fn play(row: &str, out: &mut Output) -> bool {
    let (kind, text) = first_word(row);
    let (library, name) = first_word(text);
    if kind != "fault_text" {
        return false;
    }
    if library == "session" {
        let fault = session_error(name);
        put(u32::from(fault.code()), fault.word(), &fault, out);
    } else {
        let fault = journal_error(name);
        put(fault.code(), fault.word(), &fault, out);
    }
    true
}

//! Rows over a script's text, which is read for the root `P`.

use crate::bytes::bytes_of;
use crate::quiet::put_quiet;
use crate::remembering::put_remembered;
use crate::{alphabets, steps};
use rows::{Output, first_word};
use script::read;
use std::alloc::Global;

/// Appends what comes of the script that is read for the root `P`, or its fault.
fn put(alloc: Global, kind: &str, words: &str, text: &[u8], out: &mut Output) {
    match read(alloc, text, b"P") {
        Ok(spec) if kind == "remembered" => put_remembered(alloc, spec, words, out),
        Ok(spec) => {
            if !steps::put(alloc, kind, words, &spec, out) {
                alphabets::put(kind, words, spec.alphabet(), out);
            }
            drop(spec);
        }
        Err(error) => out.put_word(&error),
    }
}

/// Appends what comes of a script, where the row has one.
pub(crate) fn play(alloc: Global, row: &str, out: &mut Output) -> bool {
    let (kind, rest) = first_word(row);
    let Some((words, script)) = rest.split_once("in ") else {
        return false;
    };
    let words = words.trim_end();
    let text = bytes_of(script, out);
    out.put(kind);
    if kind == "no_request" {
        put_quiet(alloc, words, &text, out);
    } else {
        put(alloc, kind, words, &text, out);
    }
    true
}

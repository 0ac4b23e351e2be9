//! What is written of a row.

use std::alloc::Global;
use std::fmt::{Debug, Display};

/// What is written of a row.
#[derive(Drop)]
pub struct Output {
    text: String,
    /// The last of the outcomes in the text.
    last: String,
    /// Whether there was no memory for a part of the text.
    pub is_cut: bool,
    /// How many points were tried.
    pub points: u64,
}

/// Whether the outcome is one of these, which are parted by ` / `.
fn is_among(outcome: &str, outcomes: &str) -> bool {
    for other in outcomes.split(" / ") {
        if other == outcome {
            return true;
        }
    }
    false
}

impl Output {
    pub fn new(alloc: Global) -> Output {
        Output {
            text: String::new(alloc),
            last: String::new(alloc),
            is_cut: false,
            points: 0,
        }
    }

    pub fn text(&self) -> &str {
        &self.text
    }

    pub fn put(&mut self, text: &str) {
        if self.text.push_str(text).is_err() {
            self.is_cut = true;
        }
    }

    pub fn put_shown<D: Display>(&mut self, value: &D) {
        if write!(self.text, "{value}").is_err() {
            self.is_cut = true;
        }
    }

    /// Appends the value as `Debug` writes it.
    pub fn put_debug<D: Debug>(&mut self, value: &D) {
        if write!(self.text, "{value:?}").is_err() {
            self.is_cut = true;
        }
    }

    /// Appends a blank and the value.
    pub fn put_word<D: Display>(&mut self, value: &D) {
        self.put(" ");
        self.put_shown(value);
    }

    /// Appends a blank and the answer.
    pub fn put_answer(&mut self, answer: bool) {
        self.put(if answer { " yes" } else { " no" });
    }

    /// Appends each byte as a character, a line feed as `$`.
    pub fn put_bytes(&mut self, bytes: &[u8]) {
        for byte in bytes {
            let shown = if *byte == b'\n' { b'$' } else { *byte };
            if self.text.push(char::from(shown)).is_err() {
                self.is_cut = true;
            }
        }
    }

    /// Appends the bytes in brackets.
    pub fn put_file(&mut self, file: &[u8]) {
        self.put("[");
        self.put_bytes(file);
        self.put("]");
    }

    /// A point was tried, or those of this outcome; and where there was no memory for it, there is none for the whole.
    fn add(&mut self, came: &Output) {
        self.is_cut = self.is_cut || came.is_cut;
        self.points = self.points.saturating_add(came.points.max(1));
    }

    /// Appends the outcome with its place where it isn't the last one. A point was tried, or those of the outcome.
    pub fn put_outcome(&mut self, place: usize, came: &Output) {
        let text = came.text();
        self.add(came);
        if self.last.as_str() == text {
            return;
        }
        let mark = if self.last.is_empty() { "" } else { " | " };
        self.put(mark);
        self.put_shown(&place);
        self.put(": ");
        self.put(text);
        self.last.clear();
        if self.last.push_str(text).is_err() {
            self.is_cut = true;
        }
    }

    /// Appends the outcome after ` / ` where none of those so far is so. A point was tried.
    pub fn put_other(&mut self, came: &Output) {
        let text = came.text();
        self.add(came);
        if is_among(text, self.text()) {
            return;
        }
        let mark = if self.text.is_empty() { "" } else { " / " };
        self.put(mark);
        self.put(text);
    }

    /// A copy of the bytes.
    pub fn copy_of(&mut self, bytes: &[u8]) -> Vec<u8> {
        let mut copy = Vec::new(*self.text.allocator());
        if copy.extend_from_slice(bytes).is_err() {
            self.is_cut = true;
        }
        copy
    }
}

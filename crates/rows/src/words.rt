//! How a row's words are read.

/// The first word, and what is written after it.
pub fn first_word(text: &str) -> (&str, &str) {
    text.split_once(' ').unwrap_or((text, ""))
}

/// What is written before ` # ` and after it.
pub fn parts(text: &str) -> (&str, &str) {
    text.split_once(" # ").unwrap_or((text, ""))
}

/// The number that the word is, or 0.
pub fn number_of(word: &str) -> u64 {
    word.parse().unwrap_or(0)
}

//! Names of the language.

ghost use Rattle.std.specs.Prelude.{◌≡◌, ◌==◌, nat_eq};
ghost use Rattle.std.specs.List.{list_any, list_all};
ghost use Rattle.std.specs.Cmp.Lexicographic.{pointwise};
ghost use Rattle.alphabet.specs.Names.{is_letter, is_word_byte, is_name_rest, is_kept_word, is_name};

/// The words that the language keeps.
const KEPT_WORDS: [&[u8]; 17] = [
    b"channel",
    b"datatype",
    b"assert",
    b"STOP",
    b"SKIP",
    b"Events",
    b"union",
    b"inter",
    b"diff",
    b"if",
    b"then",
    b"else",
    b"and",
    b"or",
    b"not",
    b"true",
    b"false",
];

// Whether the word is one of these.
fn is_among(word: &[u8], words: &[&[u8]]) -> bool
    ensures { result ≡ list_any (λ w. pointwise nat_eq word.now w.now) words.now }
{
    words.iter().any(|other| word == *other)
}

fn is_kept_word(word: &[u8]) -> bool
    ensures { result ≡ is_kept_word word.now }
{
    is_among(word, &KEPT_WORDS)
}

fn is_letter(byte: u8) -> bool
    ensures { result ≡ is_letter byte }
{
    byte.is_ascii_alphabetic()
}

// A letter, a digit or `_`.
fn is_word_byte(byte: u8) -> bool
    ensures { result ≡ is_word_byte byte }
{
    is_letter(byte) || (byte >= b'0' && byte <= b'9') || byte == b'_'
}

fn are_primes(bytes: &[u8]) -> bool
    ensures { result ≡ list_all (λ b. b == 39) bytes.now }
{
    bytes.iter().all(|byte| *byte == b'\'')
}

// Letters, digits and `_`, and then nothing but `'`.
fn is_name_rest(bytes: &[u8]) -> bool
    ensures { result ≡ is_name_rest bytes.now }
{
    match bytes {
        [] => true,
        [first, rest @ ..] => {
            if is_word_byte(*first) {
                is_name_rest(rest)
            } else {
                are_primes(bytes)
            }
        }
    }
}

/// Whether this is a name of the language: a letter, then letters, digits and `_`, then any number of `'`, and no word that
/// the language keeps. Channels and constants have such names. Costs the word's length.
pub fn is_name(word: &[u8]) -> bool
    ensures { result ≡ is_name word.now }
{
    match word {
        [] => false,
        [first, rest @ ..] => is_letter(*first) && is_name_rest(rest) && !is_kept_word(word),
    }
}

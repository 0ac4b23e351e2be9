//! Texts of scripts: their tokens, and whether they have a tree.

use crate::bytes::bytes_of;
use rows::{Output, first_word};
use std::alloc::Global;
use syntax::{Tree, parse};
use tokens::{MAX_SCRIPT_LEN, Token, Word, end_line, scan};

/// Appends a token after its line: a name as it is, a number after `#`, a kept word after `*`.
fn put_token(token: &Token<Global>, out: &mut Output) {
    out.put_word(&token.line);
    out.put(":");
    match &token.word {
        Word::Name(name) => out.put_bytes(name),
        Word::Number(number) => {
            out.put("#");
            out.put_shown(number);
        }
        Word::Keyword(keyword) => {
            out.put("*");
            out.put_bytes(keyword.text());
        }
        Word::Symbol(symbol) => out.put_bytes(symbol.text()),
    }
}

/// Appends the tokens.
fn put_tokens(tokens: &[Token<Global>], out: &mut Output) {
    for token in tokens {
        put_token(token, out);
    }
}

/// Appends the tokens of a text, or how many there are, or its fault.
fn put_scanned(alloc: Global, kind: &str, text: &[u8], out: &mut Output) {
    match scan(alloc, text) {
        Ok(tokens) if kind == "tokens" => put_tokens(&tokens, out),
        Ok(tokens) => out.put_word(&tokens.len()),
        Err(error) => out.put_word(&error),
    }
}

/// Appends the lines of a tree's parts.
fn put_lines(tree: &Tree<Global>, out: &mut Output) {
    if let Tree::Node { parts, .. } = tree {
        for part in parts {
            out.put_word(&part.line());
        }
    }
    out.put(";");
}

/// Appends the line of a tree, those of its parts, those of its last part's parts, and so once more.
fn put_tree(tree: &Tree<Global>, out: &mut Output) {
    out.put_word(&tree.line());
    out.put(";");
    let mut at = tree;
    for _ in 0..3 {
        put_lines(at, out);
        if let Tree::Node { parts, .. } = at
            && let Some(last) = parts.last()
        {
            at = last;
        }
    }
}

/// Appends `ok` or the lines of the tree where there is one, else the line and the fault.
fn put_parsed(alloc: Global, kind: &str, text: &[u8], out: &mut Output) {
    match parse(alloc, text) {
        Ok(tree) if kind == "tree_lines" => put_tree(&tree, out),
        Ok(_) => out.put(" ok"),
        Err(error) => out.put_word(&error),
    }
}

/// Appends what comes of a text, where the row is of this kind.
pub(crate) fn play(alloc: Global, row: &str, out: &mut Output) -> bool {
    let (kind, rest) = first_word(row);
    if !matches!(
        kind,
        "tokens" | "token_count" | "end_line" | "parse" | "tree_lines"
    ) {
        return false;
    }
    let text = bytes_of(rest, out);
    out.put(kind);
    match kind {
        "tokens" | "token_count" => put_scanned(alloc, kind, &text, out),
        "end_line" if text.len() <= MAX_SCRIPT_LEN => out.put_word(&end_line(&text)),
        _ => put_parsed(alloc, kind, &text, out),
    }
    true
}

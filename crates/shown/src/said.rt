//! What is said of reports that were rejected.

ghost use Rattle.std.specs.Prelude.{◌≡◌, ◌++◌, List, OnOk};
ghost use Rattle.alphabet.specs.Channels.{Channel};
ghost use Rattle.shown.specs.declared.options.Format.{Format as format_type};
ghost use Rattle.shown.specs.Lines.{expected, finding_text, offered};
ghost use Rattle.shown.specs.Said.{IsSaid};

use crate::lines::{put_expected, put_offered};
use crate::options::Format;
use crate::remarks::Remarks;
use alphabet::{Alphabet, EventSet};
use std::alloc::{AllocError, Allocator};

/// What was said of rejected events, by the events that could have come; and of rejected refusals, by the sets that must be
/// offered. Where that is much, later ones are mostly rejected with the same.
#[derive(Drop)]
pub(crate) struct Said<A: Allocator> {
    expected: Remarks<A>,
    offered: Remarks<A>,
}

impl<A: Allocator + Copy> Said<A> {
    /// Nothing was said yet. Takes no memory.
    pub(crate) fn new(alloc: A) -> Said<A>
        ensures { (format : format_type) (cs : List Channel) → IsSaid format cs result }
    {
        Said {
            expected: Remarks::new(alloc),
            offered: Remarks::new(alloc),
        }
    }
}

/// Appends what is said of an event that was rejected where these could have come.
pub(crate) fn put_said_expected<A: Allocator, B: Allocator + Copy>(
    text: &mut Vec<u8, B>,
    said: &mut Said<B>,
    alphabet: &Alphabet<A>,
    next: EventSet,
    format: Format,
) -> Result<(), AllocError>
    requires { IsSaid format alphabet.now said.old }
    ensures said { OnOk result (IsSaid format alphabet.now said.new) }
    ensures text { OnOk result (text.new.items ≡ text.old.items ++ finding_text format alphabet.now (expected next)) }
{
    let sets = [next];
    if let Some(known) = said.expected.get(&sets) {
        return text.extend_from_slice(known);
    }
    let start = text.len();
    put_expected(text, alphabet, next, format)?;
    said.expected.keep(&sets, &text[start..])
}

/// Appends what is said of a refusal that was rejected where these are the acceptances.
pub(crate) fn put_said_offered<A: Allocator, B: Allocator + Copy>(
    text: &mut Vec<u8, B>,
    said: &mut Said<B>,
    alphabet: &Alphabet<A>,
    acceptances: &[EventSet],
    format: Format,
) -> Result<(), AllocError>
    requires { IsSaid format alphabet.now said.old }
    ensures said { OnOk result (IsSaid format alphabet.now said.new) }
    ensures text { OnOk result (text.new.items ≡ text.old.items ++ finding_text format alphabet.now (offered acceptances.now)) }
{
    if let Some(known) = said.offered.get(acceptances) {
        return text.extend_from_slice(known);
    }
    let start = text.len();
    put_offered(text, alphabet, acceptances, format)?;
    said.offered.keep(acceptances, &text[start..])
}

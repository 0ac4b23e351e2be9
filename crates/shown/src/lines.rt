//! The parts of an entry's line.

ghost use Rattle.std.specs.Prelude.{◌≡◌, ◌++◌, List, OnOk, map, codes};
ghost use Rattle.std.specs.List.{flat_map};
ghost use Rattle.alphabet.specs.EventSets.{members};
ghost use Rattle.alphabet.specs.Channels.{Channel};
ghost use Rattle.shown.specs.Names.{joined, set_text};
ghost use Rattle.shown.specs.Lines.{accepted, alternatives, expected, finding_text, head_text, listed, offered, report_text};
ghost use Rattle.shown.specs.declared.options.Format.TheVariants.{Text as text_format, Json as json_format};

use crate::names::{put_marked, put_name, put_names, put_number, put_plain, put_set};
use crate::options::Format;
use alphabet::{Alphabet, EventSet, Report};
use std::alloc::{AllocError, Allocator};

/// Appends the place of an entry, its seat and its number.
#[tactic(auto, unfolding(crate::specs::Lines::head_text))]
pub(crate) fn put_head<B: Allocator>(
    text: &mut Vec<u8, B>,
    place: u64,
    seat: u32,
    number: u32,
    format: Format,
) -> Result<(), AllocError>
    ensures { OnOk result (text.new.items ≡ text.old.items ++ head_text format place seat number) }
{
    match format {
        Format::Text => {
            put_number(text, place)?;
            put_marked(text, b" ", seat as u64)?;
            put_marked(text, b" ", number as u64)?;
            text.extend_from_slice(b" ")
        }
        Format::Json => {
            put_marked(text, b"{\"place\":", place)?;
            put_marked(text, b",\"seat\":", seat as u64)?;
            put_marked(text, b",\"number\":", number as u64)?;
            text.extend_from_slice(b",")
        }
    }
}

/// Appends a report.
#[tactic(auto, unfolding(crate::specs::Lines::report_text))]
pub(crate) fn put_report<A: Allocator, B: Allocator>(
    text: &mut Vec<u8, B>,
    alphabet: &Alphabet<A>,
    report: &Report,
    format: Format,
) -> Result<(), AllocError>
    ensures { OnOk result (text.new.items ≡ text.old.items ++ report_text format alphabet.now report.now) }
{
    match (format, *report) {
        (Format::Text, Report::Event(event)) => {
            text.extend_from_slice(b"E ")?;
            put_plain(text, alphabet, event)
        }
        (Format::Text, Report::Refusal(set)) => {
            text.extend_from_slice(b"R")?;
            put_names(text, alphabet, set)
        }
        (Format::Json, Report::Event(event)) => {
            text.extend_from_slice(b"\"report\":\"event\",\"events\":[")?;
            put_name(text, alphabet, event, Format::Json)?;
            text.extend_from_slice(b"]")
        }
        (Format::Json, Report::Refusal(set)) => {
            text.extend_from_slice(b"\"report\":\"refusal\",\"events\":")?;
            put_set(text, alphabet, set, Format::Json)
        }
    }
}

/// Appends that the report was accepted.
#[tactic(auto, unfolding(crate::specs::Lines::finding_text))]
pub(crate) fn put_accepted<B: Allocator>(
    text: &mut Vec<u8, B>,
    format: Format,
) -> Result<(), AllocError>
    ensures { (cs : List Channel) → OnOk result (text.new.items ≡ text.old.items ++ finding_text format cs accepted) }
{
    match format {
        Format::Text => text.extend_from_slice(b" OK"),
        Format::Json => text.extend_from_slice(b",\"verdict\":\"OK\""),
    }
}

/// Appends the names of the events of the set, each after a blank, or that there is nothing.
pub(crate) fn put_listed<A: Allocator, B: Allocator>(
    text: &mut Vec<u8, B>,
    alphabet: &Alphabet<A>,
    set: EventSet,
) -> Result<(), AllocError>
    ensures { OnOk result (text.new.items ≡ text.old.items ++ listed alphabet.now (members set)) }
{
    if set.iter().next().is_none() {
        return text.extend_from_slice(b" nothing");
    }
    put_names(text, alphabet, set)
}

/// Appends which events could come in the place of the one that was rejected.
#[tactic(auto, unfolding(crate::specs::Lines::finding_text))]
pub(crate) fn put_expected<A: Allocator, B: Allocator>(
    text: &mut Vec<u8, B>,
    alphabet: &Alphabet<A>,
    set: EventSet,
    format: Format,
) -> Result<(), AllocError>
    ensures { OnOk result (text.new.items ≡ text.old.items ++ finding_text format alphabet.now (expected set)) }
{
    match format {
        Format::Text => {
            text.extend_from_slice(b" NO expected")?;
            put_listed(text, alphabet, set)
        }
        Format::Json => {
            text.extend_from_slice(b",\"verdict\":\"NO\",\"expected\":")?;
            put_set(text, alphabet, set, Format::Json)
        }
    }
}

/// Appends the sets, each after the mark.
fn put_sets<A: Allocator, B: Allocator>(
    text: &mut Vec<u8, B>,
    alphabet: &Alphabet<A>,
    mark: &[u8],
    sets: &[EventSet],
    format: Format,
) -> Result<(), AllocError>
    ensures { OnOk result (text.new.items ≡ text.old.items ++ flat_map (λ X. mark.now ++ set_text format alphabet.now X) sets.now) }
{
    for set in sets {
        text.extend_from_slice(mark)?;
        put_set(text, alphabet, *set, format)?;
    }
    Ok(())
}

/// Appends the sets with commas between them.
fn put_list<A: Allocator, B: Allocator>(
    text: &mut Vec<u8, B>,
    alphabet: &Alphabet<A>,
    sets: &[EventSet],
) -> Result<(), AllocError>
    ensures { OnOk result (text.new.items ≡ text.old.items ++ joined (codes ",") (map (set_text json_format alphabet.now) sets.now)) }
{
    match sets {
        [] => Ok(()),
        [first, others @ ..] => {
            put_set(text, alphabet, *first, Format::Json)?;
            put_sets(text, alphabet, b",", others, Format::Json)
        }
    }
}

/// Appends that one of the sets must be offered, or that there is none.
fn put_alternatives<A: Allocator, B: Allocator>(
    text: &mut Vec<u8, B>,
    alphabet: &Alphabet<A>,
    sets: &[EventSet],
) -> Result<(), AllocError>
    ensures { OnOk result (text.new.items ≡ text.old.items ++ alternatives alphabet.now sets.now) }
{
    if sets.is_empty() {
        return text.extend_from_slice(b" never comes to rest");
    }
    text.extend_from_slice(b" must offer one of")?;
    put_sets(text, alphabet, b" ", sets, Format::Text)
}

/// Appends which sets must be offered in the place of the refusal that was rejected.
#[tactic(auto, unfolding(crate::specs::Lines::finding_text))]
pub(crate) fn put_offered<A: Allocator, B: Allocator>(
    text: &mut Vec<u8, B>,
    alphabet: &Alphabet<A>,
    sets: &[EventSet],
    format: Format,
) -> Result<(), AllocError>
    ensures { OnOk result (text.new.items ≡ text.old.items ++ finding_text format alphabet.now (offered sets.now)) }
{
    match format {
        Format::Text => {
            text.extend_from_slice(b" NO")?;
            put_alternatives(text, alphabet, sets)
        }
        Format::Json => {
            text.extend_from_slice(b",\"verdict\":\"NO\",\"acceptances\":[")?;
            put_list(text, alphabet, sets)?;
            text.extend_from_slice(b"]")
        }
    }
}

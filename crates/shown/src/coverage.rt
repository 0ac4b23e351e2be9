//! The lines of coverage.

ghost use Rattle.std.specs.Prelude.{◌≡◌, ℕ, ◌<◌, ◌≤◌, ◌^◌, ◌++◌, ◌&&◌, not, IsTrue, List, IfOk, OnOk};
ghost use Rattle.alphabet.specs.declared.events.Event.{Event};
ghost use Rattle.alphabet.specs.EventSets.{Set, member};
ghost use Rattle.alphabet.specs.Channels.{event_count};
ghost use Rattle.history.specs.declared.entry.Entry.{Entry as entry_type};
ghost use Rattle.shown.specs.Coverage.{IsCoverage, absent_text, count_text, coverage_lines, is_below, reports};
ghost use Rattle.shown.specs.Slots.{Adds, AreCounts, CountAll, CountsEntry, HasRoom, count_at, is_absent};
ghost use Rattle.shown.specs.Tallies.{tallied};

use crate::counts::{count_event, count_of, zeros};
use crate::lines::put_listed;
use crate::names::{put_marked, put_name, put_set};
use crate::options::Format;
use crate::tally::Tally;
use alphabet::{Alphabet, Event, EventSet, Report};
use history::Entry;
use std::alloc::{AllocError, Allocator};

/// How often each event was accepted and rejected, and how often it could come.
#[derive(Drop)]
pub(crate) struct Counts<A: Allocator> {
    pub(crate) accepted: Vec<u64, A>,
    pub(crate) rejected: Vec<u64, A>,
    pub(crate) possible: Tally<A>,
}

impl<A: Allocator + Copy> Counts<A> {
    /// Counts of nothing, for tick and so many events.
    pub(crate) fn new(alloc: A, events: usize) -> Result<Counts<A>, AllocError>
        requires { events ≤ 256 }
        ensures accepted { IfOk result (λ counts. AreCounts events (λ _. 0) counts.accepted.items) }
        ensures rejected { IfOk result (λ counts. AreCounts events (λ _. 0) counts.rejected.items) }
        ensures possible { IfOk result (λ counts. (x : Event) → tallied counts.possible x ≡ 0) }
    {
        let accepted = zeros(alloc, events)?;
        let rejected = zeros(alloc, events)?;
        let possible = Tally::new(alloc)?;
        Ok(Counts {
            accepted,
            rejected,
            possible,
        })
    }
}

/// Counts an accepted or a rejected event.
fn count_report<A: Allocator>(counts: &mut Counts<A>, entry: &Entry)
    requires accepted { (x : Event) → count_at counts.old.accepted.items x < 2 ^ 62 }
    requires rejected { (x : Event) → count_at counts.old.rejected.items x < 2 ^ 62 }
    ensures accepted { Adds counts.old.accepted.items counts.new.accepted.items (λ x. reports x entry.now.report && entry.now.verdict) }
    ensures rejected { Adds counts.old.rejected.items counts.new.rejected.items (λ x. reports x entry.now.report && not entry.now.verdict) }
    ensures possible { counts.new.possible ≡ counts.old.possible }
{
    let Report::Event(event) = entry.report else {
        return;
    };
    if entry.verdict {
        count_event(&mut counts.accepted, event);
    } else {
        count_event(&mut counts.rejected, event);
    }
}

/// Counts the entry, and each event that could come before it, if that is wanted.
pub(crate) fn count_entry<A: Allocator>(
    counts: &mut Counts<A>,
    entry: &Entry,
    next: EventSet,
    wanted: bool,
)
    requires { IsTrue wanted → HasRoom counts.old.accepted.items counts.old.rejected.items counts.old.possible }
    ensures { IsTrue wanted → CountsEntry entry.now next
        counts.old.accepted.items counts.old.rejected.items counts.old.possible counts.new.accepted.items counts.new.rejected.items counts.new.possible }
{
    if !wanted {
        return;
    }
    count_report(counts, entry);
    counts.possible.add(next);
}

/// Appends the line of an event with these counts, as text.
#[tactic(auto, unfolding(crate::specs::Coverage::count_text))]
fn put_text_count<A: Allocator, B: Allocator>(
    text: &mut Vec<u8, B>,
    alphabet: &Alphabet<A>,
    event: Event,
    accepted: u64,
    rejected: u64,
    possible: u64,
) -> Result<(), AllocError>
    ensures { OnOk result (text.new.items ≡ text.old.items ++ count_text Format.Text alphabet.now event accepted rejected possible) }
{
    put_name(text, alphabet, event, Format::Text)?;
    put_marked(text, b" accepted ", accepted)?;
    put_marked(text, b" rejected ", rejected)?;
    put_marked(text, b" possible ", possible)?;
    text.extend_from_slice(b"\n")
}

/// The same as JSON.
#[tactic(auto, unfolding(crate::specs::Coverage::count_text))]
fn put_json_count<A: Allocator, B: Allocator>(
    text: &mut Vec<u8, B>,
    alphabet: &Alphabet<A>,
    event: Event,
    accepted: u64,
    rejected: u64,
    possible: u64,
) -> Result<(), AllocError>
    ensures { OnOk result (text.new.items ≡ text.old.items ++ count_text Format.Json alphabet.now event accepted rejected possible) }
{
    text.extend_from_slice(b"{\"event\":")?;
    put_name(text, alphabet, event, Format::Json)?;
    put_marked(text, b",\"accepted\":", accepted)?;
    put_marked(text, b",\"rejected\":", rejected)?;
    put_marked(text, b",\"possible\":", possible)?;
    text.extend_from_slice(b"}\n")
}

/// Appends the line of an event with these counts.
fn put_count<A: Allocator, B: Allocator>(
    text: &mut Vec<u8, B>,
    alphabet: &Alphabet<A>,
    event: Event,
    accepted: u64,
    rejected: u64,
    possible: u64,
    format: Format,
) -> Result<(), AllocError>
    ensures { OnOk result (text.new.items ≡ text.old.items ++ count_text format alphabet.now event accepted rejected possible) }
{
    match format {
        Format::Text => put_text_count(text, alphabet, event, accepted, rejected, possible),
        Format::Json => put_json_count(text, alphabet, event, accepted, rejected, possible),
    }
}

/// Appends the line of an event.
fn put_event<A: Allocator, B: Allocator>(
    text: &mut Vec<u8, B>,
    alphabet: &Alphabet<A>,
    counts: &Counts<B>,
    event: Event,
    format: Format,
) -> Result<(), AllocError>
    ensures { OnOk result (text.new.items ≡ text.old.items
        ++ count_text format alphabet.now event (count_at counts.now.accepted.items event) (count_at counts.now.rejected.items event) (tallied counts.now.possible event)) }
{
    let accepted = count_of(&counts.accepted, event);
    let rejected = count_of(&counts.rejected, event);
    let possible = counts.possible.count_of(event);
    put_count(text, alphabet, event, accepted, rejected, possible, format)
}

/// Appends a line for each event, and for tick.
fn put_events<A: Allocator, B: Allocator>(
    text: &mut Vec<u8, B>,
    alphabet: &Alphabet<A>,
    counts: &Counts<B>,
    format: Format,
) -> Result<(), AllocError>
    ensures { OnOk result (text.new.items ≡ text.old.items
        ++ coverage_lines (λ x. count_text format alphabet.now x (count_at counts.now.accepted.items x) (count_at counts.now.rejected.items x) (tallied counts.now.possible x)) (event_count alphabet.now)) }
{
    for number in 0..alphabet.len() {
        put_event(text, alphabet, counts, Event::Of(number as u8), format)?;
    }
    put_event(text, alphabet, counts, Event::Tick, format)
}

/// Whether the event never came though it could, or could never come.
fn is_absent<B: Allocator>(counts: &Counts<B>, possible: bool, event: Event) -> bool
    ensures { result ≡ is_absent possible (count_at counts.now.accepted.items event) (tallied counts.now.possible event) }
{
    let times = counts.possible.count_of(event);
    if possible {
        count_of(&counts.accepted, event) == 0 && times > 0
    } else {
        times == 0
    }
}

/// The events, of tick and so many others, that never came though they could, or that could never come.
fn absent<B: Allocator>(counts: &Counts<B>, possible: bool, events: usize) -> EventSet
    requires { events ≤ 256 }
    ensures { (x : Event) → member result x ≡ (is_below events x && is_absent possible (count_at counts.now.accepted.items x) (tallied counts.now.possible x)) }
{
    let mut set = EventSet::empty();
    if is_absent(counts, possible, Event::Tick) {
        set = set.with(Event::Tick);
    }
    for number in 0..events {
        if is_absent(counts, possible, Event::Of(number as u8)) {
            set = set.with(Event::Of(number as u8));
        }
    }
    set
}

/// Appends the last line as text: what never came, and what could never come.
#[tactic(auto, unfolding(crate::specs::Coverage::absent_text))]
fn put_text_absent<A: Allocator, B: Allocator>(
    text: &mut Vec<u8, B>,
    alphabet: &Alphabet<A>,
    never: EventSet,
    impossible: EventSet,
) -> Result<(), AllocError>
    ensures { OnOk result (text.new.items ≡ text.old.items ++ absent_text Format.Text alphabet.now never impossible) }
{
    text.extend_from_slice(b"never came:")?;
    put_listed(text, alphabet, never)?;
    text.extend_from_slice(b"; could never come:")?;
    put_listed(text, alphabet, impossible)?;
    text.extend_from_slice(b"\n")
}

/// The same as JSON.
#[tactic(auto, unfolding(crate::specs::Coverage::absent_text))]
fn put_json_absent<A: Allocator, B: Allocator>(
    text: &mut Vec<u8, B>,
    alphabet: &Alphabet<A>,
    never: EventSet,
    impossible: EventSet,
) -> Result<(), AllocError>
    ensures { OnOk result (text.new.items ≡ text.old.items ++ absent_text Format.Json alphabet.now never impossible) }
{
    text.extend_from_slice(b"{\"never_came\":")?;
    put_set(text, alphabet, never, Format::Json)?;
    text.extend_from_slice(b",\"could_never_come\":")?;
    put_set(text, alphabet, impossible, Format::Json)?;
    text.extend_from_slice(b"}\n")
}

/// Appends the last line: what never came, and what could never come.
fn put_absent<A: Allocator, B: Allocator>(
    text: &mut Vec<u8, B>,
    alphabet: &Alphabet<A>,
    never: EventSet,
    impossible: EventSet,
    format: Format,
) -> Result<(), AllocError>
    ensures { OnOk result (text.new.items ≡ text.old.items ++ absent_text format alphabet.now never impossible) }
{
    match format {
        Format::Text => put_text_absent(text, alphabet, never, impossible),
        Format::Json => put_json_absent(text, alphabet, never, impossible),
    }
}

/// Appends the coverage.
pub(crate) fn put_coverage<A: Allocator, B: Allocator>(
    text: &mut Vec<u8, B>,
    alphabet: &Alphabet<A>,
    counts: &Counts<B>,
    format: Format,
) -> Result<(), AllocError>
    ensures { (h : List entry_type) (nexts : List Set) → CountAll (event_count alphabet.now) h nexts counts.now.accepted.items counts.now.rejected.items counts.now.possible
        → OnOk result ((added : List ℕ) × IsCoverage format alphabet.now h nexts added × (text.new.items ≡ text.old.items ++ added)) }
{
    let never = absent(counts, true, alphabet.len());
    let impossible = absent(counts, false, alphabet.len());
    put_events(text, alphabet, counts, format)?;
    put_absent(text, alphabet, never, impossible, format)
}

//! Sets of events.

use alphabet::{Event, EventSet, Report};
use rows::{Output, first_word};

/// The event with this number, or tick for `T`.
fn event(word: &str) -> Option<Event> {
    match word.parse::<u8>() {
        Ok(number) => Some(Event::Of(number)),
        Err(_) if word == "T" => Some(Event::TICK),
        Err(_) => None,
    }
}

/// The set of the events that the words stand for.
fn set_of(words: &str) -> EventSet {
    let mut set = EventSet::empty();
    for word in words.split_whitespace() {
        if let Some(event) = event(word) {
            set = set.with(event);
        }
    }
    set
}

/// Appends an event's number, or `T`.
pub(crate) fn put_event(event: Event, out: &mut Output) {
    match event {
        Event::Of(number) => out.put_word(&number),
        Event::Tick => out.put(" T"),
    }
}

/// Appends a set's members in order.
pub(crate) fn put_set(set: &EventSet, out: &mut Output) {
    out.put(if set.is_empty() { " none" } else { "" });
    for event in set.iter() {
        put_event(event, out);
    }
}

/// Appends for each of the words whether its event is a member.
fn put_membership(set: &EventSet, words: &str, out: &mut Output) {
    for word in words.split_whitespace() {
        let event = event(word).unwrap_or(Event::TICK);
        out.put_answer(set.contains(event));
    }
}

/// Appends what comes of sets, where the row is of this kind.
pub(crate) fn play(row: &str, out: &mut Output) -> bool {
    let (kind, rest) = first_word(row);
    if !matches!(
        kind,
        "set" | "has" | "report" | "union" | "minus" | "within"
    ) {
        return false;
    }
    let (left, right) = rest.split_once(',').unwrap_or((rest, ""));
    let (one, other) = (set_of(left), set_of(right));
    out.put(kind);
    match kind {
        "set" => put_set(&one, out),
        "has" => put_membership(&one, right, out),
        "report" => {
            out.put(" ");
            out.put_debug(&Report::Refusal(one));
        }
        "union" => put_set(&one.union(other), out),
        "minus" => put_set(&one.minus(other), out),
        _ => out.put_answer(one.is_within(&other)),
    }
    true
}

//! What an alphabet tells of its events and channels.

ghost use Rattle.alphabet.specs.Channels.{IsEvent};

use crate::sets;
use alphabet::{Alphabet, Event, EventSet, Value, is_name};
use rows::{Output, first_word, number_of};
use std::alloc::{Allocator, Global};

/// More places than an alphabet has.
const PLACES: usize = 300;

/// More fields than a channel of a row has.
const FIELDS: usize = 8;

/// Appends the values of the event's fields.
fn put_values(alphabet: &Alphabet<Global>, event: Event, out: &mut Output)
    requires { IsEvent alphabet.now event }
{
    for field in 0..FIELDS {
        match alphabet.value(event, field) {
            Some(Value::Number(number)) => out.put_word(number),
            Some(Value::Name(name)) => {
                out.put(" ");
                out.put_bytes(name);
            }
            None => {}
        }
    }
    out.put(";");
}

/// Appends the number of the event's channel and its place there, and `?` where another event is found by them.
fn put_channel(alphabet: &Alphabet<Global>, event: Event, out: &mut Output)
    requires { IsEvent alphabet.now event }
{
    if let Some((channel, place)) = alphabet.channel_of(event) {
        let is_found = alphabet.event_at(channel, place) == Some(event);
        out.put_word(&channel);
        out.put_word(&place);
        out.put(if is_found { ":" } else { "?" });
    }
}

/// Appends the event's name and its place, and `?` where another event is found by one of them.
fn put_name(alphabet: &Alphabet<Global>, event: Event, out: &mut Output)
    requires { IsEvent alphabet.now event }
{
    let mut name = out.copy_of(b"");
    if alphabet.name_into(event, &mut name).is_err() {
        out.is_cut = true;
    }
    let place = alphabet.place(event);
    let is_found = alphabet.event(&name) == Some(event) && alphabet.at(place) == Some(event);
    out.put(" ");
    out.put_bytes(&name);
    out.put_word(&place);
    out.put(if is_found { "" } else { "?" });
}

/// Appends each event in alphabet order: its name, its place, its channel and its values.
fn put_names(alphabet: &Alphabet<Global>, out: &mut Output) {
    for place in 0..PLACES {
        if let Some(event) = alphabet.at(place) {
            put_name(alphabet, event, out);
            put_channel(alphabet, event, out);
            put_values(alphabet, event, out);
        }
    }
}

/// Appends the places of the events with these names, and `no` for a name of none; with `yes` where the place leads back to the event.
pub(crate) fn put_places<A: Allocator>(
    alphabet: &Alphabet<A>,
    names: &str,
    shows_back: bool,
    out: &mut Output,
) {
    for name in names.split(' ') {
        match alphabet.event(name.as_bytes()) {
            Some(event) => {
                let place = alphabet.place(event);
                out.put_word(&place);
                if shows_back {
                    out.put_answer(alphabet.at(place) == Some(event));
                }
            }
            None => out.put_answer(false),
        }
    }
}

/// Appends the channels with how many fields each has, and how many events there are.
pub(crate) fn put_channels<A: Allocator>(alphabet: &Alphabet<A>, out: &mut Output) {
    for index in 0..PLACES {
        if let Some((name, fields)) = alphabet.channel(index) {
            out.put(" ");
            out.put_bytes(name);
            out.put_word(&fields.len());
            out.put(";");
        }
    }
    out.put_word(&alphabet.channels());
    out.put_word(&alphabet.len());
    out.put_answer(alphabet.is_empty());
}

/// Appends the event with this place in this channel.
fn put_event_at(alphabet: &Alphabet<Global>, words: &str, out: &mut Output) {
    let (channel, place) = first_word(words);
    match alphabet.event_at(number_of(channel) as usize, number_of(place) as usize) {
        Some(event) => sets::put_event(event, out),
        None => out.put(" none"),
    }
}

/// Appends what comes of the script's alphabet.
pub(crate) fn put(kind: &str, words: &str, alphabet: &Alphabet<Global>, out: &mut Output) {
    match kind {
        "names" => put_names(alphabet, out),
        "events" => put_places(alphabet, words, false, out),
        "channels" => put_channels(alphabet, out),
        "event_at" => put_event_at(alphabet, words, out),
        "sigma" => sets::put_set(&EventSet::all(alphabet), out),
        _ => out.put(" no such kind of row"),
    }
}

/// Appends for each of the words whether it is a name of the language, where the row is of this kind.
pub(crate) fn play(row: &str, out: &mut Output) -> bool {
    let (kind, words) = first_word(row);
    if kind != "is_name" {
        return false;
    }
    out.put(kind);
    for word in words.split(',') {
        out.put_answer(is_name(word.as_bytes()));
    }
    true
}

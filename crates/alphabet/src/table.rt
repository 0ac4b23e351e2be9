//! Alphabets: channels with fields, and the numbered names of their events.

ghost use Rattle.std.specs.Prelude.{◌≡◌, false, map, Err, ℕ, ◌+◌, ◌<◌, ◌≤◌, ◌↔◌, ◌++◌, [], ◌∷◌, length, IsSome, IfSome, IfOk, OnOk, OnErr, IsTrue, Some, slice_get, vec_len, vec_capacity, nat_lt, take, leb};
ghost use Rattle.alphabet.specs.Events.{Event, ev};
ghost use Rattle.alphabet.specs.EventSets.{member};
ghost use Rattle.std.specs.List.{list_all};
ghost use Rattle.alphabet.specs.Names.{is_name};
ghost use Rattle.alphabet.specs.Channels.{event_count, event_text, name_of, place_of, IsEvent, IsAlphabet, choices, is_field, is_declared, are_apart};
ghost use Rattle.alphabet.specs.EventParts.{parts_of, parts_at, value_in};
ghost use Rattle.alphabet.specs.Stored.{value_of, field_of, channel_of};

use crate::alphabet_error::AlphabetError;
use crate::events::Event;
use crate::field_value::{Field, Value, clone_fields};
use crate::naming::{add_names, chosen, event_total};
use indexmap::{IndexMap, IndexSet};
use std::alloc::{AllocError, Allocator};
use std::hash::{BuildHasherDefault, FoldHasher};
use std::marker::Model;

pub type Hashing = BuildHasherDefault<FoldHasher>;

/// The most events that an alphabet has, tick not counted.
pub const SIGMA_LIMIT: usize = 256;

/// How reports write termination.
const TICK_NAME: &[u8] = b"_tick";

/// Channels with fields, and their events, numbered in alphabet order: channels as declared, then
/// fields place by place in their order, tick last.
#[derive(Drop)]
pub struct Alphabet<A: Allocator> {
    /// The channels as declared, each with its fields.
    channels: IndexMap<Vec<u8, A>, Vec<Field<A>, A>, Hashing, A>,
    /// The names of the events, each at its number.
    names: IndexSet<Vec<u8, A>, Hashing, A>,
    /// For each channel the number of its first event.
    firsts: Vec<usize, A>,
}

impl<A: Allocator> Model for Alphabet<A> {
    ghost use Rattle.std.specs.Prelude.{List, map};
    ghost use Rattle.alphabet.specs.Channels.{Channel, IsAlphabet};

    ghost Value = { List Channel };

    ghost use Rattle.alphabet.specs.Tables.{declared_channels, stored_names, HasTables};

    ghost view = { λ a. declared_channels a.channels.entries };

    ghost invariant = { λ a. HasTables (declared_channels a.channels.entries) (stored_names a.names.keys) a.firsts.items };
}

impl<A: Allocator + Copy> Alphabet<A> {
    /// An alphabet without channels. Takes no memory. Constant cost.
    pub fn new(alloc: A) -> Alphabet<A>
        ensures { result ≡ [] }
    {
        Alphabet {
            channels: IndexMap::new(alloc),
            names: IndexSet::new(alloc),
            firsts: Vec::new(alloc),
        }
    }
}

impl<A: Allocator> Alphabet<A> {
    /// How many events there are, tick not counted. Constant cost.
    pub fn len(&self) -> usize
        ensures count { result ≡ event_count self.now }
        ensures limit { result ≤ 256 }
    {
        self.names.len()
    }

    /// Whether there are no events, tick not counted. Constant cost.
    pub fn is_empty(&self) -> bool
        ensures { IsTrue result ↔ (event_count self.now ≡ 0) }
    {
        self.names.is_empty()
    }

    /// How many channels there are. Constant cost.
    pub fn channels(&self) -> usize
        ensures count { result ≡ length self.now }
        ensures sound { IsAlphabet self.now }
    {
        self.channels.len()
    }

    /// The event with this name. Only the exact name of an event serves, and `_tick` for termination. Costs the
    /// name's length, and one look-up by its hash. Takes no memory.
    pub fn event(&self, name: &[u8]) -> Option<Event>
        ensures { (x : Event) → (result ≡ Some x) ↔ (IsEvent self.now x × (name_of self.now x ≡ name.now)) }
    {
        let names = &self.names;
        if name == TICK_NAME {
            return Some(Event::Tick);
        }
        match names.get_index_of(name) {
            None => None,
            Some(number) => Some(Event::Of(number as u8)),
        }
    }

    /// Appends the event's name, or leaves what was there where its memory is refused. The event is one of the alphabet's,
    /// or tick. Costs the name's length.
    pub fn name_into<B: Allocator>(
        &self,
        event: Event,
        into: &mut Vec<u8, B>,
    ) -> Result<(), AllocError>
        requires { IsEvent self.now event }
        ensures appended { OnOk result (into.new.items ≡ into.old.items ++ name_of self.now event) }
        ensures unchanged { OnErr result (into.new.items ≡ into.old.items) }
        ensures full { OnErr result (vec_capacity into.old < vec_len into.old + length (name_of self.now event)) }
    {
        match event {
            Event::Tick => into.extend_from_slice(TICK_NAME),
            Event::Of(number) => into.extend_from_slice(&self.names[number as usize]),
        }
    }

    /// The event at this place. Places count from 1 in alphabet order, and tick's is after the last event's. Constant cost.
    pub fn at(&self, place: usize) -> Option<Event>
        ensures { (x : Event) → (result ≡ Some x) ↔ (IsEvent self.now x × (place_of self.now x ≡ place)) }
    {
        let count = self.len();
        if place == 0 || place > count + 1 {
            return None;
        }
        if place > count {
            return Some(Event::Tick);
        }
        Some(Event::Of((place - 1) as u8))
    }

    /// The event's place. The event is one of the alphabet's, or tick. Constant cost.
    pub fn place(&self, event: Event) -> usize
        requires { IsEvent self.now event }
        ensures { result ≡ place_of self.now event }
    {
        match event {
            Event::Tick => self.len() + 1,
            Event::Of(number) => number as usize + 1,
        }
    }

    /// The channel declared at this place, counted from 0: its name and its fields. Constant cost.
    pub fn channel(&self, index: usize) -> Option<(&[u8], &[Field<A>])>
        ensures found { IsSome result ↔ (index < length self.now) }
        ensures value { IfSome result (λ c. slice_get self.now index ≡ Some (channel_of c.0.now c.1.now)) }
    {
        let (name, fields) = self.channels.get_index(index)?;
        Some((name.as_slice(), fields.as_slice()))
    }

    /// How many events the channels before this one have, which is the number of its first event.
    fn first_of(&self, channel: usize) -> usize
        ensures { result ≡ event_count (take channel self.now) }
    {
        match self.firsts.get(channel) {
            Some(first) => *first,
            None => self.len(),
        }
    }

    /// The number of the channel that has the event with this number.
    fn holder(&self, number: usize) -> usize
        requires { number < event_count self.now }
        ensures there { result < length self.now }
        ensures first { event_count (take result self.now) ≤ number }
        ensures next { number < event_count (take (result + 1) self.now) }
    {
        let begun = self.firsts.as_slice().partition_point(
            |first: &usize| -> bool
                ensures { result ≡ leb first.now number }
            { *first <= number },
        );
        begun - 1
    }

    /// Where the event stands: the number of its channel, and its place among that channel's events, both counted from 0;
    /// nothing for tick. The event is one of the alphabet's, or tick. Costs a search by halves in the channels.
    pub fn channel_of(&self, event: Event) -> Option<(usize, usize)>
        requires { IsEvent self.now event }
        ensures found { IsSome result ↔ IsSome (parts_of self.now event) }
        ensures parts { IfSome result (λ at. parts_at self.now at.0 at.1 ≡ parts_of self.now event) }
        ensures text { IfSome (parts_of self.now event) (λ p. name_of self.now event ≡ event_text p) }
    {
        match event {
            Event::Tick => None,
            Event::Of(number) => {
                let number = number as usize;
                let channel = self.holder(number);
                Some((channel, number - self.first_of(channel)))
            }
        }
    }

    /// The event at this place among the events of this channel, both counted from 0. Constant cost.
    pub fn event_at(&self, channel: usize, place: usize) -> Option<Event>
        ensures found { IsSome result ↔ IsSome (parts_at self.now channel place) }
        ensures parts { IfSome result (λ e. parts_of self.now e ≡ parts_at self.now channel place) }
        ensures number { IfSome result (λ e. e ≡ ev (event_count (take channel self.now) + place)) }
    {
        if channel >= self.channels.len() {
            return None;
        }
        let first = self.first_of(channel);
        if place >= self.first_of(channel + 1) - first {
            return None;
        }
        Some(Event::Of((first + place) as u8))
    }

    /// The value that the event has in this field, counted from 0; nothing where its channel has no such field, and for
    /// tick. The event is one of the alphabet's, or tick. Costs a search by halves in the channels, and two turns for each
    /// of the channel's fields at most.
    pub fn value(&self, event: Event, field: usize) -> Option<&Value<A>>
        requires { IsEvent self.now event }
        ensures found { IsSome result ↔ IsSome (value_in self.now event field) }
        ensures value { IfSome result (λ v. value_in self.now event field ≡ Some (value_of v.now)) }
    {
        let (channel, place) = self.channel_of(event)?;
        let (_, fields) = self.channels.get_index(channel)?;
        chosen(fields, event_total(fields), place, field)
    }
}

impl<A: Allocator + Copy> Alphabet<A> {
    /// Declares a channel: all its events come after those that are there. The fields' values are in order and none
    /// twice, the names are names of the language, and no constant has a channel's name.
    ///
    /// Answers `Redeclared` where a channel has the name, else `TooManyEvents` where there would be more than 256 events,
    /// else `Memory` where a growth is refused; the alphabet is then as before. Costs a copy of the fields, and for each
    /// new event its name's length and one look-up; a refusal as `TooManyEvents` costs one product for each field.
    pub fn declare(&mut self, channel: &[u8], fields: &[Field<A>]) -> Result<(), AlphabetError>
        requires named { IsTrue (is_name channel.now) }
        requires in_order { IsTrue (list_all is_field (map field_of fields.now)) }
        requires apart { IsTrue (are_apart (self.old ++ channel_of channel.now fields.now ∷ [])) }
        ensures declared { OnOk result (self.new ≡ self.old ++ channel_of channel.now fields.now ∷ []) }
        ensures unchanged { OnErr result (self.new ≡ self.old) }
        ensures redeclared { (result ≡ Err AlphabetError.Redeclared) ↔ IsTrue (is_declared self.old channel.now) }
        ensures too_many { (result ≡ Err AlphabetError.TooManyEvents)
            ↔ ((is_declared self.old channel.now ≡ false) × (256 < event_count (self.old ++ channel_of channel.now fields.now ∷ []))) }
    {
        if self.channels.contains_key(channel) {
            return Err(AlphabetError::Redeclared);
        }
        let total = event_total(fields);
        if total > SIGMA_LIMIT - self.names.len() {
            return Err(AlphabetError::TooManyEvents);
        }
        match self.enter(channel, fields, total) {
            Ok(()) => Ok(()),
            Err(_) => Err(AlphabetError::Memory),
        }
    }

    /// Enters a new channel, whose `total` events fit.
    fn enter(&mut self, channel: &[u8], fields: &[Field<A>], total: usize) -> Result<(), AllocError>
        requires named { IsTrue (is_name channel.now) }
        requires fresh { is_declared self.old channel.now ≡ false }
        requires in_order { IsTrue (list_all is_field (map field_of fields.now)) }
        requires apart { IsTrue (are_apart (self.old ++ channel_of channel.now fields.now ∷ [])) }
        requires all { total ≡ length (choices (map field_of fields.now)) }
        requires small { event_count self.old + total ≤ 256 }
        ensures declared { OnOk result (self.new ≡ self.old ++ channel_of channel.now fields.now ∷ []) }
        ensures unchanged { OnErr result (self.new ≡ self.old) }
    {
        let alloc = *self.names.allocator();
        let name = Vec::from_slice(alloc, channel)?;
        let copies = clone_fields(fields, alloc)?;
        self.channels.reserve(1)?;
        self.firsts.reserve(1)?;
        let first = self.names.len();
        add_names(&mut self.names, channel, fields, total)?;
        let _entered = self.channels.insert(name, copies);
        let _begun = self.firsts.push(first);
        Ok(())
    }
}

//! Sets of events.

ghost use Rattle.std.specs.Prelude.{◌≡◌, ◌↔◌, ◌&&◌, ◌||◌, not, true, false, IsTrue, nat_eq, MatchOption};
ghost use Rattle.std.specs.Iterator.{YieldsFirst, item_count};
ghost use Rattle.std.specs.Cmp.Rules.{comparing, hashing};
ghost use Rattle.std.proofs.Common.{rules};
ghost use Rattle.alphabet.specs.Events.{Event, ev, is_event, is_numbered_below};
ghost use Rattle.alphabet.specs.Channels.{event_count};
ghost use Rattle.alphabet.specs.EventSets.{member, members, IsFirst};

use crate::events::Event;
use crate::half::Half;
use crate::table::Alphabet;
use std::alloc::Allocator;
use std::fmt;
use std::hash::{Hash, Hasher};
use std::marker::Model;

/// A set of events and tick. It takes no memory beside itself, and no call on it does.
#[derive(Clone, Copy)]
pub struct EventSet {
    /// The events with numbers from 0 to 127, a bit for each.
    low: Half,
    /// The events with numbers from 128 to 255.
    high: Half,
    tick: bool,
}

impl Model for EventSet {
    ghost use Rattle.std.specs.Prelude.{ℕ, ◌+◌, ◌*◌, ◌/◌, ◌%◌, ◌^◌, ◌<◌, cond, nat_eq};

    ghost Value = { ℕ };

    ghost view = { λ s. (s.high * 2 ^ 128 + s.low) * 2 ^ 1 + cond s.tick 1 0 };

    ghost invariant = { λ s. (s.low < 2 ^ 128) × (s.high < 2 ^ 128) };

    ghost inverse = { λ n. record { low = n / 2 % 2 ^ 128; high = n / 2 / 2 ^ 128; tick = nat_eq (n % 2) 1 } };
}

impl EventSet {
    /// The set of nothing. Constant cost.
    pub fn empty() -> EventSet
        ensures { (x : Event) → member result x ≡ false }
    {
        EventSet {
            low: Half::of(0),
            high: Half::of(0),
            tick: false,
        }
    }

    /// Sigma: all events of the alphabet, without tick. Costs a turn for each event.
    pub fn all<A: Allocator>(alphabet: &Alphabet<A>) -> EventSet
        ensures { (x : Event) → member result x ≡ is_numbered_below (event_count alphabet.now) x }
    {
        let mut set = EventSet::empty();
        for number in 0..alphabet.len() {
            set = set.with(Event::Of(number as u8));
        }
        set
    }

    /// Whether the event is in the set. Constant cost.
    pub fn contains(&self, event: Event) -> bool
        ensures { result ≡ member self.now event }
    {
        match event {
            Event::Tick => self.tick,
            Event::Of(number) => {
                if number < 128 {
                    (self.low.bits() >> number) & 1 == 1
                } else {
                    (self.high.bits() >> (number - 128)) & 1 == 1
                }
            }
        }
    }

    /// The set and this event. Constant cost.
    pub fn with(self, event: Event) -> EventSet
        ensures { (x : Event) → member result x ≡ (is_event event x || member self x) }
    {
        match event {
            Event::Tick => EventSet {
                low: self.low,
                high: self.high,
                tick: true,
            },
            Event::Of(number) => self.with_number(number),
        }
    }

    /// The set and the event of Sigma with this number.
    fn with_number(self, number: u8) -> EventSet
        ensures { (x : Event) → member result x ≡ (is_event (ev number) x || member self x) }
    {
        if number < 128 {
            return EventSet {
                low: Half::of(self.low.bits() | (1 << number)),
                high: self.high,
                tick: self.tick,
            };
        }
        EventSet {
            low: self.low,
            high: Half::of(self.high.bits() | (1 << (number - 128))),
            tick: self.tick,
        }
    }

    /// What is in either set. Constant cost.
    pub fn union(self, other: EventSet) -> EventSet
        ensures { (x : Event) → member result x ≡ (member self x || member other x) }
    {
        EventSet {
            low: Half::of(self.low.bits() | other.low.bits()),
            high: Half::of(self.high.bits() | other.high.bits()),
            tick: self.tick | other.tick,
        }
    }

    /// What is in this set and not in the other. Constant cost.
    pub fn minus(self, other: EventSet) -> EventSet
        ensures { (x : Event) → member result x ≡ (member self x && not (member other x)) }
    {
        EventSet {
            low: Half::of(self.low.bits() & !other.low.bits()),
            high: Half::of(self.high.bits() & !other.high.bits()),
            tick: self.tick & !other.tick,
        }
    }

    /// Whether nothing is in the set. Constant cost.
    pub fn is_empty(&self) -> bool
        ensures { IsTrue result ↔ ((x : Event) → member self.now x ≡ false) }
    {
        *self == EventSet::empty()
    }

    /// Whether all of this set is in the other. Constant cost.
    pub fn is_within(&self, other: &EventSet) -> bool
        ensures { IsTrue result ↔ ((x : Event) → IsTrue (member self.now x) → IsTrue (member other.now x)) }
    {
        self.minus(*other).is_empty()
    }

    /// The members in alphabet order: the events by their numbers, and then tick. Constant cost; so has each next member.
    pub fn iter(&self) -> Members
        ensures { result ≡ self.now }
    {
        Members { left: *self }
    }

    /// The first of the members.
    fn first(&self) -> Option<Event>
        ensures { MatchOption result ((x : Event) → member self.now x ≡ false) (IsFirst self.now) }
    {
        let (low, high) = (self.low.bits(), self.high.bits());
        if low != 0 {
            return Some(Event::Of(low.trailing_zeros() as u8));
        }
        if high != 0 {
            return Some(Event::Of((128 + high.trailing_zeros()) as u8));
        }
        self.tick.then_some(Event::Tick)
    }
}

impl PartialEq for EventSet {
    ghost eq = { nat_eq };

    ghost laws = { Prim.search (comparing, rules) };

    fn eq(&self, other: &EventSet) -> bool {
        self.low.bits() == other.low.bits()
            && self.high.bits() == other.high.bits()
            && self.tick == other.tick
    }
}

impl Eq for EventSet {
    ghost laws = { Prim.search rules };
}

impl Hash for EventSet {
    ghost use Rattle.std.specs.Prelude.{◌++◌, ◌/◌, ◌%◌, ◌^◌};
    ghost use Rattle.std.specs.Hash as fed;

    ghost hash_input = { λ s. fed.u128 (s / 2 % 2 ^ 128) ++ (fed.u128 (s / 2 / 2 ^ 128) ++ fed.u8 (s % 2)) };

    ghost respects_eq = { Prim.search (hashing, rules) };

    fn hash<H: Hasher>(&self, state: &mut H) {
        state.write_u128(self.low.bits());
        state.write_u128(self.high.bits());
        state.write_u8(self.tick as u8);
    }
}

/// The members of a set in alphabet order, tick last.
#[derive(Clone, Copy, Debug)]
pub struct Members {
    left: EventSet,
}

impl Model for Members {
    ghost use Rattle.std.specs.Prelude.{ℕ};

    ghost Value = { ℕ };

    ghost view = { λ m. m.left };

    ghost inverse = { λ n. record { left = n } };
}

impl Iterator for Members {
    type Item = Event;

    ghost next_gives = { YieldsFirst members };

    ghost remaining = { item_count members };

    fn next(&mut self) -> Option<Event> {
        match self.left.first() {
            None => None,
            Some(event) => {
                self.left = self.left.minus(EventSet::empty().with(event));
                Some(event)
            }
        }
    }
}

impl fmt::Debug for EventSet {
    fn fmt<W: fmt::Write>(&self, f: &mut fmt::Formatter<W>) -> fmt::Result {
        f.debug_set().entries(self.iter()).finish()
    }
}

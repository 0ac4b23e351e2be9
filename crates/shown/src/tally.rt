//! Counts of sets of events, for all events at once.

ghost use Rattle.std.specs.Prelude.{◌≡◌, ◌+◌, ◌<◌, ◌^◌, cond, length, IfOk};
ghost use Rattle.alphabet.specs.declared.events.Event.{Event};
ghost use Rattle.alphabet.specs.EventSets.{member};
ghost use Rattle.shown.specs.Tallies.{tallied};

use alphabet::{Event, EventSet};
use std::alloc::{AllocError, Allocator};
use std::marker::Model;

/// How many binary digits a count has.
const DIGITS: usize = 63;

/// In how many of the sets that were added each event is. For each binary digit, the lowest first, it has the events in whose
/// count that digit is 1.
#[derive(Drop)]
pub(crate) struct Tally<A: Allocator> {
    digits: Vec<EventSet, A>,
}

impl<A: Allocator> Model for Tally<A> {
    ghost use Rattle.std.specs.Prelude.{List};
    ghost use Rattle.alphabet.specs.EventSets.{Set};

    ghost Value = { List Set };

    ghost use Rattle.std.specs.Prelude.{◌≡◌, length};

    ghost view = { λ t. t.digits.items };

    ghost invariant = { λ t. length t.digits.items ≡ 63 };
}

impl<A: Allocator> Tally<A> {
    /// A tally of no sets.
    pub(crate) fn new(alloc: A) -> Result<Tally<A>, AllocError>
        ensures { IfOk result (λ tally. (x : Event) → tallied tally x ≡ 0) }
    {
        let mut digits = Vec::new(alloc);
        digits.resize(DIGITS, EventSet::empty())?;
        Ok(Tally { digits })
    }

    /// Counts each event of the set once more. Costs a step for each digit that changes.
    pub(crate) fn add(&mut self, set: EventSet)
        requires { (x : Event) → tallied self.old x < 2 ^ 62 }
        ensures { (x : Event) → tallied self.new x ≡ tallied self.old x + cond (member set x) 1 0 }
    {
        add_to(&mut self.digits, set);
    }

    /// How often the event was counted.
    pub(crate) fn count_of(&self, event: Event) -> u64
        ensures { result ≡ tallied self.now event }
    {
        number_of(&self.digits, event)
    }
}

/// Adds 1 to the number of each event of the set.
fn add_to(digits: &mut [EventSet], set: EventSet)
    requires { (x : Event) → tallied digits.old x + 1 < 2 ^ length digits.old }
    ensures length { length digits.new ≡ length digits.old }
    ensures each { (x : Event) → tallied digits.new x ≡ tallied digits.old x + cond (member set x) 1 0 }
{
    let mut carry = set;
    for index in 0..digits.len() {
        if carry.is_empty() {
            return;
        }
        let digit = digits[index];
        digits[index] = digit.minus(carry).union(carry.minus(digit));
        carry = carry.minus(carry.minus(digit));
    }
}

/// What the digit at this index adds to a number.
fn worth(digit: bool, index: usize) -> u64
    requires { index < 64 }
    ensures { result ≡ cond digit (2 ^ index) 0 }
{
    if digit { 1 << index } else { 0 }
}

/// The number of the event.
fn number_of(digits: &[EventSet], event: Event) -> u64
    requires { length digits.now < 64 }
    ensures { result ≡ tallied digits.now event }
{
    let mut number = 0;
    for index in 0..digits.len() {
        number += worth(digits[index].contains(event), index);
    }
    number
}

//! Sets of the events that begin alike.
ghost use Rattle.std.specs.Prelude.{◌≡◌, ◌<◌, ◌≤◌, IfSome, length, map};
ghost use Rattle.event_phrases.specs.Events.{at_number, begins_so as begins_so_with, set_below, number_in};
ghost use Rattle.event_phrases.specs.View.{beginning, row};

use crate::row::{Row, begins_so, is_row};
use alphabet::{Event, EventSet};
use std::alloc::Allocator;

/// The events that begin so. Costs a turn for each event.
#[tactic(auto, using(crate::proofs::EventNumbers::none_below, crate::proofs::EventNumbers::one_more, crate::proofs::EventNumbers::no_more))]
pub(crate) fn beginning_so<A: Allocator>(events: &[Row<A>], first: &Row<A>) -> EventSet
    requires { length events.now ≤ 256 }
    ensures { result ≡ set_below (length events.now) (at_number (begins_so_with (beginning first.now)) (map row events.now)) }
{
    let mut set = EventSet::empty();
    for (number, event) in events.iter().enumerate() {
        if begins_so(first, event) {
            set = set.with(Event::Of(number as u8));
        }
    }
    set
}

/// The number of the event with this channel and these values.
pub(crate) fn number_of<A: Allocator>(events: &[Row<A>], wanted: &Row<A>) -> Option<usize>
    ensures number { result ≡ number_in (map row events.now) (beginning wanted.now) }
    ensures below { IfSome result (λ n. n < length events.now) }
{
    for (number, event) in events.iter().enumerate() {
        if is_row(wanted, event) {
            return Some(number);
        }
    }
    None
}

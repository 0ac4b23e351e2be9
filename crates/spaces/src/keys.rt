//! Numbers for sets with events.

ghost use Rattle.std.specs.Prelude.{◌≡◌, ◌<◌};
ghost use Rattle.tau_closures.specs.Label.TheVariants as label;
ghost use Rattle.tau_closures.specs.Memory.{IsSmall, key, label_code};

use crate::states::StateSet;
use alphabet::Event;

/// A number for a set and an event: different for different ones.
pub(crate) fn key_of(set: StateSet, event: Event) -> u64
    ensures key { result ≡ key set (label.Event event) }
    ensures small { IsSmall (label.Event event) }
{
    u64::from(set.number()) * 512 + code_of(event)
}

/// A number for an event: different for different ones.
fn code_of(event: Event) -> u64
    ensures code { result ≡ label_code (label.Event event) }
    ensures few { result < 512 }
    ensures small { IsSmall (label.Event event) }
{
    match event {
        Event::Tick => 256,
        Event::Of(event) => u64::from(event),
    }
}

//! Numbers for processes with labels.

ghost use Rattle.std.specs.Prelude.{◌≡◌, ◌<◌};
ghost use Rattle.transitions.specs.Memory.{IsSmall, key, label_code};

use alphabet::Event;
use targets::Label;

/// A number for a process's number and a label: different for different ones.
pub(crate) fn key_of(number: u32, label: Label) -> u64
    ensures key { result ≡ key number label }
    ensures small { IsSmall label }
{
    u64::from(number) * 512 + code_of(label)
}

/// A number for a label: different for different ones.
fn code_of(label: Label) -> u64
    ensures code { result ≡ label_code label }
    ensures few { result < 512 }
    ensures small { IsSmall label }
{
    match label {
        Label::Tau => 257,
        Label::Event(Event::Tick) => 256,
        Label::Event(Event::Of(event)) => u64::from(event),
    }
}

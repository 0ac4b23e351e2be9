//! What came of a connection.

ghost use Rattle.std.specs.Prelude.{◌≡◌, ◌+◌, ◌<◌, ◌≤◌, ◌++◌, [], ◌∷◌, length, map, vec_capacity};
ghost use Rattle.connections.specs.Outcomes.{ending_of, places_of};

use crate::gate::Over;
use std::alloc::Global;
use wire::{End, Fault, Tally, WireError};

/// What came of a connection.
#[derive(Drop)]
pub enum Outcome<P> {
    /// It was served to its end.
    Over(Over<P>),
    /// There was no place for it. It was sent this fault and closed.
    Refused(Fault),
    /// No thread could be started for it. It was closed without a reply, and its place is lost.
    NotStarted,
}

/// How a connection ended.
#[derive(Clone, Copy, Debug, PartialEq, Eq)]
pub enum Ending {
    /// It was served to its end, which was this, and there was this among its answers.
    Served(Result<End, WireError>, Tally),
    /// There was no place for it. It was sent this fault and closed.
    Refused(Fault),
    /// No thread could be started for it. It was closed without a reply.
    NotStarted,
}

// How a connection ended. The place that it was served at comes to the places.
fn part_one<P: Drop>(outcome: Outcome<P>, places: &mut Vec<P, Global>) -> Ending
    requires { length places.old.items < vec_capacity places.old }
    ensures ending { result ≡ ending_of outcome }
    ensures places { places.new.items ≡ places.old.items ++ places_of (outcome ∷ []) }
    ensures len { length places.new.items ≤ length places.old.items + 1 }
    ensures capacity { vec_capacity places.new ≡ vec_capacity places.old }
{
    match outcome {
        Outcome::Over(Over { place, end, tally }) => {
            places.push_reserved(place);
            Ending::Served(end, tally)
        }
        Outcome::Refused(fault) => Ending::Refused(fault),
        Outcome::NotStarted => Ending::NotStarted,
    }
}

/// Parts what came of connections: how each ended comes to the endings, and the places that they were served at come to the places,
/// in their order. There is room in both.
pub fn part<P: Drop>(
    outcomes: Vec<Outcome<P>, Global>,
    places: &mut Vec<P, Global>,
    endings: &mut Vec<Ending, Global>,
)
    requires places { length places.old.items + length outcomes.items ≤ vec_capacity places.old }
    requires endings { length endings.old.items + length outcomes.items ≤ vec_capacity endings.old }
    ensures places { places.new.items ≡ places.old.items ++ places_of outcomes.items }
    ensures endings { endings.new.items ≡ endings.old.items ++ map ending_of outcomes.items }
{
    for outcome in outcomes {
        endings.push_reserved(part_one(outcome, places));
    }
}

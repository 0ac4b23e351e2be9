//! The places for which seats wait.

ghost use Rattle.std.specs.Prelude.{◌≡◌, ◌≢◌, ◌≤◌, ◌<◌, ℕ, None, IfSome, length, slice_index_or, slice_set};
ghost use Rattle.locked.specs.Waits.{first_place};

use std::marker::Model;

/// For each of so many seats the place from which on it waits for its entries to be settled, and 0 where it waits for none.
#[derive(Drop)]
pub struct Waiting {
    places: [u64; 64],
}

impl Model for Waiting {
    ghost use Rattle.std.specs.Prelude.{ℕ, List};

    ghost Value = { List ℕ };

    ghost view = { λ w. w.places };
}

impl Waiting {
    /// No seat waits.
    pub fn new() -> Waiting {
        Waiting { places: [0; 64] }
    }

    /// Waits for this place, by the number that is answered. `None` where as many wait already as there are numbers.
    pub fn add(&mut self, place: u64) -> Option<usize>
        ensures number { IfSome result (λ k. (k < 64) × (slice_index_or self.old k 0 ≡ 0) × (self.new ≡ slice_set self.old k place)) }
        ensures none { result ≡ None → self.new ≡ self.old }
        ensures full { result ≡ None → (k : ℕ) → k < 64 → slice_index_or self.old k 0 ≢ 0 }
    {
        match free(&self.places) {
            Some(number) => {
                self.places[number] = place;
                Some(number)
            }
            None => None,
        }
    }

    /// Waits by this number no more.
    pub fn end(&mut self, number: usize)
        requires { number < 64 }
        ensures { self.new ≡ slice_set self.old number 0 }
    {
        self.places[number] = 0;
    }

    /// The least of this place and those that are waited for.
    pub fn first(&self, place: u64) -> u64
        ensures least { result ≡ first_place place self.now }
        ensures small { result ≤ place }
    {
        least(place, &self.places)
    }
}

/// The first number that is in no use.
fn free(places: &[u64]) -> Option<usize>
    ensures number { IfSome result (λ k. (k < length places.now) × (slice_index_or places.now k 0 ≡ 0)) }
    ensures full { result ≡ None → (k : ℕ) → k < length places.now → slice_index_or places.now k 0 ≢ 0 }
{
    for number in 0..places.len() {
        if places[number] == 0 {
            return Some(number);
        }
    }
    None
}

/// The least of this place and those that aren't 0.
fn least(place: u64, places: &[u64]) -> u64
    ensures least { result ≡ first_place place places.now }
    ensures small { result ≤ place }
{
    match places {
        [] => place,
        [waited, others @ ..] => {
            if *waited == 0 {
                least(place, others)
            } else {
                least(place.min(*waited), others)
            }
        }
    }
}

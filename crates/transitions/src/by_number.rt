//! Lists of numbers by number.

ghost use Rattle.std.specs.Prelude.{◌≡◌, ◌<◌, [], None, OnOk, get_or, length, option_map};
ghost use Rattle.transitions.specs.Lists.{KeepsPlaces, MayHaveAt};

use std::alloc::{AllocError, Allocator};
use std::marker::Model;

/// Lists of numbers by number. All are parts of one list, so each costs its numbers and two words; so does each number below the
/// greatest that has a list.
#[derive(Drop)]
pub(crate) struct ListsByNumber<A: Allocator> {
    // From where to where each number's list stands in `numbers`.
    places: Vec<Option<(u32, u32)>, A>,
    numbers: Vec<u32, A>,
}

impl<A: Allocator> Model for ListsByNumber<A> {
    ghost use Rattle.std.specs.Prelude.{ℕ, List, Option, length};
    ghost use Rattle.transitions.specs.Lists.{listed_by_number, AreAllWithin};

    ghost Value = { List (Option (List ℕ)) };

    ghost view = { λ l. listed_by_number l.numbers.items l.places.items };

    ghost invariant = { λ l. AreAllWithin (length l.numbers.items) l.places.items };
}

impl<A: Allocator + Copy> ListsByNumber<A> {
    /// No lists. Takes no memory.
    pub(crate) fn new(alloc: A) -> ListsByNumber<A>
        ensures { result ≡ [] }
    {
        ListsByNumber {
            places: Vec::new(alloc),
            numbers: Vec::new(alloc),
        }
    }
}

impl<A: Allocator> ListsByNumber<A> {
    /// The number's list. Takes no memory.
    pub(crate) fn get(&self, number: u32) -> Option<&[u32]>
        ensures { option_map (λ x. x.now) result ≡ get_or self.now number None }
    {
        let place = number as usize;
        if place >= self.places.len() {
            return None;
        }
        match self.places[place] {
            Some((from, to)) => Some(&self.numbers[from as usize..to as usize]),
            None => None,
        }
    }

    /// Keeps the list by the number, unless memory is refused, or there is no room for its place.
    pub(crate) fn put(&mut self, number: u32, list: &[u32])
        ensures { MayHaveAt self.old self.new number list.now }
    {
        let Ok(()) = reach(&mut self.places, number) else {
            return;
        };
        let from = self.numbers.len();
        let Ok(()) = self.numbers.extend_from_slice(list) else {
            return;
        };
        let to = self.numbers.len();
        if to <= MOST_NUMBERS {
            self.places[number as usize] = Some((from as u32, to as u32));
        }
    }
}

/// The most numbers that all lists have together.
const MOST_NUMBERS: usize = 4_294_967_295;

/// Makes places without a list, until there is one for this number.
fn reach<A: Allocator>(
    places: &mut Vec<Option<(u32, u32)>, A>,
    number: u32,
) -> Result<(), AllocError>
    ensures same { KeepsPlaces places.old.items places.new.items }
    ensures reached { OnOk result (number < length places.new.items) }
{
    while places.len() <= number as usize {
        places.push(None)?;
    }
    Ok(())
}

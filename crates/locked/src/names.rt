//! The names of a service's seats.

ghost use Rattle.std.specs.Prelude.{◌≡◌, ◌≤◌, ◌<◌, ◌++◌, ◌∷◌, [], List, ℕ, length, false, true, None, slice_index_or, slice_set, IfSome};

use session::SeatNumber;
use std::marker::Model;

/// The greatest number that is a name in a service: a component may say that it is the seat with this number, or one below.
pub const LAST_NAME: u16 = 1000;

/// The names, the numbers from 1 to the last, and which of their seats have a connection. In a run without names the last is 0.
///
/// Beside them are numbers above the names that were given to seats and never used: they are given again before others.
#[derive(Drop)]
pub struct Names {
    last: u32,
    /// By its number, whether the seat of a name has a connection.
    taken: [bool; 1001],
    /// The first so many are the numbers that were never used.
    spare: [u32; 64],
    spares: usize,
}

impl Model for Names {
    ghost use Rattle.std.specs.Prelude.{◌≤◌, take};
    ghost use Rattle.locked.specs.Numbers.{NamesView};

    ghost Value = { NamesView };

    ghost view = { λ n. record { last = n.last; taken = n.taken; spare = take n.spares n.spare } };

    ghost invariant = { λ n. (n.last ≤ 1000) × (n.spares ≤ 64) };
}

impl Names {
    /// The names up to this number. None has a connection.
    pub fn up_to(last: u16) -> Names
        requires { last ≤ 1000 }
        ensures last { result.last ≡ last }
        ensures spare { result.spare ≡ [] }
    {
        Names {
            last: u32::from(last),
            taken: [false; 1001],
            spare: [0; 64],
            spares: 0,
        }
    }

    /// The last of the names.
    pub fn last(&self) -> u32
        ensures last { result ≡ self.now.last }
        ensures small { result ≤ 1000 }
    {
        self.last
    }

    /// Whether the seat of this name has a connection.
    pub fn is_taken(&self, name: SeatNumber) -> bool
        requires { name ≤ self.now.last }
        ensures { result ≡ slice_index_or self.now.taken name false }
    {
        self.taken[name.get() as usize]
    }

    /// The seat of this name has a connection from now on.
    pub fn take(&mut self, name: SeatNumber)
        requires { name ≤ self.old.last }
        ensures last { self.new.last ≡ self.old.last }
        ensures taken { self.new.taken ≡ slice_set self.old.taken name true }
        ensures spare { self.new.spare ≡ self.old.spare }
    {
        self.taken[name.get() as usize] = true;
    }

    /// The seat with this number has no connection any more.
    pub fn leave(&mut self, seat: SeatNumber)
        ensures last { self.new.last ≡ self.old.last }
        ensures named { seat ≤ self.old.last → self.new.taken ≡ slice_set self.old.taken seat false }
        ensures unnamed { self.old.last < seat → self.new.taken ≡ self.old.taken }
        ensures spare { self.new.spare ≡ self.old.spare }
    {
        if seat.get() <= self.last {
            self.taken[seat.get() as usize] = false;
        }
    }

    /// Keeps a number that was never used, where there is room for it. It needs room for no more of them than there are connections.
    pub fn keep(&mut self, seat: SeatNumber)
        ensures same { self.new ≡ record self.old { spare = self.new.spare } }
        ensures kept { length self.old.spare < 64 → self.new.spare ≡ self.old.spare ++ seat ∷ [] }
        ensures full { 64 ≤ length self.old.spare → self.new.spare ≡ self.old.spare }
    {
        if self.spares < 64 {
            self.spare[self.spares] = seat.get();
            self.spares += 1;
        }
    }

    /// A number above the names that was given before, and never used. It is kept no more.
    pub fn spare(&mut self) -> Option<SeatNumber>
        ensures same { self.new ≡ record self.old { spare = self.new.spare } }
        ensures above { IfSome result (λ seat. self.old.last < seat) }
        ensures was { IfSome result (λ seat. self.old.spare ≡ self.new.spare ++ seat ∷ []) }
        ensures less { result ≡ None → (gone : List ℕ) × (self.old.spare ≡ self.new.spare ++ gone) }
    {
        if self.spares == 0 {
            return None;
        }
        self.spares -= 1;
        let number = self.spare[self.spares];
        if number <= self.last {
            return None;
        }
        SeatNumber::new(number)
    }
}

//! The search for what names mean: one name after the other, until no definition says more.
ghost use Rattle.std.specs.Prelude.{Bool, IfOk, OnOk};
ghost use Rattle.values.specs.Values.{Name};
ghost use Rattle.declared_names.specs.View.{entries as entries_of};
ghost use Rattle.declared_names.specs.Standing.{Knows, Learns, LearnsAll};

use crate::entries::Entries;
use crate::order::places_by_use;
use std::alloc::{AllocError, Allocator};

/// What learns what the definitions of names say. What is learned is in a table of its own.
pub trait Learner<T> {
    // Whether the table says what the name means.
    ghost knows: { T → Name → Bool };
    // What the table says is what the names mean.
    ghost reached: { Self → T → Type 0 };
    // The definition of the name says no more than the table does.
    ghost settled: { Self → T → Name → Type 0 };

    /// Learns what the name means, and returns whether that is new; a name whose definition is at fault means nothing.
    fn learn(&self, table: &mut T, name: &[u8]) -> Result<bool, AllocError>
        requires { reached self.now table.old }
        ensures { IfOk result (λ new. Learns knows (reached self.now) (settled self.now) table.old table.new new name.now) };
}

/// Looks at each name, and returns whether anything new was learned.
fn learn_all<'a, A: Allocator, T, L: Learner<T>>(
    entries: &Entries<'a, A>,
    learner: &L,
    table: &mut T,
) -> Result<bool, AllocError>
    requires { L.reached learner.now table.old }
    ensures { IfOk result (λ new. LearnsAll L.knows (L.reached learner.now) (L.settled learner.now) (entries_of entries.now) table.old table.new new) }
{
    let mut any = false;
    for place in 0..entries.len() {
        if let Some(name) = entries.name_at(place) {
            let new = learner.learn(table, name)?;
            any = any || new;
        }
    }
    Ok(any)
}

/// Looks at the names at these places.
fn learn_in_order<'a, A: Allocator, T, L: Learner<T>>(
    entries: &Entries<'a, A>,
    learner: &L,
    table: &mut T,
    places: &[usize],
) -> Result<(), AllocError>
    requires { L.reached learner.now table.old }
    ensures { OnOk result (L.reached learner.now table.new) }
{
    for place in places {
        if let Some(name) = entries.name_at(*place) {
            let _new = learner.learn(table, name)?;
        }
    }
    Ok(())
}

/// Looks at all names until nothing is learned.
fn settle<'a, A: Allocator, T, L: Learner<T>>(
    entries: &Entries<'a, A>,
    learner: &L,
    table: &mut T,
) -> Result<(), AllocError>
    requires { L.reached learner.now table.old }
    ensures { OnOk result (Knows (L.reached learner.now) (L.settled learner.now) (entries_of entries.now) table.new) }
{
    loop {
        let new = learn_all(entries, learner, table)?;
        if !new {
            return Ok(());
        }
    }
}

/// Learns what all names mean. A definition is looked at when what it uses is known, so mostly once; one that means nothing is
/// looked at twice, up to where it is at fault.
pub fn learn_names<'a, A: Allocator + Copy, T, L: Learner<T>>(
    alloc: A,
    entries: &Entries<'a, A>,
    learner: &L,
    table: &mut T,
) -> Result<(), AllocError>
    requires { L.reached learner.now table.old }
    ensures { OnOk result (Knows (L.reached learner.now) (L.settled learner.now) (entries_of entries.now) table.new) }
{
    let places = places_by_use(alloc, entries)?;
    learn_in_order(entries, learner, table, &places)?;
    settle(entries, learner, table)
}

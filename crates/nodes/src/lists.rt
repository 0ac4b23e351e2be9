//! Lists of numbers without repeats, as far as a bound.

ghost use Rattle.std.specs.Prelude.{OnOk, ◌<◌, ◌∷◌, [], length, map};
ghost use Rattle.term.specs.Proc.{par};
ghost use Rattle.targets.specs.Targets.{pairs_of};
ghost use Rattle.targets.specs.Among.{Joined};
ghost use Rattle.nodes.specs.Shapes.{at, set_at};
ghost use Rattle.nodes.specs.Looks.{look, around, AllBelow, IsPlaceIn};
ghost use Rattle.nodes.specs.Tables.{HasGrown};

use crate::places::Place;
use crate::table::Table;
use std::alloc::{AllocError, Allocator};

impl<A: Allocator> Table<A> {
    /// Appends those of the numbers that aren't in the list, as long as there are no more than `most`. None stands twice
    /// among the numbers or in the list.
    pub fn join(
        &self,
        numbers: &[u32],
        most: usize,
        into: &mut Vec<u32, A>,
    ) -> Result<(), AllocError>
        requires numbers { AllBelow (length self.now.processes) numbers.now }
        requires here { AllBelow (length self.now.processes) into.old.items }
        ensures here { OnOk result (AllBelow (length self.now.processes) into.new.items) }
        ensures joined { OnOk result (Joined most (look self.now.processes into.old.items) (look self.now.processes numbers.now) (look self.now.processes into.new.items)) }
    {
        for number in numbers {
            self.add(*number, most, into)?;
        }
        Ok(())
    }

    /// Appends the number, unless it is in the list or there are more than `most`. So a list that began empty has no
    /// number twice and at most `most` + 1 of them; `most` + 1 say that a limit of `most` is exceeded, and take no
    /// memory for what comes after. The answer is `Ok` either way: the error is that memory was refused. The numbers
    /// are those of processes in this table. Costs a comparison with each number in the list.
    pub fn add(&self, number: u32, most: usize, into: &mut Vec<u32, A>) -> Result<(), AllocError>
        requires number { number < length self.now.processes }
        requires here { AllBelow (length self.now.processes) into.old.items }
        ensures here { OnOk result (AllBelow (length self.now.processes) into.new.items) }
        ensures joined { OnOk result (Joined most (look self.now.processes into.old.items) (at self.now.processes number ∷ []) (look self.now.processes into.new.items)) }
    {
        self.once();
        if into.len() > most {
            return Ok(());
        }
        if into.contains(&number) {
            return Ok(());
        }
        into.push(number)?;
        Ok(())
    }

    /// Puts each part in its place, and appends the numbers of those that aren't in the list, as long as there are no
    /// more than `most`. None stands twice among the parts or in the list.
    pub fn put_each(
        &mut self,
        place: Place,
        parts: &[u32],
        most: usize,
        into: &mut Vec<u32, A>,
    ) -> Result<(), AllocError>
        requires place { IsPlaceIn self.old place }
        requires parts { AllBelow (length self.old.processes) parts.now }
        requires here { AllBelow (length self.old.processes) into.old.items }
        ensures here { OnOk result (AllBelow (length self.new.processes) into.new.items) }
        ensures joined { OnOk result (Joined most (look self.old.processes into.old.items) (map (around self.old place) (look self.old.processes parts.now)) (look self.new.processes into.new.items)) }
        ensures grown { HasGrown self.old self.new }
    {
        for part in parts {
            if into.len() > most {
                return Ok(());
            }
            let number = self.put(place.node(*part))?;
            self.add(number, most, into)?;
        }
        Ok(())
    }

    /// Puts each left process in parallel with each right one, and appends the numbers of those that aren't in the list,
    /// as long as there are no more than `most`. None stands twice among the sides or in the list.
    pub fn put_parallels(
        &mut self,
        set: u32,
        lefts: &[u32],
        rights: &[u32],
        most: usize,
        into: &mut Vec<u32, A>,
    ) -> Result<(), AllocError>
        requires set { set < length self.old.parameters.sets }
        requires lefts { AllBelow (length self.old.processes) lefts.now }
        requires rights { AllBelow (length self.old.processes) rights.now }
        requires here { AllBelow (length self.old.processes) into.old.items }
        ensures here { OnOk result (AllBelow (length self.new.processes) into.new.items) }
        ensures joined { OnOk result (Joined most (look self.old.processes into.old.items) (pairs_of (par (set_at self.old.parameters set)) (look self.old.processes lefts.now) (look self.old.processes rights.now)) (look self.new.processes into.new.items)) }
        ensures grown { HasGrown self.old self.new }
    {
        for left in lefts {
            self.put_each(Place::ParRight(set, *left), rights, most, into)?;
        }
        Ok(())
    }
}

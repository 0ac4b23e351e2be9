//! Lists of numbers that grow at their ends, each number once.

ghost use Rattle.std.specs.Prelude.{◌≡◌, OnOk, IfOk, ◌<◌, ◌≤◌, ◌∷◌, [], drop, get_or, length, nat_eq};
ghost use Rattle.term.specs.Proc.{bodies_of};
ghost use Rattle.indexmap.specs.IndexSet.{insert_key};
ghost use Rattle.targets.specs.Labels.{Step};
ghost use Rattle.nodes.specs.Shapes.{at};
ghost use Rattle.nodes.specs.Looks.{look, AllBelow};
ghost use Rattle.transitions.specs.Numbered.{HidesEvents};
ghost use Rattle.keeping.specs.Kept.{StaysKept};
ghost use Rattle.tau_closures.specs.Closing.{HasPut};
ghost use Rattle.tau_closures.specs.KeptBelonging.{IsRootAlone};
ghost use Rattle.tau_closures.specs.Targets.{HasPutTargets};

use indexmap::IndexSet;
use keeping::States;
use std::alloc::{AllocError, Allocator};
use std::hash::{BuildHasherDefault, FoldHasher};
use std::marker::Model;
use targets::Label;
use transitions::Transitions;

/// Numbers in the order in which they came, each once. Contracts see the list.
#[derive(Drop)]
pub struct Numbers<A: Allocator> {
    set: IndexSet<u32, BuildHasherDefault<FoldHasher>, A>,
}

impl<A: Allocator> Model for Numbers<A> {
    ghost use Rattle.std.specs.Prelude.{ℕ, List};

    ghost Value = { List ℕ };

    ghost view = { λ n. n.set.keys };
}

impl<A: Allocator + Copy> Numbers<A> {
    /// No numbers. Takes no memory.
    pub fn new(alloc: A) -> Numbers<A>
        ensures { result ≡ [] }
    {
        Numbers {
            set: IndexSet::new(alloc),
        }
    }

    /// No numbers, with room for so many, unless memory is refused.
    pub(crate) fn with_room(alloc: A, room: usize) -> Numbers<A>
        ensures { result ≡ [] }
    {
        match IndexSet::with_capacity(alloc, room) {
            Ok(set) => Numbers { set },
            Err(_) => Numbers::new(alloc),
        }
    }

    /// The list by itself.
    pub(crate) fn into_vec(self, alloc: A) -> Result<Vec<u32, A>, AllocError>
        ensures { IfOk result (λ list. list.items ≡ self) }
    {
        let mut list = Vec::new(alloc);
        let done = list.extend_from_slice(self.as_slice());
        drop(self);
        done?;
        Ok(list)
    }
}

impl<A: Allocator> Numbers<A> {
    /// How many there are.
    pub fn len(&self) -> usize
        ensures { result ≡ length self.now }
    {
        self.set.len()
    }

    /// Whether there are none.
    pub fn is_empty(&self) -> bool
        ensures { result ≡ nat_eq (length self.now) 0 }
    {
        self.len() == 0
    }

    /// The list. In a set of states it has the numbers of processes, each once, in the order in which they were put. A number keeps
    /// its place as others are put after it: so a set that grows level by level looks at its last level alone. It lends the list
    /// and copies nothing: constant cost, no memory.
    ///
    /// ```text
    /// let from = numbers.len();
    /// numbers.put(7)?;
    /// let level = &numbers.as_slice()[from..]; // 7 alone, or nothing where it was there before
    /// ```
    pub fn as_slice(&self) -> &[u32]
        ensures { result.now ≡ self.now }
    {
        self.set.as_slice()
    }

    /// The numbers from this place on.
    pub(crate) fn tail(&self, from: usize) -> &[u32]
        requires { from ≤ length self.now }
        ensures { result.now ≡ drop from self.now }
    {
        &self.as_slice()[from..]
    }

    /// The number at this place.
    pub(crate) fn number(&self, place: usize) -> u32
        requires { place < length self.now }
        ensures { result ≡ get_or self.now place result }
    {
        self.as_slice()[place]
    }

    /// Appends the number, unless it is there. Costs one look-up by its hash.
    pub fn put(&mut self, number: u32) -> Result<(), AllocError>
        ensures { OnOk result (self.new ≡ insert_key nat_eq self.old number) }
    {
        match self.set.insert(number) {
            Ok(_) => Ok(()),
            Err(_) => Err(AllocError),
        }
    }
}

/// Appends those targets of the steps with this label that aren't in the list. `found` lends its memory to the list of the targets.
pub(crate) fn put_targets<A: Allocator + Copy>(
    states: &mut States<A>,
    number: u32,
    label: Label,
    found: &mut Vec<u32, A>,
    into: &mut Numbers<A>,
) -> Result<(), AllocError>
    requires number { number < length states.old.all.table.processes }
    requires hides { HidesEvents states.old.all number }
    requires here { AllBelow (length states.old.all.table.processes) into.old }
    ensures here { OnOk result (AllBelow (length states.new.all.table.processes) into.new) }
    ensures put { OnOk result (HasPutTargets (Step (bodies_of states.old.all.bodies) (at states.old.all.table.processes number) label) (look states.old.all.table.processes into.old) (look states.new.all.table.processes into.new)) }
    ensures kept { StaysKept states.old states.new }
{
    found.clear();
    states.put_targets(number, label, found)?;
    put_all(states.all(), found, into)
}

/// Appends those of the numbers that aren't in the list.
pub(crate) fn put_all<A: Allocator>(
    all: &Transitions<A>,
    numbers: &[u32],
    into: &mut Numbers<A>,
) -> Result<(), AllocError>
    requires numbers { AllBelow (length all.now.table.processes) numbers.now }
    requires here { AllBelow (length all.now.table.processes) into.old }
    ensures here { OnOk result (AllBelow (length all.now.table.processes) into.new) }
    ensures put { OnOk result (HasPut (look all.now.table.processes numbers.now) (look all.now.table.processes into.old) (look all.now.table.processes into.new)) }
{
    for number in numbers {
        put_one(all, *number, into)?;
    }
    Ok(())
}

/// Appends the number, unless it is in the list.
fn put_one<A: Allocator>(
    all: &Transitions<A>,
    number: u32,
    into: &mut Numbers<A>,
) -> Result<(), AllocError>
    requires number { number < length all.now.table.processes }
    requires here { AllBelow (length all.now.table.processes) into.old }
    ensures here { OnOk result (AllBelow (length all.now.table.processes) into.new) }
    ensures put { OnOk result (HasPut (at all.now.table.processes number ∷ []) (look all.now.table.processes into.old) (look all.now.table.processes into.new)) }
{
    all.once();
    into.put(number)
}

/// The number of what the root is kept as, as a list.
pub(crate) fn root_alone<A: Allocator + Copy>(
    states: &mut States<A>,
    alloc: A,
) -> Result<Numbers<A>, AllocError>
    ensures here { IfOk result (λ first. AllBelow (length states.new.all.table.processes) first) }
    ensures root { IfOk result (λ first. IsRootAlone states.old (look states.new.all.table.processes first)) }
    ensures kept { StaysKept states.old states.new }
{
    let root = states.root()?;
    let mut first = Numbers::new(alloc);
    first.put(root)?;
    Ok(first)
}

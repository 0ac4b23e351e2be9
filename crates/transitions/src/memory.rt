//! What is remembered of steps.

ghost use Rattle.std.specs.Prelude.{◌≡◌, [], option_map};
ghost use Rattle.transitions.specs.Memory.{IsSmall, MayRecall, recalled};

use crate::by_number::ListsByNumber;
use crate::keys::key_of;
use crate::lists::Lists;
use std::alloc::Allocator;
use std::marker::Model;
use targets::Label;

/// What processes become by steps, by the process's number and the label. Hidden steps are asked for most often, and by all
/// processes that can take them: they are found by the number alone.
#[derive(Drop)]
pub(crate) struct Memory<A: Allocator> {
    acts: Lists<A>,
    hids: ListsByNumber<A>,
}

impl<A: Allocator> Model for Memory<A> {
    ghost use Rattle.transitions.specs.Memory.{Kept};

    ghost Value = { Kept };

    ghost view = { λ m. (m.acts, m.hids) };
}

impl<A: Allocator + Copy> Memory<A> {
    /// Nothing. Takes no memory.
    pub(crate) fn new(alloc: A) -> Memory<A>
        ensures { result ≡ ([], []) }
    {
        Memory {
            acts: Lists::new(alloc),
            hids: ListsByNumber::new(alloc),
        }
    }
}

impl<A: Allocator> Memory<A> {
    /// What is remembered of the process's steps with this label. Takes no memory.
    pub(crate) fn get(&self, number: u32, label: Label) -> Option<&[u32]>
        ensures recalled { option_map (λ x. x.now) result ≡ recalled self.now number label }
        ensures small { IsSmall label }
    {
        match label {
            Label::Tau => self.hids.get(number),
            Label::Event(_) => self.acts.get(key_of(number, label)),
        }
    }

    /// Remembers the list of the process's steps with this label, unless memory is refused.
    pub(crate) fn put(&mut self, number: u32, label: Label, list: &[u32])
        ensures { MayRecall self.old self.new number label list.now }
    {
        match label {
            Label::Tau => self.hids.put(number, list),
            Label::Event(_) => self.acts.put(key_of(number, label), list),
        }
    }
}

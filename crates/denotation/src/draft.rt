//! Bodies whose names are definitions.
ghost use Rattle.std.specs.Prelude.{◌≡◌, ◌-◌, ◌^◌, min};
ghost use Rattle.denotation.specs.Bodies.{depth};
ghost use Rattle.denotation.specs.View.{body};

use crate::call::Call;
use crate::forms::Join;
use alphabet::EventSet;
use std::alloc::Allocator;

/// What joins two bodies.
#[derive(Clone, Copy)]
pub enum Joint {
    Join(Join),
    /// They share the events of the set.
    Sharing(EventSet),
}

/// What stands between two bodies, with its sets of events.
#[derive(Clone, Copy)]
pub enum Operation {
    Joint(Joint),
    /// `[ A || B ]`
    Alphabetised(EventSet, EventSet),
}

/// The body of a definition, before definitions have numbers.
#[derive(Drop)]
pub(crate) enum Draft<A: Allocator> {
    Stop,
    Skip,
    /// The event with this number, and then a process.
    Prefix(u8, Box<Draft<A>, A>),
    /// Two processes that are joined so.
    Both(Joint, Box<Draft<A>, A>, Box<Draft<A>, A>),
    Hide(EventSet, Box<Draft<A>, A>),
    Ren(Vec<(u8, u8), A>, Box<Draft<A>, A>),
    /// A definition, with the values of its parameters.
    Name(Call<A>),
}

impl<A: Allocator> Draft<A> {
    /// The depth: 1 for `STOP`, `SKIP` and a name, else 1 more than that of the deepest part. A depth past the greatest `u64` is
    /// given as that number.
    #[tactic(auto, using(crate::proofs::Numbered::joint_depth), unfolding(crate::specs::Bodies::depth))]
    pub(crate) fn depth(&self) -> u64
        ensures { result ≡ min (depth (body self.now)) (2 ^ 64 - 1) }
    {
        match self {
            Draft::Stop | Draft::Skip | Draft::Name(_) => 1,
            Draft::Prefix(_, p) | Draft::Hide(_, p) | Draft::Ren(_, p) => {
                p.depth().saturating_add(1)
            }
            Draft::Both(_, p, q) => p.depth().max(q.depth()).saturating_add(1),
        }
    }
}

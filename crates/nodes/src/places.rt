//! Operators with a place for one of their parts.

ghost use Rattle.std.specs.Prelude.{◌≡◌, ◌<◌, length};
ghost use Rattle.term.specs.Proc.{Proc};
ghost use Rattle.nodes.specs.Shapes.{at, shape, IsWithin};
ghost use Rattle.nodes.specs.Tables.{Tabled};
ghost use Rattle.nodes.specs.Looks.{around, IsPlaceIn};

use crate::node::Node;

/// An operator with a place for one of its parts, over the numbers of what else it has.
#[derive(Clone, Copy)]
pub enum Place {
    /// `_ [] Q`.
    ExtLeft(u32),
    /// `P [] _`.
    ExtRight(u32),
    /// `_ ; Q`.
    SeqLeft(u32),
    /// `_ [| A |] Q`: the set's number and then the part's.
    ParLeft(u32, u32),
    /// `P [| A |] _`: the set's number and then the part's.
    ParRight(u32, u32),
    /// `_ \ A`.
    Hide(u32),
    /// `_[[R]]`.
    Ren(u32),
    /// `_ /\ Q`.
    IntrLeft(u32),
    /// `P /\ _`.
    IntrRight(u32),
}

impl Place {
    /// The node with this part in its place.
    pub(crate) fn node(self, part: u32) -> Node
        ensures shape { (t : Tabled) → shape t.parameters t.processes result ≡ around t self (at t.processes part) }
        ensures within { (t : Tabled) → IsPlaceIn t self → part < length t.processes → IsWithin t.parameters (length t.processes) result }
    {
        match self {
            Place::ExtLeft(q) => Node::Ext(part, q),
            Place::ExtRight(p) => Node::Ext(p, part),
            Place::SeqLeft(q) => Node::Seq(part, q),
            Place::ParLeft(set, q) => Node::Par(set, part, q),
            Place::ParRight(set, p) => Node::Par(set, p, part),
            Place::Hide(set) => Node::Hide(set, part),
            Place::Ren(relation) => Node::Ren(relation, part),
            Place::IntrLeft(q) => Node::Intr(part, q),
            Place::IntrRight(p) => Node::Intr(p, part),
        }
    }
}

//! Nodes.

ghost use Rattle.std.specs.Prelude.{◌≡◌};
ghost use Rattle.nodes.specs.SameNodes.{hash_writes, key, same_node, same_node-partial, same_node-laws, same_node-writes};

use std::hash::{Hash, Hasher};

/// An operator over the numbers of its parts. Sets of events and relations are given by their numbers in the table,
/// events by theirs in Sigma, and bodies by theirs.
#[derive(Clone, Copy)]
pub enum Node {
    /// `STOP`.
    Stop,
    /// `SKIP`.
    Skip,
    /// `a -> P`.
    Prefix(u8, u32),
    /// `P [] Q`.
    Ext(u32, u32),
    /// `P |~| Q`.
    Int(u32, u32),
    /// `P ; Q`.
    Seq(u32, u32),
    /// `P [| A |] Q`.
    Par(u32, u32, u32),
    /// `P \ A`.
    Hide(u32, u32),
    /// `P[[R]]`.
    Ren(u32, u32),
    /// `P /\ Q`.
    Intr(u32, u32),
    /// The body with this number.
    Name(usize),
}

impl Node {
    /// A number for the operator, and then its numbers: different for different nodes.
    fn key(&self) -> (u8, usize, u32, u32)
        ensures { result ≡ key self.now }
    {
        match self {
            Node::Stop => (0, 0, 0, 0),
            Node::Skip => (1, 0, 0, 0),
            Node::Prefix(event, p) => (2, *event as usize, *p, 0),
            Node::Ext(p, q) => (3, 0, *p, *q),
            Node::Int(p, q) => (4, 0, *p, *q),
            Node::Seq(p, q) => (5, 0, *p, *q),
            Node::Par(set, p, q) => (6, *set as usize, *p, *q),
            Node::Hide(set, p) => (7, *set as usize, *p, 0),
            Node::Ren(relation, p) => (8, *relation as usize, *p, 0),
            Node::Intr(p, q) => (9, 0, *p, *q),
            Node::Name(k) => (10, *k, 0, 0),
        }
    }
}

impl PartialEq for Node {
    ghost eq = { same_node };

    ghost laws = { same_node-partial };

    fn eq(&self, other: &Node) -> bool {
        let a = self.key();
        let b = other.key();
        a.0 == b.0 && (a.1 == b.1 && (a.2 == b.2 && a.3 == b.3))
    }
}

impl Eq for Node {
    ghost laws = { same_node-laws };
}

impl Hash for Node {
    ghost hash_input = { λ x. hash_writes (key x) };

    ghost respects_eq = { same_node-writes };

    fn hash<H: Hasher>(&self, state: &mut H) {
        let (operator, first, second, third) = self.key();
        state.write_u64((first as u64).wrapping_add(u64::from(operator) << 56));
        state.write_u64(u64::from(second) << 32 | u64::from(third));
    }
}

//! How deep processes get by hidden steps.

ghost use Rattle.std.specs.Prelude.{◌≡◌, ◌↔◌, ◌<◌, ◌≤◌, ℕ, IfOk, IsTrue, OnOk, length, max};
ghost use Rattle.term.specs.Limits.{HasDeep, deepest_state};
ghost use Rattle.term.specs.Proc.{bodies_of};
ghost use Rattle.term.specs.Sizes.{depth};
ghost use Rattle.term.specs.Steps.{Hid};
ghost use Rattle.nodes.specs.Shapes.{at, shape, IsWithin};
ghost use Rattle.nodes.specs.Looks.{look, AllBelow};
ghost use Rattle.transitions.specs.Unfolding.{AreUnfolded, beside, capped, unfolded};

use nodes::{Node, Table};
use std::alloc::{AllocError, Allocator};

/// Appends to the depths of the first processes those of all up to this one.
pub(crate) fn deepen<A: Allocator>(
    table: &Table<A>,
    bodies: &[u32],
    number: u32,
    depths: &mut Vec<u32, A>,
) -> Result<(), AllocError>
    requires number { number < length table.now.processes }
    requires bodies { AllBelow (length table.now.processes) bodies.now }
    requires few { length depths.old.items ≤ length table.now.processes }
    requires depths { AreUnfolded (bodies_of (look table.now.processes bodies.now)) table.now.processes depths.old.items }
    ensures few { length depths.new.items ≤ length table.now.processes }
    ensures depths { AreUnfolded (bodies_of (look table.now.processes bodies.now)) table.now.processes depths.new.items }
    ensures enough { OnOk result (number < length depths.new.items) }
{
    while depths.len() <= number as usize {
        let node = table.node(depths.len() as u32);
        let depth = depth_of(table, bodies, depths, node);
        depths.push(depth)?;
    }
    Ok(())
}

/// The depth of the node's process, from those of its parts.
fn depth_of<A: Allocator>(table: &Table<A>, bodies: &[u32], depths: &[u32], node: Node) -> u32
    requires within { IsWithin table.now.parameters (length depths.now) node }
    requires bodies { AllBelow (length table.now.processes) bodies.now }
    requires few { length depths.now ≤ length table.now.processes }
    requires depths { AreUnfolded (bodies_of (look table.now.processes bodies.now)) table.now.processes depths.now }
    ensures { result ≡ capped (unfolded (bodies_of (look table.now.processes bodies.now)) (shape table.now.parameters table.now.processes node)) }
{
    match node {
        Node::Ext(p, q) => depth_of_two(table, bodies, depths, p, q),
        Node::Par(_, p, q) => depth_of_two(table, bodies, depths, p, q),
        Node::Intr(p, q) => depth_of_two(table, bodies, depths, p, q),
        Node::Seq(p, q) => depth_beside(depths[p as usize], table.facts(q).depth),
        Node::Hide(_, p) => depth_beside(depths[p as usize], 0),
        Node::Ren(_, p) => depth_beside(depths[p as usize], 0),
        Node::Name(body) => depth_of_body(table, bodies, body),
        Node::Stop | Node::Skip | Node::Prefix(_, _) | Node::Int(_, _) => 0,
    }
}

/// The depth of an operator that stays over both parts.
fn depth_of_two<A: Allocator>(
    table: &Table<A>,
    bodies: &[u32],
    depths: &[u32],
    p: u32,
    q: u32,
) -> u32
    requires left { p < length depths.now }
    requires right { q < length depths.now }
    requires few { length depths.now ≤ length table.now.processes }
    requires depths { AreUnfolded (bodies_of (look table.now.processes bodies.now)) table.now.processes depths.now }
    ensures { result ≡ capped (max (beside (unfolded (bodies_of (look table.now.processes bodies.now)) (at table.now.processes p)) (depth (at table.now.processes q))) (beside (unfolded (bodies_of (look table.now.processes bodies.now)) (at table.now.processes q)) (depth (at table.now.processes p)))) }
{
    let left = depth_beside(depths[p as usize], table.facts(q).depth);
    let right = depth_beside(depths[q as usize], table.facts(p).depth);
    left.max(right)
}

/// The depth of the body with this number, which is `STOP` where there is none.
fn depth_of_body<A: Allocator>(table: &Table<A>, bodies: &[u32], body: usize) -> u32
    requires { AllBelow (length table.now.processes) bodies.now }
    ensures { result ≡ capped (depth (bodies_of (look table.now.processes bodies.now) body)) }
{
    if body >= bodies.len() {
        return 1;
    }
    table.facts(bodies[body]).depth
}

/// The depth of an operator over a part of this depth, beside another; 0 where there is no such part.
fn depth_beside(part: u32, other: u32) -> u32
    ensures { (n m : ℕ) → part ≡ capped n → other ≡ capped m → result ≡ capped (beside n m) }
{
    if part == 0 {
        return 0;
    }
    part.max(other).saturating_add(1)
}

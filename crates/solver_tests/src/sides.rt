//! Sides of at most twelve nodes as binary numbers, which have a digit for each node.

ghost use Rattle.std.specs.Prelude.{◌≡◌, ◌≤◌, length, IfOk};

use graph_core::{Graph, Side};
use std::alloc::Global;
use std::process::Abort;
use std::test::Fail;

/// Whether the node is in the side, whose number has a binary digit for each node.
pub fn holds(side: u32, v: u32) -> bool {
    side.wrapping_shr(v) % 2 == 1
}

/// Makes the side the one whose nodes are the digits of a binary number.
pub fn mark(side: &mut Side, number: u32)
    requires { length side.old ≤ 12 }
    ensures { length side.new ≡ length side.old }
{
    for v in 0..side.len() as u32 {
        side.put(v, number >> v & 1 == 1);
    }
}

/// The side of a graph with this number.
pub fn side_with(rt: &impl Abort, alloc: Global, graph: &Graph, number: u32) -> Result<Side, Fail>
    ensures { IfOk result (λ side. length side ≡ length graph.now.names) }
{
    let n = graph.node_count();
    assert!(rt; n <= 12);
    let mut side = Side::empty(alloc, n)?;
    mark(&mut side, number);
    Ok(side)
}

/// The number of a side.
pub fn number_of(side: &Side) -> u32 {
    let mut number: u32 = 0;
    for v in 0..side.len().min(12) as u32 {
        if side.has(v) {
            number = number.wrapping_add(1u32.wrapping_shl(v));
        }
    }
    number
}

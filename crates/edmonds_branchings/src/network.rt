ghost use Rattle.std.specs.Prelude.{◌≡◌, ◌<◌, ◌≤◌, ◌^◌, length, true, false, All, IfOk};
ghost use Rattle.graph_core.specs.Limits.{node_room, side_room};
ghost use Rattle.flow_cuts.specs.Network.{arc_room};
ghost use Rattle.edmonds_branchings.specs.Network.{network_of, AreEnds};
ghost use Rattle.edmonds_branchings.specs.Round.{IsFree, IsBlocked};

use flow_cuts::{Cap, Flow, add_new_node, arcs_by};
use graph_core::{Counts, Graph, NoMemory, Side};
use problem_defs::Way;
use std::alloc::Global;

/// The digraph turned round, with one node more that the roots lead to. So the capacity that leaves a side without that node
/// is the number of arcs that enter the side in the digraph, and of branchings that may begin in it.
pub fn network(alloc: Global, graph: &Graph, roots: &Counts) -> Result<Vec<Cap>, NoMemory>
    requires few { length roots.now ≤ side_room }
    requires small { All (λ c. c < 2 ^ 32) roots.now }
    ensures { IfOk result (λ arcs. arcs.items ≡ network_of graph.now.lines roots.now) }
{
    graph.known();
    let arcs = arcs_by(alloc, Way::Entering, graph.lines())?;
    add_new_node(alloc, &arcs, roots.as_slice())
}

/// Whether each side without the last node that arc `j` leaves has a capacity of at least `k`.
pub fn may_take(alloc: Global, n: usize, arcs: &[Cap], j: usize, k: u32) -> Result<bool, NoMemory>
    requires nodes { n ≤ node_room }
    requires few { length arcs.now ≤ arc_room }
    requires ends { AreEnds n arcs.now }
    requires number { j < length arcs.now }
    ensures free { IfOk result (λ may. may ≡ true → IsFree n k arcs.now j) }
    ensures blocked { IfOk result (λ may. may ≡ false → IsBlocked n k arcs.now j) }
{
    let arc = arcs[j];
    if arc.cap >= k {
        return Ok(true);
    }
    let mut inside = Side::empty(alloc, n + 1)?;
    let mut outside = Side::empty(alloc, n + 1)?;
    inside.hold_only(arc.tail);
    outside.hold_only(arc.head);
    outside.put(n as u32, true);
    let mut flow = Flow::of_arcs(alloc, n + 1, arcs)?;
    Ok(flow.run(&inside, &outside, k as u64) == k as u64)
}

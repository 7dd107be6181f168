ghost use Rattle.std.specs.Prelude.{◌≡◌, ◌<◌, ◌≤◌, ◌^◌, length, map, All, IfOk};
ghost use Rattle.graph_core.specs.Limits.{line_room, side_room};
ghost use Rattle.graph_core.specs.declared.graph.Kind.TheVariants.{Undirected};
ghost use Rattle.flow_cuts.specs.GraphArcs.{arcs_of};
ghost use Rattle.flow_cuts.specs.Network.{arc_room};
ghost use Rattle.flow_cuts.specs.NewNode.{arc_by, with_new_node};

use crate::network::Cap;
use graph_core::{Line, NoMemory};
use problem_defs::Way;
use std::alloc::Global;

/// An arc each way along each edge. The capacity that leaves a side over them is d.
pub fn edge_arcs(alloc: Global, lines: &[Line]) -> Result<Vec<Cap>, NoMemory>
    requires { length lines.now ≤ line_room }
    ensures { IfOk result (λ arcs. arcs.items ≡ arcs_of Undirected lines.now) }
{
    let mut arcs = Vec::with_capacity(alloc, 2 * lines.len())?;
    for line in lines {
        arcs.push(Cap {
            tail: line.tail,
            head: line.head,
            cap: 1,
        })?;
        arcs.push(Cap {
            tail: line.head,
            head: line.tail,
            cap: 1,
        })?;
    }
    Ok(arcs)
}

/// The arcs of a digraph, turned round where the way is into a side. The capacity that leaves a side over them is ρ or δ.
pub fn arcs_by(alloc: Global, way: Way, lines: &[Line]) -> Result<Vec<Cap>, NoMemory>
    ensures { IfOk result (λ arcs. arcs.items ≡ map (arc_by way) lines.now) }
{
    let mut arcs = Vec::with_capacity(alloc, lines.len())?;
    for line in lines {
        let (tail, head) = match way {
            Way::Entering => (line.head, line.tail),
            Way::Leaving => (line.tail, line.head),
        };
        arcs.push(Cap { tail, head, cap: 1 })?;
    }
    Ok(arcs)
}

/// The network with a new node, to which each node has an arc with its count for the capacity. The capacity that leaves a
/// side without the new node is that of the arcs, and the counts of the side.
pub fn add_new_node(alloc: Global, arcs: &[Cap], counts: &[u64]) -> Result<Vec<Cap>, NoMemory>
    requires nodes { length counts.now ≤ side_room }
    requires small { All (λ count. count < 2 ^ 32) counts.now }
    requires few { length arcs.now ≤ arc_room }
    ensures { IfOk result (λ all. all.items ≡ with_new_node arcs.now counts.now) }
{
    let mut all = Vec::with_capacity(alloc, arcs.len() + counts.len())?;
    all.extend_from_slice(arcs)?;
    for (v, count) in counts.iter().enumerate() {
        all.push(Cap {
            tail: v as u32,
            head: counts.len() as u32,
            cap: *count as u32,
        })?;
    }
    Ok(all)
}

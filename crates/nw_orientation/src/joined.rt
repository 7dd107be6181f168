ghost use Rattle.std.specs.Prelude.{◌≡◌, ◌<◌, ◌≤◌, length, true, false, All, IfOk};
ghost use Rattle.graph_core.specs.Limits.{line_room, node_room};
ghost use Rattle.graph_core.specs.Graph.{Fits};
ghost use Rattle.graph_core.specs.declared.graph.Kind.TheVariants.{Undirected};
ghost use Rattle.nw_orientation.specs.Joined.{AreEdgeJoined, AreParted, FindsSparseCut};

use flow_cuts::{Flow, edge_arcs, is_parted};
use graph_core::{Graph, Line, NoMemory, Side};
use std::alloc::Global;

/// Whether each side that holds `a` and misses `b` has at least `c` of the edges.
pub(crate) fn are_joined(
    alloc: Global,
    n: usize,
    lines: &[Line],
    a: u32,
    b: u32,
    c: u64,
) -> Result<bool, NoMemory>
    requires nodes { n ≤ node_room }
    requires few { length lines.now ≤ line_room }
    requires ends { All (Fits n) lines.now }
    requires first { a < n }
    requires second { b < n }
    ensures yes { IfOk result (λ joined. joined ≡ true → AreEdgeJoined n lines.now a b c) }
    ensures no { IfOk result (λ joined. joined ≡ false → AreParted n lines.now a b c) }
{
    let arcs = edge_arcs(alloc, lines)?;
    let mut flow = Flow::of_arcs(alloc, n, &arcs)?;
    let mut from = Side::empty(alloc, n)?;
    let mut to = Side::empty(alloc, n)?;
    let parted = is_parted(&mut flow, &mut from, &mut to, a, b, c);
    Ok(!parted)
}

/// A proper side with fewer than `c` edges, by flows from node 0 to each other node.
pub(crate) fn sparse_side(alloc: Global, graph: &Graph, c: u64) -> Result<Option<Side>, NoMemory>
    requires { graph.now.kind ≡ Undirected }
    ensures { IfOk result (FindsSparseCut (length graph.now.names) graph.now.lines c) }
{
    graph.known();
    let n = graph.node_count();
    let mut flow = Flow::of_graph(alloc, graph)?;
    let mut from = Side::empty(alloc, n)?;
    let mut to = Side::empty(alloc, n)?;
    for v in 1..n as u32 {
        if is_parted(&mut flow, &mut from, &mut to, 0, v, c) {
            return Ok(Some(to));
        }
    }
    Ok(None)
}

ghost use Rattle.std.specs.Prelude.{◌≡◌, ◌+◌, ◌*◌, ◌≤◌, length, IfOk};
ghost use Rattle.graph_core.specs.Connected.{IsEdgeConnected};
ghost use Rattle.graph_core.specs.declared.graph.Kind.TheVariants.{Undirected};
ghost use Rattle.problem_defs.specs.Ask.{IsK};
ghost use Rattle.problem_defs.specs.Orient.{IsFeasible, IsOutcome};
ghost use Rattle.nw_orientation.specs.Needed.{AreNeeded};

use crate::back::lead_back;
use crate::joined::sparse_side;
use crate::prune::prune;
use crate::split::split_off;
use crate::weave::{chosen_lines, weave};
use graph_core::{Graph, Heads, NoMemory};
use problem_defs::OrientOutcome;
use std::alloc::Global;

/// Directions of a 2k-edge-connected graph of the nodes up to `q`, of which the first `tried` edges can't be spared: by
/// deletion of edges, and by a node of degree 2k that is split off.
fn orient_rest(
    alloc: Global,
    graph: &Graph,
    q: u32,
    tried: usize,
    k: u32,
) -> Result<Vec<bool>, NoMemory>
    requires k { IsK k }
    requires kind { graph.now.kind ≡ Undirected }
    requires size { length graph.now.names ≡ q + 1 }
    requires connected { IsEdgeConnected (2 * k) (q + 1) graph.now.lines }
    requires tried { tried ≤ length graph.now.lines }
    requires needed { AreNeeded (q + 1) (2 * k) graph.now.lines tried }
    ensures { IfOk result (λ heads. IsFeasible k graph.now heads.items) }
{
    graph.known();
    if q == 0 {
        let any = Vec::from_elem(alloc, true, graph.line_count())?;
        return Ok(any);
    }
    let marks = prune(
        alloc,
        q as usize + 1,
        graph.lines(),
        tried,
        u64::from(2 * k),
    )?;
    let lines = chosen_lines(alloc, graph.lines(), &marks, true)?;
    let split = split_off(alloc, graph, &lines, q, k)?;
    let rest = orient_rest(alloc, &split.graph, q - 1, split.old, k)?;
    let heads = lead_back(alloc, &lines, q, k, &split, &rest)?;
    weave(alloc, &marks, &heads, &[])
}

/// A k-arc-connected orientation of an undirected graph, or a proper side that forbids every one, since fewer than 2k edges
/// leave it (Nash-Williams 1960). It recurses once for each node.
pub fn orient(alloc: Global, graph: &Graph, k: u32) -> Result<OrientOutcome, NoMemory>
    requires kind { graph.now.kind ≡ Undirected }
    requires k { IsK k }
    ensures { IfOk result (IsOutcome k graph.now) }
{
    graph.known();
    if let Some(side) = sparse_side(alloc, graph, u64::from(2 * k))? {
        return Ok(OrientOutcome::Never(side));
    }
    let q = graph.node_count() as u32 - 1;
    let heads = orient_rest(alloc, graph, q, 0, k)?;
    Ok(OrientOutcome::Done(Heads::from_vec(heads)))
}

ghost use Rattle.std.specs.Prelude.{◌≤◌, length, IfOk};
ghost use Rattle.graph_core.specs.Limits.{most_k};
ghost use Rattle.graph_core.specs.Graph.{IsWithinSize};
ghost use Rattle.problem_defs.specs.Ways.{count_for};
ghost use Rattle.star_net.specs.Lowered.{IsLowered};
ghost use Rattle.star_net.specs.TightArcStar.{IsTightArcStar};

use crate::balance::balance;
use crate::counts::{LeastCounts, least_counts};
use cut_fn::{ArcStar, total_count};
use flow_cuts::arcs_by;
use graph_core::{Counts, Graph, NoMemory, Sides};
use problem_defs::Way;
use std::alloc::Global;

/// A star of a digraph, and disjoint sides that are tight for ρ or for δ, as `way` says, and hold each node with a count of
/// that way.
#[derive(Debug, Drop)]
pub struct TightArcStar {
    pub star: ArcStar,
    pub way: Way,
    pub family: Sides,
}

/// Least counts for ρ or δ.
fn arc_counts(alloc: Global, graph: &Graph, way: Way, k: u32) -> Result<LeastCounts, NoMemory>
    requires { k ≤ most_k }
    ensures { IfOk result (λ least. IsLowered (length graph.now.names) k (count_for way graph.now.lines) (length graph.now.names) least.counts.items least.family) }
{
    graph.known();
    let arcs = arcs_by(alloc, way, graph.lines())?;
    least_counts(alloc, graph.node_count(), &arcs, k as u64)
}

/// A new node joined to the digraph by as few arcs, as many either way, as make at least `k` arcs enter and leave each proper
/// side of the digraph (Frank 1992, the first half of his augmentation of digraphs).
pub fn least_arc_star(alloc: Global, graph: &Graph, k: u32) -> Result<TightArcStar, NoMemory>
    requires size { IsWithinSize graph.now }
    requires k { k ≤ most_k }
    ensures { IfOk result (IsTightArcStar k graph.now) }
{
    let into = arc_counts(alloc, graph, Way::Entering, k)?;
    let out = arc_counts(alloc, graph, Way::Leaving, k)?;
    let star = ArcStar {
        graph: graph.copy(alloc)?,
        into: Counts::from_vec(into.counts),
        out: Counts::from_vec(out.counts),
    };
    if total_count(star.out.as_slice()) <= total_count(star.into.as_slice()) {
        balance(alloc, star, Way::Entering, into.family, k as u64)
    } else {
        balance(alloc, star, Way::Leaving, out.family, k as u64)
    }
}

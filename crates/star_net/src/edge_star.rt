ghost use Rattle.std.specs.Prelude.{◌≤◌, length, IfOk};
ghost use Rattle.graph_core.specs.Limits.{most_k};
ghost use Rattle.graph_core.specs.Graph.{IsWithinSize};
ghost use Rattle.graph_core.specs.Lines.{degree};
ghost use Rattle.star_net.specs.Lowered.{IsLowered};
ghost use Rattle.star_net.specs.TightStar.{IsTightStar};

use crate::counts::{LeastCounts, least_counts};
use cut_fn::{Star, StarCut, disjoin};
use flow_cuts::edge_arcs;
use graph_core::{Counts, Graph, NoMemory, Sides};
use std::alloc::Global;

/// A star, and disjoint tight sides that hold each node with a count.
#[derive(Debug, Drop)]
pub struct TightStar {
    pub star: Star,
    pub family: Sides,
}

/// Least counts for d.
fn edge_counts(alloc: Global, graph: &Graph, k: u32) -> Result<LeastCounts, NoMemory>
    requires { k ≤ most_k }
    ensures { IfOk result (λ least. IsLowered (length graph.now.names) k (λ X. degree X graph.now.lines) (length graph.now.names) least.counts.items least.family) }
{
    graph.known();
    let arcs = edge_arcs(alloc, graph.lines())?;
    least_counts(alloc, graph.node_count(), &arcs, k as u64)
}

/// A new node joined to the graph by as few edges as make at least `k` edges leave each proper side of the graph (Frank 1992,
/// the first half of his augmentation).
pub fn least_star(alloc: Global, graph: &Graph, k: u32) -> Result<TightStar, NoMemory>
    requires size { IsWithinSize graph.now }
    requires k { k ≤ most_k }
    ensures { IfOk result (IsTightStar k graph.now) }
{
    let LeastCounts { counts, mut family } = edge_counts(alloc, graph, k)?;
    let star = Star {
        graph: graph.copy(alloc)?,
        count: Counts::from_vec(counts),
    };
    disjoin(&StarCut::new(&star), k as u64, &mut family);
    Ok(TightStar { star, family })
}

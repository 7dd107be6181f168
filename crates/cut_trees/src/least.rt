ghost use Rattle.std.specs.Prelude.{◌≡◌, ◌≢◌, ◌<◌, length, IfOk};
ghost use Rattle.problem_defs.specs.CutTree.{IsCutTree};
ghost use Rattle.flow_cuts.specs.NodeCuts.{IsLeastNodeCut, NoneIsLess};

use crate::order::{Pair, search_from};
use crate::way::{least_on_way, part_at};
use graph_core::{Graph, NoMemory, Side, WeightedPairs};
use std::alloc::Global;

/// Writes the side of the least pair between `u` and `v`, and gives its value.
fn cut_between(graph: &Graph, pairs: &mut [Pair], u: u32, v: u32, side: &mut Side) -> u64
    requires tree { IsCutTree graph.now pairs.old }
    requires u { u < length graph.now.names }
    requires v { v < length graph.now.names }
    requires apart { u ≢ v }
    requires long { length side.old ≡ length graph.now.names }
    ensures cut { IsLeastNodeCut (length graph.now.names) graph.now.lines u v result side.new }
    ensures least { NoneIsLess (length graph.now.names) graph.now.lines u v result }
{
    graph.known();
    search_from(pairs, u, side);
    let j = least_on_way(pairs, v);
    part_at(pairs, j, side);
    pairs[j].2
}

/// The number of edges of a least cut between two nodes, and a side of it that holds `u`, read off a
/// cut tree: the least pair on the tree's way from `u` to `v` has the number, and what the tree
/// joins to `u` without this pair is the side (Gomory and Hu).
pub fn least_cut(
    alloc: Global,
    graph: &Graph,
    pairs: &WeightedPairs,
    u: u32,
    v: u32,
) -> Result<(u64, Side), NoMemory>
    requires tree { IsCutTree graph.now pairs.now }
    requires u { u < length graph.now.names }
    requires v { v < length graph.now.names }
    requires apart { u ≢ v }
    ensures cut { IfOk result (λ cut. IsLeastNodeCut (length graph.now.names) graph.now.lines u v cut.0 cut.1) }
    ensures least { IfOk result (λ cut. NoneIsLess (length graph.now.names) graph.now.lines u v cut.0) }
{
    graph.known();
    let mut tree = Vec::from_slice(alloc, pairs.as_slice())?;
    let mut side = Side::empty(alloc, graph.node_count())?;
    let value = cut_between(graph, &mut tree, u, v, &mut side);
    Ok((value, side))
}

ghost use Rattle.std.specs.Prelude.{◌<◌, ◌^◌, length, All, IfOk};
ghost use Rattle.graph_core.specs.Graph.{IsWithinSize};
ghost use Rattle.edmonds_branchings.specs.Rooted.{CanBePacked, ArePacked};

use crate::network::network;
use crate::round::make_branching;
use graph_core::{Counts, Graph, NoMemory, NumberRows};
use std::alloc::Global;

/// Packs `k` branchings, no arc in two. A branching begins at the nodes that are the head of none of its arcs, and at most
/// `roots[v]` of them begin at each node v (Edmonds 1973, by Lovász's proof of 1976).
pub fn pack_rooted(
    alloc: Global,
    graph: &Graph,
    roots: &Counts,
    k: u32,
) -> Result<NumberRows, NoMemory>
    requires size { IsWithinSize graph.now }
    requires small { All (λ count. count < 2 ^ 32) roots.now }
    requires ready { CanBePacked (length graph.now.names) k graph.now.lines roots.now }
    ensures { IfOk result (ArePacked (length graph.now.names) k graph.now.lines roots.now) }
{
    let mut arcs = network(alloc, graph, roots)?;
    let mut rows = NumberRows::new(alloc);
    for made in 0..k {
        let row = make_branching(alloc, graph, &mut arcs, k - made)?;
        rows.push(row)?;
    }
    Ok(rows)
}

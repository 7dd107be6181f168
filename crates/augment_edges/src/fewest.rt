ghost use Rattle.std.specs.Prelude.{◌≡◌, IfOk};
ghost use Rattle.graph_core.specs.Graph.{IsWithinSize};
ghost use Rattle.problem_defs.specs.Augment.{Suits};
ghost use Rattle.problem_defs.specs.Certified.{IsCertified};

use crate::row::join_components;
use crate::split::split_least_star;
use graph_core::{Graph, NoMemory};
use problem_defs::{AugmentAsk, Certified, Problem};
use std::alloc::Global;

/// Fewest new edges that make the graph `k`-edge-connected, and what shows that fewer don't: disjoint sides that lack twice as
/// many edges, or one less, or the components where `k` is 1 (Watanabe and Nakamura 1987; Frank 1992).
pub fn augment(alloc: Global, graph: &Graph, k: u32) -> Result<Certified<AugmentAsk>, NoMemory>
    requires size { IsWithinSize graph.now }
    requires suits { Suits k graph.now }
    ensures ask { IfOk result (λ found. found.ask ≡ record { k = k }) }
    ensures certified { IfOk result (λ found. IsCertified ⟦<AugmentAsk as Problem>⟧ graph.now found.ask found.object found.dual) }
{
    if k == 1 {
        join_components(alloc, graph)
    } else {
        split_least_star(alloc, graph, k)
    }
}

ghost use Rattle.std.specs.Prelude.{◌≡◌, ◌≤◌, IfOk};
ghost use Rattle.graph_core.specs.Graph.{IsWithinSize};
ghost use Rattle.problem_defs.specs.Augment.{Suits};
ghost use Rattle.problem_defs.specs.Certified.{IsCertified};

use crate::even::even_star;
use graph_core::{Graph, NoMemory};
use problem_defs::{AugmentAsk, Certified, Problem};
use split_undirected::split_all;
use star_net::{TightStar, least_star};
use std::alloc::Global;

/// Fewest new edges for a `k` from 2 on: those of a least star, whose number is made even, split off (Frank 1992). The sides
/// that show that the star is least show that no fewer edges do.
pub fn split_least_star(
    alloc: Global,
    graph: &Graph,
    k: u32,
) -> Result<Certified<AugmentAsk>, NoMemory>
    requires size { IsWithinSize graph.now }
    requires suits { Suits k graph.now }
    requires two { 2 ≤ k }
    ensures ask { IfOk result (λ found. found.ask ≡ record { k = k }) }
    ensures certified { IfOk result (λ found. IsCertified ⟦<AugmentAsk as Problem>⟧ graph.now found.ask found.object found.dual) }
{
    graph.known();
    let TightStar { star, family } = least_star(alloc, graph, k)?;
    let even = even_star(star);
    let pairs = split_all(alloc, &even, k)?;
    Ok(Certified {
        ask: AugmentAsk { k },
        object: pairs,
        dual: family,
    })
}

//! Fewest new arcs that make a digraph k-arc-connected (Frank 1992).
#![tactic(auto)]

ghost use Rattle.std.specs.Prelude.{◌≡◌, IfOk};
ghost use Rattle.graph_core.specs.Graph.{IsWithinSize};
ghost use Rattle.problem_defs.specs.AugmentArcs.{Suits};
ghost use Rattle.problem_defs.specs.Certified.{IsCertified};

use graph_core::{Graph, NoMemory};
use problem_defs::{AugmentArcsAsk, Certified, Family, Problem};
use split_directed::split_all;
use star_net::{TightArcStar, least_arc_star};
use std::alloc::Global;

/// Fewest new arcs that make the digraph `k`-arc-connected, and disjoint sides that show that no fewer do (Frank 1992): a least
/// star is split off, and the sides that are tight in it lack as many arcs as it has either way.
pub fn augment_arcs(
    alloc: Global,
    graph: &Graph,
    k: u32,
) -> Result<Certified<AugmentArcsAsk>, NoMemory>
    requires suits { Suits k graph.now }
    requires size { IsWithinSize graph.now }
    ensures ask { IfOk result (λ found. found.ask ≡ record { k = k }) }
    ensures certified { IfOk result (λ found. IsCertified ⟦<AugmentArcsAsk as Problem>⟧ graph.now found.ask found.object found.dual) }
{
    let TightArcStar { star, way, family } = least_arc_star(alloc, graph, k)?;
    let object = split_all(alloc, &star, k)?;
    Ok(Certified {
        ask: AugmentArcsAsk { k },
        object,
        dual: Family { way, sides: family },
    })
}

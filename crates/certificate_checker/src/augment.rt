ghost use Rattle.std.specs.Prelude.{◌≡◌, ◌≢◌, ◌++◌, ◌↔◌, All, length, IsTrue, IfOk};
ghost use Rattle.graph_core.specs.Graph.{Fits, lines_of};
ghost use Rattle.problem_defs.specs.Shaped.{AreNodes, AreSides};
ghost use Rattle.certificate_checker.specs.Copies.{IsKConnected};

use crate::connected::is_connected_with;
use crate::decide::Decide;
use crate::families::{is_disjoint_family, is_partition};
use graph_core::{Graph, NoMemory, Pairs, Sides};
use problem_defs::{AugmentArcsAsk, AugmentAsk, Family};
use std::alloc::Global;

/// Whether each pair has two different nodes.
fn are_apart(pairs: &Pairs) -> bool
    ensures { IsTrue result ↔ All (λ p. p.0 ≢ p.1) pairs.now }
{
    pairs.as_slice().iter().all(|(u, v)| u != v)
}

/// Whether the pairs are new lines that make the graph k-connected, by its kind.
fn are_enough(alloc: Global, graph: &Graph, pairs: &Pairs, k: u32) -> Result<bool, NoMemory>
    requires { AreNodes (length graph.now.names) pairs.now }
    ensures { IfOk result (λ is. IsTrue is ↔ (All (Fits (length graph.now.names)) (lines_of pairs.now) × IsKConnected graph.now.kind k (length graph.now.names) (graph.now.lines ++ lines_of pairs.now))) }
{
    if !are_apart(pairs) {
        return Ok(false);
    }
    is_connected_with(alloc, graph, pairs, k)
}

impl Decide for AugmentAsk {
    ghost object_fits = { λ g pairs. AreNodes (length g.names) pairs };

    ghost dual_fits = { λ g sides. AreSides (length g.names) sides };

    fn is_object(&self, alloc: Global, graph: &Graph, object: &Pairs) -> Result<bool, NoMemory> {
        are_enough(alloc, graph, object, self.k)
    }

    fn is_dual(&self, graph: &Graph, dual: &Sides) -> bool {
        graph.known();
        let count = graph.node_count() as u32;
        if self.k == 1 {
            is_partition(dual, count) && graph.between(dual) == 0
        } else {
            is_disjoint_family(dual, count)
        }
    }
}

impl Decide for AugmentArcsAsk {
    ghost object_fits = { λ g pairs. AreNodes (length g.names) pairs };

    ghost dual_fits = { λ g dual. AreSides (length g.names) dual.sides };

    fn is_object(&self, alloc: Global, graph: &Graph, object: &Pairs) -> Result<bool, NoMemory> {
        are_enough(alloc, graph, object, self.k)
    }

    fn is_dual(&self, graph: &Graph, dual: &Family) -> bool {
        graph.known();
        is_disjoint_family(&dual.sides, graph.node_count() as u32)
    }
}

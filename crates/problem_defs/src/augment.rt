ghost use Rattle.problem_defs.specs.Augment.Cert.{augment_suits, augment-meets};
ghost use Rattle.problem_defs.specs.declared.ask.Ask.TheVariants as asks;
ghost use Rattle.problem_defs.specs.declared.cert.Body.TheVariants as bodies;
ghost use Rattle.std.specs.Prelude.{◌≡◌, ◌≤◌, ℕ, length, false};
ghost use Rattle.problem_defs.specs.Augment.{half_bound, problem, IsDual};
ghost use Rattle.problem_defs.specs.Augment.Law.{law};
ghost use Rattle.graph_core.specs.Limits.{most_k};

use crate::ask::Ask;
use crate::cert::Body;
use crate::certify::Certify;
use crate::problem::Problem;
use graph_core::{Graph, Pairs, Sides};

/// Fewest new edges that make a graph k-edge-connected (Watanabe and Nakamura; Frank).
#[derive(Clone, Copy, Debug)]
pub struct AugmentAsk {
    pub k: u32,
}

impl Problem for AugmentAsk {
    type Object = Pairs;

    type Dual = Sides;

    const MOST: bool = false;

    ghost MOST = { false };

    ghost suits = { problem.suits };

    ghost feasible = { problem.feasible };

    ghost dual_feasible = { problem.dual_feasible };

    ghost value_of = { problem.value_of };

    ghost bound_of = { problem.bound_of };

    fn value(&self, graph: &Graph, object: &Pairs) -> u64 {
        object.len() as u64
    }

    fn bound(&self, graph: &Graph, dual: &Sides) -> u64 {
        if self.k == 1 {
            return (dual.len() as u64).saturating_sub(1);
        }
        half_bound(graph, self.k, dual)
    }

    ghost weak_duality = { λ ask g pairs sides ok u f d. law ask.k g pairs sides ok u f d };
}

/// Half the sum of k - d over the sides, rounded up.
#[tactic(auto, using(crate::specs::Augment::Law::few_members))]
fn half_bound(graph: &Graph, k: u32, sides: &Sides) -> u64
    requires low { 2 ≤ k }
    requires high { k ≤ most_k }
    requires family { IsDual k graph.now sides.now }
    ensures { result ≡ half_bound k graph.now sides.now }
{
    graph.known();
    let mut total: u64 = 0;
    for side in sides.as_slice() {
        total += graph.degree(side);
    }
    (k as u64 * sides.len() as u64)
        .saturating_sub(total)
        .div_ceil(2)
}

impl Certify for AugmentAsk {
    ghost ask_of = { λ ask. asks.Augment ask.k };

    ghost body_of = { λ value pairs sides. bodies.Edges value pairs sides };

    fn into_ask(self) -> Ask {
        Ask::Augment { k: self.k }
    }

    fn into_body(value: u64, object: Pairs, dual: Sides) -> Body {
        Body::Edges {
            value,
            pairs: object,
            sides: dual,
        }
    }

    ghost suited = { λ ask g _ k suits. augment_suits g ask.k k suits };

    ghost meets = { λ ask g pairs sides graph k suits f d equal. augment-meets g ask.k pairs sides graph k suits f d equal };
}

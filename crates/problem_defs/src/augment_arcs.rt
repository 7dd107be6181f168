ghost use Rattle.problem_defs.specs.AugmentArcs.Cert.{augment_arcs_suits, augment_arcs-meets};
ghost use Rattle.problem_defs.specs.declared.ask.Ask.TheVariants as asks;
ghost use Rattle.problem_defs.specs.declared.cert.Body.TheVariants as bodies;
ghost use Rattle.std.specs.Prelude.{◌≡◌, ◌≤◌, ℕ, length, false};
ghost use Rattle.problem_defs.specs.AugmentArcs.{problem};
ghost use Rattle.problem_defs.specs.AugmentArcs.Law.{law};
ghost use Rattle.problem_defs.specs.Ways.{count_for};
ghost use Rattle.graph_core.specs.Limits.{line_room};

use crate::ask::Ask;
use crate::cert::{Body, Family, Way};
use crate::certify::Certify;
use crate::problem::Problem;
use graph_core::{Graph, Pairs, Side};

/// Fewest new arcs that make a digraph k-arc-connected (Frank).
#[derive(Clone, Copy, Debug)]
pub struct AugmentArcsAsk {
    pub k: u32,
}

impl Problem for AugmentArcsAsk {
    type Object = Pairs;

    type Dual = Family;

    const MOST: bool = false;

    ghost MOST = { false };

    ghost suits = { problem.suits };

    ghost feasible = { problem.feasible };

    ghost dual_feasible = { problem.dual_feasible };

    ghost value_of = { problem.value_of };

    ghost bound_of = { problem.bound_of };

    fn value(&self, graph: &Graph, object: &Pairs) -> u64 {
        object.len() as u64
    }

    #[tactic(auto, using(crate::specs::AugmentArcs::Law::few_members))]
    fn bound(&self, graph: &Graph, dual: &Family) -> u64 {
        graph.known();
        let mut total: u64 = 0;
        for side in dual.sides.as_slice() {
            total += count_for(graph, dual.way, side);
        }
        (self.k as u64 * dual.sides.len() as u64).saturating_sub(total)
    }

    ghost weak_duality = { λ ask g pairs dual g_ok u f d. law ask.k g pairs dual g_ok u f d };
}

/// How many arcs enter the side, or leave it.
fn count_for(graph: &Graph, way: Way, side: &Side) -> u64
    requires { length side.now ≡ length graph.now.names }
    ensures count { result ≡ count_for way graph.now.lines side.now }
    ensures within { result ≤ line_room }
{
    match way {
        Way::Entering => graph.entering(side),
        Way::Leaving => graph.leaving(side),
    }
}

impl Certify for AugmentArcsAsk {
    ghost ask_of = { λ ask. asks.AugmentArcs ask.k };

    ghost body_of = { λ value pairs dual. bodies.Arcs value pairs dual.way dual.sides };

    fn into_ask(self) -> Ask {
        Ask::AugmentArcs { k: self.k }
    }

    fn into_body(value: u64, object: Pairs, dual: Family) -> Body {
        let Family { way, sides } = dual;
        Body::Arcs {
            value,
            pairs: object,
            way,
            sides,
        }
    }

    ghost suited = { λ ask g _ k suits. augment_arcs_suits g ask.k k suits };

    ghost meets = { λ ask g pairs dual graph k suits f d equal. augment_arcs-meets g ask.k pairs dual graph k suits f d equal };
}

ghost use Rattle.problem_defs.specs.Certified.{IsCertified};
ghost use Rattle.problem_defs.specs.Duality.{IsNoBetter};

use crate::problem::Problem;
use graph_core::Graph;

/// An answer to a problem, with what shows that it is best.
#[derive(Drop)]
pub struct Certified<P: Problem> {
    pub ask: P,
    pub object: P::Object,
    pub dual: P::Dual,
}

/// No feasible object is better than one that is certified.
pub fn best<P: Problem>(graph: &Graph, found: &Certified<P>, other: &P::Object)
    requires suits { P.suits found.now.ask graph.now }
    requires certified { IsCertified P.Problem graph.now found.now.ask found.now.object found.now.dual }
    requires feasible { P.feasible found.now.ask graph.now other.now }
    ensures { IsNoBetter P.MOST (P.value_of found.now.ask graph.now other.now) (P.value_of found.now.ask graph.now found.now.object) }
{
    graph.known();
}

ghost use Rattle.std.specs.Prelude.{◌≡◌, ◌↔◌, None, IsTrue, IfOk};
ghost use Rattle.graph_core.specs.Graph.{GraphValue};
ghost use Rattle.problem_defs.specs.Ask.{misfit_of, KIsInRange};
ghost use Rattle.problem_defs.specs.Claims.{certified};
ghost use Rattle.certificate_checker.specs.FirstLack.{FirstLack};

use crate::rejection::Rejection;
use graph_core::{Graph, NoMemory};
use problem_defs::Certify;
use std::alloc::Global;

/// A problem whose objects and duals are decided by its definitions.
pub trait Decide: Certify {
    /// The lines and nodes that an object names are the graph's, and so are the nodes of a dual's sides.
    ghost object_fits: { GraphValue → Self.Object → Type 0 };

    ghost dual_fits: { GraphValue → Self.Dual → Type 0 };

    /// Whether the object is feasible.
    fn is_object(
        &self,
        alloc: Global,
        graph: &Graph,
        object: &Self::Object,
    ) -> Result<bool, NoMemory>
        requires suits { Self.suits self.now graph.now }
        requires fits { object_fits graph.now object.now }
        ensures { IfOk result (λ is. IsTrue is ↔ Self.feasible self.now graph.now object.now) };

    /// Whether the dual is feasible.
    fn is_dual(&self, graph: &Graph, dual: &Self::Dual) -> bool
        requires suits { Self.suits self.now graph.now }
        requires fits { dual_fits graph.now dual.now }
        ensures { IsTrue result ↔ Self.dual_feasible self.now graph.now dual.now };
}

/// Where answers are judged: the graph, and the memory that it takes.
#[derive(Drop)]
pub struct Judge<'a> {
    pub alloc: Global,
    pub graph: &'a Graph,
}

impl Judge<'_> {
    /// Judges a value, an object and a dual.
    pub fn answer<P: Decide>(
        &self,
        ask: &P,
        value: u64,
        object: &P::Object,
        dual: &P::Dual,
    ) -> Result<(), Rejection>
        requires k { KIsInRange (P.ask_of ask.now) }
        requires suits { misfit_of self.now.graph.now (P.ask_of ask.now) ≡ None }
        requires object { P.object_fits self.now.graph.now object.now }
        requires dual { P.dual_fits self.now.graph.now dual.now }
        ensures { FirstLack (certified P.Problem self.now.graph.now ask.now value object.now dual.now) result }
    {
        self.graph.known();
        let Ok(feasible) = ask.is_object(self.alloc, self.graph, object) else {
            return Err(Rejection::NoMemory);
        };
        if !feasible {
            return Err(Rejection::Infeasible);
        }
        if !ask.is_dual(self.graph, dual) {
            return Err(Rejection::BadDual);
        }
        let count = ask.value(self.graph, object);
        if value != count || count != ask.bound(self.graph, dual) {
            return Err(Rejection::Gap);
        }
        Ok(())
    }
}

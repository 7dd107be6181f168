ghost use Rattle.std.specs.Prelude.{◌≡◌, List, Bool, None};
ghost use Rattle.problem_defs.specs.Ask.{misfit_of, KIsInRange};
ghost use Rattle.problem_defs.specs.Meets.{Meets};
ghost use Rattle.problem_defs.specs.Orient.{IsFeasible, Forbids, IsOutcome, body_of};
ghost use Rattle.problem_defs.specs.declared.ask.Ask.TheVariants.{Orient};

use crate::ask::Ask;
use crate::cert::{Body, Cert};
use graph_core::{Graph, Heads, Side};

/// A k-arc-connected orientation of an undirected graph, or a proper side with fewer than 2k edges, which forbids each
/// (Nash-Williams).
#[derive(Debug, Drop)]
pub enum OrientOutcome {
    /// For each edge whether it goes from its first end to its second.
    Done(Heads),
    Never(Side),
}

/// Where a side forbids, no orientation is k-arc-connected.
pub fn no_orientation(graph: &Graph, k: u32, side: &Side)
    requires { Forbids k graph.now side.now }
    ensures { (heads : List Bool) → IsFeasible k graph.now heads → ⊥ }
{
    graph.known();
}

/// The certificate of an orientation, or of a side that forbids every one.
pub fn orientation_certificate(graph: &Graph, k: u32, outcome: OrientOutcome) -> Cert
    requires k { KIsInRange (Orient k) }
    requires suits { misfit_of graph.now (Orient k) ≡ None }
    requires outcome { IsOutcome k graph.now outcome }
    ensures ask { result.ask ≡ Orient k }
    ensures body { result.body ≡ body_of outcome }
    ensures meets { Meets graph.now result }
{
    Cert {
        ask: Ask::Orient { k },
        body: match outcome {
            OrientOutcome::Done(heads) => Body::Turned(heads),
            OrientOutcome::Never(side) => Body::Never(side),
        },
    }
}

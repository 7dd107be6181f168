ghost use Rattle.std.specs.Prelude.{◌≡◌, ◌≤◌, ℕ, List, length, false, None};
ghost use Rattle.problem_defs.specs.Ask.{misfit_of};
ghost use Rattle.problem_defs.specs.Dijoin.{IsFeasible, Forbids, problem};
ghost use Rattle.problem_defs.specs.Dijoin.Cert.{dijoin_suits, dijoin-meets};
ghost use Rattle.problem_defs.specs.Dijoin.Law.{law};
ghost use Rattle.problem_defs.specs.Dijoin.Outcomes.{IsOutcome, body_of};
ghost use Rattle.problem_defs.specs.Meets.{Meets};
ghost use Rattle.problem_defs.specs.declared.ask.Ask.TheVariants as asks;
ghost use Rattle.problem_defs.specs.declared.cert.Body.TheVariants as bodies;

use crate::ask::Ask;
use crate::cert::{Body, Cert};
use crate::certified::Certified;
use crate::certify::{Certify, certificate};
use crate::problem::Problem;
use graph_core::{Graph, Numbers, Side, Sides};

/// A dijoin without fixed arcs whose costs add up to the least (Lucchesi and Younger). A dijoin is a
/// set of arcs, one of which enters each proper side that no arc leaves.
#[derive(Clone, Copy, Debug)]
pub struct DijoinAsk;

/// A least dijoin without fixed arcs, or a side that no arc leaves and only fixed arcs enter.
#[derive(Drop)]
pub enum DijoinOutcome {
    Best(Certified<DijoinAsk>),
    Never(Side),
}

impl Problem for DijoinAsk {
    type Object = Numbers;

    type Dual = Sides;

    const MOST: bool = false;

    ghost MOST = { false };

    ghost suits = { problem.suits };

    ghost feasible = { problem.feasible };

    ghost dual_feasible = { problem.dual_feasible };

    ghost value_of = { problem.value_of };

    ghost bound_of = { problem.bound_of };

    fn value(&self, graph: &Graph, object: &Numbers) -> u64 {
        graph.known();
        let mut total: u64 = 0;
        for j in object.as_slice() {
            total += graph.line(*j as usize).cost as u64;
        }
        total
    }

    fn bound(&self, graph: &Graph, dual: &Sides) -> u64 {
        dual.len() as u64
    }

    ghost weak_duality = { λ _ g join sides _ _ f d. law g join sides f d };
}

impl Certify for DijoinAsk {
    ghost ask_of = { λ _. asks.Dijoin };

    ghost body_of = { λ value join sides. bodies.Join value join sides };

    fn into_ask(self) -> Ask {
        Ask::Dijoin
    }

    fn into_body(value: u64, object: Numbers, dual: Sides) -> Body {
        Body::Join {
            value,
            numbers: object,
            sides: dual,
        }
    }

    ghost suited = { λ _ g _ _ suits. dijoin_suits g suits };

    ghost meets = { λ _ g join sides graph _ suits f d equal. dijoin-meets g join sides graph suits f d equal };
}

/// Where a side forbids, there is no dijoin without fixed arcs.
pub fn no_dijoin(graph: &Graph, side: &Side)
    requires { Forbids graph.now side.now }
    ensures { (join : List ℕ) → IsFeasible graph.now join → ⊥ }
{
    graph.known();
}

/// The certificate of a least dijoin, or of a side that forbids each.
pub fn dijoin_certificate(graph: &Graph, outcome: DijoinOutcome) -> Cert
    requires suits { misfit_of graph.now asks.Dijoin ≡ None }
    requires outcome { IsOutcome graph.now outcome }
    ensures ask { result.ask ≡ asks.Dijoin }
    ensures body { result.body ≡ body_of graph.now outcome }
    ensures meets { Meets graph.now result }
{
    match outcome {
        DijoinOutcome::Best(found) => certificate(graph, found),
        DijoinOutcome::Never(side) => Cert {
            ask: Ask::Dijoin,
            body: Body::Never(side),
        },
    }
}

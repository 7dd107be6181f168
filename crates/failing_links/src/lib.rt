//! How many links of a network have to fail to part two nodes: a small caller of the flow crate, complete with its proof.
//!
//! It is here to be copied from. Its contract says what follows from the solver's contract in the caller's own words.
#![tactic(auto)]

ghost use Rattle.std.specs.Prelude.{◌≤◌, IfOk, length};
ghost use Rattle.problem_defs.specs.Certified.{IsCertified};
ghost use Rattle.problem_defs.specs.Flow.{Suits, IsFeasible};
ghost use Rattle.failing_links.specs.Failures.{IsMostWalks, IsLeastCutSize};

use flow_cuts::most_walks;
use graph_core::{Graph, NoMemory, NumberRows};
use problem_defs::{Certified, FlowAsk, Problem, best};
use std::alloc::Global;

/// How many links have to fail until no walk leads from one node to the other: as many as there are walks that share
/// no link, and as a least cut has (Menger's theorem, edge form).
pub fn failures_that_part(alloc: Global, graph: &Graph, from: u32, to: u32) -> Result<u64, NoMemory>
    requires { Suits from to graph.now }
    ensures walks { IfOk result (λ count. IsMostWalks from to graph.now count) }
    ensures cut { IfOk result (λ count. IsLeastCutSize from to graph.now count) }
{
    graph.known();
    let found = most_walks(alloc, graph, from, to)?;
    Ok(found.object.len() as u64)
}

/// No plan of walks that share no link is longer than what the solver gave: `best` of `problem_defs`, at one problem.
pub fn no_longer_plan(graph: &Graph, found: &Certified<FlowAsk>, plan: &NumberRows)
    requires suits { Suits found.now.ask.from found.now.ask.to graph.now }
    requires certified { IsCertified ⟦<FlowAsk as Problem>⟧ graph.now found.now.ask found.now.object found.now.dual }
    requires plan { IsFeasible found.now.ask.from found.now.ask.to graph.now plan.now }
    ensures { length plan.now ≤ length found.now.object }
{
    best(graph, found, plan);
}

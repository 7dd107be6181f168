ghost use Rattle.std.specs.Prelude.{◌<◌, ◌↔◌, length, All, IsTrue, IfOk, MatchOption};
ghost use Rattle.graph_core.specs.Picked.{picked, ArePicks};
ghost use Rattle.problem_defs.specs.Dijoin.{IsClosed, IsFeasible, Forbids};
ghost use Rattle.dicut_lattice.specs.Uncovered.{NoneForbids, IsUncovered, AreCovered};
ghost use Rattle.dicut_lattice.specs.Networks.{AreArcs};

use crate::picks::{are_free, free_lines, picked_lines};
use crate::search::Search;
use graph_core::{Graph, Line, NoMemory, Numbers, Side, are_distinct};
use std::alloc::Global;

/// Whether the side is proper and no arc leaves it.
pub fn is_closed(graph: &Graph, side: &Side) -> bool
    ensures { IsTrue result ↔ IsClosed graph.now side.now }
{
    side.len() == graph.node_count() && side.is_proper() && graph.leaving(side) == 0
}

/// A closed side that none of the arcs enters, where there is one.
fn uncovered(alloc: Global, graph: &Graph, arcs: &[Line]) -> Result<Option<Side>, NoMemory>
    requires { AreArcs graph.now arcs.now }
    ensures { IfOk result (λ found. MatchOption found (AreCovered graph.now arcs.now) (IsUncovered graph.now arcs.now)) }
{
    graph.known();
    let mut search = Search::new(alloc, graph, arcs)?;
    let mut side = Side::empty(alloc, graph.node_count())?;
    if search.find_with_first(&mut side) {
        return Ok(Some(side));
    }
    if search.find_without_first(&mut side) {
        return Ok(Some(side));
    }
    Ok(None)
}

/// A closed side that none of the arcs with these numbers enters, where there is one.
pub fn missed(alloc: Global, graph: &Graph, numbers: &Numbers) -> Result<Option<Side>, NoMemory>
    requires { ArePicks graph.now.lines numbers.now }
    ensures { IfOk result (λ found. MatchOption found (AreCovered graph.now (picked graph.now.lines numbers.now)) (IsUncovered graph.now (picked graph.now.lines numbers.now))) }
{
    let arcs = picked_lines(alloc, graph, numbers.as_slice())?;
    uncovered(alloc, graph, &arcs)
}

/// A closed side whose entering arcs are all fixed, where there is one.
pub fn blocked(alloc: Global, graph: &Graph) -> Result<Option<Side>, NoMemory>
    ensures { IfOk result (λ found. MatchOption found (NoneForbids graph.now) (Forbids graph.now)) }
{
    graph.known();
    let free = free_lines(alloc, graph)?;
    uncovered(alloc, graph, &free)
}

/// Whether one of the arcs enters each closed side.
fn cover_all(alloc: Global, graph: &Graph, arcs: &[Line]) -> Result<bool, NoMemory>
    requires { AreArcs graph.now arcs.now }
    ensures { IfOk result (λ all. IsTrue all ↔ AreCovered graph.now arcs.now) }
{
    let found = uncovered(alloc, graph, arcs)?;
    Ok(found.is_none())
}

/// Whether these are distinct arcs, none fixed, one of which enters each closed side.
pub fn is_dijoin(alloc: Global, graph: &Graph, join: &Numbers) -> Result<bool, NoMemory>
    requires { All (λ j. j < length graph.now.lines) join.now }
    ensures { IfOk result (λ is. IsTrue is ↔ IsFeasible graph.now join.now) }
{
    graph.known();
    if !are_distinct(alloc, graph.line_count(), join.as_slice())? {
        return Ok(false);
    }
    let arcs = picked_lines(alloc, graph, join.as_slice())?;
    if !are_free(&arcs) {
        return Ok(false);
    }
    cover_all(alloc, graph, &arcs)
}

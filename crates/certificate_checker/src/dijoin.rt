ghost use Rattle.std.specs.Prelude.{◌≡◌, ◌<◌, ◌↔◌, false, All, length, count_by, sum_by, IsTrue, IfOk};
ghost use Rattle.graph_core.specs.Graph.{Fits};
ghost use Rattle.graph_core.specs.Lines.{enters, leaving};
ghost use Rattle.graph_core.specs.Picked.{picked};
ghost use Rattle.problem_defs.specs.Claims.{forbidding};
ghost use Rattle.problem_defs.specs.Dijoin.{IsClosed, IsFeasible, IsDual, Forbids};
ghost use Rattle.problem_defs.specs.Shaped.{AreSides};
ghost use Rattle.certificate_checker.specs.Copies.{CountsMore};
ghost use Rattle.certificate_checker.specs.FirstLack.{FirstLack};
ghost use Rattle.certificate_checker.specs.Dicuts.{Covers, IsApart, IsLetBy};

use crate::copies::Copies;
use crate::decide::Decide;
use crate::rejection::Rejection;
use graph_core::{Graph, Kind, Line, NoMemory, Numbers, Side, Sides, are_distinct};
use problem_defs::DijoinAsk;
use std::alloc::Global;

impl Copies {
    /// Counts these arcs as they lead, so that what leaves a side are those that leave it.
    fn add_picked(&mut self, lines: &[Line], row: &[u32])
        requires fit { All (Fits self.old.n) lines.now }
        requires below { All (λ j. j < length lines.now) row.now }
        ensures n { self.new.n ≡ self.old.n }
        ensures most { self.new.most ≡ self.old.most }
        ensures counted { CountsMore self.old.n self.old.most self.old.table.items self.new.table.items (λ X. leaving X (picked lines.now row.now)) }
    {
        for j in row {
            let line = lines[*j as usize];
            self.add(line.tail, line.head);
        }
    }
}

/// Whether one of these arcs enters each closed side: with them turned round and beside the others, an arc enters each
/// proper side.
fn covers(alloc: Global, graph: &Graph, row: &[u32]) -> Result<bool, NoMemory>
    requires { All (λ j. j < length graph.now.lines) row.now }
    ensures { IfOk result (λ is. IsTrue is ↔ Covers graph.now row.now) }
{
    graph.known();
    let mut copies = Copies::new(alloc, graph.node_count() as u32, 1)?;
    copies.add_lines(Kind::Directed, graph.lines());
    copies.add_picked(graph.lines(), row);
    copies.is_reached(alloc)
}

/// Whether none of these arcs is fixed.
fn are_free(graph: &Graph, row: &[u32]) -> bool
    requires { All (λ j. j < length graph.now.lines) row.now }
    ensures { IsTrue result ↔ All (λ l. l.fixed ≡ false) (picked graph.now.lines row.now) }
{
    for j in row {
        if graph.line(*j as usize).fixed {
            return false;
        }
    }
    true
}

/// Whether the side is proper and no arc leaves it.
fn is_closed(graph: &Graph, side: &Side) -> bool
    requires { length side.now ≡ length graph.now.names }
    ensures { IsTrue result ↔ IsClosed graph.now side.now }
{
    side.is_proper() && graph.leaving(side) == 0
}

fn are_closed(graph: &Graph, sides: &[Side]) -> bool
    requires { AreSides (length graph.now.names) sides.now }
    ensures { IsTrue result ↔ All (IsClosed graph.now) sides.now }
{
    for side in sides {
        if !is_closed(graph, side) {
            return false;
        }
    }
    true
}

/// How many of the sides the arc enters.
fn entered_by(sides: &[Side], line: Line) -> usize
    requires { All (λ X. (line.tail < length X) × (line.head < length X)) sides.now }
    ensures { result ≡ count_by (λ U. enters U line) sides.now }
{
    sides
        .iter()
        .filter(|side| side.has(line.head) && !side.has(line.tail))
        .count()
}

/// Whether the arc is fixed, or enters at most as many of the sides as its cost.
fn is_apart(sides: &[Side], line: Line) -> bool
    requires { All (λ X. (line.tail < length X) × (line.head < length X)) sides.now }
    ensures { IsTrue result ↔ IsApart sides.now line }
{
    line.fixed || entered_by(sides, line) <= line.cost as usize
}

/// Whether each arc that isn't fixed enters at most as many of the sides as its cost.
fn are_apart(graph: &Graph, sides: &[Side]) -> bool
    requires { AreSides (length graph.now.names) sides.now }
    ensures { IsTrue result ↔ All (IsApart sides.now) graph.now.lines }
{
    graph.known();
    for line in graph.lines() {
        if !is_apart(sides, *line) {
            return false;
        }
    }
    true
}

/// Whether the sides are closed, and each arc that isn't fixed enters at most as many of them as its cost.
fn is_family(graph: &Graph, sides: &[Side]) -> bool
    requires { AreSides (length graph.now.names) sides.now }
    ensures { IsTrue result ↔ IsDual graph.now sides.now }
{
    are_closed(graph, sides) && are_apart(graph, sides)
}

/// What the arcs cost together.
fn total_cost(graph: &Graph) -> usize
    ensures { result ≡ sum_by (λ l. l.cost) graph.now.lines }
{
    graph.known();
    let mut total = 0;
    for line in graph.lines() {
        total += line.cost as usize;
    }
    total
}

/// Whether the arc is fixed or doesn't enter the side.
fn is_let_by(side: &Side, line: Line) -> bool
    requires tail { line.tail < length side.now }
    requires head { line.head < length side.now }
    ensures { IsTrue result ↔ IsLetBy side.now line }
{
    line.fixed || !side.has(line.head) || side.has(line.tail)
}

/// Whether each arc that enters the side is fixed.
fn are_let_by(graph: &Graph, side: &Side) -> bool
    requires { length side.now ≡ length graph.now.names }
    ensures { IsTrue result ↔ All (IsLetBy side.now) graph.now.lines }
{
    graph.known();
    for line in graph.lines() {
        if !is_let_by(side, *line) {
            return false;
        }
    }
    true
}

/// Judges a side that is to forbid each dijoin.
pub fn judge_no_dijoin(graph: &Graph, side: &Side) -> Result<(), Rejection>
    requires { length side.now ≡ length graph.now.names }
    ensures { FirstLack (forbidding (Forbids graph.now side.now) (IsFeasible graph.now)) result }
{
    if !is_closed(graph, side) || !are_let_by(graph, side) {
        return Err(Rejection::BadDual);
    }
    Ok(())
}

impl Decide for DijoinAsk {
    ghost object_fits = { λ g join. All (λ j. j < length g.lines) join };

    ghost dual_fits = { λ g sides. AreSides (length g.names) sides };

    fn is_object(&self, alloc: Global, graph: &Graph, object: &Numbers) -> Result<bool, NoMemory> {
        let row = object.as_slice();
        if !are_free(graph, row) {
            return Ok(false);
        }
        if !are_distinct(alloc, graph.line_count(), row)? {
            return Ok(false);
        }
        covers(alloc, graph, row)
    }

    // Where there is a dijoin, an arc that isn't fixed enters each closed side. So the first sides, one more than all
    // arcs cost together, show already that a longer list isn't right, however long it is.
    fn is_dual(&self, graph: &Graph, dual: &Sides) -> bool {
        let sides = dual.as_slice();
        let most = total_cost(graph);
        if most < sides.len() && !is_family(graph, &sides[..most + 1]) {
            return false;
        }
        is_family(graph, sides)
    }
}

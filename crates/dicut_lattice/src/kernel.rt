ghost use Rattle.std.specs.Prelude.{◌≡◌, ◌<◌, length, All, IfOk};
ghost use Rattle.graph_core.specs.Graph.{Fits};
ghost use Rattle.problem_defs.specs.Dijoin.{IsFeasible};
ghost use Rattle.dicut_lattice.specs.Spread.{place_from, StepsBack, HasPassed, IsLeastSpread, IsCommon};
ghost use Rattle.dicut_lattice.specs.Tight.{IsKernel};

use crate::picks::picked_lines;
use crate::reach::Reach;
use graph_core::{Graph, Line, NoMemory, Numbers, Side};
use std::alloc::Global;
use std::marker::Model;

/// Finds what the tight sides of a dijoin that hold a node have in common.
#[derive(Drop)]
pub struct Kernels<'a> {
    graph: &'a Graph,
    join: &'a Numbers,
    arcs: Vec<Line>,
    reach: Reach<'a>,
    whole: Side,
    work: Side,
}

impl<'a> Model for Kernels<'a> {
    ghost use Rattle.dicut_lattice.specs.Tight.{TightValue};
    ghost use Rattle.dicut_lattice.specs.Spread.{KeepsArcs};

    ghost Value = { TightValue };

    ghost view = { λ k. record { graph = k.graph.now; join = k.join.now } };

    ghost invariant = { λ k. KeepsArcs k.graph.now k.join.now k.arcs.items k.reach k.whole k.work };
}

impl<'a> Kernels<'a> {
    /// For the kernels of a dijoin.
    pub fn new(alloc: Global, graph: &'a Graph, join: &'a Numbers) -> Result<Kernels<'a>, NoMemory>
        requires { IsFeasible graph.now join.now }
        ensures { IfOk result (λ kernels. kernels ≡ record { graph = graph.now; join = join.now }) }
    {
        graph.known();
        let n = graph.node_count();
        let arcs = picked_lines(alloc, graph, join.as_slice())?;
        let reach = Reach::of(alloc, graph)?;
        let mut whole = Side::empty(alloc, n)?;
        whole.complement();
        let work = Side::empty(alloc, n)?;
        Ok(Kernels {
            graph,
            join,
            arcs,
            reach,
            whole,
            work,
        })
    }

    /// What all tight sides with the node have in common.
    pub fn kernel(&mut self, holds: u32, into: &mut Side)
        requires holds { holds < length self.old.graph.names }
        requires long { length into.old ≡ length self.old.graph.names }
        ensures same { self.new ≡ self.old }
        ensures kernel { IsKernel self.old.graph self.old.join holds into.new }
    {
        into.set_to(&self.whole);
        meet_spreads(&self.reach, &self.arcs, holds, &mut self.work, into);
    }
}

/// Takes from all nodes those that aren't in each of the smallest sets with `y` that are spread. Where the head of an
/// arc was taken out before, the set for that arc has all that is left.
fn meet_spreads(reach: &Reach, arcs: &[Line], y: u32, work: &mut Side, into: &mut Side)
    requires fit { All (Fits (length reach.now.names)) arcs.now }
    requires y_in { y < length reach.now.names }
    requires long { length work.old ≡ length reach.now.names }
    requires whole { IsCommon reach.now arcs.now 0 y into.old }
    ensures long { length work.new ≡ length work.old }
    ensures common { IsCommon reach.now arcs.now (length arcs.now) y into.new }
{
    for skip in 0..arcs.len() {
        if into.has(arcs[skip].head) {
            spread(reach, arcs, skip, y, work);
            into.meet(work);
        }
    }
}

/// The smallest set with `y` that no arc leaves and that none of these arcs enters, but that at the place that is left out.
fn spread(reach: &Reach, arcs: &[Line], skip: usize, y: u32, into: &mut Side)
    requires fit { All (Fits (length reach.now.names)) arcs.now }
    requires y_in { y < length reach.now.names }
    requires long { length into.old ≡ length reach.now.names }
    ensures { IsLeastSpread reach.now arcs.now skip y into.new }
{
    into.set_to(reach.side(y));
    while pass_both(reach, arcs, skip, into) {}
}

/// Spreads the set over the arcs from the last to the first, and if it grew also from the first to the last; and tells
/// whether it grew by the last pass. On a long path whose arcs are numbered along it or against it, the passes of one
/// direction take in a node at a time, and those of the other take in all.
fn pass_both(reach: &Reach, arcs: &[Line], skip: usize, into: &mut Side) -> bool
    requires fit { All (Fits (length reach.now.names)) arcs.now }
    requires long { length into.old ≡ length reach.now.names }
    ensures { HasPassed reach.now arcs.now skip (λ j. j < length arcs.now) into.old result into.new }
{
    pass(reach, arcs, skip, true, into) && pass(reach, arcs, skip, false, into)
}

/// Spreads the set over each of the arcs once, from the last or from the first one on, and tells whether it grew.
fn pass(reach: &Reach, arcs: &[Line], skip: usize, last: bool, into: &mut Side) -> bool
    requires fit { All (Fits (length reach.now.names)) arcs.now }
    requires long { length into.old ≡ length reach.now.names }
    ensures { HasPassed reach.now arcs.now skip (λ j. j < length arcs.now) into.old result into.new }
{
    let mut grew = false;
    for seen in 0..arcs.len() {
        let place = counted(last, arcs.len(), seen);
        if place != skip && go_back(reach, arcs[place], into) {
            grew = true;
        }
    }
    grew
}

/// Place `i` of `m`, counted from the last one or from the first.
fn counted(last: bool, m: usize, i: usize) -> usize
    requires { i < m }
    ensures is { result ≡ place_from last m i }
    ensures within { result < m }
{
    if last { m - (i + 1) } else { i }
}

/// Where the arc enters the set, joins to it what the tail reaches, and tells so.
fn go_back(reach: &Reach, line: Line, into: &mut Side) -> bool
    requires fit { Fits (length reach.now.names) line }
    requires long { length into.old ≡ length reach.now.names }
    ensures { StepsBack reach.now line into.old result into.new }
{
    if !into.has(line.head) || into.has(line.tail) {
        return false;
    }
    into.join(reach.side(line.tail));
    true
}

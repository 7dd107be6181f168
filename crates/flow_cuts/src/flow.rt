ghost use Rattle.std.specs.Prelude.{◌≡◌, ℕ, ◌<◌, ◌≤◌, ◌^◌, length, Some, None, IfOk, map, vec_len, All};
ghost use Rattle.flow_cuts.specs.Cuts.{IsLeastCapacity, IsSmallestCut, IsLargestCut};
ghost use Rattle.flow_cuts.specs.Flow.{Origin, Run, FellShort, RunsBetween, AreWalks};
ghost use Rattle.flow_cuts.specs.GraphArcs.{arcs_of};
ghost use Rattle.flow_cuts.specs.Network.{arc_room};
ghost use Rattle.flow_cuts.specs.Residual.{EachFits, AreLinksOf, from_at, to_at, link_of, link_along};
ghost use Rattle.flow_cuts.specs.Sound.{arcs_seen, origin_of, IsWholeOf};
ghost use Rattle.flow_cuts.specs.declared.network.Step.{Step as StepOf};
ghost use Rattle.graph_core.specs.Limits.{side_room};

use crate::adjacency::Adjacency;
use crate::course::Course;
use crate::network::{Cap, Link};
use crate::residual::Residual;
use crate::walks::{sent_links, split_walks};
use graph_core::{Graph, Kind, Line, NoMemory, NumberRows, Side};
use std::alloc::Global;
use std::marker::Model;

/// The graph of which a network was made.
#[derive(Drop)]
struct Source {
    kind: Kind,
    lines: Vec<Line>,
}

/// The limit of a run and its answer.
#[derive(Clone, Copy)]
struct Outcome {
    stop: u64,
    answer: u64,
}

/// A network, and the most that goes from one of its sides to another. By the theorem of Ford and Fulkerson this is the least
/// capacity of a cut between them.
#[derive(Drop)]
pub struct Flow {
    whole: Vec<Link>,
    graph: Option<Source>,
    course: Course,
    last: Option<Outcome>,
    residual: Residual,
}

impl Model for Flow {
    ghost use Rattle.flow_cuts.specs.Flow.{FlowValue};

    ghost Value = { FlowValue };

    ghost use Rattle.flow_cuts.specs.Sound.{value_of, IsSound};

    ghost view = { value_of };

    ghost invariant = { IsSound };
}

/// The arcs as links along which nothing goes back.
fn links_of(alloc: Global, arcs: &[Cap]) -> Result<Vec<Link>, NoMemory>
    ensures links { IfOk result (λ links. links.items ≡ map link_of arcs.now) }
    ensures fits { IfOk result (λ links. EachFits links.items) }
{
    let mut links = Vec::with_capacity(alloc, arcs.len())?;
    for arc in arcs {
        let link = arc.link();
        links.push(link)?;
    }
    Ok(links)
}

/// The lines of a graph as links.
fn links_along(alloc: Global, kind: Kind, lines: &[Line]) -> Result<Vec<Link>, NoMemory>
    ensures links { IfOk result (λ links. links.items ≡ map (link_along kind) lines.now) }
    ensures fits { IfOk result (λ links. EachFits links.items) }
{
    let mut links = Vec::with_capacity(alloc, lines.len())?;
    for line in lines {
        let link = Link::along(kind, *line);
        links.push(link)?;
    }
    Ok(links)
}

impl Flow {
    /// A flow over links, before its first run.
    fn over(
        alloc: Global,
        n: usize,
        whole: Vec<Link>,
        graph: Option<Source>,
    ) -> Result<Flow, NoMemory>
        requires nodes { n ≤ side_room }
        requires few { vec_len whole < 2 ^ 31 }
        requires fits { EachFits whole.items }
        requires from { (s : StepOf) → s.link < length whole.items → from_at whole.items s < n }
        requires to { (s : StepOf) → s.link < length whole.items → to_at whole.items s < n }
        requires arcs { AreLinksOf (arcs_seen graph whole.items) whole.items }
        requires graph { IsWholeOf graph whole.items }
        ensures { IfOk result (λ flow. flow ≡ record { nodes = n; arcs = arcs_seen graph whole.items; graph = origin_of graph; last = None }) }
    {
        let steps = Adjacency::of_links(alloc, n, &whole)?;
        let residual = Residual::new(alloc, n, &whole)?;
        let inside = Side::empty(alloc, n)?;
        let outside = Side::empty(alloc, n)?;
        Ok(Flow {
            whole,
            graph,
            course: Course {
                steps,
                inside,
                outside,
            },
            last: None,
            residual,
        })
    }

    /// A flow over arcs with capacities among `n` nodes, before its first run.
    pub fn of_arcs(alloc: Global, n: usize, arcs: &[Cap]) -> Result<Flow, NoMemory>
        requires nodes { n ≤ side_room }
        requires few { length arcs.now ≤ arc_room }
        requires ends { All (λ arc. (arc.tail < n) × (arc.head < n)) arcs.now }
        ensures { IfOk result (λ flow. flow ≡ record { nodes = n; arcs = arcs.now; graph = None; last = None }) }
    {
        let whole = links_of(alloc, arcs)?;
        Flow::over(alloc, n, whole, None)
    }

    /// A flow over a graph, before its first run: an arc has capacity 1, and an edge has it in both directions.
    pub fn of_graph(alloc: Global, graph: &Graph) -> Result<Flow, NoMemory>
        ensures { IfOk result (λ flow. flow ≡ record { nodes = length graph.now.names; arcs = arcs_of graph.now.kind graph.now.lines; graph = Some (record { kind = graph.now.kind; lines = graph.now.lines }); last = None }) }
    {
        graph.known();
        let kind = graph.kind();
        let whole = links_along(alloc, kind, graph.lines())?;
        let lines = Vec::from_slice(alloc, graph.lines())?;
        Flow::over(
            alloc,
            graph.node_count(),
            whole,
            Some(Source { kind, lines }),
        )
    }

    /// The smaller of `stop` and the least capacity that leaves a side which holds the inside and misses the outside.
    pub fn run(&mut self, inside: &Side, outside: &Side, stop: u64) -> u64
        requires inside { length inside.now ≡ self.old.nodes }
        requires outside { length outside.now ≡ self.old.nodes }
        ensures least { IsLeastCapacity self.old.nodes inside.now outside.now self.old.arcs stop result }
        ensures ran { self.new ≡ record self.old { last = Some (record { inside = inside.now; outside = outside.now; stop = stop; answer = result }) } }
    {
        self.course.inside.set_to(inside);
        self.course.outside.set_to(outside);
        let answer = self.residual.renew(&self.whole, &self.course, stop);
        self.last = Some(Outcome { stop, answer });
        answer
    }

    /// The smallest side that holds the inside of the last run, misses its outside, and is left by as much capacity as the run
    /// answered.
    pub fn side(&self, into: &mut Side)
        requires short { FellShort self.now }
        requires len { length into.old ≡ self.now.nodes }
        ensures { (r : Run) → self.now.last ≡ Some r → IsSmallestCut self.now.nodes r.inside r.outside self.now.arcs r.answer into.new }
    {
        into.set_to(&self.residual.near);
    }

    /// The largest side that holds the inside of the last run, misses its outside, and is left by as much capacity as the run
    /// answered.
    pub fn wide_side(&self, into: &mut Side)
        requires short { FellShort self.now }
        requires len { length into.old ≡ self.now.nodes }
        ensures { (r : Run) → self.now.last ≡ Some r → IsLargestCut self.now.nodes r.inside r.outside self.now.arcs r.answer into.new }
    {
        into.set_to(&self.residual.far);
    }

    /// As many disjoint walks as the last run answered, from its one node inside to its one node outside.
    pub fn walks(&self, alloc: Global) -> Result<NumberRows, NoMemory>
        requires made { (g : Origin) × (self.now.graph ≡ Some g) }
        requires ran { (r : Run) × (s : ℕ) × (t : ℕ) × (self.now.last ≡ Some r) × RunsBetween r s t }
        ensures { IfOk result (λ walks. (g : Origin) (r : Run) (s t : ℕ) → self.now.graph ≡ Some g → self.now.last ≡ Some r → RunsBetween r s t → AreWalks g s t r.answer walks) }
    {
        let Some(outcome) = self.last else {
            unreachable!("a run came before");
        };
        let mut sent = sent_links(alloc, &self.whole, &self.residual.links)?;
        split_walks(alloc, &self.course, outcome.answer, &mut sent)
    }
}

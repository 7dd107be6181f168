//! Disjoint walks across small graphs, and that nothing is better.

ghost use Rattle.std.specs.Prelude.{◌≡◌, ℕ, Bool, List, length};
ghost use Rattle.graph_core.specs.Side.{meet};
ghost use Rattle.graph_core.specs.declared.graph.Kind.TheVariants.{Undirected};
ghost use Rattle.problem_defs.specs.Certified.{IsCertified};
ghost use Rattle.problem_defs.specs.Flow.{Suits};
ghost use Rattle.flow_cuts.specs.Cuts.{IsMinimumCut};
ghost use Rattle.flow_cuts.specs.GraphArcs.{arcs_of};

use crate::asserts::same;
use cut_fn::EdgeCut;
use failing_links::{failures_that_part, no_longer_plan};
use flow_cuts::{Flow, capacity_is_the_cut, least_cuts_meet_and_join, most_walks};
use graph_core::{Graph, Kind, Line, NoMemory, NumberRows, Side};
use problem_defs::{Certified, FlowAsk, Problem, best};
use std::alloc::{AllocError, Global};
use std::process::Abort;
use std::test::Fail;
use test_graphs::{SQUARE, graph_of};

const ONE_WAY: &[u8] =
    b"graph directed\nnode a\nnode b\nnode c\nnode d\narc a b\narc b d\narc a c\narc c d\nend\n";

// The shortest walk, by b and e, has to give its middle edge back.
const DETOURS: &[u8] =
    b"graph undirected\nnode a\nnode b\nnode c\nnode d\nnode e\nnode f\nnode g\nnode h\nedge a b\nedge b e\nedge e h\nedge a c\nedge c d\nedge d e\nedge b f\nedge f g\nedge g h\nend\n";

const OPPOSITE: &[u8] =
    b"graph undirected\nnode a\nnode b\nnode c\nedge a b\nedge b a\nedge b c\nedge c b\nedge a c\nend\n";

const PARALLEL: &[u8] =
    b"graph directed\nnode a\nnode b\nnode c\narc a b\narc a b\narc a b\narc b c\narc b c\nend\n";

const ARCS: &[u8] =
    b"graph directed\nnode a\nnode b\nnode c\narc a b\narc b a\narc a b\narc b c\narc a c\narc c b\nend\n";

// A graph, two nodes, and how many disjoint walks lead from the one to the other.
const WALKS: [(&[u8], u32, u32, usize); 11] = [
    (SQUARE, 0, 3, 2),
    (SQUARE, 1, 2, 2),
    (ONE_WAY, 0, 3, 2),
    (ONE_WAY, 3, 0, 0),
    (DETOURS, 0, 7, 2),
    (OPPOSITE, 0, 2, 3),
    (PARALLEL, 0, 1, 3),
    (PARALLEL, 0, 2, 2),
    (ARCS, 0, 2, 2),
    (ARCS, 2, 0, 1),
    (ARCS, 0, 1, 3),
];

// The other end of a line, where one can go along it from a node.
fn leads(kind: Kind, line: Line, from: u32) -> Option<u32> {
    if line.tail == from {
        Some(line.head)
    } else if line.head == from && kind == Kind::Undirected {
        Some(line.tail)
    } else {
        None
    }
}

// Follows a walk and notes the lines that it uses, none of them a second time.
fn follow(
    kind: Kind,
    lines: &[Line],
    walk: &[u32],
    from: u32,
    used: &mut Vec<u32>,
) -> Result<Option<u32>, AllocError> {
    let mut at = from;
    for j in walk {
        let Some(line) = lines.get(*j as usize) else {
            return Ok(None);
        };
        let Some(next) = leads(kind, *line, at) else {
            return Ok(None);
        };
        if used.contains(j) {
            return Ok(None);
        }
        used.push(*j)?;
        at = next;
    }
    Ok(Some(at))
}

// Both laws together: of two least cuts of a graph of edges, the intersection is one.
fn least_cuts_of_edges_meet(graph: &Graph)
    ensures { (I O X Y : List Bool) (value : ℕ) → IsMinimumCut (length graph.now.names) I O (arcs_of Undirected graph.now.lines) value X → IsMinimumCut (length graph.now.names) I O (arcs_of Undirected graph.now.lines) value Y → IsMinimumCut (length graph.now.names) I O (arcs_of Undirected graph.now.lines) value (meet X Y) }
{
    capacity_is_the_cut();
    least_cuts_meet_and_join(&EdgeCut::new(graph));
}

// From one node to the other, and no line twice in all of them.
fn are_disjoint_walks(
    alloc: Global,
    graph: &Graph,
    walks: &NumberRows,
    from: u32,
    to: u32,
) -> Result<bool, AllocError> {
    let mut used = Vec::new(alloc);
    for walk in walks.as_slice() {
        let end = follow(
            graph.kind(),
            graph.lines(),
            walk.as_slice(),
            from,
            &mut used,
        )?;
        if end != Some(to) {
            return Ok(false);
        }
    }
    Ok(true)
}

// The walks of a run that stops at so many.
fn walks_of_run(
    alloc: Global,
    graph: &Graph,
    from: u32,
    to: u32,
    stop: u64,
) -> Result<NumberRows, NoMemory>
    requires { Suits from to graph.now }
{
    graph.known();
    let n = graph.node_count();
    let mut inside = Side::empty(alloc, n)?;
    let mut outside = Side::empty(alloc, n)?;
    let mut flow = Flow::of_graph(alloc, graph)?;
    inside.hold_only(from);
    outside.hold_only(to);
    flow.run(&inside, &outside, stop);
    flow.walks(alloc)
}

// Each feasible object is no better, so neither is the object itself; value and bound are numbers that are equal.
fn value_and_bound(graph: &Graph, found: &Certified<FlowAsk>) -> (u64, u64)
    requires suits { Suits found.now.ask.from found.now.ask.to graph.now }
    requires certified { IsCertified ⟦<FlowAsk as Problem>⟧ graph.now found.now.ask found.now.object found.now.dual }
    ensures { result.0 ≡ result.1 }
{
    best(graph, found, &found.object);
    no_longer_plan(graph, found, &found.object);
    (
        found.ask.value(graph, &found.object),
        found.ask.bound(graph, &found.dual),
    )
}

fn are_found(
    rt: &impl Abort,
    alloc: Global,
    rows: &[(&[u8], u32, u32, usize)],
) -> Result<(), Fail> {
    for (text, from, to, count) in rows {
        let graph = graph_of(alloc, text)?;
        let (from, to, count) = (*from, *to, *count);
        let n = graph.node_count();
        if from as usize >= n || to as usize >= n || from == to {
            return Err("the graph has other nodes".into());
        }
        let found = most_walks(alloc, &graph, from, to)?;
        let disjoint = are_disjoint_walks(alloc, &graph, &found.object, from, to)?;
        same(
            rt,
            &(found.object.len(), disjoint),
            &(count, true),
            &(from, to),
        );
        let first = walks_of_run(alloc, &graph, from, to, 1)?;
        let disjoint = are_disjoint_walks(alloc, &graph, &first, from, to)?;
        same(
            rt,
            &(first.len(), disjoint),
            &(count.min(1), true),
            &(from, to),
        );
        let want = (count as u64, count as u64);
        same(rt, &value_and_bound(&graph, &found), &want, &(from, to));
        let failures = failures_that_part(alloc, &graph, from, to)?;
        same(rt, &failures, &(count as u64), &(from, to));
        least_cuts_of_edges_meet(&graph);
    }
    Ok(())
}

#[test]
fn walks_across_small_graphs_are_disjoint_and_certified(rt: HostRuntime) -> Result<(), Fail> {
    are_found(&rt, rt.alloc(), &WALKS)
}

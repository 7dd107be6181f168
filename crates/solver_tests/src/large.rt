//! The orientation of a graph with more nodes and edges than a text may have, looked over by plain counts.

ghost use Rattle.std.specs.Prelude.{◌≡◌, ◌≢◌, false, All, AllPairs, IfOk, IsTrue, length};
ghost use Rattle.graph_core.specs.Graph.{Fits};
ghost use Rattle.graph_core.specs.declared.graph.Kind.TheVariants.{Undirected as UndirectedKind};

use crate::asserts::same;
use graph_core::{Graph, Kind, Line, Name, NoMemory};
use nw_orientation::orient;
use problem_defs::OrientOutcome;
use std::alloc::Global;
use std::process::Abort;
use std::test::Fail;

const NODES: u32 = 512;

// Each node has an edge to the one that lies so far on, so that each has degree 32. The ring that is there eight times makes the
// graph 16-edge-connected.
const DISTANCES: [u32; 16] = [1, 1, 1, 1, 1, 1, 1, 1, 3, 7, 12, 31, 64, 100, 200, 255];

/// Whether no name is this one.
fn is_new(names: &[Name], name: &Name) -> bool
    ensures { IsTrue result → All (λ known. known ≢ name.now) names.now }
{
    names.iter().all(|known| !known.is(name.bytes()))
}

/// The numbers below n as names.
fn distinct_names(alloc: Global, n: u32) -> Result<Vec<Name>, Fail>
    ensures { IfOk result (λ names. (length names.items ≡ n) × AllPairs (λ a b. a ≢ b) names.items) }
{
    let mut names = Vec::new(alloc);
    for v in 0..n {
        let text = format!(in alloc; "{v}")?;
        if !Name::is_name(text.as_bytes()) {
            return Err("a number is no name".into());
        }
        let name = Name::make(alloc, text.as_bytes())?;
        if !is_new(&names, &name) {
            return Err("two nodes have one name".into());
        }
        names.push(name)?;
    }
    Ok(names)
}

/// Whether each line is an edge between two different nodes of n.
fn are_edges(n: usize, lines: &[Line]) -> bool
    ensures ends { IsTrue result → All (Fits n) lines.now }
    ensures free { IsTrue result → All (λ l. l.fixed ≡ false) lines.now }
    ensures cheap { IsTrue result → All (λ l. l.cost ≡ 1) lines.now }
{
    lines.iter().all(|line| {
        (line.tail as usize) < n
            && (line.head as usize) < n
            && line.tail != line.head
            && !line.fixed
            && line.cost == 1
    })
}

/// Puts an edge from each node to the one that lies so far on behind the lines.
fn push_round(lines: &mut Vec<Line>, distance: u32) -> Result<(), NoMemory> {
    for tail in 0..NODES {
        lines.push(Line {
            tail,
            head: tail.wrapping_add(distance) % NODES,
            fixed: false,
            cost: 1,
        })?;
    }
    Ok(())
}

fn large_graph(alloc: Global) -> Result<Graph, Fail>
    ensures { IfOk result (λ graph. graph.kind ≡ UndirectedKind) }
{
    let names = distinct_names(alloc, NODES)?;
    let mut lines = Vec::new(alloc);
    for distance in DISTANCES {
        push_round(&mut lines, distance)?;
    }
    if lines.len() > 65536 || !are_edges(names.len(), &lines) {
        return Err("the lines make no graph".into());
    }
    Ok(Graph::new(Kind::Undirected, names, lines))
}

/// How many edges, turned by the marks, enter the node, and how many leave it.
fn arcs_at(lines: &[Line], heads: &[bool], v: u32) -> (u32, u32) {
    let mut into: u32 = 0;
    let mut out: u32 = 0;
    for (line, forward) in lines.iter().zip(heads.iter()) {
        let (tail, head) = if *forward {
            (line.tail, line.head)
        } else {
            (line.head, line.tail)
        };
        into = into.wrapping_add((head == v) as u32);
        out = out.wrapping_add((tail == v) as u32);
    }
    (into, out)
}

/// Asserts that each edge has a direction, and that k arcs at least enter each node, and as many leave it.
fn is_oriented(rt: &impl Abort, graph: &Graph, heads: &[bool], k: u32) {
    same(rt, &heads.len(), &graph.line_count(), &"directions");
    for v in 0..NODES {
        let (into, out) = arcs_at(graph.lines(), heads, v);
        let found = (into >= k, out >= k, into.wrapping_add(out));
        same(rt, &found, &(true, true, 32), &v);
    }
}

#[test]
fn a_large_graph_is_oriented(rt: HostRuntime) -> Result<(), Fail> {
    let graph = large_graph(rt.alloc())?;
    same(&rt, &graph.node_count(), &512, &"nodes");
    same(&rt, &graph.line_count(), &8192, &"edges");
    match orient(rt.alloc(), &graph, 2)? {
        OrientOutcome::Done(heads) => is_oriented(&rt, &graph, heads.as_slice(), 2),
        OrientOutcome::Never(_) => return Err("an orientation was denied".into()),
    }
    Ok(())
}

//! Orientations, looked over by plain counts at every side.

use crate::asserts::same;
use crate::sides::holds;
use graph_core::{Kind, Line};
use nw_orientation::orient;
use problem_defs::OrientOutcome;
use std::alloc::Global;
use std::process::Abort;
use std::test::Fail;
use test_graphs::{BACKBONE, EDGE, K4, graph_of};

/// The complete graph on five nodes.
const K5: &[u8] =
    b"graph undirected\nnode a\nnode b\nnode c\nnode d\nnode e\nedge a b\nedge a c\nedge a d\nedge a e\nedge b c\nedge b d\nedge b e\nedge c d\nedge c e\nedge d e\nend\n";

const THREE_PARALLEL: &[u8] =
    b"graph undirected\nnode a\nnode b\nedge a b\nedge a b\nedge b a\nend\n";

const ONE_NODE: &[u8] = b"graph undirected\nnode a\nend\n";

/// Two squares that share a node.
const BOW: &[u8] =
    b"graph undirected\nnode a\nnode b\nnode c\nnode d\nnode e\nnode f\nnode g\nedge a b\nedge c b\nedge c d\nedge a d\nedge a e\nedge f e\nedge f g\nedge a g\nend\n";

/// How many of the edges, turned by the marks, enter the side.
fn entering(lines: &[Line], heads: &[bool], side: u32) -> u32 {
    let mut count: u32 = 0;
    for (j, line) in lines.iter().enumerate() {
        let (tail, head) = if heads.get(j) == Some(&true) {
            (line.tail, line.head)
        } else {
            (line.head, line.tail)
        };
        if holds(side, head) && !holds(side, tail) {
            count = count.wrapping_add(1);
        }
    }
    count
}

/// The least number that enters a proper side of n nodes.
fn least_entering(lines: &[Line], heads: &[bool], n: u32) -> u32 {
    let mut least = u32::MAX;
    for side in 1..1u32.wrapping_shl(n).wrapping_sub(1) {
        least = least.min(entering(lines, heads, side));
    }
    least
}

fn orientation_of(
    rt: &impl Abort,
    alloc: Global,
    text: &[u8],
    k: u32,
) -> Result<OrientOutcome, Fail> {
    let graph = graph_of(alloc, text)?;
    assert!(rt; graph.kind() == Kind::Undirected);
    assert!(rt; k >= 1 && k <= 32);
    Ok(orient(alloc, &graph, k)?)
}

// A graph, k, and how many edges it has.
const ORIENTED: [(&str, &[u8], u32, usize); 7] = [
    ("each degree is odd", K4, 1, 6),
    ("five nodes", K5, 2, 10),
    ("five nodes, with edges to spare", K5, 1, 10),
    ("a ring with chords", BACKBONE, 1, 16),
    ("three parallel edges", THREE_PARALLEL, 1, 3),
    ("a node that parts the graph", BOW, 1, 8),
    ("one node", ONE_NODE, 3, 0),
];

#[test]
fn arcs_enter_each_side(rt: HostRuntime) -> Result<(), Fail> {
    for (what, text, k, edges) in &ORIENTED {
        let graph = graph_of(rt.alloc(), text)?;
        match orientation_of(&rt, rt.alloc(), text, *k)? {
            OrientOutcome::Done(heads) => {
                let n = graph.node_count() as u32;
                let least = least_entering(graph.lines(), heads.as_slice(), n);
                same(&rt, &(heads.len(), least >= *k), &(*edges, true), what);
            }
            OrientOutcome::Never(_) => return Err("an orientation was denied".into()),
        }
    }
    Ok(())
}

// A graph, k, and how many edges the sides of one node have, the only ones with fewer than 2k.
const DENIED: [(&str, &[u8], u32, u64); 4] = [
    ("one edge", EDGE, 1, 1),
    ("each degree is 3", K4, 2, 3),
    ("each degree is 4", K5, 3, 4),
    ("three parallel edges", THREE_PARALLEL, 2, 3),
];

#[test]
fn sides_with_few_edges_deny(rt: HostRuntime) -> Result<(), Fail> {
    for (what, text, k, edges) in &DENIED {
        let graph = graph_of(rt.alloc(), text)?;
        match orientation_of(&rt, rt.alloc(), text, *k)? {
            OrientOutcome::Never(side) => {
                let size = side.count();
                assert!(&rt; side.len() == graph.node_count());
                let alone = size == 1 || size.wrapping_add(1) == graph.node_count();
                same(&rt, &(alone, graph.degree(&side)), &(true, *edges), what);
            }
            OrientOutcome::Done(_) => return Err("a side was overlooked".into()),
        }
    }
    Ok(())
}

//! Fewest new edges, worked out by hand.

use crate::asserts::same;
use augment_edges::augment;
use graph_core::Kind;
use problem_defs::Problem;
use std::alloc::Global;
use std::process::Abort;
use std::test::Fail;
use test_graphs::{BACKBONE, PATH, TRIANGLE, graph_of};

const ONE_NODE: &[u8] = b"graph undirected\nnode a\nend\n";

const THREE_NODES: &[u8] = b"graph undirected\nnode a\nnode b\nnode c\nend\n";

const FOUR_NODES: &[u8] = b"graph undirected\nnode a\nnode b\nnode c\nnode d\nend\n";

const TWO_EDGES: &[u8] =
    b"graph undirected\nnode a\nnode b\nnode c\nnode d\nedge a b\nedge c d\nend\n";

// A graph, k, and how many edges it lacks.
const LACKING: [(&str, &[u8], u32, usize); 9] = [
    ("one node, connected", ONE_NODE, 1, 0),
    ("one node, with k 3", ONE_NODE, 3, 0),
    ("four nodes alone", FOUR_NODES, 1, 3),
    ("a connected path", PATH, 1, 0),
    ("two edges apart", TWO_EDGES, 1, 1),
    ("the ends of a path", PATH, 2, 1),
    ("an odd sum", THREE_NODES, 3, 5),
    ("a triangle", TRIANGLE, 2, 0),
    ("a ring with chords", BACKBONE, 3, 2),
];

fn are_lacking(
    rt: &impl Abort,
    alloc: Global,
    rows: &[(&str, &[u8], u32, usize)],
) -> Result<(), Fail> {
    for (what, text, k, lacking) in rows {
        let graph = graph_of(alloc, text)?;
        assert!(rt; *k >= 1 && *k <= 32);
        assert!(rt; graph.kind() == Kind::Undirected);
        let found = augment(alloc, &graph, *k)?;
        let bound = found.ask.bound(&graph, &found.dual);
        same(
            rt,
            &(found.object.len(), bound),
            &(*lacking, *lacking as u64),
            what,
        );
    }
    Ok(())
}

#[test]
fn new_edges_meet_their_dual(rt: HostRuntime) -> Result<(), Fail> {
    are_lacking(&rt, rt.alloc(), &LACKING)
}

//! Least dijoins of small digraphs, by hand.

use crate::asserts::same;
use crate::dicuts::{INTO_ONE, ONE_FIXED, RING};
use graph_core::{Graph, Kind, Numbers};
use lucchesi_younger::dijoin;
use problem_defs::DijoinOutcome;
use std::test::Fail;
use test_graphs::{ARC, OUT_STAR, TWO_ALONE, graph_of};

const PARALLEL: &[u8] = b"graph directed\nnode a\nnode b\narc a b fixed\narc a b\nend\n";

const COSTLY_PATH: &[u8] =
    b"graph directed\nnode a\nnode b\nnode c\narc a b cost 2\narc b c cost 3\nend\n";

const FREE_ARC: &[u8] = b"graph directed\nnode a\nnode b\narc a b cost 0\nend\n";

const CHEAPER_ARC: &[u8] =
    b"graph directed\nnode a\nnode b\narc a b cost 100\narc a b cost 7\nend\n";

/// Two ways from a to d. Arcs ab and bd are a least dijoin; the cheaper ab and cd enter {b, d} twice and miss {c, d}.
const DIAMOND: &[u8] =
    b"graph directed\nnode a\nnode b\nnode c\nnode d\narc a b\narc a c cost 3\narc b d cost 3\narc c d\nend\n";

/// What the arcs with these numbers cost.
fn cost_of(graph: &Graph, join: &Numbers) -> u64 {
    let mut total: u64 = 0;
    for j in join.as_slice() {
        if let Some(line) = graph.lines().get(*j as usize) {
            total = total.wrapping_add(line.cost as u64);
        }
    }
    total
}

// A digraph, and what a least dijoin costs, if there is one without fixed arcs.
const LEAST: [(&str, &[u8], Option<u64>); 11] = [
    ("one arc", ARC, Some(1)),
    ("two arcs into a node", INTO_ONE, Some(2)),
    ("two arcs out of a node", OUT_STAR, Some(2)),
    ("a ring", RING, Some(0)),
    ("a fixed arc alone enters a side", ONE_FIXED, None),
    ("no arc enters a side", TWO_ALONE, None),
    ("a fixed arc beside another one", PARALLEL, Some(1)),
    ("each arc of a path", COSTLY_PATH, Some(5)),
    ("an arc without costs", FREE_ARC, Some(0)),
    ("the cheaper one of two arcs", CHEAPER_ARC, Some(7)),
    ("the cheapest arcs aren't enough", DIAMOND, Some(4)),
];

#[test]
fn least_dijoins_cost_as_many_as_there_are_sides(rt: HostRuntime) -> Result<(), Fail> {
    for (what, text, wanted) in &LEAST {
        let graph = graph_of(rt.alloc(), text)?;
        assert!(rt; graph.kind() == Kind::Directed);
        let found = match dijoin(rt.alloc(), &graph)? {
            DijoinOutcome::Best(best) => {
                Some((cost_of(&graph, &best.object), best.dual.len() as u64))
            }
            DijoinOutcome::Never(_) => None,
        };
        same(&rt, &found, &wanted.map(|cost| (cost, cost)), what);
    }
    Ok(())
}

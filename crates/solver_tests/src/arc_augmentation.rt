//! New arcs of small digraphs, whose number is worked out by hand, looked over side by side.

ghost use Rattle.std.specs.Prelude.{◌≡◌};
ghost use Rattle.problem_defs.specs.AugmentArcs.{Suits};
ghost use Rattle.problem_defs.specs.Certified.{IsCertified};

use crate::asserts::same;
use crate::sides::mark;
use crate::stars::CROSSING;
use augment_arcs::augment_arcs;
use graph_core::{Graph, Kind, Pairs, Side};
use problem_defs::{AugmentArcsAsk, Certified, Problem, Way, best};
use std::alloc::Global;
use std::process::Abort;
use std::test::Fail;
use test_graphs::{COMPLETE, OUT_STAR, TWO_ALONE, graph_of};

const ONE_NODE: &[u8] = b"graph directed\nnode a\nend\n";

/// How many of the new arcs enter the side.
fn entering(pairs: &Pairs, side: &Side) -> u64 {
    let mut count: u64 = 0;
    for (tail, head) in pairs.as_slice() {
        if (*tail as usize) < side.len() && (*head as usize) < side.len() {
            count = count.wrapping_add((side.has(*head) && !side.has(*tail)) as u64);
        }
    }
    count
}

/// Whether at least `k` arcs, old or new, enter each proper side.
fn are_connected(
    rt: &impl Abort,
    alloc: Global,
    graph: &Graph,
    pairs: &Pairs,
    k: u32,
) -> Result<bool, Fail> {
    let n = graph.node_count();
    assert!(rt; n <= 12);
    let mut side = Side::empty(alloc, n)?;
    for number in 1..(1u32 << n as u32).wrapping_sub(1) {
        assert!(rt; side.len() == n);
        mark(&mut side, number);
        if graph.entering(&side).wrapping_add(entering(pairs, &side)) < k as u64 {
            return Ok(false);
        }
    }
    Ok(true)
}

// No other arcs are fewer, so neither are these; value and bound are numbers that are equal.
fn value_and_bound(graph: &Graph, found: &Certified<AugmentArcsAsk>) -> (u64, u64)
    requires suits { Suits found.now.ask.k graph.now }
    requires certified { IsCertified ⟦<AugmentArcsAsk as Problem>⟧ graph.now found.now.ask found.now.object found.now.dual }
    ensures { result.0 ≡ result.1 }
{
    best(graph, found, &found.object);
    (
        found.ask.value(graph, &found.object),
        found.ask.bound(graph, &found.dual),
    )
}

// A digraph, k, how many arcs are new, and the way of the family where it can't be the other.
type Row<'a> = (&'a str, &'a [u8], u32, u64, Option<Way>);

const DIGRAPHS: [Row<'static>; 5] = [
    ("out of one node", OUT_STAR, 1, 2, Some(Way::Leaving)),
    ("no arc", TWO_ALONE, 2, 4, None),
    ("two sides that cross", CROSSING, 2, 2, Some(Way::Leaving)),
    ("connected before", COMPLETE, 2, 0, None),
    ("one node", ONE_NODE, 3, 0, None),
];

fn are_fewest(rt: &impl Abort, alloc: Global, row: &Row<'_>) -> Result<(), Fail> {
    let (what, text, k, count, way) = *row;
    let graph = graph_of(alloc, text)?;
    assert!(rt; graph.kind() == Kind::Directed);
    assert!(rt; k >= 1 && k <= 32);
    let found = augment_arcs(alloc, &graph, k)?;
    let connected = are_connected(rt, alloc, &graph, &found.object, k)?;
    let right_way = way.is_none() || way == Some(found.dual.way);
    same(rt, &(connected, right_way), &(true, true), &what);
    same(rt, &value_and_bound(&graph, &found), &(count, count), &what);
    Ok(())
}

#[test]
fn new_arcs_connect_and_are_fewest(rt: HostRuntime) -> Result<(), Fail> {
    for row in &DIGRAPHS {
        are_fewest(&rt, rt.alloc(), row)?;
    }
    Ok(())
}

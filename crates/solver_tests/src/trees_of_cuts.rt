//! Trees of small graphs, compared with a search through all sides, and the least cuts that are read off them.

ghost use Rattle.std.specs.Prelude.{◌≡◌, ◌≢◌, ◌<◌, All, length};
ghost use Rattle.graph_core.specs.Graph.{IsWithinSize};
ghost use Rattle.graph_core.specs.declared.graph.Kind.TheVariants.{Undirected as UndirectedKind};
ghost use Rattle.problem_defs.specs.CutTree.{IsCutTree};
ghost use Rattle.cut_trees.specs.PairSide.{HasOneSide};

use crate::asserts::same;
use cut_trees::{cut_tree, each_pair_has_one_side, least_cut};
use flow_cuts::most_walks;
use graph_core::{Graph, Kind, NoMemory, Side, WeightedPairs};
use std::alloc::Global;
use std::process::Abort;
use std::test::Fail;
use test_graphs::{BACKBONE, graph_of};

// A graph of six nodes, or of one, and how many pairs its tree has.
const GRAPHS: [(&str, &[u8], usize); 5] = [
    ("one node", b"graph undirected\nnode a\nend\n", 0),
    (
        "no edge",
        b"graph undirected\nnode a\nnode b\nnode c\nnode d\nnode e\nnode f\nend\n",
        5,
    ),
    (
        "a ring",
        b"graph undirected\nnode a\nnode b\nnode c\nnode d\nnode e\nnode f\nedge a b\nedge b c\nedge c d\nedge d e\nedge e f\nedge f a\nend\n",
        5,
    ),
    (
        "two triangles and a bridge",
        b"graph undirected\nnode a\nnode b\nnode c\nnode d\nnode e\nnode f\nedge a b\nedge b c\nedge c a\nedge d e\nedge e f\nedge f d\nedge b e\nend\n",
        5,
    ),
    (
        "parallel edges",
        b"graph undirected\nnode a\nnode b\nnode c\nnode d\nnode e\nnode f\nedge a d\nedge d a\nedge a f\nedge b c\nedge b c\nedge c b\nedge c e\nedge e d\nedge f b\nedge d f\nedge a e\nend\n",
        5,
    ),
];

// Two parts, which no edge joins, edges in parallel, and a ring with chords.
const TEXTS: [&[u8]; 3] = [
    b"graph undirected\nnode a\nnode b\nnode c\nnode d\nedge a b\nedge c d\nedge d c\nend\n",
    b"graph undirected\nnode a\nnode b\nnode c\nnode d\nedge a b\nedge b a\nedge b c\nedge c d\nedge d c\nedge d c\nedge a d\nend\n",
    BACKBONE,
];

/// The least number of edges that cross a side which holds exactly one of two nodes, found by
/// looking at all sides of six nodes.
fn least_by_search(alloc: Global, graph: &Graph, u: u32, v: u32) -> Result<u64, NoMemory> {
    let mut least = u64::MAX;
    for marks in 0..64u32 {
        let mut side = Side::empty(alloc, 6)?;
        for w in 0..6 {
            if (w as usize) < side.len() {
                side.put(w, (marks >> w) % 2 == 1);
            }
        }
        let n = side.len();
        if n == graph.node_count()
            && (u as usize) < n
            && (v as usize) < n
            && side.has(u) != side.has(v)
        {
            least = least.min(graph.degree(&side));
        }
    }
    Ok(least)
}

fn are_least(rt: &impl Abort, alloc: Global, rows: &[(&str, &[u8], usize)]) -> Result<(), Fail> {
    for (what, text, count) in rows {
        let graph = graph_of(alloc, text)?;
        if graph.kind() != Kind::Undirected {
            return Err("the graph has arcs".into());
        }
        let tree = cut_tree(alloc, &graph)?;
        same(rt, &tree.len(), count, what);
        for (u, v, weight) in tree.as_slice() {
            let least = least_by_search(alloc, &graph, *u, *v)?;
            same(rt, weight, &least, &(*what, *u, *v));
        }
    }
    Ok(())
}

// Each pair of a cut tree has its one side.
fn has_one_side_for_each(graph: &Graph, tree: &WeightedPairs)
    requires { IsCutTree graph.now tree.now }
    ensures { All (HasOneSide (length graph.now.names) tree.now) tree.now }
{
    each_pair_has_one_side();
}

// The cut that is read off has as many edges as there are disjoint walks.
fn is_read_off(
    rt: &impl Abort,
    alloc: Global,
    graph: &Graph,
    tree: &WeightedPairs,
    u: u32,
    v: u32,
) -> Result<(), NoMemory>
    requires kind { graph.now.kind ≡ UndirectedKind }
    requires size { IsWithinSize graph.now }
    requires tree { IsCutTree graph.now tree.now }
    requires u { u < length graph.now.names }
    requires v { v < length graph.now.names }
    requires apart { u ≢ v }
{
    let walks = most_walks(alloc, graph, u, v)?.object.len() as u64;
    let (value, side) = least_cut(alloc, graph, tree, u, v)?;
    let found = (value, graph.degree(&side), side.has(u), side.has(v));
    same(rt, &found, &(walks, walks, true, false), &(u, v));
    Ok(())
}

fn are_read_off(rt: &impl Abort, alloc: Global, texts: &[&[u8]]) -> Result<(), Fail> {
    for text in texts {
        let graph = graph_of(alloc, text)?;
        if graph.kind() != Kind::Undirected {
            return Err("the graph has arcs".into());
        }
        graph.known();
        let tree = cut_tree(alloc, &graph)?;
        has_one_side_for_each(&graph, &tree);
        for u in 0..graph.node_count() as u32 {
            for v in 0..graph.node_count() as u32 {
                if u != v {
                    is_read_off(rt, alloc, &graph, &tree, u, v)?;
                }
            }
        }
    }
    Ok(())
}

#[test]
fn least_cuts_are_read_off_a_tree(rt: HostRuntime) -> Result<(), Fail> {
    are_read_off(&rt, rt.alloc(), &TEXTS)
}

#[test]
fn each_weight_is_the_least_of_all_sides(rt: HostRuntime) -> Result<(), Fail> {
    are_least(&rt, rt.alloc(), &GRAPHS)
}

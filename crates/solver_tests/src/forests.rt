//! The forests and trees of the complete graph on four nodes with one edge twice.

use crate::asserts::same;
use forest_cover::cover_forests;
use graph_core::{Kind, Marks, NoMemory};
use graphic_matroid::{Graphic, components, most_forests, no_more_lines};
use matroid_union::Matroid;
use std::alloc::Global;
use std::process::Abort;
use std::test::Fail;
use test_graphs::graph_of;
use tree_packing::pack_trees;

// Lines ab, ac, ad, bc, bd, cd, ab.
const GRAPH: &[u8] =
    b"graph undirected\nnode a\nnode b\nnode c\nnode d\nedge a b\nedge a c\nedge a d\nedge b c\nedge b d\nedge c d\nedge a b\nend\n";

/// The lines that are marked by a 1.
fn marks_of(alloc: Global, bits: [u8; 7]) -> Result<Marks, NoMemory> {
    let mut set = Marks::new(alloc);
    for bit in bits {
        set.push(bit == 1)?;
    }
    Ok(set)
}

#[test]
fn sets_of_lines_that_are_forests(rt: HostRuntime) -> Result<(), Fail> {
    let graph = graph_of(rt.alloc(), GRAPH)?;
    let mut matroid = Graphic::new(rt.alloc(), &graph)?;
    for (bits, free) in [
        ([0, 0, 0, 0, 0, 0, 0], true),
        ([0, 0, 0, 0, 0, 0, 1], true),
        ([1, 0, 0, 0, 0, 0, 1], false),
        ([1, 1, 1, 0, 0, 0, 0], true),
        ([1, 1, 0, 1, 0, 0, 0], false),
        ([0, 1, 0, 0, 1, 1, 0], true),
        ([0, 1, 1, 0, 1, 1, 0], false),
        ([1, 0, 0, 0, 0, 1, 0], true),
        ([1, 1, 1, 1, 1, 1, 1], false),
    ] {
        let set = marks_of(rt.alloc(), bits)?;
        assert!(rt; set.len() == matroid.size());
        same(&rt, &matroid.is_free(&set), &free, &bits);
    }
    Ok(())
}

/// Asserts which lines a set takes that grows by each line that it takes, and is cleared before some.
fn grows<M: Matroid>(rt: &impl Abort, matroid: &M, set: &mut M::Set, rows: &[(bool, u32, bool)])
    requires { M.keeps matroid.now set.old }
{
    for (first, element, taken) in rows {
        if *first {
            matroid.clear(set);
        }
        assert!(rt; (*element as usize) < matroid.size());
        let takes = matroid.takes(set, *element);
        same(rt, &takes, taken, element);
        if takes {
            matroid.add(set, *element);
        }
    }
}

#[test]
fn a_forest_grows_line_by_line(rt: HostRuntime) -> Result<(), Fail> {
    let graph = graph_of(rt.alloc(), GRAPH)?;
    let matroid = Graphic::new(rt.alloc(), &graph)?;
    let mut forest = matroid.no_elements(rt.alloc())?;
    let rows = [
        (true, 0, true),
        (false, 6, false),
        (false, 0, true),
        (false, 5, true),
        (false, 3, true),
        (false, 2, false),
        (true, 2, true),
        (false, 6, true),
        (false, 4, false),
        (false, 1, true),
        (false, 0, false),
    ];
    grows(&rt, &matroid, &mut forest, &rows);
    Ok(())
}

#[test]
fn classes_that_lines_join(rt: HostRuntime) -> Result<(), Fail> {
    let graph = graph_of(rt.alloc(), GRAPH)?;
    for (bits, classes) in [
        ([0, 0, 0, 0, 0, 0, 0], 4),
        ([1, 0, 0, 0, 0, 0, 1], 3),
        ([1, 0, 0, 0, 0, 1, 0], 2),
        ([1, 1, 0, 1, 0, 0, 0], 2),
        ([0, 0, 1, 1, 1, 0, 0], 1),
    ] {
        let set = marks_of(rt.alloc(), bits)?;
        assert!(rt; set.len() == graph.line_count());
        let found = components(rt.alloc(), &graph, &set)?;
        same(&rt, &found.len(), &classes, &bits);
    }
    Ok(())
}

#[test]
fn most_lines_of_disjoint_forests(rt: HostRuntime) -> Result<(), Fail> {
    let graph = graph_of(rt.alloc(), GRAPH)?;
    for (k, taken, classes) in [(0, 0, 1), (1, 3, 1), (2, 6, 1), (3, 7, 4)] {
        let found = most_forests(rt.alloc(), &graph, k)?;
        let mut lines: usize = 0;
        for row in found.rows.as_slice() {
            lines = lines.wrapping_add(row.len());
        }
        no_more_lines(&graph, &found, &found.rows);
        let sizes = (found.rows.len(), lines, found.classes.len());
        same(&rt, &sizes, &(k as usize, taken, classes), &k);
    }
    Ok(())
}

#[test]
fn most_trees_and_fewest_forests(rt: HostRuntime) -> Result<(), Fail> {
    let graph = graph_of(rt.alloc(), GRAPH)?;
    assert!(rt; graph.kind() == Kind::Undirected);
    assert!(rt; graph.node_count() >= 2);
    let trees = pack_trees(rt.alloc(), &graph)?;
    let forests = cover_forests(rt.alloc(), &graph)?;
    let found = (trees.object.len(), forests.object.len());
    same(&rt, &found, &(2, 3), &"trees and forests");
    Ok(())
}

//! Stars of three nodes, split off.

ghost use Rattle.std.specs.Prelude.{◌≡◌, ◌≤◌, [], ◌∷◌, true, length, IfOk};
ghost use Rattle.cut_fn.specs.Covered.{IsCovered};
ghost use Rattle.cut_fn.specs.Stars.{star_cut};
ghost use Rattle.split_undirected.specs.Split.{CanBeSplit};

use crate::asserts::same;
use crate::branchings::side;
use cut_fn::{CutFn, Star, StarCut, total_count};
use graph_core::{Counts, Pairs, WeightedPairs};
use split_undirected::{most, partner, split_all, split_many};
use std::alloc::Global;
use std::process::Abort;
use std::test::Fail;
use test_graphs::{PATH, TRIANGLE, graph_of};

const NO_EDGE: &[u8] = b"graph undirected\nnode a\nnode b\nnode c\nend\n";

/// Whether a side of these marks has at least the value k.
fn has_value(alloc: Global, star: &Star, k: u32, a: bool, b: bool, c: bool) -> bool
    requires { length star.now.graph.names ≡ 3 }
    ensures { result ≡ true → k ≤ star_cut star.now (a ∷ b ∷ c ∷ []) }
{
    match side(alloc, a, b, c) {
        Ok(side) => StarCut::new(star).value(&side) >= k as u64,
        Err(_) => false,
    }
}

/// Whether a star is k-covered, looked up at each proper side.
fn is_covered(alloc: Global, star: &Star, k: u32) -> bool
    requires { length star.now.graph.names ≡ 3 }
    ensures { result ≡ true → IsCovered 3 k (star_cut star.now) }
{
    let a = has_value(alloc, star, k, true, false, false);
    let b = has_value(alloc, star, k, false, true, false);
    let c = has_value(alloc, star, k, false, false, true);
    let ab = has_value(alloc, star, k, true, true, false);
    let ac = has_value(alloc, star, k, true, false, true);
    let bc = has_value(alloc, star, k, false, true, true);
    a & b & c & ab & ac & bc
}

/// The star of a graph of three nodes with these counts, which may be split off.
fn star_of(
    rt: &impl Abort,
    alloc: Global,
    text: &[u8],
    counts: [u64; 3],
    k: u32,
) -> Result<Star, Fail>
    ensures { IfOk result (CanBeSplit k) }
{
    let graph = graph_of(alloc, text)?;
    let count = Counts::from_vec(Vec::from_array(alloc, counts)?);
    assert!(rt; graph.node_count() == 3 && count.len() == 3);
    assert!(rt; counts[0] <= 64 && counts[1] <= 64 && counts[2] <= 64);
    let star = Star { graph, count };
    assert!(rt; k >= 2 && total_count(star.count.as_slice()) % 2 == 0);
    assert!(rt; is_covered(alloc, &star, k));
    Ok(star)
}

/// How often a node is an end of pairs, twice in a pair of it and itself.
fn ends_in_pairs(pairs: &Pairs, v: u32) -> u64 {
    let mut ends: u64 = 0;
    for (first, second) in pairs.as_slice() {
        ends = ends.wrapping_add((*first == v) as u64);
        ends = ends.wrapping_add((*second == v) as u64);
    }
    ends
}

/// The same of rows.
fn ends_in_rows(rows: &WeightedPairs, v: u32) -> u64 {
    let mut ends: u64 = 0;
    for (first, second, copies) in rows.as_slice() {
        let times = (*first == v) as u64 + (*second == v) as u64;
        ends = ends.wrapping_add(copies.wrapping_mul(times));
    }
    ends
}

// A graph, the counts of its star, k, and how many pairs split it off.
const STARS: [(&str, &[u8], [u64; 3], u32, usize); 4] = [
    ("three nodes alone", NO_EDGE, [4, 3, 3], 3, 5),
    ("the ends of a path", PATH, [1, 0, 1], 2, 1),
    ("a pair of one node", TRIANGLE, [2, 0, 0], 2, 1),
    ("no edge to split off", TRIANGLE, [0, 0, 0], 2, 0),
];

fn are_split(
    rt: &impl Abort,
    alloc: Global,
    rows: &[(&str, &[u8], [u64; 3], u32, usize)],
) -> Result<(), Fail> {
    for (what, text, counts, k, many) in rows {
        let star = star_of(rt, alloc, text, *counts, *k)?;
        let pairs = split_all(alloc, &star, *k)?;
        let copies = split_many(alloc, &star, *k)?;
        same(rt, &pairs.len(), many, what);
        for v in 0..3u32 {
            let ends = (ends_in_pairs(&pairs, v), ends_in_rows(&copies, v));
            let count = counts[v as usize];
            same(rt, &ends, &(count, count), &(*what, v));
        }
    }
    Ok(())
}

#[test]
fn pairs_use_up_their_star(rt: HostRuntime) -> Result<(), Fail> {
    are_split(&rt, rt.alloc(), &STARS)
}

#[test]
fn most_copies_of_a_pair(rt: HostRuntime) -> Result<(), Fail> {
    let star = star_of(&rt, rt.alloc(), NO_EDGE, [4, 3, 3], 3)?;
    assert!(rt; star.graph.node_count() == 3);
    for (u, v, copies) in [(0, 1, 2), (1, 0, 2), (0, 2, 2), (1, 2, 1), (0, 0, 0)] {
        assert!(rt; u < 3 && v < 3);
        let found = most(rt.alloc(), &star, 3, u, v)?;
        same(&rt, &found, &copies, &(u, v));
    }
    Ok(())
}

#[test]
fn partners_of_nodes(rt: HostRuntime) -> Result<(), Fail> {
    let path = star_of(&rt, rt.alloc(), PATH, [1, 0, 1], 2)?;
    assert!(rt; *path.count.item(0) >= 1);
    same(&rt, &partner(rt.alloc(), &path, 2, 0)?, &2, &"of an end");
    let triangle = star_of(&rt, rt.alloc(), TRIANGLE, [2, 0, 0], 2)?;
    assert!(rt; *triangle.count.item(0) >= 1);
    same(
        &rt,
        &partner(rt.alloc(), &triangle, 2, 0)?,
        &0,
        &"of itself",
    );
    Ok(())
}

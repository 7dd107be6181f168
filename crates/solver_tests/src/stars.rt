//! Least stars of small graphs, worked out by hand and looked over side by side, and what makes their tight sides disjoint.

ghost use Rattle.std.specs.Prelude.{◌≡◌, ◌≤◌, IfOk, length};
ghost use Rattle.cut_fn.specs.Covered.{AreTight, IsCovered, IsTight};
ghost use Rattle.cut_fn.specs.Stars.{star_cut, star_enter, star_of};

use crate::asserts::same;
use crate::flows::{is_side_of, side_of};
use crate::sides::mark;
use cut_fn::{ArcStar, CutFn, Merged, Star, StarCut, StarEnter, StarLeave, disjoin, merge};
use graph_core::{Counts, Side, Sides};
use problem_defs::Way;
use star_net::{least_arc_star, least_star};
use std::alloc::Global;
use std::process::Abort;
use std::test::Fail;
use test_graphs::{BACKBONE, OUT_STAR, PATH, graph_of};

const THREE_ALONE: &[u8] = b"graph undirected\nnode a\nnode b\nnode c\nend\n";

const ALONE: &[u8] = b"graph undirected\nnode a\nend\n";

// The tight sides {a, b} and {a, c} of the arcs that enter have every node together.
pub const CROSSING: &[u8] =
    b"graph directed\nnode a\nnode b\nnode c\narc a b\narc a b\narc a c\narc a c\narc b a\narc c a\nend\n";

/// The least value of a proper side, by a look at each of them.
fn least_of_all<F: CutFn>(rt: &impl Abort, alloc: Global, f: &F) -> Result<u64, Fail> {
    let n = f.size();
    assert!(rt; n <= 12);
    let mut side = Side::empty(alloc, n)?;
    let mut least = u64::MAX;
    for number in 1..(1u32 << n as u32).wrapping_sub(1) {
        assert!(rt; side.len() == n);
        mark(&mut side, number);
        least = least.min(f.value(&side));
    }
    Ok(least)
}

fn total(counts: &Counts) -> u64 {
    let mut total: u64 = 0;
    for count in counts.as_slice() {
        total = total.wrapping_add(*count);
    }
    total
}

fn members_with(family: &Sides, v: u32) -> usize {
    let mut members: usize = 0;
    for side in family.as_slice() {
        if (v as usize) < side.len() && side.has(v) {
            members = members.wrapping_add(1);
        }
    }
    members
}

/// Asserts that the members are proper and have a value of `k`.
fn are_tight<F: CutFn>(rt: &impl Abort, f: &F, k: u32, family: &Sides, what: &str) {
    for side in family.as_slice() {
        assert!(rt; side.len() == f.size());
        let found = (side.is_proper(), f.value(side));
        same(rt, &found, &(true, k as u64), &what);
    }
}

/// Asserts that no node is in two members, and each with a count is in one.
fn hold_once(rt: &impl Abort, counts: &Counts, family: &Sides, what: &str) {
    assert!(rt; counts.len() <= 8192);
    for (v, count) in counts.as_slice().iter().enumerate() {
        let members = members_with(family, v as u32);
        let found = (members <= 1, *count == 0 || members == 1);
        same(rt, &found, &(true, true), &what);
    }
}

// A graph, k, and the sum of the counts.
type Row<'a> = (&'a str, &'a [u8], u32, u64);

// A node whose degree is less than k has a count of what it lacks at least.
const GRAPHS: [Row<'static>; 5] = [
    ("one node", ALONE, 3, 0),
    ("no edge", THREE_ALONE, 3, 9),
    ("the ends of a path", PATH, 2, 2),
    ("four nodes of a ring without a chord", BACKBONE, 3, 4),
    ("no count", BACKBONE, 2, 0),
];

fn is_least(rt: &impl Abort, alloc: Global, row: &Row<'_>) -> Result<(), Fail> {
    let (what, text, k, sum) = *row;
    let graph = graph_of(alloc, text)?;
    assert!(rt; k <= 32);
    let found = least_star(alloc, &graph, k)?;
    let cut = StarCut::new(&found.star);
    let enough = least_of_all(rt, alloc, &cut)? >= k as u64;
    let values = (enough, total(&found.star.count));
    same(rt, &values, &(true, sum), &what);
    are_tight(rt, &cut, k, &found.family, what);
    hold_once(rt, &found.star.count, &found.family, what);
    Ok(())
}

#[test]
fn stars_of_graphs_have_least_counts(rt: HostRuntime) -> Result<(), Fail> {
    for row in &GRAPHS {
        is_least(&rt, rt.alloc(), row)?;
    }
    Ok(())
}

// A digraph, k, the sum of the counts either way, and the way of the family.
type ArcRow<'a> = (&'a str, &'a [u8], u32, u64, Way);

const DIGRAPHS: [ArcRow<'static>; 2] = [
    // Each side that lacks an arc that enters holds a, and {b} and {c} lack one that leaves.
    ("out of one node", OUT_STAR, 1, 2, Way::Leaving),
    // Node a with a count of 1 would be enough for the arcs that enter, but {b} and {c} lack one that leaves.
    ("two sides that cross", CROSSING, 2, 2, Way::Leaving),
];

fn is_least_either_way(rt: &impl Abort, alloc: Global, row: &ArcRow<'_>) -> Result<(), Fail> {
    let (what, text, k, sum, way) = *row;
    let graph = graph_of(alloc, text)?;
    assert!(rt; k <= 32);
    let found = least_arc_star(alloc, &graph, k)?;
    let enter = StarEnter::new(&found.star);
    let leave = StarLeave::new(&found.star);
    let enough = (
        least_of_all(rt, alloc, &enter)? >= k as u64,
        least_of_all(rt, alloc, &leave)? >= k as u64,
    );
    same(rt, &enough, &(true, true), &what);
    let sums = (total(&found.star.into), total(&found.star.out), found.way);
    same(rt, &sums, &(sum, sum, way), &what);
    are_tight(rt, &leave, k, &found.family, what);
    hold_once(rt, &found.star.out, &found.family, what);
    Ok(())
}

#[test]
fn stars_of_digraphs_have_least_counts(rt: HostRuntime) -> Result<(), Fail> {
    for row in &DIGRAPHS {
        is_least_either_way(&rt, rt.alloc(), row)?;
    }
    Ok(())
}

/// The side with these nodes, which is tight.
fn tight_side<F: CutFn>(alloc: Global, f: &F, k: u32, nodes: &[u32]) -> Result<Side, Fail>
    ensures { IfOk result (IsTight (F.nodes f.now) k (F.cut f.now)) }
{
    let side = side_of(alloc, f.size(), nodes)?;
    if !side.is_proper() {
        return Err("a side isn't proper".into());
    }
    if f.value(&side) != k as u64 {
        return Err("a side isn't tight".into());
    }
    Ok(side)
}

fn tight_sides<F: CutFn>(alloc: Global, f: &F, k: u32, rows: &[&[u32]]) -> Result<Sides, Fail>
    ensures { IfOk result (AreTight (F.nodes f.now) k (F.cut f.now)) }
{
    let mut family = Sides::new(alloc);
    for nodes in rows {
        let side = tight_side(alloc, f, k, nodes)?;
        family.push(side)?;
    }
    Ok(family)
}

/// Asserts that the members of the family are the sides with these nodes.
fn are_sides(rt: &impl Abort, family: &Sides, rows: &[&[u32]]) {
    same(rt, &family.len(), &rows.len(), &"members");
    for (side, nodes) in family.as_slice().iter().zip(rows.iter()) {
        assert!(rt; side.len() <= 8192);
        same(rt, &is_side_of(side, nodes), &true, nodes);
    }
}

fn becomes_disjoint(
    rt: &impl Abort,
    alloc: Global,
    star: &Star,
    sides: &[&[u32]],
    want: &[&[u32]],
) -> Result<(), Fail>
    requires { IsCovered (length star.now.graph.names) 2 (star_cut star.now) }
{
    let cut = StarCut::new(star);
    let mut family = tight_sides(alloc, &cut, 2, sides)?;
    disjoin(&cut, 2, &mut family);
    are_sides(rt, &family, want);
    Ok(())
}

// The ends of the path have count 1 each. All proper sides are tight but {a, c}, of value 4; {b} is so by its edges alone.
#[test]
fn tight_sides_of_a_path_become_disjoint(rt: HostRuntime) -> Result<(), Fail> {
    let graph = graph_of(rt.alloc(), PATH)?;
    let found = least_star(rt.alloc(), &graph, 2)?;
    let star = &found.star;
    assert!(rt; star.graph.node_count() == 3);
    let crossing: [&[u32]; 2] = [&[0, 1], &[1, 2]];
    becomes_disjoint(&rt, rt.alloc(), star, &crossing, &[&[0], &[2]])?;
    let nested: [&[u32]; 3] = [&[0, 1], &[0], &[2]];
    becomes_disjoint(&rt, rt.alloc(), star, &nested, &[&[0, 1], &[2]])?;
    let disjoint: [&[u32]; 2] = [&[2], &[0, 1]];
    becomes_disjoint(&rt, rt.alloc(), star, &disjoint, &disjoint)?;
    Ok(())
}

/// What `merge` finds of tight sides of the arcs that enter, and which are the members then.
fn merges(
    rt: &impl Abort,
    alloc: Global,
    star: &ArcStar,
    sides: &[&[u32]],
    cross: Option<(usize, usize)>,
    want: &[&[u32]],
) -> Result<(), Fail>
    requires { IsCovered (length star.now.graph.names) 2 (star_enter (star_of star.now)) }
{
    let enter = StarEnter::new(star);
    let mut family = tight_sides(alloc, &enter, 2, sides)?;
    let found = match merge(&enter, 2, &mut family) {
        Merged::Disjoint => None,
        Merged::Cross { first, second } => Some((first, second)),
    };
    same(rt, &found, &cross, &"merge");
    are_sides(rt, &family, want);
    Ok(())
}

// Tight sides, the two that cross, and the members in the end. Nodes b and c have a count of 1 of arcs that enter, so that {a},
// {a, b} and {a, c} are tight.
type MergeRow<'a> = (&'a [&'a [u32]], Option<(usize, usize)>, &'a [&'a [u32]]);

const MERGED: [MergeRow<'static>; 3] = [
    (&[&[0, 1], &[0, 2]], Some((0, 1)), &[&[0, 1], &[0, 2]]),
    (&[&[0], &[0, 1]], None, &[&[0, 1]]),
    (&[&[0], &[0, 1], &[0, 2]], Some((0, 1)), &[&[0, 1], &[0, 2]]),
];

#[test]
fn tight_sides_are_merged_or_cross(rt: HostRuntime) -> Result<(), Fail> {
    let graph = graph_of(rt.alloc(), CROSSING)?;
    let found = least_arc_star(rt.alloc(), &graph, 2)?;
    for (sides, cross, want) in MERGED {
        merges(&rt, rt.alloc(), &found.star, sides, cross, want)?;
    }
    Ok(())
}

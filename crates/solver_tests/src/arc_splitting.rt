//! Two nodes without an arc, to each of which two arcs of a star lead, and from each two: split off.

ghost use Rattle.std.specs.Prelude.{◌≡◌, ◌+◌, ◌≤◌, [], ◌∷◌, true, length, sum, IfOk};
ghost use Rattle.cut_fn.specs.Covered.{IsCovered};
ghost use Rattle.graph_core.specs.Limits.{line_room};
ghost use Rattle.cut_fn.specs.Stars.{star_of, star_enter, star_leave};

use crate::asserts::same;
use cut_fn::{ArcStar, CutFn, StarEnter, StarLeave};
use graph_core::{Counts, NoMemory, Pairs, Side};
use split_directed::{most, partner, split_all, split_many};
use std::alloc::Global;
use std::process::Abort;
use std::test::Fail;
use test_graphs::{TWO_ALONE, graph_of};

fn side(alloc: Global, a: bool, b: bool) -> Result<Side, NoMemory>
    ensures { IfOk result (λ side. side ≡ a ∷ b ∷ []) }
{
    let mut side = Side::empty(alloc, 2)?;
    side.put(0, a);
    side.put(1, b);
    Ok(side)
}

/// Whether a side of two nodes has a value of at least `k`.
fn has_value<F: CutFn>(alloc: Global, f: &F, k: u64, a: bool, b: bool) -> Result<bool, NoMemory>
    requires { F.nodes f.now ≡ 2 }
    ensures { IfOk result (λ yes. yes ≡ true → k ≤ F.cut f.now (a ∷ b ∷ [])) }
{
    let side = side(alloc, a, b)?;
    Ok(f.value(&side) >= k)
}

/// Whether the two proper sides of two nodes have a value of at least `k`.
fn is_covered<F: CutFn>(alloc: Global, f: &F, k: u64) -> Result<bool, NoMemory>
    requires { F.nodes f.now ≡ 2 }
    ensures { IfOk result (λ yes. yes ≡ true → IsCovered 2 k (F.cut f.now)) }
{
    let a = has_value(alloc, f, k, true, false)?;
    let b = has_value(alloc, f, k, false, true)?;
    Ok(a & b)
}

/// The star.
fn two_alone(rt: &impl Abort, alloc: Global) -> Result<ArcStar, Fail>
    ensures nodes { IfOk result (λ star. length star.graph.names ≡ 2) }
    ensures room { IfOk result (λ star. length star.graph.lines + sum star.into ≤ line_room) }
    ensures same { IfOk result (λ star. sum star.into ≡ sum star.out) }
    ensures enters { IfOk result (λ star. IsCovered 2 2 (star_enter (star_of star))) }
    ensures leaves { IfOk result (λ star. IsCovered 2 2 (star_leave (star_of star))) }
{
    let graph = graph_of(alloc, TWO_ALONE)?;
    assert!(rt; graph.node_count() == 2 && graph.line_count() == 0);
    let into = Counts::from_vec(Vec::from_array(alloc, [2, 2])?);
    let out = Counts::from_vec(Vec::from_array(alloc, [2, 2])?);
    let star = ArcStar { graph, into, out };
    let enters = is_covered(alloc, &StarEnter::new(&star), 2)?;
    let leaves = is_covered(alloc, &StarLeave::new(&star), 2)?;
    assert!(rt; enters && leaves);
    Ok(star)
}

#[test]
fn arcs_of_two_nodes_are_split_off_twice(rt: HostRuntime) -> Result<(), Fail> {
    let star = two_alone(&rt, rt.alloc())?;
    for (u, t, copies) in [(0, 1, 2), (1, 0, 2), (0, 0, 0), (1, 1, 0)] {
        assert!(rt; u < 2 && t < 2);
        let found = most(rt.alloc(), &star, 2, u, t)?;
        same(&rt, &found, &copies, &(u, t));
    }
    Ok(())
}

#[test]
fn the_other_node_is_a_partner(rt: HostRuntime) -> Result<(), Fail> {
    let star = two_alone(&rt, rt.alloc())?;
    assert!(rt; star.into.len() == 2);
    assert!(rt; *star.into.item(0) >= 1 && *star.into.item(1) >= 1);
    same(&rt, &partner(rt.alloc(), &star, 2, 0)?, &1, &"of a");
    same(&rt, &partner(rt.alloc(), &star, 2, 1)?, &0, &"of b");
    Ok(())
}

/// How often the pair stands in the list.
fn times(pairs: &Pairs, pair: (u32, u32)) -> usize {
    let mut times: usize = 0;
    for found in pairs.as_slice() {
        times = times.wrapping_add((*found == pair) as usize);
    }
    times
}

#[test]
fn a_star_is_split_off_in_rows_and_in_pairs(rt: HostRuntime) -> Result<(), Fail> {
    let star = two_alone(&rt, rt.alloc())?;
    let rows = split_many(rt.alloc(), &star, 2)?;
    let forth = rows.as_slice().contains(&(0, 1, 2));
    let back = rows.as_slice().contains(&(1, 0, 2));
    same(&rt, &(rows.len(), forth, back), &(2, true, true), &"rows");
    let pairs = split_all(rt.alloc(), &star, 2)?;
    let found = (pairs.len(), times(&pairs, (0, 1)), times(&pairs, (1, 0)));
    same(&rt, &found, &(4, 2, 2), &"pairs");
    Ok(())
}

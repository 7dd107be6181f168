ghost use Rattle.std.specs.Prelude.{◌≡◌, ◌<◌, ◌≤◌, ◌+◌, ◌-◌, ℕ, length, slice_set, true, false, All, IfOk, OnOk};
ghost use Rattle.graph_core.specs.Limits.{node_room, side_room};
ghost use Rattle.graph_core.specs.Graph.{IsWithinSize};
ghost use Rattle.graph_core.specs.Side.{has, size};
ghost use Rattle.edmonds_branchings.specs.Network.{cap_at, taken, AreEnds, IsLeft};
ghost use Rattle.edmonds_branchings.specs.Round.{IsRound, IsFree, IsEligible, AreRefused, HasCapacity};
ghost use Rattle.edmonds_branchings.specs.Row.{row_with, IsMade};

use crate::network::may_take;
use flow_cuts::Cap;
use graph_core::{Graph, NoMemory, Numbers, Side};
use std::alloc::Global;

/// Whether arc `j` is left, and leads from a node that isn't covered to one that is.
fn is_eligible(arcs: &[Cap], covered: &Side, j: usize) -> bool
    requires number { j < length arcs.now }
    requires ends { All (λ a. (a.tail < length covered.now) × (a.head < length covered.now)) arcs.now }
    ensures yes { result ≡ true → IsEligible arcs.now covered.now j }
    ensures no { result ≡ false → IsEligible arcs.now covered.now j → ⊥ }
{
    let arc = arcs[j];
    arc.cap > 0 && covered.has(arc.head) && !covered.has(arc.tail)
}

/// Whether arc `j` may be taken, where it leads from a node that isn't covered to one that is. An arc that may not is
/// refused, and isn't tried again.
fn try_step(
    alloc: Global,
    n: usize,
    arcs: &[Cap],
    covered: &Side,
    refused: &mut Side,
    j: usize,
    k: u32,
) -> Result<bool, NoMemory>
    requires nodes { n ≤ node_room }
    requires few { length arcs.now ≤ side_room }
    requires ends { AreEnds n arcs.now }
    requires covered { length covered.now ≡ n + 1 }
    requires number { j < length arcs.now }
    requires long { length refused.old ≡ length arcs.now }
    requires refused { AreRefused n k arcs.now refused.old }
    ensures long { length refused.new ≡ length arcs.now }
    ensures refused { AreRefused n k arcs.now refused.new }
    ensures kept { (i : ℕ) → has refused.old i ≡ true → has refused.new i ≡ true }
    ensures eligible { IfOk result (λ may. may ≡ true → IsEligible arcs.now covered.now j) }
    ensures free { IfOk result (λ may. may ≡ true → IsFree n k arcs.now j) }
    ensures tried { IfOk result (λ may. may ≡ false → IsEligible arcs.now covered.now j → has refused.new j ≡ true) }
{
    if !is_eligible(arcs, covered, j) || refused.has(j as u32) {
        return Ok(false);
    }
    let may = may_take(alloc, n, arcs, j, k)?;
    if !may {
        refused.put(j as u32, true);
    }
    Ok(may)
}

/// The number of an arc from a node that isn't covered to one that is, which may be taken.
fn find_step(
    alloc: Global,
    n: usize,
    arcs: &[Cap],
    covered: &Side,
    refused: &mut Side,
    k: u32,
) -> Result<usize, NoMemory>
    requires nodes { n ≤ node_room }
    requires few { length arcs.now ≤ side_room }
    requires ends { AreEnds n arcs.now }
    requires some { 1 ≤ k }
    requires round { IsRound n k arcs.now covered.now }
    requires rest { size covered.now ≤ n }
    requires long { length refused.old ≡ length arcs.now }
    requires refused { AreRefused n k arcs.now refused.old }
    ensures long { length refused.new ≡ length arcs.now }
    ensures refused { AreRefused n k arcs.now refused.new }
    ensures eligible { IfOk result (IsEligible arcs.now covered.now) }
    ensures free { IfOk result (IsFree n k arcs.now) }
{
    for j in 0..arcs.len() {
        if try_step(alloc, n, arcs, covered, refused, j, k)? {
            return Ok(j);
        }
    }
    unreachable!("some arc may be taken")
}

/// Takes arc `j`, and covers its tail.
fn take_step(
    lines: usize,
    arcs: &mut Vec<Cap>,
    covered: &mut Side,
    row: &mut Numbers,
    j: usize,
) -> Result<(), NoMemory>
    requires few { length arcs.old.items ≤ side_room }
    requires left { 0 < (cap_at arcs.old.items j).cap }
    requires tail { (cap_at arcs.old.items j).tail < length covered.old }
    ensures arcs { arcs.new.items ≡ taken arcs.old.items j }
    ensures covered { covered.new ≡ slice_set covered.old (cap_at arcs.old.items j).tail true }
    ensures row { OnOk result (row.new ≡ row_with lines row.old j) }
{
    covered.put(arcs[j].tail, true);
    arcs[j].cap -= 1;
    if j < lines {
        row.push(j as u32)?;
    }
    Ok(())
}

/// Makes a branching of arcs that are left, and takes them, where `k` branchings are to be made of what is left.
pub fn make_branching(
    alloc: Global,
    graph: &Graph,
    arcs: &mut Vec<Cap>,
    k: u32,
) -> Result<Numbers, NoMemory>
    requires size { IsWithinSize graph.now }
    requires some { 1 ≤ k }
    requires left { IsLeft (length graph.now.names) graph.now.lines arcs.old.items }
    requires units { (j : ℕ) → j < length graph.now.lines → (cap_at arcs.old.items j).cap ≤ 1 }
    requires capacity { HasCapacity (length graph.now.names) k arcs.old.items }
    ensures { IfOk result (IsMade (length graph.now.names) (k - 1) graph.now.lines arcs.old.items arcs.new.items) }
{
    graph.known();
    let n = graph.node_count();
    let mut covered = Side::empty(alloc, n + 1)?;
    let mut refused = Side::empty(alloc, arcs.len())?;
    let mut row = Numbers::new(alloc);
    covered.put(n as u32, true);
    for _ in 0..n {
        let j = find_step(alloc, n, arcs, &covered, &mut refused, k)?;
        take_step(graph.line_count(), arcs, &mut covered, &mut row, j)?;
    }
    Ok(row)
}

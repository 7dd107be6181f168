ghost use Rattle.std.specs.Prelude.{◌≡◌, ◌<◌, ◌≤◌, length, true, false, All, IfOk};
ghost use Rattle.flow_cuts.specs.Network.{arc_room};
ghost use Rattle.flow_cuts.specs.Sparse.{AreJoined, FindsSparse, IsSparseBetween};
ghost use Rattle.graph_core.specs.Limits.{side_room};

use crate::flow::Flow;
use crate::network::Cap;
use graph_core::{NoMemory, Side};
use std::alloc::Global;

/// Whether less than `least` leaves a side that holds `u` and misses `v`. Such a side is then in `outside`.
pub fn is_parted(
    flow: &mut Flow,
    inside: &mut Side,
    outside: &mut Side,
    u: u32,
    v: u32,
    least: u64,
) -> bool
    requires inside { length inside.old ≡ flow.old.nodes }
    requires outside { length outside.old ≡ flow.old.nodes }
    requires u { u < flow.old.nodes }
    requires v { v < flow.old.nodes }
    ensures nodes { flow.new.nodes ≡ flow.old.nodes }
    ensures arcs { flow.new.arcs ≡ flow.old.arcs }
    ensures inside { length inside.new ≡ length inside.old }
    ensures outside { length outside.new ≡ length outside.old }
    ensures parted { result ≡ true → IsSparseBetween flow.old.nodes flow.old.arcs u v least outside.new }
    ensures joined { result ≡ false → AreJoined flow.old.nodes flow.old.arcs u v least }
{
    inside.hold_only(u);
    outside.hold_only(v);
    let answer = flow.run(inside, outside, least);
    if answer < least {
        flow.side(outside);
        true
    } else {
        false
    }
}

/// A proper side that less than `least` leaves, or none where there is none, by flows from node 0 to each other node and back.
pub fn sparse_side(
    alloc: Global,
    n: usize,
    arcs: &[Cap],
    least: u64,
) -> Result<Option<Side>, NoMemory>
    requires nodes { n ≤ side_room }
    requires few { length arcs.now ≤ arc_room }
    requires ends { All (λ a. (a.tail < n) × (a.head < n)) arcs.now }
    ensures { IfOk result (FindsSparse n arcs.now least) }
{
    let mut flow = Flow::of_arcs(alloc, n, arcs)?;
    let mut inside = Side::empty(alloc, n)?;
    let mut outside = Side::empty(alloc, n)?;
    for v in 1..n as u32 {
        if is_parted(&mut flow, &mut inside, &mut outside, 0, v, least) {
            return Ok(Some(outside));
        }
        if is_parted(&mut flow, &mut inside, &mut outside, v, 0, least) {
            return Ok(Some(outside));
        }
    }
    Ok(None)
}

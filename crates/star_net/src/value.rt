ghost use Rattle.std.specs.Prelude.{◌≡◌, ◌+◌, ◌-◌, ◌<◌, ◌≤◌, ◌^◌, length, slice_index, All, IfOk};
ghost use Rattle.flow_cuts.specs.NewNode.{value_with, AreArcs};
ghost use Rattle.star_net.specs.LeastProper.{IsLeastProper};
ghost use Rattle.graph_core.specs.Limits.{node_room};

use flow_cuts::{Cap, StarFlow};
use graph_core::{NoMemory, Side};
use std::alloc::Global;

/// The smaller of `stop` and the least value of a proper side that holds node `v`. Below `stop`, `into` becomes such a side.
/// For a node but the last one flow is enough: a side that holds both has a value of `stop` by their counts alone. A proper
/// side that holds the last node misses one before it.
pub fn least_value(
    alloc: Global,
    arcs: &[Cap],
    counts: &[u64],
    v: u32,
    stop: u64,
    into: &mut Side,
) -> Result<u64, NoMemory>
    requires nodes { length counts.now ≤ node_room }
    requires arcs { AreArcs (length counts.now) arcs.now }
    requires small { All (λ count. count < 2 ^ 32) counts.now }
    requires v { v < length counts.now }
    requires last { v + 1 < length counts.now → stop ≤ slice_index counts.now v + slice_index counts.now (length counts.now - 1) }
    requires long { length into.old ≡ length counts.now }
    ensures { IfOk result (λ value. IsLeastProper (length counts.now) (value_with arcs.now counts.now) v stop value into.new) }
{
    let n = counts.len() as u32;
    let mut star = StarFlow::new(alloc, arcs, counts)?;
    let mut held = Side::empty(alloc, counts.len())?;
    held.hold_only(v);
    if v + 1 < n {
        return Ok(star.least(&held, n, stop, into));
    }
    let mut value = stop;
    for u in 0..v {
        value = star.least(&held, u, value, into);
    }
    Ok(value)
}

ghost use Rattle.std.specs.Prelude.{◌≡◌, ◌<◌, ◌≤◌, ◌+◌, ◌*◌, List, length, slice_index, IfOk};
ghost use Rattle.graph_core.specs.declared.graph.Line.{Line as LineOf};
ghost use Rattle.flow_cuts.specs.LeastOver.{IsLeastOver};
ghost use Rattle.split_undirected.specs.CoveredStar.{room};
ghost use Rattle.flow_cuts.specs.NewNode.{value_with};
ghost use Rattle.split_undirected.specs.Network.{IsStarNet};

use crate::rest::Rest;
use flow_cuts::StarFlow;
use graph_core::{NoMemory, Side};
use std::alloc::Global;

/// The smaller of `k + 2b` and the least value of a proper side that holds `u` and `v`. Where it is below `k + 2b`, `into`
/// becomes such a side.
pub fn least_over(
    alloc: Global,
    rest: &Rest,
    k: u32,
    u: u32,
    v: u32,
    b: u64,
    into: &mut Side,
) -> Result<u64, NoMemory>
    requires star { (ls : List LineOf) × IsStarNet (length rest.now.counts.items) k ls rest.now.arcs.items rest.now.counts.items }
    requires u { u < length rest.now.counts.items }
    requires v { v < length rest.now.counts.items }
    requires room { b ≤ room (slice_index rest.now.counts.items) u v }
    requires into { length into.old ≡ length rest.now.counts.items }
    ensures into { length into.new ≡ length rest.now.counts.items }
    ensures least { IfOk result (λ a. IsLeastOver (length rest.now.counts.items) (value_with rest.now.arcs.items rest.now.counts.items) u v (k + 2 * b) a into.new) }
{
    let mut star = StarFlow::new(alloc, &rest.arcs, &rest.counts)?;
    let stop = k as u64 + 2 * b;
    flow_cuts::least_over(alloc, &mut star, &rest.counts, (u, v), k, stop, into)
}

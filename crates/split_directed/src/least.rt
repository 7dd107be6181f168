ghost use Rattle.std.specs.Prelude.{◌≡◌, ◌^◌, ◌<◌, ◌≤◌, length, IfOk};
ghost use Rattle.flow_cuts.specs.LeastOver.{IsLeastOver, MissesCount};
ghost use Rattle.split_directed.specs.Half.{value, IsHalf};

use crate::half::Half;
use flow_cuts::StarFlow;
use graph_core::{NoMemory, Side};
use std::alloc::Global;

/// The smaller of `stop` and the least value of a proper side that holds `u` and `t`. Where it is below `stop`, a side that
/// has it is written. Each side that matters misses a node of positive count in `other`.
pub fn least_over(
    alloc: Global,
    half: &Half,
    other: &[u64],
    u: u32,
    t: u32,
    stop: u64,
    into: &mut Side,
) -> Result<u64, NoMemory>
    requires half { IsHalf (length other.now) half.now }
    requires u { u < length other.now }
    requires t { t < length other.now }
    requires stop { stop < 2 ^ 40 }
    requires long { length into.old ≡ length other.now }
    requires missed { MissesCount (length other.now) (value half.now) other.now u t stop }
    ensures long { length into.new ≡ length into.old }
    ensures kept { IfOk result (λ answer. stop ≤ answer → into.new ≡ into.old) }
    ensures least { IfOk result (λ answer. IsLeastOver (length other.now) (value half.now) u t stop answer into.new) }
{
    let mut star = StarFlow::new(alloc, half.arcs.as_slice(), half.counts.as_slice())?;
    flow_cuts::least_over(alloc, &mut star, other, (u, t), 0, stop, into)
}

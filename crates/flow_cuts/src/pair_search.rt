ghost use Rattle.std.specs.Prelude.{◌≡◌, ◌*◌, ◌^◌, ◌<◌, ◌≤◌, length, sum, IfOk};
ghost use Rattle.graph_core.specs.Limits.{line_room};
ghost use Rattle.flow_cuts.specs.LeastOver.{BoundsCounts, IsLeastOver, MissesCount};
ghost use Rattle.flow_cuts.specs.NewNode.{value_with};

use crate::star_flow::StarFlow;
use cut_fn::{sum_counts, total_count};
use graph_core::{NoMemory, Side};
use std::alloc::Global;

/// The smaller of `stop` and the least value of a proper side that holds two nodes. Where it is below `stop`, `into` becomes
/// such a side. All nodes together are no proper side. They do no harm where they have no less than `stop`; else each side
/// that matters misses a node with a count in `other`, and is found by a flow for each of those. A `k` above 0 saves flows:
/// by it a side with many of the counts has no small value.
pub fn least_over(
    alloc: Global,
    star: &mut StarFlow,
    other: &[u64],
    pair: (u32, u32),
    k: u32,
    stop: u64,
    into: &mut Side,
) -> Result<u64, NoMemory>
    requires few { sum star.old.counts.now ≤ 2 * line_room }
    requires other { length other.now ≡ length star.old.counts.now }
    requires first { pair.0 < length star.old.counts.now }
    requires second { pair.1 < length star.old.counts.now }
    requires stop { stop < 2 ^ 40 }
    requires long { length into.old ≡ length star.old.counts.now }
    requires missed { MissesCount (length star.old.counts.now) (value_with star.old.arcs.now star.old.counts.now) other.now pair.0 pair.1 stop }
    requires bound { BoundsCounts (length star.old.counts.now) k (value_with star.old.arcs.now star.old.counts.now) star.old.counts.now }
    ensures long { length into.new ≡ length into.old }
    ensures kept { IfOk result (λ answer. stop ≤ answer → into.new ≡ into.old) }
    ensures least { IfOk result (λ answer. IsLeastOver (length star.old.counts.now) (value_with star.old.arcs.now star.old.counts.now) pair.0 pair.1 stop answer into.new) }
{
    let n = other.len();
    let mut held = Side::empty(alloc, n)?;
    held.put(pair.0, true);
    held.put(pair.1, true);
    let total = total_count(star.counts);
    if total >= stop {
        return Ok(star.least_wide(&held, n as u32, stop, into));
    }
    let mut answer = stop;
    for w in 0..n as u32 {
        if other[w as usize] > 0 && !held.has(w) {
            if total + answer <= 2 * sum_counts(&held, star.counts) + k as u64 {
                return Ok(answer); // no side that holds so much has less
            }
            answer = star.least_wide(&held, w, answer, into);
            held.put(w, true);
        }
    }
    Ok(answer)
}

ghost use Rattle.std.specs.Prelude.{◌≡◌, ◌+◌, ◌-◌, ◌<◌, ◌≤◌, ◌++◌, [], ◌∷◌, length, slice_index, slice_set, OnOk, IfOk};
ghost use Rattle.flow_cuts.specs.NewNode.{AreArcs};
ghost use Rattle.star_net.specs.Lowered.{capacity_over, IsLowered};
ghost use Rattle.graph_core.specs.Limits.{line_room, node_room};

use crate::value::least_value;
use flow_cuts::Cap;
use graph_core::{NoMemory, Side, Sides};
use std::alloc::Global;

/// Counts for the nodes, and tight sides.
#[derive(Drop)]
pub struct LeastCounts {
    pub counts: Vec<u64>,
    pub family: Sides,
}

/// Lowers the count of node `v`, where the sides that hold it have a value of `value` or more: by what this is above `k`. A
/// side that has just this value becomes a member, where the count doesn't become 0.
fn lower(least: &mut LeastCounts, k: u64, v: u32, value: u64, side: Side) -> Result<(), NoMemory>
    requires v { v < length least.old.counts.items }
    requires small { k ≤ line_room }
    requires count { slice_index least.old.counts.items v ≤ line_room }
    requires value { value ≤ k + slice_index least.old.counts.items v }
    ensures counts { OnOk result (least.new.counts.items ≡ slice_set least.old.counts.items v (k + slice_index least.old.counts.items v - value)) }
    ensures kept { OnOk result (k + slice_index least.old.counts.items v ≤ value → least.new.family ≡ least.old.family) }
    ensures pushed { OnOk result (value < k + slice_index least.old.counts.items v → least.new.family ≡ least.old.family ++ side ∷ []) }
{
    let stop = k + least.counts[v as usize];
    least.counts[v as usize] = stop - value;
    if value < stop {
        least.family.push(side)?;
    }
    Ok(())
}

/// Lowers the count of node `v` as far as can be.
fn lower_node(
    alloc: Global,
    n: usize,
    arcs: &[Cap],
    k: u64,
    least: &mut LeastCounts,
    v: u32,
) -> Result<(), NoMemory>
    requires nodes { n ≤ node_room }
    requires arcs { AreArcs n arcs.now }
    requires small { k ≤ line_room }
    requires v { v < n }
    requires last { slice_index least.old.counts.items (n - 1) ≡ k }
    requires lowered { IsLowered n k (capacity_over arcs.now) v least.old.counts.items least.old.family }
    ensures last { OnOk result (v + 1 < n → slice_index least.new.counts.items (n - 1) ≡ k) }
    ensures lowered { OnOk result (IsLowered n k (capacity_over arcs.now) (v + 1) least.new.counts.items least.new.family) }
{
    let mut side = Side::empty(alloc, n)?;
    let stop = k + least.counts[v as usize];
    let value = least_value(alloc, arcs, &least.counts, v, stop, &mut side)?;
    lower(least, k, v, value, side)?;
    Ok(())
}

/// Counts that make the star over a network k-covered, and tight sides that hold each node with a count. So no count can be
/// lowered. By 2 (n - 1) flows.
pub fn least_counts(alloc: Global, n: usize, arcs: &[Cap], k: u64) -> Result<LeastCounts, NoMemory>
    requires nodes { n ≤ node_room }
    requires arcs { AreArcs n arcs.now }
    requires small { k ≤ line_room }
    ensures { IfOk result (λ least. IsLowered n k (capacity_over arcs.now) n least.counts.items least.family) }
{
    let mut least = LeastCounts {
        counts: vec![in alloc; k; n]?,
        family: Sides::new(alloc),
    };
    for v in 0..n as u32 {
        lower_node(alloc, n, arcs, k, &mut least, v)?;
    }
    Ok(least)
}

ghost use Rattle.cut_fn.specs.Stars.{star_cut};
ghost use Rattle.std.specs.Prelude.{◌≡◌, ◌<◌, ◌≤◌, ◌+◌, ◌*◌, List, length, sum, slice_index, IfOk};
ghost use Rattle.graph_core.specs.Limits.{line_room};
ghost use Rattle.graph_core.specs.declared.graph.Line.{Line as LineOf};
ghost use Rattle.cut_fn.specs.Covered.{IsCovered};
ghost use Rattle.split_undirected.specs.CoveredStar.{room};
ghost use Rattle.split_undirected.specs.Most.{IsMost};
ghost use Rattle.flow_cuts.specs.NewNode.{value_with};
ghost use Rattle.split_undirected.specs.Network.{IsStarNet, IsBlock};

use crate::least::least_over;
use crate::rest::Rest;
use cut_fn::Star;
use graph_core::{NoMemory, Side};
use std::alloc::Global;

/// The largest number of pairs of `u` and `v` that can be split off. Where there are edges for more, `into` becomes a proper
/// side that holds both and has too small a value for more.
pub fn most_over(
    alloc: Global,
    rest: &Rest,
    k: u32,
    u: u32,
    v: u32,
    into: &mut Side,
) -> Result<u64, NoMemory>
    requires star { (ls : List LineOf) × IsStarNet (length rest.now.counts.items) k ls rest.now.arcs.items rest.now.counts.items }
    requires u { u < length rest.now.counts.items }
    requires v { v < length rest.now.counts.items }
    requires into { length into.old ≡ length rest.now.counts.items }
    ensures into { length into.new ≡ length rest.now.counts.items }
    ensures most { IfOk result (IsMost (length rest.now.counts.items) k (value_with rest.now.arcs.items rest.now.counts.items) (slice_index rest.now.counts.items) u v) }
    ensures block { IfOk result (λ q. q < room (slice_index rest.now.counts.items) u v → IsBlock (length rest.now.counts.items) k (value_with rest.now.arcs.items rest.now.counts.items) u v q into.new) }
{
    let room = rest.room(u, v);
    if room == 0 {
        return Ok(0);
    }
    let least = least_over(alloc, rest, k, u, v, room, into)?;
    Ok((least - k as u64) / 2)
}

/// How many pairs of `u` and `v` can be split off, so that at least `k` edges still leave each proper side. A pair of equal
/// nodes takes two edges.
pub fn most(alloc: Global, star: &Star, k: u32, u: u32, v: u32) -> Result<u64, NoMemory>
    requires u { u < length star.now.graph.names }
    requires v { v < length star.now.graph.names }
    requires covered { IsCovered (length star.now.graph.names) k (star_cut star.now) }
    requires room { 2 * length star.now.graph.lines + sum star.now.count ≤ 2 * line_room }
    ensures { IfOk result (IsMost (length star.now.graph.names) k (star_cut star.now) (slice_index star.now.count) u v) }
{
    star.graph.known();
    let rest = Rest::of_star(alloc, star)?;
    let mut side = Side::empty(alloc, star.graph.node_count())?;
    most_over(alloc, &rest, k, u, v, &mut side)
}

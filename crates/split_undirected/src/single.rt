ghost use Rattle.cut_fn.specs.Stars.{star_cut};
ghost use Rattle.std.specs.Prelude.{◌<◌, ◌≤◌, length, slice_index, IfOk};
ghost use Rattle.split_undirected.specs.Most.{MaySplit};
ghost use Rattle.split_undirected.specs.Split.{CanBeSplit, IsSplit};

use crate::least::least_over;
use crate::many::split_many;
use crate::rest::Rest;
use crate::witness::Witnesses;
use cut_fn::Star;
use graph_core::{NoMemory, Pairs, Side, written_out};
use std::alloc::Global;

/// A node that can be split off with `u` once: no proper side with both has a value of at most `k + 1` (Lovász 1979).
pub fn partner(alloc: Global, star: &Star, k: u32, u: u32) -> Result<u32, NoMemory>
    requires split { CanBeSplit k star.now }
    requires some { 1 ≤ slice_index star.now.count u }
    ensures below { IfOk result (λ v. v < length star.now.graph.names) }
    ensures partner { IfOk result (λ v. MaySplit (length star.now.graph.names) k (star_cut star.now) (slice_index star.now.count) u v 1) }
{
    star.graph.known();
    let n = star.graph.node_count();
    let rest = Rest::of_star(alloc, star)?;
    let mut witnesses = Witnesses::none(alloc, n)?;
    let mut side = Side::empty(alloc, n)?;
    'tries: loop {
        let v = witnesses.next(&rest, u);
        let least = least_over(alloc, &rest, k, u, v, 1, &mut side)?;
        if least == k as u64 + 2 {
            return Ok(v);
        }
        witnesses.absorb(&side);
    }
}

/// Pairs that split all edges of a star off and leave its graph k-edge-connected (Lovász 1979): of a pair an edge to each node
/// goes, and the two nodes become an edge, where they differ.
pub fn split_all(alloc: Global, star: &Star, k: u32) -> Result<Pairs, NoMemory>
    requires { CanBeSplit k star.now }
    ensures { IfOk result (IsSplit k star.now) }
{
    let rows = split_many(alloc, star, k)?;
    written_out(alloc, rows.as_slice())
}

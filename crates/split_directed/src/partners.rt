ghost use Rattle.std.specs.Prelude.{◌≡◌, ◌+◌, ◌≤◌, length, slice_index, sum, IfOk};
ghost use Rattle.cut_fn.specs.Covered.{IsCovered};
ghost use Rattle.split_directed.specs.Allowed.{IsPartner};
ghost use Rattle.cut_fn.specs.Stars.{star_enter, star_leave, star_of};
ghost use Rattle.graph_core.specs.Limits.{line_room};

use crate::state::{Splitting, Witness, most_up_to, next_node};
use cut_fn::ArcStar;
use graph_core::{NoMemory, Side};
use problem_defs::Way;
use std::alloc::Global;

/// A node from which an arc may be split off with one to `t`, so that at least `k` arcs still enter and leave each proper side
/// (Mader 1982).
pub fn partner(alloc: Global, star: &ArcStar, k: u32, t: u32) -> Result<u32, NoMemory>
    requires room { length star.now.graph.lines + sum star.now.into ≤ line_room }
    requires same { sum star.now.into ≡ sum star.now.out }
    requires arc { 1 ≤ slice_index star.now.into t }
    requires enters { IsCovered (length star.now.graph.names) k (star_enter (star_of star.now)) }
    requires leaves { IsCovered (length star.now.graph.names) k (star_leave (star_of star.now)) }
    ensures { IfOk result (IsPartner (length star.now.graph.names) k (star_of star.now) t) }
{
    star.graph.known();
    let n = star.graph.node_count();
    let state = Splitting::begin(alloc, star)?;
    let mut witness = Witness {
        way: Way::Entering,
        side: Side::empty(alloc, n)?,
    };
    let mut block = Side::empty(alloc, n)?;
    'turns: loop {
        let u = next_node(&state.leave.counts, &witness.side);
        let (count, way) = most_up_to(alloc, &state, k as u64, u, t, 1, &mut block)?;
        if count == 1 {
            return Ok(u);
        }
        witness.take(way, &block, t);
    }
}

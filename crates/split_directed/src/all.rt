ghost use Rattle.std.specs.Prelude.{◌≡◌, ◌+◌, ◌≤◌, length, sum, IfOk};
ghost use Rattle.cut_fn.specs.Covered.{IsCovered};
ghost use Rattle.split_directed.specs.Pairs.{SplitInto};
ghost use Rattle.cut_fn.specs.Stars.{star_enter, star_leave, star_of};
ghost use Rattle.graph_core.specs.Limits.{line_room};

use crate::many::split_many;
use cut_fn::ArcStar;
use graph_core::{NoMemory, Pairs, written_out};
use std::alloc::Global;

/// Splits off the whole star, in pairs: an arc from the first node and one to the second become an arc from the one to the
/// other, where they differ. Where at least `k` arcs of the star enter each proper side, and leave it, the graph with these
/// arcs is k-arc-connected (Mader 1982).
pub fn split_all(alloc: Global, star: &ArcStar, k: u32) -> Result<Pairs, NoMemory>
    requires room { length star.now.graph.lines + sum star.now.into ≤ line_room }
    requires same { sum star.now.into ≡ sum star.now.out }
    requires enters { IsCovered (length star.now.graph.names) k (star_enter (star_of star.now)) }
    requires leaves { IsCovered (length star.now.graph.names) k (star_leave (star_of star.now)) }
    ensures { IfOk result (SplitInto (length star.now.graph.names) k (star_of star.now)) }
{
    star.graph.known();
    let rows = split_many(alloc, star, k)?;
    written_out(alloc, rows.as_slice())
}

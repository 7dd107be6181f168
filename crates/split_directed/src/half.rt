ghost use Rattle.std.specs.Prelude.{◌≡◌, ◌++◌, ◌^◌, ◌<◌, ◌≤◌, length, map, slice_index, IfOk, OnOk};
ghost use Rattle.flow_cuts.specs.NewNode.{arc_by};
ghost use Rattle.split_directed.specs.Rows.{lowered};
ghost use Rattle.split_directed.specs.Ways.{end_of, arc_of, arcs_between};

use flow_cuts::{Cap, arcs_by};
use graph_core::{Counts, Line, NoMemory};
use problem_defs::Way;
use std::alloc::Global;

/// An arc from `u` to `t`, turned round where the arcs that enter a side are counted.
fn arc_of(way: Way, u: u32, t: u32, cap: u32) -> Cap
    ensures { result ≡ arc_of way u t cap }
{
    let (tail, head) = match way {
        Way::Entering => (t, u),
        Way::Leaving => (u, t),
    };
    Cap { tail, head, cap }
}

/// Of two nodes the one whose count falls where they are split off.
fn end_of(way: Way, u: u32, t: u32) -> u32
    ensures { result ≡ end_of way u t }
{
    match way {
        Way::Entering => t,
        Way::Leaving => u,
    }
}

/// One of the two functions of a star: the capacity of the arcs that leave a side, and the counts of its nodes. Where
/// the arcs are turned round, it counts those that enter the side.
#[derive(Drop)]
pub struct Half {
    pub arcs: Vec<Cap>,
    pub counts: Vec<u64>,
}

impl Half {
    pub fn of_star(
        alloc: Global,
        way: Way,
        lines: &[Line],
        counts: &Counts,
    ) -> Result<Half, NoMemory>
        ensures arcs { IfOk result (λ half. half.arcs.items ≡ map (arc_by way) lines.now) }
        ensures counts { IfOk result (λ half. half.counts.items ≡ counts.now) }
    {
        let arcs = arcs_by(alloc, way, lines)?;
        let counts = Vec::from_slice(alloc, counts.as_slice())?;
        Ok(Half { arcs, counts })
    }

    /// Splits off an arc from `u` and one to `t`, `c` times.
    pub fn split(&mut self, way: Way, u: u32, t: u32, c: u64) -> Result<(), NoMemory>
        requires small { c < 2 ^ 32 }
        requires there { end_of way u t < length self.old.counts.items }
        requires some { c ≤ slice_index self.old.counts.items (end_of way u t) }
        ensures arcs { OnOk result (self.new.arcs.items ≡ self.old.arcs.items ++ arcs_between way u t c) }
        ensures counts { OnOk result (self.new.counts.items ≡ lowered self.old.counts.items (end_of way u t) c) }
    {
        self.counts[end_of(way, u, t) as usize] -= c;
        if u != t {
            self.arcs.push(arc_of(way, u, t, c as u32))?;
        }
        Ok(())
    }
}

ghost use Rattle.std.specs.Prelude.{◌≡◌, ℕ, ◌<◌, ◌≤◌, length, map, not};
ghost use Rattle.flow_cuts.specs.Residual.{mirrored};
ghost use Rattle.graph_core.specs.Limits.{side_room};
ghost use Rattle.graph_core.specs.Side.{has};
ghost use Rattle.flow_cuts.specs.Search.{mark_at, is_seen};

use crate::network::Link;
use crate::search::{Mark, UNSEEN};
use graph_core::Side;

/// Writes down the nodes that are reached.
pub fn write_reached(marks: &[Mark], into: &mut Side)
    requires fits { length marks.now ≤ side_room }
    requires len { length into.old ≡ length marks.now }
    ensures len { length into.new ≡ length marks.now }
    ensures at { (v : ℕ) → v < length marks.now → has into.new v ≡ is_seen (mark_at marks.now v) }
{
    for v in 0..marks.len() as u32 {
        into.put(v, marks[v as usize].level < UNSEEN);
    }
}

/// Writes down the nodes that are not reached.
pub fn write_missed(marks: &[Mark], into: &mut Side)
    requires fits { length marks.now ≤ side_room }
    requires len { length into.old ≡ length marks.now }
    ensures len { length into.new ≡ length marks.now }
    ensures at { (v : ℕ) → v < length marks.now → has into.new v ≡ not (is_seen (mark_at marks.now v)) }
{
    for v in 0..marks.len() as u32 {
        into.put(v, marks[v as usize].level >= UNSEEN);
    }
}

/// Writes down the links with their two rooms exchanged.
pub fn reflect(links: &[Link], mirror: &mut [Link])
    requires { length mirror.old ≡ length links.now }
    ensures { mirror.new ≡ map mirrored links.now }
{
    for i in 0..links.len() {
        let link = links[i];
        mirror[i] = Link {
            forth: link.back,
            back: link.forth,
            ..link
        };
    }
}

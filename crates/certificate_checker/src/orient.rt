ghost use Rattle.std.specs.Prelude.{◌≡◌, ◌≤◌, ◌↔◌, length, IsTrue};
ghost use Rattle.problem_defs.specs.Claims.{forbidding, valueless};
ghost use Rattle.problem_defs.specs.Orient.{IsFeasible, Forbids};
ghost use Rattle.certificate_checker.specs.FirstLack.{FirstLack};

use crate::connected::is_connected_turned;
use crate::rejection::Rejection;
use graph_core::{Graph, Heads, Side};
use std::alloc::Global;

/// Judges an orientation.
pub fn judge_orientation(
    alloc: Global,
    graph: &Graph,
    k: u32,
    heads: &Heads,
) -> Result<(), Rejection>
    requires { length heads.now ≡ length graph.now.lines }
    ensures { FirstLack (valueless (IsFeasible k graph.now heads.now)) result }
{
    let Ok(feasible) = is_connected_turned(alloc, graph, heads, k) else {
        return Err(Rejection::NoMemory);
    };
    if !feasible {
        return Err(Rejection::Infeasible);
    }
    Ok(())
}

/// Whether the side is proper and has fewer than 2k edges.
fn forbids(graph: &Graph, k: u32, side: &Side) -> bool
    requires { length side.now ≡ length graph.now.names }
    ensures { IsTrue result ↔ Forbids k graph.now side.now }
{
    side.is_proper() && graph.degree(side) < 2 * k as u64
}

/// Judges a side that is to forbid each orientation.
pub fn judge_no_orientation(graph: &Graph, k: u32, side: &Side) -> Result<(), Rejection>
    requires { length side.now ≡ length graph.now.names }
    ensures { FirstLack (forbidding (Forbids k graph.now side.now) (IsFeasible k graph.now)) result }
{
    if !forbids(graph, k, side) {
        return Err(Rejection::BadDual);
    }
    Ok(())
}

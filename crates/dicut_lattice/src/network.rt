ghost use Rattle.std.specs.Prelude.{◌≡◌, ◌++◌, length, map, OnOk, IfOk};
ghost use Rattle.dicut_lattice.specs.Networks.{along, arcs_with, AreArcs};

use flow_cuts::{Cap, Flow, arcs_by};
use graph_core::{Graph, Line, NoMemory};
use problem_defs::Way;
use std::alloc::Global;

/// Puts arcs with this capacity along the lines behind the others.
fn push_along(arcs: &mut Vec<Cap>, lines: &[Line], cap: u32) -> Result<(), NoMemory>
    ensures { OnOk result (arcs.new.items ≡ arcs.old.items ++ map (along cap) lines.now) }
{
    for line in lines {
        arcs.push(Cap {
            tail: line.tail,
            head: line.head,
            cap,
        })?;
    }
    Ok(())
}

/// The network in which the capacity that leaves a side is the number of arcs that leave it, each taken `cap` times, and of
/// those arcs of a list that enter it.
pub(crate) fn network(
    alloc: Global,
    graph: &Graph,
    cap: u32,
    entering: &[Line],
) -> Result<Flow, NoMemory>
    requires { AreArcs graph.now entering.now }
    ensures nodes { IfOk result (λ flow. flow.nodes ≡ length graph.now.names) }
    ensures arcs { IfOk result (λ flow. flow.arcs ≡ arcs_with cap graph.now.lines entering.now) }
{
    graph.known();
    let mut arcs = arcs_by(alloc, Way::Entering, entering)?;
    push_along(&mut arcs, graph.lines(), cap)?;
    Flow::of_arcs(alloc, graph.node_count(), &arcs)
}

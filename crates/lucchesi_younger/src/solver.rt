ghost use Rattle.std.specs.Prelude.{◌≡◌, map, IfOk};
ghost use Rattle.problem_defs.specs.Dijoin.{Suits};
ghost use Rattle.problem_defs.specs.Dijoin.Outcomes.{IsOutcome};

use crate::raise::solve;
use crate::start::first_dijoin;
use crate::work::Solved;
use dicut_lattice::blocked;
use graph_core::{Counts, Graph, NoMemory};
use problem_defs::{Certified, DijoinAsk, DijoinOutcome};
use std::alloc::Global;

/// A dijoin without fixed arcs whose costs add up to the least, and as many closed sides, of which each arc
/// that isn't fixed enters at most as many as it costs; or a closed side that only fixed arcs enter
/// (Lucchesi and Younger). At costs of 0 any dijoin is a least one. The costs are then raised: of the arcs outside it at once,
/// and of each other arc by one at a time while it is in the dijoin.
pub fn dijoin(alloc: Global, graph: &Graph) -> Result<DijoinOutcome, NoMemory>
    requires { Suits graph.now }
    ensures { IfOk result (IsOutcome graph.now) }
{
    graph.known();
    if let Some(side) = blocked(alloc, graph)? {
        return Ok(DijoinOutcome::Never(side));
    }
    let join = first_dijoin(alloc, graph)?;
    let costs = arc_costs(alloc, graph)?;
    let solved = solve(alloc, graph, join, &costs)?;
    let Solved { join, sides } = solved;
    Ok(DijoinOutcome::Best(Certified {
        ask: DijoinAsk,
        object: join,
        dual: sides,
    }))
}

/// The cost of each arc.
fn arc_costs(alloc: Global, graph: &Graph) -> Result<Counts, NoMemory>
    ensures { IfOk result (λ counts. counts ≡ map (λ l. l.cost) graph.now.lines) }
{
    let mut costs = Counts::new(alloc);
    for line in graph.lines() {
        costs.push(line.cost as u64)?;
    }
    Ok(costs)
}

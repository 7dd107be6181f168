ghost use Rattle.std.specs.Prelude.{◌≡◌, IfOk};
ghost use Rattle.problem_defs.specs.Certified.{IsCertified};
ghost use Rattle.problem_defs.specs.Flow.{Suits};

use crate::flow::Flow;
use graph_core::{Graph, NoMemory, Side};
use problem_defs::{Certified, FlowAsk, Problem};
use std::alloc::Global;

/// The most disjoint walks from one node to another, and a cut that shows that there are no more (Menger's theorem, edge form).
pub fn most_walks(
    alloc: Global,
    graph: &Graph,
    from: u32,
    to: u32,
) -> Result<Certified<FlowAsk>, NoMemory>
    requires { Suits from to graph.now }
    ensures ask { IfOk result (λ found. found.ask ≡ record { from = from; to = to }) }
    ensures certified { IfOk result (λ found. IsCertified ⟦<FlowAsk as Problem>⟧ graph.now found.ask found.object found.dual) }
{
    graph.known();
    let n = graph.node_count();
    let mut inside = Side::empty(alloc, n)?;
    let mut outside = Side::empty(alloc, n)?;
    let mut dual = Side::empty(alloc, n)?;
    let mut flow = Flow::of_graph(alloc, graph)?;
    inside.hold_only(from);
    outside.hold_only(to);
    flow.run(&inside, &outside, graph.line_count() as u64 + 1);
    flow.side(&mut dual);
    let object = flow.walks(alloc)?;
    Ok(Certified {
        ask: FlowAsk { from, to },
        object,
        dual,
    })
}
